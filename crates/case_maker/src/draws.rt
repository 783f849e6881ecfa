//! The numbers that are drawn for a case.

ghost use Rattle.std.specs.Prelude.{◌≡◌, ℕ, ◌<◌};
ghost use Rattle.case_maker.specs.Drawing.{next_state, drawn_from};

/// A linear congruential generator of 64 bits.
#[derive(Debug, Drop)]
pub(crate) struct Draws {
    state: u64,
}

impl Draws {
    /// The generator that begins with a number.
    pub(crate) fn new(number: u64) -> Draws
        ensures { result.state ≡ number }
    {
        Draws { state: number }
    }

    /// The next number, from 0 to `below - 1`: the upper 31 bits of the next state, modulo `below`.
    pub(crate) fn draw(&mut self, below: u32) -> u32
        requires { 0 < below }
        ensures moved { self.new.state ≡ next_state self.old.state }
        ensures drawn { result ≡ drawn_from self.new.state below }
        ensures small { result < below }
    {
        self.state = self
            .state
            .wrapping_mul(6_364_136_223_846_793_005)
            .wrapping_add(1_442_695_040_888_963_407);
        (self.state / (1 << 33) % u64::from(below)) as u32
    }
}
