//! What bounds a guess, whatever the numbers are that it is made of.

ghost use Rattle.std.specs.Prelude.{◌≡◌, ◌-◌, ◌^◌, ◌<◌, ◌≤◌, min, pos, length, unsigned_abs, false, IfOk};
ghost use Rattle.grid_state.specs.GridState.{classes_of, is_free};
ghost use Rattle.grid_laplacian.specs.Sizes.{size_of};
ghost use Rattle.grid_laplacian.specs.Ranges.{HasRoomFor};
ghost use Rattle.sparse_factor.specs.Guesses.{IsGuess};
ghost use Rattle.sparse_factor.specs.Bounds.{IsLimit, AreBounded, AreSizes};

use crate::numbers::number_at;
use crate::shares::shifted;
use crate::sizes::Sizes;
use fb_types::Items;
use grid_laplacian::is_free;
use grid_state::State;
use std::alloc::{AllocError, Global};

/// The sum of the sizes of all numbers, or the greatest number of 128 bits.
pub fn total_of(p: &[i128]) -> u128
    ensures { result ≡ min (size_of p.now) (2 ^ 128 - 1) }
{
    let mut total: u128 = 0;
    for z in p {
        total = total.saturating_add(z.unsigned_abs());
    }
    total
}

/// The most that an angle may be where the right side adds up to `total`, by the sizes of the state.
pub(crate) fn limit_by(state: &State, sizes: &Sizes, total: u128) -> u128
    requires sizes { AreSizes state.now sizes.now }
    requires room { HasRoomFor state.now total }
    ensures { IsLimit state.now total result }
{
    state.sound();
    if sizes.greatest == 0 {
        return 0;
    }
    let greater = total.max(2 * sizes.total);
    2 * u128::from(sizes.live) * greater / u128::from(sizes.least)
}

/// The most that an angle may be where the right side adds up to `total`; 0 where no carrying branch joins two classes.
pub fn limit_of(state: &State, total: u128) -> u128
    requires { HasRoomFor state.now total }
    ensures { IsLimit state.now total result }
{
    limit_by(state, &Sizes::new(state), total)
}

/// Rounds numbers of so many binary places to the nearest whole number.
#[derive(Clone, Copy, Debug)]
pub(crate) struct Rounding {
    places: u32,
    half: i128,
}

impl Rounding {
    pub fn new(places: i64) -> Rounding {
        let places = places.clamp(0, 127);
        Rounding {
            places: places.unsigned_abs() as u32,
            half: shifted(shifted(1, places), -1),
        }
    }

    fn nearest(&self, z: i128) -> i128 {
        z.wrapping_add(self.half).wrapping_shr(self.places)
    }
}

/// The angle of a class that a number stands for, brought within the limit.
pub(crate) fn angle_of(
    state: &State,
    number: i128,
    rounding: &Rounding,
    limit: u128,
    class: u32,
) -> i128
    requires class { class < classes_of state.now }
    requires small { limit ≤ 2 ^ 121 }
    ensures within { unsigned_abs result ≤ limit }
    ensures fixed { is_free state.now class ≡ false → result ≡ pos 0 }
{
    if is_free(state, class) {
        let limit = limit as i128;
        let angle = rounding.nearest(number);
        angle.clamp(-limit, limit)
    } else {
        0
    }
}

/// The angles of all classes.
fn angles_of(
    alloc: Global,
    state: &State,
    numbers: &[i128],
    rounding: &Rounding,
    limit: u128,
) -> Result<Items<i128>, AllocError>
    requires { limit ≤ 2 ^ 121 }
    ensures { IfOk result (λ w. AreBounded state.now limit w (classes_of state.now)) }
{
    let mut angles = Items::from_vec(Vec::with_capacity(alloc, state.classes() as usize)?);
    for class in 0..state.classes() {
        let number = number_at(numbers, class);
        angles.add(angle_of(state, number, rounding, limit, class))?;
    }
    Ok(angles)
}

/// The guess for the right side p that numbers of so many binary places stand for, in a state of these sizes.
pub(crate) fn guess_by(
    alloc: Global,
    state: &State,
    sizes: &Sizes,
    p: &Items<i128>,
    numbers: &[i128],
    places: i64,
) -> Result<Items<i128>, AllocError>
    requires each_class { length p.now ≡ classes_of state.now }
    requires room { HasRoomFor state.now (size_of p.now) }
    requires sizes { AreSizes state.now sizes.now }
    ensures { IfOk result (λ w. IsGuess state.now (size_of p.now) w) }
{
    let total = total_of(p.as_slice());
    let limit = limit_by(state, sizes, total);
    angles_of(alloc, state, numbers, &Rounding::new(places), limit)
}

/// The same in any state.
pub(crate) fn guess_of(
    alloc: Global,
    state: &State,
    p: &Items<i128>,
    numbers: &[i128],
    places: i64,
) -> Result<Items<i128>, AllocError>
    requires each_class { length p.now ≡ classes_of state.now }
    requires room { HasRoomFor state.now (size_of p.now) }
    ensures { IfOk result (λ w. IsGuess state.now (size_of p.now) w) }
{
    guess_by(alloc, state, &Sizes::new(state), p, numbers, places)
}
