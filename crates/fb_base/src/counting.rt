//! A count of 64 bits that stays at its last value.

ghost use Rattle.std.specs.Prelude.{◌≡◌};
ghost use Rattle.fb_base.specs.Counts.{counted};

/// The count after one more.
pub(crate) fn one_more(count: u64) -> u64
    ensures { result ≡ counted count }
{
    count.saturating_add(1)
}
