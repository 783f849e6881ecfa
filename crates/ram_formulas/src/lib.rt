//! The remaining available margin of a row, as a span in picowatts.
#![tactic(auto)]

ghost use Rattle.std.specs.Prelude.{◌≡◌, ◌≤◌, ℤ, pos, ◌+ℤ◌, ◌-ℤ◌, ◌*ℤ◌, ◌≤ℤ◌};
ghost use Rattle.whole_laws.specs.Sums.{IsWithin};
ghost use Rattle.fb_span.specs.Ends.{EndsWithin};
ghost use Rattle.security.specs.Margins.{numbers_of};
ghost use Rattle.ram_formulas.specs.MarginSpans.{picowatts, margin_at, HoldsMargin};

use fb_span::Span;

/// The picowatts in a watt.
const PICOWATTS: i128 = 1_000_000_000_000;

/// The share of the limit that is to remain for exchanges, in thousandths of a watt.
fn share(limit: i64, ramr: u16) -> i128
    requires limit_in { IsWithin 100_000_000_000 limit }
    requires share_in { ramr ≤ 1000 }
    ensures value { result ≡ pos ramr *ℤ limit }
    ensures within { IsWithin 100_000_000_000_000 result }
{
    i128::from(ramr) * i128::from(limit)
}

/// The same share less the flow of exchanges outside Core.
fn shared(limit: i64, ramr: u16, fuaf: i128) -> i128
    requires limit_in { IsWithin 100_000_000_000 limit }
    requires share_in { ramr ≤ 1000 }
    requires fuaf_in { IsWithin 1_000_000_000_000_000_000_000_000 fuaf }
    ensures value { result ≡ (pos ramr *ℤ limit) *ℤ pos 1_000_000_000 -ℤ fuaf }
    ensures within { IsWithin 1_100_000_000_000_000_000_000_000 result }
{
    share(limit, ramr) * 1_000_000_000 - fuaf
}

/// A fifth of the limit.
fn fifth(limit: i64) -> i128
    requires { IsWithin 100_000_000_000 limit }
    ensures value { result ≡ limit *ℤ pos 200_000_000_000 }
    ensures within { IsWithin 20_000_000_000_000_000_000_000 result }
{
    i128::from(limit) * 200_000_000_000
}

/// What the limit leaves above the flow without exchanges of Core.
fn room(limit: i64, margin: i64, f0core: i128) -> i128
    requires limit_in { IsWithin 100_000_000_000 limit }
    requires margin_in { IsWithin 100_000_000_000 margin }
    requires f0core_in { IsWithin 4_000_000_000_000_000_000_000_000 f0core }
    ensures value { result ≡ (limit -ℤ margin) *ℤ picowatts -ℤ f0core }
    ensures within { IsWithin 4_200_000_000_000_000_000_000_000 result }
{
    i128::from(limit - margin) * PICOWATTS - f0core
}

/// What validation takes away.
fn reductions(cva: i64, iva: i64) -> i128
    requires cva_in { IsWithin 100_000_000_000 cva }
    requires iva_in { IsWithin 100_000_000_000 iva }
    ensures value { result ≡ (cva +ℤ iva) *ℤ picowatts }
    ensures within { IsWithin 200_000_000_000_000_000_000_000 result }
{
    i128::from(cva + iva) * PICOWATTS
}

/// The margin from one value of the flow without exchanges of Core and one of the flow of exchanges outside it.
fn margin_from(
    limit: i64,
    margin: i64,
    f0core: i128,
    fuaf: i128,
    ramr: u16,
    cva: i64,
    iva: i64,
) -> i128
    requires limit_in { (pos 1 ≤ℤ limit) × (limit ≤ℤ pos 100_000_000_000) }
    requires margin_in { (pos 0 ≤ℤ margin) × (margin ≤ℤ pos 100_000_000_000) }
    requires f0core_in { IsWithin 4_000_000_000_000_000_000_000_000 f0core }
    requires fuaf_in { IsWithin 1_000_000_000_000_000_000_000_000 fuaf }
    requires share_in { ramr ≤ 1000 }
    requires cva_in { (pos 0 ≤ℤ cva) × (cva ≤ℤ pos 100_000_000_000) }
    requires iva_in { (pos 0 ≤ℤ iva) × (iva ≤ℤ pos 100_000_000_000) }
    ensures value { result ≡ margin_at (numbers_of limit margin ramr cva iva) f0core fuaf }
    ensures within { IsWithin 5_000_000_000_000_000_000_000_000 result }
{
    let most = shared(limit, ramr, fuaf)
        .max(fifth(limit))
        .max(room(limit, margin, f0core));
    most - reductions(cva, iva)
}

/// The span of the remaining available margin, in picowatts, from the spans of the flow without exchanges of Core and of
/// the flow of exchanges outside it, both in picowatts. The limit, the reliability margin and the two reductions by
/// validation are in watts, and `ramr`, the share of the limit that is to remain for exchanges, is in thousandths.
/// (Core day-ahead capacity calculation methodology, ACER decision 02-2019, annex I.)
pub fn ram(
    limit: i64,
    margin: i64,
    f0core: Span<i128>,
    fuaf: Span<i128>,
    ramr: u16,
    cva: i64,
    iva: i64,
) -> Span<i128>
    requires limit_in { (pos 1 ≤ℤ limit) × (limit ≤ℤ pos 100_000_000_000) }
    requires margin_in { (pos 0 ≤ℤ margin) × (margin ≤ℤ pos 100_000_000_000) }
    requires f0core_in { EndsWithin 4_000_000_000_000_000_000_000_000 f0core }
    requires fuaf_in { EndsWithin 1_000_000_000_000_000_000_000_000 fuaf }
    requires share_in { ramr ≤ 1000 }
    requires cva_in { (pos 0 ≤ℤ cva) × (cva ≤ℤ pos 100_000_000_000) }
    requires iva_in { (pos 0 ≤ℤ iva) × (iva ≤ℤ pos 100_000_000_000) }
    ensures low { result.0 ≡ margin_at (numbers_of limit margin ramr cva iva) f0core.1 fuaf.1 }
    ensures high { result.1 ≡ margin_at (numbers_of limit margin ramr cva iva) f0core.0 fuaf.0 }
    ensures holds { HoldsMargin (numbers_of limit margin ramr cva iva) f0core fuaf result }
    ensures within { EndsWithin 5_000_000_000_000_000_000_000_000 result }
{
    f0core.sound();
    fuaf.sound();
    let low = margin_from(limit, margin, f0core.high(), fuaf.high(), ramr, cva, iva);
    let high = margin_from(limit, margin, f0core.low(), fuaf.low(), ramr, cva, iva);
    Span::between(low, high)
}
