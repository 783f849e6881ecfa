//! The reference flow of a row, and without the exchanges of zones: spans in picowatts that hold the exact flow.
#![tactic(auto)]

ghost use Rattle.std.specs.Prelude.{◌≡◌, ◌≤◌, ◌*◌, ◌+ℤ◌, nat_abs, length, true, false};
ghost use Rattle.std.specs.List.{All};
ghost use Rattle.whole_laws.specs.Sums.{IsWithin};
ghost use Rattle.fb_span.specs.Ends.{EndsWithin};
ghost use Rattle.reference_flows.specs.WithoutExchanges.{least_exchange, greatest_exchange, exchanges_span, counted_of, counted_positions, less_exchanges, sizes_of, HoldsWithoutCore, HoldsWithoutAny, HoldsExternal};

mod reference;

use fb_span::Span;
use fb_types::Items;
pub use reference::reference_span;

/// What the exchange of a zone puts on a row.
fn exchange(factor: Span<i128>, position: i64) -> Span<i128>
    requires factor_in { EndsWithin 1_000_000_000_000 factor }
    requires position_in { nat_abs position ≤ 1_000_000_000_000 }
    ensures value { result ≡ (least_exchange (factor, position), greatest_exchange (factor, position)) }
    ensures within { EndsWithin (nat_abs position * 1_000_000_000_000) result }
{
    match factor.scale(i128::from(position)) {
        Some(span) => span,
        None => unreachable!(),
    }
}

/// The sum of two spans.
fn sum(a: Span<i128>, b: Span<i128>) -> Span<i128>
    requires a_in { EndsWithin 1_000_000_000_000_000_000_000_000 a }
    requires b_in { EndsWithin 1_000_000_000_000_000_000_000_000 b }
    ensures { result ≡ (a.0 +ℤ b.0, a.1 +ℤ b.1) }
{
    match a.add(b) {
        Some(span) => span,
        None => unreachable!(),
    }
}

/// What the exchanges of all zones put on a row.
fn all_exchanges(factors: &[Span<i128>], positions: &[i64]) -> Span<i128>
    requires as_many { length positions.now ≡ length factors.now }
    requires factors_in { All (EndsWithin 1_000_000_000_000) factors.now }
    requires positions_in { sizes_of positions.now ≤ 1_000_000_000_000 }
    ensures value { result ≡ exchanges_span factors.now positions.now }
    ensures within { EndsWithin 1_000_000_000_000_000_000_000_000 result }
{
    let mut total = Span::exactly(0);
    for zone in 0..factors.len() {
        let exchange = exchange(factors[zone], positions[zone]);
        total = sum(total, exchange);
    }
    total
}

/// The net position of a zone that counts, and 0 for one that does not.
fn counted(core: bool, position: i64, is_core: bool) -> i64
    ensures { result ≡ counted_of core position is_core }
{
    if is_core == core { position } else { 0 }
}

/// What the exchanges of the zones of Core, or of the others, put on a row.
fn exchanges_where(
    core: bool,
    factors: &[Span<i128>],
    positions: &[i64],
    cores: &[bool],
) -> Span<i128>
    requires as_many { length positions.now ≡ length factors.now }
    requires as_many_cores { length cores.now ≡ length factors.now }
    requires factors_in { All (EndsWithin 1_000_000_000_000) factors.now }
    requires positions_in { sizes_of positions.now ≤ 1_000_000_000_000 }
    ensures value { result ≡ exchanges_span factors.now (counted_positions core positions.now cores.now) }
    ensures within { EndsWithin 1_000_000_000_000_000_000_000_000 result }
{
    let mut total = Span::exactly(0);
    for zone in 0..factors.len() {
        let position = counted(core, positions[zone], cores[zone]);
        let exchange = exchange(factors[zone], position);
        total = sum(total, exchange);
    }
    total
}

/// The reference flow less exchanges.
fn less(reference: Span<i128>, exchanges: Span<i128>) -> Span<i128>
    requires reference_in { EndsWithin 3_000_000_000_000_000_000_000_000 reference }
    requires exchanges_in { EndsWithin 1_000_000_000_000_000_000_000_000 exchanges }
    ensures value { result ≡ less_exchanges reference exchanges }
    ensures within { EndsWithin 4_000_000_000_000_000_000_000_000 result }
{
    match reference.sub(exchanges) {
        Some(span) => span,
        None => unreachable!(),
    }
}

/// The span of the flow of a row without the exchanges of the zones of Core (F0,Core), in picowatts: the reference flow less the
/// sum of factor times net position over the zones of Core. The factors are in 10^-12, the net positions at the reference in
/// watts, one of each for every zone. (Core day-ahead capacity calculation methodology, ACER decision 02-2019, annex I.)
pub fn without_core(
    reference: Span<i128>,
    factors: &Items<Span<i128>>,
    positions: &Items<i64>,
    core: &Items<bool>,
) -> Span<i128>
    requires as_many { length positions.now ≡ length factors.now }
    requires as_many_cores { length core.now ≡ length factors.now }
    requires reference_in { EndsWithin 3_000_000_000_000_000_000_000_000 reference }
    requires factors_in { All (EndsWithin 1_000_000_000_000) factors.now }
    requires positions_in { sizes_of positions.now ≤ 1_000_000_000_000 }
    ensures value { result ≡ less_exchanges reference (exchanges_span factors.now (counted_positions true positions.now core.now)) }
    ensures within { EndsWithin 4_000_000_000_000_000_000_000_000 result }
    ensures holds { HoldsWithoutCore reference factors.now positions.now core.now result }
{
    let exchanges = exchanges_where(
        true,
        factors.as_slice(),
        positions.as_slice(),
        core.as_slice(),
    );
    less(reference, exchanges)
}

/// The span of the flow of a row without the exchanges of any zone (F0,all), in picowatts: the reference flow less the sum of factor
/// times net position over all zones, in the units of [`without_core`].
pub fn without_any(
    reference: Span<i128>,
    factors: &Items<Span<i128>>,
    positions: &Items<i64>,
) -> Span<i128>
    requires as_many { length positions.now ≡ length factors.now }
    requires reference_in { EndsWithin 3_000_000_000_000_000_000_000_000 reference }
    requires factors_in { All (EndsWithin 1_000_000_000_000) factors.now }
    requires positions_in { sizes_of positions.now ≤ 1_000_000_000_000 }
    ensures value { result ≡ less_exchanges reference (exchanges_span factors.now positions.now) }
    ensures within { EndsWithin 4_000_000_000_000_000_000_000_000 result }
    ensures holds { HoldsWithoutAny reference factors.now positions.now result }
{
    less(
        reference,
        all_exchanges(factors.as_slice(), positions.as_slice()),
    )
}

/// The span of the flow of the exchanges outside Core (Fuaf, F0,Core less F0,all), in picowatts: the sum of factor times net
/// position over the zones outside Core, in the units of [`without_core`].
pub fn external(
    factors: &Items<Span<i128>>,
    positions: &Items<i64>,
    core: &Items<bool>,
) -> Span<i128>
    requires as_many { length positions.now ≡ length factors.now }
    requires as_many_cores { length core.now ≡ length factors.now }
    requires factors_in { All (EndsWithin 1_000_000_000_000) factors.now }
    requires positions_in { sizes_of positions.now ≤ 1_000_000_000_000 }
    ensures value { result ≡ exchanges_span factors.now (counted_positions false positions.now core.now) }
    ensures within { EndsWithin 1_000_000_000_000_000_000_000_000 result }
    ensures holds { HoldsExternal factors.now positions.now core.now result }
{
    exchanges_where(
        false,
        factors.as_slice(),
        positions.as_slice(),
        core.as_slice(),
    )
}
