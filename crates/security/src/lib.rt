//! What a flow-based domain promises, in definitions alone: when a list of net positions is secure, and what the rows of a domain
//! say of it. They are all exact: fractions, never spans. In the order of reading, each file of `specs` is one subject:
//!
//! 1. `Quotients`: quotients that always are.
//! 2. `Balances`: what is fed into the classes of a grid state, at the reference, by shift keys, and where zones have other net
//!    positions.
//! 3. `Flows`: the exact direct-current flows of a branch, and the zonal factors.
//! 4. `Exchanges`: the flow without exchanges of zones.
//! 5. `Margins`: the remaining available margin, and the most that a flow may be.
//! 6. `Spreads`: the zone-to-zone factor by which rows are selected.
//! 7. `Rows`: all these numbers of a row, by exact angles.
//! 8. `Points`: the flow of a row at a list of net positions, by nodal injections.
//! 9. `Secure`: when all rows are safe.
//! 10. `Capacity`: what a row, and what a domain, says of secure net positions.
//! 11. `Gaps`: how far the two sides of a row can be apart, from the grid alone.
//!
//! Two laws tell that shorter forms, which proofs use, are the same.
#![tactic(auto)]

ghost use Rattle.std.specs.Prelude.{List};
ghost use Rattle.fractions.specs.Fractions.{Fraction, Same, minus};
ghost use Rattle.security.specs.Exchanges.{ZoneOfRow, external_of};
ghost use Rattle.security.specs.Margins.{ElementNumbers, ram_of, top_of};
ghost use Rattle.security.specs.ShorterForms.{outside_of, shortened_ram_of};

/// Law: the flow of exchanges outside Core is the sum over the zones outside Core of factor times net position.
pub fn external_flow()
    ensures { (reference : Fraction) (zones : List ZoneOfRow)
        → Same (external_of reference zones) (outside_of zones) }
{}

/// Law: the margin with its adjustment written out is the greatest of three numbers less the reductions, and what the
/// flow without exchanges of Core leaves below the top.
pub fn margin()
    ensures shortened { (e : ElementNumbers) (f0core fuaf : Fraction)
        → Same (ram_of e f0core fuaf) (shortened_ram_of e f0core fuaf) }
    ensures below_top { (e : ElementNumbers) (f0core fuaf : Fraction)
        → Same (ram_of e f0core fuaf) (minus (top_of e f0core fuaf) f0core) }
{}
