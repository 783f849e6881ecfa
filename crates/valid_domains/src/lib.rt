//! What holds of every valid certificate of whole inputs, whoever made it: what a domain promises, and the ranges of
//! its numbers. All of it computes nothing.
#![tactic(auto)]

ghost use Rattle.fb_certificate.specs.Valid.{AreProofs, AreRowsOf, IsValid};
ghost use Rattle.fb_certificate.specs.Whole.{IsWhole};
ghost use Rattle.valid_domains.specs.Ranges.{AreRowsInRange, HasNumbersInRange};
ghost use Rattle.valid_domains.specs.Sound.{IsSoundDomain};

use fb_certificate::{Certificate, Inputs, RowProof, StateProof};
use fb_types::Items;

/// Law: every valid certificate of whole inputs is that of a sound domain. Every balanced list of net positions in the
/// box that meets its inner rows is secure, and every secure one meets its outer rows; each row's two sides are no
/// further apart than the bound of its branch and state, and a row is doubtful only where its exact spread is near the
/// threshold.
pub fn sound(_inputs: &Inputs, _certificate: &Certificate)
    requires whole { IsWhole _inputs.now }
    requires valid { IsValid _inputs.now _certificate.now }
    ensures { IsSoundDomain _inputs.now _certificate.now }
{}

/// Law: the rows that the proofs of the states give are rows over the zones of Core, with either side. The coefficients
/// of each are within 10^12, and its right sides within 2·10^13 W.
pub fn row_ranges(_inputs: &Inputs, _states: &Items<StateProof>, _rows: &Items<RowProof>)
    requires whole { IsWhole _inputs.now }
    requires proofs { AreProofs _inputs.now _states.now }
    requires rows { AreRowsOf _inputs.now _states.now _rows.now }
    ensures { AreRowsInRange _inputs.now _rows.now }
{}

/// Law: in every valid certificate of whole inputs all numbers are in the ranges that its text takes. Beside those of
/// its rows, barriers are within 6·10^14 and enclosed angles within 2^121.
pub fn ranges(_inputs: &Inputs, _certificate: &Certificate)
    requires whole { IsWhole _inputs.now }
    requires valid { IsValid _inputs.now _certificate.now }
    ensures { HasNumbersInRange _inputs.now _certificate.now }
{}
