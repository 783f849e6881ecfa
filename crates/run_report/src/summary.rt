//! The counts of a report, and the greatest gap.

ghost use Rattle.std.specs.Prelude.{◌≡◌};
ghost use Rattle.std.specs.Int.{int_max};
ghost use Rattle.std.specs.List.{fold};
ghost use Rattle.run_settings.specs.Laws.{core_bounds};
ghost use Rattle.fb_certificate.specs.Lists.{AreCites, inner_list, outer_list};
ghost use Rattle.run_report.specs.ReportTexts.{count_where, gap_of, greatest_gap, is_below, is_doubtful, kept_count, removed_count};

use cnec_selection::Class;
use fb_certificate::{Certificate, Inputs, RowProof};

/// What a report says of all rows.
#[derive(Debug, Drop)]
pub(crate) struct Summary {
    /// How many rows are BELOW.
    pub below: u64,
    /// How many rows are DOUBTFUL.
    pub doubtful: u64,
    /// The greatest gap of a row, in watts: 0 where there is no row.
    pub greatest_gap: i128,
    /// How many rows are kept in the inner list, and how many removed from it.
    pub inner_kept: u64,
    pub inner_removed: u64,
    /// How many rows are kept in the outer list, and how many removed from it.
    pub outer_kept: u64,
    pub outer_removed: u64,
}

/// The counts of a certificate whose removed rows follow from kept ones, and its greatest gap.
pub(crate) fn summary_of(inputs: &Inputs, certificate: &Certificate) -> Summary
    requires inner { AreCites inner_list (core_bounds inputs.now.settings.zones) certificate.now.rows certificate.now.inner }
    requires outer { AreCites outer_list (core_bounds inputs.now.settings.zones) certificate.now.rows certificate.now.outer }
    ensures below { result.below ≡ count_where is_below certificate.now.rows }
    ensures doubtful { result.doubtful ≡ count_where is_doubtful certificate.now.rows }
    ensures greatest_gap { result.greatest_gap ≡ greatest_gap certificate.now.rows }
    ensures inner_kept { result.inner_kept ≡ kept_count inner_list certificate.now.rows certificate.now.inner }
    ensures inner_removed { result.inner_removed ≡ removed_count certificate.now.inner }
    ensures outer_kept { result.outer_kept ≡ kept_count outer_list certificate.now.rows certificate.now.outer }
    ensures outer_removed { result.outer_removed ≡ removed_count certificate.now.outer }
{
    let rows = certificate.rows.as_slice();
    let below = below_count(rows);
    let doubtful = doubtful_count(rows);
    let inner = rows.len() as u64 - below;
    let outer = inner - doubtful;
    let inner_removed = certificate.inner.len();
    let outer_removed = certificate.outer.len();
    Summary {
        below,
        doubtful,
        greatest_gap: greatest_gap(rows),
        inner_kept: inner - inner_removed,
        inner_removed,
        outer_kept: outer - outer_removed,
        outer_removed,
    }
}

/// How many rows are BELOW.
fn below_count(rows: &[RowProof]) -> u64
    ensures { result ≡ count_where is_below rows.now }
{
    rows.iter().filter(|row| is_below(row.class)).count() as u64
}

/// How many rows are DOUBTFUL.
fn doubtful_count(rows: &[RowProof]) -> u64
    ensures { result ≡ count_where is_doubtful rows.now }
{
    rows.iter().filter(|row| is_doubtful(row.class)).count() as u64
}

fn is_below(class: Class) -> bool
    ensures { result ≡ is_below class }
{
    match class {
        Class::Below => true,
        Class::Doubtful => false,
        Class::Certain => false,
    }
}

fn is_doubtful(class: Class) -> bool
    ensures { result ≡ is_doubtful class }
{
    match class {
        Class::Below => false,
        Class::Doubtful => true,
        Class::Certain => false,
    }
}

/// The greatest gap of a row, in watts: 0 where there is no row.
fn greatest_gap(rows: &[RowProof]) -> i128
    ensures { result ≡ greatest_gap rows.now }
{
    match rows.split_first() {
        None => 0,
        Some((first, rest)) => greatest_from(gap(first), rest),
    }
}

/// The greatest of a gap and the gaps of rows, in watts.
fn greatest_from(first: i128, rows: &[RowProof]) -> i128
    ensures { result ≡ fold (λ gap r. int_max gap (gap_of r)) first rows.now }
{
    let mut greatest = first;
    for row in rows {
        greatest = greatest.max(gap(row));
    }
    greatest
}

/// The gap of a row, in watts: its right side in the outer list less that in the inner one.
pub(crate) fn gap(row: &RowProof) -> i128
    ensures { result ≡ gap_of row.now }
{
    i128::from(row.r_out) - i128::from(row.r_in)
}
