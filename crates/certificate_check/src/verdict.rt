//! The verdict on a certificate.

/// Why a record of a certificate fails, in the order in which reasons are tried.
#[derive(Clone, Copy, Debug, PartialEq, Eq)]
pub enum Reason {
    /// It is not the record that is due: another stands there, the version is not 1, or a cite does not remove a later row
    /// than the one before it.
    Order,
    /// It is no barrier of its state.
    Barrier,
    /// The column does not enclose the angles of its right side.
    Angle,
    /// Kappa is 1 where the column encloses them with 0 too.
    Kappa,
    /// The class of the row is not the one that the proofs of the states give.
    Class,
    /// The coefficients of the row are not those that they give.
    Coefficient,
    /// The right sides of the row are not those that they give.
    RightSide,
    /// The cite removes a row that is not in its list, or cites one that is not kept there.
    Cited,
    /// The row that the cite removes does not follow from the rows that it cites.
    Follows,
}

/// The verdict on a certificate.
#[derive(Clone, Copy, Debug, PartialEq, Eq)]
pub enum Verdict {
    /// The certificate is valid.
    Yes,
    /// This is the first record that fails, counted from 1 at the version, and the first reason there.
    No { row: u64, reason: Reason },
}
