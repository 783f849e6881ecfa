//! Lines and fields of a file in the UCTE data exchange format.
//!
//! A file is UTF-8 text, or ISO 8859-1 where its bytes are no UTF-8. Its fields stand in columns, and a column is a
//! character.
#![tactic(auto)]

pub mod fields;
pub mod lines;
