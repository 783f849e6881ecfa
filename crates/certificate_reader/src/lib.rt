//! Reading the text of a certificate: the one certificate that the bytes are, or the first record that is not one.
#![tactic(auto)]

mod citations;
mod draft;
pub mod laws;
mod reader;
mod record;
mod values;

pub use reader::{CertificateError, read_certificate};
