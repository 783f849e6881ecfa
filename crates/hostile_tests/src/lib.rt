//! Tests of the call over hostile documents and certificates, over an outside that fails, and at the largest limits.
#![tactic(auto)]

#[cfg(test)]
mod checks;
#[cfg(test)]
mod documents;
#[cfg(test)]
mod large;
#[cfg(test)]
mod outside;
