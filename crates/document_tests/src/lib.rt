//! Tests of the call over documents of each kind, in order and out of order, and of the commands `rows` and `net`.
#![tactic(auto)]

#[cfg(test)]
mod cracs;
#[cfg(test)]
mod grids;
#[cfg(test)]
mod keys;
#[cfg(test)]
mod net;
#[cfg(test)]
mod rows;
#[cfg(test)]
mod settings;
