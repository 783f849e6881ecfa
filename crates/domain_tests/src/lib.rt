//! Tests of the call over whole cases: domains, their papers, and the workers that make them.
#![tactic(auto)]

#[cfg(test)]
mod domain;
#[cfg(test)]
mod flows;
#[cfg(test)]
mod papers;
#[cfg(test)]
mod shared;
#[cfg(test)]
mod workers;
