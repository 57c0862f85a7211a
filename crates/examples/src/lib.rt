//! A clock from outside the library, and examples of what the crates below do, run as tests.
#![tactic(auto)]

mod scalar;

pub use scalar::{Scalar, ScalarStamp};

#[cfg(test)]
mod accounts;
#[cfg(test)]
mod adding;
#[cfg(test)]
mod causes;
#[cfg(test)]
mod clocks;
