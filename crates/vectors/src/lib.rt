//! Clocks whose stamps are entries that the ports own: the full vector, and the R-entries vector.
#![tactic(auto)]

mod clocks;
mod counters;
mod entries;
mod stamps;

pub use clocks::{EntriesVector, FullVector, Rev};
pub use stamps::{EntriesStamp, RevStamp, VectorStamp};
