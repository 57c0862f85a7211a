//! The K-Lamport clock.
#![tactic(auto)]

mod klamport;

pub use klamport::{KLamport, KLamportStamp};
