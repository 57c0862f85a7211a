//! What every layer above shares: why a call is refused, the eight ports, lawful orders, and clocks with their
//! combination.
#![tactic(auto)]

mod clocks;
mod combinations;
mod orders;
mod ports;
mod refusals;

pub use clocks::Clock;
pub use combinations::Combination;
pub use orders::Order;
pub use ports::Port;
pub use refusals::Refusal;
