//! Settling a world: rounds of draining, sending and timers until nothing changes, exactly as the written protocol
//! defines them, with the definition's own limits of rounds and of transmissions. Each step is one that `World::step`
//! allows.
#![tactic(auto)]

mod draining;
mod idle;
mod laws;
mod leaving;
mod notes;
mod rounds;
mod sending;
mod timers;

pub use laws::settled_worlds_are_quiet;
pub use rounds::Rounds;
