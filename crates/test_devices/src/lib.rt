//! Tests of devices that exchange datagrams, of one end of a connection, and of what it stands on: memory and queues.
#![tactic(auto)]

#[cfg(test)]
mod datagram_memory;
pub mod endpoints;
#[cfg(test)]
mod exchange;
pub mod memory;
#[cfg(test)]
mod net;
#[cfg(test)]
mod opening;
#[cfg(test)]
mod plays;
pub mod queues;
#[cfg(test)]
mod tests;
