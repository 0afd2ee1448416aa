//! Tests of one end of a connection, and of its two halves.
//!
//! The crates `requester`, `responder` and `endpoint_core` are tested here, so that their proofs are not made twice.

#[cfg(test)]
mod ends;
#[cfg(test)]
mod replies;
#[cfg(test)]
mod requests;
