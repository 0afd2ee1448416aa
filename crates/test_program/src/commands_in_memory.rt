//! Tests of whole runs of commands.
//!
//! The crate `commands` is tested here, so that its proofs are not made twice.

#[cfg(test)]
mod tests;
