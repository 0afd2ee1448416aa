//! Worked examples of memory: what a region grants, what is refused, and the bytes of a word, evaluated by the prover;
//! and tests of the calls that take memory.
//!
//! The functions do nothing. Each promises the equations that it names over the definitions that `memory_keys` keeps to.
//! That crate, `page_pool` and `byte_run` are tested here, so that their proofs are not made twice.

mod examples;
#[cfg(test)]
mod pages;
#[cfg(test)]
mod runs;
#[cfg(test)]
mod tests;

pub use examples::{
    a_busy_region_stays, a_dropped_region_is_gone, a_name_is_taken_once, a_region_needs_its_pages,
    a_word_is_big_endian, places_are_granted,
};
