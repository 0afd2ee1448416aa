//! Worked examples of what bytes that arrive may change, evaluated by the prover.
//!
//! The functions do nothing. Each promises the offsets of the bytes of a region that a datagram may change.

mod examples;

pub use examples::{
    a_message_in_progress_is_touched, a_write_touches_its_bytes, receives_and_reads_are_touched,
};
