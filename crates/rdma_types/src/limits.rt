//! Limits that several crates test (this project's choices).

/// The bytes of a message at most: 1 MiB.
pub const MOST_BYTES: u32 = 1_048_576;

/// The packet numbers of an end are below this one.
pub const NUMBER_LIMIT: u64 = 1 << 62;
