//! Runs of bytes in pages, so that many bytes are held and handed on without one long block of memory. Copies of a run
//! share its list of pages, so a copy costs the same however long the run is.
//! The size of a page is this project's choice.
#![tactic(auto)]

mod run;

pub use run::{ByteRun, put_alone};

/// How many bytes a page has.
pub const PAGE: usize = 4096;
