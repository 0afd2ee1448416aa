//! No line of a generated script is bad.
//!
//! The function changes nothing. It promises the law that it names.

mod laws;

pub use laws::no_generated_line_is_bad;
