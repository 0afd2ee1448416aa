//! The bytes of the image of a stopped context, in one piece or in pieces of any lengths (the format is this project's
//! choice).
#![tactic(auto)]

mod chunk;
mod fields;
mod length;
mod stages;
mod text;
mod writer;

pub use length::dump_length;
pub use text::dump_text;
pub use writer::{DumpWriter, encode_dump};
