//! The image of a stopped context as bytes, both ways: in one piece, or in pieces of any lengths (the format is this
//! project's choice).
#![tactic(auto)]

mod laws;
mod reader;

pub use dump_reader::{DumpFault, decode_dump};
pub use dump_writer::{DumpWriter, dump_length, dump_text, encode_dump};
pub use laws::an_image_through_its_bytes_is_the_same;
pub use reader::DumpReader;

#[cfg(test)]
mod tests;
