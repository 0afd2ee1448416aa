//! The image of a stopped context from its bytes (the format is this project's choice).
#![tactic(auto)]

mod cursor;
mod decode;
mod end_steps;
mod fault;
mod fields;
mod groups;
mod heads;
mod lists;
mod machine;
mod overfull;
mod places;
mod read_progress;
mod requests;
mod steps;

pub use cursor::Offence;
pub use decode::decode_dump;
pub use fault::DumpFault;
pub use read_progress::ReadProgress;
