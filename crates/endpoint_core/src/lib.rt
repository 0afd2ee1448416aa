//! One end of a connection, whole: its requests, its responses and its moves, with the completions of its work.
#![tactic(auto)]

mod answers;
mod copying;
mod due;
mod end;
mod failing;
mod laws;
mod making;
mod memory;
mod moving;
mod posting;
mod queues;
mod responding;
mod sending;
mod serving;
mod taking;

pub use answers::{BadState, DueRead, EndEffect, EndReply, EndSend};
pub use end::{EndLink, Endpoint};
pub use laws::{an_end_stays, reservations_are_the_protocols};
pub use memory::EndMemory;
