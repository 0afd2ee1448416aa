//! What may stand next in a trace.

use rdma_types::Verb;

/// What may stand next in a trace.
#[derive(Drop)]
pub enum Due {
    /// Any line but one of an answer.
    Nothing,
    /// The first line of the answer to a verb, and nothing else.
    Answer(Verb),
    /// One more line of an answer, or any other.
    Rest,
}
