//! What a peer made of a request.

use rdma_types::RefusalReason;

/// What a peer made of a request.
#[derive(Clone, Copy)]
pub enum Reply {
    /// A Write, Send or Read acted.
    Finished,
    /// An atomic acted on this value.
    OldValue(u64),
    /// The request was refused.
    Denied(RefusalReason),
}
