//! Posted requests.

ghost use Rattle.std.specs.Prelude.{◌≡◌};

use page_pool::Payload;
use rdma_types::Request;

/// A request of the send queue, and the bytes of a Write or Send as they were when it was posted (this project's choice:
/// inline data, of any length).
#[derive(Drop)]
pub struct QueuedRequest {
    pub request: Request,
    /// It has no bytes for a Read or an atomic.
    pub payload: Payload,
}

impl QueuedRequest {
    /// The same request, for a copy of its pool.
    pub fn in_copied_pool(&self) -> QueuedRequest
        ensures { result ≡ self.now }
    {
        QueuedRequest {
            request: self.request,
            payload: self.payload.in_copied_pool(),
        }
    }
}
