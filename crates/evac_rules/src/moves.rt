//! What becomes of the contexts of a device that is emptied.

use rdma_types::Name;

/// A context that moved, and the id of the device that it moved to.
#[derive(Clone, Copy)]
pub struct Shifted {
    pub context: Name,
    pub target: u8,
}

/// Why a context stays on the device that is to be emptied.
#[derive(Clone, Copy)]
pub enum StayReason {
    /// The partner of one of its ends moves: it is carried, or was not heard since its own move.
    PeerMoving,
    /// One of its ends moved as often as may be, or the device has as many husks as may be.
    TooMany,
    /// No target takes it.
    NoTarget,
}
