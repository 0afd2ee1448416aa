//! What is still to be done for completions that were polled.

/// The two ends of a connection.
#[derive(Clone, Copy)]
pub enum Side {
    AtReceiver,
    AtSender,
}

/// A body that is to be fetched: its bytes, and the remote key of the region where it stands.
#[derive(Clone, Copy)]
pub struct Fetch {
    pub length: u32,
    pub rkey: u32,
}

/// What is still to be done for one completion of connection `i`.
#[derive(Clone, Copy)]
pub enum Due {
    /// A message of so many bytes is copied out of a place of the receiver.
    CopyMessage {
        i: u8,
        place: u8,
        length: u32,
    },
    /// The place is posted as a receive again; and then a body is to be fetched, or none.
    Repost {
        i: u8,
        place: u8,
        fetch: Option<Fetch>,
    },
    /// The body is fetched.
    PostRead {
        i: u8,
        fetch: Fetch,
    },
    /// The body that was fetched, of so many bytes, is copied.
    CopyBody {
        i: u8,
        length: u32,
    },
    /// A Send of no bytes frees the sender's slot.
    PostFree {
        i: u8,
    },
    /// The sender's slot is free.
    FreeSlot {
        i: u8,
        place: u8,
    },
    /// The sender's receive is posted again.
    RepostAtSender {
        i: u8,
        place: u8,
    },
}
