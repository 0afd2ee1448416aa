//! Letters, and what heads them on their way.

use rdma_types::Items;

/// A letter: its tag, and its body of at most 1,048,576 bytes.
#[derive(Drop)]
pub struct Letter {
    pub tag: u32,
    pub body: Items<u8>,
}

/// What the first 16 bytes of a message say.
#[derive(Clone, Copy)]
pub struct Header {
    /// Whether the body is to be fetched by a READ.
    pub fetched: bool,
    pub tag: u32,
    /// Bytes of the body.
    pub length: u32,
    /// The remote key of the sender's region, and 0 where nothing is to be fetched.
    pub rkey: u32,
}

/// A letter that arrived: its tag, and its body once that is here.
#[derive(Drop)]
pub struct Arrival {
    pub tag: u32,
    pub body: Option<Items<u8>>,
}
