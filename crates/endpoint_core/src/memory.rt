//! What an end is lent.

use end_queues::completion_queue::Cq;
use indexmap::IndexMap;
use memory_keys::Regions;
use page_pool::PagePool;
use rdma_types::Name;

/// What a step of an end may change besides the end: the pages of its device, the regions and completion queues of its
/// context, and the places of its two queues among these.
#[derive(Drop)]
pub struct EndMemory<'a> {
    pub pool: &'a mut PagePool,
    pub regions: &'a mut Regions,
    pub queues: &'a mut IndexMap<Name, Cq>,
    pub send: u32,
    pub recv: u32,
}
