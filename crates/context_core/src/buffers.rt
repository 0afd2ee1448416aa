//! Memory for datagrams that is filled again.

ghost use Rattle.std.specs.Prelude.{◌≡◌, ◌≢◌, ◌<◌, ◌≤◌, ◌-◌, ◌||◌, [], IfOk, IfSome, IsOk, None, OnOk, is_some, nat_lt, slice_get, vec_capacity, vec_len};
ghost use Rattle.context_core.specs.Buffers.{IsPut};
ghost use Rattle.context_core.specs.Rooms.{HasRoomFor, HoldsBytes};

use crate::datagrams::{FEW_BYTES, FEWEST_BYTES};
use crate::rooms::DatagramRoom;
use page_pool::PAGE;
use rdma_types::Sent;
use std::alloc::{AllocError, Global};

/// How many buffers of each kind are kept.
const MOST_SPARE: usize = 1024;

/// Memory for datagrams that is filled again: large, small and tiny buffers that datagrams were in before, a list of
/// datagrams, memory for one datagram, and room for a payload that spans two pages. A small buffer has room for 256 bytes, a large one
/// for more, and a tiny one for 64.
#[derive(Drop)]
pub struct Buffers {
    large: Vec<Vec<u8>>,
    small: Vec<Vec<u8>>,
    tiny: Vec<Vec<u8>>,
    list: Option<Vec<Sent>>,
    pub(crate) room: DatagramRoom,
    pub(crate) payload: Box<[u8; PAGE]>,
}

/// An empty buffer for at least so many bytes: the last spare one, if it is large enough; else that one is freed, and a
/// new one is made. Errors: `AllocError` when out of memory.
fn taken(spare: &mut Vec<Vec<u8>>, alloc: Global, most: usize) -> Result<Vec<u8>, AllocError>
    ensures room { IfOk result (λ v. (v.items ≡ []) × (most ≤ vec_capacity v)) }
    ensures spare { IfSome (slice_get spare.old.items (vec_len spare.old - 1))
        (λ v. most ≤ vec_capacity v → IsOk result) }
{
    if let Some(mut buffer) = spare.pop() {
        if buffer.capacity() >= most {
            buffer.clear();
            return Ok(buffer);
        }
    }
    Vec::with_capacity(alloc, most)
}

/// A buffer for at least so many bytes is there from now on. Errors: `AllocError` when out of memory.
fn keep(
    slot: &mut Option<Vec<u8>>,
    spare: &mut Vec<Vec<u8>>,
    alloc: Global,
    most: usize,
) -> Result<(), AllocError>
    ensures { OnOk result (HoldsBytes slot.new most) }
{
    if let Some(buffer) = slot {
        if buffer.capacity() >= most {
            return Ok(());
        }
    }
    *slot = Some(taken(spare, alloc, most)?);
    Ok(())
}

/// Keeps a buffer behind the others, where there is room for it, and else frees it. It takes no memory.
fn put(spare: &mut Vec<Vec<u8>>, buffer: Vec<u8>)
    ensures { IsPut spare.old spare.new buffer }
{
    if spare.len() < spare.capacity() {
        spare.push(buffer).unwrap();
    }
}

impl Buffers {
    /// Room for buffers, of which there are none yet, and for a payload. Errors: `AllocError` when out of memory.
    pub fn make(alloc: Global) -> Result<Buffers, AllocError>
        ensures { IfOk result (λ b. (b.large.items ≡ []) × (1024 ≤ vec_capacity b.large)
            × (b.small.items ≡ []) × (1024 ≤ vec_capacity b.small) × (b.tiny.items ≡ [])
            × (1024 ≤ vec_capacity b.tiny) × (b.list ≡ None)) }
    {
        Ok(Buffers {
            large: Vec::with_capacity(alloc, MOST_SPARE)?,
            small: Vec::with_capacity(alloc, MOST_SPARE)?,
            tiny: Vec::with_capacity(alloc, MOST_SPARE)?,
            list: None,
            room: DatagramRoom::none(),
            payload: Box::new(alloc, [0; PAGE])?,
        })
    }

    /// An empty buffer for at least so many bytes: the last one of its kind that was given back, if it is large enough,
    /// and else a new one. Errors: `AllocError` when out of memory.
    #[inline(always)]
    pub(crate) fn take(&mut self, alloc: Global, most: usize) -> Result<Vec<u8>, AllocError>
        ensures { IfOk result (λ v. (v.items ≡ []) × (most ≤ vec_capacity v)) }
    {
        if most <= FEWEST_BYTES {
            return taken(&mut self.tiny, alloc, FEWEST_BYTES);
        }
        if most <= FEW_BYTES {
            return taken(&mut self.small, alloc, FEW_BYTES);
        }
        taken(&mut self.large, alloc, most)
    }

    /// Memory for one datagram of at most so many bytes is there from now on. Errors: `AllocError` when out of memory.
    #[inline(always)]
    pub(crate) fn make_room(&mut self, alloc: Global, most: usize) -> Result<(), AllocError>
        ensures { OnOk result (HasRoomFor self.new.room most) }
    {
        keep(&mut self.room.tiny, &mut self.tiny, alloc, FEWEST_BYTES)?;
        keep(&mut self.room.small, &mut self.small, alloc, FEW_BYTES)?;
        if most > FEW_BYTES {
            keep(&mut self.room.large, &mut self.large, alloc, most)?;
        }
        Ok(())
    }

    /// An empty list with room for so many datagrams: the one that is kept, if it has room for them, and else a new one.
    /// Errors: `AllocError` when out of memory.
    pub(crate) fn take_list(&mut self, alloc: Global, count: usize) -> Result<Vec<Sent>, AllocError>
        ensures { IfOk result (λ l. (l.items ≡ []) × (count ≤ vec_capacity l)) }
    {
        if let Some(mut list) = self.list.take() {
            if list.capacity() >= count {
                list.clear();
                return Ok(list);
            }
        }
        Vec::with_capacity(alloc, count)
    }

    /// Keeps a buffer, among the large ones where it has room for more than 256 bytes, among the small ones where it has
    /// room for 256, and among the tiny ones where it has room for 64. Any other is freed, and so is one where 1,024 of its
    /// kind are kept. It takes no memory.
    #[inline(always)]
    pub fn give(&mut self, buffer: Vec<u8>)
        ensures large { 256 < vec_capacity buffer
            → IsPut self.old.large self.new.large buffer × (self.new.small ≡ self.old.small)
            × (self.new.tiny ≡ self.old.tiny) }
        ensures small { vec_capacity buffer ≡ 256
            → IsPut self.old.small self.new.small buffer × (self.new.large ≡ self.old.large)
            × (self.new.tiny ≡ self.old.tiny) }
        ensures tiny { vec_capacity buffer ≡ 64
            → IsPut self.old.tiny self.new.tiny buffer × (self.new.large ≡ self.old.large)
            × (self.new.small ≡ self.old.small) }
        ensures other { vec_capacity buffer < 256 → vec_capacity buffer ≢ 64 → self.new ≡ self.old }
        ensures rest { (self.new.list ≡ self.old.list) × (self.new.room ≡ self.old.room)
            × (self.new.payload ≡ self.old.payload) }
    {
        if buffer.capacity() > FEW_BYTES {
            put(&mut self.large, buffer);
        } else if buffer.capacity() == FEW_BYTES {
            put(&mut self.small, buffer);
        } else if buffer.capacity() == FEWEST_BYTES {
            put(&mut self.tiny, buffer);
        }
    }

    /// Keeps the memory of a list of datagrams, where it has room for one and none is kept, and else frees it. What is in
    /// the list goes. It takes no memory.
    pub fn give_list(&mut self, mut list: Vec<Sent>)
        ensures list { is_some self.new.list
            ≡ (is_some self.old.list || nat_lt 0 (vec_capacity list)) }
        ensures rest { (self.new.large ≡ self.old.large) × (self.new.small ≡ self.old.small)
            × (self.new.tiny ≡ self.old.tiny) × (self.new.room ≡ self.old.room)
            × (self.new.payload ≡ self.old.payload) }
    {
        if self.list.is_none() && list.capacity() > 0 {
            list.clear();
            self.list = Some(list);
        }
    }
}
