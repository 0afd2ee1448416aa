//! One group of fields before the queue pairs, and the place after it.

ghost use Rattle.std.specs.Prelude.{◌≡◌, ℕ, suc, ◌+◌, ◌-◌, ◌<◌, ◌≤◌, ◌^◌, ◌==◌, ◌++◌, ◌∷◌, length, [], map, drop, Some, None, IfOk, IfErr, true, false};
ghost use Rattle.protocol.specs.Dumps.{then_read, items, entry_field, raw, region_field};
ghost use Rattle.dump_reader.specs.Groups.{region_of_head, queue_of_head};
ghost use Rattle.dump_reader.specs.Ahead.{ahead, more_domains, more_regions, more_queues, more_entries, more_ends, queues_of, weight};
ghost use Rattle.dump_reader.specs.Steps.{Enters, Steps};

use crate::cursor::Cursor;
use crate::fault::DumpFault;
use crate::groups;
use crate::heads::{DumpHead, PlacedQueue, QueueHead, RegionImageHead};
use crate::lists::{Lists, ReadState, push};
use byte_run::ByteRun;
use protocol::{CqImage, RegionImage};
use rdma_types::Items;
use std::mem;

/// So many domains are next.
#[tactic(auto, unfolding(protocol::specs::Dumps::after, protocol::specs::Dumps::items, crate::specs::Ahead::ahead, crate::specs::Ahead::more_domains))]
pub fn enter_domains(opened: &DumpHead, lists: &Lists, count: u16) -> ReadState
    ensures { ahead opened.now lists.now result
        ≡ more_domains opened.now count lists.now.domains.items }
{
    match count {
        0 => ReadState::RegionCount,
        _ => ReadState::Domain(count - 1),
    }
}

/// A domain. Errors: `BadDump` with the first fault of the bytes, or `OutOfMemory`. After `Short` the lists are as
/// they were.
pub fn domain_step(
    opened: &DumpHead,
    lists: &mut Lists,
    c: &mut Cursor<'_>,
    more: u16,
) -> Result<ReadState, DumpFault>
    ensures { Steps opened.now (ReadState.Domain more) lists.old lists.new c.old c.new result }
{
    let name = groups::read_name(c, &lists.domains)?;
    push(&mut lists.domains, name)?;
    Ok(enter_domains(opened, lists, more))
}

/// So many regions are next.
#[tactic(auto, unfolding(protocol::specs::Dumps::after, protocol::specs::Dumps::items, crate::specs::Ahead::ahead, crate::specs::Ahead::more_regions))]
pub fn enter_regions(opened: &DumpHead, lists: &Lists, count: u16) -> ReadState
    ensures ahead { ahead opened.now lists.now result
        ≡ more_regions opened.now lists.now.domains.items count lists.now.regions.items }
    ensures weightless { weight result ≡ 0 }
{
    match count {
        0 => ReadState::QueueCount,
        _ => ReadState::Region(count - 1),
    }
}

/// The count of regions. Errors: `BadDump` with the first fault of the bytes, or `OutOfMemory`. After `Short` the
/// lists are as they were.
pub fn region_count_step(
    opened: &DumpHead,
    lists: &mut Lists,
    c: &mut Cursor<'_>,
) -> Result<ReadState, DumpFault>
    ensures { Steps opened.now ReadState.RegionCount lists.old lists.new c.old c.new result }
{
    let count = groups::read_count(c, 256)?;
    lists.regions = Vec::new(lists.alloc);
    Ok(enter_regions(opened, lists, count))
}

fn region_image(head: &RegionImageHead, bytes: ByteRun) -> RegionImage
    ensures { result ≡ region_of_head head.now bytes }
{
    RegionImage {
        name: head.name,
        domain: head.domain,
        base: head.base,
        length: head.length,
        rights: head.rights,
        keys: head.keys,
        bytes,
    }
}

/// The bytes of a region, all that are missing. Errors: `BadDump` with the first fault of the bytes, or `OutOfMemory`.
/// After `Short` the lists are as they were.
pub fn bytes_step(
    opened: &DumpHead,
    lists: &mut Lists,
    c: &mut Cursor<'_>,
    head: &RegionImageHead,
    missing: u32,
    after: u16,
) -> Result<ReadState, DumpFault>
    ensures { Steps opened.now (ReadState.Bytes head.now missing after) lists.old lists.new c.old
        c.new result }
{
    let bytes = c.raw(missing as usize)?;
    lists.run.append(lists.alloc, bytes)?;
    let run = mem::replace(&mut lists.run, ByteRun::make(lists.alloc));
    push(&mut lists.regions, region_image(head, run))?;
    Ok(enter_regions(opened, lists, after))
}

/// A region, up to its bytes. Errors: `BadDump` with the first fault of the bytes, or `OutOfMemory`. After `Short` the
/// lists are as they were.
pub fn region_step(
    opened: &DumpHead,
    lists: &mut Lists,
    c: &mut Cursor<'_>,
    more: u16,
) -> Result<ReadState, DumpFault>
    ensures { Steps opened.now (ReadState.Region more) lists.old lists.new c.old c.new result }
{
    let head = groups::read_region(c, lists.domains.len(), &lists.regions)?;
    lists.run = ByteRun::make(lists.alloc);
    let missing = head.length;
    Ok(ReadState::Bytes(head, missing, more))
}

/// So many completion queues are next.
#[tactic(auto, unfolding(protocol::specs::Dumps::after, protocol::specs::Dumps::items, crate::specs::Ahead::ahead, crate::specs::Ahead::more_queues))]
pub fn enter_queues(opened: &DumpHead, lists: &Lists, count: u16) -> ReadState
    ensures { ahead opened.now lists.now result
        ≡ more_queues opened.now lists.now.domains.items lists.now.regions.items count
        (queues_of lists.now) }
{
    match count {
        0 => ReadState::EndCount,
        _ => ReadState::Queue(count - 1),
    }
}

/// The count of completion queues. Errors: `BadDump` with the first fault of the bytes, or `OutOfMemory`. After
/// `Short` the lists are as they were.
pub fn queue_count_step(
    opened: &DumpHead,
    lists: &mut Lists,
    c: &mut Cursor<'_>,
) -> Result<ReadState, DumpFault>
    ensures { Steps opened.now ReadState.QueueCount lists.old lists.new c.old c.new result }
{
    let count = groups::read_count(c, 64)?;
    lists.queues = Vec::new(lists.alloc);
    Ok(enter_queues(opened, lists, count))
}

/// So many entries are next, or the queue is whole. Errors: `OutOfMemory`. It reads nothing, and so is never `Short`.
#[tactic(auto, unfolding(protocol::specs::Dumps::after, protocol::specs::Dumps::items, crate::specs::Ahead::ahead, crate::specs::Ahead::more_entries), using(crate::proofs::Split::placed_more))]
pub fn enter_entries(
    opened: &DumpHead,
    lists: &mut Lists,
    head: &QueueHead,
    count: u32,
    after: u16,
) -> Result<ReadState, DumpFault>
    ensures { Enters (more_entries opened.now lists.old.domains.items lists.old.regions.items
        (queues_of lists.old) after head.now count lists.old.entries.items)
        (ahead opened.now lists.new) result }
{
    if count > 0 {
        return Ok(ReadState::Entry(*head, count - 1, after));
    }
    let entries = mem::replace(&mut lists.entries, Vec::new(lists.alloc));
    let queue = CqImage {
        name: head.name,
        capacity: head.capacity,
        entries: Items::new(entries),
    };
    let place = head.place;
    push(&mut lists.queues, PlacedQueue { queue, place })?;
    Ok(enter_queues(opened, lists, after))
}

/// A completion queue, up to its entries. Errors: `BadDump` with the first fault of the bytes, or `OutOfMemory`. After
/// `Short` the lists are as they were.
pub fn queue_step(
    opened: &DumpHead,
    lists: &mut Lists,
    c: &mut Cursor<'_>,
    more: u16,
) -> Result<ReadState, DumpFault>
    ensures { Steps opened.now (ReadState.Queue more) lists.old lists.new c.old c.new result }
{
    let head = groups::read_queue(c, &lists.queues)?;
    lists.entries = Vec::new(lists.alloc);
    enter_entries(opened, lists, &head, head.count, more)
}

/// An entry. Errors: `BadDump` with the first fault of the bytes, or `OutOfMemory`. After `Short` the lists are as
/// they were.
pub fn entry_step(
    opened: &DumpHead,
    lists: &mut Lists,
    c: &mut Cursor<'_>,
    head: &QueueHead,
    more: u32,
    after: u16,
) -> Result<ReadState, DumpFault>
    ensures { Steps opened.now (ReadState.Entry head.now more after) lists.old lists.new c.old c.new
        result }
{
    let entry = groups::read_entry(c)?;
    push(&mut lists.entries, entry)?;
    enter_entries(opened, lists, head, more, after)
}
