//! One group of fields of a queue pair, and the place after it.

ghost use Rattle.std.specs.Prelude.{◌≡◌, ℕ, List, suc, ◌+◌, ◌-◌, ◌<◌, ◌≤◌, ◌^◌, ◌==◌, ◌++◌, ◌∷◌, length, [], map, drop, Some, None, IfOk, IfErr, true, false, not, ◌||◌, if◌then◌else◌};
ghost use Rattle.protocol.specs.Dumps.{then_read, items, raw, shape_of_length, count_by, is_untold_count, is_ended};
ghost use Rattle.protocol.specs.Images.{name_at};
ghost use Rattle.dump_reader.specs.Latched.{Parsed};
ghost use Rattle.dump_reader.specs.Groups.{link_of_head, end_of_head, regions_of, payload_length};
ghost use Rattle.rdma_types.specs.Kinds.{lands};
ghost use Rattle.dump_reader.specs.Ahead.{ahead, more_ends, more_kept, more_untold, more_receives, untold_list, unused_list, linked_list, after_head, queues_of, linked_of, first_of, passed, may_be_untold, may_be_unused, weight};
ghost use Rattle.dump_reader.specs.Steps.{Enters, Steps};

use crate::cursor::{Cursor, Offence};
use crate::fault::DumpFault;
use crate::fields::Fields;
use crate::groups;
use crate::heads::{DumpHead, EarlierRequests, EndImageHead, LinkImageHead, RequestPosition};
use crate::lists::{Lists, ReadState, push};
use crate::overfull::find_overfull;
use crate::places::{self, Scope};
use crate::requests::{self, lands_bytes, payload_len, span_of};
use byte_run::ByteRun;
use protocol::{DumpWhy, EndImage, KeptReply, LinkImage, PostedImage};
use rdma_types::{Items, Request};
use std::mem;

/// So many queue pairs are next, or the image is whole. Errors: `BadDump` with `Field` at a completion queue that lacks
/// room for its entries and for what the queue pairs will put there. It is never `Short`.
#[tactic(auto, unfolding(protocol::specs::Dumps::after, protocol::specs::Dumps::items, crate::specs::Ahead::ahead, crate::specs::Ahead::more_ends, crate::specs::Ahead::finished))]
pub fn enter_ends(opened: &DumpHead, lists: &Lists, count: u16) -> Result<ReadState, DumpFault>
    ensures { Enters (more_ends opened.now lists.now.domains.items lists.now.regions.items
        (queues_of lists.now) count lists.now.ends.items) (ahead opened.now lists.now) result }
{
    if count > 0 {
        return Ok(ReadState::End(count - 1));
    }
    match find_overfull(opened, lists, &lists.queues) {
        None => Ok(ReadState::Done),
        Some(place) => Err(DumpFault::BadDump {
            place,
            why: DumpWhy::Field,
        }),
    }
}

/// The count of queue pairs. Errors: `BadDump` with the first fault of the bytes, or `OutOfMemory`. After `Short` the
/// lists are as they were.
pub fn end_count_step(
    opened: &DumpHead,
    lists: &mut Lists,
    c: &mut Cursor<'_>,
) -> Result<ReadState, DumpFault>
    ensures { Steps opened.now ReadState.EndCount lists.old lists.new c.old c.new result }
{
    let count = groups::read_count(c, 64)?;
    lists.ends = Vec::new(lists.alloc);
    enter_ends(opened, lists, count)
}

/// Behind the head of a queue pair.
#[tactic(auto, unfolding(protocol::specs::Dumps::after, protocol::specs::Dumps::items, crate::specs::Ahead::ahead))]
pub fn enter_end(opened: &DumpHead, lists: &Lists, head: &EndImageHead, after: u16) -> ReadState
    ensures { ahead opened.now lists.now result
        ≡ after_head opened.now lists.now.domains.items lists.now.regions.items
        (queues_of lists.now) lists.now.ends.items after head.now }
{
    match head.state {
        0 => ReadState::Untold(*head, None, after),
        _ => ReadState::Link(*head, after),
    }
}

/// A queue pair, up to its state. Errors: `BadDump` with the first fault of the bytes, or `OutOfMemory`. After `Short`
/// the lists are as they were.
pub fn end_step(
    opened: &DumpHead,
    lists: &mut Lists,
    c: &mut Cursor<'_>,
    more: u16,
) -> Result<ReadState, DumpFault>
    ensures { Steps opened.now (ReadState.End more) lists.old lists.new c.old c.new result }
{
    let domains = lists.domains.len();
    let head = groups::read_end(c, domains, lists.queues.len(), &lists.ends)?;
    lists.kept = Vec::new(lists.alloc);
    Ok(enter_end(opened, lists, &head, more))
}

/// The regions of the image, and the domain of a queue pair.
fn scope_of<'a>(lists: &'a Lists, head: &EndImageHead) -> Scope<'a>
    ensures domains { result.domains.now ≡ lists.now.domains.items }
    ensures regions { result.regions.now ≡ lists.now.regions.items }
    ensures domain { result.domain.now ≡ name_at lists.now.domains.items head.now.domain }
{
    Scope {
        domains: &lists.domains,
        regions: &lists.regions,
        domain: match lists.domains.get(head.domain as usize) {
            Some(name) => name.as_bytes(),
            None => b"",
        },
    }
}

/// So many kept replies are next.
#[tactic(auto, unfolding(protocol::specs::Dumps::after, protocol::specs::Dumps::items, crate::specs::Ahead::ahead, crate::specs::Ahead::more_kept))]
pub fn enter_kept(
    opened: &DumpHead,
    lists: &Lists,
    head: &EndImageHead,
    link: &LinkImageHead,
    count: u8,
    after: u16,
) -> ReadState
    ensures { ahead opened.now lists.now result
        ≡ more_kept opened.now lists.now.domains.items lists.now.regions.items
        (queues_of lists.now) lists.now.ends.items after head.now link.now count
        lists.now.kept.items }
{
    match count {
        0 => ReadState::Untold(*head, Some(*link), after),
        _ => ReadState::Kept(*head, *link, count - 1, after),
    }
}

/// A kept reply. Errors: `BadDump` with the first fault of the bytes, or `OutOfMemory`. After `Short` the lists are as
/// they were.
pub fn kept_step(
    opened: &DumpHead,
    lists: &mut Lists,
    c: &mut Cursor<'_>,
    head: &EndImageHead,
    link: &LinkImageHead,
    more: u8,
    after: u16,
) -> Result<ReadState, DumpFault>
    ensures { Steps opened.now (ReadState.Kept head.now link.now more after) lists.old lists.new
        c.old c.new result }
{
    let reply = groups::read_kept(c, link.waiting.expected, &lists.kept)?;
    push(&mut lists.kept, reply)?;
    Ok(enter_kept(opened, lists, head, link, more, after))
}

/// So many untold requests are next.
#[tactic(auto, unfolding(protocol::specs::Dumps::after, protocol::specs::Dumps::items, crate::specs::Ahead::ahead, crate::specs::Ahead::more_untold, crate::specs::Ahead::more_requests))]
pub fn enter_requests(
    opened: &DumpHead,
    lists: &Lists,
    head: &EndImageHead,
    link: &LinkImageHead,
    before: &EarlierRequests,
    count: u16,
    after: u16,
) -> ReadState
    ensures ahead { ahead opened.now lists.now result
        ≡ more_untold opened.now lists.now.domains.items lists.now.regions.items
        (queues_of lists.now) lists.now.ends.items after head.now
        (link_of_head link.now lists.now.kept.items) before.now count lists.now.untold.items }
    ensures weightless { weight result ≡ 0 }
{
    match count {
        0 => ReadState::Unused(*head, Some(*link), after),
        _ => ReadState::Request(*head, *link, *before, count - 1, after),
    }
}

fn untold_rule(link: &Option<LinkImageHead>, count: u16) -> bool
    ensures { result ≡ may_be_untold link.now count }
{
    match link {
        None => count == 0,
        Some(link) if count == 0 => link.numbers.top == link.numbers.first,
        Some(link) => !link.ended,
    }
}

fn read_untold_count(
    c: &mut Cursor<'_>,
    depth: u16,
    link: &Option<LinkImageHead>,
) -> Result<u16, Offence>
    ensures { Parsed (count_by 2 depth (may_be_untold link.now)) c.old c.new result }
{
    let mut fields = Fields::of(c);
    let count = fields.u16();
    fields.keep_or(DumpWhy::Count, count <= depth);
    fields.keep(untold_rule(link, count));
    fields.end(c, count)
}

fn unused_rule(link: &Option<LinkImageHead>, count: u16) -> bool
    ensures { result ≡ may_be_unused link.now count }
{
    match link {
        Some(link) if link.ended => count == 0,
        _ => true,
    }
}

fn read_unused_count(
    c: &mut Cursor<'_>,
    depth: u16,
    link: &Option<LinkImageHead>,
) -> Result<u16, Offence>
    ensures { Parsed (count_by 2 depth (may_be_unused link.now)) c.old c.new result }
{
    let mut fields = Fields::of(c);
    let count = fields.u16();
    fields.keep_or(DumpWhy::Count, count <= depth);
    fields.keep(unused_rule(link, count));
    fields.end(c, count)
}

/// What a connected end has, up to its kept replies. Errors: `BadDump` with the first fault of the bytes, or
/// `OutOfMemory`. After `Short` the lists are as they were.
pub fn link_step(
    opened: &DumpHead,
    lists: &mut Lists,
    c: &mut Cursor<'_>,
    head: &EndImageHead,
    after: u16,
) -> Result<ReadState, DumpFault>
    ensures { Steps opened.now (ReadState.Link head.now after) lists.old lists.new c.old c.new
        result }
{
    let link = places::read_link(c, &scope_of(lists, head), head.state == 2)?;
    lists.kept = Vec::new(lists.alloc);
    Ok(enter_kept(opened, lists, head, &link, link.count, after))
}

/// The count of untold requests. Errors: `BadDump` with the first fault of the bytes, or `OutOfMemory`. After `Short`
/// the lists are as they were.
pub fn untold_step(
    opened: &DumpHead,
    lists: &mut Lists,
    c: &mut Cursor<'_>,
    head: &EndImageHead,
    link: &Option<LinkImageHead>,
    after: u16,
) -> Result<ReadState, DumpFault>
    ensures { Steps opened.now (ReadState.Untold head.now link.now after) lists.old lists.new c.old
        c.new result }
{
    let count = read_untold_count(c, head.send_depth, link)?;
    lists.untold = Vec::new(lists.alloc);
    match link {
        None => Ok(ReadState::Unused(*head, None, after)),
        Some(link) => {
            let before = EarlierRequests {
                count,
                low: link.numbers.first,
                landing: false,
            };
            Ok(enter_requests(opened, lists, head, link, &before, count, after))
        }
    }
}

/// What stands before the request after one.
fn advanced(link: &LinkImageHead, before: &EarlierRequests, request: &Request) -> EarlierRequests
    requires { before.now.low + shape_of_length request.now.shape.kind request.now.shape.length
        link.now.terms.mtu < 2 ^ 62 }
    ensures { result ≡ passed (link_of_head link.now []) before.now request.now }
{
    let shape = &request.shape;
    EarlierRequests {
        count: before.count,
        low: before.low + span_of(shape.kind, shape.length, link.terms.mtu),
        landing: before.landing || lands_bytes(shape.kind),
    }
}

/// Where a request stands, with so many more behind it.
fn standing_of(opened: &DumpHead, before: &EarlierRequests, more: u16) -> RequestPosition
    ensures { result
        ≡ record {
          version = opened.now.version;
          count = before.now.count;
          index = before.now.count
              - suc more;
          low = before.now.low;
          landing = before.now.landing;
        } }
{
    RequestPosition {
        version: opened.version,
        count: before.count,
        index: (before.count as u32).saturating_sub(more as u32 + 1) as u16,
        low: before.low,
        landing: before.landing,
    }
}

/// A request is whole. Errors: `OutOfMemory`. It reads nothing, and so is never `Short`.
#[tactic(auto, unfolding(protocol::specs::Dumps::after, protocol::specs::Dumps::items, crate::specs::Ahead::ahead))]
pub fn take_request(
    opened: &DumpHead,
    lists: &mut Lists,
    head: &EndImageHead,
    link: &LinkImageHead,
    before: &EarlierRequests,
    count: u16,
    after: u16,
    request: Request,
) -> Result<ReadState, DumpFault>
    ensures weightless { IfOk result (λ next. weight next ≡ 0) }
    ensures enters { Enters (more_untold opened.now lists.old.domains.items lists.old.regions.items
        (queues_of lists.old) lists.old.ends.items after head.now
        (link_of_head link.now lists.old.kept.items) before.now count
        (lists.old.untold.items ++ record { request = request; payload = lists.old.run } ∷ []))
        (ahead opened.now lists.new) result }
{
    let payload = mem::replace(&mut lists.run, ByteRun::make(lists.alloc));
    push(&mut lists.untold, PostedImage { request, payload })?;
    Ok(enter_requests(opened, lists, head, link, before, count, after))
}

/// The payload of a request is next, or the request is whole. Errors: `OutOfMemory`. It reads nothing, and so is never
/// `Short`.
#[tactic(auto, unfolding(protocol::specs::Dumps::after, protocol::specs::Dumps::items, crate::specs::Ahead::ahead))]
pub fn enter_payload(
    opened: &DumpHead,
    lists: &mut Lists,
    head: &EndImageHead,
    link: &LinkImageHead,
    before: &EarlierRequests,
    count: u16,
    after: u16,
    request: Request,
) -> Result<ReadState, DumpFault>
    ensures { Enters (then_read (raw (payload_length request))
        (λ payload. more_untold opened.now lists.old.domains.items lists.old.regions.items
        (queues_of lists.old) lists.old.ends.items after head.now
        (link_of_head link.now lists.old.kept.items) before.now count
        (lists.old.untold.items ++ record { request = request; payload = payload } ∷ [])))
        (ahead opened.now lists.new) result }
{
    lists.run = ByteRun::make(lists.alloc);
    let missing = payload_len(&request);
    if missing > 0 {
        return Ok(ReadState::Payload(*head, *link, *before, count, after, request, missing));
    }
    take_request(opened, lists, head, link, before, count, after, request)
}

/// An untold request, up to its payload. Errors: `BadDump` with the first fault of the bytes, or `OutOfMemory`. After
/// `Short` the lists are as they were.
pub fn request_step(
    opened: &DumpHead,
    lists: &mut Lists,
    c: &mut Cursor<'_>,
    head: &EndImageHead,
    link: &LinkImageHead,
    before: &EarlierRequests,
    more: u16,
    after: u16,
) -> Result<ReadState, DumpFault>
    ensures { Steps opened.now (ReadState.Request head.now link.now before.now more after) lists.old
        lists.new c.old c.new result }
{
    let standing = standing_of(opened, before, more);
    let request = requests::read_request(c, link, &standing, &scope_of(lists, head))?;
    let before = advanced(link, before, &request);
    enter_payload(opened, lists, head, link, &before, more, after, request)
}

/// The payload of a request, all that is missing. Errors: `BadDump` with the first fault of the bytes, or
/// `OutOfMemory`. After `Short` the lists are as they were.
pub fn payload_step(
    opened: &DumpHead,
    lists: &mut Lists,
    c: &mut Cursor<'_>,
    head: &EndImageHead,
    link: &LinkImageHead,
    before: &EarlierRequests,
    count: u16,
    after: u16,
    request: Request,
    missing: u32,
) -> Result<ReadState, DumpFault>
    ensures { Steps opened.now (ReadState.Payload head.now link.now before.now count after request
        missing) lists.old lists.new c.old c.new result }
{
    let bytes = c.raw(missing as usize)?;
    lists.run.append(lists.alloc, bytes)?;
    take_request(opened, lists, head, link, before, count, after, request)
}

/// What a queue pair has of its link.
fn link_image(link: &LinkImageHead, kept: Vec<KeptReply>) -> LinkImage
    ensures { result ≡ link_of_head link.now kept.items }
{
    LinkImage {
        ended: link.ended,
        peer: link.peer.peer,
        partner: link.peer.partner,
        moves: link.peer.moves,
        partner_moves: link.peer.partner_moves,
        resuming: link.peer.resuming,
        terms: link.terms,
        first: link.numbers.first,
        una: link.numbers.una,
        next: link.numbers.next,
        top: link.numbers.top,
        spent: link.waiting.spent,
        waits: link.waiting.waits,
        rnr_wait: link.waiting.rnr_wait,
        expected: link.waiting.expected,
        nak_sent: link.waiting.nak_sent,
        msn: link.waiting.msn,
        progress: link.progress,
        kept: Items::new(kept),
    }
}

/// The same, unless it was never connected.
fn linked_image(link: &Option<LinkImageHead>, kept: Vec<KeptReply>) -> Option<LinkImage>
    ensures { result ≡ linked_of link.now kept.items }
{
    match link {
        None => None,
        Some(link) => Some(link_image(link, kept)),
    }
}

/// A queue pair of its groups; its lists move out of those that were read.
fn end_image(lists: &mut Lists, head: &EndImageHead, link: &Option<LinkImageHead>) -> EndImage
    ensures end { result ≡ end_of_head head.now
        (linked_of link.now lists.old.kept.items) lists.old.untold.items lists.old.unused.items }
    ensures domains { lists.new.domains ≡ lists.old.domains }
    ensures regions { lists.new.regions ≡ lists.old.regions }
    ensures queues { lists.new.queues ≡ lists.old.queues }
    ensures ends { lists.new.ends ≡ lists.old.ends }
{
    let kept = mem::replace(&mut lists.kept, Vec::new(lists.alloc));
    let untold = mem::replace(&mut lists.untold, Vec::new(lists.alloc));
    let unused = mem::replace(&mut lists.unused, Vec::new(lists.alloc));
    EndImage {
        name: head.name,
        number: head.number,
        domain: head.domain,
        send_cq: head.send_cq,
        recv_cq: head.recv_cq,
        send_depth: head.send_depth,
        recv_depth: head.recv_depth,
        linked: linked_image(link, kept),
        untold: Items::new(untold),
        unused: Items::new(unused),
    }
}

/// So many unused receives are next, or the queue pair is whole. Errors: those of `enter_ends`, or `OutOfMemory`. It is
/// never `Short`.
#[tactic(auto, unfolding(protocol::specs::Dumps::after, protocol::specs::Dumps::items, crate::specs::Ahead::ahead, crate::specs::Ahead::more_receives))]
pub fn enter_receives(
    opened: &DumpHead,
    lists: &mut Lists,
    head: &EndImageHead,
    link: &Option<LinkImageHead>,
    count: u16,
    after: u16,
) -> Result<ReadState, DumpFault>
    ensures { Enters (more_receives opened.now lists.old.domains.items lists.old.regions.items
        (queues_of lists.old) lists.old.ends.items after head.now
        (linked_of link.now lists.old.kept.items) lists.old.untold.items count
        lists.old.unused.items) (ahead opened.now lists.new) result }
{
    if count > 0 {
        return Ok(ReadState::Receive(*head, *link, count - 1, after));
    }
    let end = end_image(lists, head, link);
    push(&mut lists.ends, end)?;
    enter_ends(opened, lists, after)
}

/// The count of unused receives. Errors: `BadDump` with the first fault of the bytes, or `OutOfMemory`. After `Short`
/// the lists are as they were.
pub fn unused_step(
    opened: &DumpHead,
    lists: &mut Lists,
    c: &mut Cursor<'_>,
    head: &EndImageHead,
    link: &Option<LinkImageHead>,
    after: u16,
) -> Result<ReadState, DumpFault>
    ensures { Steps opened.now (ReadState.Unused head.now link.now after) lists.old lists.new c.old
        c.new result }
{
    let count = read_unused_count(c, head.recv_depth, link)?;
    lists.unused = Vec::new(lists.alloc);
    enter_receives(opened, lists, head, link, count, after)
}

/// An unused receive. Errors: `BadDump` with the first fault of the bytes, or `OutOfMemory`. After `Short` the lists
/// are as they were.
pub fn receive_step(
    opened: &DumpHead,
    lists: &mut Lists,
    c: &mut Cursor<'_>,
    head: &EndImageHead,
    link: &Option<LinkImageHead>,
    more: u16,
    after: u16,
) -> Result<ReadState, DumpFault>
    ensures { Steps opened.now (ReadState.Receive head.now link.now more after) lists.old lists.new
        c.old c.new result }
{
    let receive = places::read_waiting_receive(c, &scope_of(lists, head))?;
    push(&mut lists.unused, receive)?;
    enter_receives(opened, lists, head, link, more, after)
}
