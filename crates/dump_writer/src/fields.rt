//! The fields of the things of an image as bytes.

ghost use Rattle.std.specs.Prelude.{◌≡◌, ◌+◌, ◌^◌, ◌<◌, ◌≤◌, ◌++◌, ◌∷◌, [], length, is_some, if◌then◌else◌};
ghost use Rattle.protocol.specs.Bytes.{big_bytes};
ghost use Rattle.protocol.specs.Dumps.{entry_bytes, receive_bytes, progress_bytes, kept_bytes, kind_number, completed_number, status_number, flag_byte, imm_number, request_flags, state_byte, text};
ghost use Rattle.law_dump_round_trip.specs.Fits.{FitsEntry, FitsProgress, FitsReceive, FitsRequest};
ghost use Rattle.dump_writer.specs.Fitting.{FitsHead, FitsKept, FitsRegion};
ghost use Rattle.dump_writer.specs.Groups.{opening, region_head, queue_head, terms_bytes, link_head, link_numbers, request_head, end_head};

use crate::chunk::Chunk;
use protocol::{
    ContextImage, CqImage, EndImage, KeptReply, LinkImage, PostedImage, Progress, RegionImage,
};
use rdma_types::{Completion, Kind, Name, Receive, Request, Terms, WcKind, WcStatus};

fn kind_byte(kind: Kind) -> u8
    ensures { result ≡ kind_number kind }
{
    match kind {
        Kind::Write => 0,
        Kind::Send => 1,
        Kind::Read => 2,
        Kind::CompareSwap => 3,
        Kind::FetchAdd => 4,
    }
}

fn completed_byte(kind: WcKind) -> u8
    ensures { result ≡ completed_number kind }
{
    match kind {
        WcKind::Write => 0,
        WcKind::Send => 1,
        WcKind::Read => 2,
        WcKind::CompareSwap => 3,
        WcKind::FetchAdd => 4,
        WcKind::Recv => 5,
        WcKind::RecvImm => 6,
    }
}

fn status_byte(status: WcStatus) -> u8
    ensures { result ≡ status_number status }
{
    match status {
        WcStatus::Success => 0,
        WcStatus::LocalLength => 1,
        WcStatus::Flush => 5,
        WcStatus::RemoteInvalid => 9,
        WcStatus::RemoteAccess => 10,
        WcStatus::RetryExceeded => 12,
        WcStatus::RnrExceeded => 13,
    }
}

fn flags_byte(request: &Request) -> u8
    ensures { result ≡ request_flags request.now }
{
    let signaled = if request.signaled { 1 } else { 0 };
    let imm = if request.shape.imm.is_some() { 2 } else { 0 };
    let fence = if request.fence { 4 } else { 0 };
    signaled + imm + fence
}

fn link_state(linked: &Option<LinkImage>) -> u8
    ensures { result ≡ state_byte linked.now }
{
    match linked {
        None => 0,
        Some(link) if link.ended => 2,
        Some(_) => 1,
    }
}

#[tactic(auto, unfolding(protocol::specs::Bytes::big_bytes))]
fn put_flag(chunk: &mut Chunk, flag: bool)
    requires { length chunk.old + 1 ≤ 128 }
    ensures bytes { chunk.new ≡ chunk.old ++ flag_byte flag }
    ensures len { length chunk.new ≡ length chunk.old + 1 }
{
    chunk.put_u8(if flag { 1 } else { 0 });
}

/// The magic bytes, version 2, the name of the context and the count of its domains.
#[tactic(auto, unfolding(protocol::specs::Bytes::big_bytes))]
pub fn opening_bytes(image: &ContextImage) -> Chunk
    ensures bytes { result ≡ opening image.now }
    ensures some { 1 ≤ length result }
{
    let mut chunk = Chunk::make();
    chunk.put(b"MIGDUMP\0");
    chunk.put_u16(2);
    chunk.put_text(&image.name);
    chunk.put_low_u16(image.domains.len());
    chunk
}

/// A name: one byte with its length, and its bytes.
pub fn name_bytes(name: &Name) -> Chunk
    ensures bytes { result ≡ text name.now }
    ensures some { 1 ≤ length result }
{
    let mut chunk = Chunk::make();
    chunk.put_text(name);
    chunk
}

/// The low 16 bits of a count as two bytes, the most significant first.
pub fn count_bytes(count: usize) -> Chunk
    ensures bytes { result ≡ big_bytes 2 count }
    ensures some { 1 ≤ length result }
{
    let mut chunk = Chunk::make();
    chunk.put_low_u16(count);
    chunk
}

/// A region without its bytes: name, place of its domain, base, length, rights, local key and remote key.
pub fn region_fields(region: &RegionImage) -> Chunk
    ensures bytes { result ≡ region_head region.now }
    ensures some { 1 ≤ length result }
    ensures fits { FitsRegion region.now }
{
    let mut chunk = Chunk::make();
    chunk.put_text(&region.name);
    chunk.put_u16(region.domain);
    chunk.put_u64(region.base);
    chunk.put_u32(region.length);
    chunk.put_u8(region.rights.0);
    chunk.put_u32(region.keys.local);
    chunk.put_u32(region.keys.remote);
    chunk
}

/// A completion queue without its entries: name, capacity and how many entries follow.
pub fn queue_fields(queue: &CqImage) -> Chunk
    ensures bytes { result ≡ queue_head queue.now }
    ensures some { 1 ≤ length result }
{
    let mut chunk = Chunk::make();
    chunk.put_text(&queue.name);
    chunk.put_u32(queue.capacity);
    chunk.put_low_u32(queue.entries.len());
    chunk
}

/// An entry of a completion queue: queue pair number, id, kind, status, length, and whether there is an immediate, with
/// its value or 0.
pub fn entry_fields(entry: &Completion) -> Chunk
    ensures bytes { result ≡ entry_bytes entry.now }
    ensures some { 1 ≤ length result }
    ensures fits { FitsEntry entry.now }
{
    let mut chunk = Chunk::make();
    chunk.put_u32(entry.qp);
    chunk.put_u64(entry.id);
    chunk.put_u8(completed_byte(entry.kind));
    chunk.put_u8(status_byte(entry.status));
    chunk.put_u32(entry.length);
    put_flag(&mut chunk, entry.imm.is_some());
    chunk.put_u32(entry.imm.unwrap_or(0));
    chunk
}

/// A queue pair up to its state: name, number, places of its domain and completion queues, depths and state.
pub fn end_fields(end: &EndImage) -> Chunk
    ensures bytes { result ≡ end_head end.now }
    ensures some { 1 ≤ length result }
{
    let mut chunk = Chunk::make();
    chunk.put_text(&end.name);
    chunk.put_u32(end.number);
    chunk.put_u16(end.domain);
    chunk.put_u16(end.send_cq);
    chunk.put_u16(end.recv_cq);
    chunk.put_u16(end.send_depth);
    chunk.put_u16(end.recv_depth);
    chunk.put_u8(link_state(&end.linked));
    chunk
}

/// The partner of a connected end: queue pair number, address, both counts of moves, and whether the end is resuming.
pub fn link_fields(link: &LinkImage) -> Chunk
    ensures bytes { result ≡ link_head link.now }
    ensures some { 1 ≤ length result }
    ensures fits { FitsHead link.now }
{
    let mut chunk = Chunk::make();
    chunk.put_u32(link.peer);
    chunk.put_u32(link.partner.ip);
    chunk.put_u16(link.partner.port);
    chunk.put_u16(link.moves);
    chunk.put_u16(link.partner_moves);
    put_flag(&mut chunk, link.resuming);
    chunk
}

/// The terms of a connection: MTU, both first packet numbers, `retry`, `rnr` and `reads`.
pub fn terms_fields(terms: &Terms) -> Chunk
    ensures bytes { result ≡ terms_bytes terms.now }
    ensures some { 1 ≤ length result }
{
    let mut chunk = Chunk::make();
    chunk.put_low_u16(terms.mtu as usize);
    chunk.put_u32(terms.own_start);
    chunk.put_u32(terms.peer_start);
    chunk.put_u8(terms.retry);
    chunk.put_u8(terms.rnr);
    chunk.put_u8(terms.reads);
    chunk
}

/// The packet numbers and counts of a connected end: those of its requester, and then those of its responder.
pub fn number_fields(link: &LinkImage) -> Chunk
    ensures bytes { result ≡ link_numbers link.now }
    ensures some { 1 ≤ length result }
    ensures fits { link.now.waits < 2 ^ 8 }
{
    let mut chunk = Chunk::make();
    chunk.put_u64(link.first);
    chunk.put_u64(link.una);
    chunk.put_u64(link.next);
    chunk.put_u64(link.top);
    chunk.put_u8(link.spent);
    chunk.put_u8(link.waits);
    put_flag(&mut chunk, link.rnr_wait);
    chunk.put_u64(link.expected);
    put_flag(&mut chunk, link.nak_sent);
    chunk.put_u32(link.msn);
    chunk
}

/// A receive: id, local key, address and length.
pub fn receive_fields(receive: &Receive) -> Chunk
    ensures bytes { result ≡ receive_bytes receive.now }
    ensures some { 1 ≤ length result }
    ensures fits { FitsReceive receive.now }
{
    let mut chunk = Chunk::make();
    chunk.put_u64(receive.id);
    chunk.put_u32(receive.lkey);
    chunk.put_u64(receive.local);
    chunk.put_u32(receive.length);
    chunk
}

/// The message in progress.
#[tactic(auto, unfolding(protocol::specs::Bytes::big_bytes))]
pub fn progress_fields(progress: &Progress) -> Chunk
    ensures bytes { result ≡ progress_bytes progress.now }
    ensures some { 1 ≤ length result }
    ensures fits { FitsProgress progress.now }
{
    let mut chunk = Chunk::make();
    match progress {
        Progress::Idle => chunk.put_u8(0),
        Progress::Send { done, receive } => {
            chunk.put_u8(1);
            chunk.put_u32(*done);
            chunk.put(receive_fields(receive).as_slice());
        }
        Progress::Write {
            region,
            off,
            length,
            done,
        } => {
            chunk.put_u8(2);
            chunk.put_u16(*region);
            chunk.put_u32(*off);
            chunk.put_u32(*length);
            chunk.put_u32(*done);
        }
    }
    chunk
}

/// The low 8 bits of the count of kept replies, as one byte.
pub fn kept_count(link: &LinkImage) -> Chunk
    ensures bytes { result ≡ big_bytes 1 (length link.now.kept) }
    ensures some { 1 ≤ length result }
{
    let mut chunk = Chunk::make();
    chunk.put_low_u8(link.kept.len());
    chunk
}

/// A kept reply to an atomic: its packet number and the old value.
pub fn kept_fields(kept: &KeptReply) -> Chunk
    ensures bytes { result ≡ kept_bytes kept.now }
    ensures some { 1 ≤ length result }
    ensures fits { FitsKept kept.now }
{
    let mut chunk = Chunk::make();
    chunk.put_u64(kept.number);
    chunk.put_u64(kept.old);
    chunk
}

/// An untold request without its payload: id, kind, flags, immediate or 0, length, local place, remote place and
/// operands.
pub fn request_fields(posted: &PostedImage) -> Chunk
    ensures bytes { result ≡ request_head posted.now }
    ensures some { 1 ≤ length result }
    ensures fits { FitsRequest posted.now }
{
    let request = &posted.request;
    let mut chunk = Chunk::make();
    chunk.put_u64(request.id);
    chunk.put_u8(kind_byte(request.shape.kind));
    chunk.put_u8(flags_byte(request));
    chunk.put_u32(request.shape.imm.unwrap_or(0));
    chunk.put_u32(request.shape.length);
    chunk.put_u32(request.lkey);
    chunk.put_u64(request.local);
    chunk.put_u64(request.shape.remote);
    chunk.put_u32(request.shape.rkey);
    chunk.put_u64(request.shape.swap_add);
    chunk.put_u64(request.shape.compare);
    chunk
}
