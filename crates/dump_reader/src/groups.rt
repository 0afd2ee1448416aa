//! The readers of the groups of fields.

ghost use Rattle.std.specs.Prelude.{◌≡◌, ℕ, ◌+◌, ◌<◌, ◌≤◌, ◌^◌, ◌==◌, ◌&&◌, ◌||◌, not, length, [], nat_lt, nat_le, map, true, if◌then◌else◌};
ghost use Rattle.rdma_types.specs.Lists.{has_word, some};
ghost use Rattle.rdma_types.specs.Limits.{is_mtu};
ghost use Rattle.protocol.specs.Dumps.{within, number, any, count_field, then_read, gives, is_24, is_below_limit, is_status, name_field, terms_field, entry_field, kept_field, judged_name, rises, follows, region_names, queue_names, completed_of, status_of};
ghost use Rattle.protocol.specs.Lawful.{is_number, is_local_key};
ghost use Rattle.dump_reader.specs.Latched.{Parsed, Reads};
ghost use Rattle.dump_reader.specs.Groups.{region_head_field, queue_head_field, end_head_field, peer_field, numbers_field, waiting_field, message_field, link_head_field, placed};
ghost use Rattle.rdma_types.specs.declared.names.Name.{Name};

use crate::cursor::{Cursor, Offence};
use crate::fields::Fields;
use crate::heads::{EndImageHead, Numbers, Peer, PlacedQueue, QueueHead, RegionImageHead, Waiting};
use protocol::{DumpWhy, EndImage, KeptReply, RegionImage};
use rdma_types::{Address, Completion, Keys, Name, Rights, Terms, WcKind, WcStatus};

fn may_be_number(n: u32) -> bool
    ensures { result ≡ is_number n }
{
    n < 0x100_0000 && n / 0x1_0000 != 0 && n % 0x1_0000 != 0
}

fn may_be_local_key(n: u32) -> bool
    ensures { result ≡ is_local_key n }
{
    n / 0x100_0000 != 0 && n % 0x100_0000 >= 2 && n % 2 == 0
}

fn may_be_mtu(n: u16) -> bool
    ensures { result ≡ is_mtu n }
{
    matches!(n, 256 | 512 | 1024 | 2048 | 4096)
}

fn may_be_status(n: u8) -> bool
    ensures { result ≡ is_status n }
{
    matches!(n, 0 | 1 | 5 | 9 | 10 | 12 | 13)
}

fn may_be_reads(n: u8) -> bool
    ensures { result ≡ within 1 16 n }
{
    (1..=16).contains(&n)
}

fn completed_kind(n: u8) -> WcKind
    ensures { result ≡ completed_of n }
{
    match n {
        0 => WcKind::Write,
        1 => WcKind::Send,
        2 => WcKind::Read,
        3 => WcKind::CompareSwap,
        4 => WcKind::FetchAdd,
        5 => WcKind::Recv,
        _ => WcKind::RecvImm,
    }
}

fn completed_status(n: u8) -> WcStatus
    ensures { result ≡ status_of n }
{
    match n {
        0 => WcStatus::Success,
        1 => WcStatus::LocalLength,
        5 => WcStatus::Flush,
        9 => WcStatus::RemoteInvalid,
        10 => WcStatus::RemoteAccess,
        12 => WcStatus::RetryExceeded,
        _ => WcStatus::RnrExceeded,
    }
}

/// A completion. Errors: the first fault of its fields, with its place: `Short` or `Field`.
pub fn read_entry(c: &mut Cursor<'_>) -> Result<Completion, Offence>
    ensures { Parsed (entry_field []) c.old c.new result }
{
    let mut fields = Fields::of(c);
    let qp = fields.u32();
    fields.keep(may_be_number(qp));
    let id = fields.u64();
    let kind = fields.u8_up_to(6);
    let status = fields.u8();
    fields.keep(may_be_status(status));
    let length = fields.u32();
    fields.keep(length <= 1_048_576);
    let flag = fields.u8_up_to(1);
    let imm = fields.u32_if(flag == 1);
    let entry = Completion {
        qp,
        id,
        kind: completed_kind(kind),
        status: completed_status(status),
        length,
        imm: if flag == 1 { Some(imm) } else { None },
    };
    fields.end(c, entry)
}

/// The terms of a connection. Faults: `Short` or `Field`.
pub fn read_terms(fields: &mut Fields<'_>) -> Terms
    ensures { Reads terms_field fields.old fields.new result }
{
    let mtu = fields.u16();
    fields.keep(may_be_mtu(mtu));
    let own_start = fields.u32_below(0x100_0000);
    let peer_start = fields.u32_below(0x100_0000);
    let retry = fields.u8_up_to(7);
    let rnr = fields.u8_up_to(7);
    let reads = fields.u8();
    fields.keep(may_be_reads(reads));
    Terms {
        mtu: mtu as u32,
        own_start,
        peer_start,
        retry,
        rnr,
        reads,
    }
}

/// The most that a field may be: 0 of an end that is in Error.
pub fn most_unless(ended: bool, most: u8) -> u8
    ensures { result ≡ (if ended then 0 else most) }
{
    if ended { 0 } else { most }
}

/// The partner of a connected end. Faults: `Short` or `Field`.
pub fn read_peer(fields: &mut Fields<'_>, ended: bool) -> Peer
    ensures { Reads (peer_field ended) fields.old fields.new result }
{
    let peer = fields.u32_below(0x100_0000);
    let ip = fields.u32();
    let port = fields.u16();
    let moves = fields.u16();
    let partner_moves = fields.u16();
    let resuming = fields.u8_up_to(most_unless(ended, 1));
    Peer {
        peer,
        partner: Address { ip, port },
        moves,
        partner_moves,
        resuming: resuming == 1,
    }
}

fn follows_number(ended: bool, low: u64, n: u64) -> bool
    ensures { result ≡ follows ended low n }
{
    n < 1 << 62 && if ended { n == low } else { low <= n }
}

/// The numbers of the requester. Faults: `Short` or `Field`.
pub fn read_numbers(fields: &mut Fields<'_>, ended: bool) -> Numbers
    ensures { Reads (numbers_field ended) fields.old fields.new result }
{
    let first = fields.u64_below(1 << 62);
    let una = fields.u64();
    fields.keep(follows_number(false, first, una));
    let next = fields.u64();
    fields.keep(follows_number(ended, una, next));
    let top = fields.u64();
    fields.keep(follows_number(ended, next, top));
    Numbers {
        first,
        una,
        next,
        top,
    }
}

fn may_wait(terms: &Terms, waits: u8) -> bool
    ensures { result ≡ (terms.now.rnr == 7 || nat_le waits terms.now.rnr) }
{
    terms.rnr == 7 || waits <= terms.rnr
}

/// What both halves of an end wait for. Faults: `Short` or `Field`.
pub fn read_waiting(fields: &mut Fields<'_>, terms: &Terms) -> Waiting
    ensures { Reads (waiting_field terms.now) fields.old fields.new result }
{
    let spent = fields.u8_up_to(terms.retry);
    let waits = fields.u8();
    fields.keep(may_wait(terms, waits));
    let rnr_wait = fields.u8_up_to(1);
    let expected = fields.u64_below(1 << 62);
    let nak_sent = fields.u8_up_to(1);
    let msn = fields.u32_below(0x100_0000);
    Waiting {
        spent,
        waits,
        rnr_wait: rnr_wait == 1,
        expected,
        nak_sent: nak_sent == 1,
        msn,
    }
}

fn rises_above(seen: &[KeptReply], n: u64) -> bool
    ensures { result ≡ rises seen.now n }
{
    match seen {
        [] => true,
        [.., last] => last.number < n,
    }
}

fn may_be_kept(expected: u64, seen: &[KeptReply], n: u64) -> bool
    ensures { result ≡ (rises seen.now n && nat_lt n expected) }
{
    rises_above(seen, n) && n < expected
}

/// A kept reply. Errors: the first fault of its fields, with its place: `Short` or `Field`.
pub fn read_kept(
    c: &mut Cursor<'_>,
    expected: u64,
    seen: &[KeptReply],
) -> Result<KeptReply, Offence>
    ensures { Parsed (kept_field expected seen.now) c.old c.new result }
{
    let mut fields = Fields::of(c);
    let number = fields.u64();
    fields.keep(may_be_kept(expected, seen, number));
    let old = fields.u64();
    fields.end(c, KeptReply { number, old })
}

fn has_domain(seen: &[Name], text: &[u8]) -> bool
    ensures { result ≡ has_word text.now seen.now }
{
    seen.iter().any(|name| name.as_bytes() == text)
}

/// A name that is not yet in the list. Errors: `Short` where the bytes end before it is whole, or `Name` where it is no
/// name or stands in the list already.
#[tactic(auto, unfolding(protocol::specs::Dumps::judged_name))]
pub fn read_name(c: &mut Cursor<'_>, seen: &[Name]) -> Result<Name, Offence>
    ensures { Parsed (name_field seen.now) c.old c.new result }
{
    let text = c.text()?;
    c.name(text, has_domain(seen, text))
}

fn has_region(seen: &[RegionImage], text: &[u8]) -> bool
    ensures { result ≡ has_word text.now (region_names seen.now) }
{
    seen.iter().any(|region| region.name.as_bytes() == text)
}

fn has_key(seen: &[RegionImage], key: u32) -> bool
    ensures { result ≡ some (λ r. r.keys.local == key) seen.now }
{
    seen.iter().any(|region| region.keys.local == key)
}

fn is_new_key(seen: &[RegionImage], key: u32) -> bool
    ensures { result ≡ (is_local_key key && not (some (λ r. r.keys.local == key) seen.now)) }
{
    may_be_local_key(key) && !has_key(seen, key)
}

#[tactic(auto, unfolding(protocol::specs::Dumps::judged_name))]
fn read_region_name(c: &mut Cursor<'_>, seen: &[RegionImage]) -> Result<Name, Offence>
    ensures { Parsed (name_field (region_names seen.now)) c.old c.new result }
{
    let text = c.text()?;
    c.name(text, has_region(seen, text))
}

/// A region without its bytes. Errors: the first fault of its fields, with its place: `Short`, `Name` or `Field`.
pub fn read_region(
    c: &mut Cursor<'_>,
    domains: usize,
    seen: &[RegionImage],
) -> Result<RegionImageHead, Offence>
    ensures { Parsed (region_head_field domains seen.now) c.old c.new result }
{
    let name = read_region_name(c, seen)?;
    let mut fields = Fields::of(c);
    let domain = fields.u16_below(domains);
    let base = fields.u64();
    fields.keep(base <= 1 << 63);
    let length = fields.u32_within(1, 16_777_216);
    let rights = fields.u8_up_to(15);
    let local = fields.u32();
    fields.keep(is_new_key(seen, local));
    let remote = fields.u32();
    fields.keep(remote as u64 == local as u64 + 1);
    let head = RegionImageHead {
        name,
        domain,
        base,
        length,
        rights: Rights(rights),
        keys: Keys { local, remote },
    };
    fields.end(c, head)
}

fn has_queue(seen: &[PlacedQueue], text: &[u8]) -> bool
    ensures { result ≡ has_word text.now (queue_names (map placed seen.now)) }
{
    seen.iter()
        .any(|placed| placed.queue.name.as_bytes() == text)
}

#[tactic(auto, unfolding(protocol::specs::Dumps::judged_name))]
fn read_queue_name(c: &mut Cursor<'_>, seen: &[PlacedQueue]) -> Result<Name, Offence>
    ensures { Parsed (name_field (queue_names (map placed seen.now))) c.old c.new result }
{
    let text = c.text()?;
    c.name(text, has_queue(seen, text))
}

/// A completion queue without its entries. Errors: the first fault of its fields, with its place: `Short`, `Name`,
/// `Field` or `Count`.
pub fn read_queue(c: &mut Cursor<'_>, seen: &[PlacedQueue]) -> Result<QueueHead, Offence>
    ensures { Parsed (queue_head_field (map placed seen.now)) c.old c.new result }
{
    let name = read_queue_name(c, seen)?;
    let place = c.place;
    let mut fields = Fields::of(c);
    let capacity = fields.u32_within(1, 16_384);
    let count = fields.u32();
    fields.keep_or(DumpWhy::Count, count <= capacity);
    let head = QueueHead {
        name,
        capacity,
        place,
        count,
    };
    fields.end(c, head)
}

fn has_end(seen: &[EndImage], text: &[u8]) -> bool
    ensures { result ≡ has_word text.now (map (λ e. e.name) seen.now) }
{
    seen.iter().any(|end| end.name.as_bytes() == text)
}

fn has_number(seen: &[EndImage], number: u32) -> bool
    ensures { result ≡ some (λ e. e.number == number) seen.now }
{
    seen.iter().any(|end| end.number == number)
}

fn is_new_number(seen: &[EndImage], number: u32) -> bool
    ensures { result ≡ (is_number number && not (some (λ e. e.number == number) seen.now)) }
{
    may_be_number(number) && !has_number(seen, number)
}

#[tactic(auto, unfolding(protocol::specs::Dumps::judged_name))]
fn read_end_name(c: &mut Cursor<'_>, seen: &[EndImage]) -> Result<Name, Offence>
    ensures { Parsed (name_field (map (λ e. e.name) seen.now)) c.old c.new result }
{
    let text = c.text()?;
    c.name(text, has_end(seen, text))
}

/// A queue pair up to its state. Errors: the first fault of its fields, with its place: `Short`, `Name` or `Field`.
pub fn read_end(
    c: &mut Cursor<'_>,
    domains: usize,
    queues: usize,
    seen: &[EndImage],
) -> Result<EndImageHead, Offence>
    ensures { Parsed (end_head_field domains queues seen.now) c.old c.new result }
{
    let name = read_end_name(c, seen)?;
    let mut fields = Fields::of(c);
    let number = fields.u32();
    fields.keep(is_new_number(seen, number));
    let domain = fields.u16_below(domains);
    let send_cq = fields.u16_below(queues);
    let recv_cq = fields.u16_below(queues);
    let send_depth = fields.u16_within(1, 256);
    let recv_depth = fields.u16_within(1, 256);
    let state = fields.u8_up_to(2);
    let head = EndImageHead {
        name,
        number,
        domain,
        send_cq,
        recv_cq,
        send_depth,
        recv_depth,
        state,
    };
    fields.end(c, head)
}

/// A count of two bytes within its limit. Errors: `Short` where fewer bytes are left, or `Count` where the count is
/// over the limit.
pub fn read_count(c: &mut Cursor<'_>, limit: u16) -> Result<u16, Offence>
    ensures { Parsed (count_field 2 limit) c.old c.new result }
{
    let mut fields = Fields::of(c);
    let count = fields.u16();
    fields.keep_or(DumpWhy::Count, count <= limit);
    fields.end(c, count)
}
