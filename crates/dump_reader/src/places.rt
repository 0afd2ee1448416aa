//! Places in the regions of an image: of receives and of the message in progress.

ghost use Rattle.std.specs.Prelude.{◌≡◌, ℕ, List, ◌+◌, ◌<◌, ◌≤◌, ◌^◌, ◌==◌, ◌&&◌, ◌||◌, not, length, [], nat_lt, nat_le, map, true, IfOk, bytes_eq, is_some, if◌then◌else◌};
ghost use Rattle.rdma_types.specs.Memory.{LocalWrite, RemoteWrite, NoRight, allows, granted, grants, holds, is_granted, local_key};
ghost use Rattle.rdma_types.specs.declared.names.Name.{Name};
ghost use Rattle.protocol.specs.Dumps.{number, any, then_read, gives, within, receive_field, progress_by, may_write_at, length_at, count_field};
ghost use Rattle.protocol.specs.Lawful.{is_whole_pieces};
ghost use Rattle.protocol.specs.Images.{region_of_image, name_at};
ghost use Rattle.dump_reader.specs.Latched.{Onward, Parsed, Reads};
ghost use Rattle.dump_reader.specs.Groups.{regions_of, send_field, write_field, message_field, link_head_field};
ghost use Rattle.rdma_types.specs.Limits.{most_kept};

use crate::cursor::{Cursor, Offence};
use crate::fields::Fields;
use crate::groups::{most_unless, read_numbers, read_peer, read_terms, read_waiting};
use crate::heads::LinkImageHead;
use protocol::{DumpWhy, Progress, RegionImage};
use rdma_types::{Name, Receive};

/// The regions of an image and the domain of an end.
#[derive(Clone, Copy)]
pub struct Scope<'a> {
    pub domains: &'a [Name],
    pub regions: &'a [RegionImage],
    /// Its name, or nothing where it has none.
    pub domain: &'a [u8],
}

/// A place that is asked for.
#[derive(Clone, Copy)]
pub struct RangeQuery {
    pub lkey: u32,
    pub at: u64,
    pub count: u32,
    /// Bytes land there.
    pub lands: bool,
}

#[tactic(auto, unfolding(rdma_types::specs::Memory::holds))]
fn holds_place(region: &RegionImage, at: u64, count: u32) -> bool
    ensures { (domains : List Name) → result ≡ holds (region_of_image domains region.now) at count }
{
    let _base = region.base;
    at >= region.base
        && count <= region.length
        && at - region.base <= (region.length - count) as u64
}

fn is_of_domain(scope: &Scope<'_>, region: &RegionImage) -> bool
    ensures { result
        ≡ bytes_eq (name_at scope.now.domains.now region.now.domain) scope.now.domain.now }
{
    match scope.domains.get(region.domain as usize) {
        Some(name) => name.as_bytes() == scope.domain,
        None => scope.domain.is_empty(),
    }
}

#[tactic(auto, unfolding(rdma_types::specs::Memory::allows))]
fn allows_landing(region: &RegionImage, lands: bool) -> bool
    ensures { result ≡ allows region.now.rights (if lands then LocalWrite else NoRight) }
{
    !lands || region.rights.0 % 2 == 1
}

#[tactic(auto, unfolding(rdma_types::specs::Memory::grants))]
fn grants_place(scope: &Scope<'_>, asked: &RangeQuery, region: &RegionImage) -> bool
    ensures { result
        ≡ grants local_key scope.now.domain.now asked.now.lkey asked.now.at asked.now.count
        (if asked.now.lands then LocalWrite else NoRight)
        (region_of_image scope.now.domains.now region.now) }
{
    is_of_domain(scope, region)
        && region.keys.local == asked.lkey
        && allows_landing(region, asked.lands)
        && holds_place(region, asked.at, asked.count)
}

fn some_region_grants(scope: &Scope<'_>, asked: &RangeQuery) -> bool
    ensures { result
        ≡ is_some (granted local_key (regions_of scope.now.domains.now scope.now.regions.now)
        scope.now.domain.now asked.now.lkey asked.now.at asked.now.count (if asked.now.lands
        then LocalWrite else NoRight)) }
{
    scope
        .regions
        .iter()
        .any(|region| grants_place(scope, asked, region))
}

/// Some region grants a place, or it is empty.
#[tactic(auto, unfolding(rdma_types::specs::Memory::is_granted))]
pub fn is_place_granted(scope: &Scope<'_>, asked: &RangeQuery) -> bool
    ensures { result
        ≡ is_granted local_key (regions_of scope.now.domains.now scope.now.regions.now)
        scope.now.domain.now asked.now.lkey asked.now.at asked.now.count (if asked.now.lands
        then LocalWrite else NoRight) }
{
    asked.count == 0 || some_region_grants(scope, asked)
}

fn receives(scope: &Scope<'_>, done: u32, r: &Receive) -> bool
    ensures { result ≡ (within done 1048576 r.now.length
        && is_granted local_key (regions_of scope.now.domains.now scope.now.regions.now)
        scope.now.domain.now r.now.lkey r.now.local r.now.length LocalWrite) }
{
    let asked = RangeQuery {
        lkey: r.lkey,
        at: r.local,
        count: r.length,
        lands: true,
    };
    (done..=1_048_576).contains(&r.length) && is_place_granted(scope, &asked)
}

/// A receive with `done` of its bytes used. Faults: `Short` or `Field`.
fn read_receive(fields: &mut Fields<'_>, scope: &Scope<'_>, done: u32) -> Receive
    ensures { Reads (receive_field (regions_of scope.now.domains.now scope.now.regions.now)
        scope.now.domain.now done) fields.old fields.new result }
{
    let id = fields.u64();
    let lkey = fields.u32();
    let local = fields.u64();
    let length = fields.u32();
    let receive = Receive {
        id,
        lkey,
        local,
        length,
    };
    fields.keep(receives(scope, done, &receive));
    receive
}

/// A receive that waits. Errors: the first fault of its fields, with its place: `Short` or `Field`.
pub fn read_waiting_receive(c: &mut Cursor<'_>, scope: &Scope<'_>) -> Result<Receive, Offence>
    ensures { Parsed (receive_field (regions_of scope.now.domains.now scope.now.regions.now)
        scope.now.domain.now 0) c.old c.new result }
{
    let mut fields = Fields::of(c);
    let receive = read_receive(&mut fields, scope, 0);
    fields.end(c, receive)
}

#[tactic(auto, unfolding(rdma_types::specs::Memory::allows))]
fn may_be_written(scope: &Scope<'_>, region: &RegionImage) -> bool
    ensures { result
        ≡ (bytes_eq (name_at scope.now.domains.now region.now.domain) scope.now.domain.now
        && allows region.now.rights RemoteWrite) }
{
    is_of_domain(scope, region) && region.rights.0 / 2 % 2 == 1
}

fn may_write(scope: &Scope<'_>, i: u16) -> bool
    ensures { result
        ≡ may_write_at (regions_of scope.now.domains.now scope.now.regions.now) scope.now.domain.now
        i }
{
    match scope.regions.get(i as usize) {
        Some(region) => may_be_written(scope, region),
        None => false,
    }
}

fn length_of(scope: &Scope<'_>, i: u16) -> u32
    ensures { result ≡ length_at (regions_of scope.now.domains.now scope.now.regions.now) i }
{
    match scope.regions.get(i as usize) {
        Some(region) => region.length,
        None => 0,
    }
}

fn is_pieces(mtu: u32, n: u32) -> bool
    ensures { result ≡ is_whole_pieces mtu n }
{
    n != 0 && n.checked_rem(mtu).unwrap_or(n) == 0
}

fn fits_region(scope: &Scope<'_>, region: u16, off: u32, length: u32) -> bool
    ensures { result
        ≡ (nat_le length 1048576 && (length == 0
        || nat_le (off + length) (length_at (regions_of scope.now.domains.now scope.now.regions.now)
        region))) }
{
    length <= 1_048_576
        && (length == 0 || off as u64 + length as u64 <= length_of(scope, region) as u64)
}

/// A SEND in progress.
fn read_send(fields: &mut Fields<'_>, scope: &Scope<'_>, mtu: u32) -> Progress
    ensures { Reads (send_field (regions_of scope.now.domains.now scope.now.regions.now)
        scope.now.domain.now mtu) fields.old fields.new result }
{
    let done = fields.u32();
    fields.keep(is_pieces(mtu, done));
    let receive = read_receive(fields, scope, done);
    Progress::Send { done, receive }
}

fn is_part(mtu: u32, length: u32, n: u32) -> bool
    ensures { result ≡ (is_whole_pieces mtu n && nat_lt n length) }
{
    is_pieces(mtu, n) && n < length
}

/// A WRITE in progress.
fn read_write(fields: &mut Fields<'_>, scope: &Scope<'_>, mtu: u32) -> Progress
    ensures { Reads (write_field (regions_of scope.now.domains.now scope.now.regions.now)
        scope.now.domain.now mtu) fields.old fields.new result }
{
    let region = fields.u16();
    fields.keep(may_write(scope, region));
    let off = fields.u32();
    let length = fields.u32();
    fields.keep(fits_region(scope, region, off, length));
    let done = fields.u32();
    fields.keep(is_part(mtu, length, done));
    Progress::Write {
        region,
        off,
        length,
        done,
    }
}

/// The message in progress that a code names.
fn read_progress(fields: &mut Fields<'_>, scope: &Scope<'_>, mtu: u32, code: u8) -> Progress
    ensures { Onward (progress_by (regions_of scope.now.domains.now scope.now.regions.now)
        scope.now.domain.now mtu code) fields.old fields.new result }
{
    match code {
        1 => read_send(fields, scope, mtu),
        2 => read_write(fields, scope, mtu),
        _ => Progress::Idle,
    }
}

/// The message in progress. Faults: `Short` or `Field`.
fn read_message(fields: &mut Fields<'_>, scope: &Scope<'_>, mtu: u32, ended: bool) -> Progress
    ensures { Reads (message_field (regions_of scope.now.domains.now scope.now.regions.now)
        scope.now.domain.now mtu ended) fields.old fields.new result }
{
    let code = fields.u8_up_to(most_unless(ended, 2));
    read_progress(fields, scope, mtu, code)
}

/// What a connected end has, up to the count of its kept replies. Errors: the first fault of its fields, with its
/// place: `Short`, `Field` or `Count`.
pub fn read_link(
    c: &mut Cursor<'_>,
    scope: &Scope<'_>,
    ended: bool,
) -> Result<LinkImageHead, Offence>
    ensures { Parsed (link_head_field (regions_of scope.now.domains.now scope.now.regions.now)
        scope.now.domain.now ended) c.old c.new result }
{
    let mut fields = Fields::of(c);
    let peer = read_peer(&mut fields, ended);
    let terms = read_terms(&mut fields);
    let numbers = read_numbers(&mut fields, ended);
    let waiting = read_waiting(&mut fields, &terms);
    let progress = read_message(&mut fields, scope, terms.mtu, ended);
    let count = fields.u8();
    fields.keep_or(DumpWhy::Count, count <= 16);
    let head = LinkImageHead {
        ended,
        peer,
        terms,
        numbers,
        waiting,
        progress,
        count,
    };
    fields.end(c, head)
}
