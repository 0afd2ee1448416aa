//! Dumps, group by group.

ghost use Rattle.std.specs.Prelude.{◌≡◌, ℕ, suc, ◌||◌, ◌+◌, ◌*◌, ◌-◌, ◌<◌, ◌≤◌, ◌^◌, ◌==◌, ◌++◌, ◌∷◌, length, [], map, drop, Some, None, IfOk, IfErr, true, false};
ghost use Rattle.protocol.specs.Dumps.{Good, Bad, read_dump, number_by};
ghost use Rattle.dump_reader.specs.Fields.{IsMagic, IsNoMagic};
ghost use Rattle.dump_reader.specs.Latched.{Parsed};
ghost use Rattle.dump_reader.specs.Ahead.{ahead, opening_field, more_domains, image_of, queues_of, weight, IsOpen};
ghost use Rattle.dump_reader.specs.Steps.{Steps};

use crate::cursor::{Cursor, Offence};
use crate::fault::DumpFault;
use crate::fields::Fields;
use crate::heads::DumpHead;
use crate::lists::{Lists, ReadState};
use crate::{end_steps, groups, steps};
use protocol::DumpWhy;

#[tactic(auto, unfolding(protocol::specs::Dumps::is_magic, protocol::specs::Dumps::after))]
fn read_magic(c: &mut Cursor<'_>) -> Result<(), Offence>
    ensures ok { IfOk result (λ u. IsMagic c.old.place c.old.bytes.now c.new.place
        c.new.bytes.now) }
    ensures bad { IfErr result (λ e. IsNoMagic c.old.place c.old.bytes.now e.place e.why) }
    ensures passed { IfOk result (λ x. c.old.place < c.new.place) }
{
    let bytes = c.raw(8)?;
    if bytes == b"MIGDUMP\0".as_slice() {
        Ok(())
    } else {
        Err(Offence {
            place: 0,
            why: DumpWhy::Magic,
        })
    }
}

fn is_version(n: u16) -> bool
    ensures { result ≡ (n == 1 || n == 2) }
{
    n == 1 || n == 2
}

fn read_version(c: &mut Cursor<'_>) -> Result<u16, Offence>
    ensures { Parsed (number_by DumpWhy.Version 2 (λ n. n == 1 || n == 2)) c.old c.new result }
{
    let mut fields = Fields::of(c);
    let version = fields.u16();
    fields.keep_or(DumpWhy::Version, is_version(version));
    fields.end(c, version)
}

/// The first fields, up to the count of domains. Errors: the first fault of its fields, with its place: `Short`,
/// `Magic`, `Version`, `Name` or `Count`.
#[tactic(auto, unfolding(protocol::specs::Dumps::after, crate::specs::Ahead::opening_field))]
pub fn read_opening(c: &mut Cursor<'_>) -> Result<DumpHead, Offence>
    ensures { Parsed opening_field c.old c.new result }
{
    read_magic(c)?;
    let version = read_version(c)?;
    let name = groups::read_name(c, &[])?;
    let count = groups::read_count(c, 64)?;
    Ok(DumpHead {
        version,
        name,
        count,
    })
}

/// One group of fields. Errors: `BadDump` with the first fault of the group, or `OutOfMemory`. After `Short` the lists
/// are as they were.
pub fn step(
    opened: &DumpHead,
    lists: &mut Lists,
    c: &mut Cursor<'_>,
    place: &ReadState,
) -> Result<ReadState, DumpFault>
    requires { IsOpen place.now }
    ensures { Steps opened.now place.now lists.old lists.new c.old c.new result }
{
    match place {
        ReadState::Domain(more) => steps::domain_step(opened, lists, c, *more),
        ReadState::RegionCount => steps::region_count_step(opened, lists, c),
        ReadState::Region(more) => steps::region_step(opened, lists, c, *more),
        ReadState::Bytes(head, missing, after) => steps::bytes_step(
            opened, lists, c, head, *missing, *after,
        ),
        ReadState::QueueCount => steps::queue_count_step(opened, lists, c),
        ReadState::Queue(more) => steps::queue_step(opened, lists, c, *more),
        ReadState::Entry(head, more, after) => steps::entry_step(
            opened, lists, c, head, *more, *after,
        ),
        ReadState::EndCount => end_steps::end_count_step(opened, lists, c),
        ReadState::End(more) => end_steps::end_step(opened, lists, c, *more),
        ReadState::Link(head, after) => end_steps::link_step(opened, lists, c, head, *after),
        ReadState::Kept(head, link, more, after) => {
            end_steps::kept_step(opened, lists, c, head, link, *more, *after)
        }
        ReadState::Untold(head, link, after) => {
            end_steps::untold_step(opened, lists, c, head, link, *after)
        }
        ReadState::Request(head, link, before, more, after) => {
            end_steps::request_step(opened, lists, c, head, link, before, *more, *after)
        }
        ReadState::Payload(head, link, before, count, after, request, missing) => {
            end_steps::payload_step(
                opened, lists, c, head, link, before, *count, *after, *request, *missing,
            )
        }
        ReadState::Unused(head, link, after) => {
            end_steps::unused_step(opened, lists, c, head, link, *after)
        }
        ReadState::Receive(head, link, more, after) => {
            end_steps::receive_step(opened, lists, c, head, link, *more, *after)
        }
        ReadState::Done => unreachable!(),
    }
}

/// Whether all fields of the image were read: true at `Done` alone, and false where a group of fields is still to be
/// read.
pub fn is_done(place: &ReadState) -> bool
    ensures done { result ≡ true → place.now ≡ ReadState.Done }
    ensures open { result ≡ false → IsOpen place.now }
{
    matches!(place, ReadState::Done)
}
