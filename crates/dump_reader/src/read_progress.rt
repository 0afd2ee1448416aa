//! How far a dump was read, where its bytes come in pieces.

ghost use Rattle.std.specs.Prelude.{◌≡◌, ◌+◌, ◌-◌, ◌*◌, ◌<◌, length, map, IfOk, IfErr, true};
ghost use Rattle.protocol.specs.Dumps.{Bad, read_dump};
ghost use Rattle.dump_reader.specs.Groups.{placed};
ghost use Rattle.dump_reader.specs.Ahead.{IsOpen, image_of, queues_of, weight};
ghost use Rattle.dump_reader.specs.Steps.{IsFault, is_wanting};
ghost use Rattle.dump_reader.specs.ReadProgress.{Stands, IsWhole, image_at};

use crate::cursor::{Cursor, Offence};
use crate::fault::DumpFault;
use crate::heads::{DumpHead, PlacedQueue};
use crate::lists::{Lists, ReadState, push};
use crate::machine::{is_done, read_opening, step};
use crate::steps::enter_domains;
use protocol::{ContextImage, CqImage, DumpWhy};
use rdma_types::Items;
use std::alloc::{AllocError, Global};
use std::mem;

/// The completion queues without the places of their capacities.
fn bare_queues(alloc: Global, queues: Vec<PlacedQueue>) -> Result<Vec<CqImage>, AllocError>
    ensures { IfOk result (λ bare. bare.items ≡ map (λ q. q.queue) (map placed queues.items)) }
{
    let mut bare = Vec::new(alloc);
    for placed in queues {
        push(&mut bare, placed.queue)?;
    }
    Ok(bare)
}

/// The image of what was read, with its completion queues by themselves.
fn image_with(opened: &DumpHead, lists: Lists, queues: Vec<CqImage>) -> ContextImage
    ensures { result
        ≡ record {
          name = opened.now.name;
          domains = lists.domains.items;
          regions = lists.regions.items;
          queues = queues.items;
          ends = lists.ends.items;
        } }
{
    ContextImage {
        name: opened.name,
        domains: Items::new(lists.domains),
        regions: Items::new(lists.regions),
        queues: Items::new(queues),
        ends: Items::new(lists.ends),
    }
}

/// The image of what was read.
fn whole_image(opened: &DumpHead, mut lists: Lists) -> Result<ContextImage, AllocError>
    ensures { IfOk result (λ image. image
        ≡ image_of opened.now lists.domains.items lists.regions.items
        (queues_of lists) lists.ends.items) }
{
    let placed = mem::replace(&mut lists.queues, Vec::new(lists.alloc));
    let queues = bare_queues(lists.alloc, placed)?;
    Ok(image_with(opened, lists, queues))
}

/// What was read of a prefix of a dump: all groups of fields that have come whole.
#[derive(Drop)]
pub struct ReadProgress {
    pub opened: DumpHead,
    pub lists: Lists,
    pub place: ReadState,
    /// How many bytes were read.
    pub at: usize,
}

impl ReadProgress {
    /// The first fields, up to the count of domains. It takes no memory. Errors: the first fault of the bytes, with its
    /// place.
    #[tactic(auto, unfolding(protocol::specs::Dumps::after), using(crate::proofs::Whole::dump_opens))]
    pub fn begin(alloc: Global, bytes: &[u8]) -> Result<ReadProgress, Offence>
        ensures stands { IfOk result (λ way. Stands way bytes.now) }
        ensures fault { IfErr result (λ e. read_dump bytes.now ≡ Bad e.place e.why) }
    {
        let mut c = Cursor {
            bytes,
            place: 0,
            start: 0,
        };
        let opened = read_opening(&mut c)?;
        let lists = Lists::make(alloc);
        let place = enter_domains(&opened, &lists, opened.count);
        Ok(ReadProgress {
            opened,
            lists,
            place,
            at: c.place,
        })
    }

    /// One group of fields more. Where the bytes end too early, nothing was read.
    fn go_one_step(&mut self, bytes: &[u8]) -> Result<(), DumpFault>
        requires stands { Stands self.old bytes.now }
        requires open { IsOpen self.old.place }
        ensures stands { IfOk result (λ u. Stands self.new bytes.now) }
        ensures less { IfOk result (λ u. 2 * (length bytes.now - self.new.at)
            + weight self.new.place < 2 * (length bytes.now - self.old.at)
            + weight self.old.place) }
        ensures same { IfErr result (λ e. is_wanting e ≡ true → Stands self.new bytes.now) }
        ensures fault { IfErr result (IsFault (read_dump bytes.now)) }
    {
        let mut c = Cursor {
            bytes: &bytes[self.at..],
            place: self.at,
            start: self.at,
        };
        match step(&self.opened, &mut self.lists, &mut c, &self.place) {
            Ok(next) => {
                self.place = next;
                self.at = c.place;
                Ok(())
            }
            Err(fault) => Err(fault),
        }
    }

    /// Reads on as far as the bytes go: those that were read before and more. Errors: `BadDump` with the first fault of
    /// the bytes, or `OutOfMemory`. After `Short` it can go on with more bytes; after another error it is of no use.
    pub fn go_on(&mut self, bytes: &[u8]) -> Result<(), DumpFault>
        requires { Stands self.old bytes.now }
        ensures whole { IfOk result (λ u. IsWhole self.new bytes.now) }
        ensures stands { IfErr result (λ e. is_wanting e ≡ true → Stands self.new bytes.now) }
        ensures fault { IfErr result (IsFault (read_dump bytes.now)) }
    {
        while !is_done(&self.place) {
            self.go_one_step(bytes)?;
        }
        if self.at < bytes.len() {
            return Err(DumpFault::BadDump {
                place: self.at,
                why: DumpWhy::Trailing,
            });
        }
        Ok(())
    }

    /// The image of what was read. Errors: `AllocError` when out of memory.
    pub fn into_image(self) -> Result<ContextImage, AllocError>
        ensures { IfOk result (λ image. image ≡ image_at self) }
    {
        let ReadProgress { opened, lists, .. } = self;
        whole_image(&opened, lists)
    }
}
