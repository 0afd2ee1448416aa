//! Dumps in pieces, and whole.

ghost use Rattle.std.specs.Prelude.{◌≡◌, ◌+◌, ◌-◌, ◌<◌, ◌≤◌, ◌++◌, [], length, take, drop, min, IfOk, IfSome, IfNone};
ghost use Rattle.protocol.specs.Dumps.{dump_bytes, Dumps};
ghost use Rattle.protocol.specs.Lawful.{IsLawful};
ghost use Rattle.law_dump_round_trip.specs.Fits.{FitsFields};
ghost use Rattle.dump_writer.specs.Fitting.{fits_left};
ghost use Rattle.dump_writer.specs.Writing.{ReadsBack};
ghost use Rattle.dump_writer.specs.Left.{left, IsPast};
ghost use Rattle.dump_writer.specs.Gives.{Gives};
ghost use Rattle.protocol.specs.declared.images.ContextImage.{ContextImage};

use crate::chunk::Chunk;
use crate::stages::{Stage, next_step};
use byte_run::ByteRun;
use protocol::ContextImage;
use std::alloc::{AllocError, Global};
use std::marker::Model;

/// The bytes of an image that are not yet handed out.
#[derive(Drop)]
pub struct DumpWriter<'a> {
    image: &'a ContextImage,
    chunk: Chunk,
    done: usize,
    next: Stage<'a>,
}

impl<'a> Model for DumpWriter<'a> {
    ghost use Rattle.std.specs.Prelude.{◌++◌, ◌≤◌, length, drop};
    ghost use Rattle.law_dump_round_trip.specs.Fits.{FitsFields};
    ghost use Rattle.dump_writer.specs.Fitting.{fits_left};
    ghost use Rattle.dump_writer.specs.Writing.{Writing};
    ghost use Rattle.dump_writer.specs.Left.{left};

    ghost Value = { Writing };

    ghost view = { λ w. record { image = w.image.now; left = drop w.done w.chunk ++ left w.image.now w.next } };

    ghost invariant = { λ w. (w.done ≤ length w.chunk) × (fits_left w.image.now w.next → FitsFields w.image.now) };
}

/// Copies as many bytes as both have.
fn copy_front(from: &[u8], out: &mut [u8]) -> usize
    ensures count { result ≡ min (length out.old) (length from.now) }
    ensures bytes { out.new ≡ take result from.now ++ drop result out.old }
{
    let count = out.len().min(from.len());
    out[..count].copy_from_slice(&from[..count]);
    count
}

/// Copies bytes of a run from a place on, as many as both have.
#[tactic(auto, unfolding(rdma_types::specs::Memory::cut))]
fn copy_run(run: &ByteRun, at: u64, out: &mut [u8]) -> usize
    requires { at < length run.now }
    ensures count { result ≡ min (length out.old) (length run.now - at) }
    ensures bytes { out.new ≡ take result (drop at run.now) ++ drop result out.old }
{
    let count = (out.len() as u64).min(run.len() - at) as usize;
    run.read(at, &mut out[..count]);
    count
}

/// How many bytes of a run were copied, and what is written next.
#[derive(Drop)]
struct Copied<'a> {
    count: usize,
    next: Stage<'a>,
}

/// Copies bytes of the run that stands next, unless none are left of one.
#[tactic(auto, unfolding(crate::specs::Left::left, crate::specs::Fitting::fits_left))]
fn give_run<'a>(stage: Stage<'a>, out: &mut [u8]) -> Option<Copied<'a>>
    requires { 0 < length out.old }
    ensures given { IfSome result (λ r. (c : ContextImage)
        → Gives (left c stage.entry) (left c r.next) out.old out.new r.count) }
    ensures fits { IfSome result (λ r. (c : ContextImage) → fits_left c r.next
        → fits_left c stage.entry) }
    ensures some { IfSome result (λ r. 0 < r.count) }
    ensures none { IfNone result (IsPast stage.entry) }
    ensures same { IfNone result (out.new ≡ out.old) }
{
    match stage {
        Stage::Bytes(at, run, regions) if at < run.len() => {
            let count = copy_run(run, at, out);
            let next = Stage::Bytes(at + count as u64, run, regions);
            Some(Copied { count, next })
        }
        Stage::Payload(at, run, requests, end, ends) if at < run.len() => {
            let count = copy_run(run, at, out);
            let next = Stage::Payload(at + count as u64, run, requests, end, ends);
            Some(Copied { count, next })
        }
        _ => None,
    }
}

impl<'a> DumpWriter<'a> {
    /// All bytes of an image are to come. It needs an image that keeps the rules.
    #[tactic(auto, unfolding(crate::specs::Left::left, crate::specs::Fitting::fits_left), using(crate::proofs::Parts::whole))]
    pub fn make(image: &'a ContextImage) -> DumpWriter<'a>
        requires { IsLawful image.now }
        ensures image { result.image ≡ image.now }
        ensures left { result.left ≡ dump_bytes 2 image.now }
    {
        DumpWriter {
            image,
            chunk: Chunk::make(),
            done: 0,
            next: Stage::Opening,
        }
    }

    /// Hands out some bytes: none only where none are left.
    #[tactic(auto, unfolding(crate::specs::Left::left, crate::specs::Fitting::fits_left))]
    fn give(&mut self, out: &mut [u8]) -> usize
        requires { 0 < length out.old }
        ensures image { self.new.image ≡ self.old.image }
        ensures given { Gives self.old.left self.new.left out.old out.new result }
        ensures end { result ≡ 0 → self.old.left ≡ [] }
        ensures fits { result ≡ 0 → FitsFields self.old.image }
    {
        let waiting = &self.chunk.as_slice()[self.done..];
        if !waiting.is_empty() {
            let count = copy_front(waiting, out);
            self.done += count;
            return count;
        }
        if let Some(copied) = give_run(self.next, out) {
            self.next = copied.next;
            return copied.count;
        }
        let step = next_step(self.image, self.next);
        let count = copy_front(step.chunk.as_slice(), out);
        self.chunk = step.chunk;
        self.next = step.next;
        self.done = count;
        count
    }

    /// Writes the next bytes, as many as there is room for, and says how many. It takes no memory. With room to spare
    /// behind the last byte, all numbers of the image are known to fit their fields, so its bytes read back.
    pub fn fill(&mut self, out: &mut [u8]) -> usize
        ensures image { self.new.image ≡ self.old.image }
        ensures count { result ≡ min (length out.old) (length self.old.left) }
        ensures bytes { out.new ≡ take result self.old.left ++ drop result out.old }
        ensures left { self.new.left ≡ drop result self.old.left }
        ensures fits { length self.old.left < length out.old → FitsFields self.old.image }
    {
        let mut filled = 0;
        while filled < out.len() {
            let count = self.give(&mut out[filled..]);
            if count == 0 {
                break;
            }
            filled += count;
        }
        filled
    }
}

/// The bytes of an image, in version 2. They read back as that image. It needs an image that keeps the rules. Errors:
/// `AllocError` when out of memory.
pub fn encode_dump(alloc: Global, image: &ContextImage) -> Result<Vec<u8>, AllocError>
    requires { IsLawful image.now }
    ensures bytes { IfOk result (λ dump. dump.items ≡ dump_bytes 2 image.now) }
    ensures dumps { IfOk result (λ dump. Dumps image.now dump.items) }
    ensures reads_back { IfOk result (λ dump. ReadsBack image.now dump.items) }
{
    let mut dump = Vec::new(alloc);
    let mut writer = DumpWriter::make(image);
    let mut page = [0; 4096];
    loop {
        let count = writer.fill(&mut page);
        if count == 0 {
            return Ok(dump);
        }
        dump.extend_from_slice(&page[..count])?;
    }
}
