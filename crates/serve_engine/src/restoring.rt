//! Contexts that come. A restore is made on a copy of the device, which becomes the device once the dump is gone from the
//! store; so all is as before where it is not, and the dump has its name again or is still claimed.

ghost use Rattle.std.specs.Prelude.{◌≡◌, ◌++◌, IfOk, map};
ghost use Rattle.protocol.specs.declared.events.Event.TheVariants as event;
ghost use Rattle.protocol.specs.DeviceStep.{device_step};
ghost use Rattle.protocol.specs.Lawful.{IsLawful};
ghost use Rattle.serve_rules.specs.Moving as rules;
ghost use Rattle.serve_engine.specs.Preparing.{ClaimLeaves, FinishLeaves, GaveBack, IsRestoreOf, IsRestoreOfImage};

use crate::state::Server;
use crate::stopping::fault_reply;
use device_core::{ContextImage, Device, Outcome};
use dump_reader::{DumpFault, decode_dump};
use host_ports::Store;
use protocol::EndImage;
use rdma_types::{Answer, Name};
use serve_rules::Reply;
use std::alloc::{AllocError, Global};
use std::collections::VecDeque;

/// What is there after a context came.
#[derive(Drop)]
pub struct Coming {
    pub device: Device,
    pub ready: VecDeque<u32>,
}

/// A restore that was not yet made, or why it is not made.
#[derive(Drop)]
pub enum Restore {
    BadDump,
    Memory,
    Refused(Answer),
    Made(Coming),
}

/// The numbers of ends behind these. Errors: `AllocError` when out of memory.
fn with_numbers(ready: &VecDeque<u32>, ends: &[EndImage]) -> Result<VecDeque<u32>, AllocError>
    ensures { IfOk result (λ r. r.items ≡ ready.now.items ++ map (λ e. e.number) ends.now) }
{
    let mut numbers = ready.clone()?;
    for end in ends {
        numbers.push_back(end.number)?;
    }
    Ok(numbers)
}

/// The device after the step of a restore, and what it gives. Errors: `AllocError` when out of memory.
fn restored(
    alloc: Global,
    device: &Device,
    image: &ContextImage,
) -> Result<(Device, Outcome), AllocError>
    requires { IsLawful image.now }
    ensures { IfOk result (λ d. device_step device.now (event.Restore image.now)
        ≡ record { device = d.0; outcome = d.1 }) }
{
    let mut copy = device.copy(alloc)?;
    let outcome = copy.restore(alloc, image)?;
    Ok((copy, outcome))
}

/// Gives the last claim its name again, where that can be; else it stays claimed.
fn give_back<S: Store>(store: &mut S)
    ensures { GaveBack (record { dumps = S.dumps store.old; claims = S.claims store.old })
        (record { dumps = S.dumps store.new; claims = S.claims store.new }) }
{
    match store.give_back() {
        Ok(()) | Err(_) => (),
    }
}

impl Server {
    /// The restore of an image, on a copy of the device. Errors: `AllocError` when out of memory.
    #[tactic(auto, unfolding(serve_rules::specs::Server::after, serve_rules::specs::Server::outcome_of))]
    fn restore_image(&self, alloc: Global, image: &ContextImage) -> Result<Restore, AllocError>
        requires { IsLawful image.now }
        ensures { IfOk result (λ r. IsRestoreOfImage self.now image.now r) }
    {
        let (device, outcome) = restored(alloc, &self.device, image)?;
        match outcome.answer {
            Answer::Done => {
                let ready = with_numbers(&self.ready, image.ends.as_slice())?;
                Ok(Restore::Made(Coming { device, ready }))
            }
            other => Ok(Restore::Refused(other)),
        }
    }

    /// The restore of an image, on a copy of the device.
    fn restore_or(&self, alloc: Global, image: &ContextImage) -> Restore
        requires { IsLawful image.now }
        ensures { IsRestoreOfImage self.now image.now result }
    {
        match self.restore_image(alloc, image) {
            Ok(restore) => restore,
            Err(AllocError) => Restore::Memory,
        }
    }

    /// The restore of the context of which bytes are a dump.
    fn prepare_restore(&self, alloc: Global, bytes: &[u8]) -> Restore
        ensures { IsRestoreOf self.now bytes.now result }
    {
        match decode_dump(alloc, bytes) {
            Err(DumpFault::BadDump { .. }) => Restore::BadDump,
            Err(DumpFault::OutOfMemory) => Restore::Memory,
            Ok(image) => self.restore_or(alloc, &image),
        }
    }

    /// A context is here.
    fn take_in(&mut self, coming: Coming)
        ensures { self.new ≡ record self.old
            { device = coming.device; ready = coming.ready.items } }
    {
        self.device = coming.device;
        self.ready = coming.ready;
    }

    /// A context comes, where its dump is gone from the store; else the dump is given back.
    fn finish<S: Store>(&mut self, store: &mut S, coming: Coming) -> Reply
        ensures { FinishLeaves self.old coming result self.new
            (record { dumps = S.dumps store.old; claims = S.claims store.old })
            (record { dumps = S.dumps store.new; claims = S.claims store.new }) }
    {
        match store.finish() {
            Ok(()) => {
                self.take_in(coming);
                Reply::Restored
            }
            Err(_) => {
                give_back(store);
                Reply::Depot
            }
        }
    }

    /// Restores the context whose dump was claimed, or gives the dump back.
    fn restore_claimed<S: Store>(&mut self, alloc: Global, store: &mut S, bytes: &[u8]) -> Reply
        ensures { ClaimLeaves self.old bytes.now result self.new
            (record { dumps = S.dumps store.old; claims = S.claims store.old })
            (record { dumps = S.dumps store.new; claims = S.claims store.new }) }
    {
        let reply = match self.prepare_restore(alloc, bytes) {
            Restore::Made(coming) => return self.finish(store, coming),
            Restore::Refused(answer) => Reply::Device(answer),
            Restore::BadDump => Reply::BadDump,
            Restore::Memory => Reply::Memory,
        };
        give_back(store);
        reply
    }

    /// Restores the context of a dump, and takes it out of the store. Where that fails, all is as before here, and the dump
    /// is in the store.
    pub(crate) fn restore<S: Store>(&mut self, alloc: Global, store: &mut S, file: Name) -> Reply
        ensures { rules.RestoreLeaves self.old file result self.new
            (record { dumps = S.dumps store.old; claims = S.claims store.old })
            (record { dumps = S.dumps store.new; claims = S.claims store.new }) }
    {
        match store.claim(alloc, file) {
            Ok(bytes) => self.restore_claimed(alloc, store, bytes.as_slice()),
            Err(fault) => fault_reply(fault),
        }
    }
}
