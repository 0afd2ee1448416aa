//! What a handle can hold.

ghost use Rattle.std.specs.Prelude.{◌≡◌, [], IfOk};

use crate::outbox::Outbox;
use context_dump::DumpReader;
use device_core::Device;
use protocol::ContextImage;
use std::alloc::{AllocError, Global};
use std::marker::Model;

/// A device, with the datagrams that its last step sent, and how many of them were read.
#[derive(Drop)]
pub(crate) struct HeldDevice {
    pub(crate) device: Device,
    pub(crate) sent: Outbox,
    pub(crate) read: usize,
}

impl HeldDevice {
    /// A device that did nothing yet. Errors: `AllocError` when out of memory.
    pub(crate) fn new(alloc: Global, device: Device) -> Result<HeldDevice, AllocError>
        ensures { IfOk result (λ d. d ≡ record { device = device; sent = []; read = 0 }) }
    {
        let sent = Outbox::make(alloc)?;
        Ok(HeldDevice {
            device,
            sent,
            read: 0,
        })
    }
}

/// The image of a stopped context, which keeps the rules of images.
#[derive(Drop)]
pub(crate) struct HeldImage {
    pub(crate) image: ContextImage,
}

impl Model for HeldImage {
    ghost use Rattle.protocol.specs.declared.images.ContextImage.{ContextImage};
    ghost use Rattle.protocol.specs.Lawful.{IsLawful};

    ghost Value = { ContextImage };

    ghost view = { λ h. h.image };

    ghost invariant = { λ h. IsLawful h.image };
}

/// What a handle can hold.
#[derive(Drop)]
pub(crate) enum Content {
    Device(HeldDevice),
    Image(HeldImage),
    Reader(DumpReader),
}
