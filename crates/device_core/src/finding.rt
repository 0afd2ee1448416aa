//! The connected queue pair that a datagram is for.

ghost use Rattle.std.specs.Prelude.{◌≡◌, None, Some, IfNone, IfSome, IsSome};
ghost use Rattle.protocol.specs.declared.events.Event.{Event};
ghost use Rattle.protocol.specs.Bytes.{byte_at, number_at};
ghost use Rattle.protocol.specs.Refusals.{refusal_of};
ghost use Rattle.device_core.specs.Finding.{IsAt, IsFound};

use crate::Device;
use rdma_types::{ObjName, Refusal};

/// A connected queue pair that was found by its number: where it is on its device, and what it keeps. It is there as long
/// as the device does nothing.
#[derive(Clone, Copy)]
pub struct FoundEnd {
    /// The place of its context on the device.
    pub(crate) context: usize,
    /// Its place in the context.
    pub(crate) place: usize,
    /// The number of the next packet to execute.
    pub expected: u64,
    /// One past the highest number sent.
    pub top: u64,
}

/// Where a connected queue pair is on its device. It is there as long as the device does nothing.
#[derive(Clone, Copy)]
pub struct EndPlace {
    /// The place of its context on the device.
    pub(crate) context: usize,
    /// Its place in the context.
    pub(crate) place: usize,
}

/// Byte `i`, and 0 behind the last.
fn byte(bytes: &[u8], i: usize) -> u8
    ensures { result ≡ byte_at i bytes.now }
{
    bytes.get(i).copied().unwrap_or(0)
}

/// The queue pair number that a datagram is for.
pub fn destination(bytes: &[u8]) -> u32
    ensures { result ≡ number_at 5 3 bytes.now }
{
    u32::from(byte(bytes, 5)) * 65_536 + u32::from(byte(bytes, 6)) * 256 + u32::from(byte(bytes, 7))
}

impl Device {
    /// The connected queue pair with a number; None where none lives here.
    #[inline(always)]
    pub fn find_end(&self, number: u32) -> Option<FoundEnd>
        ensures { IsFound self.now number result }
    {
        let spot = self.index.get(&number)?;
        let (context, _, held) = self.contexts.get_full(&spot.context)?;
        let (expected, top) = held.marks_at(spot.place)?;
        Some(FoundEnd {
            context,
            place: spot.place,
            expected,
            top,
        })
    }

    /// Why the transmission of an end is refused.
    pub fn transmit_refusal(&self, end: &ObjName) -> Refusal
        requires { IsSome (refusal_of self.now (Event.Transmit end.now)) }
        ensures { refusal_of self.now (Event.Transmit end.now) ≡ Some result }
    {
        let Some(state) = self.contexts.get(&end.context) else {
            return self.missing(end.context);
        };
        state.transmit_refusal(end.name)
    }

    /// Where the connected queue pair of a name is; None exactly where a transmission is refused.
    #[inline(always)]
    pub fn place_of(&self, end: &ObjName) -> Option<EndPlace>
        ensures there { IfSome result (λ at. IsAt self.now end.now at) }
        ensures free { IfSome result (λ _. refusal_of self.now (Event.Transmit end.now) ≡ None) }
        ensures none { IfNone result (IsSome (refusal_of self.now (Event.Transmit end.now))) }
    {
        let (context, _, held) = self.contexts.get_full(&end.context)?;
        let place = held.connected_place(end.name)?;
        Some(EndPlace { context, place })
    }
}
