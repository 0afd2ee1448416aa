//! What readers tell of what a handle can hold.

ghost use Rattle.std.specs.Prelude.{◌≡◌, Some, length};
ghost use Rattle.protocol.specs.Readers as device_readers;
ghost use Rattle.device_core.specs.Numbered.{numbered_view};
ghost use Rattle.device_core.specs.Readings as readings;
ghost use Rattle.c_layout.specs.Told as layout_told;
ghost use Rattle.device_c.specs.Readers as readers;
ghost use Rattle.device_c.specs.Told as told;

use crate::content::{Content, HeldDevice};
use crate::ends::end_told;
use c_layout::buffers::{copy, give};
use c_layout::codes::{INVALID, NONE, OK, TOO_SMALL};
use c_layout::layout::{CAddress, CDatagram, CEnd, CName};
use c_layout::told::{address_told, datagram_told, name_told};
use rdma_types::{Name, ObjName};

/// The name of a context, where there is one.
fn context_told(name: Option<Name>) -> Option<CName>
    ensures { result ≡ told.context_told name }
{
    let name = name?;
    Some(name_told(&name))
}

impl HeldDevice {
    /// The oldest datagram that was not read, where there is room for it.
    fn next_sent(&mut self, datagram: &mut CDatagram, bytes: &mut [u8]) -> u32
        ensures result { result ≡ readers.next_result (Some (readers.unread self.old)) (length bytes.old) }
        ensures told { datagram.new ≡ readers.next_told (Some (readers.unread self.old)) datagram.old }
        ensures bytes { bytes.new ≡ readers.next_bytes (Some (readers.unread self.old)) bytes.old }
        ensures held { self.new ≡ readers.device_after result self.old }
    {
        let Some(sent) = self.sent.get(self.read) else {
            return NONE;
        };
        *datagram = datagram_told(sent);
        if sent.bytes.len() > bytes.len() {
            return TOO_SMALL;
        }
        copy(sent.bytes.as_slice(), bytes);
        self.read += 1;
        OK
    }
}

impl Content {
    /// The oldest datagram that was not read, where there is room for it.
    pub(crate) fn next_sent(&mut self, datagram: &mut CDatagram, bytes: &mut [u8]) -> u32
        ensures result { result ≡ readers.next_result (readers.unread_of self.old) (length bytes.old) }
        ensures told { datagram.new ≡ readers.next_told (readers.unread_of self.old) datagram.old }
        ensures bytes { bytes.new ≡ readers.next_bytes (readers.unread_of self.old) bytes.old }
        ensures held { self.new ≡ readers.read_after result self.old }
    {
        match self {
            Content::Device(held) => held.next_sent(datagram, bytes),
            _ => INVALID,
        }
    }

    /// The id of a device.
    pub(crate) fn device_id(&self, id: &mut u32) -> u32
        ensures result { result ≡ readers.known_result (readers.in_device (λ d. d.id) self.now) }
        ensures told { id.new ≡ readers.known (readers.in_device (λ d. d.id) self.now) id.old }
    {
        let Content::Device(held) = self else {
            return INVALID;
        };
        *id = u32::from(held.device.id());
        OK
    }

    /// The address of a device.
    pub(crate) fn device_address(&self, address: &mut CAddress) -> u32
        ensures result { result ≡ readers.known_result (readers.in_device (λ d. layout_told.address_told d.address) self.now) }
        ensures told { address.new ≡ readers.known (readers.in_device (λ d. layout_told.address_told d.address) self.now) address.old }
    {
        let Content::Device(held) = self else {
            return INVALID;
        };
        *address = address_told(held.device.address());
        OK
    }

    /// The name of live context `i` of a device.
    pub(crate) fn context_at(&self, i: usize, context: &mut CName) -> u32
        ensures result { result ≡ readers.found_result (readers.in_device (λ d. told.context_told (device_readers.context_name d i)) self.now) }
        ensures told { context.new ≡ readers.found (readers.in_device (λ d. told.context_told (device_readers.context_name d i)) self.now) context.old }
    {
        match self {
            Content::Device(held) => give(context_told(held.device.context_at(i)), context),
            _ => INVALID,
        }
    }

    /// Queue pair `i` of a live context of a device.
    pub(crate) fn end_at(&self, context: Name, i: usize, end: &mut CEnd) -> u32
        ensures result { result ≡ readers.found_result (readers.in_device (λ d. told.end_told d (device_readers.end_view d context i)) self.now) }
        ensures told { end.new ≡ readers.found (readers.in_device (λ d. told.end_told d (device_readers.end_view d context i)) self.now) end.old }
    {
        match self {
            Content::Device(held) => {
                let view = held.device.end_at(context, i);
                give(end_told(&held.device, view), end)
            }
            _ => INVALID,
        }
    }

    /// The queue pair of a device that a word names.
    pub(crate) fn end_named(&self, name: &ObjName, end: &mut CEnd) -> u32
        ensures result { result ≡ readers.found_result (readers.in_device (λ d. told.end_told d (readings.end_named d name.now)) self.now) }
        ensures told { end.new ≡ readers.found (readers.in_device (λ d. told.end_told d (readings.end_named d name.now)) self.now) end.old }
    {
        match self {
            Content::Device(held) => {
                let view = held.device.end_named(name);
                give(end_told(&held.device, view), end)
            }
            _ => INVALID,
        }
    }

    /// The connected queue pair of a device with a number.
    pub(crate) fn end_numbered(&self, number: u32, end: &mut CEnd) -> u32
        ensures result { result ≡ readers.found_result (readers.in_device (λ d. told.end_told d (numbered_view d number)) self.now) }
        ensures told { end.new ≡ readers.found (readers.in_device (λ d. told.end_told d (numbered_view d number)) self.now) end.old }
    {
        match self {
            Content::Device(held) => {
                let view = held.device.end_numbered(number);
                give(end_told(&held.device, view), end)
            }
            _ => INVALID,
        }
    }

    /// The expected number and the one behind the highest that was sent, of the connected queue pair of a device with a
    /// number.
    pub(crate) fn marks(&self, number: u32, expected: &mut u64, top: &mut u64) -> u32
        ensures result { result ≡ readers.found_result (readers.in_device (λ d. readings.marks_at d number) self.now) }
        ensures expected { expected.new ≡ readers.found (readers.in_device (λ d. told.expected_of (readings.marks_at d number)) self.now) expected.old }
        ensures top { top.new ≡ readers.found (readers.in_device (λ d. told.top_of (readings.marks_at d number)) self.now) top.old }
    {
        let Content::Device(held) = self else {
            return INVALID;
        };
        match held.device.marks(number) {
            Some((next, past)) => {
                *expected = next;
                *top = past;
                OK
            }
            None => NONE,
        }
    }
}
