//! Images of stopped contexts as bytes, and back.

ghost use Rattle.std.specs.Prelude.{◌≡◌, ◌==◌, [], length, drop, min, IfOk, IfErr, Some, None, is_none, true, false, if◌then◌else◌, ◌≢◌};
ghost use Rattle.protocol.specs.Dumps.{dump_bytes, read_dump};
ghost use Rattle.protocol.specs.Lawful.{IsLawful};
ghost use Rattle.c_layout.specs.Told as layout_told;
ghost use Rattle.device_c.specs.Images as images;
ghost use Rattle.device_c.specs.Readers as readers;
ghost use Rattle.device_c.specs.declared.content.Content.TheVariants as content;
ghost use Rattle.c_layout.specs.Given.{overlaid};

use crate::content::{Content, HeldImage};
use crate::handle::Handle;
use c_layout::buffers::give;
use c_layout::codes::{BAD_DUMP, INVALID, NO_MEMORY, OK};
use c_layout::layout::{CEnd, CFault, CName};
use c_layout::told::{fault_told, image_end_told, name_told};
use context_dump::{DumpFault, DumpReader, DumpWriter, decode_dump, dump_length};
use protocol::ContextImage;
use std::alloc::Global;

/// Bytes that are passed over at a time.
const STEP: usize = 4096;

/// Tells why no image was read.
fn tell_fault(told: DumpFault, fault: &mut CFault) -> u32
    ensures result { result ≡ images.fault_result told }
    ensures fault { fault.new ≡ images.fault_after told fault.old }
{
    match told {
        DumpFault::BadDump { place, why } => {
            *fault = fault_told(place, why);
            BAD_DUMP
        }
        DumpFault::OutOfMemory => NO_MEMORY,
    }
}

/// Puts an image into a handle that holds nothing.
fn put_image(alloc: Global, image: ContextImage, handle: &mut Handle) -> u32
    requires { IsLawful image }
    ensures result { result ≡ (if result == 1 then 1 else 0) }
    ensures held { handle.new.held.value ≡ (if result == 0 then Some (content.Image image) else handle.old.held.value) }
{
    match Box::new(alloc, Content::Image(HeldImage { image })) {
        Ok(content) => {
            handle.put(content);
            OK
        }
        Err(_) => NO_MEMORY,
    }
}

/// Reads the image that bytes are a dump of into a handle that holds nothing.
pub(crate) fn decode(alloc: Global, bytes: &[u8], image: &mut Handle, fault: &mut CFault) -> u32
    ensures result { result ≡ images.read_result (result == 1) (images.read_into image.old.held.value (Some (read_dump bytes.now))) }
    ensures image { image.new.held.value ≡ images.read_image result (images.read_into image.old.held.value (Some (read_dump bytes.now))) image.old.held.value }
    ensures fault { fault.new ≡ images.read_fault result (images.read_into image.old.held.value (Some (read_dump bytes.now))) fault.old }
{
    if !image.is_free() {
        return INVALID;
    }
    match decode_dump(alloc, bytes) {
        Ok(read) => put_image(alloc, read, image),
        Err(told) => tell_fault(told, fault),
    }
}

/// Passes over so many bytes, or to the end.
fn skip(writer: &mut DumpWriter<'_>, place: u64)
    ensures { writer.new.left ≡ drop place writer.old.left }
{
    let mut page = [0; STEP];
    let mut left = place;
    while left > 0 {
        let room = left.min(STEP as u64) as usize;
        if writer.fill(&mut page[..room]) < room {
            return;
        }
        left -= room as u64;
    }
}

/// Writes bytes of the dump of an image, from a place on, and says how many.
fn read_from(image: &ContextImage, place: u64, bytes: &mut [u8]) -> usize
    requires { IsLawful image.now }
    ensures count { result ≡ min (length bytes.old) (length (images.dump_from place image.now)) }
    ensures bytes { bytes.new ≡ overlaid (images.dump_from place image.now) bytes.old }
{
    let mut writer = DumpWriter::make(image);
    skip(&mut writer, place);
    writer.fill(bytes)
}

/// Queue pair `i` of an image, where there is one.
fn image_end(image: &ContextImage, i: usize) -> Option<CEnd>
    ensures { result ≡ images.end_at i image.now }
{
    let end = image.ends.as_slice().get(i)?;
    Some(image_end_told(&image.name, end))
}

/// A reader of no bytes, in a handle that holds nothing.
pub(crate) fn make_reader(alloc: Global, reader: &mut Handle) -> u32
    ensures result { result ≡ (if is_none reader.old.held.value then (if result == 1 then 1 else 0) else 2) }
    ensures held { reader.new.held.value ≡ (if result == 0 then Some (content.Reader []) else reader.old.held.value) }
{
    if !reader.is_free() {
        return INVALID;
    }
    match Box::new(alloc, Content::Reader(DumpReader::make(alloc))) {
        Ok(content) => {
            reader.put(content);
            OK
        }
        Err(_) => NO_MEMORY,
    }
}

/// Reads the image that the bytes of a reader are a dump of into a handle that holds nothing.
pub(crate) fn finish(
    alloc: Global,
    reader: &mut Handle,
    image: &mut Handle,
    fault: &mut CFault,
) -> u32
    ensures result { result ≡ images.read_result (result == 1) (images.read_into image.old.held.value (images.reading_by reader.old.held.value)) }
    ensures image { image.new.held.value ≡ images.read_image result (images.read_into image.old.held.value (images.reading_by reader.old.held.value)) image.old.held.value }
    ensures fault { fault.new ≡ images.read_fault result (images.read_into image.old.held.value (images.reading_by reader.old.held.value)) fault.old }
    ensures held { reader.new.held.value ≡ (if result == 2 then reader.old.held.value else Some (content.Reader [])) }
{
    if !image.is_free() {
        return INVALID;
    }
    let Some(mut content) = reader.take(alloc) else {
        return INVALID;
    };
    let result = content.finish(alloc, image, fault);
    reader.put(content);
    result
}

impl Content {
    /// How many bytes the dump of an image has.
    pub(crate) fn image_length(&self, count: &mut u64) -> u32
        ensures result { result ≡ readers.known_result (readers.in_image (λ i. length (dump_bytes 2 i)) self.now) }
        ensures told { count.new ≡ readers.known (readers.in_image (λ i. length (dump_bytes 2 i)) self.now) count.old }
    {
        let Content::Image(held) = self else {
            return INVALID;
        };
        *count = dump_length(&held.image);
        OK
    }

    /// Bytes of the dump of an image, from a place on, and how many.
    pub(crate) fn image_read(&self, place: u64, bytes: &mut [u8], count: &mut u64) -> u32
        ensures result { result ≡ readers.known_result (readers.in_image (images.dump_from place) self.now) }
        ensures count { count.new ≡ readers.handed_count (readers.in_image (images.dump_from place) self.now) (length bytes.old) count.old }
        ensures bytes { bytes.new ≡ readers.handed (readers.in_image (images.dump_from place) self.now) bytes.old }
    {
        let Content::Image(held) = self else {
            return INVALID;
        };
        *count = read_from(&held.image, place, bytes) as u64;
        OK
    }

    /// The name of the context of an image.
    pub(crate) fn image_name(&self, context: &mut CName) -> u32
        ensures result { result ≡ readers.known_result (readers.in_image (λ i. layout_told.name_told i.name) self.now) }
        ensures told { context.new ≡ readers.known (readers.in_image (λ i. layout_told.name_told i.name) self.now) context.old }
    {
        let Content::Image(held) = self else {
            return INVALID;
        };
        *context = name_told(&held.image.name);
        OK
    }

    /// Queue pair `i` of an image.
    pub(crate) fn image_end(&self, i: usize, end: &mut CEnd) -> u32
        ensures result { result ≡ readers.found_result (readers.in_image (images.end_at i) self.now) }
        ensures told { end.new ≡ readers.found (readers.in_image (images.end_at i) self.now) end.old }
    {
        match self {
            Content::Image(held) => give(image_end(&held.image, i), end),
            _ => INVALID,
        }
    }

    /// More bytes for a reader.
    pub(crate) fn feed(&mut self, bytes: &[u8], fault: &mut CFault) -> u32
        ensures fed { result ≡ 0 → images.fed_to self.new ≡ Some (images.fed_more (images.fed_to self.old) bytes.now) }
        ensures sound { result ≡ 0 → images.are_bad (images.fed_more (images.fed_to self.old) bytes.now) ≡ false }
        ensures bad { result ≡ 3 → images.are_bad (images.fed_more (images.fed_to self.old) bytes.now) ≡ true }
        ensures ever { result ≡ 3 → images.reading_of self.new ≡ Some (read_dump (images.fed_more (images.fed_to self.old) bytes.now)) }
        ensures fault { fault.new ≡ (if result == 3 then images.reading_fault (read_dump (images.fed_more (images.fed_to self.old) bytes.now)) fault.old else fault.old) }
        ensures same { result ≢ 0 → result ≢ 3 → self.new ≡ self.old }
        ensures result { images.is_fed_result result (images.fed_to self.old) ≡ true }
    {
        let Content::Reader(reader) = self else {
            return INVALID;
        };
        match reader.feed(bytes) {
            Ok(()) => OK,
            Err(told) => tell_fault(told, fault),
        }
    }

    /// The image that a reader's bytes are a dump of, into a handle that holds nothing. The reader then has no bytes.
    pub(crate) fn finish(&mut self, alloc: Global, image: &mut Handle, fault: &mut CFault) -> u32
        requires { image.old.held.value ≡ None }
        ensures result { result ≡ images.read_result (result == 1) (images.reading_of self.old) }
        ensures image { image.new.held.value ≡ images.read_image result (images.reading_of self.old) image.old.held.value }
        ensures fault { fault.new ≡ images.read_fault result (images.reading_of self.old) fault.old }
        ensures held { self.new ≡ images.emptied self.old }
    {
        let Content::Reader(reader) = self else {
            return INVALID;
        };
        let whole = std::mem::replace(reader, DumpReader::make(alloc));
        match whole.finish() {
            Ok(read) => put_image(alloc, read, image),
            Err(told) => tell_fault(told, fault),
        }
    }
}
