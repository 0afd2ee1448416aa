//! What C calls. bindings/c/jichurpa.h says what each does, owes and answers.

ghost use Rattle.std.specs.Prelude.{◌≡◌, ◌≢◌, ◌==◌, [], length, Option, Some, None, option_map, is_none, true, false, if◌then◌else◌};
ghost use Rattle.protocol.specs.declared.events.Event.TheVariants as event;
ghost use Rattle.protocol.specs.Dumps.{dump_bytes, read_dump};
ghost use Rattle.protocol.specs.Readers as device_readers;
ghost use Rattle.device_core.specs.Numbered.{numbered_view};
ghost use Rattle.device_core.specs.Readings as readings;
ghost use Rattle.c_layout.specs.Asked as asked;
ghost use Rattle.c_layout.specs.Told as layout_told;
ghost use Rattle.device_c.specs.declared.content.Content.TheVariants as content;
ghost use Rattle.device_c.specs.Images as images;
ghost use Rattle.device_c.specs.Readers as readers;
ghost use Rattle.device_c.specs.Steps as steps;
ghost use Rattle.device_c.specs.Told as told;

use crate::handle::Handle;
use crate::images;
use c_layout::asked;
use c_layout::codes::INVALID;
use c_layout::layout::{
    CAddress, CCompletion, CDatagram, CEnd, CFault, CName, CObject, COutcome, CQpOptions, CReceive,
    CRequest, CTerms,
};
use std::alloc::Global;

/// The version of the interface.
#[unsafe(no_mangle)]
pub extern "C" fn jichurpa_abi() -> u32
    ensures { result ≡ 1 }
{
    1
}

/// A device is made in a handle that holds nothing.
#[unsafe(no_mangle)]
pub extern "C" fn jichurpa_device_make(
    alloc: Global,
    id: u32,
    address: &CAddress,
    device: &mut Handle,
) -> u32
    ensures result { result ≡ (if steps.may_make id device.old.held.value then (if result == 1 then 1 else 0) else 2) }
    ensures held { device.new.held.value ≡ (if result == 0 then Some (steps.made id (asked.address_asked address.now)) else device.old.held.value) }
{
    device.make(alloc, id, asked::address_asked(address))
}

/// What a handle holds is freed.
#[unsafe(no_mangle)]
pub extern "C" fn jichurpa_device_free(alloc: Global, device: &mut Handle) -> u32
    ensures held { device.new.held.value ≡ None }
    ensures result { result ≡ 0 }
{
    device.free(alloc)
}

/// The id of a device.
#[unsafe(no_mangle)]
pub extern "C" fn jichurpa_device_id(alloc: Global, device: &mut Handle, id: &mut u32) -> u32
    ensures held { device.new.held.value ≡ device.old.held.value }
    ensures result { result ≡ readers.known_result (readers.in_held (readers.in_device (λ d. d.id)) device.old.held.value) }
    ensures told { id.new ≡ readers.known (readers.in_held (readers.in_device (λ d. d.id)) device.old.held.value) id.old }
{
    let Some(content) = device.take(alloc) else {
        return INVALID;
    };
    let result = content.device_id(id);
    device.put(content);
    result
}

/// The address of a device.
#[unsafe(no_mangle)]
pub extern "C" fn jichurpa_device_address(
    alloc: Global,
    device: &mut Handle,
    address: &mut CAddress,
) -> u32
    ensures held { device.new.held.value ≡ device.old.held.value }
    ensures result { result ≡ readers.known_result (readers.in_held (readers.in_device (λ d. layout_told.address_told d.address)) device.old.held.value) }
    ensures told { address.new ≡ readers.known (readers.in_held (readers.in_device (λ d. layout_told.address_told d.address)) device.old.held.value) address.old }
{
    let Some(content) = device.take(alloc) else {
        return INVALID;
    };
    let result = content.device_address(address);
    device.put(content);
    result
}

/// A new context.
#[unsafe(no_mangle)]
pub extern "C" fn jichurpa_make_context(
    alloc: Global,
    device: &mut Handle,
    context: &CName,
    outcome: &mut COutcome,
) -> u32
    ensures held { device.new.held.value ≡ steps.held_after result device.old.held.value (asked.context_event context.now) }
    ensures told { outcome.new ≡ steps.told_after result device.old.held.value (asked.context_event context.now) outcome.old }
    ensures result { result ≡ steps.result_after (result == 1) device.old.held.value (asked.context_event context.now) }
{
    device.step(alloc, asked::make_context(context), outcome)
}

/// A new protection domain.
#[unsafe(no_mangle)]
pub extern "C" fn jichurpa_make_domain(
    alloc: Global,
    device: &mut Handle,
    domain: &CObject,
    outcome: &mut COutcome,
) -> u32
    ensures held { device.new.held.value ≡ steps.held_after result device.old.held.value (asked.domain_event domain.now) }
    ensures told { outcome.new ≡ steps.told_after result device.old.held.value (asked.domain_event domain.now) outcome.old }
    ensures result { result ≡ steps.result_after (result == 1) device.old.held.value (asked.domain_event domain.now) }
{
    device.step(alloc, asked::make_domain(domain), outcome)
}

/// A new memory region.
#[unsafe(no_mangle)]
pub extern "C" fn jichurpa_make_region(
    alloc: Global,
    device: &mut Handle,
    region: &CObject,
    domain: &CName,
    base: u64,
    length: u32,
    rights: u32,
    outcome: &mut COutcome,
) -> u32
    ensures held { device.new.held.value ≡ steps.held_after result device.old.held.value (asked.region_event region.now domain.now base length rights) }
    ensures told { outcome.new ≡ steps.told_after result device.old.held.value (asked.region_event region.now domain.now base length rights) outcome.old }
    ensures result { result ≡ steps.result_after (result == 1) device.old.held.value (asked.region_event region.now domain.now base length rights) }
{
    device.step(
        alloc,
        asked::make_region(region, domain, base, length, rights),
        outcome,
    )
}

/// A new completion queue.
#[unsafe(no_mangle)]
pub extern "C" fn jichurpa_make_cq(
    alloc: Global,
    device: &mut Handle,
    cq: &CObject,
    capacity: u32,
    outcome: &mut COutcome,
) -> u32
    ensures held { device.new.held.value ≡ steps.held_after result device.old.held.value (asked.cq_event cq.now capacity) }
    ensures told { outcome.new ≡ steps.told_after result device.old.held.value (asked.cq_event cq.now capacity) outcome.old }
    ensures result { result ≡ steps.result_after (result == 1) device.old.held.value (asked.cq_event cq.now capacity) }
{
    device.step(alloc, asked::make_cq(cq, capacity), outcome)
}

/// A new queue pair.
#[unsafe(no_mangle)]
pub extern "C" fn jichurpa_make_qp(
    alloc: Global,
    device: &mut Handle,
    qp: &CObject,
    options: &CQpOptions,
    outcome: &mut COutcome,
) -> u32
    ensures held { device.new.held.value ≡ steps.held_after result device.old.held.value (asked.qp_event qp.now options.now) }
    ensures told { outcome.new ≡ steps.told_after result device.old.held.value (asked.qp_event qp.now options.now) outcome.old }
    ensures result { result ≡ steps.result_after (result == 1) device.old.held.value (asked.qp_event qp.now options.now) }
{
    device.step(alloc, asked::make_qp(qp, options), outcome)
}

/// A queue pair is connected.
#[unsafe(no_mangle)]
pub extern "C" fn jichurpa_connect(
    alloc: Global,
    device: &mut Handle,
    qp: &CObject,
    peer: u32,
    partner: &CAddress,
    terms: &CTerms,
    outcome: &mut COutcome,
) -> u32
    ensures held { device.new.held.value ≡ steps.held_after result device.old.held.value (asked.connect_event qp.now peer partner.now terms.now) }
    ensures told { outcome.new ≡ steps.told_after result device.old.held.value (asked.connect_event qp.now peer partner.now terms.now) outcome.old }
    ensures result { result ≡ steps.result_after (result == 1) device.old.held.value (asked.connect_event qp.now peer partner.now terms.now) }
{
    device.step(alloc, asked::connect(qp, peer, partner, terms), outcome)
}

/// A memory region is dropped.
#[unsafe(no_mangle)]
pub extern "C" fn jichurpa_drop_region(
    alloc: Global,
    device: &mut Handle,
    region: &CObject,
    outcome: &mut COutcome,
) -> u32
    ensures held { device.new.held.value ≡ steps.held_after result device.old.held.value (asked.drop_region_event region.now) }
    ensures told { outcome.new ≡ steps.told_after result device.old.held.value (asked.drop_region_event region.now) outcome.old }
    ensures result { result ≡ steps.result_after (result == 1) device.old.held.value (asked.drop_region_event region.now) }
{
    device.step(alloc, asked::drop_region(region), outcome)
}

/// The owner writes its region.
#[unsafe(no_mangle)]
pub extern "C" fn jichurpa_store(
    alloc: Global,
    device: &mut Handle,
    region: &CObject,
    at: u64,
    bytes: &[u8],
    outcome: &mut COutcome,
) -> u32
    ensures held { device.new.held.value ≡ steps.held_after result device.old.held.value (asked.store_event region.now at bytes.now) }
    ensures told { outcome.new ≡ steps.told_after result device.old.held.value (asked.store_event region.now at bytes.now) outcome.old }
    ensures result { result ≡ steps.result_after (result == 1) device.old.held.value (asked.store_event region.now at bytes.now) }
{
    device.store(alloc, asked::object_asked(region), at, bytes, outcome)
}

/// The owner reads its region.
#[unsafe(no_mangle)]
pub extern "C" fn jichurpa_load(
    alloc: Global,
    device: &mut Handle,
    region: &CObject,
    at: u64,
    bytes: &mut [u8],
    outcome: &mut COutcome,
) -> u32
    ensures held { device.new.held.value ≡ steps.held_after result device.old.held.value (asked.load_event region.now at (length bytes.old)) }
    ensures told { outcome.new ≡ steps.told_after result device.old.held.value (asked.load_event region.now at (length bytes.old)) outcome.old }
    ensures result { result ≡ steps.result_after (result == 1) device.old.held.value (asked.load_event region.now at (length bytes.old)) }
    ensures bytes { bytes.new ≡ steps.loaded_after result device.old.held.value (asked.load_event region.now at (length bytes.old)) bytes.old }
{
    let event = asked::load(region, at, bytes.len());
    device.load(alloc, event, bytes, outcome)
}

/// A request of the send queue.
#[unsafe(no_mangle)]
pub extern "C" fn jichurpa_post_send(
    alloc: Global,
    device: &mut Handle,
    qp: &CObject,
    request: &CRequest,
    outcome: &mut COutcome,
) -> u32
    ensures held { device.new.held.value ≡ steps.held_after result device.old.held.value (asked.send_event qp.now request.now) }
    ensures told { outcome.new ≡ steps.told_after result device.old.held.value (asked.send_event qp.now request.now) outcome.old }
    ensures result { result ≡ steps.result_after (result == 1) device.old.held.value (asked.send_event qp.now request.now) }
{
    device.step(alloc, asked::post_send(qp, request), outcome)
}

/// A receive.
#[unsafe(no_mangle)]
pub extern "C" fn jichurpa_post_recv(
    alloc: Global,
    device: &mut Handle,
    qp: &CObject,
    receive: &CReceive,
    outcome: &mut COutcome,
) -> u32
    ensures held { device.new.held.value ≡ steps.held_after result device.old.held.value (asked.recv_event qp.now receive.now) }
    ensures told { outcome.new ≡ steps.told_after result device.old.held.value (asked.recv_event qp.now receive.now) outcome.old }
    ensures result { result ≡ steps.result_after (result == 1) device.old.held.value (asked.recv_event qp.now receive.now) }
{
    device.step(alloc, asked::post_recv(qp, receive), outcome)
}

/// The oldest completions of a queue.
#[unsafe(no_mangle)]
pub extern "C" fn jichurpa_poll(
    alloc: Global,
    device: &mut Handle,
    cq: &CObject,
    completions: &mut [CCompletion],
    outcome: &mut COutcome,
) -> u32
    ensures held { device.new.held.value ≡ steps.held_after result device.old.held.value (asked.poll_event cq.now (length completions.old)) }
    ensures told { outcome.new ≡ steps.told_after result device.old.held.value (asked.poll_event cq.now (length completions.old)) outcome.old }
    ensures result { result ≡ steps.result_after (result == 1) device.old.held.value (asked.poll_event cq.now (length completions.old)) }
    ensures completions { completions.new ≡ steps.polled_after result device.old.held.value (asked.poll_event cq.now (length completions.old)) completions.old }
{
    let event = asked::poll(cq, completions.len());
    device.poll(alloc, event, completions, outcome)
}

/// A queue pair sends its next packet.
#[unsafe(no_mangle)]
pub extern "C" fn jichurpa_transmit(
    alloc: Global,
    device: &mut Handle,
    qp: &CObject,
    outcome: &mut COutcome,
) -> u32
    ensures held { device.new.held.value ≡ steps.held_after result device.old.held.value (asked.transmit_event qp.now) }
    ensures told { outcome.new ≡ steps.told_after result device.old.held.value (asked.transmit_event qp.now) outcome.old }
    ensures result { result ≡ steps.result_after (result == 1) device.old.held.value (asked.transmit_event qp.now) }
{
    device.transmit(alloc, asked::object_asked(qp), outcome)
}

/// Bytes arrive.
#[unsafe(no_mangle)]
pub extern "C" fn jichurpa_arrive(
    alloc: Global,
    device: &mut Handle,
    from: &CAddress,
    bytes: &[u8],
    outcome: &mut COutcome,
) -> u32
    ensures held { device.new.held.value ≡ steps.held_after result device.old.held.value (Some (event.Arrive (asked.address_asked from.now) bytes.now)) }
    ensures told { outcome.new ≡ steps.told_after result device.old.held.value (Some (event.Arrive (asked.address_asked from.now) bytes.now)) outcome.old }
    ensures result { result ≡ steps.result_after (result == 1) device.old.held.value (Some (event.Arrive (asked.address_asked from.now) bytes.now)) }
{
    device.arrive(alloc, asked::address_asked(from), bytes, outcome)
}

/// The retransmission timer of a queue pair expired.
#[unsafe(no_mangle)]
pub extern "C" fn jichurpa_expire(
    alloc: Global,
    device: &mut Handle,
    qp: &CObject,
    outcome: &mut COutcome,
) -> u32
    ensures held { device.new.held.value ≡ steps.held_after result device.old.held.value (asked.expire_event qp.now) }
    ensures told { outcome.new ≡ steps.told_after result device.old.held.value (asked.expire_event qp.now) outcome.old }
    ensures result { result ≡ steps.result_after (result == 1) device.old.held.value (asked.expire_event qp.now) }
{
    device.step(alloc, asked::expire(qp), outcome)
}

/// The RNR timer of a queue pair expired.
#[unsafe(no_mangle)]
pub extern "C" fn jichurpa_rnr_over(
    alloc: Global,
    device: &mut Handle,
    qp: &CObject,
    outcome: &mut COutcome,
) -> u32
    ensures held { device.new.held.value ≡ steps.held_after result device.old.held.value (asked.rnr_over_event qp.now) }
    ensures told { outcome.new ≡ steps.told_after result device.old.held.value (asked.rnr_over_event qp.now) outcome.old }
    ensures result { result ≡ steps.result_after (result == 1) device.old.held.value (asked.rnr_over_event qp.now) }
{
    device.step(alloc, asked::rnr_over(qp), outcome)
}

/// A context leaves, and its image goes into a handle that holds nothing.
#[unsafe(no_mangle)]
pub extern "C" fn jichurpa_stop(
    alloc: Global,
    device: &mut Handle,
    context: &CName,
    alone: u32,
    image: &mut Handle,
    outcome: &mut COutcome,
) -> u32
    ensures held { device.new.held.value ≡ steps.held_after result device.old.held.value (steps.stop_into image.old.held.value (asked.stop_event context.now alone)) }
    ensures told { outcome.new ≡ steps.told_after result device.old.held.value (steps.stop_into image.old.held.value (asked.stop_event context.now alone)) outcome.old }
    ensures result { result ≡ steps.result_after (result == 1) device.old.held.value (steps.stop_into image.old.held.value (asked.stop_event context.now alone)) }
    ensures image { image.new.held.value ≡ steps.image_after result device.old.held.value (steps.stop_into image.old.held.value (asked.stop_event context.now alone)) image.old.held.value }
{
    device.stop(alloc, asked::stop(context, alone), image, outcome)
}

/// The context of an image comes. The image stays in its handle.
#[unsafe(no_mangle)]
pub extern "C" fn jichurpa_restore(
    alloc: Global,
    device: &mut Handle,
    image: &mut Handle,
    outcome: &mut COutcome,
) -> u32
    ensures held { device.new.held.value ≡ steps.held_after result device.old.held.value (steps.restore_event image.old.held.value) }
    ensures told { outcome.new ≡ steps.told_after result device.old.held.value (steps.restore_event image.old.held.value) outcome.old }
    ensures result { result ≡ steps.result_after (result == 1) device.old.held.value (steps.restore_event image.old.held.value) }
    ensures image { image.new.held.value ≡ image.old.held.value }
{
    device.restore(alloc, image, outcome)
}

/// The husk of a context is forgotten.
#[unsafe(no_mangle)]
pub extern "C" fn jichurpa_release(
    alloc: Global,
    device: &mut Handle,
    context: &CName,
    outcome: &mut COutcome,
) -> u32
    ensures held { device.new.held.value ≡ steps.held_after result device.old.held.value (asked.release_event context.now) }
    ensures told { outcome.new ≡ steps.told_after result device.old.held.value (asked.release_event context.now) outcome.old }
    ensures result { result ≡ steps.result_after (result == 1) device.old.held.value (asked.release_event context.now) }
{
    device.step(alloc, asked::release(context), outcome)
}

/// The oldest datagram of the last step that was not read.
#[unsafe(no_mangle)]
pub extern "C" fn jichurpa_next_sent(
    alloc: Global,
    device: &mut Handle,
    datagram: &mut CDatagram,
    bytes: &mut [u8],
) -> u32
    ensures result { result ≡ readers.next_result (readers.in_held readers.unread_of device.old.held.value) (length bytes.old) }
    ensures told { datagram.new ≡ readers.next_told (readers.in_held readers.unread_of device.old.held.value) datagram.old }
    ensures bytes { bytes.new ≡ readers.next_bytes (readers.in_held readers.unread_of device.old.held.value) bytes.old }
    ensures held { device.new.held.value ≡ option_map (readers.read_after result) device.old.held.value }
{
    let Some(mut content) = device.take(alloc) else {
        return INVALID;
    };
    let result = content.next_sent(datagram, bytes);
    device.put(content);
    result
}

/// The name of live context `i`.
#[unsafe(no_mangle)]
pub extern "C" fn jichurpa_context_at(
    alloc: Global,
    device: &mut Handle,
    i: usize,
    context: &mut CName,
) -> u32
    ensures held { device.new.held.value ≡ device.old.held.value }
    ensures result { result ≡ readers.found_result (readers.in_held (readers.in_device (λ d. told.context_told (device_readers.context_name d i))) device.old.held.value) }
    ensures told { context.new ≡ readers.found (readers.in_held (readers.in_device (λ d. told.context_told (device_readers.context_name d i))) device.old.held.value) context.old }
{
    let Some(content) = device.take(alloc) else {
        return INVALID;
    };
    let result = content.context_at(i, context);
    device.put(content);
    result
}

/// Queue pair `i` of a live context.
#[unsafe(no_mangle)]
pub extern "C" fn jichurpa_end_at(
    alloc: Global,
    device: &mut Handle,
    context: &CName,
    i: usize,
    end: &mut CEnd,
) -> u32
    ensures held { device.new.held.value ≡ device.old.held.value }
    ensures result { result ≡ readers.found_result (readers.for_name (λ n. readers.in_held (readers.in_device (λ d. told.end_told d (device_readers.end_view d n i))) device.old.held.value) (asked.name_asked context.now)) }
    ensures told { end.new ≡ readers.found (readers.for_name (λ n. readers.in_held (readers.in_device (λ d. told.end_told d (device_readers.end_view d n i))) device.old.held.value) (asked.name_asked context.now)) end.old }
{
    let Some(name) = asked::name_asked(context) else {
        return INVALID;
    };
    let Some(content) = device.take(alloc) else {
        return INVALID;
    };
    let result = content.end_at(name, i, end);
    device.put(content);
    result
}

/// The queue pair of a name.
#[unsafe(no_mangle)]
pub extern "C" fn jichurpa_end_named(
    alloc: Global,
    device: &mut Handle,
    qp: &CObject,
    end: &mut CEnd,
) -> u32
    ensures held { device.new.held.value ≡ device.old.held.value }
    ensures result { result ≡ readers.found_result (readers.for_name (λ n. readers.in_held (readers.in_device (λ d. told.end_told d (readings.end_named d n))) device.old.held.value) (asked.object_asked qp.now)) }
    ensures told { end.new ≡ readers.found (readers.for_name (λ n. readers.in_held (readers.in_device (λ d. told.end_told d (readings.end_named d n))) device.old.held.value) (asked.object_asked qp.now)) end.old }
{
    let Some(name) = asked::object_asked(qp) else {
        return INVALID;
    };
    let Some(content) = device.take(alloc) else {
        return INVALID;
    };
    let result = content.end_named(&name, end);
    device.put(content);
    result
}

/// The connected queue pair with a number.
#[unsafe(no_mangle)]
pub extern "C" fn jichurpa_end_numbered(
    alloc: Global,
    device: &mut Handle,
    number: u32,
    end: &mut CEnd,
) -> u32
    ensures held { device.new.held.value ≡ device.old.held.value }
    ensures result { result ≡ readers.found_result (readers.in_held (readers.in_device (λ d. told.end_told d (numbered_view d number))) device.old.held.value) }
    ensures told { end.new ≡ readers.found (readers.in_held (readers.in_device (λ d. told.end_told d (numbered_view d number))) device.old.held.value) end.old }
{
    let Some(content) = device.take(alloc) else {
        return INVALID;
    };
    let result = content.end_numbered(number, end);
    device.put(content);
    result
}

/// What the connected queue pair with a number expects next, and the number behind the highest that it sent.
#[unsafe(no_mangle)]
pub extern "C" fn jichurpa_marks(
    alloc: Global,
    device: &mut Handle,
    number: u32,
    expected: &mut u64,
    top: &mut u64,
) -> u32
    ensures held { device.new.held.value ≡ device.old.held.value }
    ensures result { result ≡ readers.found_result (readers.in_held (readers.in_device (λ d. readings.marks_at d number)) device.old.held.value) }
    ensures expected { expected.new ≡ readers.found (readers.in_held (readers.in_device (λ d. told.expected_of (readings.marks_at d number))) device.old.held.value) expected.old }
    ensures top { top.new ≡ readers.found (readers.in_held (readers.in_device (λ d. told.top_of (readings.marks_at d number))) device.old.held.value) top.old }
{
    let Some(content) = device.take(alloc) else {
        return INVALID;
    };
    let result = content.marks(number, expected, top);
    device.put(content);
    result
}

/// How many bytes the dump of an image has.
#[unsafe(no_mangle)]
pub extern "C" fn jichurpa_image_length(alloc: Global, image: &mut Handle, count: &mut u64) -> u32
    ensures held { image.new.held.value ≡ image.old.held.value }
    ensures result { result ≡ readers.known_result (readers.in_held (readers.in_image (λ i. length (dump_bytes 2 i))) image.old.held.value) }
    ensures told { count.new ≡ readers.known (readers.in_held (readers.in_image (λ i. length (dump_bytes 2 i))) image.old.held.value) count.old }
{
    let Some(content) = image.take(alloc) else {
        return INVALID;
    };
    let result = content.image_length(count);
    image.put(content);
    result
}

/// Bytes of the dump of an image, from a place on, and how many.
#[unsafe(no_mangle)]
pub extern "C" fn jichurpa_image_read(
    alloc: Global,
    image: &mut Handle,
    place: u64,
    bytes: &mut [u8],
    count: &mut u64,
) -> u32
    ensures held { image.new.held.value ≡ image.old.held.value }
    ensures result { result ≡ readers.known_result (readers.in_held (readers.in_image (images.dump_from place)) image.old.held.value) }
    ensures count { count.new ≡ readers.handed_count (readers.in_held (readers.in_image (images.dump_from place)) image.old.held.value) (length bytes.old) count.old }
    ensures bytes { bytes.new ≡ readers.handed (readers.in_held (readers.in_image (images.dump_from place)) image.old.held.value) bytes.old }
{
    let Some(content) = image.take(alloc) else {
        return INVALID;
    };
    let result = content.image_read(place, bytes, count);
    image.put(content);
    result
}

/// The name of the context of an image.
#[unsafe(no_mangle)]
pub extern "C" fn jichurpa_image_name(alloc: Global, image: &mut Handle, context: &mut CName) -> u32
    ensures held { image.new.held.value ≡ image.old.held.value }
    ensures result { result ≡ readers.known_result (readers.in_held (readers.in_image (λ i. layout_told.name_told i.name)) image.old.held.value) }
    ensures told { context.new ≡ readers.known (readers.in_held (readers.in_image (λ i. layout_told.name_told i.name)) image.old.held.value) context.old }
{
    let Some(content) = image.take(alloc) else {
        return INVALID;
    };
    let result = content.image_name(context);
    image.put(content);
    result
}

/// Queue pair `i` of an image.
#[unsafe(no_mangle)]
pub extern "C" fn jichurpa_image_end(
    alloc: Global,
    image: &mut Handle,
    i: usize,
    end: &mut CEnd,
) -> u32
    ensures held { image.new.held.value ≡ image.old.held.value }
    ensures result { result ≡ readers.found_result (readers.in_held (readers.in_image (images.end_at i)) image.old.held.value) }
    ensures told { end.new ≡ readers.found (readers.in_held (readers.in_image (images.end_at i)) image.old.held.value) end.old }
{
    let Some(content) = image.take(alloc) else {
        return INVALID;
    };
    let result = content.image_end(i, end);
    image.put(content);
    result
}

/// The image that bytes are a dump of, into a handle that holds nothing.
#[unsafe(no_mangle)]
pub extern "C" fn jichurpa_image_decode(
    alloc: Global,
    bytes: &[u8],
    image: &mut Handle,
    fault: &mut CFault,
) -> u32
    ensures result { result ≡ images.read_result (result == 1) (images.read_into image.old.held.value (Some (read_dump bytes.now))) }
    ensures image { image.new.held.value ≡ images.read_image result (images.read_into image.old.held.value (Some (read_dump bytes.now))) image.old.held.value }
    ensures fault { fault.new ≡ images.read_fault result (images.read_into image.old.held.value (Some (read_dump bytes.now))) fault.old }
{
    images::decode(alloc, bytes, image, fault)
}

/// What a handle holds is freed.
#[unsafe(no_mangle)]
pub extern "C" fn jichurpa_image_free(alloc: Global, image: &mut Handle) -> u32
    ensures held { image.new.held.value ≡ None }
    ensures result { result ≡ 0 }
{
    image.free(alloc)
}

/// A reader of no bytes, in a handle that holds nothing.
#[unsafe(no_mangle)]
pub extern "C" fn jichurpa_reader_make(alloc: Global, reader: &mut Handle) -> u32
    ensures result { result ≡ (if is_none reader.old.held.value then (if result == 1 then 1 else 0) else 2) }
    ensures held { reader.new.held.value ≡ (if result == 0 then Some (content.Reader []) else reader.old.held.value) }
{
    images::make_reader(alloc, reader)
}

/// More bytes of a dump.
#[unsafe(no_mangle)]
pub extern "C" fn jichurpa_reader_feed(
    alloc: Global,
    reader: &mut Handle,
    bytes: &[u8],
    fault: &mut CFault,
) -> u32
    ensures fed { result ≡ 0 → images.fed_by reader.new.held.value ≡ Some (images.fed_more (images.fed_by reader.old.held.value) bytes.now) }
    ensures sound { result ≡ 0 → images.are_bad (images.fed_more (images.fed_by reader.old.held.value) bytes.now) ≡ false }
    ensures bad { result ≡ 3 → images.are_bad (images.fed_more (images.fed_by reader.old.held.value) bytes.now) ≡ true }
    ensures ever { result ≡ 3 → images.reading_by reader.new.held.value ≡ Some (read_dump (images.fed_more (images.fed_by reader.old.held.value) bytes.now)) }
    ensures fault { fault.new ≡ (if result == 3 then images.reading_fault (read_dump (images.fed_more (images.fed_by reader.old.held.value) bytes.now)) fault.old else fault.old) }
    ensures same { result ≢ 0 → result ≢ 3 → reader.new.held.value ≡ reader.old.held.value }
    ensures result { images.is_fed_result result (images.fed_by reader.old.held.value) ≡ true }
{
    let Some(mut content) = reader.take(alloc) else {
        return INVALID;
    };
    let result = content.feed(bytes, fault);
    reader.put(content);
    result
}

/// The image that all bytes are a dump of, into a handle that holds nothing. The reader then has no bytes.
#[unsafe(no_mangle)]
pub extern "C" fn jichurpa_reader_finish(
    alloc: Global,
    reader: &mut Handle,
    image: &mut Handle,
    fault: &mut CFault,
) -> u32
    ensures result { result ≡ images.read_result (result == 1) (images.read_into image.old.held.value (images.reading_by reader.old.held.value)) }
    ensures image { image.new.held.value ≡ images.read_image result (images.read_into image.old.held.value (images.reading_by reader.old.held.value)) image.old.held.value }
    ensures fault { fault.new ≡ images.read_fault result (images.read_into image.old.held.value (images.reading_by reader.old.held.value)) fault.old }
    ensures held { reader.new.held.value ≡ (if result == 2 then reader.old.held.value else Some (content.Reader [])) }
{
    images::finish(alloc, reader, image, fault)
}

/// What a handle holds is freed.
#[unsafe(no_mangle)]
pub extern "C" fn jichurpa_reader_free(alloc: Global, reader: &mut Handle) -> u32
    ensures held { reader.new.held.value ≡ None }
    ensures result { result ≡ 0 }
{
    reader.free(alloc)
}
