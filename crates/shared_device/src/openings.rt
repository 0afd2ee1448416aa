//! The books with which threads open.

ghost use Rattle.std.specs.Prelude.{◌≡◌, ◌∷◌, ◌++◌, ◌≤◌, ◌<◌, ◌^◌, [], codes, map, true, IfOk, OnOk};
ghost use Rattle.rdma_types.specs.Limits.{AreTerms};
ghost use Rattle.rdma_types.specs.Spelled.{is_letter};
ghost use Rattle.protocol.specs.DeviceStep.{device_step};
ghost use Rattle.protocol.specs.Events.{IsLawfulEvent};
ghost use Rattle.protocol.specs.Replay.{replay};
ghost use Rattle.protocol.specs.WorldStep.{exchanged as exchanged_terms};
ghost use Rattle.order_rules.specs.Openings as opening;
ghost use Rattle.order_rules.specs.Openings.{bare_device, base_events, device_apart, ends_of, joins_end, opening_terms, openings, openings_apart};
ghost use Rattle.shared_device.specs.Books.{opened_with};

use crate::Book;
use device_core::Device;
use order_rules::devices_open_apart;
use protocol::Event;
use rdma_types::{Address, Name, ObjName, Rights, Terms};
use std::alloc::{AllocError, Global};

/// The terms of each connection.
const TERMS: Terms = Terms {
    mtu: 256,
    own_start: 100,
    peer_start: 200,
    retry: 7,
    rnr: 7,
    reads: 4,
};

/// What an opening device has: a context with a region, and the device of its partners.
#[derive(Clone, Copy)]
struct Side {
    id: u8,
    context: Name,
    region: Name,
    base: u64,
    other: u8,
    terms: Terms,
}

/// The name of one letter.
fn letter(b: u8) -> Name
    requires { is_letter b ≡ true }
    ensures { result ≡ b ∷ [] }
{
    Name::read(&[b]).unwrap()
}

/// The name of the ends of a worker.
fn end_name(worker: u32) -> Name
    requires { worker ≤ 9 }
    ensures { result ≡ opening.end_name worker }
{
    Name::read(&[b'q', 48 + worker as u8]).unwrap()
}

/// 10.0.0.1, 10.0.0.2 and so on, at port 4791.
fn address_of(id: u8) -> Address
    ensures { result ≡ opening.address_of id }
{
    Address {
        ip: 167_772_160 + u32::from(id),
        port: 4791,
    }
}

/// The starts exchanged.
fn exchanged(terms: Terms) -> Terms
    ensures { result ≡ exchanged_terms terms }
{
    Terms {
        own_start: terms.peer_start,
        peer_start: terms.own_start,
        ..terms
    }
}

/// Steps a device, whatever it answers.
fn step(alloc: Global, device: &mut Device, event: &Event) -> Result<(), AllocError>
    requires { IsLawfulEvent event.now }
    ensures { OnOk result (device.new ≡ (device_step device.old event.now).device) }
{
    device.step(alloc, event)?;
    Ok(())
}

/// An end is made and connected to the one with that number on that device.
#[tactic(auto, unfolding(protocol::specs::Replay::replay))]
fn join_end(
    alloc: Global,
    device: &mut Device,
    end: &ObjName,
    peer: u32,
    other: u8,
    terms: Terms,
) -> Result<(), AllocError>
    requires peer { peer < 2 ^ 24 }
    requires terms { AreTerms terms }
    ensures { OnOk result (device.new ≡ replay device.old (joins_end end.now peer other terms)) }
{
    let made = Event::MakeQp {
        name: *end,
        domain: Some(letter(b'p')),
        send_cq: Some(letter(b'c')),
        recv_cq: Some(letter(b'c')),
        send_depth: 8,
        recv_depth: 1,
    };
    step(alloc, device, &made)?;
    let connected = Event::Connect {
        end: *end,
        peer,
        partner: address_of(other),
        terms,
    };
    step(alloc, device, &connected)
}

/// The name of a thing in a context.
fn object(context: Name, name: Name) -> ObjName
    ensures { result ≡ record { context = context; name = name } }
{
    ObjName { context, name }
}

/// A context with a domain, a region and a completion queue.
#[tactic(auto, unfolding(protocol::specs::Replay::replay))]
fn put_base(alloc: Global, device: &mut Device, side: &Side) -> Result<(), AllocError>
    requires { side.now.base ≤ 2 ^ 63 }
    ensures { OnOk result (device.new ≡ replay device.old
        (base_events side.now.context side.now.region side.now.base)) }
{
    let context = Event::MakeContext { name: side.context };
    step(alloc, device, &context)?;
    let domain = Event::MakeDomain {
        name: object(side.context, letter(b'p')),
    };
    step(alloc, device, &domain)?;
    let region = Event::MakeRegion {
        name: object(side.context, side.region),
        domain: Some(letter(b'p')),
        base: side.base,
        length: 64,
        rights: Rights(15),
    };
    step(alloc, device, &region)?;
    let queue = Event::MakeCq {
        name: object(side.context, letter(b'c')),
        capacity: 256,
    };
    step(alloc, device, &queue)
}

/// A connected end for each worker.
fn put_ends(alloc: Global, device: &mut Device, side: &Side, workers: u32) -> Result<(), AllocError>
    requires few { workers ≤ 8 }
    requires terms { AreTerms side.now.terms }
    ensures { OnOk result (device.new ≡ replay device.old
        (ends_of side.now.context side.now.other side.now.terms 1 workers)) }
{
    for i in 0..workers {
        let worker = i + 1;
        let end = object(side.context, end_name(worker));
        let peer = 65_536 * u32::from(side.other) + worker;
        join_end(alloc, device, &end, peer, side.other, side.terms)?;
    }
    Ok(())
}

/// An opening device, with a connected end for each worker.
#[tactic(auto, unfolding(order_rules::specs::Openings::device_apart))]
fn opening_device(alloc: Global, side: &Side, workers: u32) -> Result<Device, AllocError>
    requires few { workers ≤ 8 }
    requires side { (1 ≤ side.now.id) × (side.now.base ≤ 2 ^ 63) }
    requires terms { AreTerms side.now.terms }
    ensures { IfOk result (λ d. d
        ≡ device_apart side.now.id side.now.context side.now.region side.now.base side.now.other
        side.now.terms workers) }
{
    let mut device = Device::make(alloc, side.id, address_of(side.id))?;
    put_base(alloc, &mut device, side)?;
    put_ends(alloc, &mut device, side, workers)?;
    Ok(device)
}

/// What device 1 has.
fn side_of_a() -> Side
    ensures { result
        ≡ record {
          id = 1;
          context = codes "a";
          region = codes "m";
          base = 4096;
          other = 2;
          terms = opening_terms;
        } }
{
    Side {
        id: 1,
        context: letter(b'a'),
        region: letter(b'm'),
        base: 4096,
        other: 2,
        terms: TERMS,
    }
}

/// What device 2 has.
fn side_of_b() -> Side
    ensures { result
        ≡ record {
          id = 2;
          context = codes "b";
          region = codes "n";
          base = 8192;
          other = 1;
          terms = exchanged_terms opening_terms;
        } }
{
    Side {
        id: 2,
        context: letter(b'b'),
        region: letter(b'n'),
        base: 8192,
        other: 1,
        terms: exchanged(TERMS),
    }
}

/// The book of an opening device.
fn put_book(
    alloc: Global,
    books: &mut Vec<Book>,
    side: &Side,
    workers: u32,
) -> Result<(), AllocError>
    requires few { workers ≤ 8 }
    requires side { (1 ≤ side.now.id) × (side.now.base ≤ 2 ^ 63) }
    requires terms { AreTerms side.now.terms }
    ensures { OnOk result (books.new.items ≡ books.old.items
        ++ opened_with (device_apart side.now.id side.now.context side.now.region side.now.base
        side.now.other side.now.terms workers) ∷ []) }
{
    let device = opening_device(alloc, side, workers)?;
    let book = Book::make(alloc, device)?;
    books.push(book)?;
    Ok(())
}

/// The book of the device without a context.
fn put_bare(alloc: Global, books: &mut Vec<Book>) -> Result<(), AllocError>
    ensures { OnOk result (books.new.items ≡ books.old.items ++ opened_with (bare_device 3) ∷ []) }
{
    let device = Device::make(alloc, 3, address_of(3))?;
    let book = Book::make(alloc, device)?;
    books.push(book)?;
    Ok(())
}

/// The books with which 1 to 8 workers open, with empty journals: device 1 with the context a, device 2 with the context
/// b, and device 3 without one; a and b have a pair of connected ends for each worker. Errors: `AllocError` when out of
/// memory.
pub fn open_books(alloc: Global, workers: u32) -> Result<Vec<Book>, AllocError>
    requires { (1 ≤ workers) × (workers ≤ 8) }
    ensures { IfOk result (λ books. books.items ≡ map opened_with (openings workers)) }
{
    devices_open_apart();
    let mut books = Vec::with_capacity(alloc, 3)?;
    put_book(alloc, &mut books, &side_of_a(), workers)?;
    put_book(alloc, &mut books, &side_of_b(), workers)?;
    put_bare(alloc, &mut books)?;
    Ok(books)
}
