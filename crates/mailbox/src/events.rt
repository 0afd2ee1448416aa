//! What contexts are asked for.

ghost use Rattle.std.specs.Prelude.{◌≡◌, true, false};
ghost use Rattle.rdma_types.specs.declared.requests.Kind.TheVariants as kind;
ghost use Rattle.protocol.specs.declared.events.Event.TheVariants as event;
ghost use Rattle.rdma_types.specs.Shapes.{IsLawfulShape};
ghost use Rattle.protocol.specs.Events.{IsHandedOn, IsLawfulEvent};
ghost use Rattle.mailbox_rules.specs.Opening as opening;
ghost use Rattle.mailbox_rules.specs.Working as rules;
ghost use Rattle.mailbox_rules.specs.Calls as calls;

use crate::names::{context_at, queue, receiver_end, receiver_region, sender_end};
use mailbox_rules::Fetch;
use rdma_types::{Kind, ObjName, Receive, Request, Shape};
use world_core::Event;

/// Bytes of a place where a message lands.
const PLACE: u32 = 4096;

/// Places of the receiver for each sender.
const DEPTH: u8 = 16;

/// Most completions of one poll.
const MOST_POLLED: u32 = 256;

/// Where each Send is posted from.
pub(crate) const STAGING: u64 = 65536;

/// Where the body of a rendezvous stands.
pub(crate) const SLOT: u64 = 69632;

/// The address of place `k` of the receiver for messages of sender `i`.
pub(crate) fn place_address(i: u8, k: u8) -> u64
    ensures { result ≡ opening.place_address i k }
{
    2_097_152 * u64::from(i) + 4096 * u64::from(k)
}

/// Where the receiver fetches the body of a rendezvous of sender `i` to.
pub(crate) fn landing_address(i: u8) -> u64
    ensures { result ≡ opening.landing_address i }
{
    place_address(i, DEPTH)
}

fn receiver_key(i: u8) -> u32
    ensures { result ≡ opening.receiver_key i }
{
    16_777_216 + 2 * u32::from(i)
}

fn sender_key(i: u8) -> u32
    ensures { result ≡ opening.sender_key i }
{
    33_554_432 + 2 * u32::from(i)
}

/// The remote key of the region of sender `i`.
pub(crate) fn sender_remote_key(i: u8) -> u32
    ensures { result ≡ opening.sender_remote_key i }
{
    33_554_433 + 2 * u32::from(i)
}

/// The receive of place `k` for messages of sender `i`.
pub(crate) fn receiver_receives(i: u8, k: u8) -> Event
    ensures event { result ≡ opening.receiver_receives i k }
    ensures lawful { IsHandedOn result × IsLawfulEvent result }
{
    Event::PostRecv {
        end: receiver_end(i),
        receive: Receive {
            id: u64::from(k),
            lkey: receiver_key(i),
            local: place_address(i, k),
            length: PLACE,
        },
    }
}

/// Receive `k` of sender `i`, for a message of no bytes.
pub(crate) fn sender_receives(i: u8, k: u8) -> Event
    ensures event { result ≡ opening.sender_receives i k }
    ensures lawful { IsHandedOn result × IsLawfulEvent result }
{
    Event::PostRecv {
        end: sender_end(i),
        receive: Receive {
            id: u64::from(k),
            lkey: 0,
            local: 0,
            length: 0,
        },
    }
}

/// The shape of a Send of so many bytes.
fn send_shape(length: u32) -> Shape
    ensures { IsLawfulShape result × (result ≡ (rules.request kind.Send 0 0 length 0 0).shape) }
{
    Shape {
        kind: Kind::Send,
        length,
        remote: 0,
        rkey: 0,
        imm: None,
        swap_add: 0,
        compare: 0,
    }
}

/// The shape of a READ of a body out of the slot.
fn read_shape(fetch: Fetch) -> Shape
    ensures { IsLawfulShape result
        × (result
        ≡ (rules.request kind.Read 0 0 fetch.length opening.slot_address fetch.rkey).shape) }
{
    Shape {
        kind: Kind::Read,
        length: fetch.length,
        remote: SLOT,
        rkey: fetch.rkey,
        imm: None,
        swap_add: 0,
        compare: 0,
    }
}

/// A signaled request of an end.
fn posts(end: ObjName, shape: Shape, lkey: u32, local: u64) -> Event
    requires { IsLawfulShape shape }
    ensures event { result ≡ event.PostSend end
        (record {
          id = 0;
          shape = shape;
          lkey = lkey;
          local = local;
          signaled = true;
          fence = false;
        }) }
    ensures lawful { IsHandedOn result × IsLawfulEvent result }
{
    let request = Request {
        id: 0,
        shape,
        lkey,
        local,
        signaled: true,
        fence: false,
    };
    Event::PostSend { end, request }
}

/// The fetching of a body of sender `i`.
pub(crate) fn reads(i: u8, fetch: Fetch) -> Event
    ensures event { result ≡ rules.read_event i fetch }
    ensures lawful { IsHandedOn result × IsLawfulEvent result }
{
    posts(
        receiver_end(i),
        read_shape(fetch),
        receiver_key(i),
        landing_address(i),
    )
}

/// The Send of no bytes that frees the slot of sender `i`.
pub(crate) fn frees(i: u8) -> Event
    ensures event { result ≡ rules.free_event i }
    ensures lawful { IsHandedOn result × IsLawfulEvent result }
{
    posts(receiver_end(i), send_shape(0), 0, 0)
}

/// The Send of a message of so many bytes of sender `i`.
pub(crate) fn sends(i: u8, length: u32) -> Event
    ensures event { result ≡ calls.send_event i length }
    ensures lawful { IsHandedOn result × IsLawfulEvent result }
{
    posts(sender_end(i), send_shape(length), sender_key(i), STAGING)
}

/// The receiver reads its region for sender `i`.
pub(crate) fn loads(i: u8, at: u64, length: u32) -> Event
    ensures event { result ≡ event.Load (opening.receiver_region i) at length }
    ensures lawful { IsHandedOn result × IsLawfulEvent result }
{
    Event::Load {
        region: receiver_region(i),
        at,
        length,
    }
}

/// A poll of context `n`.
pub(crate) fn polls(n: u8) -> Event
    ensures event { result ≡ rules.poll_event n }
    ensures lawful { IsHandedOn result × IsLawfulEvent result }
{
    let cq = ObjName {
        context: context_at(n),
        name: queue(),
    };
    Event::Poll {
        cq,
        max: MOST_POLLED,
    }
}
