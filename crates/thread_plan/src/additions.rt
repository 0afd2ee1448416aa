//! The additions that workers make.

ghost use Rattle.std.specs.Prelude.{◌≡◌, ◌≤◌};
ghost use Rattle.order_rules.specs.Openings.{adds, addition as planned_addition, in_a};
ghost use Rattle.order_rules.specs.Openings as opening;
ghost use Rattle.protocol.specs.Events.{IsLawfulEvent};

use protocol::Event;
use rdma_types::{Kind, Name, ObjName, Request, Shape};

/// The local key of a's region, which the opening gives.
const LOCAL_KEY: u32 = 16_777_218;
/// The remote key of b's region.
const REMOTE_KEY: u32 = 33_554_435;

/// The end of a worker in the context a.
pub fn end_of(worker: u32) -> ObjName
    requires { worker ≤ 9 }
    ensures { result ≡ in_a (opening.end_name worker) }
{
    ObjName {
        context: Name::read(b"a").unwrap(),
        name: Name::read(&[b'q', 48 + worker as u8]).unwrap(),
    }
}

/// Adds 1 to b's word; the old value goes to the worker's own place.
fn request(worker: u32, j: u32) -> Request
    requires { (1 ≤ worker) × (worker ≤ 9) }
    ensures { result ≡ planned_addition worker j }
{
    Request {
        id: u64::from(j),
        shape: Shape {
            kind: Kind::FetchAdd,
            length: 8,
            remote: 8192,
            rkey: REMOTE_KEY,
            imm: None,
            swap_add: 1,
            compare: 0,
        },
        lkey: LOCAL_KEY,
        local: 4096 + 8 * u64::from(worker - 1),
        signaled: true,
        fence: false,
    }
}

/// The posting of addition j of a worker.
pub fn addition(worker: u32, j: u32) -> Event
    requires { (1 ≤ worker) × (worker ≤ 9) }
    ensures is { result ≡ adds worker j }
    ensures lawful { IsLawfulEvent result }
{
    Event::PostSend {
        end: end_of(worker),
        request: request(worker, j),
    }
}
