//! The one who makes the additions and delivers datagrams.

ghost use Rattle.std.specs.Prelude.{◌≤◌};

use crate::plan::PUMP;
use rdma_types::Items;
use shared_device::Receipt;
use std::alloc::Global;
use std::sync::Wait;
use std::thread::{JoinHandle, Scope, Threads};
use thread_workers::{Gate, PlanFault, SharedDevices, Stepper, pump};

/// The pump when it has ended: its receipts, and why it failed.
#[derive(Drop)]
pub struct Pumped {
    pub receipts: Items<Receipt>,
    pub fault: Option<PlanFault>,
}

/// Makes so many additions and delivers datagrams. Where it fails, all is halted.
pub fn run_pump<R: Wait, G: Gate>(
    rt: &R,
    alloc: Global,
    site: &SharedDevices,
    gate: &G,
    adds: u32,
) -> Pumped
    requires { adds ≤ 10000 }
{
    let mut hand = Stepper::new(site, gate, PUMP, Items::new(Vec::new(alloc)));
    let done = pump(rt, alloc, &mut hand, PUMP, adds);
    if done.is_err() {
        site.orders.halt(rt);
    }
    Pumped {
        receipts: hand.into_receipts(),
        fault: done.err(),
    }
}

/// Starts the pump in a thread; None where its start is refused.
pub fn start_pump<'s, E, R: Threads + Wait + Sync, G: Gate + Sync>(
    scope: &'s Scope<'s, E>,
    rt: &'s R,
    alloc: Global,
    site: &'s SharedDevices,
    gate: &'s G,
    adds: u32,
) -> Option<JoinHandle<Pumped>>
    requires { adds ≤ 10000 }
{
    scope
        .spawn(
            move ||
                requires { adds ≤ 10000 }
            { run_pump(rt, alloc, site, gate, adds) },
        )
        .ok()
}

/// The pump when it has ended; None where it was not started.
pub fn join_pump<R: Threads>(rt: &R, started: Option<JoinHandle<Pumped>>) -> Option<Pumped> {
    match started {
        Some(handle) => Some(handle.join(rt)),
        None => None,
    }
}
