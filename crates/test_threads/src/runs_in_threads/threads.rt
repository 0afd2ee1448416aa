//! Two threads that poll at one device.

use crate::runs_in_threads::tests::{poll, run_of, told};
use rdma_types::Items;
use shared_device::{OrderBook, Orders, Receipt, Station, open_books};
use std::alloc::Global;
use std::sync::Wait;
use std::thread::{Threads, join};

/// The receipts of two polls.
fn polls<R: Wait>(
    rt: &R,
    alloc: Global,
    station: &Station,
    orders: &Orders,
    worker: u32,
) -> Option<Items<Receipt>> {
    let mut held = Items::new(Vec::new(alloc));
    for _ in 0..2 {
        let receipt = station.call(rt, alloc, orders, worker, poll()?).ok()?;
        held.push(receipt).ok()?;
    }
    Some(held)
}

/// What is gathered of the polls of two threads.
fn by_two<R: Threads + Wait + Sync>(rt: &R, alloc: Global) -> Option<[u64; 3]> {
    let station = Station::make(open_books(alloc, 1).ok()?.into_iter().next()?);
    let orders = Orders::make(OrderBook::make(alloc));
    let (first, second) = join(
        rt,
        || polls(rt, alloc, &station, &orders, 0),
        || polls(rt, alloc, &station, &orders, 1),
    );
    let mut receipts = Vec::new(alloc);
    receipts.push(first?).ok()?;
    receipts.push(second?).ok()?;
    told(run_of(alloc, station.into_book(), orders.into_book(), receipts))
}

#[test]
fn polls_of_two_threads_are_gathered(rt: HostRuntime) {
    assert_eq!(rt; by_two(&rt, rt.alloc()), Some([4, 0, 0]));
}
