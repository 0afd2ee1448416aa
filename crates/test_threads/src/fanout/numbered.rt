//! Numbered completions, handed to consumers.

ghost use Rattle.std.specs.Prelude.{◌≤◌};

use crate::fanout::counts::{Counts, all};
use completion_fanout::{FanEntry, OpenGate, Source, hand_out};
use rdma_types::{Completion, Items, WcKind, WcStatus};
use std::alloc::Global;
use std::sync::Wait;
use std::thread::Threads;

/// Completions with the ids 0, 1 and so on, below `until`; those that were given; and whether memory ran out.
#[derive(Drop)]
struct Numbered {
    given: Vec<Completion>,
    until: usize,
    is_out_of_memory: bool,
}

/// A completion with that id.
fn completion(id: u64) -> Completion {
    Completion {
        qp: 65_537,
        id,
        kind: WcKind::FetchAdd,
        status: WcStatus::Success,
        length: 8,
        imm: None,
    }
}

impl Source for Numbered {
    ghost use Rattle.std.specs.Prelude.{◌≡◌, ◌≤◌, false, length};

    ghost given = { λ s. s.given.items };

    ghost ended = { λ s. s.is_out_of_memory ≡ false → s.until ≤ length s.given.items };

    fn next<R: Wait>(&mut self, _rt: &R) -> Option<Completion> {
        if self.given.len() >= self.until {
            return None;
        }
        let next = completion(self.given.len() as u64);
        match self.given.push(next) {
            Ok(()) => Some(next),
            Err(_) => {
                self.is_out_of_memory = true;
                None
            }
        }
    }
}

/// How many of a consumer's entries have the id of their place.
fn placed(list: &Items<FanEntry>) -> usize {
    list.as_slice()
        .iter()
        .filter(|e| e.place == e.completion.id)
        .count()
}

/// That many completions, handed out over a queue with so many places, to consumers with room for so many entries. Those are
/// counted as taken that have the id of their place.
fn handed_with<R: Threads + Wait + Sync>(
    rt: &R,
    alloc: Global,
    consumers: u32,
    until: usize,
    capacity: usize,
    room: usize,
) -> Option<Counts>
    requires { (1 ≤ consumers) × (consumers ≤ 4) }
{
    let source = Numbered {
        given: Vec::new(alloc),
        until,
        is_out_of_memory: false,
    };
    let (out, source, ()) = hand_out(
        rt,
        alloc,
        consumers,
        capacity,
        room,
        &OpenGate,
        source,
        |_| (),
    )
    .ok()?;
    let mut taken = 0usize;
    for list in out.taken.as_slice() {
        taken = taken.saturating_add(placed(list));
    }
    Some(Counts {
        given: source.given.len(),
        taken,
        left: out.left.len(),
    })
}

/// The same to consumers with room for all.
fn handed<R: Threads + Wait + Sync>(
    rt: &R,
    alloc: Global,
    consumers: u32,
    until: usize,
    capacity: usize,
) -> Option<Counts>
    requires { (1 ≤ consumers) × (consumers ≤ 4) }
{
    handed_with(rt, alloc, consumers, until, capacity, until)
}

#[test]
fn three_take_five_hundred(rt: HostRuntime) {
    assert_eq!(rt; handed(&rt, rt.alloc(), 3, 500, 16), all(500));
}

#[test]
fn one_place_is_enough(rt: HostRuntime) {
    assert_eq!(rt; handed(&rt, rt.alloc(), 4, 2_000, 1), all(2_000));
}

#[test]
fn nothing_is_handed_out(rt: HostRuntime) {
    assert_eq!(rt; handed(&rt, rt.alloc(), 1, 0, 1), all(0));
}

#[test]
fn lists_grow(rt: HostRuntime) {
    assert_eq!(rt; handed_with(&rt, rt.alloc(), 2, 500, 16, 0), all(500));
}
