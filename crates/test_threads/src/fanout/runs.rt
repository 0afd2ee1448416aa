//! Additions at a shared device, whose completions are handed out.

ghost use Rattle.completion_fanout.specs.HandedOut.{IsFanPlan};

use crate::fanout::counts::{Counts, all, entries};
use crate::fanout::holding::Holding;
use completion_fanout::{FanPlan, FanRun, fan_out, run_fan_out};
use rdma_types::{Completion, WcStatus};
use std::alloc::Global;
use std::sync::Wait;
use std::thread::Threads;
use thread_plan::planned_run;
use thread_workers::{FreeGate, ThreadPlan};

/// How many completions have status 0.
fn successes(completions: &[Completion]) -> usize {
    completions
        .iter()
        .filter(|c| c.status == WcStatus::Success)
        .count()
}

/// How many entries each consumer took.
fn lengths(run: &FanRun) -> Option<[u64; 3]> {
    match run.taken.as_slice() {
        [a, b, c] => Some([a.len() as u64, b.len() as u64, c.len() as u64]),
        _ => None,
    }
}

/// How many completions with status 0 the threads drained, in a run that is as planned; and whether no list is longer than its
/// consumer's passes.
fn held_run<R: Threads + Wait + Sync>(rt: &R, alloc: Global) -> Option<(usize, bool)> {
    let plan = FanPlan {
        consumers: 3,
        adds: 500,
        capacity: 16,
    };
    let gate = Holding::new();
    let run = fan_out(rt, alloc, &plan, &gate).ok()?;
    let lengths = lengths(&run)?;
    let passed = gate.passed()?;
    let within = lengths.iter().zip(passed.iter()).all(|(n, most)| n <= most);
    let drained = successes(run.drained.as_slice());
    let worker = ThreadPlan {
        workers: 1,
        adds: 500,
        moves: 0,
    };
    planned_run(alloc, &worker, 2, false, run.books, run.order, run.receipts).ok()?;
    Some((drained, within))
}

#[test]
fn consumers_run_beside_each_other(rt: HostRuntime) {
    assert_eq!(rt; held_run(&rt, rt.alloc()), Some((500, true)));
}

/// What became of a plan; None where there is no run, or not that of the threads.
fn by_threads<R: Threads + Wait + Sync>(rt: &R, alloc: Global, plan: &FanPlan) -> Option<Counts>
    requires { IsFanPlan plan.now }
{
    let fanned = run_fan_out(rt, alloc, plan, &FreeGate).ok()?;
    if fanned.run.alone {
        return None;
    }
    Some(Counts {
        given: fanned.drained.len(),
        taken: entries(fanned.taken.as_slice()),
        left: fanned.left.len(),
    })
}

#[test]
fn three_take_what_threads_drain(rt: HostRuntime) {
    let plan = FanPlan {
        consumers: 3,
        adds: 500,
        capacity: 16,
    };
    assert_eq!(rt; by_threads(&rt, rt.alloc(), &plan), all(500));
}

#[test]
fn four_take_over_one_place(rt: HostRuntime) {
    let plan = FanPlan {
        consumers: 4,
        adds: 300,
        capacity: 1,
    };
    assert_eq!(rt; by_threads(&rt, rt.alloc(), &plan), all(300));
}

#[test]
fn one_of_all_is_handed_out(rt: HostRuntime) {
    let plan = FanPlan {
        consumers: 1,
        adds: 1,
        capacity: 1,
    };
    assert_eq!(rt; by_threads(&rt, rt.alloc(), &plan), all(1));
}
