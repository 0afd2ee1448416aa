//! Whole runs: by one caller, and by threads.

use std::sync::atomic::{AtomicBool, AtomicU64, Ordering};
use std::thread;
use thread_workers::{FreeGate, Gate, PlanFault, Run, ThreadPlan, run_alone, run_threads};

/// How often the gate is tried at most.
const MOST: u64 = 1 << 22;

/// A gate that holds worker 1 at its first call until worker 2 passes a second time, and counts the passes of each.
#[derive(Drop)]
struct Turnstile {
    mover: AtomicU64,
    first: AtomicU64,
    second: AtomicU64,
    gave_up: AtomicBool,
}

impl Turnstile {
    fn new() -> Turnstile {
        Turnstile {
            mover: AtomicU64::new(0),
            first: AtomicU64::new(0),
            second: AtomicU64::new(0),
            gave_up: AtomicBool::new(false),
        }
    }

    fn wait_for_second(&self) {
        for _ in 0..MOST {
            if self.second.load(Ordering::SeqCst) >= 2 {
                return;
            }
            thread::yield_now();
        }
        self.gave_up.store(true, Ordering::SeqCst);
    }

    /// How often each passed.
    fn passes(&self) -> [u64; 3] {
        [
            self.mover.load(Ordering::SeqCst),
            self.first.load(Ordering::SeqCst),
            self.second.load(Ordering::SeqCst),
        ]
    }
}

impl Gate for Turnstile {
    fn pass(&self, worker: u32) {
        let counter = match worker {
            0 => &self.mover,
            1 => &self.first,
            _ => &self.second,
        };
        let passed = counter.fetch_add(1, Ordering::SeqCst);
        if worker == 1 && passed == 0 {
            self.wait_for_second();
        }
    }
}

/// The word, the number of completions, and whose run it is.
fn told(run: Result<Run, PlanFault>) -> Result<(u64, u64, bool), PlanFault> {
    let run = run?;
    Ok((run.word, run.completions, run.alone))
}

/// How many receipts the numbers 0, 1 and 2 have, in a run of threads.
fn held(run: Result<Run, PlanFault>) -> Option<[u64; 3]> {
    let run = run.ok()?;
    let lists = run.receipts.as_slice();
    if run.alone || lists.len() != 3 {
        return None;
    }
    Some([
        lists[0].len() as u64,
        lists[1].len() as u64,
        lists[2].len() as u64,
    ])
}

#[test]
fn one_caller_makes_a_run(rt: HostRuntime) {
    let plan = ThreadPlan {
        workers: 2,
        adds: 1,
        moves: 1,
    };
    assert_eq!(rt; told(run_alone(rt.alloc(), &plan, 0)), Ok((2, 2, true)));
}

#[test]
fn one_caller_moves_back_and_forth(rt: HostRuntime) {
    let plan = ThreadPlan {
        workers: 8,
        adds: 3,
        moves: 8,
    };
    assert_eq!(rt; told(run_alone(rt.alloc(), &plan, 8)), Ok((24, 24, true)));
}

#[test]
fn threads_make_each_run(rt: HostRuntime) {
    let plan = ThreadPlan {
        workers: 4,
        adds: 1000,
        moves: 3,
    };
    for _ in 0..3 {
        assert_eq!(rt;
            told(run_threads(&rt, rt.alloc(), &plan, &FreeGate)),
            Ok((4000, 4000, false))
        );
    }
}

#[test]
fn workers_run_beside_each_other(rt: HostRuntime) {
    let plan = ThreadPlan {
        workers: 2,
        adds: 50,
        moves: 3,
    };
    let gate = Turnstile::new();
    let run = run_threads(&rt, rt.alloc(), &plan, &gate);
    assert_eq!(rt; held(run), Some(gate.passes()));
    assert!(rt; !gate.gave_up.load(Ordering::SeqCst));
}
