//! A gate that holds consumers.

use completion_fanout::PopGate;
use std::sync::atomic::{AtomicBool, AtomicU64, Ordering};
use std::thread;
use thread_workers::Gate;

/// How long a consumer is held at most.
const TURNS: u32 = 1 << 24;

/// Holds the first passes of consumers 101 and 103 until 102 passes a second time, which it does after its first completion: the
/// others take none before. Counts the passes of each.
#[derive(Drop)]
pub(crate) struct Holding {
    passes: [AtomicU64; 3],
    /// Whether one was let go by the limit.
    gave_up: AtomicBool,
}

impl Holding {
    pub(crate) fn new() -> Holding {
        Holding {
            passes: [AtomicU64::new(0), AtomicU64::new(0), AtomicU64::new(0)],
            gave_up: AtomicBool::new(false),
        }
    }

    /// How often each consumer passed; None where a held one was let go by the limit.
    pub(crate) fn passed(&self) -> Option<[u64; 3]> {
        if self.gave_up.load(Ordering::SeqCst) {
            return None;
        }
        Some([
            self.passes[0].load(Ordering::SeqCst),
            self.passes[1].load(Ordering::SeqCst),
            self.passes[2].load(Ordering::SeqCst),
        ])
    }

    fn wait_for_second(&self) {
        for _ in 0..TURNS {
            if self.passes[1].load(Ordering::SeqCst) >= 2 {
                return;
            }
            thread::yield_now();
        }
        self.gave_up.store(true, Ordering::SeqCst);
    }

    fn note(&self, consumer: u32) {
        let passes = match consumer {
            101 => &self.passes[0],
            102 => &self.passes[1],
            103 => &self.passes[2],
            _ => return,
        };
        let before = passes.fetch_add(1, Ordering::SeqCst);
        if consumer != 102 && before == 0 {
            self.wait_for_second();
        }
    }
}

impl PopGate for Holding {
    fn pass(&self, consumer: u32) {
        self.note(consumer);
    }
}

impl Gate for Holding {
    fn pass(&self, worker: u32) {
        self.note(worker);
    }
}
