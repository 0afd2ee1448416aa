//! The rule of the queue.

use crate::entry::{FanEntry, QueueItem};
use crossbeam_queue::protocol::{Join, Lesson, Outcome, Protocol, Split};
use crossbeam_queue::{Pass, RuledArrayQueue};
use rdma_types::Completion;
use std::collections::LinkedList;

/// What a pass knows. No value of it is made.
pub struct Share {
    /// Its parts of the right to know the whole, of 1,024.
    pub parts: u64,
    /// Whether it is the one pass that puts.
    pub puts: bool,
    /// The completions that it put, in their order.
    pub put: LinkedList<Completion>,
    /// End marks that it put.
    pub marks: u64,
    /// The entries that it took, in their order.
    pub taken: LinkedList<FanEntry>,
    /// The entries that the passes took which were joined to it.
    pub joined: LinkedList<FanEntry>,
    /// End marks that it and those passes took.
    pub ended: u64,
}

/// The rule: entries are taken in the order in which they were put, each by one pass.
pub struct Fan;

impl Protocol<QueueItem, Share> for Fan {
    ghost use Rattle.completion_fanout.specs.Rule.{IsKept, first_share};

    ghost holds = { IsKept };

    ghost first = { first_share };
}

/// A pass with one part is cut off, and later joined again.
pub(crate) struct SplitPass;

impl Split<Share> for SplitPass {
    ghost use Rattle.completion_fanout.specs.Rule.{after_cut, new_share};

    ghost left = { after_cut };

    ghost right = { λ _. new_share };
}

impl Join<Share> for SplitPass {
    ghost use Rattle.completion_fanout.specs.Rule.{joined_with, spent_share};

    ghost both = { joined_with };

    ghost spent = { spent_share };
}

/// A pass that puts is cut off, and later joined again.
pub(crate) struct Lend;

impl Split<Share> for Lend {
    ghost use Rattle.completion_fanout.specs.Rule.{after_lend, lent_share};

    ghost left = { after_lend };

    ghost right = { lent_share };
}

impl Join<Share> for Lend {
    ghost use Rattle.completion_fanout.specs.Rule.{returned_with, spent_share};

    ghost both = { returned_with };

    ghost spent = { spent_share };
}

/// A push.
pub(crate) struct Puts;

impl Outcome<QueueItem, Share> for Puts {
    ghost use Rattle.std.specs.Prelude.{◌≡◌};
    ghost use Rattle.completion_fanout.specs.Rule.{after_put};

    ghost then = { λ v x w. w ≡ after_put v x };
}

/// Of a queue that is full nothing is learned.
impl Lesson<QueueItem, Share> for Puts {
    ghost use Rattle.std.specs.Prelude.{⊤};

    ghost fact = { λ v items. ⊤ };
}

/// A pop.
pub(crate) struct Takes;

impl Outcome<QueueItem, Share> for Takes {
    ghost use Rattle.completion_fanout.specs.Rule.{IsTake};

    ghost then = { IsTake };
}

/// Of a queue that is empty, a pass with all parts learns that all was taken.
impl Lesson<QueueItem, Share> for Takes {
    ghost use Rattle.completion_fanout.specs.Rule.{IsBalanced};

    ghost fact = { IsBalanced };
}

/// What a pass knows of its own list.
pub(crate) struct IncreasingPlaces;

impl Lesson<QueueItem, Share> for IncreasingPlaces {
    ghost use Rattle.completion_fanout.specs.Fanned.{IsRising, places};

    ghost fact = { λ v items. IsRising (places v.taken) };
}

/// The queue.
pub type FanQueue = RuledArrayQueue<QueueItem, Share, Fan>;

/// What one thread knows of the queue. It has no bytes.
pub type FanPass = Pass<QueueItem, Share>;
