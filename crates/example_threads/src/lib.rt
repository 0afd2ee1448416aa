//! Worked examples of runs by threads, and of completions that are handed out, evaluated by the prover.
//!
//! The functions do nothing. Each promises the facts that it names.
#![tactic(auto)]

ghost use Rattle.std.specs.Prelude.{◌≡◌, [], slice_get, Some};
ghost use Rattle.completion_fanout.specs.Fanned.{IsFanned, dealt_to};
ghost use Rattle.run_check.specs.Gathered.{IsGathered};
ghost use Rattle.thread_plan.specs.Planned.{IsRunAlone};
ghost use Rattle.law_orders.specs.declared.fairness.Fairness.TheVariants.{Fair, Unfair};
ghost use Rattle.law_orders.specs.declared.fairness.UnfairCause.TheVariants.{NameTaken, PartnerMoves};
ghost use Rattle.law_orders.specs.Fairness.{fairness_of};
ghost use Rattle.example_rules.specs.OwnDevices as own;
ghost use Rattle.example_threads.specs.OwnRuns.{named_twice, stopped_beside};
ghost use Rattle.example_threads.specs.Handed.{drained, taken, taken_but_one, taken_changed, taken_twice};
ghost use Rattle.example_threads.specs.Planned.{plan, run};
ghost use Rattle.example_threads.specs.Polls as polls;

use example_rules::orders::{alone_is_fair, two_polls_are_an_order};
use law_orders::fair_orders_are_legal;

/// The caller's own run of two workers with one addition and one move, where number 0 polls, is as it was planned.
pub fn alone_is_planned()
    ensures { IsRunAlone plan 0 run }
{
    alone_is_fair();
    fair_orders_are_legal();
}

/// Two polls of an empty queue are gathered; where a receipt has another place, they are not.
pub fn a_raised_place_disagrees()
    ensures agree { IsGathered polls.books polls.entries (polls.receipts 0) }
    ensures disagree { IsGathered polls.books polls.entries (polls.receipts 1) → ⊥ }
{
    two_polls_are_an_order();
}

/// Three completions, handed to two consumers.
pub fn three_are_fanned()
    ensures { IsFanned drained taken [] }
{}

/// One that nobody took, one that was changed, and one that both took.
pub fn missing_or_changed_is_not_fanned()
    ensures missing { IsFanned drained taken_but_one [] → ⊥ }
    ensures changed { IsFanned drained taken_changed [] → ⊥ }
    ensures twice { IsFanned drained taken_twice [] → ⊥ }
{}

/// A caller who deals three completions to two consumers gives them the same lists.
#[tactic(auto, unfolding(completion_fanout::specs::Fanned::dealt_to))]
pub fn three_are_dealt()
    ensures first { Some (dealt_to 2 0 0 drained) ≡ slice_get taken 0 }
    ensures second { Some (dealt_to 2 1 0 drained) ≡ slice_get taken 1 }
{}

/// Two applications and a mover over devices of their own: the test finds their order fair. Where `mail` is then stopped beside
/// `desk`, which is Resuming, it tells the place of that step; and so it does where a second context `mail` is made.
pub fn own_orders_are_tested()
    ensures fair { fairness_of own.devices own.lines ≡ Fair }
    ensures beside { fairness_of own.devices stopped_beside ≡ Unfair PartnerMoves 10 }
    ensures twice { fairness_of own.devices named_twice ≡ Unfair NameTaken 1 }
{}
