//! Worked examples of letters, as equations: calls and their replies.
//!
//! The functions do nothing. Each promises the equation that it names, which the prover evaluates on the definitions.

#[cfg(test)]
mod sending;

ghost use Rattle.std.specs.Prelude.{◌≡◌, codes};
ghost use Rattle.rdma_types.specs.Limits.{most_bytes};
ghost use Rattle.mailbox_rules.specs.Evaluate.{answered, answered_after_cut, line_written, open_after};
ghost use Rattle.test_program.specs.TwoLetters as in_two_letters;
ghost use Rattle.test_program.specs.Fetched as in_fetched;
ghost use Rattle.test_program.specs.Refusals as in_refusals;
ghost use Rattle.test_program.specs.Unheard as in_unheard;
ghost use Rattle.test_program.specs.Planned as in_planned;
ghost use Rattle.test_program.specs.Seventeen as in_seventeen;
ghost use Rattle.test_program.specs.Limits as in_limits;
ghost use Rattle.test_program.specs.CutOff as in_cut_off;

/// Two letters are taken out of order, and calls are refused: NoSender and Full.
pub fn two_letters_out_of_order()
    ensures { answered 8192 1 in_two_letters.script ≡ in_two_letters.replies }
{}

/// A long letter is fetched while the receiver moves.
pub fn fetched_while_moving()
    ensures { answered 8192 1 in_fetched.script ≡ in_fetched.replies }
{}

/// Calls are refused: Moving, NotNetwork and Ended. What arrived before the sender's end failed is still given.
pub fn refused_calls()
    ensures { answered 8192 1 in_refusals.script ≡ in_refusals.replies }
{}

/// The first again with slots of their whole size.
pub fn two_letters_with_whole_slots()
    ensures { answered most_bytes 1 in_two_letters.script ≡ in_two_letters.replies }
{}

/// After the calls of the first example one letter is open.
pub fn open_letters_are_told()
    ensures { open_after 8192 1 1 in_two_letters.script ≡ in_two_letters.open_letters }
{}

/// An end in Error in a carried context: nothing is left, no error was polled, and the letter does not come.
pub fn failure_is_unheard()
    ensures replies { answered 8192 1 in_unheard.script ≡ in_unheard.replies }
    ensures letters { open_after 8192 1 1 in_unheard.script ≡ in_unheard.open_letters }
{}

/// The line of a small plan.
pub fn small_plan()
    ensures { line_written in_planned.small ≡ codes "mail letters 3 moves 1 taken 3\n" }
{}

/// The line of a plan with two senders.
pub fn larger_plan()
    ensures { line_written in_planned.larger ≡ codes "mail letters 5 moves 2 taken 5\n" }
{}

/// The line of a plan with a letter of 15,774 bytes.
pub fn fetching_plan()
    ensures { line_written in_planned.fetching ≡ codes "mail letters 6 moves 1 taken 6\n" }
{}

/// The end of a sender is full with sixteen untold letters, and used receives are posted again.
pub fn seventeen_letters()
    ensures { answered 8192 1 in_seventeen.script ≡ in_seventeen.replies }
{}

/// Which bodies are fetched.
pub fn limit_of_eager_letters()
    ensures { answered 8192 1 in_limits.script ≡ in_limits.replies }
{}

/// Work is cut off after its first step, and the receiver is stopped.
pub fn work_is_cut_off()
    ensures { answered_after_cut 8192 1 in_cut_off.before 1 in_cut_off.script ≡ in_cut_off.replies }
{}
