//! Lines that wait.

ghost use Rattle.std.specs.Prelude.{◌≡◌};
ghost use Rattle.serve_rules.specs.Timers.{is_running as runs};
ghost use Rattle.serve_rules.specs.Waiting as rules;

use crate::{Goal, Reply};
use rdma_types::{EndState, EndView, ObjName};

/// What the next line waits for: a moment, or an end that comes so far before a moment.
#[derive(Clone, Copy)]
pub enum Pending {
    /// Nothing: the next line is asked for.
    Line,
    Wait {
        until: u64,
    },
    Until {
        end: ObjName,
        goal: Goal,
        until: u64,
    },
}

fn is_error(state: EndState) -> bool
    ensures { result ≡ rules.is_error state }
{
    match state {
        EndState::Error => true,
        _ => false,
    }
}

fn is_running(state: EndState) -> bool
    ensures { result ≡ runs state }
{
    match state {
        EndState::Running => true,
        _ => false,
    }
}

/// Whether an end has come so far.
fn is_reached(goal: Goal, view: &EndView) -> bool
    ensures { result ≡ rules.is_reached goal view.now }
{
    match goal {
        Goal::Idle => view.untold == 0,
        Goal::Running => is_running(view.state),
    }
}

/// The answer where an end has come so far.
fn reached(goal: Goal) -> Reply
    ensures { result ≡ rules.reached goal }
{
    match goal {
        Goal::Idle => Reply::Idle,
        Goal::Running => Reply::Running,
    }
}

/// An answer, once a time is over; before that nothing is answered.
pub fn when_over(is_over: bool, reply: Reply) -> Reply
    ensures { result ≡ rules.when_over is_over reply }
{
    if is_over { reply } else { Reply::Nothing }
}

/// The answer to an `until` of an end that is told so; nothing as long as there is none.
#[tactic(auto, unfolding(crate::specs::Waiting::until_reply))]
pub fn until_reply(goal: Goal, view: &EndView, is_over: bool) -> Reply
    ensures { result ≡ rules.until_reply goal view.now is_over }
{
    if is_error(view.state) {
        return Reply::Error;
    }
    if is_reached(goal, view) {
        return reached(goal);
    }
    when_over(is_over, Reply::Late)
}
