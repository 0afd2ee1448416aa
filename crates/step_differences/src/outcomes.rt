//! Where two outcomes differ.

ghost use Rattle.std.specs.Prelude.{◌≡◌, ◌↔◌, IsTrue, true};
ghost use Rattle.step_differences.specs.Differing.{TellsApart};
ghost use Rattle.step_differences.specs.Kinds.{is_bare, is_long, is_short, kind_of_answer};

use crate::images::same_image;
use crate::lists::{same_completions, same_left};
use protocol::{ContextImage, Outcome};
use rdma_types::{Answer, Sent};

/// The number of an answer's kind.
fn kind_of(answer: &Answer) -> u64
    ensures { result ≡ kind_of_answer answer.now }
{
    match answer {
        Answer::Done => 0,
        Answer::Stopped => 1,
        Answer::Region(_) => 2,
        Answer::Qp(_) => 3,
        Answer::Bytes(_) => 4,
        Answer::Polled(_) => 5,
        Answer::Sent { .. } => 6,
        Answer::Idle => 7,
        Answer::WindowFull => 8,
        Answer::ReadsFull => 9,
        Answer::Fenced => 10,
        Answer::Waiting => 11,
        Answer::Took { .. } => 12,
        Answer::Expired(_) => 13,
        Answer::Spent => 14,
        Answer::NotCounted(_) => 15,
        Answer::Over => 16,
        Answer::NotWaiting => 17,
        Answer::Wire(_) => 18,
        Answer::Gone => 19,
        Answer::Lost => 20,
        Answer::Aged => 21,
        Answer::Dump { .. } => 22,
        Answer::Quiet(_) => 23,
        Answer::Refused(_) => 24,
    }
}

/// Equal answers that own bytes or lists.
fn same_long(a: &Answer, b: &Answer) -> bool
    ensures { IsTrue result ↔ (is_long a.now ≡ true) × (a.now ≡ b.now) }
{
    match (a, b) {
        (Answer::Bytes(x), Answer::Bytes(y)) => x.as_slice() == y.as_slice(),
        (Answer::Polled(x), Answer::Polled(y)) => same_completions(x.as_slice(), y.as_slice()),
        (Answer::Wire(x), Answer::Wire(y)) => x.as_slice() == y.as_slice(),
        (Answer::Quiet(x), Answer::Quiet(y)) => same_left(x.as_slice(), y.as_slice()),
        (
            Answer::Dump {
                length: m,
                shown: x,
            },
            Answer::Dump {
                length: n,
                shown: y,
            },
        ) => m == n && x.as_slice() == y.as_slice(),
        _ => false,
    }
}

/// Equal answers of numbers.
fn same_short(a: &Answer, b: &Answer) -> bool
    ensures { IsTrue result ↔ (is_short a.now ≡ true) × (a.now ≡ b.now) }
{
    match (a, b) {
        (Answer::Region(x), Answer::Region(y)) => x == y,
        (Answer::Qp(x), Answer::Qp(y)) => x == y,
        (Answer::Sent { first: x }, Answer::Sent { first: y }) => x == y,
        (
            Answer::Took {
                took: x,
                first: m,
                count: k,
            },
            Answer::Took {
                took: y,
                first: n,
                count: l,
            },
        ) => x == y && m == n && k == l,
        (Answer::Expired(x), Answer::Expired(y)) => x == y,
        (Answer::NotCounted(x), Answer::NotCounted(y)) => x == y,
        (Answer::Refused(x), Answer::Refused(y)) => x == y,
        _ => false,
    }
}

/// Equal answers of one word.
fn same_bare(a: &Answer, b: &Answer) -> bool
    ensures { IsTrue result ↔ (is_bare a.now ≡ true) × (a.now ≡ b.now) }
{
    match (a, b) {
        (Answer::Done, Answer::Done)
        | (Answer::Stopped, Answer::Stopped)
        | (Answer::Idle, Answer::Idle)
        | (Answer::WindowFull, Answer::WindowFull)
        | (Answer::ReadsFull, Answer::ReadsFull)
        | (Answer::Fenced, Answer::Fenced)
        | (Answer::Waiting, Answer::Waiting)
        | (Answer::Spent, Answer::Spent)
        | (Answer::Over, Answer::Over)
        | (Answer::NotWaiting, Answer::NotWaiting)
        | (Answer::Gone, Answer::Gone)
        | (Answer::Lost, Answer::Lost)
        | (Answer::Aged, Answer::Aged) => true,
        _ => false,
    }
}

/// Equal answers.
#[tactic(auto, using(crate::proofs::Groups::answer_groups))]
fn same_answer(a: &Answer, b: &Answer) -> bool
    ensures { IsTrue result ↔ (a.now ≡ b.now) }
{
    same_short(a, b) || same_long(a, b) || same_bare(a, b)
}

/// Equal datagrams that are sent.
fn same_sent(a: &Sent, b: &Sent) -> bool
    ensures { IsTrue result ↔ (a.now ≡ b.now) }
{
    a.to == b.to && a.number == b.number && a.bytes.as_slice() == b.bytes.as_slice()
}

/// Equal lists of them.
fn same_sents(a: &[Sent], b: &[Sent]) -> bool
    ensures { IsTrue result ↔ (a.now ≡ b.now) }
{
    if a.len() != b.len() {
        return false;
    }
    for i in 0..a.len() {
        if !same_sent(&a[i], &b[i]) {
            return false;
        }
    }
    true
}

/// Equal images, where there are any.
fn same_stopped(a: &Option<ContextImage>, b: &Option<ContextImage>) -> bool
    ensures { IsTrue result ↔ (a.now ≡ b.now) }
{
    match (a, b) {
        (None, None) => true,
        (Some(x), Some(y)) => same_image(x, y),
        _ => false,
    }
}

/// Equal outcomes.
fn same_outcome(a: &Outcome, b: &Outcome) -> bool
    ensures { IsTrue result ↔ (a.now ≡ b.now) }
{
    same_answer(&a.answer, &b.answer)
        && same_sents(a.sent.as_slice(), b.sent.as_slice())
        && same_stopped(&a.image, &b.image)
}

/// Two values that tell two outcomes apart: the numbers of the kinds of their answers where these differ, and else 0
/// and 1. None where the outcomes are equal.
pub fn outcome_difference(a: &Outcome, b: &Outcome) -> Option<(u64, u64)>
    ensures { TellsApart a.now b.now result }
{
    let (left, right) = (kind_of(&a.answer), kind_of(&b.answer));
    if left != right {
        Some((left, right))
    } else if same_outcome(a, b) {
        None
    } else {
        Some((0, 1))
    }
}
