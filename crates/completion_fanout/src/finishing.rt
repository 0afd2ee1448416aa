//! What is left, after all have ended.

ghost use Rattle.std.specs.Prelude.{◌≡◌, ◌<◌, ◌+◌, [], false, true, length, vec_len, IfOk};
ghost use Rattle.crossbeam_queue.specs.Passes.{view, IsPassOf};
ghost use Rattle.completion_fanout.specs.Fanned.{IsFanned};
ghost use Rattle.completion_fanout.specs.Rule.{IsWhole, left_share};
ghost use Rattle.completion_fanout.specs.Served.{AreServed, IsFed};

use crate::entry::{FanEntry, QueueItem};
use crate::feeding::{PutResult, Source};
use crate::moves::{give_back, take};
use crate::rule::{FanPass, FanQueue};
use rdma_types::Items;
use std::alloc::{AllocError, Global};
use std::sync::Wait;

/// Takes all that is left, by the pass with all parts, which has taken nothing yet. Where an end mark was taken, no entry is
/// left.
fn take_left<R: Wait>(
    rt: &R,
    alloc: Global,
    queue: &FanQueue,
    root: &mut FanPass,
) -> Result<Vec<FanEntry>, AllocError>
    requires pass { IsPassOf queue.now root.old }
    requires parts { (view root.old).parts ≡ 1024 }
    requires puts { (view root.old).puts ≡ true }
    requires taken { (view root.old).taken ≡ [] }
    ensures knows { IfOk result (λ left. view root.new
        ≡ left_share (view root.old) left.items (view root.new).ended) }
    ensures whole { IfOk result (λ left. IsWhole (view root.new)) }
    ensures none { IfOk result (λ left. 0 < (view root.old).ended → left.items ≡ []) }
{
    let mut left = Vec::new(alloc);
    for _ in rt.forever() {
        left.try_reserve(1)?;
        match take(rt, queue, root) {
            Some(QueueItem::Entry(entry)) => left.push(entry).unwrap(),
            Some(QueueItem::End) => (),
            None => return Ok(left),
        }
    }
    unreachable!()
}

/// Completions that were handed out.
#[derive(Drop)]
pub struct HandedOut {
    /// What consumers 101, 102 and so on took, each in its order.
    pub taken: Items<Items<FanEntry>>,
    /// What none of them took.
    pub left: Items<FanEntry>,
}

/// Joins the one who put to the pass that consumers were joined to, and takes what is left: each completion stands once in
/// the lists, under its place, and nothing is left; the source has ended. Errors: `AllocError` where memory runs out, or ran
/// out for one of them.
pub(crate) fn finish<R: Wait, S: Source + Drop>(
    rt: &R,
    alloc: Global,
    queue: &FanQueue,
    mut root: FanPass,
    lists: Vec<Items<FanEntry>>,
    is_out_of_memory: bool,
    fed: PutResult<S>,
) -> Result<(HandedOut, S), AllocError>
    requires all { AreServed queue.now 1023 root lists.items is_out_of_memory }
    requires some { 0 < vec_len lists }
    requires fed { IsFed queue.now fed.pass (S.given fed.source) }
    requires ended { S.ended fed.source }
    ensures fanned { IfOk result (λ out. IsFanned (S.given out.1) out.0.taken out.0.left) }
    ensures lists { IfOk result (λ out. length out.0.taken ≡ vec_len lists) }
    ensures none { IfOk result (λ out. out.0.left ≡ []) }
    ensures ended { IfOk result (λ out. S.ended out.1) }
{
    let PutResult { pass, source } = fed;
    if is_out_of_memory {
        return Err(AllocError);
    }
    give_back(queue, &mut root, pass);
    let left = take_left(rt, alloc, queue, &mut root)?;
    let out = HandedOut {
        taken: Items::new(lists),
        left: Items::new(left),
    };
    Ok((out, source))
}
