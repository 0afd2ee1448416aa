//! Completions that the caller hands out itself.

ghost use Rattle.std.specs.Prelude.{◌≡◌, ◌<◌, ◌++◌, ◌∷◌, [], IfOk, OnOk};
ghost use Rattle.completion_fanout.specs.Fanned.{IsDealt, dealt_to};

use crate::FanEntry;
use rdma_types::{Completion, Items};
use std::alloc::{AllocError, Global};

/// Puts an entry at the end, where its place is `i` modulo the number of consumers.
#[tactic(auto, unfolding(crate::specs::Fanned::dealt_to))]
fn put_dealt(
    entries: &mut Vec<FanEntry>,
    consumers: u32,
    i: u32,
    entry: FanEntry,
) -> Result<(), AllocError>
    requires { i < consumers }
    ensures { OnOk result (entries.new.items ≡ entries.old.items
        ++ dealt_to consumers i entry.place (entry.completion ∷ [])) }
{
    if entry.place % u64::from(consumers) == u64::from(i) {
        entries.push(entry)?;
    }
    Ok(())
}

/// The entries whose places are `i` modulo the number of consumers.
#[tactic(auto, using(crate::proofs::Dealt::dealt_more, crate::proofs::Dealt::dealt_none))]
fn dealt(
    alloc: Global,
    consumers: u32,
    i: u32,
    completions: &[Completion],
) -> Result<Vec<FanEntry>, AllocError>
    requires { i < consumers }
    ensures { IfOk result (λ entries. entries.items ≡ dealt_to consumers i 0 completions.now) }
{
    let mut entries = Vec::new(alloc);
    for k in 0..completions.len() {
        let entry = FanEntry {
            place: k as u64,
            completion: completions[k],
        };
        put_dealt(&mut entries, consumers, i, entry)?;
    }
    Ok(entries)
}

/// Hands the completions to that many consumers in turn: entry k goes to list k modulo their number.
#[tactic(auto, using(crate::proofs::Dealt::none_dealt, crate::proofs::Dealt::one_more_dealt, crate::proofs::Dealt::all_dealt))]
pub fn deal(
    alloc: Global,
    consumers: u32,
    completions: &[Completion],
) -> Result<Vec<Items<FanEntry>>, AllocError>
    ensures { IfOk result (λ lists. IsDealt consumers completions.now lists.items) }
{
    let mut lists = Vec::with_capacity(alloc, consumers as usize)?;
    for i in 0..consumers {
        lists.push(Items::new(dealt(alloc, consumers, i, completions)?))?;
    }
    Ok(lists)
}
