//! Counts of what was handed out.

use completion_fanout::FanEntry;
use rdma_types::Items;

/// How many completions there were, how many of them were taken, and how many are left.
#[derive(Clone, Copy, Debug, PartialEq, Eq)]
pub(crate) struct Counts {
    pub given: usize,
    pub taken: usize,
    pub left: usize,
}

/// All of so many completions.
pub(crate) fn all(until: usize) -> Option<Counts> {
    Some(Counts {
        given: until,
        taken: until,
        left: 0,
    })
}

/// How many entries stand in some lists.
pub(crate) fn entries(lists: &[Items<FanEntry>]) -> usize {
    let mut count = 0usize;
    for list in lists {
        count = count.saturating_add(list.len());
    }
    count
}
