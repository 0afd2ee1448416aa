//! How much a run of letters has of each.

/// How much a run of letters has of each: 1 to 8 senders, 1 to 500 letters and at most 16 moves of the receiver; the seed is the
/// generator's.
#[derive(Clone, Copy)]
pub struct MailPlan {
    pub seed: u64,
    pub peers: u32,
    pub letters: u32,
    pub moves: u32,
}
