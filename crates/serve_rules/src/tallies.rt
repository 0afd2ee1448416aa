//! What a run counts.

ghost use Rattle.std.specs.Prelude.{◌≡◌, ◌<◌};
ghost use Rattle.serve_rules.specs.Tallies as rules;

use rdma_types::{Answer, ArrivalEffect, DropReason};

/// Counts, each up to the last value that a u64 has.
#[derive(Clone, Copy)]
pub struct Tallies {
    /// Datagrams that the device made.
    pub made: u64,
    /// Datagrams that went out.
    pub sent: u64,
    /// Datagrams that the link did not send.
    pub unsent: u64,
    /// Datagrams that were taken.
    pub taken: u64,
    /// Of these, those without an effect, by why: malformed, unknown, ended, paused, a number too high after a NAK, a repeat
    /// without an answer, useless and stale.
    pub dropped: [u64; 8],
}

/// The place of a reason among the counts.
fn place_of(why: DropReason) -> usize
    ensures place { result ≡ rules.place_of why }
    ensures there { result < 8 }
{
    match why {
        DropReason::Malformed => 0,
        DropReason::Unknown => 1,
        DropReason::Ended => 2,
        DropReason::Paused => 3,
        DropReason::NakSent => 4,
        DropReason::NoRepeat => 5,
        DropReason::Useless => 6,
        DropReason::Stale => 7,
    }
}

/// The counts with one datagram more that had no effect.
fn dropping(mut counts: [u64; 8], why: DropReason) -> [u64; 8]
    ensures { result ≡ rules.dropping why counts }
{
    let place = place_of(why);
    counts[place] = counts[place].saturating_add(1);
    counts
}

/// .. by the answer to an arrival.
fn dropping_by(counts: [u64; 8], answer: &Answer) -> [u64; 8]
    ensures { result ≡ rules.dropping_by answer.now counts }
{
    match answer {
        Answer::Took {
            took: ArrivalEffect::Silent(why),
            ..
        } => dropping(counts, *why),
        _ => counts,
    }
}

impl Tallies {
    /// Nothing is counted.
    pub fn none() -> Tallies
        ensures { result ≡ rules.none_counted }
    {
        Tallies {
            made: 0,
            sent: 0,
            unsent: 0,
            taken: 0,
            dropped: [0; 8],
        }
    }

    /// Counts what an arrival did.
    #[tactic(auto, unfolding(crate::specs::Tallies::with_arrival))]
    pub fn count_arrival(&mut self, answer: &Answer)
        ensures { self.new ≡ rules.with_arrival self.old answer.now }
    {
        self.taken = self.taken.saturating_add(1);
        self.dropped = dropping_by(self.dropped, answer);
    }

    /// Counts datagrams that the device made.
    #[tactic(auto, unfolding(crate::specs::Tallies::with_made))]
    pub fn count_made(&mut self, count: usize)
        ensures { self.new ≡ rules.with_made self.old count }
    {
        self.made = self.made.saturating_add(count as u64);
    }

    /// Counts a datagram that left, or that the link did not send.
    #[tactic(auto, unfolding(crate::specs::Tallies::with_left))]
    pub fn count_left(&mut self, went: bool)
        ensures { self.new ≡ rules.with_left self.old went }
    {
        if went {
            self.sent = self.sent.saturating_add(1);
        } else {
            self.unsent = self.unsent.saturating_add(1);
        }
    }
}
