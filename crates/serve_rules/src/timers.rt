//! The timers of one queue pair. They are set and cleared by what is told of one, and by nothing else.

ghost use Rattle.std.specs.Prelude.{◌≡◌};
ghost use Rattle.serve_rules.specs.Timers as rules;

use rdma_types::{EndState, EndView};

/// How often the time of the retransmission timer is doubled at most: up to 16 times its base.
const MOST_DOUBLINGS: u8 = 4;

/// The timers of one queue pair, and what was told of it when they were last looked at. Moments are answers of the clock.
#[derive(Clone, Copy)]
pub struct Timer {
    /// The oldest unacknowledged packet number.
    pub una: u64,
    pub state: EndState,
    /// When the retransmission timer is due.
    pub due: Option<u64>,
    /// How often its time is doubled.
    pub doublings: u8,
    /// When the RNR timer is due.
    pub rnr: Option<u64>,
}

/// Which timer is due.
#[derive(Clone, Copy, PartialEq, Eq)]
pub enum Due {
    Neither,
    Rnr,
    /// With packets in flight.
    Expiry,
    /// With a RESUME that is not answered.
    Resume,
}

/// A number for each state.
fn code_of(state: EndState) -> u8
    ensures { result ≡ rules.code_of state }
{
    match state {
        EndState::Init => 0,
        EndState::Running => 1,
        EndState::Paused => 2,
        EndState::Resuming => 3,
        EndState::Error => 4,
    }
}

/// Whether a queue pair runs.
fn is_running(state: EndState) -> bool
    ensures { result ≡ rules.is_running state }
{
    match state {
        EndState::Running => true,
        _ => false,
    }
}

/// Whether it was moved, and its partner is not heard since.
fn is_resuming(state: EndState) -> bool
    ensures { result ≡ rules.is_resuming state }
{
    match state {
        EndState::Resuming => true,
        _ => false,
    }
}

/// Whether packets are in flight.
fn is_in_flight(view: &EndView) -> bool
    ensures { result ≡ rules.is_in_flight view.now }
{
    is_running(view.state) && view.una < view.next
}

/// What stands, or else that.
fn or_else(moment: Option<u64>, other: u64) -> Option<u64>
    ensures { result ≡ rules.or_else moment other }
{
    match moment {
        Some(moment) => Some(moment),
        None => Some(other),
    }
}

/// Whether a moment has come.
fn has_come(moment: Option<u64>, now: u64) -> bool
    ensures { result ≡ rules.has_come moment now }
{
    match moment {
        Some(moment) => moment <= now,
        None => false,
    }
}

/// The base, doubled so often.
fn doubled(base: u64, doublings: u8) -> u64
    ensures { result ≡ rules.doubled base doublings }
{
    match doublings {
        0 => base,
        1 => base.saturating_mul(2),
        2 => base.saturating_mul(4),
        3 => base.saturating_mul(8),
        _ => base.saturating_mul(16),
    }
}

impl Timer {
    /// No timer is set.
    pub fn idle(view: &EndView) -> Timer
        ensures { result ≡ rules.idle view.now }
    {
        Timer {
            una: view.una,
            state: view.state,
            due: None,
            doublings: 0,
            rnr: None,
        }
    }

    /// Begins anew where the oldest unacknowledged number or the state is another one.
    fn renewed(self, view: &EndView) -> Timer
        ensures { result ≡ rules.renewed self view.now }
    {
        if view.una == self.una && code_of(view.state) == code_of(self.state) {
            return self;
        }
        Timer {
            una: view.una,
            state: view.state,
            due: None,
            doublings: 0,
            rnr: self.rnr,
        }
    }

    /// When the retransmission timer is due that is set now.
    fn due_from(&self, base: u64, now: u64) -> u64
        ensures { result ≡ rules.due_from self.now base now }
    {
        now.saturating_add(doubled(base, self.doublings))
    }

    /// The retransmission timer: set from nothing in flight, and cleared where nothing is. A Resuming queue pair keeps it.
    fn kept_due(&self, view: &EndView, base: u64, now: u64) -> Option<u64>
        ensures { result ≡ rules.kept_due self.now view.now base now }
    {
        if is_in_flight(view) {
            return or_else(self.due, self.due_from(base, now));
        }
        if is_resuming(view.state) {
            return self.due;
        }
        None
    }

    /// The RNR timer.
    fn kept_rnr(&self, view: &EndView, base: u64, now: u64) -> Option<u64>
        ensures { result ≡ rules.kept_rnr self.now view.now base now }
    {
        if view.rnr_wait {
            or_else(self.rnr, now.saturating_add(base))
        } else {
            None
        }
    }

    /// The timers once it is told this of the queue pair.
    #[tactic(auto, unfolding(crate::specs::Timers::observed))]
    pub fn observed(self, view: &EndView, base: u64, now: u64) -> Timer
        ensures { result ≡ rules.observed self view.now base now }
    {
        let renewed = self.renewed(view);
        Timer {
            una: renewed.una,
            state: renewed.state,
            due: renewed.kept_due(view, base, now),
            doublings: renewed.doublings,
            rnr: renewed.kept_rnr(view, base, now),
        }
    }

    /// Once a RESUME was sent.
    #[tactic(auto, unfolding(crate::specs::Timers::resumed))]
    pub fn resumed(self, base: u64, now: u64) -> Timer
        ensures { result ≡ rules.resumed self base now }
    {
        let due = or_else(self.due, self.due_from(base, now));
        Timer { due, ..self }
    }

    /// Which timer is due.
    #[tactic(auto, unfolding(crate::specs::Timers::due_of))]
    pub fn is_due(&self, now: u64) -> Due
        ensures { result ≡ rules.due_of self.now now }
    {
        if has_come(self.rnr, now) {
            return Due::Rnr;
        }
        if !has_come(self.due, now) {
            return Due::Neither;
        }
        if is_resuming(self.state) {
            Due::Resume
        } else {
            Due::Expiry
        }
    }

    /// Without the timer that was due. The time of the retransmission timer is doubled.
    #[tactic(auto, unfolding(crate::specs::Timers::spent))]
    pub fn spent(self, due: Due) -> Timer
        ensures { result ≡ rules.spent self due }
    {
        match due {
            Due::Neither => self,
            Due::Rnr => Timer { rnr: None, ..self },
            Due::Expiry | Due::Resume => Timer {
                due: None,
                doublings: self.doublings.saturating_add(1).min(MOST_DOUBLINGS),
                ..self
            },
        }
    }

    /// Whether the queue pair may be asked to send: a Resuming one only where no RESUME is unanswered.
    pub fn may_send(&self, view: &EndView) -> bool
        ensures { result ≡ rules.may_send self.now view.now }
    {
        !is_resuming(view.state) || self.due.is_none()
    }

    /// Whether there is nothing to keep.
    pub fn is_over(&self) -> bool
        ensures { result ≡ rules.is_over self.now }
    {
        self.due.is_none() && self.rnr.is_none() && self.doublings == 0
    }
}
