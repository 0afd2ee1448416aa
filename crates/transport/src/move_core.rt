//! The moves of a connected end: whether it runs, pauses or resumes, how often it and its partner have moved, and where
//! its partner is. NAK_STOPPED and pausing are MigrOS's; the counts, RESUME and RESUME_ACK are this project's choice.

ghost use Rattle.std.specs.Prelude.{◌≡◌, ◌≢◌, ℕ, ◌+◌, ◌<◌, ◌≤◌, ◌↔◌, IsTrue};
ghost use Rattle.rdma_types.specs.declared.requests.Address.{Address};
ghost use Rattle.protocol.specs.Moves.{move_row};
ghost use Rattle.transport.specs.Table.{moving_of, control_of, row_of, moved_by, moving_by};

use rdma_types::Address;

/// The greatest count of moves.
pub const MOST_MOVES: u16 = 65_535;

/// What a connected end may do.
#[derive(Clone, Copy)]
pub enum Phase {
    /// It sends and executes.
    Running,
    /// Its partner has stopped: it neither sends requests nor executes any.
    Paused,
    /// It has moved and tells its partner so: it executes, and its own requests wait.
    Resuming,
}

/// A message of moving.
#[derive(Clone, Copy)]
pub enum Control {
    /// NAK_STOPPED: the partner was stopped when it had moved this often.
    Stopped { count: u32 },
    /// RESUME: the partner has moved this often, and is here.
    Resume { count: u32, address: Address },
    /// RESUME_ACK: the partner knows that this end has moved this often.
    ResumeAck { count: u32 },
}

/// What a message of moving did.
#[derive(Clone, Copy)]
pub enum MoveEffect {
    /// The end is paused.
    Paused,
    /// The partner's move is recorded, to be answered by a RESUME_ACK.
    Resumed,
    /// The partner's move was recorded already, and a RESUME_ACK is due again.
    Again,
    /// The partner knows of this end's move, and the end runs.
    Running,
    /// The message is of an earlier move and changes nothing.
    Stale,
}

/// The moves of a connected end.
#[derive(Clone, Copy)]
pub struct MoveState {
    pub phase: Phase,
    /// How often this end has moved.
    pub own: u16,
    /// How often the partner is known to have moved.
    pub recorded: u16,
    /// Where the partner is, as far as it is known.
    pub partner: Address,
}

impl MoveState {
    /// The state of an end as it is connected: it runs, and neither end has moved.
    pub fn make(partner: Address) -> MoveState
        ensures { result
            ≡ record { phase = Phase.Running; own = 0; recorded = 0; partner = partner } }
    {
        MoveState {
            phase: Phase::Running,
            own: 0,
            recorded: 0,
            partner,
        }
    }

    /// Takes a message of moving, by the first row that holds:
    ///
    /// - NAK_STOPPED with the recorded count pauses an end that is not paused.
    /// - RESUME with a greater count, of at most 65,535, has its count and address recorded, and a paused end runs.
    /// - RESUME with the recorded count, at an end that is not paused, is to be answered again.
    /// - RESUME_ACK with the end's own count lets a resuming end run.
    /// - All else is stale and changes nothing.
    #[tactic(auto, unfolding(protocol::specs::Moves::move_row))]
    pub fn take(&mut self, c: Control) -> MoveEffect
        ensures paused { (result ≡ MoveEffect.Paused)
            ↔ ((c ≡ Control.Stopped self.old.recorded) × (self.old.phase ≢ Phase.Paused)) }
        ensures resumed { (result ≡ MoveEffect.Resumed)
            ↔ ((n : ℕ) × (at : Address) × (c ≡ Control.Resume n at) × (self.old.recorded < n) × (n ≤ 65535)) }
        ensures again { (result ≡ MoveEffect.Again)
            ↔ ((at : Address) × (c ≡ Control.Resume self.old.recorded at) × (self.old.phase ≢ Phase.Paused)) }
        ensures running { (result ≡ MoveEffect.Running)
            ↔ ((c ≡ Control.ResumeAck self.old.own) × (self.old.phase ≡ Phase.Resuming)) }
        ensures changes { self.new ≡ moved_by self.old c result }

        // The row of the protocol's table, and what it leaves of the state.
        ensures row { row_of result ≡ move_row (moving_of self.old) (control_of c) }
        ensures rule { moving_of self.new ≡ moving_by (moving_of self.old) (control_of c)
            (row_of result) }
    {
        let own = u32::from(self.own);
        let recorded = u32::from(self.recorded);
        match c {
            Control::Stopped { count } if count == recorded && !self.is_paused() => {
                self.phase = Phase::Paused;
                MoveEffect::Paused
            }
            Control::Resume { count, address }
                if recorded < count && count <= u32::from(MOST_MOVES) => {
                self.recorded = count as u16;
                self.partner = address;
                if self.is_paused() {
                    self.phase = Phase::Running;
                }
                MoveEffect::Resumed
            }
            Control::Resume { count, .. } if count == recorded && !self.is_paused() => {
                MoveEffect::Again
            }
            Control::ResumeAck { count } if count == own && self.is_resuming() => {
                self.phase = Phase::Running;
                MoveEffect::Running
            }
            _ => MoveEffect::Stale,
        }
    }

    /// Counts one more move of this end.
    pub fn moved(&mut self)
        requires { self.old.own < 65535 }
        ensures { self.new ≡ record self.old { own = self.old.own + 1 } }
    {
        self.own += 1;
    }

    fn is_paused(&self) -> bool
        ensures { IsTrue result ↔ (self.now.phase ≡ Phase.Paused) }
    {
        matches!(self.phase, Phase::Paused)
    }

    fn is_resuming(&self) -> bool
        ensures { IsTrue result ↔ (self.now.phase ≡ Phase.Resuming) }
    {
        matches!(self.phase, Phase::Resuming)
    }
}
