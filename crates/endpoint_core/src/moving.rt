//! Messages of moving at a connected end.

ghost use Rattle.std.specs.Prelude.{◌≡◌, ℕ, List, false};
ghost use Rattle.std.specs.Option.{option_map};
ghost use Rattle.rdma_types.specs.Objects.{Region};
ghost use Rattle.page_pool.specs.Pool.{Pool};
ghost use Rattle.transport.specs.Table as table;
ghost use Rattle.protocol.specs.EndWords as words;
ghost use Rattle.protocol.specs.EndWords.{linked};
ghost use Rattle.protocol.specs.Moves as moves;
ghost use Rattle.protocol.specs.State.{Context, End};
ghost use Rattle.roce_headers.specs.Packets.{packet};
ghost use Rattle.requester.specs.Sending.{sender_in};
ghost use Rattle.endpoint_core.specs.Answers.{IsAck, move_reply, move_took, sender_after, sent_by};
ghost use Rattle.endpoint_core.specs.Ends.{KeepsLink, link_in};

use crate::answers::{EndEffect, EndReply};
use crate::end::EndLink;
use rdma_types::{ArrivalEffect, DropReason};
use roce_headers::opcodes::RESUME;
use roce_headers::{Datagram, Syndrome};
use transport::move_core::{Control, MoveEffect, Phase};

/// A message of moving; None for every other datagram.
#[tactic(auto, unfolding(protocol::specs::Moves::control_of, protocol::specs::Wire::is_nak_stopped))]
pub fn control_of(d: &Datagram<'_>) -> Option<Control>
    ensures { option_map table.control_of result ≡ moves.control_of (packet d.now) }
{
    if let Some(aeth) = d.aeth
        && matches!(aeth.syndrome, Syndrome::Nak(5))
    {
        return Some(Control::Stopped { count: aeth.msn });
    }
    let body = d.resume?;
    let count = body.count;
    let address = body.address;
    if d.opcode == RESUME {
        Some(Control::Resume { count, address })
    } else {
        Some(Control::ResumeAck { count })
    }
}

/// What a row is answered.
fn took_of(row: MoveEffect) -> ArrivalEffect
    ensures { result ≡ move_took row }
{
    match row {
        MoveEffect::Paused => ArrivalEffect::Paused,
        MoveEffect::Resumed => ArrivalEffect::Resumed,
        MoveEffect::Again => ArrivalEffect::ResumeAck,
        MoveEffect::Running => ArrivalEffect::Running,
        MoveEffect::Stale => ArrivalEffect::Silent(DropReason::Stale),
    }
}

/// RESUME_ACK with the body of a RESUME that a row takes.
fn reply_of(row: MoveEffect, control: Control) -> EndReply
    ensures { result ≡ move_reply row control }
{
    match row {
        MoveEffect::Paused | MoveEffect::Running | MoveEffect::Stale => EndReply::Nothing,
        MoveEffect::Resumed | MoveEffect::Again => match control {
            Control::Resume { count, address } => EndReply::ResumeAck { count, address },
            Control::Stopped { .. } | Control::ResumeAck { .. } => EndReply::Nothing,
        },
    }
}

impl EndLink {
    /// Takes a message of moving at an end that is not in Error.
    pub fn take_control(&mut self, control: Control) -> EndEffect
        requires { self.old.ended ≡ false }
        ensures step { (c : Context) (e : End) (pool : Pool) (regions : List Region) → linked c e (link_in pool self.old) ≡ c
            → moves.takes_control c e (link_in pool self.old) (table.control_of control)
            ≡ record { context = linked c e (link_in pool self.new); took = result.took; sent = sent_by regions (link_in pool self.new) result.reply } }
        ensures reply { IsAck result.reply }
        ensures keeps { KeepsLink self.old self.new }
    {
        let row = self.moves.take(control);
        self.go_on(row);
        EndEffect {
            took: took_of(row),
            reply: reply_of(row, control),
        }
    }

    /// After a RESUME all requests are sent again, and the end does not wait for the RNR timer.
    fn go_on(&mut self, row: MoveEffect)
        ensures next { (pool : Pool) → sender_in pool self.new.requester
            ≡ sender_after row (sender_in pool self.old.requester) }
        ensures same { self.new ≡ record self.old { requester = self.new.requester } }
        ensures terms { self.new.requester.terms ≡ self.old.requester.terms }
        ensures depth { self.new.requester.depth ≡ self.old.requester.depth }
        ensures items { self.new.requester.items ≡ self.old.requester.items }
    {
        match row {
            MoveEffect::Resumed => self.start_again(),
            MoveEffect::Paused | MoveEffect::Again | MoveEffect::Running | MoveEffect::Stale => {}
        }
    }

    /// All requests are sent again, and the end does not wait for the RNR timer.
    fn start_again(&mut self)
        ensures next { (pool : Pool) → sender_in pool self.new.requester
            ≡ moves.fresh_start (sender_in pool self.old.requester) }
        ensures same { self.new ≡ record self.old { requester = self.new.requester } }
        ensures terms { self.new.requester.terms ≡ self.old.requester.terms }
        ensures depth { self.new.requester.depth ≡ self.old.requester.depth }
        ensures items { self.new.requester.items ≡ self.old.requester.items }
    {
        self.requester.rewind();
        let _ = self.requester.rnr_over();
    }

    /// It is Paused.
    pub fn is_paused(&self) -> bool
        ensures { result ≡ words.is_paused (table.phase_of self.now.moves.phase) }
    {
        matches!(self.moves.phase, Phase::Paused)
    }
}
