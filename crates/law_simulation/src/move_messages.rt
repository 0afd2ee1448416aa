//! The law of messages of moving: NAK_STOPPED, RESUME and RESUME_ACK at an end that lives in Rts, and what a husk answers.
//! The machine makes no step.
//!
//! The functions have no code. Each promises the law for the datagrams that it names.

ghost use Rattle.std.specs.Prelude.{ℕ};
ghost use Rattle.protocol.specs.declared.wire.ResumeBody.{ResumeBody};
ghost use Rattle.law_simulation.specs.Packets.{IsStopped, IsResume, IsResumeAck};
ghost use Rattle.law_simulation.specs.Delivered.{HusksAnswer, StoppedIsTaken, ResumesAreTaken, ResumeAcksAreTaken, FollowsKind};
ghost use Rattle.law_simulation.specs.Unfound.{FollowsUnfound};

/// A husk's answer keeps the relation: what its NAK_STOPPED says of the end that it is of stays true.
pub fn husks_answer()
    ensures { HusksAnswer }
{}

/// The machine follows each delivery of a datagram for an end that is not where the datagram goes to, as where a husk of
/// the end answers it with NAK_STOPPED: it makes no step.
pub fn unfound_follow()
    ensures { FollowsUnfound }
{}

/// At an end that lives in Rts, a message of moving by each row of its table keeps the relation, with the RESUME_ACK that is
/// sent, and the machine makes no step.
pub fn messages_are_taken()
    ensures stopped { StoppedIsTaken }
    ensures resumes { ResumesAreTaken }
    ensures acks { ResumeAcksAreTaken }
{}

/// The machine follows each delivery of a message of moving, wherever it comes to.
pub fn messages_follow()
    ensures stopped { (count : ℕ) → FollowsKind (IsStopped count) }
    ensures resume { (body : ResumeBody) → FollowsKind (IsResume body) }
    ensures ack { (body : ResumeBody) → FollowsKind (IsResumeAck body) }
{}
