//! The law of requests: the machine follows the arrival of a request of the peer at an end that lives in Rts.
//! `specs/Taken.antt` names the cases.
//!
//! The functions have no code. Each promises the law that it names.

ghost use Rattle.law_simulation.specs.Taken.{AreTakenWhere, IsAtPaused, IsAhead, IsMessageRepeat, IsReadTurn, IsSendDry, IsSendRun, IsWriteDry, IsWriteRun};

/// The machine follows a request that does not act: it makes no step where the end is Paused, where the request is ahead of
/// the expected one (one sequence error NAK is sent), and where it repeats a Write or Send, which is acknowledged again.
pub fn early_requests_are_taken()
    ensures paused { AreTakenWhere IsAtPaused }
    ensures ahead { AreTakenWhere IsAhead }
    ensures messages { AreTakenWhere IsMessageRepeat }
{}

/// The machine follows the expected piece of a Write by one Run, where a Run is enabled: the bytes go to their place, the last
/// piece ends the message, and completes a receive where the Write has an immediate. Where that finds no receive, it follows by
/// Dry: the piece stays expected, and an RNR NAK is sent.
pub fn writes_are_taken()
    ensures run { AreTakenWhere IsWriteRun }
    ensures dry { AreTakenWhere IsWriteDry }
{}

/// The machine follows the expected piece of a Send by one Run, where a Run is enabled: the bytes go into the receive in use, or
/// the oldest unused one, and the last piece completes it. Where the first piece finds no receive, it follows by Dry.
pub fn sends_are_taken()
    ensures run { AreTakenWhere IsSendRun }
    ensures dry { AreTakenWhere IsSendDry }
{}

/// The machine follows the expected READ request where its Read is granted: the Read has its turn, and each piece is offered, as
/// its response carries it.
pub fn reads_have_their_turn()
    ensures { AreTakenWhere IsReadTurn }
{}

// How a crate above uses the law: it calls the function, and cites what it promises.
fn repeats_are_taken()
    ensures { AreTakenWhere IsMessageRepeat }
{
    early_requests_are_taken();
}
