//! Whole scripts: what is written for them is what two other implementations of these rules wrote.

ghost use Rattle.std.specs.Prelude.{◌≡◌};
ghost use Rattle.law_headline.specs.Evaluate.{written_for};
ghost use Rattle.example_scripts.specs.OneWriteCompleted as in_one_write_completed;
ghost use Rattle.example_scripts.specs.OneWriteOnTheWire as in_one_write_on_the_wire;
ghost use Rattle.example_scripts.specs.RefusalsAtMoves as in_refusals_at_moves;
ghost use Rattle.example_scripts.specs.LostAtomicReply as in_lost_atomic_reply;
ghost use Rattle.example_scripts.specs.LostAtomicReplyAndAMove as in_lost_atomic_reply_and_a_move;
ghost use Rattle.example_scripts.specs.ReceiverNotReadyWaitsAndSettles as in_receiver_not_ready_waits_and_settles;
ghost use Rattle.example_scripts.specs.ReceiverNotReadyEnds as in_receiver_not_ready_ends;
ghost use Rattle.example_scripts.specs.ZeroLengthAndDropInUse as in_zero_length_and_drop_in_use;
ghost use Rattle.example_scripts.specs.ImmediateAndARead as in_immediate_and_a_read;
ghost use Rattle.example_scripts.specs.SeventeenDevices as in_seventeen_devices;
ghost use Rattle.example_scripts.specs.WholeRangeIsChecked as in_whole_range_is_checked;
ghost use Rattle.example_scripts.specs.AtomicNotAligned as in_atomic_not_aligned;
ghost use Rattle.example_scripts.specs.RetrySpentAtOnce as in_retry_spent_at_once;
ghost use Rattle.example_scripts.specs.ReceiveTooShort as in_receive_too_short;
ghost use Rattle.example_scripts.specs.RemoteAccessRefused as in_remote_access_refused;
ghost use Rattle.example_scripts.specs.PostedBytesStay as in_posted_bytes_stay;
ghost use Rattle.example_scripts.specs.HuskAnswersAndPeerPauses as in_husk_answers_and_peer_pauses;
ghost use Rattle.example_scripts.specs.LostFirstPiece as in_lost_first_piece;
ghost use Rattle.example_scripts.specs.FencedWriteAfterARead as in_fenced_write_after_a_read;
ghost use Rattle.example_scripts.specs.FenceAndAMove as in_fence_and_a_move;
ghost use Rattle.example_scripts.specs.WrappedNumbers as in_wrapped_numbers;
ghost use Rattle.example_scripts.specs.ResumeAfterRestore as in_resume_after_restore;
ghost use Rattle.example_scripts.specs.MoveInsideAMessage as in_move_inside_a_message;
ghost use Rattle.example_scripts.specs.StaleAnswerOfTheHusk as in_stale_answer_of_the_husk;
ghost use Rattle.example_scripts.specs.RetrySpentAfterEight as in_retry_spent_after_eight;
ghost use Rattle.example_scripts.specs.SharedQueueOfOneEntry as in_shared_queue_of_one_entry;
ghost use Rattle.example_scripts.specs.RefusalsOfVerbs as in_refusals_of_verbs;
ghost use Rattle.example_scripts.specs.DumpOfAnEmptyContext as in_dump_of_an_empty_context;

/// A write is sent, acts at the partner, is acknowledged and completes once.
pub fn one_write_completed()
    ensures { written_for in_one_write_completed.script ≡ in_one_write_completed.written }
{}

/// The bytes of the one datagram of a write.
pub fn one_write_on_the_wire()
    ensures { written_for in_one_write_on_the_wire.script ≡ in_one_write_on_the_wire.written }
{}

/// A context is stopped, restored and released, and what is refused meanwhile.
pub fn refusals_at_moves()
    ensures { written_for in_refusals_at_moves.script ≡ in_refusals_at_moves.written }
{}

/// The reply to an addition is lost, and the addition acts once.
pub fn lost_atomic_reply()
    ensures { written_for in_lost_atomic_reply.script ≡ in_lost_atomic_reply.written }
{}

/// The reply to an addition is lost, its owner moves, and the addition acts once.
pub fn lost_atomic_reply_and_a_move()
    ensures { written_for in_lost_atomic_reply_and_a_move.script
        ≡ in_lost_atomic_reply_and_a_move.written }
{}

/// A send finds no receive, waits, and settles.
pub fn receiver_not_ready_waits_and_settles()
    ensures { written_for in_receiver_not_ready_waits_and_settles.script
        ≡ in_receiver_not_ready_waits_and_settles.written }
{}

/// A send finds no receive, and its end may not wait.
pub fn receiver_not_ready_ends()
    ensures { written_for in_receiver_not_ready_ends.script ≡ in_receiver_not_ready_ends.written }
{}

/// A write of no bytes, and a region that is not dropped while it is used.
pub fn zero_length_and_drop_in_use()
    ensures { written_for in_zero_length_and_drop_in_use.script
        ≡ in_zero_length_and_drop_in_use.written }
{}

/// A write with immediate, and a read.
pub fn immediate_and_a_read()
    ensures { written_for in_immediate_and_a_read.script ≡ in_immediate_and_a_read.written }
{}

/// A world has sixteen devices at most.
pub fn seventeen_devices()
    ensures { written_for in_seventeen_devices.script ≡ in_seventeen_devices.written }
{}

/// The whole range of a write is checked before its first piece.
pub fn whole_range_is_checked()
    ensures { written_for in_whole_range_is_checked.script ≡ in_whole_range_is_checked.written }
{}

/// An atomic at an address that is no multiple of eight is refused.
pub fn atomic_not_aligned()
    ensures { written_for in_atomic_not_aligned.script ≡ in_atomic_not_aligned.written }
{}

/// An end without retries fails at its first expiry.
pub fn retry_spent_at_once()
    ensures { written_for in_retry_spent_at_once.script ≡ in_retry_spent_at_once.written }
{}

/// A send is longer than its receive.
pub fn receive_too_short()
    ensures { written_for in_receive_too_short.script ≡ in_receive_too_short.written }
{}

/// A write without the right is refused, and nothing is written.
pub fn remote_access_refused()
    ensures { written_for in_remote_access_refused.script ≡ in_remote_access_refused.written }
{}

/// A request takes its bytes when it is posted.
pub fn posted_bytes_stay()
    ensures { written_for in_posted_bytes_stay.script ≡ in_posted_bytes_stay.written }
{}

/// A husk answers for a context that moved, and the partner pauses.
pub fn husk_answers_and_peer_pauses()
    ensures { written_for in_husk_answers_and_peer_pauses.script
        ≡ in_husk_answers_and_peer_pauses.written }
{}

/// The first piece of a message comes late.
pub fn lost_first_piece()
    ensures { written_for in_lost_first_piece.script ≡ in_lost_first_piece.written }
{}

/// A fenced write waits for the read before it.
pub fn fenced_write_after_a_read()
    ensures { written_for in_fenced_write_after_a_read.script
        ≡ in_fenced_write_after_a_read.written }
{}

/// A fence stands through a move.
pub fn fence_and_a_move()
    ensures { written_for in_fence_and_a_move.script ≡ in_fence_and_a_move.written }
{}

/// Packet numbers wrap on the wire.
pub fn wrapped_numbers()
    ensures { written_for in_wrapped_numbers.script ≡ in_wrapped_numbers.written }
{}

/// A restored end resumes its connection.
pub fn resume_after_restore()
    ensures { written_for in_resume_after_restore.script ≡ in_resume_after_restore.written }
{}

/// A context moves while a message arrives.
pub fn move_inside_a_message()
    ensures { written_for in_move_inside_a_message.script ≡ in_move_inside_a_message.written }
{}

/// A late answer of a husk pauses nobody.
pub fn stale_answer_of_the_husk()
    ensures { written_for in_stale_answer_of_the_husk.script ≡ in_stale_answer_of_the_husk.written }
{}

/// An end with seven retries fails at its eighth expiry.
pub fn retry_spent_after_eight()
    ensures { written_for in_retry_spent_after_eight.script ≡ in_retry_spent_after_eight.written }
{}

/// Two queue pairs share a completion queue of one entry.
pub fn shared_queue_of_one_entry()
    ensures { written_for in_shared_queue_of_one_entry.script
        ≡ in_shared_queue_of_one_entry.written }
{}

/// Verbs are refused, each for its first reason.
pub fn refusals_of_verbs()
    ensures { written_for in_refusals_of_verbs.script ≡ in_refusals_of_verbs.written }
{}

/// The dump of a context that holds nothing.
pub fn dump_of_an_empty_context()
    ensures { written_for in_dump_of_an_empty_context.script ≡ in_dump_of_an_empty_context.written }
{}
