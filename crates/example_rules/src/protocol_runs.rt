//! Worked examples: scripts and their answers, as equations.

ghost use Rattle.std.specs.Prelude.{◌≡◌, ◌+◌, ◌++◌, ◌∷◌, [], Some, None, map};
ghost use Rattle.protocol.specs.Dumps.{Good, Bad, dump_bytes};
ghost use Rattle.protocol.specs.declared.dumps.DumpWhy.TheVariants.{Short, Trailing};
ghost use Rattle.protocol.specs.Fabric.{Here, IsAged, IsGone, look};
ghost use Rattle.protocol.specs.Numbers.{unwrap_near};
ghost use Rattle.protocol.specs.Wire.{Spells, packet_of};
ghost use Rattle.example_rules.specs.Cases as cases;
ghost use Rattle.example_rules.specs.Damaged as damaged;
ghost use Rattle.protocol.specs.State.{empty_world};
ghost use Rattle.protocol.specs.Evaluate.{computed, dump_said, played};
ghost use Rattle.example_rules.specs.OneWriteSent as in_one_write_sent;
ghost use Rattle.example_rules.specs.OneWrite as in_one_write;
ghost use Rattle.example_rules.specs.LostFirstPiece as in_lost_first_piece;
ghost use Rattle.example_rules.specs.WrappedNumbers as in_wrapped_numbers;
ghost use Rattle.example_rules.specs.NoBytes as in_no_bytes;
ghost use Rattle.example_rules.specs.RemoteAccess as in_remote_access;
ghost use Rattle.example_rules.specs.RemoteAccessWholeRange as in_remote_access_whole_range;
ghost use Rattle.example_rules.specs.LostAtomicReply as in_lost_atomic_reply;
ghost use Rattle.example_rules.specs.UnmovedAfterLostReply as in_unmoved_after_lost_reply;
ghost use Rattle.example_rules.specs.HuskAnswers as in_husk_answers;
ghost use Rattle.example_rules.specs.Resume as in_resume;
ghost use Rattle.example_rules.specs.StaleNak as in_stale_nak;
ghost use Rattle.example_rules.specs.MovedInsideAMessage as in_moved_inside_a_message;
ghost use Rattle.example_rules.specs.RefusedMoves as in_refused_moves;
ghost use Rattle.example_rules.specs.RetrySpent as in_retry_spent;
ghost use Rattle.example_rules.specs.EightExpiries as in_eight_expiries;
ghost use Rattle.example_rules.specs.RnrSpent as in_rnr_spent;
ghost use Rattle.example_rules.specs.ReceiverNotReady as in_receiver_not_ready;
ghost use Rattle.example_rules.specs.SharedQueue as in_shared_queue;
ghost use Rattle.example_rules.specs.DumpOfAnEmptyContext as in_dump_of_an_empty_context;
ghost use Rattle.example_rules.specs.TooManyDevices as in_too_many_devices;
ghost use Rattle.example_rules.specs.RefusedVerbs as in_refused_verbs;
ghost use Rattle.example_rules.specs.ImmediateAndRead as in_immediate_and_read;
ghost use Rattle.example_rules.specs.TooLongASend as in_too_long_a_send;
ghost use Rattle.example_rules.specs.UnalignedAtomic as in_unaligned_atomic;
ghost use Rattle.example_rules.specs.BytesAsPosted as in_bytes_as_posted;
ghost use Rattle.example_rules.specs.Fenced as in_fenced;
ghost use Rattle.example_rules.specs.FencedAfterAMove as in_fenced_after_a_move;
ghost use Rattle.example_rules.specs.UsualSession as in_usual_session;
ghost use Rattle.example_rules.specs.LostReadResponse as in_lost_read_response;
ghost use Rattle.example_rules.specs.StoppedBesideAnEndedPartner as in_stopped_beside_an_ended_partner;
ghost use Rattle.example_rules.specs.ALostAndALatePiece as in_a_lost_and_a_late_piece;
ghost use Rattle.example_rules.specs.PausedTwice as in_paused_twice;
ghost use Rattle.example_rules.specs.RewoundToTheLostPiece as in_rewound_to_the_lost_piece;
ghost use Rattle.example_rules.specs.ResumedAgain as in_resumed_again;
ghost use Rattle.example_rules.specs.SixteenKeptReplies as in_sixteen_kept_replies;

/// A write is posted and sent: the bytes of its one datagram.
pub fn one_write_sent()
    ensures { computed empty_world in_one_write_sent.script ≡ in_one_write_sent.answers }
{}

/// A write acts at the partner, is acknowledged, and completes once.
pub fn one_write()
    ensures { computed empty_world in_one_write.script ≡ in_one_write.answers }
{}

/// The second piece of a write arrives first: a sequence error NAK, one of them, and then both in order.
pub fn lost_first_piece()
    ensures { computed empty_world in_lost_first_piece.script ≡ in_lost_first_piece.answers }
{}

/// Wire numbers wrap at 24 bits in the middle of two writes.
pub fn wrapped_numbers()
    ensures { computed empty_world in_wrapped_numbers.script ≡ in_wrapped_numbers.answers }
{}

/// A write of no bytes checks no key; a region with an untold write cannot be dropped.
pub fn no_bytes()
    ensures { computed empty_world in_no_bytes.script ≡ in_no_bytes.answers }
{}

/// A write past the end of the partner's region is refused, and both ends are in Error.
pub fn remote_access()
    ensures { computed empty_world in_remote_access.script ≡ in_remote_access.answers }
{}

/// The whole range of a write is checked at its first packet.
pub fn remote_access_whole_range()
    ensures { computed empty_world in_remote_access_whole_range.script
        ≡ in_remote_access_whole_range.answers }
{}

/// The reply of an addition is lost: the repeat is answered from the kept reply, and adds nothing.
pub fn lost_atomic_reply()
    ensures { computed empty_world in_lost_atomic_reply.script ≡ in_lost_atomic_reply.answers }
{}

/// The same while the partner moves: the kept reply moves with it.
pub fn unmoved_after_lost_reply()
    ensures { computed empty_world in_unmoved_after_lost_reply.script
        ≡ in_unmoved_after_lost_reply.answers }
{}

/// A husk answers NAK_STOPPED, and the end waits: its expiries are not counted and it sends nothing.
pub fn husk_answers()
    ensures { computed empty_world in_husk_answers.script ≡ in_husk_answers.answers }
{}

/// A moved end sends RESUME from its new place, and is acknowledged.
pub fn resume()
    ensures { computed empty_world in_resume.script ≡ in_resume.answers }
{}

/// A late NAK_STOPPED with an old count pauses nothing, and the write is sent again.
pub fn stale_nak()
    ensures { computed empty_world in_stale_nak.script ≡ in_stale_nak.answers }
{}

/// A partner moves between two pieces of a write, and the message goes on at its new place.
pub fn moved_inside_a_message()
    ensures { computed empty_world in_moved_inside_a_message.script
        ≡ in_moved_inside_a_message.answers }
{}

/// Refusals of stops, restores and releases.
pub fn refused_moves()
    ensures { computed empty_world in_refused_moves.script ≡ in_refused_moves.answers }
{}

/// With no retries the first expiry ends the end with a retry error.
pub fn retry_spent()
    ensures { computed empty_world in_retry_spent.script ≡ in_retry_spent.answers }
{}

/// Seven expiries are counted and the eighth ends the end; an expiry with nothing in flight is not counted.
pub fn eight_expiries()
    ensures { computed empty_world in_eight_expiries.script ≡ in_eight_expiries.answers }
{}

/// With no waits the first missing receive ends the end.
pub fn rnr_spent()
    ensures { computed empty_world in_rnr_spent.script ≡ in_rnr_spent.answers }
{}

/// With waits without end, settling leaves a send that lacks a receive, and finishes it once there is one.
pub fn receiver_not_ready()
    ensures { played empty_world in_receiver_not_ready.script ≡ in_receiver_not_ready.answers }
{}

/// Two queue pairs share a completion queue of one entry: a request reserves it until its completion is polled.
pub fn shared_queue()
    ensures { computed empty_world in_shared_queue.script ≡ in_shared_queue.answers }
{}

/// The dump of a stopped context without things.
pub fn dump_of_an_empty_context()
    ensures { played empty_world in_dump_of_an_empty_context.script
        ≡ in_dump_of_an_empty_context.answers }
{}

/// A world has at most sixteen devices.
pub fn too_many_devices()
    ensures { computed empty_world in_too_many_devices.script ≡ in_too_many_devices.answers }
{}

/// Refusals of verbs: names, lengths, keys, things in use, states, full queues and pages.
pub fn refused_verbs()
    ensures { computed empty_world in_refused_verbs.script ≡ in_refused_verbs.answers }
{}

/// A send with an immediate completes a receive with it; a read lands at the reader.
pub fn immediate_and_read()
    ensures { computed empty_world in_immediate_and_read.script ≡ in_immediate_and_read.answers }
{}

/// A send that is longer than its receive ends both ends.
pub fn too_long_a_send()
    ensures { computed empty_world in_too_long_a_send.script ≡ in_too_long_a_send.answers }
{}

/// An addition at an address that is not a multiple of 8 is refused.
pub fn unaligned_atomic()
    ensures { computed empty_world in_unaligned_atomic.script ≡ in_unaligned_atomic.answers }
{}

/// A write carries its bytes as they were when it was posted.
pub fn bytes_as_posted()
    ensures { computed empty_world in_bytes_as_posted.script ≡ in_bytes_as_posted.answers }
{}

/// A fenced write waits until the read before it is complete.
pub fn fenced()
    ensures { computed empty_world in_fenced.script ≡ in_fenced.answers }
{}

/// A fence holds after its owner moved.
pub fn fenced_after_a_move()
    ensures { computed empty_world in_fenced_after_a_move.script ≡ in_fenced_after_a_move.answers }
{}

/// Writes, reads, sends and additions on two connections while a context moves, and settling finishes all of them.
pub fn usual_session()
    ensures { played empty_world in_usual_session.script ≡ in_usual_session.answers }
{}

/// A response of a read is lost: the repeated request asks for the rest.
pub fn lost_read_response()
    ensures { played empty_world in_lost_read_response.script ≡ in_lost_read_response.answers }
{}

/// An end in Error hinders no stop of its partner, and a context comes back to a device once its husk there is released.
pub fn stopped_beside_an_ended_partner()
    ensures { played empty_world in_stopped_beside_an_ended_partner.script
        ≡ in_stopped_beside_an_ended_partner.answers }
{}

/// A piece is lost: settling sends it and the rest again, and what comes late after that acts no more.
pub fn a_lost_and_a_late_piece()
    ensures { played empty_world in_a_lost_and_a_late_piece.script
        ≡ in_a_lost_and_a_late_piece.answers }
{}

/// Two packets meet a husk: the first NAK_STOPPED pauses the end, and the second is stale; settling after the restore finishes all.
pub fn paused_twice()
    ensures { played empty_world in_paused_twice.script ≡ in_paused_twice.answers }
{}

/// A sequence error NAK rewinds to the lost piece, and the same packet is sent again.
pub fn rewound_to_the_lost_piece()
    ensures { computed empty_world in_rewound_to_the_lost_piece.script
        ≡ in_rewound_to_the_lost_piece.answers }
{}

/// A RESUME that comes again is acknowledged again, and changes nothing.
pub fn resumed_again()
    ensures { computed empty_world in_resumed_again.script ≡ in_resumed_again.answers }
{}

/// The last sixteen replies of atomics are kept, and an older repeat is silent.
pub fn sixteen_kept_replies()
    ensures { computed empty_world in_sixteen_kept_replies.script
        ≡ in_sixteen_kept_replies.answers }
{}

/// The bytes of that dump say the image.
pub fn whole_dump()
    ensures { dump_said cases.twenty ≡ Good cases.empty 20 [] }
{}

/// Without their last byte they are short.
pub fn short_dump()
    ensures { dump_said cases.nineteen ≡ Bad 19 Short }
{}

/// With a byte more they have one too many.
pub fn trailing_dump()
    ensures { dump_said (cases.twenty ++ 0 ∷ []) ≡ Bad 20 Trailing }
{}

/// The first fault of byte lists that are no dump.
pub fn damaged_dumps()
    ensures { map (λ bs. damaged.fault_of (dump_said bs)) damaged.dumps ≡ damaged.faults }
{}

/// The first fault of longer ones, among their queue pairs.
pub fn damaged_queue_pairs()
    ensures { map (λ bs. damaged.fault_of (dump_said bs)) damaged.longer ≡ damaged.longer_faults }
{}

/// The bytes that are written for an image of an empty context.
pub fn dump_written()
    ensures { dump_bytes 2 cases.empty ≡ cases.twenty }
{}

/// A datagram of true number 5 is here as long as the receiver is no more than 2^22 past it.
pub fn flight_here()
    ensures { look cases.flights 1 (5 + 4194304) ≡ Here cases.flight }
{}

/// One further, and it is aged.
pub fn flight_aged()
    ensures { look cases.flights 1 (6 + 4194304) ≡ IsAged }
{}

/// A datagram that was never sent is gone.
pub fn flight_gone()
    ensures { look cases.flights 2 0 ≡ IsGone }
{}

/// Past the wrap of wire numbers.
pub fn near_above()
    ensures { unwrap_near 16777215 0 3 ≡ Some 1 }
{}

/// A number below 0 is none.
pub fn near_below_zero()
    ensures { unwrap_near 5 4 3 ≡ None }
{}

/// The bytes of a datagram with an ignored field are read.
pub fn packet_read()
    ensures { packet_of cases.datagram ≡ Some cases.packet }
{}

/// The grammar has them too.
pub fn packet_spelled()
    ensures { Spells cases.packet cases.datagram }
{}
