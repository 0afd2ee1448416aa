//! The law of acknowledgements, of answers to atomics, and of READ responses.

ghost use Rattle.law_simulation.specs.Delivered.{AcksAreTaken, SequenceNaksAreTaken, RefusalsAreTaken, ReceiverNotReadyIsTaken, AtomicResponsesAreTaken, ReadResponsesAreTaken};

/// The machine follows each ACK that arrives at an end in Rts: its owner learns of the numbers up to it, and of none from
/// the barrier on.
pub fn acks_are_taken()
    ensures { AcksAreTaken }
{}

/// The machine follows each sequence error NAK: the owner learns of the numbers before it, and of none from the barrier
/// on.
pub fn sequence_naks_are_taken()
    ensures { SequenceNaksAreTaken }
{}

/// The machine follows each NAK of an invalid request or of a remote access error: the owner learns of the numbers before
/// it, and where it speaks of the oldest number the machine's end learns that its first request is refused.
pub fn refusals_are_taken()
    ensures { RefusalsAreTaken }
{}

/// The machine follows each receiver-not-ready NAK: the owner learns of the numbers before it, and where it speaks of the
/// oldest number one wait is counted.
pub fn receiver_not_ready_is_taken()
    ensures { ReceiverNotReadyIsTaken }
{}

/// The machine follows each answer to an atomic: at the barrier all numbers before it become known, and the atomic is told
/// with its old value; elsewhere it makes no step.
pub fn atomic_responses_are_taken()
    ensures { AtomicResponsesAreTaken }
{}

/// The machine follows each READ response: at the barrier all numbers before it become known, its bytes land, and after the
/// last piece the Read is told; elsewhere it makes no step.
pub fn read_responses_are_taken()
    ensures { ReadResponsesAreTaken }
{}
