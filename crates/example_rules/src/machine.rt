//! Worked examples of the packetless machine, evaluated by the prover, and tests that make some on the machine
//! itself.
//!
//! `packetless_machine` is tested here, so that its proof is not made twice.

#[cfg(test)]
mod tests;

ghost use Rattle.std.specs.Prelude.{◌≡◌, true};
ghost use Rattle.packetless_machine.specs.Machine.{empty};
ghost use Rattle.packetless_machine.specs.Legal.{is_run, seen, after};
ghost use Rattle.example_rules.specs.Runs.{opening, opening_heard, one_write, one_write_heard, one_atomic, one_atomic_heard, fenced_after_a_read, fenced_after_a_read_heard, refused_access, refused_access_heard, too_long_send, too_long_send_heard, send_with_immediate, send_with_immediate_heard, in_use, in_use_heard, shared_queue, shared_queue_heard};

/// Two contexts and their connection are made: these steps are a run of the machine, and these answers are heard in it.
pub fn opening_is_legal()
    ensures run { is_run empty opening ≡ true }
    ensures heard { seen empty opening ≡ opening_heard }
{}

/// One Write after that opening is a run of the machine, and these answers are heard in it.
pub fn one_write_is_legal()
    ensures run { is_run (after empty opening) one_write ≡ true }
    ensures heard { seen (after empty opening) one_write ≡ one_write_heard }
{}

/// One atomic after that opening is a run of the machine, and these answers are heard in it.
pub fn one_atomic_is_legal()
    ensures run { is_run (after empty opening) one_atomic ≡ true }
    ensures heard { seen (after empty opening) one_atomic ≡ one_atomic_heard }
{}

/// A fenced request after a Read is a run of the machine, and these answers are heard in it.
pub fn fenced_after_a_read_is_legal()
    ensures run { is_run (after empty opening) fenced_after_a_read ≡ true }
    ensures heard { seen (after empty opening) fenced_after_a_read ≡ fenced_after_a_read_heard }
{}

/// A request that is refused at its peer is a run of the machine, and these answers are heard in it.
pub fn refused_access_is_legal()
    ensures run { is_run (after empty opening) refused_access ≡ true }
    ensures heard { seen (after empty opening) refused_access ≡ refused_access_heard }
{}

/// A Send that is longer than its receive is a run of the machine, and these answers are heard in it.
pub fn too_long_send_is_legal()
    ensures run { is_run (after empty opening) too_long_send ≡ true }
    ensures heard { seen (after empty opening) too_long_send ≡ too_long_send_heard }
{}

/// A Send with an immediate is a run of the machine, and these answers are heard in it.
pub fn send_with_immediate_is_legal()
    ensures run { is_run (after empty opening) send_with_immediate ≡ true }
    ensures heard { seen (after empty opening) send_with_immediate ≡ send_with_immediate_heard }
{}

/// A region that a posted request names is not dropped: these steps are a run of the machine, and these answers are
/// heard in it.
pub fn in_use_is_legal()
    ensures run { is_run (after empty opening) in_use ≡ true }
    ensures heard { seen (after empty opening) in_use ≡ in_use_heard }
{}

/// Two queue pairs share a completion queue for one entry: these steps are a run of the machine, and these answers are
/// heard in it.
pub fn shared_queue_is_legal()
    ensures run { is_run empty shared_queue ≡ true }
    ensures heard { seen empty shared_queue ≡ shared_queue_heard }
{}
