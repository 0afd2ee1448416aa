//! Laws of a served device: what a turn does to its device, and how long a timer runs.
//!
//! The functions do nothing. Each promises the law that it names.

ghost use Rattle.serve_rules.specs.Laws.{ADueTimerExpires, ATimerIsSetOnce, ATimerRunsOn, ATurnIsEvents};

/// What a turn does to the device is a list of arrivals, transmissions, expiries and ends of RNR waits. What arrives in them
/// are the first of the datagrams that were taken, in their order, each once; the others are still to arrive.
pub fn a_turn_is_a_list_of_events()
    ensures { ATurnIsEvents }
{}

/// Whatever arrives, the retransmission timer of a queue pair runs until the queue pair has moved on (its partner acknowledged
/// more, nothing of it is in flight, its state is another, or it is gone) or expires. It expires in the first turn at its
/// moment or after it, unless an RNR wait of the queue pair ends there. Behind progress it is set for its base.
pub fn a_timer_runs_until_progress_or_expiry()
    ensures runs { ATimerRunsOn }
    ensures expires { ADueTimerExpires }
    ensures set { ATimerIsSetOnce }
{}
