//! An end that moved twice and knows of three moves of its partner, and messages of moving.

ghost use Rattle.example_scripts.specs.Moves.{AreTaken, stops, resumes, other_resumes, acks};

/// NAK_STOPPED pauses an end that is not paused, with the recorded count alone.
pub fn a_stop_pauses_at_the_recorded_count()
    ensures { AreTaken stops }
{}

/// A paused end runs by a RESUME with a greater count.
pub fn a_resume_with_a_greater_count_is_recorded()
    ensures { AreTaken resumes }
{}

/// RESUME with the recorded count, with a smaller one, and with one past the greatest.
pub fn other_resumes_change_nothing()
    ensures { AreTaken other_resumes }
{}

/// RESUME_ACK is for a resuming end.
pub fn a_resume_ack_with_the_own_count_lets_it_run()
    ensures { AreTaken acks }
{}
