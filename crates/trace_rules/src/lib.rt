//! What is recorded of a script, and what holds of the record.
//!
//! The functions do nothing. Each promises the law that it names.
#![tactic(auto)]

ghost use Rattle.trace_rules.specs.Heard.{AllIsHeard};
ghost use Rattle.trace_rules.specs.Playing.{RecordingBegins, RecordingEnds, RecordingGoesOn, RecordingStops};

/// A script is recorded line by line: nothing is recorded at first; a line that is read adds its own text, and leads to
/// the next world and machine; a bad line is the first one; and behind the last line nothing is added but `end`.
pub fn scripts_are_recorded_line_by_line()
    ensures begins { RecordingBegins }
    ensures goes_on { RecordingGoesOn }
    ensures stops { RecordingStops }
    ensures ends { RecordingEnds }
{}

/// The verbs of what is recorded, with their answers, are exactly those that count as made, in their order.
pub fn all_is_heard()
    ensures { AllIsHeard }
{}
