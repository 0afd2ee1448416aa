//! What the verdict of an audit says, and what reading a trace has to do with its grammar.

ghost use Rattle.run_traces.specs.Grammar.{FirstIsNamed, TracesAreRead};
ghost use Rattle.run_traces.specs.Verdicts.{VerdictsAreRight};

/// The verdict on steps is `Legal` exactly where they are a run of the machine from the empty one with these answers, and
/// `Illegal` at the first line that can be of no run. A text is read as steps exactly where its lines say them, one after
/// the other. The bad line that is named is the first with which it can not go on to a trace.
pub fn audits_are_right()
    ensures verdicts { VerdictsAreRight }
    ensures traces { TracesAreRead }
    ensures bad_lines { FirstIsNamed }
{}
