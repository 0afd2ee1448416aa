//! The record of a script is a trace that an audit finds legal.
//!
//! The functions do nothing. Each promises the law that it names.
#![tactic(auto)]

ghost use Rattle.law_traces.specs.Records.{RecordsAreLegal};
ghost use Rattle.law_traces.specs.Said.{RecordsAreSaid};
ghost use Rattle.law_traces.specs.Whole.{RecordsAreWhole};

use law_headline::{lines_are_followed, lines_are_in_range};
use law_simulation::runs::{law_holds, steps_are_named};
use run_traces::trace_audit::audits_are_right;
use script_lang::{
    a_number_is_spelled_in_one_way, answers_are_whole_lines, what_is_printed_reads_back,
};
use trace_rules::all_is_heard;

/// The text of what is recorded of a script is in the grammar of traces, and reads back as the steps of the run, where the
/// numbers of its inner steps have 32 bits.
pub fn records_are_said()
    ensures { RecordsAreSaid }
{
    audits_are_right();
    law_holds();
    steps_are_named();
    lines_are_in_range();
    a_number_is_spelled_in_one_way();
    what_is_printed_reads_back();
}

/// The recorded steps are a run of the packetless machine with these answers: an audit finds them legal.
pub fn records_are_legal()
    ensures { RecordsAreLegal }
{
    lines_are_in_range();
    lines_are_followed();
    what_is_printed_reads_back();
    answers_are_whole_lines();
    audits_are_right();
}

/// So the record of a script is all that it must be, where those numbers have 32 bits: its text reads back as the steps of the
/// run, its verbs and answers are those that count as made, and an audit finds it legal.
pub fn records_are_whole()
    ensures { RecordsAreWhole }
{
    records_are_said();
    all_is_heard();
    records_are_legal();
}
