//! Worked examples of what is recorded of scripts, evaluated by the prover.
//!
//! The functions do nothing. Each promises the equations that it names, which the prover evaluates on the definitions.

#[cfg(test)]
mod tests;

ghost use Rattle.std.specs.Prelude.{◌≡◌, Ok, Err, codes};
ghost use Rattle.script_lang.specs.declared.lines.LineWhy.TheVariants.{Word};
ghost use Rattle.script_lang.specs.Words.{offence};
ghost use Rattle.trace_rules.specs.Evaluate.{recorded};
ghost use Rattle.example_scripts.specs.TracesOneWrite as one_write_trace;
ghost use Rattle.example_scripts.specs.TracesKnownInside as known_inside_trace;
ghost use Rattle.example_scripts.specs.TracesRepeatedRead as repeated_read_trace;
ghost use Rattle.example_scripts.specs.TracesNotReady as not_ready_trace;
ghost use Rattle.example_scripts.specs.TracesRefusals as refusals_trace;
ghost use Rattle.example_scripts.specs.TracesMoved as moved_trace;
ghost use Rattle.example_scripts.specs.TracesChangedAndPaused as changed_and_paused_trace;
ghost use Rattle.example_scripts.specs.TracesAcknowledges as acknowledges_trace;
ghost use Rattle.example_scripts.specs.RecordsOneWrite as one_write;
ghost use Rattle.example_scripts.specs.RecordsKnownInside as known_inside;
ghost use Rattle.example_scripts.specs.RecordsRepeatedRead as repeated_read;
ghost use Rattle.example_scripts.specs.RecordsNotReady as not_ready;
ghost use Rattle.example_scripts.specs.RecordsRefusals as refusals;
ghost use Rattle.example_scripts.specs.RecordsMoved as moved;
ghost use Rattle.example_scripts.specs.RecordsChangedAndPaused as changed_and_paused;
ghost use Rattle.example_scripts.specs.RecordsAcknowledges as acknowledges;
ghost use Rattle.example_scripts.specs.SpacesAndCase as spaces_and_case;

/// One write is recorded in 35 lines: eleven verbs that connect two ends, a store, the write, the run and the tell, two polls, a
/// load, and `end`.
pub fn one_write_is_recorded()
    ensures { recorded one_write.script ≡ Ok one_write_trace.trace }
{}

/// An acknowledgement that ends inside a message is recorded as `known`; one acknowledgement tells two requests.
pub fn bytes_inside_are_known()
    ensures { recorded known_inside.script ≡ Ok known_inside_trace.trace }
{}

/// A Read that is asked for again inside is offered again, and its pieces land from the first offers that fit.
pub fn repeated_reads_are_offered_again()
    ensures { recorded repeated_read.script ≡ Ok repeated_read_trace.trace }
{}

/// Receivers that are not ready: a wait, and the last of them.
pub fn waits_are_recorded()
    ensures { recorded not_ready.script ≡ Ok not_ready_trace.trace }
{}

/// A request that is refused, and an expiry that is the last.
pub fn refusals_are_recorded()
    ensures { recorded refusals.script ≡ Ok refusals_trace.trace }
{}

/// A move inside a message leaves no line in the trace.
pub fn moves_are_not_recorded()
    ensures { recorded moved.script ≡ Ok moved_trace.trace }
{}

/// A Read whose bytes changed lands from the offer with its bytes, and a Paused end executes nothing.
pub fn changed_bytes_are_offered()
    ensures { recorded changed_and_paused.script ≡ Ok changed_and_paused_trace.trace }
{}

/// Acknowledgements of several requests, up to a Read or atomic that has not landed.
pub fn acknowledgements_tell()
    ensures { recorded acknowledges.script ≡ Ok acknowledges_trace.trace }
{}

/// Spaces and digits in upper case are written in one way; blank lines and comments are not recorded, nor is a verb that does not
/// count as made.
pub fn spaces_and_case_are_not_recorded()
    ensures { recorded spaces_and_case.script ≡ Ok spaces_and_case.trace }
{}

/// A script without verbs is recorded as `end`, and `settle` is a word that no line of a script that is recorded begins with.
pub fn small_scripts_are_recorded()
    ensures none { recorded (codes "# nothing\n") ≡ Ok (codes "end\n") }
    ensures settles { recorded (codes "device 1 10.0.0.1\n  settle all\n")
        ≡ Err (record { number = 2; offence = offence 3 Word }) }
{}
