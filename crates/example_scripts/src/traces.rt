//! Worked examples of traces, evaluated by the prover, and tests that audit some by the code.
//!
//! The functions do nothing. Each promises the equations that it names, which the prover evaluates on the definitions.

#[cfg(test)]
mod tests;

ghost use Rattle.std.specs.Prelude.{◌≡◌, [], Ok, Err};
ghost use Rattle.script_lang.specs.declared.lines.LineWhy.TheVariants.{Missing};
ghost use Rattle.script_lang.specs.Words.{offence};
ghost use Rattle.run_traces.specs.declared.trace_audit.verdicts.AuditWhy.TheVariants.{Step, Answer};
ghost use Rattle.run_traces.specs.declared.trace_audit.verdicts.Verdict.TheVariants.{Legal, Illegal};
ghost use Rattle.run_traces.specs.Evaluate.{audited};
ghost use Rattle.example_scripts.specs.TracesAcknowledges as acknowledges;
ghost use Rattle.example_scripts.specs.AuditCases.{AreAudited};
ghost use Rattle.example_scripts.specs.TracesChangedAndPaused as changed_and_paused;
ghost use Rattle.example_scripts.specs.TracesKnownInside as known_inside;
ghost use Rattle.example_scripts.specs.TracesMoved as moved;
ghost use Rattle.example_scripts.specs.TracesNotReady as not_ready;
ghost use Rattle.example_scripts.specs.TracesOneWrite as one_write;
ghost use Rattle.example_scripts.specs.TracesRefusals as refusals;
ghost use Rattle.example_scripts.specs.TracesRepeatedRead as repeated_read;
ghost use Rattle.example_scripts.specs.SmallTraces as small;

/// The trace of one write.
pub const ONE_WRITE: &[u8] = b"\
v context a made\n\
= ok\n\
v context b made\n\
= ok\n\
v domain a.p\n\
= ok\n\
v domain b.p\n\
= ok\n\
v region a.m a.p 4096 64 lwra\n\
= region 01000002 01000003\n\
v region b.n b.p 8192 64 lwra\n\
= region 02000002 02000003\n\
v cq a.c 16\n\
= ok\n\
v cq b.c 16\n\
= ok\n\
v qp a.q a.p a.c a.c 8 8\n\
= qp 010001\n\
v qp b.q b.p b.c b.c 8 8\n\
= qp 020001\n\
v connect a.q b.q mtu 256 psn 100 200 retry 7 rnr 7 reads 4\n\
= ok\n\
v store a.m 4096 deadbeef\n\
= ok\n\
v write a.q 1 01000002 4096 4 8192 02000003\n\
= ok\n\
i run a.q 4\n\
i tell a.q\n\
v poll a.c 4\n\
= wc 010001 1 write 0 4\n\
v poll a.c 4\n\
= none\n\
v load b.n 8192 4\n\
= bytes deadbeef\n\
end\n";

/// The trace of one write is legal: sixteen verbs and two inner steps.
pub fn one_write_is_legal()
    ensures { audited one_write.trace ≡ Ok (Legal 16 2) }
{}

/// Without its run, with another answer, and with a run at the other end it is no run of the machine; without its last line
/// it is in no form, nor is an empty one.
pub fn changed_traces_are_not()
    ensures step { audited one_write.without_the_run ≡ Ok (Illegal 27 Step) }
    ensures answer { audited one_write.with_a_wrong_load ≡ Ok (Illegal 34 Answer) }
    ensures other { audited one_write.with_a_run_of_the_peer ≡ Ok (Illegal 27 Step) }
    ensures cut { audited one_write.without_the_end ≡ Err (35, offence 1 Missing) }
    ensures empty { audited [] ≡ Err (1, offence 1 Missing) }
{}

/// An answer of several lines without its last one, and a step that is left out after such an answer.
pub fn shortened_traces_are_not()
    ensures answer { audited acknowledges.with_a_line_less ≡ Ok (Illegal 60 Answer) }
    ensures step { audited acknowledges.with_a_later_step_less ≡ Ok (Illegal 81 Step) }
{}

/// Small traces, legal, illegal and bad.
pub fn small_traces_are_audited()
    ensures { AreAudited small.small }
{}

/// The owner of a request learns of bytes inside it, and of requests that are finished.
pub fn owners_learn()
    ensures inside { audited known_inside.trace ≡ Ok (Legal 16 16) }
    ensures finished { audited acknowledges.trace ≡ Ok (Legal 26 29) }
{}

/// Reads are offered, and their bytes land.
pub fn reads_are_offered()
    ensures again { audited repeated_read.trace ≡ Ok (Legal 13 14) }
    ensures changed { audited changed_and_paused.trace ≡ Ok (Legal 18 7) }
{}

/// Receivers that are not ready, requests that are refused, and an expiry that is the last.
pub fn requests_fail()
    ensures not_ready { audited not_ready.trace ≡ Ok (Legal 14 6) }
    ensures refused { audited refusals.trace ≡ Ok (Legal 19 4) }
{}

/// A context moves while a message is under way, and the trace does not show it.
pub fn moves_do_not_show()
    ensures { audited moved.trace ≡ Ok (Legal 14 4) }
{}
