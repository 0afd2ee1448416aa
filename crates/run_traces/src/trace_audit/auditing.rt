//! The audit of a trace, line after line.

ghost use Rattle.std.specs.Prelude.{◌≡◌, ◌≤◌, ◌<◌, ◌+◌, ◌^◌, ◌∷◌, [], Some, Err, OnOk, IfSome, IfNone, IfErr, length, option_map};
ghost use Rattle.std.specs.List.{position, slice_split};
ghost use Rattle.script_lang.specs.Scripts.{is_newline};
ghost use Rattle.script_lang.specs.Words.{offence};
ghost use Rattle.run_traces.specs.Auditing as rules;
ghost use Rattle.run_traces.specs.Answers.{answer_of_line};
ghost use Rattle.run_traces.specs.Auditing.{AreCounted, ComesOf, Finds, Next, begun, finding_of, line_outcome, verdict_so_far};
ghost use Rattle.run_traces.specs.Traces as traces;
ghost use Rattle.run_traces.specs.Verdicts.{Audits};

use crate::trace_audit::answers::answer_of;
use crate::trace_audit::due::Due;
use crate::trace_audit::lines::TraceLine;
use crate::trace_audit::reading::read_trace_line;
use crate::trace_audit::run::Run;
use crate::trace_audit::verdicts::{AuditFault, AuditWhy, Verdict};
use packetless_machine::MachineStep;
use script_lang::{LineFault, LineWhy};
use std::alloc::{AllocError, Global};
use std::marker::Model;
use std::mem;

/// What may stand next, and how the lines so far went: a run of the machine, or the number of the line that is of none,
/// and why.
#[derive(Drop)]
struct Auditor {
    due: Due,
    run: Run,
    fails: Option<(u64, AuditWhy)>,
}

impl Model for Auditor {
    ghost use Rattle.run_traces.specs.Auditing.{Audit as AuditRecord, course_of};

    ghost Value = { AuditRecord };

    ghost view = { λ a. record { due = a.due; course = course_of a.run a.fails } };
}

/// The line of that number is bad.
fn bad(line: u64, column: usize, why: LineWhy) -> AuditFault
    ensures { result ≡ AuditFault.BadLine line column why }
{
    AuditFault::BadLine { line, column, why }
}

/// What is wrong on the line of that number, if anything is.
fn placed(number: u64, fault: Option<AuditWhy>) -> Option<(u64, AuditWhy)>
    ensures { result ≡ option_map (λ why. (number, why)) fault }
{
    Some((number, fault?))
}

/// The text of an answer's line: what stands behind `=` and a space.
#[tactic(auto, unfolding(crate::specs::Traces::answer_text))]
fn answer_text(line: &[u8]) -> Option<&[u8]>
    ensures { option_map (λ t. t.now) result ≡ traces.answer_text line.now }
{
    match line {
        [b'=', b' ', text @ ..] => Some(text),
        _ => None,
    }
}

/// The place of the first newline.
fn newline_in(text: &[u8]) -> Option<usize>
    ensures { result ≡ position is_newline text.now }
{
    text.iter().position(|b| *b == b'\n')
}

/// The first line of a text, and the text behind its newline.
#[tactic(auto, using(crate::proofs::Cutting::cut_at, crate::proofs::Cutting::uncut, crate::proofs::Cutting::within))]
fn first_line(text: &[u8]) -> Option<(&[u8], &[u8])>
    ensures cut { IfSome result (λ p. slice_split is_newline text.now
        ≡ p.0.now ∷ slice_split is_newline p.1.now) }
    ensures shorter { IfSome result (λ p. length p.1.now + 1 ≤ length text.now) }
    ensures uncut { IfNone result (slice_split is_newline text.now ≡ text.now ∷ []) }
{
    let end = newline_in(text)?;
    Some((&text[..end], &text[end + 1..]))
}

/// A trace that has no `end` before its last newline is bad at the line of that number, which has these bytes.
fn unfinished(alloc: Global, owed: bool, number: u64, last: &[u8]) -> AuditFault
    ensures { Finds (Err result) (Err (traces.unfinished owed number last.now)) }
{
    if owed {
        return bad(number, 1, LineWhy::Word);
    }
    if last.is_empty() {
        return bad(number, 1, LineWhy::Missing);
    }
    match read_trace_line(alloc, last) {
        Ok(_) => {}
        Err(LineFault::Bad { column, why }) => return bad(number, column, why),
        Err(LineFault::OutOfMemory) => return AuditFault::OutOfMemory,
    }
    bad(number, last.len() + 1, LineWhy::Missing)
}

impl Auditor {
    fn begin(alloc: Global) -> Auditor
        ensures { result ≡ begun }
    {
        Auditor {
            due: Due::Nothing,
            run: Run::begin(alloc),
            fails: None,
        }
    }

    /// The verdict, where nothing follows.
    fn verdict(&self) -> Verdict
        ensures { result ≡ verdict_so_far self.now.course }
    {
        match self.fails {
            None => Verdict::Legal {
                verbs: self.run.verbs,
                inner: self.run.inner,
            },
            Some((line, why)) => Verdict::Illegal { line, why },
        }
    }

    /// Whether a verb wants its answer.
    fn is_owed(&self) -> bool
        ensures { result ≡ rules.wants_answer self.now.due }
    {
        matches!(self.due, Due::Answer(_))
    }

    /// An answer is over before the line of that number.
    fn end_answer(&mut self, number: u64)
        requires counted { AreCounted self.old.course number }
        requires small { number + 1 < 2 ^ 64 }
        ensures { self.new
            ≡ record self.old { course = rules.over self.old.due self.old.course number } }
    {
        if self.fails.is_none() && matches!(self.due, Due::Rest) {
            self.fails = placed(number, self.run.count());
        }
    }

    /// An inner step is made on the line of that number. Errors: `AllocError` when out of memory.
    fn make(&mut self, alloc: Global, number: u64, step: &MachineStep) -> Result<(), AllocError>
        requires counted { AreCounted self.old.course (number + 1) }
        requires small { number + 2 < 2 ^ 64 }
        ensures { OnOk result (self.new
            ≡ record self.old { course = rules.made self.old.course number step.now }) }
    {
        if self.fails.is_none() {
            self.fails = placed(number, self.run.make(alloc, step)?);
        }
        Ok(())
    }

    /// A line of an answer, whose text stands behind its mark. Errors: `BadLine` where it is an answer to no verb, or
    /// `OutOfMemory`.
    fn answer(&mut self, alloc: Global, number: u64, text: &[u8]) -> Result<(), AuditFault>
        ensures next { OnOk result (rules.answer_line self.old number text.now
            (answer_of_line text.now) ≡ Next self.new) }
        ensures bad { IfErr result (λ e. ComesOf (Err e) self.new number
            (rules.answer_line self.old number text.now (answer_of_line text.now))) }
    {
        let Some(said) = answer_of(alloc, text)? else {
            return Err(bad(number, 1, LineWhy::Word));
        };
        let due = mem::replace(&mut self.due, Due::Rest);
        if self.fails.is_some() {
            return Ok(());
        }
        let fault = match due {
            Due::Nothing => None,
            Due::Answer(verb) => self.run.hear_first(alloc, verb, text, &said)?,
            Due::Rest => self.run.hear(text),
        };
        self.fails = placed(number, fault);
        Ok(())
    }

    /// A line that is no line of an answer. It answers whether it is the last one.
    fn other(&mut self, alloc: Global, number: u64, line: &[u8]) -> Result<bool, AuditFault>
        requires counted { AreCounted self.old.course number }
        requires small { number + 2 < 2 ^ 64 }
        ensures { ComesOf result self.new number (rules.other_line self.old number line.now) }
    {
        if self.is_owed() {
            return Err(bad(number, 1, LineWhy::Word));
        }
        self.end_answer(number);
        match read_trace_line(alloc, line) {
            Ok(TraceLine::Verb(verb)) => self.due = Due::Answer(verb),
            Ok(TraceLine::Step(step)) => {
                self.due = Due::Nothing;
                self.make(alloc, number, &step)?;
            }
            Ok(TraceLine::End) => return Ok(true),
            Err(LineFault::Bad { column, why }) => return Err(bad(number, column, why)),
            Err(LineFault::OutOfMemory) => return Err(AuditFault::OutOfMemory),
        }
        Ok(false)
    }

    /// Any line. It answers whether it is the last one.
    #[tactic(auto, unfolding(crate::specs::Auditing::line_outcome))]
    fn take_line(&mut self, alloc: Global, number: u64, line: &[u8]) -> Result<bool, AuditFault>
        requires counted { AreCounted self.old.course number }
        requires small { number + 2 < 2 ^ 64 }
        ensures { ComesOf result self.new number (line_outcome self.old number line.now) }
    {
        if !matches!(self.due, Due::Nothing)
            && let Some(text) = answer_text(line)
        {
            self.answer(alloc, number, text)?;
            return Ok(false);
        }
        self.other(alloc, number, line)
    }

    /// The line of that number is `end`. Errors: `BadLine` where anything follows.
    fn close(&self, number: u64, behind: &[u8]) -> Result<Verdict, AuditFault>
        requires { number + 1 < 2 ^ 64 }
        ensures { Finds result (rules.closing number self.now.course
            (slice_split is_newline behind.now)) }
    {
        if behind.is_empty() {
            Ok(self.verdict())
        } else {
            Err(bad(number + 1, 1, LineWhy::Extra))
        }
    }
}

/// What an audit finds, by a machine that is stepped line after line.
fn find(alloc: Global, trace: &[u8]) -> Result<Verdict, AuditFault>
    ensures { Finds result (finding_of trace.now) }
{
    let mut audit = Auditor::begin(alloc);
    let mut rest = trace;
    let mut number = 1u64;
    while let Some((line, behind)) = first_line(rest) {
        if audit.take_line(alloc, number, line)? {
            return audit.close(number, behind);
        }
        rest = behind;
        number += 1;
    }
    Err(unfinished(alloc, audit.is_owed(), number, rest))
}

/// Audits a trace: whether its verbs, their answers and its inner steps are a run of the packetless machine. It takes
/// time in proportion to the trace beside the machine's steps, and keeps no line that it has read.
///
/// # Errors
///
/// `BadLine` with the first line that is in no form, also where an earlier line is of no run; or `OutOfMemory`.
pub fn audit(alloc: Global, trace: &[u8]) -> Result<Verdict, AuditFault>
    ensures { Audits trace.now result }
{
    find(alloc, trace)
}
