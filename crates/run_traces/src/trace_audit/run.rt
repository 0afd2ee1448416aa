//! A machine that goes with the lines of a trace.

ghost use Rattle.std.specs.Prelude.{◌≡◌, ◌≤◌, ◌<◌, ◌+◌, ◌^◌, ◌++◌, ◌∷◌, [], ℕ, Some, IfOk, bytes_eq, length};
ghost use Rattle.packetless_machine.specs.Machine.{empty};
ghost use Rattle.run_traces.specs.Auditing as rules;
ghost use Rattle.run_traces.specs.Auditing.{Goes, counted, course_from, first_heard, heard, made};

use crate::trace_audit::answers::{given_by, is_line};
use crate::trace_audit::verdicts::AuditWhy;
use packetless_machine::{IdealFault, MachineStep, PacketlessMachine};
use rdma_types::{Answer, Verb};
use script_lang::print_answer;
use std::alloc::{AllocError, Global};
use std::marker::Model;

/// A machine that went with the lines so far: how many verbs were answered and inner steps made, and the text of the
/// machine's last answer, with how much of it came.
#[derive(Drop)]
pub struct Run {
    machine: PacketlessMachine,
    pub verbs: u64,
    pub inner: u64,
    answer: Vec<u8>,
    at: usize,
}

impl Model for Run {
    ghost use Rattle.std.specs.Prelude.{◌≤◌, drop, length};
    ghost use Rattle.run_traces.specs.Auditing.{Run as RunRecord};

    ghost Value = { RunRecord };

    ghost view = { λ r. record { machine = r.machine; verbs = r.verbs; inner = r.inner; rest = drop r.at r.answer.items } };

    ghost invariant = { λ r. r.at ≤ length r.answer.items };
}

/// What is wrong where the machine may not give what an answer says.
fn not_given(given: Option<u32>) -> AuditWhy
    ensures { result ≡ rules.not_given given }
{
    match given {
        Some(_) => AuditWhy::Step,
        None => AuditWhy::Answer,
    }
}

/// Whether a key or number is said, or the answer is a refusal, which gives none.
fn is_said(given: Option<u32>, answer: &Answer) -> bool
    ensures { result ≡ rules.is_said given answer.now }
{
    given.is_some() || matches!(answer, Answer::Refused(_))
}

impl Run {
    /// A machine in which nothing was made.
    pub fn begin(alloc: Global) -> Run
        ensures { result ≡ record { machine = empty; verbs = 0; inner = 0; rest = [] } }
    {
        Run {
            machine: PacketlessMachine::make(alloc),
            verbs: 0,
            inner: 0,
            answer: Vec::new(alloc),
            at: 0,
        }
    }

    /// Makes an inner step, or says why it can not. Errors: `AllocError` when out of memory.
    pub fn make(
        &mut self,
        alloc: Global,
        step: &MachineStep,
    ) -> Result<Option<AuditWhy>, AllocError>
        requires { self.old.inner + 1 < 2 ^ 64 }
        ensures { (k : ℕ) → IfOk result (λ fault. course_from self.new k fault
            ≡ made (Goes self.old) k step.now) }
    {
        match self.machine.step(alloc, step) {
            Ok(_) => {
                self.inner += 1;
                Ok(None)
            }
            Err(IdealFault::NotEnabled) => Ok(Some(AuditWhy::Step)),
            Err(IdealFault::OutOfMemory) => Err(AllocError),
        }
    }

    /// Takes the next line of the machine's answer, or says why that is another.
    pub fn hear(&mut self, text: &[u8]) -> Option<AuditWhy>
        ensures { (k : ℕ) → course_from self.new k result ≡ heard self.old k text.now }
    {
        let end = self.at + text.len() + 1;
        if end > self.answer.len() {
            return Some(AuditWhy::Answer);
        }
        if !is_line(&self.answer[self.at..end], text) {
            return Some(AuditWhy::Answer);
        }
        self.at = end;
        None
    }

    /// Asks the machine for a verb whose answer begins with this line, and takes that line, or says why it is wrong.
    /// Errors: `AllocError` when out of memory.
    pub fn hear_first(
        &mut self,
        alloc: Global,
        verb: Verb,
        text: &[u8],
        said: &Answer,
    ) -> Result<Option<AuditWhy>, AllocError>
        ensures { (k : ℕ) → IfOk result (λ fault. course_from self.new k fault
            ≡ first_heard self.old verb k text.now (Some said.now)) }
    {
        let given = given_by(&verb, said);
        let step = MachineStep::Verb {
            verb,
            given: given.unwrap_or(0),
        };
        let answer = match self.machine.step(alloc, &step) {
            Ok(answer) => answer,
            Err(IdealFault::NotEnabled) => return Ok(Some(not_given(given))),
            Err(IdealFault::OutOfMemory) => return Err(AllocError),
        };
        if !is_said(given, &answer) {
            return Ok(Some(AuditWhy::Answer));
        }
        self.answer.clear();
        self.at = 0;
        print_answer(&answer, &mut self.answer)?;
        Ok(self.hear(text))
    }

    /// Counts a verb, if the whole answer of the machine came, or says why not.
    pub fn count(&mut self) -> Option<AuditWhy>
        requires { self.old.verbs + 1 < 2 ^ 64 }
        ensures { (k : ℕ) → course_from self.new k result ≡ counted self.old k }
    {
        if self.at < self.answer.len() {
            return Some(AuditWhy::Answer);
        }
        self.verbs += 1;
        None
    }
}
