//! One step of the machine: a verb of an application, or an inner step.
#![tactic(auto)]

ghost use Rattle.std.specs.Prelude.{◌≡◌, ◌↔◌, true, false, OnOk, OnErr, IfOk};
ghost use Rattle.packetless_machine.specs.declared.steps.IdealFault.TheVariants.{NotEnabled};
ghost use Rattle.packetless_machine.specs.Legal.{is_enabled, effect, answer_of};
ghost use Rattle.packetless_machine.specs.Made.{MakesStep, may_inner};

use crate::machine::PacketlessMachine;
use crate::steps::{IdealFault, MachineStep};
use rdma_types::Answer;
use std::alloc::{AllocError, Global};

impl PacketlessMachine {
    /// Makes a step. It answers what the machine answers, and `Done` for an inner step. `given` is the local key of a
    /// region or the number of a queue pair that the step gives, and is not looked at for another verb.
    ///
    /// Errors: `NotEnabled` exactly where no case of the machine's steps holds, or `OutOfMemory`. The machine is then
    /// as it was.
    pub fn step(&mut self, alloc: Global, step: &MachineStep) -> Result<Answer, IdealFault>
        ensures enabled { OnOk result (is_enabled self.old step.now ≡ true) }
        ensures next { OnOk result (self.new ≡ effect self.old step.now) }
        ensures answer { IfOk result (λ a. a ≡ answer_of self.old step.now) }
        ensures not_enabled { (result ≡ Err NotEnabled) ↔ (is_enabled self.old step.now ≡ false) }
        ensures unchanged { OnErr result (self.new ≡ self.old) }
    {
        self.make_step(alloc, step)
    }

    fn make_step(&mut self, alloc: Global, step: &MachineStep) -> Result<Answer, IdealFault>
        ensures { MakesStep self.old self.new step.now result }
    {
        if let MachineStep::Verb { verb, given } = step {
            return self.verb(alloc, verb, *given);
        }
        if !self.may_make(step) {
            return Err(IdealFault::NotEnabled);
        }
        self.make_inner(alloc, step)?;
        Ok(Answer::Done)
    }

    /// Whether it is an inner step that may be made.
    pub fn may_make(&self, step: &MachineStep) -> bool
        ensures { result ≡ may_inner self.now step.now }
    {
        match step {
            MachineStep::Verb { .. } => false,
            MachineStep::Run { q, n } => self.may_run(q, *n),
            MachineStep::Atom { q } => self.may_atom(q),
            MachineStep::ReadTurn { q } => self.may_read(q),
            MachineStep::Refuse { q, why } => self.may_refuse(q, *why),
            MachineStep::Dry { q } => self.may_dry(q),
            MachineStep::Offer { q, i, off, n } => self.may_offer(q, *i as usize, *off, *n),
            MachineStep::Land { q, o } => self.may_land(q, *o as usize),
            MachineStep::Known { q, m } => self.may_know(q, *m),
            MachineStep::Tell { q } => self.may_tell(q),
            MachineStep::Expire { q } => self.has_untold(q),
            MachineStep::Wait { q } => self.may_wait(q),
            MachineStep::Bounce { q } => self.may_bounce(q),
        }
    }

    /// What an inner step does. Errors: `AllocError` when out of memory; nothing has changed.
    fn make_inner(&mut self, alloc: Global, step: &MachineStep) -> Result<(), AllocError>
        requires { may_inner self.old step.now ≡ true }
        ensures ok { OnOk result (self.new ≡ effect self.old step.now) }
        ensures err { OnErr result (self.new ≡ self.old) }
    {
        match step {
            MachineStep::Verb { .. } => Ok(()),
            MachineStep::Run { q, n } => self.run(alloc, q, *n),
            MachineStep::Atom { q } => self.atom(alloc, q),
            MachineStep::ReadTurn { q } => self.read_turn(q),
            MachineStep::Refuse { q, why } => self.refuse(alloc, q, *why),
            MachineStep::Dry { q } => self.dry(q),
            MachineStep::Offer { q, i, off, n } => self.offer(alloc, q, *i as usize, *off, *n),
            MachineStep::Land { q, o } => self.land(alloc, q, *o as usize),
            MachineStep::Known { q, m } => {
                self.know(q, *m);
                Ok(())
            }
            MachineStep::Tell { q } => self.tell(alloc, q),
            MachineStep::Expire { q } => self.expire(alloc, q),
            MachineStep::Wait { q } => self.wait(alloc, q),
            MachineStep::Bounce { q } => self.bounce(alloc, q),
        }
    }
}
