//! Verbs: a refusal, or what the verb does and its answer.
#![tactic(auto, unfolding(rdma_types::specs::Causes::first_cause, crate::specs::Verbs::lacks_domain, crate::specs::Verbs::lacks_queue))]

ghost use Rattle.std.specs.Prelude.{◌≡◌, ◌+◌, ◌-◌, ◌<◌, ◌^◌, None, true, false, take, IfOk, OnOk, OnErr};
ghost use Rattle.rdma_types.specs.Memory.{holds, cut};
ghost use Rattle.packetless_machine.specs.Machine.{queue_of};
ghost use Rattle.packetless_machine.specs.Made.{MakesVerb};
ghost use Rattle.packetless_machine.specs.Verbs.{refusal_of, may_give, granted_answer, done, region_of, has_queue, lacks_domain, lacks_queue, word_or_none, made_region, made_end};

use crate::machine::PacketlessMachine;
use crate::region::Region;
use crate::steps::IdealFault;
use crate::verbs::is_fresh;
use rdma_types::{Answer, Items, Keys, Name, ObjName, Refusal, Rights, Verb};
use std::alloc::{AllocError, Global};

impl PacketlessMachine {
    pub(crate) fn verb(
        &mut self,
        alloc: Global,
        verb: &Verb,
        given: u32,
    ) -> Result<Answer, IdealFault>
        ensures { MakesVerb self.old self.new verb.now given result }
    {
        if let Some(why) = self.refusal(verb) {
            return Ok(Answer::Refused(why));
        }
        if !self.may_give(verb, given) {
            return Err(IdealFault::NotEnabled);
        }
        let answer = self.granted_answer(alloc, verb, given)?;
        self.carry_out(alloc, verb, given)?;
        Ok(answer)
    }

    /// Why the verb is refused, if it is.
    #[tactic(auto)]
    fn refusal(&self, verb: &Verb) -> Option<Refusal>
        ensures { result ≡ refusal_of self.now verb.now }
    {
        match verb {
            Verb::Context { name, made } => self.refuse_context(*name, *made),
            Verb::Connect { one, two, terms } => self.refuse_connect(one, two, terms),
            Verb::MakeDomain { name } => self.refuse_domain(name),
            Verb::MakeRegion {
                name,
                domain,
                base,
                length,
                rights,
            } => self.refuse_region(name, domain, *base, *length, *rights),
            Verb::MakeCq { name, capacity } => self.refuse_cq(name, *capacity),
            Verb::MakeQp {
                name,
                domain,
                send_cq,
                recv_cq,
                send_depth,
                recv_depth,
            } => self.refuse_qp(name, domain, send_cq, recv_cq, (*send_depth, *recv_depth)),
            Verb::DropRegion { name } => self.refuse_drop(name),
            Verb::Store { region, at, bytes } => self.refuse_store(region, *at, bytes),
            Verb::Load { region, at, length } => self.refuse_load(region, *at, *length),
            Verb::PostSend { end, request } => self.refuse_send(end, request),
            Verb::PostRecv { end, receive } => self.refuse_receive(end, receive),
            Verb::Poll { cq, max } => self.refuse_poll(cq, *max),
        }
    }

    /// The key or number may be given.
    #[tactic(auto)]
    fn may_give(&self, verb: &Verb, given: u32) -> bool
        ensures { result ≡ may_give self.now verb.now given }
    {
        match verb {
            Verb::MakeRegion { .. } => given % 2 == 0 && is_fresh(&self.keys, given),
            Verb::MakeQp { .. } => is_fresh(&self.numbers, given),
            _ => true,
        }
    }

    /// The answer to a verb that is not refused. Errors: `AllocError` when out of memory.
    fn granted_answer(&self, alloc: Global, verb: &Verb, given: u32) -> Result<Answer, AllocError>
        requires granted { refusal_of self.now verb.now ≡ None }
        requires free { may_give self.now verb.now given ≡ true }
        ensures { IfOk result (λ a. a ≡ granted_answer self.now verb.now given) }
    {
        match verb {
            Verb::MakeRegion { .. } => Ok(Answer::Region(Keys {
                local: given,
                remote: given + 1,
            })),
            Verb::MakeQp { .. } => Ok(Answer::Qp(given)),
            Verb::Load { region, at, length } => self.loaded(alloc, region, *at, *length),
            Verb::Poll { cq, max } => self.oldest_of(alloc, cq, *max),
            _ => Ok(Answer::Done),
        }
    }

    fn loaded(
        &self,
        alloc: Global,
        region: &ObjName,
        at: u64,
        length: u32,
    ) -> Result<Answer, AllocError>
        requires { holds (region_of self.now region.now) at length ≡ true }
        ensures { IfOk result (λ a. a ≡ Answer.Bytes
            (cut (at - (region_of self.now region.now).base) length
            (region_of self.now region.now).bytes)) }
    {
        let bytes = self.load(alloc, region, at, length)?;
        Ok(Answer::Bytes(Items::new(bytes)))
    }

    fn oldest_of(&self, alloc: Global, cq: &ObjName, max: u32) -> Result<Answer, AllocError>
        requires { has_queue self.now cq.now.context cq.now.name ≡ true }
        ensures { IfOk result (λ a. a ≡ Answer.Polled
            (take max (queue_of self.now cq.now.context cq.now.name).entries)) }
    {
        let entries = self.oldest_entries(alloc, cq, max)?;
        Ok(Answer::Polled(Items::new(entries)))
    }

    /// What a verb does that is not refused. Errors: `AllocError` when out of memory; nothing has changed.
    fn carry_out(&mut self, alloc: Global, verb: &Verb, given: u32) -> Result<(), AllocError>
        requires granted { refusal_of self.old verb.now ≡ None }
        requires free { may_give self.old verb.now given ≡ true }
        ensures ok { OnOk result (self.new ≡ done self.old verb.now given) }
        ensures err { OnErr result (self.new ≡ self.old) }
    {
        match verb {
            Verb::Context { name, .. } => self.add_context(alloc, *name),
            Verb::Connect { one, two, terms } => {
                self.connect(one, two, terms);
                Ok(())
            }
            Verb::MakeDomain { name } => self.add_domain(name),
            Verb::MakeRegion {
                name,
                domain,
                base,
                length,
                rights,
            } => { self.make_region(alloc, name, domain, *base, *length, *rights, given) }
            Verb::MakeCq { name, capacity } => self.add_queue(alloc, name, *capacity),
            Verb::MakeQp {
                name,
                domain,
                send_cq,
                recv_cq,
                send_depth,
                recv_depth,
            } => self.make_end(
                alloc,
                name,
                domain,
                send_cq,
                recv_cq,
                (*send_depth, *recv_depth),
                given,
            ),
            Verb::DropRegion { name } => {
                self.drop_region(name);
                Ok(())
            }
            Verb::Store { region, at, bytes } => {
                self.store(region, *at, bytes.as_slice());
                Ok(())
            }
            Verb::Load { .. } => Ok(()),
            Verb::PostSend { end, request } => self.post_send(alloc, end, request),
            Verb::PostRecv { end, receive } => self.post_receive(end, receive),
            Verb::Poll { cq, max } => self.poll(alloc, cq, *max),
        }
    }

    #[tactic(auto, unfolding(crate::specs::Verbs::lacks_domain, crate::specs::Verbs::made_region))]
    fn make_region(
        &mut self,
        alloc: Global,
        name: &ObjName,
        domain: &Option<Name>,
        base: u64,
        count: u32,
        rights: Rights,
        given: u32,
    ) -> Result<(), AllocError>
        requires domain { lacks_domain self.old name.now.context domain.now ≡ false }
        requires small { given + 1 < 2 ^ 32 }
        ensures ok { OnOk result (self.new ≡ made_region self.old name.now
            (word_or_none domain.now) base count rights given) }
        ensures err { OnErr result (self.new ≡ self.old) }
    {
        let Some(domain) = domain else {
            return Ok(());
        };
        let region = Region::make(alloc, name.name, *domain, base, count, rights, given)?;
        self.add_region(alloc, name.context, region, given)
    }

    #[tactic(auto, unfolding(crate::specs::Verbs::lacks_domain, crate::specs::Verbs::lacks_queue))]
    fn make_end(
        &mut self,
        alloc: Global,
        name: &ObjName,
        domain: &Option<Name>,
        send: &Option<Name>,
        receive: &Option<Name>,
        depths: (u32, u32),
        given: u32,
    ) -> Result<(), AllocError>
        requires domain { lacks_domain self.old name.now.context domain.now ≡ false }
        requires send { lacks_queue self.old name.now.context send.now ≡ false }
        requires receive { lacks_queue self.old name.now.context receive.now ≡ false }
        ensures ok { OnOk result (self.new ≡ made_end self.old name.now (word_or_none domain.now)
            (word_or_none send.now) (word_or_none receive.now) depths.0 depths.1 given) }
        ensures err { OnErr result (self.new ≡ self.old) }
    {
        let Some(domain) = domain else {
            return Ok(());
        };
        let Some(send) = send else {
            return Ok(());
        };
        let Some(receive) = receive else {
            return Ok(());
        };
        self.add_end(alloc, name, given, *domain, (*send, *receive), depths)
    }
}
