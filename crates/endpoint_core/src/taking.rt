//! What an end does with a datagram.

ghost use Rattle.std.specs.Prelude.{◌≡◌, [], false, IsSome, IfSome, IsTrue, Some};
ghost use Rattle.transport.specs.Table.{phase_of};
ghost use Rattle.protocol.specs.EndWords.{is_paused};
ghost use Rattle.protocol.specs.Requester.{takes_response};
ghost use Rattle.protocol.specs.Responder.{takes_request};
ghost use Rattle.protocol.specs.State.{Context};
ghost use Rattle.protocol.specs.Wire.{Fits, is_request as is_request_opcode};
ghost use Rattle.roce_headers.specs.Packets.{packet};
ghost use Rattle.endpoint_core.specs.declared.end.EndLink.{EndLink};
ghost use Rattle.endpoint_core.specs.Answers.{IsReply, sent_of, taken_at};
ghost use Rattle.endpoint_core.specs.Due.{WasDue};
ghost use Rattle.endpoint_core.specs.Ends.{Names, is_ended_link, link_in};
ghost use Rattle.endpoint_core.specs.Queues.{nothing};
ghost use Rattle.endpoint_core.specs.Sites.{IsHome, IsSound, Keeps, end_at, home, regions_left, site_left, site_of};

use crate::answers::{EndEffect, EndReply};
use crate::end::Endpoint;
use crate::memory::EndMemory;
use crate::moving::control_of;
use crate::responding::took_of;
use crate::serving::answer_of;
use rdma_types::{ArrivalEffect, DropReason, WcStatus};
use requester::ResponseEffect;
use responder::Reply;
use roce_headers::Datagram;
use roce_headers::opcodes::is_request;

impl Endpoint {
    /// Takes a datagram of the grammar: a message of moving, a request or a response.
    pub fn take(&mut self, memory: EndMemory<'_>, d: &Datagram<'_>) -> EndEffect
        requires connected { IsSome self.old.link }
        requires fits { Fits (packet d.now) }
        requires sound { IsSound (site_of memory self.old) nothing }
        ensures step { (c : Context) (names : Names) → IsHome c names (site_of memory.entry self.old)
            → (taken_at c (end_at names (site_of memory.entry self.old)) (end_at names (site_of memory.entry self.old)).link (packet d.now)).context
            ≡ home c names (site_left memory.exit self.new) }
        ensures took { (c : Context) (names : Names) → IsHome c names (site_of memory.entry self.old)
            → (taken_at c (end_at names (site_of memory.entry self.old)) (end_at names (site_of memory.entry self.old)).link (packet d.now)).took ≡ result.took }
        ensures sent { (c : Context) (names : Names) → IsHome c names (site_of memory.entry self.old)
            → (taken_at c (end_at names (site_of memory.entry self.old)) (end_at names (site_of memory.entry self.old)).link (packet d.now)).sent
            ≡ sent_of (site_left memory.exit self.new) result.reply }
        ensures reply { IfSome self.new.link (λ l. IsReply
            (regions_left memory.exit) l result.reply) }
        ensures due { (l : EndLink) → self.old.link ≡ Some l
            → WasDue (site_of memory.entry self.old) (site_left memory.exit self.new) l (packet d.now) result.reply }
        ensures sound { IsSound (site_left memory.exit self.new) nothing }
        ensures keeps { Keeps (site_of memory.entry self.old)
            (site_left memory.exit self.new) [] nothing }
    {
        let Some(link) = &mut self.link else {
            unreachable!()
        };
        if link.ended {
            return silent(DropReason::Ended);
        }
        if let Some(control) = control_of(d) {
            return link.take_control(control);
        }
        if !is_request(d.opcode) {
            let took = self.take_response(memory, d);
            let reply = EndReply::Nothing;
            return EndEffect { took, reply };
        }
        if link.is_paused() {
            return silent(DropReason::Paused);
        }
        self.take_request(memory, d)
    }

    /// Takes a response at an end that is not in Error.
    fn take_response(&mut self, memory: EndMemory<'_>, d: &Datagram<'_>) -> ArrivalEffect
        requires connected { IsSome self.old.link }
        requires running { is_ended_link self.old.link ≡ false }
        requires fits { Fits (packet d.now) }
        requires sound { IsSound (site_of memory self.old) nothing }
        ensures step { (c : Context) (names : Names) (l : EndLink) → IsHome c names (site_of memory.entry self.old) → self.old.link ≡ Some l
            → takes_response c (end_at names (site_of memory.entry self.old)) (link_in memory.entry.pool.now l) (packet d.now)
            ≡ record {
              context = home c names (site_left memory.exit self.new);
              took = result;
              sent = [];
            } }
        ensures sound { IsSound (site_left memory.exit self.new) nothing }
        ensures keeps { Keeps (site_of memory.entry self.old)
            (site_left memory.exit self.new) [] nothing }
    {
        let EndMemory {
            pool,
            regions,
            queues,
            send,
            recv,
        } = memory;
        let (number, domain) = (self.number, self.domain);
        let Some(link) = &mut self.link else {
            unreachable!()
        };
        let taken = link.respond(
            number,
            domain,
            &mut *pool,
            &mut *regions,
            &mut *queues,
            send,
            d,
        );
        if let ResponseEffect::Ended(status) = taken {
            let memory = EndMemory {
                pool: &mut *pool,
                regions: &mut *regions,
                queues: &mut *queues,
                send,
                recv,
            };
            self.fail(status, memory);
            return ArrivalEffect::Ended(status);
        }
        took_of(taken)
    }

    /// Takes a request at an end that is neither Paused nor in Error.
    fn take_request(&mut self, memory: EndMemory<'_>, d: &Datagram<'_>) -> EndEffect
        requires connected { IsSome self.old.link }
        requires running { is_ended_link self.old.link ≡ false }
        requires fits { Fits (packet d.now) }
        requires request { IsTrue (is_request_opcode d.now.opcode) }
        requires sound { IsSound (site_of memory self.old) nothing }
        ensures step { (c : Context) (names : Names) (l : EndLink) → IsHome c names (site_of memory.entry self.old) → self.old.link ≡ Some l
            → takes_request c (end_at names (site_of memory.entry self.old)) (link_in memory.entry.pool.now l) (packet d.now)
            ≡ record {
              context = home c names (site_left memory.exit self.new);
              took = result.took;
              sent = sent_of (site_left memory.exit self.new) result.reply;
            } }
        ensures reply { IfSome self.new.link (λ l. IsReply
            (regions_left memory.exit) l result.reply) }
        ensures due { (l : EndLink) → self.old.link ≡ Some l → is_paused (phase_of l.moves.phase) ≡ false
            → WasDue (site_of memory.entry self.old) (site_left memory.exit self.new) l (packet d.now) result.reply }
        ensures sound { IsSound (site_left memory.exit self.new) nothing }
        ensures keeps { Keeps (site_of memory.entry self.old)
            (site_left memory.exit self.new) [] nothing }
    {
        let EndMemory {
            pool,
            regions,
            queues,
            send,
            recv,
        } = memory;
        let (number, domain) = (self.number, self.domain);
        let Some(link) = &mut self.link else {
            unreachable!()
        };
        let before = link.expected();
        let reply = link.serve(
            &mut self.recvs,
            number,
            domain,
            &mut *pool,
            &mut *regions,
            &mut *queues,
            recv,
            d,
        );
        let after = link.expected();
        if let Reply::Refused(_) = reply {
            let memory = EndMemory {
                pool: &mut *pool,
                regions: &mut *regions,
                queues: &mut *queues,
                send,
                recv,
            };
            self.fail(WcStatus::Flush, memory);
            return answer_of(reply, before, after);
        }
        answer_of(reply, before, after)
    }
}

/// Nothing happened, and nothing is answered.
fn silent(why: DropReason) -> EndEffect
    ensures { result ≡ record { took = ArrivalEffect.Silent why; reply = EndReply.Nothing } }
{
    EndEffect {
        took: ArrivalEffect::Silent(why),
        reply: EndReply::Nothing,
    }
}
