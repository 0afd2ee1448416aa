//! Requests at a connected end.

ghost use Rattle.std.specs.Prelude.{◌≡◌, ◌<◌, ◌≤◌, ◌+◌, IsTrue, length};
ghost use Rattle.memory_keys.specs.Regions.{AreHeld, regions_of};
ghost use Rattle.protocol.specs.Responder.{nak_code as nak_number};
ghost use Rattle.protocol.specs.Wire.{Fits, is_request};
ghost use Rattle.roce_headers.specs.Packets.{packet};
ghost use Rattle.responder.specs.Receiving.{waiting};
ghost use Rattle.responder.specs.Sound.{IsSound as IsServing};
ghost use Rattle.responder.specs.Taken.{IsRead};
ghost use Rattle.responder.specs.Taking.{taken_request};
ghost use Rattle.endpoint_core.specs.Queues.{reserved_in};
ghost use Rattle.endpoint_core.specs.Served.{HasServed, request_answer};

use crate::answers::{EndEffect, EndReply};
use crate::end::EndLink;
use end_queues::completion_queue::Cq;
use end_queues::work_queues::RecvQueue;
use indexmap::IndexMap;
use memory_keys::Regions;
use page_pool::PagePool;
use rdma_types::{ArrivalEffect, Name};
use responder::{RefusalReason, Reply};
use roce_headers::{Datagram, Syndrome};

/// The NAK code of a refusal.
fn nak_code(why: RefusalReason) -> u8
    ensures { result ≡ nak_number why }
{
    match why {
        RefusalReason::Invalid | RefusalReason::Length => 1,
        RefusalReason::Access => 2,
    }
}

/// A row of the responder's, and the acknowledge or NAK that is due.
fn acknowledged(took: ArrivalEffect, number: u64, syndrome: Syndrome) -> EndEffect
    ensures { result ≡ record { took = took; reply = EndReply.Acknowledge number syndrome } }
{
    let reply = EndReply::Acknowledge { number, syndrome };
    EndEffect { took, reply }
}

/// A row of the responder's, and another reply.
fn replied(took: ArrivalEffect, reply: EndReply) -> EndEffect
    ensures { result ≡ record { took = took; reply = reply } }
{
    EndEffect { took, reply }
}

/// What a request is answered, from the responder's answer and from the expected numbers before and after it.
pub fn answer_of(reply: Reply, before: u64, after: u64) -> EndEffect
    ensures { result ≡ request_answer reply before after }
{
    match reply {
        Reply::Acted => replied(ArrivalEffect::Acted, EndReply::Nothing),
        Reply::Ack => acknowledged(ArrivalEffect::Ack, after.saturating_sub(1), Syndrome::Ack),
        Reply::ReadBytes {
            spot,
            first,
            pieces,
        } => {
            let bytes = EndReply::ReadBytes {
                spot,
                first,
                pieces,
            };
            replied(ArrivalEffect::Bytes, bytes)
        }
        Reply::AtomicOld { number, old } => replied(
            ArrivalEffect::Old,
            EndReply::Old { number, old },
        ),
        Reply::SequenceNak => acknowledged(ArrivalEffect::SeqNak, before, Syndrome::Nak(0)),
        Reply::NotReady => acknowledged(ArrivalEffect::NotReady, before, Syndrome::Rnr),
        Reply::Refused(why) => {
            acknowledged(
                ArrivalEffect::Refused(why),
                before,
                Syndrome::Nak(nak_code(why)),
            )
        }
        Reply::DupAck => acknowledged(
            ArrivalEffect::DupAck,
            before.saturating_sub(1),
            Syndrome::Ack,
        ),
        Reply::Silent(why) => replied(ArrivalEffect::Silent(why), EndReply::Nothing),
    }
}

impl EndLink {
    /// The number of the next request packet to execute.
    pub fn expected(&self) -> u64
        ensures { result ≡ self.now.responder.receiver.expected }
    {
        self.responder.parts().expected
    }

    /// Takes a request at an end that is neither Paused nor in Error. It does not go to Error.
    pub fn serve(
        &mut self,
        recvs: &mut RecvQueue,
        number: u32,
        domain: Name,
        pool: &mut PagePool,
        regions: &mut Regions,
        queues: &mut IndexMap<Name, Cq>,
        recv: u32,
        d: &Datagram<'_>,
    ) -> Reply
        requires fits { Fits (packet d.now) }
        requires request { IsTrue (is_request d.now.opcode) }
        requires held { AreHeld pool.old regions.old }
        requires serving { IsServing regions.old domain self.old.responder recvs.old.items }
        requires there { recv < length queues.old.entries }
        requires reserved { waiting self.old.responder.receiver recvs.old.items
            ≤ reserved_in queues.old.entries recv }
        ensures reply { result
            ≡ (taken_request self.old.responder.terms domain number self.old.responder.receiver
            (regions_of pool.old regions.old) recvs.old.items (packet d.now)).reply }
        ensures regions { regions.new ≡ regions.old }
        ensures read { IsRead regions.new self.old.responder.terms.mtu result }
        ensures served { HasServed recv domain
            (taken_request self.old.responder.terms domain number self.old.responder.receiver
            (regions_of pool.old regions.old) recvs.old.items (packet d.now)) self.old self.new
            recvs.old recvs.new pool.old pool.new regions.old queues.old.entries
            queues.new.entries }
    {
        let cq = queues.get_index_mut(recv as usize).unwrap();
        self.responder
            .take_request(pool, regions, domain, recvs, cq, number, d)
    }
}
