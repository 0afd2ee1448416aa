//! Responses at a connected end.

ghost use Rattle.std.specs.Prelude.{◌≡◌, ◌<◌, ◌≤◌, ◌^◌, All, true, false, length};
ghost use Rattle.memory_keys.specs.Regions.{AreHeld};
ghost use Rattle.roce_headers.specs.Packets.{packet};
ghost use Rattle.requester.specs.Sending.{bares, sender_of};
ghost use Rattle.requester.specs.Taking.{taken_response};
ghost use Rattle.end_completions.specs.Payloads.{AreApart};
ghost use Rattle.endpoint_core.specs.Queues.{reserved_in};
ghost use Rattle.endpoint_core.specs.Responded.{HasAnswered, HasLanded, Lands, is_useless as is_useless_answer, response_took};
ghost use Rattle.endpoint_core.specs.Sound.{IsPosted};

use crate::end::EndLink;
use crate::queues::tell_at;
use end_completions::land;
use end_queues::completion_queue::Cq;
use indexmap::IndexMap;
use memory_keys::Regions;
use page_pool::PagePool;
use rdma_types::{ArrivalEffect, DropReason, Name};
use requester::{Requester, ResponseEffect};
use roce_headers::Datagram;

/// What a response did, in the words of an end.
pub fn took_of(taken: ResponseEffect) -> ArrivalEffect
    ensures { result ≡ response_took taken }
{
    match taken {
        ResponseEffect::Acked => ArrivalEffect::Acked,
        ResponseEffect::Landed { .. } | ResponseEffect::OldLanded { .. } => ArrivalEffect::Landed,
        ResponseEffect::Rewound => ArrivalEffect::Rewound,
        ResponseEffect::Waits => ArrivalEffect::Waits,
        ResponseEffect::Ended(status) => ArrivalEffect::Ended(status),
        ResponseEffect::Useless => ArrivalEffect::Silent(DropReason::Useless),
    }
}

/// Nothing happened.
fn is_useless(taken: ResponseEffect) -> bool
    ensures { result ≡ is_useless_answer taken }
{
    matches!(taken, ResponseEffect::Useless)
}

/// Puts what lands into the place of its request.
fn land_taken(
    requester: &Requester,
    taken: ResponseEffect,
    domain: Name,
    pool: &mut PagePool,
    regions: &mut Regions,
    d: &Datagram<'_>,
)
    requires held { AreHeld pool.old regions.old }
    requires posted { All (IsPosted pool.old regions.old domain) requester.now.items }
    requires lands { Lands (bares requester.now.items) (packet d.now) taken }
    ensures landed { HasLanded (bares requester.now.items)
        (packet d.now) taken pool.old pool.new regions.old }
    ensures same { regions.new ≡ regions.old }
{
    match taken {
        ResponseEffect::Landed { index, off } => {
            let p = requester.posted(index).unwrap();
            land(regions, pool, domain, &p.request, off, d.payload);
        }
        ResponseEffect::OldLanded { index, old } => {
            let p = requester.posted(index).unwrap();
            land(regions, pool, domain, &p.request, 0, &old.to_be_bytes());
        }
        ResponseEffect::Acked
        | ResponseEffect::Rewound
        | ResponseEffect::Waits
        | ResponseEffect::Ended(_)
        | ResponseEffect::Useless => {}
    }
}

impl EndLink {
    /// Takes a response at an end that is not in Error: what lands is put in its place, and what is then acknowledged whole
    /// is told. It does not go to Error.
    pub fn respond(
        &mut self,
        number: u32,
        domain: Name,
        pool: &mut PagePool,
        regions: &mut Regions,
        queues: &mut IndexMap<Name, Cq>,
        send: u32,
        d: &Datagram<'_>,
    ) -> ResponseEffect
        requires psn { d.now.psn < 2 ^ 24 }
        requires mtu { 0 < self.old.requester.terms.mtu }
        requires held { AreHeld pool.old regions.old }
        requires posted { All (IsPosted pool.old regions.old domain) self.old.requester.items }
        requires apart { AreApart pool.old self.old.requester.items }
        requires there { send < length queues.old.entries }
        requires reserved { length self.old.requester.items ≤ reserved_in queues.old.entries send }
        ensures taken { result
            ≡ (taken_response self.old.requester.terms (sender_of self.old.requester)
            (packet d.now)).taken }
        ensures regions { regions.new ≡ regions.old }
        ensures useless_link { is_useless_answer result ≡ true → self.new ≡ self.old }
        ensures useless_pool { is_useless_answer result ≡ true → pool.new ≡ pool.old }
        ensures useless_queues { is_useless_answer result ≡ true
            → queues.new.entries ≡ queues.old.entries }
        ensures answered { is_useless_answer result ≡ false
            → HasAnswered number send (taken_response self.old.requester.terms (sender_of self.old.requester) (packet d.now)).sender (packet d.now) result self.old self.new pool.old pool.new regions.old queues.old.entries queues.new.entries }
    {
        let taken = self.requester.take_response(d);
        if is_useless(taken) {
            return taken;
        }
        land_taken(&self.requester, taken, domain, pool, regions, d);
        tell_at(queues, send, &mut self.requester, number, pool);
        taken
    }
}
