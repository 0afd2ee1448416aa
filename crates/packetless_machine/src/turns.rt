//! Inner steps at the peer: the current request of an end has its turn there.
#![tactic(auto, unfolding(crate::specs::Steps::has_peer, crate::specs::Steps::has_turn, crate::specs::Steps::has_current, crate::specs::Steps::right_for, crate::specs::Steps::is_granted_there, crate::specs::Steps::is_request_granted, crate::specs::Steps::fits, crate::specs::Steps::overflows, crate::specs::Steps::may_run_kind, crate::specs::Steps::may_run, crate::specs::Steps::may_atom, crate::specs::Steps::may_read, crate::specs::Steps::may_refuse_for, crate::specs::Steps::may_refuse, crate::specs::Steps::may_dry_kind, crate::specs::Steps::may_dry, crate::specs::Steps::is_read_part, crate::specs::Steps::may_offer))]

ghost use Rattle.std.specs.Prelude.{◌≡◌, ◌<◌, ◌≤◌, ◌+◌, length, IfSome, IfNone, true, false};
ghost use Rattle.rdma_types.specs.Kinds.{kind_of, size_of};
ghost use Rattle.rdma_types.specs.Memory.{is_granted, remote_key};
ghost use Rattle.packetless_machine.specs.Machine.{end_of, context_of, posted_at};
ghost use Rattle.packetless_machine.specs.Steps.{peer_of, has_peer, has_current, current, right_for, is_misaligned, fits, overflows, may_run, may_atom, may_read, may_refuse, may_dry, may_offer, is_read_part};

use crate::context::Context;
use crate::end::End;
use crate::kinds::{is_atomic, is_read, is_send, need_of};
use crate::machine::PacketlessMachine;
use crate::posted::IdealRequest;
use crate::region::{KeyKind, KeyedRange, Need, is_granted};
use rdma_types::{Kind, ObjName, Receive, RefusalReason};

/// The place at the peer that a request names, from an offset on.
pub fn remote_place(r: &IdealRequest, offset: u32, count: usize) -> KeyedRange
    ensures { result
        ≡ record {
          kind = KeyKind.Remote;
          key = r.now.request.shape.rkey;
          address = r.now.request.shape.remote + offset;
          count = count;
        } }
{
    KeyedRange {
        kind: KeyKind::Remote,
        key: r.request.shape.rkey,
        address: u128::from(r.request.shape.remote) + u128::from(offset),
        count,
    }
}

/// The whole range of a request is granted at its peer.
fn is_request_granted(r: &IdealRequest, context: &Context, peer: &End) -> bool
    ensures { result
        ≡ is_granted remote_key context.now.regions peer.now.domain r.now.request.shape.rkey
        r.now.request.shape.remote (size_of r.now) (right_for (kind_of r.now)) }
{
    let place = remote_place(r, 0, r.request.shape.length as usize);
    is_granted(
        &context.regions,
        peer.domain,
        &place,
        need_of(r.request.shape.kind),
    )
}

/// The address of an atomic is not a multiple of 8.
fn is_misaligned(r: &IdealRequest) -> bool
    ensures { result ≡ is_misaligned r.now }
{
    is_atomic(r.request.shape.kind) && r.request.shape.remote % 8 != 0
}

/// There is a receive, and so many bytes fit it.
fn fits(receive: Option<Receive>, count: u64) -> bool
    ensures { result ≡ fits receive count }
{
    match receive {
        Some(v) => count <= u64::from(v.length),
        None => false,
    }
}

/// There is a receive, and so many bytes do not fit it.
fn overflows(receive: Option<Receive>, count: u32) -> bool
    ensures { result ≡ overflows receive count }
{
    match receive {
        Some(v) => v.length < count,
        None => false,
    }
}

impl PacketlessMachine {
    /// The end of that name, and its peer in its context.
    pub(crate) fn towards(&self, q: &ObjName) -> Option<(&End, &Context, &End)>
        ensures some { IfSome result (λ p. (p.0.now ≡ end_of self.now q.now)
            × (p.1.now ≡ context_of self.now (end_of self.now q.now).peer.context)
            × (p.2.now ≡ peer_of self.now q.now) × (has_peer self.now q.now ≡ true)) }
        ensures none { IfNone result (has_peer self.now q.now ≡ false) }
    {
        let end = self.end(q)?;
        if !end.connected {
            return None;
        }
        let (context, peer) = self.home(&end.peer)?;
        Some((end, context, peer))
    }

    /// .. where the end has a current request, and its peer has not ended.
    pub(crate) fn turn(&self, q: &ObjName) -> Option<(&End, &Context, &End, &IdealRequest)>
        ensures some { IfSome result (λ p. (p.0.now ≡ end_of self.now q.now)
            × (p.1.now ≡ context_of self.now (end_of self.now q.now).peer.context)
            × (p.2.now ≡ peer_of self.now q.now) × (p.3.now ≡ current (end_of self.now q.now))
            × (has_current self.now q.now ≡ true)
            × ((end_of self.now q.now).acted < length (end_of self.now q.now).posted)) }
        ensures none { IfNone result (has_current self.now q.now ≡ false) }
    {
        let (end, context, peer) = self.towards(q)?;
        if peer.ended {
            return None;
        }
        let r = end.posted.get(end.acted)?;
        if r.request.fence && end.lands_before() {
            return None;
        }
        Some((end, context, peer, r))
    }

    pub(crate) fn may_run(&self, q: &ObjName, n: u32) -> bool
        ensures { result ≡ may_run self.now q.now n }
    {
        let Some((end, context, peer, r)) = self.turn(q) else {
            return false;
        };
        if !end.may_add(r, n) {
            return false;
        }
        match r.request.shape.kind {
            Kind::Write => {
                is_request_granted(r, context, peer)
                    && (!(end.fills(r, n) && r.request.shape.imm.is_some())
                        || !peer.unused.is_empty())
            }
            Kind::Send => fits(peer.receive_for(), u64::from(end.into) + u64::from(n)),
            Kind::Read | Kind::CompareSwap | Kind::FetchAdd => false,
        }
    }

    pub(crate) fn may_atom(&self, q: &ObjName) -> bool
        ensures { result ≡ may_atom self.now q.now }
    {
        let Some((_, context, peer, r)) = self.turn(q) else {
            return false;
        };
        is_atomic(r.request.shape.kind) && !is_misaligned(r) && is_request_granted(r, context, peer)
    }

    pub(crate) fn may_read(&self, q: &ObjName) -> bool
        ensures { result ≡ may_read self.now q.now }
    {
        let Some((_, context, peer, r)) = self.turn(q) else {
            return false;
        };
        is_read(r.request.shape.kind) && is_request_granted(r, context, peer)
    }

    pub(crate) fn may_refuse(&self, q: &ObjName, why: RefusalReason) -> bool
        ensures { result ≡ may_refuse self.now q.now why }
    {
        let Some((_, context, peer, r)) = self.turn(q) else {
            return false;
        };
        match why {
            RefusalReason::Invalid => is_misaligned(r),
            RefusalReason::Access => {
                !is_misaligned(r)
                    && !is_send(r.request.shape.kind)
                    && !is_request_granted(r, context, peer)
            }
            RefusalReason::Length => is_send(r.request.shape.kind)
                && overflows(peer.receive_for(), r.request.shape.length),
        }
    }

    pub(crate) fn may_dry(&self, q: &ObjName) -> bool
        ensures { result ≡ may_dry self.now q.now }
    {
        let Some((end, context, peer, r)) = self.turn(q) else {
            return false;
        };
        if !peer.unused.is_empty() {
            return false;
        }
        match r.request.shape.kind {
            Kind::Write => r.request.shape.imm.is_some() && is_request_granted(r, context, peer),
            Kind::Send => end.into == 0,
            Kind::Read | Kind::CompareSwap | Kind::FetchAdd => false,
        }
    }

    pub(crate) fn may_offer(&self, q: &ObjName, i: usize, off: u32, n: u32) -> bool
        ensures { result ≡ may_offer self.now q.now i off n }
    {
        let Some((end, context, peer)) = self.towards(q) else {
            return false;
        };
        let Some(r) = end.read_part(i, off, n) else {
            return false;
        };
        let place = remote_place(r, off, n as usize);
        !peer.ended && is_granted(&context.regions, peer.domain, &place, Need::RemoteRead)
    }
}
