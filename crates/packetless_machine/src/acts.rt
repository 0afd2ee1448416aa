//! What the inner steps at the peer do. All memory is taken before the first change.
#![tactic(auto, unfolding(crate::specs::Steps::used_by, crate::specs::Steps::received_whole, crate::specs::Steps::arrivals, crate::specs::Steps::put_in_receive, crate::specs::Steps::placing, crate::specs::Steps::run_towards, crate::specs::Steps::run, crate::specs::Steps::word_there, crate::specs::Steps::changed_by, crate::specs::Steps::changed_word, crate::specs::Steps::atom_on, crate::specs::Steps::atom, crate::specs::Steps::read_turn, crate::specs::Steps::too_long, crate::specs::Steps::refused_entries, crate::specs::Steps::refused_receives, crate::specs::Steps::refused_queues, crate::specs::Steps::refuse_at, crate::specs::Steps::refuse, crate::specs::Steps::dried, crate::specs::Steps::bytes_there, crate::specs::Steps::offered, crate::specs::Steps::may_run, crate::specs::Steps::may_add, crate::specs::Steps::may_offer, crate::specs::Steps::may_atom, crate::specs::Steps::may_read, crate::specs::Steps::may_refuse, crate::specs::Steps::may_dry, crate::specs::Bytes::sum_of, crate::specs::Bytes::swapped, rdma_types::specs::Memory::word_of, rdma_types::specs::Memory::word_bytes))]

ghost use Rattle.std.specs.Prelude.{◌≡◌, ◌<◌, ◌+◌, length, IfSome, IfNone, IfOk, OnOk, OnErr, true, false, slice_index, ℕ, List};
ghost use Rattle.rdma_types.specs.Memory.{word_of};
ghost use Rattle.packetless_machine.specs.Keyed.{put_maybe};
ghost use Rattle.packetless_machine.specs.Machine.{Machine as MachineRecord, completed};
ghost use Rattle.packetless_machine.specs.Steps.{current, fills, next_bytes, arrivals, used_by, may_run, run, may_atom, atom, may_read, read_turn, may_refuse, refuse, may_dry, dried, may_offer, offered, word_there, changed_word, refused_entries, refused_receives, refused_queues, received_whole, placing};

use crate::end::End;
use crate::kinds::{is_send, receive_done};
use crate::machine::PacketlessMachine;
use crate::posted::{IdealRequest, Offered};
use crate::queue::{Queue, complete, copied};
use crate::region::{KeyKind, KeyedRange, Region, bytes_at};
use crate::reply::Reply;
use crate::turns::remote_place;
use rdma_types::{Completion, Kind, Name, ObjName, Receive, RefusalReason, WcKind, WcStatus};
use std::alloc::{AllocError, Global};

/// A byte, or 0 past the end.
#[tactic(auto)]
fn byte_at(bytes: &[u8], i: usize) -> u8
    ensures { result ≡ slice_index bytes.now i }
{
    bytes.get(i).copied().unwrap_or(0)
}

/// The big-endian word that eight bytes spell.
fn word_of(bytes: &[u8]) -> u64
    ensures { result ≡ word_of bytes.now }
{
    u64::from_be_bytes([
        byte_at(bytes, 0),
        byte_at(bytes, 1),
        byte_at(bytes, 2),
        byte_at(bytes, 3),
        byte_at(bytes, 4),
        byte_at(bytes, 5),
        byte_at(bytes, 6),
        byte_at(bytes, 7),
    ])
}

/// The word in these regions that an atomic names. Errors: `AllocError` when out of memory.
fn word_there(alloc: Global, r: &IdealRequest, regions: &[Region]) -> Result<u64, AllocError>
    ensures { IfOk result (λ w. w ≡ word_there r.now regions.now) }
{
    let bytes = bytes_at(alloc, regions, &remote_place(r, 0, 8))?;
    Ok(word_of(&bytes))
}

/// What an atomic makes of a word.
fn changed_word(r: &IdealRequest, old: u64) -> u64
    ensures { result ≡ changed_word r.now old }
{
    let shape = r.request.shape;
    match shape.kind {
        Kind::FetchAdd => old.wrapping_add(shape.swap_add),
        Kind::Write | Kind::Send | Kind::Read | Kind::CompareSwap => {
            if old == shape.compare {
                shape.swap_add
            } else {
                old
            }
        }
    }
}

impl End {
    /// The receive that a request uses here.
    fn used_by(&self, r: &IdealRequest) -> Option<Receive>
        ensures { result ≡ used_by r.now self.now }
    {
        if is_send(r.request.shape.kind) {
            return self.receive_for();
        }
        if r.request.shape.imm.is_some() {
            return self.unused.get(0).copied();
        }
        None
    }

    /// What n more bytes of the current request r complete at its peer x.
    fn arrivals(
        &self,
        alloc: Global,
        r: &IdealRequest,
        n: u32,
        x: &End,
    ) -> Result<Vec<Completion>, AllocError>
        requires { r.now ≡ current self.now }
        ensures { IfOk result (λ v. v.items ≡ arrivals self.now n x.now) }
    {
        let mut all = Vec::new(alloc);
        if !self.fills(r, n) {
            return Ok(all);
        }
        if let Some(v) = x.used_by(r) {
            let kind = if is_send(r.request.shape.kind) {
                WcKind::Recv
            } else {
                WcKind::RecvImm
            };
            all.push(receive_done(
                x.number,
                v,
                kind,
                WcStatus::Success,
                r.request.shape.length,
                r.request.shape.imm,
            ))?;
        }
        Ok(all)
    }

    /// The queues of its peer x, once n more bytes of its current request r are in place there. Errors: `AllocError`
    /// when out of memory.
    fn arrived_queues(
        &self,
        alloc: Global,
        r: &IdealRequest,
        n: u32,
        x: &End,
        queues: &[Queue],
    ) -> Result<Vec<Queue>, AllocError>
        requires { r.now ≡ current self.now }
        ensures { IfOk result (λ v. v.items ≡ completed x.now.receive_queue
            (arrivals self.now n x.now) queues.now) }
    {
        let done = self.arrivals(alloc, r, n, x)?;
        let mut queues = copied(alloc, queues)?;
        complete(&mut queues, x.receive_queue, &done)?;
        Ok(queues)
    }

    /// What a refusal completes here before the rest is flushed.
    fn refused_entries(
        &self,
        alloc: Global,
        why: RefusalReason,
    ) -> Result<Vec<Completion>, AllocError>
        ensures { IfOk result (λ v. v.items ≡ refused_entries self.now why) }
    {
        let mut all = Vec::new(alloc);
        if let (RefusalReason::Length, Some(v)) = (why, self.receive_for()) {
            all.push(receive_done(self.number, v, WcKind::Recv, WcStatus::LocalLength, 0, None))?;
        }
        Ok(all)
    }

    /// The receives that a refusal flushes here.
    fn refused_receives(
        &self,
        alloc: Global,
        why: RefusalReason,
    ) -> Result<Vec<Receive>, AllocError>
        ensures { IfOk result (λ v. v.items ≡ refused_receives self.now why) }
    {
        match why {
            RefusalReason::Invalid | RefusalReason::Access => self.receives(alloc),
            RefusalReason::Length => self.unused_after(alloc),
        }
    }

    /// The queues here, once a request is refused and all work is flushed.
    fn refused_queues(
        &self,
        alloc: Global,
        why: RefusalReason,
        queues: &[Queue],
    ) -> Result<Vec<Queue>, AllocError>
        ensures { IfOk result (λ v. v.items ≡ refused_queues self.now why queues.now) }
    {
        let mut queues = copied(alloc, queues)?;
        let entries = self.refused_entries(alloc, why)?;
        complete(&mut queues, self.receive_queue, &entries)?;
        let receives = self.refused_receives(alloc, why)?;
        self.fail_in(alloc, WcStatus::Flush, &receives, &mut queues)?;
        Ok(queues)
    }
}

/// The place of a receive, from an offset on.
fn receive_place(v: Receive, offset: u32, count: usize) -> KeyedRange
    ensures { result
        ≡ record { kind = KeyKind.Local; key = v.lkey; address = v.local + offset; count = count } }
{
    KeyedRange {
        kind: KeyKind::Local,
        key: v.lkey,
        address: u128::from(v.local) + u128::from(offset),
        count,
    }
}

/// Where the next bytes of the current request r of an end go, at its peer x.
fn target(end: &End, r: &IdealRequest, x: &End, count: usize) -> Option<KeyedRange>
    requires { r.now ≡ current end.now }
    ensures put { (m : MachineRecord) (c : List ℕ) (new : List ℕ)
        → put_maybe m c result new ≡ placing m c end.now x.now new }
    ensures count { IfSome result (λ p. p.count ≡ count) }
{
    if !is_send(r.request.shape.kind) {
        return Some(remote_place(r, end.into, count));
    }
    let v = x.receive_for()?;
    Some(receive_place(v, end.into, count))
}

impl PacketlessMachine {
    /// Bytes are put at a place, if there is one.
    fn put_maybe(&mut self, context: Name, place: Option<KeyedRange>, new: &[u8])
        requires { IfSome place (λ p. p.count ≡ length new.now) }
        ensures { self.new ≡ put_maybe self.old context place new.now }
    {
        if let Some(place) = place {
            self.put(context, &place, new);
        }
    }

    /// The next n bytes of the current Write or Send are put in place.
    pub(crate) fn run(&mut self, alloc: Global, q: &ObjName, n: u32) -> Result<(), AllocError>
        requires { may_run self.old q.now n ≡ true }
        ensures ok { OnOk result (self.new ≡ run self.old q.now n) }
        ensures err { OnErr result (self.new ≡ self.old) }
    {
        let Some((end, context, x, r)) = self.turn(q) else {
            return Ok(());
        };
        let whole = end.fills(r, n);
        let bytes = end.next_bytes(alloc, r, n)?;
        let place = target(end, r, x, bytes.len());
        let queues = end.arrived_queues(alloc, r, n, x, &context.queues)?;
        let shape = r.request.shape;
        let peer = end.peer;
        if let Some(end) = self.end_mut(q) {
            end.advance(n, whole)?;
        }
        self.put_maybe(peer.context, place, &bytes);
        if let Some(x) = self.end_mut(&peer) {
            x.use_receive(&shape, whole);
        }
        self.set_queues(peer.context, queues);
        Ok(())
    }

    /// The current atomic acts on its word.
    pub(crate) fn atom(&mut self, alloc: Global, q: &ObjName) -> Result<(), AllocError>
        requires { may_atom self.old q.now ≡ true }
        ensures ok { OnOk result (self.new ≡ atom self.old q.now) }
        ensures err { OnErr result (self.new ≡ self.old) }
    {
        let Some((end, context, _, r)) = self.turn(q) else {
            return Ok(());
        };
        let old = word_there(alloc, r, &context.regions)?;
        let place = remote_place(r, 0, 8);
        let new = changed_word(r, old);
        let home = end.peer.context;
        if let Some(end) = self.end_mut(q) {
            end.act(Reply::OldValue(old))?;
        }
        self.put(home, &place, &new.to_be_bytes());
        Ok(())
    }

    /// The current Read has its turn.
    pub(crate) fn read_turn(&mut self, q: &ObjName) -> Result<(), AllocError>
        requires { may_read self.old q.now ≡ true }
        ensures ok { OnOk result (self.new ≡ read_turn self.old q.now) }
        ensures err { OnErr result (self.new ≡ self.old) }
    {
        if self.turn(q).is_none() {
            return Ok(());
        }
        match self.end_mut(q) {
            Some(end) => end.act(Reply::Finished),
            None => Ok(()),
        }
    }

    /// The peer refuses the current request, and ends.
    pub(crate) fn refuse(
        &mut self,
        alloc: Global,
        q: &ObjName,
        why: RefusalReason,
    ) -> Result<(), AllocError>
        requires { may_refuse self.old q.now why ≡ true }
        ensures ok { OnOk result (self.new ≡ refuse self.old q.now why) }
        ensures err { OnErr result (self.new ≡ self.old) }
    {
        let Some((end, context, x, _)) = self.turn(q) else {
            return Ok(());
        };
        let queues = x.refused_queues(alloc, why, &context.queues)?;
        let peer = end.peer;
        if let Some(end) = self.end_mut(q) {
            end.deny(why)?;
        }
        if let Some(x) = self.end_mut(&peer) {
            x.close();
        }
        self.set_queues(peer.context, queues);
        Ok(())
    }

    /// The current request met no receive.
    pub(crate) fn dry(&mut self, q: &ObjName) -> Result<(), AllocError>
        ensures ok { OnOk result (self.new ≡ dried self.old q.now) }
        ensures err { OnErr result (self.new ≡ self.old) }
    {
        match self.end_mut(q) {
            Some(end) => end.dry(),
            None => Ok(()),
        }
    }

    /// The peer offers bytes of a Read, as they are now.
    pub(crate) fn offer(
        &mut self,
        alloc: Global,
        q: &ObjName,
        i: usize,
        off: u32,
        n: u32,
    ) -> Result<(), AllocError>
        requires { may_offer self.old q.now i off n ≡ true }
        ensures ok { OnOk result (self.new ≡ offered self.old q.now i off n) }
        ensures err { OnErr result (self.new ≡ self.old) }
    {
        let Some((end, context, _)) = self.towards(q) else {
            return Ok(());
        };
        let Some(r) = end.read_part(i, off, n) else {
            return Ok(());
        };
        let bytes = bytes_at(alloc, &context.regions, &remote_place(r, off, n as usize))?;
        let offer = Offered {
            request: i,
            offset: off,
            bytes,
        };
        match self.end_mut(q) {
            Some(end) => end.offer(offer),
            None => Ok(()),
        }
    }
}
