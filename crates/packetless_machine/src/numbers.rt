//! Packet numbers of the requests of an end. No step of the machine looks at them.
#![tactic(auto, using(crate::proofs::Spans::numbering), unfolding(rdma_types::specs::Spans::span, rdma_types::specs::Spans::pieces, crate::specs::Numbers::due, crate::specs::Numbers::oldest, crate::specs::Numbers::barrier))]

ghost use Rattle.std.specs.Prelude.{◌≡◌, ◌+◌, ◌<◌, ◌^◌, ◌/◌, true, false, if◌then◌else◌, IfSome, IfNone};
ghost use Rattle.rdma_types.specs.Spans.{span_of, first_number, next_landing};
ghost use Rattle.packetless_machine.specs.Machine.{end_of, nobody};
ghost use Rattle.packetless_machine.specs.Numbers.{due, oldest, barrier};

use crate::end::End;
use crate::kinds::{is_atomic, lands};
use crate::machine::PacketlessMachine;
use crate::mark::Mark;
use crate::posted::IdealRequest;
use rdma_types::ObjName;

/// How many packet numbers a request takes.
pub(crate) fn span_of(r: &IdealRequest, mtu: u32) -> u64
    requires { 0 < mtu }
    ensures { result ≡ span_of r.now mtu }
{
    if is_atomic(r.request.shape.kind) {
        return 1;
    }
    ((u64::from(r.request.shape.length) + u64::from(mtu - 1)) / u64::from(mtu)).max(1)
}

/// The first number of request i.
fn first_number(posted: &[IdealRequest], mtu: u32, i: usize) -> u64
    requires mtu { 0 < mtu }
    requires fits { first_number posted.now mtu i < 2 ^ 64 }
    ensures { result ≡ first_number posted.now mtu i }
{
    let mut total = 0;
    for (k, r) in posted.iter().enumerate() {
        if k >= i {
            return total;
        }
        total += span_of(r, mtu);
    }
    total
}

/// The first number from n on that belongs to a Read or atomic, or the end of the numbers.
fn next_landing(posted: &[IdealRequest], mtu: u32, n: u64) -> u64
    requires mtu { 0 < mtu }
    requires fits { next_landing posted.now mtu n < 2 ^ 64 }
    ensures { result ≡ next_landing posted.now mtu n }
{
    let mut before = 0;
    let mut left = n;
    for r in posted {
        let span = span_of(r, mtu);
        if left >= span {
            before += span;
            left -= span;
            continue;
        }
        if lands(r.request.shape.kind) {
            return before + left;
        }
        before += span;
        left = 0;
    }
    before + left
}

impl End {
    /// The first number of request i.
    fn number_at(&self, i: usize) -> u64
        requires mtu { 0 < self.now.mtu }
        requires fits { first_number self.now.posted self.now.mtu i < 2 ^ 64 }
        ensures { result ≡ first_number self.now.posted self.now.mtu i }
    {
        let Mark { place, number } = self.mark;
        if i < place {
            return first_number(&self.posted, self.mtu, i);
        }
        number + first_number(&self.posted[place..], self.mtu, i - place)
    }

    /// The first number from n on that belongs to a Read or atomic, or the end of the numbers.
    fn landing_from(&self, n: u64) -> u64
        requires mtu { 0 < self.now.mtu }
        requires fits { next_landing self.now.posted self.now.mtu n < 2 ^ 64 }
        ensures { result ≡ next_landing self.now.posted self.now.mtu n }
    {
        let Mark { place, number } = self.mark;
        if n < number {
            return next_landing(&self.posted, self.mtu, n);
        }
        number + next_landing(&self.posted[place..], self.mtu, n - number)
    }
}

impl PacketlessMachine {
    /// The end of that name, where it is connected.
    fn joined(&self, q: &ObjName) -> Option<&End>
        ensures some { IfSome result (λ e. (e.now ≡ end_of self.now q.now)
            × ((end_of self.now q.now).connected ≡ true)) }
        ensures none { IfNone result ((end_of self.now q.now).connected ≡ false) }
    {
        let end = self.end(q)?;
        if end.connected { Some(end) } else { None }
    }

    /// The number of the packet of an end that acts next at its peer, or `None` exactly where there is no such
    /// connected end. Its terms have an MTU, and the number fits, as every number of a device does.
    pub fn due(&self, q: ObjName) -> Option<u64>
        requires mtu { (end_of self.now q).connected ≡ true → 0 < (end_of self.now q).mtu }
        requires fits { (end_of self.now q).connected ≡ true → due (end_of self.now q) < 2 ^ 64 }
        ensures { result ≡ (if (end_of self.now q).connected then Some (due (end_of self.now q))
            else None) }
    {
        let end = self.joined(&q)?;
        let first = end.number_at(end.acted);
        Some(first + u64::from(end.into / end.mtu))
    }

    /// The first number of an end that its owner does not know to be in place, or `None` exactly where there is no
    /// such connected end.
    pub fn oldest(&self, q: ObjName) -> Option<u64>
        requires mtu { (end_of self.now q).connected ≡ true → 0 < (end_of self.now q).mtu }
        requires fits { (end_of self.now q).connected ≡ true → oldest (end_of self.now q) < 2 ^ 64 }
        ensures { result ≡ (if (end_of self.now q).connected then Some (oldest (end_of self.now q))
            else None) }
    {
        let end = self.joined(&q)?;
        let first = end.number_at(end.told);
        Some(first + u64::from(end.known / end.mtu))
    }

    /// The first number of an end whose Read or atomic is not told, or `None` exactly where there is no such connected
    /// end.
    pub fn barrier(&self, q: ObjName) -> Option<u64>
        requires mtu { (end_of self.now q).connected ≡ true → 0 < (end_of self.now q).mtu }
        requires oldest { (end_of self.now q).connected ≡ true
            → oldest (end_of self.now q) < 2 ^ 64 }
        requires fits { (end_of self.now q).connected ≡ true
            → barrier (end_of self.now q) < 2 ^ 64 }
        ensures { result ≡ (if (end_of self.now q).connected then Some (barrier (end_of self.now q))
            else None) }
    {
        let end = self.joined(&q)?;
        let first = end.number_at(end.told);
        let oldest = first + u64::from(end.known / end.mtu);
        Some(end.landing_from(oldest))
    }
}
