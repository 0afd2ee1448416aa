//! Responses: acknowledges, READ responses and old values.

ghost use Rattle.std.specs.Prelude.{◌≡◌, ◌+◌, ◌*◌, ◌<◌, ◌≤◌, ◌==◌, ◌&&◌, ◌||◌, ◌^◌, length, not, nat_le, nat_lt, unwrap_or, Some, None, if◌then◌else◌};
ghost use Rattle.rdma_types.specs.Kinds.{is_read};
ghost use Rattle.rdma_types.specs.Spans.{piece_length, span};
ghost use Rattle.protocol.specs.Requester.{advanced, barrier, waited};
ghost use Rattle.protocol.specs.Wire.{is_read_response};
ghost use Rattle.roce_headers.specs.Packets.{packet};
ghost use Rattle.requester.specs.Sending.{KeepsQueue, sender_of};
ghost use Rattle.requester.specs.Taking.{acknowledge_taking, acknowledging, landing_taking, moved_or_useless, nak_taking, not_ready_taking, refusing, syndrome_taking, taken_response, wait_taking};

use crate::answers::ResponseEffect;
use crate::marks::barrier_behind;
use crate::{Requester, kinds};
use rdma_types::{Shape, WcStatus};
use roce_headers::opcodes::{ATOMIC_ACKNOWLEDGE, is_read_response};
use roce_headers::{Aeth, Datagram, Syndrome};
use transport::psn_math::unwrap_near;
use transport::segmenter::{piece_at, span_of};

/// A READ response or an ATOMIC acknowledge.
fn is_landing(opcode: u8) -> bool
    ensures { result ≡ (is_read_response opcode || opcode == 0x12) }
{
    is_read_response(opcode) || opcode == ATOMIC_ACKNOWLEDGE
}

/// Number `n` is sent and not acknowledged.
fn is_sent(n: u64, una: u64, top: u64) -> bool
    ensures { result ≡ (nat_le una n && nat_lt n top) }
{
    una <= n && n < top
}

/// Number `n` is the barrier, and sent.
fn is_due(n: u64, barrier: u64, top: u64) -> bool
    ensures { result ≡ (n == barrier && nat_lt n top) }
{
    n == barrier && n < top
}

/// So many waits are more than the terms allow, where 7 is without end.
fn is_past_last_wait(rnr: u8, waits: u8) -> bool
    ensures { result ≡ (not (rnr == 7) && waits == rnr + 1) }
{
    rnr != 7 && u16::from(waits) == u16::from(rnr) + 1
}

/// What a response is for piece `k` of a request, where its kind and its payload's length are that piece's.
fn landing(
    shape: &Shape,
    index: usize,
    k: u64,
    mtu: u32,
    d: &Datagram<'_>,
) -> Option<ResponseEffect>
    requires mtu { 0 < mtu }
    requires inside { k < span shape.now mtu }
    ensures { result
        ≡ (if is_read shape.now.kind
        then (if is_read_response d.now.opcode && length d.now.payload.now == piece_length shape.now.length k mtu then Some (ResponseEffect.Landed index (k * mtu)) else None)
        else (if d.now.opcode == 0x12 then Some (ResponseEffect.OldLanded index (unwrap_or d.now.old 0)) else None)) }
{
    if !kinds::is_read(shape.kind) {
        let old = d.old.unwrap_or(0);
        return (d.opcode == ATOMIC_ACKNOWLEDGE).then_some(ResponseEffect::OldLanded { index, old });
    }
    let (off, length) = piece_at(shape.length, k, mtu);
    let fits = d.payload.len() == length as usize;
    (is_read_response(d.opcode) && fits).then_some(ResponseEffect::Landed { index, off })
}

impl Requester {
    /// What a response does at an end that is not in Error. Its packet sequence number is below 2^24, as in each decoded
    /// datagram.
    pub fn take_response(&mut self, d: &Datagram<'_>) -> ResponseEffect
        requires { d.now.psn < 2 ^ 24 }
        ensures answer { result
            ≡ (taken_response self.old.terms (sender_of self.old) (packet d.now)).taken }
        ensures numbers { sender_of self.new
            ≡ (taken_response self.old.terms (sender_of self.old) (packet d.now)).sender }
        ensures kept { KeepsQueue self.old self.new }
    {
        let Some(n) = unwrap_near(d.psn, self.terms.own_start, self.numbers.una) else {
            return ResponseEffect::Useless;
        };
        if is_landing(d.opcode) {
            self.take_landing(d, n)
        } else {
            self.take_acknowledge(d.aeth, n)
        }
    }

    fn take_acknowledge(&mut self, aeth: Option<Aeth>, n: u64) -> ResponseEffect
        ensures answer { result
            ≡ (acknowledge_taking self.old.terms (sender_of self.old) n aeth).taken }
        ensures numbers { sender_of self.new
            ≡ (acknowledge_taking self.old.terms (sender_of self.old) n aeth).sender }
        ensures kept { KeepsQueue self.old self.new }
    {
        let Some(aeth) = aeth else {
            return ResponseEffect::Useless;
        };
        if !is_sent(n, self.numbers.una, self.numbers.top) {
            return ResponseEffect::Useless;
        }
        match aeth.syndrome {
            Syndrome::Ack => self.take_ack(n + 1),
            Syndrome::Rnr => self.take_rnr(n),
            Syndrome::Nak(code) => self.take_nak(n, code),
        }
    }

    fn take_ack(&mut self, n: u64) -> ResponseEffect
        requires { n ≤ self.old.numbers.top }
        ensures answer { result
            ≡ (moved_or_useless (sender_of self.old)
            (acknowledging self.old.terms (sender_of self.old) n)).taken }
        ensures numbers { sender_of self.new
            ≡ (moved_or_useless (sender_of self.old)
            (acknowledging self.old.terms (sender_of self.old) n)).sender }
        ensures kept { KeepsQueue self.old self.new }
    {
        if self.acknowledge(n) {
            ResponseEffect::Acked
        } else {
            ResponseEffect::Useless
        }
    }

    fn take_rnr(&mut self, n: u64) -> ResponseEffect
        requires { n ≤ self.old.numbers.top }
        ensures answer { result ≡ (not_ready_taking self.old.terms (sender_of self.old) n).taken }
        ensures numbers { sender_of self.new
            ≡ (not_ready_taking self.old.terms (sender_of self.old) n).sender }
        ensures kept { KeepsQueue self.old self.new }
    {
        if self.numbers.rnr_wait {
            return ResponseEffect::Useless;
        }
        let moved = self.acknowledge(n);
        if self.numbers.una == n {
            return self.wait_again();
        }
        if moved {
            ResponseEffect::Acked
        } else {
            ResponseEffect::Useless
        }
    }

    fn wait_again(&mut self) -> ResponseEffect
        ensures answer { result ≡ (wait_taking self.old.terms (waited (sender_of self.old))).taken }
        ensures numbers { sender_of self.new
            ≡ (wait_taking self.old.terms (waited (sender_of self.old))).sender }
        ensures kept { KeepsQueue self.old self.new }
    {
        let waits = self.numbers.waits.saturating_add(1);
        self.caches = self.caches.rewound();
        if is_past_last_wait(self.terms.rnr, waits) {
            self.numbers = self.numbers.waited(waits, self.numbers.rnr_wait);
            return ResponseEffect::Ended(WcStatus::RnrExceeded);
        }
        self.numbers = self.numbers.waited(waits, true);
        ResponseEffect::Waits
    }

    fn take_nak(&mut self, n: u64, code: u8) -> ResponseEffect
        requires { n ≤ self.old.numbers.top }
        ensures answer { result ≡ (nak_taking self.old.terms (sender_of self.old) n code).taken }
        ensures numbers { sender_of self.new
            ≡ (nak_taking self.old.terms (sender_of self.old) n code).sender }
        ensures kept { KeepsQueue self.old self.new }
    {
        match code {
            0 => {
                let _ = self.acknowledge(n);
                self.rewind();
                ResponseEffect::Rewound
            }
            1 => self.take_refusal(n, WcStatus::RemoteInvalid),
            2 => self.take_refusal(n, WcStatus::RemoteAccess),
            _ => ResponseEffect::Useless,
        }
    }

    fn take_refusal(&mut self, n: u64, status: WcStatus) -> ResponseEffect
        requires { n ≤ self.old.numbers.top }
        ensures answer { result
            ≡ (refusing (acknowledging self.old.terms (sender_of self.old) n) n status).taken }
        ensures numbers { sender_of self.new
            ≡ (refusing (acknowledging self.old.terms (sender_of self.old) n) n status).sender }
        ensures kept { KeepsQueue self.old self.new }
    {
        let _ = self.acknowledge(n);
        if self.numbers.una == n {
            return ResponseEffect::Ended(status);
        }
        self.rewind();
        ResponseEffect::Rewound
    }

    /// Numbers below n are acknowledged, up to the barrier. Answers whether the oldest unacknowledged one rose.
    fn acknowledge(&mut self, n: u64) -> bool
        requires { n ≤ self.old.numbers.top }
        ensures moved { result ≡ nat_lt self.old.numbers.una self.new.numbers.una }
        ensures numbers { sender_of self.new ≡ acknowledging self.old.terms (sender_of self.old) n }
        ensures kept { KeepsQueue self.old self.new }
    {
        let n = n.min(self.caches.barrier);
        if n <= self.numbers.una {
            return false;
        }
        self.caches = self.caches.acknowledged(&self.numbers, n);
        self.numbers = self.numbers.with_una(n);
        true
    }

    fn take_landing(&mut self, d: &Datagram<'_>, n: u64) -> ResponseEffect
        ensures answer { result
            ≡ (landing_taking self.old.terms (sender_of self.old) (packet d.now) n).taken }
        ensures numbers { sender_of self.new
            ≡ (landing_taking self.old.terms (sender_of self.old) (packet d.now) n).sender }
        ensures kept { KeepsQueue self.old self.new }
    {
        if !is_due(n, self.caches.barrier, self.numbers.top) {
            return ResponseEffect::Useless;
        }
        let at = self.caches.barrier_at;
        let Some(p) = self.queue.at(at.index) else {
            unreachable!()
        };
        let k = n - self.numbers.first - at.offset;
        let Some(landing) = landing(&p.request.shape, at.index, k, self.terms.mtu, d) else {
            return ResponseEffect::Useless;
        };
        self.land();
        landing
    }

    /// The response at the barrier has landed, and all before it is acknowledged.
    fn land(&mut self)
        requires { barrier self.old.terms (sender_of self.old) < self.old.numbers.top }
        ensures numbers { sender_of self.new ≡ advanced (sender_of self.old)
            (barrier self.old.terms (sender_of self.old) + 1) }
        ensures kept { KeepsQueue self.old self.new }
    {
        let at = self.caches.barrier_at;
        let Some(p) = self.queue.at(at.index) else {
            unreachable!()
        };
        let n = self.caches.barrier - self.numbers.first;
        let last = n - at.offset + 1 == span_of(&p.request.shape, self.terms.mtu);
        let barrier = barrier_behind(&self.queue, self.terms.mtu, at, n, last);
        let number = self.numbers.first + barrier.number;
        let una = self.caches.barrier + 1;
        self.caches = self.caches.landed(&self.numbers, last, number, barrier.at);
        self.numbers = self.numbers.with_una(una);
    }
}
