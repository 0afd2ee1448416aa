//! The READ responses that a datagram may be answered with.

ghost use Rattle.std.specs.Prelude.{◌≡◌, ◌+◌, ◌<◌, ◌≤◌, ◌^◌, IfSome};
ghost use Rattle.std.specs.Bool.{OnTrue};
ghost use Rattle.rdma_types.specs.Limits.{AreTerms};
ghost use Rattle.rdma_types.specs.Spans.{pieces};
ghost use Rattle.page_pool.specs.Pool.{Pool};
ghost use Rattle.memory_keys.specs.Regions.{IsSpot, regions_of};
ghost use Rattle.roce_headers.specs.Packets.{packet};
ghost use Rattle.endpoint_core.specs.Due.{due_in, due_read, is_in_turn};

use crate::answers::DueRead;
use crate::end::EndLink;
use memory_keys::Regions;
use rdma_types::limits::MOST_BYTES;
use rdma_types::{Name, Rights};
use roce_headers::Datagram;
use roce_headers::opcodes::READ_REQUEST;
use transport::psn_math::{WIRE_NUMBERS, unwrap_near};
use transport::segmenter::pieces_of;

/// Whether a READ of so many numbers and bytes from number `n` on is answered by its number.
fn is_in_turn(expected: u64, n: u64, count: u64, length: u32) -> bool
    requires number { n < 2 ^ 63 }
    requires bounded { count ≤ 2 ^ 32 }
    ensures rule { result ≡ is_in_turn expected n count length }
    ensures behind { OnTrue result (n ≤ expected) }
{
    if n < expected {
        n + count <= expected
    } else {
        n == expected && length <= MOST_BYTES
    }
}

impl EndLink {
    /// The READ responses that a datagram may be answered with, and None where it is answered with none. It changes
    /// nothing and takes no memory.
    pub fn due(&self, regions: &Regions, domain: Name, d: &Datagram<'_>) -> Option<DueRead>
        requires psn { d.now.psn < 2 ^ 24 }
        requires terms { AreTerms self.now.terms }
        ensures due { (pool : Pool)
            → result ≡ due_in self.now (regions_of pool regions.now) domain (packet d.now) }
        ensures inside { IfSome result (λ r. IsSpot regions.now r.spot) }
        ensures number { IfSome result (λ r. r.first < 2 ^ 62) }
        ensures msn { IfSome result (λ r. r.msn < 2 ^ 24) }
    {
        if self.ended || self.is_paused() {
            return None;
        }
        self.due_read(regions, domain, d)
    }

    /// .. at an end that is neither Paused nor in Error.
    fn due_read(&self, regions: &Regions, domain: Name, d: &Datagram<'_>) -> Option<DueRead>
        requires psn { d.now.psn < 2 ^ 24 }
        requires terms { AreTerms self.now.terms }
        ensures due { (pool : Pool)
            → result ≡ due_read self.now.terms self.now.responder.receiver
            (regions_of pool regions.now) domain (packet d.now) }
        ensures inside { IfSome result (λ r. IsSpot regions.now r.spot) }
        ensures number { IfSome result (λ r. r.first < 2 ^ 62) }
        ensures msn { IfSome result (λ r. r.msn < 2 ^ 24) }
    {
        if d.opcode != READ_REQUEST {
            return None;
        }
        let reth = d.reth?;
        let parts = self.responder.parts();
        let first = unwrap_near(d.psn, self.terms.peer_start, parts.expected)?;
        let count = pieces_of(reth.length, self.terms.mtu);
        if !is_in_turn(parts.expected, first, count, reth.length) {
            return None;
        }
        let read = Rights::REMOTE_READ;
        let spot = regions.check_remote(domain, reth.rkey, reth.address, reth.length, read)?;
        let msn = if first == parts.expected {
            (parts.msn + 1) % WIRE_NUMBERS
        } else {
            parts.msn
        };
        Some(DueRead { spot, first, msn })
    }
}
