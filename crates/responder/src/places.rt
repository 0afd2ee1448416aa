//! What requests ask of regions.

ghost use Rattle.std.specs.Prelude.{◌≡◌, ℕ, ◌+◌, ◌≤◌, length, IfSome};
ghost use Rattle.rdma_types.specs.Memory.{word_bytes, word_of};
ghost use Rattle.page_pool.specs.Pool.{Pool};
ghost use Rattle.memory_keys.specs.Regions.{AreHeld, AreKeyed, IsSpot, regions_of, spot_bytes};
ghost use Rattle.protocol.specs.Memory.{written};
ghost use Rattle.protocol.specs.Responder as words;
ghost use Rattle.roce_headers.specs.Packets.{packet};
ghost use Rattle.responder.specs.Sound.{IsPlace};
ghost use Rattle.responder.specs.Taken.{KeepsRegions, place_granted};
ghost use Rattle.responder.specs.Taking.{context_of, landed_in};

use crate::kinds::is_read_request;
use memory_keys::{RegionRange, Regions};
use page_pool::PagePool;
use rdma_types::{Name, Receive, Rights};
use roce_headers::opcodes::FETCH_ADD;
use roce_headers::{AtomicEth, Datagram};

/// The place that a packet's request is granted (check 2); one that names no place is granted one of no bytes.
pub fn target(regions: &Regions, domain: Name, d: &Datagram<'_>) -> Option<RegionRange>
    ensures granted { (pool : Pool)
        → result ≡ place_granted (regions_of pool regions.now) domain (packet d.now) }
    ensures inside { IfSome result (λ spot. IsSpot regions.now spot) }
{
    if let Some(h) = d.atomic {
        return regions.check_remote(domain, h.rkey, h.address, 8, Rights::REMOTE_ATOMIC);
    }
    let Some(h) = d.reth else {
        let (region, off, length) = (0, 0, 0);
        return Some(RegionRange {
            region,
            off,
            length,
        });
    };
    let right = if is_read_request(d.opcode) {
        Rights::REMOTE_READ
    } else {
        Rights::REMOTE_WRITE
    };
    regions.check_remote(domain, h.rkey, h.address, h.length, right)
}

/// Stores bytes of a SEND in its receive, behind those that lie there.
pub fn land(
    pool: &mut PagePool,
    regions: &mut Regions,
    domain: Name,
    receive: &Receive,
    done: u32,
    bytes: &[u8],
)
    requires held { AreHeld pool.old regions.old }
    requires place { IsPlace regions.old domain receive.now }
    requires fits { done + length bytes.now ≤ receive.now.length }
    ensures landed { regions_of pool.new regions.new
        ≡ landed_in (regions_of pool.old regions.old) receive.now done bytes.now }
    ensures kept { KeepsRegions pool.old pool.new regions.old regions.new }
{
    let place = regions.check_local(domain, receive.lkey, receive.local, receive.length, true);
    let spot = place.unwrap();
    regions.store_part(pool, spot, done, bytes);
}

/// Stores bytes of a WRITE in its place, behind those that lie there.
pub fn write(pool: &mut PagePool, regions: &mut Regions, spot: RegionRange, done: u32, bytes: &[u8])
    requires held { AreHeld pool.old regions.old }
    requires place { IsSpot regions.old spot }
    requires fits { done + length bytes.now ≤ spot.length }
    ensures written { regions_of pool.new regions.new
        ≡ (written (context_of (regions_of pool.old regions.old)) spot.region
        (spot.off + done) bytes.now).regions }
    ensures kept { KeepsRegions pool.old pool.new regions.old regions.new }
{
    regions.are_keyed();
    regions.store_part(pool, spot, done, bytes);
}

/// The word that an atomic puts in the place of another: a sum in 64 bits, or what is swapped in where the compare is
/// equal (IBA 9.4).
fn next_word(opcode: u8, h: &AtomicEth, old: u64) -> u64
    ensures { result ≡ words.atomic_value opcode h.now old }
{
    if opcode == FETCH_ADD {
        old.wrapping_add(h.swap_add)
    } else if old == h.compare {
        h.swap_add
    } else {
        old
    }
}

/// Puts the word of an atomic in its place, and hands out the one that was there.
pub fn exchange(
    pool: &mut PagePool,
    regions: &mut Regions,
    spot: RegionRange,
    opcode: u8,
    h: &AtomicEth,
) -> u64
    requires held { AreHeld pool.old regions.old }
    requires place { IsSpot regions.old spot }
    requires length { spot.length ≡ 8 }
    ensures old { result ≡ word_of (spot_bytes pool.old regions.old spot) }
    ensures written { regions_of pool.new regions.new
        ≡ (written (context_of (regions_of pool.old regions.old)) spot.region spot.off
        (word_bytes (words.atomic_value opcode h.now result))).regions }
    ensures keyed { AreKeyed regions.old }
    ensures kept { KeepsRegions pool.old pool.new regions.old regions.new }
{
    regions.are_keyed();
    let old = regions.fetch_word(pool, spot);
    let word = next_word(opcode, h, old);
    regions.put_word(pool, spot, word);
    old
}
