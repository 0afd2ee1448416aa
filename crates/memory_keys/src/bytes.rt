//! The bytes of regions.

ghost use Rattle.std.specs.Prelude.{◌≡◌, ◌≢◌, All, ℕ, ◌+◌, ◌<◌, ◌≤◌, ◌↔◌, length, Some, None, OnOk, OnErr, IfOk, IfSome, IsErrOf, is_some, ◌==◌};
ghost use Rattle.rdma_types.specs.Memory.{put, word_of, word_bytes};
ghost use Rattle.page_pool.specs.Pool.{Pool, Puts, bytes_of, bytes_in, free_pages, pages_of};
ghost use Rattle.page_pool.specs.Held.{HoldsPayload, payload_bytes};
ghost use Rattle.memory_keys.specs.declared.RegisteredRegion.{RegisteredRegion};
ghost use Rattle.memory_keys.specs.Regions.{AreHeld, KeepsOthers, IsSpot, part_of, regions_of, spot_bytes, stored_at, held_at, pages_touched};

use crate::{MemFault, RegionRange, Regions};
use page_pool::{PagePool, Payload};
use std::alloc::Global;

impl Regions {
    /// Copies the bytes of a spot. It takes no memory.
    pub fn load(&self, pool: &PagePool, spot: RegionRange, out: &mut [u8])
        requires held { AreHeld pool.now self.now }
        requires spot { IsSpot self.now spot }
        requires length { length out.old ≡ spot.length }
        ensures { out.new ≡ spot_bytes pool.now self.now spot }
    {
        self.load_part(pool, spot, 0, out);
    }

    /// Copies the bytes of a part of a spot, from its byte `from` on. It takes no memory.
    pub fn load_part(&self, pool: &PagePool, spot: RegionRange, from: u32, out: &mut [u8])
        requires held { AreHeld pool.now self.now }
        requires spot { IsSpot self.now spot }
        requires inside { from + length out.old ≤ spot.length }
        ensures { out.new ≡ spot_bytes pool.now self.now (part_of spot from (length out.old)) }
    {
        if out.is_empty() {
            return;
        }
        let held = self.find(spot.region).unwrap();
        let at = u64::from(spot.off) + u64::from(from);
        pool.read(&held.list, at, out);
    }

    /// The bytes of a part of a spot where they lie: so many, from its byte `from` on. `None` comes exactly where they
    /// touch no page, or more than one. It takes no memory.
    pub fn piece<'a>(
        &self,
        pool: &'a PagePool,
        spot: RegionRange,
        from: u32,
        count: u32,
    ) -> Option<&'a [u8]>
        requires held { AreHeld pool.now self.now }
        requires spot { IsSpot self.now spot }
        requires inside { from + count ≤ spot.length }
        ensures bytes { IfSome result (λ bytes. bytes.now
            ≡ spot_bytes pool.now self.now (part_of spot from count)) }
        ensures one_page { is_some result ≡ (pages_touched (part_of spot from count) == 1) }
    {
        if count == 0 {
            return None;
        }
        let held = self.find(spot.region).unwrap();
        let at = u64::from(spot.off) + u64::from(from);
        pool.piece(&held.list, at).get(..count as usize)
    }

    /// The word at a spot of eight bytes (this project's choice: big-endian). It takes no memory.
    pub fn fetch_word(&self, pool: &PagePool, spot: RegionRange) -> u64
        requires held { AreHeld pool.now self.now }
        requires spot { IsSpot self.now spot }
        requires length { spot.length ≡ 8 }
        ensures { result ≡ word_of (spot_bytes pool.now self.now spot) }
    {
        let mut bytes = [0; 8];
        self.load(pool, spot, &mut bytes);
        u64::from_be_bytes(bytes)
    }

    /// Stores bytes at a spot, as many as it has. A page that a payload shares is copied first, and there is always a page
    /// for the copy. It takes no memory.
    pub fn store(&mut self, pool: &mut PagePool, spot: RegionRange, bytes: &[u8])
        requires held { AreHeld pool.old self.old }
        requires spot { IsSpot self.old spot }
        requires length { length bytes.now ≡ spot.length }
        ensures same { self.new ≡ self.old }
        ensures held { AreHeld pool.new self.new }
        ensures regions { regions_of pool.new self.new
            ≡ stored_at spot bytes.now (regions_of pool.old self.old) }
        ensures others { KeepsOthers pool.old pool.new self.old }
        ensures free { free_pages pool.new ≡ free_pages pool.old }
    {
        self.store_part(pool, spot, 0, bytes);
    }

    /// Stores bytes in a part of a spot, from its byte `from` on. Pages are copied as `store` says. It takes no memory.
    pub fn store_part(&mut self, pool: &mut PagePool, spot: RegionRange, from: u32, bytes: &[u8])
        requires held { AreHeld pool.old self.old }
        requires spot { IsSpot self.old spot }
        requires inside { from + length bytes.now ≤ spot.length }
        ensures same { self.new ≡ self.old }
        ensures held { AreHeld pool.new self.new }
        ensures regions { regions_of pool.new self.new
            ≡ stored_at (part_of spot from (length bytes.now)) bytes.now
            (regions_of pool.old self.old) }
        ensures others { KeepsOthers pool.old pool.new self.old }
        ensures free { free_pages pool.new ≡ free_pages pool.old }
    {
        if bytes.is_empty() {
            return;
        }
        let place = self.place_again(spot.region).unwrap();
        let held = self.held.get_index_mut(place).unwrap();
        let at = u64::from(spot.off) + u64::from(from);
        pool.write(&mut held.list, at, bytes);
    }

    /// Stores a word at a spot of eight bytes (this project's choice: big-endian). It takes no memory.
    pub fn put_word(&mut self, pool: &mut PagePool, spot: RegionRange, word: u64)
        requires held { AreHeld pool.old self.old }
        requires spot { IsSpot self.old spot }
        requires length { spot.length ≡ 8 }
        ensures same { self.new ≡ self.old }
        ensures held { AreHeld pool.new self.new }
        ensures regions { regions_of pool.new self.new
            ≡ stored_at spot (word_bytes word) (regions_of pool.old self.old) }
        ensures others { KeepsOthers pool.old pool.new self.old }
        ensures free { free_pages pool.new ≡ free_pages pool.old }
    {
        self.store(pool, spot, &word.to_be_bytes());
    }

    /// The bytes of a spot as they are now, whatever is stored later: the region and the payload share pages. Errors:
    /// `NoPage` exactly where fewer pages are free than the spot touches, or `OutOfMemory`. The pool is then as it was.
    pub fn snapshot(
        &mut self,
        pool: &mut PagePool,
        alloc: Global,
        spot: RegionRange,
    ) -> Result<Payload, MemFault>
        requires held { AreHeld pool.old self.old }
        requires spot { IsSpot self.old spot }
        ensures same { self.new ≡ self.old }
        ensures held { AreHeld pool.new self.new }
        ensures regions { regions_of pool.new self.new ≡ regions_of pool.old self.old }
        ensures new { IfOk result (λ p. bytes_of pool.old p.list ≡ None) }
        ensures apart { IfOk result (λ p. All (λ h. h.list ≢ p.list) self.new) }
        ensures puts { IfOk result (λ p. Puts pool.old pool.new p.list (bytes_of pool.new p.list)) }
        ensures holds { IfOk result (λ p. HoldsPayload pool.new p) }
        ensures length { IfOk result (λ p. p.length ≡ spot.length) }
        ensures bytes { IfOk result (λ p. payload_bytes pool.new p
            ≡ spot_bytes pool.old self.old spot) }
        ensures pages { IfOk result (λ p. pages_of (bytes_of pool.new p.list)
            ≡ pages_touched spot) }
        ensures free { OnOk result (free_pages pool.new + pages_touched spot
            ≡ free_pages pool.old) }
        ensures no_page { IsErrOf result MemFault.NoPage
            ↔ (free_pages pool.old < pages_touched spot) }
        ensures err { OnErr result (pool.new ≡ pool.old) }
    {
        if spot.length == 0 {
            let list = pool.take(alloc, 0)?;
            let (first, length) = (0, 0);
            return Ok(Payload {
                list,
                first,
                length,
            });
        }
        let held = self.find(spot.region).unwrap();
        let first = spot.off % 4096;
        let count = (u64::from(first) + u64::from(spot.length)).div_ceil(4096) as u32;
        let list = pool.share(alloc, &held.list, spot.off / 4096, count)?;
        let length = spot.length;
        Ok(Payload {
            list,
            first,
            length,
        })
    }
}
