//! Regions made and dropped.

ghost use Rattle.std.specs.Prelude.{◌≡◌, ℕ, ◌+◌, ◌≤◌, ◌++◌, ◌∷◌, [], length, sum_by, All, None, IfSome, OnOk, OnErr, bytes_eq, is_some, position};
ghost use Rattle.std.specs.Result.{result_err};
ghost use Rattle.rdma_types.specs.Causes.{first_cause};
ghost use Rattle.rdma_types.specs.Lists.{has_name, without};
ghost use Rattle.rdma_types.specs.Memory.{put};
ghost use Rattle.page_pool.specs.Pool.{Pool, bytes_of, free_pages, pages_for};
ghost use Rattle.memory_keys.specs.Causes.{register_causes, deregister_causes, region_named, refusal_of};
ghost use Rattle.memory_keys.specs.Regions.{AreHeld, AreKeyed, IsAdded, IsNamed, IsRemoved, KeepsOthers, held_at, regions_of, blank_region};

use crate::{MemFault, RegionHead, Regions, RegisteredRegion};
use page_pool::{ByteRun, PagePool};
use rdma_types::{Name, Refusal};
use std::alloc::Global;

/// How many regions a context may have (this project's choice).
const MOST_REGIONS: usize = 256;

impl Regions {
    /// Makes a region of zeros behind the others. No region may have its local key, and the remote key is the number
    /// after the local one.
    ///
    /// Errors: the first of these causes that holds (this project's choice): `NumberTaken` where a region has the name,
    /// `TooMany` where there are 256 regions, `NoPage` where fewer pages are free than hold its bytes; or
    /// `OutOfMemory`. All is then as before.
    pub fn register(
        &mut self,
        pool: &mut PagePool,
        alloc: Global,
        head: RegionHead,
    ) -> Result<(), MemFault>
        requires held { AreHeld pool.old self.old }
        requires new { held_at head.keys.local self.old ≡ None }
        requires pair { head.keys.remote ≡ head.keys.local + 1 }
        ensures held { AreHeld pool.new self.new }
        ensures regions { OnOk result (regions_of pool.new self.new
            ≡ regions_of pool.old self.old ++ blank_region head ∷ []) }
        ensures others { KeepsOthers pool.old pool.new self.old }
        ensures added { OnOk result (IsAdded pool.old self.old self.new head) }
        ensures free { OnOk result (free_pages pool.new + pages_for head.length
            ≡ free_pages pool.old) }
        ensures refused { refusal_of result ≡ first_cause
            (register_causes (regions_of pool.old self.old) (free_pages pool.old) head) }
        ensures err { OnErr result (self.new ≡ self.old) }
        ensures err_pool { OnErr result (pool.new ≡ pool.old) }
    {
        self.add(pool, alloc, head, &ByteRun::make(alloc))
    }

    /// Makes a region of these bytes behind the others, as many as it is long. Errors: those of `register`; all is then
    /// as before.
    pub fn restore(
        &mut self,
        pool: &mut PagePool,
        alloc: Global,
        head: RegionHead,
        bytes: &ByteRun,
    ) -> Result<(), MemFault>
        requires held { AreHeld pool.old self.old }
        requires new { held_at head.keys.local self.old ≡ None }
        requires pair { head.keys.remote ≡ head.keys.local + 1 }
        requires length { length bytes.now ≡ head.length }
        ensures held { AreHeld pool.new self.new }
        ensures regions { OnOk result (regions_of pool.new self.new
            ≡ regions_of pool.old self.old ++ record (blank_region head) { bytes = bytes.now }
            ∷ []) }
        ensures others { KeepsOthers pool.old pool.new self.old }
        ensures added { OnOk result (IsAdded pool.old self.old self.new head) }
        ensures free { OnOk result (free_pages pool.new + pages_for head.length
            ≡ free_pages pool.old) }
        ensures refused { refusal_of result ≡ first_cause
            (register_causes (regions_of pool.old self.old) (free_pages pool.old) head) }
        ensures err { OnErr result (self.new ≡ self.old) }
        ensures err_pool { OnErr result (pool.new ≡ pool.old) }
    {
        self.add(pool, alloc, head, bytes)
    }

    /// Makes a region behind the others, of these bytes and zeros behind them. Errors: those of `register`.
    fn add(
        &mut self,
        pool: &mut PagePool,
        alloc: Global,
        head: RegionHead,
        bytes: &ByteRun,
    ) -> Result<(), MemFault>
        requires held { AreHeld pool.old self.old }
        requires new { held_at head.keys.local self.old ≡ None }
        requires pair { head.keys.remote ≡ head.keys.local + 1 }
        requires inside { length bytes.now ≤ head.length }
        ensures held { AreHeld pool.new self.new }
        ensures regions { OnOk result (regions_of pool.new self.new
            ≡ regions_of pool.old self.old ++ record
            (blank_region head) { bytes = put (blank_region head).bytes 0 bytes.now } ∷ []) }
        ensures others { KeepsOthers pool.old pool.new self.old }
        ensures added { OnOk result (IsAdded pool.old self.old self.new head) }
        ensures free { OnOk result (free_pages pool.new + pages_for head.length
            ≡ free_pages pool.old) }
        ensures refused { refusal_of result ≡ first_cause
            (register_causes (regions_of pool.old self.old) (free_pages pool.old) head) }
        ensures err { OnErr result (self.new ≡ self.old) }
        ensures err_pool { OnErr result (pool.new ≡ pool.old) }
    {
        if self.place_of(head.name).is_some() {
            return Err(MemFault::NumberTaken);
        }
        if self.held.len() >= MOST_REGIONS {
            return Err(MemFault::TooMany);
        }
        let pages = head.length.div_ceil(4096);
        if pool.free() < pages {
            return Err(MemFault::NoPage);
        }
        self.held.reserve(1)?;
        let list = pool.take_with(alloc, pages, 0, bytes)?;
        let key = head.keys.local;
        self.held
            .insert(key, RegisteredRegion { head, list })
            .unwrap();
        Ok(())
    }

    /// Drops the region with a name, and gives its pages back. It takes no memory. Errors: `NoSuch` exactly where no
    /// region has the name, and else `InUse` exactly where its local key is in `busy`. All is then as before.
    pub fn deregister(
        &mut self,
        pool: &mut PagePool,
        name: Name,
        busy: &[u32],
    ) -> Result<(), Refusal>
        requires { AreHeld pool.old self.old }
        ensures held { AreHeld pool.new self.new }
        ensures regions { OnOk result (regions_of pool.new self.new
            ≡ without (λ r. r.name) name (regions_of pool.old self.old)) }
        ensures others { KeepsOthers pool.old pool.new self.old }
        ensures removed { OnOk result (IsRemoved self.old self.new name) }
        ensures free { OnOk result (free_pages pool.new
            ≡ free_pages pool.old + pages_for (region_named name
            (regions_of pool.old self.old)).length) }
        ensures refused { result_err result ≡ first_cause
            (deregister_causes (regions_of pool.old self.old) name busy.now) }
        ensures err { OnErr result (self.new ≡ self.old) }
        ensures err_pool { OnErr result (pool.new ≡ pool.old) }
    {
        let Some(place) = self.place_of(name) else {
            return Err(Refusal::NoSuch);
        };
        let (key, _) = self.held.get_index(place).unwrap();
        if busy.contains(key) {
            return Err(Refusal::InUse);
        }
        let (_, held) = self.held.shift_remove_index(place).unwrap();
        pool.give(held.list);
        Ok(())
    }

    /// Drops all regions, and gives their pages back. It takes no memory.
    pub fn release(self, pool: &mut PagePool)
        requires { AreHeld pool.old self }
        ensures others { KeepsOthers pool.old pool.new self }
        ensures gone { All (λ h. bytes_of pool.new h.list ≡ None) self }
        ensures free { free_pages pool.new ≡ free_pages pool.old
            + sum_by (λ h. pages_for h.head.length) self }
    {
        let Regions { mut held, .. } = self;
        while let Some((_, last)) = held.pop() {
            pool.give(last.list);
        }
    }

    /// What is told of the region with a name; None exactly where there is none.
    pub fn named(&self, name: Name) -> Option<RegionHead>
        ensures there { (pool : Pool) → is_some result
            ≡ has_name (λ r. r.name) name (regions_of pool self.now) }
        ensures named { IfSome result (λ head. IsNamed self.now name head) }
        ensures keyed { AreKeyed self.now }
    {
        let _held = &self.held;
        let Some(place) = self.place_of(name) else {
            return None;
        };
        let (_, held) = self.held.get_index(place).unwrap();
        Some(held.head)
    }

    /// The place of the region with a name.
    fn place_of(&self, name: Name) -> Option<usize>
        ensures { result ≡ position (λ h. bytes_eq h.head.name name) self.now }
    {
        self.held.values().position(|h| h.head.name == name)
    }
}
