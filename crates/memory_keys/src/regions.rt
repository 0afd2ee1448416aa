//! The regions of a context.

ghost use Rattle.std.specs.Prelude.{◌≡◌, ℕ, ◌+◌, ◌-◌, ◌^◌, ◌≤◌, ◌<◌, ◌==◌, ◌&&◌, ◌||◌, List, [], length, Bool, if◌then◌else◌, option_map, slice_get, bytes_eq, true, IfOk, IfSome};
ghost use Rattle.std.specs.Option.{option_copied};
ghost use Rattle.std.specs.Bool.{OnTrue};
ghost use Rattle.std.specs.List.{list_any};
ghost use Rattle.rdma_types.specs.Lists.{first_that, some};
ghost use Rattle.rdma_types.specs.Memory.{Right, NoRight, LocalWrite, allows, set_of, local_key, remote_key, cut};
ghost use Rattle.page_pool.specs.Pool.{Pool};
ghost use Rattle.memory_keys.specs.Regions.{held_at, AreKeyed, region_of, regions_of, gives, granted_spot, holds_range, IsSpot, AreHeld};

use crate::{RegionHead, RegionRange, RegisteredRegion};
use indexmap::IndexMap;
use page_pool::{ByteRun, PagePool};
use rdma_types::{Keys, Name, Rights};
use std::alloc::{AllocError, Global};
use std::marker::Model;

/// The regions of a context, in order of making, each under its local key.
#[derive(Drop)]
pub struct Regions {
    pub(crate) held: IndexMap<u32, RegisteredRegion>,
    /// The place of the region that was written last.
    pub(crate) recent: usize,
}

impl Model for Regions {
    ghost use Rattle.std.specs.Prelude.{List};
    ghost use Rattle.indexmap.specs.IndexMap.{values};
    ghost use Rattle.memory_keys.specs.declared.RegisteredRegion.{RegisteredRegion};
    ghost use Rattle.memory_keys.specs.Keyed.{IsKeyed};

    ghost Value = { List RegisteredRegion };

    ghost view = { λ r. values r.held };

    ghost invariant = { λ r. IsKeyed r.held.entries };
}

impl Regions {
    /// No region.
    pub fn make(alloc: Global) -> Regions
        ensures empty { result ≡ [] }
        ensures held { (pool : Pool) → AreHeld pool result }
    {
        Regions {
            held: IndexMap::new(alloc),
            recent: 0,
        }
    }

    /// Region `i` in order of making; None where there are fewer.
    pub fn at(&self, i: usize) -> Option<RegionHead>
        ensures { result ≡ option_map (λ h. h.head) (slice_get self.now i) }
    {
        let (_, held) = self.held.get_index(i)?;
        Some(held.head)
    }

    /// How many regions there are.
    pub fn len(&self) -> usize
        ensures { result ≡ length self.now }
    {
        self.held.len()
    }

    /// A copy of the bytes of region `i` in order of making. Errors: `AllocError` when out of memory.
    pub fn bytes_at(&self, alloc: Global, pool: &PagePool, i: usize) -> Result<ByteRun, AllocError>
        requires held { AreHeld pool.now self.now }
        requires there { i < length self.now }
        ensures { IfOk result (λ run. IfSome (slice_get self.now i) (λ h. run
            ≡ (region_of pool.now h).bytes)) }
    {
        let (_, held) = self.held.get_index(i).unwrap();
        pool.copy_out(alloc, &held.list, 0, held.head.length as usize)
    }

    /// Whether a region has the key, local or remote.
    pub fn has_key(&self, key: u32) -> bool
        ensures { (pool : Pool) → result ≡ some (λ r. r.keys.local == key
            || r.keys.remote == key) (regions_of pool self.now) }
    {
        self.finds_key(key)
    }

    /// The place that a local key grants; None exactly where it is not granted. Where bytes land there, the right to write
    /// is needed. A length of 0 checks no key (this project's choice).
    pub fn check_local(
        &self,
        domain: Name,
        lkey: u32,
        at: u64,
        length: u32,
        landing: bool,
    ) -> Option<RegionRange>
        ensures keyed { AreKeyed self.now }
        ensures granted { (pool : Pool) → result
            ≡ granted_spot local_key (regions_of pool self.now) domain lkey at length (if landing
            then LocalWrite else NoRight) }
        ensures inside { IfSome result (λ spot. IsSpot self.now spot) }
        ensures length { IfSome result (λ spot. spot.length ≡ length) }
    {
        let right = if landing {
            Rights::LOCAL_WRITE
        } else {
            Rights(0)
        };
        self.check(domain, lkey, at, length, right)
    }

    /// The place that a remote key grants; None exactly where it is not granted. A length of 0 checks no key (this
    /// project's choice).
    pub fn check_remote(
        &self,
        domain: Name,
        rkey: u32,
        at: u64,
        length: u32,
        right: Rights,
    ) -> Option<RegionRange>
        ensures keyed { AreKeyed self.now }
        ensures granted { (pool : Pool) (needed : Right) → right.0 ≡ set_of needed
            → result ≡ granted_spot remote_key
            (regions_of pool self.now) domain rkey at length needed }
        ensures inside { IfSome result (λ spot. IsSpot self.now spot) }
        ensures length { IfSome result (λ spot. spot.length ≡ length) }
    {
        let _held = &self.held;
        if length == 0 {
            return Some(RegionRange {
                region: 0,
                off: 0,
                length,
            });
        }
        let key = rkey.checked_sub(1)?;
        self.check(domain, key, at, length, right)
    }

    /// The place that the region with a local key grants.
    #[inline(always)]
    fn check(
        &self,
        domain: Name,
        key: u32,
        at: u64,
        length: u32,
        right: Rights,
    ) -> Option<RegionRange>
        ensures keyed { AreKeyed self.now }
        ensures granted { (pool : Pool) (needed : Right) → right.0 ≡ set_of needed
            → result
            ≡ granted_spot local_key (regions_of pool self.now) domain key at length needed }
        ensures inside { IfSome result (λ spot. IsSpot self.now spot) }
        ensures length { IfSome result (λ spot. spot.length ≡ length) }
    {
        let _held = &self.held;
        if length == 0 {
            return Some(RegionRange {
                region: 0,
                off: 0,
                length,
            });
        }
        let head = &self.find(key)?.head;
        if !gives(head, domain, at, length, right) {
            return None;
        }
        let off = (at - head.base) as u32;
        Some(RegionRange {
            region: key,
            off,
            length,
        })
    }

    /// Local keys are those of one region each, and a remote key is the number after the local one. It does nothing else
    /// than say so.
    pub fn are_keyed(&self)
        ensures { AreKeyed self.now }
    {
        let _held = &self.held;
    }

    /// Whether a region that is held has the key.
    fn finds_key(&self, key: u32) -> bool
        ensures { result ≡ list_any (λ h. h.head.keys.local == key
            || h.head.keys.remote == key) self.now }
    {
        self.held.values().any(|h| has(h.head.keys, key))
    }

    /// The region with a local key. It looks first where a region was written last.
    #[inline(always)]
    pub(crate) fn find(&self, key: u32) -> Option<&RegisteredRegion>
        ensures found { option_copied result ≡ held_at key self.now }
        ensures keyed { AreKeyed self.now }
    {
        match self.held.get_index(self.recent) {
            Some((found, held)) if *found == key => Some(held),
            _ => self.held.get(&key),
        }
    }
}

/// Whether one of the keys is this one.
fn has(keys: Keys, key: u32) -> bool
    ensures { result ≡ (keys.local == key || keys.remote == key) }
{
    keys.local == key || keys.remote == key
}

/// Whether a region of the domain gives a right over that many bytes.
fn gives(head: &RegionHead, domain: Name, at: u64, length: u32, right: Rights) -> bool
    ensures value { (needed : Right) → right.0 ≡ set_of needed
        → result ≡ gives head.now domain at length needed }
    ensures low { OnTrue result (head.now.base ≤ at) }
    ensures high { OnTrue result (at + length ≤ head.now.base + head.now.length) }
    ensures offset { OnTrue result (at - head.now.base < 2 ^ 32) }
{
    if head.domain != domain || head.rights.0 & right.0 != right.0 {
        return false;
    }
    within(head, at, length)
}

/// Whether a region holds that many bytes from an address on, without wrapping.
fn within(head: &RegionHead, at: u64, length: u32) -> bool
    ensures holds { result ≡ holds_range head.now at length }
    ensures low { OnTrue result (head.now.base ≤ at) }
    ensures high { OnTrue result (at + length ≤ head.now.base + head.now.length) }
    ensures offset { OnTrue result (at - head.now.base < 2 ^ 32) }
{
    let end = u64::from(head.length);
    at >= head.base && at - head.base <= end && u64::from(length) <= end - (at - head.base)
}
