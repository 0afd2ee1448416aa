//! Regions of memory.
#![tactic(auto, unfolding(rdma_types::specs::Memory::holds, rdma_types::specs::Memory::allows, rdma_types::specs::Memory::grants, rdma_types::specs::Memory::cut, rdma_types::specs::Memory::put, crate::specs::Verbs::overwritten))]

ghost use Rattle.std.specs.Prelude.{◌≡◌, ◌-◌, ◌+◌, ◌==◌, ◌<◌, ◌≤◌, ◌^◌, true, IfOk, length, replicate, IsTrue};
ghost use Rattle.std.specs.List.{list_any};
ghost use Rattle.packetless_machine.specs.Tables.{place_where};
ghost use Rattle.rdma_types.specs.Memory.{holds, allows, grants, is_granted, cut, local_key};
ghost use Rattle.packetless_machine.specs.Machine.{put_at, bytes_at, is_at};
ghost use Rattle.packetless_machine.specs.Verbs.{overwritten, new_region};
ghost use Rattle.packetless_machine.specs.Keyed.{key_by, right_of};

use crate::named::Named;
use rdma_types::{Keys, Name, Rights};
use std::alloc::{AllocError, Global};
use std::marker::Model;

/// Which of a region's two keys is meant.
#[derive(Clone, Copy)]
pub enum KeyKind {
    Local,
    Remote,
}

/// The right that a use of memory needs.
#[derive(Clone, Copy)]
pub enum Need {
    Nothing,
    LocalWrite,
    RemoteWrite,
    RemoteRead,
    RemoteAtomic,
}

/// A place in memory, as a request names it.
#[derive(Clone, Copy)]
pub struct KeyedRange {
    pub kind: KeyKind,
    pub key: u32,
    pub address: u128,
    pub count: usize,
}

/// A region of memory.
#[derive(Drop)]
pub struct Region {
    name: Name,
    domain: Name,
    base: u64,
    rights: Rights,
    pub(crate) keys: Keys,
    bytes: Vec<u8>,
}

impl Model for Region {
    ghost use Rattle.std.specs.Prelude.{length};
    ghost use Rattle.rdma_types.specs.Objects.{Region as RegionRecord};

    ghost Value = { RegionRecord };

    ghost view = { λ r. record { name = r.name; domain = r.domain; base = r.base; length = length r.bytes.items; rights = r.rights; keys = r.keys; bytes = r.bytes.items } };
}

impl Named for Region {
    ghost named = { λ r. r.name };

    fn name(&self) -> Name {
        self.name
    }
}

impl Region {
    /// A region of zeros, with the given local key and the next one as its remote key. Errors: `AllocError` when out of
    /// memory.
    pub fn make(
        alloc: Global,
        name: Name,
        domain: Name,
        base: u64,
        length: u32,
        rights: Rights,
        given: u32,
    ) -> Result<Region, AllocError>
        requires { given + 1 < 2 ^ 32 }
        ensures { IfOk result (λ r. r ≡ new_region name domain base length rights given) }
    {
        let bytes = vec![in alloc; 0; length as usize]?;
        Ok(Region {
            name,
            domain,
            base,
            rights,
            keys: Keys {
                local: given,
                remote: given + 1,
            },
            bytes,
        })
    }

    fn has_key(&self, kind: KeyKind, key: u32) -> bool
        ensures { result ≡ (key_by kind self.now == key) }
    {
        match kind {
            KeyKind::Local => self.keys.local == key,
            KeyKind::Remote => self.keys.remote == key,
        }
    }

    /// It holds that many bytes from the address on.
    pub fn holds(&self, address: u128, count: usize) -> bool
        ensures { result ≡ holds self.now address count }
    {
        let base = u128::from(self.base);
        let length = self.bytes.len() as u128;
        base <= address && address - base <= length && count as u128 <= length - (address - base)
    }

    fn allows(&self, need: Need) -> bool
        ensures { result ≡ allows self.now.rights (right_of need) }
    {
        let rights = self.rights.0;
        match need {
            Need::Nothing => true,
            Need::LocalWrite => rights % 2 == 1,
            Need::RemoteWrite => rights / 2 % 2 == 1,
            Need::RemoteRead => rights / 4 % 2 == 1,
            Need::RemoteAtomic => rights / 8 % 2 == 1,
        }
    }

    fn is_at(&self, place: &KeyedRange) -> bool
        ensures { result
            ≡ is_at (key_by place.now.kind) place.now.key place.now.address place.now.count
            self.now }
    {
        self.has_key(place.kind, place.key) && self.holds(place.address, place.count)
    }

    fn grants(&self, domain: Name, place: &KeyedRange, need: Need) -> bool
        ensures { result
            ≡ grants (key_by place.now.kind) domain place.now.key place.now.address place.now.count
            (right_of need) self.now }
    {
        self.domain == domain
            && self.has_key(place.kind, place.key)
            && self.allows(need)
            && self.holds(place.address, place.count)
    }

    /// Its bytes from an address on are overwritten.
    pub fn overwrite(&mut self, address: u128, new: &[u8])
        requires { holds self.old address (length new.now) ≡ true }
        ensures { self.new ≡ overwritten self.old address new.now }
    {
        let from = (address - u128::from(self.base)) as usize;
        self.bytes[from..from + new.len()].copy_from_slice(new);
    }

    /// A copy of its bytes from an address on. Errors: `AllocError` when out of memory.
    pub fn read(&self, alloc: Global, address: u128, count: usize) -> Result<Vec<u8>, AllocError>
        requires { holds self.now address count ≡ true }
        ensures bytes { IfOk result (λ v. v.items
            ≡ cut (address - self.now.base) count self.now.bytes) }
        ensures length { IfOk result (λ v. length v.items ≡ count) }
    {
        let from = (address - u128::from(self.base)) as usize;
        Vec::from_slice(alloc, &self.bytes[from..from + count])
    }
}

fn place_at(regions: &[Region], place: &KeyedRange) -> usize
    ensures { result
        ≡ place_where (is_at (key_by place.now.kind) place.now.key place.now.address
        place.now.count) regions.now }
{
    for (i, region) in regions.iter().enumerate() {
        if region.is_at(place) {
            return i;
        }
    }
    regions.len()
}

fn some_grants(regions: &[Region], domain: Name, place: &KeyedRange, need: Need) -> bool
    ensures { result
        ≡ list_any (grants (key_by place.now.kind) domain place.now.key place.now.address
        place.now.count (right_of need)) regions.now }
{
    for region in regions {
        if region.grants(domain, place, need) {
            return true;
        }
    }
    false
}

/// A place is granted in a domain.
pub fn is_granted(regions: &[Region], domain: Name, place: &KeyedRange, need: Need) -> bool
    ensures { result
        ≡ is_granted (key_by place.now.kind) regions.now domain place.now.key place.now.address
        place.now.count (right_of need) }
{
    place.count == 0 || some_grants(regions, domain, place, need)
}

/// Bytes are put at a place.
pub fn put_at(regions: &mut Vec<Region>, place: &KeyedRange, new: &[u8])
    requires { place.now.count ≡ length new.now }
    ensures { regions.new.items
        ≡ put_at (key_by place.now.kind) place.now.key place.now.address new.now regions.old.items }
{
    let at = place_at(regions, place);
    if let Some(region) = regions.get_mut(at) {
        region.overwrite(place.address, new);
    }
}

/// A copy of the bytes at a place. Errors: `AllocError` when out of memory.
pub fn bytes_at(
    alloc: Global,
    regions: &[Region],
    place: &KeyedRange,
) -> Result<Vec<u8>, AllocError>
    ensures bytes { IfOk result (λ v. v.items ≡ bytes_at
        (key_by place.now.kind) place.now.key place.now.address place.now.count regions.now) }
    ensures short { IfOk result (λ v. length v.items ≤ place.now.count) }
{
    match regions.get(place_at(regions, place)) {
        Some(region) => region.read(alloc, place.address, place.count),
        None => Ok(Vec::new(alloc)),
    }
}
