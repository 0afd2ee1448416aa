//! A region of 64 bytes, and its bytes, where memory is ample.

ghost use Rattle.std.specs.Prelude.{◌≡◌, ◌<◌, ◌+◌, length, IfOk, IfSome, None};
ghost use Rattle.page_pool.specs.Pool.{IsIn};
ghost use Rattle.memory_keys.specs.Regions.{AreHeld, IsSpot, held_at};

use crate::memory::runs::two_of;
use memory_keys::{MemFault, RegionHead, RegionRange, Regions, regions_stay_whatever_their_bytes};
use page_pool::{ByteRun, PagePool, Payload};
use rdma_types::{Keys, Name, Rights};
use std::alloc::{AllocError, Global};
use std::test::Fail;

/// The head of a region of the domain `p` from address 8192 on, with all four rights and the keys from `local` on.
fn head(name: &[u8], local: u32, length: u32) -> Option<RegionHead>
    requires { local < 1000 }
    ensures keys { IfSome result (λ h. h.keys ≡ record { local = local; remote = local + 1 }) }
    ensures length { IfSome result (λ h. h.length ≡ length) }
{
    Some(RegionHead {
        name: Name::read(name)?,
        domain: Name::read(b"p")?,
        base: 8192,
        length,
        rights: Rights(15),
        keys: Keys {
            local,
            remote: local + 1,
        },
    })
}

/// A pool, and in it the region `n` of 64 bytes, with the keys 2 and 3.
fn memory(alloc: Global, pages: u32) -> Result<(PagePool, Regions), Fail>
    ensures held { IfOk result (λ m. AreHeld m.0 m.1) }
    ensures other { IfOk result (λ m. held_at 4 m.1 ≡ None) }
{
    let first = head(b"n", 2, 64).ok_or("a name")?;
    let mut pool = PagePool::make(alloc, pages)?;
    let mut regions = Regions::make(alloc);
    regions.register(&mut pool, alloc, first)?;
    regions_stay_whatever_their_bytes();
    Ok((pool, regions))
}

/// The bytes of a spot as they were when others were stored over them.
fn overwritten(
    alloc: Global,
    pool: &mut PagePool,
    regions: &mut Regions,
    spot: RegionRange,
    bytes: &[u8],
) -> Result<Payload, MemFault>
    requires held { AreHeld pool.old regions.old }
    requires spot { IsSpot regions.old spot }
    requires length { length bytes.now ≡ spot.length }
    ensures { IfOk result (λ payload. IsIn pool.new payload.list) }
{
    let payload = regions.snapshot(pool, alloc, spot)?;
    regions.store(pool, spot, bytes);
    Ok(payload)
}

/// The first four bytes of a payload; None where its list has fewer.
fn four_of(pool: &PagePool, payload: &Payload) -> Option<[u8; 4]>
    requires { IsIn pool.now payload.now.list }
{
    let size = pool.size(&payload.list);
    let first = u64::from(payload.first);
    if size < 4 || size - 4 < first {
        return None;
    }
    let mut bytes = [1; 4];
    pool.read(&payload.list, first, &mut bytes);
    Some(bytes)
}

/// Four bytes that are stored and taken as a snapshot, after others were stored over them.
fn snapped(
    alloc: Global,
    pool: &mut PagePool,
    regions: &mut Regions,
) -> Result<Option<[u8; 4]>, Fail>
    requires held { AreHeld pool.old regions.old }
{
    let p = Name::read(b"p").ok_or("a name")?;
    let place = regions.check_local(p, 2, 8192, 4, true);
    let spot = place.ok_or("granted")?;
    regions.store(pool, spot, &[0xde, 0xad, 0xbe, 0xef]);
    let payload = overwritten(alloc, pool, regions, spot, &[0; 4])?;
    Ok(four_of(pool, &payload))
}

/// The same of the region `n`.
fn kept(alloc: Global) -> Result<Option<[u8; 4]>, Fail> {
    let (mut pool, mut regions) = memory(alloc, 2)?;
    snapped(alloc, &mut pool, &mut regions)
}

#[test]
fn a_snapshot_stays(rt: HostRuntime) -> Result<(), Fail> {
    assert_eq!(rt; kept(rt.alloc())?, Some([0xde, 0xad, 0xbe, 0xef]));
    Ok(())
}

/// Whether the middle two of four bytes that are stored are found where they lie.
fn lie_in_place(pool: &mut PagePool, regions: &mut Regions) -> Result<bool, Fail>
    requires held { AreHeld pool.old regions.old }
{
    let p = Name::read(b"p").ok_or("a name")?;
    let place = regions.check_local(p, 2, 8192, 4, true);
    let spot = place.ok_or("granted")?;
    regions.store(pool, spot, &[0xde, 0xad, 0xbe, 0xef]);
    let bytes = regions.piece(pool, spot, 1, 2).ok_or("one page")?;
    Ok(bytes == [0xad, 0xbe].as_slice())
}

/// The same of the region `n`.
fn placed(alloc: Global) -> Result<bool, Fail> {
    let (mut pool, mut regions) = memory(alloc, 1)?;
    lie_in_place(&mut pool, &mut regions)
}

#[test]
fn bytes_lie_in_place(rt: HostRuntime) -> Result<(), Fail> {
    assert!(rt; placed(rt.alloc())?);
    Ok(())
}

/// Two bytes are restored as the region `m`, with the keys 4 and 5.
fn restore(alloc: Global, pool: &mut PagePool, regions: &mut Regions) -> Result<(), Fail>
    requires held { AreHeld pool.old regions.old }
    requires other { held_at 4 regions.old ≡ None }
    ensures held { AreHeld pool.new regions.new }
{
    let m = head(b"m", 4, 2).ok_or("a name")?;
    let mut bytes = ByteRun::make(alloc);
    bytes.append(alloc, &[7, 8])?;
    regions.restore(pool, alloc, m, &bytes)?;
    Ok(())
}

/// The bytes of the second region, if there are two and key 5 opens one.
fn two_of_second(
    alloc: Global,
    pool: &PagePool,
    regions: &Regions,
) -> Result<Option<[u8; 2]>, AllocError>
    requires held { AreHeld pool.now regions.now }
{
    if regions.len() != 2 || !regions.has_key(5) {
        return Ok(None);
    }
    let copy = regions.bytes_at(alloc, pool, 1)?;
    Ok(two_of(&copy))
}

/// Those bytes, where they were restored.
fn two_restored(
    alloc: Global,
    pool: &mut PagePool,
    regions: &mut Regions,
) -> Result<Option<[u8; 2]>, Fail>
    requires held { AreHeld pool.old regions.old }
    requires other { held_at 4 regions.old ≡ None }
    ensures held { AreHeld pool.new regions.new }
{
    restore(alloc, pool, regions)?;
    Ok(two_of_second(alloc, pool, regions)?)
}

/// The same of new regions, and how many pages are free when the regions are gone.
fn restored(alloc: Global) -> Result<(Option<[u8; 2]>, u32), Fail> {
    let (mut pool, mut regions) = memory(alloc, 2)?;
    let bytes = two_restored(alloc, &mut pool, &mut regions)?;
    regions.release(&mut pool);
    Ok((bytes, pool.free()))
}

#[test]
fn bytes_come_back(rt: HostRuntime) -> Result<(), Fail> {
    assert_eq!(rt; restored(rt.alloc())?, (Some([7, 8]), 2));
    Ok(())
}
