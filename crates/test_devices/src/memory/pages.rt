//! A pool, and the pages of lists, where memory is ample.

ghost use Rattle.std.specs.Prelude.{◌≡◌, ◌+◌, ◌<◌, ◌≤◌, length, IfOk, IfSome, OnOk};
ghost use Rattle.std.specs.Bool.{OnTrue};
ghost use Rattle.page_pool.specs.Pool.{IsIn, bytes_in};
ghost use Rattle.test_devices.specs.Lists.{Keeps};

use crate::memory::runs::{run_of, two_of};
use page_pool::{ByteRun, PageList, PagePool, PoolFault};
use std::alloc::{AllocError, Global};

/// How many pages of a pool are free, and how many bytes a list has.
fn sizes(pool: &PagePool, list: &PageList) -> (u32, u64)
    requires { IsIn pool.now list.now }
{
    (pool.free(), pool.size(list))
}

/// Whether a list has two bytes from `at` on.
fn has_two(pool: &PagePool, list: &PageList, at: u64) -> bool
    requires { IsIn pool.now list.now }
    ensures { OnTrue result (at + 2 ≤ length (bytes_in pool.now list.now)) }
{
    pool.size(list) >= 2 && pool.size(list) - 2 >= at
}

/// The two bytes of a list from `at` on; None where it has fewer.
fn two_at(pool: &PagePool, list: &PageList, at: u64) -> Option<[u8; 2]>
    requires { IsIn pool.now list.now }
{
    if !has_two(pool, list, at) {
        return None;
    }
    let mut out = [9; 2];
    pool.read(list, at, &mut out);
    Some(out)
}

/// Writes two bytes into a list from `at` on, where it has them.
fn put_two(pool: &mut PagePool, list: &mut PageList, at: u64, bytes: [u8; 2])
    requires { IsIn pool.old list.old }
    ensures list { list.new ≡ list.old }
    ensures lists { Keeps pool.old pool.new }
{
    if has_two(pool, list, at) {
        pool.write(list, at, &bytes);
    }
}

/// Another list of the two pages of a list.
fn shared(pool: &mut PagePool, alloc: Global, list: &PageList) -> Result<PageList, PoolFault>
    requires { IsIn pool.old list.now }
    ensures other { IfOk result (λ other. IsIn pool.new other) }
    ensures lists { OnOk result (Keeps pool.old pool.new) }
{
    if pool.size(list) != 8192 {
        return Err(PoolFault::NoPage);
    }
    pool.share(alloc, list, 0, 2)
}

/// How many pages are free before and after a list is given back.
fn free_without(pool: &mut PagePool, list: PageList) -> [u32; 2]
    requires { IsIn pool.old list }
{
    let before = pool.free();
    pool.give(list);
    [before, pool.free()]
}

/// Two bytes in a list, and the same two in another list of the same pages.
type Both = [Option<[u8; 2]>; 2];

/// The bytes of two lists of the same two pages, where bytes are written over the seam of the first; and how many pages are
/// free with and without the second.
fn told_of_shared(pool: &mut PagePool, alloc: Global) -> Result<(Both, [u32; 2]), PoolFault> {
    let mut list = pool.take(alloc, 2)?;
    let other = shared(pool, alloc, &list)?;
    put_two(pool, &mut list, 4095, [1, 2]);
    let bytes = [two_at(pool, &list, 4095), two_at(pool, &other, 4095)];
    Ok((bytes, free_without(pool, other)))
}

#[test]
fn a_shared_page_is_copied(rt: HostRuntime) -> Result<(), PoolFault> {
    let mut pool = PagePool::make(rt.alloc(), 4)?;
    let told = told_of_shared(&mut pool, rt.alloc())?;
    assert_eq!(rt; told, ([Some([1, 2]), Some([0, 0])], [0, 2]));
    Ok(())
}

/// A list of two pages with two bytes over their seam. A list that was taken before it is given back.
fn written(pool: &mut PagePool, alloc: Global, bytes: [u8; 2]) -> Result<PageList, PoolFault>
    ensures { IfOk result (λ list. IsIn pool.new list) }
{
    let gone = pool.take(alloc, 1)?;
    let mut list = pool.take(alloc, 2)?;
    pool.give(gone);
    put_two(pool, &mut list, 4095, bytes);
    Ok(list)
}

/// Two bytes of a list before and after these were written over them.
fn rewritten(pool: &mut PagePool, list: &mut PageList, at: u64, bytes: [u8; 2]) -> Both
    requires { IsIn pool.old list.old }
{
    let before = two_at(pool, list, at);
    put_two(pool, list, at, bytes);
    [before, two_at(pool, list, at)]
}

/// Two bytes of a new list; None where it has fewer, or no page is left.
fn two_of_new(pool: &mut PagePool, alloc: Global, count: u32, at: u64) -> Option<[u8; 2]> {
    let list = pool.take(alloc, count).ok()?;
    two_at(pool, &list, at)
}

/// Two bytes of a list in a copy of the pool, before and after they are written; those of a new list there; and how
/// many pages are then free there.
fn told_of_copy(
    pool: &PagePool,
    alloc: Global,
    list: &PageList,
) -> Result<(Both, Option<[u8; 2]>, u32), AllocError>
    requires { IsIn pool.now list.now }
{
    let mut copy = pool.copy(alloc)?;
    let mut twin = list.in_copied_pool();
    let bytes = rewritten(&mut copy, &mut twin, 4095, [3, 4]);
    let new = two_of_new(&mut copy, alloc, 2, 4095);
    Ok((bytes, new, copy.free()))
}

/// The same, and then what the pool itself has.
fn told_of_both(
    alloc: Global,
) -> Result<((Both, Option<[u8; 2]>, u32), (Option<[u8; 2]>, (u32, u64))), PoolFault> {
    let mut pool = PagePool::make(alloc, 4)?;
    let list = written(&mut pool, alloc, [1, 2])?;
    let told = told_of_copy(&pool, alloc, &list)?;
    Ok((told, (two_at(&pool, &list, 4095), sizes(&pool, &list))))
}

#[test]
fn a_copy_has_pages_of_its_own(rt: HostRuntime) -> Result<(), PoolFault> {
    let (copy, pool) = told_of_both(rt.alloc())?;
    assert_eq!(rt; copy, ([Some([1, 2]), Some([3, 4])], Some([0, 0]), 0));
    assert_eq!(rt; pool, (Some([1, 2]), (2, 8192)));
    Ok(())
}

/// So many bytes of a list from `first` on, taken out; None where it has fewer, or memory ran out.
fn lifted(
    pool: &mut PagePool,
    alloc: Global,
    list: PageList,
    first: u64,
    count: u32,
) -> Option<ByteRun>
    requires { IsIn pool.old list }
{
    let size = pool.size(&list);
    if size < u64::from(count) || size - u64::from(count) < first {
        return None;
    }
    pool.lift(alloc, list, first, count).ok()
}

/// A list of the pages that these bytes need from `first` on.
fn lowered(pool: &mut PagePool, alloc: Global, bytes: &[u8], first: u64) -> Option<PageList>
    requires { first < 4096 }
    ensures { IfSome result (λ list. IsIn pool.new list) }
{
    let run = run_of(alloc, bytes).ok()?;
    pool.lower(alloc, run, first).ok()
}

/// Two bytes that are lowered over a seam and lifted again: how many pages are free in between, the size of the list, how
/// many bytes come back, and the bytes.
fn told_of_moved(pool: &mut PagePool, alloc: Global) -> Option<((u32, u64), u64, Option<[u8; 2]>)> {
    let list = lowered(pool, alloc, &[1, 2], 4095)?;
    let sizes = sizes(pool, &list);
    let run = lifted(pool, alloc, list, 4095, 2)?;
    Some((sizes, run.len(), two_of(&run)))
}

#[test]
fn bytes_are_lowered_and_lifted(rt: HostRuntime) -> Result<(), PoolFault> {
    let mut pool = PagePool::make(rt.alloc(), 2)?;
    let told = told_of_moved(&mut pool, rt.alloc());
    assert_eq!(rt;
        (told, pool.free()),
        (Some(((0, 8192), 2, Some([1, 2]))), 2)
    );
    Ok(())
}

/// Two whole pages that are lowered, lifted and lowered again, then shared, and written over their seam: how many pages are
/// free after the first step and how many bytes the list has, the two bytes there of both lists, and two bytes that are
/// lifted at last.
fn told_of_whole(
    pool: &mut PagePool,
    alloc: Global,
) -> Option<((u32, u64), Both, Option<[u8; 2]>)> {
    let list = lowered(pool, alloc, &[7; 8192], 0)?;
    let sizes = sizes(pool, &list);
    let run = lifted(pool, alloc, list, 0, 8192)?;
    let mut list = pool.lower(alloc, run, 0).ok()?;
    let other = shared(pool, alloc, &list).ok()?;
    put_two(pool, &mut list, 4095, [1, 2]);
    let bytes = [two_at(pool, &list, 4095), two_at(pool, &other, 4095)];
    let run = lifted(pool, alloc, list, 4094, 2)?;
    Some((sizes, bytes, two_of(&run)))
}

#[test]
fn whole_pages_are_lowered_and_lifted(rt: HostRuntime) -> Result<(), PoolFault> {
    let mut pool = PagePool::make(rt.alloc(), 4)?;
    let told = told_of_whole(&mut pool, rt.alloc());
    let wanted = ((2, 8192), [Some([1, 2]), Some([7, 7])], Some([7, 1]));
    assert_eq!(rt; (told, pool.free()), (Some(wanted), 2));
    Ok(())
}
