//! The pool and its lists.

ghost use Rattle.std.specs.Prelude.{◌≡◌, ℕ, ◌+◌, ◌-◌, ◌*◌, ◌/◌, ◌%◌, ◌<◌, ◌≤◌, ◌↔◌, ◌++◌, [], All, length, sum, take, drop, slice_index, IsSome, IsTrue, Some, None, OnOk, OnErr, IfOk, IfErr, IfSome, IsErrOf};
ghost use Rattle.std.specs.List.{AllZip, flat_map};
ghost use Rattle.std.specs.Arc.{arc_value};
ghost use Rattle.rdma_types.specs.Memory.{cut, put};
ghost use Rattle.page_pool.specs.Store.{IsSound, blank};
ghost use Rattle.page_pool.specs.Ledger.{IsPool, IsSamePage, IsWholePage, own_number, own_numbers, page_bytes, pages, slot, pool_of};
ghost use Rattle.byte_run.specs.Pages.{joined};
ghost use Rattle.page_pool.specs.Pool.{Pool, bytes_of, bytes_in, IsIn, Puts, pages_of, free_pages, held_pages, pages_for};

use crate::claims::{give_pages, hold_pages, take_pages};
use crate::frames::Frames;
use crate::page::{self, Page};
use crate::{LowerError, PAGE, PoolFault};
use byte_run::ByteRun;
use slab::Slab;
use std::alloc::{AllocError, Global};
use std::marker::Model;
use std::sync::Arc;

/// A list of pages of a pool, which stands for their bytes. Contracts see its number.
#[derive(Drop)]
pub struct PageList {
    list: usize,
}

impl Model for PageList {
    ghost use Rattle.std.specs.Prelude.{ℕ};

    ghost Value = { ℕ };

    ghost view = { λ l. l.list };
}

impl PageList {
    /// The list of the same number, for a copy of its pool.
    pub fn in_copied_pool(&self) -> PageList
        ensures { result ≡ self.now }
    {
        PageList { list: self.list }
    }
}

/// Pages of 4,096 bytes, and the lists that share them. A page of a list is shared with runs of bytes where it came from
/// one, or was never written; else it is one of the pool's own. `held` counts the pages of all lists, and so many of the
/// pool's own there are at least, so that each can be written.
#[derive(Drop)]
pub struct PagePool {
    frames: Frames,
    zeros: Arc<[u8; 4096]>,
    lists: Slab<Vec<Page>>,
    held: u32,
}

impl Model for PagePool {
    ghost use Rattle.std.specs.Prelude.{◌≡◌};
    ghost use Rattle.std.specs.Arc.{arc_value};
    ghost use Rattle.page_pool.specs.Store.{blank};
    ghost use Rattle.page_pool.specs.Pool.{Pool};
    ghost use Rattle.page_pool.specs.Ledger.{pool_of, IsPool};

    ghost Value = { Pool };

    ghost view = { λ p. pool_of p.frames p.lists.slots };

    ghost invariant = { λ p. IsPool p.frames p.lists.slots p.held × (arc_value p.zeros ≡ blank 4096) };
}

impl PagePool {
    /// A pool of free pages. Errors: `AllocError` when out of memory.
    pub fn make(alloc: Global, pages: u32) -> Result<PagePool, AllocError>
        ensures { IfOk result (λ p. p ≡ record { pages = pages; lists = [] }) }
    {
        Ok(PagePool {
            frames: Frames::make(alloc, pages)?,
            zeros: Arc::new(alloc, [0; PAGE])?,
            lists: Slab::new(alloc),
            held: 0,
        })
    }

    /// An equal pool. The lists keep their numbers: a list of one pool has the same bytes in the other, until it is
    /// written. What is written in one pool is not seen in the other. Pages that runs of bytes share, both pools share.
    /// Errors: `AllocError` when out of memory.
    pub fn copy(&self, alloc: Global) -> Result<PagePool, AllocError>
        ensures { IfOk result (λ p. p ≡ self.now) }
    {
        Ok(PagePool {
            frames: self.frames.copy(alloc)?,
            zeros: Arc::try_clone(&self.zeros)?,
            lists: self.lists.clone()?,
            held: self.held,
        })
    }

    /// How many pages are free: those of the pool less those of all lists, where a page of two lists counts twice.
    pub fn free(&self) -> u32
        ensures free { result ≡ free_pages self.now }
        ensures all { result + held_pages self.now ≡ self.now.pages }
    {
        self.frames.pages() - self.held
    }

    /// How many bytes a list has.
    pub fn size(&self, list: &PageList) -> u64
        requires { IsIn self.now list.now }
        ensures size { result ≡ length (bytes_in self.now list.now) }
        ensures pages { 4096 * pages_of (bytes_of self.now list.now) ≡ result }
    {
        (self.lists[list.list].len() * PAGE) as u64
    }

    /// A list of `n` new pages of zeros. Errors: `NoPage` exactly where fewer are free, or `OutOfMemory`. The pool is
    /// then as it was.
    pub fn take(&mut self, alloc: Global, n: u32) -> Result<PageList, PoolFault>
        ensures new { IfOk result (λ list. bytes_of self.old list ≡ None) }
        ensures puts { IfOk result (λ list. Puts self.old self.new list (Some (blank (4096 * n)))) }
        ensures free { OnOk result (free_pages self.new + n ≡ free_pages self.old) }
        ensures no_page { IsErrOf result PoolFault.NoPage ↔ (free_pages self.old < n) }
        ensures err { OnErr result (self.new ≡ self.old) }
    {
        self.take_with(alloc, n, 0, &ByteRun::make(alloc))
    }

    /// A list of `n` new pages with the bytes of a run from `first` on, and zeros elsewhere. Errors: `NoPage` exactly
    /// where fewer are free, or `OutOfMemory`. The pool is then as it was.
    pub fn take_with(
        &mut self,
        alloc: Global,
        n: u32,
        first: u64,
        bytes: &ByteRun,
    ) -> Result<PageList, PoolFault>
        requires { first + length bytes.now ≤ 4096 * n }
        ensures new { IfOk result (λ list. bytes_of self.old list ≡ None) }
        ensures puts { IfOk result (λ list. Puts self.old self.new list
            (Some (put (blank (4096 * n)) first bytes.now))) }
        ensures free { OnOk result (free_pages self.new + n ≡ free_pages self.old) }
        ensures no_page { IsErrOf result PoolFault.NoPage ↔ (free_pages self.old < n) }
        ensures err { OnErr result (self.new ≡ self.old) }
    {
        if self.free() < n {
            return Err(PoolFault::NoPage);
        }
        let mut pages = Vec::with_capacity(alloc, n as usize)?;
        self.lists.reserve(1)?;
        take_pages(&mut self.frames, &self.zeros, &mut pages, n, bytes, first);
        let list = self.lists.insert_reserved(pages);
        self.held += n;
        Ok(PageList { list })
    }

    /// A list of `count` pages of another list from page `first` on, which both share from now on. Errors: `NoPage`
    /// exactly where fewer than `count` are free, or `OutOfMemory`. The pool is then as it was.
    pub fn share(
        &mut self,
        alloc: Global,
        list: &PageList,
        first: u32,
        count: u32,
    ) -> Result<PageList, PoolFault>
        requires held { IsIn self.old list.now }
        requires inside { first + count ≤ pages_of (bytes_of self.old list.now) }
        ensures new { IfOk result (λ other. bytes_of self.old other ≡ None) }
        ensures puts { IfOk result (λ other. Puts self.old self.new other
            (Some (cut (4096 * first) (4096 * count) (bytes_in self.old list.now)))) }
        ensures free { OnOk result (free_pages self.new + count ≡ free_pages self.old) }
        ensures no_page { IsErrOf result PoolFault.NoPage ↔ (free_pages self.old < count) }
        ensures err { OnErr result (self.new ≡ self.old) }
    {
        if self.free() < count {
            return Err(PoolFault::NoPage);
        }
        let pages = part_of(
            alloc,
            &self.lists[list.list],
            first as usize,
            count as usize,
        )?;
        self.lists.reserve(1)?;
        hold_pages(&mut self.frames, &pages);
        let list = self.lists.insert_reserved(pages);
        self.held += count;
        Ok(PageList { list })
    }

    /// Ends a list: its pages are free again, but for those of other lists. It takes no memory.
    pub fn give(&mut self, list: PageList)
        requires { IsIn self.old list }
        ensures puts { Puts self.old self.new list None }
        ensures free { free_pages self.new ≡ free_pages self.old
            + pages_of (bytes_of self.old list) }
    {
        let pages = self.lists.remove(list.list);
        give_pages(&mut self.frames, &pages);
        self.held -= pages.len() as u32;
    }

    /// The bytes of a list from `at` on to the end of their page of 4,096 bytes.
    pub fn piece(&self, list: &PageList, at: u64) -> &[u8]
        requires held { IsIn self.now list.now }
        requires inside { at < length (bytes_in self.now list.now) }
        ensures bytes { result.now ≡ cut at (4096 - at % 4096) (bytes_in self.now list.now) }
        ensures length { length result.now ≡ 4096 - at % 4096 }
    {
        let at = at as usize;
        let page = &self.lists[list.list][at / PAGE];
        rest_of(page_of(&self.frames, page), at % PAGE)
    }

    /// Copies the bytes of a list from `at` on into `out`, as many as it has. It takes no memory.
    pub fn read(&self, list: &PageList, at: u64, out: &mut [u8])
        requires held { IsIn self.now list.now }
        requires inside { at + length out.old ≤ length (bytes_in self.now list.now) }
        ensures { out.new ≡ cut at (length out.old) (bytes_in self.now list.now) }
    {
        let _size = self.size(list);
        let mut done = 0;
        while done < out.len() {
            let piece = self.piece(list, at + done as u64);
            let count = piece.len().min(out.len() - done);
            out[done..done + count].copy_from_slice(&piece[..count]);
            done += count;
        }
    }

    /// Writes bytes into a list from `at` on. A page that another list or a run holds is copied first, and there is always a page
    /// for the copy. It takes no memory.
    #[inline(always)]
    pub fn write(&mut self, list: &mut PageList, at: u64, bytes: &[u8])
        requires held { IsIn self.old list.old }
        requires inside { at + length bytes.now ≤ length (bytes_in self.old list.old) }
        ensures puts { Puts self.old self.new list.old
            (Some (put (bytes_in self.old list.old) at bytes.now)) }
        ensures list { list.new ≡ list.old }
        ensures free { free_pages self.new ≡ free_pages self.old }
    {
        let _size = self.size(list);
        let mut done = 0;
        while done < bytes.len() {
            let place = at as usize + done;
            let count = (PAGE - place % PAGE).min(bytes.len() - done);
            self.write_piece(list, place, &bytes[done..done + count]);
            done += count;
        }
    }

    /// Takes bytes of a list out, and ends the list. Errors: the list itself when out of memory; the pool is then as it
    /// was.
    pub fn lift(
        &mut self,
        alloc: Global,
        list: PageList,
        first: u64,
        count: u32,
    ) -> Result<ByteRun, PageList>
        requires held { IsIn self.old list }
        requires inside { first + count ≤ length (bytes_in self.old list) }
        ensures bytes { IfOk result (λ run. run ≡ cut first count (bytes_in self.old list)) }
        ensures puts { OnOk result (Puts self.old self.new list None) }
        ensures free { OnOk result (free_pages self.new
            ≡ free_pages self.old + pages_of (bytes_of self.old list)) }
        ensures back { IfErr result (λ other. other ≡ list) }
        ensures err { OnErr result (self.new ≡ self.old) }
    {
        match self.copy_out(alloc, &list, first, count as usize) {
            Ok(run) => {
                self.give(list);
                Ok(run)
            }
            Err(_) => Err(list),
        }
    }

    /// A copy of `count` bytes of a list from `first` on, which shares whole pages where it can. Errors: `AllocError` when
    /// out of memory.
    pub fn copy_out(
        &self,
        alloc: Global,
        list: &PageList,
        first: u64,
        count: usize,
    ) -> Result<ByteRun, AllocError>
        requires held { IsIn self.now list.now }
        requires inside { first + count ≤ length (bytes_in self.now list.now) }
        ensures { IfOk result (λ run. run ≡ cut first count (bytes_in self.now list.now)) }
    {
        let _size = self.size(list);
        let whole = if first % 4096 == 0 { count / PAGE } else { 0 };
        let from = (first / 4096) as usize;
        let pages = &self.lists[list.list][from..from + whole];
        let mut run = run_of(alloc, &self.frames, pages)?;
        let mut done = whole * PAGE;
        while done < count {
            let piece = self.piece(list, first + done as u64);
            let taken = piece.len().min(count - done);
            run.append(alloc, &piece[..taken])?;
            done += taken;
        }
        Ok(run)
    }

    /// A list of the fewest pages that hold `first` and the bytes: the bytes from `first` on, and zeros elsewhere.
    /// Errors: the bytes, with `NoPage` exactly where fewer pages are free, or with `OutOfMemory`. The pool is then as
    /// it was.
    pub fn lower(
        &mut self,
        alloc: Global,
        bytes: ByteRun,
        first: u64,
    ) -> Result<PageList, LowerError>
        requires { first < 4096 }
        ensures new { IfOk result (λ list. bytes_of self.old list ≡ None) }
        ensures puts { IfOk result (λ list. Puts self.old self.new list
            (Some (put (blank (4096 * pages_for (first + length bytes))) first bytes))) }
        ensures free { OnOk result (free_pages self.new + pages_for (first + length bytes)
            ≡ free_pages self.old) }
        ensures back { IfErr result (λ unlowered. unlowered.bytes ≡ bytes) }
        ensures no_page { IfErr result (λ unlowered. (unlowered.why ≡ PoolFault.NoPage)
            ↔ (free_pages self.old < pages_for (first + length bytes))) }
        ensures enough { OnOk result (pages_for (first + length bytes) ≤ free_pages self.old) }
        ensures err { OnErr result (self.new ≡ self.old) }
    {
        let room = u64::from(self.free()) * 4096;
        if room < first || room - first < bytes.len() {
            let why = PoolFault::NoPage;
            return Err(LowerError { bytes, why });
        }
        let pages = (first + bytes.len()).div_ceil(4096) as u32;
        match self.take_with(alloc, pages, first, &bytes) {
            Ok(list) => Ok(list),
            Err(why) => Err(LowerError { bytes, why }),
        }
    }

    /// Writes a run of bytes into a list from `at` on, as `write` does. It takes no memory.
    pub fn write_run(&mut self, list: &mut PageList, at: u64, bytes: &ByteRun)
        requires held { IsIn self.old list.old }
        requires inside { at + length bytes.now ≤ length (bytes_in self.old list.old) }
        ensures puts { Puts self.old self.new list.old
            (Some (put (bytes_in self.old list.old) at bytes.now)) }
        ensures list { list.new ≡ list.old }
        ensures free { free_pages self.new ≡ free_pages self.old }
    {
        let _size = self.size(list);
        let count = bytes.len();
        let mut done = 0;
        while done < count {
            let piece = bytes.piece(done);
            self.write(list, at + done, piece);
            done += piece.len() as u64;
        }
    }

    /// Writes bytes into one page of a list.
    fn write_piece(&mut self, list: &PageList, at: usize, bytes: &[u8])
        requires held { IsIn self.old list.now }
        requires inside { at < length (bytes_in self.old list.now) }
        requires page { at % 4096 + length bytes.now ≤ 4096 }
        ensures puts { Puts self.old self.new list.now
            (Some (put (bytes_in self.old list.now) at bytes.now)) }
        ensures free { free_pages self.new ≡ free_pages self.old }
    {
        let pages = &mut self.lists[list.list];
        page::write_page(&mut self.frames, &mut pages[at / PAGE], at % PAGE, bytes);
    }
}

/// The bytes from a place on.
fn rest_of(bytes: &[u8], from: usize) -> &[u8]
    requires { from ≤ length bytes.now }
    ensures { result.now ≡ drop from bytes.now }
{
    &bytes[from..]
}

/// The bytes of a page of a list.
fn page_of<'a>(frames: &'a Frames, page: &'a Page) -> &'a [u8]
    requires held { All (λ number. 0 < slice_index frames.now.holders number)
        (own_number page.now) }
    ensures { result.now ≡ page_bytes frames.now.bytes page.now }
{
    match page {
        Page::Own(number) => frames.page(*number),
        Page::Shared(page) => page.as_slice(),
    }
}

/// A page of a list, to be shared: the page itself where it is one to share, and else a copy. Errors: `AllocError` when out
/// of memory.
fn shared_page(alloc: Global, frames: &Frames, page: &Page) -> Result<Arc<[u8; 4096]>, AllocError>
    requires sound { IsSound frames.now }
    requires held { All (λ number. 0 < slice_index frames.now.holders number)
        (own_number page.now) }
    requires whole { IsWholePage page.now }
    ensures bytes { IfOk result (λ shared. arc_value shared
        ≡ page_bytes frames.now.bytes page.now) }
    ensures whole { IfOk result (λ shared. length (arc_value shared) ≡ 4096) }
{
    match page {
        Page::Own(number) => Ok(Arc::new(alloc, *frames.page(*number))?),
        Page::Shared(page) => Arc::try_clone(page),
    }
}

/// The bytes of pages in a row, of which those to share are shared. Errors: `AllocError` when out of memory.
fn run_of(alloc: Global, frames: &Frames, pages: &[Page]) -> Result<ByteRun, AllocError>
    requires sound { IsSound frames.now }
    requires held { All (λ number. 0 < slice_index frames.now.holders number)
        (own_numbers pages.now) }
    requires whole { All IsWholePage pages.now }
    ensures { IfOk result (λ run. run ≡ flat_map (page_bytes frames.now.bytes) pages.now) }
{
    let mut shared = Vec::with_capacity(alloc, pages.len())?;
    for page in pages {
        shared.push_reserved(shared_page(alloc, frames, page)?);
    }
    ByteRun::of_pages(alloc, shared)
}

/// Some pages in a row. Errors: `AllocError` when out of memory.
fn part_of(
    alloc: Global,
    pages: &[Page],
    first: usize,
    count: usize,
) -> Result<Vec<Page>, AllocError>
    requires { first + count ≤ length pages.now }
    ensures { IfOk result (λ part. AllZip IsSamePage
        (take count (drop first pages.now)) part.items) }
{
    pages[first..first + count].to_vec(alloc)
}
