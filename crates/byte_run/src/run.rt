//! A run of bytes.

ghost use Rattle.std.specs.Prelude.{◌≡◌, ℕ, ◌+◌, ◌-◌, ◌*◌, ◌%◌, ◌/◌, ◌^◌, ◌<◌, ◌≤◌, ◌++◌, [], length, min, take, OnOk, OnErr, IfOk, IfSome, IsSome, IsFalse};
ghost use Rattle.std.specs.Arc.{arc_value};
ghost use Rattle.std.specs.Bool.{OnTrue};
ghost use Rattle.rdma_types.specs.Memory.{cut, put};
ghost use Rattle.byte_run.specs.Pages.{joined, pages_in, ArePages, IsRun};

use crate::PAGE;
use std::alloc::{AllocError, Global};
use std::marker::Model;
use std::sync::Arc;

type Pages = Vec<Arc<[u8; 4096]>>;

/// A list of bytes in pages of 4,096 bytes. Copies share the list of pages, and a list that is shared is copied before it
/// is written; the two lists then share the pages, of which the same is true.
#[derive(Drop)]
pub struct ByteRun {
    alloc: Global,
    // None before the first bytes, so that no bytes take no memory.
    pages: Option<Arc<Pages>>,
    len: usize,
}

impl Model for ByteRun {
    ghost use Rattle.std.specs.Prelude.{ℕ, List, take};
    ghost use Rattle.byte_run.specs.Pages.{joined, pages_in, IsRun};

    ghost Value = { List ℕ };

    ghost view = { λ r. take r.len (joined (pages_in r.pages)) };

    ghost invariant = { λ r. IsRun (pages_in r.pages) r.len };
}

impl ByteRun {
    /// No bytes. It takes no memory.
    pub fn make(alloc: Global) -> ByteRun
        ensures { result ≡ [] }
    {
        ByteRun {
            alloc,
            pages: None,
            len: 0,
        }
    }

    /// How many bytes there are.
    pub fn len(&self) -> u64
        ensures { result ≡ length self.now }
    {
        self.len as u64
    }

    /// The bytes from `at` on to the end of their page of 4,096 bytes, or to the end of the run.
    pub fn piece(&self, at: u64) -> &[u8]
        requires { at < length self.now }
        ensures bytes { result.now ≡ cut at (length result.now) self.now }
        ensures length { length result.now ≡ min (4096 - at % 4096) (length self.now - at) }
    {
        let at = at as usize;
        let page = &list(&self.pages)[at / PAGE];
        let from = at % PAGE;
        let count = (PAGE - from).min(self.len - at);
        &page[from..from + count]
    }

    /// Copies the bytes from `at` on into `out`, as many as it has.
    pub fn read(&self, at: u64, out: &mut [u8])
        requires { at + length out.old ≤ length self.now }
        ensures { out.new ≡ cut at (length out.old) self.now }
    {
        let _end = self.len;
        let mut done = 0;
        while done < out.len() {
            let piece = self.piece(at + done as u64);
            let count = piece.len().min(out.len() - done);
            out[done..done + count].copy_from_slice(&piece[..count]);
            done += count;
        }
    }

    /// Puts bytes at the end. Errors: `AllocError` when out of memory; the run is as it was.
    pub fn append(&mut self, alloc: Global, bytes: &[u8]) -> Result<(), AllocError>
        ensures ok { OnOk result (self.new ≡ self.old ++ bytes.now) }
        ensures err { OnErr result (self.new ≡ self.old) }
    {
        let end = self.len.checked_add(bytes.len()).ok_or(AllocError)?;
        let shared = self
            .pages
            .get_or_try_insert_with(|| Arc::new(alloc, Vec::new(alloc)))?;
        let pages = Arc::make_mut(shared)?;
        add_bytes(alloc, pages, self.len, bytes)?;
        self.len = end;
        Ok(())
    }

    /// The whole pages of 4,096 bytes, in their order, each to be shared.
    pub fn whole_pages(&self) -> &[Arc<[u8; 4096]>]
        ensures even { ArePages result.now }
        ensures bytes { joined result.now ≡ take (length self.now / 4096 * 4096) self.now }
    {
        &list(&self.pages)[..self.len / PAGE]
    }

    /// The bytes of whole pages, which the run shares. Errors: `AllocError` when out of memory.
    pub fn of_pages(alloc: Global, pages: Vec<Arc<[u8; 4096]>>) -> Result<ByteRun, AllocError>
        requires { ArePages pages.items }
        ensures { IfOk result (λ run. run ≡ joined pages.items) }
    {
        let len = pages.len().checked_mul(PAGE).ok_or(AllocError)?;
        Ok(ByteRun {
            alloc,
            pages: Some(Arc::new(alloc, pages)?),
            len,
        })
    }

    /// A run of the same bytes, which shares the list of pages. Errors: `AllocError` when out of memory.
    pub fn copy(&self, alloc: Global) -> Result<ByteRun, AllocError>
        ensures { IfOk result (λ run. run ≡ self.now) }
    {
        Ok(ByteRun {
            alloc,
            pages: self.pages.clone()?,
            len: self.len,
        })
    }
}

/// The pages, in their order.
fn list(pages: &Option<Arc<Pages>>) -> &[Arc<[u8; 4096]>]
    ensures { result.now ≡ pages_in pages.now }
{
    match pages {
        Some(pages) => pages,
        None => &[],
    }
}

/// Puts bytes behind the first `at`, piece by piece.
fn add_bytes(alloc: Global, pages: &mut Pages, at: usize, bytes: &[u8]) -> Result<(), AllocError>
    requires run { IsRun pages.old.items at }
    requires end { at + length bytes.now < 2 ^ 64 }
    ensures run { IsRun pages.new.items at }
    ensures kept { take at (joined pages.new.items) ≡ take at (joined pages.old.items) }
    ensures room { OnOk result (IsRun pages.new.items (at + length bytes.now)) }
    ensures bytes { OnOk result (take (at + length bytes.now) (joined pages.new.items)
        ≡ take at (joined pages.old.items) ++ bytes.now) }
{
    let mut done = 0;
    while done < bytes.len() {
        let place = at + done;
        let count = (PAGE - place % PAGE).min(bytes.len() - done);
        add_piece(alloc, pages, place, &bytes[done..done + count])?;
        done += count;
    }
    Ok(())
}

/// Puts bytes behind the first `at`, where one page holds them: a page that is there, or a new one.
fn add_piece(alloc: Global, pages: &mut Pages, at: usize, bytes: &[u8]) -> Result<(), AllocError>
    requires run { IsRun pages.old.items at }
    requires page { at % 4096 + length bytes.now ≤ 4096 }
    ensures err { OnErr result (pages.new.items ≡ pages.old.items) }
    ensures run { OnOk result (IsRun pages.new.items (at + length bytes.now)) }
    ensures bytes { OnOk result (take (at + length bytes.now) (joined pages.new.items)
        ≡ take at (joined pages.old.items) ++ bytes.now) }
{
    if at / PAGE < pages.len() {
        put_page(alloc, &mut pages[at / PAGE], at % PAGE, bytes)?;
    } else {
        pages.push(page_of(alloc, bytes)?)?;
    }
    Ok(())
}

/// A page that begins with these bytes.
fn page_of(alloc: Global, bytes: &[u8]) -> Result<Arc<[u8; 4096]>, AllocError>
    requires { length bytes.now ≤ 4096 }
    ensures even { IfOk result (λ page. length (arc_value page) ≡ 4096) }
    ensures bytes { IfOk result (λ page. take (length bytes.now) (arc_value page) ≡ bytes.now) }
{
    if let Some(whole) = bytes.first_chunk() {
        return Ok(Arc::new(alloc, *whole)?);
    }
    let mut page = [0; PAGE];
    page[..bytes.len()].copy_from_slice(bytes);
    Ok(Arc::new(alloc, page)?)
}

/// Writes bytes into a page, or into a copy of it where it is shared.
fn put_page(
    alloc: Global,
    page: &mut Arc<[u8; 4096]>,
    from: usize,
    bytes: &[u8],
) -> Result<(), AllocError>
    requires even { length (arc_value page.old) ≡ 4096 }
    requires room { from + length bytes.now ≤ 4096 }
    ensures ok { OnOk result (arc_value page.new ≡ put (arc_value page.old) from bytes.now) }
    ensures err { OnErr result (page.new ≡ page.old) }
{
    if !put_alone(page, from, bytes) {
        *page = page_with(alloc, page, from, bytes)?;
    }
    Ok(())
}

/// Writes bytes into a page that nothing else shares; and whether that was so.
pub fn put_alone(page: &mut Arc<[u8; 4096]>, from: usize, bytes: &[u8]) -> bool
    requires even { length (arc_value page.old) ≡ 4096 }
    requires room { from + length bytes.now ≤ 4096 }
    ensures done { OnTrue result (arc_value page.new ≡ put (arc_value page.old) from bytes.now) }
    ensures left { IsFalse result → page.new ≡ page.old }
{
    match Arc::get_mut(page) {
        Some(page) => {
            page[from..from + bytes.len()].copy_from_slice(bytes);
            true
        }
        None => false,
    }
}

/// A page with other bytes at a place.
fn page_with(
    alloc: Global,
    page: &Arc<[u8; 4096]>,
    from: usize,
    bytes: &[u8],
) -> Result<Arc<[u8; 4096]>, AllocError>
    requires even { length (arc_value page.now) ≡ 4096 }
    requires room { from + length bytes.now ≤ 4096 }
    ensures { IfOk result (λ new. arc_value new ≡ put (arc_value page.now) from bytes.now) }
{
    let mut copy = **page;
    copy[from..from + bytes.len()].copy_from_slice(bytes);
    Ok(Arc::new(alloc, copy)?)
}
