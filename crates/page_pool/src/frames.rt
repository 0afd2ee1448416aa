//! Pages that several lists may hold, each with the count of its holders.

ghost use Rattle.std.specs.Prelude.{◌≡◌, ℕ, ◌+◌, ◌-◌, ◌*◌, ◌<◌, ◌≤◌, length, sum, nat_lt, replicate, slice_index, slice_set, IfOk};
ghost use Rattle.rdma_types.specs.Memory.{cut, put};
ghost use Rattle.page_pool.specs.Store.{IsSound};
ghost use Rattle.page_pool.specs.Ledger.{page_at};

use crate::page_bytes::PageBytes;
use std::alloc::{AllocError, Global};
use std::marker::Model;

/// The pages of a pool. A page is made as it is first taken: until then contracts see its zeros, and no memory holds them.
/// Pages that were held, and that nobody holds, wait in a stack.
#[derive(Drop)]
pub struct Frames {
    bytes: PageBytes,
    holders: Vec<u32>,
    stock: Vec<u32>,
    pages: u32,
}

impl Model for Frames {
    ghost use Rattle.std.specs.Prelude.{◌*◌, vec_capacity};
    ghost use Rattle.page_pool.specs.Store.{Store, IsMade, IsStock, padded, waiting};

    ghost Value = { Store };

    ghost view = { λ f. record { bytes = padded (4096 * f.pages) f.bytes.items; holders = padded f.pages f.holders.items } };

    ghost invariant = { λ f. IsMade f.bytes.items f.holders.items f.pages f.bytes.room (vec_capacity f.holders) × IsStock (padded (4096 * f.pages) f.bytes.items) (padded f.pages f.holders.items) (waiting f.holders.items f.pages f.stock.items) (vec_capacity f.stock) };
}

impl Frames {
    /// Pages of zeros that nobody holds. Errors: `AllocError` when out of memory.
    pub fn make(alloc: Global, pages: u32) -> Result<Frames, AllocError>
        ensures { IfOk result (λ f. f
            ≡ record { bytes = replicate (4096 * pages) 0; holders = replicate pages 0 }) }
    {
        let count = pages as usize;
        Ok(Frames {
            bytes: PageBytes::make(alloc, pages)?,
            holders: Vec::with_capacity(alloc, count)?,
            stock: Vec::with_capacity(alloc, count)?,
            pages,
        })
    }

    /// Equal pages, with as much room. Errors: `AllocError` when out of memory.
    pub fn copy(&self, alloc: Global) -> Result<Frames, AllocError>
        ensures { IfOk result (λ f. f ≡ self.now) }
    {
        let count = self.pages as usize;
        let bytes = self.bytes.copy(alloc)?;
        let mut holders = Vec::with_capacity(alloc, count)?;
        holders.extend_from_slice(&self.holders)?;
        let mut stock = Vec::with_capacity(alloc, count)?;
        stock.extend_from_slice(&self.stock)?;
        Ok(Frames {
            bytes,
            holders,
            stock,
            pages: self.pages,
        })
    }

    /// How many pages there are.
    pub fn pages(&self) -> u32
        ensures { result ≡ length self.now.holders }
    {
        self.pages
    }

    /// Whether more than one list holds a page.
    pub fn is_shared(&self, page: u32) -> bool
        requires { 0 < slice_index self.now.holders page }
        ensures { result ≡ nat_lt 1 (slice_index self.now.holders page) }
    {
        self.holders[page as usize] > 1
    }

    /// The bytes of a page.
    pub fn page(&self, page: u32) -> &[u8; 4096]
        requires { 0 < slice_index self.now.holders page }
        ensures { result.now ≡ cut (4096 * page) 4096 self.now.bytes }
    {
        self.bytes.page(page as usize)
    }

    /// Writes bytes into a page.
    pub fn put(&mut self, page: u32, at: usize, bytes: &[u8])
        requires held { 0 < slice_index self.old.holders page }
        requires room { at + length bytes.now ≤ 4096 }
        ensures new { self.new
            ≡ record self.old { bytes = put self.old.bytes (4096 * page + at) bytes.now } }
        ensures sound { IsSound self.new }
    {
        self.bytes.put(page as usize, at, bytes);
    }

    /// One more holder of a page.
    pub fn hold(&mut self, page: u32)
        requires held { 0 < slice_index self.old.holders page }
        requires room { sum self.old.holders < length self.old.holders }
        ensures new { self.new
            ≡ record self.old {
              holders = slice_set self.old.holders page
                  (slice_index self.old.holders page + 1);
            } }
        ensures sound { IsSound self.new }
    {
        self.holders[page as usize] += 1;
    }

    /// One holder of a page less. The bytes of a page that nobody holds any longer are not told.
    pub fn release(&mut self, page: u32)
        requires held { 0 < slice_index self.old.holders page }
        ensures holders { self.new.holders ≡ slice_set self.old.holders page
            (slice_index self.old.holders page - 1) }
        ensures kept { (other : ℕ) → 0 < slice_index self.new.holders other
            → page_at self.new.bytes other ≡ page_at self.old.bytes other }
        ensures sound { IsSound self.new }
    {
        let left = self.holders[page as usize] - 1;
        self.holders[page as usize] = left;
        if left == 0 {
            self.stock.push(page).unwrap();
        }
    }

    /// A page that nobody held, with these bytes.
    pub fn fresh(&mut self, bytes: &[u8; 4096]) -> u32
        requires room { sum self.old.holders < length self.old.holders }
        requires whole { length bytes.now ≡ 4096 }
        ensures page { result < length self.old.holders }
        ensures idle { slice_index self.old.holders result ≡ 0 }
        ensures new { self.new ≡ record {
          bytes = put self.old.bytes (4096 * result) bytes.now;
          holders = slice_set self.old.holders result 1;
        } }
        ensures sound { IsSound self.new }
    {
        match self.stock.pop() {
            Some(page) => {
                self.bytes.write_page(page as usize, bytes);
                self.holders[page as usize] = 1;
                page
            }
            None => {
                let page = self.holders.len() as u32;
                self.bytes.push(bytes);
                self.holders.push(1).unwrap();
                page
            }
        }
    }

    /// A copy of a page with one holder, who holds the page no longer.
    pub fn fork(&mut self, page: u32) -> u32
        requires shared { 1 < slice_index self.old.holders page }
        ensures page { result < length self.old.holders }
        ensures idle { slice_index self.old.holders result ≡ 0 }
        ensures new { self.new ≡ record {
          bytes = put self.old.bytes (4096 * result) (cut (4096 * page) 4096 self.old.bytes);
          holders = slice_set (slice_set self.old.holders page (slice_index self.old.holders page - 1)) result 1;
        } }
        ensures sound { IsSound self.new }
    {
        let bytes = *self.bytes.page(page as usize);
        self.holders[page as usize] -= 1;
        self.fresh(&bytes)
    }
}
