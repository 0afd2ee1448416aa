//! The bytes of the pages of a pool.

ghost use Rattle.std.specs.Prelude.{◌≡◌, ◌+◌, ◌*◌, ◌≤◌, ◌++◌, [], IfOk, length};
ghost use Rattle.rdma_types.specs.Memory.{cut, put};

use std::alloc::{AllocError, Global};
use std::marker::Model;

/// Pages of bytes, one after another. The memory for all is asked for when they are made, so that one page more takes none.
#[derive(Drop)]
pub struct PageBytes {
    made: Vec<[u8; 4096]>,
    pages: u32,
}

impl Model for PageBytes {
    ghost use Rattle.std.specs.Prelude.{◌≡◌, ◌*◌, ◌≤◌, All, length, vec_capacity};
    ghost use Rattle.std.specs.List.{flat_map};
    ghost use Rattle.page_pool.specs.Bytes.{Bytes};

    ghost Value = { Bytes };

    ghost view = { λ b. record { items = flat_map (λ page. page) b.made.items; room = 4096 * b.pages } };

    ghost invariant = { λ b. All (λ page. length page ≡ 4096) b.made.items × (b.pages ≤ vec_capacity b.made) };
}

impl PageBytes {
    /// No page, and room for so many. Errors: `AllocError` when out of memory.
    pub fn make(alloc: Global, pages: u32) -> Result<PageBytes, AllocError>
        ensures { IfOk result (λ b. b ≡ record { items = []; room = 4096 * pages }) }
    {
        Ok(PageBytes {
            made: Vec::with_capacity(alloc, pages as usize)?,
            pages,
        })
    }

    /// Equal pages, with as much room. Errors: `AllocError` when out of memory.
    pub fn copy(&self, alloc: Global) -> Result<PageBytes, AllocError>
        ensures { IfOk result (λ b. b ≡ self.now) }
    {
        let mut made = Vec::with_capacity(alloc, self.pages as usize)?;
        made.extend_from_slice(&self.made)?;
        Ok(PageBytes {
            made,
            pages: self.pages,
        })
    }

    /// One page more, with these bytes.
    pub fn push(&mut self, bytes: &[u8; 4096])
        requires room { length self.old.items + 4096 ≤ self.old.room }
        requires whole { length bytes.now ≡ 4096 }
        ensures items { self.new.items ≡ self.old.items ++ bytes.now }
        ensures room { self.new.room ≡ self.old.room }
    {
        self.made.push(*bytes).unwrap();
    }

    /// The bytes of a page.
    pub fn page(&self, page: usize) -> &[u8; 4096]
        requires { page * 4096 + 4096 ≤ length self.now.items }
        ensures { result.now ≡ cut (page * 4096) 4096 self.now.items }
    {
        &self.made[page]
    }

    /// Writes bytes into a page.
    pub fn put(&mut self, page: usize, at: usize, bytes: &[u8])
        requires page { page * 4096 + 4096 ≤ length self.old.items }
        requires room { at + length bytes.now ≤ 4096 }
        ensures items { self.new.items ≡ put self.old.items (page * 4096 + at) bytes.now }
        ensures room { self.new.room ≡ self.old.room }
    {
        let made = &mut self.made[page];
        made[at..at + bytes.len()].copy_from_slice(bytes);
    }

    /// Writes a whole page.
    pub fn write_page(&mut self, page: usize, bytes: &[u8; 4096])
        requires page { page * 4096 + 4096 ≤ length self.old.items }
        requires whole { length bytes.now ≡ 4096 }
        ensures items { self.new.items ≡ put self.old.items (page * 4096) bytes.now }
        ensures room { self.new.room ≡ self.old.room }
    {
        self.made[page] = *bytes;
    }
}
