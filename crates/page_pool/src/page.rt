//! A page of a list.

ghost use Rattle.std.specs.Prelude.{◌≡◌, ℕ, ◌+◌, ◌<◌, ◌≤◌, List, ◌∷◌, [], All, length, sum, slice_index, IsFalse};
ghost use Rattle.std.specs.Arc.{arc_value};
ghost use Rattle.std.specs.Bool.{OnTrue};
ghost use Rattle.rdma_types.specs.Memory.{put};
ghost use Rattle.page_pool.specs.Store.{IsSound, times};
ghost use Rattle.page_pool.specs.Ledger.{IsSamePage, IsWholePage, own_number, page_at, page_bytes};

use crate::frames::Frames;
use byte_run::put_alone;
use std::alloc::AllocError;
use std::sync::Arc;

/// A page of a list: one of the pool's own, by its number, or one that runs of bytes may share.
#[derive(Drop)]
pub enum Page {
    Own(u32),
    Shared(Arc<[u8; 4096]>),
}

impl Clone for Page {
    ghost is_clone = { IsSamePage };

    fn clone(&self) -> Result<Page, AllocError> {
        match self {
            Page::Own(number) => Ok(Page::Own(*number)),
            Page::Shared(page) => Ok(Page::Shared(Arc::try_clone(page)?)),
        }
    }
}

/// Writes bytes into a page of a list: in place where nothing else holds it, and else into a new page of the pool's own. It
/// takes no memory.
pub fn write_page(frames: &mut Frames, page: &mut Page, at: usize, bytes: &[u8])
    requires sound { IsSound frames.old }
    requires whole { IsWholePage page.old }
    requires held { All (λ number. 0 < slice_index frames.old.holders number)
        (own_number page.old) }
    requires free { sum frames.old.holders + 1
        ≤ length frames.old.holders + length (own_number page.old) }
    requires room { at + length bytes.now ≤ 4096 }
    ensures sound { IsSound frames.new }
    ensures pages { length frames.new.holders ≡ length frames.old.holders }
    ensures counted { (number : ℕ) → slice_index frames.new.holders number
        + times number (own_number page.old) ≡ slice_index frames.old.holders number
        + times number (own_number page.new) }
    ensures total { sum frames.new.holders + length (own_number page.old)
        ≡ sum frames.old.holders + length (own_number page.new) }
    ensures kept { (number : ℕ) → times number (own_number page.old)
        < slice_index frames.old.holders number
        → page_at frames.new.bytes number ≡ page_at frames.old.bytes number }
    ensures whole { IsWholePage page.new }
    ensures bytes { page_bytes frames.new.bytes page.new
        ≡ put (page_bytes frames.old.bytes page.old) at bytes.now }
{
    if put_shared(page, at, bytes) {
        return;
    }
    let number = own_page(frames, page);
    frames.put(number, at, bytes);
    *page = Page::Own(number);
}

/// Writes bytes into a page that runs of bytes may share, where nothing else shares it; and whether that was so.
fn put_shared(page: &mut Page, at: usize, bytes: &[u8]) -> bool
    requires whole { IsWholePage page.old }
    requires room { at + length bytes.now ≤ 4096 }
    ensures own { OnTrue result (own_number page.old ≡ []) }
    ensures shared { OnTrue result (own_number page.new ≡ []) }
    ensures whole { IsWholePage page.new }
    ensures done { (all : List ℕ) → OnTrue result (page_bytes all page.new
        ≡ put (page_bytes all page.old) at bytes.now) }
    ensures left { IsFalse result → page.new ≡ page.old }
{
    match page {
        Page::Shared(shared) => put_alone(shared, at, bytes),
        Page::Own(_) => false,
    }
}

/// The number of a page of the pool's own with the bytes of a page of a list, which the list gives up for it. It is the
/// same page where that is the pool's own and no other list holds it.
fn own_page(frames: &mut Frames, page: &Page) -> u32
    requires sound { IsSound frames.old }
    requires whole { IsWholePage page.now }
    requires held { All (λ number. 0 < slice_index frames.old.holders number)
        (own_number page.now) }
    requires free { sum frames.old.holders + 1
        ≤ length frames.old.holders + length (own_number page.now) }
    ensures sound { IsSound frames.new }
    ensures pages { length frames.new.holders ≡ length frames.old.holders }
    ensures counted { (number : ℕ) → slice_index frames.new.holders number
        + times number (own_number page.now) ≡ slice_index frames.old.holders number
        + times number (result ∷ []) }
    ensures total { sum frames.new.holders + length (own_number page.now)
        ≡ sum frames.old.holders + 1 }
    ensures kept { (number : ℕ) → times number (own_number page.now)
        < slice_index frames.old.holders number
        → page_at frames.new.bytes number ≡ page_at frames.old.bytes number }
    ensures bytes { page_at frames.new.bytes result ≡ page_bytes frames.old.bytes page.now }
    ensures alone { slice_index frames.new.holders result ≡ 1 }
{
    match page {
        Page::Shared(shared) => frames.fresh(shared),
        Page::Own(number) if frames.is_shared(*number) => frames.fork(*number),
        Page::Own(number) => *number,
    }
}
