//! Many pages taken, held and given back.

ghost use Rattle.std.specs.Prelude.{◌≡◌, ℕ, ◌+◌, ◌-◌, ◌*◌, ◌<◌, ◌≤◌, ◌++◌, [], All, List, length, min, sum, replicate, slice_index, slice_set, vec_capacity, vec_len, IfSome};
ghost use Rattle.std.specs.List.{flat_map};
ghost use Rattle.std.specs.Arc.{arc_value};
ghost use Rattle.byte_run.specs.Pages.{joined, ArePages};
ghost use Rattle.rdma_types.specs.Memory.{cut, put};
ghost use Rattle.page_pool.specs.Store.{IsSound, times, blank};
ghost use Rattle.page_pool.specs.Ledger.{AreShared, IsWholePage, own_number, own_numbers, page_at, page_bytes};

use crate::PAGE;
use crate::frames::Frames;
use crate::page::Page;
use byte_run::ByteRun;
use std::sync::Arc;

/// Writes what a page from byte `at` of a list on has: the bytes of a run, which begins at byte `first` of the list, and
/// zeros elsewhere.
fn lay_page(bytes: &ByteRun, first: u64, at: u64, page: &mut [u8])
    requires { length page.old ≡ 4096 }
    ensures { let before = min (first - at) 4096 in let from = min (at - first) (length bytes.now)
        in let count = min (4096 - before) (length bytes.now - from)
        in page.new ≡ replicate before 0 ++ (cut from count bytes.now
        ++ replicate (4096 - before - count) 0) }
{
    let before = first.saturating_sub(at).min(4096);
    let from = at.saturating_sub(first).min(bytes.len());
    let count = (4096 - before).min(bytes.len() - from);
    let (zeros, rest) = page.split_at_mut(before as usize);
    zeros.fill(0);
    let (held, rest) = rest.split_at_mut(count as usize);
    bytes.read(from, held);
    rest.fill(0);
}

/// The page to share that has what a page from byte `at` of a list on has; None where there is none. `zeros` is a page of
/// zeros.
fn whole_page(
    zeros: &Arc<[u8; 4096]>,
    bytes: &ByteRun,
    first: u64,
    at: u64,
) -> Option<Arc<[u8; 4096]>>
    requires zeros { arc_value zeros.now ≡ blank 4096 }
    ensures whole { IfSome result (λ page. length (arc_value page) ≡ 4096) }
    ensures bytes { IfSome result (λ page. (n : ℕ) → at + 4096 ≤ n → first + length bytes.now ≤ n
        → arc_value page ≡ cut at 4096 (put (blank n) first bytes.now)) }
{
    if at < first {
        return None;
    }
    let from = at - first;
    if from >= bytes.len() {
        return Arc::try_clone(zeros).ok();
    }
    if from % 4096 != 0 {
        return None;
    }
    match bytes.whole_pages().get((from / 4096) as usize) {
        Some(page) => Arc::try_clone(page).ok(),
        None => None,
    }
}

/// A page that has what a page from byte `at` of a list on has: one to share, or a new one of the pool's own.
fn take_page(
    frames: &mut Frames,
    zeros: &Arc<[u8; 4096]>,
    bytes: &ByteRun,
    first: u64,
    at: u64,
) -> Page
    requires sound { IsSound frames.old }
    requires room { sum frames.old.holders < length frames.old.holders }
    requires zeros { arc_value zeros.now ≡ blank 4096 }
    ensures sound { IsSound frames.new }
    ensures pages { length frames.new.holders ≡ length frames.old.holders }
    ensures counted { (page : ℕ) → slice_index frames.new.holders page
        ≡ slice_index frames.old.holders page + times page (own_number result) }
    ensures total { sum frames.new.holders ≡ sum frames.old.holders + length (own_number result) }
    ensures kept { (page : ℕ) → 0 < slice_index frames.old.holders page
        → page_at frames.new.bytes page ≡ page_at frames.old.bytes page }
    ensures whole { IsWholePage result }
    ensures bytes { (n : ℕ) → at + 4096 ≤ n → first + length bytes.now ≤ n
        → page_bytes frames.new.bytes result ≡ cut at 4096 (put (blank n) first bytes.now) }
{
    match whole_page(zeros, bytes, first, at) {
        Some(page) => Page::Shared(page),
        None => Page::Own(take_copy(frames, bytes, first, at)),
    }
}

/// Takes a new page, and copies there what a page from byte `at` of a list on has.
fn take_copy(frames: &mut Frames, bytes: &ByteRun, first: u64, at: u64) -> u32
    requires room { sum frames.old.holders < length frames.old.holders }
    ensures page { result < length frames.old.holders }
    ensures idle { slice_index frames.old.holders result ≡ 0 }
    ensures holders { frames.new.holders ≡ slice_set frames.old.holders result 1 }
    ensures bytes { (n : ℕ) → at + 4096 ≤ n → first + length bytes.now ≤ n
        → frames.new.bytes ≡ put frames.old.bytes (4096 * result)
        (cut at 4096 (put (blank n) first bytes.now)) }
    ensures sound { IsSound frames.new }
{
    let mut page = [0; PAGE];
    lay_page(bytes, first, at, &mut page);
    frames.fresh(&page)
}

/// Pages in a row that have the bytes of a run from byte `first` of the first page on, and zeros elsewhere. `zeros` is a
/// page of zeros.
pub fn take_pages(
    frames: &mut Frames,
    zeros: &Arc<[u8; 4096]>,
    pages: &mut Vec<Page>,
    count: u32,
    bytes: &ByteRun,
    first: u64,
)
    requires sound { IsSound frames.old }
    requires zeros { arc_value zeros.now ≡ blank 4096 }
    requires empty { pages.old.items ≡ [] }
    requires room { count ≤ vec_capacity pages.old }
    requires free { sum frames.old.holders + count ≤ length frames.old.holders }
    requires inside { first + length bytes.now ≤ 4096 * count }
    ensures sound { IsSound frames.new }
    ensures pages { length frames.new.holders ≡ length frames.old.holders }
    ensures counted { (page : ℕ) → slice_index frames.new.holders page
        ≡ slice_index frames.old.holders page + times page (own_numbers pages.new.items) }
    ensures total { sum frames.new.holders ≡ sum frames.old.holders
        + length (own_numbers pages.new.items) }
    ensures kept { (page : ℕ) → 0 < slice_index frames.old.holders page
        → page_at frames.new.bytes page ≡ page_at frames.old.bytes page }
    ensures whole { All IsWholePage pages.new.items }
    ensures bytes { flat_map (page_bytes frames.new.bytes) pages.new.items
        ≡ put (blank (4096 * count)) first bytes.now }
    ensures len { length pages.new.items ≡ count }
{
    if first == 0 {
        share_first(pages, zeros, bytes, count);
    }
    for place in pages.len() as u32..count {
        let page = take_page(frames, zeros, bytes, first, u64::from(place) * 4096);
        pages.push(page).unwrap();
    }
}

/// The first of `count` pages that have the bytes of a run, and zeros behind them: as many as can be shared. `zeros` is a
/// page of zeros.
fn share_first(pages: &mut Vec<Page>, zeros: &Arc<[u8; 4096]>, bytes: &ByteRun, count: u32)
    requires zeros { arc_value zeros.now ≡ blank 4096 }
    requires empty { pages.old.items ≡ [] }
    requires room { count ≤ vec_capacity pages.old }
    requires inside { length bytes.now ≤ 4096 * count }
    ensures shared { AreShared (put (blank (4096 * count)) 0 bytes.now) pages.new.items }
    ensures few { length pages.new.items ≤ count }
    ensures room { vec_capacity pages.new ≡ vec_capacity pages.old }
{
    share_pages(pages, bytes.whole_pages());
    if bytes.len() <= pages.len() as u64 * 4096 {
        share_zeros(pages, zeros, count as usize - pages.len());
    }
}

/// Shares whole pages of a run, in their order: all, or those before the first that is shared too often.
fn share_pages(pages: &mut Vec<Page>, whole: &[Arc<[u8; 4096]>])
    requires even { ArePages whole.now }
    requires empty { pages.old.items ≡ [] }
    requires room { length whole.now ≤ vec_capacity pages.old }
    ensures shared { AreShared (joined whole.now) pages.new.items }
    ensures few { length pages.new.items ≤ length whole.now }
    ensures room { vec_capacity pages.new ≡ vec_capacity pages.old }
{
    for page in whole {
        match Arc::try_clone(page) {
            Ok(page) => pages.push_reserved(Page::Shared(page)),
            Err(_) => return,
        }
    }
}

/// Shares a page of zeros so many times, behind other pages, or fewer times where it is shared too often.
fn share_zeros(pages: &mut Vec<Page>, zeros: &Arc<[u8; 4096]>, count: usize)
    requires zeros { arc_value zeros.now ≡ blank 4096 }
    requires room { vec_len pages.old + count ≤ vec_capacity pages.old }
    ensures shared { (bytes : List ℕ) → AreShared bytes pages.old.items
        → length bytes ≡ 4096 * length pages.old.items
        → AreShared (bytes ++ blank (4096 * count)) pages.new.items }
    ensures few { length pages.new.items ≤ length pages.old.items + count }
    ensures room { vec_capacity pages.new ≡ vec_capacity pages.old }
{
    for _made in 0..count {
        match Arc::try_clone(zeros) {
            Ok(page) => pages.push_reserved(Page::Shared(page)),
            Err(_) => return,
        }
    }
}

/// One more holder of each of these pages that is the pool's own.
pub fn hold_pages(frames: &mut Frames, pages: &[Page])
    requires sound { IsSound frames.old }
    requires held { (i : ℕ) → i < length (own_numbers pages.now)
        → 0 < slice_index frames.old.holders (slice_index (own_numbers pages.now) i) }
    requires free { sum frames.old.holders + length (own_numbers pages.now)
        ≤ length frames.old.holders }
    ensures sound { IsSound frames.new }
    ensures pages { length frames.new.holders ≡ length frames.old.holders }
    ensures counted { (page : ℕ) → slice_index frames.new.holders page
        ≡ slice_index frames.old.holders page + times page (own_numbers pages.now) }
    ensures total { sum frames.new.holders ≡ sum frames.old.holders
        + length (own_numbers pages.now) }
    ensures bytes { frames.new.bytes ≡ frames.old.bytes }
{
    for page in pages {
        if let Page::Own(number) = page {
            frames.hold(*number);
        }
    }
}

/// One holder less of each of these pages that is the pool's own. The bytes of pages that nobody holds any longer are not
/// told.
pub fn give_pages(frames: &mut Frames, pages: &[Page])
    requires sound { IsSound frames.old }
    requires held { (page : ℕ) → times page (own_numbers pages.now)
        ≤ slice_index frames.old.holders page }
    ensures sound { IsSound frames.new }
    ensures pages { length frames.new.holders ≡ length frames.old.holders }
    ensures counted { (page : ℕ) → slice_index frames.new.holders page
        + times page (own_numbers pages.now) ≡ slice_index frames.old.holders page }
    ensures total { sum frames.new.holders + length (own_numbers pages.now)
        ≡ sum frames.old.holders }
    ensures kept { (page : ℕ) → 0 < slice_index frames.new.holders page
        → page_at frames.new.bytes page ≡ page_at frames.old.bytes page }
{
    for page in pages {
        if let Page::Own(number) = page {
            frames.release(*number);
        }
    }
}
