//! Whether two images are equal.

ghost use Rattle.std.specs.Prelude.{◌≡◌, ◌↔◌, IsTrue};
ghost use Rattle.step_differences.specs.Links.{AreSameNumbers, AreSameSides};

use crate::lists::{same_completions, same_names, same_receives, same_replies, same_runs};
use protocol::{ContextImage, CqImage, EndImage, LinkImage, PostedImage, RegionImage};

/// Equal regions.
fn same_region(a: &RegionImage, b: &RegionImage) -> bool
    ensures { IsTrue result ↔ (a.now ≡ b.now) }
{
    a.name == b.name
        && a.domain == b.domain
        && a.base == b.base
        && a.length == b.length
        && a.rights == b.rights
        && a.keys == b.keys
        && same_runs(&a.bytes, &b.bytes)
}

/// Equal completion queues.
fn same_queue(a: &CqImage, b: &CqImage) -> bool
    ensures { IsTrue result ↔ (a.now ≡ b.now) }
{
    a.name == b.name
        && a.capacity == b.capacity
        && same_completions(a.entries.as_slice(), b.entries.as_slice())
}

/// Equal untold requests.
fn same_request(a: &PostedImage, b: &PostedImage) -> bool
    ensures { IsTrue result ↔ (a.now ≡ b.now) }
{
    a.request == b.request && same_runs(&a.payload, &b.payload)
}

/// Equal requesters and responders, as far as they are numbers.
fn same_numbers(a: &LinkImage, b: &LinkImage) -> bool
    ensures { IsTrue result ↔ AreSameNumbers a.now b.now }
{
    a.first == b.first
        && a.una == b.una
        && a.next == b.next
        && a.top == b.top
        && a.spent == b.spent
        && a.waits == b.waits
        && a.rnr_wait == b.rnr_wait
        && a.expected == b.expected
        && a.nak_sent == b.nak_sent
        && a.msn == b.msn
}

/// Equal states, partners, moves and terms.
fn same_sides(a: &LinkImage, b: &LinkImage) -> bool
    ensures { IsTrue result ↔ AreSameSides a.now b.now }
{
    a.ended == b.ended
        && a.peer == b.peer
        && a.partner == b.partner
        && a.moves == b.moves
        && a.partner_moves == b.partner_moves
        && a.resuming == b.resuming
        && a.terms == b.terms
}

/// What connected ends have besides their queues, equal.
fn same_link(a: &LinkImage, b: &LinkImage) -> bool
    ensures { IsTrue result ↔ (a.now ≡ b.now) }
{
    same_sides(a, b)
        && same_numbers(a, b)
        && a.progress == b.progress
        && same_replies(a.kept.as_slice(), b.kept.as_slice())
}

/// The same, where the ends were ever connected.
fn same_linked(a: &Option<LinkImage>, b: &Option<LinkImage>) -> bool
    ensures { IsTrue result ↔ (a.now ≡ b.now) }
{
    match (a, b) {
        (None, None) => true,
        (Some(x), Some(y)) => same_link(x, y),
        _ => false,
    }
}

/// Equal lists of untold requests.
fn same_requests(a: &[PostedImage], b: &[PostedImage]) -> bool
    ensures { IsTrue result ↔ (a.now ≡ b.now) }
{
    if a.len() != b.len() {
        return false;
    }
    for i in 0..a.len() {
        if !same_request(&a[i], &b[i]) {
            return false;
        }
    }
    true
}

/// Equal queue pairs.
fn same_end(a: &EndImage, b: &EndImage) -> bool
    ensures { IsTrue result ↔ (a.now ≡ b.now) }
{
    a.name == b.name
        && a.number == b.number
        && a.domain == b.domain
        && a.send_cq == b.send_cq
        && a.recv_cq == b.recv_cq
        && a.send_depth == b.send_depth
        && a.recv_depth == b.recv_depth
        && same_linked(&a.linked, &b.linked)
        && same_requests(a.untold.as_slice(), b.untold.as_slice())
        && same_receives(a.unused.as_slice(), b.unused.as_slice())
}

/// Equal lists of regions.
fn same_regions(a: &[RegionImage], b: &[RegionImage]) -> bool
    ensures { IsTrue result ↔ (a.now ≡ b.now) }
{
    if a.len() != b.len() {
        return false;
    }
    for i in 0..a.len() {
        if !same_region(&a[i], &b[i]) {
            return false;
        }
    }
    true
}

/// Equal lists of completion queues.
fn same_queues(a: &[CqImage], b: &[CqImage]) -> bool
    ensures { IsTrue result ↔ (a.now ≡ b.now) }
{
    if a.len() != b.len() {
        return false;
    }
    for i in 0..a.len() {
        if !same_queue(&a[i], &b[i]) {
            return false;
        }
    }
    true
}

/// Equal lists of queue pairs.
fn same_ends(a: &[EndImage], b: &[EndImage]) -> bool
    ensures { IsTrue result ↔ (a.now ≡ b.now) }
{
    if a.len() != b.len() {
        return false;
    }
    for i in 0..a.len() {
        if !same_end(&a[i], &b[i]) {
            return false;
        }
    }
    true
}

/// Whether two images are equal, byte for byte.
pub fn same_image(a: &ContextImage, b: &ContextImage) -> bool
    ensures { IsTrue result ↔ (a.now ≡ b.now) }
{
    a.name == b.name
        && same_names(a.domains.as_slice(), b.domains.as_slice())
        && same_regions(a.regions.as_slice(), b.regions.as_slice())
        && same_queues(a.queues.as_slice(), b.queues.as_slice())
        && same_ends(a.ends.as_slice(), b.ends.as_slice())
}
