//! Stops whose images no restore has taken.

ghost use Rattle.std.specs.Prelude.{◌≡◌, ◌↔◌, ◌++◌, IfSome, IsTrue, None, OnOk, false};
ghost use Rattle.run_check.specs.Checks.{CannotTake, HasNoStopOf, IsStop, IsStopOf, TakesStop, stop_of};

use crate::checks::receipt_at;
use protocol::{ContextImage, Event};
use rdma_types::Items;
use shared_device::Receipt;
use std::alloc::AllocError;
use step_differences::same_image;

/// The receipt of a stop: its worker, and its place in that worker's list.
#[derive(Clone, Copy)]
pub struct StopAt {
    pub worker: usize,
    pub head: usize,
}

/// Whether the receipt at a place hands out this image.
fn hands_out(receipts: &[Items<Receipt>], stop: StopAt, image: &ContextImage) -> bool
    ensures { IsTrue result ↔ IsStop receipts.now stop image.now }
{
    match receipt_at(receipts, stop.worker, stop.head) {
        None => false,
        Some(receipt) => match &receipt.outcome().image {
            None => false,
            Some(handed) => same_image(handed, image),
        },
    }
}

/// The first stop that hands out this image.
fn find_stop(receipts: &[Items<Receipt>], stops: &[StopAt], image: &ContextImage) -> Option<usize>
    ensures some { IfSome result (λ i. IsStopOf receipts.now stops.now image.now i) }
    ensures none { result ≡ None → HasNoStopOf receipts.now stops.now image.now }
{
    for i in 0..stops.len() {
        if hands_out(receipts, stops[i], image) {
            return Some(i);
        }
    }
    None
}

/// Takes a stop with the image of a restore away, and says whether there was one; every other event takes none.
pub fn take_stop(receipts: &[Items<Receipt>], stops: &mut Vec<StopAt>, event: &Event) -> bool
    ensures taken { IsTrue result → TakesStop receipts.now stops.old.items event.now stops.new.items }
    ensures none { result ≡ false → CannotTake receipts.now stops.old.items event.now }
{
    match event {
        Event::Restore { image } => match find_stop(receipts, stops.as_slice(), image) {
            None => false,
            Some(i) => {
                stops.remove(i);
                true
            }
        },
        _ => true,
    }
}

/// Notes the stop of a receipt, where it hands out an image.
pub fn note_stop(
    stops: &mut Vec<StopAt>,
    worker: usize,
    head: usize,
    image: &Option<ContextImage>,
) -> Result<(), AllocError>
    ensures { OnOk result (stops.new.items ≡ stops.old.items ++ stop_of worker head image.now) }
{
    if image.is_some() {
        stops.push(StopAt { worker, head })?;
    }
    Ok(())
}
