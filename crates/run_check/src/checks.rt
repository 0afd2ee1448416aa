//! The next receipt of each worker.

ghost use Rattle.std.specs.Prelude.{◌≡◌, ◌+◌, ◌<◌, ◌^◌, IfErr, IfOk, IfSome, None, OnOk, length, replicate, slice_set};
ghost use Rattle.run_check.specs.Checks.{AreTold, HasNoHead, HasNoReceipt, IsHead, StandsAt};
ghost use Rattle.run_check.specs.Gathered.{Tells};

use crate::run::{RunFault, missing, same};
use rdma_types::Items;
use shared_device::{OrderEntry, Receipt};
use std::alloc::{AllocError, Global};

/// So many zeros.
pub fn zeros(alloc: Global, n: usize) -> Result<Vec<usize>, AllocError>
    ensures { IfOk result (λ v. (v.items ≡ replicate n 0) × (length v.items ≡ n)) }
{
    Vec::from_elem(alloc, 0, n)
}

/// Receipt `place` of a worker.
pub fn receipt_at(receipts: &[Items<Receipt>], worker: usize, place: usize) -> Option<&Receipt>
    ensures some { IfSome result (λ r. StandsAt receipts.now worker place r.now) }
    ensures none { result ≡ None → HasNoReceipt receipts.now worker place }
    ensures small { IfSome result (λ _. place + 1 < 2 ^ 64) }
{
    if worker >= receipts.len() {
        return None;
    }
    let held = receipts[worker].as_slice();
    if place >= held.len() {
        return None;
    }
    Some(&held[place])
}

/// The worker whose next receipt is of this entry, the receipt's place in that worker's list, and the receipt.
pub fn find_head<'a>(
    receipts: &'a [Items<Receipt>],
    heads: &[usize],
    entry: &OrderEntry,
) -> Option<(usize, usize, &'a Receipt)>
    ensures some { IfSome result (λ h. IsHead receipts.now heads.now entry.now h.0 h.1 h.2.now) }
    ensures none { result ≡ None → HasNoHead receipts.now heads.now entry.now }
    ensures small { IfSome result (λ h. h.1 + 1 < 2 ^ 64) }
{
    for worker in 0..heads.len() {
        let place = heads[worker];
        if let Some(receipt) = receipt_at(receipts, worker, place) {
            if receipt.device() == entry.device && receipt.place() == entry.place {
                return Some((worker, place, receipt));
            }
        }
    }
    None
}

/// Why no next receipt is of this entry: the first of the same device, which has another place, or none.
pub fn no_head(receipts: &[Items<Receipt>], heads: &[usize], entry: &OrderEntry) -> RunFault
    ensures { Tells (Unit {0}) result }
{
    let place = entry.place;
    for worker in 0..heads.len() {
        if let Some(receipt) = receipt_at(receipts, worker, heads[worker]) {
            if receipt.device() == entry.device && receipt.place() != place {
                return RunFault::Disagree {
                    place,
                    left: place,
                    right: receipt.place(),
                };
            }
        }
    }
    missing(place)
}

/// Counts one receipt more of a worker.
pub fn next_head(heads: &mut Vec<usize>, worker: usize, place: usize)
    requires worker { worker < length heads.old.items }
    requires place { place + 1 < 2 ^ 64 }
    ensures { heads.new.items ≡ slice_set heads.old.items worker (place + 1) }
{
    heads[worker] = place + 1;
}

/// Each worker's receipts were met to the end.
pub fn all_told(receipts: &[Items<Receipt>], heads: &[usize]) -> Result<(), RunFault>
    ensures ok { OnOk result (AreTold receipts.now heads.now) }
    ensures err { IfErr result (Tells (AreTold receipts.now heads.now → ⊥)) }
{
    for worker in 0..receipts.len() {
        if let Some(head) = heads.get(worker) {
            let place = *head as u64;
            same(place, place, receipts[worker].len() as u64)?;
        }
    }
    Ok(())
}
