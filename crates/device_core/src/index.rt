//! Where queue pair numbers are.

ghost use Rattle.std.specs.Prelude.{ℕ, ◌≡◌, ◌+◌, ◌<◌, ◌≤◌, ◌==◌, Some, None, IsSome, nat_eq, if◌then◌else◌};
ghost use Rattle.indexmap.specs.IndexMap.{get, spare};

use indexmap::IndexMap;
use rdma_types::Name;

/// The place of an end in its context, or of an entry in its husk.
#[derive(Clone, Copy)]
pub(crate) struct EndLocation {
    pub(crate) context: Name,
    pub(crate) place: usize,
}

/// Notes where a number is. There must be room for it.
pub(crate) fn put_location(index: &mut IndexMap<u32, EndLocation>, number: u32, spot: EndLocation)
    requires { 0 < spare index.old }
    ensures puts { (k : ℕ) → get nat_eq index.new k
        ≡ (if number == k then Some spot else get nat_eq index.old k) }
    ensures spare { spare index.old ≤ spare index.new + 1 }
{
    let _ = index.insert(number, spot).unwrap();
}

/// Notes where a number is now that was noted before.
pub(crate) fn move_location(index: &mut IndexMap<u32, EndLocation>, number: u32, spot: EndLocation)
    requires { IsSome (get nat_eq index.old number) }
    ensures { (k : ℕ) → get nat_eq index.new k
        ≡ (if number == k then Some spot else get nat_eq index.old k) }
{
    let _ = index.insert(number, spot).unwrap();
}

/// Forgets a number.
pub(crate) fn drop_location(index: &mut IndexMap<u32, EndLocation>, number: u32)
    ensures { (k : ℕ) → get nat_eq index.new k
        ≡ (if number == k then None else get nat_eq index.old k) }
{
    let _ = index.swap_remove(&number);
}
