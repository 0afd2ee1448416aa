//! Where two devices differ.

ghost use Rattle.std.specs.Prelude.{◌≡◌, ◌≢◌, ◌↔◌, All, IfSome, None, map};
ghost use Rattle.device_differences.specs.Numbers.{numbers_of_device};
ghost use Rattle.context_core.specs.Context.{IsContext};
ghost use Rattle.device_differences.specs.Differing.{across};
ghost use Rattle.device_differences.specs.Differences.{context_difference, entry_difference, first_difference, husk_difference};
ghost use Rattle.device_core.specs.Parts.{contexts_in, entry_of, husk_in};

use crate::Device;
use crate::husks::HuskEntry;
use context_core::ContextState;
use device_differences::{apart, names, numbers};
use indexmap::IndexMap;
use page_pool::PagePool;
use rdma_types::{Items, Name};

/// Two entries of husks.
#[tactic(auto, using(device_differences::proofs::Found::looked), unfolding(device_differences::specs::Differences::entry_difference))]
fn entry(x: &HuskEntry, y: &HuskEntry) -> Option<(u64, u64)>
    ensures { result ≡ entry_difference (entry_of x.now) (entry_of y.now) }
{
    numbers(
        &[u64::from(x.number), u64::from(x.peer), u64::from(x.moves)],
        &[u64::from(y.number), u64::from(y.peer), u64::from(y.moves)],
    )
}

/// The entries of two husks.
fn entries(a: &[HuskEntry], b: &[HuskEntry]) -> Option<(u64, u64)>
    ensures { result ≡ across entry_difference (map entry_of a.now) (map entry_of b.now) }
{
    for i in 0..a.len().min(b.len()) {
        let x = a.get(i).unwrap();
        let y = b.get(i).unwrap();
        let found = entry(x, y);
        if found.is_some() {
            return found;
        }
    }
    apart(a.len() as u64, b.len() as u64)
}

/// Two husks, each with its name.
#[tactic(auto, using(device_differences::proofs::Found::looked), unfolding(device_differences::specs::Differences::husk_difference))]
fn husk(x: (&Name, &Items<HuskEntry>), y: (&Name, &Items<HuskEntry>)) -> Option<(u64, u64)>
    ensures { result ≡ husk_difference (husk_in (x.entry.0.now, x.entry.1.now))
        (husk_in (y.entry.0.now, y.entry.1.now)) }
{
    let found = names(x.0, y.0);
    if found.is_some() {
        return found;
    }
    entries(x.1.as_slice(), y.1.as_slice())
}

/// Two lists of husks.
fn husks(
    a: &IndexMap<Name, Items<HuskEntry>>,
    b: &IndexMap<Name, Items<HuskEntry>>,
) -> Option<(u64, u64)>
    ensures { result ≡ across husk_difference (map husk_in a.now.entries)
        (map husk_in b.now.entries) }
{
    for i in 0..a.len().min(b.len()) {
        let x = a.get_index(i).unwrap();
        let y = b.get_index(i).unwrap();
        let found = husk(x, y);
        if found.is_some() {
            return found;
        }
    }
    apart(a.len() as u64, b.len() as u64)
}

/// Two lists of contexts.
fn contexts(
    pool: &PagePool,
    a: &IndexMap<Name, ContextState>,
    other_pool: &PagePool,
    b: &IndexMap<Name, ContextState>,
) -> Option<(u64, u64)>
    requires are { All (λ e. IsContext pool.now e.1) a.now.entries }
    requires other_are { All (λ e. IsContext other_pool.now e.1) b.now.entries }
    ensures { result ≡ across context_difference (contexts_in pool.now a.now.entries)
        (contexts_in other_pool.now b.now.entries) }
{
    for i in 0..a.len().min(b.len()) {
        let x = a.get_index(i).unwrap();
        let y = b.get_index(i).unwrap();
        let found = x.1.difference(pool, x.0, y.1, other_pool, y.0);
        if found.is_some() {
            return found;
        }
    }
    apart(a.len() as u64, b.len() as u64)
}

impl Device {
    /// Where two devices differ: the two values of the first field in which they do, in the order of the protocol's
    /// fields; None exactly where they are equal. It takes no memory.
    pub fn differs(&self, other: &Device) -> Option<(u64, u64)>
        ensures value { result ≡ first_difference self.now other.now }
        ensures none { (result ≡ None) ↔ (self.now ≡ other.now) }
        ensures some { IfSome result (λ p. p.0 ≢ p.1) }
    {
        self.difference(other)
    }

    /// The first difference of two devices.
    #[tactic(auto, using(device_differences::proofs::Found::looked), unfolding(device_differences::specs::Differences::first_difference))]
    fn difference(&self, other: &Device) -> Option<(u64, u64)>
        ensures { result ≡ first_difference self.now other.now }
    {
        let found = numbers(&self.head(), &other.head());
        if found.is_some() {
            return found;
        }
        let found = contexts(&self.pool, &self.contexts, &other.pool, &other.contexts);
        if found.is_some() {
            return found;
        }
        husks(&self.husks, &other.husks)
    }

    /// The numbers of a device, but for what its applications hold.
    fn head(&self) -> [u64; 5]
        ensures { result ≡ numbers_of_device self.now }
    {
        [
            u64::from(self.id),
            u64::from(self.address.ip),
            u64::from(self.address.port),
            u64::from(self.qp_count),
            u64::from(self.key_count),
        ]
    }
}
