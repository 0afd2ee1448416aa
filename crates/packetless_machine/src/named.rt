//! Things that are found by their names.

ghost use Rattle.std.specs.Prelude.{◌≡◌, List, ℕ, IfSome, IfNone, true, false};
ghost use Rattle.rdma_types.specs.Lists.{named, has_name};
ghost use Rattle.packetless_machine.specs.Tables.{place};

use rdma_types::Name;

/// A thing with a name.
pub trait Named {
    ghost named: { Self → List ℕ };

    /// The name of the thing.
    fn name(&self) -> Name
        ensures { result ≡ named self.now };
}

impl Named for Name {
    ghost named = { λ n. n };

    fn name(&self) -> Name {
        *self
    }
}

/// The place of the first thing of a name, or else the length of the list.
pub fn place_of<T: Named>(items: &[T], name: Name) -> usize
    ensures { result ≡ place T.named name items.now }
{
    for (i, item) in items.iter().enumerate() {
        if item.name() == name {
            return i;
        }
    }
    items.len()
}

/// The first thing of a name.
#[tactic(auto, using(crate::proofs::Places::by_names))]
pub fn find<T: Named>(items: &[T], name: Name) -> Option<&T>
    ensures some { IfSome result (λ x. ((none : T) → x.now ≡ named T.named none name items.now)
        × (has_name T.named name items.now ≡ true)) }
    ensures none { IfNone result (((none : T) → named T.named none name items.now ≡ none)
        × (has_name T.named name items.now ≡ false)) }
{
    items.get(place_of(items, name))
}
