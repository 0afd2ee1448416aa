//! A worked example of nodes that run together, evaluated by the prover.
//!
//! The functions do nothing. Each promises what it names.

ghost use Rattle.std.specs.Prelude.{◌≡◌, ◌++◌, codes, Some};
ghost use Rattle.law_arrivals.specs.Touched.{byte_of};
ghost use Rattle.law_nodes.specs.Acts.{after_acts};
ghost use Rattle.law_nodes.specs.Bounded.{AreBoundedDeeds, AreRunning};
ghost use Rattle.law_nodes.specs.Composed.{AreComposed, device_of, lines_of_deeds, openings_of, standing_of, standings_of};
ghost use Rattle.law_simulation.specs.Law.{kept};
ghost use Rattle.order_rules.specs.Hears.{heard};
ghost use Rattle.packetless_machine.specs.Legal.{IsLegal};
ghost use Rattle.protocol.specs.State.{empty_world};
ghost use Rattle.order_rules.specs.Sides.{IsNeverAged};
ghost use Rattle.example_nodes.specs.Composition as moving;
ghost use Rattle.example_nodes.specs.Forged as forged;

use law_nodes::{nodes_are_followed, nodes_change_what_they_may};

/// A context moves live from one node to another, while its partner serves. Scripts drive two of the nodes, and lines the third, to
/// which it moves. What they do meets each premise of the laws of nodes.
pub fn a_live_move_is_composed()
    ensures composed { AreComposed moving.nodes moving.events moving.order }
    ensures running { AreRunning moving.nodes moving.order }
    ensures heard { heard (lines_of_deeds moving.nodes moving.order) ≡ moving.heard_then }
{}

/// So what the applications on them make and hear is legal, as it is written there.
pub fn a_live_move_is_followed()
    ensures { IsLegal (kept empty_world moving.events ++ moving.heard_then) }
{
    a_live_move_is_composed();
    nodes_are_followed();
}

/// A node takes bytes that are cut off, and then a write that no node sent, under the key and the numbers of its queue pair. This is no
/// order in time; and yet each of its acts changes only what it may: the write changes the bytes that the key grants.
pub fn forged_datagrams_are_bounded()
    ensures running { AreRunning forged.nodes forged.order }
    ensures unsent { IsNeverAged (openings_of forged.nodes)
        (lines_of_deeds forged.nodes forged.order) → ⊥ }
    ensures before { byte_of (device_of forged.watched) (codes "b") 33554434 0 ≡ Some 0 }
    ensures after { byte_of (after_acts (standing_of forged.watched) forged.serves).device
        (codes "b") 33554434 0 ≡ Some 222 }
    ensures bounded { AreBoundedDeeds (standings_of forged.nodes) forged.order }
{
    nodes_change_what_they_may();
}
