//! Worked examples of orders of steps, evaluated by the prover on the definitions.
//!
//! The functions do nothing. Each promises the facts that it names.

ghost use Rattle.std.specs.Prelude.{◌≡◌, ◌∷◌, ◌++◌, [], List, map, codes, false, true};
ghost use Rattle.rdma_types.specs.declared.answers.Answer.TheVariants.{Done, Polled, Refused, Stopped};
ghost use Rattle.rdma_types.specs.declared.answers.Refusal.TheVariants.{NoSuch, NumberTaken};
ghost use Rattle.protocol.specs.declared.events.WorldEvent.TheVariants.{At, MakeContext};
ghost use Rattle.protocol.specs.declared.images.ContextImage.{ContextImage};
ghost use Rattle.protocol.specs.State.{empty_world};
ghost use Rattle.protocol.specs.WorldStep.{world_after};
ghost use Rattle.packetless_machine.specs.Legal.{IsLegal};
ghost use Rattle.order_rules.specs.AnyOpening.{ArePreparing, IsOpened};
ghost use Rattle.order_rules.specs.Lines.{entry_of};
ghost use Rattle.order_rules.specs.Openings.{openings};
ghost use Rattle.order_rules.specs.Bridge.{IsFair, IsFairOrder, IsWork};
ghost use Rattle.order_rules.specs.Order.{AreRestored, IsWorldOrder};
ghost use Rattle.order_rules.specs.Evaluate.{answered, answers_after, devices_after, devices_played, heard_of, heard_playing, outcome_after, recomputed};
ghost use Rattle.order_rules.specs.Sides.{IsFresh, IsOneSided};
ghost use Rattle.example_rules.specs.After as after;
ghost use Rattle.example_rules.specs.Alone as alone;
ghost use Rattle.example_rules.specs.OrdersCases as cases;
ghost use Rattle.example_rules.specs.Machine as machine;
ghost use Rattle.example_rules.specs.OwnDevices as own;

use law_orders::{prepared_orders_are_legal, prepared_worlds_are_openings};

/// Two workers add once each and b moves once, in the caller's own run: the rules answer each event as is written there.
pub fn alone_outcomes()
    ensures outcomes { recomputed 2 [] alone.lines ≡ map (λ l. l.receipt.outcome) alone.lines }
    ensures entries { map entry_of alone.lines ≡ alone.entries }
{}

/// Two polls of an empty queue are a world order.
pub fn two_polls_are_an_order()
    ensures { IsWorldOrder (openings 1) cases.two_polls }
{}

/// A poll that is told of a completion that was never there is in no world order.
pub fn an_invented_outcome_is_in_no_order()
    ensures { IsWorldOrder (openings 1) cases.invented → ⊥ }
{}

/// A lone device makes a context of any new name, and does not know a context that lives elsewhere; a world refuses the
/// one and answers the other.
pub fn a_device_knows_itself_alone()
    ensures made { outcome_after 1 [] 3 cases.makes_a ≡ alone.gives Done [] }
    ensures unknown { outcome_after 1 [] 3 cases.polls_elsewhere ≡ alone.gives (Refused NoSuch) [] }
    ensures in_a_world { answers_after 1 (MakeContext (codes "a") 3 ∷ At cases.polls_elsewhere ∷ [])
        ≡ Refused NumberTaken ∷ Polled [] ∷ [] }
{}

/// A context of a new name is made late, on any device: the order is fair, and the context is heard of.
pub fn a_late_context_is_fair()
    ensures fair { IsFairOrder (openings 1) cases.late_context }
    ensures heard { heard_of cases.late_context ≡ cases.late_heard }
{}

/// A context whose name another has on another device: the device makes it, and the order is not fair.
pub fn a_second_context_of_a_name_is_not_fair()
    ensures made { answered 1 cases.second_a ≡ Done ∷ [] }
    ensures fresh { IsFresh (openings 1) cases.second_a → ⊥ }
{}

/// The caller's own run is a run of world events: it leads to the same devices, and applications hear the same.
pub fn alone_is_a_run_of_a_world()
    ensures devices { devices_played 2 cases.arrival alone.lines ≡ after.devices }
    ensures devices_alone { devices_after 2 alone.lines ≡ after.devices }
    ensures heard { heard_playing 2 cases.arrival alone.lines ≡ machine.heard_of_lines }
    ensures heard_alone { heard_of alone.lines ≡ machine.heard_of_lines }
{}

/// Both contexts are stopped, one after the other: each device allows it, and the order is not one-sided.
pub fn both_stop_is_not_one_sided()
    ensures stopped { answered 1 cases.both_stop ≡ Stopped ∷ Stopped ∷ [] }
    ensures one_sided { IsOneSided (openings 1) cases.both_stop → ⊥ }
{}

/// No two restores take the image of one stop, also where one of them is refused.
pub fn an_image_is_restored_once()
    ensures { (left : List ContextImage) → AreRestored [] cases.restored_twice left → ⊥ }
{}

/// Two moves, of which the second goes back: the husk there is released first, and else the restore is refused.
pub fn a_husk_is_released_before_a_move_back()
    ensures moved { answered 1 cases.two_moves ≡ Stopped ∷ Done ∷ Stopped ∷ Done ∷ Done ∷ [] }
    ensures refused { answered 1 cases.husk_in_the_way
        ≡ Stopped ∷ Done ∷ Stopped ∷ Refused NumberTaken ∷ [] }
{}

/// The caller's own run is fair, and made of the workers' and the mover's events alone.
pub fn alone_is_fair()
    ensures work { IsWork 2 alone.lines }
    ensures fair { IsFair 2 alone.lines }
{}

/// Devices, contexts, regions, queues and a connection of one's own are prepared, and are an opening. A program makes the same
/// devices one by one.
pub fn own_devices_are_prepared()
    ensures prepared { ArePreparing own.opening }
    ensures opened { IsOpened own.opening }
    ensures devices { (world_after empty_world own.opening).devices ≡ own.devices }
    ensures one_by_one { own.one_by_one ≡ own.devices }
{
    prepared_worlds_are_openings();
}

/// Two applications work on these devices, and a mover takes the context of one to another device: the order is fair.
pub fn own_order_is_fair()
    ensures { IsFairOrder own.devices own.lines }
{
    own_devices_are_prepared();
}

/// So what both applications make and hear is legal, as it is written there.
pub fn own_order_is_legal()
    ensures { IsLegal (own.prepared ++ own.heard_then) }
{
    own_devices_are_prepared();
    own_order_is_fair();
    prepared_orders_are_legal();
}
