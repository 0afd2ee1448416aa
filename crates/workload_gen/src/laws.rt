//! What holds of each script.

ghost use Rattle.std.specs.Prelude.{◌≡◌, ℕ, ◌+◌, ◌%◌, ◌<◌, ◌≤◌};
ghost use Rattle.workload_gen.specs.Plan.{place_of, message_of};
ghost use Rattle.workload_gen.specs.declared.plan.Mix.{Mix};

/// Each move of a script stands after one of its messages or before the first, and moves stand in their order.
pub fn moves_stand_in_order()
    ensures within { (mix : Mix) (k : ℕ) → k ≤ mix.moves → place_of mix k ≤ mix.messages }
    ensures ordered { (mix : Mix) (k later : ℕ) → k ≤ later → place_of mix k ≤ place_of mix later }
{}

/// Each message is on one of the connections, and has 1 to 4,096 bytes. They lie in the regions, which have 65,536 bytes
/// from 65536 on, and its address is a multiple of 8, as an atomic needs it (InfiniBand Architecture Specification,
/// volume 1, 9.4).
pub fn messages_lie_in_their_regions()
    ensures connection { (c j w : ℕ) → 0 < c
        → (0 < (message_of c j w).connection) × ((message_of c j w).connection ≤ c) }
    ensures length { (c j w : ℕ) → (0 < (message_of c j w).length)
        × ((message_of c j w).length ≤ 4096) }
    ensures inside { (c j w : ℕ) → (65536 ≤ (message_of c j w).address)
        × ((message_of c j w).address + (message_of c j w).length ≤ 65536 + 65536) }
    ensures room { (c j w : ℕ) → (message_of c j w).address + 4096 ≤ 65536 + 65536 }
    ensures aligned { (c j w : ℕ) → (message_of c j w).address % 8 ≡ 0 }
{}
