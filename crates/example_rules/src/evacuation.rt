//! Worked examples of devices that are emptied, as equations: what is done, which contexts moved where, and why one stays.
//!
//! The functions do nothing. Each promises the equation that it names, which the prover evaluates on the definitions.

ghost use Rattle.std.specs.Prelude.{◌≡◌, ◌∷◌, []};
ghost use Rattle.protocol.specs.State.{empty_world};
ghost use Rattle.protocol.specs.WorldStep.{world_after};
ghost use Rattle.evac_rules.specs.Evaluate.{evacuated, evacuated_after};
ghost use Rattle.example_rules.specs.EvacuationOpening.{opening, with_husks};
ghost use Rattle.example_rules.specs.Emptied as cases;

/// A context leaves with a write under way, and the device is empty.
pub fn device_is_emptied()
    ensures { evacuated_after empty_world cases.under_way 2 (3 ∷ []) ≡ cases.emptied }
{}

/// The partner of a context is carried.
pub fn partner_is_carried()
    ensures { evacuated_after empty_world cases.partner_carried 2 (3 ∷ [])
        ≡ cases.stays_as_partner_moves }
{}

/// The one target has the context's husk, and the context stays.
pub fn target_has_the_husk()
    ensures { evacuated_after empty_world cases.came_from_there 3 (2 ∷ [])
        ≡ cases.stays_without_target }
{}

/// The first of two targets has the husk, and the second takes the context.
pub fn second_target_takes_it()
    ensures { evacuated_after empty_world cases.came_from_there 3 (2 ∷ 1 ∷ [])
        ≡ cases.emptied_by_second_target }
{}

/// No device has the id.
pub fn no_such_device()
    ensures { evacuated_after empty_world opening 9 (3 ∷ []) ≡ cases.no_device }
{}

/// The device may have no more husks.
pub fn device_is_full_of_husks()
    ensures { evacuated (with_husks (world_after empty_world opening)) 2 (3 ∷ [])
        ≡ cases.stays_as_husks_are_many }
{}
