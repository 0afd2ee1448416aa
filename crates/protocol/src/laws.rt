//! What the definitions say, as laws.

ghost use Rattle.std.specs.Prelude.{ℕ, ◌≡◌, ◌<◌, ◌+◌, ◌^◌, ◌++◌, ◌∷◌, [], Some, None};
ghost use Rattle.protocol.specs.declared.events.Event.TheVariants.{Restore};
ghost use Rattle.protocol.specs.declared.images.ContextImage.{ContextImage};
ghost use Rattle.protocol.specs.DeviceStep.{device_step};
ghost use Rattle.protocol.specs.Images.{IsMoved, context_of, moved};
ghost use Rattle.protocol.specs.Numbers.{IsNear, unwrap_near};
ghost use Rattle.protocol.specs.Refusals.{refusal_of};
ghost use Rattle.protocol.specs.Requester.{waited};
ghost use Rattle.protocol.specs.State.{Device, Sender};

/// A wire number of 24 bits means at most one number near another, and that one is found exactly where there is one.
pub fn a_wire_number_means_one_number()
    ensures found { (start psn near n : ℕ) → psn < 2 ^ 24 → unwrap_near start psn near ≡ Some n
        → IsNear start psn near n }
    ensures known { (start psn near n : ℕ) → IsNear start psn near n
        → unwrap_near start psn near ≡ Some n }
    ensures unique { (start psn near n m : ℕ) → IsNear start psn near n → IsNear start psn near m
        → n ≡ m }
{}

/// A restore that is not refused puts the moved context of its image at the end of the device's contexts, and that
/// context is its image but for what a move changes.
pub fn a_restored_context_is_its_moved_image()
    ensures moved { (image : ContextImage) → IsMoved image (moved (context_of image)) }
    ensures restored { (d : Device) (image : ContextImage) → refusal_of d (Restore image) ≡ None
        → (device_step d (Restore image)).device.contexts
        ≡ d.contexts ++ moved (context_of image) ∷ [] }
{}

/// Waits for a receiver are counted one by one, and a count of 255 stays.
pub fn waits_are_counted_up_to_255()
    ensures counted { (s : Sender) → s.waits < 255 → (waited s).waits ≡ s.waits + 1 }
    ensures stays { (s : Sender) → s.waits ≡ 255 → (waited s).waits ≡ 255 }
{}
