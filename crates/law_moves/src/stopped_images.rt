//! The image that a stop gives, beside the context that was stopped.
//!
//! The function does nothing. It promises the law that it names.

ghost use Rattle.std.specs.Prelude.{◌≡◌, Bool, Some, None};
ghost use Rattle.rdma_types.specs.declared.names.Name.{Name};
ghost use Rattle.protocol.specs.declared.events.Event.TheVariants.{Stop};
ghost use Rattle.protocol.specs.DeviceStep.{device_step};
ghost use Rattle.protocol.specs.Images.{image_of};
ghost use Rattle.protocol.specs.Refusals.{refusal_of};
ghost use Rattle.protocol.specs.State.{Context, Device, context_at};
ghost use Rattle.law_devices.specs.Sound.{IsSoundContext};
ghost use Rattle.law_moves.specs.Held.{HasEveryField};

/// A stop that is not refused gives the image of the context, and that image has every field as the stopped context had it;
/// Paused alone is no field.
pub fn a_stopped_image_has_every_field()
    ensures stopped { (d : Device) (name : Name) (alone : Bool)
        → refusal_of d (Stop name alone) ≡ None
        → (device_step d (Stop name alone)).outcome.image ≡ Some (image_of (context_at d name)) }
    ensures fields { (c : Context) → IsSoundContext c → HasEveryField c (image_of c) }
{}
