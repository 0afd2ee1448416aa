//! A device's contexts keep the rules of images, whatever lawful events happen to it.

ghost use Rattle.std.specs.Prelude.{◌≡◌, ◌≤◌, []};
ghost use Rattle.rdma_types.specs.Limits.{most_keys, most_numbers};
ghost use Rattle.protocol.specs.declared.events.Event.{Event};
ghost use Rattle.protocol.specs.declared.images.ContextImage.{ContextImage};
ghost use Rattle.protocol.specs.DeviceStep.{device_step};
ghost use Rattle.protocol.specs.Events.{IsLawfulEvent};
ghost use Rattle.protocol.specs.Images.{context_of, image_of, moved};
ghost use Rattle.protocol.specs.Lawful.{IsLawful};
ghost use Rattle.protocol.specs.State.{Context, Device};
ghost use Rattle.law_devices.specs.Sound.{AreLawfulContexts, GivesNames, IsSoundContext, IsSoundDevice};

/// A device with no contexts is sound. A sound device is sound after each step, whatever lawful event it is asked for and
/// whatever bytes arrive: each message, refusal, flush, expiry and move keeps the rules of its contexts.
pub fn devices_stay_sound()
    ensures new { (d : Device) → 1 ≤ d.id → d.id ≤ 255 → d.qp_count ≤ most_numbers
        → d.key_count ≤ most_keys → d.contexts ≡ [] → IsSoundDevice d }
    ensures step { (d : Device) (e : Event) → IsSoundDevice d → IsLawfulEvent e → GivesNames e
        → IsSoundDevice (device_step d e).device }
{}

/// The image of a sound context keeps the rules of images, so a stop hands out a lawful image; and the context of a lawful
/// image is sound, also once it is moved.
pub fn images_keep_the_rules()
    ensures image { (c : Context) → IsSoundContext c → IsLawful (image_of c) }
    ensures context { (i : ContextImage) → IsLawful i → IsSoundContext (context_of i) }
    ensures moved { (c : Context) → IsSoundContext c → IsSoundContext (moved c) }
    ensures device { (d : Device) → IsSoundDevice d → AreLawfulContexts d }
{}
