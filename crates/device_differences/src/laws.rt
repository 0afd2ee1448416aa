//! What a difference says.

ghost use Rattle.std.specs.Prelude.{◌≡◌, ◌≢◌, ◌↔◌, IfSome, None};
ghost use Rattle.protocol.specs.State.{Device};
ghost use Rattle.device_differences.specs.Differences.{first_difference};

/// There is no difference exactly where two devices are equal, and the two values of a difference differ.
pub fn differences_tell_devices_apart()
    ensures none { (x y : Device) → (first_difference x y ≡ None) ↔ (x ≡ y) }
    ensures some { (x y : Device) → IfSome (first_difference x y) (λ p. p.0 ≢ p.1) }
{}
