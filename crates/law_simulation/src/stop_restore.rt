//! The law of moving: a context is stopped, its image is carried, put on a device and resumed, and a husk is forgotten.
//! The machine makes no step.
//!
//! The functions have no code. Each promises the law for the events that it names.

ghost use Rattle.std.specs.Prelude.{ℕ};
ghost use Rattle.rdma_types.specs.declared.names.Name.{Name};
ghost use Rattle.protocol.specs.declared.events.WorldEvent.TheVariants.{Stop, Restore, Release};
ghost use Rattle.law_simulation.specs.Law.{AlwaysFollows};

/// The machine follows a stop, by which a context becomes a carried image and leaves a husk: it makes no step.
pub fn stop_follows()
    ensures { (name : Name) → AlwaysFollows (Stop name) }
{}

/// The machine follows a restore, by which a carried image is put on a device and its ends are Resuming: it makes no step.
pub fn restore_follows()
    ensures { (name : Name) (device : ℕ) → AlwaysFollows (Restore name device) }
{}

/// The machine follows the forgetting of a husk: it makes no step.
pub fn release_follows()
    ensures { (name : Name) (device : ℕ) → AlwaysFollows (Release name device) }
{}
