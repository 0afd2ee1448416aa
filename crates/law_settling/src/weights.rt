//! The law of weights: an end that takes a packet has no more steps of settling left than before.
//!
//! The function does nothing. It promises the law that it names.

ghost use Rattle.law_settling.specs.Weights.{TakingLightens};

/// An end that takes a packet keeps its partner, its terms and its count of moves, has no more unacknowledged numbers, and
/// lightens; where `una` or its state changed, it is lighter.
pub fn taking_lightens()
    ensures { TakingLightens }
{}
