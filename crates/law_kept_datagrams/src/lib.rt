//! The law of what the network's store forgets: worlds that differ only in datagrams which are not kept any more are answered
//! alike.
//!
//! The function does nothing. It promises the law that it names.
#![tactic(auto)]

ghost use Rattle.std.specs.Prelude.{◌≡◌, List};
ghost use Rattle.protocol.specs.declared.events.WorldEvent.{WorldEvent};
ghost use Rattle.protocol.specs.Script.{Happening, answers_in, happens};
ghost use Rattle.protocol.specs.State.{World};
ghost use Rattle.protocol.specs.WorldStep.{world_step};
ghost use Rattle.law_kept_datagrams.specs.Alike.{AreAlike, StepAlike, with_kept_datagrams};

/// Worlds that differ only in datagrams which the network keeps no more answer each event, each dump and each settling alike, and
/// differ in no more after it. So a world that keeps only the last datagrams answers a script as one that keeps all.
pub fn alike_worlds_are_answered_alike()
    ensures kept_datagrams { (w : World) → AreAlike (with_kept_datagrams w) w }
    ensures event { (a b : World) (e : WorldEvent) → AreAlike a b
        → StepAlike (world_step a e) (world_step b e) }
    ensures line { (a b : World) (h : Happening) → AreAlike a b
        → StepAlike (happens a h) (happens b h) }
    ensures script { (w : World) (hs : List Happening)
        → answers_in (with_kept_datagrams w) hs ≡ answers_in w hs }
{}
