//! What each settling in a script leaves, without a premise on images: each world that a script leads to keeps their rules.
//!
//! The functions do nothing. Each promises the law that it names.

ghost use Rattle.std.specs.Prelude.{◌≡◌, ℕ, ◌++◌, List, Ok};
ghost use Rattle.protocol.specs.declared.events.WorldEvent.{WorldEvent};
ghost use Rattle.protocol.specs.Events.{IsLawfulWorldEvent};
ghost use Rattle.protocol.specs.Script.{Happening};
ghost use Rattle.protocol.specs.Settle.{settled};
ghost use Rattle.protocol.specs.State.{World, empty_world};
ghost use Rattle.protocol.specs.WorldStep.{world_step};
ghost use Rattle.packetless_machine.specs.Machine.{Machine};
ghost use Rattle.script_lang.specs.declared.lines.Line.{Line};
ghost use Rattle.script_lang.specs.Lines.{reading_of};
ghost use Rattle.law_simulation.specs.Stands.{Stands};
ghost use Rattle.law_headline.specs.Does.{happening_of};
ghost use Rattle.law_headline.specs.Script.{happenings, world_left};
ghost use Rattle.law_scripts.specs.Settled.{SettledScriptsAreQuiet};
ghost use Rattle.law_scripts.specs.Sound.{IsSoundWorld, MayBeSaidOf, NamesThings};

use law_devices::device_sound::{devices_stay_sound, images_keep_the_rules};
use law_headline::{lines_are_in_range, scripts_are_followed};
use law_settling::unfinished::settling_leaves;
use law_simulation::runs::law_holds;

/// The empty world is sound. A sound world that stands for a state of the packetless machine is sound after each lawful event whose
/// names are names, and after settling: its devices and its carried images keep the rules of images.
pub fn worlds_stay_sound()
    ensures empty { IsSoundWorld empty_world }
    ensures step { (w : World) (m : Machine) (e : WorldEvent) → Stands w m → IsSoundWorld w
        → IsLawfulWorldEvent e → NamesThings e → IsSoundWorld (world_step w e).world }
    ensures settling { (w : World) → IsSoundWorld w → IsSoundWorld (settled w).world }
{
    devices_stay_sound();
    images_keep_the_rules();
}

/// What is read as a line may be said; and each world that the lines of a text lead to is sound, so all its carried images keep the
/// rules.
pub fn scripts_keep_worlds_sound()
    ensures read { (line : List ℕ) (says : Line) → reading_of line ≡ Ok says
        → MayBeSaidOf (happening_of says) }
    ensures sound { (text : List ℕ) (prefix rest : List Happening)
        → happenings text ≡ prefix ++ rest → IsSoundWorld (world_left empty_world prefix) }
{
    worlds_stay_sound();
    lines_are_in_range();
    law_holds();
    scripts_are_followed();
}

/// Behind each `settle` of a text nothing is pending, and its answer names each end with untold requests once, in order, with the
/// first reason that holds: its context is carried, it is Paused, it is Resuming, or it lacks a receive.
pub fn settled_scripts_are_quiet()
    ensures { SettledScriptsAreQuiet }
{
    scripts_keep_worlds_sound();
    scripts_are_followed();
    settling_leaves();
}
