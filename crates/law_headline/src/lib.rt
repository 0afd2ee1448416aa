//! What a whole script does in a world and what it writes, and what is claimed of that.
//!
//! The functions do nothing. Each promises the law that it names.
#![tactic(auto)]

ghost use Rattle.std.specs.Prelude.{◌≡◌, ℕ, [], ◌++◌, List, All, Ok};
ghost use Rattle.protocol.specs.declared.events.WorldEvent.{WorldEvent};
ghost use Rattle.protocol.specs.State.{World, empty_world};
ghost use Rattle.protocol.specs.Script.{Happening};
ghost use Rattle.packetless_machine.specs.Legal.{IsLegal};
ghost use Rattle.packetless_machine.specs.Machine.{Machine, empty};
ghost use Rattle.script_lang.specs.declared.lines.Line.{Line};
ghost use Rattle.law_settling.specs.Settling.{IsSettling};
ghost use Rattle.law_simulation.specs.Law.{IsInRange};
ghost use Rattle.law_simulation.specs.Stands.{Stands};
ghost use Rattle.script_lang.specs.Lines.{reading_of};
ghost use Rattle.script_lang.specs.Ranges.{IsLawfulLine};
ghost use Rattle.law_headline.specs.Does.{IsLineInRange, IsWithin, MayBeAskedOf, happening_of, happenings_of};
ghost use Rattle.law_headline.specs.Follows.{FollowsAll, IsFollowed};
ghost use Rattle.law_headline.specs.Left.{ReachesAll};
ghost use Rattle.law_headline.specs.Script.{happenings, heard_from};

mod playing;

use law_settling::steps::settling_is_named;
use law_simulation::runs::{law_holds, steps_are_named};
pub use playing::{
    answers_stand_in_order, scripts_are_played_line_by_line, scripts_say_their_lines,
};

/// What a line says is in its ranges, and so is each event of settling, so the law of events speaks of them; and a step of a world
/// may be asked for what a lawful line does.
pub fn lines_are_in_range()
    ensures read { (line : List ℕ) (says : Line) → reading_of line ≡ Ok says → IsLineInRange says }
    ensures lawful { (line : List ℕ) (says : Line) → reading_of line ≡ Ok says → IsLawfulLine says }
    ensures settling { (event : WorldEvent) → IsSettling event → IsInRange event }
    ensures asked { (line : Line) → IsLawfulLine line → MayBeAskedOf (happening_of line) }
{}

/// The machine follows each list of lines whose fields are in their ranges, one line after the other and each by exactly the steps
/// that are named at it, from each state for which the world stands; and what applications hear of lines from the empty world on is legal.
pub fn lines_are_followed()
    ensures from_any { (w : World) (m : Machine) (hs : List Happening) → All IsWithin hs
        → Stands w m → FollowsAll w m hs }
    ensures follows { (ls : List Line) → All IsLineInRange ls
        → FollowsAll empty_world empty (happenings_of ls) }
    ensures legal { (ls : List Line) → All IsLineInRange ls
        → IsLegal (heard_from empty_world (happenings_of ls)) }
{
    law_holds();
    steps_are_named();
    settling_is_named();
}

/// The machine follows the lines of each text before its first bad one, and what applications hear of them is legal. The same
/// holds for each prefix of them, as where a run stops early. The world that they leave stands for the state that the machine
/// comes to.
pub fn scripts_are_followed()
    ensures whole { (text : List ℕ) → IsFollowed text }
    ensures follows_prefix { (text : List ℕ) (prefix rest : List Happening)
        → happenings text ≡ prefix ++ rest → FollowsAll empty_world empty prefix }
    ensures legal_prefix { (text : List ℕ) (prefix rest : List Happening)
        → happenings text ≡ prefix ++ rest → IsLegal (heard_from empty_world prefix) }
    ensures reached { (text : List ℕ) → ReachesAll empty_world empty (happenings text) }
{
    lines_are_in_range();
    lines_are_followed();
}
