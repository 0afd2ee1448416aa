//! Scripts line by line.

ghost use Rattle.std.specs.Prelude.{◌≡◌, ℕ, ◌++◌, List, length, count_by};
ghost use Rattle.protocol.specs.Script.{Happening, answers_in};
ghost use Rattle.protocol.specs.State.{World};
ghost use Rattle.script_lang.specs.Scripts.{lines_of};
ghost use Rattle.law_headline.specs.Does.{is_answered};
ghost use Rattle.law_headline.specs.Playing.{PlayingBegins, PlayingGoesOn, PlayingStops, PlayingEnds, PlayingForgets};
ghost use Rattle.law_headline.specs.Script.{SaysLines, happenings, script_of, text_from, world_left};

use law_kept_datagrams::alike_worlds_are_answered_alike;

/// What a text says is what its lines say, one after the other: all of them, or those before the first bad one, which has that
/// number and that offence.
pub fn scripts_say_their_lines()
    ensures { (text : List ℕ) → SaysLines 1 (lines_of text) (script_of text) }
{}

/// Each line that is not blank has one answer, and what is written for lines is what is written for a prefix of them, and then
/// for the others from the world that the prefix leaves.
pub fn answers_stand_in_order()
    ensures count { (text : List ℕ) (w : World)
        → length (answers_in w (happenings text)) ≡ count_by is_answered (script_of text).lines }
    ensures text { (w : World) (prefix rest : List Happening)
        → text_from w (prefix ++ rest) ≡ text_from w prefix
        ++ text_from (world_left w prefix) rest }
{}

/// A loop that reads line after line, answers each and writes the text has written the answers to the whole text where it comes to
/// its end, and those to the lines before it where it comes to a bad one. Its world may forget the datagrams that the network keeps
/// no more.
pub fn scripts_are_played_line_by_line()
    ensures begins { PlayingBegins }
    ensures goes_on { PlayingGoesOn }
    ensures stops { PlayingStops }
    ensures ends { PlayingEnds }
    ensures forgets { PlayingForgets }
{
    alike_worlds_are_answered_alike();
}
