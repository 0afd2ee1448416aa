//! The answers to the lines of a script.

ghost use Rattle.std.specs.Prelude.{◌≡◌, ◌∷◌, ℕ, ◌+◌, ◌<◌, ◌≤◌, ◌^◌, ◌⊎◌, List, length, Option, None, Some, Err, OnOk, OnErr, IfOk, IfErr};
ghost use Rattle.host_ports.specs.Streams.{FaultsCounted, Puts};
ghost use Rattle.law_headline.specs.Does.{MayBeAskedOf, happening_of};
ghost use Rattle.law_headline.specs.Follows.{IsFollowed};
ghost use Rattle.law_headline.specs.Left.{IsWorldAfter};
ghost use Rattle.law_headline.specs.Playing.{line_text};
ghost use Rattle.law_headline.specs.Script.{answers_text, bad_line};
ghost use Rattle.script_runner.specs.Playing.{IfBadLine, IsOneLineFault, IsPlayedTo, IsStoppedAt, Leaves, PutsPrefix};

use crate::PlayFault;
use crate::actions::action_of;
use crate::answering::act;
use host_ports::{Sink, WriteFault, write_all_of};
use law_headline::{lines_are_in_range, scripts_are_followed, scripts_are_played_line_by_line};
use law_kept_datagrams::alike_worlds_are_answered_alike;
use script_lang::{Line, LineFault, Lines, print_answer, read_line};
use std::alloc::Global;
use world_core::{Settler, World};

/// Room that is kept from line to line: for what a line says, and for the text of its answer.
#[derive(Drop)]
struct Room {
    told: Line,
    text: Vec<u8>,
}

/// Writes a text; after an error a prefix of it is written.
fn write_text<K: Sink>(text: &[u8], output: &mut K) -> Result<(), WriteFault>
    ensures whole { OnOk result (Puts (K.held output.old) (K.held output.new) text.now) }
    ensures part { OnErr result (PutsPrefix (K.held output.old) (K.held output.new) text.now) }
    ensures faults_unchanged { OnOk result (K.faults output.new ≡ K.faults output.old) }
    ensures faults_counted { OnErr result (FaultsCounted (K.faults output.old)
        (K.faults output.new)) }
    ensures faults_monotone { K.faults output.old ≤ K.faults output.new }
{
    write_all_of(output, text)
}

/// Answers one line, in one write; a blank one has no answer. `text` is room for the answer.
fn answer<T: Settler, K: Sink>(
    alloc: Global,
    world: &mut World,
    settler: &T,
    line: Line,
    text: &mut Vec<u8>,
    output: &mut K,
) -> Result<(), PlayFault>
    requires { MayBeAskedOf (happening_of line) }
    ensures world { OnOk result (Leaves world.old (happening_of line) world.new) }
    ensures whole { OnOk result (Puts (K.held output.old) (K.held output.new)
        (line_text world.old (happening_of line))) }
    ensures part { OnErr result (PutsPrefix (K.held output.old) (K.held output.new)
        (line_text world.old (happening_of line))) }
    ensures faults { IfErr result IsOneLineFault }
    ensures faults_unchanged { (result ≡ Err PlayFault.WriteFault)
        ⊎ (K.faults output.new ≡ K.faults output.old) }
    ensures faults_counted { result ≡ Err PlayFault.WriteFault
        → FaultsCounted (K.faults output.old) (K.faults output.new) }
    ensures faults_monotone { K.faults output.old ≤ K.faults output.new }
{
    let Some(action) = action_of(line) else {
        return Ok(());
    };
    let told = act(alloc, world, settler, &action)?;
    text.clear();
    print_answer(&told, text)?;
    write_text(text.as_slice(), output)?;
    Ok(())
}

/// Reads and answers the line of this number.
fn play_line<T: Settler, K: Sink>(
    alloc: Global,
    world: &mut World,
    settler: &T,
    number: u64,
    line: &[u8],
    room: &mut Room,
    output: &mut K,
) -> Result<(), PlayFault>
    ensures played { (held : Option (List ℕ)) (script : List ℕ) (n : ℕ) (rest : List (List ℕ)) → n + 1 ≡ number
        → IsPlayedTo held (K.held output.old) script world.old n (line.now ∷ rest)
        → OnOk result (IsPlayedTo held (K.held output.new) script world.new number rest) }
    ensures bad { (held : Option (List ℕ)) (script : List ℕ) (n : ℕ) (rest : List (List ℕ)) → n + 1 ≡ number
        → IsPlayedTo held (K.held output.old) script world.old n (line.now ∷ rest)
        → IfErr result (IfBadLine (IsStoppedAt held (K.held output.new) script)) }
    ensures part { (held : Option (List ℕ)) (script : List ℕ) (n : ℕ) (rest : List (List ℕ)) → n + 1 ≡ number
        → IsPlayedTo held (K.held output.old) script world.old n (line.now ∷ rest)
        → OnErr result (PutsPrefix held (K.held output.new) (answers_text script)) }
    ensures faults_unchanged { (result ≡ Err PlayFault.WriteFault)
        ⊎ (K.faults output.new ≡ K.faults output.old) }
    ensures faults_counted { result ≡ Err PlayFault.WriteFault
        → FaultsCounted (K.faults output.old) (K.faults output.new) }
    ensures faults_monotone { K.faults output.old ≤ K.faults output.new }
{
    alike_worlds_are_answered_alike();
    lines_are_in_range();
    scripts_are_played_line_by_line();
    match read_line(alloc, line, &mut room.told) {
        Ok(()) => {
            let says = std::mem::replace(&mut room.told, Line::Blank);
            answer(alloc, world, settler, says, &mut room.text, output)
        }
        Err(LineFault::Bad { column, why }) => Err(PlayFault::BadLine {
            line: number,
            column,
            why,
        }),
        Err(LineFault::OutOfMemory) => Err(PlayFault::OutOfMemory),
    }
}

/// Plays a script, and hands out the world after its last line: each line is answered before the next one is done, in one write.
///
/// # Errors
///
/// The first bad line, where the lines before it are answered; a fault of the sink, or `OutOfMemory`, where a prefix of
/// the answers is written.
pub fn play_world<T: Settler, K: Sink>(
    alloc: Global,
    input: &[u8],
    settler: &T,
    output: &mut K,
) -> Result<World, PlayFault>
    ensures left { IfOk result (λ world. IsWorldAfter input.now world) }
    ensures good { OnOk result (bad_line input.now ≡ None) }
    ensures whole { OnOk result (Puts (K.held output.old) (K.held output.new)
        (answers_text input.now)) }
    ensures bad { IfErr result (IfBadLine (IsStoppedAt (K.held output.old)
        (K.held output.new) input.now)) }
    ensures part { OnErr result (PutsPrefix (K.held output.old) (K.held output.new)
        (answers_text input.now)) }
    ensures followed { IsFollowed input.now }

    // The count of faults rises exactly at `WriteFault`.
    ensures faults_unchanged { (result ≡ Err PlayFault.WriteFault)
        ⊎ (K.faults output.new ≡ K.faults output.old) }
    ensures faults_counted { result ≡ Err PlayFault.WriteFault
        → FaultsCounted (K.faults output.old) (K.faults output.new) }
    ensures faults_monotone { K.faults output.old ≤ K.faults output.new }
{
    scripts_are_followed();
    scripts_are_played_line_by_line();
    let mut world = World::make(alloc)?;
    let mut room = Room {
        told: Line::Blank,
        text: Vec::new(alloc),
    };
    let mut lines = Lines::new(input);
    let mut number = 0u64;
    while let Some(line) = lines.next_line() {
        number += 1;
        play_line(alloc, &mut world, settler, number, line, &mut room, output)?;
    }
    Ok(world)
}

/// Plays a script: each line is answered before the next one is done, in one write.
///
/// # Errors
///
/// Those of `play_world`.
pub fn play<T: Settler, K: Sink>(
    alloc: Global,
    input: &[u8],
    settler: &T,
    output: &mut K,
) -> Result<(), PlayFault>
    ensures good { OnOk result (bad_line input.now ≡ None) }
    ensures whole { OnOk result (Puts (K.held output.old) (K.held output.new)
        (answers_text input.now)) }
    ensures bad { IfErr result (IfBadLine (IsStoppedAt (K.held output.old)
        (K.held output.new) input.now)) }
    ensures part { OnErr result (PutsPrefix (K.held output.old) (K.held output.new)
        (answers_text input.now)) }
    ensures followed { IsFollowed input.now }

    // The count of faults rises exactly at `WriteFault`.
    ensures faults_unchanged { (result ≡ Err PlayFault.WriteFault)
        ⊎ (K.faults output.new ≡ K.faults output.old) }
    ensures faults_counted { result ≡ Err PlayFault.WriteFault
        → FaultsCounted (K.faults output.old) (K.faults output.new) }
    ensures faults_monotone { K.faults output.old ≤ K.faults output.new }
{
    play_world(alloc, input, settler, output)?;
    Ok(())
}
