//! The commands.

ghost use Rattle.std.specs.Prelude.{◌≡◌, map, None, Ok, IfOk, IfSome};
ghost use Rattle.std.specs.String.{string_bytes};
ghost use Rattle.program_rules.specs.Commands.{command_of, placed_of};
ghost use Rattle.command_line.specs.Commands.{IsInRange, known_if};

use crate::ids::evacuate_of;
use crate::rule::{is_lawful, spells};
use crate::splitting::{command_in, split};
use arrayvec::ArrayVec;
use rdma_types::{Address, Name};
use std::alloc::{AllocError, Global};
use workload_gen::Mix;

/// What the program is asked to do.
#[derive(Drop)]
pub enum Command {
    /// The lines of the whole input are answered.
    Play,
    /// A generated script is played, and summed up.
    Bulk { seed: u64, mix: Mix },
    /// What a dump in the depot says is written.
    ShowDump { name: Name },
    /// The lines of the whole input are answered, and then a device is emptied.
    Evacuate { from: u8, targets: ArrayVec<u8, 16> },
    /// The whole input is a trace, which is audited.
    Audit,
    /// The whole input is a script, whose trace is written.
    Record,
    /// One device with that id and address, over the link, does the lines of the whole input.
    Node { id: u8, own: Address },
}

/// The command of words that have their places one by one.
fn placed(alloc: Global, words: &[String]) -> Result<Option<Command>, AllocError>
    ensures value { IfOk result (λ r. known_if r ≡ placed_of (map string_bytes words.now)) }
    ensures none { placed_of (map string_bytes words.now) ≡ None → result ≡ Ok None }
    ensures within { IfOk result (λ r. IfSome r IsInRange) }
{
    if !is_lawful(words) {
        return Ok(None);
    }
    let matches = split(alloc, words)?;
    Ok(command_in(&matches))
}

impl Command {
    /// The command of these words, without the program's name; `Ok(None)` exactly where they are of none. Errors:
    /// `AllocError` when out of memory, and never where the words are of no command.
    #[tactic(auto, unfolding(program_rules::specs::Commands::command_of))]
    pub fn of(alloc: Global, words: &[String]) -> Result<Option<Command>, AllocError>
        ensures value { IfOk result (λ r. known_if r ≡ command_of (map string_bytes words.now)) }
        ensures none { command_of (map string_bytes words.now) ≡ None → result ≡ Ok None }
        ensures within { IfOk result (λ r. IfSome r IsInRange) }
    {
        let [word, rest @ ..] = words else {
            return Ok(None);
        };
        if spells(word.as_bytes(), b"evacuate") {
            return Ok(evacuate_of(rest));
        }
        placed(alloc, words)
    }
}
