//! The commands that wait for nobody.

ghost use Rattle.std.specs.Prelude.{◌≡◌, List, Some, Err, String, IfErr, IfOk, map};
ghost use Rattle.std.specs.String.{string_bytes};
ghost use Rattle.std.specs.declared.alloc.Global.{Global};
ghost use Rattle.dump_writer.specs.Text.{text_of};
ghost use Rattle.program_rules.specs.Commands.{command_of};
ghost use Rattle.program_rules.specs.Due.{IsDue};
ghost use Rattle.program_rules.specs.Ends.{Ends};
ghost use Rattle.program_rules.specs.Runs.{ReadsInput, UsesDepot, UsesLink};
ghost use Rattle.command_line.specs.Commands.{IsInRange, known};
ghost use Rattle.commands.specs.Stopping.{IsNotAsked, Performs, run_of};

use crate::commands::{
    audit_input, evacuate_input, play_input, record_input, run_device, show_dump, sum_up,
};
use crate::stop::Stop;
use command_line::Command;
use host_ports::{Depot, Link, Sink, Source, Ticks, WriteFault};
use law_scripts::generated_scripts::no_generated_line_is_bad;
use node_engine::NodePorts;
use node_rules::what_is_told_decides_a_run;
use std::alloc::{AllocError, Global};

/// The command that the words spell.
fn asked(alloc: Global, words: &[String]) -> Result<Command, Stop>
    ensures spelled { IfOk result (λ command. Some (known command)
        ≡ command_of (map string_bytes words.now)) }
    ensures within { IfOk result IsInRange }
    ensures stops { IfErr result (IsNotAsked (command_of (map string_bytes words.now))) }
{
    match Command::of(alloc, words) {
        Ok(Some(command)) => Ok(command),
        Ok(None) => Err(Stop::Usage),
        Err(AllocError) => Err(Stop::OutOfMemory),
    }
}

/// Does a command.
fn carry_out<S: Source, L: Link, K: Sink, D: Depot, C: Ticks>(
    alloc: Global,
    command: &Command,
    input: &mut S,
    ports: &mut NodePorts<L, K, D, C>,
) -> Result<(), Stop>
    requires within { IsInRange command.now }
    ensures performs { (words : List (String Global)) → command_of (map string_bytes words) ≡ Some (known command.now) → Performs text_of (run_of words (S.left input.old) (S.left input.new) (S.faults input.old) (S.faults input.new)
        (record { waiting = L.waiting ports.old.link; sent = L.sent ports.old.link; to_come = C.to_come ports.old.ticks; held = D.held ports.old.depot; written = K.held ports.old.output; faults = record { link = L.faults ports.old.link; depot = D.faults ports.old.depot; output = K.faults ports.old.output } })
        (record { waiting = L.waiting ports.new.link; sent = L.sent ports.new.link; to_come = C.to_come ports.new.ticks; held = D.held ports.new.depot; written = K.held ports.new.output; faults = record { link = L.faults ports.new.link; depot = D.faults ports.new.depot; output = K.faults ports.new.output } }))
        result }
    ensures never_fails { S.never_fails input.old → result ≡ Err Stop.ReadFault → ⊥ }
    ensures depot_never_fails { (UsesLink (Some (known command.now)) → ⊥)
        → D.never_fails ports.old.depot → result ≡ Err Stop.DepotFault → ⊥ }
    ensures kept_input { (ReadsInput (Some (known command.now)) → ⊥) → input.new ≡ input.old }
    ensures kept_link { (UsesLink (Some (known command.now)) → ⊥)
        → (ports.new.link ≡ ports.old.link) × (ports.new.ticks ≡ ports.old.ticks) }
    ensures kept_depot { (UsesDepot (Some (known command.now)) → ⊥)
        → ports.new.depot ≡ ports.old.depot }
{
    match command {
        Command::Play => play_input(alloc, input, &mut ports.output),
        Command::Bulk { seed, mix } => sum_up(alloc, *seed, mix, &mut ports.output),
        Command::ShowDump { name } => {
            show_dump(alloc, *name, &mut ports.output, &mut ports.depot)
        }
        Command::Evacuate { from, targets } => {
            evacuate_input(alloc, *from, targets.as_slice(), input, &mut ports.output)
        }
        Command::Audit => audit_input(alloc, input, &mut ports.output),
        Command::Record => record_input(alloc, input, &mut ports.output),
        Command::Node { id, own } => run_device(alloc, *id, *own, input, ports),
    }
}

/// Does the command that the words spell.
fn perform<S: Source, L: Link, K: Sink, D: Depot, C: Ticks>(
    alloc: Global,
    words: &[String],
    input: &mut S,
    ports: &mut NodePorts<L, K, D, C>,
) -> Result<(), Stop>
    ensures performs { Performs text_of (run_of words.now (S.left input.old) (S.left input.new) (S.faults input.old) (S.faults input.new)
        (record { waiting = L.waiting ports.old.link; sent = L.sent ports.old.link; to_come = C.to_come ports.old.ticks; held = D.held ports.old.depot; written = K.held ports.old.output; faults = record { link = L.faults ports.old.link; depot = D.faults ports.old.depot; output = K.faults ports.old.output } })
        (record { waiting = L.waiting ports.new.link; sent = L.sent ports.new.link; to_come = C.to_come ports.new.ticks; held = D.held ports.new.depot; written = K.held ports.new.output; faults = record { link = L.faults ports.new.link; depot = D.faults ports.new.depot; output = K.faults ports.new.output } }))
        result }
    ensures never_fails { S.never_fails input.old → result ≡ Err Stop.ReadFault → ⊥ }
    ensures depot_never_fails { (UsesLink (command_of (map string_bytes words.now)) → ⊥)
        → D.never_fails ports.old.depot → result ≡ Err Stop.DepotFault → ⊥ }
    ensures kept_input { (ReadsInput (command_of (map string_bytes words.now)) → ⊥)
        → input.new ≡ input.old }
    ensures kept_link { (UsesLink (command_of (map string_bytes words.now)) → ⊥)
        → (ports.new.link ≡ ports.old.link) × (ports.new.ticks ≡ ports.old.ticks) }
    ensures kept_depot { (UsesDepot (command_of (map string_bytes words.now)) → ⊥)
        → ports.new.depot ≡ ports.old.depot }
{
    match asked(alloc, words) {
        Ok(command) => carry_out(alloc, &command, input, ports),
        Err(stop) => Err(stop),
    }
}

/// Does the command that the words spell, writes the last line where it is not done, and gives the status.
fn run<S: Source, L: Link, K: Sink, D: Depot, C: Ticks>(
    alloc: Global,
    words: &[String],
    input: &mut S,
    ports: &mut NodePorts<L, K, D, C>,
) -> u8
    ensures ends { Ends text_of (run_of words.now (S.left input.old) (S.left input.new) (S.faults input.old) (S.faults input.new)
        (record { waiting = L.waiting ports.old.link; sent = L.sent ports.old.link; to_come = C.to_come ports.old.ticks; held = D.held ports.old.depot; written = K.held ports.old.output; faults = record { link = L.faults ports.old.link; depot = D.faults ports.old.depot; output = K.faults ports.old.output } })
        (record { waiting = L.waiting ports.new.link; sent = L.sent ports.new.link; to_come = C.to_come ports.new.ticks; held = D.held ports.new.depot; written = K.held ports.new.output; faults = record { link = L.faults ports.new.link; depot = D.faults ports.new.depot; output = K.faults ports.new.output } }))
        result }
    ensures never_fails { S.never_fails input.old → result ≡ 4 → ⊥ }
    ensures depot_never_fails { (UsesLink (command_of (map string_bytes words.now)) → ⊥)
        → D.never_fails ports.old.depot → result ≡ 7 → ⊥ }
    ensures kept_input { (ReadsInput (command_of (map string_bytes words.now)) → ⊥)
        → input.new ≡ input.old }
    ensures kept_link { (UsesLink (command_of (map string_bytes words.now)) → ⊥)
        → (ports.new.link ≡ ports.old.link) × (ports.new.ticks ≡ ports.old.ticks) }
    ensures kept_depot { (UsesDepot (command_of (map string_bytes words.now)) → ⊥)
        → ports.new.depot ≡ ports.old.depot }
{
    match perform(alloc, words, input, ports) {
        Ok(()) => 0,
        Err(stop) => match stop.write_last_line(&mut ports.output) {
            Ok(()) => stop.status(),
            Err(WriteFault) => 5,
        },
    }
}

/// Does the command that the words spell, without the program's name, and gives the status that the process ends with.
///
/// - `play` reads the whole input, at most 1,048,576 bytes, and answers its lines one after the other, each in one write.
/// - `bulk` plays the generated script of a seed, and writes one line that sums up its answers.
/// - `show-dump` looks a dump up in the depot, and writes what it says.
/// - `evacuate` does what `play` does, and then empties a device of the world that the lines left; it writes a line for each
///   context that moved, and a last line on how it ended.
/// - `audit` reads the whole input as a trace, and writes whether it is a run of the packetless machine.
/// - `record` reads the whole input as a script without lines that settle, and writes its trace.
/// - `node` reads the whole input, and does its lines one after the other on one device over the link.
///
/// A run that is not done writes a last line, but none after a fault of the input or the output. Status 8, out of memory,
/// may come at any time, and a fault of the output while the last line is written is status 5.
pub fn run_serial<S: Source, L: Link, K: Sink, D: Depot, C: Ticks>(
    alloc: Global,
    words: &[String],
    input: &mut S,
    ports: &mut NodePorts<L, K, D, C>,
) -> u8
    // The status says how the run ended: what was read and written, what of the plan of a node's script was done, which count of
    // faults rose, and that what the command does not use is as it was. The packetless machine follows each script.
    ensures ends { Ends text_of (run_of words.now (S.left input.old) (S.left input.new) (S.faults input.old) (S.faults input.new)
        (record { waiting = L.waiting ports.old.link; sent = L.sent ports.old.link; to_come = C.to_come ports.old.ticks; held = D.held ports.old.depot; written = K.held ports.old.output; faults = record { link = L.faults ports.old.link; depot = D.faults ports.old.depot; output = K.faults ports.old.output } })
        (record { waiting = L.waiting ports.new.link; sent = L.sent ports.new.link; to_come = C.to_come ports.new.ticks; held = D.held ports.new.depot; written = K.held ports.new.output; faults = record { link = L.faults ports.new.link; depot = D.faults ports.new.depot; output = K.faults ports.new.output } }))
        result }

    // What a command does not use is the same object as before.
    ensures kept_input { (ReadsInput (command_of (map string_bytes words.now)) → ⊥)
        → input.new ≡ input.old }
    ensures kept_link { (UsesLink (command_of (map string_bytes words.now)) → ⊥)
        → (ports.new.link ≡ ports.old.link) × (ports.new.ticks ≡ ports.old.ticks) }
    ensures kept_depot { (UsesDepot (command_of (map string_bytes words.now)) → ⊥)
        → ports.new.depot ≡ ports.old.depot }

    // An input that never fails is never the cause, nor is such a depot but for a node.
    ensures never_fails { S.never_fails input.old → result ≡ 4 → ⊥ }
    ensures depot_never_fails { (UsesLink (command_of (map string_bytes words.now)) → ⊥)
        → D.never_fails ports.old.depot → result ≡ 7 → ⊥ }

    // Where words, input and depot are known and nothing fails, the status is the one that is due, or memory ran out.
    ensures due { IsDue text_of (run_of words.now (S.left input.old) (S.left input.new) (S.faults input.old) (S.faults input.new)
        (record { waiting = L.waiting ports.old.link; sent = L.sent ports.old.link; to_come = C.to_come ports.old.ticks; held = D.held ports.old.depot; written = K.held ports.old.output; faults = record { link = L.faults ports.old.link; depot = D.faults ports.old.depot; output = K.faults ports.old.output } })
        (record { waiting = L.waiting ports.new.link; sent = L.sent ports.new.link; to_come = C.to_come ports.new.ticks; held = D.held ports.new.depot; written = K.held ports.new.output; faults = record { link = L.faults ports.new.link; depot = D.faults ports.new.depot; output = K.faults ports.new.output } }))
        result }
{
    no_generated_line_is_bad();
    what_is_told_decides_a_run();
    run(alloc, words, input, ports)
}
