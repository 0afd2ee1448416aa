//! All commands, by their words.

ghost use Rattle.std.specs.Prelude.{◌≡◌};
ghost use Rattle.dump_writer.specs.Text.{text_of};
ghost use Rattle.commands.specs.Stopping.{run_of};
ghost use Rattle.tools.specs.Does.{Does};

use crate::mail_calls::{mail_of, run_mail_plan};
use crate::thread_calls::{fanout_of, run_fan_plan, run_plan, threads_of};
use commands::run_serial;
use host_ports::{Depot, Link, Sink, Source, Ticks};
use node_engine::NodePorts;
use std::alloc::Global;
use std::sync::Wait;
use std::thread::Threads;
use thread_workers::FreeGate;

/// Does the command that the words spell, without the program's name, and gives the status that the process ends with.
///
/// `threads` makes a run of workers in threads of their own, and `fanout` hands the completions of a shared device to consumers
/// in threads; each writes one line, and may wait. `mail` sends and takes the letters of a plan, and writes one line; it waits
/// for nobody. All other words are those of `run_serial`, which waits for nobody either.
pub fn run_words<S: Source, L: Link, K: Sink, D: Depot, C: Ticks, R: Threads + Wait + Sync>(
    rt: &R,
    alloc: Global,
    words: &[String],
    input: &mut S,
    ports: &mut NodePorts<L, K, D, C>,
) -> u8
    ensures { Does text_of (run_of words.now (S.left input.old) (S.left input.new) (S.faults input.old) (S.faults input.new)
        (record { waiting = L.waiting ports.old.link; sent = L.sent ports.old.link; to_come = C.to_come ports.old.ticks; held = D.held ports.old.depot; written = K.held ports.old.output; faults = record { link = L.faults ports.old.link; depot = D.faults ports.old.depot; output = K.faults ports.old.output } })
        (record { waiting = L.waiting ports.new.link; sent = L.sent ports.new.link; to_come = C.to_come ports.new.ticks; held = D.held ports.new.depot; written = K.held ports.new.output; faults = record { link = L.faults ports.new.link; depot = D.faults ports.new.depot; output = K.faults ports.new.output } }))
        (input.new ≡ input.old) (ports.new ≡ record ports.old { output = ports.new.output })
        ((ports.new.link ≡ ports.old.link) × (ports.new.ticks ≡ ports.old.ticks)) (ports.new.depot ≡ ports.old.depot) result }
{
    if let Some(plan) = threads_of(words) {
        return run_plan(rt, alloc, &plan, &mut ports.output, &FreeGate);
    }
    if let Some(plan) = fanout_of(words) {
        return run_fan_plan(rt, alloc, &plan, &mut ports.output, &FreeGate);
    }
    if let Some(plan) = mail_of(words) {
        return run_mail_plan(alloc, &plan, &mut ports.output);
    }
    run_serial(alloc, words, input, ports)
}
