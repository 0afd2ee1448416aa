//! `serve`: one device over UDP that is driven by lines as they come.

ghost use Rattle.std.specs.Prelude.{◌≤◌, IfSome};

use crate::standard_error::{bytes_of, tell};
use command_line::error_sentences::Ending;
use command_line::serve_words::{Asked, asked_of};
use host_ports::write_all_of;
use node_adapters::{Activity, ClockTicks, FolderStore, QuickLink, StdControl, StdSink};
use serve_engine::{ServeFault, ServeOptions, ServePorts, run_serve};
use std::io;
use std::io::BufWriter;

/// The folder of the depot, where none is named.
const DEPOT: &str = "depot";

/// What is asked for by words that begin with `serve`.
pub fn served(words: &[String]) -> Option<Asked<'_>>
    ensures { IfSome result (λ a. (1 ≤ a.id) × (1 ≤ a.options.timeout)) }
{
    match words {
        [word, rest @ ..] if word.as_str() == "serve" => asked_of(rest),
        _ => None,
    }
}

/// The status of a run, and its last line.
fn ended(run: Result<(), ServeFault>) -> (u8, &'static str) {
    match run {
        Ok(()) => (0, ""),
        Err(ServeFault::LinkFault) => (6, "link fault\n"),
        Err(ServeFault::WriteFault) => (5, ""),
        Err(ServeFault::OutOfMemory) => (8, "out of memory\n"),
    }
}

/// Serves a device, and gives the status; where that is not 0, a sentence on standard error says why.
///
/// # Errors
///
/// When out of memory before it began.
pub fn serve<'a>(rt: &'a HostRuntime, words: &[String], asked: &Asked<'a>) -> io::Result<u8>
    requires id { 1 ≤ asked.now.id }
    requires timeout { 1 ≤ asked.now.options.timeout }
{
    let activity = Activity::new();
    let options = ServeOptions {
        timeout: asked.options.timeout,
        keep: asked.options.keep,
    };
    let mut ports = ServePorts {
        link: QuickLink::new(rt.alloc(), rt, &activity),
        output: StdSink::prompt(BufWriter::new(rt.alloc(), io::writer(rt))?),
        store: FolderStore::at(
            rt.alloc(),
            rt,
            asked.options.depot.unwrap_or(DEPOT),
            rt.stderr(),
        ),
        control: StdControl::new(rt.alloc(), rt, rt.reader(), &activity)?,
        ticks: ClockTicks::new(rt),
    };
    let run = run_serve(rt.alloc(), asked.id, asked.own, options, &mut ports);
    let (mut status, last) = ended(run);
    if write_all_of(&mut ports.output, last.as_bytes()).is_err() {
        status = 5;
    }
    let reason = match status {
        5 => ports.output.reason(rt.alloc()),
        6 => ports.link.reason(rt.alloc()),
        _ => None,
    };
    let ending = Ending {
        status,
        last: ports.output.last_line(),
        reason: bytes_of(&reason),
    };
    tell(rt, words, &ending);
    Ok(status)
}
