//! Jichurpa: a software RDMA device whose reliable connections are moved live to another device.
#![tactic(auto)]

mod help;
mod serving;
mod standard_error;

ghost use Rattle.std.specs.Prelude.{◌≡◌};
ghost use Rattle.dump_writer.specs.Text.{text_of};
ghost use Rattle.commands.specs.Stopping.{run_of};
ghost use Rattle.rdma_cli.specs.Running.{Responds};

use command_line::error_sentences::Ending;
use help::about;
use host_ports::{Depot, Failed, Link, Sink, Source, Ticks, WriteFault, write_all_of};
use node_adapters::{ClockTicks, FolderDepot, StdSink, StdSource, UdpLink};
use node_engine::NodePorts;
use serving::{serve, served};
use standard_error::{Progress, bytes_of, tell, tell_no_memory, tell_no_text};
use std::io::{BufReader, BufWriter};
use std::net::Net;
use std::process::ExitCode;
use std::rt::Files;
use std::sync::Wait;
use std::thread::Threads;
use std::{env, io};
use tools::endings::end_with;
use tools::tool::run_words;

/// The words of the command, without the program's name. None where one is no text: then they are of no command.
///
/// # Errors
///
/// When out of memory.
fn words_of(rt: &HostRuntime) -> io::Result<Option<Vec<String>>> {
    match env::args(rt) {
        Ok(words) => Ok(Some(words.skip(1).collect(rt.alloc())?)),
        Err(error) if error.kind() == io::ErrorKind::OutOfMemory => Err(error),
        Err(_) => Ok(None),
    }
}

/// The words, and none where one is no text.
fn words_in(given: &Option<Vec<String>>) -> &[String] {
    match given {
        Some(words) => words.as_slice(),
        None => &[],
    }
}

/// Whether the words ask for a node, whose answers are to be seen as they come.
fn is_node(words: &[String]) -> bool {
    words.first().is_some_and(|word| word.as_str() == "node")
}

/// What the system said of the call for which a run ended with this status. None where it said nothing, and where memory runs
/// out.
fn reason_of<I, L: Net, W, D: Files, C>(
    rt: &HostRuntime,
    status: u8,
    input: &StdSource<I>,
    ports: &NodePorts<UdpLink<'_, L>, StdSink<W>, FolderDepot<'_, D>, C>,
) -> Option<String> {
    match status {
        4 => input.reason(rt.alloc()),
        5 => ports.output.reason(rt.alloc()),
        6 => ports.link.reason(rt.alloc()),
        7 => ports.depot.reason(rt.alloc()),
        _ => None,
    }
}

/// Says what the words ask of the program itself, or does their command, and gives the status.
fn answer<S: Source, L: Link, K: Sink, D: Depot, C: Ticks, R: Threads + Wait + Sync>(
    rt: &HostRuntime,
    threads: &R,
    words: &[String],
    input: &mut S,
    ports: &mut NodePorts<L, K, D, C>,
) -> u8
    ensures { Responds text_of (run_of words.now (S.left input.old) (S.left input.new) (S.faults input.old) (S.faults input.new)
        (record { waiting = L.waiting ports.old.link; sent = L.sent ports.old.link; to_come = C.to_come ports.old.ticks; held = D.held ports.old.depot; written = K.held ports.old.output; faults = record { link = L.faults ports.old.link; depot = D.faults ports.old.depot; output = K.faults ports.old.output } })
        (record { waiting = L.waiting ports.new.link; sent = L.sent ports.new.link; to_come = C.to_come ports.new.ticks; held = D.held ports.new.depot; written = K.held ports.new.output; faults = record { link = L.faults ports.new.link; depot = D.faults ports.new.depot; output = K.faults ports.new.output } }))
        (input.new ≡ input.old) (ports.new ≡ record ports.old { output = ports.new.output })
        ((ports.new.link ≡ ports.old.link) × (ports.new.ticks ≡ ports.old.ticks)) (ports.new.depot ≡ ports.old.depot) result }
{
    if let Some(text) = about(words) {
        return end_with(text.as_bytes(), 0, &mut ports.output);
    }
    let progress = Progress::show(rt, words);
    let status = run_words(threads, rt.alloc(), words, input, ports);
    progress.clear(rt);
    status
}

/// Does what the words ask for, and gives the status; where that is not 0, a sentence on standard error says why. No socket is
/// opened but by a node and by `serve`, and no thread is started but by `serve`, `threads` and `fanout`.
fn run<R: Threads + Wait + Sync>(rt: &HostRuntime, threads: &R) -> io::Result<u8> {
    let given = words_of(rt)?;
    let is_text = given.is_some();
    let words = words_in(&given);
    if let Some(asked) = served(words) {
        return serve(rt, words, &asked);
    }
    let writer = BufWriter::new(rt.alloc(), io::writer(rt))?;
    let mut input = StdSource::new(BufReader::new(rt.alloc(), rt.reader())?);
    let mut ports = NodePorts {
        link: UdpLink::new(rt),
        output: if is_node(words) {
            StdSink::prompt(writer)
        } else {
            StdSink::new(writer)
        },
        depot: FolderDepot::new(rt),
        ticks: ClockTicks::new(rt),
    };
    let mut status = answer(rt, threads, words, &mut input, &mut ports);
    if let Err(Failed) = ports.output.flush() {
        status = 5;
    }
    let reason = reason_of(rt, status, &input, &ports);
    let ending = Ending {
        status,
        last: ports.output.last_line(),
        reason: bytes_of(&reason),
    };
    if status == 2 && !is_text {
        tell_no_text(rt);
    } else {
        tell(rt, words, &ending);
    }
    Ok(status)
}

fn main(rt: HostRuntime) -> ExitCode {
    match run(&rt, &rt) {
        Ok(status) => ExitCode::from(status),
        Err(_) => {
            // It only was out of memory; the last line is written where that can be done.
            let mut output = StdSink::new(io::writer(&rt));
            let _ = write_all_of(&mut output, b"out of memory\n");
            tell_no_memory(&rt);
            ExitCode::from(8)
        }
    }
}
