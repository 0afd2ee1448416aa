//! What is written to standard error: the sentence on a run that was not done, and, on a terminal, what is under way.

use command_line::error_sentences::{Ending, sentence};
use host_ports::write_all_of;
use node_adapters::StdSink;
use std::alloc::AllocError;
use std::io::IsTerminal;

/// The sentence where memory runs out.
const NO_MEMORY: &[u8] = b"jichurpa: memory ran out\n";

/// The sentence on words that are no text.
const NO_TEXT: &[u8] = b"jichurpa: a word is no UTF-8 text; see jichurpa --help\n";

/// Takes a line away that has no end yet.
const CLEAR: &[u8] = b"\r\x1b[K";

/// Writes to standard error, where it can be written.
fn write(rt: &HostRuntime, text: &[u8]) {
    let mut errors = StdSink::new(rt.stderr());
    let _ = write_all_of(&mut errors, text);
}

/// The bytes of a text, and none where there is no text.
pub(crate) fn bytes_of(text: &Option<String>) -> &[u8] {
    match text {
        Some(text) => text.as_bytes(),
        None => b"",
    }
}

/// Says that memory ran out.
pub(crate) fn tell_no_memory(rt: &HostRuntime) {
    write(rt, NO_MEMORY);
}

/// Says that words are no text.
pub(crate) fn tell_no_text(rt: &HostRuntime) {
    write(rt, NO_TEXT);
}

/// Says why a run of the words ended, in one write; nothing where it is done.
pub(crate) fn tell(rt: &HostRuntime, words: &[String], ending: &Ending<'_>) {
    if ending.status == 0 {
        return;
    }
    match sentence(rt.alloc(), words, ending) {
        Ok(text) => write(rt, text.as_slice()),
        Err(AllocError) => tell_no_memory(rt),
    }
}

/// The line on what is under way, which is taken away when the run ends.
#[derive(Drop)]
pub(crate) struct Progress {
    is_shown: bool,
}

/// Whether a run of the command may take long and writes nothing meanwhile to a terminal.
fn is_silent(rt: &HostRuntime, command: &[u8]) -> bool {
    match command {
        b"bulk" | b"threads" | b"fanout" | b"mail" => true,
        b"evacuate" => !rt.stdin().is_terminal() && !rt.stdout().is_terminal(),
        _ => false,
    }
}

impl Progress {
    /// Says on a terminal that the command of the words is at work, where a run of it may take long.
    pub(crate) fn show(rt: &HostRuntime, words: &[String]) -> Progress {
        let is_shown = match words {
            [word, ..] => rt.stderr().is_terminal() && is_silent(rt, word.as_bytes()),
            [] => false,
        };
        if is_shown {
            write(rt, b"jichurpa: at work");
        }
        Progress { is_shown }
    }

    /// Takes the line away.
    pub(crate) fn clear(self, rt: &HostRuntime) {
        if self.is_shown {
            write(rt, CLEAR);
        }
    }
}
