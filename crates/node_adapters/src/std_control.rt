//! Lines of standard input, as they come.

ghost use Rattle.std.specs.Prelude.{None};

use crate::Activity;
use crate::line_buffer::LineBuffer;
use crate::quick_link::STANDARD_INPUT;
use host_ports::{Control, Heard};
use mio::unix::SourceFd;
use mio::{Events, Interest, Poll, Token};
use rdma_types::Items;
use std::alloc::{AllocError, Global};
use std::io::{ErrorKind, Read};
use std::net::Net;
use std::time::Duration;

/// What is known of the input.
#[derive(Clone, Copy, PartialEq, Eq)]
enum Input {
    /// A read may wait for somebody to write: a pipe or a terminal.
    Waits,
    /// No read waits: a file.
    IsThere,
    /// It has ended, or cannot be read.
    Ended,
}

/// The lines of standard input as they come. What a reader reads is what the process is given there.
///
/// A call reads at most once, and only where something is to be read, so it never waits. A line of more than 8,400 bytes is given
/// up to its byte 8,401, and the rest of it is skipped. Behind the last newline is a line too, if it has bytes.
#[derive(Drop)]
pub struct StdControl<'a, R> {
    reader: R,
    poll: Option<Poll>,
    events: Events,
    input: Input,
    lines: LineBuffer,
    activity: &'a Activity,
}

/// Has a wait look at standard input; None where it has no need to, as at a file.
fn watch<N: Net>(net: &N) -> Option<Poll> {
    let poll = Poll::new(net).ok()?;
    let mut source = SourceFd(&STANDARD_INPUT);
    match poll
        .registry()
        .register(&mut source, Token(0), Interest::READABLE)
    {
        Ok(()) => Some(poll),
        Err(_) => None,
    }
}

/// Whether there is something to read now.
fn is_readable(poll: &mut Poll, events: &mut Events) -> bool {
    // (asked for anew, since the system tells each change once)
    let mut source = SourceFd(&STANDARD_INPUT);
    let asked = poll
        .registry()
        .reregister(&mut source, Token(0), Interest::READABLE);
    asked.is_ok() && poll.poll(events, Some(Duration::ZERO)).is_ok() && !events.is_empty()
}

impl<'a, R: Read + Drop> StdControl<'a, R> {
    /// A control over what the reader reads, which is to be standard input.
    ///
    /// # Errors
    ///
    /// `AllocError` when out of memory.
    pub fn new<N: Net>(
        alloc: Global,
        net: &N,
        reader: R,
        activity: &'a Activity,
    ) -> Result<StdControl<'a, R>, AllocError> {
        let poll = watch(net);
        Ok(StdControl {
            reader,
            input: if poll.is_some() {
                Input::Waits
            } else {
                Input::IsThere
            },
            poll,
            events: Events::with_capacity(alloc, 1)?,
            lines: LineBuffer::new(),
            activity,
        })
    }

    /// Whether a read would not wait.
    fn may_read(&mut self) -> bool {
        match (self.input, &mut self.poll) {
            (Input::Ended, _) => false,
            (Input::Waits, Some(poll)) => is_readable(poll, &mut self.events),
            (_, _) => true,
        }
    }

    /// Reads once, where that does not wait.
    fn fill(&mut self) {
        if !self.may_read() {
            return;
        }
        match self.lines.fill(&mut self.reader) {
            Ok(0) => self.input = Input::Ended,
            Ok(_) => {}
            Err(error) if error.kind() == ErrorKind::Interrupted => {}
            Err(error) if error.kind() == ErrorKind::WouldBlock => {}
            Err(_) => self.input = Input::Ended,
        }
    }
}

impl<'a, R: Read + Drop> Control for StdControl<'a, R> {
    ghost to_come = { λ _. None };

    fn next(&mut self, alloc: Global) -> Result<Heard, AllocError> {
        if !self.lines.has_line() {
            self.fill();
        }
        let has_ended = self.input == Input::Ended;
        match self.lines.take_line(alloc, has_ended)? {
            Some(line) => {
                self.activity.note();
                Ok(Heard::Line(Items::new(line)))
            }
            None if has_ended => Ok(Heard::Ended),
            None => {
                self.activity.listen();
                Ok(Heard::Nothing)
            }
        }
    }
}
