//! Bytes that were read, and the lines among them.

ghost use Rattle.std.specs.Prelude.{◌≡◌, ◌-◌, ◌<◌, ◌≤◌, length, IfSome};

use std::alloc::{AllocError, Global};
use std::io;
use std::io::Read;

/// Bytes of a line that are given at most: one more than a line may have.
const LONGEST_GIVEN: usize = 8401;

/// Bytes that are held at most.
const ROOM: usize = 16_384;

/// Bytes that were read, of which the lines are not given yet.
#[derive(Drop)]
pub struct LineBuffer {
    bytes: [u8; ROOM],
    start: usize,
    end: usize,
    /// Whether it is in the midst of a line whose first bytes were given.
    is_skipping: bool,
    ghost ordered: { start ≤ end },
    ghost in_bounds: { end ≤ 16384 },
}

/// Where the first newline is.
fn newline_in(bytes: &[u8]) -> Option<usize>
    ensures { IfSome result (λ place. place < length bytes.now) }
{
    bytes.iter().position(|byte| *byte == b'\n')
}

/// A line without a carriage return at its end, and at most as long as lines are given.
fn trimmed(line: &[u8]) -> &[u8]
    ensures { length result.now ≤ length line.now }
{
    let line = line.strip_suffix(b"\r").unwrap_or(line);
    &line[..line.len().min(LONGEST_GIVEN)]
}

impl LineBuffer {
    /// A buffer that holds nothing.
    pub fn new() -> LineBuffer {
        LineBuffer {
            bytes: [0; ROOM],
            start: 0,
            end: 0,
            is_skipping: false,
        }
    }

    /// The bytes that are held.
    fn held(&self) -> &[u8]
        ensures { length result.now ≡ self.now.end - self.now.start }
    {
        let (start, end) = (self.start, self.end);
        let all = &self.bytes[..];
        &all[start..end]
    }

    /// Whether a whole line is held, or the first bytes of one that is too long.
    pub fn has_line(&self) -> bool {
        let held = self.held();
        newline_in(held).is_some() || held.len() > LONGEST_GIVEN
    }

    /// Reads once, behind what is held. How many bytes came: none at the end.
    ///
    /// # Errors
    ///
    /// Those of the reader; what is held stays.
    pub fn fill<R: Read>(&mut self, from: &mut R) -> io::Result<usize> {
        let (start, end) = (self.start, self.end);
        self.bytes.copy_within(start..end, 0);
        self.start = 0;
        self.end = end - start;
        let n = from.read(&mut self.bytes[end - start..])?;
        self.end = end - start + n;
        Ok(n)
    }

    /// Skips the rest of a line whose first bytes were given, as far as it is held.
    fn skip(&mut self) {
        if !self.is_skipping {
            return;
        }
        match newline_in(self.held()) {
            Some(place) => {
                self.start += place + 1;
                self.is_skipping = false;
            }
            None => self.start = self.end,
        }
    }

    /// Takes the next line, without its newline and a carriage return before that: one that ends with a newline, the first 8,401
    /// bytes of one that is longer, or, once all is read, what is left. None where no such line is held.
    ///
    /// # Errors
    ///
    /// `AllocError` when out of memory; no line is taken then.
    pub fn take_line(
        &mut self,
        alloc: Global,
        is_all_read: bool,
    ) -> Result<Option<Vec<u8>>, AllocError> {
        self.skip();
        let held = self.held();
        let length = held.len();
        let line = match newline_in(held) {
            Some(place) => {
                let line = trimmed(&held[..place]).to_vec(alloc)?;
                self.start += place + 1;
                line
            }
            None if length > LONGEST_GIVEN => {
                let line = trimmed(held).to_vec(alloc)?;
                self.start = self.end;
                self.is_skipping = true;
                line
            }
            None if is_all_read && length > 0 => {
                let line = held.to_vec(alloc)?;
                self.start = self.end;
                line
            }
            None => return Ok(None),
        };
        Ok(Some(line))
    }
}
