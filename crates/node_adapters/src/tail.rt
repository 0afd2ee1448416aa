//! The end of what was written.

ghost use Rattle.std.specs.Prelude.{◌≡◌, ◌≤◌, ◌++◌, drop, length};

/// Bytes of the end that are kept: more than the longest last line of a run has.
const ROOM: usize = 64;

/// The last 64 bytes that were written; newlines stand for those that were not.
#[derive(Drop)]
pub(crate) struct Tail {
    bytes: [u8; ROOM],
}

impl Tail {
    /// Nothing is written.
    pub(crate) fn new() -> Tail {
        Tail {
            bytes: [b'\n'; ROOM],
        }
    }

    /// At most 64 bytes more.
    fn push(&mut self, newest: &[u8])
        requires { length newest.now ≤ 64 }
        ensures { self.new.bytes ≡ drop (length newest.now) (self.old.bytes ++ newest.now) }
    {
        let kept = ROOM - newest.len();
        self.bytes.copy_within(newest.len().., 0);
        self.bytes[kept..].copy_from_slice(newest);
    }

    /// More bytes are written.
    pub(crate) fn note(&mut self, written: &[u8]) {
        let start = written.len().saturating_sub(ROOM);
        self.push(&written[start..]);
    }

    /// The last line, without its end; what came before the last 64 bytes is left out.
    pub(crate) fn last_line(&self) -> &[u8] {
        let bytes = self.bytes.as_slice();
        let text = bytes.strip_suffix(b"\n").unwrap_or(bytes);
        text.rsplit(|b| *b == b'\n').next().unwrap_or(text)
    }
}
