//! A few bytes that wait to be handed out.

ghost use Rattle.std.specs.Prelude.{◌≡◌, ℕ, ◌+◌, ◌^◌, ◌<◌, ◌≤◌, ◌++◌, ◌∷◌, [], length};
ghost use Rattle.protocol.specs.Bytes.{big_bytes};
ghost use Rattle.protocol.specs.Dumps.{text};

use rdma_types::Name;
use std::marker::Model;

/// The most bytes of a chunk: no group of fields between two lists is longer.
pub const ROOM: usize = 128;

/// Some fields of a dump as bytes.
#[derive(Drop)]
pub struct Chunk {
    bytes: [u8; 128],
    len: usize,
}

impl Model for Chunk {
    ghost use Rattle.std.specs.Prelude.{◌≤◌, ℕ, List, take};

    ghost Value = { List ℕ };

    ghost view = { λ c. take c.len c.bytes };

    ghost invariant = { λ c. c.len ≤ 128 };
}

impl Chunk {
    /// No bytes.
    pub fn make() -> Chunk
        ensures { result ≡ [] }
    {
        Chunk {
            bytes: [0; ROOM],
            len: 0,
        }
    }

    /// The bytes.
    pub fn as_slice(&self) -> &[u8]
        ensures bytes { result.now ≡ self.now }
        ensures bounded { length self.now ≤ 128 }
    {
        &self.bytes[..self.len]
    }

    /// Puts bytes at the end.
    pub fn put(&mut self, bytes: &[u8])
        requires { length self.old + length bytes.now ≤ 128 }
        ensures { self.new ≡ self.old ++ bytes.now }
    {
        let end = self.len + bytes.len();
        self.bytes[self.len..end].copy_from_slice(bytes);
        self.len = end;
    }

    /// Puts a number of one byte at the end.
    #[tactic(auto, unfolding(protocol::specs::Bytes::big_bytes))]
    pub fn put_u8(&mut self, n: u8)
        requires { length self.old + 1 ≤ 128 }
        ensures bytes { self.new ≡ self.old ++ big_bytes 1 n }
        ensures len { length self.new ≡ length self.old + 1 }
        ensures fits { n < 2 ^ 8 }
    {
        self.put(&[n]);
    }

    /// Puts a number of two bytes at the end.
    #[tactic(auto, unfolding(protocol::specs::Bytes::big_bytes))]
    pub fn put_u16(&mut self, n: u16)
        requires { length self.old + 2 ≤ 128 }
        ensures bytes { self.new ≡ self.old ++ big_bytes 2 n }
        ensures len { length self.new ≡ length self.old + 2 }
        ensures fits { n < 2 ^ 16 }
    {
        self.put(&n.to_be_bytes());
    }

    /// Puts a number of four bytes at the end.
    #[tactic(auto, unfolding(protocol::specs::Bytes::big_bytes))]
    pub fn put_u32(&mut self, n: u32)
        requires { length self.old + 4 ≤ 128 }
        ensures bytes { self.new ≡ self.old ++ big_bytes 4 n }
        ensures len { length self.new ≡ length self.old + 4 }
        ensures fits { n < 2 ^ 32 }
    {
        self.put(&n.to_be_bytes());
    }

    /// Puts a number of eight bytes at the end.
    #[tactic(auto, unfolding(protocol::specs::Bytes::big_bytes))]
    pub fn put_u64(&mut self, n: u64)
        requires { length self.old + 8 ≤ 128 }
        ensures bytes { self.new ≡ self.old ++ big_bytes 8 n }
        ensures len { length self.new ≡ length self.old + 8 }
        ensures fits { n < 2 ^ 64 }
    {
        self.put(&n.to_be_bytes());
    }

    /// Puts a name with its length before it at the end.
    pub fn put_text(&mut self, name: &Name)
        requires { length self.old + 17 ≤ 128 }
        ensures text { self.new ≡ self.old ++ text name.now }
        ensures bounded { length self.new ≤ length self.old + 17 }
        ensures some { length self.old < length self.new }
    {
        let bytes = name.as_bytes();
        self.put(&[bytes.len() as u8]);
        self.put(bytes);
    }

    /// Puts the lowest byte of a number at the end.
    #[tactic(auto, unfolding(protocol::specs::Bytes::big_bytes))]
    pub fn put_low_u8(&mut self, n: usize)
        requires { length self.old + 1 ≤ 128 }
        ensures bytes { self.new ≡ self.old ++ big_bytes 1 n }
        ensures len { length self.new ≡ length self.old + 1 }
    {
        self.put(&(n as u64).to_be_bytes()[7..]);
    }

    /// Puts the lowest two bytes of a number at the end.
    #[tactic(auto, unfolding(protocol::specs::Bytes::big_bytes))]
    pub fn put_low_u16(&mut self, n: usize)
        requires { length self.old + 2 ≤ 128 }
        ensures bytes { self.new ≡ self.old ++ big_bytes 2 n }
        ensures len { length self.new ≡ length self.old + 2 }
    {
        self.put(&(n as u64).to_be_bytes()[6..]);
    }

    /// Puts the lowest four bytes of a number at the end.
    #[tactic(auto, unfolding(protocol::specs::Bytes::big_bytes))]
    pub fn put_low_u32(&mut self, n: usize)
        requires { length self.old + 4 ≤ 128 }
        ensures bytes { self.new ≡ self.old ++ big_bytes 4 n }
        ensures len { length self.new ≡ length self.old + 4 }
    {
        self.put(&(n as u64).to_be_bytes()[4..]);
    }
}
