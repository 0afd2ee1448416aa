//! What a packet says.

ghost use Rattle.std.specs.Prelude.{◌≡◌, ◌||◌};
ghost use Rattle.protocol.specs.Segments.{is_eighth};
ghost use Rattle.transport.specs.Heads.{asks_by_place};

/// What the headers of a request packet say beside what its request, its destination and its number say, and which
/// bytes of the message are its payload.
#[derive(Clone, Copy, Debug, PartialEq, Eq)]
pub struct PacketHead {
    /// Its opcode.
    pub opcode: u8,
    /// The remote address where its bytes begin, to be written or read.
    pub remote: u64,
    /// How many bytes are left from there: the length of its RETH, if it has one.
    pub rest: u32,
    /// Its immediate.
    pub imm: Option<u32>,
    /// Where its payload begins in the message; 0 where it has none, as a READ request or an atomic.
    pub off: u32,
    /// How many bytes its payload has.
    pub length: u32,
}

impl PacketHead {
    /// Whether the packet asks for an acknowledgement under wire number `psn`: each but a First and a Middle does, and
    /// these do where the number mod 8 is 7 (this project's choice).
    pub fn asks_for_ack(&self, psn: u32) -> bool
        ensures { result ≡ (asks_by_place self.now.opcode || is_eighth psn) }
    {
        let by_place = !matches!(self.opcode, 0x00 | 0x01 | 0x06 | 0x07);
        by_place || psn % 8 == 7
    }
}
