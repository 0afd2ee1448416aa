//! Kinds of request packets, by their opcodes (IBA 9.2).

ghost use Rattle.std.specs.Prelude.{◌≡◌};
ghost use Rattle.protocol.specs.Responder as words;
ghost use Rattle.responder.specs.Kinds.{part_in};

use roce_headers::opcodes::{
    READ_REQUEST, SEND_FIRST, SEND_LAST, SEND_LAST_IMM, SEND_MIDDLE, SEND_ONLY, SEND_ONLY_IMM,
    WRITE_FIRST, WRITE_LAST, WRITE_LAST_IMM, WRITE_MIDDLE, WRITE_ONLY, WRITE_ONLY_IMM,
};

/// Which packet of a message it is; READ requests and atomics are of none.
#[derive(Clone, Copy)]
pub enum Part {
    First,
    Middle,
    Last,
    Only,
    NoPart,
}

impl Part {
    /// That of an opcode.
    #[tactic(auto, unfolding(protocol::specs::Responder::part_of))]
    pub fn of(opcode: u8) -> Part
        ensures { part_in result ≡ words.part_of opcode }
    {
        match opcode {
            SEND_FIRST | WRITE_FIRST => Part::First,
            SEND_MIDDLE | WRITE_MIDDLE => Part::Middle,
            SEND_LAST | SEND_LAST_IMM | WRITE_LAST | WRITE_LAST_IMM => Part::Last,
            SEND_ONLY | SEND_ONLY_IMM | WRITE_ONLY | WRITE_ONLY_IMM => Part::Only,
            _ => Part::NoPart,
        }
    }

    /// It begins a message.
    pub fn begins(self) -> bool
        ensures { result ≡ words.begins (part_in self) }
    {
        matches!(self, Part::First | Part::Only)
    }

    /// It ends a message.
    pub fn finishes(self) -> bool
        ensures { result ≡ words.finishes (part_in self) }
    {
        matches!(self, Part::Last | Part::Only)
    }

    /// It is of a message.
    pub fn is_part(self) -> bool
        ensures { result ≡ words.is_part (part_in self) }
    {
        !matches!(self, Part::NoPart)
    }
}

/// A SEND.
pub fn is_send(opcode: u8) -> bool
    ensures { result ≡ words.is_send opcode }
{
    opcode <= SEND_ONLY_IMM
}

/// A WRITE.
pub fn is_write(opcode: u8) -> bool
    ensures { result ≡ words.is_write opcode }
{
    WRITE_FIRST <= opcode && opcode <= WRITE_ONLY_IMM
}

/// A READ request.
pub fn is_read_request(opcode: u8) -> bool
    ensures { result ≡ words.is_read_request opcode }
{
    opcode == READ_REQUEST
}
