//! The opcodes of requests (IBA 9.2).

ghost use Rattle.std.specs.Prelude.{◌≡◌, if◌then◌else◌};
ghost use Rattle.protocol.specs.Segments.{opcode_of, place_code};

use rdma_types::Kind;
use roce_headers::opcodes;

/// The opcodes of a kind of message, by the place of the packet and whether it has an immediate.
struct Places {
    first: u8,
    middle: u8,
    last: u8,
    last_imm: u8,
    only: u8,
    only_imm: u8,
}

const SEND: Places = Places {
    first: opcodes::SEND_FIRST,
    middle: opcodes::SEND_MIDDLE,
    last: opcodes::SEND_LAST,
    last_imm: opcodes::SEND_LAST_IMM,
    only: opcodes::SEND_ONLY,
    only_imm: opcodes::SEND_ONLY_IMM,
};

const WRITE: Places = Places {
    first: opcodes::WRITE_FIRST,
    middle: opcodes::WRITE_MIDDLE,
    last: opcodes::WRITE_LAST,
    last_imm: opcodes::WRITE_LAST_IMM,
    only: opcodes::WRITE_ONLY,
    only_imm: opcodes::WRITE_ONLY_IMM,
};

impl Places {
    fn at(&self, first: bool, last: bool, imm: bool) -> u8
        ensures { result
            ≡ place_code first last
            (if imm then self.now.only_imm else self.now.only)
            self.now.first
            (if imm then self.now.last_imm else self.now.last)
            self.now.middle }
    {
        match (first, last, imm) {
            (true, true, false) => self.only,
            (true, true, true) => self.only_imm,
            (true, false, _) => self.first,
            (false, false, _) => self.middle,
            (false, true, false) => self.last,
            (false, true, true) => self.last_imm,
        }
    }
}

/// The opcode of a packet of a request: which of its packets it is, and whether it carries an immediate.
#[tactic(auto, unfolding(protocol::specs::Segments::opcode_of))]
pub fn opcode_at(kind: Kind, first: bool, last: bool, imm: bool) -> u8
    ensures { result ≡ opcode_of kind first last imm }
{
    match kind {
        Kind::Send => SEND.at(first, last, imm),
        Kind::Write => WRITE.at(first, last, imm),
        Kind::Read => opcodes::READ_REQUEST,
        Kind::CompareSwap => opcodes::COMPARE_SWAP,
        Kind::FetchAdd => opcodes::FETCH_ADD,
    }
}
