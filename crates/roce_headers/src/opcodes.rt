//! The opcodes: SEND, WRITE, READ and atomics of the reliable connection (IBA 9.2), and the two messages of moving, which are
//! this project's choice.

ghost use Rattle.std.specs.Prelude.{◌≡◌};
ghost use Rattle.protocol.specs.Wire as wire;

use protocol::{Headers, Layout};

/// The first of several packets of a SEND.
pub const SEND_FIRST: u8 = 0x00;

/// One between the first and the last packet of a SEND.
pub const SEND_MIDDLE: u8 = 0x01;

/// The last of several packets of a SEND.
pub const SEND_LAST: u8 = 0x02;

/// The last of several packets of a SEND with an immediate.
pub const SEND_LAST_IMM: u8 = 0x03;

/// The one packet of a SEND.
pub const SEND_ONLY: u8 = 0x04;

/// The one packet of a SEND with an immediate.
pub const SEND_ONLY_IMM: u8 = 0x05;

/// The first of several packets of a WRITE.
pub const WRITE_FIRST: u8 = 0x06;

/// One between the first and the last packet of a WRITE.
pub const WRITE_MIDDLE: u8 = 0x07;

/// The last of several packets of a WRITE.
pub const WRITE_LAST: u8 = 0x08;

/// The last of several packets of a WRITE with an immediate.
pub const WRITE_LAST_IMM: u8 = 0x09;

/// The one packet of a WRITE.
pub const WRITE_ONLY: u8 = 0x0A;

/// The one packet of a WRITE with an immediate.
pub const WRITE_ONLY_IMM: u8 = 0x0B;

/// A READ request.
pub const READ_REQUEST: u8 = 0x0C;

/// The first of several READ responses.
pub const READ_FIRST: u8 = 0x0D;

/// One between the first and the last of the READ responses, which has no AETH.
pub const READ_MIDDLE: u8 = 0x0E;

/// The last of several READ responses.
pub const READ_LAST: u8 = 0x0F;

/// The one READ response.
pub const READ_ONLY: u8 = 0x10;

/// An acknowledgement or a NAK.
pub const ACKNOWLEDGE: u8 = 0x11;

/// The acknowledgement of an atomic, with the old value.
pub const ATOMIC_ACKNOWLEDGE: u8 = 0x12;

/// A COMPARE and SWAP.
pub const COMPARE_SWAP: u8 = 0x13;

/// A FETCH and ADD.
pub const FETCH_ADD: u8 = 0x14;

/// RESUME: an end that moved tells its partner where it is.
pub const RESUME: u8 = 0x1E;

/// RESUME_ACK: its partner knows.
pub const RESUME_ACK: u8 = 0x1F;

/// Whether an opcode is of a request.
#[tactic(auto, unfolding(protocol::specs::Wire::is_request))]
pub fn is_request(opcode: u8) -> bool
    ensures { result ≡ wire.is_request opcode }
{
    opcode <= READ_REQUEST || opcode == COMPARE_SWAP || opcode == FETCH_ADD
}

/// Whether an opcode is of a READ response.
pub fn is_read_response(opcode: u8) -> bool
    ensures { result ≡ wire.is_read_response opcode }
{
    READ_FIRST <= opcode && opcode <= READ_ONLY
}

/// The row of an opcode; None where it is not in the table.
#[tactic(auto, unfolding(protocol::specs::Wire::layout_of))]
pub fn layout(opcode: u8) -> Option<Layout>
    ensures { result ≡ wire.layout_of opcode }
{
    let (headers, payload) = match opcode {
        0x00 | 0x01 | 0x02 | 0x04 | 0x07 | 0x08 | 0x0E => (Headers::Bare, true),
        0x03 | 0x05 | 0x09 => (Headers::Imm, true),
        0x06 | 0x0A => (Headers::Reth, true),
        0x0B => (Headers::RethImm, true),
        0x0C => (Headers::Reth, false),
        0x0D | 0x0F | 0x10 => (Headers::Aeth, true),
        0x11 => (Headers::Aeth, false),
        0x12 => (Headers::AethOld, false),
        0x13 | 0x14 => (Headers::Atomic, false),
        0x1E | 0x1F => (Headers::Resume, false),
        _ => return None,
    };
    Some(Layout { headers, payload })
}

/// How many bytes the extension headers have.
pub fn headers_len(headers: Headers) -> usize
    ensures { result ≡ wire.headers_len headers }
{
    match headers {
        Headers::Bare => 0,
        Headers::Imm => 4,
        Headers::Reth => 16,
        Headers::RethImm => 20,
        Headers::Aeth => 4,
        Headers::AethOld => 12,
        Headers::Atomic => 28,
        Headers::Resume => 12,
    }
}
