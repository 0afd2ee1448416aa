//! What a datagram says.

use protocol::{Aeth, AtomicEth, ResumeBody, Reth};

/// What a datagram says, with its payload where it lies.
///
/// `dest` and `psn` have 24 bits, and the payload has at most 4,096 bytes. Which headers there are follows from the
/// opcode. RESUME and RESUME_ACK have `psn` 0.
#[derive(Clone, Copy, Debug, PartialEq, Eq)]
pub struct Datagram<'a> {
    pub opcode: u8,
    pub dest: u32,
    pub ack_request: bool,
    pub psn: u32,
    pub reth: Option<Reth>,
    pub imm: Option<u32>,
    pub aeth: Option<Aeth>,
    pub atomic: Option<AtomicEth>,
    pub old: Option<u64>,
    pub resume: Option<ResumeBody>,
    pub payload: &'a [u8],
}
