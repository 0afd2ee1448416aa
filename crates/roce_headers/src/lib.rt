//! Datagrams of the reliable connection and their bytes, both ways and without memory.
//!
//! A datagram is the base header, the extension headers of its opcode, a payload, up to three bytes of padding and
//! four bytes of CRC, which is written 0 and not checked (IBA 9.2, 9.3 and RoCEv2 annex A17). RESUME and RESUME_ACK,
//! which carry the move of a connection, are this project's choice.
#![tactic(auto)]

mod datagram;
mod laws;
pub mod opcodes;
mod reading;
mod writing;

pub use datagram::Datagram;
pub use laws::{
    nothing_is_spelled_where_something_offends, what_is_read_can_be_written,
    what_is_read_is_what_is_spelled, what_is_written_is_spelled, what_is_written_reads_back,
};
pub use protocol::{Aeth, AtomicEth, Malformed, MalformedWhy, ResumeBody, Reth, Syndrome};
pub use rdma_types::Address;
pub use reading::decode;
pub use writing::{encode, encode_in, encoded_len};
