//! Datagrams: what is wrong with one first and where, or else what it says and how it is written.

use roce_headers::{Datagram, Malformed, MalformedWhy, decode, encode, encoded_len};
use std::alloc::{AllocError, Global};

/// A reason in one word.
fn word(why: MalformedWhy) -> &'static str {
    match why {
        MalformedWhy::Short => "short",
        MalformedWhy::Opcode => "opcode",
        MalformedWhy::Version => "version",
        MalformedWhy::Syndrome => "syndrome",
        MalformedWhy::Length => "length",
        MalformedWhy::Pad => "pad",
    }
}

/// Bytes in hex, or `-` where there are none.
fn digits(alloc: Global, bytes: &[u8]) -> Result<String, AllocError> {
    if bytes.is_empty() {
        return String::from_str(alloc, "-");
    }
    hex::encode(alloc, bytes)
}

/// What is said of the bytes of a datagram.
pub fn say(alloc: Global, bytes: &[u8]) -> Result<String, AllocError> {
    match decode(bytes) {
        Err(Malformed { place, why }) => format!(in alloc; "malformed {place} {}", word(why)),
        Ok(d) => {
            let payload = digits(alloc, d.payload)?;
            let mut written = vec![in alloc; 0; encoded_len(&d)]?;
            encode(&d, &mut written);
            let written = digits(alloc, &written)?;
            let asks = u8::from(d.ack_request);
            format!(in alloc;
                "ok {} {} {asks} {} {payload} {written}",
                d.opcode, d.dest, d.psn
            )
        }
    }
}
