//! The 16 bytes that head a message.

ghost use Rattle.std.specs.Prelude.{◌≡◌, ◌++◌, ◌+◌, ◌≤◌, OnOk, [], drop, length, slice_index, if◌then◌else◌};
ghost use Rattle.protocol.specs.Bytes as spelled;
ghost use Rattle.mailbox_rules.specs.Letters as rules;

use mailbox_rules::Header;
use rdma_types::Items;
use std::alloc::AllocError;

/// Bytes of a header.
const HEADER: usize = 16;

/// A byte, or 0 past the end.
fn byte_at(bytes: &[u8], i: usize) -> u8
    ensures { result ≡ slice_index bytes.now i }
{
    bytes.get(i).copied().unwrap_or(0)
}

/// What the first bytes of a message say; bytes that are not there count as 0.
#[tactic(auto, unfolding(mailbox_rules::specs::Letters::header_of))]
pub(crate) fn header_of(bytes: &[u8]) -> Header
    ensures { result ≡ rules.header_of bytes.now }
{
    Header {
        fetched: byte_at(bytes, 0) == 2,
        tag: number_at(bytes, 4),
        length: number_at(bytes, 8),
        rkey: number_at(bytes, 12),
    }
}

/// A message without its header. It takes no memory.
pub(crate) fn body_of(message: Items<u8>) -> Items<u8>
    ensures { result ≡ drop 16 message }
{
    let mut bytes = message.into_vec();
    let head = HEADER.min(bytes.len());
    bytes.rotate_left(head);
    bytes.truncate(bytes.len() - head);
    Items::new(bytes)
}

/// The big-endian number in four bytes.
fn number_at(bytes: &[u8], place: usize) -> u32
    requires { place ≤ 12 }
    ensures { result ≡ spelled.number_at place 4 bytes.now }
{
    u32::from(byte_at(bytes, place)) * 16_777_216
        + u32::from(byte_at(bytes, place + 1)) * 65_536
        + u32::from(byte_at(bytes, place + 2)) * 256
        + u32::from(byte_at(bytes, place + 3))
}

/// The four bytes of a number, the most significant first.
#[tactic(auto, unfolding(protocol::specs::Bytes::big_bytes))]
fn big_bytes(n: u32) -> [u8; 4]
    ensures { result ≡ spelled.big_bytes 4 n }
{
    n.to_be_bytes()
}

/// The first byte of a header.
fn kind_of(header: &Header) -> u8
    ensures { result ≡ (if header.now.fetched then 2 else 1) }
{
    if header.fetched { 2 } else { 1 }
}

/// A header as bytes.
fn put_header(out: &mut Vec<u8>, header: &Header) -> Result<(), AllocError>
    ensures { OnOk result (out.new.items ≡ out.old.items ++ rules.header_bytes header.now) }
{
    out.extend_from_slice(&[kind_of(header), 0, 0, 0])?;
    out.extend_from_slice(&big_bytes(header.tag))?;
    out.extend_from_slice(&big_bytes(header.length))?;
    out.extend_from_slice(&big_bytes(header.rkey))
}

/// A header as bytes, and a body behind it unless that is fetched.
#[tactic(auto, using(std::proofs::lemmas::List::append_assoc))]
pub(crate) fn put_message(out: &mut Vec<u8>, header: &Header, body: &[u8]) -> Result<(), AllocError>
    ensures { OnOk result (out.new.items ≡ out.old.items
        ++ (rules.header_bytes header.now ++ (if header.now.fetched then [] else body.now))) }
{
    put_header(out, header)?;
    if header.fetched {
        return Ok(());
    }
    out.extend_from_slice(body)
}
