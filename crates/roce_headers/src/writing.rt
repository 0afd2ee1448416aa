//! From a datagram to its bytes.

ghost use Rattle.std.specs.Prelude.{◌≡◌, ◌+◌, ◌<◌, ◌≤◌, ◌++◌, length, replicate, Some, IfSome, vec_capacity, vec_len, []};
ghost use Rattle.protocol.specs.Bytes.{big_bytes};
ghost use Rattle.protocol.specs.Wire.{Fits, packet_of, wire_of, base_bytes, extension_bytes, optional, reth_bytes, atomic_bytes, aeth_bytes, resume_bytes, syndrome_byte, padding};
ghost use Rattle.roce_headers.specs.Packets.{packet};

use crate::datagram::Datagram;
use byteorder::{BigEndian, ByteOrder};
use protocol::{Aeth, AtomicEth, ResumeBody, Reth, Syndrome};

#[tactic(auto, unfolding(protocol::specs::Wire::padding))]
fn padding_len(len: usize) -> usize
    ensures len { result ≡ padding len }
    ensures small { result < 4 }
{
    (4 - len % 4) % 4
}

fn byte_of(syndrome: Syndrome) -> u8
    requires { syndrome_byte syndrome < 256 }
    ensures { result ≡ syndrome_byte syndrome }
{
    match syndrome {
        Syndrome::Ack => 0x1F,
        Syndrome::Rnr => 0x20,
        Syndrome::Nak(code) => 0x60 + code,
    }
}

/// The bytes of a RETH.
#[tactic(auto, unfolding(protocol::specs::Bytes::big_bytes))]
#[inline(always)]
fn reth_as_bytes(h: &Reth) -> [u8; 16]
    ensures { result ≡ reth_bytes h.now }
{
    let [a, b, c, d, e, f, g, i] = h.address.to_be_bytes();
    let [j, k, l, m] = h.rkey.to_be_bytes();
    let [n, o, p, q] = h.length.to_be_bytes();
    [a, b, c, d, e, f, g, i, j, k, l, m, n, o, p, q]
}

/// The bytes of an AETH.
#[tactic(auto, unfolding(protocol::specs::Bytes::big_bytes))]
#[inline(always)]
fn aeth_as_bytes(h: &Aeth) -> [u8; 4]
    requires { syndrome_byte h.now.syndrome < 256 }
    ensures { result ≡ aeth_bytes h.now }
{
    let [_, a, b, c] = h.msn.to_be_bytes();
    [byte_of(h.syndrome), a, b, c]
}

/// The base header.
#[tactic(auto, unfolding(protocol::specs::Bytes::big_bytes))]
#[inline(always)]
fn base_as_bytes(d: &Datagram<'_>) -> [u8; 12]
    ensures { result ≡ base_bytes (packet d.now) }
{
    let pad = padding_len(d.payload.len()) as u8;
    let [_, a, b, c] = d.dest.to_be_bytes();
    let ack_request = if d.ack_request { 128 } else { 0 };
    let [_, x, y, z] = d.psn.to_be_bytes();
    [
        d.opcode,
        16 * pad,
        0xFF,
        0xFF,
        0,
        a,
        b,
        c,
        ack_request,
        x,
        y,
        z,
    ]
}

#[tactic(auto, unfolding(protocol::specs::Bytes::big_bytes))]
fn reth_len(reth: Option<Reth>) -> usize
    ensures len { result ≡ length (optional reth_bytes reth) }
    ensures small { result ≤ 28 }
{
    match reth {
        Some(_) => 16,
        None => 0,
    }
}

#[tactic(auto, unfolding(protocol::specs::Bytes::big_bytes))]
fn write_reth(reth: Option<Reth>, out: &mut [u8])
    requires { length out.old ≡ length (optional reth_bytes reth) }
    ensures { out.new ≡ optional reth_bytes reth }
{
    if let Some(h) = reth {
        out.copy_from_slice(&reth_as_bytes(&h));
    }
}

#[tactic(auto, unfolding(protocol::specs::Bytes::big_bytes))]
fn atomic_len(atomic: Option<AtomicEth>) -> usize
    ensures len { result ≡ length (optional atomic_bytes atomic) }
    ensures small { result ≤ 28 }
{
    match atomic {
        Some(_) => 28,
        None => 0,
    }
}

#[tactic(auto, unfolding(protocol::specs::Bytes::big_bytes))]
fn write_atomic(atomic: Option<AtomicEth>, out: &mut [u8])
    requires { length out.old ≡ length (optional atomic_bytes atomic) }
    ensures { out.new ≡ optional atomic_bytes atomic }
{
    if let Some(h) = atomic {
        BigEndian::write_u64(out, h.address);
        BigEndian::write_u32(&mut out[8..], h.rkey);
        BigEndian::write_u64(&mut out[12..], h.swap_add);
        BigEndian::write_u64(&mut out[20..], h.compare);
    }
}

#[tactic(auto, unfolding(protocol::specs::Bytes::big_bytes))]
fn aeth_len(aeth: Option<Aeth>) -> usize
    ensures len { result ≡ length (optional aeth_bytes aeth) }
    ensures small { result ≤ 28 }
{
    match aeth {
        Some(_) => 4,
        None => 0,
    }
}

#[tactic(auto, unfolding(protocol::specs::Bytes::big_bytes))]
fn write_aeth(aeth: Option<Aeth>, out: &mut [u8])
    requires fits { IfSome aeth (λ h. syndrome_byte h.syndrome < 256) }
    requires room { length out.old ≡ length (optional aeth_bytes aeth) }
    ensures { out.new ≡ optional aeth_bytes aeth }
{
    if let Some(h) = aeth {
        out.copy_from_slice(&aeth_as_bytes(&h));
    }
}

#[tactic(auto, unfolding(protocol::specs::Bytes::big_bytes))]
fn old_len(old: Option<u64>) -> usize
    ensures len { result ≡ length (optional (big_bytes 8) old) }
    ensures small { result ≤ 28 }
{
    match old {
        Some(_) => 8,
        None => 0,
    }
}

#[tactic(auto, unfolding(protocol::specs::Bytes::big_bytes))]
fn write_old(old: Option<u64>, out: &mut [u8])
    requires { length out.old ≡ length (optional (big_bytes 8) old) }
    ensures { out.new ≡ optional (big_bytes 8) old }
{
    if let Some(n) = old {
        BigEndian::write_u64(out, n);
    }
}

#[tactic(auto, unfolding(protocol::specs::Bytes::big_bytes))]
fn imm_len(imm: Option<u32>) -> usize
    ensures len { result ≡ length (optional (big_bytes 4) imm) }
    ensures small { result ≤ 28 }
{
    match imm {
        Some(_) => 4,
        None => 0,
    }
}

#[tactic(auto, unfolding(protocol::specs::Bytes::big_bytes))]
fn write_imm(imm: Option<u32>, out: &mut [u8])
    requires { length out.old ≡ length (optional (big_bytes 4) imm) }
    ensures { out.new ≡ optional (big_bytes 4) imm }
{
    if let Some(n) = imm {
        BigEndian::write_u32(out, n);
    }
}

#[tactic(auto, unfolding(protocol::specs::Bytes::big_bytes))]
fn resume_len(resume: Option<ResumeBody>) -> usize
    ensures len { result ≡ length (optional resume_bytes resume) }
    ensures small { result ≤ 28 }
{
    match resume {
        Some(_) => 12,
        None => 0,
    }
}

#[tactic(auto, unfolding(protocol::specs::Bytes::big_bytes))]
fn write_resume(resume: Option<ResumeBody>, out: &mut [u8])
    requires { length out.old ≡ length (optional resume_bytes resume) }
    ensures { out.new ≡ optional resume_bytes resume }
{
    if let Some(h) = resume {
        BigEndian::write_u32(out, h.count);
        BigEndian::write_u32(&mut out[4..], h.address.ip);
        BigEndian::write_u16(&mut out[8..], h.address.port);
        BigEndian::write_u16(&mut out[10..], 0);
    }
}

#[tactic(auto, unfolding(protocol::specs::Bytes::big_bytes))]
fn write_base(d: &Datagram<'_>, out: &mut [u8])
    requires { length out.old ≡ 12 }
    ensures { out.new ≡ base_bytes (packet d.now) }
{
    out.copy_from_slice(&base_as_bytes(d));
}

#[inline(always)]
fn headers_len(d: &Datagram<'_>) -> usize
    ensures len { result ≡ length (extension_bytes (packet d.now)) }
    ensures small { result ≤ 168 }
{
    reth_len(d.reth)
        + atomic_len(d.atomic)
        + aeth_len(d.aeth)
        + old_len(d.old)
        + imm_len(d.imm)
        + resume_len(d.resume)
}

#[inline(always)]
fn write_headers(d: &Datagram<'_>, out: &mut [u8])
    requires fits { IfSome d.now.aeth (λ h. syndrome_byte h.syndrome < 256) }
    requires room { length out.old ≡ length (extension_bytes (packet d.now)) }
    ensures { out.new ≡ extension_bytes (packet d.now) }
{
    let (reth, rest) = out.split_at_mut(reth_len(d.reth));
    write_reth(d.reth, reth);
    let (atomic, rest) = rest.split_at_mut(atomic_len(d.atomic));
    write_atomic(d.atomic, atomic);
    let (aeth, rest) = rest.split_at_mut(aeth_len(d.aeth));
    write_aeth(d.aeth, aeth);
    let (old, rest) = rest.split_at_mut(old_len(d.old));
    write_old(d.old, old);
    let (imm, rest) = rest.split_at_mut(imm_len(d.imm));
    write_imm(d.imm, imm);
    write_resume(d.resume, rest);
}

/// How many bytes [`encode`] writes.
#[tactic(auto, using(protocol::proofs::WrittenPackets::written_len))]
#[inline(always)]
pub fn encoded_len(d: &Datagram<'_>) -> usize
    requires { Fits (packet d.now) }
    ensures { result ≡ length (wire_of (packet d.now)) }
{
    let len = d.payload.len();
    16 + headers_len(d) + len + padding_len(len)
}

fn write_parts(d: &Datagram<'_>, out: &mut [u8])
    requires fits { IfSome d.now.aeth (λ h. syndrome_byte h.syndrome < 256) }
    requires room { length out.old ≡ 16 + length (extension_bytes (packet d.now))
        + (length d.now.payload.now + padding (length d.now.payload.now)) }
    ensures { out.new ≡ base_bytes (packet d.now)
        ++ (extension_bytes (packet d.now) ++ (d.now.payload.now
        ++ replicate (padding (length d.now.payload.now) + 4) 0)) }
{
    let (base, rest) = out.split_at_mut(12);
    write_base(d, base);
    let (headers, rest) = rest.split_at_mut(headers_len(d));
    write_headers(d, headers);
    let (payload, rest) = rest.split_at_mut(d.payload.len());
    payload.copy_from_slice(d.payload);
    rest.fill(0);
}

/// Writes the one spelling of a datagram into a buffer of [`encoded_len`] bytes: each ignored field is 0, and the
/// P_Key is FFFF (this project's choice). It takes no memory.
#[tactic(auto, using(protocol::proofs::WrittenPackets::written_len))]
pub fn encode(d: &Datagram<'_>, out: &mut [u8])
    requires fits { Fits (packet d.now) }
    requires room { length out.old ≡ length (wire_of (packet d.now)) }
    ensures written { out.new ≡ wire_of (packet d.now) }
    ensures again { packet_of out.new ≡ Some (packet d.now) }
{
    write_parts(d, out);
}

/// Puts bytes behind others, in memory that is there.
#[inline(always)]
fn put(out: &mut Vec<u8>, bytes: &[u8])
    requires { vec_len out.old + length bytes.now ≤ vec_capacity out.old }
    ensures items { out.new.items ≡ out.old.items ++ bytes.now }
    ensures len { vec_len out.new ≡ vec_len out.old + length bytes.now }
    ensures capacity { vec_capacity out.old ≤ vec_capacity out.new }
{
    out.extend_from_slice(bytes).unwrap();
}

#[tactic(auto, unfolding(protocol::specs::Bytes::big_bytes))]
#[inline(always)]
fn put_reth(reth: Option<Reth>, out: &mut Vec<u8>)
    requires room { vec_len out.old + length (optional reth_bytes reth) ≤ vec_capacity out.old }
    ensures items { out.new.items ≡ out.old.items ++ optional reth_bytes reth }
    ensures len { vec_len out.new ≡ vec_len out.old + length (optional reth_bytes reth) }
    ensures capacity { vec_capacity out.old ≤ vec_capacity out.new }
{
    if let Some(h) = reth {
        put(out, &reth_as_bytes(&h));
    }
}

#[tactic(auto, unfolding(protocol::specs::Bytes::big_bytes))]
#[inline(always)]
fn put_atomic(atomic: Option<AtomicEth>, out: &mut Vec<u8>)
    requires room { vec_len out.old + length (optional atomic_bytes atomic) ≤ vec_capacity out.old }
    ensures items { out.new.items ≡ out.old.items ++ optional atomic_bytes atomic }
    ensures len { vec_len out.new ≡ vec_len out.old + length (optional atomic_bytes atomic) }
    ensures capacity { vec_capacity out.old ≤ vec_capacity out.new }
{
    if let Some(h) = atomic {
        put(out, &h.address.to_be_bytes());
        put(out, &h.rkey.to_be_bytes());
        put(out, &h.swap_add.to_be_bytes());
        put(out, &h.compare.to_be_bytes());
    }
}

#[tactic(auto, unfolding(protocol::specs::Bytes::big_bytes))]
#[inline(always)]
fn put_aeth(aeth: Option<Aeth>, out: &mut Vec<u8>)
    requires fits { IfSome aeth (λ h. syndrome_byte h.syndrome < 256) }
    requires room { vec_len out.old + length (optional aeth_bytes aeth) ≤ vec_capacity out.old }
    ensures items { out.new.items ≡ out.old.items ++ optional aeth_bytes aeth }
    ensures len { vec_len out.new ≡ vec_len out.old + length (optional aeth_bytes aeth) }
    ensures capacity { vec_capacity out.old ≤ vec_capacity out.new }
{
    if let Some(h) = aeth {
        put(out, &aeth_as_bytes(&h));
    }
}

#[tactic(auto, unfolding(protocol::specs::Bytes::big_bytes))]
#[inline(always)]
fn put_old(old: Option<u64>, out: &mut Vec<u8>)
    requires room { vec_len out.old + length (optional (big_bytes 8) old) ≤ vec_capacity out.old }
    ensures items { out.new.items ≡ out.old.items ++ optional (big_bytes 8) old }
    ensures len { vec_len out.new ≡ vec_len out.old + length (optional (big_bytes 8) old) }
    ensures capacity { vec_capacity out.old ≤ vec_capacity out.new }
{
    if let Some(n) = old {
        put(out, &n.to_be_bytes());
    }
}

#[tactic(auto, unfolding(protocol::specs::Bytes::big_bytes))]
#[inline(always)]
fn put_imm(imm: Option<u32>, out: &mut Vec<u8>)
    requires room { vec_len out.old + length (optional (big_bytes 4) imm) ≤ vec_capacity out.old }
    ensures items { out.new.items ≡ out.old.items ++ optional (big_bytes 4) imm }
    ensures len { vec_len out.new ≡ vec_len out.old + length (optional (big_bytes 4) imm) }
    ensures capacity { vec_capacity out.old ≤ vec_capacity out.new }
{
    if let Some(n) = imm {
        put(out, &n.to_be_bytes());
    }
}

#[tactic(auto, unfolding(protocol::specs::Bytes::big_bytes))]
#[inline(always)]
fn put_resume(resume: Option<ResumeBody>, out: &mut Vec<u8>)
    requires room { vec_len out.old + length (optional resume_bytes resume) ≤ vec_capacity out.old }
    ensures items { out.new.items ≡ out.old.items ++ optional resume_bytes resume }
    ensures len { vec_len out.new ≡ vec_len out.old + length (optional resume_bytes resume) }
    ensures capacity { vec_capacity out.old ≤ vec_capacity out.new }
{
    if let Some(h) = resume {
        put(out, &h.count.to_be_bytes());
        put(out, &h.address.ip.to_be_bytes());
        put(out, &h.address.port.to_be_bytes());
        put(out, &[0, 0]);
    }
}

/// The extension headers of a datagram behind what is in the memory, each where the datagram has it. It takes no memory.
#[inline(always)]
fn put_headers(d: &Datagram<'_>, out: &mut Vec<u8>)
    requires fits { IfSome d.now.aeth (λ h. syndrome_byte h.syndrome < 256) }
    requires room { vec_len out.old + length (extension_bytes (packet d.now)) ≤ vec_capacity out.old }
    ensures items { out.new.items ≡ out.old.items ++ extension_bytes (packet d.now) }
    ensures len { vec_len out.new ≡ vec_len out.old + length (extension_bytes (packet d.now)) }
    ensures capacity { vec_capacity out.old ≤ vec_capacity out.new }
{
    put_reth(d.reth, out);
    put_atomic(d.atomic, out);
    put_aeth(d.aeth, out);
    put_old(d.old, out);
    put_imm(d.imm, out);
    put_resume(d.resume, out);
}

/// The one spelling of a datagram, as [`encode`] writes it, in memory that is taken before: part by part. It takes no other.
#[tactic(auto, using(protocol::proofs::WrittenPackets::written_len))]
#[inline(always)]
pub fn encode_in(d: &Datagram<'_>, mut memory: Vec<u8>) -> Vec<u8>
    requires fits { Fits (packet d.now) }
    requires empty { memory.items ≡ [] }
    requires room { length (wire_of (packet d.now)) ≤ vec_capacity memory }
    ensures { result.items ≡ wire_of (packet d.now) }
{
    put(&mut memory, &base_as_bytes(d));
    put_headers(d, &mut memory);
    put(&mut memory, d.payload);
    put(&mut memory, &[0; 8][..padding_len(d.payload.len()) + 4]);
    memory
}
