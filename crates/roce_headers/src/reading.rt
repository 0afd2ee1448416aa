//! From bytes to a datagram.

ghost use Rattle.std.specs.Prelude.{◌≡◌, ◌+◌, ◌-◌, ◌≤◌, ◌==◌, length, Some, None, IfOk, IfErr, OnOk, OnErr, not, nat_le, ◌&&◌, if◌then◌else◌, IsTrue};
ghost use Rattle.protocol.specs.Bytes.{number_at, byte_at, bytes_at};
ghost use Rattle.protocol.specs.Wire.{Spells, Fits, plain, packet_of, offence_of, layout_of, headers_len, has_aeth, read_reth, read_aeth, read_atomic, read_resume, read_syndrome, is_syndrome, layout_offence, pad_of, body_of, fields_of, read_by};
ghost use Rattle.roce_headers.specs.Packets.{packet};

use crate::datagram::Datagram;
use crate::opcodes;
use byteorder::{BigEndian, ByteOrder};
use protocol::{
    Aeth, AtomicEth, Headers, Layout, Malformed, MalformedWhy, ResumeBody, Reth, Syndrome,
};
use rdma_types::Address;

#[tactic(auto, unfolding(protocol::specs::Bytes::number_at))]
fn u16_at(bytes: &[u8], place: usize) -> u16
    requires { place + 2 ≤ length bytes.now }
    ensures { result ≡ number_at place 2 bytes.now }
{
    BigEndian::read_u16(&bytes[place..])
}

#[tactic(auto, unfolding(protocol::specs::Bytes::number_at))]
fn u24_at(bytes: &[u8], place: usize) -> u32
    requires { place + 3 ≤ length bytes.now }
    ensures { result ≡ number_at place 3 bytes.now }
{
    BigEndian::read_u24(&bytes[place..])
}

#[tactic(auto, unfolding(protocol::specs::Bytes::number_at))]
fn u32_at(bytes: &[u8], place: usize) -> u32
    requires { place + 4 ≤ length bytes.now }
    ensures { result ≡ number_at place 4 bytes.now }
{
    BigEndian::read_u32(&bytes[place..])
}

#[tactic(auto, unfolding(protocol::specs::Bytes::number_at))]
fn u64_at(bytes: &[u8], place: usize) -> u64
    requires { place + 8 ≤ length bytes.now }
    ensures { result ≡ number_at place 8 bytes.now }
{
    BigEndian::read_u64(&bytes[place..])
}

fn reth_at(bytes: &[u8]) -> Reth
    requires { 28 ≤ length bytes.now }
    ensures { result ≡ read_reth bytes.now }
{
    Reth {
        address: u64_at(bytes, 12),
        rkey: u32_at(bytes, 20),
        length: u32_at(bytes, 24),
    }
}

fn syndrome_of(byte: u8) -> Syndrome
    ensures { result ≡ read_syndrome byte }
{
    match byte / 32 % 4 {
        0 => Syndrome::Ack,
        1 => Syndrome::Rnr,
        _ => Syndrome::Nak(byte % 32),
    }
}

fn aeth_at(bytes: &[u8]) -> Aeth
    requires { 16 ≤ length bytes.now }
    ensures { result ≡ read_aeth bytes.now }
{
    Aeth {
        syndrome: syndrome_of(bytes[12]),
        msn: u24_at(bytes, 13),
    }
}

// A FetchAdd compares with nothing.
fn compare_at(bytes: &[u8]) -> u64
    requires { 40 ≤ length bytes.now }
    ensures { result ≡ (if byte_at 0 bytes.now == 0x14 then 0 else number_at 32 8 bytes.now) }
{
    match bytes[0] {
        0x14 => 0,
        _ => u64_at(bytes, 32),
    }
}

fn atomic_at(bytes: &[u8]) -> AtomicEth
    requires { 40 ≤ length bytes.now }
    ensures { result ≡ read_atomic (byte_at 0 bytes.now) bytes.now }
{
    AtomicEth {
        address: u64_at(bytes, 12),
        rkey: u32_at(bytes, 20),
        swap_add: u64_at(bytes, 24),
        compare: compare_at(bytes),
    }
}

fn resume_at(bytes: &[u8]) -> ResumeBody
    requires { 22 ≤ length bytes.now }
    ensures { result ≡ read_resume bytes.now }
{
    ResumeBody {
        count: u32_at(bytes, 12),
        address: Address {
            ip: u32_at(bytes, 16),
            port: u16_at(bytes, 20),
        },
    }
}

fn refusal(place: usize, why: MalformedWhy) -> Malformed
    ensures { result ≡ record { place = place; why = why } }
{
    Malformed { place, why }
}

#[tactic(auto, unfolding(protocol::specs::Wire::is_syndrome))]
fn may_stand(opcode: u8, syndrome: u8) -> bool
    ensures { result ≡ is_syndrome opcode syndrome }
{
    match syndrome / 32 % 4 {
        0 => true,
        1 => opcode == 0x11,
        3 => opcode == 0x11 && matches!(syndrome % 32, 0..=3 | 5),
        _ => false,
    }
}

#[inline(always)]
fn has_bad_syndrome(headers: Headers, bytes: &[u8]) -> bool
    requires { 16 + headers_len headers ≤ length bytes.now }
    ensures { result
        ≡ (has_aeth headers && not (is_syndrome (byte_at 0 bytes.now) (byte_at 12 bytes.now))) }
{
    match headers {
        Headers::Aeth | Headers::AethOld => !may_stand(bytes[0], bytes[12]),
        _ => false,
    }
}

// The payload, where the bytes keep to the row of their opcode.
#[tactic(auto, unfolding(protocol::specs::Wire::layout_offence, protocol::specs::Bytes::bytes_at))]
#[inline(always)]
fn check(layout: Layout, bytes: &[u8]) -> Result<&[u8], Malformed>
    requires { 16 ≤ length bytes.now }
    ensures kept { OnOk result (layout_offence layout bytes.now ≡ None) }
    ensures long { OnOk result (16 + headers_len layout.headers ≤ length bytes.now) }
    ensures payload { IfOk result (λ payload. payload.now
        ≡ bytes_at (12 + headers_len layout.headers)
        (body_of layout.headers bytes.now - pad_of bytes.now) bytes.now) }
    ensures refused { IfErr result (λ m. layout_offence layout bytes.now ≡ Some m) }
{
    if bytes[1] % 16 != 0 {
        return Err(refusal(1, MalformedWhy::Version));
    }
    let end = 12 + opcodes::headers_len(layout.headers);
    if bytes.len() < end + 4 {
        return Err(refusal(bytes.len(), MalformedWhy::Short));
    }
    if has_bad_syndrome(layout.headers, bytes) {
        return Err(refusal(12, MalformedWhy::Syndrome));
    }
    let body = bytes.len() - end - 4;
    if body != 0 && !layout.payload || body % 4 != 0 || body > 4096 {
        return Err(refusal(end, MalformedWhy::Length));
    }
    let pad = (bytes[1] / 16 % 4) as usize;
    if body < pad {
        return Err(refusal(1, MalformedWhy::Pad));
    }
    Ok(&bytes[end..end + body - pad])
}

// The base header and the payload.
#[inline(always)]
fn base<'a>(bytes: &[u8], payload: &'a [u8]) -> Datagram<'a>
    requires { 16 ≤ length bytes.now }
    ensures { packet result
        ≡ record (plain (byte_at 0 bytes.now) (number_at 5 3 bytes.now) (number_at 9 3 bytes.now))
        { ack_request = nat_le 128 (byte_at 8 bytes.now); payload = payload.now } }
{
    Datagram {
        opcode: bytes[0],
        dest: u24_at(bytes, 5),
        ack_request: bytes[8] >= 128,
        psn: u24_at(bytes, 9),
        reth: None,
        imm: None,
        aeth: None,
        atomic: None,
        old: None,
        resume: None,
        payload,
    }
}

// Each header at its place.
#[tactic(auto, unfolding(protocol::specs::Wire::fields_of))]
#[inline(always)]
fn fields<'a>(headers: Headers, bytes: &[u8], payload: &'a [u8]) -> Datagram<'a>
    requires long { 16 + headers_len headers ≤ length bytes.now }
    requires payload { payload.now ≡ bytes_at (12 + headers_len headers)
        (body_of headers bytes.now - pad_of bytes.now) bytes.now }
    ensures { packet result ≡ fields_of headers bytes.now }
{
    let mut d = base(bytes, payload);
    match headers {
        Headers::Bare => {}
        Headers::Imm => d.imm = Some(u32_at(bytes, 12)),
        Headers::Reth => d.reth = Some(reth_at(bytes)),
        Headers::RethImm => {
            d.reth = Some(reth_at(bytes));
            d.imm = Some(u32_at(bytes, 28));
        }
        Headers::Aeth => d.aeth = Some(aeth_at(bytes)),
        Headers::AethOld => {
            d.aeth = Some(aeth_at(bytes));
            d.old = Some(u64_at(bytes, 16));
        }
        Headers::Atomic => d.atomic = Some(atomic_at(bytes)),
        Headers::Resume => {
            d.psn = 0;
            d.resume = Some(resume_at(bytes));
        }
    }
    d
}

// What the bytes say by the row of their opcode.
#[inline(always)]
fn read_as(headers: Headers, payload: bool, bytes: &[u8]) -> Result<Datagram<'_>, Malformed>
    requires { 16 ≤ length bytes.now }
    ensures whole { OnOk result (layout_offence (record { headers = headers; payload = payload }) bytes.now ≡ None) }
    ensures read { IfOk result (λ d. fields_of headers bytes.now ≡ packet d) }
    ensures refused { IfErr result (λ m.
        layout_offence (record { headers = headers; payload = payload }) bytes.now ≡ Some m) }
{
    match check(Layout { headers, payload }, bytes) {
        Ok(payload) => Ok(fields(headers, bytes, payload)),
        Err(refusal) => Err(refusal),
    }
}

// One way for each kind of headers, so that none is looked for that a datagram of the kind does not have.
#[tactic(auto, unfolding(protocol::specs::Wire::offence_of))]
#[inline(always)]
fn read(bytes: &[u8]) -> Result<Datagram<'_>, Malformed>
    ensures whole { OnOk result (offence_of bytes.now ≡ None) }
    ensures read { IfOk result (λ d. read_by (layout_of (byte_at 0 bytes.now)) bytes.now
        ≡ Some (packet d)) }
    ensures refused { IfErr result (λ m. offence_of bytes.now ≡ Some m) }
{
    if bytes.len() < 16 {
        return Err(refusal(bytes.len(), MalformedWhy::Short));
    }
    let Some(Layout { headers, payload }) = opcodes::layout(bytes[0]) else {
        return Err(refusal(0, MalformedWhy::Opcode));
    };
    match headers {
        Headers::Bare => read_as(Headers::Bare, payload, bytes),
        Headers::Imm => read_as(Headers::Imm, payload, bytes),
        Headers::Reth => read_as(Headers::Reth, payload, bytes),
        Headers::RethImm => read_as(Headers::RethImm, payload, bytes),
        Headers::Aeth => read_as(Headers::Aeth, payload, bytes),
        Headers::AethOld => read_as(Headers::AethOld, payload, bytes),
        Headers::Atomic => read_as(Headers::Atomic, payload, bytes),
        Headers::Resume => read_as(Headers::Resume, payload, bytes),
    }
}

/// The datagram that the bytes spell, with its payload where it lies in them. It takes no memory.
///
/// The fields that a sender writes 0 (or FFFF, as the P_Key) and no receiver reads are ignored: solicited, migration,
/// P_Key, the zero byte and the reserved bits of the base header, padding, CRC, the high bit of a syndrome, the low
/// five bits of an ACK and of an RNR NAK, the compare field of FetchAdd, and the number and last two bytes of RESUME
/// and RESUME_ACK.
///
/// # Errors
///
/// What is wrong first, of these in order (this project's choice): Short, under 16 bytes; Opcode, not in the table;
/// Version, not 0; Short, the headers of the opcode and the CRC do not fit; Syndrome, none of the opcode; Length,
/// bytes behind the headers where no payload may be, or not a multiple of four, or over 4,096; Pad, more padding
/// than such bytes.
#[tactic(auto, unfolding(protocol::specs::Wire::packet_of), using(protocol::proofs::PacketGrammar::reading))]
#[inline(always)]
pub fn decode(bytes: &[u8]) -> Result<Datagram<'_>, Malformed>
    ensures spelled { IfOk result (λ d. Spells (packet d) bytes.now) }
    ensures exact { IfOk result (λ d. packet_of bytes.now ≡ Some (packet d)) }
    ensures fits { IfOk result (λ d. Fits (packet d)) }
    ensures refused { IfErr result (λ m. offence_of bytes.now ≡ Some m) }
    ensures nothing { OnErr result (packet_of bytes.now ≡ None) }
{
    read(bytes)
}
