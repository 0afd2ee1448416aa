//! What an image holds, in lines.

ghost use Rattle.std.specs.Prelude.{◌≡◌, ℕ, List, ◌+◌, ◌<◌, ◌≤◌, ◌++◌, ◌∷◌, [], length, flat_map, drop, OnOk, IfOk};
ghost use Rattle.std.specs.Fmt.{decimal};
ghost use Rattle.std.specs.Int.{w32, to_be_bytes};
ghost use Rattle.hex.specs.Hex.{encode_lower};
ghost use Rattle.protocol.specs.Lawful.{IsLawful};
ghost use Rattle.dump_writer.specs.Text.{domain_line, region_line, queue_line, end_line, state_word, moves_of, text_of};

use protocol::{ContextImage, CqImage, EndImage, LinkImage, RegionImage};
use rdma_types::Name;
use std::alloc::{AllocError, Global};

fn put(line: &mut Vec<u8>, bytes: &[u8]) -> Result<(), AllocError>
    ensures { OnOk result (line.new.items ≡ line.old.items ++ bytes.now) }
{
    line.extend_from_slice(bytes)
}

/// A space and a word.
fn put_word(line: &mut Vec<u8>, word: &[u8]) -> Result<(), AllocError>
    ensures { OnOk result (line.new.items ≡ line.old.items ++ 32 ∷ [] ++ word.now) }
{
    put(line, b" ")?;
    put(line, word)
}

/// A space and a number.
fn put_number(line: &mut Vec<u8>, n: u64) -> Result<(), AllocError>
    ensures { OnOk result (line.new.items ≡ line.old.items ++ 32 ∷ [] ++ decimal n) }
{
    let mut buffer = itoa::Buffer::new();
    put_word(line, buffer.format(n).as_bytes())
}

/// A space and bytes in hexadecimal digits.
fn put_hex(alloc: Global, line: &mut Vec<u8>, bytes: &[u8]) -> Result<(), AllocError>
    requires { length bytes.now ≤ 4 }
    ensures { OnOk result (line.new.items ≡ line.old.items ++ 32 ∷ [] ++ encode_lower bytes.now) }
{
    let digits = hex::encode(alloc, bytes)?;
    put_word(line, digits.as_bytes())
}

fn start(alloc: Global, word: &[u8], name: &Name) -> Result<Vec<u8>, AllocError>
    ensures { IfOk result (λ line. line.items ≡ word.now ++ name.now) }
{
    let mut line = Vec::new(alloc);
    put(&mut line, word)?;
    put(&mut line, name.as_bytes())?;
    Ok(line)
}

fn domain_text(alloc: Global, name: &Name) -> Result<Vec<u8>, AllocError>
    ensures { IfOk result (λ line. line.items ≡ domain_line name.now) }
{
    let mut line = start(alloc, b"domain ", name)?;
    put(&mut line, b"\n")?;
    Ok(line)
}

fn region_text(alloc: Global, region: &RegionImage) -> Result<Vec<u8>, AllocError>
    ensures { IfOk result (λ line. line.items ≡ region_line region.now) }
{
    let mut line = start(alloc, b"region ", &region.name)?;
    put_hex(alloc, &mut line, &region.keys.local.to_be_bytes())?;
    put_hex(alloc, &mut line, &region.keys.remote.to_be_bytes())?;
    put_number(&mut line, region.base)?;
    put_number(&mut line, region.length as u64)?;
    put(&mut line, b"\n")?;
    Ok(line)
}

fn queue_text(alloc: Global, queue: &CqImage) -> Result<Vec<u8>, AllocError>
    ensures { IfOk result (λ line. line.items ≡ queue_line queue.now) }
{
    let mut line = start(alloc, b"cq ", &queue.name)?;
    put_number(&mut line, queue.capacity as u64)?;
    put_number(&mut line, queue.entries.len() as u64)?;
    put(&mut line, b"\n")?;
    Ok(line)
}

fn state_text(linked: &Option<LinkImage>) -> &'static [u8]
    ensures { result.now ≡ state_word linked.now }
{
    match linked {
        None => b"init",
        Some(link) if link.ended => b"error",
        Some(_) => b"rts",
    }
}

fn moves(linked: &Option<LinkImage>) -> u16
    ensures { result ≡ moves_of linked.now }
{
    match linked {
        None => 0,
        Some(link) => link.moves,
    }
}

/// The three low bytes of a number, the highest of them first.
fn low_bytes(n: u32) -> [u8; 3]
    ensures { result ≡ drop 1 (to_be_bytes w32 n) }
{
    let [_, high, middle, low] = n.to_be_bytes();
    [high, middle, low]
}

fn end_text(alloc: Global, end: &EndImage) -> Result<Vec<u8>, AllocError>
    ensures { IfOk result (λ line. line.items ≡ end_line end.now) }
{
    let mut line = start(alloc, b"qp ", &end.name)?;
    put_hex(alloc, &mut line, &low_bytes(end.number))?;
    put_word(&mut line, state_text(&end.linked))?;
    put_number(&mut line, end.untold.len() as u64)?;
    put_number(&mut line, end.unused.len() as u64)?;
    put_number(&mut line, moves(&end.linked) as u64)?;
    put(&mut line, b"\n")?;
    Ok(line)
}

fn put_domains(alloc: Global, out: &mut Vec<u8>, names: &[Name]) -> Result<(), AllocError>
    ensures { OnOk result (out.new.items ≡ out.old.items ++ flat_map domain_line names.now) }
{
    for name in names {
        put(out, &domain_text(alloc, name)?)?;
    }
    Ok(())
}

fn put_regions(alloc: Global, out: &mut Vec<u8>, regions: &[RegionImage]) -> Result<(), AllocError>
    ensures { OnOk result (out.new.items ≡ out.old.items ++ flat_map region_line regions.now) }
{
    for region in regions {
        put(out, &region_text(alloc, region)?)?;
    }
    Ok(())
}

fn put_queues(alloc: Global, out: &mut Vec<u8>, queues: &[CqImage]) -> Result<(), AllocError>
    ensures { OnOk result (out.new.items ≡ out.old.items ++ flat_map queue_line queues.now) }
{
    for queue in queues {
        put(out, &queue_text(alloc, queue)?)?;
    }
    Ok(())
}

fn put_ends(alloc: Global, out: &mut Vec<u8>, ends: &[EndImage]) -> Result<(), AllocError>
    ensures { OnOk result (out.new.items ≡ out.old.items ++ flat_map end_line ends.now) }
{
    for end in ends {
        put(out, &end_text(alloc, end)?)?;
    }
    Ok(())
}

/// What an image holds: a line for the context, and one for each thing in the order of the dump. It needs an image that
/// keeps the rules. Errors: `AllocError` when out of memory.
#[tactic(auto, unfolding(crate::specs::Text::text_of))]
pub fn dump_text(alloc: Global, image: &ContextImage) -> Result<Vec<u8>, AllocError>
    requires { IsLawful image.now }
    ensures { IfOk result (λ out. out.items ≡ text_of image.now) }
{
    let mut out = start(alloc, b"context ", &image.name)?;
    put(&mut out, b"\n")?;
    put_domains(alloc, &mut out, image.domains.as_slice())?;
    put_regions(alloc, &mut out, image.regions.as_slice())?;
    put_queues(alloc, &mut out, image.queues.as_slice())?;
    put_ends(alloc, &mut out, image.ends.as_slice())?;
    Ok(out)
}
