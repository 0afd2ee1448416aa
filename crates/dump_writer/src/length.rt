//! How long a dump is, without its bytes.

ghost use Rattle.std.specs.Prelude.{◌≡◌, ◌+◌, length};
ghost use Rattle.protocol.specs.Dumps.{dump_bytes};
ghost use Rattle.protocol.specs.Lawful.{IsLawful};
ghost use Rattle.dump_writer.specs.Left.{left};

use crate::stages::{Stage, next_step};
use protocol::ContextImage;

/// How many bytes were passed over, and what is written next.
#[derive(Drop)]
struct Skipped<'a> {
    count: u64,
    next: Stage<'a>,
}

/// Passes over what is left of the run that stands next, or else over the next fields: over no bytes only where none
/// are left.
#[tactic(auto, unfolding(crate::specs::Left::left))]
fn skip<'a>(image: &'a ContextImage, stage: Stage<'a>) -> Skipped<'a>
    ensures bytes { length (left image.now stage.entry)
        ≡ result.count + length (left image.now result.next) }
    ensures some { result.count ≡ 0 → length (left image.now stage.entry) ≡ 0 }
{
    match stage {
        Stage::Bytes(at, run, regions) if at < run.len() => Skipped {
            count: run.len() - at,
            next: Stage::Regions(regions),
        },
        Stage::Payload(at, run, requests, end, ends) if at < run.len() => Skipped {
            count: run.len() - at,
            next: Stage::Requests(requests, end, ends),
        },
        _ => {
            let step = next_step(image, stage);
            Skipped {
                count: step.chunk.as_slice().len() as u64,
                next: step.next,
            }
        }
    }
}

/// How many bytes the dump of an image has, in version 2. It reads no byte of a region or of a payload. It needs an
/// image that keeps the rules.
#[tactic(auto, unfolding(crate::specs::Left::left), using(crate::proofs::Parts::whole, crate::proofs::Sizes::dump_small))]
pub fn dump_length(image: &ContextImage) -> u64
    requires { IsLawful image.now }
    ensures { result ≡ length (dump_bytes 2 image.now) }
{
    let mut total = 0;
    let mut next = Stage::Opening;
    loop {
        let skipped = skip(image, next);
        if skipped.count == 0 {
            return total;
        }
        total += skipped.count;
        next = skipped.next;
    }
}
