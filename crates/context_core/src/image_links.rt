//! Images of connections.

ghost use Rattle.std.specs.Prelude.{◌≡◌, ◌<◌, ◌^◌, IfOk, length};
ghost use Rattle.std.specs.Option.{option_map};
ghost use Rattle.page_pool.specs.Pool.{Pool};
ghost use Rattle.memory_keys.specs.Regions.{regions_of};
ghost use Rattle.transport.specs.Table.{phase_of};
ghost use Rattle.protocol.specs.EndWords.{is_paused as is_paused_phase, is_resuming as is_resuming_phase};
ghost use Rattle.protocol.specs.Images.{link_image as image_of_link, progress_image};
ghost use Rattle.responder.specs.Receiving.{progress_of};
ghost use Rattle.endpoint_core.specs.Ends.{link_in};

use crate::image_regions::position_of_key;
use endpoint_core::EndLink;
use memory_keys::Regions;
use protocol::{KeptReply, LinkImage, Progress};
use rdma_types::Items;
use responder::{Flow, Responder};
use std::alloc::{AllocError, Global};
use transport::move_core::Phase;

/// Whether it is Paused.
pub fn is_paused(phase: Phase) -> bool
    ensures { result ≡ is_paused_phase (phase_of phase) }
{
    matches!(phase, Phase::Paused)
}

/// Whether it is Resuming.
pub fn is_resuming(phase: Phase) -> bool
    ensures { result ≡ is_resuming_phase (phase_of phase) }
{
    matches!(phase, Phase::Resuming)
}

/// The image of a message in progress.
fn progress(regions: &Regions, flow: Flow) -> Progress
    requires { length regions.now < 2 ^ 16 }
    ensures { (pool : Pool)
        → result ≡ progress_image (regions_of pool regions.now) (progress_of flow) }
{
    match flow {
        Flow::Idle => Progress::Idle,
        Flow::Send { done, receive } => Progress::Send { done, receive },
        Flow::Write { spot, done } => Progress::Write {
            region: position_of_key(regions, spot.region),
            off: spot.off,
            length: spot.length,
            done,
        },
    }
}

/// A copy of the kept replies, oldest first.
fn replies(alloc: Global, responder: &Responder) -> Result<Items<KeptReply>, AllocError>
    ensures { IfOk result (λ replies. replies ≡ responder.now.receiver.kept) }
{
    let kept = responder.kept();
    let mut replies = Vec::new(alloc);
    for i in 0..kept.len() {
        let (number, old) = kept.at(i).unwrap();
        replies.push(KeptReply { number, old })?;
    }
    Ok(Items::new(replies))
}

/// The image of a connection.
fn link_image(alloc: Global, regions: &Regions, link: &EndLink) -> Result<LinkImage, AllocError>
    requires { length regions.now < 2 ^ 16 }
    ensures { IfOk result (λ image. (pool : Pool)
        → image ≡ image_of_link (regions_of pool regions.now) (link_in pool link.now)) }
{
    let numbers = link.requester.parts();
    let parts = link.responder.parts();
    Ok(LinkImage {
        ended: link.ended,
        peer: link.peer,
        partner: link.moves.partner,
        moves: link.moves.own,
        partner_moves: link.moves.recorded,
        resuming: is_resuming(link.moves.phase),
        terms: link.terms,
        first: numbers.first,
        una: numbers.una,
        next: numbers.next,
        top: numbers.top,
        spent: numbers.spent,
        waits: numbers.waits,
        rnr_wait: numbers.rnr_wait,
        expected: parts.expected,
        nak_sent: parts.nak_sent,
        msn: parts.msn,
        progress: progress(regions, parts.flow),
        kept: replies(alloc, &link.responder)?,
    })
}

/// The image of a connection, if there is one. Errors: `AllocError` when out of memory.
pub fn linked_image(
    alloc: Global,
    regions: &Regions,
    link: &Option<EndLink>,
) -> Result<Option<LinkImage>, AllocError>
    requires { length regions.now < 2 ^ 16 }
    ensures { IfOk result (λ image. (pool : Pool)
        → image ≡ option_map (image_of_link (regions_of pool regions.now))
        (option_map (link_in pool) link.now)) }
{
    match link {
        None => Ok(None),
        Some(link) => Ok(Some(link_image(alloc, regions, link)?)),
    }
}
