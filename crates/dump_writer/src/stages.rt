//! The places between two groups of fields of a dump.

ghost use Rattle.std.specs.Prelude.{◌≡◌, ◌≤◌, ◌++◌, [], ◌∷◌, length, All};
ghost use Rattle.law_dump_round_trip.specs.Fits.{FitsEnd};
ghost use Rattle.dump_writer.specs.Fitting.{EntriesFit, KeptFit, LinkFits, QueuesFit, ReceivesFit, RegionsFit, RequestsFit, fits_left};
ghost use Rattle.dump_writer.specs.Left.{left, IsPast, domains_left, regions_left, queues_left, entries_left, ends_left, link_left, kept_left, requests_left, receives_left};

use crate::chunk::Chunk;
use crate::fields;
use byte_run::ByteRun;
use protocol::{ContextImage, CqImage, EndImage, KeptReply, LinkImage, PostedImage, RegionImage};
use rdma_types::{Completion, Name, Receive};

/// What is written next: each list is what is left of it.
#[derive(Clone, Copy)]
pub enum Stage<'a> {
    Opening,
    Domains(&'a [Name]),
    Regions(&'a [RegionImage]),
    Bytes(u64, &'a ByteRun, &'a [RegionImage]),
    Queues(&'a [CqImage]),
    Entries(&'a [Completion], &'a [CqImage]),
    Ends(&'a [EndImage]),
    Link(&'a EndImage, &'a [EndImage]),
    Terms(&'a LinkImage, &'a EndImage, &'a [EndImage]),
    Numbers(&'a LinkImage, &'a EndImage, &'a [EndImage]),
    Progress(&'a LinkImage, &'a EndImage, &'a [EndImage]),
    KeptList(&'a LinkImage, &'a EndImage, &'a [EndImage]),
    Kept(&'a [KeptReply], &'a EndImage, &'a [EndImage]),
    Requests(&'a [PostedImage], &'a EndImage, &'a [EndImage]),
    Payload(u64, &'a ByteRun, &'a [PostedImage], &'a EndImage, &'a [EndImage]),
    Receives(&'a [Receive], &'a [EndImage]),
}

/// Some fields, and what is written after them.
#[derive(Drop)]
pub struct Step<'a> {
    pub chunk: Chunk,
    pub next: Stage<'a>,
}

#[tactic(auto, unfolding(crate::specs::Left::left, crate::specs::Fitting::fits_left))]
fn domain_step<'a>(image: &'a ContextImage, names: &'a [Name]) -> Step<'a>
    ensures bytes { result.chunk ++ left image.now result.next ≡ domains_left image.now names.now }
    ensures some { 1 ≤ length result.chunk }
    ensures fits { fits_left image.now result.next → RegionsFit image.now image.now.regions }
{
    match names {
        [] => Step {
            chunk: fields::count_bytes(image.regions.len()),
            next: Stage::Regions(image.regions.as_slice()),
        },
        [name, more @ ..] => Step {
            chunk: fields::name_bytes(name),
            next: Stage::Domains(more),
        },
    }
}

#[tactic(auto, unfolding(crate::specs::Left::left, crate::specs::Fitting::fits_left))]
fn region_step<'a>(image: &'a ContextImage, regions: &'a [RegionImage]) -> Step<'a>
    ensures bytes { result.chunk ++ left image.now result.next
        ≡ regions_left image.now regions.now }
    ensures some { 1 ≤ length result.chunk }
    ensures fits { fits_left image.now result.next → RegionsFit image.now regions.now }
{
    match regions {
        [] => Step {
            chunk: fields::count_bytes(image.queues.len()),
            next: Stage::Queues(image.queues.as_slice()),
        },
        [region, more @ ..] => Step {
            chunk: fields::region_fields(region),
            next: Stage::Bytes(0, &region.bytes, more),
        },
    }
}

#[tactic(auto, unfolding(crate::specs::Left::left, crate::specs::Fitting::fits_left))]
fn queue_step<'a>(image: &'a ContextImage, queues: &'a [CqImage]) -> Step<'a>
    ensures bytes { result.chunk ++ left image.now result.next ≡ queues_left image.now queues.now }
    ensures some { 1 ≤ length result.chunk }
    ensures fits { fits_left image.now result.next → QueuesFit image.now queues.now }
{
    match queues {
        [] => Step {
            chunk: fields::count_bytes(image.ends.len()),
            next: Stage::Ends(image.ends.as_slice()),
        },
        [queue, more @ ..] => Step {
            chunk: fields::queue_fields(queue),
            next: Stage::Entries(queue.entries.as_slice(), more),
        },
    }
}

#[tactic(auto, unfolding(crate::specs::Left::left, crate::specs::Fitting::fits_left))]
fn entry_step<'a>(
    image: &'a ContextImage,
    entries: &'a [Completion],
    queues: &'a [CqImage],
) -> Step<'a>
    ensures bytes { result.chunk ++ left image.now result.next
        ≡ entries_left image.now entries.now queues.now }
    ensures some { 1 ≤ length result.chunk }
    ensures fits { fits_left image.now result.next → EntriesFit image.now entries.now queues.now }
{
    match entries {
        [] => queue_step(image, queues),
        [entry, more @ ..] => Step {
            chunk: fields::entry_fields(entry),
            next: Stage::Entries(more, queues),
        },
    }
}

#[tactic(auto, unfolding(crate::specs::Left::left, crate::specs::Fitting::fits_left))]
fn end_step<'a>(image: &'a ContextImage, ends: &'a [EndImage]) -> Step<'a>
    ensures bytes { result.chunk ++ left image.now result.next ≡ ends_left ends.now }
    ensures some { length result.chunk ≡ 0 → ends.now ≡ [] }
    ensures fits { fits_left image.now result.next → All FitsEnd ends.now }
    ensures last { length result.chunk ≡ 0 → All FitsEnd ends.now }
{
    match ends {
        [] => Step {
            chunk: Chunk::make(),
            next: Stage::Ends(ends),
        },
        [end, more @ ..] => Step {
            chunk: fields::end_fields(end),
            next: Stage::Link(end, more),
        },
    }
}

#[tactic(auto, unfolding(crate::specs::Left::left, crate::specs::Fitting::fits_left))]
fn receive_step<'a>(
    image: &'a ContextImage,
    receives: &'a [Receive],
    ends: &'a [EndImage],
) -> Step<'a>
    ensures bytes { result.chunk ++ left image.now result.next
        ≡ receives_left receives.now ends.now }
    ensures some { length result.chunk ≡ 0 → receives_left receives.now ends.now ≡ [] }
    ensures fits { fits_left image.now result.next → ReceivesFit receives.now ends.now }
    ensures last { length result.chunk ≡ 0 → ReceivesFit receives.now ends.now }
{
    match receives {
        [] => end_step(image, ends),
        [receive, more @ ..] => Step {
            chunk: fields::receive_fields(receive),
            next: Stage::Receives(more, ends),
        },
    }
}

#[tactic(auto, unfolding(crate::specs::Left::left, crate::specs::Fitting::fits_left))]
fn request_step<'a>(
    image: &'a ContextImage,
    requests: &'a [PostedImage],
    end: &'a EndImage,
    ends: &'a [EndImage],
) -> Step<'a>
    ensures bytes { result.chunk ++ left image.now result.next
        ≡ requests_left end.now requests.now ends.now }
    ensures some { 1 ≤ length result.chunk }
    ensures fits { fits_left image.now result.next → RequestsFit end.now requests.now ends.now }
{
    match requests {
        [] => Step {
            chunk: fields::count_bytes(end.unused.len()),
            next: Stage::Receives(end.unused.as_slice(), ends),
        },
        [posted, more @ ..] => Step {
            chunk: fields::request_fields(posted),
            next: Stage::Payload(0, &posted.payload, more, end, ends),
        },
    }
}

#[tactic(auto, unfolding(crate::specs::Left::left, crate::specs::Fitting::fits_left))]
fn kept_step<'a>(
    image: &'a ContextImage,
    kept: &'a [KeptReply],
    end: &'a EndImage,
    ends: &'a [EndImage],
) -> Step<'a>
    ensures bytes { result.chunk ++ left image.now result.next
        ≡ kept_left end.now kept.now ends.now }
    ensures some { 1 ≤ length result.chunk }
    ensures fits { fits_left image.now result.next → KeptFit end.now kept.now ends.now }
{
    match kept {
        [] => Step {
            chunk: fields::count_bytes(end.untold.len()),
            next: Stage::Requests(end.untold.as_slice(), end, ends),
        },
        [reply, more @ ..] => Step {
            chunk: fields::kept_fields(reply),
            next: Stage::Kept(more, end, ends),
        },
    }
}

#[tactic(auto, unfolding(crate::specs::Left::left, crate::specs::Fitting::fits_left))]
fn link_step<'a>(image: &'a ContextImage, end: &'a EndImage, ends: &'a [EndImage]) -> Step<'a>
    ensures bytes { result.chunk ++ left image.now result.next
        ≡ link_left end.now.linked end.now ends.now }
    ensures some { 1 ≤ length result.chunk }
    ensures fits { fits_left image.now result.next → LinkFits end.now.linked end.now ends.now }
{
    match &end.linked {
        None => kept_step(image, &[], end, ends),
        Some(link) => Step {
            chunk: fields::link_fields(link),
            next: Stage::Terms(link, end, ends),
        },
    }
}

/// The next fields: none only where nothing is left.
#[tactic(auto, unfolding(crate::specs::Left::left, crate::specs::Fitting::fits_left))]
pub fn next_step<'a>(image: &'a ContextImage, stage: Stage<'a>) -> Step<'a>
    requires { IsPast stage }
    ensures bytes { result.chunk ++ left image.now result.next ≡ left image.now stage.entry }
    ensures some { length result.chunk ≡ 0 → left image.now stage.entry ≡ [] }
    ensures fits { fits_left image.now result.next → fits_left image.now stage.entry }
    ensures last { length result.chunk ≡ 0 → fits_left image.now stage.entry }
{
    match stage {
        Stage::Opening => Step {
            chunk: fields::opening_bytes(image),
            next: Stage::Domains(image.domains.as_slice()),
        },
        Stage::Domains(names) => domain_step(image, names),
        Stage::Regions(regions) | Stage::Bytes(_, _, regions) => region_step(image, regions),
        Stage::Queues(queues) => queue_step(image, queues),
        Stage::Entries(entries, queues) => entry_step(image, entries, queues),
        Stage::Ends(ends) => end_step(image, ends),
        Stage::Link(end, ends) => link_step(image, end, ends),
        Stage::Terms(link, end, ends) => Step {
            chunk: fields::terms_fields(&link.terms),
            next: Stage::Numbers(link, end, ends),
        },
        Stage::Numbers(link, end, ends) => Step {
            chunk: fields::number_fields(link),
            next: Stage::Progress(link, end, ends),
        },
        Stage::Progress(link, end, ends) => Step {
            chunk: fields::progress_fields(&link.progress),
            next: Stage::KeptList(link, end, ends),
        },
        Stage::KeptList(link, end, ends) => Step {
            chunk: fields::kept_count(link),
            next: Stage::Kept(link.kept.as_slice(), end, ends),
        },
        Stage::Kept(kept, end, ends) => kept_step(image, kept, end, ends),
        Stage::Requests(requests, end, ends) | Stage::Payload(_, _, requests, end, ends) => {
            request_step(image, requests, end, ends)
        }
        Stage::Receives(receives, ends) => receive_step(image, receives, ends),
    }
}
