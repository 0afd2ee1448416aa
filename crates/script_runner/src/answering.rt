//! The answer to what a line asks for.

ghost use Rattle.std.specs.Prelude.{◌≡◌, IfOk};
ghost use Rattle.protocol.specs.Lawful.{IsLawful};
ghost use Rattle.protocol.specs.Dumps.{dump_bytes};
ghost use Rattle.protocol.specs.Script.{dumps_by, shown};
ghost use Rattle.protocol.specs.WorldStep.{carried_image};
ghost use Rattle.law_headline.specs.Does.{MayBeAsked};
ghost use Rattle.script_runner.specs.Actions.{happening_of};
ghost use Rattle.script_runner.specs.Playing.{Answers};

use crate::actions::Action;
use dump_writer::{dump_length, encode_dump};
use protocol::ContextImage;
use rdma_types::{Answer, Items, Name, Refusal};
use std::alloc::{AllocError, Global};
use world_core::{Settler, World};

/// At most this many bytes of a dump are shown (this project's choice).
const MOST_SHOWN: u64 = 4096;

/// The length of the dump of an image, and its bytes where they are not too many. No more are written. Errors: `AllocError`
/// when out of memory.
#[tactic(auto, unfolding(protocol::specs::Script::shown))]
fn show_dump(alloc: Global, image: &ContextImage) -> Result<Answer, AllocError>
    requires { IsLawful image.now }
    ensures { IfOk result (λ answer. answer ≡ shown (dump_bytes 2 image.now)) }
{
    let length = dump_length(image);
    let shown = if length <= MOST_SHOWN {
        encode_dump(alloc, image)?
    } else {
        Vec::new(alloc)
    };
    Ok(Answer::Dump {
        length,
        shown: Items::new(shown),
    })
}

/// The dump of a context that is carried.
fn answer_dump(alloc: Global, world: &World, context: Name) -> Result<Answer, AllocError>
    ensures { IfOk result (λ answer. answer ≡ dumps_by (carried_image world.now context)) }
{
    match world.carried(context) {
        Some(image) => show_dump(alloc, image),
        None => Ok(Answer::Refused(Refusal::NoSuch)),
    }
}

/// Does what a line asks for, and answers.
///
/// # Errors
///
/// Where no memory is left.
#[tactic(auto, unfolding(protocol::specs::Script::happens, protocol::specs::Script::dumps, protocol::specs::Script::settles))]
#[inline(always)]
pub(crate) fn act<T: Settler>(
    alloc: Global,
    world: &mut World,
    settler: &T,
    action: &Action,
) -> Result<Answer, AllocError>
    requires { MayBeAsked (happening_of action.now) }
    ensures { IfOk result (λ answer. Answers world.old (happening_of action.now) answer world.new) }
{
    match action {
        Action::Event(event) => world.step(alloc, event),
        Action::Dump(context) => answer_dump(alloc, world, *context),
        Action::Settle => Ok(Answer::Quiet(settler.settle(alloc, world)?.unfinished)),
    }
}
