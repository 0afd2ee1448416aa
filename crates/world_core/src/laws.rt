//! What holds of each whole world whose last datagrams a world keeps.

ghost use Rattle.std.specs.Prelude.{◌≡◌, Some};
ghost use Rattle.rdma_types.specs.declared.answers.Answer.{Answer};
ghost use Rattle.rdma_types.specs.declared.answers.Answer.TheVariants as answers;
ghost use Rattle.rdma_types.specs.declared.answers.Refusal.{Refusal};
ghost use Rattle.protocol.specs.declared.events.WorldEvent.{WorldEvent};
ghost use Rattle.protocol.specs.State.{World};
ghost use Rattle.protocol.specs.WorldStep.{world_step};
ghost use Rattle.world_core.specs.Causes.{world_refusal};
ghost use Rattle.world_core.specs.Followed.{IsFollowed};
ghost use Rattle.world_core.specs.Kept.{Makes};

use law_kept_datagrams::alike_worlds_are_answered_alike;
use law_simulation::runs::steps_are_named;

/// A call that makes the rules' step of a world makes it of each whole world whose last datagrams this one keeps, and the
/// packetless machine follows it by exactly the steps that are named.
pub fn steps_are_followed()
    ensures { (old new : World) (e : WorldEvent) (answer : Answer)
        → Makes (world_step old e) answer new → IsFollowed old e answer new }
{
    alike_worlds_are_answered_alike();
    steps_are_named();
}

/// A refusal that is due at an event is what the rules answer.
pub fn refusals_are_answered()
    ensures { (w : World) (e : WorldEvent) (r : Refusal) → world_refusal w e ≡ Some r
        → (world_step w e).answer ≡ answers.Refused r }
{}
