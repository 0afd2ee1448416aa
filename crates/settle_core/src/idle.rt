//! Idle ends: those that a round without pending datagrams leaves as they are.

ghost use Rattle.std.specs.Prelude.{◌≡◌};
ghost use Rattle.std.specs.List.{list_all};
ghost use Rattle.settle_core.specs.Idle.{end_is_idle, view_is_idle};

use crate::sending::{is_resuming, is_running, may_send};
use crate::timers::may_expire;
use world_core::{LinkView, LiveEnd};

/// Whether an end with this link is idle: it neither waits for its RNR timer nor resumes, it has nothing to send, and its
/// retransmission timeout may not expire.
fn is_idle_link(link: &LinkView) -> bool
    ensures { result ≡ view_is_idle link.now }
{
    let sends = is_running(link) && may_send(link);
    !link.rnr_wait && !is_resuming(link) && !sends && !may_expire(link)
}

/// Whether a live end is idle. One that is not connected is.
fn is_idle(end: &LiveEnd) -> bool
    ensures { result ≡ end_is_idle end.now }
{
    match &end.link {
        None => true,
        Some(link) => is_idle_link(link),
    }
}

/// Whether all these ends are idle.
pub(crate) fn are_idle(ends: &[LiveEnd]) -> bool
    ensures { result ≡ list_all end_is_idle ends.now }
{
    ends.iter().all(|end| is_idle(end))
}
