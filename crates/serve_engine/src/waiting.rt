//! The line that waits.

ghost use Rattle.std.specs.Prelude.{◌≡◌};
ghost use Rattle.serve_rules.specs.Lines as rules;

use crate::state::Server;
use rdma_types::ObjName;
use serve_rules::{Goal, Pending, Reply, until_reply, when_over};

impl Server {
    /// The answer to an `until`, and nothing as long as there is none.
    fn until_reply(&self, end: &ObjName, goal: Goal, until: u64) -> Reply
        ensures { result ≡ rules.until_reply_of self.now end.now goal until }
    {
        match self.device.end_named(end) {
            Some(view) => until_reply(goal, &view, until <= self.clock),
            None => Reply::NoSuch,
        }
    }

    /// The answer to the line that waits, and nothing as long as there is none.
    pub(crate) fn pending_reply(&self) -> Reply
        ensures { result ≡ rules.pending_reply self.now }
    {
        match self.pending {
            Pending::Line => Reply::Nothing,
            Pending::Wait { until } => when_over(until <= self.clock, Reply::Waited),
            Pending::Until { end, goal, until } => self.until_reply(&end, goal, until),
        }
    }
}
