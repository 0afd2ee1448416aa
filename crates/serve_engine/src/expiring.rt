//! Timers that are due.

ghost use Rattle.std.specs.Prelude.{◌≡◌, OnOk};
ghost use Rattle.device_core.specs.Numbered.{numbered_view};
ghost use Rattle.serve_rules.specs.Turns as rules;

use crate::state::Server;
use rdma_types::EndView;
use serve_rules::Due;
use std::alloc::{AllocError, Global};

impl Server {
    /// What is due of a queue pair is done. Errors: `AllocError` when out of memory.
    fn do_due(&mut self, alloc: Global, view: &EndView, due: Due) -> Result<(), AllocError>
        ensures { OnOk result (self.new ≡ rules.expired_by self.old view.now due) }
    {
        match due {
            Due::Neither | Due::Resume => Ok(()),
            Due::Rnr => self.end_wait(alloc, &view.name),
            Due::Expiry => self.expire(alloc, &view.name),
        }
    }

    /// The timer that is due is cleared, and its queue pair may have something to send. Errors: `AllocError` when out of memory.
    fn expire_due(&mut self, alloc: Global, view: &EndView, due: Due) -> Result<(), AllocError>
        ensures { OnOk result (self.new ≡ rules.expired_due self.old view.now due) }
    {
        self.spend(view, due)?;
        self.do_due(alloc, view, due)?;
        self.wake(view.number)
    }

    /// A queue pair is looked at, and expires where a timer is due. Errors: `AllocError` when out of memory.
    #[tactic(auto, unfolding(serve_rules::specs::Turns::expired_once))]
    fn expire_once(&mut self, alloc: Global, view: &EndView) -> Result<(), AllocError>
        ensures { OnOk result (self.new ≡ rules.expired_once self.old view.now) }
    {
        self.observe(view)?;
        let due = self.due_of(view);
        self.expire_due(alloc, view, due)
    }

    /// .. the one with that number, where it lives here. Errors: `AllocError` when out of memory.
    fn expire_from(&mut self, alloc: Global, number: u32) -> Result<(), AllocError>
        ensures { OnOk result (self.new ≡ rules.expired_from self.old number
            (numbered_view self.old.device number)) }
    {
        match self.device.end_numbered(number) {
            Some(view) => self.expire_once(alloc, &view),
            None => {
                self.drop_timer(number);
                Ok(())
            }
        }
    }

    /// These expire. Errors: `AllocError` when out of memory.
    fn expire_all(&mut self, alloc: Global, due: &[u32]) -> Result<(), AllocError>
        ensures { OnOk result (self.new ≡ rules.all_expired self.old due.now) }
    {
        for number in due {
            self.expire_from(alloc, *number)?;
        }
        Ok(())
    }

    /// Third part of a turn: what is due expires. Errors: `AllocError` when out of memory.
    #[tactic(auto, unfolding(serve_rules::specs::Turns::expired_at))]
    pub(crate) fn expire_at(&mut self, alloc: Global) -> Result<(), AllocError>
        ensures { OnOk result (self.new ≡ rules.expired_at self.old) }
    {
        let due = self.list_due(alloc)?;
        self.expire_all(alloc, due.as_slice())
    }

    /// A turn at a moment: datagrams that were taken arrive, queue pairs send, and what is due expires. Errors: `AllocError`
    /// when out of memory.
    #[tactic(auto, unfolding(serve_rules::specs::Turns::turned))]
    pub(crate) fn turn(&mut self, alloc: Global, now: u64) -> Result<(), AllocError>
        ensures { OnOk result (self.new ≡ rules.turned self.old now) }
    {
        self.arrive_many(alloc)?;
        self.clock = now;
        self.send_many(alloc)?;
        self.expire_at(alloc)
    }
}
