//! The timers of queue pairs, kept by their numbers.

ghost use Rattle.std.specs.Prelude.{◌≡◌, ◌++◌, [], IfOk, OnOk};
ghost use Rattle.serve_rules.specs.Server as rules;
ghost use Rattle.serve_rules.specs.Turns.{due_before, due_in};

use crate::state::Server;
use indexmap::IndexMap;
use rdma_types::EndView;
use serve_rules::{Due, Timer};
use std::alloc::{AllocError, Global};

/// Puts a number behind others, where its timer is due. Errors: `AllocError` when out of memory.
fn push_due(numbers: &mut Vec<u32>, number: u32, due: Due) -> Result<(), AllocError>
    ensures { OnOk result (numbers.new.items ≡ numbers.old.items ++ due_before number due []) }
{
    match due {
        Due::Neither => (),
        Due::Rnr | Due::Expiry | Due::Resume => numbers.push(number)?,
    }
    Ok(())
}

/// The numbers of the queue pairs of which a timer is due. Errors: `AllocError` when out of memory.
fn due_numbers(
    alloc: Global,
    timers: &IndexMap<u32, Timer>,
    now: u64,
) -> Result<Vec<u32>, AllocError>
    ensures { IfOk result (λ due. due.items ≡ due_in now timers.now.entries) }
{
    let mut due = Vec::new(alloc);
    for place in 0..timers.len() {
        let (number, timer) = timers.get_index(place).unwrap();
        push_due(&mut due, *number, timer.is_due(now))?;
    }
    Ok(due)
}

impl Server {
    /// The timers of a queue pair.
    pub(crate) fn timer_of(&self, view: &EndView) -> Timer
        ensures { result ≡ rules.timer_of self.now view.now }
    {
        match self.timers.get(&view.number) {
            Some(timer) => *timer,
            None => Timer::idle(view),
        }
    }

    /// No timers are kept for that number.
    pub(crate) fn drop_timer(&mut self, number: u32)
        ensures { self.new ≡ rules.without_timer self.old number }
    {
        let _dropped = self.timers.shift_remove(&number);
    }

    /// Timers are kept, where one is set. Errors: `AllocError` when out of memory.
    #[tactic(auto, unfolding(serve_rules::specs::Server::with_timer))]
    fn keep_timer(&mut self, number: u32, timer: Timer) -> Result<(), AllocError>
        ensures { OnOk result (self.new ≡ rules.with_timer self.old number timer) }
    {
        if timer.is_over() {
            self.drop_timer(number);
            return Ok(());
        }
        self.timers.insert(number, timer)?;
        Ok(())
    }

    /// Takes note of what is told of a queue pair now. Errors: `AllocError` when out of memory.
    #[tactic(auto, unfolding(serve_rules::specs::Server::observed))]
    pub(crate) fn observe(&mut self, view: &EndView) -> Result<(), AllocError>
        ensures { OnOk result (self.new ≡ rules.observed self.old view.now) }
    {
        let timer = self.timer_of(view).observed(view, self.base, self.clock);
        self.keep_timer(view.number, timer)
    }

    /// A RESUME was sent. Errors: `AllocError` when out of memory.
    #[tactic(auto, unfolding(serve_rules::specs::Server::resumed))]
    pub(crate) fn observe_resume(&mut self, view: &EndView) -> Result<(), AllocError>
        ensures { OnOk result (self.new ≡ rules.resumed self.old view.now) }
    {
        let timer = self.timer_of(view).resumed(self.base, self.clock);
        self.keep_timer(view.number, timer)
    }

    /// Whether a queue pair may be asked to send.
    pub(crate) fn may_send(&self, view: &EndView) -> bool
        ensures { result ≡ rules.may_send self.now view.now }
    {
        self.timer_of(view).may_send(view)
    }

    /// Which timer of a queue pair is due.
    pub(crate) fn due_of(&self, view: &EndView) -> Due
        ensures { result ≡ rules.due_of self.now view.now }
    {
        self.timer_of(view).is_due(self.clock)
    }

    /// Clears the timer that was due. Errors: `AllocError` when out of memory.
    #[tactic(auto, unfolding(serve_rules::specs::Server::spent))]
    pub(crate) fn spend(&mut self, view: &EndView, due: Due) -> Result<(), AllocError>
        ensures { OnOk result (self.new ≡ rules.spent self.old view.now due) }
    {
        let timer = self.timer_of(view).spent(due);
        self.keep_timer(view.number, timer)
    }

    /// The numbers of the queue pairs of which a timer is due. Errors: `AllocError` when out of memory.
    pub(crate) fn list_due(&self, alloc: Global) -> Result<Vec<u32>, AllocError>
        ensures { IfOk result (λ due. due.items ≡ due_in self.now.clock self.now.timers) }
    {
        due_numbers(alloc, &self.timers, self.clock)
    }
}
