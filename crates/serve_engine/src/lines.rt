//! What lines do.

ghost use Rattle.std.specs.Prelude.{◌≡◌, IfOk, IfSome, OnOk};
ghost use Rattle.node_rules.specs.Lines as node;
ghost use Rattle.protocol.specs.Events.{IsLawfulEvent};
ghost use Rattle.script_lang.specs.Ranges.{IsLawfulNodeLine, IsLawfulVerb};
ghost use Rattle.serve_rules.specs.Ranges.{IsLawfulServeLine};
ghost use Rattle.serve_rules.specs.Reading.{serve_reading_of};
ghost use Rattle.serve_rules.specs.Lines as rules;
ghost use Rattle.serve_engine.specs.Doing.{IsReleaseOf, LineLeaves, NodeLineLeaves, ReadingLeaves, VerbLeaves};

use crate::state::Server;
use device_core::Event;
use host_ports::Store;
use protocol::WorldEvent;
use rdma_types::{Answer, Name, ObjName, Verb};
use script_lang::{LineFault, NodeLine};
use serve_rules::{Goal, Pending, Reply, ServeLine, parse_serve_line};
use std::alloc::{AllocError, Global};
use verb_events::event_of;

/// The event of a verb at a device; a context and a connection of two ends have none.
fn device_event_of(verb: Verb) -> Option<Event>
    ensures event { result ≡ node.verb_event verb }
    ensures lawful { IsLawfulVerb verb → IfSome result IsLawfulEvent }
{
    match event_of(verb) {
        Some(WorldEvent::At { event }) => Some(event),
        _ => None,
    }
}

/// The queue pair that an event of a line may give something to send.
fn end_of(event: &Event) -> Option<ObjName>
    ensures { result ≡ rules.end_of event.now }
{
    match event {
        Event::Connect { end, .. }
        | Event::PostSend { end, .. }
        | Event::Transmit { end }
        | Event::Expire { end }
        | Event::RnrOver { end } => Some(*end),
        _ => None,
    }
}

/// An answer with the count of datagrams in the place of the number that a device does not know.
fn counted(answer: Answer, made: u64) -> Answer
    ensures { result ≡ node.counting made answer }
{
    match answer {
        Answer::Sent { .. } => Answer::Sent { first: made },
        other => other,
    }
}

/// The ends of a context are forgotten.
fn forget_context(gone: &mut Vec<(Name, u32)>, name: Name)
    ensures { gone.new.items ≡ rules.others name gone.old.items }
{
    gone.retain(|gone| gone.0 != name);
}

impl Server {
    /// The queue pair of that name may have something to send, where there is one. Errors: `AllocError` when out of memory.
    fn wake_end(&mut self, end: Option<ObjName>) -> Result<(), AllocError>
        ensures { OnOk result (self.new ≡ rules.woken_end self.old end) }
    {
        match end {
            Some(end) => {
                let view = self.device.end_named(&end);
                self.wake_view(&view)
            }
            None => Ok(()),
        }
    }

    /// Steps an event, and answers it. Where memory runs out, all is as before. Errors: `AllocError` when out of memory
    /// behind the step.
    fn step_line(&mut self, alloc: Global, event: &Event) -> Result<Reply, AllocError>
        requires { IsLawfulEvent event.now }
        ensures { IfOk result (λ r. rules.IsLineOf event.now self.old r self.new) }
    {
        let Ok(outcome) = self.advance(alloc, event) else {
            return Ok(Reply::Memory);
        };
        self.queue(outcome.sent)?;
        self.wake_end(end_of(event))?;
        Ok(Reply::Device(counted(outcome.answer, self.tallies.made)))
    }

    /// The ends of a context are forgotten, where its husk was released.
    fn forget(&mut self, answer: &Answer, name: Name)
        ensures { self.new ≡ rules.forgotten answer.now name self.old }
    {
        match answer {
            Answer::Done => forget_context(&mut self.gone, name),
            _ => (),
        }
    }

    /// The husk of a context is released. Where memory runs out, all is as before.
    #[tactic(auto, unfolding(serve_rules::specs::Lines::released))]
    fn release(&mut self, alloc: Global, context: Name) -> Reply
        ensures { IsReleaseOf context self.old result self.new }
    {
        let Ok(outcome) = self.advance(alloc, &Event::Release { context }) else {
            return Reply::Memory;
        };
        self.forget(&outcome.answer, context);
        Reply::Device(outcome.answer)
    }

    /// Steps the event of a verb, if it has one. Errors: `AllocError` when out of memory.
    fn do_verb(&mut self, alloc: Global, verb: Verb) -> Result<Reply, AllocError>
        requires { IsLawfulVerb verb }
        ensures { IfOk result (λ r. VerbLeaves (node.verb_event verb) self.old r self.new) }
    {
        match device_event_of(verb) {
            Some(event) => self.step_line(alloc, &event),
            None => Ok(Reply::Nothing),
        }
    }

    /// Does what a line of a node says. Errors: `AllocError` when out of memory behind a step.
    fn do_node<S: Store>(
        &mut self,
        alloc: Global,
        store: &mut S,
        line: NodeLine,
    ) -> Result<Reply, AllocError>
        requires { IsLawfulNodeLine line }
        ensures { IfOk result (λ r. NodeLineLeaves line self.old r self.new
            (record { dumps = S.dumps store.old; claims = S.claims store.old })
            (record { dumps = S.dumps store.new; claims = S.claims store.new })) }
    {
        match line {
            NodeLine::Blank | NodeLine::Serve(_) => Ok(Reply::Nothing),
            NodeLine::Verb(verb) => self.do_verb(alloc, verb),
            NodeLine::Context(name) => self.step_line(alloc, &Event::MakeContext { name }),
            NodeLine::Link {
                end,
                peer,
                partner,
                terms,
            } => {
                let event = Event::Connect {
                    end,
                    peer,
                    partner,
                    terms,
                };
                self.step_line(alloc, &event)
            }
            NodeLine::Go(end) => self.step_line(alloc, &Event::Transmit { end }),
            NodeLine::Expire(end) => self.step_line(alloc, &Event::Expire { end }),
            NodeLine::Rnr(end) => self.step_line(alloc, &Event::RnrOver { end }),
            NodeLine::Stop { name, file } => Ok(self.stop(alloc, store, name, file)),
            NodeLine::Restore { file } => Ok(self.restore(alloc, store, file)),
            NodeLine::Release(name) => Ok(self.release(alloc, name)),
        }
    }

    /// The next line follows after a time. It has no answer yet.
    fn wait(&mut self, time: u64) -> Reply
        ensures server { self.new ≡ rules.waiting self.old time }
        ensures reply { result ≡ Reply.Nothing }
    {
        self.pending = Pending::Wait {
            until: self.clock.saturating_add(time),
        };
        Reply::Nothing
    }

    /// .. once an end has come so far. It has no answer yet.
    fn wait_for(&mut self, end: ObjName, goal: Goal, limit: u64) -> Reply
        ensures server { self.new ≡ rules.waiting_for self.old end goal limit }
        ensures reply { result ≡ Reply.Nothing }
    {
        self.pending = Pending::Until {
            end,
            goal,
            until: self.clock.saturating_add(limit),
        };
        Reply::Nothing
    }

    /// Does what a line says. Errors: `AllocError` when out of memory behind a step.
    fn do_line<S: Store>(
        &mut self,
        alloc: Global,
        store: &mut S,
        line: ServeLine,
    ) -> Result<Reply, AllocError>
        requires { IsLawfulServeLine line }
        ensures { IfOk result (λ r. LineLeaves line self.old r self.new
            (record { dumps = S.dumps store.old; claims = S.claims store.old })
            (record { dumps = S.dumps store.new; claims = S.claims store.new })) }
    {
        match line {
            ServeLine::Node(line) => self.do_node(alloc, store, line),
            ServeLine::Wait(time) => Ok(self.wait(time)),
            ServeLine::Until { end, goal, limit } => Ok(self.wait_for(end, goal, limit)),
            ServeLine::ShowEnd(end) => self.show_end(alloc, &end),
            ServeLine::ShowContext(name) => self.show_context(alloc, name),
            ServeLine::Show => self.show_node(alloc),
        }
    }

    /// Reads a line, and does what it says. Errors: `AllocError` when out of memory behind a step.
    pub(crate) fn read_line<S: Store>(
        &mut self,
        alloc: Global,
        store: &mut S,
        line: &[u8],
    ) -> Result<Reply, AllocError>
        ensures { IfOk result (λ r. ReadingLeaves (serve_reading_of line.now) self.old r self.new
            (record { dumps = S.dumps store.old; claims = S.claims store.old })
            (record { dumps = S.dumps store.new; claims = S.claims store.new })) }
    {
        match parse_serve_line(alloc, line) {
            Ok(line) => self.do_line(alloc, store, line),
            Err(LineFault::Bad { column, why }) => Ok(Reply::BadLine { column, why }),
            Err(LineFault::OutOfMemory) => Ok(Reply::Memory),
        }
    }
}
