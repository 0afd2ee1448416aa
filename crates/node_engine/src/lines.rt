//! What each line of a script does.

ghost use Rattle.std.specs.Prelude.{◌≡◌, IfOk, IfSome, Some};
ghost use Rattle.node_rules.specs.Lines as rules;
ghost use Rattle.protocol.specs.Events.{IsLawfulEvent};
ghost use Rattle.protocol.specs.Lawful.{IsLawful};
ghost use Rattle.script_lang.specs.Printed.{printed};
ghost use Rattle.script_lang.specs.Ranges.{IsLawfulNodeLine, IsLawfulVerb};
ghost use Rattle.node_engine.specs.Answered.{Does};
ghost use Rattle.node_engine.specs.Names.{answer_is_done};

use crate::NodeFault;
use crate::ports::Ports;
use crate::state::Node;
use device_core::{ContextImage, Event};
use dump_reader::decode_dump;
use dump_writer::encode_dump;
use protocol::WorldEvent;
use rdma_types::{Answer, Name, Verb};
use script_lang::{NodeLine, print_answer};
use std::alloc::{AllocError, Global};
use verb_events::event_of;

/// The event of a verb at a device; a context and a connection of two ends have none.
fn device_event_of(verb: Verb) -> Option<Event>
    ensures event { result ≡ rules.verb_event verb }
    ensures lawful { IsLawfulVerb verb → IfSome result IsLawfulEvent }
{
    match event_of(verb) {
        Some(WorldEvent::At { event }) => Some(event),
        _ => None,
    }
}

/// An answer with the count of sent datagrams in the place of the number that a device does not know.
fn counted(answer: Answer, sent: u64) -> Answer
    ensures { result ≡ rules.counting sent answer }
{
    match answer {
        Answer::Sent { .. } => Answer::Sent { first: sent },
        other => other,
    }
}

/// Whether a step was done.
fn is_done(answer: &Answer) -> bool
    ensures { result ≡ answer_is_done answer.now }
{
    match answer {
        Answer::Done => true,
        _ => false,
    }
}

/// The text of an answer. Errors: `AllocError` when out of memory.
fn text_of(alloc: Global, answer: Answer, sent: u64) -> Result<Vec<u8>, AllocError>
    ensures { IfOk result (λ text. text.items ≡ printed (rules.counting sent answer)) }
{
    let answer = counted(answer, sent);
    let mut text = Vec::new(alloc);
    print_answer(&answer, &mut text)?;
    Ok(text)
}

/// The text of the answer to a `serve`. Errors: `AllocError` when out of memory.
fn served_text(alloc: Global, taken: u64) -> Result<Vec<u8>, AllocError>
    ensures { IfOk result (λ text. text.items ≡ rules.served_text taken) }
{
    let mut digits = itoa::Buffer::new();
    let mut text = Vec::from_slice(alloc, b"served ")?;
    text.extend_from_slice(digits.format(taken).as_bytes())?;
    text.push(b'\n')?;
    Ok(text)
}

impl Node {
    /// Writes an answer.
    fn answer<P: Ports>(
        &self,
        alloc: Global,
        ports: &mut P,
        answer: Answer,
    ) -> Result<(), NodeFault>
        ensures { Does (rules.answering answer self.now) (λ done. self.now)
            (P.contents ports.old) result (P.contents ports.new) }
    {
        let text = text_of(alloc, answer, self.sent_count())?;
        ports.write(text.as_slice())
    }

    /// Steps an event, and writes its answer.
    fn step_and_answer<P: Ports>(
        &mut self,
        alloc: Global,
        ports: &mut P,
        event: &Event,
    ) -> Result<(), NodeFault>
        requires { IsLawfulEvent event.now }
        ensures { Does (rules.stepped self.old event.now) (λ done. self.new)
            (P.contents ports.old) result (P.contents ports.new) }
    {
        let outcome = self.step(alloc, ports, event)?;
        self.give_back(outcome.sent);
        self.answer(alloc, ports, outcome.answer)
    }
    /// Puts the dump of an image in the depot, and then writes the answer.
    fn put_dump<P: Ports>(
        &self,
        alloc: Global,
        ports: &mut P,
        file: Name,
        image: &ContextImage,
        answer: Answer,
    ) -> Result<(), NodeFault>
        requires { IsLawful image.now }
        ensures { Does (rules.storing file (Some image.now) answer self.now) (λ done. self.now)
            (P.contents ports.old) result (P.contents ports.new) }
    {
        let dump = encode_dump(alloc, image)?;
        ports.put(alloc, file, dump.as_slice())?;
        self.answer(alloc, ports, answer)
    }

    /// Puts the dump of an image in the depot, where there is one, before the answer is written.
    fn store<P: Ports>(
        &self,
        alloc: Global,
        ports: &mut P,
        file: Name,
        image: &Option<ContextImage>,
        answer: Answer,
    ) -> Result<(), NodeFault>
        requires { IfSome image.now (λ i. IsLawful i) }
        ensures { Does (rules.storing file image.now answer self.now) (λ done. self.now)
            (P.contents ports.old) result (P.contents ports.new) }
    {
        match image {
            None => self.answer(alloc, ports, answer),
            Some(image) => self.put_dump(alloc, ports, file, image, answer),
        }
    }

    /// Stops a context, and puts its dump in the depot.
    fn stop<P: Ports>(
        &mut self,
        alloc: Global,
        ports: &mut P,
        name: Name,
        file: Name,
    ) -> Result<(), NodeFault>
        ensures { Does (rules.stopping self.old name file) (λ done. self.new)
            (P.contents ports.old) result (P.contents ports.new) }
    {
        let event = Event::Stop {
            context: name,
            alone: true,
        };
        let outcome = self.step(alloc, ports, &event)?;
        let image = outcome.image;
        self.store(alloc, ports, file, &image, outcome.answer)
    }

    /// Takes a dump that was restored out of the depot, and writes that it is done.
    fn remove<P: Ports>(&self, alloc: Global, ports: &mut P, file: Name) -> Result<(), NodeFault>
        ensures { Does (rules.clearing file Answer.Done self.now) (λ done. self.now)
            (P.contents ports.old) result (P.contents ports.new) }
    {
        let found = ports.remove(alloc, file)?;
        match found {
            Some(_bytes) => self.answer(alloc, ports, Answer::Done),
            None => Err(NodeFault::Missing(file)),
        }
    }

    /// Takes a dump that was restored out of the depot, and writes the answer; after a refused restore it stays there.
    fn clear<P: Ports>(
        &self,
        alloc: Global,
        ports: &mut P,
        file: Name,
        answer: Answer,
    ) -> Result<(), NodeFault>
        ensures { Does (rules.clearing file answer self.now) (λ done. self.now)
            (P.contents ports.old) result (P.contents ports.new) }
    {
        if is_done(&answer) {
            self.remove(alloc, ports, file)
        } else {
            self.answer(alloc, ports, answer)
        }
    }

    /// Restores the context of which bytes are a dump.
    fn restore_bytes<P: Ports>(
        &mut self,
        alloc: Global,
        ports: &mut P,
        file: Name,
        bytes: &[u8],
    ) -> Result<(), NodeFault>
        ensures { Does (rules.restoring_bytes self.old file (Some bytes.now)) (λ done. self.new)
            (P.contents ports.old) result (P.contents ports.new) }
    {
        let image = decode_dump(alloc, bytes)?;
        let outcome = self.step_restore(alloc, ports, &image)?;
        self.clear(alloc, ports, file, outcome.answer)
    }

    /// Restores the context whose dump is in the depot.
    fn restore<P: Ports>(
        &mut self,
        alloc: Global,
        ports: &mut P,
        file: Name,
    ) -> Result<(), NodeFault>
        ensures { Does (rules.restoring self.old file) (λ done. self.new)
            (P.contents ports.old) result (P.contents ports.new) }
    {
        let found = ports.look(alloc, file)?;
        match found {
            Some(bytes) => self.restore_bytes(alloc, ports, file, bytes.as_slice()),
            None => Err(NodeFault::Missing(file)),
        }
    }

    /// Serves turns, and writes how many datagrams they took.
    fn serve_and_tell<P: Ports>(
        &mut self,
        alloc: Global,
        ports: &mut P,
        turns: u32,
    ) -> Result<(), NodeFault>
        ensures { Does (rules.serves self.old turns) (λ done. self.new)
            (P.contents ports.old) result (P.contents ports.new) }
    {
        self.serve(alloc, ports, turns)?;
        let text = served_text(alloc, self.taken_count())?;
        ports.write(text.as_slice())
    }

    /// Steps the event of a verb, if it has one, and writes its answer.
    fn do_verb<P: Ports>(
        &mut self,
        alloc: Global,
        ports: &mut P,
        verb: Verb,
    ) -> Result<(), NodeFault>
        requires { IsLawfulVerb verb }
        ensures { Does (rules.stepped_if self.old (rules.verb_event verb)) (λ done. self.new)
            (P.contents ports.old) result (P.contents ports.new) }
    {
        match device_event_of(verb) {
            Some(event) => self.step_and_answer(alloc, ports, &event),
            None => Ok(()),
        }
    }

    /// Does what a line says.
    pub(crate) fn do_line<P: Ports>(
        &mut self,
        alloc: Global,
        ports: &mut P,
        line: NodeLine,
    ) -> Result<(), NodeFault>
        requires { IsLawfulNodeLine line }
        ensures { Does (rules.line_does self.old line) (λ done. self.new)
            (P.contents ports.old) result (P.contents ports.new) }
    {
        match line {
            NodeLine::Blank => Ok(()),
            NodeLine::Verb(verb) => self.do_verb(alloc, ports, verb),
            NodeLine::Context(name) => {
                self.step_and_answer(alloc, ports, &Event::MakeContext { name })
            }
            NodeLine::Link {
                end,
                peer,
                partner,
                terms,
            } => {
                let event = Event::Connect {
                    end,
                    peer,
                    partner,
                    terms,
                };
                self.step_and_answer(alloc, ports, &event)
            }
            NodeLine::Go(end) => self.step_and_answer(alloc, ports, &Event::Transmit { end }),
            NodeLine::Expire(end) => self.step_and_answer(alloc, ports, &Event::Expire { end }),
            NodeLine::Rnr(end) => self.step_and_answer(alloc, ports, &Event::RnrOver { end }),
            NodeLine::Stop { name, file } => self.stop(alloc, ports, name, file),
            NodeLine::Restore { file } => self.restore(alloc, ports, file),
            NodeLine::Release(name) => {
                self.step_and_answer(alloc, ports, &Event::Release { context: name })
            }
            NodeLine::Serve(turns) => self.serve_and_tell(alloc, ports, turns),
        }
    }
}
