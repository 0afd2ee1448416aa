//! Turns of serving.

ghost use Rattle.std.specs.Prelude.{◌≡◌, ◌≤◌, [], Some, length};
ghost use Rattle.node_rules.specs.Node.{stepping};
ghost use Rattle.node_rules.specs.Plan as plan;
ghost use Rattle.node_rules.specs.Serve as rules;
ghost use Rattle.host_ports.specs.Links.{longest_datagram};
ghost use Rattle.node_engine.specs.Answered.{Does};
ghost use Rattle.node_engine.specs.Names.{name_if, names_of, waits_for_timer};

use crate::NodeFault;
use crate::ports::Ports;
use crate::state::Node;
use device_core::{Event, LiveEnd};
use host_ports::{Got, LONGEST_DATAGRAM};
use rdma_types::{Address, Answer, ExpiryIgnored, ObjName};
use std::alloc::Global;

/// Whether an expiry was not counted since the end waits for its RNR timer.
fn is_rnr(answer: &Answer) -> bool
    ensures { result ≡ waits_for_timer answer.now }
{
    match answer {
        Answer::NotCounted(ExpiryIgnored::Rnr) => true,
        _ => false,
    }
}

impl Node {
    /// A datagram arrives.
    fn arrive<P: Ports>(
        &mut self,
        alloc: Global,
        ports: &mut P,
        from: Address,
        bytes: &[u8],
    ) -> Result<(), NodeFault>
        ensures { Does (rules.arriving self.old (Some (from, bytes.now))) (λ done. self.new)
            (P.contents ports.old) result (P.contents ports.new) }
    {
        let number = self.receiver(bytes);
        let outcome = self.step_arrival(alloc, ports, from, bytes)?;
        self.count_taken();
        self.mark(number, &outcome)?;
        self.give_back(outcome.sent);
        Ok(())
    }

    /// The link is asked once for a datagram. `buffer` has room for the longest.
    fn take<P: Ports>(
        &mut self,
        alloc: Global,
        ports: &mut P,
        buffer: &mut [u8],
    ) -> Result<(), NodeFault>
        requires { longest_datagram ≤ length buffer.old }
        ensures { Does (rules.taking self.old) (λ done. self.new) (P.contents ports.old) result
            (P.contents ports.new) }
    {
        self.begin_turn();
        let got = ports.take(buffer)?;
        match got {
            Got::Nothing => Ok(()),
            Got::Datagram { from, length } => {
                let datagram = &buffer[..length];
                self.arrive(alloc, ports, from, datagram)
            }
        }
    }

    /// One end may send once.
    fn transmit_named<P: Ports>(
        &mut self,
        alloc: Global,
        ports: &mut P,
        end: &ObjName,
    ) -> Result<(), NodeFault>
        ensures { Does (rules.transmitting_one end.now self.old) (λ done. self.new)
            (P.contents ports.old) result (P.contents ports.new) }
    {
        let number = self.number_of(end);
        let outcome = self.step(alloc, ports, &Event::Transmit { end: *end })?;
        self.mark(Some(number), &outcome)?;
        self.give_back(outcome.sent);
        Ok(())
    }

    /// One end may send once, where it is connected.
    fn transmit<P: Ports>(
        &mut self,
        alloc: Global,
        ports: &mut P,
        end: &LiveEnd,
    ) -> Result<(), NodeFault>
        ensures { Does (rules.transmitting (name_if end.now.name end.now.link []) self.old)
            (λ done. self.new) (P.contents ports.old) result (P.contents ports.new) }
    {
        match end.link {
            None => Ok(()),
            Some(_) => self.transmit_named(alloc, ports, &end.name),
        }
    }

    /// Each connected end may send once.
    fn transmit_all<P: Ports>(
        &mut self,
        alloc: Global,
        ports: &mut P,
        live: &[LiveEnd],
    ) -> Result<(), NodeFault>
        ensures { Does (rules.transmitting (names_of live.now) self.old) (λ done. self.new)
            (P.contents ports.old) result (P.contents ports.new) }
    {
        for end in live {
            self.transmit(alloc, ports, end)?;
        }
        Ok(())
    }

    /// The RNR timer of an end is over.
    fn end_wait<P: Ports>(
        &mut self,
        alloc: Global,
        ports: &mut P,
        end: &ObjName,
    ) -> Result<(), NodeFault>
        ensures { Does (λ more. stepping self.old (Event.RnrOver end.now) (λ n x. more n))
            (λ done. self.new) (P.contents ports.old) result (P.contents ports.new) }
    {
        let _outcome = self.step(alloc, ports, &Event::RnrOver { end: *end })?;
        Ok(())
    }

    /// The RNR timer is over, where the expiry was not counted for it.
    fn wait_out<P: Ports>(
        &mut self,
        alloc: Global,
        ports: &mut P,
        end: &ObjName,
        answer: &Answer,
    ) -> Result<(), NodeFault>
        ensures { Does (rules.waiting_out answer.now end.now self.old) (λ done. self.new)
            (P.contents ports.old) result (P.contents ports.new) }
    {
        if is_rnr(answer) {
            self.end_wait(alloc, ports, end)
        } else {
            Ok(())
        }
    }

    /// One end expires.
    fn expire_now<P: Ports>(
        &mut self,
        alloc: Global,
        ports: &mut P,
        end: &ObjName,
    ) -> Result<(), NodeFault>
        ensures { Does (rules.expiring_one end.now self.old) (λ done. self.new)
            (P.contents ports.old) result (P.contents ports.new) }
    {
        let outcome = self.step(alloc, ports, &Event::Expire { end: *end })?;
        self.wait_out(alloc, ports, end, &outcome.answer)
    }

    /// One end expires, where it is due.
    fn expire_named<P: Ports>(
        &mut self,
        alloc: Global,
        ports: &mut P,
        now: u64,
        end: &ObjName,
    ) -> Result<(), NodeFault>
        ensures { Does (rules.expiring_if (rules.is_due self.old now end.now) end.now self.old)
            (λ done. self.new) (P.contents ports.old) result (P.contents ports.new) }
    {
        if self.is_due(now, end) {
            self.expire_now(alloc, ports, end)
        } else {
            Ok(())
        }
    }

    /// One end expires, where it is connected and due.
    fn expire<P: Ports>(
        &mut self,
        alloc: Global,
        ports: &mut P,
        now: u64,
        end: &LiveEnd,
    ) -> Result<(), NodeFault>
        ensures { Does (rules.expiring now (name_if end.now.name end.now.link []) self.old)
            (λ done. self.new) (P.contents ports.old) result (P.contents ports.new) }
    {
        match end.link {
            None => Ok(()),
            Some(_) => self.expire_named(alloc, ports, now, &end.name),
        }
    }

    /// Each connected end that is due expires.
    fn expire_all<P: Ports>(
        &mut self,
        alloc: Global,
        ports: &mut P,
        now: u64,
        live: &[LiveEnd],
    ) -> Result<(), NodeFault>
        ensures { Does (rules.expiring now (names_of live.now) self.old) (λ done. self.new)
            (P.contents ports.old) result (P.contents ports.new) }
    {
        for end in live {
            self.expire(alloc, ports, now, end)?;
        }
        Ok(())
    }

    /// The clock is asked once, and each connected end that is due expires.
    fn time<P: Ports>(
        &mut self,
        alloc: Global,
        ports: &mut P,
        live: &[LiveEnd],
    ) -> Result<(), NodeFault>
        ensures { Does (λ more. plan.Asks (λ now. rules.expiring now (names_of live.now)
            (rules.asked self.old now) more)) (λ done. self.new) (P.contents ports.old) result
            (P.contents ports.new) }
    {
        let now = ports.now();
        self.ask(now)?;
        self.expire_all(alloc, ports, now, live)
    }

    /// One turn. `buffer` has room for the longest datagram, and `live` is room for the list of ends: once that is long enough,
    /// a turn takes memory only for what the device's step takes. The memory of datagrams that it sent goes back to the device.
    fn turn<P: Ports>(
        &mut self,
        alloc: Global,
        ports: &mut P,
        buffer: &mut [u8],
        live: &mut Vec<LiveEnd>,
    ) -> Result<(), NodeFault>
        requires { longest_datagram ≤ length buffer.old }
        ensures { Does (rules.turn self.old) (λ done. self.new) (P.contents ports.old) result
            (P.contents ports.new) }
    {
        self.take(alloc, ports, buffer)?;
        self.list_ends(live)?;
        self.transmit_all(alloc, ports, live.as_slice())?;
        self.list_ends(live)?;
        self.time(alloc, ports, live.as_slice())
    }

    /// That many turns.
    pub(crate) fn serve<P: Ports>(
        &mut self,
        alloc: Global,
        ports: &mut P,
        turns: u32,
    ) -> Result<(), NodeFault>
        ensures { Does (rules.turns turns (rules.serving self.old)) (λ done. self.new)
            (P.contents ports.old) result (P.contents ports.new) }
    {
        let mut buffer = [0; LONGEST_DATAGRAM];
        let mut live = Vec::new(alloc);
        self.begin_serving();
        for _ in 0..turns {
            self.turn(alloc, ports, &mut buffer, &mut live)?;
        }
        Ok(())
    }
}
