//! Devices, contexts and connections of a world.

ghost use Rattle.std.specs.Prelude.{◌≡◌, ℕ, ◌≤◌, ◌<◌, ◌^◌, ◌||◌, length, slice_get, List, Some, None, is_some, true, IfOk, IsOk, IfErr, IfSome, OnErr, OnOk};
ghost use Rattle.rdma_types.specs.Causes.{Cause, first_cause};
ghost use Rattle.rdma_types.specs.Limits.{AreTerms};
ghost use Rattle.protocol.specs.Events.{IsHandedOn, IsLawfulEvent};
ghost use Rattle.protocol.specs.WorldStep as rules;
ghost use Rattle.world_core.specs.Kept.{IsReady, Makes};
ghost use Rattle.world_core.specs.Causes as causes;
ghost use Rattle.world_core.specs.Causes.{world_refusal};
ghost use Rattle.protocol.specs.declared.events.WorldEvent.TheVariants as world_event;
ghost use Rattle.device_core.specs.Readings.{TakesNoMemory};
ghost use Rattle.world_core.specs.Sites.{IsEndAddress, is_init_state, joined_at};
ghost use Rattle.world_core.specs.Places.{HaveOwnIds};
ghost use Rattle.protocol.specs.Refusals.{is_init};
ghost use Rattle.protocol.specs.declared.events.Event.TheVariants as event;
ghost use Rattle.protocol.specs.State as state;
ghost use Rattle.std.specs.List.{position};
ghost use Rattle.rdma_types.specs.Lists.{some};
ghost use Rattle.protocol.specs.Refusals.{has_context};

use crate::World;
use crate::index::put_place;
use device_core::{Device, Event};
use rdma_types::{Address, Answer, EndState, Name, ObjName, Refusal, Terms};
use std::alloc::{AllocError, Global};

/// As many devices may be in a world.
const MOST_DEVICES: usize = 16;

/// Where an end is that may be connected: the place and the address of its device, its number, and whether it is in Init.
#[derive(Clone, Copy)]
pub(crate) struct EndAddress {
    pub(crate) place: usize,
    pub(crate) address: Address,
    pub(crate) number: u32,
    pub(crate) is_init: bool,
}

/// Whether an end was never connected.
fn is_in_init(state: EndState) -> bool
    ensures { result ≡ is_init_state state }
{
    matches!(state, EndState::Init)
}

/// The terms as the partner has them.
fn exchanged(terms: &Terms) -> Terms
    ensures { result ≡ rules.exchanged terms.now }
{
    Terms {
        own_start: terms.peer_start,
        peer_start: terms.own_start,
        ..*terms
    }
}

/// The context that an event of a context is for.
fn context_of(event: &Event) -> Option<Name>
    ensures { IsHandedOn event.now → result ≡ Some (rules.context_of_event event.now) }
{
    match event {
        Event::MakeDomain { name } => Some(name.context),
        Event::MakeRegion { name, .. } => Some(name.context),
        Event::MakeCq { name, .. } => Some(name.context),
        Event::MakeQp { name, .. } => Some(name.context),
        Event::DropRegion { name } => Some(name.context),
        Event::Store { region, .. } => Some(region.context),
        Event::Load { region, .. } => Some(region.context),
        Event::PostSend { end, .. } => Some(end.context),
        Event::PostRecv { end, .. } => Some(end.context),
        Event::Poll { cq, .. } => Some(cq.context),
        Event::Transmit { end } => Some(end.context),
        Event::Expire { end } => Some(end.context),
        Event::RnrOver { end } => Some(end.context),
        _ => None,
    }
}

impl World {
    /// Whether a device has the id or the address.
    fn is_taken(&self, id: u8, address: Address) -> bool
        ensures { result ≡ (rules.has_device self.now id
            || some (λ d. rules.same_address d.address address) self.now.devices) }
    {
        self.place_of(id).is_some() || self.place_with(address).is_some()
    }

    /// Why a device is not added.
    fn device_refusal(&self, id: u8, address: Address) -> Option<Refusal>
        ensures { result ≡ first_cause (causes.device_causes self.now id address) }
    {
        if self.is_taken(id, address) {
            return Some(Refusal::NumberTaken);
        }
        if self.devices.len() >= MOST_DEVICES {
            return Some(Refusal::TooMany);
        }
        None
    }

    /// A device at the end of the list.
    pub(crate) fn add_device(
        &mut self,
        alloc: Global,
        id: u8,
        address: Address,
    ) -> Result<Answer, AllocError>
        requires id { 1 ≤ id }
        requires ready { IsReady self.old }
        ensures ok { IfOk result (λ answer. Makes
            (rules.adds_device self.old id address) answer self.new) }
        ensures refused_first { OnErr result (world_refusal self.old
            (world_event.AddDevice id address) ≡ None) }
        ensures err { OnErr result (self.new ≡ self.old) }
    {
        if let Some(refusal) = self.device_refusal(id, address) {
            return Ok(Answer::Refused(refusal));
        }
        self.devices.reserve(1)?;
        self.ids.reserve(1)?;
        self.ports.reserve(1)?;
        let device = Device::make(alloc, id, address)?;
        let place = self.devices.len();
        put_place(&mut self.ids, id, place);
        put_place(&mut self.ports, (address.ip, address.port), place);
        self.devices.push_reserved(device);
        Ok(Answer::Done)
    }

    /// A context on a device. Its name is made once and never free again.
    pub(crate) fn make_context(
        &mut self,
        alloc: Global,
        name: Name,
        device: u8,
    ) -> Result<Answer, AllocError>
        requires ready { IsReady self.old }
        ensures ok { IfOk result (λ answer. Makes
            (rules.makes_context self.old name device) answer self.new) }
        ensures refused_first { OnErr result (world_refusal self.old
            (world_event.MakeContext name device) ≡ None) }
        ensures err { OnErr result (self.new ≡ self.old) }
    {
        let Some(place) = self.place_of(device) else {
            return Ok(Answer::Refused(Refusal::NoSuch));
        };
        if self.is_known(name) {
            return Ok(Answer::Refused(Refusal::NumberTaken));
        }
        self.run_moving(alloc, place, &Event::MakeContext { name })
    }

    /// The place of the device where a context lives, or why there is none: nothing has the name, or it is carried.
    #[inline(always)]
    pub(crate) fn home(&self, name: Name) -> Result<usize, Refusal>
        ensures home { IfOk result (λ place. position (λ d. has_context d name) self.now.devices
            ≡ Some place) }
        ensures refusal { IfErr result (λ refusal. (more : List Cause)
            → first_cause (rules.context_causes self.now name more) ≡ Some refusal) }
    {
        match self.home_of(name) {
            Some(place) => Ok(place),
            None if self.is_carried(name) => Err(Refusal::Stopped),
            None => Err(Refusal::NoSuch),
        }
    }

    /// An event of the device where its context lives.
    pub(crate) fn step_at(&mut self, alloc: Global, event: &Event) -> Result<Answer, AllocError>
        requires handed { IsHandedOn event.now }
        requires lawful { IsLawfulEvent event.now }
        requires ready { IsReady self.old }
        ensures ok { IfOk result (λ answer. Makes
            (rules.steps_at self.old (rules.context_of_event event.now) event.now) answer
            self.new) }
        ensures never_out_of_memory { TakesNoMemory event.now → IsOk result }
        ensures refused_first { OnErr result (world_refusal self.old (world_event.At event.now)
            ≡ None) }
        ensures err { OnErr result (self.new ≡ self.old) }
    {
        if let Event::Transmit { end } = event {
            return self.transmit_at(alloc, end);
        }
        let name = context_of(event).unwrap();
        match self.home(name) {
            Ok(place) => self.run(alloc, place, event),
            Err(refusal) => Ok(Answer::Refused(refusal)),
        }
    }

    /// One transmission of an end on the device where its context lives.
    #[inline(always)]
    pub(crate) fn transmit_at(&mut self, alloc: Global, end: &ObjName) -> Result<Answer, AllocError>
        requires ready { IsReady self.old }
        ensures ok { IfOk result (λ answer. Makes
            (rules.steps_at self.old end.now.context (event.Transmit end.now)) answer self.new) }
        ensures refused_first { OnErr result (world_refusal self.old
            (world_event.At (event.Transmit end.now)) ≡ None) }
        ensures err { OnErr result (self.new ≡ self.old) }
    {
        match self.home(end.context) {
            Ok(place) => self.transmit_from(alloc, place, end),
            Err(refusal) => Ok(Answer::Refused(refusal)),
        }
    }

    /// Whether a context lives or is carried.
    fn is_known(&self, context: Name) -> bool
        ensures { result ≡ (rules.is_live self.now context || rules.is_carried self.now context) }
    {
        self.home_of(context).is_some() || self.is_carried(context)
    }

    /// The two ends of a connection to be, or why they are not connected.
    fn pair(&self, one: &ObjName, two: &ObjName) -> Result<(EndAddress, EndAddress), Refusal>
        ensures refusal { IfErr result (λ refusal. first_cause
            (rules.connect_causes self.now one.now two.now) ≡ Some refusal) }
        ensures free { OnOk result (first_cause (rules.connect_causes self.now one.now two.now)
            ≡ None) }
        ensures one { IfOk result (λ sites. IsEndAddress self.now one.now sites.0) }
        ensures two { IfOk result (λ sites. IsEndAddress self.now two.now sites.1) }
    {
        if !self.is_known(one.context) || !self.is_known(two.context) {
            return Err(Refusal::NoSuch);
        }
        let (Some(first), Some(second)) = (self.home_of(one.context), self.home_of(two.context))
        else {
            return Err(Refusal::Stopped);
        };
        let (Some(left), Some(right)) = (self.site(first, one), self.site(second, two)) else {
            return Err(Refusal::NoSuch);
        };
        if !left.is_init || !right.is_init || one.context == two.context {
            return Err(Refusal::BadState);
        }
        Ok((left, right))
    }

    /// Where a live end is, if it is there.
    fn site(&self, place: usize, end: &ObjName) -> Option<EndAddress>
        requires { position (λ d. has_context d end.now.context) self.now.devices ≡ Some place }
        ensures there { IfSome result (λ site. IsEndAddress self.now end.now site) }
        ensures none { is_some result ≡ rules.has_live_end self.now end.now }
        ensures init { IfSome result (λ site. site.is_init
            ≡ is_init (rules.end_of self.now end.now).link) }
    {
        let device = &self.devices[place];
        let view = device.end_named(end)?;
        Some(EndAddress {
            place,
            address: device.address(),
            number: view.number,
            is_init: is_in_init(view.state),
        })
    }

    /// The end at one site is connected to the one at another.
    fn connect_one(
        &mut self,
        alloc: Global,
        end: &ObjName,
        here: &EndAddress,
        there: &EndAddress,
        terms: &Terms,
    )
        requires here { here.now.place < length self.old.devices }
        requires there { there.now.number < 2 ^ 24 }
        requires terms { AreTerms terms.now }
        ensures ids { HaveOwnIds self.old.devices }
        ensures joined { (d : state.Device) → slice_get self.old.devices here.now.place ≡ Some d
            → self.new ≡ joined_at self.old here.now.place d
            (event.Connect end.now there.now.number there.now.address terms.now) }
    {
        let event = Event::Connect {
            end: *end,
            peer: there.number,
            partner: there.address,
            terms: *terms,
        };
        let _outcome = self.devices[here.place].step(alloc, &event).unwrap();
    }

    /// Both ends are connected; `two` gets the starts of the terms exchanged.
    pub(crate) fn connect(
        &mut self,
        alloc: Global,
        one: &ObjName,
        two: &ObjName,
        terms: &Terms,
    ) -> Answer
        requires terms { AreTerms terms.now }
        requires ready { IsReady self.old }
        ensures { Makes (rules.connects self.old one.now two.now terms.now) result self.new }
    {
        match self.pair(one, two) {
            Ok((first, second)) => {
                self.connect_one(alloc, one, &first, &second, terms);
                self.connect_one(alloc, two, &second, &first, &exchanged(terms));
                Answer::Done
            }
            Err(refusal) => Answer::Refused(refusal),
        }
    }
}
