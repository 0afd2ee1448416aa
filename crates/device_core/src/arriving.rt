//! What arriving bytes do.

ghost use Rattle.std.specs.Prelude.{ℕ, ◌≡◌, ◌⊎◌, ◌<◌, ◌≤◌, ◌^◌, ◌∷◌, [], true, Some, None, IfOk, IfSome, IfNone, IsOk, OnErr, OnOk, List, length, slice_get};
ghost use Rattle.protocol.specs.Bytes.{number_at};
ghost use Rattle.protocol.specs.DeviceStep.{at_husk, device_step, found_in, husk_entries};
ghost use Rattle.protocol.specs.Moves.{nak_stopped};
ghost use Rattle.protocol.specs.State.{HuskEntry as Entry};
ghost use Rattle.protocol.specs.Wire.{Fits, is_control as is_control_packet, is_nak_stopped, packet_of, wire_of};
ghost use Rattle.roce_headers.specs.Packets.{packet};
ghost use Rattle.device_core.specs.Done.{IsDone, arrived, silent_arrival, taking, told_arrival, told_effect as effect_told, told_memory, told_taken as taken_told};
ghost use Rattle.device_core.specs.Finding.{IsFound};
ghost use Rattle.device_core.specs.Index.{IsEndAt, IsEntryAt, husk_at};
ghost use Rattle.device_core.specs.Parts.{entry_of};
ghost use Rattle.device_core.specs.Readings.{DoNothing};

use crate::Device;
use crate::finding::FoundEnd;
use crate::husks::HuskEntry;
use crate::index::EndLocation;
use context_core::{ArrivalOutcome, Draft};
use protocol::{Aeth, Event, Syndrome};
use rdma_types::{Address, ArrivalEffect, DropReason, Items, Sent};
use roce_headers::opcodes::ACKNOWLEDGE;
use roce_headers::{Datagram, decode, encode, encoded_len};
use std::alloc::{AllocError, Global};

/// The NAK code of NAK_STOPPED (this project's choice).
const STOPPED: u8 = 5;

/// A datagram without effect.
fn silent(alloc: Global, why: DropReason) -> ArrivalOutcome
    ensures { result ≡ silent_arrival why }
{
    ArrivalOutcome {
        took: ArrivalEffect::Silent(why),
        sent: Items::new(Vec::new(alloc)),
    }
}

/// What is told where an end may have taken a datagram.
fn told_taken(
    alloc: Global,
    taken: Result<Option<ArrivalOutcome>, AllocError>,
) -> Result<ArrivalOutcome, AllocError>
    requires { IfOk taken (λ r. IfSome r (λ t. length t.sent ≤ 2 ^ 32)) }
    ensures told { result ≡ taken_told taken }
    ensures bounded { IfOk result (λ t. length t.sent ≤ 2 ^ 32) }
    ensures never_out_of_memory { IsOk taken → IsOk result }
{
    match taken {
        Ok(Some(arrived)) => Ok(arrived),
        Ok(None) => Ok(silent(alloc, DropReason::Unknown)),
        Err(fault) => Err(fault),
    }
}

/// What a datagram did where an end may have taken it.
#[inline(always)]
fn told_effect(
    taken: Result<Option<ArrivalEffect>, AllocError>,
) -> Result<ArrivalEffect, AllocError>
    ensures { result ≡ effect_told taken }
{
    match taken {
        Ok(Some(took)) => Ok(took),
        Ok(None) => Ok(ArrivalEffect::Silent(DropReason::Unknown)),
        Err(fault) => Err(fault),
    }
}

/// The answer of a husk: the arrived packet sequence number, and the move count in the MSN field.
fn stopped_datagram(entry: &HuskEntry, psn: u32) -> Datagram<'static>
    requires peer { entry.now.peer < 2 ^ 24 }
    requires moves { entry.now.moves < 2 ^ 16 }
    requires psn { psn < 2 ^ 24 }
    ensures says { packet result ≡ nak_stopped (entry_of entry.now) psn }
    ensures fits { Fits (packet result) }
{
    Datagram {
        opcode: ACKNOWLEDGE,
        dest: entry.peer,
        ack_request: false,
        psn,
        reth: None,
        imm: None,
        aeth: Some(Aeth {
            syndrome: Syndrome::Nak(STOPPED),
            msn: u32::from(entry.moves),
        }),
        atomic: None,
        old: None,
        resume: None,
        payload: &[],
    }
}

/// Whether a datagram is NAK_STOPPED, RESUME or RESUME_ACK.
#[tactic(auto, unfolding(protocol::specs::Wire::is_control, protocol::specs::Wire::is_nak_stopped))]
fn is_control(d: &Datagram<'_>) -> bool
    ensures { result ≡ is_control_packet (packet d.now) }
{
    d.resume.is_some() || is_stopped(d.aeth)
}

/// Whether there is a NAK of code 5.
#[tactic(auto, unfolding(protocol::specs::Wire::is_nak_stopped))]
fn is_stopped(aeth: Option<Aeth>) -> bool
    ensures { result ≡ is_nak_stopped aeth }
{
    match aeth {
        None => false,
        Some(aeth) => match aeth.syndrome {
            Syndrome::Ack | Syndrome::Rnr => false,
            Syndrome::Nak(code) => code == STOPPED,
        },
    }
}

/// One datagram without a true number, in memory of its own.
fn sent_to(alloc: Global, to: Address, datagram: &Datagram<'_>) -> Result<Items<Sent>, AllocError>
    requires { Fits (packet datagram.now) }
    ensures { IfOk result (λ l. l
        ≡ record { to = to; number = None; bytes = wire_of (packet datagram.now) } ∷ []) }
{
    let mut bytes = vec![in alloc; 0u8; encoded_len(datagram)]?;
    encode(datagram, &mut bytes);
    let sent = Sent {
        to,
        number: None,
        bytes: Items::new(bytes),
    };
    Ok(Items::new(vec![in alloc; sent]?))
}

impl Device {
    /// Where a queue pair number lives, or in which husk it is left.
    fn location_of(&self, number: u32) -> Option<EndLocation>
        ensures nowhere { IfNone result ((found_in number self.now.contexts ≡ [])
            × (husk_entries number self.now.husks ≡ [])) }
        ensures there { IfSome result (λ s. IsEndAt self.now s.context s.place number
            ⊎ IsEntryAt self.now s.context s.place number) }
    {
        let spot = self.index.get(&number)?;
        Some(EndLocation {
            context: spot.context,
            place: spot.place,
        })
    }

    /// The entry of a husk.
    fn entry_at(&self, spot: &EndLocation) -> HuskEntry
        requires { (number : ℕ) × IsEntryAt self.now spot.now.context spot.now.place number }
        ensures entry { slice_get (husk_at self.now spot.now.context).entries spot.now.place
            ≡ Some (entry_of result) }
        ensures peer { result.peer < 2 ^ 24 }
    {
        let entries = self.husks.get(&spot.context).unwrap();
        let entry = &entries.as_slice()[spot.place];
        HuskEntry {
            number: entry.number,
            peer: entry.peer,
            moves: entry.moves,
        }
    }

    /// The answer of a husk goes to where the datagram came from; a message of moving has none.
    #[tactic(auto, unfolding(protocol::specs::Wire::is_control))]
    fn answer_stopped(
        &self,
        alloc: Global,
        from: Address,
        d: &Datagram<'_>,
        spot: &EndLocation,
    ) -> Result<ArrivalOutcome, AllocError>
        requires entry { IsEntryAt self.now spot.now.context spot.now.place d.now.dest }
        requires psn { d.now.psn < 2 ^ 24 }
        ensures bounded { IfOk result (λ t. length t.sent ≤ 2 ^ 32) }
        ensures done { IfOk result (λ t. (h : Entry)
            → slice_get (husk_at self.now spot.now.context).entries spot.now.place ≡ Some h
            → at_husk self.now from (packet d.now) (h ∷ [])
            ≡ record { device = self.now; outcome = taking t }) }
        ensures never_out_of_memory { is_control_packet (packet d.now) ≡ true → IsOk result }
    {
        if is_control(d) {
            return Ok(silent(alloc, DropReason::Unknown));
        }
        let entry = self.entry_at(spot);
        let datagram = stopped_datagram(&entry, d.psn);
        let sent = sent_to(alloc, from, &datagram)?;
        Ok(ArrivalOutcome {
            took: ArrivalEffect::Stopped,
            sent,
        })
    }

    /// The answer to a datagram whose number no connected queue pair has: that of the husk in which the number is left.
    fn answer_absent(
        &self,
        alloc: Global,
        from: Address,
        d: &Datagram<'_>,
    ) -> Result<ArrivalOutcome, AllocError>
        requires absent { found_in d.now.dest self.now.contexts ≡ [] }
        requires psn { d.now.psn < 2 ^ 24 }
        ensures done { (bytes : List ℕ) → packet_of bytes ≡ Some (packet d.now)
            → IsDone self.now (Event.Arrive from bytes) self.now
            (told_memory (told_arrival result)) }
        ensures bounded { IfOk result (λ t. length t.sent ≤ 2 ^ 32) }
        ensures never_out_of_memory { DoNothing self.now (Some (packet d.now)) → IsOk result }
    {
        let Some(spot) = self.location_of(d.dest) else {
            return Ok(silent(alloc, DropReason::Unknown));
        };
        if self.contexts.contains_key(&spot.context) {
            return Ok(silent(alloc, DropReason::Unknown));
        }
        self.answer_stopped(alloc, from, d, &spot)
    }

    /// Bytes arrive from an address, and the connected queue pair that they are for was found.
    pub(crate) fn take_bytes(
        &mut self,
        alloc: Global,
        from: Address,
        bytes: &[u8],
        found: Option<FoundEnd>,
    ) -> Result<ArrivalOutcome, AllocError>
        requires { IsFound self.old (number_at 5 3 bytes.now) found }
        ensures done { IsDone self.old (Event.Arrive from bytes.now) self.new
            (told_memory (told_arrival result)) }
        ensures bounded { IfOk result (λ t. length t.sent ≤ 2 ^ 32) }
        ensures never_out_of_memory { DoNothing self.old (packet_of bytes.now) → IsOk result }
    {
        let Ok(d) = decode(bytes) else {
            return Ok(silent(alloc, DropReason::Malformed));
        };
        let Some(end) = found else {
            return self.answer_absent(alloc, from, &d);
        };
        let state = &mut self.contexts[end.context];
        let (draft, pool) = (&mut self.draft, &mut self.pool);
        let taken = state.take(alloc, draft, pool, end.place, &d);
        told_taken(alloc, taken)
    }

    /// .. and what answers them is in the draft.
    #[inline(always)]
    pub(crate) fn take_bytes_into(
        &mut self,
        alloc: Global,
        draft: &mut Draft,
        from: Address,
        bytes: &[u8],
        found: Option<FoundEnd>,
    ) -> Result<ArrivalEffect, AllocError>
        requires { IsFound self.old (number_at 5 3 bytes.now) found }
        ensures done { IfOk result (λ took. device_step self.old (Event.Arrive from bytes.now)
            ≡ record { device = self.new; outcome = arrived took draft.new }) }
        ensures bounded { OnOk result (length draft.new ≤ 2 ^ 32) }
        ensures never_out_of_memory { DoNothing self.old (packet_of bytes.now) → IsOk result }
        ensures err { OnErr result (self.new ≡ self.old) }
    {
        let Ok(d) = decode(bytes) else {
            draft.clear();
            return Ok(ArrivalEffect::Silent(DropReason::Malformed));
        };
        let Some(end) = found else {
            return self.tell_absent(alloc, draft, from, &d);
        };
        let state = &mut self.contexts[end.context];
        let taken = state.take_into(alloc, draft, &mut self.pool, end.place, &d);
        told_effect(taken)
    }

    /// The answer to a datagram whose number no connected queue pair has is in the draft.
    fn tell_absent(
        &self,
        alloc: Global,
        draft: &mut Draft,
        from: Address,
        d: &Datagram<'_>,
    ) -> Result<ArrivalEffect, AllocError>
        requires absent { found_in d.now.dest self.now.contexts ≡ [] }
        requires psn { d.now.psn < 2 ^ 24 }
        ensures done { (bytes : List ℕ) → packet_of bytes ≡ Some (packet d.now)
            → IfOk result (λ took. device_step self.now (Event.Arrive from bytes)
            ≡ record { device = self.now; outcome = arrived took draft.new }) }
        ensures bounded { OnOk result (length draft.new ≤ 2 ^ 32) }
        ensures never_out_of_memory { DoNothing self.now (Some (packet d.now)) → IsOk result }
    {
        let outcome = self.answer_absent(alloc, from, d)?;
        draft.put_all(outcome.sent);
        Ok(outcome.took)
    }
}
