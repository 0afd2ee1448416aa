//! Bytes that arrive at a device change only what was granted.

ghost use Rattle.std.specs.Prelude.{ℕ, List, All};
ghost use Rattle.rdma_types.specs.declared.requests.Address.{Address};
ghost use Rattle.protocol.specs.declared.events.Event.{Event};
ghost use Rattle.protocol.specs.declared.events.Event.TheVariants as event;
ghost use Rattle.protocol.specs.DeviceStep.{device_step};
ghost use Rattle.protocol.specs.Replay.{replay};
ghost use Rattle.protocol.specs.State.{Device};
ghost use Rattle.law_devices.specs.Sound.{IsSoundDevice};
ghost use Rattle.law_arrivals.specs.Reach.{Reaches};
ghost use Rattle.law_arrivals.specs.Touched.{ChangesOnly, HasDistinctContexts, is_touched};
ghost use Rattle.law_arrivals.specs.Turns.{IsOfTurn, is_touched_by_event, is_touched_in};

/// Whatever bytes arrive at a sound device, from wherever, they change no byte of memory but those that a connected end
/// let them change: the range granted to the remote key that the datagram names, the range of the WRITE in progress, the
/// receive in use or the oldest unused one, and the local places of untold Reads and atomics of that end. Regions, keys,
/// rights, names and numbers stay.
pub fn arrivals_change_what_they_may()
    ensures { (d : Device) (from : Address) (bytes : List ℕ) → IsSoundDevice d → HasDistinctContexts d
        → ChangesOnly (is_touched d bytes) d (device_step d (event.Arrive from bytes)).device }
{}

/// How far the same bytes reach: bytes that are no datagram, and a datagram for no end here, change nothing of the device. Any other
/// datagram changes nothing but the connected end that it names, its two completion queues, and bytes that it lets a packet of that kind
/// change: a SEND those of its receive, a WRITE those that its key grants or the rest of the WRITE in progress, an atomic the word that
/// its key grants, a response the local places of untold READs and atomics; a READ request and a message of moving no byte. A request
/// other than the expected one, and a response to none of the numbers that were sent and are not acknowledged, change nothing but a
/// note that the end has answered with a NAK of a sequence error.
pub fn arrivals_reach_one_end()
    ensures { (d : Device) (from : Address) (bytes : List ℕ) → IsSoundDevice d → HasDistinctContexts d
        → Reaches bytes d (device_step d (event.Arrive from bytes)).device }
{}

/// Of the events of network and time only arrivals change memory: a transmission, an expiry and the end of an RNR timer
/// change none. So whatever arrives in a run of such events, only those bytes change that its arrivals may change, each on
/// the device as it stood then.
pub fn turns_change_what_arrivals_may()
    ensures event { (d : Device) (e : Event) → IsOfTurn e → IsSoundDevice d → HasDistinctContexts d
        → ChangesOnly (is_touched_by_event d e) d (device_step d e).device }
    ensures run { (d : Device) (es : List Event) → All IsOfTurn es → IsSoundDevice d → HasDistinctContexts d
        → ChangesOnly (is_touched_in d es) d (replay d es) }
{}
