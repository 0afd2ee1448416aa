//! What the responder's answers are to an end, and where they may change bytes.

ghost use Rattle.std.specs.Prelude.{ℕ, List, ◌≡◌, ◌≤◌, [], ◌∷◌, ◌++◌, All, Some, true, drop, nat_eq, map, slice_get};
ghost use Rattle.std.specs.List.{IsDistinct};
ghost use Rattle.page_pool.specs.Pool.{Pool};
ghost use Rattle.memory_keys.specs.declared.RegisteredRegion.{RegisteredRegion};
ghost use Rattle.memory_keys.specs.Regions.{AreHeld, AreKeyed, regions_of};
ghost use Rattle.protocol.specs.Responder.{takes_request};
ghost use Rattle.protocol.specs.State.{Context, End, Link, Receiver, fresh_receiver};
ghost use Rattle.protocol.specs.Wire.{Fits, Packet};
ghost use Rattle.rdma_types.specs.Limits.{most_bytes};
ghost use Rattle.rdma_types.specs.Memory.{LocalWrite, is_granted, local_key};
ghost use Rattle.rdma_types.specs.Objects.{Region};
ghost use Rattle.rdma_types.specs.declared.names.Name.{Name};
ghost use Rattle.rdma_types.specs.declared.requests.Receive.{Receive};
ghost use Rattle.rdma_types.specs.declared.requests.Terms.{Terms};
ghost use Rattle.protocol.specs.Changes.{KeepsRestAt};
ghost use Rattle.responder.specs.Receiving.{Receiving, idled};
ghost use Rattle.responder.specs.Sound.{IsPlace, IsSound};
ghost use Rattle.responder.specs.Steps.{step_of};
ghost use Rattle.responder.specs.Taken.{Leaves};
ghost use Rattle.responder.specs.Taking.{taken_request};

/// What a request does to a connected end is the responder's answer to it: what is stored, which receives are used and
/// completed, what is sent, and where the end fails. Local keys are those of one region each.
pub fn answers_are_the_protocols_rows()
    ensures { (c : Context) (e : End) (l : Link) (d : Packet) → IsDistinct nat_eq (map local_key c.regions)
        → takes_request c e l d ≡ step_of c e l (taken_request l.terms e.domain e.number l.receiver c.regions e.unused d) }
{}

/// What an answer leaves as it was: all, where a request is a repeat, not ready or silent; the expected number and the
/// count of finished messages, where it is refused or ahead.
pub fn answers_leave_the_rest()
    ensures { (terms : Terms) (domain : Name) (qp : ℕ) (r : Receiver) (regions : List Region) (unused : List Receive) (d : Packet) → Fits d
        → let t = taken_request terms domain qp r regions unused d in Leaves r regions unused t t.reply }
{}

/// Whatever request of the grammar arrives, a byte of a region changes only in the range that the packet is granted, in
/// the range of the message in progress, or in the receive in use or the oldest unused one.
pub fn requests_change_granted_bytes_alone()
    ensures { (pool : Pool) (held : List RegisteredRegion) (domain : Name) (qp : ℕ) (v : Receiving) (unused : List Receive) (d : Packet) (i : ℕ) (old : Region)
        → Fits d → AreHeld pool held → AreKeyed held → IsSound held domain v unused → slice_get (regions_of pool held) i ≡ Some old
        → KeepsRestAt domain v.receiver unused d (regions_of pool held) (taken_request v.terms domain qp v.receiver (regions_of pool held) unused d).regions i old }
{}

/// A responder stays sound, beside its end's receives and its context's regions, where it is made, where a receive is
/// posted or flushed, where its message is cut, and where a region is made. And a place that is granted over one pool of
/// pages is granted whatever bytes lie there.
pub fn soundness_stays()
    ensures fresh { (held : List RegisteredRegion) (domain : Name) (terms : Terms) (unused : List Receive) → All (IsPlace held domain) unused
        → IsSound held domain (record { terms = terms; receiver = fresh_receiver }) unused }
    ensures posted { (held : List RegisteredRegion) (domain : Name) (v : Receiving) (unused : List Receive) (r : Receive) → IsPlace held domain r
        → IsSound held domain v unused → IsSound held domain v (unused ++ r ∷ []) }
    ensures flushed { (held : List RegisteredRegion) (domain : Name) (v : Receiving) (unused : List Receive) (n : ℕ)
        → IsSound held domain v unused → IsSound held domain v (drop n unused) }
    ensures cut { (held : List RegisteredRegion) (domain : Name) (v : Receiving) (unused : List Receive)
        → IsSound held domain v unused → IsSound held domain (record v { receiver = idled v.receiver }) unused }
    ensures made { (held more : List RegisteredRegion) (domain : Name) (v : Receiving) (unused : List Receive)
        → IsSound held domain v unused → IsSound (held ++ more) domain v unused }
    ensures placed { (pool : Pool) (held : List RegisteredRegion) (domain : Name) (r : Receive) → r.length ≤ most_bytes
        → is_granted local_key (regions_of pool held) domain r.lkey r.local r.length LocalWrite ≡ true → IsPlace held domain r }
{}
