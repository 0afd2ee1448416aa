//! What the requester's answers are to an end, in the protocol's words.

ghost use Rattle.std.specs.Prelude.{◌≡◌, false, IsSome};
ghost use Rattle.page_pool.specs.Pool.{Pool};
ghost use Rattle.end_queues.specs.Untold.{untold_in};
ghost use Rattle.requester.specs.Sending.{Sending, numbers_of, sender_in, sender_of, sender_with};
ghost use Rattle.protocol.specs.Requester.{Sends, takes_response, told_count, transmission, transmitted};
ghost use Rattle.protocol.specs.State.{Context, End, Link, Running};
ghost use Rattle.protocol.specs.Wire.{Packet};
ghost use Rattle.rdma_types.specs.Spans.{Piece};
ghost use Rattle.requester.specs.Taking.{step_of, taken_response};
ghost use Rattle.requester.specs.Transmitting.{after_row, next_row};
ghost use Rattle.protocol.specs.EndWords.{with_sender};

/// What a response does to a connected end is the requester's answer to it: what lands, what is told, and where the end
/// fails. And what a Running end transmits is the requester's row.
pub fn answers_are_the_protocols_rows()
    ensures response { (c : Context) (e : End) (l : Link) (d : Packet) → (d.opcode ≡ 0x12 → IsSome d.old)
        → takes_response c e l d ≡ step_of c e l d (taken_response l.terms l.sender d) }
    ensures transmission { (l : Link) → l.ended ≡ false → l.moving.phase ≡ Running
        → transmission l ≡ next_row l.terms l.sender }
    ensures transmitted { (l : Link) (x : Piece)
        → transmitted l x ≡ with_sender l (after_row l.terms l.sender (Sends x)) }
{}

/// The rules look at requests and not at their bytes: whatever a pool holds, a response does the same at the sender with
/// those bytes, and as many requests are told.
pub fn rules_look_at_no_payload()
    ensures response { (pool : Pool) (v : Sending) (d : Packet)
        → taken_response v.terms (sender_in pool v) d
        ≡ record {
          taken = (taken_response v.terms (sender_of v) d).taken;
          sender = sender_with (untold_in pool v.items) (numbers_of (taken_response v.terms (sender_of v) d).sender);
        } }
    ensures told { (pool : Pool) (v : Sending)
        → told_count v.terms (sender_in pool v) ≡ told_count v.terms (sender_of v) }
{}
