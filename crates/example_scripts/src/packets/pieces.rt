//! Messages cut into packets, at MTU 256.

ghost use Rattle.std.specs.Prelude.{◌≡◌, ◌||◌, [], ◌∷◌, None, Some, length, map};
ghost use Rattle.rdma_types.specs.declared.requests.Kind.TheVariants.{CompareSwap, FetchAdd, Read, Send, Write};
ghost use Rattle.rdma_types.specs.Spans.{piece_length, pieces, span_of};
ghost use Rattle.protocol.specs.Segments.{is_eighth, packet_of_piece};
ghost use Rattle.transport.specs.Heads.{asks_by_place};
ghost use Rattle.example_scripts.specs.Posted.{asking, asks, posted};

/// One piece for each MTU begun, and one where there are no bytes.
pub fn messages_are_cut_at_the_mtu()
    ensures pieces { map (λ size. pieces size 256) (0 ∷ 1 ∷ 256 ∷ 257 ∷ 300 ∷ 1048576 ∷ [])
        ≡ 1 ∷ 1 ∷ 1 ∷ 2 ∷ 2 ∷ 4096 ∷ [] }
    ensures first { piece_length 300 0 256 ≡ 256 }
    ensures second { piece_length 300 1 256 ≡ 44 }
{}

/// The first piece of a WRITE has the RETH of the whole message.
pub fn a_write_of_two_pieces()
    ensures span { span_of (posted Write 300 None) 256 ≡ 2 }
    ensures first { (packet_of_piece (posted Write 300 None) 256 0 1 8).opcode ≡ 6 }
    ensures reth { (packet_of_piece (posted Write 300 None) 256 0 1 8).reth
        ≡ Some (record { address = 65536; rkey = 7; length = 300 }) }
    ensures payload { length (packet_of_piece (posted Write 300 None) 256 0 1 8).payload ≡ 256 }
    ensures last { (packet_of_piece (posted Write 300 None) 256 1 1 9).opcode ≡ 8 }
    ensures rest { length (packet_of_piece (posted Write 300 None) 256 1 1 9).payload ≡ 44 }
{}

/// The last piece of a SEND has its immediate.
pub fn an_immediate_comes_last()
    ensures span { span_of (posted Send 300 (Some 9)) 256 ≡ 2 }
    ensures first { (packet_of_piece (posted Send 300 (Some 9)) 256 0 1 8).opcode ≡ 0 }
    ensures none { (packet_of_piece (posted Send 300 (Some 9)) 256 0 1 8).imm ≡ None }
    ensures last { (packet_of_piece (posted Send 300 (Some 9)) 256 1 1 9).opcode ≡ 3 }
    ensures imm { (packet_of_piece (posted Send 300 (Some 9)) 256 1 1 9).imm ≡ Some 9 }
{}

/// Opcodes at wire numbers.
pub fn a_first_and_a_middle_ask_at_each_eighth_number()
    ensures { map (λ c. asks_by_place c.0 || is_eighth c.1) asking ≡ asks }
{}

/// A READ request of the second piece on.
pub fn a_repeated_read_asks_for_the_rest()
    ensures span { span_of (posted Read 600 None) 256 ≡ 3 }
    ensures opcode { (packet_of_piece (posted Read 600 None) 256 1 1 9).opcode ≡ 12 }
    ensures reth { (packet_of_piece (posted Read 600 None) 256 1 1 9).reth
        ≡ Some (record { address = 65792; rkey = 7; length = 344 }) }
    ensures payload { (packet_of_piece (posted Read 600 None) 256 1 1 9).payload ≡ [] }
{}

/// An atomic is one packet.
pub fn an_atomic_takes_one_number()
    ensures swap_span { span_of (posted CompareSwap 8 None) 256 ≡ 1 }
    ensures swap { (packet_of_piece (posted CompareSwap 8 None) 256 0 1 8).opcode ≡ 19 }
    ensures add_span { span_of (posted FetchAdd 8 None) 256 ≡ 1 }
    ensures add { (packet_of_piece (posted FetchAdd 8 None) 256 0 1 8).opcode ≡ 20 }
{}
