//! Worked examples of packets: their numbers, the pieces of messages, the replies that are kept and the messages of
//! moving, evaluated by the prover.
//!
//! The functions do nothing. Each promises the equations that it names, over the rules that `psn_math`, `segmenter`,
//! `atomic_replay` and `move_core` keep to. They stand here, so that the proofs of those are not made twice.

mod moves;
mod numbers;
mod pieces;
mod replies;

pub use moves::{
    a_resume_ack_with_the_own_count_lets_it_run, a_resume_with_a_greater_count_is_recorded,
    a_stop_pauses_at_the_recorded_count, other_resumes_change_nothing,
};
pub use numbers::{
    numbers_end_at_the_edges_of_the_half_range, numbers_start_at_the_last_wire_number,
};
pub use pieces::{
    a_first_and_a_middle_ask_at_each_eighth_number, a_repeated_read_asks_for_the_rest,
    a_write_of_two_pieces, an_atomic_takes_one_number, an_immediate_comes_last,
    messages_are_cut_at_the_mtu,
};
pub use replies::{
    few_replies_are_kept, sixteen_replies_are_kept, the_seventeenth_forgets_the_first,
};
