//! Worked examples of whole scripts, of packets, datagrams, arrivals and lines, and of traces and records, evaluated by the prover.
//!
//! An example of a script is an equation of the text that is read and the text that is written for it.
//! The functions do nothing. Each promises the equations that it names, which the prover evaluates on the definitions.
#![tactic(auto)]

pub mod arrivals;
pub mod datagrams;
pub mod lines;
pub mod packets;
pub mod records;
mod sessions;
mod small;
pub mod traces;

pub use sessions::{
    atomic_not_aligned, dump_of_an_empty_context, fence_and_a_move, fenced_write_after_a_read,
    husk_answers_and_peer_pauses, immediate_and_a_read, lost_atomic_reply,
    lost_atomic_reply_and_a_move, lost_first_piece, move_inside_a_message, one_write_completed,
    one_write_on_the_wire, posted_bytes_stay, receive_too_short, receiver_not_ready_ends,
    receiver_not_ready_waits_and_settles, refusals_at_moves, refusals_of_verbs,
    remote_access_refused, resume_after_restore, retry_spent_after_eight, retry_spent_at_once,
    seventeen_devices, shared_queue_of_one_entry, stale_answer_of_the_husk, whole_range_is_checked,
    wrapped_numbers, zero_length_and_drop_in_use,
};
pub use small::{
    a_dumped_context, a_swap_and_a_wait, an_unknown_word, generated_lines_are_good,
    nothing_is_said, one_device, words_of_commands,
};
