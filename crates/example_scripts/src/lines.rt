//! Worked examples of the script language: what lines say, and how answers are printed.
//!
//! The functions do nothing. Each promises the equations that it names, which the prover evaluates on the definitions.
//! `script_lang` promises that it reads and prints by these definitions, so the examples hold of its code; they stand
//! here, so that its proof is not made twice.

mod answers;
mod lines;

pub use answers::{
    answers_of_one_word, completions, dumps, expiries_that_do_not_count, numbers_keys_and_bytes,
    refusals, what_datagrams_did, what_settling_left, why_datagrams_did_nothing,
};
pub use lines::{
    a_script_is_cut_into_lines, blank_lines, contexts_are_moved, ends_are_stepped, long_lines,
    memory_and_completions_are_looked_at, nodes_move_contexts, nodes_name_bad_lines,
    nodes_step_their_ends, numbers_past_their_limits, reasons_of_bad_lines, requests_are_posted,
    things_are_made,
};
