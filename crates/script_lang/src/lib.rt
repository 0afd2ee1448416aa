//! The script language: what a line of a script says, what a line of a node's script says, and how an answer is printed
//! (this project's choice).
//!
//! [`Lines`] cuts a script into lines: it drops the newlines, and a carriage return right before one. So a line comes to
//! [`parse_line`] without its end. A carriage return that stays is a byte outside 32 to 126 as any other.
#![tactic(auto)]

mod fields;
mod forms;
mod laws;
mod lines;
mod node;
mod print;
mod reading;
mod script;
mod texts;
mod verbs;
mod words;

pub use forms::{VerbForm, verb_form_of};
pub use laws::{a_number_is_spelled_in_one_way, what_is_printed_reads_back};
pub use lines::{Line, LineFault, LineWhy, NodeLine, Offence};
pub use node::parse_node_line;
pub use print::{answers_are_whole_lines, each_has_a_word_of_its_own, print_answer};
pub use reading::{check_bytes, parse_line, read_line};
pub use script::Lines;
pub use verbs::read_verb;
pub use words::{Word, Words};
