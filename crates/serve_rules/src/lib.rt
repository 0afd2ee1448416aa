//! A served device: the lines that drive it, its state and timers, its turns, what lines do and answer, and what is told of
//! contexts that leave and come (this project's choice).
//!
//! The definitions are the rules that `serve_engine` keeps. Functions read a line, keep the timers of a queue pair, count, and tell
//! when a line that waits is over; those of laws do nothing, and promise the law that they name.
#![tactic(auto)]

mod laws;
mod lines;
mod reading;
mod replies;
mod tallies;
mod timers;
mod waiting;

pub use laws::{a_timer_runs_until_progress_or_expiry, a_turn_is_a_list_of_events};
pub use lines::{Goal, ServeLine};
pub use reading::parse_serve_line;
pub use replies::Reply;
pub use tallies::Tallies;
pub use timers::{Due, Timer};
pub use waiting::{Pending, until_reply, when_over};
