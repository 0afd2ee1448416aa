//! The commands that run threads, `threads` and `fanout`: their words, their runs and their lines.

mod fan_line;
mod line;
mod running;
mod words;

pub use running::{run_fan_plan, run_plan};
pub use words::{fanout_of, threads_of};
