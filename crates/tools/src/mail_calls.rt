//! The command `mail`: its words, its run and its line.

mod line;
mod running;
mod words;

pub use running::run_mail_plan;
pub use words::mail_of;
