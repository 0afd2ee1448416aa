//! Sentences for people on how a run of the program ended: which word of a command line is wrong and what may stand there,
//! what the last line of a run means, and what the system said where a call failed.
//!
//! A sentence is made when the run has ended, from its words, its status and its last line. It says nothing that these do not
//! say, so no command knows of it.

mod ending;
mod examples;
mod forms;
mod meanings;
mod pieces;
mod shown;
mod telling;
mod usage;
mod wrong;

pub use ending::Ending;
pub use examples::{lines_are_explained, wrong_words_are_named};
pub use forms::{Form, Kind, Place};
pub use telling::sentence;
pub use wrong::{Wrong, wrong_of};
