//! What the program does for all its words: `run_words`, which may wait, and which hands the words of the commands that wait
//! for nobody to `run_serial`.

mod tool;

pub use tool::run_words;
