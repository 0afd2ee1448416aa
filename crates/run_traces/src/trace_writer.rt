//! The lines of a trace as they are written (this project's choice). Each call puts whole lines after what is there.

mod answers;
mod bytes;
mod steps;
mod verbs;

pub use answers::put_answer;
pub use steps::put_step;
pub use verbs::put_verb;
