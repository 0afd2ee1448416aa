//! A script is played in a world: its lines are read one after the other, and each is answered before the next one is done.
#![tactic(auto)]

mod actions;
mod answering;
mod fault;
mod playing;

pub use actions::{Action, action_of};
pub use fault::PlayFault;
pub use playing::{play, play_world};
