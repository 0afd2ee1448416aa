//! Bytes that arrive at a device change only what was granted.
#![tactic(auto)]

mod laws;

pub use laws::{
    arrivals_change_what_they_may, arrivals_reach_one_end, turns_change_what_arrivals_may,
};
