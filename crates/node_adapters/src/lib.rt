//! What a process gives a run or a served device to speak to: its input and output, the files of a folder, UDP over IPv4, and
//! milliseconds.
//!
//! An adapter tells nothing of what comes and goes. Where its port has a count of faults, it counts them; those of a run keep what
//! the system said of the last one, for people.
#![tactic(auto)]

mod activity;
mod clock_ticks;
mod folder;
mod folder_depot;
mod folder_store;
mod line_buffer;
mod quick_link;
mod std_control;
mod std_streams;
mod tail;
mod udp_link;

pub use activity::Activity;
pub use clock_ticks::ClockTicks;
pub use folder_depot::FolderDepot;
pub use folder_store::FolderStore;
pub use quick_link::QuickLink;
pub use std_control::StdControl;
pub use std_streams::{StdSink, StdSource};
pub use udp_link::UdpLink;
