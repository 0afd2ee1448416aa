//! The steps of the packetless machine that the law names at a datagram, as what the machine tells of its ends gives them.

mod learning;
mod requests;
mod responses;

pub use learning::{bytes_of, short_place};
pub use requests::request;
pub use responses::{acknowledge, land, land_old};
