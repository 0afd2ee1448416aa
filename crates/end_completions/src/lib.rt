//! What the work of an end leaves behind when it ends: completions in places that were reserved, pages that are free
//! again, and bytes in their places.
#![tactic(auto)]

mod completing;
mod failing;
mod landing;
mod telling;

pub use completing::{done, received};
pub use failing::{fail_one, flush_receives, flush_requests};
pub use landing::land;
pub use telling::tell;
