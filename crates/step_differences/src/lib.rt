//! Copies of images, and where two events or two outcomes of a device differ (this project's choice).
#![tactic(auto)]

mod copies;
mod events;
mod images;
mod lists;
mod outcomes;

pub use copies::copy_image;
pub use events::event_difference;
pub use images::same_image;
pub use lists::same_completions;
pub use outcomes::outcome_difference;
