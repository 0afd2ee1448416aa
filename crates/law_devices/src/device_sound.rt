//! A device's contexts keep the rules of images, whatever lawful events happen to it.

mod laws;

pub use laws::{devices_stay_sound, images_keep_the_rules};
