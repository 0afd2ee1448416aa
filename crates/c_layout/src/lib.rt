//! What crosses between C and the device: structs with a fixed layout, numbers for variants, what C asks for as events of a
//! device, and what a device answers as structs. bindings/c/jichurpa.h declares the structs.
#![tactic(auto)]

pub mod asked;
pub mod buffers;
pub mod codes;
pub mod layout;
pub mod told;
