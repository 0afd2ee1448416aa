//! The device for C: handles of devices, of images of stopped contexts and of readers of dumps, and one exported function
//! for each thing that is done with them. bindings/c/jichurpa.h declares them.
#![tactic(auto)]

mod box_parts;
mod content;
mod ends;
mod exports;
mod handle;
mod images;
mod outbox;
mod pointer;
mod readers;
mod steps;
