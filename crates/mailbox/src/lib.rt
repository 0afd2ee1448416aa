//! Tagged letters over connections that may move. Senders post a letter as one Send, or store a long body for the receiver to fetch
//! by a READ; the receiver copies what arrived and gives letters by their tags.
#![tactic(auto)]

mod asking;
mod channels;
mod copying;
mod doing;
mod events;
mod headers;
mod mail;
mod making;
mod names;
mod network;
mod plans;
mod polling;
mod sending;
mod taking;
mod working;

pub use mail::Mailbox;
pub use mailbox_rules::{Letter, MailFault, MailPlan};
pub use plans::{MailSum, run_mail};
