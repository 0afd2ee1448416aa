//! Tagged letters over connections that may move: the rules of each call, and what is claimed of any list of calls. The rules are
//! definitions over the written protocol; this crate has the plain types that they and the calls speak of.
#![tactic(auto)]

mod due;
mod faults;
mod letters;
mod plans;

pub use due::{Due, Fetch, Side};
pub use faults::MailFault;
pub use letters::{Arrival, Header, Letter};
pub use plans::MailPlan;
