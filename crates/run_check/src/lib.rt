//! Runs of threads over shared devices: the check that books, order and receipts tell of one world order (this project's
//! choice).
#![tactic(auto)]

mod checks;
mod counts;
mod gathering;
mod journals;
mod run;
mod sent;
mod stops;

pub use gathering::gather;
pub use run::{Run, RunFault};
