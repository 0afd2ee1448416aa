//! The audit of a recorded run: whether the verbs of a trace, their answers and its inner steps are a run of the packetless
//! machine (this project's choice).
//!
//! A trace has a line for each verb, with the lines of its answer behind it, a line for each inner step, and a last line
//! `end`. An auditor trusts no device, no datagram and no dump: [`audit`] steps the machine alone.

mod answers;
mod auditing;
mod due;
mod forms;
mod laws;
mod lines;
mod reading;
mod run;
mod steps;
mod verdicts;

pub use auditing::audit;
pub use laws::audits_are_right;
pub use lines::TraceLine;
pub use reading::read_trace_line;
pub use verdicts::{AuditFault, AuditWhy, Verdict};
