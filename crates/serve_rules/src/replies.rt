//! What is answered to a line.

use rdma_types::{Answer, Items};
use script_lang::LineWhy;

/// What is answered to a line.
#[derive(Drop)]
pub enum Reply {
    /// Nothing: the line is blank, or waits.
    Nothing,
    /// What the device answered.
    Device(Answer),
    /// A context is stopped, and its dump is in the store.
    Stopped,
    /// A context lives here, and its dump is gone from the store.
    Restored,
    /// What is shown.
    Shown(Items<u8>),
    /// The line is in no form: the column, counted in bytes from 1, of its first word that is wrong, and why.
    BadLine { column: usize, why: LineWhy },
    /// No dump has the name.
    Missing,
    /// A dump has the name already.
    Taken,
    /// The store failed.
    Depot,
    /// The bytes under the name are no dump.
    BadDump,
    /// Memory ran out.
    Memory,
    /// The time of a `wait` is over.
    Waited,
    /// An end has come so far.
    Idle,
    Running,
    /// It is in Error.
    Error,
    /// It has not come so far in its time.
    Late,
    /// It does not live here.
    NoSuch,
}
