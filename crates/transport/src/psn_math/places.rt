//! Where packets stand in the order of their numbers.

/// Where a packet stands in the order that its receiver expects.
#[derive(Clone, Copy, Debug, PartialEq, Eq)]
pub enum PsnOrder {
    /// It was executed.
    Before,
    /// It is the next to execute.
    Expected,
    /// Packets before it are missing.
    Ahead,
}
