//! Gates, which tests use to hold a worker.

/// Passed by each worker before each of its steps: before it takes the lock of a device for the first one, and while it holds
/// the lock before each further one. The mover and the caller have number 0.
pub trait Gate {
    fn pass(&self, worker: u32);
}

/// The gate that is always open.
#[derive(Clone, Copy, Drop)]
pub struct FreeGate;

impl Gate for FreeGate {
    fn pass(&self, _worker: u32) {}
}
