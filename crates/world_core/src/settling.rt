//! What settles a world.

ghost use Rattle.std.specs.Prelude.{IfOk, OnErr};
ghost use Rattle.world_core.specs.Settled.{IsLeft, IsSettled};

use crate::World;
use rdma_types::{Items, ObjName, UnfinishedReason};
use std::alloc::{AllocError, Global};

/// A settled world: the rounds that it took, and each end with untold requests and the reason, live ends first.
#[derive(Drop)]
pub struct Quiet {
    pub rounds: u64,
    pub unfinished: Items<(ObjName, UnfinishedReason)>,
}

/// Settles worlds by the rules of settling.
pub trait Settler {
    /// Settles a world: rounds of draining, sending and timers until nothing changes.
    ///
    /// # Errors
    ///
    /// `AllocError` when out of memory; the world is then one that the first events of this settling lead to.
    fn settle(&self, alloc: Global, world: &mut World) -> Result<Quiet, AllocError>
        ensures settled { IfOk result (λ quiet. IsSettled world.old world.new quiet) }
        ensures left { OnErr result (IsLeft world.old world.new) };
}
