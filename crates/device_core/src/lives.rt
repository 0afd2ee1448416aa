//! What is told of live ends.

ghost use Rattle.std.specs.Prelude.{◌≡◌, ◌<◌, ◌^◌, ◌++◌, IfOk, IfSome};
ghost use Rattle.device_core.specs.Readings as readings;

use crate::Device;
use context_core::{LinkView, LiveEnd};
use rdma_types::ObjName;
use std::alloc::AllocError;

impl Device {
    /// Appends what is told of the live ends, in order of contexts and queue pairs. Errors: `AllocError` when out
    /// of memory.
    #[inline(always)]
    pub fn push_ends(&self, live: &mut Vec<LiveEnd>) -> Result<(), AllocError>
        ensures { IfOk result (λ _. live.new.items
            ≡ live.old.items ++ readings.live_ends self.now) }
    {
        for place in 0..self.contexts.len() {
            let (name, held) = self.contexts.get_index(place).unwrap();
            held.push_ends(*name, live)?;
        }
        Ok(())
    }

    /// The connection of the end that a word names; None where it is in Init or does not live here.
    pub fn link_named(&self, end: &ObjName) -> Option<LinkView>
        ensures link { result ≡ readings.link_named self.now end.now }
        ensures bounded { IfSome result (λ link. link.last < 2 ^ 62) }
    {
        match self.contexts.get(&end.context) {
            None => None,
            Some(held) => held.link_named(end.name),
        }
    }
}
