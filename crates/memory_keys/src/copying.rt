//! Equal regions over memory of their own.

ghost use Rattle.std.specs.Prelude.{◌≡◌, IfOk};

use crate::{Regions, RegisteredRegion};
use indexmap::IndexMap;
use std::alloc::{AllocError, Global};

impl RegisteredRegion {
    /// The same region, for a copy of its pool.
    fn in_copied_pool(&self) -> RegisteredRegion
        ensures { result ≡ self.now }
    {
        RegisteredRegion {
            head: self.head,
            list: self.list.in_copied_pool(),
        }
    }
}

impl Regions {
    /// Equal regions, for a copy of their pool. Errors: `AllocError` when out of memory.
    pub fn copy(&self, alloc: Global) -> Result<Regions, AllocError>
        ensures { IfOk result (λ r. r ≡ self.now) }
    {
        let mut held = IndexMap::new(alloc);
        for i in 0..self.held.len() {
            let (key, region) = self.held.get_index(i).unwrap();
            held.insert(*key, region.in_copied_pool())?;
        }
        Ok(Regions {
            held,
            recent: self.recent,
        })
    }
}
