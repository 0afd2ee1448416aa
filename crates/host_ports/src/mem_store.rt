//! A store in memory.

ghost use Rattle.std.specs.Prelude.{None};

use crate::{Store, StoreFault};
use indexmap::IndexMap;
use rdma_types::{Items, Name};
use std::alloc::{AllocError, Global};

/// Dumps in memory under names, where chosen calls fail. Contracts are told nothing of what it holds.
#[derive(Drop)]
pub struct MemStore {
    dumps: IndexMap<Name, Items<u8>>,
    claims: Vec<(Name, Items<u8>)>,
    fails: Vec<u64>,
    calls: u64,
}

impl MemStore {
    /// A store that holds these dumps. The calls with the numbers in `fails`, counted from 1, fail.
    pub fn make(alloc: Global, dumps: IndexMap<Name, Items<u8>>, fails: Vec<u64>) -> MemStore {
        MemStore {
            dumps,
            claims: Vec::new(alloc),
            fails,
            calls: 0,
        }
    }

    /// The bytes under a name.
    pub fn dump(&self, name: Name) -> Option<&[u8]> {
        match self.dumps.get(&name) {
            Some(bytes) => Some(bytes.as_slice()),
            None => None,
        }
    }

    /// How many dumps are claimed.
    pub fn claimed(&self) -> usize {
        self.claims.len()
    }

    /// Counts a call, which may be one that fails.
    fn call(&mut self) -> Result<(), StoreFault> {
        self.calls = self.calls.saturating_add(1);
        if self.fails.contains(&self.calls) {
            return Err(StoreFault::Failed);
        }
        Ok(())
    }

    /// Holds bytes under a name that is free.
    fn hold(&mut self, name: Name, bytes: Items<u8>) -> Result<(), AllocError> {
        match self.dumps.insert(name, bytes) {
            Ok(_) => Ok(()),
            Err(_) => Err(AllocError),
        }
    }
}

impl Store for MemStore {
    ghost dumps = { λ _. None };

    ghost claims = { λ _. None };

    fn publish(&mut self, alloc: Global, name: Name, bytes: &[u8]) -> Result<(), StoreFault> {
        self.call()?;
        if self.dumps.contains_key(&name) {
            return Err(StoreFault::Taken);
        }
        let bytes = bytes.to_vec(alloc)?;
        self.hold(name, Items::new(bytes))?;
        Ok(())
    }

    fn claim(&mut self, alloc: Global, name: Name) -> Result<Vec<u8>, StoreFault> {
        self.call()?;
        let Some(held) = self.dumps.get(&name) else {
            return Err(StoreFault::Missing);
        };
        let bytes = held.as_slice().to_vec(alloc)?;
        let copy = held.as_slice().to_vec(alloc)?;
        match self.claims.push((name, Items::new(copy))) {
            Err(_) => Err(StoreFault::OutOfMemory),
            Ok(()) => {
                self.dumps.shift_remove(&name);
                Ok(bytes)
            }
        }
    }

    fn finish(&mut self) -> Result<(), StoreFault> {
        self.call()?;
        match self.claims.pop() {
            Some(_) => Ok(()),
            None => Err(StoreFault::Missing),
        }
    }

    fn give_back(&mut self) -> Result<(), StoreFault> {
        self.call()?;
        let Some((name, bytes)) = self.claims.pop() else {
            return Err(StoreFault::Missing);
        };
        if self.dumps.contains_key(&name) {
            return match self.claims.push((name, bytes)) {
                Ok(()) => Err(StoreFault::Taken),
                Err(_) => Err(StoreFault::OutOfMemory),
            };
        }
        self.hold(name, bytes)?;
        Ok(())
    }
}
