//! Depots in memory.

ghost use Rattle.std.specs.Prelude.{◌≡◌, ◌≤◌, ◌↔◌, [], Some, None, IfOk, OnOk, OnErr, IsErr, IsErrOf, Contains};
ghost use Rattle.host_ports.specs.Streams.{FaultsCounted};
ghost use Rattle.host_ports.specs.Memory.{counted};
ghost use Rattle.host_ports.specs.Depots.{Has, IsThere, Sets, KeepsOthers, holding, nothing, call_failed, called, put_under, taken_from};
ghost use Rattle.host_ports.specs.declared.depot.DepotFault.TheVariants.{Failed, Missing, OutOfMemory};

use crate::{Depot, DepotFault};
use indexmap::IndexMap;
use rdma_types::{Items, Name};
use std::alloc::Global;
use std::marker::Model;

/// Bytes in memory under names, where chosen calls fail.
#[derive(Drop)]
pub struct MemDepot {
    held: IndexMap<Name, Items<u8>>,
    fails: Vec<u64>,
    calls: u64,
    faults: u64,
}

impl Model for MemDepot {
    ghost use Rattle.host_ports.specs.Depots.{DepotState};

    ghost Value = { DepotState };

    ghost view = { λ d. record { held = d.held.entries; fails = d.fails.items; calls = d.calls; faults = d.faults } };
}

impl MemDepot {
    /// A depot that holds these bytes under these names. The calls with the numbers in `fails`, counted from 1, fail.
    pub fn make(held: IndexMap<Name, Items<u8>>, fails: Vec<u64>) -> MemDepot
        ensures { result
            ≡ record { held = held.entries; fails = fails.items; calls = 0; faults = 0 } }
    {
        MemDepot {
            held,
            fails,
            calls: 0,
            faults: 0,
        }
    }

    /// How many calls failed.
    pub fn faults(&self) -> u64
        ensures { result ≡ self.now.faults }
    {
        self.faults
    }

    /// Counts a call, and the fault where it is one that fails.
    fn call(&mut self) -> Result<(), DepotFault>
        ensures fails { IsErr result ↔ Contains self.old.fails (counted self.old.calls) }
        ensures why { IsErr result → IsErrOf result Failed }
        ensures call_counted { OnOk result (self.new ≡ called self.old) }
        ensures faults_monotone { self.old.faults ≤ self.new.faults }
        ensures failed { OnErr result (self.new ≡ call_failed self.old) }
    {
        self.calls = self.calls.saturating_add(1);
        if self.fails.contains(&self.calls) {
            self.faults = self.faults.saturating_add(1);
            return Err(DepotFault::Failed);
        }
        Ok(())
    }
}

impl Depot for MemDepot {
    ghost held = { λ d. Some (holding d) };

    ghost faults = { λ d. d.faults };

    ghost never_fails = { λ d. d.fails ≡ [] };

    fn put(&mut self, alloc: Global, name: Name, bytes: &[u8]) -> Result<(), DepotFault>
        ensures put { OnOk result (Sets (Some (holding self.old)) (Some (holding self.new)) name
            (Some bytes.now)) }
        ensures others { OnErr result (KeepsOthers (Some (holding self.old))
            (Some (holding self.new)) name) }
        ensures found { IsErrOf result Missing → ⊥ }
        ensures faults_unchanged { OnOk result (self.new.faults ≡ self.old.faults) }
        ensures short { IsErrOf result OutOfMemory → self.new.faults ≡ self.old.faults }
        ensures faults_counted { IsErrOf result Failed
            → FaultsCounted self.old.faults self.new.faults }
        ensures faults_monotone { self.old.faults ≤ self.new.faults }
        ensures never { self.old.fails ≡ [] → IsErrOf result Failed → ⊥ }
        ensures stays { self.old.fails ≡ [] → self.new.fails ≡ [] }

        // Beyond the trait: when it fails, and all that it leaves.
        ensures fails { IsErrOf result Failed ↔ Contains self.old.fails (counted self.old.calls) }
        ensures failed { IsErrOf result Failed → self.new ≡ call_failed self.old }
        ensures refused { IsErrOf result OutOfMemory → self.new ≡ called self.old }
        ensures done { OnOk result (self.new ≡ put_under self.old name bytes.now) }
    {
        self.call()?;
        let bytes = bytes.to_vec(alloc)?;
        match self.held.insert(name, Items::new(bytes)) {
            Ok(_) => Ok(()),
            Err(_) => Err(DepotFault::OutOfMemory),
        }
    }

    fn look(&mut self, alloc: Global, name: Name) -> Result<Vec<u8>, DepotFault>
        ensures found { IfOk result (λ bytes. Has (Some (holding self.old)) name
            (Some bytes.items)) }
        ensures missing { IsErrOf result Missing → Has (Some (holding self.old)) name None }
        ensures wanted { IsErrOf result OutOfMemory → IsThere (Some (holding self.old)) name }
        ensures same { Some (holding self.new) ≡ Some (holding self.old) }
        ensures faults_unchanged { OnOk result (self.new.faults ≡ self.old.faults) }
        ensures short { IsErrOf result OutOfMemory → self.new.faults ≡ self.old.faults }
        ensures absent { IsErrOf result Missing → self.new.faults ≡ self.old.faults }
        ensures faults_counted { IsErrOf result Failed
            → FaultsCounted self.old.faults self.new.faults }
        ensures faults_monotone { self.old.faults ≤ self.new.faults }
        ensures never { self.old.fails ≡ [] → IsErrOf result Failed → ⊥ }
        ensures stays { self.old.fails ≡ [] → self.new.fails ≡ [] }

        // Beyond the trait: when it fails, and all that it leaves.
        ensures fails { IsErrOf result Failed ↔ Contains self.old.fails (counted self.old.calls) }
        ensures failed { IsErrOf result Failed → self.new ≡ call_failed self.old }
        ensures refused { IsErrOf result OutOfMemory → self.new ≡ called self.old }
        ensures nothing { IsErrOf result Missing → self.new ≡ called self.old }
        ensures done { OnOk result (self.new ≡ called self.old) }
    {
        self.call()?;
        let Some(bytes) = self.held.get(&name) else {
            return Err(DepotFault::Missing);
        };
        Ok(bytes.as_slice().to_vec(alloc)?)
    }

    fn take(&mut self, _alloc: Global, name: Name) -> Result<Vec<u8>, DepotFault>
        ensures found { IfOk result (λ bytes. Has (Some (holding self.old)) name
            (Some bytes.items)) }
        ensures taken { OnOk result (Sets (Some (holding self.old))
            (Some (holding self.new)) name None) }
        ensures missing { IsErrOf result Missing → Has (Some (holding self.old)) name None }
        ensures wanted { IsErrOf result OutOfMemory → IsThere (Some (holding self.old)) name }
        ensures same { OnErr result (Some (holding self.new) ≡ Some (holding self.old)) }
        ensures faults_unchanged { OnOk result (self.new.faults ≡ self.old.faults) }
        ensures short { IsErrOf result OutOfMemory → self.new.faults ≡ self.old.faults }
        ensures absent { IsErrOf result Missing → self.new.faults ≡ self.old.faults }
        ensures faults_counted { IsErrOf result Failed
            → FaultsCounted self.old.faults self.new.faults }
        ensures faults_monotone { self.old.faults ≤ self.new.faults }
        ensures never { self.old.fails ≡ [] → IsErrOf result Failed → ⊥ }
        ensures stays { self.old.fails ≡ [] → self.new.fails ≡ [] }

        // Beyond the trait: when it fails, and all that it leaves.
        ensures fails { IsErrOf result Failed ↔ Contains self.old.fails (counted self.old.calls) }
        ensures failed { IsErrOf result Failed → self.new ≡ call_failed self.old }
        ensures refused { IsErrOf result OutOfMemory → self.new ≡ called self.old }
        ensures nothing { IsErrOf result Missing → self.new ≡ called self.old }
        ensures done { OnOk result (self.new ≡ taken_from self.old name) }
    {
        self.call()?;
        let Some(bytes) = self.held.shift_remove(&name) else {
            return Err(DepotFault::Missing);
        };
        Ok(bytes.into_vec())
    }
}

/// A depot that holds nothing, and never fails. There is no room in it: a `put` is out of memory.
#[derive(Drop)]
pub struct EmptyDepot;

impl Depot for EmptyDepot {
    ghost held = { λ _. Some nothing };

    ghost faults = { λ _. 0 };

    ghost never_fails = { λ _. Unit {0} };

    fn put(&mut self, _alloc: Global, _name: Name, _bytes: &[u8]) -> Result<(), DepotFault> {
        Err(DepotFault::OutOfMemory)
    }

    fn look(&mut self, _alloc: Global, _name: Name) -> Result<Vec<u8>, DepotFault> {
        Err(DepotFault::Missing)
    }

    fn take(&mut self, _alloc: Global, _name: Name) -> Result<Vec<u8>, DepotFault> {
        Err(DepotFault::Missing)
    }
}
