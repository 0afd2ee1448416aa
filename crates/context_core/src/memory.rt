//! Bytes of regions.

ghost use Rattle.std.specs.Prelude.{◌≡◌, ◌-◌, ◌+◌, ◌<◌, ◌≤◌, ◌^◌, IfOk, OnErr, OnOk, length, map};
ghost use Rattle.std.specs.Bool.{OnTrue};
ghost use Rattle.std.specs.Result.{result_err};
ghost use Rattle.rdma_types.specs.Causes.{first_cause};
ghost use Rattle.rdma_types.specs.declared.answers.Answer.TheVariants as answer;
ghost use Rattle.rdma_types.specs.declared.names.Name.{Name};
ghost use Rattle.page_pool.specs.Pool.{Pool};
ghost use Rattle.memory_keys.specs.Regions.{holds_range, regions_of};
ghost use Rattle.protocol.specs.DeviceStep.{answers, loads, stores, with_context};
ghost use Rattle.protocol.specs.State.{Context, Device, region_at};
ghost use Rattle.context_core.specs.Causes.{range_causes};
ghost use Rattle.context_core.specs.Context.{IsContext, Moves, context_in};
ghost use Rattle.context_core.specs.Faults.{refusal_of};
ghost use Rattle.context_core.specs.Ranges.{IsRange};

use crate::{ContextFault, ContextState};
use memory_keys::{RegionHead, RegionRange, Regions};
use page_pool::PagePool;
use rdma_types::{Items, Name, Refusal};
use std::alloc::Global;

/// Whether a region holds so many bytes from an address on, without wrapping.
fn within(head: &RegionHead, at: u64, length: u64) -> bool
    ensures holds { result ≡ holds_range head.now at length }
    ensures low { OnTrue result (head.now.base ≤ at) }
    ensures high { OnTrue result (at + length ≤ head.now.base + head.now.length) }
    ensures offset { OnTrue result (at - head.now.base < 2 ^ 32) }
    ensures short { OnTrue result (length < 2 ^ 32) }
{
    let end = u64::from(head.length);
    at >= head.base && at - head.base <= end && length <= end - (at - head.base)
}

/// The spot of a range of a region.
fn range(regions: &Regions, name: Name, at: u64, length: usize) -> Result<RegionRange, Refusal>
    ensures refused { (pool : Pool) (c : Context) → c.regions ≡ regions_of pool regions.now
        → result_err result ≡ first_cause (range_causes c name at length) }
    ensures range { IfOk result (λ spot. IsRange regions.now name at length spot) }
{
    let Some(head) = regions.named(name) else {
        return Err(Refusal::NoSuch);
    };
    if !within(&head, at, length as u64) {
        return Err(Refusal::BadKey);
    }
    Ok(RegionRange {
        region: head.keys.local,
        off: (at - head.base) as u32,
        length: length as u32,
    })
}

impl ContextState {
    /// Stores bytes at an address of a region. It takes no memory. Errors: `NoSuch` where no region has the name, and
    /// else `BadKey` where the region does not hold the whole range. Nothing has changed then.
    pub fn store(
        &mut self,
        pool: &mut PagePool,
        name: Name,
        at: u64,
        bytes: &[u8],
    ) -> Result<(), Refusal>
        requires is { IsContext pool.old self.old }
        ensures refused { (n : Name) → result_err result
            ≡ first_cause (range_causes (context_in pool.old n self.old) name at
            (length bytes.now)) }
        ensures stored { (n : Name) (d : Device)
            → OnOk result (stores d (context_in pool.old n self.old) (region_at (context_in pool.old n self.old) name) at bytes.now
            ≡ answers (with_context d (context_in pool.new n self.new)) answer.Done) }
        ensures is { IsContext pool.new self.new }
        ensures moves { Moves pool.old pool.new self.old self.new }
        ensures numbers { (n : Name) → map (λ e. e.number) (context_in pool.new n self.new).ends
            ≡ map (λ e. e.number) (context_in pool.old n self.old).ends }
        ensures err { OnErr result (self.new ≡ self.old) }
        ensures err_pool { OnErr result (pool.new ≡ pool.old) }
    {
        let spot = range(&self.regions, name, at, bytes.len())?;
        self.regions.store(pool, spot, bytes);
        Ok(())
    }

    /// The bytes of an address range of a region: `length` bytes from address `at` on. Errors: refused with `NoSuch`
    /// where no region has the name, and else with `BadKey` where the region does not hold the whole range; or
    /// `OutOfMemory`.
    pub fn load(
        &self,
        alloc: Global,
        pool: &PagePool,
        name: Name,
        at: u64,
        length: u32,
    ) -> Result<Items<u8>, ContextFault>
        requires is { IsContext pool.now self.now }
        ensures refused { (n : Name) → refusal_of result
            ≡ first_cause (range_causes (context_in pool.now n self.now) name at length) }
        ensures loaded { (n : Name) (d : Device)
            → IfOk result (λ bytes. loads d (region_at (context_in pool.now n self.now) name) at length ≡ answers d (answer.Bytes bytes)) }
    {
        let spot = range(&self.regions, name, at, length as usize)?;
        let mut bytes = vec![in alloc; 0; length as usize]?;
        self.regions.load(pool, spot, &mut bytes);
        Ok(Items::new(bytes))
    }
}
