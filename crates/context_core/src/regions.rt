//! Regions made and dropped.

ghost use Rattle.std.specs.Prelude.{◌≡◌, ◌+◌, false, true, Some, IfErr, IfOk, IfSome, OnErr, OnOk, if◌then◌else◌, is_none, map, nat_le};
ghost use Rattle.std.specs.Result.{result_err};
ghost use Rattle.rdma_types.specs.Causes.{first_cause};
ghost use Rattle.rdma_types.specs.Limits.{most_keys};
ghost use Rattle.rdma_types.specs.Lists.{has, has_name, has_word, some};
ghost use Rattle.rdma_types.specs.Memory.{local_key};
ghost use Rattle.rdma_types.specs.declared.answers.Answer.TheVariants as answer;
ghost use Rattle.rdma_types.specs.declared.answers.Refusal.TheVariants.{NumberTaken, TooMany};
ghost use Rattle.rdma_types.specs.declared.names.Name.{Name};
ghost use Rattle.page_pool.specs.Pool.{Pool, free_pages};
ghost use Rattle.memory_keys.specs.Regions.{regions_of};
ghost use Rattle.protocol.specs.DeviceStep.{answers, counting_key, drops, keys_of, makes_region, with_context};
ghost use Rattle.protocol.specs.Memory as rule;
ghost use Rattle.protocol.specs.Refusals.{region_causes};
ghost use Rattle.protocol.specs.State.{Context, Device};
ghost use Rattle.context_core.specs.Asked.{IsAsked};
ghost use Rattle.context_core.specs.Causes.{drop_causes};
ghost use Rattle.context_core.specs.Context.{IsContext, Moves, context_in, meets};
ghost use Rattle.context_core.specs.Faults.{refusal_of};

use crate::{ContextFault, ContextState, naming};
use indexmap::IndexSet;
use memory_keys::{RegionHead, Regions};
use page_pool::PagePool;
use rdma_types::{Keys, Name, Refusal, Rights};
use std::alloc::Global;

/// What is asked of a new region of `length` bytes from the address `base` on. A domain that is named in another context
/// is None.
#[derive(Clone, Copy)]
pub struct NewRegion {
    pub name: Name,
    pub domain: Option<Name>,
    pub base: u64,
    pub length: u32,
    pub rights: Rights,
}

/// What is told of a new region, where its domain is there and there are keys for it.
fn head_of(
    domains: &IndexSet<Name>,
    regions: &Regions,
    new: &NewRegion,
    keys: Option<Keys>,
) -> Result<RegionHead, Refusal>
    ensures refused { (pool : Pool) (c : Context) (d : Device) → c.domains ≡ domains.now.keys → c.regions ≡ regions_of pool regions.now → nat_le most_keys d.key_count ≡ is_none keys
        → IfErr result (λ r. first_cause (region_causes d c new.now.name new.now.domain new.now.length) ≡ Some r) }
    ensures asked { IfOk result (λ head. IsAsked new.now keys head) }
    ensures there { IfOk result (λ head. has_word head.domain domains.now.keys ≡ true) }
{
    let Some(domain) = new.domain else {
        return Err(Refusal::NoSuch);
    };
    if !domains.contains(&domain) {
        return Err(Refusal::NoSuch);
    }
    let Some(keys) = keys else {
        return Err(without_keys(regions, new.name));
    };
    Ok(RegionHead {
        name: new.name,
        domain,
        base: new.base,
        length: new.length,
        rights: new.rights,
        keys,
    })
}

/// Why a region is not made where no keys are left.
fn without_keys(regions: &Regions, name: Name) -> Refusal
    ensures { (pool : Pool)
        → result ≡ (if has_name (λ r. r.name) name (regions_of pool regions.now) then NumberTaken
        else TooMany) }
{
    if regions.named(name).is_some() {
        Refusal::NumberTaken
    } else {
        Refusal::TooMany
    }
}

impl ContextState {
    /// Makes a region of zeros behind the others, with the device's next keys, or None where it has no more of them.
    ///
    /// Errors: refused for the first of these causes that holds (this project's choice): `NoSuch` where the domain is
    /// not in this context, `NumberTaken` where a region has the name, `TooMany` where there are 256 regions or no keys
    /// are left, `NoPage` where fewer pages are free than hold the region; or `OutOfMemory`. Nothing has changed then.
    pub fn make_region(
        &mut self,
        alloc: Global,
        pool: &mut PagePool,
        new: &NewRegion,
        keys: Option<Keys>,
    ) -> Result<(), ContextFault>
        requires is { IsContext pool.old self.old }
        requires pair { IfSome keys (λ k. k.remote ≡ k.local + 1) }
        requires own { (n : Name)
            → IfSome keys (λ k. has local_key k.local (context_in pool.old n self.old).regions
            ≡ false) }
        ensures refused { (n : Name) (d : Device) → rule.free_pages d ≡ free_pages pool.old → nat_le most_keys d.key_count ≡ is_none keys
            → refusal_of result ≡ first_cause (region_causes d (context_in pool.old n self.old) new.now.name new.now.domain new.now.length) }
        ensures made { (n : Name) (d : Device) → keys ≡ Some (keys_of d)
            → OnOk result (makes_region d (context_in pool.old n self.old) new.now.name new.now.domain new.now.base new.now.length new.now.rights
            ≡ answers (with_context (counting_key d) (context_in pool.new n self.new)) (answer.Region (keys_of d))) }
        ensures is { IsContext pool.new self.new }
        ensures moves { Moves pool.old pool.new self.old self.new }
        ensures numbers { (n : Name) → map (λ e. e.number) (context_in pool.new n self.new).ends
            ≡ map (λ e. e.number) (context_in pool.old n self.old).ends }
        ensures err { OnErr result (self.new ≡ self.old) }
        ensures err_pool { OnErr result (pool.new ≡ pool.old) }
    {
        let head = head_of(&self.domains, &self.regions, new, keys)?;
        self.regions.register(pool, alloc, head)?;
        Ok(())
    }

    /// Drops a region that no work of a queue pair names, and gives its pages back. It takes no memory. Errors:
    /// `NoSuch` where no region has the name, and else `InUse` where work of a queue pair names its local key. Nothing
    /// has changed then.
    pub fn drop_region(&mut self, pool: &mut PagePool, name: Name) -> Result<(), Refusal>
        requires is { IsContext pool.old self.old }
        ensures refused { (n : Name) → result_err result
            ≡ first_cause (drop_causes (context_in pool.old n self.old) name) }
        ensures dropped { (n : Name) (d : Device)
            → OnOk result (drops d (context_in pool.old n self.old) name
            ≡ answers (with_context d (context_in pool.new n self.new)) answer.Done) }
        ensures is { IsContext pool.new self.new }
        ensures moves { Moves pool.old pool.new self.old self.new }
        ensures numbers { (n : Name) → map (λ e. e.number) (context_in pool.new n self.new).ends
            ≡ map (λ e. e.number) (context_in pool.old n self.old).ends }
        ensures err { OnErr result (self.new ≡ self.old) }
        ensures err_pool { OnErr result (pool.new ≡ pool.old) }
    {
        let Some(head) = self.regions.named(name) else {
            return Err(Refusal::NoSuch);
        };
        if naming::is_named(&self.ends, head.keys.local) {
            return Err(Refusal::InUse);
        }
        self.regions.deregister(pool, name, &[])
    }

    /// Whether a region has one of these keys.
    pub fn has_keys(&self, keys: Keys) -> bool
        ensures { (pool : Pool) (n : Name) → result
            ≡ some (meets keys) (context_in pool n self.now).regions }
    {
        self.regions.has_key(keys.local) || self.regions.has_key(keys.remote)
    }
}
