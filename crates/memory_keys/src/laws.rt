//! What places and stores are in the words of the protocol's rules.

ghost use Rattle.std.specs.Prelude.{ℕ, List, Option, ◌≡◌, ◌≢◌, ◌-◌, ◌+◌, ◌≤◌, ◌<◌, ◌==◌, ◌↔◌, All, IsNone, IsSomeAnd, Some, None, false, length, option_map};
ghost use Rattle.rdma_types.specs.declared.names.Name.{Name};
ghost use Rattle.rdma_types.specs.Lists.{first_that};
ghost use Rattle.rdma_types.specs.Memory.{Right, cut, granted, is_granted, local_key};
ghost use Rattle.rdma_types.specs.Objects.{Region};
ghost use Rattle.page_pool.specs.Pool.{Pool, Puts, bytes_of};
ghost use Rattle.protocol.specs.Memory.{landed, region_of_key, written};
ghost use Rattle.protocol.specs.State.{Context};
ghost use Rattle.memory_keys.specs.declared.RegisteredRegion.{RegisteredRegion};
ghost use Rattle.memory_keys.specs.declared.RegionRange.{RegionRange};
ghost use Rattle.memory_keys.specs.Regions.{AreHeld, AreKeyed, IsSpot, KeepsLength, granted_spot, held_at, place_in, region_of, regions_of, spot_bytes, stored_at};

/// A spot is granted exactly where the protocol grants the place, and it lies in the region that the protocol finds under
/// the spot's key, from the address that was asked for on.
pub fn spots_are_the_protocols_places()
    ensures granted { (key_of : Region → ℕ) (regions : List Region) (domain : Name) (key at count : ℕ) (right : Right) → 0 < count
        → granted_spot key_of regions domain key at count right ≡ option_map (place_in at count) (granted key_of regions domain key at count right) }
    ensures refused { (key_of : Region → ℕ) (regions : List Region) (domain : Name) (key at count : ℕ) (right : Right)
        → IsNone (granted_spot key_of regions domain key at count right) ↔ (is_granted key_of regions domain key at count right ≡ false) }
    ensures region { (c : Context) (pool : Pool) (held : List RegisteredRegion) → c.regions ≡ regions_of pool held → AreKeyed held
        → (key_of : Region → ℕ) (domain : Name) (key at count : ℕ) (right : Right) (spot : RegionRange) → 0 < count
        → granted_spot key_of c.regions domain key at count right ≡ Some spot
        → granted key_of c.regions domain key at count right ≡ Some (region_of_key c spot.region) }
    ensures offset { (c : Context) (pool : Pool) (held : List RegisteredRegion) → c.regions ≡ regions_of pool held → AreKeyed held
        → (key_of : Region → ℕ) (domain : Name) (key at count : ℕ) (right : Right) (spot : RegionRange) → 0 < count
        → granted_spot key_of c.regions domain key at count right ≡ Some spot → spot.off ≡ at - (region_of_key c spot.region).base }
{}

/// Bytes stored at a spot are the bytes that the protocol writes there, at its offset and at its address.
pub fn stores_are_the_protocols_writes()
    ensures written { (c : Context) (pool : Pool) (held : List RegisteredRegion) → c.regions ≡ regions_of pool held → AreKeyed held
        → (spot : RegionRange) (new : List ℕ) → IsSpot held spot → length new ≡ spot.length
        → written c spot.region spot.off new ≡ record c { regions = stored_at spot new c.regions } }
    ensures landed { (c : Context) (pool : Pool) (held : List RegisteredRegion) → c.regions ≡ regions_of pool held → AreKeyed held
        → (domain : Name) (key at count : ℕ) (right : Right) (spot : RegionRange) (new : List ℕ)
        → granted_spot local_key c.regions domain key at count right ≡ Some spot → length new ≡ count
        → landed c key at new ≡ record c { regions = stored_at spot new c.regions } }
{}

/// The bytes of a spot are those of the region that the protocol finds under its key.
pub fn spots_have_the_protocols_bytes()
    ensures { (c : Context) (pool : Pool) (held : List RegisteredRegion) → c.regions ≡ regions_of pool held → AreKeyed held
        → (spot : RegionRange) → IsSpot held spot → 0 < spot.length
        → spot_bytes pool held spot ≡ cut spot.off spot.length (region_of_key c spot.region).bytes }
{}

/// Whether regions are held is a matter of which lists live and how long they are, and whether a spot lies inside a region
/// is one of keys and lengths. Neither looks at bytes. A key finds a region among the protocol's where it finds one here.
pub fn regions_stay_whatever_their_bytes()
    ensures held { (old new : Pool) (held : List RegisteredRegion) → AreHeld old held
        → All (λ h. KeepsLength old new h.list) held → AreHeld new held }
    ensures spot { (pool : Pool) (held : List RegisteredRegion) (spot : RegionRange)
        → IsSpot held spot ↔ (0 < spot.length → IsSomeAnd (first_that (λ r. r.keys.local == spot.region) (regions_of pool held)) (λ r. spot.off + spot.length ≤ r.length)) }
    ensures under { (pool : Pool) (held : List RegisteredRegion) (key : ℕ)
        → first_that (λ r. r.keys.local == key) (regions_of pool held)
        ≡ option_map (region_of pool) (held_at key held) }
    ensures part { (held : List RegisteredRegion) (spot : RegionRange) (from count : ℕ) → IsSpot held spot → from + count ≤ spot.length
        → IsSpot held (record { region = spot.region; off = spot.off + from; length = count }) }
{}

/// What is done to a list of no region changes no region, whether it is made, written or ended.
pub fn other_lists_are_no_matter()
    ensures held { (old new : Pool) (list : ℕ) (bytes : Option (List ℕ)) (held : List RegisteredRegion)
        → AreHeld old held → All (λ h. h.list ≢ list) held → Puts old new list bytes → AreHeld new held }
    ensures regions { (old new : Pool) (list : ℕ) (bytes : Option (List ℕ)) (held : List RegisteredRegion)
        → All (λ h. h.list ≢ list) held → Puts old new list bytes → regions_of new held ≡ regions_of old held }
    ensures apart { (pool : Pool) (list : ℕ) (held : List RegisteredRegion) → AreHeld pool held
        → bytes_of pool list ≡ None → All (λ h. h.list ≢ list) held }
{}
