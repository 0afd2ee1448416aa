//! What the definitions say, as laws.

ghost use Rattle.std.specs.Prelude.{ℕ, List, ◌≡◌, ◌<◌, ◌≤◌, ◌+◌, ◌⊎◌, ◌==◌, true, bit_and, length, slice_get, Some};
ghost use Rattle.rdma_types.specs.declared.names.Name.{Name};
ghost use Rattle.rdma_types.specs.declared.rights.Rights.{Rights};
ghost use Rattle.rdma_types.specs.Memory.{Right, allows, set_of, Grants, IsGranted, grants, is_granted};
ghost use Rattle.rdma_types.specs.Objects.{Posted, Region};
ghost use Rattle.rdma_types.specs.Spans.{end_number, first_number, next_landing, piece_at, piece_of, request_of, span_of};

/// The test of a grant is the fact: a region of the domain with the key holds the whole range and gives the right. And
/// a place is granted exactly where it is empty or some region grants it.
pub fn a_granted_place_is_in_a_region()
    ensures granting { (key_of : Region → ℕ) (domain : Name) (key at count : ℕ) (right : Right)
        (r : Region) → grants key_of domain key at count right r ≡ true
        → Grants key_of domain key at count right r }
    ensures granted { (key_of : Region → ℕ) (domain : Name) (key at count : ℕ) (right : Right)
        (r : Region) → Grants key_of domain key at count right r
        → grants key_of domain key at count right r ≡ true }
    ensures found { (key_of : Region → ℕ) (rs : List Region) (domain : Name) (key at count : ℕ)
        (right : Right) → is_granted key_of rs domain key at count right ≡ true
        → (count ≡ 0) ⊎ IsGranted key_of rs domain key at count right }
    ensures empty { (key_of : Region → ℕ) (rs : List Region) (domain : Name) (key at : ℕ)
        (right : Right) → is_granted key_of rs domain key at 0 right ≡ true }
    ensures there { (key_of : Region → ℕ) (rs : List Region) (domain : Name) (key at count : ℕ)
        (right : Right) → IsGranted key_of rs domain key at count right
        → is_granted key_of rs domain key at count right ≡ true }
{}

/// A right is in a set exactly where the set's bits hold its bit, which is what `contains` of `Flags` answers.
pub fn a_set_of_rights_holds_its_bits()
    ensures bits { (r : Rights) (right : Right)
        → allows r right ≡ (bit_and r.0 (set_of right) == set_of right) }
{}

/// Each packet number below the end belongs to one posted request and is one of its pieces; and a barrier lies between
/// the number that it is looked for from and the end.
pub fn a_number_belongs_to_one_request()
    ensures split { (ps : List Posted) (mtu n : ℕ)
        → first_number ps mtu (request_of ps mtu n) + piece_of ps mtu n ≡ n }
    ensures within { (ps : List Posted) (mtu n : ℕ) → n < end_number ps mtu
        → request_of ps mtu n < length ps }
    ensures piece { (ps : List Posted) (mtu n : ℕ) (p : Posted)
        → slice_get ps (request_of ps mtu n) ≡ Some p → piece_of ps mtu n < span_of p mtu }
    ensures found { (ps : List Posted) (mtu n : ℕ) (p : Posted)
        → slice_get ps (request_of ps mtu n) ≡ Some p
        → piece_at ps mtu n ≡ Some (record { posted = p; k = piece_of ps mtu n }) }
    ensures ends { (ps : List Posted) (mtu : ℕ)
        → first_number ps mtu (length ps) ≡ end_number ps mtu }
    ensures landing_after { (ps : List Posted) (mtu n : ℕ) → n ≤ next_landing ps mtu n }
    ensures landing_before_end { (ps : List Posted) (mtu n : ℕ) → n ≤ end_number ps mtu
        → next_landing ps mtu n ≤ end_number ps mtu }
{}
