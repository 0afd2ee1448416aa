//! A region of 64 bytes with all four rights, in a domain.

ghost use Rattle.std.specs.Prelude.{◌≡◌, [], ◌∷◌, codes, None, Some};
ghost use Rattle.rdma_types.specs.Causes.{first_cause};
ghost use Rattle.rdma_types.specs.Lists.{without};
ghost use Rattle.rdma_types.specs.Memory.{RemoteWrite, remote_key, word_bytes, word_of};
ghost use Rattle.rdma_types.specs.declared.answers.Refusal.TheVariants as refusal;
ghost use Rattle.memory_keys.specs.Causes.{deregister_causes, register_causes};
ghost use Rattle.memory_keys.specs.Regions.{granted_spot};
ghost use Rattle.test_devices.specs.Held.{head, regions};

/// The whole region, its last byte, a byte past it, and another domain.
pub fn places_are_granted()
    ensures whole { granted_spot remote_key regions (codes "p") 3 8192 64 RemoteWrite
        ≡ Some (record { region = 2; off = 0; length = 64 }) }
    ensures last { granted_spot remote_key regions (codes "p") 3 8255 1 RemoteWrite
        ≡ Some (record { region = 2; off = 63; length = 1 }) }
    ensures past { granted_spot remote_key regions (codes "p") 3 8255 2 RemoteWrite ≡ None }
    ensures other { granted_spot remote_key regions (codes "q") 3 8192 4 RemoteWrite ≡ None }
{}

/// A second region of the name.
pub fn a_name_is_taken_once()
    ensures { first_cause (register_causes regions 1 (head (codes "n") 4 64))
        ≡ Some refusal.NumberTaken }
{}

/// A region of two pages where one is free, and one of a page.
pub fn a_region_needs_its_pages()
    ensures large { first_cause (register_causes regions 1 (head (codes "m") 4 4097))
        ≡ Some refusal.NoPage }
    ensures small { first_cause (register_causes regions 1 (head (codes "m") 4 4096)) ≡ None }
{}

/// A region whose local key is in use.
pub fn a_busy_region_stays()
    ensures { first_cause (deregister_causes regions (codes "n") (7 ∷ 2 ∷ []))
        ≡ Some refusal.InUse }
{}

/// A region that is dropped, and dropped again.
pub fn a_dropped_region_is_gone()
    ensures first { first_cause (deregister_causes regions (codes "n") (7 ∷ [])) ≡ None }
    ensures gone { without (λ r. r.name) (codes "n") regions ≡ [] }
    ensures second { first_cause (deregister_causes [] (codes "n") []) ≡ Some refusal.NoSuch }
{}

/// The bytes of a word, high byte first.
pub fn a_word_is_big_endian()
    ensures bytes { word_bytes 72623859790382856 ≡ 1 ∷ 2 ∷ 3 ∷ 4 ∷ 5 ∷ 6 ∷ 7 ∷ 8 ∷ [] }
    ensures word { word_of (1 ∷ 2 ∷ 3 ∷ 4 ∷ 5 ∷ 6 ∷ 7 ∷ 8 ∷ []) ≡ 72623859790382856 }
{}
