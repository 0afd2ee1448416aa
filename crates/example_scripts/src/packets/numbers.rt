//! True numbers and wire numbers.

ghost use Rattle.std.specs.Prelude.{◌≡◌, [], ◌∷◌, None, Some, map};
ghost use Rattle.protocol.specs.Numbers.{unwrap_near, wire_number};

/// Numbering that begins at the last wire number goes on at 0.
pub fn numbers_start_at_the_last_wire_number()
    ensures wire { map (wire_number 16777215) (0 ∷ 1 ∷ 2 ∷ []) ≡ 16777215 ∷ 0 ∷ 1 ∷ [] }
    ensures back { map (λ psn. unwrap_near 16777215 psn 0) (16777215 ∷ 0 ∷ 1 ∷ [])
        ≡ Some 0 ∷ Some 1 ∷ Some 2 ∷ [] }
{}

/// Half the range below a number belongs to it, and half above it but for the last.
pub fn numbers_end_at_the_edges_of_the_half_range()
    ensures low { unwrap_near 0 0 8388608 ≡ Some 0 }
    ensures below { unwrap_near 0 0 8388609 ≡ Some 16777216 }
    ensures high { unwrap_near 0 8388607 0 ≡ Some 8388607 }
    ensures above { unwrap_near 0 8388608 0 ≡ None }
    ensures last { unwrap_near 0 16777215 0 ≡ None }
{}
