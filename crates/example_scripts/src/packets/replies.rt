//! Replies 0, 1, 2 and so on, of old values a hundred greater, as they are kept.

ghost use Rattle.std.specs.Prelude.{◌≡◌, [], ◌∷◌, None, Some, length, map, slice_get};
ghost use Rattle.example_scripts.specs.Replies.{after, found, reply};

/// Sixteen replies are kept, each under its number.
pub fn sixteen_replies_are_kept()
    ensures count { length (after 16) ≡ 16 }
    ensures at { map (slice_get (after 16)) (0 ∷ 15 ∷ 16 ∷ [])
        ≡ Some (reply 0) ∷ Some (reply 15) ∷ None ∷ [] }
    ensures found { map (found (after 16)) (0 ∷ 15 ∷ 16 ∷ []) ≡ Some 100 ∷ Some 115 ∷ None ∷ [] }
{}

/// The seventeenth takes the place of the first.
pub fn the_seventeenth_forgets_the_first()
    ensures count { length (after 17) ≡ 16 }
    ensures at { map (slice_get (after 17)) (0 ∷ 15 ∷ []) ≡ Some (reply 1) ∷ Some (reply 16) ∷ [] }
    ensures found { map (found (after 17)) (0 ∷ 1 ∷ 16 ∷ []) ≡ None ∷ Some 101 ∷ Some 116 ∷ [] }
    ensures forty { slice_get (after 40) 0 ≡ Some (reply 24) }
{}

/// Fewer than sixteen are all kept.
pub fn few_replies_are_kept()
    ensures count { length (after 3) ≡ 3 }
    ensures at { map (slice_get (after 3)) (2 ∷ 3 ∷ []) ≡ Some (reply 2) ∷ None ∷ [] }
    ensures none { found [] 0 ≡ None }
{}
