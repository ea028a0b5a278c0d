//! Worked examples: the answers of a search for a place.

ghost use Rattle.std.specs.Prelude.{◌∷◌, [], Some, None};
ghost use Rattle.symbols.specs.Searches.{FindsPlace};

/// A search among the places 3 and 5, and among none.
pub fn searches()
    ensures first { FindsPlace (3 ∷ 5 ∷ []) (Some 3) }
    ensures second { FindsPlace (3 ∷ 5 ∷ []) (Some 5) }
    ensures another { FindsPlace (3 ∷ 5 ∷ []) (Some 4) → ⊥ }
    ensures none_told { FindsPlace (3 ∷ 5 ∷ []) None → ⊥ }
    ensures none_there { FindsPlace [] None }
    ensures one_of_none { FindsPlace [] (Some 3) → ⊥ }
{}
