//! Labels of a CASE.

ghost use Rattle.std.specs.Prelude.{◌≡◌, ◌∷◌, [], pos, negsuc, true, codes};
ghost use Rattle.st_types.specs.declared.kind.Kind.TheVariants.{Int, Sint};
ghost use Rattle.st_types.specs.declared.statement.Label.TheVariants.{Single, Range};
ghost use Rattle.st_rules.specs.declared.rule.Rule.TheVariants.{UnknownName, WrongType, OutOfRange, WrongLabel};
ghost use Rattle.st_rules.specs.ExampleWords.{broken_rules};
ghost use Rattle.st_rules.specs.ExampleWords.{breaks, number, digits, typed_digits, reading, single, between};
ghost use Rattle.st_rules.specs.ExampleWords.{case_of, wide};
ghost use Rattle.st_rules.specs.ExampleWords.{N, M};
ghost use Rattle.st_rules.specs.ExampleWords.{B};

/// In `PROGRAM P VAR n : INT; b : BOOL; w : WORD; a : ARRAY [1..2] OF INT; f : TON; d : TIME; u : UINT; END_VAR`.
pub fn numbers()
    // `CASE n OF 1..3 : 4, 5 : -1 : END_CASE`
    ensures apart { broken_rules (wide (case_of (reading 105 N)
        ((between 110 (pos 1) 113 (pos 3) ∷ []) ∷ (single 117 (pos 4) ∷ single 120 (pos 5) ∷ [])
        ∷ (single 124 (negsuc 0) ∷ []) ∷ []) ∷ [])) ≡ [] }
    // `CASE n OF 1..3 : 3..5 : END_CASE`: both labels of two lists
    ensures overlap { broken_rules (wide (case_of (reading 105 N)
        ((between 110 (pos 1) 113 (pos 3) ∷ []) ∷ (between 117 (pos 3) 120 (pos 5) ∷ []) ∷ []) ∷ []))
        ≡ breaks WrongLabel 110 ∷ breaks WrongLabel 117 ∷ [] }
    // `CASE n OF 2, 2 : END_CASE`
    ensures twice { broken_rules (wide (case_of (reading 105 N) ((single 110 (pos 2) ∷ single 113 (pos 2) ∷ []) ∷ []) ∷ []))
        ≡ breaks WrongLabel 110 ∷ breaks WrongLabel 113 ∷ [] }
    // `CASE n OF 2, 3, 2 : END_CASE`
    ensures first_and_last { broken_rules (wide (case_of (reading 105 N)
        ((single 110 (pos 2) ∷ single 113 (pos 3) ∷ single 116 (pos 2) ∷ []) ∷ []) ∷ []))
        ≡ breaks WrongLabel 110 ∷ breaks WrongLabel 116 ∷ [] }
    // `CASE n OF 9..8 : 9 : END_CASE`: reversed, which overlaps with nothing
    ensures reversed { broken_rules (wide (case_of (reading 105 N)
        ((between 110 (pos 9) 113 (pos 8) ∷ []) ∷ (single 117 (pos 9) ∷ []) ∷ []) ∷ []))
        ≡ breaks WrongLabel 110 ∷ [] }
    // `CASE n OF 40000 : END_CASE`
    ensures too_great { broken_rules (wide (case_of (reading 105 N) ((single 110 (pos 40000) ∷ []) ∷ []) ∷ []))
        ≡ breaks OutOfRange 110 ∷ [] }
    // `CASE n OF 1..40000 : END_CASE`
    ensures range_too_great { broken_rules (wide (case_of (reading 105 N) ((between 110 (pos 1) 113 (pos 40000) ∷ [])
        ∷ []) ∷ []))
        ≡ breaks OutOfRange 113 ∷ [] }
    // `CASE n OF SINT#1 : INT#2 : END_CASE`
    ensures typed { broken_rules (wide (case_of (reading 105 N)
        ((Single (typed_digits 110 Sint (pos 1)) ∷ []) ∷ (Single (typed_digits 120 Int (pos 2)) ∷ []) ∷ []) ∷ []))
        ≡ breaks WrongType 110 ∷ [] }
    // `CASE n OF 1, SINT#1 : END_CASE`: numbers of two types do not overlap
    ensures of_two_types { broken_rules (wide (case_of (reading 105 N)
        ((single 110 (pos 1) ∷ Single (typed_digits 113 Sint (pos 1)) ∷ []) ∷ []) ∷ [])) ≡ breaks WrongType 113 ∷ [] }
    // `CASE n OF 1..SINT#3 : INT#40000..40001 : END_CASE`
    ensures typed_bounds { broken_rules (wide (case_of (reading 105 N) ((Range (digits 110 (pos 1)) (typed_digits 113 Sint
        (pos 3)) ∷ [])
        ∷ (Range (typed_digits 122 Int (pos 40000)) (digits 133 (pos 40001)) ∷ []) ∷ []) ∷ []))
        ≡ breaks WrongType 113 ∷ breaks OutOfRange 122 ∷ breaks OutOfRange 133 ∷ [] }
    // `CASE n OF 4..5 : 1..9 : END_CASE`, and `1..9 : 4..5`: one inside the other
    ensures inside { broken_rules (wide (case_of (reading 105 N)
        ((between 110 (pos 4) 113 (pos 5) ∷ []) ∷ (between 117 (pos 1) 120 (pos 9) ∷ []) ∷ []) ∷ []))
        ≡ breaks WrongLabel 110 ∷ breaks WrongLabel 117 ∷ [] }
    ensures around { broken_rules (wide (case_of (reading 105 N)
        ((between 110 (pos 1) 113 (pos 9) ∷ []) ∷ (between 117 (pos 4) 120 (pos 5) ∷ []) ∷ []) ∷ []))
        ≡ breaks WrongLabel 110 ∷ breaks WrongLabel 117 ∷ [] }
    // `CASE n OF 4..5 : 1..3 : 7..7 : END_CASE`
    ensures descending { broken_rules (wide (case_of (reading 105 N) ((between 110 (pos 4) 113 (pos 5) ∷ [])
        ∷ (between 117 (pos 1) 120 (pos 3) ∷ []) ∷ (between 125 (pos 7) 128 (pos 7) ∷ []) ∷ []) ∷ [])) ≡ [] }
    // `CASE 5 OF 40000 : END_CASE`: an untyped selector is a LINT
    ensures untyped_selector { broken_rules (wide (case_of (number 105 (pos 5)) ((single 110 (pos 40000) ∷ []) ∷ []) ∷ []))
        ≡ [] }
    // `CASE b OF 1 : END_CASE`: the selector, and the label, which isn't one of its values
    ensures truth_selects { broken_rules (wide (case_of (reading 105 B) ((single 110 (pos 1) ∷ []) ∷ []) ∷ []))
        ≡ breaks WrongType 105 ∷ breaks WrongType 110 ∷ [] }
    // `CASE w OF 1 : END_CASE`: bits aren't a selector
    ensures bits_select { broken_rules (wide (case_of (reading 105 (codes "W")) ((single 110 (pos 1) ∷ []) ∷ []) ∷ []))
        ≡ breaks WrongType 105 ∷ [] }
    // `CASE m OF 1 : END_CASE`
    ensures unknown_selects { broken_rules (wide (case_of (reading 105 M) ((single 110 (pos 1) ∷ []) ∷ []) ∷ []))
        ≡ breaks UnknownName 105 ∷ [] }
{}
