//! Worked examples of CASE, each proved by computation.

ghost use Rattle.std.specs.Prelude.{◌≡◌, ℕ, ℤ, ◌∷◌, [], List, map, Some, pos, negsuc, true, false};
ghost use Rattle.st_types.specs.declared.kind.Kind.TheVariants.{Int};
ghost use Rattle.st_types.specs.declared.literal.Number.{Number};
ghost use Rattle.st_types.specs.declared.statement.Label.TheVariants.{Single, Range};
ghost use Rattle.st_types.specs.Statements.{Stmt, stmts_of, case_arms_of, CASE};
ghost use Rattle.st_meaning.specs.ProgramExamples.{after_with, variables, set, number, name, int, X, Y};

/// CASE runs the first list with a label that holds the selector, else the ELSE list: y for x from 0 to 8 after
/// `CASE x OF 1..3: y := 1; 5, 7: y := 2; 2, 6..8: y := 3; ELSE y := 9; END_CASE;`.
#[tactic(auto, unfolding(crate::specs::Runs::ran, crate::specs::Runs::ran_where, crate::specs::Runs::store_after, crate::specs::Runs::units_within))]
pub fn lists_of_a_case()
    ensures with_else { let label : ℕ → Number = λ m.
        record { place = 0; is_negative = false; magnitude = m; written = None; is_decimal = true; taken = Some Int } in
        let statements : List Stmt = CASE (name X) (case_arms_of (
        (Range (label 1) (label 3) ∷ [], stmts_of (set Y (number Int (pos 1)) ∷ []))
        ∷ (Single (label 5) ∷ Single (label 7) ∷ [], stmts_of (set Y (number Int (pos 2)) ∷ []))
        ∷ (Single (label 2) ∷ Range (label 6) (label 8) ∷ [], stmts_of (set Y (number Int (pos 3)) ∷ []))
        ∷ [])) (stmts_of (set Y (number Int (pos 9)) ∷ [])) ∷ [] in
        map (λ x. after_with [] statements ((X, int (pos x)) ∷ (Y, int (pos 0)) ∷ []))
        (0 ∷ 1 ∷ 2 ∷ 3 ∷ 4 ∷ 5 ∷ 6 ∷ 7 ∷ 8 ∷ [])
        ≡ map (λ (e : ℕ × ℕ). variables ((X, int (pos e.0)) ∷ (Y, int (pos e.1)) ∷ []))
        ((0, 9) ∷ (1, 1) ∷ (2, 1) ∷ (3, 1) ∷ (4, 9) ∷ (5, 2) ∷ (6, 3) ∷ (7, 2) ∷ (8, 3) ∷ []) }
    // CASE x OF -3..-1: y := 1; END_CASE;
    ensures without_else { let label : ℕ → Number = λ m.
        record { place = 0; is_negative = true; magnitude = m; written = None; is_decimal = true; taken = Some Int } in
        let statements : List Stmt = CASE (name X) (case_arms_of
        ((Range (label 3) (label 1) ∷ [], stmts_of (set Y (number Int (pos 1)) ∷ [])) ∷ [])) (stmts_of []) ∷ [] in
        map (λ x. after_with [] statements ((X, int x) ∷ (Y, int (pos 0)) ∷ []))
        (negsuc 3 ∷ negsuc 2 ∷ negsuc 1 ∷ negsuc 0 ∷ pos 0 ∷ pos 2 ∷ [])
        ≡ map (λ (e : ℤ × ℕ). variables ((X, int e.0) ∷ (Y, int (pos e.1)) ∷ []))
        ((negsuc 3, 0) ∷ (negsuc 2, 1) ∷ (negsuc 1, 1) ∷ (negsuc 0, 1) ∷ (pos 0, 0) ∷ (pos 2, 0) ∷ []) }
{}
