//! Worked examples of initial values, each proved by computation.

ghost use Rattle.std.specs.Prelude.{◌≡◌, ◌∷◌, [], map, codes, true};
ghost use Rattle.st_types.specs.declared.kind.Kind.TheVariants.{Int, Dint, Byte, Time, Bool as Boolean, Enumerated};
ghost use Rattle.st_types.specs.declared.literal.Literal.TheVariants as literals;
ghost use Rattle.st_types.specs.declared.data_type.SimpleType.TheVariants.{Elementary};
ghost use Rattle.st_types.specs.Initials.{constant, single, repeated};
ghost use Rattle.st_meaning.specs.ResolutionExamples.{of_type, plain_number};
ghost use Rattle.layout.specs.LayoutExamples.{typed_amount, plain, array_of, array_from_below, named};
ghost use Rattle.layout.specs.LayoutExamples.{without_initial};
ghost use Rattle.layout.specs.LayoutExamples.{with_initial, both_with_initial, amount, named_value, times};
ghost use Rattle.layout.specs.LayoutExamples.{default_times, listing, with_fields, field, field_with};
ghost use Rattle.layout.specs.LayoutExamples.{structure_of, variables_text, values_in, int, datum};
ghost use Rattle.layout.specs.InitialExamples.{nested_types, modes, mode};

/// A variable starts with its declared value, or else with 0, FALSE or T#0s; a value goes for all names of its declaration.
#[tactic(auto, unfolding(crate::specs::Types::shape_within, st_meaning::specs::StandardBlocks::block_of))]
pub fn values_of_variables()
    ensures defaults { values_in (variables_text [] (without_initial (codes "N") (plain Int)
        ∷ without_initial (codes "B") (plain Boolean) ∷ without_initial (codes "T") (plain Time) ∷ []))
        ≡ (codes "R/P.N", int 0) ∷ (codes "R/P.B", datum Boolean 0) ∷ (codes "R/P.T", datum Time 0) ∷ [] }
    // n, m : INT := 3; b : BOOL := TRUE; t : TIME := T#5ms;
    ensures declared { values_in (variables_text [] (both_with_initial (codes "N") (codes "M") (plain Int) (amount 3)
        ∷ with_initial (codes "B") (plain Boolean) (constant (literals.Truth 0 true))
        ∷ with_initial (codes "T") (plain Time) (constant (literals.Duration 0 5)) ∷ []))
        ≡ (codes "R/P.N", int 3) ∷ (codes "R/P.M", int 3) ∷ (codes "R/P.B", datum Boolean 1)
        ∷ (codes "R/P.T", datum Time 5) ∷ [] }
{}

/// A list gives the elements from the lower bound on; `3(0)` stands for three of them, `3()` for three of the default
/// value, and the rest of the array has the default value.
#[tactic(auto, unfolding(crate::specs::Types::shape_within, st_meaning::specs::StandardBlocks::block_of))]
pub fn lists_of_elements()
    // a : ARRAY [-1..3] OF INT := [2(4), 2(), 5];
    ensures whole { values_in (variables_text [] (with_initial (codes "A") (array_from_below 1 3 (Elementary Int 0))
        (listing (times 2 (amount 4) ∷ default_times 2 ∷ single (amount 5) ∷ [])) ∷ []))
        ≡ (codes "R/P.A[-1]", int 4) ∷ (codes "R/P.A[0]", int 4) ∷ (codes "R/P.A[1]", int 0)
        ∷ (codes "R/P.A[2]", int 0) ∷ (codes "R/P.A[3]", int 5) ∷ [] }
    // a : ARRAY [1..4] OF INT := [1, 3(0)]; and [7];
    ensures repeated { values_in (variables_text [] (with_initial (codes "A") (array_of 1 4 (Elementary Int 0))
        (listing (single (amount 1) ∷ times 3 (amount 0) ∷ [])) ∷ []))
        ≡ (codes "R/P.A[1]", int 1) ∷ (codes "R/P.A[2]", int 0) ∷ (codes "R/P.A[3]", int 0)
        ∷ (codes "R/P.A[4]", int 0) ∷ [] }
    ensures short { values_in (variables_text [] (with_initial (codes "A") (array_of 1 3 (Elementary Int 0))
        (listing (single (amount 7) ∷ [])) ∷ []))
        ≡ (codes "R/P.A[1]", int 7) ∷ (codes "R/P.A[2]", int 0) ∷ (codes "R/P.A[3]", int 0) ∷ [] }
    // a : ARRAY [1..2] OF INT := [0(9), 3]; a count of 0 stands for no element
    ensures none { values_in (variables_text [] (with_initial (codes "A") (array_of 1 2 (Elementary Int 0))
        (listing (times 0 (amount 9) ∷ default_times 0 ∷ single (amount 3) ∷ [])) ∷ []))
        ≡ (codes "R/P.A[1]", int 3) ∷ (codes "R/P.A[2]", int 0) ∷ [] }
    // a : ARRAY [1..2] OF INT; and without a list
    ensures without { values_in (variables_text [] (without_initial (codes "A") (array_of 1 2 (Elementary Int 0))
        ∷ [])) ≡ (codes "R/P.A[1]", int 0) ∷ (codes "R/P.A[2]", int 0) ∷ [] }
{}

/// A field that is left out has the value of its own declaration; a given value replaces it whole.
#[tactic(auto, unfolding(crate::specs::Types::shape_within, st_meaning::specs::StandardBlocks::block_of))]
pub fn fields_of_structures()
    // s : Pair; where Pair has u : INT := 1; v : ARRAY [0..1] OF INT := [7, 8]; w : BOOL;
    ensures declared { values_in (variables_text nested_types (without_initial (codes "S") (of_type (codes "PAIR"))
        ∷ []))
        ≡ (codes "R/P.S.U", int 1) ∷ (codes "R/P.S.V[0]", int 7) ∷ (codes "R/P.S.V[1]", int 8)
        ∷ (codes "R/P.S.W", datum Boolean 0) ∷ [] }
    // s : Pair := (v := [9]); the list replaces that of the field whole
    ensures given { values_in (variables_text nested_types (with_initial (codes "S") (of_type (codes "PAIR"))
        (with_fields ((codes "V", listing (single (amount 9) ∷ [])) ∷ [])) ∷ []))
        ≡ (codes "R/P.S.U", int 1) ∷ (codes "R/P.S.V[0]", int 9) ∷ (codes "R/P.S.V[1]", int 0)
        ∷ (codes "R/P.S.W", datum Boolean 0) ∷ [] }
    // s : Pair := (w := TRUE, u := 4); fields in any order
    ensures in_any_order { values_in (variables_text nested_types (with_initial (codes "S") (of_type (codes "PAIR"))
        (with_fields ((codes "W", constant (literals.Truth 0 true)) ∷ (codes "U", amount 4) ∷ [])) ∷ []))
        ≡ (codes "R/P.S.U", int 4) ∷ (codes "R/P.S.V[0]", int 7) ∷ (codes "R/P.S.V[1]", int 8)
        ∷ (codes "R/P.S.W", datum Boolean 1) ∷ [] }
    // o : Whole; where Whole has p : Point := (x := 5); and Point has x : INT := 1; y : INT := 2;
    ensures of_the_field { values_in (variables_text nested_types (without_initial (codes "O") (of_type (codes "WHOLE"))
        ∷ [])) ≡ (codes "R/P.O.P.X", int 5) ∷ (codes "R/P.O.P.Y", int 2) ∷ [] }
    // o : Whole := (p := (y := 3)); the field x that is left out there has the value of its own declaration
    ensures of_the_type { values_in (variables_text nested_types (with_initial (codes "O") (of_type (codes "WHOLE"))
        (with_fields ((codes "P", with_fields ((codes "Y", amount 3) ∷ [])) ∷ [])) ∷ []))
        ≡ (codes "R/P.O.P.X", int 1) ∷ (codes "R/P.O.P.Y", int 3) ∷ [] }
{}

/// An element that a list leaves out has the default of its type: for a structure, the values of its fields.
#[tactic(auto, unfolding(crate::specs::Types::shape_within, st_meaning::specs::StandardBlocks::block_of))]
pub fn arrays_of_structures()
    // a : ARRAY [1..4] OF Point := [(x := 6), 1(), (y := 7)];
    ensures of_a_structure { values_in (variables_text nested_types (with_initial (codes "A")
        (array_of 1 4 (named (codes "POINT"))) (listing (single (with_fields ((codes "X", amount 6) ∷ []))
        ∷ default_times 1 ∷ single (with_fields ((codes "Y", amount 7) ∷ [])) ∷ [])) ∷ []))
        ≡ (codes "R/P.A[1].X", int 6) ∷ (codes "R/P.A[1].Y", int 2) ∷ (codes "R/P.A[2].X", int 1)
        ∷ (codes "R/P.A[2].Y", int 2) ∷ (codes "R/P.A[3].X", int 1) ∷ (codes "R/P.A[3].Y", int 7)
        ∷ (codes "R/P.A[4].X", int 1) ∷ (codes "R/P.A[4].Y", int 2) ∷ [] }
    // b : Table := [2((x := 6))]; where Table is ARRAY [0..1] OF Line and Line ARRAY [1..2] OF Point
    ensures of_arrays { values_in (variables_text nested_types (with_initial (codes "B") (of_type (codes "TABLE"))
        (listing (times 1 (listing (times 2 (with_fields ((codes "X", amount 6) ∷ [])) ∷ [])) ∷ [])) ∷ []))
        ≡ (codes "R/P.B[0][1].X", int 6) ∷ (codes "R/P.B[0][1].Y", int 2) ∷ (codes "R/P.B[0][2].X", int 6)
        ∷ (codes "R/P.B[0][2].Y", int 2) ∷ (codes "R/P.B[1][1].X", int 1) ∷ (codes "R/P.B[1][1].Y", int 2)
        ∷ (codes "R/P.B[1][2].X", int 1) ∷ (codes "R/P.B[1][2].Y", int 2) ∷ [] }
{}

/// A variable of an enumerated type starts with its first name, a field and an element too.
#[tactic(auto, unfolding(crate::specs::Types::shape_within, st_meaning::specs::StandardBlocks::block_of))]
pub fn values_of_enumerated_types()
    // r : Rec; where Rec has m : Mode; n : Mode := Running; and s : Rec := (m := Fault);
    ensures fields { values_in (variables_text modes (without_initial (codes "R") (of_type (codes "REC"))
        ∷ with_initial (codes "S") (of_type (codes "REC")) (with_fields ((codes "M", named_value (codes "FAULT")) ∷ []))
        ∷ []))
        ≡ (codes "R/P.R.M", datum mode 0) ∷ (codes "R/P.R.N", datum mode 1) ∷ (codes "R/P.S.M", datum mode 2)
        ∷ (codes "R/P.S.N", datum mode 1) ∷ [] }
    // a : ARRAY [0..2] OF Mode := [Running, 1()];
    ensures elements { values_in (variables_text modes (with_initial (codes "A") (array_of 0 2 (named (codes "MODE")))
        (listing (single (named_value (codes "RUNNING")) ∷ default_times 1 ∷ [])) ∷ []))
        ≡ (codes "R/P.A[0]", datum mode 1) ∷ (codes "R/P.A[1]", datum mode 0) ∷ (codes "R/P.A[2]", datum mode 0)
        ∷ [] }
{}

/// A value that isn't one of the variable's type isn't an initial value: no well-typed text has one.
#[tactic(auto, unfolding(crate::specs::Types::shape_within, st_meaning::specs::StandardBlocks::block_of))]
pub fn values_that_do_not_fit()
    // n : INT := TRUE; m : INT := 40000; k : INT := [1]; a : ARRAY [0..0] OF INT := INT#1;
    ensures { values_in (variables_text [] (with_initial (codes "N") (plain Int) (constant (literals.Truth 0 true))
        ∷ with_initial (codes "M") (plain Int) (amount 40000)
        ∷ with_initial (codes "K") (plain Int) (listing (single (amount 1) ∷ []))
        ∷ with_initial (codes "A") (array_of 0 0 (Elementary Int 0)) (typed_amount Int 1) ∷ []))
        ≡ (codes "R/P.N", int 0) ∷ (codes "R/P.M", int 0) ∷ (codes "R/P.K", int 0) ∷ (codes "R/P.A[0]", int 0) ∷ [] }
{}
