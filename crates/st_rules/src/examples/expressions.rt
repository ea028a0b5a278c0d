//! Expressions.

ghost use Rattle.std.specs.Prelude.{◌≡◌, ◌∷◌, [], pos, negsuc, true, codes, None, Some};
ghost use Rattle.st_types.specs.declared.kind.Kind.TheVariants.{Int, Dint, Sint, Word, Byte};
ghost use Rattle.st_types.specs.declared.operator.UnaryOperator.TheVariants.{Negate, Not};
ghost use Rattle.st_types.specs.declared.operator.BinaryOperator.TheVariants.{Equal, Add, Less, Multiply, And};
ghost use Rattle.st_types.specs.declared.operator.BinaryOperator.TheVariants.{Or, NotEqual, Modulo};
ghost use Rattle.st_types.specs.declared.data_type.SimpleType.TheVariants.{Elementary};
ghost use Rattle.st_types.specs.declared.declaration.Section.TheVariants.{Input, Local};
ghost use Rattle.st_types.specs.declared.unit.UnitSort.TheVariants.{Function, Program};
ghost use Rattle.st_types.specs.Expressions.{read, unary, binary, parenthesis};
ghost use Rattle.st_types.specs.Statements.{assign};
ghost use Rattle.st_rules.specs.declared.rule.Rule.TheVariants.{UnknownName, WrongType, OutOfRange, WrongArguments};
ghost use Rattle.st_rules.specs.ExampleWords.{broken_rules};
ghost use Rattle.st_rules.specs.ExampleWords.{setting, breaks, number, typed, bool_literal, duration, name, reading};
ghost use Rattle.st_rules.specs.ExampleWords.{element};
ghost use Rattle.st_rules.specs.ExampleWords.{part};
ghost use Rattle.st_rules.specs.ExampleWords.{calling, wide, calls_sq, N, M};
ghost use Rattle.st_rules.specs.ExampleWords.{B, F, P};

/// In `PROGRAM P VAR n : INT; b : BOOL; w : WORD; a : ARRAY [1..2] OF INT; f : TON; d : TIME; u : UINT; END_VAR`.
pub fn operators()
    // `b := b = 1`: an untyped operand beside a BOOL is a LINT
    ensures truth_and_number { broken_rules (wide (setting 100 B (binary Equal (reading 105 B) (number 109 (pos 1))) ∷ []))
        ≡ breaks WrongType 105 ∷ [] }
    // `b := n = 1`
    ensures whole_numbers { broken_rules (wide (setting 100 B (binary Equal (reading 105 N) (number 109 (pos 1))) ∷ []))
        ≡ [] }
    // `b := b < b`
    ensures truths_in_order { broken_rules (wide (setting 100 B (binary Less (reading 105 B) (reading 109 B)) ∷ []))
        ≡ breaks WrongType 105 ∷ [] }
    // `n := n + w`
    ensures two_types { broken_rules (wide (setting 100 N (binary Add (reading 105 N) (reading 109 (codes "W"))) ∷ []))
        ≡ breaks WrongType 105 ∷ [] }
    // `d := d * d`
    ensures durations_multiplied { broken_rules (wide (assign (name 100 (codes "D"))
        (binary Multiply (reading 105 (codes "D")) (reading 109 (codes "D")))
        ∷ [])) ≡ breaks WrongType 105 ∷ [] }
    // `d := d + T#1ms`
    ensures durations_added { broken_rules (wide (setting 100 (codes "D") (binary Add (reading 105 (codes "D"))
        (duration 109 1)) ∷ []))
        ≡ [] }
    // `w := NOT w`
    ensures bits_turned { broken_rules (wide (setting 100 (codes "W") (unary Not 105 (reading 109 (codes "W"))) ∷ []))
        ≡ [] }
    // `n := NOT n`
    ensures number_turned { broken_rules (wide (setting 100 N (unary Not 105 (reading 109 N)) ∷ []))
        ≡ breaks WrongType 105 ∷ [] }
    // `u := -u`: without a sign
    ensures without_sign { broken_rules (wide (setting 100 (codes "U") (unary Negate 105 (reading 106 (codes "U"))) ∷ []))
        ≡ breaks WrongType 105 ∷ [] }
    // `n := (2 + 3) * n`: the untyped part takes INT
    ensures untyped_part { broken_rules (wide (setting 100 N (binary Multiply
        (parenthesis 105 (binary Add (number 106 (pos 2)) (number 110 (pos 3)))) (reading 115 N)) ∷ [])) ≡ [] }
    // `n := (2 + 40000) * n`
    ensures untyped_part_too_great { broken_rules (wide (setting 100 N (binary Multiply
        (parenthesis 105 (binary Add (number 106 (pos 2)) (number 110 (pos 40000)))) (reading 115 N)) ∷ []))
        ≡ breaks OutOfRange 110 ∷ [] }
    // `n := SINT#200`
    ensures typed_literal { broken_rules (wide (setting 100 N (typed 105 Sint (pos 200)) ∷ []))
        ≡ breaks WrongType 105 ∷ breaks OutOfRange 105 ∷ [] }
    // `w := w AND 16#FFFF`
    ensures bits { broken_rules (wide (assign (name 100 (codes "W"))
        (binary And (reading 105 (codes "W")) (number 111 (pos 65535))) ∷ [])) ≡ [] }
    // `w := w AND 16#10000`
    ensures too_many_bits { broken_rules (wide (assign (name 100 (codes "W"))
        (binary And (reading 105 (codes "W")) (number 111 (pos 65536))) ∷ [])) ≡ breaks OutOfRange 111 ∷ [] }
    // `b := w < w`: bit strings have an order
    ensures bits_in_order { broken_rules (wide (setting 100 B (binary Less (reading 105 (codes "W")) (reading 109
        (codes "W"))) ∷ []))
        ≡ [] }
    // `n := n OR n`
    ensures numbers_joined { broken_rules (wide (setting 100 N (binary Or (reading 105 N) (reading 110 N)) ∷ []))
        ≡ breaks WrongType 105 ∷ [] }
    // `b := b <> b`
    ensures truths_compared { broken_rules (wide (setting 100 B (binary NotEqual (reading 105 B) (reading 110 B)) ∷ []))
        ≡ [] }
    // `d := d MOD d`
    ensures durations_divided { broken_rules (wide (setting 100 (codes "D")
        (binary Modulo (reading 105 (codes "D")) (reading 111 (codes "D"))) ∷ [])) ≡ breaks WrongType 105 ∷ [] }
{}

/// Calls of standard functions in the same program.
pub fn standard_functions()
    // `w := SHL(1, 2)`: the call is a LINT, and its first argument isn't a bit string
    ensures shift_of_untyped { broken_rules (wide (assign (name 100 (codes "W"))
        (calling 105 (codes "SHL") (number 109 (pos 1) ∷ number 112 (pos 2)
        ∷ [])) ∷ [])) ≡ breaks WrongType 105 ∷ breaks WrongType 109 ∷ [] }
    // `w := SHL(w, 2)`
    ensures shift { broken_rules (wide (setting 100 (codes "W") (calling 105 (codes "SHL") (reading 109 (codes "W")
        ∷ number 112 (pos 2) ∷ [])) ∷ [])) ≡ [] }
    // `w := SHL(w, w)`: a count is a whole number
    ensures count_of_bits { broken_rules (wide (setting 100 (codes "W") (calling 105 (codes "SHL") (reading 109 (codes "W")
        ∷ reading 112 (codes "W") ∷ [])) ∷ [])) ≡ breaks WrongType 112 ∷ [] }
    // `n := ABS(n, n)`
    ensures too_many { broken_rules
        (wide (setting 100 N (calling 105 (codes "ABS") (reading 109 N ∷ reading 112 N ∷ [])) ∷ []))
        ≡ breaks WrongArguments 105 ∷ [] }
    // `n := ABS(m)`, m unknown: this is reported, and that the call is a LINT
    ensures of_unknown { broken_rules (wide (setting 100 N (calling 105 (codes "ABS") (reading 109 M ∷ [])) ∷ []))
        ≡ breaks WrongType 105 ∷ breaks UnknownName 109 ∷ [] }
    // `n := MAX(1, n)`
    ensures greater { broken_rules
        (wide (setting 100 N (calling 105 (codes "MAX") (number 109 (pos 1) ∷ reading 112 N ∷ [])) ∷ []))
        ≡ [] }
    // `n := MAX(w, w)`
    ensures greater_of_bits { broken_rules (wide (assign (name 100 N)
        (calling 105 (codes "MAX") (reading 109 (codes "W") ∷ reading 112 (codes "W")
        ∷ [])) ∷ []))
        ≡ breaks WrongType 105 ∷ breaks WrongType 109 ∷ breaks WrongType 112 ∷ [] }
    // `d := LIMIT(T#1ms, d, T#9ms)`
    ensures limits { broken_rules
        (wide (setting 100 (codes "D") (calling 105 (codes "LIMIT") (duration 111 1 ∷ reading 118 (codes "D")
        ∷ duration 121 9 ∷ [])) ∷ [])) ≡ [] }
    // `n := SEL(n, 1, 2)`: not a condition
    ensures no_condition { broken_rules (wide (assign (name 100 N)
        (calling 105 (codes "SEL") (reading 109 N ∷ reading 112 N ∷ number 115 (pos 2)
        ∷ [])) ∷ [])) ≡ breaks WrongType 109 ∷ [] }
    // `n := UINT_TO_INT(5)`: the literal is a UINT
    ensures conversion { broken_rules
        (wide (setting 100 N (calling 105 (codes "UINT_TO_INT") (number 117 (pos 5) ∷ [])) ∷ [])) ≡ [] }
    // `n := UINT_TO_INT(-5)`
    ensures conversion_of_less { broken_rules (wide (setting 100 N (calling 105 (codes "UINT_TO_INT") (number 117
        (negsuc 4) ∷ [])) ∷ []))
        ≡ breaks OutOfRange 117 ∷ [] }
    // `n := INT_TO_INT(n)`: not a standard function
    ensures conversion_to_itself { broken_rules (wide (setting 100 N (calling 105 (codes "INT_TO_INT") (reading 116 N
        ∷ [])) ∷ []))
        ≡ breaks UnknownName 105 ∷ [] }
    // `n := ROR(n, 1)`: not a bit string
    ensures number_turned { broken_rules (wide (setting 100 N (calling 105 (codes "ROR") (reading 109 N
        ∷ number 112 (pos 1) ∷ [])) ∷ []))
        ≡ breaks WrongType 109 ∷ [] }
    // `d := ABS(d)`: a duration isn't a whole number
    ensures of_duration { broken_rules (wide (setting 100 (codes "D") (calling 105 (codes "ABS") (reading 109 (codes "D")
        ∷ [])) ∷ []))
        ≡ breaks WrongType 109 ∷ [] }
{}

/// Parts of variables in the same program.
pub fn places()
    // `n := a[TRUE]`
    ensures subscript_of_truth { broken_rules (wide (setting 100 N (read (element 105 (codes "A") (bool_literal 107 true))) ∷ []))
        ≡ breaks WrongType 107 ∷ [] }
    // `n := a[w]`: bits aren't a whole number
    ensures subscript_of_bits { broken_rules (wide (setting 100 N (read (element 105 (codes "A") (reading 107
        (codes "W")))) ∷ []))
        ≡ breaks WrongType 107 ∷ [] }
    // `n := a[u]`
    ensures subscript { broken_rules
        (wide (setting 100 N (read (element 105 (codes "A") (reading 107 (codes "U")))) ∷ [])) ≡ [] }
    // `b := f.Q`
    ensures output { broken_rules (wide (setting 100 B (read (part 105 F 107 (codes "Q"))) ∷ [])) ≡ [] }
    // `b := f.RUN`: hidden from texts
    ensures hidden { broken_rules (wide (setting 100 B (read (part 105 F 107 (codes "RUN"))) ∷ []))
        ≡ breaks UnknownName 107 ∷ [] }
    // `n := n + a`: an array isn't an operand
    ensures array_as_operand { broken_rules (wide (setting 100 N (binary Add (reading 105 N) (reading 109 (codes "A"))) ∷ []))
        ≡ breaks WrongType 105 ∷ [] }
    // `n := P`: a unit isn't a variable
    ensures unit { broken_rules (wide (setting 100 N (reading 105 P) ∷ [])) ≡ breaks UnknownName 105 ∷ [] }
{}

/// Calls of `FUNCTION Sq : DINT VAR_INPUT x : INT; END_VAR` in a program with a DINT n and a BOOL b.
pub fn functions()
    // `n := Sq(3)`
    ensures fitting { broken_rules (calls_sq (setting 100 N (calling 105 (codes "SQ") (number 108 (pos 3) ∷ [])) ∷ []))
        ≡ [] }
    // `n := Sq(n)`: INT is wanted
    ensures other_type { broken_rules (calls_sq (setting 100 N (calling 105 (codes "SQ") (reading 108 N ∷ [])) ∷ []))
        ≡ breaks WrongType 108 ∷ [] }
    // `n := Sq(40000)`
    ensures too_great { broken_rules
        (calls_sq (setting 100 N (calling 105 (codes "SQ") (number 108 (pos 40000) ∷ [])) ∷ []))
        ≡ breaks OutOfRange 108 ∷ [] }
    // `b := Sq(3)`
    ensures other_result { broken_rules (calls_sq (setting 100 B (calling 105 (codes "SQ") (number 108 (pos 3) ∷ [])) ∷ []))
        ≡ breaks WrongType 105 ∷ [] }
    // `n := Sq(1, 2)`
    ensures too_many { broken_rules
        (calls_sq (setting 100 N (calling 105 (codes "SQ") (number 108 (pos 1) ∷ number 111 (pos 2) ∷ [])) ∷ []))
        ≡ breaks WrongArguments 105 ∷ [] }
    // `n := P(1)`: a program isn't a function
    ensures of_a_program { broken_rules (calls_sq (setting 100 N (calling 105 P (number 107 (pos 1) ∷ [])) ∷ []))
        ≡ breaks UnknownName 105 ∷ [] }
    // `n := Sq()`
    ensures too_few { broken_rules (calls_sq (setting 100 N (calling 105 (codes "SQ") []) ∷ []))
        ≡ breaks WrongArguments 105 ∷ [] }
{}
