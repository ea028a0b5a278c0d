//! Worked examples of the results of operators, each proved by computation.

ghost use Rattle.std.specs.Prelude.{◌≡◌, ◌∷◌, [], map, Ok, Err, pos, negsuc, Bool, true, false};
ghost use Rattle.st_types.specs.declared.kind.Kind.TheVariants.{Int, Sint, Usint, Byte, Word, Time};
ghost use Rattle.st_types.specs.declared.fault.Fault.TheVariants.{Range, DivisionByZero};
ghost use Rattle.st_types.specs.declared.operator.UnaryOperator.TheVariants.{Negate, Not};
ghost use Rattle.st_types.specs.declared.operator.BinaryOperator.TheVariants.{Or, Xor, And, Equal, NotEqual, Less};
ghost use Rattle.st_types.specs.declared.operator.BinaryOperator.TheVariants.{Greater, LessOrEqual, GreaterOrEqual};
ghost use Rattle.st_types.specs.declared.operator.BinaryOperator.TheVariants.{Add, Subtract, Multiply, Divide, Modulo};
ghost use Rattle.st_types.specs.Expressions.{unary, binary};
ghost use Rattle.st_meaning.specs.Failures.{fails};
ghost use Rattle.st_meaning.specs.Operators.{apply, apply_unary};
ghost use Rattle.st_meaning.specs.ProgramExamples.{after_with, variables, datum, set, number, name, bool, int, X, Y, by_0, A};

/// The result of each comparison of 1, 2 and 3 with 2, and of `=`, `<>`, `<`, `>`, `<=` and `>=` on two other pairs and on
/// equal operands.
pub fn comparisons()
    ensures equal { map (λ z. apply Equal (int z) (int (pos 2))) (pos 1 ∷ pos 2 ∷ pos 3 ∷ []) ≡ Ok (bool false)
        ∷ Ok (bool true) ∷ Ok (bool false) ∷ [] }
    ensures not_equal { map (λ z. apply NotEqual (int z) (int (pos 2))) (pos 1 ∷ pos 2 ∷ pos 3 ∷ []) ≡ Ok (bool true)
        ∷ Ok (bool false) ∷ Ok (bool true) ∷ [] }
    ensures less { map (λ z. apply Less (int z) (int (pos 2))) (pos 1 ∷ pos 2 ∷ pos 3 ∷ []) ≡ Ok (bool true)
        ∷ Ok (bool false) ∷ Ok (bool false) ∷ [] }
    ensures greater { map (λ z. apply Greater (int z) (int (pos 2))) (pos 1 ∷ pos 2 ∷ pos 3 ∷ []) ≡ Ok (bool false)
        ∷ Ok (bool false) ∷ Ok (bool true) ∷ [] }
    ensures less_or_equal { map (λ z. apply LessOrEqual (int z) (int (pos 2))) (pos 1 ∷ pos 2 ∷ pos 3 ∷ [])
        ≡ Ok (bool true) ∷ Ok (bool true) ∷ Ok (bool false) ∷ [] }
    ensures greater_or_equal { map (λ z. apply GreaterOrEqual (int z) (int (pos 2))) (pos 1 ∷ pos 2 ∷ pos 3 ∷ [])
        ≡ Ok (bool false) ∷ Ok (bool true) ∷ Ok (bool true) ∷ [] }
    // -3 with -2
    ensures below_0 { map (λ op. apply op (int (negsuc 2)) (int (negsuc 1)))
        (Equal ∷ NotEqual ∷ Less ∷ Greater ∷ LessOrEqual ∷ GreaterOrEqual ∷ [])
        ≡ map (λ b. Ok (bool b)) (false ∷ true ∷ true ∷ false ∷ true ∷ false ∷ []) }
    // T#5ms with T#-5ms
    ensures across_0 { map (λ op. apply op (datum Time (pos 5)) (datum Time (negsuc 4)))
        (Equal ∷ NotEqual ∷ Less ∷ Greater ∷ LessOrEqual ∷ GreaterOrEqual ∷ [])
        ≡ map (λ b. Ok (bool b)) (false ∷ true ∷ false ∷ true ∷ false ∷ true ∷ []) }
    // BYTE#16#FF with itself
    ensures equal_operands { map (λ op. apply op (datum Byte (pos 0xFF)) (datum Byte (pos 0xFF)))
        (Equal ∷ NotEqual ∷ Less ∷ Greater ∷ LessOrEqual ∷ GreaterOrEqual ∷ [])
        ≡ map (λ b. Ok (bool b)) (true ∷ false ∷ false ∷ false ∷ true ∷ true ∷ []) }
{}

/// `BYTE#5` with `BYTE#3`, and all four pairs of truths.
pub fn bit_operators()
    ensures or { apply Or (datum Byte (pos 5)) (datum Byte (pos 3)) ≡ Ok (datum Byte (pos 7)) }
    ensures xor { apply Xor (datum Byte (pos 5)) (datum Byte (pos 3)) ≡ Ok (datum Byte (pos 6)) }
    ensures and { apply And (datum Byte (pos 5)) (datum Byte (pos 3)) ≡ Ok (datum Byte (pos 1)) }
    ensures or_of_truths { map (λ (b : Bool × Bool). apply Or (bool b.0) (bool b.1)) ((false, false) ∷ (false, true)
        ∷ (true, false) ∷ (true, true) ∷ []) ≡ Ok (bool false) ∷ Ok (bool true) ∷ Ok (bool true) ∷ Ok (bool true) ∷ [] }
    ensures xor_of_truths { map (λ (b : Bool × Bool). apply Xor (bool b.0) (bool b.1))
        ((false, false) ∷ (false, true) ∷ (true, false) ∷ (true, true) ∷ []) ≡ Ok (bool false) ∷ Ok (bool true)
        ∷ Ok (bool true) ∷ Ok (bool false) ∷ [] }
    ensures and_of_truths { map (λ (b : Bool × Bool). apply And (bool b.0) (bool b.1))
        ((false, false) ∷ (false, true) ∷ (true, false) ∷ (true, true) ∷ []) ≡ Ok (bool false) ∷ Ok (bool false)
        ∷ Ok (bool false) ∷ Ok (bool true) ∷ [] }
    ensures not_of_a_byte { apply_unary Not (datum Byte (pos 0x0F)) ≡ Ok (datum Byte (pos 0xF0)) }
    ensures not_of_a_word { apply_unary Not (datum Word (pos 0x0F)) ≡ Ok (datum Word (pos 0xFFF0)) }
    ensures not_of_truths { map (λ b. apply_unary Not (bool b)) (false ∷ true ∷ []) ≡ Ok (bool true) ∷ Ok (bool false)
        ∷ [] }
{}

/// Sums, differences, products and signs; each is F1 if its result isn't in its type.
pub fn sums_and_signs()
    ensures sum { apply Add (int (pos 3)) (int (pos 5)) ≡ Ok (int (pos 8)) }
    ensures smaller_less_greater { apply Subtract (int (pos 3)) (int (pos 5)) ≡ Ok (int (negsuc 1)) }
    ensures greater_less_smaller { apply Subtract (int (pos 5)) (int (pos 3)) ≡ Ok (int (pos 2)) }
    ensures less_below_0 { apply Subtract (int (pos 5)) (int (negsuc 2)) ≡ Ok (int (pos 8)) }
    ensures below_an_unsigned { apply Subtract (datum Usint (pos 3)) (datum Usint (pos 5)) ≡ Err (fails Range) }
    ensures of_durations { apply Subtract (datum Time (pos 3)) (datum Time (pos 5)) ≡ Ok (datum Time (negsuc 1)) }
    ensures product { apply Multiply (int (pos 3)) (int (negsuc 4)) ≡ Ok (int (negsuc 14)) }
    ensures negated { apply_unary Negate (int (pos 5)) ≡ Ok (int (negsuc 4)) }
    ensures negated_twice { apply_unary Negate (int (negsuc 4)) ≡ Ok (int (pos 5)) }
    ensures negated_greatest { apply_unary Negate (int (pos 32767)) ≡ Ok (int (negsuc 32766)) }
    // INT#-32768 and SINT#-128
    ensures negated_least { apply_unary Negate (int (negsuc 32767)) ≡ Err Range }
    ensures negated_least_sint { apply_unary Negate (datum Sint (negsuc 127)) ≡ Err Range }
{}

/// A quotient is truncated toward zero, and `a MOD 0` is 0.
pub fn division()
    ensures quotient { apply Divide (int (negsuc 6)) (int (pos 3)) ≡ Ok (int (negsuc 1)) }
    ensures remainder { apply Modulo (int (negsuc 6)) (int (pos 3)) ≡ Ok (int (negsuc 0)) }
    ensures remainder_by_0 { apply Modulo (int (pos 5)) (int (pos 0)) ≡ Ok (int (pos 0)) }
    ensures by_0 { apply Divide (int (pos 5)) (int (pos 0)) ≡ Err (fails DivisionByZero) }
    // SINT#-128 / -1 leaves the type.
    ensures least_by_minus_1 { apply Divide (datum Sint (negsuc 127)) (datum Sint (negsuc 0)) ≡ Err (fails Range) }
{}

/// The expression to the left of an operator in a text is its left operand, and an operator before an expression works on
/// its value.
#[tactic(auto, unfolding(crate::specs::Runs::ran, crate::specs::Runs::ran_where, crate::specs::Runs::store_after, crate::specs::Runs::units_within))]
pub fn operators_in_a_text()
    // y := x - 5; with x = 3
    ensures difference { after_with [] (set Y (binary Subtract (name X) (number Int (pos 5))) ∷ [])
        ((X, int (pos 3)) ∷ (Y, int (pos 0)) ∷ []) ≡ variables ((X, int (pos 3)) ∷ (Y, int (negsuc 1)) ∷ []) }
    // y := x < 5; with x = 3
    ensures comparison { after_with [] (set Y (binary Less (name X) (number Int (pos 5))) ∷ [])
        ((X, int (pos 3)) ∷ (Y, bool false) ∷ []) ≡ variables ((X, int (pos 3)) ∷ (Y, bool true) ∷ []) }
    // y := - x; with x = 5
    ensures sign { after_with [] (set Y (unary Negate 0 (name X)) ∷ []) ((X, int (pos 5)) ∷ (Y, int (pos 0)) ∷ [])
        ≡ variables ((X, int (pos 5)) ∷ (Y, int (negsuc 4)) ∷ []) }
    // y := NOT x; with x FALSE
    ensures turned { after_with [] (set Y (unary Not 0 (name X)) ∷ []) ((X, bool false) ∷ (Y, bool false) ∷ [])
        ≡ variables ((X, bool false) ∷ (Y, bool true) ∷ []) }
{}
