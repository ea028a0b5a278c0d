//! Worked examples of functions, standard ones and those of a text, each proved by computation.

ghost use Rattle.std.specs.Prelude.{◌≡◌, ◌∷◌, [], Ok, Err, Some, None, pos, negsuc, codes, true, false};
ghost use Rattle.st_types.specs.declared.kind.Kind.TheVariants.{Int, Dint, Sint, Usint, Byte, Lword, Bool};
ghost use Rattle.st_types.specs.declared.fault.Fault.TheVariants.{Range, Conversion, Budget};
ghost use Rattle.st_meaning.specs.Failures.{fails};
ghost use Rattle.st_meaning.specs.StandardFunctions.{standard_value, standard_of, ABS, MIN, MAX, LIMIT, SEL, SHL, SHR};
ghost use Rattle.st_meaning.specs.StandardFunctions.{ROL, ROR, CONVERT};
ghost use Rattle.st_meaning.specs.Loops.{goes_on};
ghost use Rattle.st_meaning.specs.ProgramExamples.{ran_with, variables, datum, square, squared, bool, int, A, Y};

/// The results of standard functions at the ends of types, and their faults.
pub fn standard_functions()
    ensures abs_of_the_least { standard_value ABS (datum Sint (negsuc 127) ∷ []) ≡ Err (fails Range) }
    ensures int_to_usint { standard_value (CONVERT Int Usint) (int (pos 256) ∷ []) ≡ Err (fails Conversion) }
    ensures byte_to_sint { standard_value (CONVERT Byte Sint) (datum Byte (pos 0x80) ∷ []) ≡ Err (fails Conversion) }
    ensures shl { standard_value SHL (datum Byte (pos 0x81) ∷ int (pos 1) ∷ []) ≡ Ok (datum Byte (pos 0x02)) }
    ensures rol { standard_value ROL (datum Byte (pos 0x81) ∷ int (pos 1) ∷ []) ≡ Ok (datum Byte (pos 0x03)) }
    ensures ror_by_9 { standard_value ROR (datum Byte (pos 0x81) ∷ int (pos 9) ∷ []) ≡ Ok (datum Byte (pos 0xC0)) }
    ensures shr_by_8 { standard_value SHR (datum Byte (pos 0x81) ∷ int (pos 8) ∷ []) ≡ Ok (datum Byte (pos 0)) }
    ensures min { standard_value MIN (int (pos 3) ∷ int (negsuc 0) ∷ []) ≡ Ok (int (negsuc 0)) }
    ensures max { standard_value MAX (int (pos 3) ∷ int (negsuc 0) ∷ []) ≡ Ok (int (pos 3)) }
    ensures limit { standard_value LIMIT (int (pos 0) ∷ int (pos 5) ∷ int (pos 9) ∷ []) ≡ Ok (int (pos 5)) }
    ensures limit_below { standard_value LIMIT (int (pos 0) ∷ int (negsuc 2) ∷ int (pos 9) ∷ []) ≡ Ok (int (pos 0)) }
    ensures limit_above { standard_value LIMIT (int (pos 0) ∷ int (pos 12) ∷ int (pos 9) ∷ []) ≡ Ok (int (pos 9)) }
    // LIMIT(9, 5, 0) is MIN(MAX(5, 9), 0).
    ensures limit_of_none { standard_value LIMIT (int (pos 9) ∷ int (pos 5) ∷ int (pos 0) ∷ []) ≡ Ok (int (pos 0)) }
    ensures sel_of_false { standard_value SEL (bool false ∷ int (pos 4) ∷ int (pos 7) ∷ []) ≡ Ok (int (pos 4)) }
    ensures sel_of_true { standard_value SEL (bool true ∷ int (pos 4) ∷ int (pos 7) ∷ []) ≡ Ok (int (pos 7)) }
    ensures rol_by_minus_1 { standard_value ROL (datum Byte (pos 0x81) ∷ int (negsuc 0) ∷ []) ≡ Err (fails Range) }
{}

/// A standard function is found by its name; `INT_TO_INT` and `TIME_TO_INT` do not exist.
#[tactic(auto, unfolding(crate::specs::StandardFunctions::standard_of, crate::specs::StandardFunctions::standard_functions))]
pub fn names_of_standard_functions()
    ensures abs { standard_of (codes "ABS") ≡ Some ABS }
    ensures int_to_usint { standard_of (codes "INT_TO_USINT") ≡ Some (CONVERT Int Usint) }
    ensures bool_to_lword { standard_of (codes "BOOL_TO_LWORD") ≡ Some (CONVERT Bool Lword) }
    ensures int_to_int { standard_of (codes "INT_TO_INT") ≡ None }
    ensures time_to_int { standard_of (codes "TIME_TO_INT") ≡ None }
{}

/// A function of the text runs on variables of its own: `y := Sq(46340);` takes 2 ticks, and the square of 46341 isn't a
/// DINT.
#[tactic(auto, unfolding(crate::specs::Runs::ran, crate::specs::Runs::ran_where, crate::specs::Runs::units_within, crate::specs::StandardFunctions::standard_of, crate::specs::StandardFunctions::standard_functions))]
pub fn function_calls()
    ensures two_ticks { ran_with (square ∷ []) 2 (squared (pos 46340)) ((Y, datum Dint (pos 0)) ∷ [])
        ≡ Ok (goes_on (variables ((Y, datum Dint (pos 2147395600)) ∷ [])), 0) }
    ensures one_tick { ran_with (square ∷ []) 1 (squared (pos 46340)) ((Y, datum Dint (pos 0)) ∷ []) ≡ Err Budget }
    ensures too_great { ran_with (square ∷ []) 2 (squared (pos 46341)) ((Y, datum Dint (pos 0)) ∷ []) ≡ Err Range }
{}
