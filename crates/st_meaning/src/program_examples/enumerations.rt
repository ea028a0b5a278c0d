//! Worked examples of enumerated types, each proved by computation.

ghost use Rattle.std.specs.Prelude.{◌≡◌, ◌∷◌, [], Some, None, pos, codes, true, false, map};
ghost use Rattle.st_types.specs.declared.operator.BinaryOperator.TheVariants.{Equal, NotEqual};
ghost use Rattle.st_types.specs.declared.literal.Literal.TheVariants as literals;
ghost use Rattle.st_types.specs.Expressions.{binary, call, exprs_of};
ghost use Rattle.st_types.specs.Initials.{constant};
ghost use Rattle.st_meaning.specs.Enumerations.{member_named, member_of_type, number_of_member};
ghost use Rattle.st_meaning.specs.NameTypes.{variable_type};
ghost use Rattle.st_meaning.specs.Resolution.{own_kind};
ghost use Rattle.st_meaning.specs.ResolvedUnits.{resolved_stmt, resolved_initial, resolved_label};
ghost use Rattle.st_meaning.specs.ProgramExamples.{after_with, variables, datum, bool, identifier, name, set};
ghost use Rattle.st_meaning.specs.EnumerationExamples.{two_enumerations, text_of_modes, moded, mode, alarm, member, valued};
ghost use Rattle.st_meaning.specs.EnumerationExamples.{typed, written, name_label, place_label, stepping};
ghost use Rattle.st_meaning.specs.EnumerationExamples.{M, MODE, ALARM, STOPPED, RUNNING, FAULT, CLEAR};

/// A name alone stands for a value if exactly one type has it; with its type it always does. Only enumerated types count.
pub fn names_of_values()
    ensures one_type { member_named two_enumerations RUNNING ≡ Some (member mode 1) }
    ensures of_the_second { member_named two_enumerations CLEAR ≡ Some (member alarm 0) }
    ensures two_types { member_named two_enumerations FAULT ≡ None }
    ensures no_type { member_named two_enumerations MODE ≡ None }
    ensures typed { member_of_type two_enumerations MODE FAULT ≡ Some (member mode 2) }
    ensures typed_otherwise { member_of_type two_enumerations ALARM FAULT ≡ Some (member alarm 1) }
    ensures not_of_the_type { member_of_type two_enumerations MODE CLEAR ≡ None }
    ensures of_a_structure { member_of_type two_enumerations (codes "PAIR") (codes "U") ≡ None }
{}

/// Names become literals of their types. In an expression a variable hides a name, in a label or an initial value it does
/// not.
#[tactic(auto, unfolding(crate::specs::StandardFunctions::standard_of, crate::specs::StandardFunctions::standard_functions))]
pub fn names_become_literals()
    // m := Running;
    ensures alone { resolved_stmt text_of_modes moded (set M (name RUNNING)) ≡ set M (valued mode 1) }
    // m := Mode#Fault;
    ensures with_its_type { resolved_stmt text_of_modes moded (set M (typed MODE FAULT)) ≡ set M (valued mode 2) }
    // m := Fault; and m := Mode#Open; stand for nothing
    ensures of_two_types { resolved_stmt text_of_modes moded (set M (name FAULT)) ≡ set M (name FAULT) }
    ensures unknown { resolved_stmt text_of_modes moded (set M (typed MODE (codes "OPEN")))
        ≡ set M (typed MODE (codes "OPEN")) }
    // m := clear; is the variable
    ensures hidden { resolved_stmt text_of_modes moded (set M (name CLEAR)) ≡ set M (name CLEAR) }
    ensures hidden_kind { own_kind text_of_modes moded (name CLEAR) ≡ Some alarm }
    ensures kind_alone { own_kind text_of_modes moded (name RUNNING) ≡ Some mode }
    // the label Clear is the value
    ensures label { resolved_label text_of_modes (Some alarm) (name_label CLEAR) ≡ place_label alarm 0 }
    // m : Mode := Running;
    ensures initial { resolved_initial text_of_modes (variable_type moded M)
        (constant (literals.Enumerated (written None RUNNING)))
        ≡ constant (literals.Number (number_of_member 0 (member mode 1))) }
    // clear : Alarm := Clear;
    ensures initial_of_its_name { resolved_initial text_of_modes (variable_type moded CLEAR)
        (constant (literals.Enumerated (written None CLEAR)))
        ≡ constant (literals.Number (number_of_member 0 (member alarm 0))) }
    // m := SEL(b, Stopped, Running);
    ensures selected { resolved_stmt text_of_modes moded (set M (call (identifier (codes "SEL"))
        (exprs_of (name (codes "B") ∷ name STOPPED ∷ name RUNNING ∷ []))))
        ≡ set M (call (identifier (codes "SEL")) (exprs_of (name (codes "B") ∷ valued mode 0 ∷ valued mode 1 ∷ []))) }
{}

/// A CASE over names steps from STOPPED to RUNNING, to FAULT, and stays there.
#[tactic(auto, unfolding(crate::specs::Runs::ran, crate::specs::Runs::ran_where, crate::specs::Runs::store_after, crate::specs::Runs::units_within))]
pub fn case_over_names()
    ensures { map (λ n. after_with [] (resolved_stmt text_of_modes moded stepping ∷ [])
        ((M, datum mode (pos n)) ∷ [])) (0 ∷ 1 ∷ 2 ∷ [])
        ≡ map (λ n. variables ((M, datum mode (pos n)) ∷ [])) (1 ∷ 2 ∷ 2 ∷ []) }
{}

/// SEL takes names, and names are compared.
#[tactic(auto, unfolding(crate::specs::Runs::ran, crate::specs::Runs::ran_where, crate::specs::Runs::store_after, crate::specs::Runs::units_within, crate::specs::StandardFunctions::standard_of, crate::specs::StandardFunctions::standard_functions))]
pub fn names_chosen_and_compared()
    // m := SEL(b, Stopped, Running);
    ensures chosen { map (λ t. after_with [] (resolved_stmt text_of_modes moded (set M (call (identifier (codes "SEL"))
        (exprs_of (name (codes "B") ∷ name STOPPED ∷ name RUNNING ∷ [])))) ∷ [])
        ((M, datum mode (pos 2)) ∷ (codes "B", bool t) ∷ [])) (false ∷ true ∷ [])
        ≡ variables ((M, datum mode (pos 0)) ∷ (codes "B", bool false) ∷ [])
        ∷ variables ((M, datum mode (pos 1)) ∷ (codes "B", bool true) ∷ []) ∷ [] }
    // b := m = Running; and b := m <> Running;
    ensures equal { after_with [] (resolved_stmt text_of_modes moded (set (codes "B") (binary Equal (name M)
        (name RUNNING))) ∷ []) ((M, datum mode (pos 1)) ∷ (codes "B", bool false) ∷ [])
        ≡ variables ((M, datum mode (pos 1)) ∷ (codes "B", bool true) ∷ []) }
    ensures other { after_with [] (resolved_stmt text_of_modes moded (set (codes "B") (binary NotEqual (name M)
        (name RUNNING))) ∷ []) ((M, datum mode (pos 1)) ∷ (codes "B", bool true) ∷ [])
        ≡ variables ((M, datum mode (pos 1)) ∷ (codes "B", bool false) ∷ []) }
{}
