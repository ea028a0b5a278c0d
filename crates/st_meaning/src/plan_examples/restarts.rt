//! Worked examples of retention and of the start of a life, each proved by computation.

ghost use Rattle.std.specs.Prelude.{◌≡◌, ◌∷◌, ◌++◌, [], Some, None, pos, true, false, codes, length};
ghost use Rattle.st_types.specs.declared.declaration.Retention.TheVariants.{Retain, NonRetain};
ghost use Rattle.st_types.specs.declared.kind.Kind.TheVariants.{Time};
ghost use Rattle.st_meaning.specs.Layouts.{layout_text, record_length, type_text};
ghost use Rattle.st_meaning.specs.Plans.{is_retained_by};
ghost use Rattle.st_meaning.specs.Restarts.{kept, kept_of, cold_start, warm_start};
ghost use Rattle.st_meaning.specs.RestartExamples.{two_of_three, values, retained, line, int_line, started_with};
ghost use Rattle.st_meaning.specs.RestartExamples.{modes, mode, mode_variable, started_mode};

/// The innermost declaration that says RETAIN or NON_RETAIN decides; without any a variable is not retained.
pub fn retention()
    ensures inner_non_retain { is_retained_by (Some Retain ∷ Some NonRetain ∷ []) ≡ false }
    ensures inner_retain { is_retained_by (Some NonRetain ∷ None ∷ Some Retain ∷ []) ≡ true }
    ensures outer_retain { is_retained_by (Some Retain ∷ None ∷ []) ≡ true }
    ensures retain_alone { is_retained_by (Some Retain ∷ []) ≡ true }
    ensures non_retain_alone { is_retained_by (Some NonRetain ∷ []) ≡ false }
    ensures nothing_said { is_retained_by (None ∷ None ∷ []) ≡ false }
    ensures no_declaration { is_retained_by [] ≡ false }
{}

/// Of `VAR_GLOBAL RETAIN n : INT; p : INT := 2; END_VAR VAR_GLOBAL k : INT := 7; END_VAR` a record keeps n and p. A warm
/// start gives them the record's values, and its moment; k, and all variables without a record or in a cold start, take
/// their initial values.
pub fn restarts()
    ensures { (kept two_of_three (values (pos 3) (pos 4) (pos 10)) ≡ retained (pos 3) (pos 4))
        × (kept_of two_of_three (values (pos 3) (pos 4) (pos 10)) (Some 20)
        ≡ record {
          lines = int_line (codes "N") (pos 3) ∷ int_line (codes "P") (pos 4) ∷ [];
          moment = Some 20;
        })
        × (warm_start two_of_three (Some (kept_of two_of_three (values (pos 3) (pos 4) (pos 10)) (Some 20)))
        ≡ record { store = values (pos 3) (pos 4) (pos 7); moment = Some 20 })
        × (warm_start two_of_three (Some (kept_of two_of_three (values (pos 5) (pos 0) (pos 1)) (Some 0)))
        ≡ record { store = values (pos 5) (pos 0) (pos 7); moment = Some 0 })
        × (warm_start two_of_three (Some (kept_of two_of_three (values (pos 6) (pos 2) (pos 1)) None))
        ≡ record { store = values (pos 6) (pos 2) (pos 7); moment = None })
        × (warm_start two_of_three None ≡ record { store = values (pos 0) (pos 2) (pos 7); moment = None })
        × (cold_start two_of_three ≡ record { store = values (pos 0) (pos 2) (pos 7); moment = None }) }
{}

/// A variable finds its line by path and type: wherever the line is, and whatever other lines the record has. A line of
/// another type is not its line, nor is one of a variable that isn't retained, nor one with a value that the type doesn't
/// hold.
pub fn lines_found_by_path_and_type()
    ensures order { started_with (int_line (codes "P") (pos 4) ∷ int_line (codes "N") (pos 3) ∷ [])
        ≡ values (pos 3) (pos 4) (pos 7) }
    ensures one_missing { started_with (int_line (codes "P") (pos 4) ∷ []) ≡ values (pos 0) (pos 4) (pos 7) }
    ensures none { started_with [] ≡ values (pos 0) (pos 2) (pos 7) }
    ensures other_type { started_with (line (codes "N") (codes "DINT") (pos 3) ∷ int_line (codes "P") (pos 4) ∷ [])
        ≡ values (pos 0) (pos 4) (pos 7) }
    ensures unknown_type { started_with
        (line (codes "N") (codes "(STOPPED,RUNNING)") (pos 1) ∷ int_line (codes "P") (pos 4) ∷ [])
        ≡ values (pos 0) (pos 4) (pos 7) }
    ensures other_path { started_with
        (int_line (codes "Q") (pos 9) ∷ int_line (codes "N") (pos 3) ∷ int_line (codes "R/I.P") (pos 5) ∷ [])
        ≡ values (pos 3) (pos 2) (pos 7) }
    ensures not_retained { started_with (int_line (codes "K") (pos 3) ∷ []) ≡ values (pos 0) (pos 2) (pos 7) }
    ensures out_of_range { started_with (int_line (codes "N") (pos 40000) ∷ []) ≡ values (pos 0) (pos 2) (pos 7) }
{}

/// A record spells an enumerated type by its names: of `Mode : (Stopped, Running, Fault)` and a retained `m : Mode` its
/// layout text has 26 bytes and its body 39. Another type has its keyword, and one that isn't in the text has none.
pub fn types_as_records_spell_them()
    ensures keyword { type_text modes Time ≡ codes "TIME" }
    ensures names { type_text modes (mode 0) ≡ codes "(STOPPED,RUNNING,FAULT)" }
    ensures one_name { type_text modes (mode 1) ≡ codes "(OPEN)" }
    ensures no_such_type { type_text modes (mode 2) ≡ [] }
    ensures text { layout_text modes (mode_variable ∷ []) ≡ codes "M (STOPPED,RUNNING,FAULT)" ++ 10 ∷ [] }
    ensures text_length { length (layout_text modes (mode_variable ∷ [])) ≡ 26 }
    ensures body { record_length modes (mode_variable ∷ []) ≡ 39 }
{}

/// A retained variable of an enumerated type finds its line by its path and the names of its type.
pub fn names_found_by_their_type()
    ensures found { started_mode (codes "(STOPPED,RUNNING,FAULT)") (pos 2) ≡ pos 2 }
    ensures other_names { started_mode (codes "(STOPPED,RUNNING,OPEN)") (pos 2) ≡ pos 0 }
    ensures number_of_names { started_mode (codes "(STOPPED,RUNNING,FAULT,OPEN)") (pos 2) ≡ pos 0 }
    ensures keyword { started_mode (codes "USINT") (pos 2) ≡ pos 0 }
    ensures no_such_name { started_mode (codes "(STOPPED,RUNNING,FAULT)") (pos 3) ≡ pos 0 }
{}
