//! Worked examples of a restart with another text, proved by computation.

ghost use Rattle.std.specs.Prelude.{◌≡◌, ◌++◌, [], Some, codes, pos};
ghost use Rattle.st_meaning.specs.ProgramExamples.{int};
ghost use Rattle.st_meaning.specs.Layouts.{record_length};
ghost use Rattle.retain_records.specs.OtherPlans.{started_after};
ghost use Rattle.retain_records.specs.Examples.{at, dint, of_dint, of_four_names, of_int, of_none, of_three_names, of_two, place};
ghost use Rattle.retain_records.specs.Examples.{started_then};

/// A life with N = 3 of a retained `n : INT`, whose last row was at 20 ms, and a warm start of another text: with DINT
/// for INT; with a retained `k : INT := 7` before n, and then the first text again; with n not retained, and then the
/// first text again. A retained `m : Mode` that is FAULT: with a fourth name in Mode, and then the first text again. The
/// moment is kept each time.
pub fn restarts_with_another_text()
    ensures other_type { started_after of_int of_dint (at (codes "N") (int (pos 3))) (Some 20)
        ≡ record { store = at (codes "N") (dint (pos 0)); moment = Some 20 } }
    ensures one_more { started_after of_int of_two (at (codes "N") (int (pos 3))) (Some 20)
        ≡ record { store = at (codes "K") (int (pos 7)) ++ at (codes "N") (int (pos 3)); moment = Some 20 } }
    ensures one_more_and_back { started_then of_int of_two of_int (at (codes "N") (int (pos 3)))
        ≡ record { store = at (codes "N") (int (pos 3)); moment = Some 20 } }
    ensures not_retained { started_after of_int of_none (at (codes "N") (int (pos 3))) (Some 20)
        ≡ record { store = at (codes "N") (int (pos 0)); moment = Some 20 } }
    ensures twelve_bytes { record_length [] of_none.variables ≡ 12 }
    ensures not_retained_and_back { started_then of_int of_none of_int (at (codes "N") (int (pos 3)))
        ≡ record { store = at (codes "N") (int (pos 0)); moment = Some 20 } }
    ensures one_name_more { started_after of_three_names of_four_names (at (codes "M") (place 3 (pos 2))) (Some 20)
        ≡ record { store = at (codes "M") (place 4 (pos 0)); moment = Some 20 } }
    ensures one_name_more_and_back { started_then of_three_names of_four_names of_three_names
        (at (codes "M") (place 3 (pos 2)))
        ≡ record { store = at (codes "M") (place 3 (pos 0)); moment = Some 20 } }
{}
