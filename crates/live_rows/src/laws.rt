//! Laws of lines and of the rows that they spell. The functions do nothing: their contracts are the laws.

ghost use Rattle.std.specs.Prelude.{◌≡◌, ◌≢◌, ◌<◌, ◌^◌, ◌++◌, ◌∷◌, [], ℕ, List, Some, None, All, codes, negsuc};
ghost use Rattle.st_types.specs.Kinds.{names_in};
ghost use Rattle.st_types.specs.Rows.{Latch};
ghost use Rattle.st_types.specs.declared.kind.Kind.TheVariants.{Int};
ghost use Rattle.st_meaning.specs.declared.plan.PlanInput.{PlanInput};
ghost use Rattle.image.specs.Plants.{IsRowOf};
ghost use Rattle.live_rows.specs.declared.line_reader.LineEnd.{LineEnd};
ghost use Rattle.live_rows.specs.declared.line_reader.LineEnd.TheVariants.{Whole, TooLong, Unfinished};
ghost use Rattle.live_rows.specs.Lines.{BeginsWith};
ghost use Rattle.live_rows.specs.RowLines.{headed, line_fields, row_line, timed};
ghost use Rattle.live_rows.specs.declared.timed_line.Moments.TheVariants.{Own, Clock};

/// Bytes begin with a line unless there are none, and with one line only: its end, what is left after it, and the line itself,
/// unless it is left out, are settled by the bytes.
pub fn bytes_begin_with_one_line()
    ensures some { (bytes : List ℕ) → bytes ≢ []
        → (end : LineEnd) × (line : List ℕ) × (rest : List ℕ) × BeginsWith end line bytes rest }
    ensures one { (bytes line other rest left : List ℕ) (end finish : LineEnd) → BeginsWith end line bytes rest
        → BeginsWith finish other bytes left → (end ≡ finish) × (rest ≡ left) × (end ≢ TooLong → line ≡ other) }
{}

/// `10,-4` before its LF is a whole line. `20,5` at the end of the bytes is unfinished.
pub fn lines_end_so()
    ensures whole { BeginsWith Whole (codes "10,-4") (codes "10,-4" ++ 10 ∷ codes "20,5") (codes "20,5") }
    ensures unfinished { BeginsWith Unfinished (codes "20,5") (codes "20,5") [] }
{}

/// The line `10,-4` has two fields, also with a carriage return, and spells a row at 10 ms.
pub fn a_line_spells_a_row()
    ensures fields { line_fields (codes "10,-4" ++ 13 ∷ []) ≡ codes "10" ∷ codes "-4" ∷ [] }
    ensures row { row_line (record { moment = 10; image = record { kind = Int; number = negsuc 3 } ∷ [] }) ≡ codes "10,-4" }
{}

/// With 12 from the clock the line `413,0` is `12,413,0`, and an empty line, of a plant without inputs, is `12`. The
/// header `level,stop` is `t,level,stop` then, and stays as it is if lines have their own moments.
pub fn moments_stand_before_lines()
    ensures timed { timed (Some 12) (codes "413,0") ≡ codes "12,413,0" }
    ensures empty { timed (Some 12) (13 ∷ []) ≡ codes "12" ++ 13 ∷ [] }
    ensures own { timed None (codes "12,413,0") ≡ codes "12,413,0" }
    ensures header { headed Clock (codes "level,stop") ≡ codes "t,level,stop" }
    ensures own_header { headed Own (codes "t,level") ≡ codes "t,level" }
{}

/// A line spells one row only of a plan whose types have fewer than 65,536 names each, as all have.
pub fn a_line_spells_one_row()
    ensures { (inputs : List PlanInput) (first second : Latch) → All (λ i. names_in i.kind < 2 ^ 16) inputs
        → IsRowOf inputs first → IsRowOf inputs second → row_line first ≡ row_line second → first ≡ second }
{}
