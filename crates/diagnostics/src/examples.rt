//! Worked examples of lines and columns, proved by computation.

ghost use Rattle.std.specs.Prelude.{◌≡◌};
ghost use Rattle.diagnostics.specs.Lines as lines;
ghost use Rattle.diagnostics.specs.LineExamples.{two_lines};

/// The places of a text of two lines, `ab` and `cd`, with an LF between them: its first byte, the LF, the first byte of
/// the second line, the end, and a place beyond it.
pub fn places_of_two_lines()
    ensures first_line { lines.line_number two_lines 0 ≡ 1 }
    ensures first_column { lines.column_number two_lines 0 ≡ 1 }
    ensures end_line { lines.line_number two_lines 2 ≡ 1 }
    ensures end_column { lines.column_number two_lines 2 ≡ 3 }
    ensures end_of_line { lines.bytes_to_end two_lines 0 ≡ 2 }
    ensures second_line { lines.line_number two_lines 3 ≡ 2 }
    ensures second_column { lines.column_number two_lines 3 ≡ 1 }
    ensures second_end { lines.bytes_to_end two_lines 3 ≡ 2 }
    ensures last_line { lines.line_number two_lines 5 ≡ 2 }
    ensures last_column { lines.column_number two_lines 5 ≡ 3 }
    ensures beyond { lines.column_number two_lines 9 ≡ 3 }
{}
