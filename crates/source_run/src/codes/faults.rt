//! Codes of faults of executions.

ghost use Rattle.std.specs.Prelude.{◌≡◌, map};
ghost use Rattle.source_run.specs.ListedCodes.{code_bytes, listed_faults};

use crate::entry::{Example, Explanation, Frame, Status};

static EXPLANATIONS: [Explanation; 6] = [
    Explanation {
        code: "F1",
        title: "a result doesn't fit in its type",
        meaning: &[
            "A sum, product or other result is outside the type of its operands; use a wider type.",
        ],
        example: Some(Example {
            frame: Frame::Statements,
            wrong: &["n := 200;", "n := n * n;"],
            right: &["n := 100;", "n := n * n;"],
        }),
        status: Status::Execution,
    },
    Explanation {
        code: "F2",
        title: "a division or MOD by zero",
        meaning: &["Check the divisor first, with an IF."],
        example: Some(Example {
            frame: Frame::Statements,
            wrong: &["n := 0;", "n := 10 / n;"],
            right: &["n := 0;", "IF n <> 0 THEN n := 10 / n; END_IF;"],
        }),
        status: Status::Execution,
    },
    Explanation {
        code: "F3",
        title: "a subscript is out of bounds",
        meaning: &["An ARRAY [0..2] has the subscripts 0, 1 and 2."],
        example: Some(Example {
            frame: Frame::Units,
            wrong: &[
                "PROGRAM Main",
                "    VAR i : INT := 3; a : ARRAY [0..2] OF INT; END_VAR",
                "    a[i] := 1;",
                "END_PROGRAM",
            ],
            right: &[
                "PROGRAM Main",
                "    VAR i : INT := 2; a : ARRAY [0..2] OF INT; END_VAR",
                "    a[i] := 1;",
                "END_PROGRAM",
            ],
        }),
        status: Status::Execution,
    },
    Explanation {
        code: "F4",
        title: "a value can't be converted",
        meaning: &["The type that it is converted to can't hold it."],
        example: Some(Example {
            frame: Frame::Statements,
            wrong: &["n := DINT_TO_INT(DINT#40000);"],
            right: &["n := DINT_TO_INT(DINT#4000);"],
        }),
        status: Status::Execution,
    },
    Explanation {
        code: "F5",
        title: "the budget is used up",
        meaning: &[
            "An execution needed more ticks than the budget has.",
            "Each statement and each loop iteration takes a tick.",
            "A long loop may need a larger --budget, up to 1,000,000.",
        ],
        example: Some(Example {
            frame: Frame::Statements,
            wrong: &["WHILE TRUE DO", "    n := 1;", "END_WHILE;"],
            right: &["FOR n := 1 TO 10 DO", "    ;", "END_FOR;"],
        }),
        status: Status::Execution,
    },
    Explanation {
        code: "F6",
        title: "a FOR has a step of 0",
        meaning: &["It would never end."],
        example: Some(Example {
            frame: Frame::Units,
            wrong: &[
                "PROGRAM Main",
                "    VAR i, s : INT; END_VAR",
                "    FOR i := 1 TO 3 BY s DO",
                "        ;",
                "    END_FOR;",
                "END_PROGRAM",
            ],
            right: &[
                "PROGRAM Main",
                "    VAR i : INT; s : INT := 1; END_VAR",
                "    FOR i := 1 TO 3 BY s DO",
                "        ;",
                "    END_FOR;",
                "END_PROGRAM",
            ],
        }),
        status: Status::Execution,
    },
];

/// The explanations of the codes with F.
pub(crate) fn fault_codes() -> &'static [Explanation]
    ensures { map code_bytes result.now ≡ listed_faults }
{
    &EXPLANATIONS
}
