//! Codes of the layout and the code.

ghost use Rattle.std.specs.Prelude.{◌≡◌, map};
ghost use Rattle.source_run.specs.ListedCodes.{code_bytes, listed_sizes};

use crate::entry::{Example, Explanation, Frame, Status};

static EXPLANATIONS: [Explanation; 3] = [
    Explanation {
        code: "M1",
        title: "more than 4,096 paths, including inputs, or more than 4,096 function block instances",
        meaning: &[
            "Each elementary variable, array element, field and instance member is a path.",
            "M1 also applies if the values of a program's functions take more than 4,096 places.",
        ],
        example: Some(Example {
            frame: Frame::Globals,
            wrong: &["VAR_GLOBAL profile : ARRAY [1..4096] OF INT; level : INT; END_VAR"],
            right: &["VAR_GLOBAL profile : ARRAY [1..2000] OF INT; level : INT; END_VAR"],
        }),
        status: Status::Source,
    },
    Explanation {
        code: "M2",
        title: "a program has more than 16,384 instructions",
        meaning: &[
            "The code of a function or block is repeated for each call, so nested calls add up.",
            "The code of a loop's body counts once.",
        ],
        example: Some(Example {
            frame: Frame::Units,
            wrong: &[
                "FUNCTION One : INT VAR_INPUT x : INT; END_VAR One := x + 1; END_FUNCTION",
                "FUNCTION Five : INT VAR_INPUT x : INT; END_VAR Five := One(One(One(One(One(x))))); END_FUNCTION",
                "FUNCTION Many : INT VAR_INPUT x : INT; END_VAR Many := Five(Five(Five(Five(Five(x))))); END_FUNCTION",
                "FUNCTION More : INT VAR_INPUT x : INT; END_VAR More := Many(Many(Many(Many(Many(x))))); END_FUNCTION",
                "FUNCTION Most : INT VAR_INPUT x : INT; END_VAR Most := More(More(More(More(More(x))))); END_FUNCTION",
                "PROGRAM Main VAR n : INT; END_VAR n := Most(Most(Most(Most(n)))); END_PROGRAM",
            ],
            right: &[
                "FUNCTION One : INT VAR_INPUT x : INT; END_VAR One := x + 1; END_FUNCTION",
                "PROGRAM Main VAR n, i : INT; END_VAR",
                "    FOR i := 1 TO 2500 DO",
                "        n := One(n);",
                "    END_FOR;",
                "END_PROGRAM",
            ],
        }),
        status: Status::Source,
    },
    Explanation {
        code: "M3",
        title: "memory ran out while the source was laid out or compiled",
        meaning: &["The source may be correct.", "Only the source was opened."],
        example: Some(Example {
            frame: Frame::ShortMemory,
            wrong: &["(ulimit -v 7000; plant check own.st)"],
            right: &["plant check own.st"],
        }),
        status: Status::Source,
    },
];

/// The explanations of the codes with M.
pub(crate) fn size_codes() -> &'static [Explanation]
    ensures { map code_bytes result.now ≡ listed_sizes }
{
    &EXPLANATIONS
}
