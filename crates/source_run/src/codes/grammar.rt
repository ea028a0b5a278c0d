//! Codes of the grammar of a text.

ghost use Rattle.std.specs.Prelude.{◌≡◌, map};
ghost use Rattle.source_run.specs.ListedCodes.{code_bytes, listed_grammar};

use crate::entry::{Example, Explanation, Frame, Status};

static EXPLANATIONS: [Explanation; 3] = [
    Explanation {
        code: "P1",
        title: "a token isn't allowed here, or the source ends too early",
        meaning: &[
            "If a mark is missing, the place is that of the next token.",
            "If the source ends too early, it is the end of the last token.",
        ],
        example: Some(Example {
            frame: Frame::Statements,
            wrong: &["n := 1"],
            right: &["n := 1;"],
        }),
        status: Status::Source,
    },
    Explanation {
        code: "P2",
        title: "an expression, a statement or an initial value is over 64 deep",
        meaning: &[
            "A name or a number has depth 1; an operator, a pair of parentheses, a call or a statement adds 1.",
        ],
        example: Some(Example {
            frame: Frame::Statements,
            wrong: &[
                "n := ((((((((((((((((((((((((((((((((",
                "     (((((((((((((((((((((((((((((((( 1",
                "     ))))))))))))))))))))))))))))))))",
                "     ))))))))))))))))))))))))))))))));",
            ],
            right: &["n := (1);"],
        }),
        status: Status::Source,
    },
    Explanation {
        code: "P3",
        title: "memory ran out while the source was parsed",
        meaning: &["The source may be correct.", "Only the source was opened."],
        example: Some(Example {
            frame: Frame::ShortMemory,
            wrong: &["(ulimit -v 7000; plant check own.st)"],
            right: &["plant check own.st"],
        }),
        status: Status::Source,
    },
];

/// The explanations of the codes with P.
pub(crate) fn grammar_codes() -> &'static [Explanation]
    ensures { map code_bytes result.now ≡ listed_grammar }
{
    &EXPLANATIONS
}
