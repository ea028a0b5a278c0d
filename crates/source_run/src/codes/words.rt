//! Codes of the words of a text.

ghost use Rattle.std.specs.Prelude.{◌≡◌, map};
ghost use Rattle.source_run.specs.ListedCodes.{code_bytes, listed_words};

use crate::entry::{Example, Explanation, Frame, Status};

static EXPLANATIONS: [Explanation; 6] = [
    Explanation {
        code: "L1",
        title: "a byte isn't allowed here",
        meaning: &[
            "Allowed bytes are TAB, LF, CR and 32 to 126, in comments too.",
            "The place is that of the byte, or of the comment that contains it.",
        ],
        example: Some(Example {
            frame: Frame::Statements,
            wrong: &["n := n $ 1;"],
            right: &["n := n + 1;"],
        }),
        status: Status::Source,
    },
    Explanation {
        code: "L2",
        title: "a literal or an address is malformed or too large",
        meaning: &[
            "A number in base 2, 8 or 16 has only digits of its base; a duration has its units in descending order.",
            "The place is the first byte of the literal or address.",
        ],
        example: Some(Example {
            frame: Frame::Statements,
            wrong: &["n := 2#102;"],
            right: &["n := 2#101;"],
        }),
        status: Status::Source,
    },
    Explanation {
        code: "L3",
        title: "a name is malformed",
        meaning: &[
            "Use at most 64 letters, digits and underscores, no two underscores in a row, and none at the end.",
        ],
        example: Some(Example {
            frame: Frame::Units,
            wrong: &["PROGRAM Main VAR flow__1 : INT; END_VAR flow__1 := 1; END_PROGRAM"],
            right: &["PROGRAM Main VAR flow_1 : INT; END_VAR flow_1 := 1; END_PROGRAM"],
        }),
        status: Status::Source,
    },
    Explanation {
        code: "L4",
        title: "a comment isn't closed, or contains another one",
        meaning: &[
            "Comments are (* *) and don't nest.",
            "The place is the start of the comment, or of the inner one.",
        ],
        example: Some(Example {
            frame: Frame::Statements,
            wrong: &["(* one (* more *) *) n := 1;"],
            right: &["(* one, more *) n := 1;"],
        }),
        status: Status::Source,
    },
    Explanation {
        code: "L5",
        title: "the source is longer than 1,048,576 bytes",
        meaning: &["Comments and spaces count."],
        example: Some(Example {
            frame: Frame::Command,
            wrong: &[
                "(cat own.st; head -c 1048576 /dev/zero | tr '\\0' ' ') > long.st",
                "plant check long.st",
            ],
            right: &["plant check own.st"],
        }),
        status: Status::Source,
    },
    Explanation {
        code: "L6",
        title: "memory ran out while the source was split into tokens",
        meaning: &["The source may be correct.", "Only the source was opened."],
        example: Some(Example {
            frame: Frame::ShortMemory,
            wrong: &["(ulimit -v 7000; plant check own.st)"],
            right: &["plant check own.st"],
        }),
        status: Status::Source,
    },
];

/// The explanations of the codes with L.
pub(crate) fn word_codes() -> &'static [Explanation]
    ensures { map code_bytes result.now ≡ listed_words }
{
    &EXPLANATIONS
}
