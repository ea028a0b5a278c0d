//! Codes of names and types.

ghost use Rattle.std.specs.Prelude.{◌≡◌, map};
ghost use Rattle.source_run.specs.ListedCodes.{code_bytes, listed_rules};

use crate::entry::{Example, Explanation, Frame, Status};

static EXPLANATIONS: [Explanation; 13] = [
    Explanation {
        code: "C1",
        title: "a name isn't declared in this scope",
        meaning: &[
            "A program declares the globals that it uses in VAR_EXTERNAL, and its own variables in VAR.",
        ],
        example: Some(Example {
            frame: Frame::Statements,
            wrong: &["n := m + 1;"],
            right: &["n := n + 1;"],
        }),
        status: Status::Source,
    },
    Explanation {
        code: "C2",
        title: "a name is declared twice in its scope, or is taken",
        meaning: &[
            "Names aren't case-sensitive.",
            "A variable can't have the name of a unit or type; nothing can have that of a standard function or block.",
            "The place is the later of the two declarations, or that of the taken name.",
        ],
        example: Some(Example {
            frame: Frame::Units,
            wrong: &["PROGRAM Main VAR n : INT; N : INT; END_VAR n := 1; END_PROGRAM"],
            right: &["PROGRAM Main VAR n : INT; m : INT; END_VAR n := 1; END_PROGRAM"],
        }),
        status: Status::Source,
    },
    Explanation {
        code: "C3",
        title: "a type is wrong",
        meaning: &[
            "Both sides of := and both operands of an operator must have the same type: INT and DINT don't mix.",
            "Convert, as in INT_TO_DINT(x); a number without a type takes the type that is needed.",
        ],
        example: Some(Example {
            frame: Frame::Statements,
            wrong: &["n := n + DINT#1;"],
            right: &["n := n + 1;"],
        }),
        status: Status::Source,
    },
    Explanation {
        code: "C4",
        title: "a literal doesn't fit in its type",
        meaning: &[
            "An INT holds -32768 to 32767, and other types what their bits hold; a PRIORITY is at most 65535.",
        ],
        example: Some(Example {
            frame: Frame::Statements,
            wrong: &["n := 40000;"],
            right: &["n := 30000;"],
        }),
        status: Status::Source,
    },
    Explanation {
        code: "C5",
        title: "an input, a constant, the control variable of an enclosing FOR, or an output is assigned",
        meaning: &[
            "Only the block itself can assign its outputs, not code outside its instance.",
            "The place is the first byte of the assigned variable.",
        ],
        example: Some(Example {
            frame: Frame::Units,
            wrong: &[
                "PROGRAM Main",
                "    VAR CONSTANT full : INT := 5; END_VAR",
                "    full := 6;",
                "END_PROGRAM",
            ],
            right: &[
                "PROGRAM Main",
                "    VAR full : INT := 5; END_VAR",
                "    full := 6;",
                "END_PROGRAM",
            ],
        }),
        status: Status::Source,
    },
    Explanation {
        code: "C6",
        title: "a type or unit contains itself, or a type, block or function is over 64 deep",
        meaning: &[
            "A function contains the functions that it calls; a block contains those and its instances.",
            "A structure contains its fields, and an array its elements.",
            "So no function can call itself, even indirectly: use a loop instead of recursion.",
        ],
        example: Some(Example {
            frame: Frame::Units,
            wrong: &[
                "FUNCTION Twice : INT VAR_INPUT x : INT; END_VAR Twice := Twice(x) + x; END_FUNCTION",
            ],
            right: &[
                "FUNCTION Twice : INT VAR_INPUT x : INT; END_VAR Twice := x + x; END_FUNCTION",
            ],
        }),
        status: Status::Source,
    },
    Explanation {
        code: "C7",
        title: "a range of a CASE is reversed, or labels overlap",
        meaning: &[
            "The lower label of a range comes first, and no value has two labels.",
            "The place is one of the two labels.",
        ],
        example: Some(Example {
            frame: Frame::Statements,
            wrong: &["CASE n OF", "    3..1: n := 0;", "END_CASE;"],
            right: &["CASE n OF", "    1..3: n := 0;", "END_CASE;"],
        }),
        status: Status::Source,
    },
    Explanation {
        code: "C8",
        title: "an array has reversed bounds or over 4,096 elements, or a list is longer than its array",
        meaning: &["The place is the lower bound of the array, or the [ of the list."],
        example: Some(Example {
            frame: Frame::Globals,
            wrong: &["VAR_GLOBAL levels : ARRAY [2..1] OF INT; END_VAR"],
            right: &["VAR_GLOBAL levels : ARRAY [1..2] OF INT; END_VAR"],
        }),
        status: Status::Source,
    },
    Explanation {
        code: "C9",
        title: "an EXIT is outside a loop",
        meaning: &[
            "EXIT leaves the innermost FOR, WHILE or REPEAT; RETURN leaves the program, function or block.",
        ],
        example: Some(Example {
            frame: Frame::Statements,
            wrong: &["EXIT;"],
            right: &["WHILE n > 0 DO", "    EXIT;", "END_WHILE;"],
        }),
        status: Status::Source,
    },
    Explanation {
        code: "C10",
        title: "a call has the wrong number of arguments, or an unknown or repeated one",
        meaning: &[
            "A function takes all its arguments by position; a block takes them by name, each at most once.",
            "The place is the function's name, or the name of the block's argument.",
        ],
        example: Some(Example {
            frame: Frame::Statements,
            wrong: &["n := ABS(n, 1);"],
            right: &["n := ABS(n);"],
        }),
        status: Status::Source,
    },
    Explanation {
        code: "C11",
        title: "an address (AT) is in a RETAIN block",
        meaning: &[
            "Inputs come from the plant, and programs set outputs anew: declare them in a block without RETAIN.",
        ],
        example: Some(Example {
            frame: Frame::Globals,
            wrong: &["VAR_GLOBAL RETAIN level AT %IW0 : INT; END_VAR"],
            right: &["VAR_GLOBAL level AT %IW0 : INT; END_VAR"],
        }),
        status: Status::Source,
    },
    Explanation {
        code: "C12",
        title: "memory ran out while the source was checked",
        meaning: &["The source may be correct.", "Only the source was opened."],
        example: Some(Example {
            frame: Frame::ShortMemory,
            wrong: &["(ulimit -v 7000; plant check own.st)"],
            right: &["plant check own.st"],
        }),
        status: Status::Source,
    },
    Explanation {
        code: "C13",
        title: "an enumerated type has more than 256 names",
        meaning: &["The place is the first name over the limit."],
        example: Some(Example {
            frame: Frame::Command,
            wrong: &[
                "(echo \"TYPE Step : ($(seq -s , -f Step%g 257)); END_TYPE\"; cat own.st) > many.st",
                "plant check many.st",
            ],
            right: &[
                "(echo \"TYPE Step : ($(seq -s , -f Step%g 256)); END_TYPE\"; cat own.st) > many.st",
                "plant check many.st",
            ],
        }),
        status: Status::Source,
    },
];

/// The explanations of the codes with C.
pub(crate) fn rule_codes() -> &'static [Explanation]
    ensures { map code_bytes result.now ≡ listed_rules }
{
    &EXPLANATIONS
}
