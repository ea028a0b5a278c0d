//! Codes of the configuration, and the plan.

ghost use Rattle.std.specs.Prelude.{◌≡◌, map};
ghost use Rattle.source_run.specs.ListedCodes.{code_bytes, listed_configurations};

use crate::entry::{Example, Explanation, Frame, Status};

static EXPLANATIONS: [Explanation; 8] = [
    Explanation {
        code: "G2",
        title: "there is no CONFIGURATION, or more than one",
        meaning: &[
            "A source has types, functions, blocks and programs, and one CONFIGURATION that runs them.",
        ],
        example: Some(Example {
            frame: Frame::Text,
            wrong: &["PROGRAM Main VAR n : INT; END_VAR n := n + 1; END_PROGRAM"],
            right: &[
                "PROGRAM Main VAR n : INT; END_VAR n := n + 1; END_PROGRAM",
                "CONFIGURATION Plant",
                "    RESOURCE Station ON CPU",
                "        TASK Cycle (INTERVAL := T#100ms, PRIORITY := 0);",
                "        PROGRAM P WITH Cycle : Main;",
                "    END_RESOURCE",
                "END_CONFIGURATION",
            ],
        }),
        status: Status::Source,
    },
    Explanation {
        code: "G3",
        title: "a task, program or global is unknown, or doesn't fit its use",
        meaning: &[
            "A VAR_EXTERNAL has its global's type, and is CONSTANT exactly when that is CONSTANT or an input.",
            "A SINGLE is a BOOL global.",
        ],
        example: Some(Example {
            frame: Frame::Resource,
            wrong: &["PROGRAM P WITH Fast : Main;"],
            right: &["PROGRAM P WITH Cycle : Main;"],
        }),
        status: Status::Source,
    },
    Explanation {
        code: "G4",
        title: "an address is used twice, out of range, of the wrong width, or not allowed here",
        meaning: &[
            "A BOOL takes %IX0 to %IX1023 or %QX0 to %QX1023.",
            "An INT, UINT or WORD takes %IW0 to %IW255 or %QW0 to %QW255.",
            "An input has no initial value, and a CONSTANT has no address.",
        ],
        example: Some(Example {
            frame: Frame::Globals,
            wrong: &["VAR_GLOBAL level AT %IW0 : INT; flow AT %IW0 : INT; END_VAR"],
            right: &["VAR_GLOBAL level AT %IW0 : INT; flow AT %IW1 : INT; END_VAR"],
        }),
        status: Status::Source,
    },
    Explanation {
        code: "G5",
        title: "more than 8 resources, 32 tasks in a resource, or 64 programs",
        meaning: &[
            "Each resource runs in a thread of its own; several programs may share one task.",
        ],
        example: Some(Example {
            frame: Frame::Text,
            wrong: &[
                "PROGRAM Main VAR n : INT; END_VAR n := n + 1; END_PROGRAM",
                "CONFIGURATION Plant",
                "    RESOURCE R1 ON CPU TASK T (PRIORITY := 0); PROGRAM P WITH T : Main; END_RESOURCE",
                "    RESOURCE R2 ON CPU TASK T (PRIORITY := 0); PROGRAM P WITH T : Main; END_RESOURCE",
                "    RESOURCE R3 ON CPU TASK T (PRIORITY := 0); PROGRAM P WITH T : Main; END_RESOURCE",
                "    RESOURCE R4 ON CPU TASK T (PRIORITY := 0); PROGRAM P WITH T : Main; END_RESOURCE",
                "    RESOURCE R5 ON CPU TASK T (PRIORITY := 0); PROGRAM P WITH T : Main; END_RESOURCE",
                "    RESOURCE R6 ON CPU TASK T (PRIORITY := 0); PROGRAM P WITH T : Main; END_RESOURCE",
                "    RESOURCE R7 ON CPU TASK T (PRIORITY := 0); PROGRAM P WITH T : Main; END_RESOURCE",
                "    RESOURCE R8 ON CPU TASK T (PRIORITY := 0); PROGRAM P WITH T : Main; END_RESOURCE",
                "    RESOURCE R9 ON CPU TASK T (PRIORITY := 0); PROGRAM P WITH T : Main; END_RESOURCE",
                "END_CONFIGURATION",
            ],
            right: &[
                "PROGRAM Main VAR n : INT; END_VAR n := n + 1; END_PROGRAM",
                "CONFIGURATION Plant",
                "    RESOURCE R1 ON CPU TASK T (PRIORITY := 0); PROGRAM P WITH T : Main; END_RESOURCE",
                "    RESOURCE R2 ON CPU TASK T (PRIORITY := 0); PROGRAM P WITH T : Main; END_RESOURCE",
                "END_CONFIGURATION",
            ],
        }),
        status: Status::Source,
    },
    Explanation {
        code: "G6",
        title: "the record of the RETAIN variables would be longer than 131,059 bytes",
        meaning: &[
            "The record takes 12 bytes, and for each elementary part of the RETAIN variables:",
            "its path, its type's name, 2 more bytes and the bytes of its value.",
        ],
        example: Some(Example {
            frame: Frame::Globals,
            wrong: &["VAR_GLOBAL RETAIN measurements_of_day : ARRAY [1..4000] OF LINT; END_VAR"],
            right: &["VAR_GLOBAL RETAIN measurements_of_day : ARRAY [1..3000] OF LINT; END_VAR"],
        }),
        status: Status::Source,
    },
    Explanation {
        code: "G7",
        title: "the budget isn't 1 to 1,000,000",
        meaning: &[
            "The budget limits the ticks of an execution.",
            "Each statement and each loop iteration takes a tick.",
            "The budget is checked before the source.",
        ],
        example: Some(Example {
            frame: Frame::Command,
            wrong: &["plant run own.st --plant own.csv --store own.retain --start cold --budget 0"],
            right: &[
                "plant run own.st --plant own.csv --store own.retain --start cold --budget 10000",
            ],
        }),
        status: Status::Source,
    },
    Explanation {
        code: "G8",
        title: "a program has no task",
        meaning: &["Each PROGRAM of a resource names its task after WITH."],
        example: Some(Example {
            frame: Frame::Resource,
            wrong: &["PROGRAM P : Main;"],
            right: &["PROGRAM P WITH Cycle : Main;"],
        }),
        status: Status::Source,
    },
    Explanation {
        code: "G9",
        title: "memory ran out while the plan was built",
        meaning: &[
            "G9 also covers reading the source and checking a configuration.",
            "Only the source was opened.",
        ],
        example: Some(Example {
            frame: Frame::ShortMemory,
            wrong: &["(ulimit -v 7000; plant check own.st)"],
            right: &["plant check own.st"],
        }),
        status: Status::Source,
    },
];

/// The explanations of the codes with G.
pub(crate) fn configuration_codes() -> &'static [Explanation]
    ensures { map code_bytes result.now ≡ listed_configurations }
{
    &EXPLANATIONS
}
