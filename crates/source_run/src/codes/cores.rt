//! Codes of the run.

ghost use Rattle.std.specs.Prelude.{◌≡◌, map};
ghost use Rattle.source_run.specs.ListedCodes.{code_bytes, listed_cores};

use crate::entry::{Example, Explanation, Frame, Status};

static EXPLANATIONS: [Explanation; 6] = [
    Explanation {
        code: "K1",
        title: "the log is full",
        meaning: &[
            "A log holds 65,536 rows and executions together; the example runs over rows at 0, 1, .., 9,999.",
            "Split the plant and continue with a warm start.",
        ],
        example: Some(Example {
            frame: Frame::Resource,
            wrong: &[
                "TASK Fast (INTERVAL := T#1ms, PRIORITY := 0);",
                "PROGRAM P1 WITH Fast : Main;",
                "PROGRAM P2 WITH Fast : Main;",
                "PROGRAM P3 WITH Fast : Main;",
                "PROGRAM P4 WITH Fast : Main;",
                "PROGRAM P5 WITH Fast : Main;",
                "PROGRAM P6 WITH Fast : Main;",
                "PROGRAM P7 WITH Fast : Main;",
            ],
            right: &[
                "TASK Fast (INTERVAL := T#1ms, PRIORITY := 0);",
                "PROGRAM P1 WITH Fast : Main;",
            ],
        }),
        status: Status::Run,
    },
    Explanation {
        code: "K2",
        title: "an activation isn't waiting",
        meaning: &[
            "The core reports this if an execution is committed again.",
            "A run commits each execution once, so no command gives K2.",
        ],
        example: None,
        status: Status::Run,
    },
    Explanation {
        code: "K3",
        title: "an execution or a row belongs to another plan",
        meaning: &[
            "The core reports this if it didn't issue the execution, or the row has other inputs.",
            "A run uses only its own plan, so no command gives K3.",
        ],
        example: None,
        status: Status::Run,
    },
    Explanation {
        code: "K4",
        title: "the first row isn't later than the last saved row",
        meaning: &[
            "The rows of a warm run come after those of the run before.",
            "A RETAIN variable that counts rows shows where to continue.",
        ],
        example: Some(Example {
            frame: Frame::Command,
            wrong: &[
                "plant run own.st --plant own.csv --store own.retain --start cold",
                "plant run own.st --plant own.csv --store own.retain --start warm",
            ],
            right: &[
                "plant run own.st --plant own.csv --store own.retain --start cold",
                "plant run own.st --plant later.csv --store own.retain --start warm",
            ],
        }),
        status: Status::Run,
    },
    Explanation {
        code: "K5",
        title: "the device failed in a save, or no generation is left",
        meaning: &[
            "Everything acknowledged is kept.",
            "The example makes a record of the last generation by hand, for a source that retains only n : INT.",
        ],
        example: Some(Example {
            frame: Frame::Command,
            wrong: &[
                "printf '\\245\\377\\377\\377\\377\\377\\377\\377\\377\\0\\0\\0\\24' > own.retain",
                "(head -c 11 /dev/zero; printf '\\6N INT\\n') >> own.retain",
                "truncate -s 262144 own.retain",
                "plant run own.st --plant own.csv --store own.retain --start warm",
            ],
            right: &["plant run own.st --plant own.csv --store own.retain --start cold"],
        }),
        status: Status::Run,
    },
    Explanation {
        code: "K6",
        title: "memory ran out in the run, for the command line, or for the output",
        meaning: &["Everything acknowledged is kept."],
        example: Some(Example {
            frame: Frame::ShortMemory,
            wrong: &[
                "(ulimit -v 7000; plant run own.st --plant own.csv --store own.retain --start cold)",
            ],
            right: &["plant run own.st --plant own.csv --store own.retain --start cold"],
        }),
        status: Status::Run,
    },
];

/// The explanations of the codes with K.
pub(crate) fn core_codes() -> &'static [Explanation]
    ensures { map code_bytes result.now ≡ listed_cores }
{
    &EXPLANATIONS
}
