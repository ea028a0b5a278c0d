//! Codes of the trace.

ghost use Rattle.std.specs.Prelude.{◌≡◌, map};
ghost use Rattle.source_run.specs.ListedCodes.{code_bytes, listed_traces};

use crate::entry::{Example, Explanation, Frame, Status};

static EXPLANATIONS: [Explanation; 7] = [
    Explanation {
        code: "V1",
        title: "a line is malformed, or doesn't match the plan",
        meaning: &[
            "The plan has the RETAIN variables, their initial values after a cold start, and the programs.",
            "The last line has the number of rows and executions before it.",
        ],
        example: Some(Example {
            frame: Frame::Trace,
            wrong: &["end 5"],
            right: &["end 6"],
        }),
        status: Status::Trace,
    },
    Explanation {
        code: "V2",
        title: "a row isn't the plant's next one, or isn't later than the one before it",
        meaning: &["The rows of a trace are the first rows of the plant, given by their times."],
        example: Some(Example {
            frame: Frame::Trace,
            wrong: &["row 11"],
            right: &["row 10"],
        }),
        status: Status::Trace,
    },
    Explanation {
        code: "V3",
        title: "a program ran that wasn't waiting",
        meaning: &[
            "A line done has the program and the number of the row that made it due, from 0.",
        ],
        example: Some(Example {
            frame: Frame::Trace,
            wrong: &["done R/P 0 ok"],
            right: &["done R/P 1 ok"],
        }),
        status: Status::Trace,
    },
    Explanation {
        code: "V4",
        title: "an execution ends differently",
        meaning: &["A line done ends with ok or with the fault of the execution."],
        example: Some(Example {
            frame: Frame::Trace,
            wrong: &["done R/P 0 F1"],
            right: &["done R/P 0 ok"],
        }),
        status: Status::Trace,
    },
    Explanation {
        code: "V5",
        title: "memory ran out while a trace was read, replayed or written",
        meaning: &["The trace may be correct."],
        example: Some(Example {
            frame: Frame::ShortMemory,
            wrong: &["(ulimit -v 7000; plant replay own.st --plant own.csv --trace own.trace)"],
            right: &["plant replay own.st --plant own.csv --trace own.trace"],
        }),
        status: Status::Trace,
    },
    Explanation {
        code: "V6",
        title: "the trace can't be read, or a run can't write it",
        meaning: &[
            "A run that can't write its trace has otherwise succeeded, and its retain file is saved.",
            "A live run whose trace can't be written goes on without it.",
        ],
        example: Some(Example {
            frame: Frame::Command,
            wrong: &["plant replay own.st --plant own.csv --trace nowhere"],
            right: &[
                "plant run own.st --plant own.csv --store own.retain --start cold --trace own.trace",
                "plant replay own.st --plant own.csv --trace own.trace",
            ],
        }),
        status: Status::Trace,
    },
    Explanation {
        code: "V7",
        title: "a segment of a trace doesn't begin where the one before it has ended",
        meaning: &[
            "The segments of a folder are replayed in the order of their names.",
            "One is missing, was changed, or is of another life; only the last one of a life may be cut off.",
        ],
        example: Some(Example {
            frame: Frame::Command,
            wrong: &[
                "plant live own.st --store own.retain --start cold --trace segments < own.csv",
                "sed 's/^segment 0$/segment 2/' segments/*.trace > segments/9.trace",
                "plant replay own.st --trace segments",
            ],
            right: &[
                "plant live own.st --store own.retain --start cold --trace segments < own.csv",
                "plant replay own.st --trace segments",
            ],
        }),
        status: Status::Trace,
    },
];

/// The explanations of the codes with V.
pub(crate) fn trace_codes() -> &'static [Explanation]
    ensures { map code_bytes result.now ≡ listed_traces }
{
    &EXPLANATIONS
}
