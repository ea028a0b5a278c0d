//! Codes of the retain file.

ghost use Rattle.std.specs.Prelude.{◌≡◌, map};
ghost use Rattle.source_run.specs.ListedCodes.{code_bytes, listed_stores};

use crate::entry::{Example, Explanation, Frame, Status};

static EXPLANATIONS: [Explanation; 6] = [
    Explanation {
        code: "S1",
        title: "the retain file is longer than 262,144 bytes",
        meaning: &[
            "So it isn't a retain file, or something else wrote to it.",
            "It prevents a cold start too: give another name or remove the file.",
        ],
        example: Some(Example {
            frame: Frame::Command,
            wrong: &[
                "head -c 262145 /dev/zero > own.retain",
                "plant run own.st --plant own.csv --store own.retain --start warm",
            ],
            right: &["plant run own.st --plant own.csv --store own.retain --start cold"],
        }),
        status: Status::Start,
    },
    Explanation {
        code: "S2",
        title: "the retain file is damaged",
        meaning: &[
            "It has an open gate without a record, or two open areas of one generation.",
            "No interrupted run causes this: something else wrote to it.",
            "It prevents a cold start too: give another name or remove the file.",
        ],
        example: Some(Example {
            frame: Frame::Command,
            wrong: &[
                "(printf '\\245'; head -c 262143 /dev/zero) > own.retain",
                "plant run own.st --plant own.csv --store own.retain --start warm",
            ],
            right: &["plant run own.st --plant own.csv --store own.retain --start cold"],
        }),
        status: Status::Start,
    },
    Explanation {
        code: "S3",
        title: "the device failed, the file can't be opened, or another run uses it",
        meaning: &["Only one run at a time can use a retain file."],
        example: Some(Example {
            frame: Frame::Command,
            wrong: &["plant run own.st --plant own.csv --store nofolder/own.retain --start cold"],
            right: &["plant run own.st --plant own.csv --store own.retain --start cold"],
        }),
        status: Status::Start,
    },
    Explanation {
        code: "S4",
        title: "a start has to save, but no generation is left",
        meaning: &[
            "Each save takes a new generation; the last is 18,446,744,073,709,551,615, which no run reaches.",
            "The example makes a record of it by hand, for a source that retains only n : INT.",
        ],
        example: Some(Example {
            frame: Frame::Command,
            wrong: &[
                "printf '\\245\\377\\377\\377\\377\\377\\377\\377\\377\\0\\0\\0\\24' > own.retain",
                "(head -c 11 /dev/zero; printf '\\6N INT\\n') >> own.retain",
                "truncate -s 262144 own.retain",
                "plant run own.st --plant own.csv --store own.retain --start cold",
            ],
            right: &["plant run own.st --plant own.csv --store own.retain --start cold"],
        }),
        status: Status::Start,
    },
    Explanation {
        code: "S5",
        title: "memory ran out at the start, for the retain file",
        meaning: &["The retain file may be intact."],
        example: Some(Example {
            frame: Frame::ShortMemory,
            wrong: &[
                "(ulimit -v 7000; plant run own.st --plant own.csv --store own.retain --start warm)",
            ],
            right: &["plant run own.st --plant own.csv --store own.retain --start warm"],
        }),
        status: Status::Start,
    },
    Explanation {
        code: "S6",
        title: "a save follows one that failed",
        meaning: &[
            "A retain store reports this to the core; plant reports K5, and no command gives S6.",
        ],
        example: None,
        status: Status::Run,
    },
];

/// The explanations of the codes with S.
pub(crate) fn store_codes() -> &'static [Explanation]
    ensures { map code_bytes result.now ≡ listed_stores }
{
    &EXPLANATIONS
}
