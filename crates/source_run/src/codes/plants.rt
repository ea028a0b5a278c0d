//! Codes of the plant.

ghost use Rattle.std.specs.Prelude.{◌≡◌, map};
ghost use Rattle.source_run.specs.ListedCodes.{code_bytes, listed_plants};

use crate::entry::{Example, Explanation, Frame, Status};

static EXPLANATIONS: [Explanation; 6] = [
    Explanation {
        code: "I1",
        title: "the first line isn't t and the input names in order of declaration",
        meaning: &[
            "Names have any case, with commas and no spaces; a source without inputs has only t.",
        ],
        example: Some(Example {
            frame: Frame::Plant,
            wrong: &["time", "0"],
            right: &["t", "0"],
        }),
        status: Status::Plant,
    },
    Explanation {
        code: "I2",
        title: "a field isn't a number of its column's type, or a row has too many or too few fields",
        meaning: &["A number has no space, no + and no leading zero; a BOOL is 0 or 1."],
        example: Some(Example {
            frame: Frame::Plant,
            wrong: &["t", "05"],
            right: &["t", "5"],
        }),
        status: Status::Plant,
    },
    Explanation {
        code: "I3",
        title: "a row isn't later than the one before it",
        meaning: &[
            "The first column is the time in milliseconds, which increases from row to row.",
        ],
        example: Some(Example {
            frame: Frame::Plant,
            wrong: &["t", "5", "5"],
            right: &["t", "5", "6"],
        }),
        status: Status::Plant,
    },
    Explanation {
        code: "I4",
        title: "more than 10,000 rows",
        meaning: &["Split the plant and continue with a warm start."],
        example: Some(Example {
            frame: Frame::Command,
            wrong: &[
                "(echo t; seq 0 10000) > own.csv",
                "plant run own.st --plant own.csv --store own.retain --start cold",
            ],
            right: &[
                "(echo t; seq 0 9) > own.csv",
                "plant run own.st --plant own.csv --store own.retain --start cold",
            ],
        }),
        status: Status::Plant,
    },
    Explanation {
        code: "I5",
        title: "the plant can't be read",
        meaning: &[
            "The file doesn't exist, is a folder or can't be read.",
            "If the input of plant live fails later, each row that was answered is saved.",
        ],
        example: Some(Example {
            frame: Frame::Command,
            wrong: &["plant run own.st --plant nowhere.csv --store own.retain --start cold"],
            right: &["plant run own.st --plant own.csv --store own.retain --start cold"],
        }),
        status: Status::Plant,
    },
    Explanation {
        code: "I6",
        title: "memory ran out while the plant was read",
        meaning: &["The plant may be correct.", "I5 may be reported instead."],
        example: Some(Example {
            frame: Frame::ShortMemory,
            wrong: &[
                "(ulimit -v 7000; plant run own.st --plant own.csv --store own.retain --start cold)",
            ],
            right: &["plant run own.st --plant own.csv --store own.retain --start cold"],
        }),
        status: Status::Plant,
    },
];

/// The explanations of the codes with I.
pub(crate) fn plant_codes() -> &'static [Explanation]
    ensures { map code_bytes result.now ≡ listed_plants }
{
    &EXPLANATIONS
}
