//! Codes of the start.

ghost use Rattle.std.specs.Prelude.{◌≡◌, map};
ghost use Rattle.source_run.specs.ListedCodes.{code_bytes, listed_starts};

use crate::entry::{Example, Explanation, Frame, Status};

static EXPLANATIONS: [Explanation; 1] = [Explanation {
    code: "N2",
    title: "memory ran out at the start, for the core",
    meaning: &["The retain file may be intact."],
    example: Some(Example {
        frame: Frame::ShortMemory,
        wrong: &[
            "(ulimit -v 7000; plant run own.st --plant own.csv --store own.retain --start warm)",
        ],
        right: &["plant run own.st --plant own.csv --store own.retain --start warm"],
    }),
    status: Status::Start,
}];

/// The explanations of the codes with N.
pub(crate) fn start_codes() -> &'static [Explanation]
    ensures { map code_bytes result.now ≡ listed_starts }
{
    &EXPLANATIONS
}
