//! Codes of threads.

ghost use Rattle.std.specs.Prelude.{◌≡◌, map};
ghost use Rattle.source_run.specs.ListedCodes.{code_bytes, listed_threads};

use crate::entry::{Example, Explanation, Frame, Status};

static EXPLANATIONS: [Explanation; 2] = [
    Explanation {
        code: "H1",
        title: "a thread couldn't be started",
        meaning: &[
            "Usually there was no room for its stack; each resource has a thread, and so does the flusher.",
        ],
        example: Some(Example {
            frame: Frame::ShortMemory,
            wrong: &["(ulimit -S -s 400000 -v 600000; plant first)"],
            right: &["plant first"],
        }),
        status: Status::Run,
    },
    Explanation {
        code: "H2",
        title: "all threads ended normally, but left something to do",
        meaning: &[
            "A run checks for this before it ends.",
            "No test and no known command gives H2.",
        ],
        example: None,
        status: Status::Run,
    },
];

/// The explanations of the codes with H.
pub(crate) fn thread_codes() -> &'static [Explanation]
    ensures { map code_bytes result.now ≡ listed_threads }
{
    &EXPLANATIONS
}
