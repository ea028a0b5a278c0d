//! Codes of files of texts.

ghost use Rattle.std.specs.Prelude.{◌≡◌, map};
ghost use Rattle.source_run.specs.ListedCodes.{code_bytes, listed_sources};

use crate::entry::{Example, Explanation, Frame, Status};

static EXPLANATIONS: [Explanation; 1] = [Explanation {
    code: "X1",
    title: "the source can't be read",
    meaning: &["The file doesn't exist, is a folder or can't be read."],
    example: Some(Example {
        frame: Frame::Command,
        wrong: &["plant check nowhere.st"],
        right: &["plant check own.st"],
    }),
    status: Status::Source,
}];

/// The explanations of the codes with X.
pub(crate) fn source_codes() -> &'static [Explanation]
    ensures { map code_bytes result.now ≡ listed_sources }
{
    &EXPLANATIONS
}
