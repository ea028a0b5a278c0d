//! Marks of other languages, and of what the profile leaves out, with what to write for each.

use crate::foreign_words::NO_STRING;
use crate::part::part;

/// A mark that the profile doesn't have.
struct ForeignMark {
    spelled: &'static [u8],
    /// What to write.
    help: &'static str,
}

const COMMENT: &str = "write a comment as `(* .. *)`";

/// A mark of two bytes comes before those that it begins with.
static MARKS: [ForeignMark; 26] = [
    ForeignMark {
        spelled: b"//",
        help: COMMENT,
    },
    ForeignMark {
        spelled: b"/*",
        help: COMMENT,
    },
    ForeignMark {
        spelled: b"**",
        help: "there is no power: multiply, as in `n * n`",
    },
    ForeignMark {
        spelled: b"==",
        help: "`=` compares, `:=` assigns",
    },
    ForeignMark {
        spelled: b"!=",
        help: "write `<>`",
    },
    ForeignMark {
        spelled: b"=<",
        help: "write `<=`",
    },
    ForeignMark {
        spelled: b"+=",
        help: "write the name twice, as in `n := n + 1`",
    },
    ForeignMark {
        spelled: b"-=",
        help: "write the name twice, as in `n := n - 1`",
    },
    ForeignMark {
        spelled: b"*=",
        help: "write the name twice, as in `n := n * 2`",
    },
    ForeignMark {
        spelled: b"/=",
        help: "write the name twice, as in `n := n / 2`",
    },
    ForeignMark {
        spelled: b"++",
        help: "write `n := n + 1`",
    },
    ForeignMark {
        spelled: b"--",
        help: "write `n := n - 1`, and a comment as `(* .. *)`",
    },
    ForeignMark {
        spelled: b"<<",
        help: "shift a bit string, as in `SHL(w, 1)`",
    },
    ForeignMark {
        spelled: b">>",
        help: "shift a bit string, as in `SHR(w, 1)`",
    },
    ForeignMark {
        spelled: b"&&",
        help: "write AND",
    },
    ForeignMark {
        spelled: b"||",
        help: "write OR",
    },
    ForeignMark {
        spelled: b"|",
        help: "write OR",
    },
    ForeignMark {
        spelled: b"!",
        help: "write NOT",
    },
    ForeignMark {
        spelled: b"~",
        help: "write NOT",
    },
    ForeignMark {
        spelled: b"%",
        help: "write a remainder as `n MOD 2`, and an address as `%IX0`",
    },
    ForeignMark {
        spelled: b"^",
        help: "there is no power, and there are no pointers",
    },
    ForeignMark {
        spelled: b"?",
        help: "choose with IF or SEL",
    },
    ForeignMark {
        spelled: b"{",
        help: "leave a pragma out; an IF ends with END_IF",
    },
    ForeignMark {
        spelled: b"}",
        help: "leave a pragma out; an IF ends with END_IF",
    },
    ForeignMark {
        spelled: b"'",
        help: NO_STRING,
    },
    ForeignMark {
        spelled: b"\"",
        help: NO_STRING,
    },
];

impl ForeignMark {
    fn begins_at(&self, text: &[u8], start: usize) -> bool {
        part(text, start, text.len()).starts_with(self.spelled)
    }

    /// Whether the place is at one of its bytes.
    fn is_at(&self, text: &[u8], place: usize) -> bool {
        for passed in 0..self.spelled.len() {
            if self.begins_at(text, place.saturating_sub(passed)) {
                return true;
            }
        }
        false
    }
}

/// What to write for the mark of which a byte is at the place.
pub fn foreign_mark(text: &[u8], place: usize) -> Option<&'static str> {
    for mark in &MARKS {
        if mark.is_at(text, place) {
            return Some(mark.help);
        }
    }
    None
}
