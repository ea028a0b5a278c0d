//! Words of other languages, and of what the profile leaves out, with what to write for each.

use st_lex::Keyword;

/// Words that the profile doesn't have, in upper case.
struct ForeignWords {
    words: &'static [&'static str],
    /// What to write for each.
    help: &'static str,
}

pub const NO_REAL: &str = "there is no REAL: use whole numbers, as 15 tenths for 1.5";

pub const NO_STRING: &str = "strings aren't supported";

const NO_DATE: &str = "dates aren't supported";

const NO_POINTER: &str = "there are no pointers";

const NO_CLASS: &str = "there are no classes: declare a FUNCTION_BLOCK";

/// Words with which statements or declarations begin or end.
static STATEMENTS: [ForeignWords; 9] = [
    ForeignWords {
        words: &["ELSEIF", "ELIF"],
        help: "write ELSIF",
    },
    ForeignWords {
        words: &["END", "ENDIF", "ENDCASE", "ENDFOR", "ENDWHILE", "ENDREPEAT"],
        help: "write the last word as END_IF or END_FOR",
    },
    ForeignWords {
        words: &["BREAK"],
        help: "write EXIT in a loop; an arm of a CASE needs no word",
    },
    ForeignWords {
        words: &["CONTINUE"],
        help: "put the rest of the loop into an IF",
    },
    ForeignWords {
        words: &["GOTO", "JMP"],
        help: "there are no jumps: write an IF or a loop",
    },
    ForeignWords {
        words: &["SWITCH"],
        help: "write CASE",
    },
    ForeignWords {
        words: &["PERSISTENT"],
        help: "write RETAIN",
    },
    ForeignWords {
        words: &["METHOD", "PROPERTY", "ACTION"],
        help: NO_CLASS,
    },
    ForeignWords {
        words: &["POINTER", "REF_TO", "REFERENCE"],
        help: NO_POINTER,
    },
];

static TYPES: [ForeignWords; 7] = [
    ForeignWords {
        words: &["INTEGER", "INT16"],
        help: "write INT",
    },
    ForeignWords {
        words: &["INT32", "LONG"],
        help: "write DINT",
    },
    ForeignWords {
        words: &["BOOLEAN", "BIT"],
        help: "write BOOL",
    },
    ForeignWords {
        words: &["LTIME"],
        help: "write TIME",
    },
    ForeignWords {
        words: &["FLOAT", "DOUBLE"],
        help: NO_REAL,
    },
    ForeignWords {
        words: &["CHAR", "WCHAR"],
        help: NO_STRING,
    },
    ForeignWords {
        words: &[
            "TIME_OF_DAY",
            "TOD",
            "LTOD",
            "DATE_AND_TIME",
            "DT",
            "LDT",
            "LDATE",
        ],
        help: NO_DATE,
    },
];

static FUNCTIONS: [ForeignWords; 6] = [
    ForeignWords {
        words: &["EXPT"],
        help: "there is no power: multiply, as in `n * n`",
    },
    ForeignWords {
        words: &["MUX"],
        help: "choose with CASE",
    },
    ForeignWords {
        words: &["MOVE"],
        help: "assign with `:=`",
    },
    ForeignWords {
        words: &[
            "SQRT", "LN", "LOG", "EXP", "SIN", "COS", "TAN", "ASIN", "ACOS", "ATAN", "TRUNC",
            "ROUND",
        ],
        help: NO_REAL,
    },
    ForeignWords {
        words: &[
            "LEN", "LEFT", "RIGHT", "MID", "CONCAT", "INSERT", "DELETE", "REPLACE", "FIND",
        ],
        help: NO_STRING,
    },
    ForeignWords {
        words: &["ADR", "REF", "SIZEOF"],
        help: NO_POINTER,
    },
];

impl ForeignWords {
    fn has(&self, word: &[u8]) -> bool {
        self.words.iter().any(|w| w.as_bytes() == word)
    }
}

fn help_in(table: &[ForeignWords], word: &[u8]) -> Option<&'static str> {
    for row in table {
        if row.has(word) {
            return Some(row.help);
        }
    }
    None
}

/// What to write for a word of statements or declarations, in upper case.
pub fn foreign_statement(word: &[u8]) -> Option<&'static str> {
    help_in(&STATEMENTS, word)
}

/// What to write for the name of a type, in upper case.
pub fn foreign_type(word: &[u8]) -> Option<&'static str> {
    help_in(&TYPES, word)
}

/// What to write for the name of a function, in upper case.
pub fn foreign_function(word: &[u8]) -> Option<&'static str> {
    help_in(&FUNCTIONS, word)
}

/// What to write for a word that is reserved and occurs in no text of the language.
pub fn foreign_keyword(keyword: Keyword) -> Option<&'static str> {
    match keyword {
        Keyword::Real | Keyword::Lreal => Some(NO_REAL),
        Keyword::String | Keyword::Wstring => Some(NO_STRING),
        Keyword::Date => Some(NO_DATE),
        Keyword::VarInOut => Some("there is no VAR_IN_OUT: write a VAR_INPUT and a VAR_OUTPUT"),
        Keyword::VarTemp => Some("there is no VAR_TEMP: write VAR"),
        Keyword::VarAccess | Keyword::VarConfig | Keyword::En | Keyword::Eno => {
            Some("this word is reserved, but isn't supported")
        }
        _ => None,
    }
}
