//! Reserved words.

ghost use Rattle.std.specs.Prelude.{◌≡◌};
ghost use Rattle.st_lex.specs.ReservedWords as words;

use crate::table::lookup;
use crate::token::TokenKind;
use st_types::Kind;

/// A reserved word that is neither the name of a type nor TRUE nor FALSE.
#[derive(Clone, Copy, Debug, PartialEq, Eq)]
pub enum Keyword {
    And,
    Or,
    Xor,
    Not,
    Mod,
    If,
    Then,
    Elsif,
    Else,
    EndIf,
    Case,
    Of,
    EndCase,
    For,
    To,
    By,
    Do,
    EndFor,
    While,
    EndWhile,
    Repeat,
    Until,
    EndRepeat,
    Exit,
    Return,
    Type,
    EndType,
    Struct,
    EndStruct,
    Array,
    Function,
    EndFunction,
    FunctionBlock,
    EndFunctionBlock,
    Program,
    EndProgram,
    Var,
    VarInput,
    VarOutput,
    VarExternal,
    VarGlobal,
    EndVar,
    Constant,
    Retain,
    NonRetain,
    At,
    Configuration,
    EndConfiguration,
    Resource,
    On,
    EndResource,
    Task,
    With,
    Single,
    Interval,
    Priority,
    // Reserved, but not used by the grammar.
    Real,
    Lreal,
    String,
    Wstring,
    Date,
    VarInOut,
    VarTemp,
    VarAccess,
    VarConfig,
    En,
    Eno,
}

const KEYWORDS: [(&[u8], Keyword); 67] = [
    (b"AND", Keyword::And),
    (b"OR", Keyword::Or),
    (b"XOR", Keyword::Xor),
    (b"NOT", Keyword::Not),
    (b"MOD", Keyword::Mod),
    (b"IF", Keyword::If),
    (b"THEN", Keyword::Then),
    (b"ELSIF", Keyword::Elsif),
    (b"ELSE", Keyword::Else),
    (b"END_IF", Keyword::EndIf),
    (b"CASE", Keyword::Case),
    (b"OF", Keyword::Of),
    (b"END_CASE", Keyword::EndCase),
    (b"FOR", Keyword::For),
    (b"TO", Keyword::To),
    (b"BY", Keyword::By),
    (b"DO", Keyword::Do),
    (b"END_FOR", Keyword::EndFor),
    (b"WHILE", Keyword::While),
    (b"END_WHILE", Keyword::EndWhile),
    (b"REPEAT", Keyword::Repeat),
    (b"UNTIL", Keyword::Until),
    (b"END_REPEAT", Keyword::EndRepeat),
    (b"EXIT", Keyword::Exit),
    (b"RETURN", Keyword::Return),
    (b"TYPE", Keyword::Type),
    (b"END_TYPE", Keyword::EndType),
    (b"STRUCT", Keyword::Struct),
    (b"END_STRUCT", Keyword::EndStruct),
    (b"ARRAY", Keyword::Array),
    (b"FUNCTION", Keyword::Function),
    (b"END_FUNCTION", Keyword::EndFunction),
    (b"FUNCTION_BLOCK", Keyword::FunctionBlock),
    (b"END_FUNCTION_BLOCK", Keyword::EndFunctionBlock),
    (b"PROGRAM", Keyword::Program),
    (b"END_PROGRAM", Keyword::EndProgram),
    (b"VAR", Keyword::Var),
    (b"VAR_INPUT", Keyword::VarInput),
    (b"VAR_OUTPUT", Keyword::VarOutput),
    (b"VAR_EXTERNAL", Keyword::VarExternal),
    (b"VAR_GLOBAL", Keyword::VarGlobal),
    (b"END_VAR", Keyword::EndVar),
    (b"CONSTANT", Keyword::Constant),
    (b"RETAIN", Keyword::Retain),
    (b"NON_RETAIN", Keyword::NonRetain),
    (b"AT", Keyword::At),
    (b"CONFIGURATION", Keyword::Configuration),
    (b"END_CONFIGURATION", Keyword::EndConfiguration),
    (b"RESOURCE", Keyword::Resource),
    (b"ON", Keyword::On),
    (b"END_RESOURCE", Keyword::EndResource),
    (b"TASK", Keyword::Task),
    (b"WITH", Keyword::With),
    (b"SINGLE", Keyword::Single),
    (b"INTERVAL", Keyword::Interval),
    (b"PRIORITY", Keyword::Priority),
    (b"REAL", Keyword::Real),
    (b"LREAL", Keyword::Lreal),
    (b"STRING", Keyword::String),
    (b"WSTRING", Keyword::Wstring),
    (b"DATE", Keyword::Date),
    (b"VAR_IN_OUT", Keyword::VarInOut),
    (b"VAR_TEMP", Keyword::VarTemp),
    (b"VAR_ACCESS", Keyword::VarAccess),
    (b"VAR_CONFIG", Keyword::VarConfig),
    (b"EN", Keyword::En),
    (b"ENO", Keyword::Eno),
];

const TYPES: [(&[u8], Kind); 14] = [
    (b"SINT", Kind::Sint),
    (b"INT", Kind::Int),
    (b"DINT", Kind::Dint),
    (b"LINT", Kind::Lint),
    (b"USINT", Kind::Usint),
    (b"UINT", Kind::Uint),
    (b"UDINT", Kind::Udint),
    (b"ULINT", Kind::Ulint),
    (b"BYTE", Kind::Byte),
    (b"WORD", Kind::Word),
    (b"DWORD", Kind::Dword),
    (b"LWORD", Kind::Lword),
    (b"TIME", Kind::Time),
    (b"BOOL", Kind::Bool),
];

const TRUTHS: [(&[u8], bool); 2] = [(b"TRUE", true), (b"FALSE", false)];

#[tactic(auto, unfolding(crate::specs::ReservedWords::keyword_of))]
fn keyword_of(word: &[u8]) -> Option<Keyword>
    ensures { result ≡ words.keyword_of word.now }
{
    lookup(&KEYWORDS, word)
}

/// The elementary type of this name.
#[tactic(auto, unfolding(crate::specs::ReservedWords::elementary))]
pub fn elementary(word: &[u8]) -> Option<Kind>
    ensures { result ≡ words.elementary word.now }
{
    lookup(&TYPES, word)
}

#[tactic(auto, unfolding(crate::specs::ReservedWords::bool_word))]
fn bool_word(word: &[u8]) -> Option<bool>
    ensures { result ≡ words.bool_word word.now }
{
    lookup(&TRUTHS, word)
}

/// The token that a reserved word is; none if the word is not reserved.
pub fn reserved(word: &[u8]) -> Option<TokenKind>
    ensures { result ≡ words.reserved word.now }
{
    if let Some(keyword) = keyword_of(word) {
        return Some(TokenKind::Keyword(keyword));
    }
    if let Some(kind) = elementary(word) {
        return Some(TokenKind::Elementary(kind));
    }
    match bool_word(word) {
        Some(truth) => Some(TokenKind::Truth(truth)),
        None => None,
    }
}
