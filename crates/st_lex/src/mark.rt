//! Marks.

ghost use Rattle.std.specs.Prelude.{◌≡◌, map};
ghost use Rattle.st_lex.specs.Marks as marks;

use crate::fault::LexFault;
use crate::front::Front;
use crate::keyword::Keyword;
use crate::token::TokenKind;

/// A mark. `&` isn't a mark but another spelling of AND.
#[derive(Clone, Copy, Debug, PartialEq, Eq)]
pub enum Mark {
    /// `:=`
    Assign,
    /// `=>`
    Arrow,
    /// `..`
    Range,
    /// `<=`
    LessOrEqual,
    /// `>=`
    GreaterOrEqual,
    /// `<>`
    NotEqual,
    /// `<`
    Less,
    /// `>`
    Greater,
    /// `=`
    Equal,
    /// `+`
    Plus,
    /// `-`
    Minus,
    /// `*`
    Star,
    /// `/`
    Slash,
    /// `(`
    Open,
    /// `)`
    Close,
    /// `[`
    OpenBracket,
    /// `]`
    CloseBracket,
    /// `,`
    Comma,
    /// `;`
    Semicolon,
    /// `:`
    Colon,
    /// `.`
    Dot,
}

/// The longer ones first.
const MARKS: [(&[u8], Mark); 21] = [
    (b":=", Mark::Assign),
    (b"=>", Mark::Arrow),
    (b"..", Mark::Range),
    (b"<=", Mark::LessOrEqual),
    (b">=", Mark::GreaterOrEqual),
    (b"<>", Mark::NotEqual),
    (b"<", Mark::Less),
    (b">", Mark::Greater),
    (b"=", Mark::Equal),
    (b"+", Mark::Plus),
    (b"-", Mark::Minus),
    (b"*", Mark::Star),
    (b"/", Mark::Slash),
    (b"(", Mark::Open),
    (b")", Mark::Close),
    (b"[", Mark::OpenBracket),
    (b"]", Mark::CloseBracket),
    (b",", Mark::Comma),
    (b";", Mark::Semicolon),
    (b":", Mark::Colon),
    (b".", Mark::Dot),
];

fn leading(mut table: &[(&[u8], Mark)], text: &[u8]) -> Option<(Mark, usize)>
    ensures { result ≡ marks.leading (map (λ row. (row.0.now, row.1)) table.entry.now) text.now }
{
    while let [row, rows @ ..] = table {
        if text.starts_with(row.0) {
            return Some((row.1, row.0.len()));
        }
        table = rows;
    }
    None
}

#[tactic(auto, unfolding(crate::specs::Marks::longest_mark))]
fn longest_mark(text: &[u8]) -> Option<(Mark, usize)>
    ensures { result ≡ marks.longest_mark text.now }
{
    leading(&MARKS, text)
}

fn read_mark(found: Option<(Mark, usize)>) -> Front
    ensures { result ≡ marks.read_mark found }
{
    match found {
        Some((mark, len)) => Front::Token(TokenKind::Mark(mark), len),
        None => Front::Fault(LexFault::Byte, 0),
    }
}

/// The front of a text that doesn't begin with a space, a comment or a word.
pub fn mark_front(text: &[u8]) -> Front
    ensures { result ≡ marks.mark_front text.now }
{
    match text {
        [] => Front::Fault(LexFault::Byte, 0),
        [b'&', ..] => Front::Token(TokenKind::Keyword(Keyword::And), 1),
        _ => read_mark(longest_mark(text)),
    }
}
