//! Literals and addresses.

ghost use Rattle.std.specs.Prelude.{◌≡◌};
ghost use Rattle.st_lex.specs.Literals as literals;

use crate::address::address;
use crate::duration::duration;
use crate::number::whole_number;
use crate::table::lookup;
use crate::token::TokenKind;

const TRUTHS: [(&[u8], bool); 2] = [(b"BOOL#0", false), (b"BOOL#1", true)];

/// `bool_literal = "BOOL#0" | "BOOL#1" .`
#[tactic(auto, unfolding(crate::specs::Literals::bool_literal))]
fn bool_literal(word: &[u8]) -> Option<bool>
    ensures { result ≡ literals.bool_literal word.now }
{
    lookup(&TRUTHS, word)
}

/// `literal = whole_number | bool_literal | duration | address .`
/// The word as a literal or an address.
#[tactic(auto, unfolding(crate::specs::Literals::literal))]
pub fn literal(word: &[u8]) -> Option<TokenKind>
    ensures { result ≡ literals.literal word.now }
{
    if let Some(number) = whole_number(word) {
        return Some(TokenKind::Number(number));
    }
    if let Some(truth) = bool_literal(word) {
        return Some(TokenKind::Truth(truth));
    }
    if let Some(milliseconds) = duration(word) {
        return Some(TokenKind::Duration(milliseconds));
    }
    match address(word) {
        Some(address) => Some(TokenKind::Address(address)),
        None => None,
    }
}
