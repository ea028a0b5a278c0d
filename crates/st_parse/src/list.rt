//! Repeated parts.

ghost use Rattle.std.specs.Prelude.{◌≡◌, map, Bool};
ghost use Rattle.st_lex.specs.declared.token.TokenKind.{TokenKind};
ghost use Rattle.st_parse.specs.Parsers as parsers;
ghost use Rattle.st_parse.specs.Parsers.{Reads, each, Parser};
ghost use Rattle.st_parse.specs.Calls.{CallsRead, Tests};

use crate::fault::ReadError;
use st_lex::Token;
use st_types::Tree;
use std::alloc::Global;

/// `several(item) = { item } .`
/// Parts after those that were found, as long as the next token begins one.
pub fn several<
    'a,
    T: Tree + Drop,
    B: Fn(&'a [Token]) -> bool,
    I: Fn(&'a [Token]) -> Result<(T, &'a [Token]), ReadError>,
>(
    mut found: Vec<T>,
    mut tokens: &'a [Token],
    begins: B,
    item: I,
) -> Result<(Vec<T>, &'a [Token]), ReadError>
    requires begins { B.IsAlwaysCallable begins }
    requires item { I.IsAlwaysCallable item }
    ensures { (f : TokenKind → Bool) (p : Parser T.Mirror) → Tests (B.post begins) f → CallsRead T.view (I.post item) p
        → Reads (each T.view) result (parsers.several f p (map T.view found.items) tokens.entry.now) }
{
    for _turn in 0..tokens.len() {
        if !begins(tokens) {
            return Ok((found, tokens));
        }
        let (next, rest) = item(tokens)?;
        found.push(next)?;
        tokens = rest;
    }
    Ok((found, tokens))
}
