//! Laws of the tree of a text, each proved of the definitions. The functions do nothing: their contracts are the laws.

ghost use Rattle.std.specs.Prelude.{◌≡◌, ℕ, List};
ghost use Rattle.st_types.specs.Sources.{Source};
ghost use Rattle.st_lex.specs.Texts.{Lexes};
ghost use Rattle.st_parse.specs.Tokens.{Tokens};
ghost use Rattle.st_parse.specs.Sources.{IsSource};

/// A text has at most one tree, however deep it is, and so has a list of tokens.
pub fn a_text_has_one_tree()
    ensures tokens { (tokens : Tokens) (this that : Source) → IsSource tokens this → IsSource tokens that
        → this ≡ that }
    ensures text { (text : List ℕ) (some others : Tokens) (this that : Source) → Lexes text some
        → Lexes text others → IsSource some this → IsSource others that → this ≡ that }
{}
