//! Laws of the tokens of a text, each proved of the definitions. The functions do nothing: their contracts are the
//! laws.

ghost use Rattle.std.specs.Prelude.{◌≡◌, ℕ, ◌≤◌, length, List, ◌⊎◌};
ghost use Rattle.st_lex.specs.declared.token.Token.{Token};
ghost use Rattle.st_lex.specs.declared.fault.LexFault.{LexFault};
ghost use Rattle.st_lex.specs.Texts.{Spells, HasFault, Lexes};
ghost use Rattle.st_lex.specs.Laws.{IsSpelled, IsBroken, AreInOrder, Each, IsItsSlice, IsWholeToken};

/// A text, however long, has either tokens or a first fault at a place, never both, and never two of either.
pub fn a_text_is_read_in_one_way()
    ensures decided { (text : List ℕ) → IsSpelled 0 text ⊎ IsBroken 0 text }
    ensures tokens { (text : List ℕ) (these those : List Token) → Spells 0 text these → Spells 0 text those
        → these ≡ those }
    ensures fault { (text : List ℕ) (f g : LexFault) (p q : ℕ) → HasFault 0 text f p → HasFault 0 text g q
        → (f ≡ g) × (p ≡ q) }
    ensures apart { (text : List ℕ) (tokens : List Token) (f : LexFault) (p : ℕ) → Spells 0 text tokens
        → HasFault 0 text f p → ⊥ }
{}

/// Tokens have bytes, are in order, don't overlap and lie within the text.
pub fn tokens_stand_in_order()
    ensures { (text : List ℕ) (tokens : List Token) → Lexes text tokens → AreInOrder 0 (length text) tokens }
{}

/// A token's text is its slice: read alone, the slice is this token alone.
pub fn tokens_are_their_slices()
    ensures { (text : List ℕ) (tokens : List Token) → Lexes text tokens → Each (IsItsSlice text) tokens }
{}

/// Words are longest runs: where a token begins or ends, two characters of a word are never side by side.
pub fn words_are_longest_runs()
    ensures { (text : List ℕ) (tokens : List Token) → Lexes text tokens → Each (IsWholeToken text) tokens }
{}
