//! Words by their bytes.

ghost use Rattle.std.specs.Prelude.{◌≡◌, ◌++◌, List, ℕ, Option, option_map, bytes_eq};
ghost use Rattle.symbols.specs.Words.{is_back};

use st_types::Name;

pub fn is_same(word: &[u8], other: &[u8]) -> bool
    ensures { result ≡ bytes_eq word.now other.now }
{
    word == other
}

pub fn is_word(name: &Name, word: &[u8]) -> bool
    ensures { result ≡ bytes_eq name.now word.now }
{
    is_same(name.as_slice(), word)
}

/// The rest of a word after a prefix.
#[tactic(auto, using(crate::proofs::WordLemmas::short_word, crate::proofs::WordLemmas::word_by_parts, crate::proofs::WordLemmas::word_behind))]
pub fn after_prefix<'a>(word: &'a [u8], front: &[u8]) -> Option<&'a [u8]>
    ensures { (back : List ℕ) → bytes_eq word.now (front.now ++ back) ≡ is_back back (option_map (λ r. r.now) result) }
{
    if word.len() < front.len() {
        return None;
    }
    if is_same(&word[..front.len()], front) {
        return Some(&word[front.len()..]);
    }
    None
}
