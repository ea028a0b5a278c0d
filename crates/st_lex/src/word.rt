//! Words.

ghost use Rattle.std.specs.Prelude.{◌≡◌, ◌≤◌, ◌<◌, ◌==◌, ◌||◌, length, IfOk};
ghost use Rattle.std.specs.List.{list_any, prefix_len};
ghost use Rattle.st_lex.specs.Characters.{is_word_character};
ghost use Rattle.st_lex.specs.declared.fault.LexFault.TheVariants as faults;
ghost use Rattle.st_lex.specs.Words as words;

use crate::character::is_word_character;
use crate::fault::LexFault;
use crate::front::Front;
use crate::keyword::reserved;
use crate::literal::literal;
use crate::number::{after_hash, before_hash};
use crate::token::TokenKind;
use st_types::limits::MAX_NAME_LENGTH;
use st_types::{Name, is_spaced};
use std::alloc::{AllocError, Global};

fn run_length(text: &[u8]) -> usize
    ensures value { result ≡ prefix_len is_word_character text.now }
    ensures bound { result ≤ length text.now }
{
    text.iter().take_while(|b| is_word_character(**b)).count()
}

/// `word = [ "%" ], character, { character } .`
/// How many bytes the word in front has, 0 if there is none.
pub fn word_length(text: &[u8]) -> usize
    ensures value { result ≡ words.word_length text.now }
    ensures bound { result ≤ length text.now }
{
    let [b'%', behind @ ..] = text else {
        return run_length(text);
    };
    match run_length(behind) {
        0 => 0,
        n => n + 1,
    }
}

fn starts_with_digit(word: &[u8]) -> bool
    ensures { result ≡ words.starts_with_decimal_digit word.now }
{
    match word {
        [b, ..] => b.is_ascii_digit(),
        [] => false,
    }
}

fn has_hash_or_percent(word: &[u8]) -> bool
    ensures { result ≡ list_any (λ b. (b == 35) || (b == 37)) word.now }
{
    word.iter().any(|b| *b == b'#' || *b == b'%')
}

fn must_be_literal(word: &[u8]) -> bool
    ensures { result ≡ words.must_be_literal word.now }
{
    starts_with_digit(word) || has_hash_or_percent(word)
}

fn is_identifier(word: &[u8]) -> bool
    ensures { result ≡ words.is_identifier word.now }
{
    word.len() <= MAX_NAME_LENGTH && is_spaced(word)
}

fn named(alloc: Global, word: &[u8]) -> Result<TokenKind, AllocError>
    ensures { IfOk result (λ kind. kind ≡ words.named word.now) }
{
    match reserved(word) {
        Some(kind) => Ok(kind),
        None => Ok(TokenKind::Name(Name::upper(alloc, word)?)),
    }
}

/// Whether it is an identifier that isn't a reserved word.
fn is_name(word: &[u8]) -> bool
    ensures { result ≡ words.is_name word.now }
{
    !word.is_empty() && !must_be_literal(word) && is_identifier(word) && reserved(word).is_none()
}

fn begins_duration(word: &[u8]) -> bool
    ensures { result ≡ words.begins_duration word.now }
{
    before_hash(word).eq_ignore_ascii_case(b"T")
}

/// `enumerated = name, "#", name .`
/// The type's name is not `T`, which begins a duration.
#[tactic(auto, unfolding(crate::specs::Words::enumerated))]
fn enumerated(alloc: Global, word: &[u8]) -> Result<Option<TokenKind>, AllocError>
    ensures { IfOk result (λ kind. kind ≡ words.enumerated word.now) }
{
    let (type_name, name) = (before_hash(word), after_hash(word));
    if !is_name(type_name) || !is_name(name) || begins_duration(word) {
        return Ok(None);
    }
    Ok(Some(TokenKind::Enumerated(Name::upper(alloc, type_name)?, Name::upper(alloc, name)?)))
}

fn literal_of(alloc: Global, word: &[u8]) -> Result<Option<TokenKind>, AllocError>
    ensures { IfOk result (λ kind. kind ≡ words.literal_of word.now) }
{
    match literal(word) {
        Some(kind) => Ok(Some(kind)),
        None => enumerated(alloc, word),
    }
}

fn literal_front(alloc: Global, word: &[u8]) -> Result<Front, AllocError>
    ensures { IfOk result
        (λ front. front ≡ words.read_as faults.Literal (length word.now) (words.literal_of word.now)) }
{
    match literal_of(alloc, word)? {
        Some(kind) => Ok(Front::Token(kind, word.len())),
        None => Ok(Front::Fault(LexFault::Literal, 0)),
    }
}

/// The front that a word is.
#[tactic(auto, unfolding(crate::specs::Words::word_front))]
pub fn word_front(alloc: Global, word: &[u8]) -> Result<Front, AllocError>
    ensures { IfOk result (λ front. front ≡ words.word_front word.now) }
{
    if must_be_literal(word) {
        return literal_front(alloc, word);
    }
    if !is_identifier(word) {
        return Ok(Front::Fault(LexFault::Identifier, 0));
    }
    Ok(Front::Token(named(alloc, word)?, word.len()))
}
