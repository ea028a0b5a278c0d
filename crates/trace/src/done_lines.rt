//! The lines of executions, read back.

ghost use Rattle.std.specs.Prelude.{◌≡◌, ◌<◌, ◌^◌, ◌++◌, List, ℕ, codes, option_map, slice_get, IfSome, IfNone, Some};
ghost use Rattle.st_meaning.specs.declared.outcome.Outcome.{Outcome};
ghost use Rattle.plan.specs.declared.task.ProgramInstance.{ProgramInstance};
ghost use Rattle.trace.specs.Reads.{BeginsWith, IsRestAfter, FieldSpells};
ghost use Rattle.trace.specs.Texts.{row_outcome_text};
ghost use Rattle.trace.specs.Texts.{instance_text, line, outcome_text};

use crate::parts::{after_words, first_field, first_number};
use plan::ProgramInstance;
use st_meaning::Outcome;
use st_types::Fault;

/// The text after the resource, the instance and a space, if the text begins with those of the program.
pub fn after_program<'a>(text: &'a [u8], program: &ProgramInstance) -> Option<&'a [u8]>
    ensures { IsRestAfter text.now (instance_text (Some program.now) ++ codes " ") (option_map (λ rest. rest.now) result) }
{
    let slash = after_words(text, program.owner.resource.as_slice())?;
    let instance = after_words(slash, b"/")?;
    let space = after_words(instance, program.owner.instance.as_slice())?;
    after_words(space, b" ")
}

/// The number of a program with whose resource and instance the text begins, and the text after a space.
pub fn program_of<'a>(programs: &[ProgramInstance], text: &'a [u8]) -> Option<(usize, &'a [u8])>
    ensures told { IfSome result (λ p. (q : ProgramInstance) × (slice_get programs.now p.0 ≡ Some q)
        × (text.now ≡ (instance_text (Some q) ++ codes " ") ++ p.1.now)) }
    ensures none { IfNone result ((i : ℕ) (q : ProgramInstance) (rest : List ℕ) → slice_get programs.now i ≡ Some q
        → text.now ≡ (instance_text (Some q) ++ codes " ") ++ rest → ⊥) }
{
    for i in 0..programs.len() {
        match after_program(text, &programs[i]) {
            Some(rest) => return Some((i, rest)),
            None => {}
        }
    }
    None
}

/// How an execution ended, by its word.
fn outcome_of(field: &[u8]) -> Option<Outcome>
    ensures { FieldSpells (λ (o : Outcome). Unit {0}) (λ o. outcome_text (Some o)) field.now result }
{
    if field == b"ok".as_slice() {
        Some(Outcome::Done)
    } else if field == b"F1".as_slice() {
        Some(Outcome::Faulted(Fault::Range))
    } else if field == b"F2".as_slice() {
        Some(Outcome::Faulted(Fault::DivisionByZero))
    } else if field == b"F3".as_slice() {
        Some(Outcome::Faulted(Fault::Index))
    } else if field == b"F4".as_slice() {
        Some(Outcome::Faulted(Fault::Conversion))
    } else if field == b"F5".as_slice() {
        Some(Outcome::Faulted(Fault::Budget))
    } else if field == b"F6".as_slice() {
        Some(Outcome::Faulted(Fault::ZeroStep))
    } else {
        None
    }
}

/// How an execution ended, by the first line, and the text after that.
fn first_outcome(text: &[u8]) -> Option<(Outcome, &[u8])>
    ensures { BeginsWith (λ (o : Outcome). Unit {0}) (λ o. line (outcome_text (Some o))) text.now
        (option_map (λ p. (p.0, p.1.now)) result) }
{
    let (field, rest) = first_field(b'\n', text)?;
    let outcome = outcome_of(field)?;
    Some((outcome, rest))
}

/// The row of an execution, how it ended, and the text after its line.
pub fn ending(text: &[u8]) -> Option<(u64, Outcome, &[u8])>
    ensures { BeginsWith (λ (t : ℕ × Outcome). t.0 < 2 ^ 64) row_outcome_text text.now
        (option_map (λ p. ((p.0, p.1), p.2.now)) result) }
{
    let (row, word) = first_number(b' ', text)?;
    let (outcome, rest) = first_outcome(word)?;
    Some((row, outcome, rest))
}
