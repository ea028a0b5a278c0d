//! The lines of a trace with the initial values of the retained variables.

ghost use Rattle.std.specs.Prelude.{◌≡◌, ◌++◌, ◌∷◌, [], codes, IfOk, map, option_map, true};
ghost use Rattle.std.specs.List.{list_all};
ghost use Rattle.std.specs.Vec.{vec_items};
ghost use Rattle.st_types.specs.Values.{Datum, IsHeld};
ghost use Rattle.st_meaning.specs.Layouts.{path_text};
ghost use Rattle.st_print.specs.Spelling.{value_text};
ghost use Rattle.plan.specs.Sound.{has_line, has_spelling};
ghost use Rattle.trace.specs.Reads.{BeginsWith};
ghost use Rattle.trace.specs.NamedValues.{are_names_apart};
ghost use Rattle.trace.specs.Heads.{AreKept, kept_lines};
ghost use Rattle.trace.specs.Texts.{keep_line};

use crate::lines::put_path;
use crate::parts::{after_words, first_field};
use crate::putting::put;
use crate::values::{names, value_of};
use st_meaning::PlanVariable;
use st_types::{Kind, Name, Path, Value};
use std::alloc::{AllocError, Global};

/// The words of a variable's line before its value.
fn words_of(alloc: Global, path: &Path) -> Result<Vec<u8>, AllocError>
    ensures { IfOk result (λ words. words.items ≡ (codes "keep " ++ path_text path.now) ++ codes " ") }
{
    let mut words = Vec::new(alloc);
    let works = put_path(&mut words, true, path);
    if put(&mut words, works, b" ") {
        Ok(words)
    } else {
        Err(AllocError)
    }
}

/// The value of the type in the first line, and the text after it.
fn first_value<'a>(types: &[Vec<Name>], kind: Kind, text: &'a [u8]) -> Option<(Value, &'a [u8])>
    requires spelled { has_spelling (map vec_items types.now) kind ≡ true }
    requires apart { are_names_apart (map vec_items types.now) ≡ true }
    ensures { BeginsWith (λ (v : Datum). (v.kind ≡ kind) × IsHeld v)
        (λ v. value_text (map vec_items types.now) v ++ 10 ∷ []) text.now (option_map (λ p. (p.0, p.1.now)) result) }
{
    let _few = names(kind);
    let (field, rest) = first_field(b'\n', text)?;
    let value = value_of(types, kind, field)?;
    Some((value, rest))
}

/// The value of a variable, by its line, and the text after this.
pub fn kept_value<'a>(
    alloc: Global,
    types: &[Vec<Name>],
    variable: &PlanVariable,
    text: &'a [u8],
) -> Result<Option<(Value, &'a [u8])>, AllocError>
    requires spelled { has_spelling (map vec_items types.now) variable.now.initial.kind ≡ true }
    requires apart { are_names_apart (map vec_items types.now) ≡ true }
    ensures { IfOk result (λ told. BeginsWith (λ (v : Datum). (v.kind ≡ variable.now.initial.kind) × IsHeld v)
        (keep_line (map vec_items types.now) variable.now.path) text.now (option_map (λ p. (p.0, p.1.now)) told)) }
{
    let words = words_of(alloc, &variable.path)?;
    match after_words(text, &words) {
        Some(field) => Ok(first_value(types, variable.initial.kind(), field)),
        None => Ok(None),
    }
}

/// The initial values of the retained variables, by their lines, and the text after these.
pub fn kept_values<'a>(
    alloc: Global,
    types: &[Vec<Name>],
    variables: &[PlanVariable],
    text: &'a [u8],
) -> Result<Option<(Vec<Value>, &'a [u8])>, AllocError>
    requires spelled { list_all (has_line (map vec_items types.now)) variables.now ≡ true }
    requires apart { are_names_apart (map vec_items types.now) ≡ true }
    ensures { IfOk result (λ told. BeginsWith (AreKept variables.now) (kept_lines (map vec_items types.now) variables.now)
        text.now (option_map (λ p. (p.0.items, p.1.now)) told)) }
{
    let mut values = Vec::new(alloc);
    let mut rest = text;
    for variable in variables {
        if variable.retained {
            match kept_value(alloc, types, variable, rest) {
                Ok(Some((value, behind))) => {
                    values.push(value)?;
                    rest = behind;
                }
                Ok(None) => return Ok(None),
                Err(error) => return Err(error),
            }
        }
    }
    Ok(Some((values, rest)))
}
