//! How paths and types are written in a record.

ghost use Rattle.std.specs.Prelude.{◌≡◌, IfOk, map};
ghost use Rattle.std.specs.Vec.{vec_items};
ghost use Rattle.st_meaning.specs.Layouts.{path_text, type_text};

use st_print::{write_path, write_type};
use st_types::{Kind, Name, Path};
use std::alloc::Global;
use std::io;

/// A type as a record spells it.
pub(crate) fn type_text(alloc: Global, types: &[Vec<Name>], kind: Kind) -> io::Result<Vec<u8>>
    ensures { IfOk result (λ text. text.items ≡ type_text (map vec_items types.now) kind) }
{
    let mut text = Vec::new(alloc);
    write_type(&mut text, types, kind)?;
    Ok(text)
}

/// A path as a record spells it.
pub(crate) fn path_text(alloc: Global, path: &Path) -> io::Result<Vec<u8>>
    ensures { IfOk result (λ text. text.items ≡ path_text path.now) }
{
    let mut text = Vec::new(alloc);
    write_path(&mut text, path)?;
    Ok(text)
}
