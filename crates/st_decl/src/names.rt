//! Lists of names.

ghost use Rattle.std.specs.Prelude.{◌≡◌, ◌++◌, map, IfOk};

use st_types::Identifier;
use std::alloc::AllocError;

/// Appends names to a scope.
pub fn push_names<'a>(
    scope: &mut Vec<&'a Identifier>,
    names: &'a [Identifier],
) -> Result<(), AllocError>
    ensures { IfOk result (λ done. map (λ x. x.now) scope.new.items ≡ map (λ x. x.now) scope.old.items ++ names.now) }
{
    for name in names {
        scope.push(name)?;
    }
    Ok(())
}
