//! The meanings of the names of a unit's body.

ghost use Rattle.std.specs.Prelude.{◌≡◌, ◌≤◌, ◌+◌, List, map, IfOk, true};
ghost use Rattle.st_types.specs.declared.limits.TheConstants.{MAX_PATHS};
ghost use Rattle.st_meaning.specs.NameTypes.{Declared};
ghost use Rattle.layout.specs.Sizes.{capped_size};
ghost use Rattle.slot_trees.specs.Tables.{Table};
ghost use Rattle.slot_trees.specs.ExpressionViews.{anchor_view};
ghost use Rattle.st_link.specs.BodyTables.{ServesBody};
ghost use Rattle.st_link.specs.Rooms.{first_slot};
ghost use Rattle.st_link.specs.FirstSlots.{slots_taken};
ghost use Rattle.st_link.specs.LinkVariables.{LinkVariable, are_whole, variable_view};
ghost use Rattle.st_link.specs.Tables.{IsUnitTable, ServesLinks};

use crate::body_table::BodyTable;
use crate::text_tables::TextTables;
use crate::unit_names::{add_externals, add_variables, hidden_names};
use crate::variables::Variable;
use slot_trees::Anchor;
use st_types::Identifier;
use std::alloc::{AllocError, Global};
use symbols::Index;

/// The table of a unit's body, and how many slots its own variables take; 4,097 if they are more than 4,096.
pub struct UnitTable<'t, 'a> {
    pub table: BodyTable<'t, 'a>,
    pub slots: usize,
}

impl Drop for UnitTable<'_, '_> {
    fn drop(self) {
        let Self { table: _, slots: _ } = self;
    }
}

/// The table of a unit whose own variables are in consecutive slots from one on; an external stands for its global.
pub fn unit_table<'t, 'a>(
    alloc: Global,
    tables: &'t TextTables<'a>,
    externals: &[&'a Identifier],
    base: Anchor,
    variables: &[Variable<'a>],
    instances: &[Variable<'a>],
) -> Result<UnitTable<'t, 'a>, AllocError>
    requires { first_slot (anchor_view base) ≤ MAX_PATHS + 1 }
    ensures slots { IfOk result (λ unit. (text : Declared) (globals : List LinkVariable)
        → ServesLinks tables.now text globals → are_whole text (map variable_view variables.now) ≡ true
        → unit.slots ≡ capped_size (slots_taken text (map variable_view variables.now))) }
    ensures serves { IfOk result (λ unit. (text : Declared) (globals : List LinkVariable) (t : Table)
        → ServesLinks tables.now text globals → are_whole text (map variable_view variables.now) ≡ true
        → first_slot (anchor_view base) + slots_taken text (map variable_view variables.now) ≤ MAX_PATHS
        → IsUnitTable text globals (map (λ y. y.now.name) externals.now) (anchor_view base)
        (map variable_view variables.now) (map variable_view instances.now) t → ServesBody unit.table text t) }
{
    let mut symbols = Index::new(alloc);
    let hidden = hidden_names(alloc, externals)?;
    add_externals(&mut symbols, &tables.globals, externals)?;
    let slots = add_variables(&tables.shapes, &mut symbols, &hidden, base, variables)?;
    let codes = tables.codes_of(alloc, instances)?;
    Ok(UnitTable {
        table: BodyTable {
            shapes: &tables.shapes,
            symbols,
            codes,
            functions: &tables.functions,
        },
        slots,
    })
}
