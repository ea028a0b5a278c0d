//! The meanings of the names of a unit's body.

ghost use Rattle.std.specs.Prelude.{◌≡◌, IfOk, option_map};
ghost use Rattle.st_types.specs.UnitViews.{unit_view};
ghost use Rattle.st_meaning.specs.NameTypes.{result_type};
ghost use Rattle.st_rules.specs.Environments.{Environment, type_of_name, section_of};
ghost use Rattle.symbols.specs.PlaceTypes.{place_type_view};
ghost use Rattle.symbols.specs.Tables.{ServesTables};
ghost use Rattle.symbols.specs.Serving.{Serves};

use crate::place_types::{PlaceType, place_type};
use crate::text_tables::TextTables;
use crate::variables::VariableNames;
use st_meaning::lookup::is_named;
use st_types::{Name, Section, Unit, UnitSort};
use std::alloc::{AllocError, Global};

/// The names of a unit's body: its variables, and whatever its text declares.
pub struct UnitNames<'t, 'a> {
    pub tables: &'t TextTables<'a>,
    unit: &'a Unit,
    variables: VariableNames<'a>,
}

impl Drop for UnitNames<'_, '_> {
    fn drop(self) {
        let Self {
            tables: _,
            unit: _,
            variables: _,
        } = self;
    }
}

fn result_type<'a>(sort: &'a UnitSort) -> Option<PlaceType<'a>>
    ensures { option_map place_type_view result ≡ result_type sort.now }
{
    match sort {
        UnitSort::Function(declared) => Some(PlaceType::Simple(declared)),
        UnitSort::FunctionBlock => None,
        UnitSort::Program => None,
    }
}

impl<'t, 'a> UnitNames<'t, 'a> {
    /// The names of a unit's body.
    pub fn new(
        alloc: Global,
        tables: &'t TextTables<'a>,
        unit: &'a Unit,
    ) -> Result<UnitNames<'t, 'a>, AllocError>
        ensures { IfOk result (λ names. (env : Environment) → ServesTables tables.now env.text
            → unit_view unit.now ≡ env.unit → Serves names env) }
    {
        let variables = VariableNames::new(alloc, &unit.blocks)?;
        Ok(UnitNames {
            tables,
            unit,
            variables,
        })
    }

    /// The type of a variable of the unit; a function's name is one.
    pub fn type_of_name(&self, name: &Name) -> Option<PlaceType<'a>>
        ensures { (env : Environment) → Serves self.now env
            → option_map place_type_view result ≡ type_of_name env name.now }
    {
        if is_named(name, &self.unit.name) {
            return result_type(&self.unit.sort);
        }
        match self.variables.type_named(name) {
            Some(declared) => Some(place_type(declared)),
            None => None,
        }
    }

    /// The words with which the variable's block begins; a function's result has none.
    pub fn section_of(&self, name: &Name) -> Option<Section>
        ensures { (env : Environment) → Serves self.now env → result ≡ section_of env name.now }
    {
        if is_named(name, &self.unit.name) {
            return None;
        }
        self.variables.section_named(name)
    }
}
