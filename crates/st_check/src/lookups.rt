//! The names of a text that are looked up to judge it.

ghost use Rattle.std.specs.Prelude.{◌≡◌, map, IfOk};
ghost use Rattle.st_types.specs.SourceViews.{source_view};
ghost use Rattle.st_decl.specs.Entries.{entry_view, entries_in};
ghost use Rattle.st_check.specs.Lookups.{ServesSource};

use st_decl::{Declaring, Entry, declarings_of, types_in, units_in};
use st_types::{Source, Unit};
use std::alloc::{AllocError, Global};
use symbols::{FieldNames, TextNames, TextTables};

/// A text with its names, their meanings, all its declarations, and its units.
pub struct Lookups<'e, 'a> {
    pub source: &'a Source,
    pub names: TextNames<'a>,
    pub tables: TextTables<'a>,
    pub fields: FieldNames<'a>,
    pub entries: &'e [Entry<'a>],
    pub declarings: Vec<Declaring<'a>>,
    pub units: Vec<&'a Unit>,
}

impl Drop for Lookups<'_, '_> {
    fn drop(self) {
        let Self {
            source: _,
            names: _,
            tables: _,
            fields: _,
            entries: _,
            declarings: _,
            units: _,
        } = self;
    }
}

impl<'e, 'a> Lookups<'e, 'a> {
    pub fn new(
        alloc: Global,
        source: &'a Source,
        entries: &'e [Entry<'a>],
    ) -> Result<Lookups<'e, 'a>, AllocError>
        requires { map entry_view entries.now ≡ entries_in (source_view source.now) }
        ensures { IfOk result (λ lookups. ServesSource lookups (source_view source.now)) }
    {
        let types = types_in(alloc, source)?;
        let units = units_in(alloc, source)?;
        let names = TextNames::new(alloc, source)?;
        let tables = TextTables::new(alloc, TextNames::new(alloc, source)?, &types, &units)?;
        let fields = FieldNames::new(alloc, &types)?;
        let declarings = declarings_of(alloc, entries)?;
        Ok(Lookups {
            source,
            names,
            tables,
            fields,
            entries,
            declarings,
            units,
        })
    }
}
