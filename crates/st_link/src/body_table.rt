//! The meanings of the names of a body.

ghost use Rattle.std.specs.Prelude.{◌≡◌, option_map};
ghost use Rattle.st_meaning.specs.NameTypes.{Declared};
ghost use Rattle.symbols.specs.Agreeing.{Agree};
ghost use Rattle.slot_trees.specs.StatementViews.{block_code_view};
ghost use Rattle.slot_trees.specs.LinkedStatements.{block_code_of};
ghost use Rattle.slot_trees.specs.Tables.{Table, named_in, symbol_of};
ghost use Rattle.st_link.specs.BodyTables.{IsSymbol, ServesBody};

use crate::shape_tables::ShapeTables;
use slot_trees::{Anchor, BlockCode};
use st_types::Name;
use symbols::{Index, PlaceType};

/// A variable: where it begins, whether it is an input of the plant, and its declared type.
#[derive(Clone, Copy)]
pub struct LinkSymbol<'a> {
    pub anchor: Anchor,
    pub is_input: bool,
    pub declared: PlaceType<'a>,
}

/// The meanings of the names of a body: its variables, the blocks of its instances, and the functions of the text by
/// their numbers.
pub struct BodyTable<'t, 'a> {
    pub shapes: &'t ShapeTables<'a>,
    pub symbols: Index<'a, LinkSymbol<'a>>,
    pub codes: Index<'a, BlockCode>,
    pub functions: &'t Index<'a, usize>,
}

impl Drop for BodyTable<'_, '_> {
    fn drop(self) {
        let Self {
            shapes: _,
            symbols: _,
            codes: _,
            functions: _,
        } = self;
    }
}

impl<'t, 'a> BodyTable<'t, 'a> {
    /// The variable of a name.
    pub fn symbol(&self, name: &Name) -> Option<LinkSymbol<'a>>
        ensures { (text : Declared) (t : Table) → ServesBody self.now text t
            → Agree (IsSymbol text) result (symbol_of t.symbols name.now) }
    {
        self.symbols.find(name)
    }

    /// The block of an instance.
    pub fn code(&self, name: &Name) -> Option<BlockCode>
        ensures { (text : Declared) (t : Table) → ServesBody self.now text t
            → option_map block_code_view result ≡ block_code_of t name.now }
    {
        self.codes.find(name)
    }

    /// The number of a function.
    pub fn function(&self, name: &Name) -> Option<usize>
        ensures { (text : Declared) (t : Table) → ServesBody self.now text t
            → result ≡ named_in t.functions name.now }
    {
        self.functions.find(name)
    }
}
