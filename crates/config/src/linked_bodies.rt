//! Laws of linked bodies, each proved of the definitions. The functions do nothing: their contracts are the laws.

ghost use Rattle.std.specs.Prelude.{◌≡◌, ◌<◌, ◌≤◌, ◌+◌, ℕ, List, length, map, None, Some};
ghost use Rattle.st_types.specs.Statements.{Stmts};
ghost use Rattle.slot_trees.specs.LibraryViews.{KeptLibrary};
ghost use Rattle.slot_trees.specs.LinkedStatements.{linked_stmts};
ghost use Rattle.slot_trees.specs.SlotTrees.{SlotStmts};
ghost use Rattle.slot_trees.specs.Tables.{Table};
ghost use Rattle.machine_code.specs.UnitFrames.{UnitFrame};
ghost use Rattle.st_compile.specs.Linked.{CallLinkedWithin, StmtsLinked};
ghost use Rattle.config.specs.Sound.{AreBounded, AreBoundedVariables, SymbolsWithin, StmtsSound};
ghost use Rattle.layout.specs.LayoutVariables.{Owned, owned_variable};
ghost use Rattle.layout.specs.TextLayouts.{slots_of};
ghost use Rattle.layout.specs.Types.{NamedSite};
ghost use Rattle.st_meaning.specs.NameTypes.{Declared};
ghost use Rattle.st_meaning.specs.Runs.{Program};
ghost use Rattle.st_meaning.specs.Scopes.{Name};
ghost use Rattle.layout.specs.Shapes.{Parts, sizes};
ghost use Rattle.slot_trees.specs.BlockTables.{block_symbols};
ghost use Rattle.slot_trees.specs.FunctionTables.{function_symbols};
ghost use Rattle.slot_trees.specs.ProgramTables.{program_symbols};

/// A compiler does not refuse a body whose names are linked, with calls however deep, if its variables lie among the values
/// of a unit, of fewer than 65,536, if its literals are values and its labels numbers that instructions hold, and if the
/// units that it calls are not refused.
pub fn linked_bodies_are_compiled()
    ensures { (library : KeptLibrary) (depth : ℕ) (site : UnitFrame) (t : Table) (body : Stmts) (x : SlotStmts)
        → site.size < 65536 → SymbolsWithin site t.symbols → linked_stmts t body ≡ Some x
        → StmtsSound (CallLinkedWithin library depth) site t body
        → StmtsLinked (CallLinkedWithin library depth) site x }
{}

/// The names of a program lie among the slots of the layout, and those of a function among the values of its call. Those of
/// a block lie among the slots of the layout too, if the members of the instance do. Their arrays have elements, and lower
/// bounds that instructions hold.
pub fn names_lie_among_values()
    ensures programs { (text : Declared) (vs : List Owned) (p : Program) (xs : List Name) (site : UnitFrame)
        → length (slots_of text vs) ≤ site.size → AreBoundedVariables text vs
        → SymbolsWithin site (program_symbols text vs p xs) }
    ensures functions { (text : Declared) (ds : List NamedSite) (xs : List Name) (site : UnitFrame) → site.base ≡ 0
        → length (slots_of text (map (owned_variable None) ds)) ≤ site.size
        → AreBoundedVariables text (map (owned_variable None) ds)
        → SymbolsWithin site (function_symbols text ds xs) }
    ensures blocks { (text : Declared) (vs : List Owned) (ps : Parts) (externals xs : List Name) (site : UnitFrame)
        → length (slots_of text vs) ≤ site.size → AreBoundedVariables text vs → site.base + sizes ps ≤ site.size
        → AreBounded ps → SymbolsWithin site (block_symbols text vs ps externals xs) }
{}
