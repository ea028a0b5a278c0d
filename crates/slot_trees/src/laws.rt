//! Laws of linking, each proved of the definitions. The functions do nothing: their contracts are the laws.

ghost use Rattle.std.specs.Prelude.{◌≡◌, ◌≤◌, ℕ, List, Some, None, true, false, map, slice_get};
ghost use Rattle.std.specs.Prelude.{if◌then◌else◌, option_map, bytes_eq};
ghost use Rattle.std.specs.List.{position_from};
ghost use Rattle.st_types.specs.Values.{Datum};
ghost use Rattle.st_types.specs.Sources.{Source};
ghost use Rattle.st_meaning.specs.Failures.{StuckFaults, in_runs};
ghost use Rattle.st_meaning.specs.Stores.{Store};
ghost use Rattle.st_meaning.specs.Slots.{Slot};
ghost use Rattle.st_meaning.specs.Runs.{Program, ran_where, outcome_of, store_after};
ghost use Rattle.st_meaning.specs.NameTypes.{Declared};
ghost use Rattle.st_meaning.specs.Scopes.{Name, of_program, path_in, contains_name};
ghost use Rattle.st_meaning.specs.StandardBlocks.{block_of};
ghost use Rattle.layout.specs.LayoutVariables.{Owned, owned_variable};
ghost use Rattle.layout.specs.Libraries.{fresh_values, programs_of_text};
ghost use Rattle.layout.specs.Types.{NamedSite};
ghost use Rattle.layout.specs.Shapes.{Parts};
ghost use Rattle.layout.specs.VariableSlots.{LiesAt, are_declared_once, variable_at};
ghost use Rattle.layout.specs.TextLayouts.{slots_of, slots_of_text};
ghost use Rattle.slot_trees.specs.SlotEvaluation.{slot_at};
ghost use Rattle.slot_trees.specs.Tables.{Symbol, symbol_of, named_in};
ghost use Rattle.slot_trees.specs.ProgramTables.{owner_of_name, symbol_at, program_symbols};
ghost use Rattle.slot_trees.specs.BlockTables.{block_symbol, block_symbols};
ghost use Rattle.slot_trees.specs.FunctionTables.{call_symbol, function_symbols};
ghost use Rattle.slot_trees.specs.TextNumbers.{numbered_from, numbers_of, code_named};
ghost use Rattle.slot_trees.specs.SlotTrees.{SlotStmts, SlotLibrary};
ghost use Rattle.slot_trees.specs.SlotRuns.{slots_ran, slot_outcome_in, slots_in};
ghost use Rattle.slot_trees.specs.TextLinks.{LinkedText};
ghost use Rattle.slot_trees.specs.LinkedPrograms.{IsLinkOf, HasProgram};
ghost use Rattle.slot_trees.specs.Seeing.{Sees};
ghost use Rattle.slot_trees.specs.Alike.{EndEqually, EndsEqually};
ghost use Rattle.slot_trees.specs.LinkedTexts.{IsProgramLink, IsExternal, IsPart, layout_of_fresh};

/// Over any values of the slots, a linked program ends as the program does over the variables that have these values:
/// with the same fault, whatever faults stand for the cases that no well-typed text meets, or with the same number of
/// ticks left, and it leaves the same variables. How deep calls of the linked program may be doesn't matter from the
/// budget on.
pub fn linked_programs_mean_the_same()
    ensures ends { (layout : List Slot) (p : Program) (base : ℕ) (code : SlotLibrary) (body : SlotStmts)
        → IsProgramLink layout p base code body → (stuck_faults : StuckFaults) (image : Store) (now budget depth : ℕ)
        (s : Store) (vs : List Datum) → budget ≤ depth → Sees layout image s vs
        → EndEqually (EndsEqually (Sees layout image)) (ran_where stuck_faults p image now budget s)
        (slots_ran stuck_faults code base body now depth vs budget) }
    ensures outcome { (layout : List Slot) (p : Program) (base : ℕ) (code : SlotLibrary) (body : SlotStmts)
        → IsProgramLink layout p base code body → (image : Store) (now budget depth : ℕ) (s : Store) (vs : List Datum)
        → budget ≤ depth → Sees layout image s vs → outcome_of p budget s image now
        ≡ slot_outcome_in (slots_ran in_runs code base body now depth vs budget) }
    ensures store { (layout : List Slot) (p : Program) (base : ℕ) (code : SlotLibrary) (body : SlotStmts)
        → IsProgramLink layout p base code body → (image : Store) (now budget depth : ℕ) (s : Store) (vs : List Datum)
        → budget ≤ depth → Sees layout image s vs → Sees layout image (store_after p budget s image now)
        (slots_in (slots_ran in_runs code base body now depth vs budget) vs) }
{}

/// In the layout of variables that are declared once, each name of a program is at the place that its declaration
/// gives, with all its parts: the program's own variables, and its externals at their globals.
pub fn program_names_are_slots()
    ensures { (text : Declared) (vs : List Owned) → are_declared_once text vs ≡ true → (p : Program) (xs : List Name)
        (base : ℕ) (x : Name) (y : Symbol) → symbol_of (program_symbols text vs p xs) x ≡ Some y
        → LiesAt (slots_of text vs) y.is_input (path_in (of_program p.owner) p.body x) y.shape (slot_at base y.anchor) }
{}

/// Each name of a block's body is at the place that declarations give, for every instance: an external at its global,
/// another one at the member of its name.
pub fn block_names_are_slots()
    ensures externals { (text : Declared) (vs : List Owned) → are_declared_once text vs ≡ true → (ps : Parts)
        (externals xs : List Name) (x : Name) (y : Symbol)
        → symbol_of (block_symbols text vs ps externals xs) x ≡ Some y → contains_name externals x ≡ true
        → IsExternal (slots_of text vs) x y }
    ensures members { (text : Declared) (vs : List Owned) (ps : Parts) (externals xs : List Name) (x : Name)
        (y : Symbol) → symbol_of (block_symbols text vs ps externals xs) x ≡ Some y
        → contains_name externals x ≡ false → IsPart ps x y }
{}

/// The variables at the beginning of a call of a function are, in their order and with their types, the layout of the
/// function's declarations.
pub fn functions_lie_as_declared()
    ensures { (text : Declared) (ds : List NamedSite)
        → layout_of_fresh (fresh_values text ds) ≡ slots_of text (map (owned_variable None) ds) }
{}

/// If a whole text is linked, so is each program of its instances: the body of its number, with the functions and
/// blocks of the text, is linked by tables that tell the truth.
pub fn linked_texts_have_their_programs()
    ensures { (source : Source) (linked : LinkedText) → IsLinkOf source linked → (n : ℕ) (p : Program)
        → slice_get (programs_of_text source) n ≡ Some p → HasProgram (slots_of_text source) linked n p }
{}

/// So each program of a linked text runs as it does in the text, over any values of the slots of the text's layout: it
/// ends alike, and leaves the same variables.
pub fn linked_texts_mean_the_same()
    ensures ends { (source : Source) (linked : LinkedText) → IsLinkOf source linked → (n : ℕ) (p : Program)
        (body : SlotStmts) → slice_get (programs_of_text source) n ≡ Some p → slice_get linked.programs n ≡ Some body
        → (stuck_faults : StuckFaults) (image : Store) (now budget depth : ℕ) (s : Store) (vs : List Datum)
        → budget ≤ depth → Sees (slots_of_text source) image s vs
        → EndEqually (EndsEqually (Sees (slots_of_text source) image)) (ran_where stuck_faults p image now budget s)
        (slots_ran stuck_faults linked.library 0 body now depth vs budget) }
    ensures outcome { (source : Source) (linked : LinkedText) → IsLinkOf source linked → (n : ℕ) (p : Program)
        (body : SlotStmts) → slice_get (programs_of_text source) n ≡ Some p → slice_get linked.programs n ≡ Some body
        → (image : Store) (now budget depth : ℕ) (s : Store) (vs : List Datum) → budget ≤ depth
        → Sees (slots_of_text source) image s vs → outcome_of p budget s image now
        ≡ slot_outcome_in (slots_ran in_runs linked.library 0 body now depth vs budget) }
    ensures store { (source : Source) (linked : LinkedText) → IsLinkOf source linked → (n : ℕ) (p : Program)
        (body : SlotStmts) → slice_get (programs_of_text source) n ≡ Some p → slice_get linked.programs n ≡ Some body
        → (image : Store) (now budget depth : ℕ) (s : Store) (vs : List Datum) → budget ≤ depth
        → Sees (slots_of_text source) image s vs
        → Sees (slots_of_text source) image (store_after p budget s image now)
        (slots_in (slots_ran in_runs linked.library 0 body now depth vs budget) vs) }
{}

/// A table made of declarations has for each of its names the symbol that its declaration gives, and none for other
/// names. The number of a function or a block is its position; a name of a standard block stands for that block first.
pub fn names_are_looked_up()
    ensures programs { (text : Declared) (vs : List Owned) (p : Program) (xs : List Name) (x : Name)
        → symbol_of (program_symbols text vs p xs) x
        ≡ (if contains_name xs x then option_map (symbol_at text x) (variable_at text vs (owner_of_name p x) x)
        else None) }
    ensures blocks { (text : Declared) (vs : List Owned) (ps : Parts) (externals xs : List Name) (x : Name)
        → symbol_of (block_symbols text vs ps externals xs) x
        ≡ (if contains_name xs x then block_symbol text vs ps externals x else None) }
    ensures functions { (text : Declared) (ds : List NamedSite) (xs : List Name) (x : Name)
        → symbol_of (function_symbols text ds xs) x
        ≡ (if contains_name xs x
        then option_map (call_symbol text x) (variable_at text (map (owned_variable None) ds) None x) else None) }
    ensures numbers { (n : ℕ) (xs : List Name) (x : Name)
        → named_in (numbered_from n xs) x ≡ position_from (λ y. bytes_eq x y) n xs }
    ensures codes { (text : Declared) (x : Name)
        → named_in (numbers_of text).blocks x ≡ code_named text x (block_of x) }
{}
