//! The meanings of variables' names: where the variables begin.

ghost use Rattle.std.specs.Prelude.{◌≡◌, ◌≤◌, ◌<◌, ◌+◌, ◌^◌, List, ℕ, Option, Some, None, if◌then◌else◌, map, true};
ghost use Rattle.std.specs.Prelude.{bytes_eq, is_some, IfOk, OnOk};
ghost use Rattle.st_types.specs.declared.limits.TheConstants.{MAX_PATHS};
ghost use Rattle.st_meaning.specs.NameTypes.{Declared};
ghost use Rattle.st_meaning.specs.Scopes.{contains_name};
ghost use Rattle.symbols.specs.Agreeing.{Agree};
ghost use Rattle.symbols.specs.Found.{found, or_found};
ghost use Rattle.layout.specs.Sizes.{capped_size};
ghost use Rattle.slot_trees.specs.Tables.{Symbol, moved};
ghost use Rattle.slot_trees.specs.ExpressionViews.{anchor_view};
ghost use Rattle.st_link.specs.Shapes.{ServesShapes};
ghost use Rattle.st_link.specs.BodyTables.{IsSymbol};
ghost use Rattle.st_link.specs.Rooms.{first_slot};
ghost use Rattle.st_link.specs.FirstSlots.{slots_taken, symbol_among, unless_found};
ghost use Rattle.st_link.specs.LinkVariables.{are_whole, variable_view};

use crate::body_table::LinkSymbol;
use crate::shape_tables::ShapeTables;
use crate::variables::Variable;
use layout::sum;
use slot_trees::Anchor;
use st_types::Identifier;
use std::alloc::{AllocError, Global};
use symbols::Index;

/// An anchor moved on by a number of slots.
fn moved(base: Anchor, offset: usize) -> Anchor
    requires { first_slot (anchor_view base) + offset < 2 ^ 64 }
    ensures { anchor_view result ≡ moved (anchor_view base) offset }
{
    match base {
        Anchor::Own(first) => Anchor::Own(first + offset),
        Anchor::Absolute(first) => Anchor::Absolute(first + offset),
    }
}

/// Adds a variable that begins there, if its name is not kept elsewhere.
fn add_variable<'a>(
    symbols: &mut Index<'a, LinkSymbol<'a>>,
    hidden: &Index<'a, bool>,
    variable: Variable<'a>,
    symbol: LinkSymbol<'a>,
) -> Result<(), AllocError>
    ensures { OnOk result ((x : List ℕ) → found symbols.new x ≡ or_found (found symbols.old x)
        (unless_found hidden.now x (if bytes_eq x variable.entry.name.now then Some symbol.entry else None))) }
{
    if hidden.get(variable.name).is_none() {
        symbols.add(variable.name, symbol)?;
    }
    Ok(())
}

/// Adds variables in consecutive slots from one on, except for names that are kept elsewhere. Answers how many slots
/// they take; 4,097 if they are more than 4,096.
pub fn add_variables<'a>(
    shapes: &ShapeTables<'a>,
    symbols: &mut Index<'a, LinkSymbol<'a>>,
    hidden: &Index<'a, bool>,
    base: Anchor,
    variables: &[Variable<'a>],
) -> Result<usize, AllocError>
    requires { first_slot (anchor_view base) ≤ MAX_PATHS + 1 }
    ensures slots { IfOk result (λ n. (text : Declared) → ServesShapes shapes.now text
        → are_whole text (map variable_view variables.now) ≡ true
        → n ≡ capped_size (slots_taken text (map variable_view variables.now))) }
    ensures added { OnOk result ((text : Declared) (x : List ℕ) (o : Option Symbol) → ServesShapes shapes.now text
        → are_whole text (map variable_view variables.now) ≡ true
        → first_slot (anchor_view base) + slots_taken text (map variable_view variables.now) ≤ MAX_PATHS
        → Agree (IsSymbol text) (found symbols.old x) o → Agree (IsSymbol text) (found symbols.new x)
        (or_found o (unless_found hidden.now x
        (symbol_among text (anchor_view base) (map variable_view variables.now) x)))) }
{
    let mut offset = 0;
    for variable in variables {
        let symbol = LinkSymbol {
            anchor: moved(base, offset),
            is_input: variable.is_input,
            declared: variable.declared,
        };
        add_variable(symbols, hidden, *variable, symbol)?;
        offset = sum(offset, shapes.size(variable.declared));
    }
    Ok(offset)
}

/// The names of externals.
pub fn hidden_names<'a>(
    alloc: Global,
    externals: &[&'a Identifier],
) -> Result<Index<'a, bool>, AllocError>
    ensures { IfOk result (λ hidden. (x : List ℕ) → is_some (found hidden x)
        ≡ contains_name (map (λ y. y.now.name) externals.now) x) }
{
    let mut hidden = Index::new(alloc);
    for name in externals {
        hidden.add(&name.name, true)?;
    }
    Ok(hidden)
}

/// Adds externals, each of which stands for its global.
pub fn add_externals<'a>(
    symbols: &mut Index<'a, LinkSymbol<'a>>,
    globals: &Index<'a, LinkSymbol<'a>>,
    externals: &[&'a Identifier],
) -> Result<(), AllocError>
    ensures { OnOk result ((x : List ℕ) → found symbols.new x ≡ or_found (found symbols.old x)
        (if contains_name (map (λ y. y.now.name) externals.now) x then found globals.now x else None)) }
{
    for name in externals {
        if let Some(global) = globals.find(&name.name) {
            symbols.add(&name.name, global)?;
        }
    }
    Ok(())
}
