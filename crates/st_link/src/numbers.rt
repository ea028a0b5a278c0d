//! Numbers of functions and blocks: their positions among those of the text.

ghost use Rattle.std.specs.Prelude.{◌≡◌, List, ℕ, map, IfOk};
ghost use Rattle.st_types.specs.SourceViews.{source_view};
ghost use Rattle.st_types.specs.UnitViews.{unit_view};
ghost use Rattle.st_meaning.specs.NameTypes.{declared_in};
ghost use Rattle.symbols.specs.Found.{found};
ghost use Rattle.slot_trees.specs.Tables.{named_in};
ghost use Rattle.slot_trees.specs.TextNumbers.{block_names, function_names, numbered_from};

use st_decl::units_in;
use st_types::{Name, Source, Unit, UnitSort};
use std::alloc::{AllocError, Global};
use symbols::Index;

/// The numbers of a text's functions and of its blocks.
pub struct Numbers<'a> {
    pub functions: Index<'a, usize>,
    pub blocks: Index<'a, usize>,
}

/// The names of functions, in order.
fn function_names<'a>(alloc: Global, units: &[&'a Unit]) -> Result<Vec<&'a Name>, AllocError>
    ensures { IfOk result (λ names. map (λ x. x.now) names.items
        ≡ function_names (map (λ u. unit_view u.now) units.now)) }
{
    let mut names = Vec::new(alloc);
    for unit in units {
        if let UnitSort::Function(_) = unit.sort {
            names.push(&unit.name.name)?;
        }
    }
    Ok(names)
}

/// The names of blocks, in order.
fn block_names<'a>(alloc: Global, units: &[&'a Unit]) -> Result<Vec<&'a Name>, AllocError>
    ensures { IfOk result (λ names. map (λ x. x.now) names.items
        ≡ block_names (map (λ u. unit_view u.now) units.now)) }
{
    let mut names = Vec::new(alloc);
    for unit in units {
        if let UnitSort::FunctionBlock = unit.sort {
            names.push(&unit.name.name)?;
        }
    }
    Ok(names)
}

/// The position of each name; if several are the same, that of the first.
fn numbered<'a>(alloc: Global, names: &[&'a Name]) -> Result<Index<'a, usize>, AllocError>
    ensures { IfOk result (λ numbers. (x : List ℕ) → found numbers x
        ≡ named_in (numbered_from 0 (map (λ y. y.now) names.now)) x) }
{
    let mut numbers = Index::new(alloc);
    for (number, name) in names.iter().enumerate() {
        numbers.add(name, number)?;
    }
    Ok(numbers)
}

/// The numbers of a text's functions and of its blocks.
pub fn numbers_in<'a>(alloc: Global, source: &'a Source) -> Result<Numbers<'a>, AllocError>
    ensures functions { IfOk result (λ numbers. (x : List ℕ) → found numbers.functions x
        ≡ named_in (numbered_from 0 (function_names (declared_in (source_view source.now)).units)) x) }
    ensures blocks { IfOk result (λ numbers. (x : List ℕ) → found numbers.blocks x
        ≡ named_in (numbered_from 0 (block_names (declared_in (source_view source.now)).units)) x) }
{
    let units = units_in(alloc, source)?;
    let functions = numbered(alloc, &function_names(alloc, &units)?)?;
    let blocks = numbered(alloc, &block_names(alloc, &units)?)?;
    Ok(Numbers { functions, blocks })
}
