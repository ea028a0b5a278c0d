//! The globals of a configuration by their names.

ghost use Rattle.std.specs.Prelude.{◌≡◌, ◌++◌, [], map, IfOk, OnOk};
ghost use Rattle.std.specs.List.{flat_map};
ghost use Rattle.st_types.specs.ConfigurationViews.{global_block_view, global_declaration_view, global_names_view};
ghost use Rattle.st_meaning.specs.Scopes.{Name};
ghost use Rattle.symbols.specs.Agreeing.{Agree};
ghost use Rattle.symbols.specs.Found.{found};
ghost use Rattle.st_rules.specs.ConfigurationRules.{comes_from_plant, is_constant, is_fixed_global};
ghost use Rattle.st_rules.specs.NameScopes.{globals_of_block};
ghost use Rattle.st_rules.specs.Places.{repeats};
ghost use Rattle.config.specs.Globals.{ServesGlobals, global_named, global_view, globals_in};
ghost use Rattle.config.specs.Globals.{globals_in_block, globals_of_declaration, named_global_view};

use st_types::{
    Direction, GlobalBlock, GlobalDeclaration, GlobalNames, GlobalQualifier, Identifier, Name,
};
use std::alloc::{AllocError, Global as Alloc};
use symbols::{Index, PlaceType, place_type};

/// A global: whether no program may assign it, and its type.
#[derive(Clone, Copy)]
pub struct Global<'a> {
    pub is_fixed: bool,
    pub declared: PlaceType<'a>,
}

/// A global with its name.
#[derive(Clone, Copy)]
pub struct NamedGlobal<'a> {
    pub name: &'a Name,
    pub global: Global<'a>,
}

/// Whether a block has CONSTANT.
pub fn is_constant(qualifier: Option<GlobalQualifier>) -> bool
    ensures { result ≡ is_constant qualifier }
{
    match qualifier {
        Some(GlobalQualifier::Constant) => true,
        Some(GlobalQualifier::Retain) => false,
        None => false,
    }
}

/// Whether a value comes from the plant.
pub fn comes_from_plant(direction: Direction) -> bool
    ensures { result ≡ comes_from_plant direction }
{
    match direction {
        Direction::Input => true,
        Direction::Output => false,
    }
}

/// Whether no program may assign it: a constant, or an input of the plant.
fn is_fixed(qualifier: Option<GlobalQualifier>, names: &GlobalNames) -> bool
    ensures { result ≡ is_fixed_global qualifier (global_names_view names.now) }
{
    match names {
        GlobalNames::Located(_, address) => {
            is_constant(qualifier) || comes_from_plant(address.direction)
        }
        GlobalNames::Listed(_) => is_constant(qualifier),
    }
}

/// Appends a global of each name.
fn push_listed<'a>(
    globals: &mut Vec<NamedGlobal<'a>>,
    global: Global<'a>,
    names: &'a [Identifier],
) -> Result<(), AllocError>
    ensures { IfOk result (λ done. map named_global_view globals.new.items
        ≡ map named_global_view globals.old.items ++ map (λ x. (x.name, global_view global.entry)) names.now) }
{
    for name in names {
        globals.push(NamedGlobal {
            name: &name.name,
            global,
        })?;
    }
    Ok(())
}

/// Appends the globals of a declaration.
fn push_declared<'a>(
    globals: &mut Vec<NamedGlobal<'a>>,
    qualifier: Option<GlobalQualifier>,
    declaration: &'a GlobalDeclaration,
) -> Result<(), AllocError>
    ensures { IfOk result (λ done. map named_global_view globals.new.items
        ≡ map named_global_view globals.old.items
        ++ globals_of_declaration qualifier (global_declaration_view declaration.now)) }
{
    let global = Global {
        is_fixed: is_fixed(qualifier, &declaration.names),
        declared: place_type(&declaration.declared),
    };
    match &declaration.names {
        GlobalNames::Located(name, _) => {
            globals.push(NamedGlobal {
                name: &name.name,
                global,
            })?;
            Ok(())
        }
        GlobalNames::Listed(names) => push_listed(globals, global, names),
    }
}

/// Appends the globals of a block.
fn push_block<'a>(
    globals: &mut Vec<NamedGlobal<'a>>,
    block: &'a GlobalBlock,
) -> Result<(), AllocError>
    ensures { IfOk result (λ done. map named_global_view globals.new.items
        ≡ map named_global_view globals.old.items ++ globals_in_block (global_block_view block.now)) }
{
    for declaration in &block.declarations {
        push_declared(globals, block.qualifier, declaration)?;
    }
    Ok(())
}

/// All globals, in order.
fn globals_in<'a>(
    alloc: Alloc,
    blocks: &'a [GlobalBlock],
) -> Result<Vec<NamedGlobal<'a>>, AllocError>
    ensures { IfOk result (λ globals. map named_global_view globals.items
        ≡ globals_in (map global_block_view blocks.now)) }
{
    let mut globals = Vec::new(alloc);
    for block in blocks {
        push_block(&mut globals, block)?;
    }
    Ok(globals)
}

/// The first global of each name.
fn first_of_each<'a>(
    alloc: Alloc,
    globals: &[NamedGlobal<'a>],
) -> Result<Index<'a, Global<'a>>, AllocError>
    ensures { IfOk result (λ index. (x : Name) → Agree (λ g h. global_view g ≡ h) (found index x)
        (global_named (map named_global_view globals.now) x)) }
{
    let mut index = Index::new(alloc);
    for named in globals {
        index.add(named.name, named.global)?;
    }
    Ok(index)
}

/// The globals of a configuration.
pub fn index_of<'a>(
    alloc: Alloc,
    blocks: &'a [GlobalBlock],
) -> Result<Index<'a, Global<'a>>, AllocError>
    ensures { IfOk result (λ index. repeats (flat_map globals_of_block (map global_block_view blocks.now)) ≡ []
        → ServesGlobals index (map global_block_view blocks.now)) }
{
    let globals = globals_in(alloc, blocks)?;
    first_of_each(alloc, &globals)
}
