//! The globals of a configuration by their names.

use st_types::{
    Direction, GlobalBlock, GlobalDeclaration, GlobalNames, GlobalQualifier, Identifier,
    VariableType,
};
use std::alloc::{AllocError, Global as Alloc};
use symbols::{Index, TextNames};

/// Who gives a global its values.
#[derive(Clone, Copy)]
pub enum Origin {
    /// It is CONSTANT.
    Constant,
    /// It is an input of the plant.
    Plant,
    Programs,
}

/// A global.
#[derive(Clone, Copy)]
pub struct Global<'a> {
    pub origin: Origin,
    pub declared: &'a VariableType,
}

/// The meanings of the names of a text: its types and units, and the globals of its configuration.
#[derive(Clone, Copy)]
pub struct Names<'t, 'a> {
    pub declared: &'t TextNames<'a>,
    pub globals: &'t Index<'a, Global<'a>>,
}

fn origin_of(qualifier: Option<GlobalQualifier>, names: &GlobalNames) -> Origin {
    match (qualifier, names) {
        (Some(GlobalQualifier::Constant), _) => Origin::Constant,
        (_, GlobalNames::Located(_, address)) if address.direction == Direction::Input => {
            Origin::Plant
        }
        _ => Origin::Programs,
    }
}

fn add_listed<'a>(
    index: &mut Index<'a, Global<'a>>,
    global: Global<'a>,
    names: &'a [Identifier],
) -> Result<(), AllocError> {
    for name in names {
        index.add(&name.name, global)?;
    }
    Ok(())
}

fn add_declared<'a>(
    index: &mut Index<'a, Global<'a>>,
    qualifier: Option<GlobalQualifier>,
    declaration: &'a GlobalDeclaration,
) -> Result<(), AllocError> {
    let global = Global {
        origin: origin_of(qualifier, &declaration.names),
        declared: &declaration.declared,
    };
    match &declaration.names {
        GlobalNames::Located(name, _) => index.add(&name.name, global),
        GlobalNames::Listed(names) => add_listed(index, global, names),
    }
}

/// The globals of some blocks by their names.
pub fn index_of<'a>(
    alloc: Alloc,
    blocks: &'a [GlobalBlock],
) -> Result<Index<'a, Global<'a>>, AllocError> {
    let mut index = Index::new(alloc);
    for block in blocks {
        for declaration in &block.declarations {
            add_declared(&mut index, block.qualifier, declaration)?;
        }
    }
    Ok(index)
}
