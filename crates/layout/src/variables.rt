//! The variables of a whole layout as they are declared: globals, and those of programs' instances.

ghost use Rattle.std.specs.Prelude.{◌≡◌, ◌++◌, map, Option, option_map, IfOk, None};
ghost use Rattle.st_types.specs.ConfigurationViews.{global_block_view, global_declaration_view, global_names_view};
ghost use Rattle.st_types.specs.UnitViews.{unit_view};
ghost use Rattle.layout.specs.LayoutVariables.{is_input_address, owned_variable, program_sites};
ghost use Rattle.layout.specs.LayoutVariables.{retention_of_globals};
ghost use Rattle.layout.specs.LayoutVariables.{site_of_global, variables_of_declarations, variables_of_globals};
ghost use Rattle.layout.specs.LayoutVariables.{variables_of_names};
ghost use Rattle.layout.specs.NamedSites.{named_as, named_site_view};
ghost use Rattle.layout.specs.Slots.{owner_view};
ghost use Rattle.layout.specs.Variables.{global_site_view, variable_view};
ghost use Rattle.layout.specs.declared.slots.OwnerNames.{OwnerNames};

use crate::named_sites::{NamedSite, renamed, sites_of_blocks};
use st_types::{
    Direction, GlobalBlock, GlobalDeclaration, GlobalNames, GlobalQualifier, Identifier, Retention,
    Unit, UnitSort,
};
use std::alloc::{AllocError, Global};
use symbols::place_type;

/// A variable of a layout, without the program's instance to which it belongs.
#[derive(Clone, Copy)]
pub struct Variable<'a> {
    pub site: NamedSite<'a>,
    /// Whether its value comes from the plant.
    pub is_input: bool,
}

/// VAR_GLOBAL RETAIN says that its variables are retained, and no other word says anything.
fn retention_of(qualifier: Option<GlobalQualifier>) -> Option<Retention>
    ensures { result ≡ retention_of_globals qualifier }
{
    match qualifier {
        Some(GlobalQualifier::Retain) => Some(Retention::Retain),
        Some(GlobalQualifier::Constant) => None,
        None => None,
    }
}

fn is_input_address(direction: Direction) -> bool
    ensures { result ≡ is_input_address direction }
{
    match direction {
        Direction::Input => true,
        Direction::Output => false,
    }
}

fn push_listed<'a>(
    variables: &mut Vec<Variable<'a>>,
    site: NamedSite<'a>,
    names: &'a [Identifier],
) -> Result<(), AllocError>
    ensures { IfOk result (λ done. map (variable_view None) variables.new.items
        ≡ map (variable_view None) variables.old.items
        ++ map (λ x. owned_variable None (named_as (named_site_view site.entry) x)) names.now) }
{
    for name in names {
        variables.push(Variable {
            site: renamed(site, name),
            is_input: false,
        })?;
    }
    Ok(())
}

fn push_global_names<'a>(
    variables: &mut Vec<Variable<'a>>,
    site: NamedSite<'a>,
    names: &'a GlobalNames,
) -> Result<(), AllocError>
    ensures { IfOk result (λ done. map (variable_view None) variables.new.items
        ≡ map (variable_view None) variables.old.items
        ++ variables_of_names (global_site_view site.entry) (global_names_view names.now)) }
{
    match names {
        GlobalNames::Located(name, address) => {
            variables.push(Variable {
                site: renamed(site, name),
                is_input: is_input_address(address.direction),
            })?;
            Ok(())
        }
        GlobalNames::Listed(names) => push_listed(variables, site, names),
    }
}

fn push_global_declarations<'a>(
    variables: &mut Vec<Variable<'a>>,
    said: Option<Retention>,
    declarations: &'a [GlobalDeclaration],
) -> Result<(), AllocError>
    ensures { IfOk result (λ done. map (variable_view None) variables.new.items
        ≡ map (variable_view None) variables.old.items
        ++ variables_of_declarations said (map global_declaration_view declarations.now)) }
{
    for declaration in declarations {
        let site = NamedSite {
            name: b"",
            declared: place_type(&declaration.declared),
            initial: declaration.initial.as_ref(),
            said,
        };
        push_global_names(variables, site, &declaration.names)?;
    }
    Ok(())
}

/// The globals of a configuration in order, inputs among them.
pub fn globals_of<'a>(
    alloc: Global,
    blocks: &'a [GlobalBlock],
) -> Result<Vec<Variable<'a>>, AllocError>
    ensures { IfOk result (λ variables. map (variable_view None) variables.items
        ≡ variables_of_globals (map global_block_view blocks.now)) }
{
    let mut variables = Vec::new(alloc);
    for block in blocks {
        let said = retention_of(block.qualifier);
        push_global_declarations(&mut variables, said, &block.declarations)?;
    }
    Ok(variables)
}

/// The variables of a program; none if the unit isn't a program, or if there is none.
fn program_sites<'a>(
    alloc: Global,
    unit: Option<&'a Unit>,
) -> Result<Vec<NamedSite<'a>>, AllocError>
    ensures { IfOk result (λ sites. map named_site_view sites.items
        ≡ program_sites (option_map (λ u. unit_view u.now) unit.entry)) }
{
    let Some(unit) = unit else {
        return Ok(Vec::new(alloc));
    };
    match unit.sort {
        UnitSort::Function(_) => Ok(Vec::new(alloc)),
        UnitSort::FunctionBlock => Ok(Vec::new(alloc)),
        UnitSort::Program => sites_of_blocks(alloc, &unit.blocks),
    }
}

/// Variables of one owner, none of which comes from the plant.
pub fn own_variables<'a>(
    alloc: Global,
    sites: &[NamedSite<'a>],
) -> Result<Vec<Variable<'a>>, AllocError>
    ensures { IfOk result (λ variables. (o : Option OwnerNames) → map (variable_view o) variables.items
        ≡ map (owned_variable (option_map owner_view o)) (map named_site_view sites.now)) }
{
    let mut variables = Vec::new(alloc);
    for site in sites {
        variables.push(Variable {
            site: *site,
            is_input: false,
        })?;
    }
    Ok(variables)
}

/// The variables of a program's instance in order.
pub fn program_variables<'a>(
    alloc: Global,
    unit: Option<&'a Unit>,
) -> Result<Vec<Variable<'a>>, AllocError>
    ensures { IfOk result (λ variables. (o : Option OwnerNames) → map (variable_view o) variables.items
        ≡ map (owned_variable (option_map owner_view o))
        (program_sites (option_map (λ u. unit_view u.now) unit.entry))) }
{
    own_variables(alloc, &program_sites(alloc, unit)?)
}
