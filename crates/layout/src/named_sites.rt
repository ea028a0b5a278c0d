//! The variables of a unit, as its declarations have them.

ghost use Rattle.std.specs.Prelude.{◌≡◌, ◌++◌, ◌∷◌, [], map, IfOk};
ghost use Rattle.st_types.specs.DeclarationViews.{declaration_view, variable_block_view};
ghost use Rattle.st_meaning.specs.Bodies.{is_external};
ghost use Rattle.layout.specs.Types.{retention_of, sites_of_blocks, sites_of_declarations};
ghost use Rattle.layout.specs.NamedSites.{named_as, named_site_view};

use st_types::{Declaration, Identifier, Initial, Retention, Section, VariableBlock};
use std::alloc::{AllocError, Global};
use symbols::{PlaceType, place_type};

/// A variable as its declaration has it.
#[derive(Clone, Copy)]
pub struct NamedSite<'a> {
    /// The bytes of its name.
    pub name: &'a [u8],
    pub declared: PlaceType<'a>,
    pub initial: Option<&'a Initial>,
    /// The word of its block of variables on retention.
    pub said: Option<Retention>,
}

/// The word of a block of variables on their retention.
fn retention_of(section: Section) -> Option<Retention>
    ensures { result ≡ retention_of section }
{
    match section {
        Section::Input(retention) => retention,
        Section::Output(retention) => retention,
        Section::Local(retention) => retention,
        Section::Constant => None,
        Section::External => None,
        Section::ConstantExternal => None,
    }
}

/// Whether a block of variables declares externals, which aren't variables of its unit.
fn is_external(section: Section) -> bool
    ensures { result ≡ is_external section }
{
    matches!(section, Section::External | Section::ConstantExternal)
}

/// Another variable of the same declaration.
pub fn renamed<'a>(site: NamedSite<'a>, name: &'a Identifier) -> NamedSite<'a>
    ensures { named_site_view result ≡ named_as (named_site_view site.entry) name.now }
{
    NamedSite {
        name: name.name.as_slice(),
        declared: site.declared,
        initial: site.initial,
        said: site.said,
    }
}

/// Appends the variables of one declaration, which are like this one.
fn push_names<'a>(
    sites: &mut Vec<NamedSite<'a>>,
    site: NamedSite<'a>,
    names: &'a [Identifier],
) -> Result<(), AllocError>
    ensures { IfOk result (λ done. map named_site_view sites.new.items ≡ map named_site_view sites.old.items
        ++ map (named_as (named_site_view site.entry)) names.now) }
{
    for name in names {
        sites.push(renamed(site, name))?;
    }
    Ok(())
}

/// Appends the variables of declarations whose block has this word on retention.
fn push_declarations<'a>(
    sites: &mut Vec<NamedSite<'a>>,
    said: Option<Retention>,
    declarations: &'a [Declaration],
) -> Result<(), AllocError>
    ensures { IfOk result (λ done. map named_site_view sites.new.items ≡ map named_site_view sites.old.items
        ++ sites_of_declarations said (map declaration_view declarations.now)) }
{
    for declaration in declarations {
        let site = NamedSite {
            name: b"",
            declared: place_type(&declaration.declared),
            initial: declaration.initial.as_ref(),
            said,
        };
        push_names(sites, site, &declaration.names)?;
    }
    Ok(())
}

/// Appends the variables of a block, except externals.
fn push_block<'a>(
    sites: &mut Vec<NamedSite<'a>>,
    block: &'a VariableBlock,
) -> Result<(), AllocError>
    ensures { IfOk result (λ done. map named_site_view sites.new.items ≡ map named_site_view sites.old.items
        ++ sites_of_blocks (variable_block_view block.now ∷ [])) }
{
    if is_external(block.section) {
        Ok(())
    } else {
        push_declarations(sites, retention_of(block.section), &block.declarations)
    }
}

/// The variables of a unit in order.
pub fn sites_of_blocks<'a>(
    alloc: Global,
    blocks: &'a [VariableBlock],
) -> Result<Vec<NamedSite<'a>>, AllocError>
    ensures { IfOk result
        (λ sites. map named_site_view sites.items ≡ sites_of_blocks (map variable_block_view blocks.now)) }
{
    let mut sites = Vec::new(alloc);
    for block in blocks {
        push_block(&mut sites, block)?;
    }
    Ok(sites)
}
