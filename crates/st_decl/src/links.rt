//! The links from types and units to their parts, by numbers.

ghost use Rattle.std.specs.Prelude.{◌≡◌, ◌++◌, map, IfOk, List, ℕ, bytes_eq};
ghost use Rattle.st_types.specs.DeclarationViews.{type_declaration_view, type_definition_view};
ghost use Rattle.st_types.specs.UnitViews.{unit_view};
ghost use Rattle.st_meaning.specs.NameTypes.{Declared};
ghost use Rattle.st_rules.specs.Containment.{Part, parts_of_definition, parts_of_unit};
ghost use Rattle.symbols.specs.Found.{found};
ghost use Rattle.symbols.specs.Texts.{ServesText};
ghost use Rattle.st_decl.specs.Parts.{part_view, number_in, number_of_name, target_of_name, target_of_simple, link_of, node_parts};

use crate::parts::{Part, parts_of_definition, parts_of_unit};
use crate::standard::is_block;
use st_types::{Name, SimpleType, TypeDeclaration, Unit};
use std::alloc::{AllocError, Global};
use symbols::{Index, TextNames};

/// The target of a name.
#[derive(Clone, Copy)]
pub enum Target {
    /// A type without parts: an elementary one, or a name that is unknown.
    Plain,
    /// A standard block.
    Standard,
    /// A type or a unit of the text, by its number.
    Node(usize),
}

/// The link of a part.
#[derive(Clone, Copy)]
pub struct Link {
    pub target: Target,
    /// The part is an array without a name, and its element has the target.
    pub is_row: bool,
}

fn target_of_name(numbers: &Index<usize>, name: &Name) -> Target
    ensures { result ≡ target_of_name (found numbers.now) name.now }
{
    match numbers.find(name) {
        Some(number) => Target::Node(number),
        None if is_block(name) => Target::Standard,
        None => Target::Plain,
    }
}

fn target_of_simple(numbers: &Index<usize>, simple: &SimpleType) -> Target
    ensures { result ≡ target_of_simple (found numbers.now) simple.now }
{
    match simple {
        SimpleType::Elementary(_, _) => Target::Plain,
        SimpleType::Named(name) => target_of_name(numbers, &name.name),
    }
}

/// The link of a part, by the numbers of the text's types and units.
pub fn link_of(numbers: &Index<usize>, part: Part) -> Link
    ensures { result ≡ link_of (found numbers.now) (part_view part.entry) }
{
    match part {
        Part::Elementary => Link {
            target: Target::Plain,
            is_row: false,
        },
        Part::Named(name) => Link {
            target: target_of_name(numbers, name),
            is_row: false,
        },
        Part::Row(element) => Link {
            target: target_of_simple(numbers, element),
            is_row: true,
        },
    }
}

fn links_of(alloc: Global, numbers: &Index<usize>, parts: &[Part]) -> Result<Vec<Link>, AllocError>
    ensures { IfOk result (λ links. links.items ≡ map (link_of (found numbers.now)) (map part_view parts.now)) }
{
    let mut links = Vec::new(alloc);
    for part in parts {
        links.push(link_of(numbers, *part))?;
    }
    Ok(links)
}

fn push_types(
    alloc: Global,
    nodes: &mut Vec<Vec<Link>>,
    numbers: &Index<usize>,
    types: &[&TypeDeclaration],
) -> Result<(), AllocError>
    ensures { IfOk result (λ done. map (λ n. n.items) nodes.new.items ≡ map (λ n. n.items) nodes.old.items
        ++ map (map (link_of (found numbers.now))) (map (λ t. parts_of_definition t.definition)
        (map (λ t. type_declaration_view t.now) types.now))) }
{
    for declaration in types {
        let parts = parts_of_definition(alloc, &declaration.definition)?;
        nodes.push(links_of(alloc, numbers, &parts)?)?;
    }
    Ok(())
}

fn push_units(
    alloc: Global,
    nodes: &mut Vec<Vec<Link>>,
    names: &TextNames,
    numbers: &Index<usize>,
    units: &[&Unit],
) -> Result<(), AllocError>
    ensures { IfOk result (λ done. (text : Declared) → ServesText names.now text
        → map (λ n. n.items) nodes.new.items ≡ map (λ n. n.items) nodes.old.items
        ++ map (map (link_of (found numbers.now))) (map (parts_of_unit text) (map (λ u. unit_view u.now) units.now))) }
{
    for unit in units {
        let parts = parts_of_unit(alloc, names, unit)?;
        nodes.push(links_of(alloc, numbers, &parts)?)?;
    }
    Ok(())
}

/// The links of each type, then those of each unit.
pub fn links_in(
    alloc: Global,
    names: &TextNames,
    numbers: &Index<usize>,
    types: &[&TypeDeclaration],
    units: &[&Unit],
) -> Result<Vec<Vec<Link>>, AllocError>
    ensures { IfOk result (λ nodes. (text : Declared) → ServesText names.now text
        → map (λ t. type_declaration_view t.now) types.now ≡ text.types
        → map (λ u. unit_view u.now) units.now ≡ text.units
        → map (λ n. n.items) nodes.items ≡ map (map (link_of (found numbers.now))) (node_parts text)) }
{
    let mut nodes = Vec::new(alloc);
    push_types(alloc, &mut nodes, numbers, types)?;
    push_units(alloc, &mut nodes, names, numbers, units)?;
    Ok(nodes)
}

fn push_type_names<'a>(
    names: &mut Vec<&'a Name>,
    types: &[&'a TypeDeclaration],
) -> Result<(), AllocError>
    ensures { IfOk result (λ done. map (λ x. x.now) names.new.items ≡ map (λ x. x.now) names.old.items
        ++ map (λ t. t.name.name) (map (λ t. type_declaration_view t.now) types.now)) }
{
    for declaration in types {
        names.push(&declaration.name.name)?;
    }
    Ok(())
}

fn push_unit_names<'a>(names: &mut Vec<&'a Name>, units: &[&'a Unit]) -> Result<(), AllocError>
    ensures { IfOk result (λ done. map (λ x. x.now) names.new.items ≡ map (λ x. x.now) names.old.items
        ++ map (λ u. u.name.name) (map (λ u. unit_view u.now) units.now)) }
{
    for unit in units {
        names.push(&unit.name.name)?;
    }
    Ok(())
}

/// A list of names, each with its number; a name that occurs again has the first.
#[tactic(auto, using(crate::proofs::NumberLemmas::or_step, symbols::proofs::TextLemmas::or_none))]
fn numbered<'a>(alloc: Global, names: &[&'a Name]) -> Result<Index<'a, usize>, AllocError>
    ensures { IfOk result
        (λ numbers. (q : List ℕ) → found numbers q ≡ number_in (map (λ x. x.now) names.now) 0 q) }
{
    let mut numbers = Index::new(alloc);
    for i in 0..names.len() {
        numbers.add(names[i], i)?;
    }
    Ok(numbers)
}

/// The names of the types and units, each with its number: types come first.
pub fn numbers_of<'a>(
    alloc: Global,
    types: &[&'a TypeDeclaration],
    units: &[&'a Unit],
) -> Result<Index<'a, usize>, AllocError>
    ensures { IfOk result (λ numbers. (text : Declared)
        → map (λ t. type_declaration_view t.now) types.now ≡ text.types
        → map (λ u. unit_view u.now) units.now ≡ text.units
        → (q : List ℕ) → found numbers q ≡ number_of_name text q) }
{
    let mut names = Vec::new(alloc);
    push_type_names(&mut names, types)?;
    push_unit_names(&mut names, units)?;
    numbered(alloc, &names)
}
