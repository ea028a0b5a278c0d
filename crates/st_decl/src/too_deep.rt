//! Types and units that contain themselves, or that are too deep.

ghost use Rattle.std.specs.Prelude.{◌≡◌, ◌++◌, map, IfOk, slice_get};
ghost use Rattle.std.specs.List.{flat_map};
ghost use Rattle.st_types.specs.DeclarationViews.{type_declaration_view};
ghost use Rattle.st_types.specs.UnitViews.{unit_view};
ghost use Rattle.st_types.specs.SourceViews.{source_view};
ghost use Rattle.st_meaning.specs.NameTypes.{Declared, declared_in, types_in, units_in};
ghost use Rattle.st_rules.specs.DeclaredTypes.{unnamed_arrays_in};
ghost use Rattle.st_rules.specs.Collecting.{Adds, Covers, Collects};
ghost use Rattle.st_rules.specs.Faults.{breaking, in_case};
ghost use Rattle.st_rules.specs.Containment as rules;
ghost use Rattle.st_rules.specs.Containment.{is_too_deep, is_wrong_unit, reason_of_depth, too_deep_array, too_deep};
ghost use Rattle.symbols.specs.Found.{found};
ghost use Rattle.st_decl.specs.Parts.{link_of, node_parts};
ghost use Rattle.st_decl.specs.Walks.{is_deep, AreDepths};
ghost use Rattle.st_decl.specs.Numbered.{node_places, AreJudged};

use crate::depths::{Depths, Mark, Seen, depths_of, seen_of};
use crate::elements::{types_in, units_in};
use crate::links::{Link, link_of, links_in, numbers_of};
use crate::parts::Part;
use st_rules::limits::MAX_TYPE_DEPTH;
use st_rules::{Broken, BrokenRules, Reason};
use st_types::{ArrayType, Name, Source, TypeDeclaration, Unit, UnitSort};
use std::alloc::{AllocError, Global};
use symbols::{Index, TextNames};

/// Whether the target of a link is over 64 deep.
fn is_deep(marks: &[Mark], link: Link) -> bool
    ensures { result ≡ is_deep marks.now link }
{
    match seen_of(marks, link) {
        Seen::Depth(depth) => depth > MAX_TYPE_DEPTH,
        Seen::Open(_) => false,
    }
}

fn is_deep_name(numbers: &Index<usize>, marks: &[Mark], name: &Name) -> bool
    ensures { (text : Declared) → AreJudged text (found numbers.now) marks.now
        → result ≡ is_too_deep text (rules.named name.now) }
{
    is_deep(marks, link_of(numbers, Part::Named(name)))
}

fn deep_types(
    numbers: &Index<usize>,
    marks: &[Mark],
    types: &[&TypeDeclaration],
    broken: &mut BrokenRules,
)
    ensures { (text : Declared) → AreJudged text (found numbers.now) marks.now
        → Collects (flat_map (λ t. breaking (reason_of_depth text t.name.name)
        (in_case (is_too_deep text (rules.named t.name.name)) t.name.place))
        (map (λ t. type_declaration_view t.now) types.now)) broken.old broken.new }
{
    for declaration in types {
        let deep = is_deep_name(numbers, marks, &declaration.name.name);
        broken.add_in_case(deep, Reason::TooDeep, declaration.name.place);
    }
}

fn is_wrong_unit(numbers: &Index<usize>, marks: &[Mark], unit: &Unit) -> bool
    ensures { (text : Declared) → AreJudged text (found numbers.now) marks.now
        → result ≡ is_wrong_unit text unit.now.sort unit.now.name.name }
{
    match unit.sort {
        UnitSort::Function(_) => is_deep_name(numbers, marks, &unit.name.name),
        UnitSort::FunctionBlock => is_deep_name(numbers, marks, &unit.name.name),
        UnitSort::Program => false,
    }
}

fn deep_units(numbers: &Index<usize>, marks: &[Mark], units: &[&Unit], broken: &mut BrokenRules)
    ensures { (text : Declared) → AreJudged text (found numbers.now) marks.now
        → Collects (flat_map (λ u. breaking (reason_of_depth text u.name.name)
        (in_case (is_wrong_unit text u.sort u.name.name) u.name.place))
        (map (λ u. unit_view u.now) units.now)) broken.old broken.new }
{
    for unit in units {
        let wrong = is_wrong_unit(numbers, marks, unit);
        broken.add_in_case(wrong, Reason::TooDeep, unit.name.place);
    }
}

fn deep_arrays(
    numbers: &Index<usize>,
    marks: &[Mark],
    arrays: &[&ArrayType],
    broken: &mut BrokenRules,
)
    ensures { (text : Declared) → AreJudged text (found numbers.now) marks.now
        → Collects (flat_map (too_deep_array text) (map (λ a. a.now) arrays.now)) broken.old broken.new }
{
    for array in arrays {
        let deep = is_deep(marks, link_of(numbers, Part::Row(&array.element)));
        broken.add_in_case(deep, Reason::TooDeep, array.place);
    }
}

fn push_type_places(places: &mut Vec<usize>, types: &[&TypeDeclaration]) -> Result<(), AllocError>
    ensures { IfOk result (λ done. places.new.items ≡ places.old.items
        ++ map (λ t. t.name.place) (map (λ t. type_declaration_view t.now) types.now)) }
{
    for declaration in types {
        places.push(declaration.name.place)?;
    }
    Ok(())
}

fn push_unit_places(places: &mut Vec<usize>, units: &[&Unit]) -> Result<(), AllocError>
    ensures { IfOk result (λ done. places.new.items ≡ places.old.items
        ++ map (λ u. u.name.place) (map (λ u. unit_view u.now) units.now)) }
{
    for unit in units {
        places.push(unit.name.place)?;
    }
    Ok(())
}

/// Where the type or unit of a number is declared.
fn place_of(
    alloc: Global,
    types: &[&TypeDeclaration],
    units: &[&Unit],
    node: usize,
) -> Result<Option<usize>, AllocError>
    ensures { IfOk result (λ place. (text : Declared)
        → map (λ t. type_declaration_view t.now) types.now ≡ text.types
        → map (λ u. unit_view u.now) units.now ≡ text.units → place ≡ slice_get (node_places text) node) }
{
    let mut places = Vec::new(alloc);
    push_type_places(&mut places, types)?;
    push_unit_places(&mut places, units)?;
    Ok(places.get(node).copied())
}

/// The depths of a text's types and units, by the links that their parts make.
fn depths_in(
    alloc: Global,
    source: &Source,
    numbers: &Index<usize>,
    types: &[&TypeDeclaration],
    units: &[&Unit],
) -> Result<Depths, AllocError>
    requires types { map (λ t. type_declaration_view t.now) types.now ≡ types_in (source_view source.now) }
    requires units { map (λ u. unit_view u.now) units.now ≡ units_in (source_view source.now) }
    ensures { IfOk result
        (AreDepths (map (map (link_of (found numbers.now))) (node_parts (declared_in (source_view source.now))))) }
{
    let names = TextNames::new(alloc, source)?;
    let graph = links_in(alloc, &names, numbers, types, units)?;
    depths_of(alloc, &graph)
}

/// Adds types and units of these that contain themselves or are too deep, and arrays without a name that are. If one
/// contains itself, it alone is added.
fn too_deep_of(
    alloc: Global,
    source: &Source,
    types: &[&TypeDeclaration],
    units: &[&Unit],
    arrays: &[&ArrayType],
    broken: &mut BrokenRules,
) -> Result<(), AllocError>
    requires types { map (λ t. type_declaration_view t.now) types.now ≡ types_in (source_view source.now) }
    requires units { map (λ u. unit_view u.now) units.now ≡ units_in (source_view source.now) }
    requires arrays { map (λ a. a.now) arrays.now ≡ unnamed_arrays_in (source_view source.now) }
    ensures adds { Adds (too_deep (source_view source.now)) broken.old broken.new }
    ensures covers { IfOk result (λ done. Covers (too_deep (source_view source.now)) broken.new) }
{
    let numbers = numbers_of(alloc, types, units)?;
    match depths_in(alloc, source, &numbers, types, units)? {
        Depths::Cycle(node) => {
            if let Some(place) = place_of(alloc, types, units, node)? {
                broken.add(Broken {
                    reason: Reason::ContainsItself,
                    place,
                });
            }
        }
        Depths::Known(marks) => {
            deep_types(&numbers, &marks, types, broken);
            deep_units(&numbers, &marks, units, broken);
            deep_arrays(&numbers, &marks, arrays, broken);
        }
    }
    Ok(())
}

/// Adds types and units that contain themselves or are too deep, and arrays without a name that are (C6). If one
/// contains itself, it alone is added.
pub fn too_deep(
    alloc: Global,
    source: &Source,
    arrays: &[&ArrayType],
    broken: &mut BrokenRules,
) -> Result<(), AllocError>
    requires { map (λ a. a.now) arrays.now ≡ unnamed_arrays_in (source_view source.now) }
    ensures adds { Adds (too_deep (source_view source.now)) broken.old broken.new }
    ensures covers { IfOk result (λ done. Covers (too_deep (source_view source.now)) broken.new) }
{
    let types = types_in(alloc, source)?;
    let units = units_in(alloc, source)?;
    too_deep_of(alloc, source, &types, &units, arrays, broken)
}
