//! The names of the types in a text's declarations (C1, C3).

ghost use Rattle.std.specs.Prelude.{◌≡◌, ◌&&◌, map, Some, is_some};
ghost use Rattle.std.specs.List.{flat_map};
ghost use Rattle.st_meaning.specs.NameTypes.{Declared};
ghost use Rattle.st_rules.specs.Environments.{is_block_type};
ghost use Rattle.st_rules.specs.Collecting.{Collects};
ghost use Rattle.st_decl.specs.Entries.{of_each, entry_view, declaring_of, result_of};
ghost use Rattle.st_rules.specs.Typings.{is_composite, typing_of_type};
ghost use Rattle.st_rules.specs.TypeRules.{place_of_type, wrong_named, wrong_simple, wrong_name, may_be_instance};
ghost use Rattle.st_rules.specs.TypeRules.{is_program_or_block, is_without_parts, wrong_declaring, wrong_element};
ghost use Rattle.st_rules.specs.TypeRules.{place_of_simple, wrong_result};
ghost use Rattle.symbols.specs.Tables.{ServesTables};
ghost use Rattle.symbols.specs.Texts.{ServesText};
ghost use Rattle.st_decl.specs.DeclaringViews.{role_view, declaring_view};

use st_decl::{Declaring, Entry, Role};
use st_rules::{Broken, BrokenRules, Reason, Typing};
use st_types::{ArrayType, Identifier, Section, SimpleType, UnitSort, VariableType};
use symbols::{PlaceType, TextNames, TextTables, place_type, standard_function};

/// The place of the name of a type.
fn place_of_simple(declared: &SimpleType) -> usize
    ensures { result ≡ place_of_simple declared.now }
{
    match declared {
        SimpleType::Elementary(_, place) => *place,
        SimpleType::Named(name) => name.place,
    }
}

/// The place of the name of a type, or of the word ARRAY.
fn place_of_type(declared: &VariableType) -> usize
    ensures { result ≡ place_of_type declared.now }
{
    match declared {
        VariableType::Simple(simple) => place_of_simple(simple),
        VariableType::Array(array) => array.place,
    }
}

/// Adds the fault in the name of a type: it stands for nothing (C1), or for something else (C3). A block is allowed if
/// `blocks`.
fn wrong_named(
    names: &TextNames,
    tables: &TextTables,
    blocks: bool,
    name: &Identifier,
    broken: &mut BrokenRules,
)
    ensures { (text : Declared) → ServesText names.now text → ServesTables tables.now text
        → Collects (wrong_named text blocks name.now) broken.old broken.new }
{
    if names.type_named(&name.name).is_some() {
        return;
    }
    if tables.is_block(&name.name) {
        broken.add_unless(blocks, Reason::NoInstanceAllowed, name.place);
        return;
    }
    let stands = names.unit_named(&name.name).is_some() || standard_function(&name.name).is_some();
    let reason = if stands {
        Reason::NotType
    } else {
        Reason::Undeclared
    };
    broken.add(Broken {
        reason,
        place: name.place,
    });
}

fn wrong_simple(
    names: &TextNames,
    tables: &TextTables,
    blocks: bool,
    declared: &SimpleType,
    broken: &mut BrokenRules,
)
    ensures { (text : Declared) → ServesText names.now text → ServesTables tables.now text
        → Collects (wrong_simple text blocks declared.now) broken.old broken.new }
{
    match declared {
        SimpleType::Elementary(_, _) => {}
        SimpleType::Named(name) => wrong_named(names, tables, blocks, name, broken),
    }
}

/// Adds the fault in the name of a declared type. The element of an array is judged with the array.
fn wrong_name(
    names: &TextNames,
    tables: &TextTables,
    blocks: bool,
    declared: &VariableType,
    broken: &mut BrokenRules,
)
    ensures { (text : Declared) → ServesText names.now text → ServesTables tables.now text
        → Collects (wrong_name text blocks declared.now) broken.old broken.new }
{
    match declared {
        VariableType::Simple(simple) => wrong_simple(names, tables, blocks, simple, broken),
        VariableType::Array(_) => {}
    }
}

fn is_program_or_block(sort: &UnitSort) -> bool
    ensures { result ≡ is_program_or_block sort.now }
{
    match sort {
        UnitSort::Function(_) => false,
        UnitSort::FunctionBlock => true,
        UnitSort::Program => true,
    }
}

/// Whether this may be an instance: it is in a VAR of a program or function block.
fn may_be_instance(role: Role) -> bool
    ensures { result ≡ may_be_instance (role_view role.entry) }
{
    match role {
        Role::Variable(sort, Section::Local(_)) => is_program_or_block(sort),
        _ => false,
    }
}

/// Whether this must have no parts: it is an input or an output of a unit.
fn is_without_parts(role: Role) -> bool
    ensures { result ≡ is_without_parts (role_view role.entry) }
{
    match role {
        Role::Variable(_, Section::Input(_)) => true,
        Role::Variable(_, Section::Output(_)) => true,
        _ => false,
    }
}

fn is_composite(typing: Typing) -> bool
    ensures { result ≡ is_composite typing }
{
    matches!(typing, Typing::Composite)
}

/// Whether variables of the type are instances of blocks.
fn is_block_type(tables: &TextTables, declared: &VariableType) -> bool
    ensures { (text : Declared) → ServesTables tables.now text → result ≡ is_block_type text declared.now }
{
    match declared {
        VariableType::Array(_) => false,
        VariableType::Simple(SimpleType::Elementary(_, _)) => false,
        VariableType::Simple(SimpleType::Named(name)) => tables.is_block(&name.name),
    }
}

/// Whether an input or an output has parts.
fn has_parts(tables: &TextTables, declaring: Declaring) -> bool
    ensures { (text : Declared) → ServesTables tables.now text → result
        ≡ (is_without_parts (role_view declaring.entry.role)
        && is_composite (typing_of_type text (Some declaring.entry.declared.now))) }
{
    is_without_parts(declaring.role)
        && is_composite(tables.typing_of_type(place_type(declaring.declared)))
}

/// Whether an instance has an initial value.
fn is_started(tables: &TextTables, declaring: Declaring) -> bool
    ensures { (text : Declared) → ServesTables tables.now text → result
        ≡ (is_block_type text declaring.entry.declared.now && is_some declaring.entry.initial.now) }
{
    is_block_type(tables, declaring.declared) && declaring.initial.is_some()
}

/// Adds the faults in a declaration's type: an unknown or wrong name (C1, C3), an input or output with parts, an
/// instance with an initial value (C3).
fn wrong_declaring(
    names: &TextNames,
    tables: &TextTables,
    declaring: Declaring,
    broken: &mut BrokenRules,
)
    ensures { (text : Declared) → ServesText names.now text → ServesTables tables.now text
        → Collects (wrong_declaring text (declaring_view declaring.entry)) broken.old broken.new }
{
    let declared = declaring.declared;
    let place = place_of_type(declared);
    wrong_name(
        names,
        tables,
        may_be_instance(declaring.role),
        declared,
        broken,
    );
    broken.add_in_case(has_parts(tables, declaring), Reason::HasParts, place);
    broken.add_in_case(
        is_started(tables, declaring),
        Reason::InstanceWithValue,
        place,
    );
}

/// Adds the faults in the types of declarations.
pub fn wrong_declarings(
    names: &TextNames,
    tables: &TextTables,
    entries: &[Entry],
    broken: &mut BrokenRules,
)
    ensures { (text : Declared) → ServesText names.now text → ServesTables tables.now text
        → Collects (flat_map (λ e. of_each (wrong_declaring text) (declaring_of e)) (map entry_view entries.now))
        broken.old broken.new }
{
    for entry in entries {
        if let Some(declaring) = entry.declaring() {
            wrong_declaring(names, tables, declaring, broken);
        }
    }
}

/// Adds the fault in the type of an array's elements, which must not be a block.
pub fn wrong_element(
    names: &TextNames,
    tables: &TextTables,
    array: &ArrayType,
    broken: &mut BrokenRules,
)
    ensures { (text : Declared) → ServesText names.now text → ServesTables tables.now text
        → Collects (wrong_element text array.now) broken.old broken.new }
{
    wrong_simple(names, tables, false, &array.element, broken);
}

/// Adds the faults in the type of a function's result: its name, or that it has parts.
fn wrong_result(
    names: &TextNames,
    tables: &TextTables,
    declared: &SimpleType,
    broken: &mut BrokenRules,
)
    ensures { (text : Declared) → ServesText names.now text → ServesTables tables.now text
        → Collects (wrong_result text declared.now) broken.old broken.new }
{
    let typing = tables.typing_of_type(PlaceType::Simple(declared));
    wrong_simple(names, tables, false, declared, broken);
    broken.add_in_case(
        is_composite(typing),
        Reason::HasParts,
        place_of_simple(declared),
    );
}

/// Adds the faults in the results of functions (C1, C3).
pub fn wrong_results(
    names: &TextNames,
    tables: &TextTables,
    entries: &[Entry],
    broken: &mut BrokenRules,
)
    ensures { (text : Declared) → ServesText names.now text → ServesTables tables.now text
        → Collects (flat_map (λ e. of_each (wrong_result text) (result_of e)) (map entry_view entries.now)) broken.old
        broken.new }
{
    for entry in entries {
        if let Some(declared) = entry.result() {
            wrong_result(names, tables, declared, broken);
        }
    }
}
