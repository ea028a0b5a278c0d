//! Calls of instances of blocks: their arguments (C1, C10), and the variables to which outputs are copied (C3).

ghost use Rattle.std.specs.Prelude.{◌≡◌, ◌&&◌, not, List, [], Some, map, IfOk};
ghost use Rattle.std.specs.List.{flat_map};
ghost use Rattle.st_types.specs.StatementViews.{argument_view, stmt_view};
ghost use Rattle.st_meaning.specs.Scopes.{Name, contains_name};
ghost use Rattle.st_rules.specs.Environments.{Environment, type_of_name};
ghost use Rattle.st_rules.specs.Collecting.{Adds, Covers, Collects};
ghost use Rattle.st_rules.specs.Reasons.{type_word};
ghost use Rattle.st_rules.specs.CallRules.{argument_name, is_argument, wrong_arguments, wrong_copy, wrong_instance};
ghost use Rattle.st_rules.specs.CallRules.{side_of, is_of_other_side, reason_of_argument, wrong_invocation};
ghost use Rattle.symbols.specs.PlaceTypes.{place_type_view};
ghost use Rattle.symbols.specs.Serving.{Serves};
ghost use Rattle.symbols.specs.Tables.{ServesTables};
ghost use Rattle.st_check.specs.Listings.{listed_view};

use crate::listings::Listed;
use crate::selections::{is_instance, type_of_place};
use st_rules::{BlockSide, Broken, BrokenRules, Purpose, Reason};
use st_types::{Argument, Identifier, Stmt};
use st_typing::{allows, demand_of_type, is_nothing, type_word, typing_of_place};
use std::alloc::{AllocError, Global};
use symbols::{Index, PlaceType, Side, TextTables, UnitNames};

fn argument_name(argument: &Argument) -> &Identifier
    ensures { result.now ≡ argument_name (argument_view argument.now) }
{
    match argument {
        Argument::Input(name, _) => name,
        Argument::Output(name, _) => name,
    }
}

/// Whether an instance of the type has the argument: `:=` gives an input, `=>` copies an output.
fn is_argument<'a>(tables: &TextTables<'a>, declared: PlaceType<'a>, argument: &Argument) -> bool
    ensures { (env : Environment) (instance : Name) → ServesTables tables.now env.text
        → type_of_name env instance ≡ Some (place_type_view declared.entry)
        → result ≡ is_argument env instance (argument_view argument.now) }
{
    match argument {
        Argument::Input(name, _) => tables
            .block_variable(Side::Input, declared, &name.name)
            .is_some(),
        Argument::Output(name, _) => tables
            .block_variable(Side::Output, declared, &name.name)
            .is_some(),
    }
}

fn side_of(argument: &Argument) -> BlockSide
    ensures { result ≡ side_of (argument_view argument.now) }
{
    match argument {
        Argument::Input(_, _) => BlockSide::Input,
        Argument::Output(_, _) => BlockSide::Output,
    }
}

/// Whether an argument is an output that is given a value, or an input that is copied.
fn is_of_other_side<'a>(
    tables: &TextTables<'a>,
    declared: PlaceType<'a>,
    argument: &Argument,
) -> bool
    ensures { (env : Environment) (instance : Name) → ServesTables tables.now env.text
        → type_of_name env instance ≡ Some (place_type_view declared.entry)
        → result ≡ is_of_other_side env instance (argument_view argument.now) }
{
    match argument {
        Argument::Input(name, _) => tables
            .block_variable(Side::Output, declared, &name.name)
            .is_some(),
        Argument::Output(name, _) => tables
            .block_variable(Side::Input, declared, &name.name)
            .is_some(),
    }
}

/// Why an argument is wrong, if it is.
fn reason_of_argument<'a>(
    tables: &TextTables<'a>,
    declared: PlaceType<'a>,
    is_repeated: bool,
    argument: &Argument,
) -> Reason
    ensures { (env : Environment) (instance : Name) (before : List Name) → ServesTables tables.now env.text
        → type_of_name env instance ≡ Some (place_type_view declared.entry)
        → is_repeated ≡ contains_name before (argument_name (argument_view argument.now)).name
        → result ≡ reason_of_argument env (type_word (place_type_view declared.entry)) instance before
        (argument_view argument.now) }
{
    if is_repeated {
        Reason::ArgumentGivenBefore
    } else if is_of_other_side(tables, declared, argument) {
        Reason::OtherSide(type_word(declared), side_of(argument))
    } else {
        Reason::NoSuchArgument(type_word(declared), side_of(argument))
    }
}

/// Whether an argument is one of the block that was not given before.
fn is_new_argument<'a>(
    tables: &TextTables<'a>,
    declared: PlaceType<'a>,
    is_repeated: bool,
    argument: &Argument,
) -> bool
    ensures { (env : Environment) (instance : Name) → ServesTables tables.now env.text
        → type_of_name env instance ≡ Some (place_type_view declared.entry)
        → result ≡ (is_argument env instance (argument_view argument.now) && not is_repeated) }
{
    is_argument(tables, declared, argument) && !is_repeated
}

/// Adds the arguments that aren't those of the block, or are repeated (C10).
fn wrong_arguments<'a>(
    alloc: Global,
    tables: &TextTables<'a>,
    declared: PlaceType<'a>,
    arguments: &[Argument],
    broken: &mut BrokenRules,
) -> Result<(), AllocError>
    ensures adds { (env : Environment) (instance : Name) → ServesTables tables.now env.text
        → type_of_name env instance ≡ Some (place_type_view declared.entry)
        → Adds (wrong_arguments env (type_word (place_type_view declared.entry)) instance []
        (map argument_view arguments.now)) broken.old broken.new }
    ensures covers { IfOk result (λ done. (env : Environment) (instance : Name) → ServesTables tables.now env.text
        → type_of_name env instance ≡ Some (place_type_view declared.entry)
        → Covers (wrong_arguments env (type_word (place_type_view declared.entry)) instance []
        (map argument_view arguments.now)) broken.new) }
{
    let mut before = Index::new(alloc);
    for argument in arguments {
        let name = argument_name(argument);
        let is_repeated = before.find(&name.name).is_some();
        broken.add_unless(
            is_new_argument(tables, declared, is_repeated, argument),
            reason_of_argument(tables, declared, is_repeated, argument),
            name.place,
        );
        before.add(&name.name, ())?;
    }
    Ok(())
}

/// Adds the fault in the copy of an output of a block of the type (C3).
fn wrong_copy<'a>(
    names: &UnitNames<'_, 'a>,
    declared: PlaceType<'a>,
    argument: &Argument,
    broken: &mut BrokenRules,
)
    ensures { (env : Environment) (instance : Name) → Serves names.now env
        → type_of_name env instance ≡ Some (place_type_view declared.entry)
        → Collects (wrong_copy env instance (argument_view argument.now)) broken.old broken.new }
{
    match argument {
        Argument::Input(_, _) => {}
        Argument::Output(name, variable) => {
            let output = names
                .tables
                .block_variable(Side::Output, declared, &name.name);
            let demand = demand_of_type(names.tables, Purpose::Output(name.place), output);
            let typing = typing_of_place(names.tables, type_of_place(names, variable));
            broken.add_unless(
                allows(demand, typing),
                Reason::Mismatch(demand, typing),
                variable.name.place,
            );
        }
    }
}

fn wrong_copies<'a>(
    names: &UnitNames<'_, 'a>,
    declared: PlaceType<'a>,
    arguments: &[Argument],
    broken: &mut BrokenRules,
)
    ensures { (env : Environment) (instance : Name) → Serves names.now env
        → type_of_name env instance ≡ Some (place_type_view declared.entry)
        → Collects (flat_map (wrong_copy env instance) (map argument_view arguments.now)) broken.old broken.new }
{
    for argument in arguments {
        wrong_copy(names, declared, argument, broken);
    }
}

/// Adds the faults in a call of an instance.
fn wrong_instance(
    alloc: Global,
    names: &UnitNames,
    instance: &Identifier,
    arguments: &[Argument],
    broken: &mut BrokenRules,
) -> Result<(), AllocError>
    ensures adds { (env : Environment) → Serves names.now env
        → Adds (wrong_instance env instance.now (map argument_view arguments.now)
        (type_of_name env instance.now.name)) broken.old broken.new }
    ensures covers { IfOk result (λ done. (env : Environment) → Serves names.now env
        → Covers (wrong_instance env instance.now (map argument_view arguments.now)
        (type_of_name env instance.now.name)) broken.new) }
{
    let place = instance.place;
    let Some(declared) = names.type_of_name(&instance.name) else {
        broken.add(Broken {
            reason: Reason::Undeclared,
            place,
        });
        return Ok(());
    };
    if !is_instance(names.tables, Some(declared)) {
        let is_unknown = is_nothing(names.tables.typing_of_type(declared));
        broken.add_unless(is_unknown, Reason::NotInstance(type_word(declared)), place);
        return Ok(());
    }
    wrong_arguments(alloc, names.tables, declared, arguments, broken)?;
    wrong_copies(names, declared, arguments, broken);
    Ok(())
}

fn wrong_invocation(
    alloc: Global,
    names: &UnitNames,
    statement: &Stmt,
    broken: &mut BrokenRules,
) -> Result<(), AllocError>
    ensures adds { (env : Environment) → Serves names.now env
        → Adds (wrong_invocation env (stmt_view statement.now)) broken.old broken.new }
    ensures covers { IfOk result (λ done. (env : Environment) → Serves names.now env
        → Covers (wrong_invocation env (stmt_view statement.now)) broken.new) }
{
    match statement {
        Stmt::Invoke(instance, arguments) => {
            wrong_instance(alloc, names, instance, arguments, broken)
        }
        _ => Ok(()),
    }
}

/// Adds the faults in the calls of instances among statements.
pub fn wrong_invocations(
    alloc: Global,
    names: &UnitNames,
    statements: &[Listed],
    broken: &mut BrokenRules,
) -> Result<(), AllocError>
    ensures adds { (env : Environment) → Serves names.now env
        → Adds (flat_map (λ l. wrong_invocation env l.statement) (map listed_view statements.now)) broken.old
        broken.new }
    ensures covers { IfOk result (λ done. (env : Environment) → Serves names.now env
        → Covers (flat_map (λ l. wrong_invocation env l.statement) (map listed_view statements.now)) broken.new) }
{
    for listed in statements {
        wrong_invocation(alloc, names, listed.statement, broken)?;
    }
    Ok(())
}
