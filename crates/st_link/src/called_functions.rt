//! The functions that programs call, directly or through other units.

ghost use Rattle.std.specs.Prelude.{◌≡◌, ◌++◌, ◌∷◌, ◌^◌, ◌-◌, [], List, length, map, min, option_map, is_some};
ghost use Rattle.std.specs.Prelude.{true, ℕ, IfOk, OnOk};
ghost use Rattle.std.specs.List.{flat_map, list_all, list_any};
ghost use Rattle.st_types.specs.SourceViews.{source_view};
ghost use Rattle.st_types.specs.StatementViews.{stmt_view};
ghost use Rattle.st_types.specs.UnitViews.{unit_view};
ghost use Rattle.st_meaning.specs.NameTypes.{Declared, declared_in, unit_named};
ghost use Rattle.st_rules.specs.Containment.{calls_of, is_function, is_function_sort};
ghost use Rattle.symbols.specs.Found.{found};
ghost use Rattle.symbols.specs.PlaceTypes.{place_type_view};
ghost use Rattle.st_rules.specs.declared.limits.TheConstants.{MAX_TYPE_DEPTH};
ghost use Rattle.layout.specs.Shapes.{size};
ghost use Rattle.layout.specs.Types.{is_within_depth, shape_of_type};
ghost use Rattle.layout.specs.Compositions.{ServesTypes};
ghost use Rattle.layout.specs.Instances.{instance_view};
ghost use Rattle.layout.specs.Sizes.{ServesSizes, capped_size};
ghost use Rattle.st_link.specs.CalledFunctions.{IsCalled, block_among, block_called, callees_of, if_room, is_called};
ghost use Rattle.st_link.specs.CalledFunctions.{name_of_type, program_count, programs_among, value_count};
ghost use Rattle.st_link.specs.CalledFunctions.{values_called, values_of_call};
ghost use Rattle.st_link.specs.CalledFunctions.{values_of_unit, values_of_units};
ghost use Rattle.st_link.specs.FirstSlots.{slots_taken};
ghost use Rattle.st_link.specs.LinkVariables.{LinkVariable, are_whole, is_whole_unit, result_of, variable_view};
ghost use Rattle.st_link.specs.LinkVariables.{variables_of_blocks};
ghost use Rattle.st_link.specs.Orderly.{IsOrderlySource, configuration_in, instances_of};
ghost use Rattle.st_link.specs.Reaching.{Adds, FindsFunctions, FindsReached, Follows, HasTypes, worklist_view};

use crate::variables::{Variable, variables_of_blocks, variables_of_function};
use layout::{ProgramInstance, Sizes, Types, instances_in, only_configuration, sum};
use st_decl::{all_in, calls_of, units_in};
use st_types::limits::MAX_PATHS;
use st_types::{Identifier, Name, SimpleType, Source, Stmt, Unit, UnitSort};
use std::alloc::{AllocError, Global};
use symbols::{Index, PlaceType};

/// The functions that the programs of a text's configuration call, at any depth.
pub struct CalledFunctions<'a> {
    /// The units that programs reach by calls, the programs among them.
    units: Index<'a, ()>,
    values: usize,
    programs: usize,
}

impl Drop for CalledFunctions<'_> {
    fn drop(self) {
        let Self {
            units: _,
            values: _,
            programs: _,
        } = self;
    }
}

/// The units that are reached so far, and those of them whose calls are not followed yet.
#[derive(Drop)]
struct Reached<'a> {
    units: Index<'a, ()>,
    waiting: Vec<&'a Unit>,
}

impl<'a> Reached<'a> {
    /// Adds a unit, if it exists and is new.
    fn add(&mut self, unit: Option<&'a Unit>) -> Result<(), AllocError>
        ensures { OnOk result ((text : Declared) (x : List ℕ)
            → option_map (λ u. unit_view u.now) unit.entry ≡ unit_named text.units x
            → Adds text (x ∷ []) (worklist_view self.old) (worklist_view self.new)) }
    {
        let Some(unit) = unit else {
            return Ok(());
        };
        if self.units.get(&unit.name.name).is_none() {
            self.units.add(&unit.name.name, ())?;
            self.waiting.push(unit)?;
        }
        Ok(())
    }

    /// Adds the units of these names.
    fn add_named(&mut self, types: &Types<'a>, names: &[&'a Name]) -> Result<(), AllocError>
        ensures { OnOk result ((text : Declared) → ServesTypes types.now text
            → Adds text (map (λ x. x.now) names.now) (worklist_view self.old) (worklist_view self.new)) }
    {
        for name in names {
            self.add(types.unit_named(name))?;
        }
        Ok(())
    }
}

/// The types of a unit's variables by their names.
fn types_of<'a>(
    alloc: Global,
    variables: &[Variable<'a>],
) -> Result<Index<'a, PlaceType<'a>>, AllocError>
    ensures { IfOk result (λ types. HasTypes types (map variable_view variables.now)) }
{
    let mut types = Index::new(alloc);
    for variable in variables {
        types.add(variable.name, variable.declared)?;
    }
    Ok(types)
}

/// The name of a type that has one.
fn name_of_type<'a>(declared: PlaceType<'a>) -> Option<&'a Name>
    ensures { option_map (λ x. x.now) result ≡ name_of_type (place_type_view declared.entry) }
{
    match declared {
        PlaceType::Simple(SimpleType::Named(block)) => Some(&block.name),
        _ => None,
    }
}

/// The block that a variable is an instance of.
fn block_of<'a>(types: &Index<'a, PlaceType<'a>>, instance: &Name) -> Option<&'a Name>
    ensures { (vs : List LinkVariable) → HasTypes types.now vs
        → option_map (λ x. x.now) result ≡ block_among vs instance.now }
{
    name_of_type(types.find(instance)?)
}

/// Appends the name of the block that a statement calls.
fn push_block<'a>(
    names: &mut Vec<&'a Name>,
    types: &Index<'a, PlaceType<'a>>,
    statement: &Stmt,
) -> Result<(), AllocError>
    ensures { OnOk result ((vs : List LinkVariable) → HasTypes types.now vs → map (λ x. x.now) names.new.items
        ≡ map (λ x. x.now) names.old.items ++ block_called vs (stmt_view statement.now)) }
{
    if let Stmt::Invoke(instance, _) = statement {
        if let Some(block) = block_of(types, &instance.name) {
            names.push(block)?;
        }
    }
    Ok(())
}

/// Appends the names of the blocks that statements call.
fn push_blocks<'a>(
    names: &mut Vec<&'a Name>,
    types: &Index<'a, PlaceType<'a>>,
    statements: &[&'a Stmt],
) -> Result<(), AllocError>
    ensures { OnOk result ((vs : List LinkVariable) → HasTypes types.now vs → map (λ x. x.now) names.new.items
        ≡ map (λ x. x.now) names.old.items
        ++ flat_map (block_called vs) (map (λ s. stmt_view s.now) statements.now)) }
{
    for statement in statements {
        push_block(names, types, statement)?;
    }
    Ok(())
}

fn names_of<'a>(alloc: Global, identifiers: &[&'a Identifier]) -> Result<Vec<&'a Name>, AllocError>
    ensures { IfOk result (λ names. map (λ x. x.now) names.items ≡ map (λ x. x.now.name) identifiers.now) }
{
    let mut names = Vec::new(alloc);
    for identifier in identifiers {
        names.push(&identifier.name)?;
    }
    Ok(names)
}

/// The names of the functions and blocks that a unit calls.
fn callees_of<'a>(alloc: Global, unit: &'a Unit) -> Result<Vec<&'a Name>, AllocError>
    ensures { IfOk result (λ names. map (λ x. x.now) names.items ≡ callees_of (unit_view unit.now)) }
{
    let variables = variables_of_blocks(alloc, &unit.blocks)?;
    let types = types_of(alloc, &variables)?;
    let statements = all_in(alloc, &unit.body)?;
    let mut names = names_of(alloc, &calls_of(alloc, unit)?)?;
    push_blocks(&mut names, &types, &statements)?;
    Ok(names)
}

/// The names of the programs of instances.
fn programs_of<'a>(
    alloc: Global,
    instances: &[ProgramInstance<'a>],
) -> Result<Vec<&'a Name>, AllocError>
    ensures { IfOk result (λ names. map (λ x. x.now) names.items
        ≡ programs_among (map instance_view instances.now)) }
{
    let mut names = Vec::new(alloc);
    for instance in instances {
        names.push(instance.program)?;
    }
    Ok(names)
}

/// Follows calls until no unit waits.
fn follow<'a>(
    alloc: Global,
    types: &Types<'a>,
    units: &[&'a Unit],
    reached: &mut Reached<'a>,
) -> Result<(), AllocError>
    ensures { OnOk result ((text : Declared) (programs : List (List ℕ)) → ServesTypes types.now text
        → map (λ u. unit_view u.now) units.now ≡ text.units
        → Follows text programs (length units.now) (worklist_view reached.old)
        → FindsReached text programs (λ x. is_some (found reached.new.units x))) }
{
    // Each unit waits once at most.
    for _ in units {
        let Some(unit) = reached.waiting.pop() else {
            return Ok(());
        };
        let callees = callees_of(alloc, unit)?;
        reached.add_named(types, &callees)?;
    }
    Ok(())
}

/// The units that the programs of these instances reach.
fn reached_from<'a>(
    alloc: Global,
    types: &Types<'a>,
    units: &[&'a Unit],
    instances: &[ProgramInstance<'a>],
) -> Result<Index<'a, ()>, AllocError>
    ensures { IfOk result (λ reached. (text : Declared) → ServesTypes types.now text
        → map (λ u. unit_view u.now) units.now ≡ text.units
        → FindsFunctions text (programs_among (map instance_view instances.now)) (λ x. is_some (found reached x))) }
{
    let programs = programs_of(alloc, instances)?;
    let mut reached = Reached {
        units: Index::new(alloc),
        waiting: Vec::new(alloc),
    };
    reached.add_named(types, &programs)?;
    follow(alloc, types, units, &mut reached)?;
    Ok(reached.units)
}

/// Whether there is a function among units.
fn has_functions(units: &[&Unit]) -> bool
    ensures { result ≡ list_any (λ u. is_function_sort u.sort) (map (λ u. unit_view u.now) units.now) }
{
    for unit in units {
        if let UnitSort::Function(_) = unit.sort {
            return true;
        }
    }
    false
}

/// The units that the programs of these instances reach; for a text without functions nothing is walked.
fn called_from<'a>(
    alloc: Global,
    types: &Types<'a>,
    units: &[&'a Unit],
    instances: &[ProgramInstance<'a>],
) -> Result<Index<'a, ()>, AllocError>
    ensures { IfOk result (λ called. (text : Declared) → ServesTypes types.now text
        → map (λ u. unit_view u.now) units.now ≡ text.units
        → FindsFunctions text (programs_among (map instance_view instances.now)) (λ x. is_some (found called x))) }
{
    if has_functions(units) {
        return reached_from(alloc, types, units, instances);
    }
    Ok(Index::new(alloc))
}

/// The instances of programs of a text's configuration.
fn instances_of<'a>(
    alloc: Global,
    source: &'a Source,
) -> Result<Vec<ProgramInstance<'a>>, AllocError>
    ensures { IfOk result (λ instances. map instance_view instances.items
        ≡ instances_of (configuration_in (source_view source.now))) }
{
    match only_configuration(source) {
        Some(configuration) => instances_in(alloc, &configuration.resources),
        None => Ok(Vec::new(alloc)),
    }
}

/// How many slots a variable of the type takes; 4,097 if it takes more than 4,096.
fn slots_of<'a>(
    alloc: Global,
    sizes: &mut Sizes<'a>,
    declared: PlaceType<'a>,
) -> Result<usize, AllocError>
    ensures serves { OnOk result ((text : Declared) → ServesSizes sizes.old text → ServesSizes sizes.new text) }
    ensures slots { IfOk result (λ n. (text : Declared) → ServesSizes sizes.old text
        → is_within_depth MAX_TYPE_DEPTH text (place_type_view declared.entry) ≡ true
        → n ≡ capped_size (size (shape_of_type text (place_type_view declared.entry)))) }
{
    match sizes.size_of(alloc, declared)? {
        Some(size) => Ok(size),
        None => Ok(MAX_PATHS + 1),
    }
}

/// How many slots variables take; 4,097 if they take more than 4,096.
fn slots_of_all<'a>(
    alloc: Global,
    sizes: &mut Sizes<'a>,
    variables: &[Variable<'a>],
) -> Result<usize, AllocError>
    ensures serves { OnOk result ((text : Declared) → ServesSizes sizes.old text → ServesSizes sizes.new text) }
    ensures slots { IfOk result (λ n. (text : Declared) → ServesSizes sizes.old text
        → are_whole text (map variable_view variables.now) ≡ true
        → n ≡ capped_size (slots_taken text (map variable_view variables.now))) }
{
    let mut slots = 0;
    for variable in variables {
        let size = slots_of(alloc, sizes, variable.declared)?;
        slots = sum(slots, size);
    }
    Ok(slots)
}

/// The number of values; 0 if a layout has no room for them.
fn if_room(values: usize) -> usize
    ensures { result ≡ if_room values }
{
    if values > MAX_PATHS { 0 } else { values }
}

/// The number of values at the beginning of a call of a function; 0 if a layout has no room for them.
fn values_of_call<'a>(
    alloc: Global,
    sizes: &mut Sizes<'a>,
    unit: &'a Unit,
    returned: &'a SimpleType,
) -> Result<usize, AllocError>
    ensures serves { OnOk result ((text : Declared) → ServesSizes sizes.old text → ServesSizes sizes.new text) }
    ensures values { IfOk result (λ n. (text : Declared) → ServesSizes sizes.old text
        → are_whole text (result_of unit.now.name.name returned.now ∷ variables_of_blocks (unit_view unit.now).blocks)
        ≡ true → n ≡ values_of_call text returned.now (unit_view unit.now)) }
{
    let variables = variables_of_function(alloc, &unit.name.name, returned, &unit.blocks)?;
    let slots = slots_of_all(alloc, sizes, &variables)?;
    Ok(if_room(slots))
}

/// The same for a unit; 0 if it isn't a function, or one that is not called.
fn values_of_unit<'a>(
    alloc: Global,
    sizes: &mut Sizes<'a>,
    called: &Index<'a, ()>,
    unit: &'a Unit,
) -> Result<usize, AllocError>
    ensures serves { OnOk result ((text : Declared) → ServesSizes sizes.old text → ServesSizes sizes.new text) }
    ensures values { IfOk result (λ n. (text : Declared) → ServesSizes sizes.old text
        → is_whole_unit text (unit_view unit.now) ≡ true
        → n ≡ values_of_unit (λ x. is_some (found called.now x)) text (unit_view unit.now)) }
{
    match &unit.sort {
        UnitSort::Function(returned) => {
            if called.get(&unit.name.name).is_none() {
                return Ok(0);
            }
            let values = values_of_call(alloc, sizes, unit, returned)?;
            Ok(values)
        }
        UnitSort::FunctionBlock => Ok(0),
        UnitSort::Program => Ok(0),
    }
}

/// The number of values at the beginning of one call of each of the functions, in total; at most the greatest `usize`.
fn values_of_all<'a>(
    alloc: Global,
    sizes: &mut Sizes<'a>,
    units: &[&'a Unit],
    called: &Index<'a, ()>,
) -> Result<usize, AllocError>
    ensures { IfOk result (λ n. (text : Declared) → ServesSizes sizes.old text
        → list_all (is_whole_unit text) (map (λ u. unit_view u.now) units.now) ≡ true
        → n ≡ min (values_of_units (λ x. is_some (found called.now x)) text (map (λ u. unit_view u.now) units.now))
        (2 ^ 64 - 1)) }
{
    let mut values: usize = 0;
    for unit in units {
        let more = values_of_unit(alloc, sizes, called, unit)?;
        values = values.saturating_add(more);
    }
    Ok(values)
}

impl<'a> CalledFunctions<'a> {
    /// The functions that the programs of a text's configuration call, directly or through the functions and blocks
    /// that they call. The text is given by its tree in which each literal has its type.
    pub fn new(alloc: Global, source: &'a Source) -> Result<CalledFunctions<'a>, AllocError>
        ensures only { IfOk result (λ called. (x : List ℕ) → is_called called x ≡ true
            → IsCalled (source_view source.now) x) }
        ensures each { IfOk result (λ called. (x : List ℕ)
            → is_function (declared_in (source_view source.now)) x ≡ true → IsCalled (source_view source.now) x
            → is_called called x ≡ true) }
        ensures values { IfOk result (λ called. IsOrderlySource (source_view source.now)
            → value_count called ≡ min (values_called (is_called called) (source_view source.now)) (2 ^ 64 - 1)) }
        ensures programs { IfOk result (λ called. program_count called
            ≡ length (instances_of (configuration_in (source_view source.now)))) }
    {
        let instances = instances_of(alloc, source)?;
        let all = units_in(alloc, source)?;
        let mut sizes = Sizes::new(alloc, Types::new(alloc, source)?);
        let units = called_from(alloc, sizes.types(), &all, &instances)?;
        let values = values_of_all(alloc, &mut sizes, &all, &units)?;
        let programs = instances.len();
        Ok(CalledFunctions {
            units,
            values,
            programs,
        })
    }

    /// Whether a function is called.
    pub fn has(&self, function: &Name) -> bool
        ensures { result ≡ is_called self.now function.now }
    {
        self.units.get(function).is_some()
    }

    /// The number of values at the beginning of one call of each of the functions, in total.
    pub fn values(&self) -> usize
        ensures { result ≡ value_count self.now }
    {
        self.values
    }

    /// How many programs there are.
    pub fn programs(&self) -> usize
        ensures { result ≡ program_count self.now }
    {
        self.programs
    }
}
