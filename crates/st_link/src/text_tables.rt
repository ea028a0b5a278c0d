//! The meanings of the names of a text, whatever unit has them.

ghost use Rattle.std.specs.Prelude.{◌≡◌, ◌≤◌, List, ℕ, map, None, option_and_then, option_map, IfOk, true};
ghost use Rattle.st_types.specs.declared.limits.TheConstants.{MAX_PATHS};
ghost use Rattle.st_types.specs.SourceViews.{source_view};
ghost use Rattle.st_types.specs.declared.data_type.SimpleType.TheVariants.{Named};
ghost use Rattle.st_types.specs.declared.data_type.VariableType.TheVariants as types;
ghost use Rattle.st_meaning.specs.NameTypes.{Declared, declared_in, unit_named};
ghost use Rattle.st_meaning.specs.Scopes.{block_named};
ghost use Rattle.st_meaning.specs.StandardBlocks.{block_of};
ghost use Rattle.symbols.specs.Agreeing.{Agree};
ghost use Rattle.symbols.specs.Found.{found};
ghost use Rattle.symbols.specs.PlaceTypes.{place_type_view};
ghost use Rattle.layout.specs.Types.{instance_of, own_block_type};
ghost use Rattle.layout.specs.Sizes.{capped_size};
ghost use Rattle.slot_trees.specs.SlotTrees.{absolute};
ghost use Rattle.slot_trees.specs.Tables.{named_in};
ghost use Rattle.slot_trees.specs.TextNumbers.{numbers_of};
ghost use Rattle.slot_trees.specs.StatementViews.{block_code_view};
ghost use Rattle.st_link.specs.Shapes.{ServesShapes};
ghost use Rattle.st_link.specs.BodyTables.{IsSymbol};
ghost use Rattle.st_link.specs.FirstSlots.{slots_taken, symbol_among};
ghost use Rattle.st_link.specs.LinkVariables.{LinkVariable, are_whole, variable_view};
ghost use Rattle.st_link.specs.Tables.{IsCode, ServesLinks, has_some, instances_in};

use crate::body_table::LinkSymbol;
use crate::numbers::{Numbers, numbers_in};
use crate::shape_tables::ShapeTables;
use crate::unit_names::add_variables;
use crate::variables::Variable;
use layout::Types;
use slot_trees::{Anchor, BlockCode};
use st_types::{Identifier, SimpleType, Source, UnitSort};
use std::alloc::{AllocError, Global};
use symbols::{Index, PlaceType, TextNames, standard_block};

/// The types and units of a text, the numbers of its functions and blocks, and its globals.
pub struct TextTables<'a> {
    pub names: TextNames<'a>,
    pub types: Types<'a>,
    pub shapes: ShapeTables<'a>,
    pub functions: Index<'a, usize>,
    pub blocks: Index<'a, usize>,
    pub globals: Index<'a, LinkSymbol<'a>>,
    /// How many slots the globals take; 4,097 if they are more than 4,096.
    pub global_slots: usize,
}

impl Drop for TextTables<'_> {
    fn drop(self) {
        let Self {
            names: _,
            types: _,
            shapes: _,
            functions: _,
            blocks: _,
            globals: _,
            global_slots: _,
        } = self;
    }
}

/// The meanings of the names of globals, and how many slots the globals take; 4,097 if they are more than 4,096.
struct Globals<'a> {
    symbols: Index<'a, LinkSymbol<'a>>,
    slots: usize,
}

/// The globals of a text, which are at the front of its layout.
fn globals_at<'a>(
    alloc: Global,
    shapes: &ShapeTables<'a>,
    variables: &[Variable<'a>],
) -> Result<Globals<'a>, AllocError>
    ensures symbols { IfOk result (λ globals. (text : Declared) (x : List ℕ) → ServesShapes shapes.now text
        → are_whole text (map variable_view variables.now) ≡ true
        → slots_taken text (map variable_view variables.now) ≤ MAX_PATHS → Agree (IsSymbol text)
        (found globals.symbols x) (symbol_among text (absolute 0) (map variable_view variables.now) x)) }
    ensures slots { IfOk result (λ globals. (text : Declared) → ServesShapes shapes.now text
        → are_whole text (map variable_view variables.now) ≡ true
        → globals.slots ≡ capped_size (slots_taken text (map variable_view variables.now))) }
{
    let mut symbols = Index::new(alloc);
    let hidden = Index::new(alloc);
    let first = Anchor::Absolute(0);
    let slots = add_variables(shapes, &mut symbols, &hidden, first, variables)?;
    Ok(Globals { symbols, slots })
}

impl<'a> TextTables<'a> {
    /// The tables of a text with these globals.
    pub fn new(
        alloc: Global,
        source: &'a Source,
        variables: &[Variable<'a>],
    ) -> Result<TextTables<'a>, AllocError>
        ensures serves { IfOk result (λ tables.
            are_whole (declared_in (source_view source.now)) (map variable_view variables.now) ≡ true
            → slots_taken (declared_in (source_view source.now)) (map variable_view variables.now) ≤ MAX_PATHS
            → ServesLinks tables (declared_in (source_view source.now)) (map variable_view variables.now)) }
        ensures slots { IfOk result (λ tables.
            are_whole (declared_in (source_view source.now)) (map variable_view variables.now) ≡ true
            → tables.global_slots
            ≡ capped_size (slots_taken (declared_in (source_view source.now)) (map variable_view variables.now))) }
    {
        let shapes = ShapeTables::new(alloc, source)?;
        let names = TextNames::new(alloc, source)?;
        let types = Types::new(alloc, source)?;
        let Globals { symbols, slots } = globals_at(alloc, &shapes, variables)?;
        let Numbers { functions, blocks } = numbers_in(alloc, source)?;
        Ok(TextTables {
            names,
            types,
            shapes,
            functions,
            blocks,
            globals: symbols,
            global_slots: slots,
        })
    }

    /// The block of this name that the text declares, if no standard one has it.
    fn own_block(&self, name: &Identifier) -> Option<BlockCode>
        ensures { (text : Declared) (globals : List LinkVariable) → ServesLinks self.now text globals
            → block_of name.now.name ≡ None
            → IsCode text result (own_block_type (unit_named text.units name.now.name)) }
    {
        let unit = self.names.unit_named(&name.name)?;
        match unit.sort {
            UnitSort::Function(_) => None,
            UnitSort::FunctionBlock => Some(BlockCode::Own(self.blocks.find(&unit.name.name)?)),
            UnitSort::Program => None,
        }
    }

    /// The block of a type's name, if a variable of the type is an instance.
    fn block_named(&self, name: &Identifier) -> Option<BlockCode>
        ensures { (text : Declared) (globals : List LinkVariable) → ServesLinks self.now text globals
            → IsCode text result (instance_of text (types.Simple (Named name.now))) }
    {
        if self.names.type_named(&name.name).is_some() {
            return None;
        }
        match standard_block(&name.name) {
            Some(block) => Some(BlockCode::Standard(block)),
            None => self.own_block(name),
        }
    }

    fn block_of_simple(&self, declared: &SimpleType) -> Option<BlockCode>
        ensures { (text : Declared) (globals : List LinkVariable) → ServesLinks self.now text globals
            → IsCode text result (instance_of text (types.Simple declared.now)) }
    {
        match declared {
            SimpleType::Elementary(_, _) => None,
            SimpleType::Named(name) => self.block_named(name),
        }
    }

    /// The block of which a variable of the type is an instance.
    fn block_of_type(&self, declared: PlaceType<'a>) -> Option<BlockCode>
        ensures { (text : Declared) (globals : List LinkVariable) → ServesLinks self.now text globals
            → IsCode text result (instance_of text (place_type_view declared.entry)) }
    {
        match declared {
            PlaceType::Simple(simple) => self.block_of_simple(simple),
            PlaceType::Array(_) => None,
            PlaceType::Standard(_) => None,
        }
    }

    /// The blocks of the instances among variables.
    pub fn codes_of(
        &self,
        alloc: Global,
        variables: &[Variable<'a>],
    ) -> Result<Index<'a, BlockCode>, AllocError>
        ensures { IfOk result (λ codes. (text : Declared) (globals : List LinkVariable) (x : List ℕ)
            → ServesLinks self.now text globals → option_map block_code_view (found codes x)
            ≡ option_and_then (named_in (numbers_of text).blocks)
            (block_named (instances_in text (map variable_view variables.now)) x)) }
    {
        let mut codes = Index::new(alloc);
        for variable in variables {
            if let Some(code) = self.block_of_type(variable.declared) {
                codes.add(variable.name, code)?;
            }
        }
        Ok(codes)
    }

    /// Whether any of the variables is an instance.
    pub fn has_instances(&self, variables: &[Variable<'a>]) -> bool
        ensures { (text : Declared) (globals : List LinkVariable) → ServesLinks self.now text globals
            → result ≡ has_some (instances_in text (map variable_view variables.now)) }
    {
        for variable in variables {
            if self.block_of_type(variable.declared).is_some() {
                return true;
            }
        }
        false
    }
}
