//! Sizes of types: how many slots a variable of a type takes, capped above the number that a layout has room for.

ghost use Rattle.std.specs.Prelude.{◌≡◌, ◌+◌, ◌*◌, ℕ, IfNone, IfOk, IfSome, OnOk, Some, false, option_map, true};
ghost use Rattle.st_rules.specs.declared.limits.TheConstants.{MAX_TYPE_DEPTH};
ghost use Rattle.st_types.specs.declared.data_type.VariableType.TheVariants.{Simple};
ghost use Rattle.st_meaning.specs.NameTypes.{Declared};
ghost use Rattle.symbols.specs.PlaceTypes.{place_type_view};
ghost use Rattle.layout.specs.Shapes.{size};
ghost use Rattle.layout.specs.Types.{is_within_depth, shape_of_type};
ghost use Rattle.layout.specs.Compositions.{ServesTypes, composition_view};
ghost use Rattle.layout.specs.Sizes.{IsSized, KnowsSizes, ServesSizes, capped_size, name_in};
ghost use Rattle.layout.specs.Slots.{own_size};

use crate::compositions::{Composition, Types};
use crate::parts::parts_of;
use crate::sites::Site;
use st_decl::elements_of_array;
use st_rules::limits::MAX_TYPE_DEPTH;
use st_types::limits::MAX_PATHS;
use st_types::{Identifier, SimpleType};
use std::alloc::{AllocError, Global};
use symbols::{Index, PlaceType};

/// The sum of two sizes, capped.
pub fn sum(a: usize, b: usize) -> usize
    ensures { result ≡ capped_size (a + b) }
{
    a.saturating_add(b).min(MAX_PATHS + 1)
}

/// The size of `count` elements, capped.
pub fn product(count: u128, size: usize) -> usize
    ensures { result ≡ capped_size (count * size) }
{
    count
        .saturating_mul(size as u128)
        .min(MAX_PATHS as u128 + 1) as usize
}

/// The size of a whole without parts.
fn own_size(composed: Composition) -> usize
    ensures { result ≡ own_size (composition_view composed.entry) }
{
    match composed {
        Composition::Kind(_) => 1,
        Composition::Elements(_) => 0,
        Composition::Fields(_) => 0,
        Composition::Block(_) => 0,
        Composition::Standard(_) => 0,
        Composition::Nothing => 0,
    }
}

fn name_of_simple(declared: &SimpleType) -> Option<&Identifier>
    ensures { option_map (λ x. x.now) result ≡ name_in (Simple declared.now) }
{
    match declared {
        SimpleType::Elementary(_, _) => None,
        SimpleType::Named(name) => Some(name),
    }
}

/// The name of a type that is a name.
fn name_of<'a>(declared: PlaceType<'a>) -> Option<&'a Identifier>
    ensures { option_map (λ x. x.now) result ≡ name_in (place_type_view declared.entry) }
{
    match declared {
        PlaceType::Simple(simple) => name_of_simple(simple),
        PlaceType::Array(_) => None,
        PlaceType::Standard(_) => None,
    }
}

/// The size of a type whose name was looked up before.
fn known_size<'a>(known: &Index<'a, usize>, declared: PlaceType<'a>) -> Option<usize>
    ensures { IfSome result (λ size. (text : Declared) → KnowsSizes text known.now
        → IsSized text (place_type_view declared.entry) size) }
{
    match name_of(declared) {
        Some(name) => known.find(&name.name),
        None => None,
    }
}

/// Keeps the size of a type that has a name.
fn remember<'a>(
    known: &mut Index<'a, usize>,
    declared: PlaceType<'a>,
    size: usize,
) -> Result<(), AllocError>
    ensures { OnOk result ((text : Declared) → KnowsSizes text known.old
        → IsSized text (place_type_view declared.entry) size → KnowsSizes text known.new) }
{
    if let Some(name) = name_of(declared) {
        known.add(&name.name, size)?;
    }
    Ok(())
}

/// The size of a type, if it is at most this deep.
fn size_within<'a>(
    depth: usize,
    alloc: Global,
    known: &mut Index<'a, usize>,
    types: &Types<'a>,
    declared: PlaceType<'a>,
) -> Result<Option<usize>, AllocError>
    ensures known { OnOk result ((text : Declared) → ServesTypes types.now text → KnowsSizes text known.old
        → KnowsSizes text known.new) }
    ensures size { IfOk result (λ answer. IfSome answer (λ size. (text : Declared) → ServesTypes types.now text
        → KnowsSizes text known.old → IsSized text (place_type_view declared.entry) size)) }
    ensures deep { IfOk result (λ answer. IfNone answer ((text : Declared) → ServesTypes types.now text
        → KnowsSizes text known.old → is_within_depth depth text (place_type_view declared.entry) ≡ false)) }
{
    if depth == 0 {
        return Ok(None);
    }
    if let Some(size) = known_size(known, declared) {
        return Ok(Some(size));
    }
    let composed = types.composition_of(declared);
    if let Composition::Elements(array) = composed {
        let element = PlaceType::Simple(&array.element);
        let Some(size) = size_within(depth - 1, alloc, known, types, element)? else {
            return Ok(None);
        };
        let size = product(elements_of_array(array), size);
        remember(known, declared, size)?;
        return Ok(Some(size));
    }
    let whole = Site {
        declared,
        initial: None,
        retained: false,
    };
    let mut total = own_size(composed);
    let parts = parts_of(alloc, whole, composed)?;
    for part in &parts {
        let Some(size) = size_within(depth - 1, alloc, known, types, part.site.declared)? else {
            return Ok(None);
        };
        total = sum(total, size);
    }
    remember(known, declared, total)?;
    Ok(Some(total))
}

/// The sizes of a text's types, each found once.
pub struct Sizes<'a> {
    types: Types<'a>,
    known: Index<'a, usize>,
}

impl Drop for Sizes<'_> {
    fn drop(self) {
        let Self { types: _, known: _ } = self;
    }
}

impl<'a> Sizes<'a> {
    pub fn new(alloc: Global, types: Types<'a>) -> Sizes<'a>
        ensures { (text : Declared) → ServesTypes types.entry text → ServesSizes result text }
    {
        Sizes {
            types,
            known: Index::new(alloc),
        }
    }

    /// The text's types.
    pub fn types(&self) -> &Types<'a>
        ensures { result.now ≡ self.now.types }
    {
        &self.types
    }

    /// How many slots a variable of the type takes; 4,097 if it takes more than 4,096. For a type that is more than 64
    /// deep, which no text that breaks no rule has, nothing is promised, and the answer may be None.
    pub fn size_of(
        &mut self,
        alloc: Global,
        declared: PlaceType<'a>,
    ) -> Result<Option<usize>, AllocError>
        ensures serves { OnOk result ((text : Declared) → ServesSizes self.old text → ServesSizes self.new text) }
        ensures size { IfOk result (λ answer. (text : Declared) → ServesSizes self.old text
            → is_within_depth MAX_TYPE_DEPTH text (place_type_view declared.entry) ≡ true
            → answer ≡ Some (capped_size (size (shape_of_type text (place_type_view declared.entry))))) }
    {
        let answer = size_within(
            MAX_TYPE_DEPTH,
            alloc,
            &mut self.known,
            &self.types,
            declared,
        )?;
        Ok(answer)
    }
}
