//! The enumerated types of a text and their values by names.

ghost use Rattle.std.specs.Prelude.{◌≡◌, ◌∷◌, ◌++◌, ◌+◌, ◌&&◌, [], List, ℕ, Option, Some, None, IfOk, OnOk, map};
ghost use Rattle.std.specs.Prelude.{option_map, if◌then◌else◌, not, is_some, length, bytes_eq};
ghost use Rattle.st_types.specs.declared.kind.Kind.TheVariants.{Enumerated};
ghost use Rattle.st_types.specs.Declarations as tree;
ghost use Rattle.st_types.specs.DeclarationViews.{type_declaration_view};
ghost use Rattle.st_types.specs.declared.data_type.VariableType.TheVariants as types;
ghost use Rattle.st_meaning.specs.NameTypes.{Declared, kind_among};
ghost use Rattle.st_meaning.specs.Enumerations.{enumerations_of, enumeration_named, kind_of_enumeration, place_among};
ghost use Rattle.st_meaning.specs.Enumerations.{member_of_type};
ghost use Rattle.st_meaning.specs.Enumerations as meaning;
ghost use Rattle.st_rules.specs.Readings.{reading_of, reading_of_name, reading_written};
ghost use Rattle.symbols.specs.Found.{found, or_found};
ghost use Rattle.symbols.specs.Enumerated.{member_view, reading_view, member_at, listed, IsListedAs, HasEnumerations};

use crate::index::Index;
use st_types::{
    EnumeratedValue, Identifier, Kind, Name, SimpleType, TypeDeclaration, TypeDefinition,
    VariableType,
};
use std::alloc::{AllocError, Global};

/// A value of an enumerated type: its type, and its place among the names.
#[derive(Clone, Copy)]
pub struct Member {
    pub kind: Kind,
    pub place: usize,
}

/// The meaning of a value as a text writes it.
#[derive(Clone, Copy)]
pub enum Reading {
    Value(Member),
    /// No enumerated type has the name.
    Unknown,
    /// Several have it.
    Ambiguous,
}

/// An enumerated type with the places of its names; if several have one name, the first.
#[derive(Drop)]
struct Enumeration<'a> {
    kind: Kind,
    places: Index<'a, usize>,
}

/// The meanings of the names of values: the first that has each name, and which names a later type has again.
#[derive(Drop)]
struct ValueNames<'a> {
    first: Index<'a, Member>,
    again: Index<'a, ()>,
}

/// The enumerated types of a text, and their values.
pub struct EnumeratedNames<'a> {
    types: Index<'a, Enumeration<'a>>,
    values: ValueNames<'a>,
    /// How many enumerated types there are, those of one name too.
    count: u32,
}

impl Drop for EnumeratedNames<'_> {
    fn drop(self) {
        let Self {
            types: _,
            values: _,
            count: _,
        } = self;
    }
}

impl<'a> ValueNames<'a> {
    /// Adds a value of a type that has no other of this name.
    fn add(&mut self, name: &'a Name, member: Member) -> Result<(), AllocError>
        ensures { OnOk result ((q : List ℕ) (ms : List meaning.Member) → IsListedAs self.old q ms
            → IsListedAs self.new q (if bytes_eq q name.now then ms ++ member_view member ∷ [] else ms)) }
    {
        if self.first.find(name).is_some() {
            self.again.add(name, ())
        } else {
            self.first.add(name, member)
        }
    }
}

/// Adds a value to its type and to all values, if the type has no other of its name.
fn add_value<'a>(
    places: &mut Index<'a, usize>,
    values: &mut ValueNames<'a>,
    name: &'a Name,
    member: Member,
) -> Result<(), AllocError>
    ensures places { OnOk result ((q : List ℕ) → found places.new q
        ≡ or_found (found places.old q) (if bytes_eq q name.now then Some member.place else None)) }
    ensures values { OnOk result ((q : List ℕ) (ms : List meaning.Member) → IsListedAs values.old q ms
        → IsListedAs values.new q (if bytes_eq q name.now && not (is_some (found places.old q))
        then ms ++ member_view member ∷ [] else ms)) }
{
    if places.find(name).is_some() {
        return Ok(());
    }
    places.add(name, member.place)?;
    values.add(name, member)
}

/// Adds the names of a type to all values, and gives their places.
fn add_names<'a>(
    alloc: Global,
    values: &mut ValueNames<'a>,
    kind: Kind,
    names: &'a [Identifier],
) -> Result<Index<'a, usize>, AllocError>
    ensures places { IfOk result (λ places. (q : List ℕ) → found places q ≡ place_among names.now q) }
    ensures values { OnOk result ((q : List ℕ) (ms : List meaning.Member) → IsListedAs values.old q ms
        → IsListedAs values.new q (ms ++ listed (option_map (member_at kind) (place_among names.now q)))) }
{
    let mut places = Index::new(alloc);
    for (place, value) in names.iter().enumerate() {
        let member = Member { kind, place };
        add_value(&mut places, values, &value.name, member)?;
    }
    Ok(places)
}

/// The enumerated type of this number, with these names. More names than 16 bits hold count as out of memory.
fn kind_of(names: &[Identifier], number: u32) -> Result<Kind, AllocError>
    ensures { IfOk result (λ kind. kind ≡ Enumerated (length names.now) number) }
{
    match u16::try_from(names.len()) {
        Ok(names) => Ok(Kind::Enumerated { names, number }),
        Err(_) => Err(AllocError),
    }
}

fn one_more(count: u32) -> Result<u32, AllocError>
    ensures { IfOk result (λ n. n ≡ count + 1) }
{
    match count.checked_add(1) {
        Some(more) => Ok(more),
        None => Err(AllocError),
    }
}

impl<'a> EnumeratedNames<'a> {
    /// Adds an enumerated type after the others.
    fn add_enumeration(
        &mut self,
        alloc: Global,
        name: &'a Name,
        names: &'a [Identifier],
    ) -> Result<(), AllocError>
        ensures { OnOk result ((es : List meaning.Enumeration) → HasEnumerations self.old es
            → HasEnumerations self.new
            (es ++ record { number = length es; name = name.now; names = names.now } ∷ [])) }
    {
        let kind = kind_of(names, self.count)?;
        let count = one_more(self.count)?;
        let places = add_names(alloc, &mut self.values, kind, names)?;
        self.types.add(name, Enumeration { kind, places })?;
        self.count = count;
        Ok(())
    }

    /// Adds a type after the others, if it is an enumerated one.
    fn add(&mut self, alloc: Global, declared: &'a TypeDeclaration) -> Result<(), AllocError>
        ensures { OnOk result ((ts : List tree.TypeDeclaration) → HasEnumerations self.old (enumerations_of ts)
            → HasEnumerations self.new (enumerations_of (ts ++ type_declaration_view declared.now ∷ []))) }
    {
        match &declared.definition {
            TypeDefinition::Array(_) => Ok(()),
            TypeDefinition::Structure(_) => Ok(()),
            TypeDefinition::Enumeration(names) => {
                self.add_enumeration(alloc, &declared.name.name, names)
            }
        }
    }

    /// The enumerated types among these types. A type that has more names than its rule allows may count as too much
    /// for the memory.
    pub fn new(
        alloc: Global,
        types: &[&'a TypeDeclaration],
    ) -> Result<EnumeratedNames<'a>, AllocError>
        ensures { IfOk result (λ names.
            HasEnumerations names (enumerations_of (map (λ t. type_declaration_view t.now) types.now))) }
    {
        let mut names = EnumeratedNames {
            types: Index::new(alloc),
            values: ValueNames {
                first: Index::new(alloc),
                again: Index::new(alloc),
            },
            count: 0,
        };
        for declaration in types {
            names.add(alloc, declaration)?;
        }
        Ok(names)
    }

    /// The enumerated type of a name.
    pub fn kind_named(&self, name: &Name) -> Option<Kind>
        ensures { (es : List meaning.Enumeration) → HasEnumerations self.now es
            → result ≡ option_map kind_of_enumeration (enumeration_named es name.now) }
    {
        match self.types.get(name) {
            Some(enumeration) => Some(enumeration.kind),
            None => None,
        }
    }

    /// The type, if it is elementary or enumerated.
    pub fn kind_of_simple(&self, declared: &SimpleType) -> Option<Kind>
        ensures { (ts : List tree.TypeDeclaration) → HasEnumerations self.now (enumerations_of ts)
            → result ≡ kind_among ts (types.Simple declared.now) }
    {
        match declared {
            SimpleType::Elementary(kind, _) => Some(*kind),
            SimpleType::Named(name) => self.kind_named(&name.name),
        }
    }

    /// The type, if it is elementary or enumerated.
    pub fn kind_of_type(&self, declared: &VariableType) -> Option<Kind>
        ensures { (ts : List tree.TypeDeclaration) → HasEnumerations self.now (enumerations_of ts)
            → result ≡ kind_among ts declared.now }
    {
        match declared {
            VariableType::Simple(simple) => self.kind_of_simple(simple),
            VariableType::Array(_) => None,
        }
    }

    /// The meaning of a name alone.
    pub fn reading_of_name(&self, name: &Name) -> Reading
        ensures { (text : Declared) → HasEnumerations self.now (enumerations_of text.types)
            → reading_view result ≡ reading_of_name text name.now }
    {
        match self.values.first.find(name) {
            None => Reading::Unknown,
            Some(member) => {
                if self.values.again.find(name).is_some() {
                    Reading::Ambiguous
                } else {
                    Reading::Value(member)
                }
            }
        }
    }

    /// The meaning of a name of a type.
    fn reading_of_type(&self, type_name: &Name, name: &Name) -> Reading
        ensures { (text : Declared) → HasEnumerations self.now (enumerations_of text.types)
            → reading_view result ≡ reading_of (member_of_type text.types type_name.now name.now) }
    {
        let Some(enumeration) = self.types.get(type_name) else {
            return Reading::Unknown;
        };
        match enumeration.places.find(name) {
            Some(place) => Reading::Value(Member {
                kind: enumeration.kind,
                place,
            }),
            None => Reading::Unknown,
        }
    }

    /// The meaning of a name alone, or of one with its type.
    pub fn reading_written(&self, value: &EnumeratedValue) -> Reading
        ensures { (text : Declared) → HasEnumerations self.now (enumerations_of text.types)
            → reading_view result ≡ reading_written text value.now }
    {
        match &value.type_name {
            Some(type_name) => self.reading_of_type(type_name, &value.name),
            None => self.reading_of_name(&value.name),
        }
    }
}
