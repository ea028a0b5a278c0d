//! A place of a text at which a rule is broken.

use crate::finding::Finding;
use crate::position::position_of;
use crate::spelling::Text;
use crate::spot::Spot;
use st_decl::{types_in, units_in};
use st_meaning::lookup::is_named;
use st_types::{Name, TypeDeclaration, Unit};
use std::alloc::AllocError;

/// A place at which a rule is broken, with the types and units of its text.
#[derive(Drop)]
pub struct Site<'a> {
    pub text: Text<'a>,
    pub spot: Spot<'a>,
    pub types: Vec<&'a TypeDeclaration>,
    pub units: Vec<&'a Unit>,
}

impl<'a> Site<'a> {
    pub fn new(text: Text<'a>, place: usize) -> Result<Site<'a>, AllocError> {
        let types = types_in(text.alloc, text.source)?;
        let units = units_in(text.alloc, text.source)?;
        let spot = Spot::new(text.bytes, text.tokens, place);
        Ok(Site {
            text,
            spot,
            types,
            units,
        })
    }

    /// The last unit that begins before the place.
    pub fn unit(&self) -> Option<&'a Unit> {
        let mut found: Option<&'a Unit> = None;
        for unit in &self.units {
            if unit.name.place < self.spot.place {
                found = Some(*unit);
            }
        }
        found
    }

    /// The type of a name.
    pub fn type_named(&self, name: &Name) -> Option<&'a TypeDeclaration> {
        for declaration in &self.types {
            if is_named(name, &declaration.name) {
                return Some(*declaration);
            }
        }
        None
    }

    /// The unit of a name.
    pub fn unit_named(&self, name: &Name) -> Option<&'a Unit> {
        for unit in &self.units {
            if is_named(name, &unit.name) {
                return Some(*unit);
            }
        }
        None
    }

    /// The line of a place.
    pub fn line_of(&self, place: usize) -> usize {
        position_of(self.text.bytes, place).line
    }

    /// The finding whose sentence has the word at the place as its subject.
    pub fn says(&self, predicate: &str) -> Result<Finding, AllocError> {
        let word = self.spot.spelled();
        Ok(Finding::new(format!(in self.text.alloc; "`{word}` {predicate}")?))
    }
}
