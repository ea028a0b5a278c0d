//! Findings on fields, inputs and outputs that a type or block doesn't have (C1, C10).

use crate::finding::Finding;
use crate::near::Nearest;
use crate::site::Site;
use crate::spots::name_at;
use crate::type_names::word_name;
use st_rules::{BlockSide, TypeWord};
use st_types::{Field, Name, Section, TypeDefinition, Unit};
use std::alloc::AllocError;
use symbols::{StandardBlock, standard_block};

/// The members that a type or block has.
#[derive(Clone, Copy)]
enum Members<'a> {
    Fields(&'a [Field]),
    /// Those on a side of a standard block.
    Standard(StandardBlock, BlockSide),
    /// Those on a side of a block of the text.
    Own(&'a Unit, BlockSide),
}

/// The members of the type of a name, or those on a side of the block of the name.
fn members_of<'a>(site: &Site<'a>, owner: &Name, side: BlockSide) -> Option<Members<'a>> {
    if let Some(block) = standard_block(owner) {
        return Some(Members::Standard(block, side));
    }
    match (site.type_named(owner), site.unit_named(owner)) {
        (Some(declaration), _) => match &declaration.definition {
            TypeDefinition::Structure(fields) => Some(Members::Fields(fields)),
            _ => None,
        },
        (None, Some(unit)) => Some(Members::Own(unit, side)),
        (None, None) => None,
    }
}

/// The members of the type or block that a declaration names.
fn members_of_word<'a>(site: &Site<'a>, owner: TypeWord, side: BlockSide) -> Option<Members<'a>> {
    match owner {
        TypeWord::Named(place) => members_of(site, site.text.name_at(place)?, side),
        TypeWord::Elementary(_) | TypeWord::Array => None,
    }
}

fn sort_of(members: Members) -> &'static str {
    match members {
        Members::Fields(_) => "field",
        Members::Standard(_, BlockSide::Input) | Members::Own(_, BlockSide::Input) => "input",
        Members::Standard(_, BlockSide::Output) | Members::Own(_, BlockSide::Output) => "output",
    }
}

/// The inputs or the outputs of a standard block, as they are listed in a sentence.
fn standard_members(block: StandardBlock, side: BlockSide) -> &'static str {
    match (side, block) {
        (BlockSide::Input, StandardBlock::Sr) => "`S1`, `R`",
        (BlockSide::Input, StandardBlock::Rs) => "`S`, `R1`",
        (BlockSide::Input, StandardBlock::RTrig | StandardBlock::FTrig) => "`CLK`",
        (BlockSide::Input, StandardBlock::Ctu) => "`CU`, `R`, `PV`",
        (BlockSide::Input, StandardBlock::Ctd) => "`CD`, `LD`, `PV`",
        (BlockSide::Input, StandardBlock::Ctud) => "`CU`, `CD`, `R`, `LD`, `PV`",
        (BlockSide::Input, _) => "`IN`, `PT`",
        (BlockSide::Output, StandardBlock::Sr | StandardBlock::Rs) => "`Q1`",
        (BlockSide::Output, StandardBlock::RTrig | StandardBlock::FTrig) => "`Q`",
        (BlockSide::Output, StandardBlock::Ctu | StandardBlock::Ctd) => "`Q`, `CV`",
        (BlockSide::Output, StandardBlock::Ctud) => "`QU`, `QD`, `CV`",
        (BlockSide::Output, _) => "`Q`, `ET`",
    }
}

fn is_on(section: Section, side: BlockSide) -> bool {
    match (section, side) {
        (Section::Input(_), BlockSide::Input) => true,
        (Section::Output(_), BlockSide::Output) => true,
        _ => false,
    }
}

fn meet_side<'a>(nearest: &mut Nearest<'a>, unit: &'a Unit, side: BlockSide) {
    for block in &unit.blocks {
        if is_on(block.section, side) {
            for declaration in &block.declarations {
                nearest.meet_all(&declaration.names);
            }
        }
    }
}

fn meet_fields<'a>(nearest: &mut Nearest<'a>, fields: &'a [Field]) {
    for field in fields {
        nearest.meet(&field.name);
    }
}

/// A hint: the members of a standard block, or the one that the name at the place may have been meant for.
fn help_of<'a>(
    site: &Site<'a>,
    members: Members<'a>,
    word: &'a Name,
) -> Result<Option<String>, AllocError> {
    let mut nearest = Nearest::new(site.text.bytes, word);
    match members {
        Members::Fields(fields) => meet_fields(&mut nearest, fields),
        Members::Own(unit, side) => meet_side(&mut nearest, unit, side),
        Members::Standard(block, side) => {
            let (sort, list) = (sort_of(members), standard_members(block, side));
            return Ok(Some(format!(in site.text.alloc; "its {sort}s: {list}")?));
        }
    }
    nearest.help(site.text.alloc)
}

/// The finding on a name that is none of these members.
fn missing_member<'a>(
    site: &Site<'a>,
    owner: &str,
    members: Members<'a>,
) -> Result<Finding, AllocError> {
    let (sort, member) = (sort_of(members), site.spot.spelled());
    let help = match name_at(&site.spot) {
        Some(word) => help_of(site, members, word)?,
        None => None,
    };
    Ok(Finding {
        sentence: format!(in site.text.alloc; "`{owner}` has no {sort} `{member}`")?,
        help,
        place: None,
    })
}

/// The finding on a name that a type doesn't have as a field, or a block on this side.
pub fn no_such_member(
    site: &Site,
    owner: TypeWord,
    side: BlockSide,
) -> Result<Finding, AllocError> {
    let (name, member) = (word_name(&site.text, owner), site.spot.spelled());
    match members_of_word(site, owner, side) {
        Some(members) => missing_member(site, name, members),
        None => Ok(Finding::new(format!(in site.text.alloc;
            "{name} isn't a structure: it has no field `{member}`"
        )?)),
    }
}

/// The finding on an output that is given a value, or an input that is copied; its block has it on the other side.
pub fn other_side(site: &Site, block: TypeWord, side: BlockSide) -> Result<Finding, AllocError> {
    let (alloc, member, owner) = (
        site.text.alloc,
        site.spot.spelled(),
        word_name(&site.text, block),
    );
    let (sentence, help) = match side {
        BlockSide::Input => (
            format!(in alloc; "`{member}` is an output of `{owner}`")?,
            format!(in alloc; "copy an output with `{member} => variable`")?,
        ),
        BlockSide::Output => (
            format!(in alloc; "`{member}` is an input of `{owner}`")?,
            format!(in alloc; "set an input with `{member} := value`")?,
        ),
    };
    Ok(Finding::new(sentence).helped(help))
}
