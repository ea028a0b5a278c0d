//! Findings on broken rules on names, types and declarations (C1 to C11, C13), by the reasons why they are broken.

use crate::arguments::argument_count;
use crate::finding::Finding;
use crate::initials::{fields_for_other, instance_with_value, list_for_other};
use crate::labels::{label_type, overlap, reversed_label};
use crate::limits::{long_list, out_of_range, priority_too_great, too_deep, wrong_bounds};
use crate::members::{no_such_member, other_side};
use crate::mismatches::mismatch;
use crate::misused::{ambiguous, has_parts, not_array, not_control, not_instance, not_type};
use crate::operators::{wrong_operand, wrong_operands};
use crate::site::Site;
use crate::taken::{declared_before, name_of_unit, standard_name};
use crate::unknown::undeclared;
use st_lex::{Keyword, TokenKind};
use st_rules::{BlockSide, Reason};
use std::alloc::AllocError;

fn no_instance_allowed(site: &Site) -> Result<Finding, AllocError> {
    let help = match site.spot.last() {
        Some(TokenKind::Keyword(Keyword::Of)) => {
            "an array has no instances: declare each one with a name of its own"
        }
        _ => "declare instances in VAR of a program or function block",
    };
    site.says("is a function block: an instance isn't allowed here")?
        .with_help(site.text.alloc, help)
}

fn external_constant_assigned(site: &Site) -> Result<Finding, AllocError> {
    site.says("is declared VAR_EXTERNAL CONSTANT: it can't be assigned")?
        .with_help(
            site.text.alloc,
            "declare a global that is neither CONSTANT nor an input in VAR_EXTERNAL",
        )
}

fn part_of_instance_assigned(site: &Site) -> Result<Finding, AllocError> {
    site.says("is an instance: its outputs can't be assigned from outside")
}

fn retained_address(site: &Site) -> Result<Finding, AllocError> {
    site.says("has an address and is declared RETAIN")?
        .with_help(
            site.text.alloc,
            "declare it in a VAR_GLOBAL block without RETAIN",
        )
}

/// The finding on a rule that is broken for a reason at the place.
pub fn finding_of(site: &Site, reason: Reason) -> Result<Finding, AllocError> {
    match reason {
        Reason::Undeclared => undeclared(site),
        Reason::NoMember(owner) => no_such_member(site, owner, BlockSide::Output),
        Reason::DeclaredBefore(first) => declared_before(site, first),
        Reason::StandardName => standard_name(site),
        Reason::NameOfUnit(place) => name_of_unit(site, place),
        Reason::Mismatch(demand, given) => mismatch(site, demand, given),
        Reason::WrongOperand(operator, operand) => wrong_operand(site, operator, operand),
        Reason::WrongOperands(operator, left, right) => wrong_operands(site, operator, left, right),
        Reason::NotArray(given) => not_array(site, given),
        Reason::Ambiguous => ambiguous(site),
        Reason::NotType => not_type(site),
        Reason::NoInstanceAllowed => no_instance_allowed(site),
        Reason::HasParts => has_parts(site),
        Reason::InstanceWithValue => instance_with_value(site),
        Reason::ListForOther(given) => list_for_other(site, given),
        Reason::FieldsForOther(given) => fields_for_other(site, given),
        Reason::NotInstance(given) => not_instance(site, given),
        Reason::NotControl => not_control(site),
        Reason::LabelType(selector, label) => label_type(site, selector, label),
        Reason::OutOfRange(kind) => out_of_range(site, kind),
        Reason::PriorityTooGreat => priority_too_great(site),
        Reason::InputAssigned => site.says("is an input: it can't be assigned"),
        Reason::ConstantAssigned => site.says("is a constant: it can't be assigned"),
        Reason::ExternalConstantAssigned => external_constant_assigned(site),
        Reason::ControlAssigned => site.says("controls an enclosing FOR: it can't be assigned"),
        Reason::PartOfInstanceAssigned => part_of_instance_assigned(site),
        Reason::ContainsItself | Reason::TooDeep => too_deep(site),
        Reason::ReversedLabel(bounds) => reversed_label(site, bounds),
        Reason::Overlap(label, other, place) => overlap(site, label, other, place),
        Reason::WrongBounds(bounds) => wrong_bounds(site, bounds),
        Reason::LongList(given, room) => long_list(site, given, room),
        Reason::ExitOutsideLoop => site.says("is outside a loop"),
        Reason::ArgumentCount(given, taken) => argument_count(site, given, taken),
        Reason::ArgumentGivenBefore => site.says("is given twice"),
        Reason::NoSuchArgument(block, side) => no_such_member(site, block, side),
        Reason::OtherSide(block, side) => other_side(site, block, side),
        Reason::RetainedAddress => retained_address(site),
        Reason::SurplusName => site.says("is one name too many for an enumerated type"),
    }
}
