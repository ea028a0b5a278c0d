//! Layouts of texts.

ghost use Rattle.std.specs.Prelude.{◌≡◌, ◌≤◌, IfErr, IfOk, length, map, option_map, slice_get};
ghost use Rattle.st_types.specs.declared.limits.TheConstants.{MAX_PATHS};
ghost use Rattle.st_types.specs.SourceViews.{source_view};
ghost use Rattle.st_types.specs.Sources as trees;
ghost use Rattle.st_meaning.specs.ResolvedUnits.{resolved_source};
ghost use Rattle.st_rules.specs.Rules.{IsWellTyped};
ghost use Rattle.st_meaning.specs.Layouts.{layout_text};
ghost use Rattle.layout.specs.TextLayouts.{instances_of_text, slots_of_text};
ghost use Rattle.layout.specs.Growth.{Exceeds};
ghost use Rattle.layout.specs.Indexed.{facts_of, is_retained, path_numbered, slot_number};
ghost use Rattle.layout.specs.KeptLayouts.{IsLayoutOf, inputs_among, variables_among};
ghost use Rattle.layout.specs.TypeNames.{names_in_text};

use crate::definition_laws::leaves_of_shapes;
use crate::enumerations::enumerations_in;
use crate::laws::accepted_texts_declare_names_once;
use crate::layout_error::LayoutError;
use crate::layout_slots::slots_in;
use crate::slot_index::{indexed, plan_inputs, plan_variables};
use crate::slots::SlotFacts;
use crate::text_lines::layout_text;
use indexmap::IndexMap;
use st_meaning::{PlanInput, PlanVariable};
use st_types::{Path, Source};
use std::alloc::{AllocError, Global};
use std::marker::Model;

/// The layout of a text: a slot for each elementary part of its variables, at most 4,096. Contracts see the slots, and
/// the layout text of a record.
///
/// The globals come in their order, inputs among them, then by resources the variables of each program's instance. A
/// slot has a number from 0, and each path one slot.
pub struct Layout {
    /// The facts of the slot of each path, in the order of the slots.
    slots: IndexMap<Path, SlotFacts>,
    /// A line `PATH TYPE` with LF for each retained slot.
    text: Vec<u8>,
}

impl Drop for Layout {
    fn drop(self) {
        let Self { slots: _, text: _ } = self;
    }
}

impl Model for Layout {
    ghost use Rattle.layout.specs.Indexed.{LayoutView};

    ghost Value = { LayoutView };

    ghost use Rattle.std.specs.Prelude.{◌≤◌, map};
    ghost use Rattle.indexmap.specs.IndexMap.{index_map_len};
    ghost use Rattle.st_types.specs.declared.limits.TheConstants.{MAX_PATHS};
    ghost use Rattle.layout.specs.Indexed.{slot_of_entry};

    ghost view = { λ l. record { slots = map slot_of_entry l.slots.entries; text = l.text.items } };

    ghost invariant = { λ l. index_map_len l.slots ≤ MAX_PATHS };
}

impl Layout {
    /// The layout of a text that breaks no rule, from its tree in which each literal has its type.
    ///
    /// It has exactly the paths of the text in order, with their types, their initial values and their retention. It is
    /// refused (M1) exactly when these are more than 4,096, or when the text has more than 4,096 instances of function
    /// blocks at every depth; the expansion stops there. This says nothing about the tree of another text, nor how long
    /// that takes.
    pub fn build(alloc: Global, source: &Source) -> Result<Layout, LayoutError>
        ensures ok { IfOk result (λ layout. (text : trees.Source) → source_view source.now ≡ resolved_source text
            → IsWellTyped text → IsLayoutOf text layout.slots) }
        ensures text { IfOk result (λ layout. layout.text
            ≡ layout_text (names_in_text (source_view source.now)) (variables_among layout.slots)) }
        ensures err { IfErr result (λ e. (text : trees.Source) → source_view source.now ≡ resolved_source text
            → IsWellTyped text
            → Exceeds (length (slots_of_text text)) (instances_of_text text) e) }
    {
        leaves_of_shapes();
        accepted_texts_declare_names_once();
        let slots = slots_in(alloc, source)?;
        let slots = indexed(alloc, &slots)?;
        let variables = plan_variables(alloc, &slots)?;
        let text = layout_text(alloc, &enumerations_in(alloc, source)?, &variables)?;
        Ok(Layout { slots, text })
    }

    /// How many slots it has.
    pub fn len(&self) -> usize
        ensures len { result ≡ length self.now.slots }
        ensures few { result ≤ MAX_PATHS }
    {
        self.slots.len()
    }

    /// The number of a path's slot, from 0; none if the layout has no such path.
    pub fn slot(&self, path: &Path) -> Option<u16>
        ensures { result ≡ slot_number self.now.slots path.now }
    {
        match self.slots.get_index_of(path) {
            Some(number) => Some(number as u16),
            None => None,
        }
    }

    /// The path of a slot by its number; none if there is no such slot.
    pub fn path(&self, slot: u16) -> Option<&Path>
        ensures { option_map (λ p. p.now) result ≡ path_numbered self.now.slots slot }
    {
        match self.slots.get_index(usize::from(slot)) {
            Some((path, _)) => Some(path),
            None => None,
        }
    }

    /// Whether a slot is kept over a power failure (RETAIN); a slot that doesn't exist is not.
    pub fn retained(&self, slot: u16) -> bool
        ensures { result ≡ is_retained (slice_get self.now.slots slot) }
    {
        match self.slots.get_index(usize::from(slot)) {
            Some((_, facts)) => facts.retained,
            None => false,
        }
    }

    /// The layout text of a record: a line `PATH TYPE` with LF for each retained slot, in order.
    pub fn text(&self) -> &[u8]
        ensures { result.now ≡ self.now.text }
    {
        &self.text
    }

    /// The facts of the slots, by their numbers.
    pub fn facts(&self) -> &[SlotFacts]
        ensures { result.now ≡ map facts_of self.now.slots }
    {
        self.slots.values().as_slice()
    }

    /// The variables of a plan, in the order of the layout.
    pub fn plan_variables(&self, alloc: Global) -> Result<Vec<PlanVariable>, AllocError>
        ensures { IfOk result (λ variables. variables.items ≡ variables_among self.now.slots) }
    {
        plan_variables(alloc, &self.slots)
    }

    /// The inputs of a plan, in the order of the layout.
    pub fn plan_inputs(&self, alloc: Global) -> Result<Vec<PlanInput>, AllocError>
        ensures { IfOk result (λ inputs. inputs.items ≡ inputs_among self.now.slots) }
    {
        plan_inputs(alloc, &self.slots)
    }
}
