//! Laws of the slots of plans. The functions do nothing: their contracts are the laws.

ghost use Rattle.std.specs.Prelude.{◌≡◌, ℕ, List, length, true, map, slice_get};
ghost use Rattle.st_types.specs.Values.{Datum};
ghost use Rattle.st_meaning.specs.Slots.{Cell, variables_with, inputs_in, after_writes, AreOfTypes};
ghost use Rattle.st_meaning.specs.declared.plan.PlanInput.{PlanInput};
ghost use Rattle.st_meaning.specs.declared.plan.PlanVariable.{PlanVariable};
ghost use Rattle.st_meaning.specs.Layouts.{layout_of};
ghost use Rattle.st_meaning.specs.Plans.{image_of};
ghost use Rattle.plan.specs.declared.slots.SlotPlace.{SlotPlace};
ghost use Rattle.plan.specs.SlotPlaces.{are_numbered, merged, slots_among, value_at_place};
ghost use Rattle.plan.specs.SlotPlaces.{written_variables};

/// The slots of a text hold its variables and its inputs with their values. When values are written to slots, the
/// variables take those that are written to theirs.
pub fn slots_are_in_the_order_of_the_text()
    ensures variables { (places : List SlotPlace) (variables : List PlanVariable) (inputs : List PlanInput)
        (vs image : List Datum) → are_numbered 0 0 places (length variables) (length inputs) ≡ true
        → length vs ≡ length variables → length image ≡ length inputs
        → variables_with (slots_among places variables inputs) (merged places vs image)
        ≡ variables_with (layout_of variables inputs) vs }
    ensures inputs { (places : List SlotPlace) (variables : List PlanVariable) (inputs : List PlanInput)
        (vs image : List Datum) → are_numbered 0 0 places (length variables) (length inputs) ≡ true
        → length vs ≡ length variables → length image ≡ length inputs
        → inputs_in (slots_among places variables inputs) (merged places vs image) ≡ image_of inputs image }
    ensures typed { (places : List SlotPlace) (variables : List PlanVariable) (inputs : List PlanInput)
        (vs image : List Datum) → are_numbered 0 0 places (length variables) (length inputs) ≡ true
        → map (λ v. v.kind) vs ≡ map (λ v. v.initial.kind) variables
        → map (λ v. v.kind) image ≡ map (λ i. i.kind) inputs
        → AreOfTypes (slots_among places variables inputs) (merged places vs image) }
    ensures found { (places : List SlotPlace) (vs image : List Datum) (k : ℕ)
        → are_numbered 0 0 places (length vs) (length image) ≡ true
        → slice_get (merged places vs image) k ≡ value_at_place vs image (slice_get places k) }
    ensures written { (places : List SlotPlace) (variables : List PlanVariable) (inputs : List PlanInput)
        (vs image : List Datum) (cells : List Cell)
        → are_numbered 0 0 places (length variables) (length inputs) ≡ true → length vs ≡ length variables
        → length image ≡ length inputs
        → variables_with (slots_among places variables inputs) (after_writes (merged places vs image) cells)
        ≡ variables_with (layout_of variables inputs) (written_variables places vs cells) }
    ensures sized { (places : List SlotPlace) (vs : List Datum) (cells : List Cell)
        → length (written_variables places vs cells) ≡ length vs }
{}
