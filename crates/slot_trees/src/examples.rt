//! Worked examples of linked trees, each proved by computation.

ghost use Rattle.std.specs.Prelude.{◌≡◌, ◌∷◌, [], Some, None, pos, codes, length, Ok, Err};
ghost use Rattle.st_types.specs.declared.fault.Fault.{Fault};
ghost use Rattle.st_types.specs.Expressions.{read, variable, member, subscript, selectors_of};
ghost use Rattle.st_meaning.specs.ProgramExamples.{identifier, target, name};
ghost use Rattle.st_meaning.specs.Failures.{in_runs};
ghost use Rattle.st_meaning.specs.Loops.{goes_on};
ghost use Rattle.layout.specs.Libraries.{programs_of_text};
ghost use Rattle.layout.specs.LibraryExamples.{text_of_calls};
ghost use Rattle.layout.specs.PartExamples.{text_of_parts};
ghost use Rattle.slot_trees.specs.LinkedPrograms.{IsLinkOf};
ghost use Rattle.slot_trees.specs.LinkedTexts.{IsProgramLink};
ghost use Rattle.slot_trees.specs.TextExample.{its_library, its_link, main_code, its_values, instance_values};
ghost use Rattle.slot_trees.specs.TextExample.{first_run, values_of_parts, timer_values};
ghost use Rattle.slot_trees.specs.TextLinks.{linked_source};
ghost use Rattle.slot_trees.specs.ProgramExample.{its_layout, its_program, no_units, its_code, values_of};
ghost use Rattle.slot_trees.specs.SlotRuns.{slots_ran};
ghost use Rattle.slot_trees.specs.SlotTrees.{own, load, place, no_subscripts, subscript_then};
ghost use Rattle.slot_trees.specs.Linking.{linked, linked_target};
ghost use Rattle.slot_trees.specs.LinkExamples.{indexed_table};

/// A[I].X begins one slot after A's first, and takes two slots more for each element. An unknown name has no place, nor
/// has an array.
pub fn places_are_linked()
    ensures whole { linked_target indexed_table (variable (identifier (codes "A"))
        (selectors_of (subscript (name (codes "I")) ∷ member (identifier (codes "X")) ∷ [])))
        ≡ Some (place (own 2) (subscript_then (load (place (own 0) no_subscripts)) (pos 1) 3 2 no_subscripts)) }
    ensures unknown { linked indexed_table (read (target (codes "B"))) ≡ None }
    ensures array { linked indexed_table (read (target (codes "A"))) ≡ None }
{}

/// A program of elements, a timer and a loop is linked by the table of its declarations. After a run its slots hold the
/// values that its variables would; a subscript that is out of bounds is F3.
pub fn a_linked_program()
    ensures link { IsProgramLink its_layout its_program 0 no_units its_code }
    ensures run { slots_ran in_runs no_units 0 its_code 5 9 (values_of 4 2 3 0 0) 9
        ≡ Ok (goes_on (values_of 12 3 3 5 10), 2) }
    ensures fault { slots_ran in_runs no_units 0 its_code 5 9 (values_of 4 3 3 0 0) 9 ≡ Err Fault.Index }
{}

/// The text of calls is linked: its functions and blocks once each, and both instances of its program. A run of the
/// first one calls a block, which calls another one and a function and adds to a global.
pub fn a_linked_text()
    ensures is { linked_source text_of_calls ≡ Some its_link }
    ensures link { IsLinkOf text_of_calls its_link }
    ensures programs { length (programs_of_text text_of_calls) ≡ 2 }
    ensures run { slots_ran in_runs its_library 0 (main_code 2 11) 5 9
        (its_values 5 (instance_values 2 10 0 0) (instance_values 2 10 0 0)) 9
        ≡ Ok (goes_on (its_values 7 (instance_values 3 13 26 26) (instance_values 2 10 0 0)), 2) }
{}

/// So is a text over elements and fields, with an enumerated type, a block, a timer, a function and an input of the
/// plant. A run of it leaves the same values as one over paths, and the old ones if there are too few ticks.
pub fn a_linked_text_over_parts()
    ensures run { first_run text_of_parts 5 13 (values_of_parts 5 (0 ∷ 2 ∷ 0 ∷ 1 ∷ []) 0 0 2 10 (timer_values 0 0 0 0))
        ≡ Some (values_of_parts 24 (0 ∷ 2 ∷ 2 ∷ 1 ∷ []) 3 12 2 12 (timer_values 1 10 1 5)) }
    ensures too_few { first_run text_of_parts 5 12
        (values_of_parts 5 (0 ∷ 2 ∷ 0 ∷ 1 ∷ []) 0 0 2 10 (timer_values 0 0 0 0))
        ≡ Some (values_of_parts 5 (0 ∷ 2 ∷ 0 ∷ 1 ∷ []) 0 0 2 10 (timer_values 0 0 0 0)) }
{}
