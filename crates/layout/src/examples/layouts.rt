//! Worked examples of the layout of a whole text, each proved by computation.

ghost use Rattle.std.specs.Prelude.{◌≡◌, ◌∷◌, [], true, false, map, length, None, codes};
ghost use Rattle.st_types.specs.declared.kind.Kind.TheVariants.{Int, Time, Word, Bool as Boolean};
ghost use Rattle.layout.specs.TextLayouts.{instances_of_text, slots_of_text, plan_variables_of_text};
ghost use Rattle.layout.specs.TextLayouts.{plan_inputs_of_text, initial_image};
ghost use Rattle.layout.specs.LayoutExamples.{instances_of_blocks, block_in_a_block, input_between_globals};
ghost use Rattle.layout.specs.LayoutExamples.{unconfigured, configured_twice, instances_of_no_program};
ghost use Rattle.layout.specs.Names.{has_different_names};
ghost use Rattle.layout.specs.LayoutExamples.{plain, without_initial, variables_text, text_of, structure_of, field};
ghost use Rattle.layout.specs.LayoutExamples.{configured, resource, instance, globals_of, global};
ghost use Rattle.layout.specs.LayoutExamples.{result_and_variable, adder_configuration};
ghost use Rattle.layout.specs.LayoutExamples.{words_of_retention, types_that_are_none, adding, text_in, lines_of};
ghost use Rattle.layout.specs.LayoutExamples.{order_of_a_text};
ghost use Rattle.layout.specs.LibraryExamples.{shown};
ghost use Rattle.layout.specs.InitialExamples.{one_deep_variable};
ghost use Rattle.layout.specs.LayoutExamples.{retentions_in, values_in, slots_in, inputs_in, int, datum};

/// Two instances of a block of the text and one of a standard block: 12 paths in the order of their declarations, of
/// which nine are retained.
#[tactic(auto, unfolding(crate::specs::Types::shape_within, st_meaning::specs::StandardBlocks::block_of))]
pub fn retention_of_instances()
    ensures paths { retentions_in instances_of_blocks
        ≡ (codes "R/P.F.A", true) ∷ (codes "R/P.F.B", true) ∷ (codes "R/P.F.C", false)
        ∷ (codes "R/P.T.IN", true) ∷ (codes "R/P.T.PT", true) ∷ (codes "R/P.T.Q", true) ∷ (codes "R/P.T.ET", true)
        ∷ (codes "R/P.T.RUN", true) ∷ (codes "R/P.T.START", true)
        ∷ (codes "R/P.K.A", false) ∷ (codes "R/P.K.B", true) ∷ (codes "R/P.K.C", false) ∷ [] }
    ensures types { slots_in instances_of_blocks
        ≡ (codes "R/P.F.A", Int, false) ∷ (codes "R/P.F.B", Int, false) ∷ (codes "R/P.F.C", Int, false)
        ∷ (codes "R/P.T.IN", Boolean, false) ∷ (codes "R/P.T.PT", Time, false) ∷ (codes "R/P.T.Q", Boolean, false)
        ∷ (codes "R/P.T.ET", Time, false) ∷ (codes "R/P.T.RUN", Boolean, false) ∷ (codes "R/P.T.START", Time, false)
        ∷ (codes "R/P.K.A", Int, false) ∷ (codes "R/P.K.B", Int, false) ∷ (codes "R/P.K.C", Int, false) ∷ [] }
    ensures instances { instances_of_text instances_of_blocks ≡ 3 }
    ensures text { text_in instances_of_blocks ≡ lines_of (codes "R/P.F.A INT" ∷ codes "R/P.F.B INT"
        ∷ codes "R/P.T.IN BOOL" ∷ codes "R/P.T.PT TIME" ∷ codes "R/P.T.Q BOOL" ∷ codes "R/P.T.ET TIME"
        ∷ codes "R/P.T.RUN BOOL" ∷ codes "R/P.T.START TIME" ∷ codes "R/P.K.B INT" ∷ []) }
{}

/// A program that adds to a retained global, beside one that is not retained.
#[tactic(auto, unfolding(crate::specs::Types::shape_within, st_meaning::specs::StandardBlocks::block_of))]
pub fn two_globals()
    ensures values { values_in adding ≡ (codes "N", int 0) ∷ (codes "K", int 7) ∷ [] }
    ensures retention { retentions_in adding ≡ (codes "N", true) ∷ (codes "K", false) ∷ [] }
    ensures text { text_in adding ≡ lines_of (codes "N INT" ∷ []) }
    ensures instances { instances_of_text adding ≡ 0 }
{}

/// A standard block and a block of the text in a block in a program: the innermost word on the way decides. A constant
/// has a path, an external has none.
#[tactic(auto, unfolding(crate::specs::Types::shape_within, st_meaning::specs::StandardBlocks::block_of))]
pub fn instances_in_instances()
    ensures paths { retentions_in block_in_a_block
        ≡ (codes "R/P.O.T.IN", false) ∷ (codes "R/P.O.T.PT", false) ∷ (codes "R/P.O.T.Q", false)
        ∷ (codes "R/P.O.T.ET", false) ∷ (codes "R/P.O.T.RUN", false) ∷ (codes "R/P.O.T.START", false)
        ∷ (codes "R/P.O.S.S1", true) ∷ (codes "R/P.O.S.R", true) ∷ (codes "R/P.O.S.Q1", true)
        ∷ (codes "R/P.O.F.A", true) ∷ (codes "R/P.O.F.B", true) ∷ (codes "R/P.O.F.C", false)
        ∷ (codes "R/P.O.N", true) ∷ [] }
    ensures instances { instances_of_text block_in_a_block ≡ 4 }
{}

/// RETAIN and NON_RETAIN of inputs, outputs and variables of a block, inside and outside of other words. All parts of a
/// variable follow its declaration.
#[tactic(auto, unfolding(crate::specs::Types::shape_within, st_meaning::specs::StandardBlocks::block_of))]
pub fn words_on_the_way()
    ensures paths { retentions_in words_of_retention
        ≡ (codes "R/P.F.A", true) ∷ (codes "R/P.F.B", false) ∷ (codes "R/P.F.C.X", true) ∷ (codes "R/P.F.C.Y", true)
        ∷ (codes "R/P.F.D[0]", false) ∷ (codes "R/P.F.D[1]", false)
        ∷ (codes "R/P.G.A", true) ∷ (codes "R/P.G.B", false) ∷ (codes "R/P.G.C.X", true) ∷ (codes "R/P.G.C.Y", true)
        ∷ (codes "R/P.G.D[0]", true) ∷ (codes "R/P.G.D[1]", true)
        ∷ (codes "R/P.S.X", true) ∷ (codes "R/P.S.Y", true) ∷ (codes "R/P.N", false) ∷ [] }
    ensures instances { instances_of_text words_of_retention ≡ 2 }
{}

/// A program, a function and an unknown name aren't types of variables.
#[tactic(auto, unfolding(crate::specs::Types::shape_within, st_meaning::specs::StandardBlocks::block_of))]
pub fn variables_without_a_type()
    ensures paths { slots_in types_that_are_none ≡ (codes "R/P.N", Int, false) ∷ [] }
    ensures instances { instances_of_text types_that_are_none ≡ 0 }
{}

/// An input keeps its place among the globals; a global at the address of an output is one like others. Then come the
/// instances of each resource.
#[tactic(auto, unfolding(crate::specs::Types::shape_within, st_meaning::specs::StandardBlocks::block_of))]
pub fn an_input_between_globals()
    ensures slots { slots_in input_between_globals
        ≡ (codes "A", Int, false) ∷ (codes "X", Boolean, true) ∷ (codes "Q", Boolean, false) ∷ (codes "N", Int, false)
        ∷ (codes "W[0]", Word, false) ∷ (codes "W[1]", Word, false) ∷ (codes "R/P.K", Int, false)
        ∷ (codes "R/Q.K", Int, false) ∷ (codes "S/P.K", Int, false) ∷ [] }
    ensures variables { values_in input_between_globals
        ≡ (codes "A", int 7) ∷ (codes "Q", datum Boolean 1) ∷ (codes "N", int 9) ∷ (codes "W[0]", datum Word 0)
        ∷ (codes "W[1]", datum Word 0) ∷ (codes "R/P.K", int 0) ∷ (codes "R/Q.K", int 0) ∷ (codes "S/P.K", int 0)
        ∷ [] }
    ensures retentions { retentions_in input_between_globals
        ≡ (codes "A", true) ∷ (codes "Q", false) ∷ (codes "N", false) ∷ (codes "W[0]", false)
        ∷ (codes "W[1]", false) ∷ (codes "R/P.K", false) ∷ (codes "R/Q.K", false) ∷ (codes "S/P.K", false) ∷ [] }
    ensures inputs { inputs_in input_between_globals ≡ (codes "X", Boolean) ∷ [] }
    ensures image { shown (initial_image (plan_inputs_of_text input_between_globals))
        ≡ (codes "X", datum Boolean 0) ∷ [] }
    ensures instances { instances_of_text input_between_globals ≡ 0 }
{}

/// The names of one declaration keep their order, and so do resources and instances, whatever the order of their
/// programs; subscripts below 0 ascend. An instance of a block without variables has no path, but counts as one.
#[tactic(auto, unfolding(crate::specs::Types::shape_within, st_meaning::specs::StandardBlocks::block_of))]
pub fn a_text_in_order()
    ensures values { values_in order_of_a_text ≡ (codes "A", int 3) ∷ (codes "B", int 3)
        ∷ (codes "R/Q.K[-3]", int 4) ∷ (codes "R/Q.K[-2]", int 0)
        ∷ (codes "S/P.K[-3]", int 4) ∷ (codes "S/P.K[-2]", int 0) ∷ [] }
    ensures instances { instances_of_text order_of_a_text ≡ 7 }
{}

/// A text without exactly one configuration has no path, and an instance of a unit that isn't a program has none.
#[tactic(auto, unfolding(crate::specs::Types::shape_within, st_meaning::specs::StandardBlocks::block_of))]
pub fn texts_without_a_layout()
    ensures no_configuration { slots_of_text unconfigured ≡ [] }
    ensures two_configurations { slots_of_text configured_twice ≡ [] }
    ensures no_variables { plan_variables_of_text configured_twice ≡ [] }
    ensures no_program { slots_in instances_of_no_program ≡ (codes "R/P.K", Int, false) ∷ [] }
{}

/// Names that differ in their scopes, and names that occur twice: of variables, of a function's result, of fields, of
/// instances and of resources. Separate scopes may have the same name.
#[tactic(auto, unfolding(crate::specs::Types::shape_within, st_meaning::specs::StandardBlocks::block_of))]
pub fn names_in_their_scopes()
    ensures differ { has_different_names instances_of_blocks ≡ true }
    ensures differ_in_resources { has_different_names input_between_globals ≡ true }
    ensures variables { has_different_names (variables_text [] (without_initial (codes "N") (plain Int)
        ∷ without_initial (codes "N") (plain Boolean) ∷ [])) ≡ false }
    ensures result { has_different_names (text_of [] (result_and_variable ∷ []) adder_configuration) ≡ false }
    ensures fields { has_different_names (variables_text (structure_of (codes "S") (field (codes "X") (plain Int)
        ∷ field (codes "X") (plain Int) ∷ []) ∷ []) []) ≡ false }
    ensures instances { has_different_names (text_of [] [] (configured [] (resource (codes "R")
        (instance (codes "P") (codes "A") ∷ instance (codes "P") (codes "B") ∷ []) ∷ []))) ≡ false }
    ensures resources { has_different_names (text_of [] [] (configured []
        (resource (codes "R") [] ∷ resource (codes "R") [] ∷ []))) ≡ false }
    ensures globals { has_different_names (text_of [] [] (configured (
        globals_of None (global (codes "N") (plain Int) None ∷ [])
        ∷ globals_of None (global (codes "N") (plain Int) None ∷ [])
        ∷ []) [])) ≡ false }
{}

/// A type that is 64 deep has its part. A deeper one has none: no well-typed text has it.
#[tactic(auto, unfolding(crate::specs::Types::shape_within, st_meaning::specs::StandardBlocks::block_of))]
pub fn depth_of_types()
    ensures greatest { map (λ l. length l.path.steps) (slots_of_text (one_deep_variable 62)) ≡ 63 ∷ [] }
    ensures too_deep { slots_of_text (one_deep_variable 63) ≡ [] }
{}
