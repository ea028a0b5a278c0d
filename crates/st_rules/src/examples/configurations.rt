//! Configurations of well-typed texts.

ghost use Rattle.std.specs.Prelude.{◌≡◌, ◌∷◌, ◌++◌, [], pos, codes, None, Some, true, false};
ghost use Rattle.st_types.specs.declared.kind.Kind.TheVariants.{Int, Dint, Uint, Word, Bool as Boolean};
ghost use Rattle.st_types.specs.declared.configuration.AddressWidth.TheVariants.{Bit, Word as WordWide};
ghost use Rattle.st_types.specs.declared.configuration.Direction.TheVariants.{Input, Output};
ghost use Rattle.st_types.specs.declared.configuration.GlobalQualifier.TheVariants.{Constant, Retain};
ghost use Rattle.st_types.specs.declared.data_type.SimpleType.TheVariants.{Elementary, Named};
ghost use Rattle.st_types.specs.declared.data_type.VariableType.TheVariants.{Array};
ghost use Rattle.st_types.specs.declared.declaration.Section.TheVariants.{External, ConstantExternal};
ghost use Rattle.st_types.specs.declared.unit.UnitSort.TheVariants.{FunctionBlock, Program};
ghost use Rattle.st_types.specs.Declarations.{structure, array};
ghost use Rattle.st_rules.specs.ConfigurationRules.{same_type, are_known, has_sound_addresses, has_one_configuration};
ghost use Rattle.st_rules.specs.ConfigurationRules.{has_too_many, have_tasks};
ghost use Rattle.st_rules.specs.ExampleWords.{elementary, named, array_of, add, N, M, X};
ghost use Rattle.st_rules.specs.ExampleWords.{texts_with_types, external_text, globals_of, global, addressed};
ghost use Rattle.st_rules.specs.ExampleWords.{one_program, running, single_on, unit_of, with_start, with_t};
ghost use Rattle.st_rules.specs.ExampleTexts.{resourced, globals_in, holding, copies, resource_at, task_at};
ghost use Rattle.st_rules.specs.ExampleTexts.{instance_at};
ghost use Rattle.st_rules.specs.ExampleTexts.{externals_block, externals_at, units_of, one_unit_of, externals_of};
ghost use Rattle.st_rules.specs.ExampleTexts.{texts_with_arrays, text_with_modes, A, T};
ghost use Rattle.st_rules.specs.ExampleWords.{block, declaring, F, MODE, ALARM};
ghost use Rattle.st_types.specs.Configurations.{listed};
ghost use Rattle.st_rules.specs.ExampleWords.{at, configured, start_of, tasked, P};
ghost use Rattle.st_rules.specs.ExampleWords as words;

/// When two types are the same, with `TYPE x : ARRAY [1..2] OF INT; n : STRUCT m : INT; END_STRUCT; m : STRUCT m : INT;
/// END_STRUCT; END_TYPE`.
pub fn types()
    ensures array_and_its_name { same_type texts_with_types (named 0 X) (Array (array_of 0 (pos 1) (pos 2)
        (Elementary Int 0))) ≡ true }
    ensures other_bounds { same_type texts_with_types (named 0 X) (Array (array_of 0 (pos 1) (pos 3)
        (Elementary Int 0))) ≡ false }
    ensures other_lower_bound { same_type texts_with_types (named 0 X) (Array (array_of 0 (pos 0) (pos 2)
        (Elementary Int 0)))
        ≡ false }
    ensures other_elements { same_type texts_with_types (named 0 X) (Array (array_of 0 (pos 1) (pos 2)
        (Elementary Dint 0))) ≡ false }
    ensures alike_structures { same_type texts_with_types (named 0 N) (named 0 M) ≡ false }
    ensures one_structure { same_type texts_with_types (named 0 N) (named 9 N) ≡ true }
    // TYPE x : ARRAY [1..2] OF t; f : ARRAY [1..2] OF m; t, m : ARRAY [1..3] OF INT; a : ARRAY [1..3] OF DINT; END_TYPE
    ensures arrays_of_arrays { same_type texts_with_arrays (named 0 X) (named 0 F) ≡ true }
    ensures arrays_of_other_arrays { same_type texts_with_arrays (named 0 X) (Array (array_of 0 (pos 1) (pos 2)
        (Named (at 0 A))))
        ≡ false }
    ensures two_names { same_type texts_with_arrays (named 0 T) (named 0 M) ≡ true }
    ensures array_and_element { same_type texts_with_arrays (named 0 T) (elementary Int) ≡ false }
    ensures structure_and_array { same_type texts_with_types (named 0 X) (named 0 N) ≡ false }
    // TYPE Mode, Alarm
    ensures one_enumeration { same_type text_with_modes (named 0 MODE) (named 9 MODE) ≡ true }
    ensures two_enumerations { same_type text_with_modes (named 0 MODE) (named 0 ALARM) ≡ false }
    ensures enumeration_and_number { same_type text_with_modes (named 0 MODE) (elementary Int) ≡ false }
    ensures elementary_ones { same_type texts_with_types (elementary Int) (elementary Dint) ≡ false }
{}

/// `VAR_EXTERNAL n : INT; END_VAR` over globals.
pub fn externals()
    ensures known { are_known (external_text External) (globals_of None (global N (elementary Int) ∷ []) one_program)
        ≡ true }
    ensures unknown { are_known (external_text External) (globals_of None (global M (elementary Int) ∷ []) one_program)
        ≡ false }
    ensures other_type { are_known (external_text External)
        (globals_of None (global N (elementary Dint) ∷ []) one_program) ≡ false }
    ensures constant { are_known (external_text External)
        (globals_of (Some Constant) (global N (elementary Int) ∷ []) one_program) ≡ false }
    ensures constant_external { are_known (external_text ConstantExternal)
        (globals_of (Some Constant) (global N (elementary Int) ∷ []) one_program)
        ≡ true }
    // an input of the plant, which may only be CONSTANT
    ensures input { are_known (external_text External)
        (globals_of None (addressed N Input WordWide 0 (elementary Int) ∷ []) one_program)
        ≡ false }
    ensures constant_input { are_known (external_text ConstantExternal)
        (globals_of None (addressed N Input WordWide 0 (elementary Int) ∷ []) one_program) ≡ true }
{}

/// More of them: outputs of the plant, lists of names, several blocks.
pub fn more_externals()
    // an output of the plant is assigned by programs
    ensures output { are_known (external_text External)
        (globals_of None (addressed N Output WordWide 0 (elementary Int) ∷ []) one_program) ≡ true }
    ensures constant_output { are_known (external_text ConstantExternal)
        (globals_of None (addressed N Output WordWide 0 (elementary Int) ∷ []) one_program) ≡ false }
    // VAR_EXTERNAL CONSTANT over a global that is assigned, or that is kept
    ensures constant_of_variable { are_known (external_text ConstantExternal)
        (globals_of None (global N (elementary Int) ∷ []) one_program) ≡ false }
    ensures constant_of_retained { are_known (external_text ConstantExternal)
        (globals_of (Some Retain) (global N (elementary Int) ∷ []) one_program) ≡ false }
    ensures retained { are_known (external_text External)
        (globals_of (Some Retain) (global N (elementary Int) ∷ []) one_program) ≡ true }
    // VAR_GLOBAL m, n : INT; and VAR_GLOBAL m : INT; n : INT;
    ensures second_name { are_known (external_text External)
        (globals_of None (record {
          names = listed (at 0 M ∷ at 0 N
              ∷ []);
          declared = elementary Int;
          initial = None;
        } ∷ []) one_program)
        ≡ true }
    ensures second_declaration { are_known (external_text External)
        (globals_of None (global M (elementary Int) ∷ global N (elementary Int) ∷ []) one_program) ≡ true }
    // of the second unit, of its second block, and of a block's second declaration, if m isn't a global
    ensures second_unit { are_known (units_of (externals_at (at 20 N ∷ []) ∷ externals_at (at 60 M ∷ []) ∷ []))
        (globals_of None (global N (elementary Int) ∷ []) one_program) ≡ false }
    ensures second_block_of_externals { are_known (one_unit_of (externals_block (at 20 N ∷ [])
        ∷ externals_block (at 60 M ∷ []) ∷ []))
        (globals_of None (global N (elementary Int) ∷ []) one_program) ≡ false }
    ensures second_declaration_of_externals { are_known
        (one_unit_of (block External (declaring (at 20 N) (elementary Int) ∷ declaring (at 30 M) (elementary Int)
        ∷ []) ∷ []))
        (globals_of None (global N (elementary Int) ∷ []) one_program) ≡ false }
    // in the second block of globals
    ensures second_block { are_known (external_text External)
        (globals_in (record { qualifier = Some Constant; declarations = global M (elementary Int) ∷ [] }
        ∷ record { qualifier = None; declarations = global N (elementary Int) ∷ [] } ∷ []) one_program) ≡ true }
    // VAR_EXTERNAL n, m : INT; END_VAR if m isn't a global
    ensures second_external { are_known (externals_of (at 20 N ∷ at 30 M ∷ []))
        (globals_of None (global N (elementary Int) ∷ []) one_program) ≡ false }
    ensures both_externals { are_known (externals_of (at 20 N ∷ at 30 M ∷ []))
        (globals_of None (global N (elementary Int) ∷ global M (elementary Int) ∷ []) one_program) ≡ true }
{}

/// Tasks, programs and SINGLEs of resources, in a text with the unit P.
pub fn resources()
    ensures program { are_known (unit_of Program) (globals_of None [] one_program) ≡ true }
    ensures function_block { are_known (unit_of FunctionBlock) (globals_of None [] one_program) ≡ false }
    ensures no_unit { are_known (unit_of Program) (globals_of None [] (running (tasked 0 ∷ []) M with_t)) ≡ false }
    ensures no_task { are_known (unit_of Program)
        (globals_of None [] (running (tasked 0 ∷ []) P (Some (at 0 M)))) ≡ false }
    ensures single { are_known (unit_of Program)
        (globals_of None (global X (elementary Boolean) ∷ []) (running (single_on X ∷ []) P with_t)) ≡ true }
    ensures single_of_no_global { are_known (unit_of Program)
        (globals_of None [] (running (single_on X ∷ []) P with_t)) ≡ false }
    // an input of the plant
    ensures single_of_an_input { are_known (unit_of Program)
        (globals_of None (addressed X Input Bit 0 (elementary Boolean) ∷ []) (running (single_on X ∷ []) P with_t))
        ≡ true }
    // of the second task, if the first has none
    ensures second_single { are_known (unit_of Program)
        (globals_of None (global X (elementary Int) ∷ []) (running (tasked 0 ∷ single_on X ∷ []) P with_t)) ≡ false }
    // a second instance, of a program that the text doesn't have
    ensures second_instance { are_known (unit_of Program) (resourced (resource_at 40 X (task_at 60 T ∷ [])
        (instance_at 90 N ∷ record { name = at 120 M; task = with_t; program = at 130 M } ∷ []) ∷ [])) ≡ false }
    ensures two_instances { are_known (unit_of Program) (resourced (resource_at 40 X (task_at 60 T ∷ [])
        (instance_at 90 N ∷ instance_at 120 M ∷ []) ∷ [])) ≡ true }
    // a task of the other resource
    ensures task_of_another_resource { are_known (unit_of Program)
        (resourced (one_program ∷ resource_at 40 M (task_at 60 X ∷ []) (instance_at 90 N ∷ []) ∷ [])) ≡ false }
    ensures single_of_a_number { are_known (unit_of Program)
        (globals_of None (global X (elementary Int) ∷ []) (running (single_on X ∷ []) P with_t)) ≡ false }
{}

/// Addresses.
pub fn addresses()
    ensures sound { has_sound_addresses (external_text External)
        (globals_of None (addressed N Input Bit 1023 (elementary Boolean)
        ∷ addressed M Output Bit 1023 (elementary Boolean)
        ∷ addressed X Input WordWide 255 (elementary Word) ∷ []) one_program) ≡ true }
    ensures doubled { has_sound_addresses (external_text External)
        (globals_of None (addressed N Input Bit 5 (elementary Boolean) ∷ addressed M Input Bit 5 (elementary Boolean)
        ∷ [])
        one_program) ≡ false }
    // %IX5 and %IW5 are two
    ensures one_number_of_two_widths { has_sound_addresses (external_text External)
        (globals_of None (addressed N Input Bit 5 (elementary Boolean) ∷ addressed M Input WordWide 5 (elementary Word)
        ∷ [])
        one_program) ≡ true }
    // in two blocks of globals
    ensures doubled_in_two_blocks { has_sound_addresses (external_text External)
        (globals_in (record { qualifier = None; declarations = addressed N Output Bit 5 (elementary Boolean) ∷ [] }
        ∷ record { qualifier = None; declarations = addressed M Output Bit 5 (elementary Boolean) ∷ [] }
        ∷ []) one_program)
        ≡ false }
    // %IW5 and %QW5 are two
    ensures one_number_of_two_directions { has_sound_addresses (external_text External)
        (globals_of None (addressed N Input WordWide 5 (elementary Uint)
        ∷ addressed M Output WordWide 5 (elementary Word)
        ∷ []) one_program) ≡ true }
    // the first and the last of three
    ensures doubled_later { has_sound_addresses (external_text External)
        (globals_of None (addressed N Output Bit 5 (elementary Boolean) ∷ addressed M Output Bit 6 (elementary Boolean)
        ∷ addressed X Output Bit 5 (elementary Boolean) ∷ []) one_program) ≡ false }
    // the second declaration, and the second block
    ensures second_out_of_range { has_sound_addresses (external_text External)
        (globals_of None (addressed N Input Bit 0 (elementary Boolean)
        ∷ addressed M Input Bit 1024 (elementary Boolean) ∷ [])
        one_program) ≡ false }
    ensures second_block_out_of_range { has_sound_addresses (external_text External)
        (globals_in (record { qualifier = None; declarations = [] }
        ∷ record { qualifier = None; declarations = addressed M Input Bit 1024 (elementary Boolean) ∷ [] }
        ∷ []) one_program)
        ≡ false }
    // a BOOL at %IW0, an INT at %IX0, a value of an enumerated type at %QW0
    ensures truth_of_a_word { has_sound_addresses (external_text External)
        (globals_of None (addressed N Input WordWide 0 (elementary Boolean) ∷ []) one_program) ≡ false }
    ensures number_of_a_bit { has_sound_addresses (external_text External)
        (globals_of None (addressed N Input Bit 0 (elementary Int) ∷ []) one_program) ≡ false }
    ensures enumerated { has_sound_addresses text_with_modes
        (globals_of None (addressed N Output WordWide 0 (named 0 MODE) ∷ []) one_program) ≡ false }
    // CONSTANT with an initial value, and no address
    ensures without_address { has_sound_addresses (external_text External)
        (globals_of (Some Constant) (with_start (global N (elementary Int)) (start_of 30 (pos 1)) ∷ []) one_program)
        ≡ true }
    // An output may have an initial value, an input has none.
    ensures output_that_starts { has_sound_addresses (external_text External)
        (globals_of None (with_start (addressed N Output WordWide 5 (elementary Int)) (start_of 30 (pos 1))
        ∷ []) one_program)
        ≡ true }
    ensures input_that_starts { has_sound_addresses (external_text External)
        (globals_of None (with_start (addressed N Input WordWide 5 (elementary Int)) (start_of 30 (pos 1))
        ∷ []) one_program)
        ≡ false }
    ensures bit_out_of_range { has_sound_addresses (external_text External)
        (globals_of None (addressed N Input Bit 1024 (elementary Boolean) ∷ []) one_program) ≡ false }
    ensures word_out_of_range { has_sound_addresses (external_text External)
        (globals_of None (addressed N Output WordWide 256 (elementary Int) ∷ []) one_program) ≡ false }
    ensures other_width { has_sound_addresses (external_text External)
        (globals_of None (addressed N Output WordWide 0 (elementary Dint) ∷ []) one_program) ≡ false }
    ensures with_constant { has_sound_addresses (external_text External)
        (globals_of (Some Constant) (addressed N Output WordWide 0 (elementary Int) ∷ []) one_program) ≡ false }
{}

/// Numbers of configurations and programs.
pub fn numbers()
    ensures none { has_one_configuration (add []) ≡ false }
    ensures one { has_one_configuration (configured None [] (tasked 5)) ≡ true }
    ensures two { has_one_configuration (configured None [] (tasked 5) ++ configured None [] (tasked 5)) ≡ false }
    ensures without_task { have_tasks (globals_of None [] (running (tasked 0 ∷ []) P None)) ≡ false }
    // PROGRAM I WITH T : P; PROGRAM N : P;
    ensures second_without_task { have_tasks (resourced (one_program ∷ resource_at 40 M (task_at 60 T ∷ [])
        (instance_at 90 N ∷ record { name = at 120 M; task = None; program = at 130 P } ∷ []) ∷ [])) ≡ false }
    ensures with_task { have_tasks (globals_of None [] one_program) ≡ true }
    ensures few { has_too_many (globals_of None [] one_program) ≡ false }
{}

/// The most resources, tasks of a resource, and programs in all.
pub fn limits()
    ensures most_resources { has_too_many (resourced (copies 8 (holding 1 1))) ≡ false }
    ensures resources { has_too_many (resourced (copies 9 (holding 1 1))) ≡ true }
    ensures most_tasks { has_too_many (resourced (holding 32 1 ∷ holding 32 1 ∷ [])) ≡ false }
    ensures tasks { has_too_many (resourced (holding 1 1 ∷ holding 33 1 ∷ [])) ≡ true }
    ensures most_programs { has_too_many (resourced (holding 1 32 ∷ holding 1 32 ∷ [])) ≡ false }
    ensures programs { has_too_many (resourced (holding 1 32 ∷ holding 1 33 ∷ [])) ≡ true }
{}
