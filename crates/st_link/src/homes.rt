//! Laws of stores over the slots of a layout.

ghost use Rattle.std.specs.Prelude.{◌≡◌, ℕ, List, [], ◌∷◌, map, Option, Some, None, true, false, is_some, ◌+◌};
ghost use Rattle.std.specs.Prelude.{option_map, Ok};
ghost use Rattle.st_types.specs.declared.kind.Kind.{Kind};
ghost use Rattle.st_types.specs.Values.{Datum};
ghost use Rattle.st_types.specs.Paths.{Path};
ghost use Rattle.st_types.specs.declared.data_type.SimpleType.{SimpleType};
ghost use Rattle.st_types.specs.declared.data_type.VariableType.{VariableType};
ghost use Rattle.st_types.specs.declared.unit.UnitSort.TheVariants as sorts;
ghost use Rattle.st_types.specs.declared.path.Owner.{Owner};
ghost use Rattle.st_types.specs.declared.configuration.Instance.{Instance};
ghost use Rattle.st_types.specs.Configurations.{Resource, Configuration};
ghost use Rattle.st_types.specs.Units.{OrganisationUnit};
ghost use Rattle.st_types.specs.Sources.{Source};
ghost use Rattle.st_parse.specs.Tokens.{Tokens};
ghost use Rattle.st_parse.specs.Sources.{IsSource};
ghost use Rattle.st_meaning.specs.Failures.{StuckFaults};
ghost use Rattle.st_meaning.specs.NameTypes.{Declared, declared_in, unit_named};
ghost use Rattle.st_meaning.specs.Evaluation.{known};
ghost use Rattle.st_meaning.specs.Loops.{End};
ghost use Rattle.st_meaning.specs.Runs.{Program, ran_where, store_of};
ghost use Rattle.st_meaning.specs.StandardBlocks.{block_of};
ghost use Rattle.st_meaning.specs.Scopes.{Name, Scope, of_program, of_block, of_call};
ghost use Rattle.st_meaning.specs.Slots.{Slot, IsLayout, variables_with, inputs_in};
ghost use Rattle.st_meaning.specs.Stores.{Store, get, shape_of, all_held};
ghost use Rattle.st_rules.specs.ConfigurationRules.{has_one_configuration, are_known};
ghost use Rattle.st_rules.specs.Environments.{Environment};
ghost use Rattle.st_rules.specs.Rules.{IsWellTyped, environment};
ghost use Rattle.st_link.specs.Soundness.{Agrees};
ghost use Rattle.st_link.specs.UnitSoundness.{IsMoment};
ghost use Rattle.layout.specs.LayoutVariables.{Owned, owned_variable, variables_of_configuration};
ghost use Rattle.layout.specs.LayoutVariables.{configurations_in, only_configuration, owner_in};
ghost use Rattle.st_rules.specs.TwiceDeclared.{twice_declared};
ghost use Rattle.st_rules.specs.Containment.{part_of_type, has_chain};
ghost use Rattle.st_rules.specs.declared.limits.TheConstants.{MAX_TYPE_DEPTH};
ghost use Rattle.layout.specs.Libraries.{result_site, programs_of_text};
ghost use Rattle.layout.specs.Types.{sites_of_blocks, instance_of, is_within_depth};
ghost use Rattle.layout.specs.Names.{are_types_and_units_different, is_configuration_different};
ghost use Rattle.layout.specs.TextLayouts.{slots_of, slots_of_text, variable_slots, input_slots, types_of_slots};
ghost use Rattle.layout.specs.VariableSlots.{are_declared_once};
ghost use Rattle.st_link.specs.Homes.{HaveSlots, are_names_different, AreValuesOf, IsInstanceOf, IsGrounded};
ghost use Rattle.st_link.specs.Homes.{RunsIn, IsProgramRun, IsLayoutPart, IsAmong};
ghost use Rattle.st_link.specs.WellTypedRuns.{HaveFunctionsNoExternals, LibrariesAreOfTexts, RunsAreTyped, RunsAreSound};
ghost use Rattle.st_link.specs.WellTypedRuns.{program_given, IsProgramOf, IsWellTypedRun, HasRuns, AreOver};

/// If the names of a unit stand for parts of a layout, each place of the unit that has an elementary or enumerated type
/// has a value of it, over all values of the layout's slots that are of their types.
pub fn values_of_slots_agree()
    ensures { (env : Environment) (variables : List Owned) (w : Scope) (vs : List Datum)
        → are_names_different env.text ≡ true → are_declared_once env.text variables ≡ true
        → AreValuesOf (slots_of env.text variables) vs → w.image ≡ inputs_in (slots_of env.text variables) vs
        → HaveSlots env variables w → Agrees env w (variables_with (slots_of env.text variables) vs) }
{}

/// A store of a layout's paths with values of their types, together with such an image of its inputs, consists of
/// values of its slots. So the laws on values of slots apply to the initial variables, and to the variables after any
/// run: a run keeps the paths and types of its variables.
pub fn stores_of_a_layout_are_values_of_its_slots()
    ensures { (layout : List Slot) (image s : Store) → shape_of s ≡ types_of_slots (variable_slots layout)
        → shape_of image ≡ types_of_slots (input_slots layout) → all_held s ≡ true → all_held image ≡ true
        → AreOver layout image s }
{}

/// The names of a program's body stand for the variables of its instance and for globals, if names differ, no type is
/// too deep and each external stands for a global of its type.
pub fn programs_lie_in_their_layout()
    ensures { (text : Declared) (c : Configuration) (owner : Owner) (u : OrganisationUnit) (w : Scope)
        → are_types_and_units_different text ≡ true → is_configuration_different (Some c) ≡ true
        → IsInstanceOf text c owner u → IsGrounded text (variables_of_configuration text (Some c)) u
        → RunsIn u (of_program owner) w
        → HaveSlots (environment text u) (variables_of_configuration text (Some c)) w }
{}

/// Over any values of a text's slots, of their types, each place that a program of the text names has a value of its
/// type. So the laws of well-typed expressions and assignments apply to its runs.
pub fn programs_agree_with_their_layout()
    ensures { (source : Source) (u : OrganisationUnit) (w : Scope) (vs : List Datum) → IsProgramRun source u w
        → AreValuesOf (slots_of_text source) vs → w.image ≡ inputs_in (slots_of_text source) vs
        → Agrees (environment (declared_in source) u) w (variables_with (slots_of_text source) vs) }
{}

/// The names of a block's body stand for the members of its instance and for globals.
pub fn blocks_lie_in_their_instances()
    ensures { (text : Declared) (variables : List Owned) (u : OrganisationUnit) (t : VariableType) (at : Path)
        (w : Scope) → u.sort ≡ sorts.FunctionBlock
        → instance_of text t ≡ Some record { name = u.name.name; members = sites_of_blocks u.blocks }
        → IsLayoutPart text variables false at t → IsGrounded text variables u → RunsIn u (of_block at) w
        → HaveSlots (environment text u) variables w }
{}

/// The names of a function's body stand for the variables of its call.
pub fn functions_lie_in_their_calls()
    ensures { (text : Declared) (u : OrganisationUnit) (t : SimpleType) (w : Scope) → u.sort ≡ sorts.Function t
        → are_declared_once text (map (owned_variable None) (result_site t u.name.name ∷ sites_of_blocks u.blocks))
        ≡ true
        → IsGrounded text (map (owned_variable None) (result_site t u.name.name ∷ sites_of_blocks u.blocks)) u
        → RunsIn u of_call w
        → HaveSlots (environment text u)
        (map (owned_variable None) (result_site t u.name.name ∷ sites_of_blocks u.blocks)) w }
{}

/// In a text that declares no name twice names differ in all scopes that a layout needs, so each path of its layout
/// occurs once.
pub fn names_differ_where_none_is_declared_twice()
    ensures names { (source : Source) → twice_declared source ≡ [] → are_names_different (declared_in source) ≡ true }
    ensures scopes { (source : Source) → twice_declared source ≡ []
        → is_configuration_different (only_configuration (configurations_in source)) ≡ true }
    ensures layout { (source : Source) → twice_declared source ≡ [] → IsLayout (slots_of_text source) }
{}

/// A type at which no chain of 65 parts begins is at most 64 deep, if no unit has the name of a standard block.
pub fn types_without_long_chains_are_within_depth()
    ensures { (text : Declared) → ((x : Name) → is_some (unit_named text.units x) ≡ true → block_of x ≡ None)
        → (t : VariableType) → has_chain text (MAX_TYPE_DEPTH + 1) (part_of_type t) ≡ false
        → is_within_depth MAX_TYPE_DEPTH text t ≡ true }
{}

/// In a text of the grammar no function has externals.
pub fn functions_of_the_grammar_have_no_externals()
    ensures { (tokens : Tokens) (source : Source) → IsSource tokens source → HaveFunctionsNoExternals source }
{}

/// The library that a text gives has each of its functions and blocks, with the literals resolved, if the text breaks
/// no rule. The variables of a function have values of their types at the beginning of a call.
pub fn libraries_are_of_their_texts()
    ensures { LibrariesAreOfTexts }
{}

/// Over any values of its layout's slots, of their types, the variables of a program's run have values if its text
/// breaks no rule: each name of each body that the run reaches has a value of its type, and so has each member of an
/// instance.
pub fn runs_lie_in_their_layout()
    ensures { RunsAreTyped }
{}

/// Over any values of its layout's slots, of their types, a run of a program whose text breaks no rule is done, or ends
/// with a fault of the run, never a stand-in. It keeps the variables with their types.
pub fn runs_over_their_layout_are_sound()
    ensures { RunsAreSound }
{}

/// So the stand-ins for the cases that no well-typed text meets are never reported: whatever they are, the run is the
/// same. A variable with a value of a type before a run that is done has one after it.
pub fn runs_depend_on_no_stuck_fault()
    ensures same { (source : Source) (owner : Owner) (u : OrganisationUnit) (vs : List Datum) (now budget : ℕ)
        (i j : StuckFaults) → AreValuesOf (slots_of_text source) vs → IsWellTypedRun source owner u now
        → ran_where i (program_given source owner u) (inputs_in (slots_of_text source) vs) now budget
        (variables_with (slots_of_text source) vs)
        ≡ ran_where j (program_given source owner u) (inputs_in (slots_of_text source) vs) now budget
        (variables_with (slots_of_text source) vs) }
    ensures kept { (source : Source) (owner : Owner) (u : OrganisationUnit) (vs : List Datum) (now budget left : ℕ)
        (i : StuckFaults) (e : End) → AreValuesOf (slots_of_text source) vs → IsWellTypedRun source owner u now
        → ran_where i (program_given source owner u) (inputs_in (slots_of_text source) vs) now budget
        (variables_with (slots_of_text source) vs) ≡ Ok (e, left)
        → (p : Path) (k : Kind)
        → option_map (λ v. v.kind) (known (get (variables_with (slots_of_text source) vs) p)) ≡ Some k
        → option_map (λ v. v.kind) (known (get (store_of e) p)) ≡ Some k }
{}

/// The programs of a text, which its plan runs, are those of the instances of its configuration, to which the laws on
/// runs apply.
pub fn programs_of_a_text_are_of_its_instances()
    ensures each { (source : Source) (c : Configuration) (owner : Owner) (u : OrganisationUnit)
        → only_configuration (configurations_in source) ≡ Some c → IsInstanceOf (declared_in source) c owner u
        → IsAmong (program_given source owner u) (programs_of_text source) }
    ensures no_other { (source : Source) (c : Configuration) (p : Program)
        → only_configuration (configurations_in source) ≡ Some c → IsAmong p (programs_of_text source)
        → IsProgramOf source c p }
{}

/// The premises of the laws on whole runs hold for each instance, at each moment within the range of TIME, in a text
/// that breaks no rule, has one configuration and names only known things there. The grammar gives no function
/// externals.
pub fn runs_of_known_instances_are_well_typed()
    ensures one { (source : Source)
        → has_one_configuration source ≡ is_some (only_configuration (configurations_in source)) }
    ensures runs { (source : Source) (c : Configuration) (r : Resource) (i : Instance) (now : ℕ) → IsWellTyped source
        → HaveFunctionsNoExternals source → only_configuration (configurations_in source) ≡ Some c
        → are_known (declared_in source) c ≡ true → IsAmong r c.resources → IsAmong i r.instances → IsMoment now
        → HasRuns source (owner_in r.name.name i) now }
{}
