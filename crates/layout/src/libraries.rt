//! Laws of a text in the terms of the meaning.

ghost use Rattle.std.specs.Prelude.{◌≡◌, List, [], Option, Some, true};
ghost use Rattle.std.specs.List.{list_all};
ghost use Rattle.st_types.specs.declared.path.Owner.{Owner};
ghost use Rattle.st_types.specs.declared.data_type.SimpleType.{SimpleType};
ghost use Rattle.st_types.specs.declared.data_type.VariableType.{VariableType};
ghost use Rattle.st_types.specs.declared.unit.UnitSort.TheVariants as sorts;
ghost use Rattle.st_types.specs.Units.{OrganisationUnit};
ghost use Rattle.st_meaning.specs.Bodies.{plain_program};
ghost use Rattle.st_meaning.specs.NameTypes.{Declared, unit_named};
ghost use Rattle.st_meaning.specs.Scopes.{Name, Function, function_in, block_in};
ghost use Rattle.st_meaning.specs.Stores.{IsStore};
ghost use Rattle.layout.specs.Shapes.{of_instance};
ghost use Rattle.layout.specs.Types.{BlockType, sites_of_blocks, instance_of, of_parts, composition_of};
ghost use Rattle.layout.specs.Names.{are_types_and_units_different};
ghost use Rattle.layout.specs.Libraries.{instances_among, function_of_unit, block_of_unit, library_of};
ghost use Rattle.layout.specs.Libraries.{program_of_unit, is_program};

/// A call of a function or of an instance's block finds the unit that the text declares by this name.
pub fn calls_find_the_units_of_a_text()
    ensures functions { (text : Declared) (x : Name) (u : OrganisationUnit) (t : SimpleType)
        → unit_named text.units x ≡ Some u → u.sort ≡ sorts.Function t
        → function_in (library_of text).functions x ≡ Some (function_of_unit text t u) }
    ensures blocks { (text : Declared) (x : Name) (u : OrganisationUnit) → unit_named text.units x ≡ Some u
        → u.sort ≡ sorts.FunctionBlock → block_in (library_of text).blocks x ≡ Some (block_of_unit text u) }
{}

/// A variable that is an instance has the members of its block as parts, and is counted as an instance.
pub fn instances_have_the_members_of_their_blocks()
    ensures { (text : Declared) (t : VariableType) (b : BlockType) → instance_of text t ≡ Some b
        → composition_of text t ≡ of_parts of_instance b.members }
{}

/// The variables at the beginning of a call of a function are a store.
pub fn functions_start_with_a_store()
    ensures { (text : Declared) → are_types_and_units_different text ≡ true → (x : Name) (f : Function)
        → function_in (library_of text).functions x ≡ Some f → IsStore [] f.fresh }
{}

/// In a text of programs alone, the program of a unit without instances is the plain one: its externals and its
/// statements.
pub fn programs_that_call_nothing()
    ensures { (text : Declared) (owner : Owner) (u : OrganisationUnit)
        → list_all (λ v. is_program v.sort) text.units ≡ true
        → instances_among text (sites_of_blocks u.blocks) ≡ []
        → program_of_unit text owner u ≡ plain_program owner u }
{}
