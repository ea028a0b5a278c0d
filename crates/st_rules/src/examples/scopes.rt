//! Scopes: which names are repeated, and which are not.

ghost use Rattle.std.specs.Prelude.{◌≡◌, ◌∷◌, [], pos, codes, None, Some};
ghost use Rattle.st_types.specs.declared.kind.Kind.TheVariants.{Int};
ghost use Rattle.st_types.specs.declared.data_type.SimpleType.TheVariants.{Elementary};
ghost use Rattle.st_types.specs.declared.declaration.Section.TheVariants.{Local};
ghost use Rattle.st_types.specs.declared.unit.UnitSort.TheVariants.{Function, FunctionBlock, Program};
ghost use Rattle.st_types.specs.Declarations.{structure, array, enumeration};
ghost use Rattle.st_types.specs.Initials as initials;
ghost use Rattle.st_types.specs.Initials.{members_of, elements_of, single, repeated, list};
ghost use Rattle.st_types.specs.Sources.{types};
ghost use Rattle.st_rules.specs.declared.reason.Reason.TheVariants.{DeclaredBefore};
ghost use Rattle.st_rules.specs.declared.rule.Rule.TheVariants.{DeclaredTwice};
ghost use Rattle.st_rules.specs.Faults as faults;
ghost use Rattle.st_rules.specs.ExampleWords.{broken_rules};
ghost use Rattle.st_rules.specs.TwiceDeclared.{twice_declared};
ghost use Rattle.st_rules.specs.ExampleWords.{places_of};
ghost use Rattle.st_rules.specs.ExampleTexts.{declaring_all, upwards, block_names, function_names, conversion_names};
ghost use Rattle.st_rules.specs.ExampleWords.{at, breaks, digits, start_of, elementary, named, array_of, declaring};
ghost use Rattle.st_rules.specs.ExampleWords.{starting, block, organised, defining, field_of, local, N, M, F, X, P};
ghost use Rattle.st_rules.specs.ExampleTexts.{structures, doubled, starting_structures, one_global, configuring};
ghost use Rattle.st_rules.specs.ExampleTexts.{task_at};
ghost use Rattle.st_rules.specs.ExampleTexts.{instance_at, resource_at, T};

/// Types, functions, blocks and programs have one scope.
pub fn units()
    // PROGRAM P VAR n : INT; m : INT; n : INT; END_VAR
    ensures apart { broken_rules (local (declaring (at 14 N) (elementary Int) ∷ declaring (at 24 M) (elementary Int)
        ∷ declaring (at 34 N) (elementary Int) ∷ [])) ≡ breaks DeclaredTwice 34 ∷ [] }
    // PROGRAM P VAR n, n : INT; END_VAR
    ensures in_one_declaration { broken_rules
        (local (record { names = at 14 N ∷ at 17 N ∷ []; declared = elementary Int; initial = None } ∷ []))
        ≡ breaks DeclaredTwice 17 ∷ [] }
    // PROGRAM P VAR n : INT; n : INT; n : INT; END_VAR: each later name once, with the place of the first
    ensures three_times { twice_declared (local (declaring (at 14 N) (elementary Int)
        ∷ declaring (at 24 N) (elementary Int) ∷ declaring (at 34 N) (elementary Int) ∷ []))
        ≡ faults.breaks (DeclaredBefore 14) 24 ∷ faults.breaks (DeclaredBefore 14) 34 ∷ [] }
    // TYPE x : ARRAY [1..2] OF INT; x : STRUCT n : INT; END_STRUCT; END_TYPE
    ensures two_types { broken_rules (types (defining (at 5 X) (array (array_of 9 (pos 1) (pos 2) (Elementary Int 0)))
        ∷ defining (at 40 X) (structure (field_of (at 50 N) (elementary Int) ∷ [])) ∷ []) ∷ [])
        ≡ breaks DeclaredTwice 40 ∷ [] }
    // TYPE P : (x); END_TYPE PROGRAM P
    ensures type_and_unit { broken_rules (types (defining (at 5 P) (enumeration (at 10 X ∷ [])) ∷ [])
        ∷ organised Program (at 50 P) [] [] ∷ []) ≡ breaks DeclaredTwice 50 ∷ [] }
    // FUNCTION P : INT and after it the type
    ensures unit_and_type { broken_rules (organised (Function (Elementary Int 14)) (at 9 P) [] []
        ∷ types (defining (at 45 P) (enumeration (at 50 X ∷ [])) ∷ []) ∷ []) ≡ breaks DeclaredTwice 45 ∷ [] }
    // TYPE TON : (x); END_TYPE FUNCTION ABS : INT
    ensures standard { broken_rules (types (defining (at 5 (codes "TON")) (enumeration (at 10 X ∷ [])) ∷ [])
        ∷ organised (Function (Elementary Int 40)) (at 34 (codes "ABS")) [] [] ∷ [])
        ≡ breaks DeclaredTwice 5 ∷ breaks DeclaredTwice 34 ∷ [] }
    // TYPE x : (n); END_TYPE PROGRAM P VAR x : INT; f : INT; n : INT; END_VAR .. FUNCTION_BLOCK F: the names of a type
    // and of a later unit, and the name of a value, which is free
    ensures variables { broken_rules (types (defining (at 5 X) (enumeration (at 10 N ∷ [])) ∷ [])
        ∷ organised Program (at 30 P) (block (Local None) (declaring (at 36 X) (elementary Int)
        ∷ declaring (at 46 F) (elementary Int) ∷ declaring (at 56 N) (elementary Int) ∷ []) ∷ []) []
        ∷ organised FunctionBlock (at 90 F) [] [] ∷ [])
        ≡ breaks DeclaredTwice 36 ∷ breaks DeclaredTwice 46 ∷ [] }
    // TYPE x : STRUCT ABS : INT; p : INT; END_STRUCT; END_TYPE PROGRAM P: fields are free
    ensures fields { broken_rules (types (defining (at 5 X) (structure (field_of (at 16 (codes "ABS")) (elementary Int)
        ∷ field_of (at 26 P) (elementary Int) ∷ [])) ∷ []) ∷ organised Program (at 60 P) [] [] ∷ []) ≡ [] }
    // two units with variables of the same name
    ensures two_units { broken_rules
        (organised Program (at 8 P) (block (Local None) (declaring (at 14 N) (elementary Int) ∷ []) ∷ []) []
        ∷ organised Program (at 58 M) (block (Local None) (declaring (at 64 N) (elementary Int) ∷ []) ∷ []) [] ∷ [])
        ≡ [] }
{}

/// Names of standard functions and blocks, as names of a program's variables.
pub fn standard_names()
    // SR, RS, .. TP
    ensures blocks { places_of (twice_declared (local (declaring_all 100 block_names))) ≡ upwards 100 10 }
    // ABS, MIN, .. ROR
    ensures functions { places_of (twice_declared (local (declaring_all 100 function_names))) ≡ upwards 100 9 }
    // SINT_TO_BOOL, INT_TO_BOOL, .. LWORD_TO_BOOL, BOOL_TO_SINT
    ensures conversions { places_of (twice_declared (local (declaring_all 100 conversion_names))) ≡ upwards 100 13 }
    // BOOL_TO_INT once more, between numbers and bit strings; INT_TO_INT, TIME_TO_INT and others aren't conversions
    ensures both_ways { places_of (twice_declared (local (declaring_all 100 (codes "BOOL_TO_INT" ∷ codes "INT_TO_UDINT"
        ∷ codes "UDINT_TO_INT" ∷ codes "BYTE_TO_LINT" ∷ codes "LINT_TO_BYTE" ∷ [])))) ≡ upwards 100 5 }
    ensures free { places_of (twice_declared (local (declaring_all 100 (codes "INT_TO_INT" ∷ codes "TIME_TO_INT"
        ∷ codes "INT_TO_TIME"
        ∷ codes "INT_TO_" ∷ codes "INT_TO_BOOLS" ∷ codes "ABSS" ∷ codes "TO" ∷ codes "TRUNC" ∷ [])))) ≡ [] }
{}

/// Configurations: globals have a scope, resources have one, and tasks and instances have one per resource.
pub fn configurations()
    // VAR_GLOBAL n : INT; n : INT; END_VAR
    ensures globals { broken_rules
        (configuring None (one_global 40 N (elementary Int) None ∷ one_global 50 N (elementary Int) None ∷ []) [])
        ≡ breaks DeclaredTwice 50 ∷ [] }
    // VAR_GLOBAL TON : INT; p : INT; c : INT; END_VAR beside PROGRAM P, in the configuration C: all free
    ensures free_globals { broken_rules (organised Program (at 8 P) [] [] ∷ configuring None
        (one_global 40 (codes "TON") (elementary Int) None ∷ one_global 55 P (elementary Int) None
        ∷ one_global 65 (codes "C") (elementary Int) None ∷ []) []) ≡ [] }
    // RESOURCE m ON CPU .. RESOURCE m ON CPU
    ensures resources { broken_rules (configuring None [] (resource_at 40 M [] [] ∷ resource_at 90 M [] [] ∷ []))
        ≡ breaks DeclaredTwice 90 ∷ [] }
    // VAR_GLOBAL m : INT; END_VAR RESOURCE m ON CPU TASK m (..); RESOURCE CPU ON CPU TASK m (..): all free
    ensures free_resources { broken_rules (configuring None (one_global 30 M (elementary Int) None ∷ [])
        (resource_at 40 M (task_at 60 M ∷ []) [] ∷ resource_at 90 (codes "CPU") (task_at 110 M ∷ []) [] ∷ [])) ≡ [] }
    // TASK t (..); TASK t (..);
    ensures tasks { broken_rules (configuring None [] (resource_at 40 M (task_at 60 T ∷ task_at 80 T ∷ []) [] ∷ []))
        ≡ breaks DeclaredTwice 80 ∷ [] }
    // PROGRAM n WITH t : P; PROGRAM n WITH t : P;
    ensures instances { broken_rules
        (configuring None [] (resource_at 40 M (task_at 60 T ∷ []) (instance_at 90 N ∷ instance_at 120 N ∷ []) ∷ []))
        ≡ breaks DeclaredTwice 120 ∷ [] }
    // TASK t (..); PROGRAM t WITH t : P;
    ensures task_and_instance { broken_rules
        (configuring None [] (resource_at 40 M (task_at 60 T ∷ []) (instance_at 90 T ∷ []) ∷ []))
        ≡ breaks DeclaredTwice 90 ∷ [] }
    // two resources with an instance of the same name
    ensures instances_apart { broken_rules (configuring None []
        (resource_at 40 M (task_at 60 T ∷ []) (instance_at 90 N ∷ []) ∷ resource_at 140 X (task_at 160 T
        ∷ []) (instance_at 190 N ∷ []) ∷ []))
        ≡ [] }
{}

/// Fields that occur twice in initial values, of `TYPE x : STRUCT n : INT; a : ARRAY [1..2] OF INT; END_STRUCT; t :
/// ARRAY [1..2] OF x; END_TYPE`.
pub fn initial_values()
    // VAR_GLOBAL m : x := (n := 1, n := 2); END_VAR
    ensures of_a_global { broken_rules (types structures
        ∷ configuring None (one_global 100 M (named 104 X) (Some (doubled 109)) ∷ []) [])
        ≡ breaks DeclaredTwice 118 ∷ [] }
    // TYPE f : STRUCT m : x := (n := 1, n := 2); END_STRUCT; END_TYPE
    ensures of_a_field { broken_rules (types structures ∷ types (defining (at 100 F)
        (structure (record { name = at 110 M; declared = named 114 X; initial = Some (doubled 119) } ∷ [])) ∷ []) ∷ [])
        ≡ breaks DeclaredTwice 128 ∷ [] }
    // f : t := [(n := 1, n := 2)], f : t := [2((n := 1, n := 2))]
    ensures of_an_element { broken_rules (starting_structures (list 110 (elements_of (single (doubled 111) ∷ []))))
        ≡ breaks DeclaredTwice 120 ∷ [] }
    ensures of_elements { broken_rules (starting_structures (list 110 (elements_of (repeated (digits 111 (pos 2))
        (doubled 113) ∷ []))))
        ≡ breaks DeclaredTwice 122 ∷ [] }
    // f : t := [(n := 1), (n := 2)]: two scopes
    ensures two_elements { broken_rules (starting_structures (list 110 (elements_of
        (single (initials.structure 111 (members_of ((at 112 N, start_of 117 (pos 1)) ∷ [])))
        ∷ single (initials.structure 121 (members_of ((at 122 N, start_of 127 (pos 2)) ∷ []))) ∷ [])))) ≡ [] }
    // TYPE f : STRUCT m : x; END_STRUCT; END_TYPE .. p : f := (m := (n := 1, n := 2))
    ensures of_a_field_inside { broken_rules (types structures
        ∷ types (defining (at 100 F) (structure (field_of (at 110 M) (named 114 X) ∷ [])) ∷ [])
        ∷ local (starting (at 150 N) (named 154 F)
        (initials.structure 160 (members_of ((at 161 M, doubled 166) ∷ []))) ∷ [])) ≡ breaks DeclaredTwice 175 ∷ [] }
{}
