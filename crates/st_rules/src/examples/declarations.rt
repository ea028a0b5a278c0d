//! Names, types and bounds of declarations.

ghost use Rattle.std.specs.Prelude.{◌≡◌, ◌∷◌, [], pos, negsuc, codes, None, Some};
ghost use Rattle.st_types.specs.declared.kind.Kind.TheVariants.{Int, Sint, Bool as Boolean};
ghost use Rattle.st_types.specs.declared.data_type.SimpleType.TheVariants.{Elementary, Named};
ghost use Rattle.st_types.specs.declared.data_type.VariableType.TheVariants.{Array};
ghost use Rattle.st_types.specs.declared.declaration.Section.TheVariants.{Local, Input, Output, Constant, External};
ghost use Rattle.st_types.specs.declared.unit.UnitSort.TheVariants.{Function, FunctionBlock, Program};
ghost use Rattle.st_types.specs.declared.configuration.GlobalQualifier.TheVariants.{Retain, Constant as ConstantGlobal};
ghost use Rattle.st_types.specs.Expressions.{read};
ghost use Rattle.st_types.specs.Statements.{assign};
ghost use Rattle.st_types.specs.Declarations.{structure, array};
ghost use Rattle.st_types.specs.Sources.{types};
ghost use Rattle.st_rules.specs.declared.rule.Rule.TheVariants.{UnknownName, DeclaredTwice, WrongType, OutOfRange};
ghost use Rattle.st_rules.specs.declared.rule.Rule.TheVariants.{TooDeep, WrongBounds, RetainedAddress};
ghost use Rattle.st_rules.specs.ExampleWords.{broken_rules};
ghost use Rattle.st_rules.specs.ExampleWords.{breaks, at, typed_digits, elementary, named, array_of};
ghost use Rattle.st_rules.specs.ExampleWords.{declaring};
ghost use Rattle.st_rules.specs.ExampleWords.{starting, start_of, block, organised, defining, field_of, declares};
ghost use Rattle.st_rules.specs.ExampleWords.{local};
ghost use Rattle.st_rules.specs.ExampleWords.{configured, located_at, tasked, N, M, F, X, P};
ghost use Rattle.st_rules.specs.ExampleWords.{digits, number, element, part, invoking};
ghost use Rattle.st_rules.specs.ExampleTexts.{configuring, one_global, resource_at, task_at, with_priority};
ghost use Rattle.st_rules.specs.ExampleWords as words;

/// Names that are declared twice, or taken.
pub fn names()
    // PROGRAM P VAR n : INT; n : INT; END_VAR
    ensures again { broken_rules (local (declaring (at 14 N) (elementary Int) ∷ declaring (at 24 N) (elementary Int) ∷ []))
        ≡ breaks DeclaredTwice 24 ∷ [] }
    // .. in another block of the unit
    ensures in_another_block { broken_rules (declares (block (Local None) (declaring (at 14 N) (elementary Int) ∷ [])
        ∷ block External (declaring (at 44 N) (elementary Int) ∷ []) ∷ []))
        ≡ breaks DeclaredTwice 44 ∷ [] }
    // PROGRAM P VAR ABS : INT; p : INT; END_VAR
    ensures taken { broken_rules
        (local (declaring (at 14 (codes "ABS")) (elementary Int) ∷ declaring (at 24 P) (elementary Int) ∷ []))
        ≡ breaks DeclaredTwice 14 ∷ breaks DeclaredTwice 24 ∷ [] }
    // PROGRAM P VAR int_to_int : INT; END_VAR: not a standard function
    ensures free { broken_rules (local (declaring (at 14 (codes "INT_TO_INT")) (elementary Int) ∷ [])) ≡ [] }
    // a program and a block with the same name
    ensures two_units { broken_rules (organised Program (at 8 P) [] [] ∷ organised FunctionBlock (at 50 P) [] [] ∷ [])
        ≡ breaks DeclaredTwice 50 ∷ [] }
    // PROGRAM TON END_PROGRAM
    ensures standard { broken_rules (organised Program (at 8 (codes "TON")) [] [] ∷ []) ≡ breaks DeclaredTwice 8 ∷ [] }
    // TYPE x : STRUCT n : INT; n : INT; END_STRUCT; END_TYPE, and fields have a scope of their own
    ensures fields { broken_rules
        (types (defining (at 5 X) (structure (field_of (at 16 N) (elementary Int) ∷ field_of (at 26 N) (elementary Int)
        ∷ field_of (at 36 X) (elementary Int) ∷ [])) ∷ []) ∷ []) ≡ breaks DeclaredTwice 26 ∷ [] }
{}

/// Types of declarations.
pub fn kinds()
    // PROGRAM P VAR n : foo; END_VAR
    ensures unknown { broken_rules (local (declaring (at 14 N) (named 18 (codes "FOO")) ∷ [])) ≡ breaks UnknownName 18 ∷ [] }
    // PROGRAM P VAR n : ABS; END_VAR
    ensures function { broken_rules (local (declaring (at 14 N) (named 18 (codes "ABS")) ∷ [])) ≡ breaks WrongType 18 ∷ [] }
    // PROGRAM P VAR f : TON; END_VAR
    ensures instance { broken_rules (local (declaring (at 14 F) (named 18 (codes "TON")) ∷ [])) ≡ [] }
    // PROGRAM P VAR CONSTANT f : TON; END_VAR
    ensures constant_instance { broken_rules (declares (block Constant (declaring (at 24 F) (named 28 (codes "TON")) ∷ [])
        ∷ []))
        ≡ breaks WrongType 28 ∷ [] }
    // PROGRAM P VAR f : TON := 5; END_VAR
    ensures instance_with_value { broken_rules (local (starting (at 14 F) (named 18 (codes "TON")) (start_of 25 (pos 5))
        ∷ []))
        ≡ breaks WrongType 18 ∷ [] }
    // PROGRAM P VAR a : ARRAY [1..2] OF TON; END_VAR
    ensures array_of_instances { broken_rules (local (declaring (at 14 N) (Array (array_of 18 (pos 1) (pos 2) (Named (at 34
        (codes "TON"))))) ∷ []))
        ≡ breaks WrongType 34 ∷ [] }
    // TYPE x : STRUCT f : TON; END_STRUCT; END_TYPE
    ensures field_instance { broken_rules (types (defining (at 5 X) (structure (field_of (at 16 F) (named 20
        (codes "TON")) ∷ [])) ∷ []) ∷ [])
        ≡ breaks WrongType 20 ∷ [] }
    // FUNCTION_BLOCK F VAR_INPUT f : TON; END_VAR, VAR_OUTPUT a : ARRAY [1..2] OF INT; END_VAR
    ensures inputs_and_outputs { broken_rules (organised FunctionBlock (at 15 F)
        (block (Input None) (declaring (at 30 N) (named 34 (codes "TON")) ∷ [])
        ∷ block (Output None) (declaring (at 60 M) (words.array 64 (pos 1) (pos 2)) ∷ []) ∷ []) [] ∷ [])
        ≡ breaks WrongType 34 ∷ breaks WrongType 34 ∷ breaks WrongType 64 ∷ [] }
    // FUNCTION F : x .. if x is a structure, FUNCTION M : foo, FUNCTION N : TON
    ensures results { broken_rules (types (defining (at 5 X) (structure (field_of (at 16 N) (elementary Int) ∷ [])) ∷ [])
        ∷ organised (Function (Named (at 53 X))) (at 50 F) [] []
        ∷ organised (Function (Named (at 83 (codes "FOO")))) (at 80 M) [] []
        ∷ organised (Function (Named (at 113 (codes "TON")))) (at 110 N) [] [] ∷ [])
        ≡ breaks WrongType 53 ∷ breaks UnknownName 83 ∷ breaks WrongType 113 ∷ breaks WrongType 113 ∷ [] }
    // FUNCTION F : INT .. PROGRAM P VAR n : F; END_VAR
    ensures own_function { broken_rules (organised (Function (Elementary Int 0)) (at 9 F) [] []
        ∷ organised Program (at 50 P) (block (Local None) (declaring (at 56 N) (named 60 F) ∷ []) ∷ []) [] ∷ [])
        ≡ breaks WrongType 60 ∷ [] }
    // PROGRAM P VAR_EXTERNAL n : TON; END_VAR
    ensures external_instance { broken_rules (declares (block External (declaring (at 24 N) (named 28 (codes "TON")) ∷ [])
        ∷ []))
        ≡ breaks WrongType 28 ∷ [] }
    // VAR_GLOBAL n : TON; m : F; END_VAR with FUNCTION_BLOCK F
    ensures global_instances { broken_rules (organised FunctionBlock (at 15 F) [] []
        ∷ configuring None (one_global 60 N (named 64 (codes "TON")) None ∷ one_global 70 M (named 74 F) None ∷ []) [])
        ≡ breaks WrongType 64 ∷ breaks WrongType 74 ∷ [] }
    // VAR_GLOBAL n : foo; END_VAR
    ensures global_of_unknown { broken_rules (configuring None (one_global 60 N (named 64 (codes "FOO")) None ∷ []) [])
        ≡ breaks UnknownName 64 ∷ [] }
    // TYPE x : STRUCT n : foo; END_STRUCT; m : ARRAY [1..2] OF foo; END_TYPE
    ensures parts_of_unknown { broken_rules (types (defining (at 5 X) (structure (field_of (at 16 N) (named 20
        (codes "FOO")) ∷ []))
        ∷ defining (at 40 M) (array (array_of 44 (pos 1) (pos 2) (Named (at 60 (codes "FOO"))))) ∷ []) ∷ [])
        ≡ breaks UnknownName 20 ∷ breaks UnknownName 60 ∷ [] }
    // PROGRAM P VAR n : foo; END_VAR n(); n[1] := n.x;: for a variable of an unknown type nothing more is reported
    ensures unknown_used { broken_rules (organised Program (at 8 P) (block (Local None) (declaring (at 14 N) (named 18
        (codes "FOO")) ∷ []) ∷ [])
        (invoking 30 N [] ∷ assign (element 35 N (number 37 (pos 1))) (read (part 43 N 45 X)) ∷ []) ∷ [])
        ≡ breaks UnknownName 18 ∷ [] }
    // FUNCTION_BLOCK F VAR n : TON; m : M; END_VAR with FUNCTION_BLOCK M
    ensures instances_in_a_block { broken_rules (organised FunctionBlock (at 15 F) (block (Local None)
        (declaring (at 20 N) (named 24 (codes "TON")) ∷ declaring (at 30 X) (named 34 M) ∷ []) ∷ []) []
        ∷ organised FunctionBlock (at 75 M) [] [] ∷ []) ≡ [] }
    // FUNCTION F : INT VAR f : TON; END_VAR
    ensures function_with_instance { broken_rules (organised (Function (Elementary Int 0)) (at 9 F)
        (block (Local None) (declaring (at 20 N) (named 24 (codes "TON")) ∷ []) ∷ []) [] ∷ [])
        ≡ breaks WrongType 24 ∷ [] }
{}

/// Bounds of arrays.
pub fn bounds()
    // ARRAY [3..1]
    ensures reversed { broken_rules (local (declaring (at 14 N) (words.array 18 (pos 3) (pos 1)) ∷ []))
        ≡ breaks WrongBounds 25 ∷ [] }
    // ARRAY [1..4096]
    ensures widest { broken_rules (local (declaring (at 14 N) (words.array 18 (pos 1) (pos 4096)) ∷ [])) ≡ [] }
    // ARRAY [0..4096]
    ensures too_wide { broken_rules (local (declaring (at 14 N) (words.array 18 (pos 0) (pos 4096)) ∷ []))
        ≡ breaks WrongBounds 25 ∷ [] }
    // ARRAY [-1..-1]
    ensures one_element { broken_rules (local (declaring (at 14 N) (words.array 18 (negsuc 0) (negsuc 0)) ∷ [])) ≡ [] }
    // ARRAY [SINT#1..SINT#200]: judged within its own type
    ensures typed { broken_rules (local (declaring (at 14 N) (Array (record {
      place = 18;
      lower = typed_digits 25 Sint (pos 1);
      upper = typed_digits 33 Sint (pos 200);
      element = Elementary Int 0;
    })) ∷ []))
        ≡ breaks OutOfRange 33 ∷ [] }
    // ARRAY [-SINT#200..1]
    ensures typed_lower { broken_rules (local (declaring (at 14 N) (Array (record {
      place = 18;
      lower = typed_digits 25 Sint (negsuc 199);
      upper = digits 36 (pos 1);
      element = Elementary Int 0;
    })) ∷ []))
        ≡ breaks OutOfRange 25 ∷ [] }
    // ARRAY [-9223372036854775809..-9223372036854775808]: untyped, so within LINT
    ensures below_all { broken_rules (local (declaring (at 14 N) (words.array 18 (negsuc 9223372036854775808)
        (negsuc 9223372036854775807)) ∷ []))
        ≡ breaks OutOfRange 25 ∷ [] }
    // ARRAY [1..0]
    ensures reversed_by_one { broken_rules (local (declaring (at 14 N) (words.array 18 (pos 1) (pos 0)) ∷ []))
        ≡ breaks WrongBounds 25 ∷ [] }
    // TYPE x : ARRAY [3..1] OF INT; END_TYPE
    ensures named_type { broken_rules (types (defining (at 5 X) (array (array_of 9 (pos 3) (pos 1) (Elementary Int 0))) ∷ [])
        ∷ [])
        ≡ breaks WrongBounds 16 ∷ [] }
{}

/// Configurations.
pub fn configurations()
    // VAR_GLOBAL RETAIN s AT %IX0 : BOOL; END_VAR
    ensures retained_address { broken_rules (configured (Some Retain) (located_at 40 N ∷ []) (tasked 5))
        ≡ breaks RetainedAddress 40 ∷ [] }
    // VAR_GLOBAL RETAIN n : BOOL; END_VAR
    ensures retained { broken_rules (configuring (Some Retain) (one_global 40 N (elementary Boolean) None ∷ []) []) ≡ [] }
    // VAR_GLOBAL s AT %IX0 : BOOL; END_VAR
    ensures address { broken_rules (configured None (located_at 40 N ∷ []) (tasked 65535)) ≡ [] }
    // RESOURCE R ON CPU TASK T (PRIORITY := 65536); TASK m (PRIORITY := 0); and in the other order
    ensures first_task { broken_rules (configuring None [] (resource_at 40 X (with_priority 65536 (task_at 60 M)
        ∷ task_at 80 N ∷ []) [] ∷ []))
        ≡ breaks OutOfRange 70 ∷ [] }
    ensures second_task { broken_rules (configuring None [] (resource_at 40 X (task_at 60 M
        ∷ with_priority 65536 (task_at 80 N) ∷ []) [] ∷ []))
        ≡ breaks OutOfRange 90 ∷ [] }
    // VAR_GLOBAL RETAIN n : BOOL; m AT %IX0 : BOOL; END_VAR
    ensures second_address { broken_rules (configured (Some Retain) (one_global 30 M (elementary Boolean) None
        ∷ located_at 40 N ∷ []) (tasked 5))
        ≡ breaks RetainedAddress 40 ∷ [] }
    // PRIORITY := 65536
    ensures priority { broken_rules (configured None [] (tasked 65536)) ≡ breaks OutOfRange 90 ∷ [] }
{}
