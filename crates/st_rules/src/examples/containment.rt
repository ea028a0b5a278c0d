//! Types and units that contain themselves, or are too deep.

ghost use Rattle.std.specs.Prelude.{◌≡◌, ◌∷◌, ◌++◌, [], pos, codes, None, Some, true, false};
ghost use Rattle.st_types.specs.declared.kind.Kind.TheVariants.{Int};
ghost use Rattle.st_types.specs.declared.data_type.SimpleType.TheVariants.{Elementary, Named};
ghost use Rattle.st_types.specs.declared.data_type.VariableType.TheVariants.{Array};
ghost use Rattle.st_types.specs.declared.declaration.Section.TheVariants.{Local, Constant, External};
ghost use Rattle.st_types.specs.declared.unit.UnitSort.TheVariants.{Function, FunctionBlock, Program};
ghost use Rattle.st_types.specs.Declarations.{structure};
ghost use Rattle.st_types.specs.Declarations as definitions;
ghost use Rattle.st_rules.specs.ExampleWords.{modes, MODE};
ghost use Rattle.st_types.specs.Sources.{types};
ghost use Rattle.st_rules.specs.declared.rule.Rule.TheVariants.{WrongType, TooDeep};
ghost use Rattle.st_rules.specs.ExampleWords.{broken_rules};
ghost use Rattle.st_rules.specs.ExampleWords.{setting, breaks, at, name, calling, elementary, named, array_of};
ghost use Rattle.st_rules.specs.ExampleWords.{declaring};
ghost use Rattle.st_rules.specs.ExampleWords.{block};
ghost use Rattle.st_rules.specs.ExampleTexts.{chain_of_blocks, chain_of_functions};
ghost use Rattle.st_rules.specs.ExampleWords.{declares, organised, defining, field_of, local, chain_of_types, N, M};
ghost use Rattle.st_rules.specs.ExampleWords.{F, X, P};

/// Types and units that contain themselves.
pub fn cycles()
    // PROGRAM P VAR x : P; END_VAR: of its own type
    ensures program { broken_rules (local (declaring (at 14 X) (named 18 P) ∷ []))
        ≡ breaks TooDeep 8 ∷ breaks WrongType 18 ∷ [] }
    // PROGRAM P VAR x : ARRAY [1..2] OF P; END_VAR: the program, its array, and the type of the elements
    ensures program_by_an_array { broken_rules
        (local (declaring (at 14 X) (Array (array_of 18 (pos 1) (pos 2) (Named (at 34 P)))) ∷ []))
        ≡ breaks TooDeep 8 ∷ breaks TooDeep 18 ∷ breaks WrongType 34 ∷ [] }
    // PROGRAM P VAR x : M; END_VAR and PROGRAM M VAR x : P; END_VAR
    ensures two_programs { broken_rules
        (organised Program (at 8 P) (block (Local None) (declaring (at 14 X) (named 18 M) ∷ []) ∷ []) []
        ∷ organised Program (at 58 M) (block (Local None) (declaring (at 64 X) (named 68 P) ∷ []) ∷ []) [] ∷ [])
        ≡ breaks TooDeep 8 ∷ breaks TooDeep 58 ∷ breaks WrongType 18 ∷ breaks WrongType 68 ∷ [] }
    // PROGRAM P VAR CONSTANT x : P; END_VAR, and PROGRAM P VAR_EXTERNAL x : P; END_VAR: an external isn't a part
    ensures constant_part { broken_rules (declares (block Constant (declaring (at 23 X) (named 27 P) ∷ []) ∷ []))
        ≡ breaks TooDeep 8 ∷ breaks WrongType 27 ∷ [] }
    ensures external { broken_rules (declares (block External (declaring (at 23 X) (named 27 P) ∷ []) ∷ []))
        ≡ breaks WrongType 27 ∷ [] }
    // TYPE x : STRUCT n : x; END_STRUCT; END_TYPE
    ensures structure { broken_rules (types (defining (at 5 X) (structure (field_of (at 16 N) (named 20 X) ∷ [])) ∷ []) ∷ [])
        ≡ breaks TooDeep 5 ∷ [] }
    // the same by an array without a name
    ensures by_an_array { broken_rules (types (defining (at 5 X)
        (structure (field_of (at 16 N) (Array (array_of 20 (pos 1) (pos 2) (Named (at 40 X)))) ∷ [])) ∷ []) ∷ [])
        ≡ breaks TooDeep 5 ∷ breaks TooDeep 20 ∷ [] }
    // FUNCTION F : INT F := F() ..: it calls itself
    ensures function { broken_rules
        (organised (Function (Elementary Int 13)) (at 9 F) [] (setting 17 F (calling 22 F []) ∷ []) ∷ [])
        ≡ breaks TooDeep 9 ∷ [] }
    // two functions that call one another
    ensures two_functions { broken_rules (organised (Function (Elementary Int 13)) (at 9 F) [] (setting 17 F
        (calling 22 M []) ∷ [])
        ∷ organised (Function (Elementary Int 13)) (at 59 M) [] (setting 67 M (calling 72 F []) ∷ []) ∷ [])
        ≡ breaks TooDeep 9 ∷ breaks TooDeep 59 ∷ [] }
    // a block that contains a block that contains the first
    ensures blocks { broken_rules
        (organised FunctionBlock (at 15 F) (block (Local None) (declaring (at 20 N) (named 24 M) ∷ []) ∷ []) []
        ∷ organised FunctionBlock (at 65 M) (block (Local None) (declaring (at 70 N) (named 74 F) ∷ []) ∷ []) [] ∷ [])
        ≡ breaks TooDeep 15 ∷ breaks TooDeep 65 ∷ [] }
    // A block that calls a function isn't a part of it, and externals aren't parts.
    ensures no_cycle { broken_rules (organised (Function (Elementary Int 13)) (at 9 F) [] []
        ∷ organised FunctionBlock (at 65 M) (block External (declaring (at 70 N) (elementary Int) ∷ []) ∷ [])
        (setting 87 N (calling 92 F []) ∷ []) ∷ []) ≡ [] }
{}

/// Chains of structures, the last of which has an INT, each given by its length.
pub fn depths()
    // with the INT 64 deep
    ensures deepest { broken_rules (types (chain_of_types 63) ∷ []) ≡ [] }
    // one more, and the first is too deep
    ensures too_deep { broken_rules (types (chain_of_types 64) ∷ []) ≡ breaks TooDeep 64 ∷ [] }
{}

/// Chains of blocks, and of functions that call one another, each given by its length.
pub fn depths_of_units()
    // blocks, the last of which has an INT
    ensures deepest_block { broken_rules (chain_of_blocks (elementary Int) 63) ≡ [] }
    ensures block_too_deep { broken_rules (chain_of_blocks (elementary Int) 64) ≡ breaks TooDeep 64 ∷ [] }
    // a standard block has the depth 2
    ensures deepest_over_timer { broken_rules (chain_of_blocks (named 1000 (codes "TON")) 62) ≡ [] }
    ensures too_deep_over_timer { broken_rules (chain_of_blocks (named 1000 (codes "TON")) 63) ≡ breaks TooDeep 63 ∷ [] }
    // an enumerated type has no parts, and neither has FUNCTION_BLOCK X without variables
    ensures deepest_over_enumeration { broken_rules (types (modes ∷ []) ∷ chain_of_blocks (named 1000 MODE) 63) ≡ [] }
    ensures deepest_over_empty_block { broken_rules (organised FunctionBlock (at 1000 X) [] []
        ∷ chain_of_blocks (named 1000 X) 63)
        ≡ [] }
    ensures too_deep_over_empty_block { broken_rules
        (organised FunctionBlock (at 1000 X) [] [] ∷ chain_of_blocks (named 1000 X) 64) ≡ breaks TooDeep 64 ∷ [] }
    // PROGRAM P VAR x : ARRAY [1..2] OF the 63rd structure; END_VAR, which is 64 deep, and of the 62nd
    ensures array_too_deep { broken_rules (types (chain_of_types 63) ∷ local (declaring (at 2010 X)
        (Array (array_of 2014 (pos 1) (pos 2) (Named (at 2030 (63 ∷ []))))) ∷ [])) ≡ breaks TooDeep 2014 ∷ [] }
    ensures deepest_array { broken_rules (types (chain_of_types 62) ∷ local (declaring (at 2010 X)
        (Array (array_of 2014 (pos 1) (pos 2) (Named (at 2030 (62 ∷ []))))) ∷ [])) ≡ [] }
    // TYPE n : ARRAY [1..2] OF the 62nd structure; END_TYPE
    ensures deepest_array_type { broken_rules (types (defining (at 2000 N)
        (definitions.array (array_of 2004 (pos 1) (pos 2) (Named (at 2020 (62 ∷ []))))) ∷ chain_of_types 62) ∷ [])
        ≡ [] }
    // and OF the 63rd
    ensures array_type_too_deep { broken_rules (types (defining (at 2000 N)
        (definitions.array (array_of 2004 (pos 1) (pos 2) (Named (at 2020 (63 ∷ []))))) ∷ chain_of_types 63) ∷ [])
        ≡ breaks TooDeep 2000 ∷ [] }
    // a program over the deepest block has no limit of depth
    ensures program_over_deepest { broken_rules
        (organised Program (at 2000 P) (block (Local None) (declaring (at 2010 N) (named 2014 (63 ∷ [])) ∷ []) ∷ []) []
        ∷ chain_of_blocks (elementary Int) 63) ≡ [] }
    // a function's result is a part
    ensures deepest_function { broken_rules (chain_of_functions 63) ≡ [] }
    ensures function_too_deep { broken_rules (chain_of_functions 64) ≡ breaks TooDeep 64 ∷ [] }
{}
