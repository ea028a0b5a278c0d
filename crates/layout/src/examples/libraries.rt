//! Worked examples of texts in the terms of the meaning, each proved by computation.

ghost use Rattle.std.specs.Prelude.{◌≡◌, ◌∷◌, [], Some, pos, map, option_map, replicate, codes};
ghost use Rattle.st_types.specs.declared.kind.Kind.TheVariants.{Int, Dint, Time, Bool as Boolean};
ghost use Rattle.st_types.specs.declared.operator.BinaryOperator.TheVariants.{Add};
ghost use Rattle.st_types.specs.Expressions.{binary, call, read, exprs_of};
ghost use Rattle.st_types.specs.Statements.{stmts_of};
ghost use Rattle.st_meaning.specs.CallExamples.{dotted, giving, copying, invoked};
ghost use Rattle.st_meaning.specs.ProgramExamples.{identifier, name, number, set};
ghost use Rattle.st_meaning.specs.Scopes.{function_in, block_in};
ghost use Rattle.layout.specs.Libraries.{library_of_text, programs_of_text};
ghost use Rattle.layout.specs.LayoutExamples.{int, datum, instances_of_no_program, order_of_a_text};
ghost use Rattle.layout.specs.LibraryExamples.{text_of_calls, shown, owners_in};

/// A function has its inputs in order, and starts with its result and all variables at their initial values.
#[tactic(auto, unfolding(crate::specs::Types::shape_within, st_meaning::specs::StandardBlocks::block_of, st_meaning::specs::StandardFunctions::standard_of, st_meaning::specs::StandardFunctions::standard_functions))]
pub fn a_function()
    ensures inputs { option_map (λ f. f.inputs) (function_in (library_of_text text_of_calls).functions (codes "SUM"))
        ≡ Some (codes "A" ∷ codes "B" ∷ codes "D" ∷ []) }
    ensures fresh { option_map (λ f. shown f.fresh)
        (function_in (library_of_text text_of_calls).functions (codes "SUM"))
        ≡ Some ((codes "SUM", datum Dint 0) ∷ (codes "A", int 0) ∷ (codes "B", int 0) ∷ (codes "C[0]", int 1)
        ∷ (codes "C[1]", int 0) ∷ (codes "K", int 3) ∷ (codes "D", datum Boolean 0) ∷ []) }
    ensures body { option_map (λ f. f.body) (function_in (library_of_text text_of_calls).functions (codes "SUM"))
        ≡ Some record {
          externals = [];
          instances = [];
          statements = stmts_of (set (codes "SUM") (number Dint (pos 4)) ∷ []);
        } }
{}

/// The library has the functions and the blocks in the order of the text; a body has its externals, and its instances
/// with their blocks, standard ones too. Its literals have their types.
#[tactic(auto, unfolding(crate::specs::Types::shape_within, st_meaning::specs::StandardBlocks::block_of, st_meaning::specs::StandardFunctions::standard_of, st_meaning::specs::StandardFunctions::standard_functions))]
pub fn a_library()
    ensures functions { map (λ f. f.name) (library_of_text text_of_calls).functions
        ≡ codes "SUM" ∷ codes "TWICE" ∷ [] }
    ensures blocks { map (λ b. b.name) (library_of_text text_of_calls).blocks ≡ codes "OUTER" ∷ codes "ACC" ∷ [] }
    ensures body { option_map (λ b. b.body) (block_in (library_of_text text_of_calls).blocks (codes "OUTER"))
        ≡ Some record {
          externals = codes "G" ∷ [];
          instances = (codes "A", codes "ACC") ∷ (codes "T", codes "TON") ∷ [];
          statements = stmts_of (invoked (codes "A") (giving (codes "STEP") (number Int (pos 3)) ∷ [])
              ∷ set (codes "P") (call (identifier (codes "TWICE"))
              (exprs_of (read (dotted (codes "A") (codes "TOTAL")) ∷ [])))
              ∷ set (codes "G") (binary Add (name (codes "G")) (number Int (pos 1))) ∷ []);
        } }
{}

/// Each instance has its program: its owner, and its unit's body.
#[tactic(auto, unfolding(crate::specs::Types::shape_within, st_meaning::specs::StandardBlocks::block_of, st_meaning::specs::StandardFunctions::standard_of, st_meaning::specs::StandardFunctions::standard_functions))]
pub fn programs_of_instances()
    ensures owners { owners_in text_of_calls
        ≡ (codes "R", codes "P") ∷ (codes "R", codes "Q") ∷ [] }
    // an instance of a block, and one of an unknown name, have none
    ensures no_programs { owners_in instances_of_no_program ≡ (codes "R", codes "P") ∷ [] }
    // by resources in order, each with its own program
    ensures in_order { owners_in order_of_a_text
        ≡ (codes "R", codes "Q") ∷ (codes "R", codes "P") ∷ (codes "S", codes "P") ∷ [] }
    ensures programs { map (λ p. p.body.instances) (programs_of_text order_of_a_text)
        ≡ [] ∷ ((codes "F", codes "F2") ∷ []) ∷ [] ∷ [] }
    ensures bodies { map (λ p. p.body) (programs_of_text text_of_calls)
        ≡ replicate 2 record {
          externals = codes "G" ∷ codes "H" ∷ [];
          instances = (codes "O", codes "OUTER") ∷ [];
          statements = stmts_of (invoked (codes "O") (copying (codes "P") (codes "X") ∷ [])
              ∷ set (codes "G") (binary Add (name (codes "G")) (number Int (pos 1))) ∷ []);
        } }
{}
