//! Worked examples, proved by computation.

ghost use Rattle.std.specs.Prelude.{◌≡◌, Ok, Some, None, [], ◌∷◌, pos, negsuc, false, true};
ghost use Rattle.st_meaning.specs.Failures.{in_runs};
ghost use Rattle.st_meaning.specs.Loops.{goes_on};
ghost use Rattle.machine_code.specs.MarkedRuns.{marked_ran};
ghost use Rattle.quick_code.specs.QuickRuns.{exec, left};
ghost use Rattle.quick_trees.specs.ArrayExample.{array_body, array_code, array_frame, array_slots, array_words};
ghost use Rattle.quick_trees.specs.BlockExample.{block_body, block_code, block_frame, block_library, block_slots};
ghost use Rattle.quick_trees.specs.BlockExample.{block_words};
ghost use Rattle.quick_trees.specs.CallExample.{call_body, call_code, call_frame, call_library, call_words};
ghost use Rattle.quick_trees.specs.CaseExample.{case_body, case_code, case_frame, case_ways, case_words};
ghost use Rattle.quick_trees.specs.ChoiceExample.{choice_body, choice_code, choice_frame, choice_slots, choice_words};
ghost use Rattle.quick_trees.specs.ConstantExample.{constant_body, constant_code, constant_frame, constant_slots};
ghost use Rattle.quick_trees.specs.ConstantExample.{constant_words};
ghost use Rattle.quick_trees.specs.CountExample.{count_body, count_code, count_frame, count_slots, count_words};
ghost use Rattle.quick_trees.specs.Example.{its_body, its_code, its_frame, its_slots, its_words, mark, no_units};
ghost use Rattle.quick_trees.specs.Example.{untouched};
ghost use Rattle.quick_trees.specs.FunctionExample.{function_body, function_code, function_frame, function_slots};
ghost use Rattle.quick_trees.specs.FunctionExample.{function_words};
ghost use Rattle.quick_trees.specs.LoopExample.{loop_body, loop_code, loop_frame, loop_slots, loop_words};
ghost use Rattle.quick_trees.specs.RepeatExample.{repeat_body, repeat_code, repeat_frame};
ghost use Rattle.quick_trees.specs.ReturnExample.{return_body, return_code, return_frame, return_library, return_words};
ghost use Rattle.quick_trees.specs.ShiftExample.{shift_body, shift_code, shift_frame, shift_slots, shift_words};
ghost use Rattle.quick_trees.specs.ShortForExample.{short_for_body, short_for_code, short_for_frame, short_for_slots};
ghost use Rattle.quick_trees.specs.ShortForExample.{short_for_words};
ghost use Rattle.quick_trees.specs.SignExample.{sign_body, sign_code, sign_frame, sign_slots, sign_words};
ghost use Rattle.quick_trees.specs.StepExample.{step_body, step_code, step_frame, step_slots, step_words};
ghost use Rattle.quick_trees.specs.VariableStepExample.{variable_step_body, variable_step_code, variable_step_frame};
ghost use Rattle.quick_trees.specs.VariableStepExample.{variable_step_slots, variable_step_words};
ghost use Rattle.quick_trees.specs.Programs.{beginning, IsProgram};
ghost use Rattle.quick_trees.specs.UnitValues.{IsMemory, whole};

/// A program of a loop with a choice in it. Its code stands for it. From 0 and 3 both give 10 and 3, and take 25 ticks: one,
/// and three for each of eight turns. The notes say that x was looked up before it was assigned, and y looked up. With 24
/// ticks the code cannot tell.
pub fn a_program_in_quick_code()
    ensures stands { IsProgram its_frame no_units 0 0 its_body }
    ensures words { IsMemory its_frame (whole 0) (beginning its_frame) (its_words (pos 0) (pos 3) 0 0)
        (its_slots 0 3 untouched untouched) }
    ensures run { exec its_code [] 0 50 0 (its_words (pos 0) (pos 3) 0 0) 30
        ≡ Some (left (its_words (pos 10) (pos 3) 3 1) 5) }
    ensures program { marked_ran in_runs no_units 0 its_body 0 0 (its_slots 0 3 untouched untouched) 30
        ≡ Ok (goes_on (its_slots 10 3 (mark true true) (mark true false)), 5) }
    ensures short { exec its_code [] 0 50 0 (its_words (pos 0) (pos 3) 0 0) 24 ≡ None }
{}

/// An IF that assigns one of two values. Its code stands for it, and has no branch: it computes both. From 3, which is odd,
/// both give 6, and from 2 they give 2. Each takes two ticks. With one tick the code cannot tell.
pub fn a_choice_in_quick_code()
    ensures stands { IsProgram choice_frame no_units 0 0 choice_body }
    ensures odd { exec choice_code [] 0 50 0 (choice_words 3 0 0 0) 10 ≡ Some (left (choice_words 6 1 6 3) 8) }
    ensures even { exec choice_code [] 0 50 0 (choice_words 2 0 0 0) 10 ≡ Some (left (choice_words 2 0 7 3) 8) }
    ensures program { marked_ran in_runs no_units 0 choice_body 0 0 (choice_slots 3 untouched) 10
        ≡ Ok (goes_on (choice_slots 6 (mark true true)), 8) }
    ensures other { marked_ran in_runs no_units 0 choice_body 0 0 (choice_slots 2 untouched) 10
        ≡ Ok (goes_on (choice_slots 2 (mark true true)), 8) }
    ensures short { exec choice_code [] 0 50 0 (choice_words 3 0 0 0) 1 ≡ None }
{}

/// A FOR over the elements of an array. Its code stands for it. From 10 and the elements 1, 2 and 3 both make the
/// elements 11, 13 and 16, and take 10 ticks: one, and three for each of three turns. The control variable was assigned
/// first, all else looked up first. With 9 ticks the code cannot tell.
pub fn a_loop_in_quick_code()
    ensures stands { IsProgram loop_frame no_units 0 0 loop_body }
    ensures run { exec loop_code [] 0 50 0 (loop_words 0 10 1 2 3 7 0 0 0) 30
        ≡ Some (left (loop_words 4 16 11 13 16 16 2 3 3) 20) }
    ensures program { marked_ran in_runs no_units 0 loop_body 0 0
        (loop_slots 0 10 1 2 3 untouched untouched untouched) 30
        ≡ Ok (goes_on (loop_slots 4 16 11 13 16 (mark false true) (mark true true) (mark true true)), 20) }
    ensures short { exec loop_code [] 0 50 0 (loop_words 0 10 1 2 3 7 0 0 0) 9 ≡ None }
{}

/// A FOR over a type of 8 bits, by 100. Its code stands for it: the sum is tested before the limit. From 0 both give 201 and
/// 101, and take five ticks: one, and two for each of two turns. With 4 ticks the code cannot tell.
pub fn a_short_for_in_quick_code()
    ensures stands { IsProgram short_for_frame no_units 0 0 short_for_body }
    ensures run { exec short_for_code [] 0 50 0 (short_for_words 0 0 0) 20
        ≡ Some (left (short_for_words 201 101 2) 15) }
    ensures program { marked_ran in_runs no_units 0 short_for_body 0 0 (short_for_slots 0 0 untouched) 20
        ≡ Ok (goes_on (short_for_slots 201 101 (mark false true)), 15) }
    ensures short { exec short_for_code [] 0 50 0 (short_for_words 0 0 0) 4 ≡ None }
{}

/// A FOR from 5 to 1 by a variable, which the body assigns. Its code stands for it. By -2 both give -1 and 1, and take seven
/// ticks: one, and two for each of three turns. By 2 there is no turn, and by 0 the code cannot tell.
pub fn a_variable_step_in_quick_code()
    ensures stands { IsProgram variable_step_frame no_units 0 0 variable_step_body }
    ensures run { exec variable_step_code [] 0 50 0
        (variable_step_words (pos 0) (negsuc 1) (pos 0 ∷ pos 0 ∷ pos 0 ∷ pos 0 ∷ []) 0 0) 20
        ≡ Some (left (variable_step_words (negsuc 0) (pos 1) (negsuc 1 ∷ pos 1 ∷ pos 1 ∷ negsuc 0 ∷ []) 2 3) 13) }
    ensures program { marked_ran in_runs no_units 0 variable_step_body 0 0
        (variable_step_slots (pos 0) (negsuc 1) untouched untouched) 20
        ≡ Ok (goes_on (variable_step_slots (negsuc 0) (pos 1) (mark false true) (mark true true)), 13) }
    ensures short { exec variable_step_code [] 0 50 0
        (variable_step_words (pos 0) (negsuc 1) (pos 0 ∷ pos 0 ∷ pos 0 ∷ pos 0 ∷ []) 0 0) 6 ≡ None }
    ensures run_past { exec variable_step_code [] 0 50 0
        (variable_step_words (pos 0) (pos 2) (pos 0 ∷ pos 0 ∷ pos 0 ∷ pos 0 ∷ []) 0 0) 20
        ≡ Some (left (variable_step_words (pos 5) (pos 2) (pos 2 ∷ pos 0 ∷ pos 5 ∷ pos 1 ∷ []) 2 1) 19) }
    ensures program_past { marked_ran in_runs no_units 0 variable_step_body 0 0
        (variable_step_slots (pos 0) (pos 2) untouched untouched) 20
        ≡ Ok (goes_on (variable_step_slots (pos 5) (pos 2) (mark false true) (mark true false)), 19) }
    ensures no_step { exec variable_step_code [] 0 50 0
        (variable_step_words (pos 0) (pos 0) (pos 0 ∷ pos 0 ∷ pos 0 ∷ pos 0 ∷ []) 0 0) 20 ≡ None }
{}

/// A WHILE whose turn is two instructions, with its constants in them, over the third of four slots, which is its only word.
/// Its code stands for it. From 4 both give 10, and take 13 ticks: one, and two for each of six turns.
pub fn a_count_in_quick_code()
    ensures stands { IsProgram count_frame no_units 2 0 count_body }
    ensures run { exec count_code [] 0 50 0 (count_words 4 0) 20 ≡ Some (left (count_words 10 3) 7) }
    ensures program { marked_ran in_runs no_units 2 count_body 0 0 (count_slots 4 untouched) 20
        ≡ Ok (goes_on (count_slots 10 (mark true true)), 7) }
    ensures short { exec count_code [] 0 50 0 (count_words 4 0) 12 ≡ None }
{}

/// A call within a call. The input of the function stays where its argument is: a slot, and then the inner result. From 3
/// both give 12, and take three ticks: one for the assignment, and one for that in each call.
pub fn a_call_in_quick_code()
    ensures stands { IsProgram call_frame call_library 0 1 call_body }
    ensures run { exec call_code [] 0 50 0 (call_words 3 0 0 0 0 0) 20 ≡ Some (left (call_words 3 12 6 12 1 2) 17) }
    ensures program { marked_ran in_runs call_library 0 call_body 0 1 (its_slots 3 0 untouched untouched) 20
        ≡ Ok (goes_on (its_slots 3 12 (mark true false) (mark false true)), 17) }
    ensures short { exec call_code [] 0 50 0 (call_words 3 0 0 0 0 0) 2 ≡ None }
{}

/// A CASE by a table. From 3 both give 20, and from 7, which no label holds, they give 7. They take two ticks.
pub fn a_case_in_quick_code()
    ensures stands { IsProgram case_frame no_units 0 0 case_body }
    ensures run { exec case_code case_ways 0 50 0 (case_words 3 0 0 0) 20 ≡ Some (left (case_words 3 20 1 2) 18) }
    ensures program { marked_ran in_runs no_units 0 case_body 0 0 (its_slots 3 0 untouched untouched) 20
        ≡ Ok (goes_on (its_slots 3 20 (mark true false) (mark false true)), 18) }
    ensures run_past { exec case_code case_ways 0 50 0 (case_words 7 0 0 0) 20 ≡ Some (left (case_words 7 7 1 2) 18) }
    ensures program_past { marked_ran in_runs no_units 0 case_body 0 0 (its_slots 7 0 untouched untouched) 20
        ≡ Ok (goes_on (its_slots 7 7 (mark true false) (mark false true)), 18) }
    ensures short { exec case_code case_ways 0 50 0 (case_words 3 0 0 0) 1 ≡ None }
{}

/// A REPEAT that an EXIT may leave. Its code stands for it. From 0 and 3 both leave it by EXIT with 4, after 13 ticks: one,
/// three for each of three turns that go back, and three for the last. From 0 and 9 they give 5.
pub fn a_repeat_in_quick_code()
    ensures stands { IsProgram repeat_frame no_units 0 0 repeat_body }
    ensures run { exec repeat_code [] 0 50 0 (case_words 0 3 0 0) 20 ≡ Some (left (case_words 4 3 3 1) 7) }
    ensures program { marked_ran in_runs no_units 0 repeat_body 0 0 (its_slots 0 3 untouched untouched) 20
        ≡ Ok (goes_on (its_slots 4 3 (mark true true) (mark true false)), 7) }
    ensures run_through { exec repeat_code [] 0 50 0 (case_words 0 9 0 0) 20 ≡ Some (left (case_words 5 9 3 1) 5) }
    ensures program_through { marked_ran in_runs no_units 0 repeat_body 0 0 (its_slots 0 9 untouched untouched) 20
        ≡ Ok (goes_on (its_slots 5 9 (mark true true) (mark true false)), 5) }
{}

/// A function that counts down, and returns from within its loop. From 5 both give 2, and take 11 ticks: for the assignment
/// and the loop, four choices, three ways back, and the two statements that are chosen in the end.
pub fn a_return_in_quick_code()
    ensures stands { IsProgram return_frame return_library 0 1 return_body }
    ensures run { exec return_code [] 0 50 0 (return_words 5 0 0 0 0 0) 20
        ≡ Some (left (return_words 5 2 2 2 1 2) 9) }
    ensures program { marked_ran in_runs return_library 0 return_body 0 1 (its_slots 5 0 untouched untouched) 20
        ≡ Ok (goes_on (its_slots 5 2 (mark true false) (mark false true)), 9) }
    ensures short { exec return_code [] 0 50 0 (return_words 5 0 0 0 0 0) 10 ≡ None }
{}

/// A block that sums up, called on an instance. Its input is x + 1, and its output is copied to x. From 4 and a sum of 10
/// both give 15, and take two ticks: one for the call, and one for the block's assignment.
pub fn a_block_in_quick_code()
    ensures stands { IsProgram block_frame block_library 0 1 block_body }
    ensures run { exec block_code [] 0 50 0 (block_words 4 0 10 0 0 0 0) 20
        ≡ Some (left (block_words 15 5 15 5 3 2 3) 18) }
    ensures program { marked_ran in_runs block_library 0 block_body 0 1
        (block_slots 4 0 10 untouched untouched untouched) 20
        ≡ Ok (goes_on (block_slots 15 5 15 (mark true true) (mark false true) (mark true true)), 18) }
    ensures short { exec block_code [] 0 50 0 (block_words 4 0 10 0 0 0 0) 1 ≡ None }
{}

/// A standard block that detects a rise, called on an instance. If x is TRUE and was not before, both set y, and take a
/// tick. Members are looked up before they are assigned, but for the input, which the call assigned.
pub fn a_standard_block_in_quick_code()
    ensures stands { IsProgram step_frame no_units 0 1 step_body }
    ensures run { exec step_code [] 0 50 0 (step_words 1 0 0 0 0 (0 ∷ 0 ∷ 0 ∷ 0 ∷ 0 ∷ [])) 20
        ≡ Some (left (step_words 1 1 1 1 1 (1 ∷ 2 ∷ 3 ∷ 3 ∷ 2 ∷ [])) 19) }
    ensures program { marked_ran in_runs no_units 0 step_body 0 1
        (step_slots 1 0 0 0 0 (untouched ∷ untouched ∷ untouched ∷ untouched ∷ untouched ∷ [])) 20
        ≡ Ok (
          goes_on (step_slots 1 1 1 1 1
              (mark true false ∷ mark false true ∷ mark true true ∷ mark true true ∷ mark false true ∷ [])),
          19,
        ) }
    ensures short { exec step_code [] 0 50 0 (step_words 1 0 0 0 0 (0 ∷ 0 ∷ 0 ∷ 0 ∷ 0 ∷ [])) 0 ≡ None }
{}

/// An element of an array with three subscripts is assigned to another one. With i = 2 and j = 1 both assign a[1, 2, 1] to
/// a[2, 1, 2], and take a tick. The instructions themselves note the look at an element or its assignment.
pub fn an_array_in_quick_code()
    ensures stands { IsProgram array_frame no_units 0 0 array_body }
    ensures run { exec array_code [] 0 50 0 (array_words 2 1 7 0 0 0 0 0) 20
        ≡ Some (left (array_words 2 1 7 7 7 4 1 2) 19) }
    ensures program { marked_ran in_runs no_units 0 array_body 0 0 (array_slots 2 1 7 0 untouched untouched) 20
        ≡ Ok (goes_on (array_slots 2 1 7 7 (mark true false) (mark false true)), 19) }
    ensures out_of_bounds { exec array_code [] 0 50 0 (array_words 3 1 7 0 0 0 0 0) 20 ≡ None }
{}

/// An element is assigned to the one two before it, by subscripts that are sums with a constant. With i = 2 both assign a[3]
/// to a[1], and take a tick; the constants are in the instructions alone. There is no a[4], so with i = 3 the code cannot
/// tell.
pub fn shifted_subscripts_in_quick_code()
    ensures stands { IsProgram shift_frame no_units 0 0 shift_body }
    ensures run { exec shift_code [] 0 50 0 (shift_words 2 0 7 0 0 0 0) 20
        ≡ Some (left (shift_words 2 7 7 7 1 2 1) 19) }
    ensures program { marked_ran in_runs no_units 0 shift_body 0 0 (shift_slots 2 0 7 untouched untouched untouched) 20
        ≡ Ok (goes_on (shift_slots 2 7 7 (mark true false) (mark false true) (mark true false)), 19) }
    ensures out_of_bounds { exec shift_code [] 0 50 0 (shift_words 3 0 7 0 0 0 0) 20 ≡ None }
{}

/// A number is negated, and each bit of a BOOL and of a DWORD is flipped. From 5, TRUE and 7 both give -5, FALSE and
/// 4294967288, and take three ticks. There is no INT that is 32768, so with -32768 the code cannot tell.
pub fn a_sign_in_quick_code()
    ensures stands { IsProgram sign_frame no_units 0 0 sign_body }
    ensures run { exec sign_code [] 0 50 0 (sign_words (pos 5) 1 7 0) 20
        ≡ Some (left (sign_words (negsuc 4) 0 4294967288 3) 17) }
    ensures program { marked_ran in_runs no_units 0 sign_body 0 0 (sign_slots (pos 5) 1 7 untouched) 20
        ≡ Ok (goes_on (sign_slots (negsuc 4) 0 4294967288 (mark true true)), 17) }
    ensures out_of_range { exec sign_code [] 0 50 0 (sign_words (negsuc 32767) 1 7 0) 20 ≡ None }
{}

/// Constants in the instructions of a difference, a product and a quotient. From 5 and 13 both give 2 and 9, and take three
/// ticks.
pub fn constants_in_quick_code()
    ensures stands { IsProgram constant_frame no_units 0 0 constant_body }
    ensures run { exec constant_code [] 0 50 0 (constant_words 5 13 0) 20 ≡ Some (left (constant_words 2 9 3) 17) }
    ensures program { marked_ran in_runs no_units 0 constant_body 0 0 (constant_slots 5 13 untouched) 20
        ≡ Ok (goes_on (constant_slots 2 9 (mark true true)), 17) }
    ensures short { exec constant_code [] 0 50 0 (constant_words 5 13 0) 2 ≡ None }
{}

/// An INT is converted to a WORD, whose bits are moved down. From 13 both give 6, and take a tick. No WORD is 65536, so from
/// there the code cannot tell.
pub fn functions_in_quick_code()
    ensures stands { IsProgram function_frame no_units 0 0 function_body }
    ensures run { exec function_code [] 0 50 0 (function_words 13 0 0 0 0) 20
        ≡ Some (left (function_words 13 6 13 1 2) 19) }
    ensures program { marked_ran in_runs no_units 0 function_body 0 0 (function_slots 13 0 untouched untouched) 20
        ≡ Ok (goes_on (function_slots 13 6 (mark true false) (mark false true)), 19) }
    ensures out_of_range { exec function_code [] 0 50 0 (function_words 65536 0 0 0 0) 20 ≡ None }
{}
