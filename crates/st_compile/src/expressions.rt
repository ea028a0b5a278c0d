//! The code of expressions.

ghost use Rattle.std.specs.Prelude.{◌≡◌, ◌≤◌, ◌<◌, ◌+◌, OnOk, IfErr, length, map};
ghost use Rattle.machine_code.specs.declared.limits.TheConstants.{MAX_INSTRUCTIONS, MAX_MEMORY};
ghost use Rattle.slot_trees.specs.Chains.{exprs_of, subscripts_of};
ghost use Rattle.slot_trees.specs.ExpressionViews.{slot_expr_view, place_view, subscript_view};
ghost use Rattle.machine_code.specs.Codes.{expr_code, exprs_code, place_code, subscripts_code};
ghost use Rattle.machine_code.specs.Fitting.{ExprFits, ExprsFit, PlaceFits, SubscriptsFit};
ghost use Rattle.st_compile.specs.Accesses.{known_instr, led_instr};
ghost use Rattle.st_compile.specs.Emitting.{frame_of, units_in, lengths_in, FitsIn, LinkedIn};
ghost use Rattle.st_compile.specs.Lengths.{expr_length, exprs_length, place_length, subscripts_length};
ghost use Rattle.st_compile.specs.Linked.{ExprLinked, ExprsLinked, PlaceLinked, SubscriptsLinked};

use crate::access::Access;
use crate::calls::put_function;
use crate::compile_error::CompileError;
use crate::draft::Draft;
use crate::labels::put_literal;
use crate::places::{first_slot, put_subscript, slot_value};
use crate::scope::Scope;
use machine_code::Instr;
use slot_trees::{Place, SlotExpr, SlotLibrary, Subscript};

/// Puts the code of an expression before the code that runs after it.
#[cycle(unit)]
pub fn put_expr(
    library: &SlotLibrary,
    scope: Scope,
    code: &mut Draft,
    expression: &SlotExpr,
) -> Result<(), CompileError>
    requires room { scope.start + scope.size ≤ scope.memory }
    requires numbered { scope.memory ≤ MAX_MEMORY }
    ensures code { OnOk result (code.new ≡ expr_code (units_in library.now scope) (frame_of scope)
        (slot_expr_view expression.now) code.old) }
    ensures fits { OnOk result (ExprFits (FitsIn library.now scope) (frame_of scope) (slot_expr_view expression.now)) }
    ensures long { OnOk result (length code.new
        ≡ expr_length (lengths_in library.now scope) (slot_expr_view expression.now) + length code.old) }
    ensures wrong { IfErr result (λ e. e ≡ CompileError.NotLinked
        → ¬ (ExprLinked (LinkedIn library.now scope) (frame_of scope) (slot_expr_view expression.now))) }
    ensures full { IfErr result (λ e. e ≡ CompileError.TooManyInstructions → MAX_INSTRUCTIONS
        < expr_length (lengths_in library.now scope) (slot_expr_view expression.now) + length code.old) }
    ensures crowded { IfErr result (λ e. e ≡ CompileError.TooManyPlaces
        → ¬ (ExprFits (FitsIn library.now scope) (frame_of scope) (slot_expr_view expression.now))) }
{
    match expression {
        SlotExpr::Constant(literal) => put_literal(code, literal),
        SlotExpr::Load(place) => put_place(library, scope, code, place, Access::Load),
        SlotExpr::Unary(operator, operand) => {
            code.put(Instr::Unary(*operator))?;
            put_expr(library, scope, code, operand)
        }
        SlotExpr::Binary(operator, operands) => {
            code.put(Instr::Binary(*operator))?;
            put_expr(library, scope, code, &operands.right)?;
            put_expr(library, scope, code, &operands.left)
        }
        SlotExpr::Compute(function, arguments) => {
            let Ok(count) = u16::try_from(arguments.len()) else {
                return Err(CompileError::NotLinked);
            };
            code.put(Instr::Compute(*function, count))?;
            put_exprs(library, scope, code, arguments)
        }
        SlotExpr::Call(function, arguments) => {
            put_function(library, scope, code, *function, arguments.len())?;
            put_exprs(library, scope, code, arguments)
        }
    }
}

/// The same for expressions one after another.
#[cycle(unit)]
#[tactic(auto, using(crate::proofs::Elements::expr_smaller, crate::proofs::Behind::exprs_behind))]
pub fn put_exprs(
    library: &SlotLibrary,
    scope: Scope,
    code: &mut Draft,
    expressions: &[SlotExpr],
) -> Result<(), CompileError>
    requires room { scope.start + scope.size ≤ scope.memory }
    requires numbered { scope.memory ≤ MAX_MEMORY }
    ensures code { OnOk result (code.new ≡ exprs_code (units_in library.now scope) (frame_of scope)
        (exprs_of (map slot_expr_view expressions.now)) code.old) }
    ensures fits { OnOk result (ExprsFit (FitsIn library.now scope) (frame_of scope)
        (exprs_of (map slot_expr_view expressions.now))) }
    ensures long { OnOk result (length code.new
        ≡ exprs_length (lengths_in library.now scope) (exprs_of (map slot_expr_view expressions.now))
        + length code.old) }
    ensures wrong { IfErr result (λ e. e ≡ CompileError.NotLinked
        → ¬ (ExprsLinked (LinkedIn library.now scope) (frame_of scope)
        (exprs_of (map slot_expr_view expressions.now)))) }
    ensures full { IfErr result (λ e. e ≡ CompileError.TooManyInstructions → MAX_INSTRUCTIONS
        < exprs_length (lengths_in library.now scope) (exprs_of (map slot_expr_view expressions.now))
        + length code.old) }
    ensures crowded { IfErr result (λ e. e ≡ CompileError.TooManyPlaces
        → ¬ (ExprsFit (FitsIn library.now scope) (frame_of scope)
        (exprs_of (map slot_expr_view expressions.now)))) }
{
    let mut left = expressions.len();
    while left > 0 {
        left -= 1;
        put_expr(library, scope, code, &expressions[left])?;
    }
    Ok(())
}

/// The same for an elementary variable.
#[cycle(unit)]
pub fn put_place(
    library: &SlotLibrary,
    scope: Scope,
    code: &mut Draft,
    place: &Place,
    access: Access,
) -> Result<(), CompileError>
    requires room { scope.start + scope.size ≤ scope.memory }
    requires numbered { scope.memory ≤ MAX_MEMORY }
    ensures code { OnOk result (code.new ≡ place_code (units_in library.now scope) (frame_of scope)
        (place_view place.now) (known_instr access) (led_instr access) code.old) }
    ensures fits { OnOk result (PlaceFits (FitsIn library.now scope) (frame_of scope) (place_view place.now)) }
    ensures long { OnOk result (length code.new
        ≡ place_length (lengths_in library.now scope) (place_view place.now) + length code.old) }
    ensures wrong { IfErr result (λ e. e ≡ CompileError.NotLinked
        → ¬ (PlaceLinked (LinkedIn library.now scope) (frame_of scope) (place_view place.now))) }
    ensures full { IfErr result (λ e. e ≡ CompileError.TooManyInstructions → MAX_INSTRUCTIONS
        < place_length (lengths_in library.now scope) (place_view place.now) + length code.old) }
    ensures crowded { IfErr result (λ e. e ≡ CompileError.TooManyPlaces
        → ¬ (PlaceFits (FitsIn library.now scope) (frame_of scope) (place_view place.now))) }
{
    let slot = first_slot(scope, place.anchor, &place.subscripts)?;
    if place.subscripts.is_empty() {
        return code.put(access.known(slot));
    }
    code.put(access.led())?;
    put_subscripts(library, scope, code, &place.subscripts)?;
    code.put(Instr::Push(slot_value(slot)))
}

/// The same for subscripts, which move the slot on the stack on.
#[cycle(unit)]
#[tactic(auto, using(crate::proofs::Elements::index_smaller, crate::proofs::Joints::subscripts_drop, crate::proofs::Behind::subscripts_behind))]
fn put_subscripts(
    library: &SlotLibrary,
    scope: Scope,
    code: &mut Draft,
    subscripts: &[Subscript],
) -> Result<(), CompileError>
    requires room { scope.start + scope.size ≤ scope.memory }
    requires numbered { scope.memory ≤ MAX_MEMORY }
    ensures code { OnOk result (code.new ≡ subscripts_code (units_in library.now scope) (frame_of scope)
        (subscripts_of (map subscript_view subscripts.now)) code.old) }
    ensures fits { OnOk result (SubscriptsFit (FitsIn library.now scope) (frame_of scope)
        (subscripts_of (map subscript_view subscripts.now))) }
    ensures long { OnOk result (length code.new
        ≡ subscripts_length (lengths_in library.now scope) (subscripts_of (map subscript_view subscripts.now))
        + length code.old) }
    ensures wrong { IfErr result (λ e. e ≡ CompileError.NotLinked
        → ¬ (SubscriptsLinked (LinkedIn library.now scope) (frame_of scope)
        (subscripts_of (map subscript_view subscripts.now)))) }
    ensures full { IfErr result (λ e. e ≡ CompileError.TooManyInstructions → MAX_INSTRUCTIONS
        < subscripts_length (lengths_in library.now scope) (subscripts_of (map subscript_view subscripts.now))
        + length code.old) }
    ensures crowded { IfErr result (λ e. e ≡ CompileError.TooManyPlaces
        → ¬ (SubscriptsFit (FitsIn library.now scope) (frame_of scope)
        (subscripts_of (map subscript_view subscripts.now)))) }
{
    let mut left = subscripts.len();
    while left > 0 {
        left -= 1;
        put_subscript(code, &subscripts[left])?;
        put_expr(library, scope, code, &subscripts[left].index)?;
    }
    Ok(())
}
