//! Expressions, from names to slots.

ghost use Rattle.std.specs.Prelude.{◌≡◌, ◌≤◌, None, Some, Option, map, IfErr, IfOk};
ghost use Rattle.st_types.specs.declared.limits.TheConstants.{MAX_PATHS};
ghost use Rattle.st_types.specs.Expressions.{Selectors, exprs_of, no_selectors, selector_then, selectors_of};
ghost use Rattle.st_types.specs.ExpressionViews.{expr_view, selector_view, variable_view};
ghost use Rattle.st_meaning.specs.NameTypes.{Declared};
ghost use Rattle.st_meaning.specs.StandardFunctions.{standard_of};
ghost use Rattle.symbols.specs.PlaceTypes.{place_type_view};
ghost use Rattle.layout.specs.Shapes.{size};
ghost use Rattle.layout.specs.Types.{shape_of_type};
ghost use Rattle.slot_trees.specs.Chains.{exprs_of as slot_exprs_of};
ghost use Rattle.slot_trees.specs.ExpressionViews.{place_view, slot_expr_view};
ghost use Rattle.slot_trees.specs.Linking.{Selected, linked, linked_all, linked_call, linked_selectors};
ghost use Rattle.slot_trees.specs.Linking.{linked_target, linked_variable};
ghost use Rattle.slot_trees.specs.Tables.{Table};
ghost use Rattle.st_link.specs.Shapes.{IsExpanded};
ghost use Rattle.st_link.specs.BodyTables.{ServesBody};
ghost use Rattle.st_link.specs.Places.{LeadsOn};

use crate::body_table::BodyTable;
use crate::copies::copied_literal;
use crate::link_error::LinkError;
use crate::places::{Reached, at_element, at_member, elements_at, placed};
use slot_trees::{Place, SlotExpr};
use st_types::{Expr, Identifier, Selector, Variable};
use std::alloc::Global;
use symbols::{PlaceType, standard_function};

/// A call of a standard function or one of the text.
fn called(
    table: &BodyTable,
    function: &Identifier,
    arguments: Vec<SlotExpr>,
) -> Result<SlotExpr, LinkError>
    ensures linked { IfOk result (λ x. (text : Declared) (t : Table) → ServesBody table.now text t
        → linked_call t function.now.name (standard_of function.now.name)
        (slot_exprs_of (map slot_expr_view arguments.items)) ≡ Some (slot_expr_view x)) }
    ensures none { IfErr result (λ e. e ≡ LinkError.NotThere → (text : Declared) (t : Table)
        → ServesBody table.now text t → linked_call t function.now.name (standard_of function.now.name)
        (slot_exprs_of (map slot_expr_view arguments.items)) ≡ None) }
{
    if let Some(standard) = standard_function(&function.name) {
        return Ok(SlotExpr::compute(standard, arguments));
    }
    match table.function(&function.name) {
        Some(number) => Ok(SlotExpr::call(number, arguments)),
        None => Err(LinkError::NotThere),
    }
}

/// The expression over slots.
#[cycle(link)]
pub fn link(alloc: Global, table: &BodyTable, expression: &Expr) -> Result<SlotExpr, LinkError>
    ensures linked { IfOk result (λ x. (text : Declared) (t : Table) → ServesBody table.now text t
        → linked t (expr_view expression.now) ≡ Some (slot_expr_view x)) }
    ensures none { IfErr result (λ e. e ≡ LinkError.NotThere → (text : Declared) (t : Table)
        → ServesBody table.now text t → linked t (expr_view expression.now) ≡ None) }
{
    match expression {
        Expr::Literal(literal) => Ok(SlotExpr::constant(alloc, copied_literal(alloc, literal)?)?),
        Expr::Variable(variable) => Ok(SlotExpr::load(link_variable(alloc, table, variable)?)),
        Expr::Call(function, arguments) => {
            let arguments = link_all(alloc, table, arguments)?;
            called(table, function, arguments)
        }
        Expr::Parenthesis(_, inner) => link(alloc, table, inner),
        Expr::Unary(operator, _, operand) => {
            let operand = link(alloc, table, operand)?;
            Ok(SlotExpr::unary(alloc, *operator, operand)?)
        }
        Expr::Binary(operator, left, right) => {
            let left = link(alloc, table, left)?;
            let right = link(alloc, table, right)?;
            Ok(SlotExpr::binary(alloc, *operator, left, right)?)
        }
    }
}

#[cycle(link)]
fn link_all(
    alloc: Global,
    table: &BodyTable,
    expressions: &[Expr],
) -> Result<Vec<SlotExpr>, LinkError>
    ensures linked { IfOk result (λ xs. (text : Declared) (t : Table) → ServesBody table.now text t
        → linked_all t (exprs_of (map expr_view expressions.now))
        ≡ Some (slot_exprs_of (map slot_expr_view xs.items))) }
    ensures none { IfErr result (λ e. e ≡ LinkError.NotThere → (text : Declared) (t : Table)
        → ServesBody table.now text t → linked_all t (exprs_of (map expr_view expressions.now)) ≡ None) }
{
    let mut linked = Vec::new(alloc);
    for expression in expressions {
        linked.push(link(alloc, table, expression)?)?;
    }
    Ok(linked)
}

/// The place of a variable that is read.
#[cycle(link)]
fn link_variable(alloc: Global, table: &BodyTable, variable: &Variable) -> Result<Place, LinkError>
    ensures linked { IfOk result (λ p. (text : Declared) (t : Table) → ServesBody table.now text t
        → linked_variable t (variable_view variable.now) ≡ Some (place_view p)) }
    ensures none { IfErr result (λ e. e ≡ LinkError.NotThere → (text : Declared) (t : Table)
        → ServesBody table.now text t → linked_variable t (variable_view variable.now) ≡ None) }
{
    let Some(symbol) = table.symbol(&variable.name.name) else {
        return Err(LinkError::NotThere);
    };
    let reached = link_selectors(alloc, table, &variable.selectors, symbol.declared)?;
    placed(table.shapes, symbol.anchor, reached)
}

/// Where selectors lead from a variable of this declared type.
#[cycle(link)]
fn link_selectors<'a>(
    alloc: Global,
    table: &BodyTable<'_, 'a>,
    selectors: &[Selector],
    declared: PlaceType<'a>,
) -> Result<Reached<'a>, LinkError>
    ensures linked { IfOk result (λ reached. (text : Declared) (t : Table) → ServesBody table.now text t
        → IsExpanded text (place_type_view declared.entry)
        → size (shape_of_type text (place_type_view declared.entry)) ≤ MAX_PATHS
        → LeadsOn text t (linked_selectors t (shape_of_type text (place_type_view declared.entry))
        (selectors_of (map selector_view selectors.now))) reached no_selectors) }
    ensures none { IfErr result (λ e. e ≡ LinkError.NotThere → (text : Declared) (t : Table)
        → ServesBody table.now text t → IsExpanded text (place_type_view declared.entry)
        → size (shape_of_type text (place_type_view declared.entry)) ≤ MAX_PATHS
        → linked_selectors t (shape_of_type text (place_type_view declared.entry))
        (selectors_of (map selector_view selectors.now)) ≡ None) }
{
    let mut reached = Reached {
        offset: 0,
        subscripts: Vec::new(alloc),
        declared,
    };
    for selector in selectors {
        reached = link_selector(alloc, table, selector, reached)?;
    }
    Ok(reached)
}

/// One selector further.
#[cycle(link)]
fn link_selector<'a>(
    alloc: Global,
    table: &BodyTable<'_, 'a>,
    selector: &Selector,
    reached: Reached<'a>,
) -> Result<Reached<'a>, LinkError>
    ensures linked { IfOk result (λ next. (text : Declared) (t : Table) (whole : Option Selected) (rest : Selectors)
        → ServesBody table.now text t
        → LeadsOn text t whole reached.entry (selector_then (selector_view selector.now) rest)
        → LeadsOn text t whole next rest) }
    ensures none { IfErr result (λ e. e ≡ LinkError.NotThere → (text : Declared) (t : Table)
        (whole : Option Selected) (rest : Selectors) → ServesBody table.now text t
        → LeadsOn text t whole reached.entry (selector_then (selector_view selector.now) rest) → whole ≡ None) }
{
    match selector {
        Selector::Member(name) => at_member(table.shapes, reached, name),
        Selector::Subscript(index) => {
            let elements = elements_at(table.shapes, reached.declared)?;
            let index = link(alloc, table, index)?;
            at_element(reached, elements, index)
        }
    }
}

/// The place of a variable that is assigned.
pub fn link_target(
    alloc: Global,
    table: &BodyTable,
    variable: &Variable,
) -> Result<Place, LinkError>
    ensures linked { IfOk result (λ p. (text : Declared) (t : Table) → ServesBody table.now text t
        → linked_target t (variable_view variable.now) ≡ Some (place_view p)) }
    ensures none { IfErr result (λ e. e ≡ LinkError.NotThere → (text : Declared) (t : Table)
        → ServesBody table.now text t → linked_target t (variable_view variable.now) ≡ None) }
{
    let Some(symbol) = table.symbol(&variable.name.name) else {
        return Err(LinkError::NotThere);
    };
    if symbol.is_input {
        return Err(LinkError::NotThere);
    }
    let reached = link_selectors(alloc, table, &variable.selectors, symbol.declared)?;
    placed(table.shapes, symbol.anchor, reached)
}
