//! The parts of a text that declarations and units are made of. Each call reads a part at the front of the tokens, and
//! gives it with the tokens after it.
//!
//! Each has four clauses on the grammar: the part that is read is of the grammar; a part of the grammar is read; an
//! unexpected token is the first with which no text begins, of any depth; and a part that is too deep is so in each
//! text that begins with the same tokens. They are about the grammar alone, so that the grammar of whole texts can be
//! built from them.

ghost use Rattle.std.specs.Prelude.{◌≡◌, List, IfOk, IfErr, map};
ghost use Rattle.st_types.specs.declared.literal.Number.{Number as NumberLeaf};
ghost use Rattle.st_types.specs.Expressions as expressions;
ghost use Rattle.st_types.specs.ExpressionViews.{expr_view};
ghost use Rattle.st_types.specs.Initials as initials;
ghost use Rattle.st_types.specs.InitialViews.{initial_view};
ghost use Rattle.st_types.specs.Statements as statements;
ghost use Rattle.st_types.specs.StatementViews.{stmt_view};
ghost use Rattle.st_parse.specs.Tokens.{Tokens, IsNumber};
ghost use Rattle.st_parse.specs.Parsers.{Reads, as_is, each, number_at};
ghost use Rattle.st_parse.specs.Laws.{Anywhere, Applies, Finds, IsRead};
ghost use Rattle.st_parse.specs.Expressions.{IsExpr};
ghost use Rattle.st_parse.specs.Initials.{IsInitial};
ghost use Rattle.st_parse.specs.Statements.{IsStmts};
ghost use Rattle.st_parse.specs.ExpressionReading.{expr_at};
ghost use Rattle.st_parse.specs.InitialReading.{initial_at};
ghost use Rattle.st_parse.specs.StatementReading.{stmts_at};
ghost use Rattle.st_parse.specs.Limits.{IsShallow, IsShallowInitial, AreShallow, HasDepthOne, EndsExpression};
ghost use Rattle.st_parse.specs.Limits.{EndsStatements};

use crate::expression::expr;
use crate::fault::ReadError;
use crate::initial::initial;
use crate::statement::stmts;
use crate::tokens::signed_number;
use st_lex::Token;
use st_types::limits::MAX_DEPTH;
use st_types::{Expr, Initial, Number, Stmt};
use std::alloc::Global;

/// An expression, which is as long as it can be, to a depth of 64.
pub fn read_expression(alloc: Global, tokens: &[Token]) -> Result<(Expr, &[Token]), ReadError>
    ensures value { Reads expr_view result (expr_at MAX_DEPTH 1 tokens.now) }
    // The part that is read is of the grammar.
    ensures found { IfOk result
        (λ x. IsRead (IsExpr 1) EndsExpression tokens.now (expr_view x.0) x.1.now × IsShallow (expr_view x.0)) }
    // A refusal applies.
    ensures refused { IfErr result (λ e. Applies (IsExpr 1) EndsExpression IsShallow tokens.now e) }
    // A part of the grammar is read, unless an allocation fails.
    ensures only { (x : expressions.Expr) (us : Tokens) → IsExpr 1 tokens.now x us → EndsExpression us → IsShallow x
        → Finds expr_view result x us }
{
    expr(alloc, MAX_DEPTH, 1, tokens)
}

/// An initial value, to a depth of 64.
pub fn read_initial(alloc: Global, tokens: &[Token]) -> Result<(Initial, &[Token]), ReadError>
    ensures value { Reads initial_view result (initial_at MAX_DEPTH tokens.now) }
    // The part that is read is of the grammar.
    ensures found { IfOk result
        (λ x. IsRead IsInitial Anywhere tokens.now (initial_view x.0) x.1.now × IsShallowInitial (initial_view x.0)) }
    // A refusal applies.
    ensures refused { IfErr result (λ e. Applies IsInitial Anywhere IsShallowInitial tokens.now e) }
    // A part of the grammar is read, unless an allocation fails.
    ensures only { (x : initials.Initial) (us : Tokens) → IsInitial tokens.now x us → IsShallowInitial x
        → Finds initial_view result x us }
{
    initial(alloc, MAX_DEPTH, tokens)
}

/// Statements, as many as there are, each with its semicolon, to a depth of 64.
pub fn read_statements(alloc: Global, tokens: &[Token]) -> Result<(Vec<Stmt>, &[Token]), ReadError>
    ensures value { Reads (each stmt_view) result (stmts_at MAX_DEPTH tokens.now) }
    // The part that is read is of the grammar.
    ensures found { IfOk result (λ x. IsRead IsStmts EndsStatements tokens.now (map stmt_view x.0.items) x.1.now
        × AreShallow (map stmt_view x.0.items)) }
    // A refusal applies.
    ensures refused { IfErr result (λ e. Applies IsStmts EndsStatements AreShallow tokens.now e) }
    // A part of the grammar is read, unless an allocation fails.
    ensures only { (xs : List statements.Stmt) (us : Tokens) → IsStmts tokens.now xs us → EndsStatements us
        → AreShallow xs → Finds (each stmt_view) result xs us }
{
    stmts(alloc, MAX_DEPTH, tokens)
}

/// A whole number or bit string, with a `-` directly before it or not.
pub fn read_number(tokens: &[Token]) -> Result<(Number, &[Token]), ReadError>
    ensures value { Reads as_is result (number_at tokens.now) }
    // The part that is read is of the grammar.
    ensures found { IfOk result (λ x. IsRead IsNumber Anywhere tokens.now x.0 x.1.now × HasDepthOne x.0) }
    // A refusal applies.
    ensures refused { IfErr result (λ e. Applies IsNumber Anywhere HasDepthOne tokens.now e) }
    // A part of the grammar is read.
    ensures only { (x : NumberLeaf) (us : Tokens) → IsNumber tokens.now x us → Finds as_is result x us }
{
    signed_number(tokens)
}
