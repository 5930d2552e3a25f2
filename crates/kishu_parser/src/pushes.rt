// One part more at the end of a list.
ghost use Rattle.std.specs.Prelude.{◌≡◌, ◌++◌, ◌∷◌, [], OnOk, IfOk};
ghost use Rattle.std.specs.Rc.{rc_str_bytes};
ghost use Rattle.kishu_language.specs.trees.Tree.{expression_of, statement_of, parameter_of, definition_of};
ghost use Rattle.kishu_parser.specs.Trees as views;
ghost use Rattle.kishu_parser.specs.Statements as lines;
ghost use Rattle.kishu_language.specs.trees.Parts as tree_parts;

use kishu_language::{Argument, Arm, Def, Expr, Handler, Stmt, Trailer};
use std::alloc::{AllocError, Global};
use std::rc::{Rc, RcStr};

pub(crate) fn push_expr(all: &mut Vec<Expr>, next: Expr) -> Result<(), AllocError>
    ensures { OnOk result (views.expressions_in all.new ≡ views.expressions_in all.old ++ expression_of next ∷ []) }
{
    all.push(next)?;
    Ok(())
}

/// The same where all have one operator between them.
pub(crate) fn push_joined(all: &mut Vec<Expr>, next: Expr) -> Result<(), AllocError>
    ensures { OnOk result (views.joined_in all.new ≡ views.joined_in all.old ++ (tt, expression_of next) ∷ []) }
{
    all.push(next)?;
    Ok(())
}

pub(crate) fn push_trailer(all: &mut Vec<Trailer>, next: Trailer) -> Result<(), AllocError>
    ensures { OnOk result (views.trailers_in all.new ≡ views.trailers_in all.old ++ tree_parts.trailer_of next ∷ []) }
{
    all.push(next)?;
    Ok(())
}

pub(crate) fn push_argument(all: &mut Vec<Argument>, next: Argument) -> Result<(), AllocError>
    ensures { OnOk result (views.arguments_in all.new ≡ views.arguments_in all.old ++ tree_parts.argument_of next ∷ []) }
{
    all.push(next)?;
    Ok(())
}

pub(crate) fn push_text(all: &mut Vec<RcStr>, next: RcStr) -> Result<(), AllocError>
    ensures { OnOk result (views.texts_in all.new ≡ views.texts_in all.old ++ rc_str_bytes next ∷ []) }
{
    all.push(next)?;
    Ok(())
}

pub(crate) fn push_statement(all: &mut Vec<Stmt>, next: Stmt) -> Result<(), AllocError>
    ensures { OnOk result (lines.statements_in all.new ≡ lines.statements_in all.old ++ statement_of next ∷ []) }
{
    all.push(next)?;
    Ok(())
}

pub(crate) fn push_arm(all: &mut Vec<Arm>, next: Arm) -> Result<(), AllocError>
    ensures { OnOk result (lines.arms_in all.new ≡ lines.arms_in all.old ++ tree_parts.arm_of next ∷ []) }
{
    all.push(next)?;
    Ok(())
}

pub(crate) fn push_handler(all: &mut Vec<Handler>, next: Handler) -> Result<(), AllocError>
    ensures { OnOk result (lines.handlers_in all.new ≡ lines.handlers_in all.old ++ tree_parts.handler_of next ∷ []) }
{
    all.push(next)?;
    Ok(())
}

pub(crate) fn push_parameter(
    all: &mut Vec<(RcStr, Option<Expr>)>,
    next: (RcStr, Option<Expr>),
) -> Result<(), AllocError>
    ensures { OnOk result (lines.parameters_in all.new ≡ lines.parameters_in all.old ++ parameter_of next ∷ []) }
{
    all.push(next)?;
    Ok(())
}

/// A function and its code as a statement.
#[tactic(auto, using(kishu_language::specs::trees::StatementRows::def_is))]
pub(crate) fn defined(alloc: Global, definition: Def, code: RcStr) -> Result<Stmt, AllocError>
    ensures { IfOk result (λ s. statement_of s ≡ lines.defined (definition_of definition) (rc_str_bytes code)) }
{
    Ok(Stmt::Def(Rc::new(alloc, definition)?, code))
}
