// The local names of a function (Python Language Reference 3, "Binding of names").
ghost use Rattle.std.specs.List.{filter};
ghost use Rattle.std.specs.Prelude.{IfOk, [], map, not, ◌+◌, ◌∷◌, ◌≡◌};
ghost use Rattle.std.specs.Rc.{rc_str_bytes};
ghost use Rattle.kishu_meaning.specs.calls.Functions.{all_bound_by, bound_by, bound_in, bound_in_arms, bound_in_block, bound_in_handlers, declared_in, declared_in_arms, declared_in_block, declared_in_handlers, names_in, or_class_name, own_names};
ghost use Rattle.kishu_language.specs.tokens.Names.{is_among};
ghost use Rattle.kishu_language.specs.grammar.Refusals.{titles};
ghost use Rattle.kishu_language.specs.trees.Tree.{definition_of, expression_of, parameter_of, statement_of, text_of};
ghost use Rattle.kishu_language.specs.trees.Parts.{arms_of, expressions_of, handlers_of, statements_of};
ghost use Rattle.kishu_machine.specs.Frames.{texts_of};
ghost use Rattle.kishu_calls.specs.Calls.{Adds};

use kishu_language::{Arm, Def, Expr, Handler, Stmt};
use kishu_machine::is_among;
use std::alloc::{AllocError, Global};
use std::rc::RcStr;

// ---- the names that a body binds or unbinds

fn push_name(names: &mut Vec<RcStr>, name: &RcStr) -> Result<(), AllocError>
    ensures { Adds result names.old names.new (rc_str_bytes name.now ∷ []) }
{
    names.push(name.clone()?)?;
    Ok(())
}

// Those of a target or a place.
#[cycle(targets)]
#[tactic(auto, using(kishu_language::specs::trees::Rows::tree_rows, crate::proofs::LocalNames::none_more))]
fn push_bound(names: &mut Vec<RcStr>, target: &Expr) -> Result<(), AllocError>
    ensures { Adds result names.old names.new (bound_by (expression_of target.now)) }
{
    match target {
        Expr::Name(name) => push_name(names, name),
        Expr::Paren(inner) => push_bound(names, inner),
        Expr::Tuple(targets) => push_all_bound(names, targets),
        Expr::List(targets) => push_all_bound(names, targets),
        Expr::Int(_) => Ok(()),
        Expr::Text(_) => Ok(()),
        Expr::None => Ok(()),
        Expr::True => Ok(()),
        Expr::False => Ok(()),
        Expr::Conditional { .. } => Ok(()),
        Expr::Or(_) => Ok(()),
        Expr::And(_) => Ok(()),
        Expr::Not(_) => Ok(()),
        Expr::Signed(_, _) => Ok(()),
        Expr::Power(_, _) => Ok(()),
        Expr::Sum(_, _) => Ok(()),
        Expr::Product(_, _) => Ok(()),
        Expr::Compared(_, _) => Ok(()),
        Expr::Primary(_, _) => Ok(()),
        Expr::Dict(_) => Ok(()),
    }
}

#[cycle(targets)]
fn push_all_bound(names: &mut Vec<RcStr>, targets: &[Expr]) -> Result<(), AllocError>
    ensures { Adds result names.old names.new (all_bound_by (expressions_of targets.now)) }
{
    for target in targets {
        push_bound(names, target)?;
    }
    Ok(())
}

// The name that an import binds.
fn push_imported(
    alloc: Global,
    names: &mut Vec<RcStr>,
    name: &Option<RcStr>,
) -> Result<(), AllocError>
    ensures { Adds result names.old names.new (or_class_name (text_of name.now) ∷ []) }
{
    match name {
        Some(name) => push_name(names, name),
        None => {
            names.push(RcStr::from_str(alloc, "SimpleNamespace")?)?;
            Ok(())
        }
    }
}

// The name that a handler binds.
fn push_caught(names: &mut Vec<RcStr>, name: &Option<RcStr>) -> Result<(), AllocError>
    ensures { Adds result names.old names.new (names_in (text_of name.now)) }
{
    match name {
        Some(name) => push_name(names, name),
        None => Ok(()),
    }
}

// Those of a statement.
#[cycle(bodies)]
#[tactic(auto, using(kishu_language::specs::trees::StatementRows::statement_rows, crate::proofs::LocalNames::none_more))]
fn push_statement(alloc: Global, names: &mut Vec<RcStr>, statement: &Stmt) -> Result<(), AllocError>
    ensures { Adds result names.old names.new (bound_in (statement_of statement.now)) }
{
    match statement {
        Stmt::Del(places) => push_all_bound(names, places),
        Stmt::Import(name) => push_imported(alloc, names, name),
        Stmt::Update(place, _, _) => push_bound(names, place),
        Stmt::Assign(targets, _) => push_all_bound(names, targets),
        Stmt::If(arms, other) => {
            push_arms(alloc, names, arms)?;
            push_block(alloc, names, other)
        }
        Stmt::While(_, body) => push_block(alloc, names, body),
        Stmt::For(target, _, body) => {
            push_bound(names, target)?;
            push_block(alloc, names, body)
        }
        Stmt::Try {
            body,
            handlers,
            other,
            last,
        } => {
            push_block(alloc, names, body)?;
            push_handlers(alloc, names, handlers)?;
            push_block(alloc, names, other)?;
            push_block(alloc, names, last)
        }
        Stmt::Finally(body, last) => {
            push_block(alloc, names, body)?;
            push_block(alloc, names, last)
        }
        Stmt::Pass => Ok(()),
        Stmt::Break => Ok(()),
        Stmt::Continue => Ok(()),
        Stmt::Return(_) => Ok(()),
        Stmt::Raise(_) => Ok(()),
        Stmt::Assert(_, _) => Ok(()),
        Stmt::Global(_) => Ok(()),
        Stmt::Def(_, _) => Ok(()),
    }
}

#[cycle(bodies)]
fn push_block(alloc: Global, names: &mut Vec<RcStr>, block: &[Stmt]) -> Result<(), AllocError>
    ensures { Adds result names.old names.new (bound_in_block (statements_of block.now)) }
{
    for statement in block {
        push_statement(alloc, names, statement)?;
    }
    Ok(())
}

#[cycle(bodies)]
fn push_arms(alloc: Global, names: &mut Vec<RcStr>, arms: &[Arm]) -> Result<(), AllocError>
    ensures { Adds result names.old names.new (bound_in_arms (arms_of arms.now)) }
{
    for arm in arms {
        push_block(alloc, names, &arm.body)?;
    }
    Ok(())
}

#[cycle(bodies)]
fn push_handlers(
    alloc: Global,
    names: &mut Vec<RcStr>,
    handlers: &[Handler],
) -> Result<(), AllocError>
    ensures { Adds result names.old names.new (bound_in_handlers (handlers_of handlers.now)) }
{
    for handler in handlers {
        push_caught(names, &handler.name)?;
        push_block(alloc, names, &handler.body)?;
    }
    Ok(())
}

// ---- the names that a body declares global

#[cycle(declared)]
#[tactic(auto, using(kishu_language::specs::trees::StatementRows::statement_rows, crate::proofs::LocalNames::none_more))]
fn push_declared(names: &mut Vec<RcStr>, statement: &Stmt) -> Result<(), AllocError>
    ensures { Adds result names.old names.new (declared_in (statement_of statement.now)) }
{
    match statement {
        Stmt::Global(declared) => push_names(names, declared),
        Stmt::If(arms, other) => {
            push_declared_arms(names, arms)?;
            push_declared_block(names, other)
        }
        Stmt::While(_, body) => push_declared_block(names, body),
        Stmt::For(_, _, body) => push_declared_block(names, body),
        Stmt::Try {
            body,
            handlers,
            other,
            last,
        } => {
            push_declared_block(names, body)?;
            push_declared_handlers(names, handlers)?;
            push_declared_block(names, other)?;
            push_declared_block(names, last)
        }
        Stmt::Finally(body, last) => {
            push_declared_block(names, body)?;
            push_declared_block(names, last)
        }
        Stmt::Pass => Ok(()),
        Stmt::Break => Ok(()),
        Stmt::Continue => Ok(()),
        Stmt::Return(_) => Ok(()),
        Stmt::Raise(_) => Ok(()),
        Stmt::Assert(_, _) => Ok(()),
        Stmt::Del(_) => Ok(()),
        Stmt::Import(_) => Ok(()),
        Stmt::Update(_, _, _) => Ok(()),
        Stmt::Assign(_, _) => Ok(()),
        Stmt::Def(_, _) => Ok(()),
    }
}

fn push_names(names: &mut Vec<RcStr>, more: &[RcStr]) -> Result<(), AllocError>
    ensures { Adds result names.old names.new (texts_of more.now) }
{
    for name in more {
        push_name(names, name)?;
    }
    Ok(())
}

#[cycle(declared)]
fn push_declared_block(names: &mut Vec<RcStr>, block: &[Stmt]) -> Result<(), AllocError>
    ensures { Adds result names.old names.new (declared_in_block (statements_of block.now)) }
{
    for statement in block {
        push_declared(names, statement)?;
    }
    Ok(())
}

#[cycle(declared)]
fn push_declared_arms(names: &mut Vec<RcStr>, arms: &[Arm]) -> Result<(), AllocError>
    ensures { Adds result names.old names.new (declared_in_arms (arms_of arms.now)) }
{
    for arm in arms {
        push_declared_block(names, &arm.body)?;
    }
    Ok(())
}

#[cycle(declared)]
fn push_declared_handlers(names: &mut Vec<RcStr>, handlers: &[Handler]) -> Result<(), AllocError>
    ensures { Adds result names.old names.new (declared_in_handlers (handlers_of handlers.now)) }
{
    for handler in handlers {
        push_declared_block(names, &handler.body)?;
    }
    Ok(())
}

// ---- all local names

// Those of the names that aren't among the others.
fn push_undeclared(
    own: &mut Vec<RcStr>,
    names: &[RcStr],
    declared: &[RcStr],
) -> Result<(), AllocError>
    ensures { Adds result own.old own.new (filter (λ x. not (is_among x (texts_of declared.now))) (texts_of names.now)) }
{
    for name in names {
        if !is_among(name.as_str(), declared) {
            push_name(own, name)?;
        }
    }
    Ok(())
}

fn push_titles(own: &mut Vec<RcStr>, params: &[(RcStr, Option<Expr>)]) -> Result<(), AllocError>
    ensures { Adds result own.old own.new (titles (map parameter_of params.now)) }
{
    for (name, _) in params {
        push_name(own, name)?;
    }
    Ok(())
}

/// The names that are local to a function's body: its parameters, and the names that the body binds
/// or unbinds, unless they are declared global.
#[inline(never)]
#[tactic(auto, using(kishu_language::specs::trees::StatementRows::parameters_at, kishu_language::specs::trees::StatementRows::body_at))]
pub fn own_names(alloc: Global, def: &Def) -> Result<Vec<RcStr>, AllocError>
    ensures { IfOk result (λ v. texts_of v.items ≡ own_names (definition_of def.now)) }
{
    let mut own = Vec::new(alloc);
    let mut bound = Vec::new(alloc);
    let mut declared = Vec::new(alloc);
    push_titles(&mut own, def.params.as_slice())?;
    push_block(alloc, &mut bound, &def.body)?;
    push_declared_block(&mut declared, &def.body)?;
    push_undeclared(&mut own, bound.as_slice(), declared.as_slice())?;
    Ok(own)
}
