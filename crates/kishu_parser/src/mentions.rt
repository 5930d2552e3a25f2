// The names of a function's body, in the order of the text.
ghost use Rattle.std.specs.Prelude.{◌≡◌, ◌∷◌, [], map, flat_map, IfOk, OnOk};
ghost use Rattle.std.specs.Rc.{rc_str_bytes};
ghost use Rattle.kishu_language.specs.trees.Tree as t;
ghost use Rattle.kishu_language.specs.trees.Tree.{expression_of, statement_of, parameter_of, value_of, text_of};
ghost use Rattle.kishu_language.specs.grammar.Refusals as spec;
ghost use Rattle.kishu_language.specs.grammar.Refusals.{variable, declared};
ghost use Rattle.kishu_language.specs.trees.Parts as tree_parts;
ghost use Rattle.kishu_parser.specs.Sets.{Adds, Walks, names_in, with_names};

use crate::texts::Texts;
use kishu_language::{Argument, Arm, Def, Expr, Handler, Link, Operand, Pair, Stmt, Trailer};
use std::alloc::{AllocError, Global};
use std::rc::RcStr;

fn add(seen: &mut Texts, name: &RcStr) -> Result<(), AllocError>
    ensures { OnOk result (Adds (variable (rc_str_bytes name.now) ∷ []) seen.old seen.new) }
{
    seen.insert(name)?;
    Ok(())
}

/// Adds the variables of an expression.
#[cycle(variables)]
fn add_expr(seen: &mut Texts, e: &Expr) -> Result<(), AllocError>
    ensures { OnOk result (Adds (spec.in_expression (expression_of e.now)) seen.old seen.new) }
{
    match e {
        Expr::Name(name) => add(seen, name),
        Expr::Int(_) => Ok(()),
        Expr::Text(_) => Ok(()),
        Expr::None => Ok(()),
        Expr::True => Ok(()),
        Expr::False => Ok(()),
        Expr::Tuple(all) => add_exprs(seen, all),
        Expr::Or(all) => add_exprs(seen, all),
        Expr::And(all) => add_exprs(seen, all),
        Expr::List(all) => add_exprs(seen, all),
        Expr::Conditional { value, test, other } => {
            add_expr(seen, value)?;
            add_expr(seen, test)?;
            add_expr(seen, other)
        }
        Expr::Not(e) => add_expr(seen, e),
        Expr::Signed(_, e) => add_expr(seen, e),
        Expr::Paren(e) => add_expr(seen, e),
        Expr::Compared(first, links) => {
            add_expr(seen, first)?;
            add_links(seen, links)
        }
        Expr::Sum(first, operands) => {
            add_expr(seen, first)?;
            add_operands(seen, operands)
        }
        Expr::Product(first, operands) => {
            add_expr(seen, first)?;
            add_operands(seen, operands)
        }
        Expr::Power(base, exponent) => {
            add_expr(seen, base)?;
            add_expr(seen, exponent)
        }
        Expr::Primary(first, trailers) => {
            add_expr(seen, first)?;
            add_trailers(seen, trailers)
        }
        Expr::Dict(pairs) => add_pairs(seen, pairs),
    }
}

#[cycle(variables)]
fn add_exprs(seen: &mut Texts, all: &[Expr]) -> Result<(), AllocError>
    ensures { OnOk result (Adds (spec.in_expressions (t.expressions (map expression_of all.now))) seen.old seen.new) }
{
    for e in all {
        add_expr(seen, e)?;
    }
    Ok(())
}

#[cycle(variables)]
fn add_links(seen: &mut Texts, links: &[Link]) -> Result<(), AllocError>
    ensures { OnOk result (Adds (spec.in_links (t.links (map tree_parts.link_of links.now))) seen.old seen.new) }
{
    for link in links {
        add_expr(seen, &link.value)?;
    }
    Ok(())
}

#[cycle(variables)]
fn add_operands(seen: &mut Texts, operands: &[Operand]) -> Result<(), AllocError>
    ensures { OnOk result (Adds (spec.in_operands (t.operands (map tree_parts.operand_of operands.now))) seen.old seen.new) }
{
    for operand in operands {
        add_expr(seen, &operand.value)?;
    }
    Ok(())
}

#[cycle(variables)]
fn add_pairs(seen: &mut Texts, pairs: &[Pair]) -> Result<(), AllocError>
    ensures { OnOk result (Adds (spec.in_pairs (t.pairs (map tree_parts.pair_of pairs.now))) seen.old seen.new) }
{
    for pair in pairs {
        add_expr(seen, &pair.key)?;
        add_expr(seen, &pair.value)?;
    }
    Ok(())
}

#[cycle(variables)]
fn add_trailers(seen: &mut Texts, trailers: &[Trailer]) -> Result<(), AllocError>
    ensures { OnOk result (Adds (spec.in_trailers (t.trailers (map tree_parts.trailer_of trailers.now))) seen.old seen.new) }
{
    for trailer in trailers {
        add_trailer(seen, trailer)?;
    }
    Ok(())
}

#[cycle(variables)]
fn add_trailer(seen: &mut Texts, trailer: &Trailer) -> Result<(), AllocError>
    ensures { OnOk result (Adds (spec.in_trailer (tree_parts.trailer_of trailer.now)) seen.old seen.new) }
{
    match trailer {
        Trailer::Attribute(_) => Ok(()),
        Trailer::Call(arguments) => add_arguments(seen, arguments),
        Trailer::Index(e) => add_expr(seen, e),
        Trailer::Slice { start, stop, step } => {
            add_optional(seen, start)?;
            add_optional(seen, stop)?;
            add_optional(seen, step)
        }
    }
}

#[cycle(variables)]
fn add_arguments(seen: &mut Texts, arguments: &[Argument]) -> Result<(), AllocError>
    ensures { OnOk result (Adds (spec.in_arguments (t.arguments (map tree_parts.argument_of arguments.now))) seen.old seen.new) }
{
    for argument in arguments {
        add_argument(seen, argument)?;
    }
    Ok(())
}

#[cycle(variables)]
fn add_argument(seen: &mut Texts, argument: &Argument) -> Result<(), AllocError>
    ensures { OnOk result (Adds (spec.in_argument (tree_parts.argument_of argument.now)) seen.old seen.new) }
{
    match argument {
        Argument::Plain(e) => add_expr(seen, e),
        Argument::Keyword(_, e) => add_expr(seen, e),
    }
}

#[cycle(variables)]
fn add_optional(seen: &mut Texts, e: &Option<Expr>) -> Result<(), AllocError>
    ensures { OnOk result (Adds (spec.in_optional (value_of e.now)) seen.old seen.new) }
{
    match e {
        Some(e) => add_expr(seen, e),
        None => Ok(()),
    }
}

/// Adds the name that an import binds, without one the class's own.
fn add_import(alloc: Global, seen: &mut Texts, name: &Option<RcStr>) -> Result<(), AllocError>
    ensures { OnOk result (Adds (spec.in_import (text_of name.now)) seen.old seen.new) }
{
    match name {
        Some(name) => add(seen, name),
        None => {
            let class = RcStr::from_str(alloc, "SimpleNamespace")?;
            add(seen, &class)
        }
    }
}

/// Adds the name that a handler binds.
fn add_caught(seen: &mut Texts, name: &Option<RcStr>) -> Result<(), AllocError>
    ensures { OnOk result (Adds (spec.variables (text_of name.now)) seen.old seen.new) }
{
    match name {
        Some(name) => add(seen, name),
        None => Ok(()),
    }
}

/// Adds the variables of the defaults.
fn add_defaults(seen: &mut Texts, params: &[(RcStr, Option<Expr>)]) -> Result<(), AllocError>
    ensures { OnOk result (Adds (flat_map spec.in_parameter (map parameter_of params.now)) seen.old seen.new) }
{
    for (_, default) in params {
        add_optional(seen, default)?;
    }
    Ok(())
}

/// Whether none of these names was seen.
fn none_seen(seen: &Texts, names: &[RcStr]) -> bool
    ensures { Walks (map declared (map rc_str_bytes names.now)) result seen.now seen.now }
{
    for name in names {
        if seen.contains(name) {
            return false;
        }
    }
    true
}

/// Whether no name of a global statement is among those that were seen before it. Adds the
/// variables of the statement.
#[cycle(globals)]
fn statement_fits(alloc: Global, seen: &mut Texts, statement: &Stmt) -> Result<bool, AllocError>
    ensures { IfOk result (λ fits. Walks (spec.in_statement (statement_of statement.now)) fits seen.old seen.new) }
{
    match statement {
        Stmt::Pass => Ok(true),
        Stmt::Break => Ok(true),
        Stmt::Continue => Ok(true),
        Stmt::Return(e) => {
            add_optional(seen, e)?;
            Ok(true)
        }
        Stmt::Raise(e) => {
            add_optional(seen, e)?;
            Ok(true)
        }
        Stmt::Assert(test, message) => {
            add_expr(seen, test)?;
            add_optional(seen, message)?;
            Ok(true)
        }
        Stmt::Del(places) => {
            add_exprs(seen, places)?;
            Ok(true)
        }
        Stmt::Global(names) => Ok(none_seen(seen, names)),
        Stmt::Import(name) => {
            add_import(alloc, seen, name)?;
            Ok(true)
        }
        Stmt::Update(place, _, value) => {
            add_expr(seen, place)?;
            add_expr(seen, value)?;
            Ok(true)
        }
        Stmt::Assign(targets, value) => {
            add_exprs(seen, targets)?;
            add_expr(seen, value)?;
            Ok(true)
        }
        Stmt::If(arms, other) => {
            if !arms_fit(alloc, seen, arms)? {
                return Ok(false);
            }
            statements_fit(alloc, seen, other)
        }
        Stmt::While(test, body) => {
            add_expr(seen, test)?;
            statements_fit(alloc, seen, body)
        }
        Stmt::For(targets, walked, body) => {
            add_expr(seen, targets)?;
            add_expr(seen, walked)?;
            statements_fit(alloc, seen, body)
        }
        Stmt::Try {
            body,
            handlers,
            other,
            last,
        } => {
            if !statements_fit(alloc, seen, body)? {
                return Ok(false);
            }
            if !handler_bodies_fit(alloc, seen, handlers)? {
                return Ok(false);
            }
            if !statements_fit(alloc, seen, other)? {
                return Ok(false);
            }
            statements_fit(alloc, seen, last)
        }
        Stmt::Finally(body, last) => {
            if !statements_fit(alloc, seen, body)? {
                return Ok(false);
            }
            statements_fit(alloc, seen, last)
        }
        Stmt::Def(definition, _) => {
            add_head(seen, definition)?;
            Ok(true)
        }
    }
}

/// Adds the name of a function and the variables of its defaults; its body has names of its own.
fn add_head(seen: &mut Texts, definition: &Def) -> Result<(), AllocError>
    ensures { OnOk result (Adds (variable (t.definition_of definition.now).title ∷ flat_map spec.in_parameter (t.definition_of definition.now).parameters) seen.old seen.new) }
{
    add(seen, &definition.name)?;
    add_defaults(seen, &definition.params)
}

#[cycle(globals)]
fn statements_fit(alloc: Global, seen: &mut Texts, all: &[Stmt]) -> Result<bool, AllocError>
    ensures { IfOk result (λ fits. Walks (spec.in_statements (t.statements (map statement_of all.now))) fits seen.old seen.new) }
{
    for statement in all {
        if !statement_fits(alloc, seen, statement)? {
            return Ok(false);
        }
    }
    Ok(true)
}

#[cycle(globals)]
fn arms_fit(alloc: Global, seen: &mut Texts, arms: &[Arm]) -> Result<bool, AllocError>
    ensures { IfOk result (λ fits. Walks (spec.in_arms (t.arms (map tree_parts.arm_of arms.now))) fits seen.old seen.new) }
{
    for arm in arms {
        add_expr(seen, &arm.test)?;
        if !statements_fit(alloc, seen, &arm.body)? {
            return Ok(false);
        }
    }
    Ok(true)
}

#[cycle(globals)]
fn handler_bodies_fit(
    alloc: Global,
    seen: &mut Texts,
    handlers: &[Handler],
) -> Result<bool, AllocError>
    ensures { IfOk result (λ fits. Walks (spec.in_handlers (t.handlers (map tree_parts.handler_of handlers.now))) fits seen.old seen.new) }
{
    for handler in handlers {
        add_optional(seen, &handler.class)?;
        add_caught(seen, &handler.name)?;
        if !statements_fit(alloc, seen, &handler.body)? {
            return Ok(false);
        }
    }
    Ok(true)
}

/// Adds the names of the parameters.
fn add_titles(seen: &mut Texts, params: &[(RcStr, Option<Expr>)]) -> Result<(), AllocError>
    ensures { OnOk result (names_in seen.new ≡ with_names (names_in seen.old) (spec.titles (map parameter_of params.now))) }
{
    for (name, _) in params {
        seen.insert(name)?;
    }
    Ok(())
}

/// Whether no global name of a body is a parameter, or stood before as a variable.
pub(crate) fn globals_fit(
    alloc: Global,
    params: &[(RcStr, Option<Expr>)],
    body: &[Stmt],
) -> Result<bool, AllocError>
    ensures { IfOk result (λ b. b ≡ spec.globals_fit (map parameter_of params.now) (t.statements (map statement_of body.now))) }
{
    let mut seen = Texts::new(alloc);
    add_titles(&mut seen, params)?;
    statements_fit(alloc, &mut seen, body)
}
