// The parts of a tree, joined.
ghost use Rattle.std.specs.Prelude.{◌≡◌, ◌++◌, ◌∷◌, [], map, IfOk, OnOk};
ghost use Rattle.kishu_language.specs.reading.ReadExpressions as spec;
ghost use Rattle.std.specs.Rc.{rc_str_bytes};
ghost use Rattle.std.specs.String.{string_bytes};
ghost use Rattle.kishu_language.specs.trees.Tree as t;
ghost use Rattle.kishu_language.specs.grammar.Grammar as grammar;
ghost use Rattle.kishu_language.specs.trees.Tree.{expression_of};
ghost use Rattle.kishu_parser.specs.Trees as views;

use kishu_language::{Comparison, Expr, Link, Operand, Operator, Pair, Sign, Trailer};
use std::alloc::{AllocError, Global};
use std::rc::RcStr;

/// The only one, or a tuple of several.
pub(crate) fn alone(mut all: Vec<Expr>) -> Expr
    ensures { expression_of result ≡ grammar.alone (views.expressions_in all) }
{
    if all.len() == 1 {
        all.remove(0)
    } else {
        Expr::Tuple(all)
    }
}

/// Operands with `or` between them; an operand with nothing after it is itself.
pub(crate) fn any_of(first: Expr, mut following: Vec<Expr>) -> Result<Expr, AllocError>
    ensures { IfOk result (λ e. expression_of e ≡ grammar.unless_alone grammar.any_of (expression_of first) (views.joined_in following)) }
{
    if following.is_empty() {
        return Ok(first);
    }
    following.insert(0, first)?;
    Ok(Expr::Or(following))
}

/// The same with `and`.
pub(crate) fn all_of(first: Expr, mut following: Vec<Expr>) -> Result<Expr, AllocError>
    ensures { IfOk result (λ e. expression_of e ≡ grammar.unless_alone grammar.all_of (expression_of first) (views.joined_in following)) }
{
    if following.is_empty() {
        return Ok(first);
    }
    following.insert(0, first)?;
    Ok(Expr::And(following))
}

/// An operand and its comparisons.
pub(crate) fn compared(alloc: Global, first: Expr, links: Vec<Link>) -> Result<Expr, AllocError>
    ensures { IfOk result (λ e. expression_of e ≡ grammar.unless_alone grammar.compared_with (expression_of first) (views.links_in links)) }
{
    if links.is_empty() {
        return Ok(first);
    }
    Ok(Expr::Compared(Box::new(alloc, first)?, links))
}

/// A term and what is added to it or subtracted.
pub(crate) fn summed(
    alloc: Global,
    first: Expr,
    following: Vec<Operand>,
) -> Result<Expr, AllocError>
    ensures { IfOk result (λ e. expression_of e ≡ grammar.unless_alone grammar.summed (expression_of first) (views.operands_in following)) }
{
    if following.is_empty() {
        return Ok(first);
    }
    Ok(Expr::Sum(Box::new(alloc, first)?, following))
}

/// A factor and what it is multiplied with or divided by.
pub(crate) fn multiplied(
    alloc: Global,
    first: Expr,
    following: Vec<Operand>,
) -> Result<Expr, AllocError>
    ensures { IfOk result (λ e. expression_of e ≡ grammar.unless_alone grammar.multiplied (expression_of first) (views.operands_in following)) }
{
    if following.is_empty() {
        return Ok(first);
    }
    Ok(Expr::Product(Box::new(alloc, first)?, following))
}

/// An atom and its trailers.
pub(crate) fn with_trailers(
    alloc: Global,
    first: Expr,
    trailers: Vec<Trailer>,
) -> Result<Expr, AllocError>
    ensures { IfOk result (λ e. expression_of e ≡ grammar.with_trailers (expression_of first) (views.trailers_in trailers)) }
{
    if trailers.is_empty() {
        return Ok(first);
    }
    Ok(Expr::Primary(Box::new(alloc, first)?, trailers))
}

pub(crate) fn conditional(
    alloc: Global,
    value: Expr,
    test: Expr,
    other: Expr,
) -> Result<Expr, AllocError>
    ensures { IfOk result (λ e. expression_of e ≡ t.conditional (expression_of value) (expression_of test) (expression_of other)) }
{
    Ok(Expr::Conditional {
        value: Box::new(alloc, value)?,
        test: Box::new(alloc, test)?,
        other: Box::new(alloc, other)?,
    })
}

pub(crate) fn negated(alloc: Global, operand: Expr) -> Result<Expr, AllocError>
    ensures { IfOk result (λ e. expression_of e ≡ t.not (expression_of operand)) }
{
    Ok(Expr::Not(Box::new(alloc, operand)?))
}

#[tactic(auto, using(kishu_language::specs::trees::Rows::signed_is))]
pub(crate) fn signed(alloc: Global, sign: Sign, operand: Expr) -> Result<Expr, AllocError>
    ensures { IfOk result (λ e. expression_of e ≡ t.signed sign (expression_of operand)) }
{
    Ok(Expr::Signed(sign, Box::new(alloc, operand)?))
}

#[tactic(auto, using(kishu_language::specs::trees::Rows::power_is))]
pub(crate) fn power(alloc: Global, base: Expr, exponent: Expr) -> Result<Expr, AllocError>
    ensures { IfOk result (λ e. expression_of e ≡ t.power (expression_of base) (expression_of exponent)) }
{
    Ok(Expr::Power(Box::new(alloc, base)?, Box::new(alloc, exponent)?))
}

#[tactic(auto, using(kishu_language::specs::trees::Rows::paren_is))]
pub(crate) fn parenthesised(alloc: Global, inside: Expr) -> Result<Expr, AllocError>
    ensures { IfOk result (λ e. expression_of e ≡ t.paren (expression_of inside)) }
{
    Ok(Expr::Paren(Box::new(alloc, inside)?))
}

/// One more operand behind an operator.
pub(crate) fn push_operand(
    all: &mut Vec<Operand>,
    operator: Operator,
    value: Expr,
) -> Result<(), AllocError>
    ensures { OnOk result (views.operands_in all.new ≡ views.operands_in all.old ++ (operator, expression_of value) ∷ []) }
{
    all.push(Operand { operator, value })?;
    Ok(())
}

pub(crate) fn push_link(
    all: &mut Vec<Link>,
    comparison: Comparison,
    value: Expr,
) -> Result<(), AllocError>
    ensures { OnOk result (views.links_in all.new ≡ views.links_in all.old ++ (comparison, expression_of value) ∷ []) }
{
    all.push(Link { comparison, value })?;
    Ok(())
}

pub(crate) fn push_pair(all: &mut Vec<Pair>, key: Expr, value: Expr) -> Result<(), AllocError>
    ensures { OnOk result (views.pairs_in all.new ≡ views.pairs_in all.old ++ (expression_of key, expression_of value) ∷ []) }
{
    all.push(Pair { key, value })?;
    Ok(())
}

/// Whether it is several with a comma.
pub(crate) fn is_several(e: &Expr) -> bool
    ensures { result ≡ spec.is_several (expression_of e.now) }
{
    match e {
        Expr::Tuple(all) => !all.is_empty(),
        Expr::Conditional { .. } => false,
        Expr::Or(_) => false,
        Expr::And(_) => false,
        Expr::Not(_) => false,
        Expr::Compared(_, _) => false,
        Expr::Sum(_, _) => false,
        Expr::Product(_, _) => false,
        Expr::Signed(_, _) => false,
        Expr::Power(_, _) => false,
        Expr::Primary(_, _) => false,
        Expr::Name(_) => false,
        Expr::Int(_) => false,
        Expr::Text(_) => false,
        Expr::None => false,
        Expr::True => false,
        Expr::False => false,
        Expr::Paren(_) => false,
        Expr::List(_) => false,
        Expr::Dict(_) => false,
    }
}

fn in_order(alloc: Global, parts: &[RcStr]) -> Result<String, AllocError>
    ensures { IfOk result (λ s. string_bytes s ≡ grammar.joined (map rc_str_bytes parts.now)) }
{
    let mut all = String::new(alloc);
    for part in parts {
        all.push_str(part.as_str())?;
    }
    Ok(all)
}

/// Adjacent texts as one.
pub(crate) fn joined(alloc: Global, parts: &[RcStr]) -> Result<RcStr, AllocError>
    ensures { IfOk result (λ x. rc_str_bytes x ≡ grammar.joined (map rc_str_bytes parts.now)) }
{
    if let [only] = parts {
        return only.clone();
    }
    RcStr::from_string(in_order(alloc, parts)?)
}
