// What may be assigned to.
ghost use Rattle.std.specs.Prelude.{◌≡◌, map};
ghost use Rattle.kishu_language.specs.trees.Tree.{expression_of};
ghost use Rattle.kishu_language.specs.trees.Tree as t;
ghost use Rattle.kishu_language.specs.grammar.Targets as spec;
ghost use Rattle.kishu_language.specs.trees.Parts as tree_parts;

use kishu_language::{Expr, Trailer};

/// Whether it is an attribute or an item.
fn is_place_trailer(trailer: &Trailer) -> bool
    ensures { result ≡ spec.is_place_trailer (tree_parts.trailer_of trailer.now) }
{
    match trailer {
        Trailer::Attribute(_) => true,
        Trailer::Index(_) => true,
        Trailer::Call(_) => false,
        Trailer::Slice { .. } => false,
    }
}

/// Whether the last of the trailers is an attribute or an item.
fn ends_in_place(trailers: &[Trailer]) -> bool
    ensures { result ≡ spec.ends_in_place (t.trailers (map tree_parts.trailer_of trailers.now)) }
{
    match trailers.last() {
        Some(last) => is_place_trailer(last),
        None => false,
    }
}

/// A name, an attribute or an item.
pub(crate) fn is_place(e: &Expr) -> bool
    ensures { result ≡ spec.is_place (expression_of e.now) }
{
    match e {
        Expr::Name(_) => true,
        Expr::Primary(_, trailers) => ends_in_place(trailers.as_slice()),
        Expr::Tuple(_) => false,
        Expr::Conditional { .. } => false,
        Expr::Or(_) => false,
        Expr::And(_) => false,
        Expr::Not(_) => false,
        Expr::Compared(_, _) => false,
        Expr::Sum(_, _) => false,
        Expr::Product(_, _) => false,
        Expr::Signed(_, _) => false,
        Expr::Power(_, _) => false,
        Expr::Int(_) => false,
        Expr::Text(_) => false,
        Expr::None => false,
        Expr::True => false,
        Expr::False => false,
        Expr::Paren(_) => false,
        Expr::List(_) => false,
        Expr::Dict(_) => false,
    }
}

/// A place, or targets in parentheses or brackets, or one and more with a comma.
#[cycle(target)]
pub(crate) fn is_target(e: &Expr) -> bool
    ensures { result ≡ spec.is_target (expression_of e.now) }
{
    match e {
        Expr::Name(_) => true,
        Expr::Primary(_, trailers) => ends_in_place(trailers.as_slice()),
        Expr::Paren(inside) => is_target(inside),
        Expr::Tuple(all) => are_targets(all.as_slice()),
        Expr::List(all) => are_targets(all.as_slice()),
        Expr::Conditional { .. } => false,
        Expr::Or(_) => false,
        Expr::And(_) => false,
        Expr::Not(_) => false,
        Expr::Compared(_, _) => false,
        Expr::Sum(_, _) => false,
        Expr::Product(_, _) => false,
        Expr::Signed(_, _) => false,
        Expr::Power(_, _) => false,
        Expr::Int(_) => false,
        Expr::Text(_) => false,
        Expr::None => false,
        Expr::True => false,
        Expr::False => false,
        Expr::Dict(_) => false,
    }
}

/// One and more, each a target.
#[cycle(target)]
fn are_targets(all: &[Expr]) -> bool
    ensures { result ≡ spec.are_targets (t.expressions (map expression_of all.now)) }
{
    for e in all {
        if !is_target(e) {
            return false;
        }
    }
    !all.is_empty()
}
