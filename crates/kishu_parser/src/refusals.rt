// What the grammar would let through and is refused.
ghost use Rattle.std.specs.Prelude.{◌≡◌, ◌&&◌, ◌∷◌, List, map, IfOk};
ghost use Rattle.kishu_language.specs.trees.Tree as t;
ghost use Rattle.kishu_language.specs.grammar.Grammar as grammar;
ghost use Rattle.kishu_language.specs.grammar.Refusals as spec;
ghost use Rattle.kishu_language.specs.trees.Parts as tree_parts;
ghost use Rattle.kishu_parser.specs.Sets.{names_in};

use crate::texts::Texts;
use kishu_language::{Argument, Expr, Handler};
use std::alloc::{AllocError, Global};
use std::rc::RcStr;

/// Whether an argument fits behind those whose keywords were seen. Adds its keyword.
fn argument_fits(seen: &mut Texts, argument: &Argument) -> Result<bool, AllocError>
    ensures { IfOk result (λ b. (rest : List t.Argument) → grammar.fits_after (names_in seen.old) (tree_parts.argument_of argument.now ∷ rest) ≡ (b && grammar.fits_after (names_in seen.new) rest)) }
{
    match argument {
        Argument::Plain(_) => Ok(seen.is_empty()),
        Argument::Keyword(name, _) => seen.insert(name),
    }
}

/// Whether no keyword stands twice, and none before a plain argument.
pub(crate) fn arguments_fit(alloc: Global, found: &[Argument]) -> Result<bool, AllocError>
    ensures { IfOk result (λ b. b ≡ grammar.arguments_fit (map tree_parts.argument_of found.now)) }
{
    let mut seen = Texts::new(alloc);
    for argument in found {
        if !argument_fits(&mut seen, argument)? {
            return Ok(false);
        }
    }
    Ok(true)
}

/// Whether no parameter stands twice.
fn all_differ(alloc: Global, params: &[(RcStr, Option<Expr>)]) -> Result<bool, AllocError>
    ensures { IfOk result (λ b. b ≡ spec.all_differ (spec.titles (map t.parameter_of params.now))) }
{
    let mut seen = Texts::new(alloc);
    for (name, _) in params {
        if !seen.insert(name)? {
            return Ok(false);
        }
    }
    Ok(true)
}

/// Whether no parameter without a default stands after one with a default.
fn defaults_last(params: &[(RcStr, Option<Expr>)]) -> bool
    ensures { result ≡ spec.defaults_last (map t.parameter_of params.now) }
{
    let mut given = false;
    for (_, default) in params {
        if given && default.is_none() {
            return false;
        }
        given = default.is_some();
    }
    true
}

pub(crate) fn parameters_fit(
    alloc: Global,
    params: &[(RcStr, Option<Expr>)],
) -> Result<bool, AllocError>
    ensures { IfOk result (λ b. b ≡ spec.parameters_fit (map t.parameter_of params.now)) }
{
    Ok(all_differ(alloc, params)? && defaults_last(params))
}

/// Whether no handler without a class stands but the last.
pub(crate) fn handlers_fit(handlers: &[Handler]) -> bool
    ensures { result ≡ spec.handlers_fit (map tree_parts.handler_of handlers.now) }
{
    let mut open = false;
    for handler in handlers {
        if open {
            return false;
        }
        open = handler.class.is_none();
    }
    true
}
