// Trees as text.
use kishu_language::{Argument, Expr, Handler, Stmt, Trailer};
use std::alloc::AllocError;
use std::fmt::Write;
use std::rc::RcStr;

#[cycle(shown)]
fn push_expr(out: &mut String, e: &Expr) -> Result<(), AllocError> {
    match e {
        Expr::Name(name) => out.push_str(name.as_str()),
        Expr::Int(value) => write!(out, "#{value}"),
        Expr::Text(text) => {
            out.push('\'')?;
            out.push_str(text.as_str())?;
            out.push('\'')
        }
        Expr::None => out.push_str("None"),
        Expr::True => out.push_str("True"),
        Expr::False => out.push_str("False"),
        Expr::Tuple(all) => push_all(out, "tuple", all.as_slice()),
        Expr::Or(all) => push_all(out, "or", all.as_slice()),
        Expr::And(all) => push_all(out, "and", all.as_slice()),
        Expr::List(all) => push_all(out, "list", all.as_slice()),
        Expr::Conditional { value, test, other } => {
            out.push_str("(if ")?;
            push_expr(out, value)?;
            out.push(' ')?;
            push_expr(out, test)?;
            out.push(' ')?;
            push_expr(out, other)?;
            out.push(')')
        }
        Expr::Not(operand) => {
            out.push_str("(not ")?;
            push_expr(out, operand)?;
            out.push(')')
        }
        Expr::Paren(inside) => {
            out.push_str("(paren ")?;
            push_expr(out, inside)?;
            out.push(')')
        }
        Expr::Signed(sign, operand) => {
            write!(out, "({sign:?} ")?;
            push_expr(out, operand)?;
            out.push(')')
        }
        Expr::Power(base, exponent) => {
            out.push_str("(power ")?;
            push_expr(out, base)?;
            out.push(' ')?;
            push_expr(out, exponent)?;
            out.push(')')
        }
        Expr::Compared(first, links) => {
            out.push_str("(compared ")?;
            push_expr(out, first)?;
            for link in links {
                let comparison = link.comparison;
                write!(out, " {comparison:?} ")?;
                push_expr(out, &link.value)?;
            }
            out.push(')')
        }
        Expr::Sum(first, operands) => {
            out.push_str("(sum ")?;
            push_expr(out, first)?;
            for operand in operands {
                let operator = operand.operator;
                write!(out, " {operator:?} ")?;
                push_expr(out, &operand.value)?;
            }
            out.push(')')
        }
        Expr::Product(first, operands) => {
            out.push_str("(product ")?;
            push_expr(out, first)?;
            for operand in operands {
                let operator = operand.operator;
                write!(out, " {operator:?} ")?;
                push_expr(out, &operand.value)?;
            }
            out.push(')')
        }
        Expr::Primary(first, trailers) => {
            out.push_str("(primary ")?;
            push_expr(out, first)?;
            for trailer in trailers {
                out.push(' ')?;
                push_trailer(out, trailer)?;
            }
            out.push(')')
        }
        Expr::Dict(pairs) => {
            out.push_str("(dict")?;
            for pair in pairs {
                out.push(' ')?;
                push_expr(out, &pair.key)?;
                out.push(' ')?;
                push_expr(out, &pair.value)?;
            }
            out.push(')')
        }
    }
}

#[cycle(shown)]
fn push_all(out: &mut String, word: &str, all: &[Expr]) -> Result<(), AllocError> {
    out.push('(')?;
    out.push_str(word)?;
    for e in all {
        out.push(' ')?;
        push_expr(out, e)?;
    }
    out.push(')')
}

#[cycle(shown)]
fn push_optional(out: &mut String, e: &Option<Expr>) -> Result<(), AllocError> {
    match e {
        Some(e) => push_expr(out, e),
        None => out.push('_'),
    }
}

#[cycle(shown)]
fn push_trailer(out: &mut String, trailer: &Trailer) -> Result<(), AllocError> {
    match trailer {
        Trailer::Attribute(name) => {
            out.push_str("(. ")?;
            out.push_str(name.as_str())?;
        }
        Trailer::Call(arguments) => {
            out.push_str("(call")?;
            for argument in arguments {
                out.push(' ')?;
                push_argument(out, argument)?;
            }
        }
        Trailer::Index(e) => {
            out.push_str("(index ")?;
            push_expr(out, e)?;
        }
        Trailer::Slice { start, stop, step } => {
            out.push_str("(slice ")?;
            push_optional(out, start)?;
            out.push(' ')?;
            push_optional(out, stop)?;
            out.push(' ')?;
            push_optional(out, step)?;
        }
    }
    out.push(')')
}

#[cycle(shown)]
fn push_argument(out: &mut String, argument: &Argument) -> Result<(), AllocError> {
    match argument {
        Argument::Plain(e) => push_expr(out, e),
        Argument::Keyword(name, e) => {
            out.push_str("(= ")?;
            out.push_str(name.as_str())?;
            out.push(' ')?;
            push_expr(out, e)?;
            out.push(')')
        }
    }
}

fn push_name(out: &mut String, name: &Option<RcStr>) -> Result<(), AllocError> {
    match name {
        Some(name) => out.push_str(name.as_str()),
        None => out.push('_'),
    }
}

#[cycle(statements)]
fn push_statement(out: &mut String, statement: &Stmt) -> Result<(), AllocError> {
    match statement {
        Stmt::Pass => out.push_str("(pass")?,
        Stmt::Break => out.push_str("(break")?,
        Stmt::Continue => out.push_str("(continue")?,
        Stmt::Return(e) => {
            out.push_str("(return ")?;
            push_optional(out, e)?;
        }
        Stmt::Raise(e) => {
            out.push_str("(raise ")?;
            push_optional(out, e)?;
        }
        Stmt::Assert(test, message) => {
            out.push_str("(assert ")?;
            push_expr(out, test)?;
            out.push(' ')?;
            push_optional(out, message)?;
        }
        Stmt::Del(places) => return push_all(out, "del", places.as_slice()),
        Stmt::Global(names) => {
            out.push_str("(global")?;
            for name in names {
                out.push(' ')?;
                out.push_str(name.as_str())?;
            }
        }
        Stmt::Import(name) => {
            out.push_str("(import ")?;
            push_name(out, name)?;
        }
        Stmt::Update(place, operator, value) => {
            out.push_str("(update ")?;
            push_expr(out, place)?;
            write!(out, " {operator:?} ")?;
            push_expr(out, value)?;
        }
        Stmt::Assign(targets, value) => {
            out.push_str("(= ")?;
            push_all(out, "to", targets.as_slice())?;
            out.push(' ')?;
            push_expr(out, value)?;
        }
        Stmt::If(arms, other) => {
            out.push_str("(if ")?;
            for arm in arms {
                out.push('[')?;
                push_expr(out, &arm.test)?;
                push_block(out, arm.body.as_slice())?;
                out.push(']')?;
            }
            push_block(out, other.as_slice())?;
        }
        Stmt::While(test, body) => {
            out.push_str("(while ")?;
            push_expr(out, test)?;
            push_block(out, body.as_slice())?;
        }
        Stmt::For(targets, walked, body) => {
            out.push_str("(for ")?;
            push_expr(out, targets)?;
            out.push(' ')?;
            push_expr(out, walked)?;
            push_block(out, body.as_slice())?;
        }
        Stmt::Try {
            body,
            handlers,
            other,
            last,
        } => {
            out.push_str("(try")?;
            push_block(out, body.as_slice())?;
            for handler in handlers {
                push_handler(out, handler)?;
            }
            push_block(out, other.as_slice())?;
            push_block(out, last.as_slice())?;
        }
        Stmt::Finally(body, last) => {
            out.push_str("(finally")?;
            push_block(out, body.as_slice())?;
            push_block(out, last.as_slice())?;
        }
        Stmt::Def(definition, code) => {
            out.push_str("(def ")?;
            out.push_str(definition.name.as_str())?;
            for (name, default) in &definition.params {
                out.push_str(" (")?;
                out.push_str(name.as_str())?;
                out.push(' ')?;
                push_optional(out, default)?;
                out.push(')')?;
            }
            push_block(out, definition.body.as_slice())?;
            out.push_str(" '")?;
            out.push_str(code.as_str())?;
            out.push('\'')?;
        }
    }
    out.push(')')
}

#[cycle(statements)]
fn push_handler(out: &mut String, handler: &Handler) -> Result<(), AllocError> {
    out.push_str(" [")?;
    push_optional(out, &handler.class)?;
    out.push(' ')?;
    push_name(out, &handler.name)?;
    push_block(out, handler.body.as_slice())?;
    out.push(']')
}

#[cycle(statements)]
fn push_block(out: &mut String, body: &[Stmt]) -> Result<(), AllocError> {
    out.push_str(" {")?;
    push_statements(out, body)?;
    out.push('}')
}

#[cycle(statements)]
pub(crate) fn push_statements(out: &mut String, all: &[Stmt]) -> Result<(), AllocError> {
    for statement in all {
        push_statement(out, statement)?;
    }
    Ok(())
}
