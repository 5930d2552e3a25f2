// What a request is, by what is drawn for it.
ghost use Rattle.std.specs.Prelude.{◌≡◌, ◌≤◌, ◌<◌, ◌^◌, ◌-◌, IfOk};
ghost use Rattle.std.specs.String.{string_bytes};
ghost use Rattle.kishu_model.specs.Values.{request_of};
ghost use Rattle.kishu_model.specs.generated.Requests.{cell_text, first_cell, growing_cell, holding_cell, later_cell, looking_cell, pair_cell, request_with, sharing_cell};

use crate::drawing::{FIRST, is_checkout};
use kishu_model::Request;
use std::alloc::{AllocError, Global};
use std::rc::RcStr;

/// One of the first cells: it makes a list.
fn first_text(alloc: Global, before: u32) -> Result<String, AllocError>
    requires { before < 2 ^ 32 - 1 }
    ensures { IfOk result (λ text. string_bytes text ≡ first_cell before) }
{
    let number = before + 1;
    format!(in alloc; "v{before} = [{number}]")
}

/// A new list of two numbers.
fn pair_text(alloc: Global, before: u32, drawn: u32) -> Result<String, AllocError>
    requires { before < 2 ^ 32 - 1 }
    ensures { IfOk result (λ text. string_bytes text ≡ pair_cell before drawn) }
{
    let number = before + 1;
    let name = drawn % 10;
    let other = drawn / 10 % 10;
    format!(in alloc; "v{name} = [{number}, {other}]")
}

/// A new list that holds a list.
fn holding_text(alloc: Global, drawn: u32) -> Result<String, AllocError>
    ensures { IfOk result (λ text. string_bytes text ≡ holding_cell drawn) }
{
    let name = drawn % 10;
    let held = drawn / 10 % 10;
    format!(in alloc; "v{name} = [v{held}]")
}

/// A list grows.
fn growing_text(alloc: Global, before: u32, drawn: u32) -> Result<String, AllocError>
    requires { before < 2 ^ 32 - 1 }
    ensures { IfOk result (λ text. string_bytes text ≡ growing_cell before drawn) }
{
    let number = before + 1;
    let name = drawn % 10;
    format!(in alloc; "v{name}.append({number})")
}

/// A look at two lists.
fn looking_text(alloc: Global, drawn: u32) -> Result<String, AllocError>
    ensures { IfOk result (λ text. string_bytes text ≡ looking_cell drawn) }
{
    let name = drawn % 10;
    let other = drawn / 10 % 10;
    format!(in alloc; "print(v{name} is v{other}, len(v{other}))")
}

/// A further name of a list.
fn sharing_text(alloc: Global, drawn: u32) -> Result<String, AllocError>
    ensures { IfOk result (λ text. string_bytes text ≡ sharing_cell drawn) }
{
    let name = drawn % 10;
    let shared = drawn / 10 % 10;
    format!(in alloc; "v{name} = v{shared}")
}

/// A cell behind the first ones.
fn later_text(alloc: Global, before: u32, drawn: u32) -> Result<String, AllocError>
    requires { before < 2 ^ 32 - 1 }
    ensures { IfOk result (λ text. string_bytes text ≡ later_cell before drawn) }
{
    match drawn / 100 % 10 {
        0..=2 => pair_text(alloc, before, drawn),
        3..=4 => holding_text(alloc, drawn),
        5..=6 => growing_text(alloc, before, drawn),
        7 => looking_text(alloc, drawn),
        _ => sharing_text(alloc, drawn),
    }
}

fn text_of_cell(alloc: Global, before: u32, drawn: u32) -> Result<String, AllocError>
    requires { before < 2 ^ 32 - 1 }
    ensures { IfOk result (λ text. string_bytes text ≡ cell_text before drawn) }
{
    if before < FIRST {
        first_text(alloc, before)
    } else {
        later_text(alloc, before, drawn)
    }
}

/// The request behind so many others, of which so many are cells.
pub(crate) fn request_with(
    alloc: Global,
    before: u32,
    cells: u32,
    drawn: u32,
) -> Result<Request, AllocError>
    requires few { cells ≤ before }
    requires further { before < 2 ^ 32 - 1 }
    ensures { IfOk result (λ request. request_of request ≡ request_with before cells drawn) }
{
    if is_checkout(before, drawn) {
        let commit = drawn % (cells + 1);
        let to = format!(in alloc; "{commit}")?;
        return Ok(Request::Checkout {
            to: RcStr::from_str(alloc, &to)?,
        });
    }
    let text = text_of_cell(alloc, before, drawn)?;
    Ok(Request::Cell {
        text: RcStr::from_str(alloc, &text)?,
    })
}
