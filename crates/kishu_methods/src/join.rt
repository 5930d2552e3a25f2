// Texts that are joined.
ghost use Rattle.std.specs.Prelude.{◌≡◌, ◌+◌, ◌-◌, ◌*◌, ◌<◌, ◌≤◌, ◌^◌, ◌++◌, ◌∷◌, [], IsTrue, IfOk, OnOk, List, map, option_map, length};
ghost use Rattle.std.specs.List.{flat_map};
ghost use Rattle.std.specs.Str.{chars};
ghost use Rattle.std.specs.String.{string_bytes};
ghost use Rattle.kishu_meaning.specs.values.Values.{Node, value_of};
ghost use Rattle.kishu_meaning.specs.calls.Methods as m;
ghost use Rattle.kishu_meaning.specs.calls.Methods.{joined_by, text_row, texts_in};
ghost use Rattle.kishu_meaning.specs.values.Sound.{is_sound};
ghost use Rattle.kishu_meaning.specs.values.Texts.{joined};
ghost use Rattle.kishu_heap.specs.Costs.{GrowsPaid, Spends};
ghost use Rattle.kishu_methods.specs.Called.{moment_of, Gives};
ghost use Rattle.kishu_methods.specs.TextValues.{texts_of};

use crate::faults::bad_arguments;
use crate::method::TextMethod;
use kishu_heap::{CallFault, Heap};
use kishu_items::{spend, walked};
use kishu_meaning::{Budget, Steps, Value};
use kishu_text::count;
use std::alloc::{AllocError, Global};
use std::rc::RcStr;
use std::sync::ledger::Ledger;

/// The texts, where all values are texts.
fn texts_in(alloc: Global, values: &[Value]) -> Result<Option<Vec<RcStr>>, AllocError>
    ensures { IfOk result (λ o. option_map (λ v. texts_of v.items) o ≡ texts_in (map value_of values.now)) }
{
    let mut texts = Vec::new(alloc);
    for value in values {
        let Value::Text(text) = value else {
            return Ok(None);
        };
        texts.push(text.clone()?)?;
    }
    Ok(Some(texts))
}

/// How many code points texts have together, with another text before each of them.
fn spaced_length(by: &str, texts: &[RcStr]) -> u128
    ensures { result ≡ length (flat_map (λ next. chars by.now ++ next) (texts_of texts.now)) }
{
    let width = count(by) as u128;
    let mut total = 0;
    for text in texts {
        total += width + count(text.as_str()) as u128;
    }
    total
}

/// How many code points texts have with another text between each two of them.
fn joined_length(by: &str, texts: &[RcStr]) -> u128
    ensures { result ≡ length (joined (chars by.now) (texts_of texts.now)) }
{
    spaced_length(by, texts).saturating_sub(count(by) as u128)
}

/// Puts texts behind what is there, with another text before each of them.
fn push_spaced(out: &mut String, by: &str, texts: &[RcStr]) -> Result<(), AllocError>
    ensures { OnOk result (chars (string_bytes out.new) ≡ chars (string_bytes out.old) ++ flat_map (λ next. chars by.now ++ next) (texts_of texts.now)) }
{
    for text in texts {
        push_text(out, by)?;
        push_text(out, text.as_str())?;
    }
    Ok(())
}

/// Puts a text behind what is there.
fn push_text(out: &mut String, text: &str) -> Result<(), AllocError>
    ensures { OnOk result (chars (string_bytes out.new) ≡ chars (string_bytes out.old) ++ chars text.now) }
{
    out.push_str(text)
}

/// Texts with another text between each two of them.
fn joined(alloc: Global, by: &str, texts: &[RcStr]) -> Result<String, AllocError>
    ensures { IfOk result (λ s. chars (string_bytes s) ≡ joined (chars by.now) (texts_of texts.now)) }
{
    let mut joined = String::new(alloc);
    let Some((first, others)) = texts.split_first() else {
        return Ok(joined);
    };
    push_text(&mut joined, first.as_str())?;
    push_spaced(&mut joined, by, others)?;
    Ok(joined)
}

/// Values that are texts, as one text with another between each two of them. It takes the code
/// points of the new text in steps before that is made.
fn joined_by<L: Ledger>(
    alloc: Global,
    by: &str,
    values: &[Value],
    budget: &mut Budget,
    steps: &mut Steps<L>,
) -> Result<Value, CallFault>
    ensures gives { (ns : List Node) → Gives value_of result (moment_of ns budget.new) (joined_by (chars by.now) (map value_of values.now) (moment_of ns budget.old)) }
    ensures spends { Spends 0 budget.old steps.old budget.new steps.new }
{
    let Some(texts) = texts_in(alloc, values)? else {
        return bad_arguments(alloc, TextMethod::Join);
    };
    spend(joined_length(by, &texts), budget, steps)?;
    let joined = joined(alloc, by, &texts)?;
    Ok(Value::Text(RcStr::from_string(joined)?))
}

/// `join`: the texts of a sequence, as one text with this one between each two of them. It takes the
/// items in steps, and then the code points of the new text before that is made.
pub(crate) fn join<L: Ledger>(
    alloc: Global,
    text: &str,
    argument: &Value,
    heap: &mut Heap,
    budget: &mut Budget,
    steps: &mut Steps<L>,
) -> Result<Value, CallFault>
    requires sound { IsTrue (is_sound (length heap.old) (value_of argument.now)) }
    requires room { length heap.old + budget.old.left < 2 ^ 32 - 16 }
    ensures gives { Gives value_of result (moment_of heap.new budget.new) (text_row m.join (chars text.now) (value_of argument.now ∷ []) (moment_of heap.old budget.old)) }
    ensures grows { GrowsPaid 1 heap.old budget.old heap.new budget.new }
    ensures spends { Spends 2 budget.old steps.old budget.new steps.new }
{
    let items = walked(alloc, argument, heap, budget, steps)?;
    joined_by(alloc, text, &items, budget, steps)
}
