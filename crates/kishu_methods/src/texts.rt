// The methods of texts.
ghost use Rattle.std.specs.Prelude.{◌≡◌, ◌+◌, ◌-◌, ◌*◌, ◌<◌, ◌≤◌, ◌^◌, ◌∷◌, [], IsTrue, OnOk, List, map, option_map, length};
ghost use Rattle.std.specs.Str.{chars};
ghost use Rattle.kishu_meaning.specs.values.Values.{Node, value_of};
ghost use Rattle.kishu_meaning.specs.calls.Methods as m;
ghost use Rattle.kishu_meaning.specs.calls.Methods.{text_row, is_cutting, number, place_or_minus_one, search};
ghost use Rattle.kishu_meaning.specs.moments.Moment.{Moment};
ghost use Rattle.kishu_meaning.specs.values.Sound.{is_sound, are_sound};
ghost use Rattle.kishu_meaning.specs.values.Texts.{first_place};
ghost use Rattle.kishu_heap.specs.Costs.{GrowsPaid, Spends};
ghost use Rattle.kishu_methods.specs.Called.{moment_of, text_method_of, Gives};
ghost use Rattle.kishu_methods.specs.TextValues.{text_in};

use crate::faults::bad_arguments;
use crate::join::join;
use crate::method::TextMethod;
use crate::parts::{begins_with, is_digits, is_nonempty, replaced_length, search_steps};
use crate::pieces::{split, split_space};
use kishu_heap::{CallFault, Heap};
use kishu_items::{plain_text, raise, spend};
use kishu_meaning::{Budget, ClassId, Steps, Value};
use kishu_text::count;
use std::alloc::Global;
use std::rc::RcStr;
use std::sync::ledger::Ledger;

/// The characters of a value that is a text.
pub(crate) fn text_in(value: &Value) -> Option<&str>
    ensures { option_map (λ t. chars t.now) result ≡ text_in (value_of value.now) }
{
    match value {
        Value::Text(text) => Some(text.as_str()),
        Value::None
        | Value::Bool(_)
        | Value::Int(_)
        | Value::Range(..)
        | Value::Builtin(_)
        | Value::Class(_)
        | Value::Node(_) => None,
    }
}

/// Refuses an empty separator with ValueError.
pub(crate) fn check_separator(alloc: Global, part: &str) -> Result<(), CallFault>
    ensures gives { (s : Moment) → Gives (λ u. u) result s (is_cutting (chars part.now) s) }
    ensures some { OnOk result (0 < length part.now) }
{
    if is_nonempty(part) {
        return Ok(());
    }
    raise(ClassId::VALUE_ERROR, plain_text(alloc, "empty separator")?)
}

/// Takes the steps of a search.
pub(crate) fn spend_search<L: Ledger>(
    text: &str,
    part: &str,
    budget: &mut Budget,
    steps: &mut Steps<L>,
) -> Result<(), CallFault>
    ensures gives { (ns : List Node) → Gives (λ u. u) result (moment_of ns budget.new) (search (chars part.now) (chars text.now) (moment_of ns budget.old)) }
    ensures spends { Spends 0 budget.old steps.old budget.new steps.new }
{
    spend(search_steps(text, part), budget, steps)
}

/// `startswith`: whether the text begins with a part. It takes the text's code points in steps.
fn starts_with<L: Ledger>(
    alloc: Global,
    text: &str,
    argument: &Value,
    budget: &mut Budget,
    steps: &mut Steps<L>,
) -> Result<Value, CallFault>
    ensures gives { (ns : List Node) → Gives value_of result (moment_of ns budget.new) (text_row m.startswith (chars text.now) (value_of argument.now ∷ []) (moment_of ns budget.old)) }
    ensures spends { Spends 0 budget.old steps.old budget.new steps.new }
{
    let Some(part) = text_in(argument) else {
        return bad_arguments(alloc, TextMethod::StartsWith);
    };
    spend(count(text) as u128, budget, steps)?;
    Ok(Value::Bool(begins_with(text, part)))
}

/// `endswith`: whether the text ends with a part. It takes the text's code points in steps.
fn ends_with<L: Ledger>(
    alloc: Global,
    text: &str,
    argument: &Value,
    budget: &mut Budget,
    steps: &mut Steps<L>,
) -> Result<Value, CallFault>
    ensures gives { (ns : List Node) → Gives value_of result (moment_of ns budget.new) (text_row m.endswith (chars text.now) (value_of argument.now ∷ []) (moment_of ns budget.old)) }
    ensures spends { Spends 0 budget.old steps.old budget.new steps.new }
{
    let Some(part) = text_in(argument) else {
        return bad_arguments(alloc, TextMethod::EndsWith);
    };
    spend(count(text) as u128, budget, steps)?;
    Ok(Value::Bool(crate::parts::ends_with(text, part)))
}

/// `strip`: the text without the white space at its ends. It takes the text's code points in steps.
fn strip<L: Ledger>(
    alloc: Global,
    text: &str,
    budget: &mut Budget,
    steps: &mut Steps<L>,
) -> Result<Value, CallFault>
    ensures gives { (ns : List Node) → Gives value_of result (moment_of ns budget.new) (text_row m.strip (chars text.now) [] (moment_of ns budget.old)) }
    ensures spends { Spends 0 budget.old steps.old budget.new steps.new }
{
    spend(count(text) as u128, budget, steps)?;
    Ok(Value::Text(RcStr::from_str(alloc, kishu_text::strip(text))?))
}

/// `isdigit`: whether the text isn't empty and has digits only. It takes the text's code points in
/// steps.
fn is_digit<L: Ledger>(
    text: &str,
    budget: &mut Budget,
    steps: &mut Steps<L>,
) -> Result<Value, CallFault>
    ensures gives { (ns : List Node) → Gives value_of result (moment_of ns budget.new) (text_row m.isdigit (chars text.now) [] (moment_of ns budget.old)) }
    ensures spends { Spends 0 budget.old steps.old budget.new steps.new }
{
    spend(count(text) as u128, budget, steps)?;
    Ok(Value::Bool(is_digits(text)))
}

/// How many there are, as a value.
fn number(count: usize) -> Value
    ensures { value_of result ≡ number count }
{
    Value::Int(count as i128)
}

/// The first place of a part, or -1 where the text doesn't have it.
fn place_or_minus_one(text: &str, part: &str) -> i128
    ensures { result ≡ place_or_minus_one (first_place (chars part.now) (chars text.now)) }
{
    match kishu_text::find(text, part) {
        Some(place) => place as i128,
        None => -1,
    }
}

/// `find`: the first place of a part, or -1. It takes the steps of a search.
fn find<L: Ledger>(
    alloc: Global,
    text: &str,
    argument: &Value,
    budget: &mut Budget,
    steps: &mut Steps<L>,
) -> Result<Value, CallFault>
    ensures gives { (ns : List Node) → Gives value_of result (moment_of ns budget.new) (text_row m.find (chars text.now) (value_of argument.now ∷ []) (moment_of ns budget.old)) }
    ensures spends { Spends 0 budget.old steps.old budget.new steps.new }
{
    let Some(part) = text_in(argument) else {
        return bad_arguments(alloc, TextMethod::Find);
    };
    spend_search(text, part, budget, steps)?;
    Ok(Value::Int(place_or_minus_one(text, part)))
}

/// `count`: how often a part occurs, taken from the left and without overlap. It takes the steps of
/// a search.
fn occurrences<L: Ledger>(
    alloc: Global,
    text: &str,
    argument: &Value,
    budget: &mut Budget,
    steps: &mut Steps<L>,
) -> Result<Value, CallFault>
    ensures gives { (ns : List Node) → Gives value_of result (moment_of ns budget.new) (text_row m.count (chars text.now) (value_of argument.now ∷ []) (moment_of ns budget.old)) }
    ensures spends { Spends 0 budget.old steps.old budget.new steps.new }
{
    let Some(part) = text_in(argument) else {
        return bad_arguments(alloc, TextMethod::Count);
    };
    check_separator(alloc, part)?;
    spend_search(text, part, budget, steps)?;
    Ok(number(kishu_text::occurrences(text, part)))
}

/// `replace`: the text with another one in place of each occurrence of a part. It takes the steps of
/// a search, and then the code points of the new text before that is made.
fn replace<L: Ledger>(
    alloc: Global,
    text: &str,
    first: &Value,
    second: &Value,
    budget: &mut Budget,
    steps: &mut Steps<L>,
) -> Result<Value, CallFault>
    ensures gives { (ns : List Node) → Gives value_of result (moment_of ns budget.new) (text_row m.replace (chars text.now) (value_of first.now ∷ value_of second.now ∷ []) (moment_of ns budget.old)) }
    ensures spends { Spends 0 budget.old steps.old budget.new steps.new }
{
    let (Some(part), Some(by)) = (text_in(first), text_in(second)) else {
        return bad_arguments(alloc, TextMethod::Replace);
    };
    check_separator(alloc, part)?;
    spend_search(text, part, budget, steps)?;
    spend(replaced_length(text, part, by), budget, steps)?;
    let replaced = kishu_text::replace(alloc, text, part, by)?;
    Ok(Value::Text(RcStr::from_string(replaced)?))
}

/// A method of a text without arguments.
fn without_arguments<L: Ledger>(
    alloc: Global,
    method: TextMethod,
    text: &str,
    heap: &mut Heap,
    budget: &mut Budget,
    steps: &mut Steps<L>,
) -> Result<Value, CallFault>
    requires room { length heap.old + budget.old.left < 2 ^ 32 - 16 }
    ensures gives { Gives value_of result (moment_of heap.new budget.new) (text_row (text_method_of method) (chars text.now) [] (moment_of heap.old budget.old)) }
    ensures grows { GrowsPaid 1 heap.old budget.old heap.new budget.new }
    ensures spends { Spends 0 budget.old steps.old budget.new steps.new }
{
    match method {
        TextMethod::Strip => strip(alloc, text, budget, steps),
        TextMethod::IsDigit => is_digit(text, budget, steps),
        TextMethod::Split => split_space(alloc, text, heap, budget, steps),
        _ => bad_arguments(alloc, method),
    }
}

/// A method of a text with one argument.
fn with_argument<L: Ledger>(
    alloc: Global,
    method: TextMethod,
    text: &str,
    argument: &Value,
    heap: &mut Heap,
    budget: &mut Budget,
    steps: &mut Steps<L>,
) -> Result<Value, CallFault>
    requires sound { IsTrue (is_sound (length heap.old) (value_of argument.now)) }
    requires room { length heap.old + budget.old.left < 2 ^ 32 - 16 }
    ensures gives { Gives value_of result (moment_of heap.new budget.new) (text_row (text_method_of method) (chars text.now) (value_of argument.now ∷ []) (moment_of heap.old budget.old)) }
    ensures grows { GrowsPaid 1 heap.old budget.old heap.new budget.new }
    ensures spends { Spends 2 budget.old steps.old budget.new steps.new }
{
    match method {
        TextMethod::StartsWith => starts_with(alloc, text, argument, budget, steps),
        TextMethod::EndsWith => ends_with(alloc, text, argument, budget, steps),
        TextMethod::Find => find(alloc, text, argument, budget, steps),
        TextMethod::Count => occurrences(alloc, text, argument, budget, steps),
        TextMethod::Split => split(alloc, text, argument, heap, budget, steps),
        TextMethod::Join => join(alloc, text, argument, heap, budget, steps),
        _ => bad_arguments(alloc, method),
    }
}

/// A method of a text with two arguments.
fn with_two<L: Ledger>(
    alloc: Global,
    method: TextMethod,
    text: &str,
    first: &Value,
    second: &Value,
    budget: &mut Budget,
    steps: &mut Steps<L>,
) -> Result<Value, CallFault>
    ensures gives { (ns : List Node) → Gives value_of result (moment_of ns budget.new) (text_row (text_method_of method) (chars text.now) (value_of first.now ∷ value_of second.now ∷ []) (moment_of ns budget.old)) }
    ensures spends { Spends 0 budget.old steps.old budget.new steps.new }
{
    match method {
        TextMethod::Replace => replace(alloc, text, first, second, budget, steps),
        _ => bad_arguments(alloc, method),
    }
}

/// A method of a text.
pub(crate) fn text_method<L: Ledger>(
    alloc: Global,
    method: TextMethod,
    text: &str,
    args: &[Value],
    heap: &mut Heap,
    budget: &mut Budget,
    steps: &mut Steps<L>,
) -> Result<Value, CallFault>
    requires sound { IsTrue (are_sound (length heap.old) (map value_of args.now)) }
    requires room { length heap.old + budget.old.left < 2 ^ 32 - 16 }
    ensures gives { Gives value_of result (moment_of heap.new budget.new) (text_row (text_method_of method) (chars text.now) (map value_of args.now) (moment_of heap.old budget.old)) }
    ensures grows { GrowsPaid 1 heap.old budget.old heap.new budget.new }
    ensures spends { Spends 2 budget.old steps.old budget.new steps.new }
{
    match args {
        [] => without_arguments(alloc, method, text, heap, budget, steps),
        [argument] => with_argument(alloc, method, text, argument, heap, budget, steps),
        [first, second] => with_two(alloc, method, text, first, second, budget, steps),
        _ => bad_arguments(alloc, method),
    }
}
