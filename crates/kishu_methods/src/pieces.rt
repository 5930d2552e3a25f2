// The methods of texts that make a list of pieces.
ghost use Rattle.std.specs.Prelude.{◌≡◌, ◌+◌, ◌-◌, ◌*◌, ◌<◌, ◌≤◌, ◌^◌, ◌∷◌, [], ℕ, IfOk, List, map, length};
ghost use Rattle.std.specs.Str.{chars};
ghost use Rattle.kishu_meaning_laws.specs.Bare.{bare};
ghost use Rattle.kishu_meaning.specs.values.Values.{text, value_of};
ghost use Rattle.kishu_meaning.specs.calls.Methods as m;
ghost use Rattle.kishu_meaning.specs.calls.Methods.{new_texts, text_row};
ghost use Rattle.kishu_meaning.specs.values.Texts.{code_points};
ghost use Rattle.kishu_heap.specs.Costs.{Grows, GrowsPaid, Spends};
ghost use Rattle.kishu_methods.specs.Called.{moment_of, Gives};

use crate::faults::bad_arguments;
use crate::method::TextMethod;
use crate::parts::replaced_length;
use crate::texts::{check_separator, spend_search, text_in};
use kishu_heap::{CallFault, Heap, Node};
use kishu_items::spend;
use kishu_meaning::{Budget, Steps, Value};
use kishu_text::count;
use std::alloc::{AllocError, Global};
use std::rc::RcStr;
use std::sync::ledger::Ledger;

/// The texts as values.
fn text_values(alloc: Global, texts: Vec<String>) -> Result<Vec<Value>, AllocError>
    ensures { IfOk result (λ v. map value_of v.items ≡ map text (code_points texts.items)) }
{
    let mut values = Vec::new(alloc);
    for text in texts {
        values.push(Value::Text(RcStr::from_string(text)?))?;
    }
    Ok(values)
}

/// A new list of texts.
fn new_texts(alloc: Global, texts: Vec<String>, heap: &mut Heap) -> Result<Value, CallFault>
    requires { length heap.old + 1 < 2 ^ 32 }
    ensures gives { (left depth : ℕ) → Gives value_of result (bare heap.new left depth) (new_texts (code_points texts.items) (bare heap.old left depth)) }
    ensures grows { Grows 1 heap.old heap.new }
{
    let items = text_values(alloc, texts)?;
    Ok(Value::Node(heap.make(Node::List(items))?))
}

/// `split` without arguments: the words between white space, as a new list. It takes the text's code
/// points in steps.
pub(crate) fn split_space<L: Ledger>(
    alloc: Global,
    text: &str,
    heap: &mut Heap,
    budget: &mut Budget,
    steps: &mut Steps<L>,
) -> Result<Value, CallFault>
    requires room { length heap.old + budget.old.left < 2 ^ 32 - 16 }
    ensures gives { Gives value_of result (moment_of heap.new budget.new) (text_row m.split (chars text.now) [] (moment_of heap.old budget.old)) }
    ensures grows { GrowsPaid 1 heap.old budget.old heap.new budget.new }
    ensures spends { Spends 0 budget.old steps.old budget.new steps.new }
{
    spend(count(text) as u128, budget, steps)?;
    let words = kishu_text::split_space(alloc, text)?;
    new_texts(alloc, words, heap)
}

/// `split`: the pieces between the occurrences of a part, as a new list. It takes the steps of a
/// search, and then the code points of the pieces before they are made.
pub(crate) fn split<L: Ledger>(
    alloc: Global,
    text: &str,
    argument: &Value,
    heap: &mut Heap,
    budget: &mut Budget,
    steps: &mut Steps<L>,
) -> Result<Value, CallFault>
    requires room { length heap.old + budget.old.left < 2 ^ 32 - 16 }
    ensures gives { Gives value_of result (moment_of heap.new budget.new) (text_row m.split (chars text.now) (value_of argument.now ∷ []) (moment_of heap.old budget.old)) }
    ensures grows { GrowsPaid 1 heap.old budget.old heap.new budget.new }
    ensures spends { Spends 0 budget.old steps.old budget.new steps.new }
{
    let Some(part) = text_in(argument) else {
        return bad_arguments(alloc, TextMethod::Split);
    };
    check_separator(alloc, part)?;
    spend_search(text, part, budget, steps)?;
    // The pieces are the text without the part's occurrences.
    spend(replaced_length(text, part, ""), budget, steps)?;
    let pieces = kishu_text::split(alloc, text, part)?;
    new_texts(alloc, pieces, heap)
}
