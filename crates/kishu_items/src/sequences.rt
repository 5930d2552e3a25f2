// The items by which a sequence is walked.
ghost use Rattle.std.specs.Prelude.{◌≡◌, ℕ, ◌∷◌, [], ◌+◌, ◌-◌, ◌*◌, ◌<◌, ◌≤◌, ◌^◌, ◌++◌, ◌+ℤ◌, List, IsTrue, IfOk, OnOk, Some, map, length, slice_get, unwrap_or, option_and_then};
ghost use Rattle.std.specs.Str.{chars};
ghost use Rattle.std.specs.String.{string_bytes};
ghost use Rattle.kishu_meaning.specs.declared.budget.Budget.{Budget};
ghost use Rattle.kishu_meaning.specs.comparing.Equal.{range_length};
ghost use Rattle.kishu_meaning.specs.values.Kinds.{not_iterable};
ghost use Rattle.kishu_meaning.specs.values.Values as model;
ghost use Rattle.kishu_meaning.specs.values.Values.{value_of, node};
ghost use Rattle.kishu_meaning.specs.items.Sequences.{node_count, count_in, text_items, range_items, items_of, walked};
ghost use Rattle.kishu_meaning.specs.values.Sound.{is_sound, are_sound};
ghost use Rattle.kishu_heap.specs.Cells.{node_of};
ghost use Rattle.kishu_heap.specs.Costs.{Reads, Spends};
ghost use Rattle.kishu_items.specs.Called.{moment_of, Gives};
ghost use Rattle.kishu_items.specs.Contents.{IsGrown};

use crate::faults::{not_iterable_text, raise};
use crate::keys::{copied_keys, values_of_keys};
use crate::ranges::range_items;
use crate::spending::spend;
use kishu_heap::{CallFault, Heap, Node, range_length};
use kishu_meaning::{Budget, ClassId, NodeId, Steps, Value};
use kishu_text::count;
use std::alloc::{AllocError, Global};
use std::rc::RcStr;
use std::sync::ledger::Ledger;

/// The same values once more.
pub fn copied_all(alloc: Global, values: &[Value]) -> Result<Vec<Value>, AllocError>
    ensures { IfOk result (λ v. map value_of v.items ≡ map value_of values.now) }
{
    let mut copies = Vec::new(alloc);
    for value in values {
        copies.push(value.copied()?)?;
    }
    Ok(copies)
}

// How many items a node has, where it is a sequence.
fn node_count(node: &Node) -> Option<u128>
    ensures { result ≡ node_count (node_of node.now) }
{
    match node {
        Node::List(items) => Some(items.len() as u128),
        Node::Tuple(items) => Some(items.len() as u128),
        Node::Dict(entries) => Some(entries.len() as u128),
        Node::Object(_) | Node::Function(_) | Node::Exception(..) => None,
    }
}

/// How many items there are, where a value is a sequence.
pub fn count_in<L: Ledger>(value: &Value, heap: &Heap, steps: &mut Steps<L>) -> Option<u128>
    requires sound { IsTrue (is_sound (length heap.now) (value_of value.now)) }
    ensures count { result ≡ count_in heap.now (value_of value.now) }
    ensures reads { Reads 1 steps.old steps.new }
{
    match value {
        Value::Text(text) => Some(count(text.as_str()) as u128),
        Value::Range(start, stop, step) => Some(range_length(*start, *stop, *step)),
        Value::Node(id) => node_count(heap.node(*id, steps)),
        Value::None | Value::Bool(_) | Value::Int(_) | Value::Builtin(_) | Value::Class(_) => None,
    }
}

fn push_char(out: &mut String, c: char) -> Result<(), AllocError>
    ensures { OnOk result (chars (string_bytes out.new) ≡ chars (string_bytes out.old) ++ c ∷ []) }
{
    out.push(c)
}

fn one_character(alloc: Global, c: char) -> Result<String, AllocError>
    ensures { IfOk result (λ s. chars (string_bytes s) ≡ c ∷ []) }
{
    let mut text = String::new(alloc);
    push_char(&mut text, c)?;
    Ok(text)
}

/// The text of one code point.
pub fn character_text(alloc: Global, c: char) -> Result<Value, AllocError>
    ensures { IfOk result (λ v. value_of v ≡ model.text (c ∷ [])) }
{
    Ok(Value::Text(RcStr::from_string(one_character(alloc, c)?)?))
}

/// The code points of a text.
pub(crate) fn code_points(alloc: Global, text: &str) -> Result<Vec<char>, AllocError>
    ensures { IfOk result (λ v. v.items ≡ chars text.now) }
{
    text.chars().collect(alloc)
}

// The texts of one code point.
fn text_items(alloc: Global, text: &str) -> Result<Vec<Value>, AllocError>
    ensures { IfOk result (λ v. map value_of v.items ≡ text_items (chars text.now)) }
{
    let characters = code_points(alloc, text)?;
    let mut items = Vec::new(alloc);
    for i in 0..characters.len() {
        items.push(character_text(alloc, characters[i])?)?;
    }
    Ok(items)
}

// The items of a node.
fn node_items<L: Ledger>(
    alloc: Global,
    id: NodeId,
    heap: &mut Heap,
    budget: &mut Budget,
    steps: &mut Steps<L>,
) -> Result<Vec<Value>, CallFault>
    requires id { id.0 < length heap.old }
    requires room { length heap.old + unwrap_or (count_in heap.old (node id.0)) 0 < 2 ^ 32 }
    ensures gives { Gives (λ v. map value_of v.items) result (moment_of heap.new budget.new) (items_of (node id.0) (moment_of heap.old budget.old)) }
    ensures sound { IfOk result (λ v. IsTrue (are_sound (length heap.new) (map value_of v.items))) }
    ensures more { IsGrown (unwrap_or (count_in heap.old (node id.0)) 0) heap.old heap.new }
    ensures spends { Spends 2 budget.old steps.old budget.new steps.new }
    ensures sequence { (n : ℕ) → count_in heap.old (node id.0) ≡ Some n → 24 * budget.new.left + steps.new ≤ 24 * budget.old.left + steps.old + 1 }
{
    match heap.node(id, steps) {
        Node::List(items) => Ok(copied_all(alloc, items.as_slice())?),
        Node::Tuple(items) => Ok(copied_all(alloc, items.as_slice())?),
        Node::Dict(entries) => {
            let keys = copied_keys(alloc, entries)?;
            values_of_keys(alloc, keys.as_slice(), heap, budget, steps)
        }
        Node::Object(_) | Node::Function(_) | Node::Exception(..) => {
            not_iterable(alloc, &Value::Node(id), heap, steps)
        }
    }
}

/// The TypeError for a value that isn't a sequence.
pub fn not_iterable<L: Ledger>(
    alloc: Global,
    value: &Value,
    heap: &Heap,
    steps: &mut Steps<L>,
) -> Result<Vec<Value>, CallFault>
    requires sound { IsTrue (is_sound (length heap.now) (value_of value.now)) }
    ensures gives { (b : Budget) → Gives (λ v. map value_of v.items) result (moment_of heap.now b) (not_iterable (value_of value.now) (moment_of heap.now b)) }
    ensures sound { IfOk result (λ v. IsTrue (are_sound (length heap.now) (map value_of v.items))) }
    ensures reads { Reads 1 steps.old steps.new }
{
    raise(
        ClassId::TYPE_ERROR,
        not_iterable_text(alloc, value, heap, steps)?,
    )
}

/// The items of a sequence, or a TypeError: a dict has its keys, of which those that are tuples are
/// new nodes and take their length in steps.
pub fn items_of<L: Ledger>(
    alloc: Global,
    value: &Value,
    heap: &mut Heap,
    budget: &mut Budget,
    steps: &mut Steps<L>,
) -> Result<Vec<Value>, CallFault>
    requires sound { IsTrue (is_sound (length heap.old) (value_of value.now)) }
    requires room { length heap.old + unwrap_or (count_in heap.old (value_of value.now)) 0 < 2 ^ 32 }
    ensures gives { Gives (λ v. map value_of v.items) result (moment_of heap.new budget.new) (items_of (value_of value.now) (moment_of heap.old budget.old)) }
    ensures sound { IfOk result (λ v. IsTrue (are_sound (length heap.new) (map value_of v.items))) }
    ensures more { IsGrown (unwrap_or (count_in heap.old (value_of value.now)) 0) heap.old heap.new }
    ensures spends { Spends 2 budget.old steps.old budget.new steps.new }
    ensures sequence { (n : ℕ) → count_in heap.old (value_of value.now) ≡ Some n → 24 * budget.new.left + steps.new ≤ 24 * budget.old.left + steps.old + 1 }
{
    match value {
        Value::Text(text) => Ok(text_items(alloc, text.as_str())?),
        Value::Range(start, stop, step) => Ok(range_items(alloc, *start, *stop, *step)?),
        Value::Node(id) => node_items(alloc, *id, heap, budget, steps),
        Value::None => not_iterable(alloc, value, heap, steps),
        Value::Bool(_) => not_iterable(alloc, value, heap, steps),
        Value::Int(_) => not_iterable(alloc, value, heap, steps),
        Value::Builtin(_) => not_iterable(alloc, value, heap, steps),
        Value::Class(_) => not_iterable(alloc, value, heap, steps),
    }
}

/// The items of a sequence, after a step for each of them, or a TypeError. Keys that are tuples are
/// new nodes, and take their length in steps besides.
pub fn walked<L: Ledger>(
    alloc: Global,
    value: &Value,
    heap: &mut Heap,
    budget: &mut Budget,
    steps: &mut Steps<L>,
) -> Result<Vec<Value>, CallFault>
    requires sound { IsTrue (is_sound (length heap.old) (value_of value.now)) }
    requires room { length heap.old + budget.old.left < 2 ^ 32 - 16 }
    ensures gives { Gives (λ v. map value_of v.items) result (moment_of heap.new budget.new) (walked (value_of value.now) (moment_of heap.old budget.old)) }
    ensures sound { IfOk result (λ v. IsTrue (are_sound (length heap.new) (map value_of v.items))) }
    ensures more { IsGrown (budget.old.left - budget.new.left) heap.old heap.new }
    ensures spends { Spends 2 budget.old steps.old budget.new steps.new }
{
    let Some(count) = count_in(value, heap, steps) else {
        return not_iterable(alloc, value, heap, steps);
    };
    spend(count, budget, steps)?;
    items_of(alloc, value, heap, budget, steps)
}

/// The TypeError for a value that isn't a sequence, from a call whose answer is a value.
pub fn not_iterable_value<L: Ledger>(
    alloc: Global,
    value: &Value,
    heap: &Heap,
    steps: &mut Steps<L>,
) -> Result<Value, CallFault>
    requires sound { IsTrue (is_sound (length heap.now) (value_of value.now)) }
    ensures gives { (b : Budget) → Gives value_of result (moment_of heap.now b) (not_iterable (value_of value.now) (moment_of heap.now b)) }
    ensures reads { Reads 1 steps.old steps.new }
{
    raise(
        ClassId::TYPE_ERROR,
        not_iterable_text(alloc, value, heap, steps)?,
    )
}
