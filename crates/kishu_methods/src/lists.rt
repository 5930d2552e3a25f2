// The methods of lists.
ghost use Rattle.std.specs.Prelude.{◌≡◌, ◌+◌, ◌-◌, ◌*◌, ◌<◌, ◌≤◌, ◌^◌, ◌∷◌, [], IsTrue, map, length};
ghost use Rattle.kishu_meaning.specs.declared.budget.Budget.{Budget};
ghost use Rattle.kishu_meaning.specs.calls.Methods as m;
ghost use Rattle.kishu_meaning.specs.values.Nodes.{push, replace_list};
ghost use Rattle.kishu_meaning.specs.values.Sound.{is_sound, are_sound};
ghost use Rattle.kishu_meaning.specs.values.Values.{value_of};
ghost use Rattle.kishu_heap.specs.Costs.{GrowsPaid, Spends};
ghost use Rattle.kishu_methods.specs.Called.{moment_of, list_method_of, Gives};
ghost use Rattle.kishu_methods.specs.Contents.{items_at, IsList};

use crate::faults::bad_arguments;
use crate::finding::{count_number, place_number, place_of_equal};
use crate::items::{copied_list, list_items, list_len, reverse, with_place, without_place};
use crate::method::ListMethod;
use kishu_heap::{CallFault, Heap, Node};
use kishu_items::{
    bound_in, in_order, index_of, place_of, plain_text, push_all, raise, sort_steps, spend, walked,
};
use kishu_meaning::{Budget, ClassId, NodeId, Steps, Value};
use std::alloc::Global;
use std::sync::ledger::Ledger;

fn append(id: NodeId, x: &Value, heap: &mut Heap) -> Result<Value, CallFault>
    requires id { id.0 < length heap.old }
    requires sound { IsTrue (is_sound (length heap.old) (value_of x.now)) }
    ensures gives { (b : Budget) → Gives value_of result (moment_of heap.new b) (m.changing id.0 (push (value_of x.now)) (moment_of heap.old b)) }
    ensures long { length heap.new ≡ length heap.old }
{
    heap.push(id, x.copied()?)?;
    Ok(Value::None)
}

fn pop_last(alloc: Global, id: NodeId, heap: &mut Heap) -> Result<Value, CallFault>
    requires id { id.0 < length heap.old }
    requires list { IsList heap.old id.0 }
    ensures gives { (b : Budget) → Gives value_of result (moment_of heap.new b) (m.pop_last id.0 (items_at heap.old id.0) (moment_of heap.old b)) }
    ensures long { length heap.new ≡ length heap.old }
{
    match heap.pop(id) {
        Some(value) => Ok(value),
        None => raise(
            ClassId::INDEX_ERROR,
            plain_text(alloc, "pop from empty list")?,
        ),
    }
}

fn clear(alloc: Global, id: NodeId, heap: &mut Heap) -> Result<Value, CallFault>
    requires id { id.0 < length heap.old }
    ensures gives { (b : Budget) → Gives value_of result (moment_of heap.new b) (m.changing id.0 (replace_list []) (moment_of heap.old b)) }
    ensures long { length heap.new ≡ length heap.old }
{
    heap.replace_list(id, Vec::new(alloc));
    Ok(Value::None)
}

fn take_out<L: Ledger>(
    alloc: Global,
    id: NodeId,
    place: usize,
    heap: &mut Heap,
    budget: &mut Budget,
    steps: &mut Steps<L>,
) -> Result<Value, CallFault>
    requires id { id.0 < length heap.old }
    requires list { IsList heap.old id.0 }
    requires place { place < length (items_at heap.old id.0) }
    ensures gives { Gives value_of result (moment_of heap.new budget.new) (m.take_out id.0 (items_at heap.old id.0) place (moment_of heap.old budget.old)) }
    ensures grows { GrowsPaid 1 heap.old budget.old heap.new budget.new }
    ensures spends { Spends 1 budget.old steps.old budget.new steps.new }
{
    spend(list_len(heap, id, steps) as u128, budget, steps)?;
    Ok(without_place(alloc, id, place, heap, steps)?)
}

fn pop_at<L: Ledger>(
    alloc: Global,
    id: NodeId,
    at: &Value,
    heap: &mut Heap,
    budget: &mut Budget,
    steps: &mut Steps<L>,
) -> Result<Value, CallFault>
    requires id { id.0 < length heap.old }
    requires list { IsList heap.old id.0 }
    requires sound { IsTrue (is_sound (length heap.old) (value_of at.now)) }
    ensures gives { Gives value_of result (moment_of heap.new budget.new) (m.list_row m.pop id.0 (items_at heap.old id.0) (value_of at.now ∷ []) (moment_of heap.old budget.old)) }
    ensures grows { GrowsPaid 1 heap.old budget.old heap.new budget.new }
    ensures spends { Spends 3 budget.old steps.old budget.new steps.new }
{
    let index = index_of(alloc, at, heap, steps)?;
    let len = list_len(heap, id, steps);
    if len == 0 {
        return raise(
            ClassId::INDEX_ERROR,
            plain_text(alloc, "pop from empty list")?,
        );
    }
    let place = place_of(alloc, len, index)?;
    take_out(alloc, id, place, heap, budget, steps)
}

fn put_in<L: Ledger>(
    alloc: Global,
    id: NodeId,
    index: i128,
    x: &Value,
    heap: &mut Heap,
    budget: &mut Budget,
    steps: &mut Steps<L>,
) -> Result<Value, CallFault>
    requires id { id.0 < length heap.old }
    requires list { IsList heap.old id.0 }
    requires sound { IsTrue (is_sound (length heap.old) (value_of x.now)) }
    ensures gives { Gives value_of result (moment_of heap.new budget.new) (m.insert_at id.0 (items_at heap.old id.0) (value_of x.now) index (moment_of heap.old budget.old)) }
    ensures grows { GrowsPaid 1 heap.old budget.old heap.new budget.new }
    ensures spends { Spends 2 budget.old steps.old budget.new steps.new }
{
    let len = list_len(heap, id, steps);
    spend(len as u128, budget, steps)?;
    with_place(alloc, id, bound_in(len, index), x, heap, steps)?;
    Ok(Value::None)
}

fn insert_at<L: Ledger>(
    alloc: Global,
    id: NodeId,
    at: &Value,
    x: &Value,
    heap: &mut Heap,
    budget: &mut Budget,
    steps: &mut Steps<L>,
) -> Result<Value, CallFault>
    requires id { id.0 < length heap.old }
    requires list { IsList heap.old id.0 }
    requires at { IsTrue (is_sound (length heap.old) (value_of at.now)) }
    requires sound { IsTrue (is_sound (length heap.old) (value_of x.now)) }
    ensures gives { Gives value_of result (moment_of heap.new budget.new) (m.list_row m.insert id.0 (items_at heap.old id.0) (value_of at.now ∷ value_of x.now ∷ []) (moment_of heap.old budget.old)) }
    ensures grows { GrowsPaid 1 heap.old budget.old heap.new budget.new }
    ensures spends { Spends 3 budget.old steps.old budget.new steps.new }
{
    let index = index_of(alloc, at, heap, steps)?;
    put_in(alloc, id, index, x, heap, budget, steps)
}

fn extend<L: Ledger>(
    alloc: Global,
    id: NodeId,
    sequence: &Value,
    heap: &mut Heap,
    budget: &mut Budget,
    steps: &mut Steps<L>,
) -> Result<Value, CallFault>
    requires id { id.0 < length heap.old }
    requires list { IsList heap.old id.0 }
    requires sound { IsTrue (is_sound (length heap.old) (value_of sequence.now)) }
    requires room { length heap.old + budget.old.left < 2 ^ 32 - 16 }
    ensures gives { Gives value_of result (moment_of heap.new budget.new) (m.list_row m.extend id.0 (items_at heap.old id.0) (value_of sequence.now ∷ []) (moment_of heap.old budget.old)) }
    ensures grows { GrowsPaid 1 heap.old budget.old heap.new budget.new }
    ensures spends { Spends 2 budget.old steps.old budget.new steps.new }
{
    let items = walked(alloc, sequence, heap, budget, steps)?;
    push_all(id, items.as_slice(), heap)?;
    Ok(Value::None)
}

fn remove<L: Ledger>(
    alloc: Global,
    id: NodeId,
    x: &Value,
    heap: &mut Heap,
    budget: &mut Budget,
    steps: &mut Steps<L>,
) -> Result<Value, CallFault>
    requires id { id.0 < length heap.old }
    requires list { IsList heap.old id.0 }
    ensures gives { Gives value_of result (moment_of heap.new budget.new) (m.list_row m.remove id.0 (items_at heap.old id.0) (value_of x.now ∷ []) (moment_of heap.old budget.old)) }
    ensures grows { GrowsPaid 1 heap.old budget.old heap.new budget.new }
    ensures spends { Spends 2 budget.old steps.old budget.new steps.new }
{
    let items = list_items(heap, id, steps);
    let place = place_of_equal(alloc, x, items, heap, budget, steps)?;
    without_place(alloc, id, place, heap, steps)?;
    Ok(Value::None)
}

fn turn_round<L: Ledger>(
    alloc: Global,
    id: NodeId,
    heap: &mut Heap,
    budget: &mut Budget,
    steps: &mut Steps<L>,
) -> Result<Value, CallFault>
    requires id { id.0 < length heap.old }
    requires list { IsList heap.old id.0 }
    ensures gives { Gives value_of result (moment_of heap.new budget.new) (m.list_row m.reverse id.0 (items_at heap.old id.0) [] (moment_of heap.old budget.old)) }
    ensures grows { GrowsPaid 1 heap.old budget.old heap.new budget.new }
    ensures spends { Spends 2 budget.old steps.old budget.new steps.new }
{
    spend(list_len(heap, id, steps) as u128, budget, steps)?;
    reverse(alloc, id, heap, steps)?;
    Ok(Value::None)
}

fn copy<L: Ledger>(
    alloc: Global,
    id: NodeId,
    heap: &mut Heap,
    budget: &mut Budget,
    steps: &mut Steps<L>,
) -> Result<Value, CallFault>
    requires id { id.0 < length heap.old }
    requires list { IsList heap.old id.0 }
    requires room { length heap.old + 1 < 2 ^ 32 }
    ensures gives { Gives value_of result (moment_of heap.new budget.new) (m.list_row m.copy id.0 (items_at heap.old id.0) [] (moment_of heap.old budget.old)) }
    ensures grows { GrowsPaid 1 heap.old budget.old heap.new budget.new }
    ensures spends { Spends 2 budget.old steps.old budget.new steps.new }
{
    spend(list_len(heap, id, steps) as u128, budget, steps)?;
    let items = copied_list(alloc, heap, id, steps)?;
    Ok(Value::Node(heap.make(Node::List(items))?))
}

fn sort<L: Ledger>(
    alloc: Global,
    id: NodeId,
    heap: &mut Heap,
    budget: &mut Budget,
    steps: &mut Steps<L>,
) -> Result<Value, CallFault>
    requires id { id.0 < length heap.old }
    requires list { IsList heap.old id.0 }
    ensures gives { Gives value_of result (moment_of heap.new budget.new) (m.sort_in_place id.0 (items_at heap.old id.0) (moment_of heap.old budget.old)) }
    ensures grows { GrowsPaid 1 heap.old budget.old heap.new budget.new }
    ensures spends { Spends 2 budget.old steps.old budget.new steps.new }
{
    spend(sort_steps(list_len(heap, id, steps) as u64), budget, steps)?;
    let items = copied_list(alloc, heap, id, steps)?;
    match in_order(items)? {
        Some(sorted) => {
            heap.replace_list(id, sorted);
            Ok(Value::None)
        }
        None => bad_arguments(alloc, ListMethod::Sort),
    }
}

fn without_argument<L: Ledger>(
    alloc: Global,
    method: ListMethod,
    id: NodeId,
    heap: &mut Heap,
    budget: &mut Budget,
    steps: &mut Steps<L>,
) -> Result<Value, CallFault>
    requires id { id.0 < length heap.old }
    requires list { IsList heap.old id.0 }
    requires room { length heap.old + budget.old.left < 2 ^ 32 - 16 }
    ensures gives { Gives value_of result (moment_of heap.new budget.new) (m.list_row (list_method_of method) id.0 (items_at heap.old id.0) [] (moment_of heap.old budget.old)) }
    ensures grows { GrowsPaid 1 heap.old budget.old heap.new budget.new }
    ensures spends { Spends 2 budget.old steps.old budget.new steps.new }
{
    match method {
        ListMethod::Pop => pop_last(alloc, id, heap),
        ListMethod::Clear => clear(alloc, id, heap),
        ListMethod::Reverse => turn_round(alloc, id, heap, budget, steps),
        ListMethod::Copy => copy(alloc, id, heap, budget, steps),
        ListMethod::Sort => sort(alloc, id, heap, budget, steps),
        ListMethod::Append
        | ListMethod::Count
        | ListMethod::Extend
        | ListMethod::Index
        | ListMethod::Insert
        | ListMethod::Remove => bad_arguments(alloc, method),
    }
}

fn with_argument<L: Ledger>(
    alloc: Global,
    method: ListMethod,
    id: NodeId,
    x: &Value,
    heap: &mut Heap,
    budget: &mut Budget,
    steps: &mut Steps<L>,
) -> Result<Value, CallFault>
    requires id { id.0 < length heap.old }
    requires list { IsList heap.old id.0 }
    requires room { length heap.old + budget.old.left < 2 ^ 32 - 16 }
    requires sound { IsTrue (is_sound (length heap.old) (value_of x.now)) }
    ensures gives { Gives value_of result (moment_of heap.new budget.new) (m.list_row (list_method_of method) id.0 (items_at heap.old id.0) (value_of x.now ∷ []) (moment_of heap.old budget.old)) }
    ensures grows { GrowsPaid 1 heap.old budget.old heap.new budget.new }
    ensures spends { Spends 3 budget.old steps.old budget.new steps.new }
{
    match method {
        ListMethod::Append => append(id, x, heap),
        ListMethod::Pop => pop_at(alloc, id, x, heap, budget, steps),
        ListMethod::Extend => extend(alloc, id, x, heap, budget, steps),
        ListMethod::Remove => remove(alloc, id, x, heap, budget, steps),
        ListMethod::Index => place_number(
            alloc,
            x,
            list_items(heap, id, steps),
            heap,
            budget,
            steps,
        ),
        ListMethod::Count => count_number(
            alloc,
            x,
            list_items(heap, id, steps),
            heap,
            budget,
            steps,
        ),
        ListMethod::Clear
        | ListMethod::Copy
        | ListMethod::Insert
        | ListMethod::Reverse
        | ListMethod::Sort => bad_arguments(alloc, method),
    }
}

fn with_arguments<L: Ledger>(
    alloc: Global,
    method: ListMethod,
    id: NodeId,
    at: &Value,
    x: &Value,
    heap: &mut Heap,
    budget: &mut Budget,
    steps: &mut Steps<L>,
) -> Result<Value, CallFault>
    requires id { id.0 < length heap.old }
    requires list { IsList heap.old id.0 }
    requires room { length heap.old + budget.old.left < 2 ^ 32 - 16 }
    requires at { IsTrue (is_sound (length heap.old) (value_of at.now)) }
    requires sound { IsTrue (is_sound (length heap.old) (value_of x.now)) }
    ensures gives { Gives value_of result (moment_of heap.new budget.new) (m.list_row (list_method_of method) id.0 (items_at heap.old id.0) (value_of at.now ∷ value_of x.now ∷ []) (moment_of heap.old budget.old)) }
    ensures grows { GrowsPaid 1 heap.old budget.old heap.new budget.new }
    ensures spends { Spends 3 budget.old steps.old budget.new steps.new }
{
    match method {
        ListMethod::Insert => insert_at(alloc, id, at, x, heap, budget, steps),
        ListMethod::Append
        | ListMethod::Clear
        | ListMethod::Copy
        | ListMethod::Count
        | ListMethod::Extend
        | ListMethod::Index
        | ListMethod::Pop
        | ListMethod::Remove
        | ListMethod::Reverse
        | ListMethod::Sort => bad_arguments(alloc, method),
    }
}

/// A method of the list of this number.
pub(crate) fn list_method<L: Ledger>(
    alloc: Global,
    method: ListMethod,
    id: NodeId,
    args: &[Value],
    heap: &mut Heap,
    budget: &mut Budget,
    steps: &mut Steps<L>,
) -> Result<Value, CallFault>
    requires id { id.0 < length heap.old }
    requires list { IsList heap.old id.0 }
    requires room { length heap.old + budget.old.left < 2 ^ 32 - 16 }
    requires sound { IsTrue (are_sound (length heap.old) (map value_of args.now)) }
    ensures gives { Gives value_of result (moment_of heap.new budget.new) (m.list_row (list_method_of method) id.0 (items_at heap.old id.0) (map value_of args.now) (moment_of heap.old budget.old)) }
    ensures grows { GrowsPaid 1 heap.old budget.old heap.new budget.new }
    ensures spends { Spends 3 budget.old steps.old budget.new steps.new }
{
    match args {
        [] => without_argument(alloc, method, id, heap, budget, steps),
        [x] => with_argument(alloc, method, id, x, heap, budget, steps),
        [at, x] => with_arguments(alloc, method, id, at, x, heap, budget, steps),
        [_, _, _, ..] => bad_arguments(alloc, method),
    }
}
