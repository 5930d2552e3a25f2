// The methods of dicts.
ghost use Rattle.std.specs.Prelude.{◌≡◌, ◌+◌, ◌-◌, ◌*◌, ◌<◌, ◌≤◌, ◌^◌, ◌∷◌, [], IsTrue, IfOk, OnOk, IfNone, map, length, option_map};
ghost use Rattle.kishu_meaning.specs.declared.budget.Budget.{Budget};
ghost use Rattle.kishu_meaning.specs.values.Keys.{key_of, is_one};
ghost use Rattle.kishu_meaning.specs.calls.Methods as m;
ghost use Rattle.kishu_meaning.specs.moments.Moment.{give};
ghost use Rattle.kishu_meaning.specs.values.Nodes.{changed, on_dict, value_at, without_entry, insert};
ghost use Rattle.kishu_meaning.specs.values.Kinds.{no_key};
ghost use Rattle.kishu_meaning.specs.values.Sound.{is_sound, are_sound};
ghost use Rattle.kishu_meaning.specs.values.Values.{value_of};
ghost use Rattle.kishu_heap.specs.Costs.{GrowsPaid, Spends};
ghost use Rattle.kishu_methods.specs.Called.{moment_of, dict_method_of, Gives};
ghost use Rattle.kishu_methods.specs.Contents.{entries_at, IsDict};

use crate::entries::{dict_entries, dict_in, dict_len, insert_all, value_under};
use crate::faults::bad_arguments;
use crate::method::DictMethod;
use kishu_heap::{CallFault, Heap, Node};
use kishu_items::{copied_map, key_of, spend};
use kishu_meaning::{Budget, ClassId, Key, NodeId, Steps, Value};
use std::alloc::{AllocError, Global};
use std::sync::ledger::Ledger;

fn get<L: Ledger>(
    alloc: Global,
    id: NodeId,
    key: &Value,
    other: &Value,
    heap: &Heap,
    budget: &mut Budget,
    steps: &mut Steps<L>,
) -> Result<Value, CallFault>
    requires id { id.0 < length heap.now }
    requires dict { IsDict heap.now id.0 }
    requires sound { IsTrue (is_sound (length heap.now) (value_of key.now)) }
    ensures gives { Gives value_of result (moment_of heap.now budget.new) (m.look_up (entries_at heap.now id.0) (value_of key.now) (give (value_of other.now)) (moment_of heap.now budget.old)) }
    ensures spends { Spends 3 budget.old steps.old budget.new steps.new }
{
    let key = key_of(alloc, key, heap, budget, steps)?;
    match value_under(&key, id, heap, steps)? {
        Some(value) => Ok(value),
        None => Ok(other.copied()?),
    }
}

// A value under a key that isn't there.
fn set_new(id: NodeId, key: Key, value: &Value, heap: &mut Heap) -> Result<Value, AllocError>
    requires id { id.0 < length heap.old }
    requires sound { IsTrue (is_sound (length heap.old) (value_of value.now)) }
    ensures nodes { OnOk result (heap.new ≡ changed (insert (key_of key) (value_of value.now)) id.0 heap.old) }
    ensures value { IfOk result (λ v. value_of v ≡ value_of value.now) }
    ensures long { length heap.new ≡ length heap.old }
{
    heap.insert(id, key, value.copied()?)?;
    value.copied()
}

fn set_default<L: Ledger>(
    alloc: Global,
    id: NodeId,
    key: &Value,
    value: &Value,
    heap: &mut Heap,
    budget: &mut Budget,
    steps: &mut Steps<L>,
) -> Result<Value, CallFault>
    requires id { id.0 < length heap.old }
    requires dict { IsDict heap.old id.0 }
    requires key { IsTrue (is_sound (length heap.old) (value_of key.now)) }
    requires sound { IsTrue (is_sound (length heap.old) (value_of value.now)) }
    ensures gives { Gives value_of result (moment_of heap.new budget.new) (m.set_default id.0 (entries_at heap.old id.0) (value_of key.now) (value_of value.now) (moment_of heap.old budget.old)) }
    ensures grows { GrowsPaid 1 heap.old budget.old heap.new budget.new }
    ensures spends { Spends 3 budget.old steps.old budget.new steps.new }
{
    let key = key_of(alloc, key, heap, budget, steps)?;
    match value_under(&key, id, heap, steps)? {
        Some(found) => Ok(found),
        None => Ok(set_new(id, key, value, heap)?),
    }
}

// What is under a key, taken out.
fn take_out(id: NodeId, key: &Key, heap: &mut Heap) -> Option<Value>
    requires id { id.0 < length heap.old }
    requires dict { IsDict heap.old id.0 }
    ensures value { option_map value_of result ≡ value_at is_one (key_of key.now) (entries_at heap.old id.0) }
    ensures nodes { heap.new ≡ changed (on_dict (without_entry is_one (key_of key.now))) id.0 heap.old }
    ensures none { IfNone result (heap.new ≡ heap.old) }
    ensures long { length heap.new ≡ length heap.old }
{
    heap.remove(id, key)
}

fn pop_or<L: Ledger>(
    alloc: Global,
    id: NodeId,
    key: &Value,
    other: &Value,
    heap: &mut Heap,
    budget: &mut Budget,
    steps: &mut Steps<L>,
) -> Result<Value, CallFault>
    requires id { id.0 < length heap.old }
    requires dict { IsDict heap.old id.0 }
    requires sound { IsTrue (is_sound (length heap.old) (value_of key.now)) }
    ensures gives { Gives value_of result (moment_of heap.new budget.new) (m.pop_key id.0 (entries_at heap.old id.0) (value_of key.now) (give (value_of other.now)) (moment_of heap.old budget.old)) }
    ensures grows { GrowsPaid 1 heap.old budget.old heap.new budget.new }
    ensures spends { Spends 2 budget.old steps.old budget.new steps.new }
{
    let key = key_of(alloc, key, heap, budget, steps)?;
    match take_out(id, &key, heap) {
        Some(value) => Ok(value),
        None => Ok(other.copied()?),
    }
}

fn pop<L: Ledger>(
    alloc: Global,
    id: NodeId,
    key: &Value,
    heap: &mut Heap,
    budget: &mut Budget,
    steps: &mut Steps<L>,
) -> Result<Value, CallFault>
    requires id { id.0 < length heap.old }
    requires dict { IsDict heap.old id.0 }
    requires sound { IsTrue (is_sound (length heap.old) (value_of key.now)) }
    ensures gives { Gives value_of result (moment_of heap.new budget.new) (m.pop_key id.0 (entries_at heap.old id.0) (value_of key.now) (no_key (value_of key.now)) (moment_of heap.old budget.old)) }
    ensures grows { GrowsPaid 1 heap.old budget.old heap.new budget.new }
    ensures spends { Spends 2 budget.old steps.old budget.new steps.new }
{
    let found = key_of(alloc, key, heap, budget, steps)?;
    match take_out(id, &found, heap) {
        Some(value) => Ok(value),
        None => {
            let value = key.copied()?;
            Err(CallFault::RaiseWith {
                class: ClassId::KEY_ERROR,
                value,
            })
        }
    }
}

fn clear(id: NodeId, heap: &mut Heap) -> Result<Value, CallFault>
    requires id { id.0 < length heap.old }
    ensures gives { (b : Budget) → Gives value_of result (moment_of heap.new b) (m.changing id.0 (on_dict (λ entries. [])) (moment_of heap.old b)) }
    ensures long { length heap.new ≡ length heap.old }
{
    heap.clear(id);
    Ok(Value::None)
}

fn update<L: Ledger>(
    alloc: Global,
    id: NodeId,
    other: &Value,
    heap: &mut Heap,
    budget: &mut Budget,
    steps: &mut Steps<L>,
) -> Result<Value, CallFault>
    requires id { id.0 < length heap.old }
    requires sound { IsTrue (is_sound (length heap.old) (value_of other.now)) }
    ensures gives { Gives value_of result (moment_of heap.new budget.new) (m.dict_row m.update id.0 (entries_at heap.old id.0) (value_of other.now ∷ []) (moment_of heap.old budget.old)) }
    ensures grows { GrowsPaid 1 heap.old budget.old heap.new budget.new }
    ensures spends { Spends 3 budget.old steps.old budget.new steps.new }
{
    let Some(source) = dict_in(other, heap, steps) else {
        return bad_arguments(alloc, DictMethod::Update);
    };
    spend(dict_len(heap, source, steps) as u128, budget, steps)?;
    let entries = copied_map(alloc, dict_entries(heap, source, steps))?;
    insert_all(alloc, id, &entries, heap)?;
    Ok(Value::None)
}

fn copy<L: Ledger>(
    alloc: Global,
    id: NodeId,
    heap: &mut Heap,
    budget: &mut Budget,
    steps: &mut Steps<L>,
) -> Result<Value, CallFault>
    requires id { id.0 < length heap.old }
    requires dict { IsDict heap.old id.0 }
    requires room { length heap.old + budget.old.left < 2 ^ 32 - 16 }
    ensures gives { Gives value_of result (moment_of heap.new budget.new) (m.dict_row m.copy id.0 (entries_at heap.old id.0) [] (moment_of heap.old budget.old)) }
    ensures grows { GrowsPaid 1 heap.old budget.old heap.new budget.new }
    ensures spends { Spends 2 budget.old steps.old budget.new steps.new }
{
    spend(dict_len(heap, id, steps) as u128, budget, steps)?;
    let entries = copied_map(alloc, dict_entries(heap, id, steps))?;
    Ok(Value::Node(heap.make(Node::Dict(entries))?))
}

fn without_argument<L: Ledger>(
    alloc: Global,
    method: DictMethod,
    id: NodeId,
    heap: &mut Heap,
    budget: &mut Budget,
    steps: &mut Steps<L>,
) -> Result<Value, CallFault>
    requires id { id.0 < length heap.old }
    requires dict { IsDict heap.old id.0 }
    requires room { length heap.old + budget.old.left < 2 ^ 32 - 16 }
    ensures gives { Gives value_of result (moment_of heap.new budget.new) (m.dict_row (dict_method_of method) id.0 (entries_at heap.old id.0) [] (moment_of heap.old budget.old)) }
    ensures grows { GrowsPaid 1 heap.old budget.old heap.new budget.new }
    ensures spends { Spends 2 budget.old steps.old budget.new steps.new }
{
    match method {
        DictMethod::Clear => clear(id, heap),
        DictMethod::Copy => copy(alloc, id, heap, budget, steps),
        DictMethod::Get | DictMethod::Pop | DictMethod::SetDefault | DictMethod::Update =>
            bad_arguments(alloc, method),
    }
}

fn with_argument<L: Ledger>(
    alloc: Global,
    method: DictMethod,
    id: NodeId,
    x: &Value,
    heap: &mut Heap,
    budget: &mut Budget,
    steps: &mut Steps<L>,
) -> Result<Value, CallFault>
    requires id { id.0 < length heap.old }
    requires dict { IsDict heap.old id.0 }
    requires room { length heap.old + budget.old.left < 2 ^ 32 - 16 }
    requires sound { IsTrue (is_sound (length heap.old) (value_of x.now)) }
    ensures gives { Gives value_of result (moment_of heap.new budget.new) (m.dict_row (dict_method_of method) id.0 (entries_at heap.old id.0) (value_of x.now ∷ []) (moment_of heap.old budget.old)) }
    ensures grows { GrowsPaid 1 heap.old budget.old heap.new budget.new }
    ensures spends { Spends 3 budget.old steps.old budget.new steps.new }
{
    match method {
        DictMethod::Get => get(alloc, id, x, &Value::None, heap, budget, steps),
        DictMethod::SetDefault => set_default(alloc, id, x, &Value::None, heap, budget, steps),
        DictMethod::Pop => pop(alloc, id, x, heap, budget, steps),
        DictMethod::Update => update(alloc, id, x, heap, budget, steps),
        DictMethod::Clear | DictMethod::Copy => bad_arguments(alloc, method),
    }
}

fn with_arguments<L: Ledger>(
    alloc: Global,
    method: DictMethod,
    id: NodeId,
    x: &Value,
    y: &Value,
    heap: &mut Heap,
    budget: &mut Budget,
    steps: &mut Steps<L>,
) -> Result<Value, CallFault>
    requires id { id.0 < length heap.old }
    requires dict { IsDict heap.old id.0 }
    requires room { length heap.old + budget.old.left < 2 ^ 32 - 16 }
    requires sound { IsTrue (is_sound (length heap.old) (value_of x.now)) }
    requires other { IsTrue (is_sound (length heap.old) (value_of y.now)) }
    ensures gives { Gives value_of result (moment_of heap.new budget.new) (m.dict_row (dict_method_of method) id.0 (entries_at heap.old id.0) (value_of x.now ∷ value_of y.now ∷ []) (moment_of heap.old budget.old)) }
    ensures grows { GrowsPaid 1 heap.old budget.old heap.new budget.new }
    ensures spends { Spends 3 budget.old steps.old budget.new steps.new }
{
    match method {
        DictMethod::Get => get(alloc, id, x, y, heap, budget, steps),
        DictMethod::SetDefault => set_default(alloc, id, x, y, heap, budget, steps),
        DictMethod::Pop => pop_or(alloc, id, x, y, heap, budget, steps),
        DictMethod::Clear | DictMethod::Copy | DictMethod::Update => bad_arguments(alloc, method),
    }
}

/// A method of the dict of this number.
pub(crate) fn dict_method<L: Ledger>(
    alloc: Global,
    method: DictMethod,
    id: NodeId,
    args: &[Value],
    heap: &mut Heap,
    budget: &mut Budget,
    steps: &mut Steps<L>,
) -> Result<Value, CallFault>
    requires id { id.0 < length heap.old }
    requires dict { IsDict heap.old id.0 }
    requires room { length heap.old + budget.old.left < 2 ^ 32 - 16 }
    requires sound { IsTrue (are_sound (length heap.old) (map value_of args.now)) }
    ensures gives { Gives value_of result (moment_of heap.new budget.new) (m.dict_row (dict_method_of method) id.0 (entries_at heap.old id.0) (map value_of args.now) (moment_of heap.old budget.old)) }
    ensures grows { GrowsPaid 1 heap.old budget.old heap.new budget.new }
    ensures spends { Spends 3 budget.old steps.old budget.new steps.new }
{
    match args {
        [] => without_argument(alloc, method, id, heap, budget, steps),
        [x] => with_argument(alloc, method, id, x, heap, budget, steps),
        [x, y] => with_arguments(alloc, method, id, x, y, heap, budget, steps),
        [_, _, _, ..] => bad_arguments(alloc, method),
    }
}
