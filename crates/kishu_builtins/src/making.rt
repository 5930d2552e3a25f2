// Classes that make a node: `dict`, `list`, `tuple`, objects and exceptions.
ghost use Rattle.std.specs.Prelude.{◌*◌, ◌-◌, ◌≡◌, [], ◌+◌, ◌<◌, ◌≤◌, ◌^◌, IsTrue, length, map, slice_get};
ghost use Rattle.std.specs.List.{list_all};
ghost use Rattle.kishu_meaning.specs.declared.budget.Budget.{Budget};
ghost use Rattle.kishu_meaning.specs.calls.Builtins.{copied_dict, all_items, tuple_of};
ghost use Rattle.kishu_meaning.specs.moments.Moment.{and_then, make, node_now};
ghost use Rattle.kishu_meaning.specs.calls.Operators.{new_list, new_tuple};
ghost use Rattle.kishu_meaning.specs.values.Sound.{is_sound, are_sound, is_exception_class};
ghost use Rattle.kishu_meaning.specs.values.Values.{value_of, node, dict, object, exception};
ghost use Rattle.kishu_heap.specs.Cells.{entries_of};
ghost use Rattle.kishu_heap.specs.Costs.{Grows, GrowsPaid, Spends};
ghost use Rattle.kishu_builtins.specs.Called.{moment_of, Gives};

use indexmap::IndexMap;
use kishu_heap::{CallFault, Heap, Node};
use kishu_items::{bad_arguments, copied_all, copied_map, spend, walked};
use kishu_meaning::{Budget, ClassId, Key, NodeId, Steps, Value};
use std::alloc::Global;
use std::sync::ledger::Ledger;

/// A new list.
pub(crate) fn new_list(items: Vec<Value>, heap: &mut Heap) -> Result<Value, CallFault>
    requires room { length heap.old + 1 < 2 ^ 32 }
    requires sound { IsTrue (are_sound (length heap.old) (map value_of items.items)) }
    ensures gives { (b : Budget) → Gives value_of result (moment_of heap.new b) (new_list (map value_of items.items) (moment_of heap.old b)) }
    ensures grows { Grows 1 heap.old heap.new }
{
    Ok(Value::Node(heap.make(Node::List(items))?))
}

/// A new tuple.
pub(crate) fn new_tuple(items: Vec<Value>, heap: &mut Heap) -> Result<Value, CallFault>
    requires room { length heap.old + 1 < 2 ^ 32 }
    requires sound { IsTrue (are_sound (length heap.old) (map value_of items.items)) }
    ensures gives { (b : Budget) → Gives value_of result (moment_of heap.new b) (new_tuple (map value_of items.items) (moment_of heap.old b)) }
    ensures grows { Grows 1 heap.old heap.new }
{
    Ok(Value::Node(heap.make(Node::Tuple(items))?))
}

/// A new list without items.
pub(crate) fn empty_list(alloc: Global, heap: &mut Heap) -> Result<Value, CallFault>
    requires room { length heap.old + 1 < 2 ^ 32 }
    ensures gives { (b : Budget) → Gives value_of result (moment_of heap.new b) (new_list [] (moment_of heap.old b)) }
    ensures grows { Grows 1 heap.old heap.new }
{
    new_list(Vec::new(alloc), heap)
}

/// A new tuple without items.
pub(crate) fn empty_tuple(alloc: Global, heap: &mut Heap) -> Result<Value, CallFault>
    requires room { length heap.old + 1 < 2 ^ 32 }
    ensures gives { (b : Budget) → Gives value_of result (moment_of heap.new b) (new_tuple [] (moment_of heap.old b)) }
    ensures grows { Grows 1 heap.old heap.new }
{
    new_tuple(Vec::new(alloc), heap)
}

/// A new list of the items of a sequence.
pub(crate) fn list_of<L: Ledger>(
    alloc: Global,
    value: &Value,
    heap: &mut Heap,
    budget: &mut Budget,
    steps: &mut Steps<L>,
) -> Result<Value, CallFault>
    requires sound { IsTrue (is_sound (length heap.old) (value_of value.now)) }
    requires room { length heap.old + budget.old.left < 2 ^ 32 - 16 }
    ensures gives { Gives value_of result (moment_of heap.new budget.new) (and_then (all_items (value_of value.now) (moment_of heap.old budget.old)) new_list) }
    ensures grows { GrowsPaid 1 heap.old budget.old heap.new budget.new }
    ensures spends { Spends 2 budget.old steps.old budget.new steps.new }
{
    let items = walked(alloc, value, heap, budget, steps)?;
    new_list(items, heap)
}

fn tuple_of_items<L: Ledger>(
    alloc: Global,
    value: &Value,
    heap: &mut Heap,
    budget: &mut Budget,
    steps: &mut Steps<L>,
) -> Result<Value, CallFault>
    requires sound { IsTrue (is_sound (length heap.old) (value_of value.now)) }
    requires room { length heap.old + budget.old.left < 2 ^ 32 - 16 }
    ensures gives { Gives value_of result (moment_of heap.new budget.new) (and_then (all_items (value_of value.now) (moment_of heap.old budget.old)) new_tuple) }
    ensures grows { GrowsPaid 1 heap.old budget.old heap.new budget.new }
    ensures spends { Spends 2 budget.old steps.old budget.new steps.new }
{
    let items = walked(alloc, value, heap, budget, steps)?;
    new_tuple(items, heap)
}

fn tuple_of_node<L: Ledger>(
    alloc: Global,
    id: NodeId,
    heap: &mut Heap,
    budget: &mut Budget,
    steps: &mut Steps<L>,
) -> Result<Value, CallFault>
    requires id { id.0 < length heap.old }
    requires room { length heap.old + budget.old.left < 2 ^ 32 - 16 }
    ensures gives { Gives value_of result (moment_of heap.new budget.new) (and_then (node_now (node id.0) (moment_of heap.old budget.old)) (tuple_of (node id.0))) }
    ensures grows { GrowsPaid 1 heap.old budget.old heap.new budget.new }
    ensures spends { Spends 3 budget.old steps.old budget.new steps.new }
{
    match heap.node(id, steps) {
        Node::Tuple(_) => Ok(Value::Node(id)),
        Node::List(_) => tuple_of_items(alloc, &Value::Node(id), heap, budget, steps),
        Node::Dict(_) => tuple_of_items(alloc, &Value::Node(id), heap, budget, steps),
        Node::Object(_) => tuple_of_items(alloc, &Value::Node(id), heap, budget, steps),
        Node::Function(_) => tuple_of_items(alloc, &Value::Node(id), heap, budget, steps),
        Node::Exception(..) => tuple_of_items(alloc, &Value::Node(id), heap, budget, steps),
    }
}

/// A tuple of the items of a sequence. A tuple gives itself.
pub(crate) fn tuple_of<L: Ledger>(
    alloc: Global,
    value: &Value,
    heap: &mut Heap,
    budget: &mut Budget,
    steps: &mut Steps<L>,
) -> Result<Value, CallFault>
    requires sound { IsTrue (is_sound (length heap.old) (value_of value.now)) }
    requires room { length heap.old + budget.old.left < 2 ^ 32 - 16 }
    ensures gives { Gives value_of result (moment_of heap.new budget.new) (and_then (node_now (value_of value.now) (moment_of heap.old budget.old)) (tuple_of (value_of value.now))) }
    ensures grows { GrowsPaid 1 heap.old budget.old heap.new budget.new }
    ensures spends { Spends 3 budget.old steps.old budget.new steps.new }
{
    match value {
        Value::Node(id) => tuple_of_node(alloc, *id, heap, budget, steps),
        Value::None => tuple_of_items(alloc, value, heap, budget, steps),
        Value::Bool(_) => tuple_of_items(alloc, value, heap, budget, steps),
        Value::Int(_) => tuple_of_items(alloc, value, heap, budget, steps),
        Value::Text(_) => tuple_of_items(alloc, value, heap, budget, steps),
        Value::Range(..) => tuple_of_items(alloc, value, heap, budget, steps),
        Value::Builtin(_) => tuple_of_items(alloc, value, heap, budget, steps),
        Value::Class(_) => tuple_of_items(alloc, value, heap, budget, steps),
    }
}

/// A new dict.
pub(crate) fn new_dict(entries: IndexMap<Key, Value>, heap: &mut Heap) -> Result<Value, CallFault>
    requires room { length heap.old + 1 < 2 ^ 32 }
    requires sound { IsTrue (list_all (λ e. is_sound (length heap.old) e.1) (entries_of entries.entries)) }
    ensures gives { (b : Budget) → Gives value_of result (moment_of heap.new b) (make (dict (entries_of entries.entries)) (moment_of heap.old b)) }
    ensures grows { Grows 1 heap.old heap.new }
{
    Ok(Value::Node(heap.make(Node::Dict(entries))?))
}

/// A new dict without entries.
pub(crate) fn empty_dict(alloc: Global, heap: &mut Heap) -> Result<Value, CallFault>
    requires room { length heap.old + 1 < 2 ^ 32 }
    ensures gives { (b : Budget) → Gives value_of result (moment_of heap.new b) (make (dict []) (moment_of heap.old b)) }
    ensures grows { Grows 1 heap.old heap.new }
{
    new_dict(IndexMap::new(alloc), heap)
}

fn dict_of_node<L: Ledger>(
    alloc: Global,
    id: NodeId,
    heap: &mut Heap,
    budget: &mut Budget,
    steps: &mut Steps<L>,
) -> Result<Value, CallFault>
    requires id { id.0 < length heap.old }
    requires room { length heap.old + 1 < 2 ^ 32 }
    ensures gives { Gives value_of result (moment_of heap.new budget.new) (copied_dict (slice_get heap.old id.0) (moment_of heap.old budget.old)) }
    ensures grows { GrowsPaid 1 heap.old budget.old heap.new budget.new }
    ensures spends { Spends 1 budget.old steps.old budget.new steps.new }
{
    let Some(entries) = heap.node(id, steps).dict() else {
        return bad_arguments(alloc, "dict");
    };
    spend(entries.len() as u128, budget, steps)?;
    let entries = copied_map(alloc, entries)?;
    new_dict(entries, heap)
}

/// A copy of a dict.
pub(crate) fn dict_of<L: Ledger>(
    alloc: Global,
    value: &Value,
    heap: &mut Heap,
    budget: &mut Budget,
    steps: &mut Steps<L>,
) -> Result<Value, CallFault>
    requires sound { IsTrue (is_sound (length heap.old) (value_of value.now)) }
    requires room { length heap.old + 1 < 2 ^ 32 }
    ensures gives { Gives value_of result (moment_of heap.new budget.new) (and_then (node_now (value_of value.now) (moment_of heap.old budget.old)) copied_dict) }
    ensures grows { GrowsPaid 1 heap.old budget.old heap.new budget.new }
    ensures spends { Spends 1 budget.old steps.old budget.new steps.new }
{
    match value {
        Value::Node(id) => dict_of_node(alloc, *id, heap, budget, steps),
        Value::None => bad_arguments(alloc, "dict"),
        Value::Bool(_) => bad_arguments(alloc, "dict"),
        Value::Int(_) => bad_arguments(alloc, "dict"),
        Value::Text(_) => bad_arguments(alloc, "dict"),
        Value::Range(..) => bad_arguments(alloc, "dict"),
        Value::Builtin(_) => bad_arguments(alloc, "dict"),
        Value::Class(_) => bad_arguments(alloc, "dict"),
    }
}

/// A new object without attributes.
pub(crate) fn new_object(alloc: Global, heap: &mut Heap) -> Result<Value, CallFault>
    requires room { length heap.old + 1 < 2 ^ 32 }
    ensures gives { (b : Budget) → Gives value_of result (moment_of heap.new b) (make (object []) (moment_of heap.old b)) }
    ensures grows { Grows 1 heap.old heap.new }
{
    Ok(Value::Node(heap.make(Node::Object(IndexMap::new(alloc)))?))
}

/// A new exception object of its arguments.
pub(crate) fn new_exception(
    alloc: Global,
    class: ClassId,
    args: &[Value],
    heap: &mut Heap,
) -> Result<Value, CallFault>
    requires class { IsTrue (is_exception_class class.0) }
    requires room { length heap.old + 1 < 2 ^ 32 }
    requires sound { IsTrue (are_sound (length heap.old) (map value_of args.now)) }
    ensures gives { (b : Budget) → Gives value_of result (moment_of heap.new b) (make (exception class.0 (map value_of args.now)) (moment_of heap.old b)) }
    ensures grows { Grows 1 heap.old heap.new }
{
    let args = copied_all(alloc, args)?;
    Ok(Value::Node(heap.make(Node::Exception(class, args))?))
}
