// Equality of values over the nodes to which they lead (Python Language Reference 3, "Value
// comparisons").
ghost use Rattle.std.specs.Prelude.{◌≡◌, ℕ, ◌+◌, ◌*◌, ◌<◌, ◌≤◌, OnOk, length, map, option_map, slice_get};
ghost use Rattle.std.specs.Str.{bytes_eq};
ghost use Rattle.kishu_meaning.specs.values.Keys.{key_of, is_one};
ghost use Rattle.kishu_meaning.specs.values.Values.{value_of};
ghost use Rattle.kishu_meaning.specs.values.Nodes.{value_at};
ghost use Rattle.kishu_meaning.specs.comparing.Equal.{node_in, equal_by, pair_equal, items_equal, lists_equal, value_equal, entries_equal, maps_equal, nodes_equal, equal_nodes};
ghost use Rattle.kishu_heap.specs.Cells.{entries_of, attributes_of};
ghost use Rattle.kishu_heap.specs.Compared.{Gives};
ghost use Rattle.kishu_heap.specs.Costs.{Compares};

use crate::fault::CompareFault;
use crate::heap::Heap;
use crate::plain::{is_equal, is_same, pair_steps};
use crate::taken::take_steps;
use indexmap::IndexMap;
use kishu_meaning::{Key, NodeId, Steps, Value};
use std::rc::RcStr;
use std::sync::ledger::Ledger;

/// The node of a value that is one.
pub(crate) fn node_in(value: &Value) -> Option<NodeId>
    ensures { option_map (λ id. id.0) result ≡ node_in (value_of value.now) }
{
    match value {
        Value::Node(id) => Some(*id),
        Value::None
        | Value::Bool(_)
        | Value::Int(_)
        | Value::Text(_)
        | Value::Range(..)
        | Value::Builtin(_)
        | Value::Class(_) => None,
    }
}

/// The value of a dict under a key.
fn value_under<'a>(dict: &'a IndexMap<Key, Value>, key: &Key) -> Option<&'a Value>
    ensures { option_map (λ v. value_of v.now) result ≡ value_at is_one (key_of key.now) (entries_of dict.now.entries) }
{
    dict.get(key)
}

/// The value of an object's attribute.
fn attribute<'a>(object: &'a IndexMap<RcStr, Value>, name: &str) -> Option<&'a Value>
    ensures { option_map (λ v. value_of v.now) result ≡ value_at bytes_eq name.now (attributes_of object.now.entries) }
{
    object.get(name)
}

/// Whether two values are equal, with at most `room` nodes in one another.
#[cycle(equal)]
pub(crate) fn equal_values<L: Ledger>(
    heap: &Heap,
    a: &Value,
    b: &Value,
    room: u32,
    left: &mut u64,
    steps: &mut Steps<L>,
) -> Result<bool, CompareFault>
    ensures gives { Gives result left.new (equal_by (equal_nodes heap.now room) (value_of a.now) (value_of b.now) left.old) }
    ensures takes { Compares 2 left.old steps.old left.new steps.new }
{
    if let (Some(i), Some(j)) = (node_in(a), node_in(b)) {
        if room == 0 {
            return Err(CompareFault::Depth);
        }
        return equal_nodes(heap, i, j, room - 1, left, steps);
    }
    take_steps(pair_steps(a, b), left, steps)?;
    Ok(is_equal(a, b))
}

/// Whether two nodes are equal, with at most `room` nodes in one another inside them.
#[cycle(equal)]
fn equal_nodes<L: Ledger>(
    heap: &Heap,
    i: NodeId,
    j: NodeId,
    room: u32,
    left: &mut u64,
    steps: &mut Steps<L>,
) -> Result<bool, CompareFault>
    ensures gives { Gives result left.new (nodes_equal (equal_nodes heap.now room) i.0 j.0 (slice_get heap.now i.0) (slice_get heap.now j.0) left.old) }
    ensures takes { Compares 2 left.old steps.old left.new steps.new }
{
    let (Some(a), Some(b)) = (heap.node_at(i, steps), heap.node_at(j, steps)) else {
        return Ok(i.0 == j.0);
    };
    if let (Some(a), Some(b)) = (a.list(), b.list()) {
        return equal_lists(heap, a, b, room, left, steps);
    }
    if let (Some(a), Some(b)) = (a.tuple(), b.tuple()) {
        return equal_lists(heap, a, b, room, left, steps);
    }
    if let (Some(a), Some(b)) = (a.dict(), b.dict()) {
        return equal_dicts(heap, a, b, room, left, steps);
    }
    if let (Some(a), Some(b)) = (a.object(), b.object()) {
        return equal_objects(heap, a, b, room, left, steps);
    }
    Ok(i.0 == j.0)
}

/// Whether two lists of values are equal.
#[cycle(equal)]
fn equal_lists<L: Ledger>(
    heap: &Heap,
    a: &[Value],
    b: &[Value],
    room: u32,
    left: &mut u64,
    steps: &mut Steps<L>,
) -> Result<bool, CompareFault>
    ensures gives { Gives result left.new (lists_equal (equal_nodes heap.now room) (map value_of a.now) (map value_of b.now) left.old) }
    ensures takes { Compares 0 left.old steps.old left.new steps.new }
{
    if a.len() == b.len() {
        return equal_items(heap, a, b, room, left, steps);
    }
    Ok(false)
}

/// Whether the items are equal, one by one.
#[cycle(equal)]
fn equal_items<L: Ledger>(
    heap: &Heap,
    a: &[Value],
    b: &[Value],
    room: u32,
    left: &mut u64,
    steps: &mut Steps<L>,
) -> Result<bool, CompareFault>
    requires { length a.now ≡ length b.now }
    ensures gives { Gives result left.new (items_equal (equal_nodes heap.now room) (map value_of a.now) (map value_of b.now) left.old) }
    ensures takes { Compares 0 left.old steps.old left.new steps.new }
{
    for i in 0..a.len() {
        if !equal_pair(heap, &a[i], &b[i], room, left, steps)? {
            return Ok(false);
        }
    }
    Ok(true)
}

/// Whether a further pair of values is equal: what is the same is equal.
#[cycle(equal)]
pub(crate) fn equal_pair<L: Ledger>(
    heap: &Heap,
    a: &Value,
    b: &Value,
    room: u32,
    left: &mut u64,
    steps: &mut Steps<L>,
) -> Result<bool, CompareFault>
    ensures gives { Gives result left.new (pair_equal (equal_nodes heap.now room) (value_of a.now) (value_of b.now) left.old) }
    ensures takes { Compares 0 left.old steps.old left.new steps.new }
    ensures spare { OnOk result (8 * left.new + steps.new + 2 ≤ 8 * left.old + steps.old) }
{
    take_steps(1, left, steps)?;
    if is_same(a, b) {
        take_steps(pair_steps(a, b), left, steps)?;
        return Ok(true);
    }
    equal_values(heap, a, b, room, left, steps)
}

/// Whether a value is equal to another, where that is there.
#[cycle(equal)]
fn equal_found<L: Ledger>(
    heap: &Heap,
    a: &Value,
    found: Option<&Value>,
    room: u32,
    left: &mut u64,
    steps: &mut Steps<L>,
) -> Result<bool, CompareFault>
    ensures gives { Gives result left.new (value_equal (equal_nodes heap.now room) (value_of a.now) (option_map (λ v. value_of v.now) found.entry) left.old) }
    ensures takes { Compares 0 left.old steps.old left.new steps.new }
{
    match found {
        Some(b) => equal_pair(heap, a, b, room, left, steps),
        None => Ok(false),
    }
}

/// Whether two dicts are equal.
#[cycle(equal)]
fn equal_dicts<L: Ledger>(
    heap: &Heap,
    a: &IndexMap<Key, Value>,
    b: &IndexMap<Key, Value>,
    room: u32,
    left: &mut u64,
    steps: &mut Steps<L>,
) -> Result<bool, CompareFault>
    ensures gives { Gives result left.new (maps_equal (equal_nodes heap.now room) is_one (entries_of a.now.entries) (entries_of b.now.entries) left.old) }
    ensures takes { Compares 0 left.old steps.old left.new steps.new }
{
    if a.len() == b.len() {
        return equal_entries(heap, a, b, room, left, steps);
    }
    Ok(false)
}

/// Whether each key of a dict has an equal value in another.
#[cycle(equal)]
fn equal_entries<L: Ledger>(
    heap: &Heap,
    a: &IndexMap<Key, Value>,
    b: &IndexMap<Key, Value>,
    room: u32,
    left: &mut u64,
    steps: &mut Steps<L>,
) -> Result<bool, CompareFault>
    ensures gives { Gives result left.new (entries_equal (equal_nodes heap.now room) is_one (entries_of a.now.entries) (entries_of b.now.entries) left.old) }
    ensures takes { Compares 0 left.old steps.old left.new steps.new }
{
    for i in 0..a.len() {
        let Some((key, value)) = a.get_index(i) else {
            unreachable!()
        };
        if !equal_found(heap, value, value_under(b, key), room, left, steps)? {
            return Ok(false);
        }
    }
    Ok(true)
}

/// Whether two objects are equal.
#[cycle(equal)]
fn equal_objects<L: Ledger>(
    heap: &Heap,
    a: &IndexMap<RcStr, Value>,
    b: &IndexMap<RcStr, Value>,
    room: u32,
    left: &mut u64,
    steps: &mut Steps<L>,
) -> Result<bool, CompareFault>
    ensures gives { Gives result left.new (maps_equal (equal_nodes heap.now room) bytes_eq (attributes_of a.now.entries) (attributes_of b.now.entries) left.old) }
    ensures takes { Compares 0 left.old steps.old left.new steps.new }
{
    if a.len() == b.len() {
        return equal_attributes(heap, a, b, room, left, steps);
    }
    Ok(false)
}

/// Whether each attribute of an object has an equal value in another.
#[cycle(equal)]
fn equal_attributes<L: Ledger>(
    heap: &Heap,
    a: &IndexMap<RcStr, Value>,
    b: &IndexMap<RcStr, Value>,
    room: u32,
    left: &mut u64,
    steps: &mut Steps<L>,
) -> Result<bool, CompareFault>
    ensures gives { Gives result left.new (entries_equal (equal_nodes heap.now room) bytes_eq (attributes_of a.now.entries) (attributes_of b.now.entries) left.old) }
    ensures takes { Compares 0 left.old steps.old left.new steps.new }
{
    for i in 0..a.len() {
        let Some((name, value)) = a.get_index(i) else {
            unreachable!()
        };
        if !equal_found(heap, value, attribute(b, name.as_str()), room, left, steps)? {
            return Ok(false);
        }
    }
    Ok(true)
}
