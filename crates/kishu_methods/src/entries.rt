// The entries of a dict node, read and changed.
ghost use Rattle.std.specs.Prelude.{◌≡◌, ◌+◌, ◌<◌, ◌≤◌, List, IsTrue, IfOk, IfSome, OnOk, option_map, option_and_then, length};
ghost use Rattle.std.specs.List.{list_all};
ghost use Rattle.kishu_meaning.specs.values.Keys.{key_of, is_one};
ghost use Rattle.kishu_meaning.specs.calls.Methods.{with_entries};
ghost use Rattle.kishu_meaning.specs.moments.Moment.{node_at};
ghost use Rattle.kishu_meaning.specs.values.Nodes as nodes;
ghost use Rattle.kishu_meaning.specs.values.Nodes.{changed, on_dict, value_at};
ghost use Rattle.kishu_meaning.specs.values.Sound.{is_sound};
ghost use Rattle.kishu_meaning.specs.values.Values.{value_of};
ghost use Rattle.kishu_heap.specs.Cells.{entries_of};
ghost use Rattle.kishu_heap.specs.Costs.{Reads};
ghost use Rattle.kishu_methods.specs.Contents.{entries_at, IsDict};

use indexmap::IndexMap;
use kishu_heap::{Heap, Node};
use kishu_items::copied_key;
use kishu_meaning::{Key, NodeId, Steps, Value};
use std::alloc::{AllocError, Global};
use std::sync::ledger::Ledger;

/// The entries of a dict.
pub(crate) fn dict_entries<'a, L: Ledger>(
    heap: &'a Heap,
    id: NodeId,
    steps: &mut Steps<L>,
) -> &'a IndexMap<Key, Value>
    requires id { id.0 < length heap.now }
    requires dict { IsDict heap.now id.0 }
    ensures entries { entries_of result.now.entries ≡ entries_at heap.now id.0 }
    ensures sound { IsTrue (list_all (λ e. is_sound (length heap.now) e.1) (entries_at heap.now id.0)) }
    ensures reads { Reads 1 steps.old steps.new }
{
    match heap.node(id, steps).dict() {
        Some(entries) => entries,
        None => unreachable!(),
    }
}

/// How many entries a dict has.
pub(crate) fn dict_len<L: Ledger>(heap: &Heap, id: NodeId, steps: &mut Steps<L>) -> usize
    requires id { id.0 < length heap.now }
    requires dict { IsDict heap.now id.0 }
    ensures len { result ≡ length (entries_at heap.now id.0) }
    ensures reads { Reads 1 steps.old steps.new }
{
    dict_entries(heap, id, steps).len()
}

fn found<'a>(entries: &'a IndexMap<Key, Value>, key: &Key) -> Option<&'a Value>
    ensures { option_map (λ v. value_of v.now) result ≡ value_at is_one (key_of key.now) (entries_of entries.now.entries) }
{
    entries.get(key)
}

/// What a dict has under a key.
pub(crate) fn value_under<L: Ledger>(
    key: &Key,
    id: NodeId,
    heap: &Heap,
    steps: &mut Steps<L>,
) -> Result<Option<Value>, AllocError>
    requires id { id.0 < length heap.now }
    requires dict { IsDict heap.now id.0 }
    ensures value { IfOk result (λ o. option_map value_of o ≡ value_at is_one (key_of key.now) (entries_at heap.now id.0)) }
    ensures reads { Reads 1 steps.old steps.new }
{
    match found(dict_entries(heap, id, steps), key) {
        Some(value) => Ok(Some(value.copied()?)),
        None => Ok(None),
    }
}

/// The dict that a value is.
pub(crate) fn dict_in<L: Ledger>(value: &Value, heap: &Heap, steps: &mut Steps<L>) -> Option<NodeId>
    requires sound { IsTrue (is_sound (length heap.now) (value_of value.now)) }
    ensures entries { option_map (λ id. entries_at heap.now id.0) result ≡ option_and_then nodes.dict_in (node_at heap.now (value_of value.now)) }
    ensures id { IfSome result (λ id. id.0 < length heap.now) }
    ensures dict { IfSome result (λ id. IsDict heap.now id.0) }
    ensures reads { Reads 1 steps.old steps.new }
{
    let Value::Node(id) = value else {
        return None;
    };
    match heap.node(*id, steps) {
        Node::Dict(_) => Some(*id),
        Node::List(_)
        | Node::Tuple(_)
        | Node::Object(_)
        | Node::Function(_)
        | Node::Exception(..) => None,
    }
}

/// Sets a dict's values under keys, one after the other.
pub(crate) fn insert_all(
    alloc: Global,
    id: NodeId,
    entries: &IndexMap<Key, Value>,
    heap: &mut Heap,
) -> Result<(), AllocError>
    requires id { id.0 < length heap.old }
    requires sound { IsTrue (list_all (λ e. is_sound (length heap.old) e.1) (entries_of entries.now.entries)) }
    ensures nodes { OnOk result (heap.new ≡ changed (on_dict (with_entries (entries_of entries.now.entries))) id.0 heap.old) }
    ensures long { length heap.new ≡ length heap.old }
{
    for i in 0..entries.len() {
        let Some((key, value)) = entries.get_index(i) else {
            unreachable!()
        };
        heap.insert(id, copied_key(alloc, key)?, value.copied()?)?;
    }
    Ok(())
}
