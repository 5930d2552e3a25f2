// The repr of values over the nodes to which they lead (Library Reference, "Built-in Functions":
// repr).
ghost use Rattle.std.specs.Prelude.{◌≡◌, ◌==◌, ◌*◌, ◌+◌, ◌∷◌, ◌≤◌, OnOk, map, min, option_map, slice_get};
ghost use Rattle.std.specs.List.{list_any};
ghost use Rattle.std.specs.Rc.{rc_str_bytes};
ghost use Rattle.std.specs.Str.{chars};
ghost use Rattle.std.specs.String.{string_bytes};
ghost use Rattle.kishu_meaning.specs.values.Keys.{key_of};
ghost use Rattle.kishu_meaning.specs.values.Values.{value_of, list, dict, object, exception};
ghost use Rattle.kishu_meaning.specs.comparing.Show.{again, attribute_repr, class_name, contents_repr, entry_repr, function_text, key_text, listed, made, repr_at, repr_by, repr_in, repr_nodes, repr_text, tuple_end, tuple_repr};
ghost use Rattle.kishu_heap.specs.Cells.{attributes_of, entries_of, node_of};
ghost use Rattle.kishu_heap.specs.Costs.{Reads, Spends, Takes, TakesAt};
ghost use Rattle.kishu_show.specs.Shown.{Gives, Makes, onto};
ghost use Rattle.kishu_show.specs.Stack.{around_of};
ghost use Rattle.kishu_show.specs.Turns.{comma};

use crate::around::{Around, is_open};
use crate::draft::{Draft, push_made, push_mark};
use crate::fault::ShowFault;
use crate::functions::{again_text, function_text};
use crate::keys::{key_text, tuple_end};
use crate::plain::{node_in, plain_text};
use indexmap::IndexMap;
use kishu_heap::{FunctionNode, Heap, Node, room_at};
use kishu_meaning::{Budget, ClassId, Key, NodeId, Steps, Value, class_name};
use std::alloc::Global;
use std::rc::RcStr;
use std::sync::ledger::Ledger;

/// A node, where there is one of this number. It takes at most one step of the counter.
pub(crate) fn node_at<'a, L: Ledger>(
    heap: &'a Heap,
    id: NodeId,
    steps: &mut Steps<L>,
) -> Option<&'a Node>
    ensures node { option_map (λ n. node_of n.now) result ≡ slice_get heap.now id.0 }
    ensures reads { Reads 1 steps.old steps.new }
{
    if id.0 < heap.len() {
        Some(heap.node(id, steps))
    } else {
        None
    }
}

/// Puts the repr of a value that has no node behind what is there.
pub(crate) fn push_plain<L: Ledger>(
    value: &Value,
    draft: &mut Draft,
    steps: &mut Steps<L>,
) -> Result<(), ShowFault>
    ensures gives { Makes result draft.new (onto draft.old (made (repr_text (value_of value.now)))) }
    ensures takes { Takes 0 draft.old.left steps.old draft.new.left steps.new }
{
    let text = plain_text(draft.alloc, value)?;
    push_made(text.as_str(), draft, steps)
}

// Puts the name of a class behind what is there.
fn push_class<L: Ledger>(
    class: ClassId,
    draft: &mut Draft,
    steps: &mut Steps<L>,
) -> Result<(), ShowFault>
    ensures gives { Makes result draft.new (onto draft.old (made (class_name class.0))) }
    ensures takes { Takes 0 draft.old.left steps.old draft.new.left steps.new }
{
    push_mark(class_name(class), draft, steps)
}

// Puts the text of a node that is being shown already behind what is there.
fn push_again<L: Ledger>(
    node: &Node,
    draft: &mut Draft,
    steps: &mut Steps<L>,
) -> Result<(), ShowFault>
    ensures gives { Makes result draft.new (onto draft.old (made (again (node_of node.now)))) }
    ensures takes { Takes 0 draft.old.left steps.old draft.new.left steps.new }
{
    let text = again_text(draft.alloc, node)?;
    push_made(text.as_str(), draft, steps)
}

// Puts the text of a function behind what is there.
fn push_function<L: Ledger>(
    function: &FunctionNode,
    draft: &mut Draft,
    steps: &mut Steps<L>,
) -> Result<(), ShowFault>
    ensures gives { Makes result draft.new (onto draft.old (made (function_text function.now.profile (rc_str_bytes function.now.code)))) }
    ensures takes { Takes 0 draft.old.left steps.old draft.new.left steps.new }
{
    let text = function_text(draft.alloc, function)?;
    push_made(text.as_str(), draft, steps)
}

// Puts a key and a colon behind what is there.
fn push_key<L: Ledger>(key: &Key, draft: &mut Draft, steps: &mut Steps<L>) -> Result<(), ShowFault>
    ensures gives { Makes result draft.new (onto draft.old (made (key_text (key_of key.now)))) }
    ensures takes { Takes 0 draft.old.left steps.old draft.new.left steps.new }
{
    let text = key_text(draft.alloc, key)?;
    push_made(text.as_str(), draft, steps)
}

// Puts what stands before the item of a place behind what is there.
fn push_comma<L: Ledger>(
    place: usize,
    draft: &mut Draft,
    steps: &mut Steps<L>,
) -> Result<(), ShowFault>
    ensures gives { Makes result draft.new (onto draft.old (comma place)) }
    ensures takes { TakesAt 1 0 draft.old.left steps.old draft.new.left steps.new }
    ensures taken { OnOk result (draft.new.left + min place 1 ≤ draft.old.left) }
{
    if place == 0 {
        return Ok(());
    }
    push_mark(", ", draft, steps)
}

// Puts what ends a tuple of so many behind what is there.
fn push_tuple_end<L: Ledger>(
    items: &[Value],
    draft: &mut Draft,
    steps: &mut Steps<L>,
) -> Result<(), ShowFault>
    ensures gives { Makes result draft.new (onto draft.old (made (tuple_end (map value_of items.now)))) }
    ensures takes { Takes 0 draft.old.left steps.old draft.new.left steps.new }
{
    push_mark(tuple_end(items.len()), draft, steps)
}

/// Puts the repr of a value behind what is there, with at most `room` nodes in one another inside
/// those that are being shown.
#[cycle(repr)]
pub(crate) fn push_value<L: Ledger>(
    heap: &Heap,
    value: &Value,
    room: u32,
    around: &Around,
    draft: &mut Draft,
    steps: &mut Steps<L>,
) -> Result<(), ShowFault>
    ensures gives { Makes result draft.new (onto draft.old (repr_by (repr_nodes heap.now room (around_of around.now)) (value_of value.now))) }
    ensures takes { Takes 1 draft.old.left steps.old draft.new.left steps.new }
{
    let Some(id) = node_in(value) else {
        return push_plain(value, draft, steps);
    };
    if room == 0 {
        return Err(ShowFault::Depth);
    }
    push_node(heap, id, room - 1, around, draft, steps)
}

/// Puts the repr of a node behind what is there, with at most `room` nodes in one another inside it.
#[cycle(repr)]
pub(crate) fn push_node<L: Ledger>(
    heap: &Heap,
    id: NodeId,
    room: u32,
    around: &Around,
    draft: &mut Draft,
    steps: &mut Steps<L>,
) -> Result<(), ShowFault>
    ensures gives { Makes result draft.new (onto draft.old (repr_at (repr_nodes heap.now room (id.0 ∷ around_of around.now)) (list_any (λ j. id.0 == j) (around_of around.now)) (slice_get heap.now id.0))) }
    ensures takes { Takes 1 draft.old.left steps.old draft.new.left steps.new }
{
    let Some(node) = node_at(heap, id, steps) else {
        return Ok(());
    };
    if is_open(around, id.0) {
        return push_again(node, draft, steps);
    }
    push_inside(heap, id, node, room, around, draft, steps)
}

// Puts the repr of a node's contents behind what is there, while the node is being shown.
#[cycle(repr)]
fn push_inside<L: Ledger>(
    heap: &Heap,
    id: NodeId,
    node: &Node,
    room: u32,
    around: &Around,
    draft: &mut Draft,
    steps: &mut Steps<L>,
) -> Result<(), ShowFault>
    ensures gives { Makes result draft.new (onto draft.old (contents_repr (repr_nodes heap.now room (id.0 ∷ around_of around.now)) (node_of node.now))) }
    ensures takes { Takes 0 draft.old.left steps.old draft.new.left steps.new }
{
    let inner = Around::Inside(id.0, &*around);
    push_contents(heap, node, room, &inner, draft, steps)
}

// Puts the repr of a node's contents behind what is there.
#[cycle(repr)]
fn push_contents<L: Ledger>(
    heap: &Heap,
    node: &Node,
    room: u32,
    around: &Around,
    draft: &mut Draft,
    steps: &mut Steps<L>,
) -> Result<(), ShowFault>
    ensures gives { Makes result draft.new (onto draft.old (contents_repr (repr_nodes heap.now room (around_of around.now)) (node_of node.now))) }
    ensures takes { Takes 0 draft.old.left steps.old draft.new.left steps.new }
{
    match node {
        Node::List(items) => push_list(heap, items.as_slice(), room, around, draft, steps),
        Node::Tuple(items) => push_tuple(heap, items.as_slice(), room, around, draft, steps),
        Node::Dict(entries) => push_dict(heap, entries, room, around, draft, steps),
        Node::Object(attributes) => push_object(heap, attributes, room, around, draft, steps),
        Node::Function(function) => push_function(function, draft, steps),
        Node::Exception(class, arguments) => {
            push_exception(
                heap,
                *class,
                arguments.as_slice(),
                room,
                around,
                draft,
                steps,
            )
        }
    }
}

#[cycle(repr)]
fn push_list<L: Ledger>(
    heap: &Heap,
    items: &[Value],
    room: u32,
    around: &Around,
    draft: &mut Draft,
    steps: &mut Steps<L>,
) -> Result<(), ShowFault>
    ensures gives { Makes result draft.new (onto draft.old (contents_repr (repr_nodes heap.now room (around_of around.now)) (list (map value_of items.now)))) }
    ensures takes { Takes 0 draft.old.left steps.old draft.new.left steps.new }
{
    push_mark("[", draft, steps)?;
    push_values(heap, items, room, around, draft, steps)?;
    push_mark("]", draft, steps)
}

/// Puts the repr of a tuple of these items behind what is there.
#[cycle(repr)]
pub(crate) fn push_tuple<L: Ledger>(
    heap: &Heap,
    items: &[Value],
    room: u32,
    around: &Around,
    draft: &mut Draft,
    steps: &mut Steps<L>,
) -> Result<(), ShowFault>
    ensures gives { Makes result draft.new (onto draft.old (tuple_repr (repr_nodes heap.now room (around_of around.now)) (map value_of items.now))) }
    ensures takes { Takes 0 draft.old.left steps.old draft.new.left steps.new }
{
    push_mark("(", draft, steps)?;
    push_values(heap, items, room, around, draft, steps)?;
    push_tuple_end(items, draft, steps)
}

#[cycle(repr)]
fn push_dict<L: Ledger>(
    heap: &Heap,
    entries: &IndexMap<Key, Value>,
    room: u32,
    around: &Around,
    draft: &mut Draft,
    steps: &mut Steps<L>,
) -> Result<(), ShowFault>
    ensures gives { Makes result draft.new (onto draft.old (contents_repr (repr_nodes heap.now room (around_of around.now)) (dict (entries_of entries.now.entries)))) }
    ensures takes { Takes 0 draft.old.left steps.old draft.new.left steps.new }
{
    push_mark("{", draft, steps)?;
    push_entries(heap, entries, room, around, draft, steps)?;
    push_mark("}", draft, steps)
}

#[cycle(repr)]
fn push_object<L: Ledger>(
    heap: &Heap,
    attributes: &IndexMap<RcStr, Value>,
    room: u32,
    around: &Around,
    draft: &mut Draft,
    steps: &mut Steps<L>,
) -> Result<(), ShowFault>
    ensures gives { Makes result draft.new (onto draft.old (contents_repr (repr_nodes heap.now room (around_of around.now)) (object (attributes_of attributes.now.entries)))) }
    ensures takes { Takes 0 draft.old.left steps.old draft.new.left steps.new }
{
    push_mark("namespace(", draft, steps)?;
    push_attributes(heap, attributes, room, around, draft, steps)?;
    push_mark(")", draft, steps)
}

#[cycle(repr)]
fn push_exception<L: Ledger>(
    heap: &Heap,
    class: ClassId,
    arguments: &[Value],
    room: u32,
    around: &Around,
    draft: &mut Draft,
    steps: &mut Steps<L>,
) -> Result<(), ShowFault>
    ensures gives { Makes result draft.new (onto draft.old (contents_repr (repr_nodes heap.now room (around_of around.now)) (exception class.0 (map value_of arguments.now)))) }
    ensures takes { Takes 0 draft.old.left steps.old draft.new.left steps.new }
{
    push_class(class, draft, steps)?;
    push_mark("(", draft, steps)?;
    push_values(heap, arguments, room, around, draft, steps)?;
    push_mark(")", draft, steps)
}

// Puts the reprs of values behind what is there, with a comma between each two.
#[cycle(repr)]
fn push_values<L: Ledger>(
    heap: &Heap,
    values: &[Value],
    room: u32,
    around: &Around,
    draft: &mut Draft,
    steps: &mut Steps<L>,
) -> Result<(), ShowFault>
    ensures gives { Makes result draft.new (onto draft.old (listed (repr_by (repr_nodes heap.now room (around_of around.now))) (map value_of values.now))) }
    ensures takes { Takes 1 draft.old.left steps.old draft.new.left steps.new }
{
    for i in 0..values.len() {
        push_comma(i, draft, steps)?;
        push_value(heap, &values[i], room, around, draft, steps)?;
    }
    Ok(())
}

// Puts the texts of a dict's entries behind what is there, with a comma between each two.
#[cycle(repr)]
fn push_entries<L: Ledger>(
    heap: &Heap,
    entries: &IndexMap<Key, Value>,
    room: u32,
    around: &Around,
    draft: &mut Draft,
    steps: &mut Steps<L>,
) -> Result<(), ShowFault>
    ensures gives { Makes result draft.new (onto draft.old (listed (entry_repr (repr_nodes heap.now room (around_of around.now))) (entries_of entries.now.entries))) }
    ensures takes { Takes 0 draft.old.left steps.old draft.new.left steps.new }
{
    for i in 0..entries.len() {
        let Some((key, value)) = entries.get_index(i) else {
            unreachable!()
        };
        push_comma(i, draft, steps)?;
        push_entry(heap, key, value, room, around, draft, steps)?;
    }
    Ok(())
}

#[cycle(repr)]
fn push_entry<L: Ledger>(
    heap: &Heap,
    key: &Key,
    value: &Value,
    room: u32,
    around: &Around,
    draft: &mut Draft,
    steps: &mut Steps<L>,
) -> Result<(), ShowFault>
    ensures gives { Makes result draft.new (onto draft.old (entry_repr (repr_nodes heap.now room (around_of around.now)) (key_of key.now, value_of value.now))) }
    ensures takes { Takes 0 draft.old.left steps.old draft.new.left steps.new }
{
    push_key(key, draft, steps)?;
    push_mark(": ", draft, steps)?;
    push_value(heap, value, room, around, draft, steps)
}

// Puts the texts of an object's attributes behind what is there, with a comma between each two.
#[cycle(repr)]
fn push_attributes<L: Ledger>(
    heap: &Heap,
    attributes: &IndexMap<RcStr, Value>,
    room: u32,
    around: &Around,
    draft: &mut Draft,
    steps: &mut Steps<L>,
) -> Result<(), ShowFault>
    ensures gives { Makes result draft.new (onto draft.old (listed (attribute_repr (repr_nodes heap.now room (around_of around.now))) (attributes_of attributes.now.entries))) }
    ensures takes { Takes 0 draft.old.left steps.old draft.new.left steps.new }
{
    for i in 0..attributes.len() {
        let Some((name, value)) = attributes.get_index(i) else {
            unreachable!()
        };
        push_comma(i, draft, steps)?;
        push_attribute(heap, name.as_str(), value, room, around, draft, steps)?;
    }
    Ok(())
}

#[cycle(repr)]
fn push_attribute<L: Ledger>(
    heap: &Heap,
    name: &str,
    value: &Value,
    room: u32,
    around: &Around,
    draft: &mut Draft,
    steps: &mut Steps<L>,
) -> Result<(), ShowFault>
    ensures gives { Makes result draft.new (onto draft.old (attribute_repr (repr_nodes heap.now room (around_of around.now)) (name.now, value_of value.now))) }
    ensures takes { Takes 0 draft.old.left steps.old draft.new.left steps.new }
{
    push_made(name, draft, steps)?;
    push_mark("=", draft, steps)?;
    push_value(heap, value, room, around, draft, steps)
}

/// The repr of a value, as Python's `repr` makes it (Library Reference, "Built-in Functions": repr):
/// lists, tuples, dicts and objects with what is in them, and a node that is being shown already as
/// three dots in its brackets. Each code point takes a step of the budget, and the counter rises by
/// at least these steps. `Depth` comes where nodes lie deeper in one another than is allowed,
/// `Spent` where no step is left, and `NoMemory` where no memory is. The heap stays as it is.
pub fn repr_of<L: Ledger>(
    alloc: Global,
    value: &Value,
    heap: &Heap,
    budget: &mut Budget,
    steps: &mut Steps<L>,
) -> Result<String, ShowFault>
    ensures gives { Gives (λ s. chars (string_bytes s)) result budget.new.left (repr_in heap.now budget.old.depth (value_of value.now) budget.old.left) }
    ensures spends { Spends 1 budget.old steps.old budget.new steps.new }
{
    let mut draft = Draft::new(alloc, budget.left);
    let room = room_at(budget.depth);
    let made = push_value(heap, value, room, &Around::Nothing, &mut draft, steps);
    budget.left = draft.left;
    match made {
        Ok(()) => Ok(draft.text),
        Err(fault) => Err(fault),
    }
}
