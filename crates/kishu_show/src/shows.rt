// The str of values (Library Reference, "Text Sequence Type": str).
ghost use Rattle.std.specs.Prelude.{◌≡◌, ◌*◌, ◌+◌, ◌∷◌, ◌≤◌, [], IfOk, false, map, slice_get};
ghost use Rattle.std.specs.Str.{chars};
ghost use Rattle.std.specs.String.{string_bytes};
ghost use Rattle.kishu_meaning.specs.values.Values.{value_of};
ghost use Rattle.kishu_meaning.specs.comparing.Show.{argument_text, exception_text, made, repr_at, repr_nodes, show_at, show_by, show_in, show_nodes};
ghost use Rattle.kishu_heap.specs.Costs.{Spends, Takes};
ghost use Rattle.kishu_show.specs.Plainly.{plain_shown};
ghost use Rattle.kishu_show.specs.Shown.{Gives, Makes, onto};

use crate::around::Around;
use crate::draft::{Draft, push_made, spend};
use crate::fault::ShowFault;
use crate::plain::{node_in, plain_text};
use crate::reprs::{node_at, push_node, push_tuple, push_value};
use kishu_heap::{Heap, Node, room_at};
use kishu_meaning::{Budget, ClassId, NodeId, Steps, Value};
use std::alloc::{AllocError, Global};
use std::sync::ledger::Ledger;

// The text of a value that has no node: a text is itself. A node's is empty here.
fn shown_text(alloc: Global, value: &Value) -> Result<String, AllocError>
    ensures { IfOk result (λ s. chars (string_bytes s) ≡ plain_shown (value_of value.now)) }
{
    match value {
        Value::Text(text) => String::from_str(alloc, text.as_str()),
        Value::None
        | Value::Bool(_)
        | Value::Int(_)
        | Value::Range(..)
        | Value::Builtin(_)
        | Value::Class(_)
        | Value::Node(_) => plain_text(alloc, value),
    }
}

// Puts the text of a value that has no node behind what is there.
fn push_plain_shown<L: Ledger>(
    value: &Value,
    draft: &mut Draft,
    steps: &mut Steps<L>,
) -> Result<(), ShowFault>
    ensures gives { Makes result draft.new (onto draft.old (made (plain_shown (value_of value.now)))) }
    ensures takes { Takes 0 draft.old.left steps.old draft.new.left steps.new }
{
    let text = shown_text(draft.alloc, value)?;
    push_made(text.as_str(), draft, steps)
}

// Puts the text of a value behind what is there, with at most `room` nodes in one another.
#[cycle(show)]
fn push_shown<L: Ledger>(
    heap: &Heap,
    value: &Value,
    room: u32,
    draft: &mut Draft,
    steps: &mut Steps<L>,
) -> Result<(), ShowFault>
    ensures gives { Makes result draft.new (onto draft.old (show_by (show_nodes heap.now room) (value_of value.now))) }
    ensures takes { Takes 2 draft.old.left steps.old draft.new.left steps.new }
{
    let Some(id) = node_in(value) else {
        return push_plain_shown(value, draft, steps);
    };
    if room == 0 {
        return Err(ShowFault::Depth);
    }
    push_shown_node(heap, id, room - 1, draft, steps)
}

// Puts the text of a node behind what is there, with at most `room` nodes in one another inside it.
#[cycle(show)]
fn push_shown_node<L: Ledger>(
    heap: &Heap,
    id: NodeId,
    room: u32,
    draft: &mut Draft,
    steps: &mut Steps<L>,
) -> Result<(), ShowFault>
    ensures gives { Makes result draft.new (onto draft.old (show_at (exception_text (repr_nodes heap.now room []) (show_nodes heap.now room)) (repr_at (repr_nodes heap.now room (id.0 ∷ [])) false (slice_get heap.now id.0)) (slice_get heap.now id.0))) }
    ensures takes { Takes 2 draft.old.left steps.old draft.new.left steps.new }
{
    let Some(node) = node_at(heap, id, steps) else {
        return Ok(());
    };
    match node {
        Node::Exception(class, arguments) => {
            push_exception_shown(heap, *class, arguments.as_slice(), room, draft, steps)
        }
        Node::List(_) | Node::Tuple(_) | Node::Dict(_) | Node::Object(_) | Node::Function(_) => {
            push_node(heap, id, room, &Around::Nothing, draft, steps)
        }
    }
}

// Puts the text of an exception behind what is there: nothing without arguments, the text of one
// argument, and the repr of the tuple of more.
#[cycle(show)]
fn push_exception_shown<L: Ledger>(
    heap: &Heap,
    class: ClassId,
    arguments: &[Value],
    room: u32,
    draft: &mut Draft,
    steps: &mut Steps<L>,
) -> Result<(), ShowFault>
    ensures gives { Makes result draft.new (onto draft.old (exception_text (repr_nodes heap.now room []) (show_nodes heap.now room) class.0 (map value_of arguments.now))) }
    ensures takes { Takes 0 draft.old.left steps.old draft.new.left steps.new }
{
    let Some((argument, others)) = arguments.split_first() else {
        return Ok(());
    };
    if others.len() == 0 {
        spend(1, &mut draft.left, steps)?;
        return push_argument(heap, class, argument, room, draft, steps);
    }
    push_tuple(heap, arguments, room, &Around::Nothing, draft, steps)
}

// Puts the text of an exception's one argument behind what is there. A KeyError shows its repr.
#[cycle(show)]
fn push_argument<L: Ledger>(
    heap: &Heap,
    class: ClassId,
    argument: &Value,
    room: u32,
    draft: &mut Draft,
    steps: &mut Steps<L>,
) -> Result<(), ShowFault>
    ensures gives { Makes result draft.new (onto draft.old (argument_text (repr_nodes heap.now room []) (show_nodes heap.now room) class.0 (value_of argument.now))) }
    ensures takes { Takes 2 draft.old.left steps.old draft.new.left steps.new }
{
    if class == ClassId::KEY_ERROR {
        return push_value(heap, argument, room, &Around::Nothing, draft, steps);
    }
    push_shown(heap, argument, room, draft, steps)
}

/// The text of a value, as Python's `str` makes it (Library Reference, "Text Sequence Type": str): a
/// text is itself, an exception is empty without arguments, the text of its one argument (of a
/// KeyError the repr), or the repr of the tuple of more, and all else is its repr. Steps and faults
/// are as in `repr_of`; an exception with one argument takes a step beside the code points.
pub fn show<L: Ledger>(
    alloc: Global,
    value: &Value,
    heap: &Heap,
    budget: &mut Budget,
    steps: &mut Steps<L>,
) -> Result<String, ShowFault>
    ensures gives { Gives (λ s. chars (string_bytes s)) result budget.new.left (show_in heap.now budget.old.depth (value_of value.now) budget.old.left) }
    ensures spends { Spends 2 budget.old steps.old budget.new steps.new }
{
    let mut draft = Draft::new(alloc, budget.left);
    let room = room_at(budget.depth);
    let made = push_shown(heap, value, room, &mut draft, steps);
    budget.left = draft.left;
    match made {
        Ok(()) => Ok(draft.text),
        Err(fault) => Err(fault),
    }
}
