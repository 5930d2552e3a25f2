// The order of values over the nodes to which they lead (Python Language Reference 3, "Value
// comparisons").
ghost use Rattle.std.specs.Prelude.{◌≡◌, ◌+◌, ◌*◌, ◌≤◌, OnOk, length, map, slice_get};
ghost use Rattle.kishu_meaning.specs.values.Values.{value_of};
ghost use Rattle.kishu_meaning.specs.moments.Counting.{and_then, give, spend};
ghost use Rattle.kishu_meaning.specs.comparing.Equal.{equal_nodes, pair_turned, less_plain, pair_steps, less_by, items_less, nodes_less, less_nodes};
ghost use Rattle.kishu_heap.specs.Compared.{Gives, Orders};
ghost use Rattle.kishu_heap.specs.Costs.{Compares};

use crate::compare::{equal_pair, node_in};
use crate::fault::CompareFault;
use crate::heap::Heap;
use crate::plain::{is_less, pair_steps};
use crate::taken::take_steps;
use kishu_meaning::{NodeId, Steps, Value};
use std::sync::ledger::Ledger;

/// Whether a value is less than another by itself.
fn less_plain<L: Ledger>(
    a: &Value,
    b: &Value,
    left: &mut u64,
    steps: &mut Steps<L>,
) -> Result<bool, CompareFault>
    ensures gives { Orders result left.new (and_then (spend (pair_steps (value_of a.now) (value_of b.now)) left.old) (λ _. give (less_plain (value_of a.now) (value_of b.now)))) }
    ensures counted { left.new + steps.new ≡ left.old + steps.old }
{
    take_steps(pair_steps(a, b), left, steps)?;
    match is_less(a, b) {
        Some(found) => Ok(found),
        None => Err(CompareFault::Unordered),
    }
}

/// Whether a pair of items is equal, asked as it stands or turned round.
fn pair_turned<L: Ledger>(
    heap: &Heap,
    turned: bool,
    a: &Value,
    b: &Value,
    room: u32,
    left: &mut u64,
    steps: &mut Steps<L>,
) -> Result<bool, CompareFault>
    ensures gives { Gives result left.new (pair_turned turned (equal_nodes heap.now room) (value_of a.now) (value_of b.now) left.old) }
    ensures takes { Compares 0 left.old steps.old left.new steps.new }
    ensures spare { OnOk result (8 * left.new + steps.new + 2 ≤ 8 * left.old + steps.old) }
{
    if turned {
        return equal_pair(heap, b, a, room, left, steps);
    }
    equal_pair(heap, a, b, room, left, steps)
}

/// Whether a value is less than another, with at most `room` nodes in one another. Pairs of items are
/// asked turned round or not.
#[cycle(less)]
pub(crate) fn less_values<L: Ledger>(
    heap: &Heap,
    turned: bool,
    a: &Value,
    b: &Value,
    room: u32,
    left: &mut u64,
    steps: &mut Steps<L>,
) -> Result<bool, CompareFault>
    ensures gives { Orders result left.new (less_by (less_nodes turned heap.now room) (value_of a.now) (value_of b.now) left.old) }
    ensures takes { Compares 2 left.old steps.old left.new steps.new }
{
    if let (Some(i), Some(j)) = (node_in(a), node_in(b)) {
        if room == 0 {
            return Err(CompareFault::Depth);
        }
        return less_nodes(heap, turned, i, j, room - 1, left, steps);
    }
    less_plain(a, b, left, steps)
}

/// Whether a node is less than another, with at most `room` nodes in one another inside them.
#[cycle(less)]
fn less_nodes<L: Ledger>(
    heap: &Heap,
    turned: bool,
    i: NodeId,
    j: NodeId,
    room: u32,
    left: &mut u64,
    steps: &mut Steps<L>,
) -> Result<bool, CompareFault>
    ensures gives { Orders result left.new (nodes_less (pair_turned turned (equal_nodes heap.now room)) (less_nodes turned heap.now room) (slice_get heap.now i.0) (slice_get heap.now j.0) left.old) }
    ensures takes { Compares 2 left.old steps.old left.new steps.new }
{
    let (Some(a), Some(b)) = (heap.node_at(i, steps), heap.node_at(j, steps)) else {
        return Err(CompareFault::Unordered);
    };
    if let (Some(a), Some(b)) = (a.list(), b.list()) {
        return less_items(heap, turned, a, b, room, left, steps);
    }
    if let (Some(a), Some(b)) = (a.tuple(), b.tuple()) {
        return less_items(heap, turned, a, b, room, left, steps);
    }
    Err(CompareFault::Unordered)
}

/// Whether a list of values is less than another: by the first that aren't equal, else by length.
#[cycle(less)]
fn less_items<L: Ledger>(
    heap: &Heap,
    turned: bool,
    a: &[Value],
    b: &[Value],
    room: u32,
    left: &mut u64,
    steps: &mut Steps<L>,
) -> Result<bool, CompareFault>
    ensures gives { Orders result left.new (items_less (pair_turned turned (equal_nodes heap.now room)) (less_nodes turned heap.now room) (map value_of a.now) (map value_of b.now) left.old) }
    ensures takes { Compares 0 left.old steps.old left.new steps.new }
{
    let common = a.len().min(b.len());
    for i in 0..common {
        if !pair_turned(heap, turned, &a[i], &b[i], room, left, steps)? {
            return less_values(heap, turned, &a[i], &b[i], room, left, steps);
        }
    }
    Ok(a.len() < b.len())
}
