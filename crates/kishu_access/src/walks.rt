// Sequences that are walked (Python Language Reference 3, "The for statement" and "Assignment
// statements").
ghost use Rattle.std.specs.Prelude.{IfOk, IsTrue, OnOk, codes, decimal, length, map, ◌*◌, ◌++◌, ◌+◌, ◌<◌, ◌≡◌, ◌≤◌};
ghost use Rattle.std.specs.Str.{chars};
ghost use Rattle.std.specs.String.{string_bytes};
ghost use Rattle.kishu_meaning.specs.moments.Moment.{fine};
ghost use Rattle.kishu_meaning.specs.items.Sequences.{extended};
ghost use Rattle.kishu_meaning.specs.values.Classes.{value_error_class};
ghost use Rattle.kishu_meaning.specs.values.Values.{value_of};
ghost use Rattle.kishu_meaning.specs.items.Walks as walks;
ghost use Rattle.kishu_meaning.specs.items.Walks.{item_for, unpacked, walk_view};
ghost use Rattle.kishu_heap.specs.Costs.{Reads};
ghost use Rattle.kishu_items.specs.Walks.{is_sound_walk, view_of, walk_of};
ghost use Rattle.kishu_access.specs.Access.{is_sound_maybe, SoundWalk};
ghost use Rattle.kishu_machine.specs.Lists.{values_in};
ghost use Rattle.kishu_machine.specs.Machine.{Gives, HasRoom, HasRoomBy, IsRaised, IsSound, moment_of, Costs};
ghost use Rattle.kishu_machine.specs.Clauses.{IsSoundIn, SoundEnd, SoundValues};

use kishu_items::{View, Walk, push_all};
use kishu_machine::{Fault, Machine, items_of, not_iterable, passed, raise, spend, walked};
use kishu_meaning::{ClassId, NodeId, Steps, Value};
use std::alloc::{AllocError, Global};
use std::rc::RcStr;
use std::sync::ledger::Ledger;

// ---- all items at once

fn unpack_message(alloc: Global, count: usize) -> Result<String, AllocError>
    ensures { IfOk result (λ s. chars (string_bytes s) ≡ codes "cannot unpack into " ++ decimal count) }
{
    format!(in alloc; "cannot unpack into {count}")
}

// The ValueError for items that are too many or too few.
fn bad_count<T>(alloc: Global, count: usize) -> Result<T, Fault>
    ensures { IsRaised result value_error_class (codes "cannot unpack into " ++ decimal count) }
{
    let text = unpack_message(alloc, count)?;
    raise(ClassId::VALUE_ERROR, RcStr::from_string(text)?)
}

/// The items for a pattern of so many targets. As many steps are taken as there are items, and only
/// then are they walked.
#[inline(never)]
pub fn unpacked<L: Ledger>(
    machine: &mut Machine,
    targets: usize,
    value: &Value,
    steps: &mut Steps<L>,
) -> Result<Vec<Value>, Fault>
    requires room { HasRoom machine.old }
    requires sound_value { IsSoundIn machine.old.heap value.now }
    ensures gives { Gives (λ v. map value_of v.items) result (moment_of machine.new) (unpacked targets (value_of value.now) (moment_of machine.old)) }
    ensures sound { SoundValues machine.new.heap result }
    ensures costs { Costs 0 24 machine.old steps.old machine.new steps.new }
    ensures taken { OnOk result (steps.new + 128 * machine.new.budget.left + 127 * targets ≤ steps.old + 128 * machine.old.budget.left + 24) }
{
    let Some(count) = kishu_items::count_in(value, &machine.heap, steps) else {
        return not_iterable(machine, value, steps);
    };
    spend(machine, count, steps)?;
    let fits = count == targets as u128;
    if fits {
        return items_of(machine, value, steps);
    }
    bad_count(machine.alloc, targets)
}

/// A list grows by the items of a sequence, which are taken first.
pub(crate) fn extend<L: Ledger>(
    machine: &mut Machine,
    id: NodeId,
    value: &Value,
    steps: &mut Steps<L>,
) -> Result<(), Fault>
    requires room { HasRoom machine.old }
    requires id { id.0 < length machine.old.heap }
    requires sound_value { IsSoundIn machine.old.heap value.now }
    ensures gives { Gives (λ u. u) result (moment_of machine.new) (extended id.0 (value_of value.now) (moment_of machine.old)) }
    ensures sound { SoundEnd machine.new.heap result }
    ensures costs { Costs 0 4 machine.old steps.old machine.new steps.new }
{
    let more = walked(machine, value, steps)?;
    push_all(id, more.as_slice(), &mut machine.heap)?;
    Ok(())
}

// ---- one after another

/// How a value is walked.
pub fn walk_of<L: Ledger>(
    machine: &Machine,
    value: &Value,
    steps: &mut Steps<L>,
) -> Result<Walk, Fault>
    requires sound_value { IsSoundIn machine.now.heap value.now }
    ensures gives { Gives walk_of result (moment_of machine.now) (walks.walk_of (value_of value.now) (moment_of machine.now)) }
    ensures sound { SoundWalk machine.now.heap result }
    ensures reads { Reads 8 steps.old steps.new }
{
    let walk = kishu_items::walk_of(machine.alloc, value, &machine.heap, steps);
    passed(walk)
}

/// How a view of a dict is walked.
pub fn walk_view<L: Ledger>(machine: &Machine, id: NodeId, view: View, steps: &mut Steps<L>) -> Walk
    ensures gives { walk_view id.0 (view_of view) (moment_of machine.now) ≡ fine (walk_of result) (moment_of machine.now) }
    ensures reads { Reads 8 steps.old steps.new }
{
    kishu_items::walk_view(id, view, &machine.heap, steps)
}

/// The item for turn `k`, the first of which is 0, where there is one more.
#[inline(never)]
pub fn item_for<L: Ledger>(
    machine: &mut Machine,
    walk: &Walk,
    k: usize,
    steps: &mut Steps<L>,
) -> Result<Option<Value>, Fault>
    requires room { HasRoomBy 2 machine.old }
    requires sound_walk { IsTrue (is_sound_walk (length machine.old.heap) (walk_of walk.now)) }
    ensures gives { Gives values_in result (moment_of machine.new) (item_for (walk_of walk.now) k (moment_of machine.old)) }
    ensures sound { IsSound (is_sound_maybe (length machine.new.heap)) (length machine.new.heap) result }
    ensures costs { Costs 2 16 machine.old steps.old machine.new steps.new }
{
    let item = kishu_items::item_for(
        machine.alloc,
        walk,
        k,
        &mut machine.heap,
        &mut machine.budget,
        steps,
    );
    passed(item)
}
