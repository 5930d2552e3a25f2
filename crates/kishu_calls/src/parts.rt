// Parts of primaries (Python Language Reference 3, "Primaries").
ghost use Rattle.std.specs.Prelude.{◌*◌, ◌+◌};
ghost use Rattle.std.specs.Rc.{rc_str_bytes};
ghost use Rattle.kishu_meaning.specs.calls.Callees.{settled};
ghost use Rattle.kishu_meaning.specs.cells.Meaning.{Calls, walked_by};
ghost use Rattle.kishu_meaning.specs.moments.Moment.{give, ◌>>=◌ as ◌⊳◌, ◌>>◌};
ghost use Rattle.kishu_meaning.specs.values.Values.{value_of};
ghost use Rattle.kishu_access.specs.Access.{SoundWalk};
ghost use Rattle.kishu_items.specs.Walks.{walk_of};
ghost use Rattle.kishu_calls.specs.Calls.{OwesReads, Owing, owed, part_of, SoundPart, IsSoundPart};
ghost use Rattle.kishu_machine.specs.Machine.{Gives, GrownBy, HasRoomBy, moment_of, Costs};
ghost use Rattle.kishu_machine.specs.Clauses.{SoundValue};
ghost use Rattle.kishu_meaning.specs.calls.Callees as c;

use kishu_access::{attribute, walk_of, walk_view};
use kishu_items::{View, Walk};
use kishu_machine::{Fault, Machine, no_attribute};
use kishu_meaning::{NodeId, Steps, Value};
use std::rc::RcStr;
use std::sync::ledger::Ledger;

/// A part of a primary: its value, or a value with the name of an attribute or a view, which is an
/// attribute where no call follows.
#[derive(Drop)]
pub enum Part {
    Whole(Value),
    Dotted(Value, RcStr),
    /// Of a dict.
    Viewed(NodeId, View),
}

/// The value of a part. A method is none, and neither is a view of a dict: it raises
/// `AttributeError` there.
#[inline(never)]
pub fn settled<L: Ledger>(
    machine: &mut Machine,
    part: Part,
    steps: &mut Steps<L>,
) -> Result<Value, Fault>
    requires room { HasRoomBy (owed (part_of part)) machine.old }
    requires sound_part { IsSoundPart machine.old.heap part }
    ensures gives { Gives value_of result (moment_of machine.new) (settled (part_of part) (moment_of machine.old)) }
    ensures sound { SoundValue machine.new.heap result }
    ensures costs { Costs (owed (part_of part)) (8 * owed (part_of part)) machine.old steps.old machine.new steps.new }
{
    match part {
        Part::Whole(value) => Ok(value),
        Part::Dotted(value, name) => attribute(machine, &value, name.as_str(), steps),
        Part::Viewed(id, view) => no_attribute(machine, &Value::Node(id), view.name(), steps),
    }
}

/// An attribute of what a part is.
#[inline(never)]
pub fn dotted_part<L: Ledger>(
    machine: &mut Machine,
    part: Part,
    name: &RcStr,
    steps: &mut Steps<L>,
) -> Result<Part, Fault>
    requires sound_part { IsSoundPart machine.old.heap part }
    requires room { HasRoomBy (1 + owed (part_of part)) machine.old }
    ensures gives { Gives part_of result (moment_of machine.new) ((settled (part_of part) ⊳ λ v. give (c.dotted v (rc_str_bytes name.now))) (moment_of machine.old)) }
    ensures sound { SoundPart machine.new.heap result }
    ensures kept { GrownBy (1 + owed (part_of part)) machine.old steps.old machine.new steps.new }
    ensures reads { OwesReads (8 + 8 * owed (part_of part)) machine.old steps.old result machine.new steps.new }
    ensures owes { Owing (1 + owed (part_of part)) machine.old result machine.new }
{
    let value = settled(machine, part, steps)?;
    Ok(Part::Dotted(value, name.clone()?))
}

/// What is walked: a sequence, or a view of a dict.
pub fn walked_by<L: Ledger>(
    machine: &mut Machine,
    part: Part,
    steps: &mut Steps<L>,
) -> Result<Walk, Fault>
    requires sound_part { IsSoundPart machine.old.heap part }
    requires room { HasRoomBy (owed (part_of part)) machine.old }
    ensures gives { (calls : Calls) → Gives walk_of result (moment_of machine.new) (walked_by calls (part_of part) (moment_of machine.old)) }
    ensures sound { SoundWalk machine.new.heap result }
    ensures costs { Costs (owed (part_of part)) 32 machine.old steps.old machine.new steps.new }
{
    match part {
        Part::Viewed(id, view) => Ok(walk_view(machine, id, view, steps)),
        Part::Whole(value) => walk_of(machine, &value, steps),
        Part::Dotted(value, name) => {
            let found = attribute(machine, &value, name.as_str(), steps)?;
            walk_of(machine, &found, steps)
        }
    }
}
