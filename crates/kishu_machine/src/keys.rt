// Keys of dicts, and the items of sequences.
ghost use Rattle.std.specs.Prelude.{length, map, unwrap_or, ◌+◌, ◌<◌, ◌^◌, ◌≡◌};
ghost use Rattle.kishu_meaning.specs.items.KeyOf.{key_of_value};
ghost use Rattle.kishu_meaning.specs.values.Keys.{key_of};
ghost use Rattle.kishu_meaning.specs.items.Sequences.{count_in, items_of, walked};
ghost use Rattle.kishu_meaning.specs.values.Values.{value_of};
ghost use Rattle.kishu_machine.specs.Machine.{Gives, HasRoom, moment_of, Costs};
ghost use Rattle.kishu_machine.specs.Clauses.{IsSoundIn, SoundEnd, SoundValues};

use crate::fault::{Fault, passed};
use crate::machine::Machine;
use kishu_meaning::{Key, Steps, Value};
use std::sync::ledger::Ledger;

/// The key that a value is (Python Language Reference 3, "Dictionary displays").
pub fn key_of<L: Ledger>(
    machine: &mut Machine,
    value: &Value,
    steps: &mut Steps<L>,
) -> Result<Key, Fault>
    requires sound_value { IsSoundIn machine.old.heap value.now }
    ensures gives { Gives key_of result (moment_of machine.new) (key_of_value (value_of value.now) (moment_of machine.old)) }
    ensures sound { SoundEnd machine.new.heap result }
    ensures costs { Costs 0 4 machine.old steps.old machine.new steps.new }
    ensures heap { machine.new.heap ≡ machine.old.heap }
{
    let key = kishu_items::key_of(
        machine.alloc,
        value,
        &machine.heap,
        &mut machine.budget,
        steps,
    );
    passed(key)
}

/// The items of a sequence.
pub fn items_of<L: Ledger>(
    machine: &mut Machine,
    value: &Value,
    steps: &mut Steps<L>,
) -> Result<Vec<Value>, Fault>
    requires sound_value { IsSoundIn machine.old.heap value.now }
    requires room { length machine.old.heap + unwrap_or (count_in machine.old.heap (value_of value.now)) 0 < 2 ^ 32 }
    ensures gives { Gives (λ v. map value_of v.items) result (moment_of machine.new) (items_of (value_of value.now) (moment_of machine.old)) }
    ensures sound { SoundValues machine.new.heap result }
    ensures costs { Costs (unwrap_or (count_in machine.old.heap (value_of value.now)) 0) 4 machine.old steps.old machine.new steps.new }
{
    let items = kishu_items::items_of(
        machine.alloc,
        value,
        &mut machine.heap,
        &mut machine.budget,
        steps,
    );
    passed(items)
}

/// The items of a sequence, after a step for each of them.
pub fn walked<L: Ledger>(
    machine: &mut Machine,
    value: &Value,
    steps: &mut Steps<L>,
) -> Result<Vec<Value>, Fault>
    requires room { HasRoom machine.old }
    requires sound_value { IsSoundIn machine.old.heap value.now }
    ensures gives { Gives (λ v. map value_of v.items) result (moment_of machine.new) (walked (value_of value.now) (moment_of machine.old)) }
    ensures sound { SoundValues machine.new.heap result }
    ensures costs { Costs 0 4 machine.old steps.old machine.new steps.new }
{
    let items = kishu_items::walked(
        machine.alloc,
        value,
        &mut machine.heap,
        &mut machine.budget,
        steps,
    );
    passed(items)
}
