// Places: a name, an attribute, or an item (Python Language Reference 3, "Assignment statements").
ghost use Rattle.std.specs.Prelude.{IsTrue, length};
ghost use Rattle.kishu_meaning.specs.cells.Meaning.{delete_place, read_place, store_in};
ghost use Rattle.kishu_meaning.specs.values.Values.{value_of};
ghost use Rattle.kishu_access.specs.Access.{is_sound_place, place_of, place_reads};
ghost use Rattle.kishu_machine.specs.Machine.{Gives, HasRoomBy, moment_of, Costs};
ghost use Rattle.kishu_machine.specs.Clauses.{IsSoundIn, SoundEnd, SoundValue};

use crate::attributes::{attribute, delete_attribute, store_attribute};
use crate::stores::{delete_item, store_item};
use crate::subscripts::item;
use kishu_machine::{Fault, Machine, assign, delete, read};
use kishu_meaning::{Steps, Value};
use std::rc::RcStr;
use std::sync::ledger::Ledger;

/// A name, an attribute of a value, or an item of one.
#[derive(Drop)]
pub enum Place {
    Named(RcStr),
    Attribute(Value, RcStr),
    /// Of the first, at the second as its index.
    Item(Value, Value),
}

/// The value at a place.
#[inline(never)]
pub fn read_place<L: Ledger>(
    machine: &mut Machine,
    place: &Place,
    steps: &mut Steps<L>,
) -> Result<Value, Fault>
    requires room { HasRoomBy 1 machine.old }
    requires sound_place { IsTrue (is_sound_place (length machine.old.heap) (place_of place.now)) }
    ensures gives { Gives value_of result (moment_of machine.new) (read_place (place_of place.now) (moment_of machine.old)) }
    ensures sound { SoundValue machine.new.heap result }
    ensures costs { Costs 1 24 machine.old steps.old machine.new steps.new }
{
    match place {
        Place::Named(name) => read(machine, name.as_str()),
        Place::Attribute(value, name) => attribute(machine, value, name.as_str(), steps),
        Place::Item(value, index) => item(machine, value, index, steps),
    }
}

/// Puts a value into a place.
#[inline(never)]
pub fn store_in<L: Ledger>(
    machine: &mut Machine,
    place: &Place,
    value: Value,
    steps: &mut Steps<L>,
) -> Result<(), Fault>
    requires sound_place { IsTrue (is_sound_place (length machine.old.heap) (place_of place.now)) }
    requires sound_value { IsSoundIn machine.old.heap value }
    ensures gives { Gives (λ u. u) result (moment_of machine.new) (store_in (place_of place.now) (value_of value) (moment_of machine.old)) }
    ensures sound { SoundEnd machine.new.heap result }
    ensures costs { Costs 0 (place_reads (place_of place.now)) machine.old steps.old machine.new steps.new }
{
    match place {
        Place::Named(name) => assign(machine, name, value),
        Place::Attribute(object, name) => store_attribute(machine, object, name, value, steps),
        Place::Item(container, index) => store_item(machine, container, index, value, steps),
    }
}

/// Deletes a place, as `del` does (Python Language Reference 3, "The del statement").
#[inline(never)]
pub fn delete_place<L: Ledger>(
    machine: &mut Machine,
    place: &Place,
    steps: &mut Steps<L>,
) -> Result<(), Fault>
    requires sound_place { IsTrue (is_sound_place (length machine.old.heap) (place_of place.now)) }
    ensures gives { Gives (λ u. u) result (moment_of machine.new) (delete_place (place_of place.now) (moment_of machine.old)) }
    ensures sound { SoundEnd machine.new.heap result }
    ensures costs { Costs 0 (place_reads (place_of place.now)) machine.old steps.old machine.new steps.new }
{
    match place {
        Place::Named(name) => delete(machine, name.as_str()),
        Place::Attribute(object, name) => delete_attribute(machine, object, name.as_str(), steps),
        Place::Item(container, index) => delete_item(machine, container, index, steps),
    }
}
