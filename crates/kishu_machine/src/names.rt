// Names (Python Language Reference 3, "Naming and binding").
ghost use Rattle.std.specs.Prelude.{IsTrue, Ok, OnErr, OnOk, codes, is_some, map, not, option_map, ℕ, ◌++◌, ◌≡◌};
ghost use Rattle.std.specs.Rc.{rc_str_bytes};
ghost use Rattle.std.specs.Str.{chars};
ghost use Rattle.kishu_meaning.specs.moments.Accesses.{unbind};
ghost use Rattle.kishu_meaning.specs.moments.Moment.{Moment, assign, delete, delete_global, or_builtin, or_class, or_unbound, read, read_global};
ghost use Rattle.kishu_language.specs.tokens.Names.{is_among, is_name, place_among};
ghost use Rattle.kishu_meaning.specs.values.BuiltinNames.{builtin_names, class_names};
ghost use Rattle.kishu_meaning.specs.values.Sound.{is_sound};
ghost use Rattle.kishu_meaning.specs.values.Values.{bind, find, value_of};
ghost use Rattle.kishu_meaning.specs.cells.Ways.{forget};
ghost use Rattle.kishu_names.specs.Namespace.{names_of};
ghost use Rattle.kishu_machine.specs.Frames.{is_own, is_sound_locals, locals_of, own_bound, own_unbound, own_value};
ghost use Rattle.kishu_machine.specs.Machine.{Gives, IsRaised, IsSound, moment_of};
ghost use Rattle.kishu_machine.specs.Clauses.{IsSoundIn, SoundEnd, SoundValue};
ghost use Rattle.kishu_meaning.specs.values.Classes.{unbound_local_error_class};

use crate::fault::Fault;
use crate::frame::Frame;
use crate::machine::Machine;
use crate::raising::{name_error, unbound_local};
use crate::texts::is_same_text;
use kishu_meaning::{Value, builtin_named, class_named};
use kishu_names::bindings::{found, set, take};
use std::alloc::{AllocError, Global};
use std::collections::BTreeMap;
use std::rc::RcStr;

// What a name stands for that isn't bound: a builtin function or a class.
fn builtin_value(alloc: Global, name: &str) -> Result<Value, Fault>
    ensures is { (s : Moment) → Gives value_of result s (or_builtin name.now (place_among name.now builtin_names) s) }
    ensures sound { (n : ℕ) → IsSound (λ v. is_sound n (value_of v)) n result }
{
    if let Some(builtin) = builtin_named(name.as_bytes()) {
        return Ok(Value::Builtin(builtin));
    }
    class_value(alloc, name)
}

fn class_value(alloc: Global, name: &str) -> Result<Value, Fault>
    ensures is { (s : Moment) → Gives value_of result s (or_class name.now (place_among name.now class_names) s) }
    ensures sound { (n : ℕ) → IsSound (λ v. is_sound n (value_of v)) n result }
{
    if let Some(class) = class_named(name.as_bytes()) {
        return Ok(Value::Class(class));
    }
    name_error(alloc, name)
}

// Binds a name among these. They keep a copy of it.
fn set_copied(
    values: &mut BTreeMap<RcStr, Value>,
    name: &RcStr,
    value: Value,
) -> Result<(), AllocError>
    ensures ok { OnOk result (names_of values.new.entries ≡ bind (rc_str_bytes name.now) (value_of value) (names_of values.old.entries)) }
    ensures err { OnErr result (values.new.entries ≡ values.old.entries) }
{
    set(values, name.clone()?, value)
}

/// Whether a name is one of these.
pub fn is_among(name: &str, names: &[RcStr]) -> bool
    ensures { result ≡ is_among name.now (map rc_str_bytes names.now) }
{
    for other in names {
        if is_same_text(name, other.as_str()) {
            return true;
        }
    }
    false
}

// Whether the function in progress, where there is one, has this name of its own.
fn is_own(locals: &Option<Frame>, name: &str) -> bool
    ensures { result ≡ is_own name.now (locals_of locals.now) }
{
    match locals {
        Some(frame) => is_among(name, frame.own.as_slice()),
        None => false,
    }
}

fn read_global(machine: &mut Machine, name: &str) -> Result<Value, Fault>
    ensures gives { Gives value_of result (moment_of machine.new) (read_global name.now (moment_of machine.old)) }
    ensures sound { SoundValue machine.new.heap result }
    ensures heap { machine.new.heap ≡ machine.old.heap }
    ensures budget { machine.new.budget ≡ machine.old.budget }
{
    match machine.names.get(name)? {
        Some(value) => Ok(value),
        None => builtin_value(machine.alloc, name),
    }
}

// The value of a name of the function in progress.
fn own_value<'a>(locals: &'a Option<Frame>, name: &str) -> Option<&'a Value>
    ensures { option_map (λ v. value_of v.now) result ≡ own_value name.now (locals_of locals.now) }
{
    match locals {
        Some(frame) => found(&frame.values, name),
        None => None,
    }
}

fn read_local(alloc: Global, locals: &Option<Frame>, name: &str) -> Result<Value, Fault>
    ensures gives { (s : Moment) → Gives value_of result s (or_unbound name.now (own_value name.now (locals_of locals.now)) s) }
    ensures sound { (n : ℕ) → IsTrue (is_sound_locals n (locals_of locals.now)) → IsSound (λ v. is_sound n (value_of v)) n result }
{
    match own_value(locals, name) {
        Some(value) => Ok(value.copied()?),
        None => unbound_local(alloc, name),
    }
}

/// The value of a name: a local one's, or else that to which it is bound, or the builtin function or
/// class of that name. It raises `UnboundLocalError` for a local name without a value, and `NameError`
/// where there is none of these.
#[inline(never)]
pub fn read(machine: &mut Machine, name: &str) -> Result<Value, Fault>
    ensures gives { Gives value_of result (moment_of machine.new) (read name.now (moment_of machine.old)) }
    ensures sound { SoundValue machine.new.heap result }
    ensures heap { machine.new.heap ≡ machine.old.heap }
    ensures budget { machine.new.budget ≡ machine.old.budget }
{
    if is_own(&machine.locals, name) {
        return read_local(machine.alloc, &machine.locals, name);
    }
    read_global(machine, name)
}

fn set_own(locals: &mut Option<Frame>, name: &RcStr, value: Value) -> Result<(), AllocError>
    ensures ok { OnOk result (locals_of locals.new ≡ own_bound (rc_str_bytes name.now) (value_of value) (locals_of locals.old)) }
    ensures err { OnErr result (locals_of locals.new ≡ locals_of locals.old) }
{
    match locals {
        Some(frame) => set_copied(&mut frame.values, name, value),
        None => Ok(()),
    }
}

/// Binds a name (Python Language Reference 3, "Assignment statements").
pub fn assign(machine: &mut Machine, name: &RcStr, value: Value) -> Result<(), Fault>
    requires name { IsTrue (is_name (rc_str_bytes name.now)) }
    requires sound { IsSoundIn machine.old.heap value }
    ensures gives { Gives (λ u. u) result (moment_of machine.new) (assign (rc_str_bytes name.now) (value_of value) (moment_of machine.old)) }
    ensures sound { SoundEnd machine.new.heap result }
    ensures heap { machine.new.heap ≡ machine.old.heap }
    ensures budget { machine.new.budget ≡ machine.old.budget }
{
    if is_own(&machine.locals, name.as_str()) {
        set_own(&mut machine.locals, name, value)?;
        return Ok(());
    }
    machine.names.bind(name.as_str(), value)?;
    Ok(())
}

fn delete_global(machine: &mut Machine, name: &str) -> Result<(), Fault>
    ensures gives { Gives (λ u. u) result (moment_of machine.new) (delete_global name.now (moment_of machine.old)) }
    ensures sound { SoundEnd machine.new.heap result }
    ensures heap { machine.new.heap ≡ machine.old.heap }
    ensures budget { machine.new.budget ≡ machine.old.budget }
{
    let was_bound = machine.names.unbind(name)?.is_some();
    if was_bound {
        Ok(())
    } else {
        name_error(machine.alloc, name)
    }
}

fn take_own(locals: &mut Option<Frame>, name: &str) -> Option<Value>
    ensures value { option_map value_of result ≡ own_value name.now (locals_of locals.old) }
    ensures locals { locals_of locals.new ≡ own_unbound name.now (locals_of locals.old) }
{
    match locals {
        Some(frame) => take(&mut frame.values, name),
        None => None,
    }
}

fn delete_local(alloc: Global, locals: &mut Option<Frame>, name: &str) -> Result<(), Fault>
    ensures locals { locals_of locals.new ≡ own_unbound name.now (locals_of locals.old) }
    ensures some { IsTrue (is_some (own_value name.now (locals_of locals.old))) → result ≡ Ok tt }
    ensures none { IsTrue (not (is_some (own_value name.now (locals_of locals.old)))) → IsRaised result unbound_local_error_class (codes "local name '" ++ chars name.now ++ codes "' has no value") }
{
    let was_bound = take_own(locals, name).is_some();
    if was_bound {
        Ok(())
    } else {
        unbound_local(alloc, name)
    }
}

/// Takes a name's value away (Python Language Reference 3, "The del statement"). Where it has none it
/// raises `UnboundLocalError` for a local name, and `NameError` for another.
pub fn delete(machine: &mut Machine, name: &str) -> Result<(), Fault>
    ensures gives { Gives (λ u. u) result (moment_of machine.new) (delete name.now (moment_of machine.old)) }
    ensures sound { SoundEnd machine.new.heap result }
    ensures heap { machine.new.heap ≡ machine.old.heap }
    ensures budget { machine.new.budget ≡ machine.old.budget }
{
    if is_own(&machine.locals, name) {
        return delete_local(machine.alloc, &mut machine.locals, name);
    }
    delete_global(machine, name)
}

/// Takes a name's value away, where it has one still.
pub fn forget(machine: &mut Machine, name: &str) -> Result<(), Fault>
    ensures gives { Gives (λ u. u) result (moment_of machine.new) (forget name.now (moment_of machine.old)) }
    ensures sound { SoundEnd machine.new.heap result }
    ensures heap { machine.new.heap ≡ machine.old.heap }
    ensures budget { machine.new.budget ≡ machine.old.budget }
{
    if is_own(&machine.locals, name) {
        let _gone = take_own(&mut machine.locals, name);
        return Ok(());
    }
    let _gone = machine.names.unbind(name)?;
    Ok(())
}
