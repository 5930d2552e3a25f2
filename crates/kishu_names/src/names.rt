// The namespace.
ghost use Rattle.std.specs.Prelude.{◌≡◌, [], IsTrue, IfOk, IfSome, OnOk, OnErr, map, option_map};
ghost use Rattle.std.specs.Rc.{rc_str_bytes};
ghost use Rattle.kishu_language.specs.tokens.Names.{is_name};
ghost use Rattle.kishu_meaning.specs.values.Values.{value_of, find, bind};
ghost use Rattle.kishu_meaning.specs.values.Sound.{is_valid};
ghost use Rattle.kishu_meaning.specs.moments.Accesses.{unbind, with_access, with_accesses};
ghost use Rattle.kishu_names.specs.Record.{Rises, texts_of};
ghost use Rattle.kishu_names.specs.Namespace.{IsKept, names_of};

use crate::bindings::{found, set, take};
use crate::record::{note, note_all, note_in_room};
use kishu_meaning::Value;
use std::alloc::{AllocError, Global};
use std::collections::BTreeMap;
use std::marker::Model;
use std::mem;
use std::rc::RcStr;

/// Names with their values, and the names that were accessed.
#[derive(Drop)]
pub struct Names {
    alloc: Global,
    bound: BTreeMap<RcStr, Value>,
    accessed: Vec<RcStr>,
}

impl Model for Names {
    ghost use Rattle.kishu_names.specs.Namespace.{Namespace, IsKept, names_of};
    ghost use Rattle.kishu_names.specs.Record.{texts_of};

    ghost Value = { Namespace };

    ghost view = { λ n. record { bound = names_of n.bound.entries; accessed = texts_of n.accessed.items } };

    ghost invariant = { λ n. IsKept (names_of n.bound.entries) (texts_of n.accessed.items) };
}

/// The value under a name, once more.
fn copied_value(bound: &BTreeMap<RcStr, Value>, name: &str) -> Result<Option<Value>, AllocError>
    ensures { IfOk result (λ o. option_map value_of o ≡ find name.now (names_of bound.now.entries)) }
{
    match found(bound, name) {
        Some(value) => Ok(Some(value.copied()?)),
        None => Ok(None),
    }
}

/// A name as a text. The text of a name that is bound is shared.
fn text_of(alloc: Global, bound: &BTreeMap<RcStr, Value>, name: &str) -> Result<RcStr, AllocError>
    ensures { IfOk result (λ text. rc_str_bytes text ≡ name.now) }
{
    match bound.get_key_value(name) {
        Some((text, _)) => text.clone(),
        None => RcStr::from_str(alloc, name),
    }
}

impl Names {
    /// No name is bound, and none was accessed.
    pub fn new(alloc: Global) -> Names
        ensures { result ≡ record { bound = []; accessed = [] } }
    {
        Names {
            alloc,
            bound: BTreeMap::new(alloc),
            accessed: Vec::new(alloc),
        }
    }

    /// The value of a name. The access is recorded, a miss too. Without memory nothing changes.
    pub fn get(&mut self, name: &str) -> Result<Option<Value>, AllocError>
        ensures value { IfOk result (λ o. option_map value_of o ≡ find name.now self.old.bound) }
        ensures valid { IfOk result (λ o. IfSome o (λ v. IsTrue (is_valid (value_of v)))) }
        ensures bound { self.new.bound ≡ self.old.bound }
        ensures accessed { OnOk result (self.new.accessed ≡ with_access name.now self.old.accessed) }
        ensures err { OnErr result (self.new.accessed ≡ self.old.accessed) }
    {
        let value = copied_value(&self.bound, name)?;
        let accessed = text_of(self.alloc, &self.bound, name)?;
        note(&mut self.accessed, accessed)?;
        Ok(value)
    }

    /// Binds a name to a value. The access is recorded. Without memory nothing changes.
    pub fn bind(&mut self, name: &str, value: Value) -> Result<(), AllocError>
        requires name { IsTrue (is_name name.now) }
        requires value { IsTrue (is_valid (value_of value)) }
        ensures bound { OnOk result (self.new.bound ≡ bind name.now (value_of value) self.old.bound) }
        ensures accessed { OnOk result (self.new.accessed ≡ with_access name.now self.old.accessed) }
        ensures err { OnErr result (self.new ≡ self.old) }
    {
        let text = text_of(self.alloc, &self.bound, name)?;
        let key = text.clone()?;
        self.accessed.reserve(1)?;
        set(&mut self.bound, key, value)?;
        note_in_room(&mut self.accessed, text);
        Ok(())
    }

    /// Takes a name out, and answers the value that it had. The access is recorded, a miss too.
    /// Without memory nothing changes.
    pub fn unbind(&mut self, name: &str) -> Result<Option<Value>, AllocError>
        ensures value { IfOk result (λ o. option_map value_of o ≡ find name.now self.old.bound) }
        ensures bound { OnOk result (self.new.bound ≡ unbind name.now self.old.bound) }
        ensures accessed { OnOk result (self.new.accessed ≡ with_access name.now self.old.accessed) }
        ensures err { OnErr result (self.new ≡ self.old) }
    {
        let gone = text_of(self.alloc, &self.bound, name)?;
        note(&mut self.accessed, gone)?;
        Ok(take(&mut self.bound, name))
    }

    /// Binds a name to a value and records nothing. Without memory nothing changes.
    pub fn restore(&mut self, name: &str, value: Value) -> Result<(), AllocError>
        requires name { IsTrue (is_name name.now) }
        requires value { IsTrue (is_valid (value_of value)) }
        ensures bound { OnOk result (self.new.bound ≡ bind name.now (value_of value) self.old.bound) }
        ensures accessed { self.new.accessed ≡ self.old.accessed }
        ensures err { OnErr result (self.new.bound ≡ self.old.bound) }
    {
        let restored = text_of(self.alloc, &self.bound, name)?;
        set(&mut self.bound, restored, value)
    }

    /// The value of a name. Nothing is recorded.
    pub fn peek(&self, name: &str) -> Option<&Value>
        ensures value { option_map (λ v. value_of v.now) result ≡ find name.now self.now.bound }
        ensures kept { IsKept self.now.bound self.now.accessed }
    {
        found(&self.bound, name)
    }

    /// The names that are bound, in byte order and each once. An error says that no memory is left.
    pub fn names(&self) -> Result<Vec<RcStr>, AllocError>
        ensures names { IfOk result (λ names. map rc_str_bytes names.items ≡ map (λ b. b.0) self.now.bound) }
        ensures order { Rises (map (λ b. b.0) self.now.bound) }
    {
        all_names(self.alloc, &self.bound)
    }

    /// The names that were accessed, in byte order and each once.
    pub fn accessed(&self) -> &[RcStr]
        ensures names { map rc_str_bytes result.now ≡ self.now.accessed }
        ensures kept { IsKept self.now.bound self.now.accessed }
    {
        self.accessed.as_slice()
    }

    /// Takes the record out: no name counts as accessed then.
    pub fn take_record(&mut self) -> Vec<RcStr>
        ensures record { texts_of result.items ≡ self.old.accessed }
        ensures order { Rises (texts_of result.items) }
        ensures bound { self.new.bound ≡ self.old.bound }
        ensures accessed { self.new.accessed ≡ [] }
    {
        mem::replace(&mut self.accessed, Vec::new(self.alloc))
    }

    /// Puts a record that was taken out in the place of the present one, whose names are added to it.
    /// An error says that no memory is left, and nothing of which names the record has then.
    pub fn join_record(&mut self, earlier: Vec<RcStr>) -> Result<(), AllocError>
        requires order { Rises (texts_of earlier.items) }
        ensures bound { self.new.bound ≡ self.old.bound }
        ensures accessed { OnOk result (self.new.accessed ≡ with_accesses self.old.accessed (texts_of earlier.items)) }
    {
        let later = mem::replace(&mut self.accessed, earlier);
        note_all(&mut self.accessed, later)
    }

    /// Forgets which names were accessed.
    pub fn clear_record(&mut self)
        ensures bound { self.new.bound ≡ self.old.bound }
        ensures accessed { self.new.accessed ≡ [] }
    {
        self.accessed.clear();
    }
}

/// The names of a map, in its order.
fn all_names(alloc: Global, bound: &BTreeMap<RcStr, Value>) -> Result<Vec<RcStr>, AllocError>
    ensures names { IfOk result (λ names. map rc_str_bytes names.items ≡ map (λ b. b.0) (names_of bound.now.entries)) }
    ensures order { Rises (map (λ b. b.0) (names_of bound.now.entries)) }
{
    let mut names = Vec::new(alloc);
    for name in bound.keys() {
        names.push(name.clone()?)?;
    }
    Ok(names)
}
