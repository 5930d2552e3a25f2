// Names and groups, of which one asks whether one is among them, and where.
ghost use Rattle.std.specs.Prelude.{◌≡◌, IfOk, OnOk, [], None};
ghost use Rattle.kishu_language.specs.tokens.Names.{is_among};
ghost use Rattle.kishu_names.specs.Record.{texts_of};
ghost use Rattle.kishu_store.specs.Groups.{Group, is_one_of};
ghost use Rattle.kishu_delta.specs.Found.{found, Puts};
ghost use Rattle.kishu_delta.specs.Sets.{HasNames, HasGroup};

use std::alloc::{AllocError, Global};
use std::collections::{BTreeMap, BTreeSet};
use std::marker::Model;
use std::rc::RcStr;

/// Names, each once.
#[derive(Drop)]
pub(crate) struct NameSet {
    names: BTreeSet<RcStr>,
}

impl Model for NameSet {
    ghost use Rattle.std.specs.Prelude.{ℕ, List};
    ghost use Rattle.kishu_names.specs.Record.{texts_of};

    ghost Value = { List (List ℕ) };

    ghost view = { λ s. texts_of s.names.keys };
}

impl NameSet {
    /// No name.
    pub(crate) fn new(alloc: Global) -> NameSet
        ensures { result ≡ [] }
    {
        NameSet {
            names: BTreeSet::new(alloc),
        }
    }

    /// Whether a name is among them.
    pub(crate) fn has(&self, name: &str) -> bool
        ensures { result ≡ is_among name.now self.now }
    {
        self.names.contains(name)
    }

    /// Puts names among them. An error says that no memory is left.
    pub(crate) fn put(&mut self, names: &[RcStr]) -> Result<(), AllocError>
        ensures { OnOk result (HasNames (texts_of names.now) self.old self.new) }
    {
        put_names(&mut self.names, names)
    }
}

/// Puts names into a set.
fn put_names(set: &mut BTreeSet<RcStr>, names: &[RcStr]) -> Result<(), AllocError>
    ensures { OnOk result (HasNames (texts_of names.now) (texts_of set.old.keys) (texts_of set.new.keys)) }
{
    for name in names {
        set.insert(name.clone()?)?;
    }
    Ok(())
}

/// Groups, each once.
#[derive(Drop)]
pub(crate) struct GroupSet {
    groups: BTreeSet<Vec<RcStr>>,
}

impl Model for GroupSet {
    ghost use Rattle.std.specs.Prelude.{ℕ, List, map};
    ghost use Rattle.kishu_store.specs.Groups.{Group};
    ghost use Rattle.kishu_delta.specs.Found.{group_of};

    ghost Value = { List Group };

    ghost view = { λ s. map group_of s.groups.keys };
}

impl GroupSet {
    /// No group.
    pub(crate) fn new(alloc: Global) -> GroupSet
        ensures { result ≡ [] }
    {
        GroupSet {
            groups: BTreeSet::new(alloc),
        }
    }

    /// Whether a group is among them.
    pub(crate) fn has(&self, group: &[RcStr]) -> bool
        ensures { result ≡ is_one_of (texts_of group.now) self.now }
    {
        self.groups.contains(group)
    }

    /// Puts a group among them. An error says that no memory is left.
    pub(crate) fn put(&mut self, group: Vec<RcStr>) -> Result<(), AllocError>
        ensures { OnOk result (HasGroup (texts_of group.items) self.old self.new) }
    {
        self.groups.insert(group)?;
        Ok(())
    }
}

/// Where groups stand in a list.
#[derive(Drop)]
pub(crate) struct Places {
    places: BTreeMap<Vec<RcStr>, usize>,
}

impl Model for Places {
    ghost use Rattle.std.specs.Prelude.{ℕ, List};
    ghost use Rattle.kishu_store.specs.Groups.{Group};
    ghost use Rattle.kishu_delta.specs.Found.{found_as};

    ghost Value = { List (Group × ℕ) };

    ghost view = { λ p. found_as (λ n. n) p.places.entries };
}

impl Places {
    /// No group.
    pub(crate) fn new(alloc: Global) -> Places
        ensures { (g : Group) → found result g ≡ None }
    {
        Places {
            places: BTreeMap::new(alloc),
        }
    }

    /// Where a group stands.
    pub(crate) fn of(&self, group: &[RcStr]) -> Option<usize>
        ensures { result ≡ found self.now (texts_of group.now) }
    {
        self.places.get(group).copied()
    }

    /// Notes where a group stands. An error says that no memory is left.
    pub(crate) fn put(&mut self, group: Vec<RcStr>, place: usize) -> Result<(), AllocError>
        ensures { OnOk result (Puts (texts_of group.items) place self.old self.new) }
    {
        self.places.insert(group, place)?;
        Ok(())
    }
}

/// The names of a group once more. They share their texts.
pub(crate) fn shared(alloc: Global, group: &[RcStr]) -> Result<Vec<RcStr>, AllocError>
    ensures { IfOk result (λ copy. texts_of copy.items ≡ texts_of group.now) }
{
    let mut copy = Vec::with_capacity(alloc, group.len())?;
    for name in group {
        copy.push(name.clone()?)?;
    }
    Ok(copy)
}
