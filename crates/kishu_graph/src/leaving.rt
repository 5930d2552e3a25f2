// Which groups a commit may drop and store, told from the rows of its parent's table that are at hand.
ghost use Rattle.std.specs.Prelude.{◌≡◌, ◌≤◌, ◌<◌, ◌+◌, true, length, map, IfOk, IfSome};
ghost use Rattle.std.specs.List.{list_all};
ghost use Rattle.std.specs.Rc.{rc_str_bytes};
ghost use Rattle.kishu_store.specs.Groups.{AreGroups, AreStored};
ghost use Rattle.kishu_store.specs.Limits.{most_pictured};
ghost use Rattle.kishu_graph.specs.Fits.{lengths_in, names_of};
ghost use Rattle.kishu_graph.specs.Kept.{texts_of};
ghost use Rattle.kishu_graph.specs.Leaves.{LeavesAll, LeavesOne, TellsHeld, is_free};
ghost use Rattle.kishu_graph.specs.Tables.{stored_of};
ghost use Rattle.kishu_graph.specs.Walks.{StandAtFirst};

use crate::fitting::{MOST_PICTURED, add_groups, are_same, room_behind_groups};
use crate::heads::HeadRows;
use crate::walking::{first_name, put_names};
use std::alloc::AllocError;
use std::collections::BTreeSet;
use std::rc::RcStr;

/// What some rows leave where groups are dropped.
#[derive(Drop)]
pub(crate) struct Leaving {
    /// The names of the groups that are dropped.
    pub(crate) gone: BTreeSet<RcStr>,
    /// How many bytes the pictures of the others leave of those that the pictures of a table may take.
    pub(crate) room: u64,
}

impl HeadRows {
    /// Whether a commit may drop these groups and store these, each with the length of its picture in bytes,
    /// where its parent's table has these rows.
    ///
    /// Its condition is that both lists are ones that a record may tell. An error says that no memory is
    /// left.
    pub(crate) fn fit(
        &self,
        dropped: &[Vec<RcStr>],
        stored: &[(Vec<RcStr>, u64)],
    ) -> Result<bool, AllocError>
        requires stand { StandAtFirst self.now.rows.entries }
        requires dropped { AreGroups (map texts_of dropped.now) }
        requires stored { AreStored (map stored_of stored.now) }
        ensures fits { IfOk result (TellsHeld self.now dropped.now stored.now) }
        ensures small { IfOk result (λ fits. fits ≡ true → lengths_in stored.now ≤ most_pictured) }
    {
        let Some(left) = self.leave_all(dropped)? else {
            return Ok(false);
        };
        if room_behind_groups(left.room, stored).is_none() {
            return Ok(false);
        }
        if !are_all_free(&self.names, &left.gone, stored) {
            return Ok(false);
        }
        add_groups(&mut BTreeSet::new(self.alloc), stored)
    }

    /// What the rows leave without these groups, or none where they haven't all of them.
    fn leave_all(&self, dropped: &[Vec<RcStr>]) -> Result<Option<Leaving>, AllocError>
        requires stand { StandAtFirst self.now.rows.entries }
        requires dropped { AreGroups (map texts_of dropped.now) }
        ensures leaves { IfOk result (LeavesAll self.now (map texts_of dropped.now)) }
        ensures room { IfOk result (λ o. IfSome o (λ left. left.room ≤ most_pictured)) }
    {
        let mut left = Leaving {
            gone: BTreeSet::new(self.alloc),
            room: room_with(0, self.room),
        };
        for group in dropped {
            if !self.leave_one(&mut left, group)? {
                return Ok(None);
            }
        }
        Ok(Some(left))
    }

    /// Takes one more group out of those that are left, and tells whether it is there.
    fn leave_one(&self, left: &mut Leaving, group: &[RcStr]) -> Result<bool, AllocError>
        requires stand { StandAtFirst self.now.rows.entries }
        requires room { left.old.room ≤ most_pictured }
        requires some { 0 < length group.now }
        ensures leaves { IfOk result (LeavesOne self.now (map rc_str_bytes group.now) left.old left.new) }
        ensures room { left.new.room ≤ most_pictured }
    {
        let first = first_name(self.alloc, group)?;
        let Some(row) = self.rows.get(first.as_str()) else {
            return Ok(false);
        };
        if !are_same(&row.group.names, group) {
            return Ok(false);
        }
        put_names(&mut left.gone, group)?;
        left.room = room_with(left.room, row.len);
        Ok(true)
    }
}

/// Whether none of the names of these groups stands in a row that stays: each is none of the names, or one of
/// those that are gone.
fn are_all_free(
    names: &BTreeSet<RcStr>,
    gone: &BTreeSet<RcStr>,
    stored: &[(Vec<RcStr>, u64)],
) -> bool
    ensures { result ≡ list_all (is_free names.now.keys gone.now.keys) (names_of stored.now) }
{
    for (group, _) in stored {
        if !are_free(names, gone, group) {
            return false;
        }
    }
    true
}

/// The same of one group.
fn are_free(names: &BTreeSet<RcStr>, gone: &BTreeSet<RcStr>, group: &[RcStr]) -> bool
    ensures { result ≡ list_all (is_free names.now.keys gone.now.keys) (map rc_str_bytes group.now) }
{
    for name in group {
        if !is_free(names, gone, name) {
            return false;
        }
    }
    true
}

/// The same of one name.
fn is_free(names: &BTreeSet<RcStr>, gone: &BTreeSet<RcStr>, name: &RcStr) -> bool
    ensures { result ≡ is_free names.now.keys gone.now.keys (rc_str_bytes name.now) }
{
    !names.contains(name.as_str()) || gone.contains(name.as_str())
}

/// The sum of two numbers of bytes, but no more than the pictures of a table may take.
fn room_with(room: u64, len: u64) -> u64
    requires { room ≤ most_pictured }
    ensures most { result ≤ most_pictured }
    ensures sum { room + len ≤ most_pictured → result ≡ room + len }
{
    if len <= MOST_PICTURED - room {
        room + len
    } else {
        MOST_PICTURED
    }
}
