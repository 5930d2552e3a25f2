// The rows of one commit's table, kept from change to change.
ghost use Rattle.std.specs.Prelude.{◌≡◌, ◌<◌, ◌∷◌, [], length, map, IfOk, OnOk};
ghost use Rattle.std.specs.Rc.{rc_str_bytes};
ghost use Rattle.kishu_graph.specs.Heads.{Holds, IsHead, IsMade, NamesPut, gone_on, Stores, LeavesOut, Changes, Lack};
ghost use Rattle.kishu_graph.specs.Fits.{rows_of};
ghost use Rattle.kishu_graph.specs.Kept.{HaveParents, CountsRows, count_of, outline, note};
ghost use Rattle.kishu_graph.specs.Tables.{table_of_rows};
ghost use Rattle.kishu_graph.specs.Walks.{StandAtFirst, all_texts, rows_in};

use crate::commits::Commit;
use crate::fitting::{MOST_PICTURED, room_behind_rows};
use crate::tables::{Noted, Table, TableRow};
use crate::walking::{copied, find_rows, in_order, put_names, rows_to};
use std::alloc::{AllocError, Global};
use std::collections::{BTreeMap, BTreeSet};
use std::mem;
use std::rc::RcStr;

/// The rows of one commit's table, kept so that the next one's can be told from them.
#[derive(Drop)]
pub(crate) struct HeadRows {
    pub(crate) alloc: Global,
    /// The commit whose table it is.
    pub(crate) commit: u32,
    /// By their first names.
    pub(crate) rows: BTreeMap<RcStr, TableRow>,
    /// All names that stand in them.
    pub(crate) names: BTreeSet<RcStr>,
    /// How many bytes their pictures leave of those that the pictures of a table may take.
    pub(crate) room: u64,
}

impl HeadRows {
    /// Those of the root: none.
    pub(crate) fn of_root(alloc: Global) -> HeadRows
        ensures commit { result.commit ≡ 0 }
        ensures stand { StandAtFirst result.rows.entries }
        ensures holds { Holds result [] }
    {
        HeadRows {
            alloc,
            commit: 0,
            rows: BTreeMap::new(alloc),
            names: BTreeSet::new(alloc),
            room: MOST_PICTURED,
        }
    }

    /// Those of a commit whose table has these rows, in the order of their first names. An error says that no
    /// memory is left.
    fn of_commit(alloc: Global, commit: u32, rows: &[TableRow]) -> Result<HeadRows, AllocError>
        ensures { IfOk result (IsMade commit (rows_of rows.now)) }
    {
        let mut made = HeadRows::of_root(alloc);
        made.store(rows)?;
        made.commit = commit;
        Ok(made)
    }

    /// The table that has these rows. An error says that no memory is left.
    pub(crate) fn table(&self) -> Result<Table, AllocError>
        ensures { IfOk result (λ t. table_of_rows t ≡ rows_in self.now.rows.entries) }
    {
        let mut rows = Vec::with_capacity(self.alloc, self.rows.len())?;
        for row in self.rows.values() {
            rows.push(copied(self.alloc, row)?)?;
        }
        Ok(Table { rows })
    }

    /// Makes those of a commit those of its child that changes nothing. Those of another commit stay.
    pub(crate) fn go_on(&mut self, commit: u32, child: u32)
        ensures { self.new ≡ gone_on commit child self.old }
    {
        if self.commit == commit {
            self.commit = child;
        }
    }

    /// Drops the groups that begin with the names noted, and stores the rows noted. An error says that no
    /// memory is left; nothing is said of the rows then.
    pub(crate) fn change(&mut self, noted: &Noted) -> Result<(), AllocError>
        requires { StandAtFirst self.old.rows.entries }
        ensures commit { OnOk result (self.new.commit ≡ self.old.commit) }
        ensures stand { OnOk result (StandAtFirst self.new.rows.entries) }
        ensures changes { OnOk result (Changes (note noted.now) self.old self.new) }
    {
        self.leave_out(noted.dropped());
        self.store(noted.stored())
    }

    /// Puts rows among the others. An error says that no memory is left; nothing is said of the rows then.
    pub(crate) fn store(&mut self, rows: &[TableRow]) -> Result<(), AllocError>
        requires { StandAtFirst self.old.rows.entries }
        ensures commit { OnOk result (self.new.commit ≡ self.old.commit) }
        ensures stand { OnOk result (StandAtFirst self.new.rows.entries) }
        ensures stores { OnOk result (Stores rows.now self.old self.new) }
    {
        let none = BTreeSet::new(self.alloc);
        find_rows(self.alloc, &mut self.rows, &none, rows)?;
        put_names_of(&mut self.names, rows)?;
        self.room = room_behind_rows(self.room, rows).unwrap_or(0);
        Ok(())
    }

    /// Takes out the groups that begin with these names.
    fn leave_out(&mut self, firsts: &[RcStr])
        requires { StandAtFirst self.old.rows.entries }
        ensures commit { self.new.commit ≡ self.old.commit }
        ensures stand { StandAtFirst self.new.rows.entries }
        ensures left { LeavesOut (all_texts firsts.now) self.old self.new }
    {
        for first in firsts {
            self.leave_out_one(first);
        }
    }

    /// Takes out the group that begins with a name, if one does.
    fn leave_out_one(&mut self, first: &RcStr)
        requires { StandAtFirst self.old.rows.entries }
        ensures commit { self.new.commit ≡ self.old.commit }
        ensures stand { StandAtFirst self.new.rows.entries }
        ensures left { LeavesOut (rc_str_bytes first.now ∷ []) self.old self.new }
    {
        if let Some(row) = self.rows.remove(first.as_str()) {
            take_names(&mut self.names, &row.group.names);
            self.room = self.room.saturating_add(row.len);
        }
    }
}

/// The rows of a commit's table: those at hand, where they are that commit's, and else those that are found
/// on the way back. Where those at hand are taken, the root's come in their place.
pub(crate) fn take_rows(
    alloc: Global,
    at_hand: &mut HeadRows,
    commits: &[Commit],
    noted: &[Noted],
    commit: u32,
) -> Result<HeadRows, AllocError>
    requires there { commit < length commits.now }
    requires parents { HaveParents (map outline commits.now) }
    requires noted { length noted.now ≡ length commits.now }
    requires counts { CountsRows (map outline commits.now) (map note noted.now) (map count_of noted.now) }
    requires head { IsHead (map outline commits.now) (map note noted.now) at_hand.old }
    ensures head { IsHead (map outline commits.now) (map note noted.now) at_hand.new }
    ensures commit { IfOk result (λ h. h.commit ≡ commit) }
    ensures rows { IfOk result (λ h. IsHead (map outline commits.now) (map note noted.now) h) }
{
    if at_hand.commit == commit {
        return Ok(mem::replace(at_hand, HeadRows::of_root(alloc)));
    }
    let found = rows_to(alloc, commits, noted, commit)?;
    let table = in_order(alloc, found)?;
    HeadRows::of_commit(alloc, commit, &table.rows)
}

/// Puts the names of rows among others.
fn put_names_of(names: &mut BTreeSet<RcStr>, rows: &[TableRow]) -> Result<(), AllocError>
    ensures { OnOk result (NamesPut rows.now names.old.keys names.new.keys) }
{
    for row in rows {
        put_names(names, &row.group.names)?;
    }
    Ok(())
}

/// Takes names out of others.
fn take_names(names: &mut BTreeSet<RcStr>, group: &[RcStr])
    ensures { Lack (all_texts group.now) (all_texts names.old.keys) (all_texts names.new.keys) }
{
    for name in group {
        names.remove(name.as_str());
    }
}
