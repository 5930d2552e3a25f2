// Which groups a commit may drop and store.
ghost use Rattle.std.specs.Prelude.{◌≡◌, ◌≤◌, ◌<◌, ◌+◌, ◌++◌, true, false, Ok, Some, drop, length, map, IfOk, MatchOption};
ghost use Rattle.std.specs.List.{sum};
ghost use Rattle.std.specs.Rc.{rc_str_bytes};
ghost use Rattle.kishu_store.specs.Groups.{AreGroups, AreStored, is_group};
ghost use Rattle.kishu_store.specs.Limits.{most_pictured};
ghost use Rattle.kishu_store.specs.Tables.{are_apart, names_in};
ghost use Rattle.kishu_graph.specs.Fits.{AddsNames, StaysOf, TellsFit, TellsFitWith, bytes_of, is_next, lengths_in, names_at, names_of, rows_of};
ghost use Rattle.kishu_graph.specs.Kept.{texts_of, stored_in};
ghost use Rattle.kishu_graph.specs.Tables.{stored_of, table_of_rows, FitsHead, FailsHead};

use crate::Graph;
use crate::tables::{Noted, Table, TableRow};
use crate::walking::are_all;
use std::alloc::{AllocError, Global};
use std::collections::BTreeSet;
use std::rc::RcStr;

/// The most bytes that the pictures of a commit's table take.
pub(crate) const MOST_PICTURED: u64 = 268_435_456;

impl Graph {
    /// Whether a commit of the head may drop these groups and store these, each with the length of its
    /// picture in bytes: the head's table has all groups that are dropped, and in the table after it no
    /// name stands in two groups, and the pictures take at most 268,435,456 bytes.
    ///
    /// Its condition is that both lists are ones that a record may tell. An error says that no memory is
    /// left.
    pub fn fits(
        &self,
        dropped: &[Vec<RcStr>],
        stored: &[(Vec<RcStr>, u64)],
    ) -> Result<bool, AllocError>
        requires dropped { AreGroups (map texts_of dropped.now) }
        requires stored { AreStored (map stored_of stored.now) }
        ensures fits { result ≡ Ok true → FitsHead self.now dropped.now stored.now }
        ensures small { result ≡ Ok true → sum (map (λ s. s.1) stored.now) ≤ most_pictured }
        ensures fails { result ≡ Ok false → FailsHead self.now dropped.now stored.now }
    {
        if dropped.is_empty() && stored.is_empty() {
            return Ok(true);
        }
        if drops_all(&self.noted[self.head.commit as usize], dropped) {
            return fits_rows(self.alloc, &Vec::new(self.alloc), stored);
        }
        if self.head_rows.commit == self.head.commit {
            return self.head_rows.fit(dropped, stored);
        }
        let table = self.table(self.head.commit)?;
        fits_table(self.alloc, table, dropped, stored)
    }
}

/// Whether a commit behind this table may drop these groups and store these.
fn fits_table(
    alloc: Global,
    table: Table,
    dropped: &[Vec<RcStr>],
    stored: &[(Vec<RcStr>, u64)],
) -> Result<bool, AllocError>
    requires dropped { AreGroups (map texts_of dropped.now) }
    requires stored { AreStored (map stored_of stored.now) }
    ensures fits { IfOk result (λ fits. TellsFit (table_of_rows table) dropped.now stored.now fits) }
    ensures small { IfOk result (λ fits. fits ≡ true → lengths_in stored.now ≤ most_pictured) }
{
    let Some(left) = rows_left(alloc, table, dropped)? else {
        return Ok(false);
    };
    fits_rows(alloc, &left, stored)
}

/// Whether a commit may store these groups where it drops all groups of the table before it but those
/// of these rows.
fn fits_rows(
    alloc: Global,
    left: &[TableRow],
    stored: &[(Vec<RcStr>, u64)],
) -> Result<bool, AllocError>
    requires { AreStored (map stored_of stored.now) }
    ensures fits { IfOk result (λ fits. TellsFitWith left.now stored.now fits) }
    ensures small { IfOk result (λ fits. fits ≡ true → lengths_in stored.now ≤ most_pictured) }
{
    if !take_few_bytes(left, stored) {
        return Ok(false);
    }
    stand_apart(alloc, left, stored)
}

/// Whether a commit is known to have stored all rows of its table itself, and these are all their
/// groups: nothing is left of the table where they are dropped.
fn drops_all(noted: &Noted, dropped: &[Vec<RcStr>]) -> bool
    ensures own { result ≡ true → noted.now.rows ≡ Some (length (stored_in noted.now)) }
    ensures all { result ≡ true → map names_at (stored_in noted.now) ≡ map texts_of dropped.now }
{
    are_all(noted, noted.stored().len()) && have_groups(noted.stored(), dropped)
}

/// Whether rows have just these groups, in this order.
fn have_groups(rows: &[TableRow], groups: &[Vec<RcStr>]) -> bool
    ensures { result ≡ true → map names_at rows.now ≡ map texts_of groups.now }
{
    if rows.len() != groups.len() {
        return false;
    }
    for i in 0..rows.len() {
        if !are_same(&rows[i].group.names, &groups[i]) {
            return false;
        }
    }
    true
}

/// The rows that stay of a table where groups are dropped, both in the order of first names. There are
/// none where the table hasn't all of these groups.
fn rows_left(
    alloc: Global,
    table: Table,
    dropped: &[Vec<RcStr>],
) -> Result<Option<Vec<TableRow>>, AllocError>
    ensures { IfOk result (λ left. StaysOf (table_of_rows table) (map texts_of dropped.now) left) }
{
    let mut left = Vec::with_capacity(alloc, table.rows.len())?;
    let mut met = 0;
    for row in table.rows {
        if is_next(dropped, met, &row.group.names) {
            met += 1;
        } else {
            left.push(row)?;
        }
    }
    if met < dropped.len() {
        return Ok(None);
    }
    Ok(Some(left))
}

/// Whether the group of a number has just these names.
fn is_next(groups: &[Vec<RcStr>], at: usize, names: &[RcStr]) -> bool
    ensures next { result ≡ is_next (map rc_str_bytes names.now) (drop at (map texts_of groups.now)) }
    ensures inside { result ≡ true → at < length groups.now }
{
    at < groups.len() && are_same(names, &groups[at])
}

/// Whether two groups have the same names.
pub(crate) fn are_same(a: &[RcStr], b: &[RcStr]) -> bool
    ensures { result ≡ is_group (map rc_str_bytes a.now) (map rc_str_bytes b.now) }
{
    a == b
}

/// Whether the pictures of these rows and groups take at most 268,435,456 bytes together.
fn take_few_bytes(left: &[TableRow], stored: &[(Vec<RcStr>, u64)]) -> bool
    ensures yes { result ≡ true → bytes_of left.now + lengths_in stored.now ≤ most_pictured }
    ensures no { result ≡ false → most_pictured < bytes_of left.now + lengths_in stored.now }
{
    match room_behind_rows(MOST_PICTURED, left) {
        Some(room) => room_behind_groups(room, stored).is_some(),
        None => false,
    }
}

/// How many of these bytes are left behind the pictures of rows, where there is room for them.
pub(crate) fn room_behind_rows(most: u64, rows: &[TableRow]) -> Option<u64>
    ensures { MatchOption result (most < bytes_of rows.now) (λ n. n + bytes_of rows.now ≡ most) }
{
    let mut room = most;
    for row in rows {
        let Some(left) = room.checked_sub(row.len) else {
            return None;
        };
        room = left;
    }
    Some(room)
}

/// The same of the pictures of groups.
pub(crate) fn room_behind_groups(most: u64, stored: &[(Vec<RcStr>, u64)]) -> Option<u64>
    ensures { MatchOption result (most < lengths_in stored.now) (λ n. n + lengths_in stored.now ≡ most) }
{
    let mut room = most;
    for (_, len) in stored {
        let Some(left) = room.checked_sub(*len) else {
            return None;
        };
        room = left;
    }
    Some(room)
}

/// Whether no name stands twice among these rows and groups.
fn stand_apart(
    alloc: Global,
    left: &[TableRow],
    stored: &[(Vec<RcStr>, u64)],
) -> Result<bool, AllocError>
    requires { AreStored (map stored_of stored.now) }
    ensures { IfOk result (λ apart. apart ≡ are_apart (names_of stored.now ++ names_in (rows_of left.now))) }
{
    // The names of one group rise.
    if left.is_empty() && stored.len() <= 1 {
        return Ok(true);
    }
    let mut names = BTreeSet::new(alloc);
    if !add_groups(&mut names, stored)? {
        return Ok(false);
    }
    add_rows(&mut names, left)
}

/// Puts the names of groups among others, and tells whether none of these stands there twice.
pub(crate) fn add_groups(
    names: &mut BTreeSet<RcStr>,
    stored: &[(Vec<RcStr>, u64)],
) -> Result<bool, AllocError>
    ensures { IfOk result (λ b. AddsNames (names_of stored.now) names.old.keys names.new.keys b) }
{
    for (group, _) in stored {
        if !add_names(names, group)? {
            return Ok(false);
        }
    }
    Ok(true)
}

/// The same of rows.
fn add_rows(names: &mut BTreeSet<RcStr>, rows: &[TableRow]) -> Result<bool, AllocError>
    ensures { IfOk result (λ b. AddsNames (names_in (rows_of rows.now)) names.old.keys names.new.keys b) }
{
    for row in rows {
        if !add_names(names, &row.group.names)? {
            return Ok(false);
        }
    }
    Ok(true)
}

/// The same of one group.
fn add_names(names: &mut BTreeSet<RcStr>, group: &[RcStr]) -> Result<bool, AllocError>
    ensures { IfOk result (λ b. AddsNames (map rc_str_bytes group.now) names.old.keys names.new.keys b) }
{
    for name in group {
        if !names.insert(name.clone()?)? {
            return Ok(false);
        }
    }
    Ok(true)
}
