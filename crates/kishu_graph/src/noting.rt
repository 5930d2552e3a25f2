// What commits change of their parents' tables.
ghost use Rattle.std.specs.Prelude.{◌≡◌, ◌<◌, ◌+◌, suc, length, map, get_or, IfOk, IfSome, MatchOption, OnOk, OnErr};
ghost use Rattle.std.specs.Rc.{rc_str_bytes};
ghost use Rattle.kishu_store.specs.Groups.{Rise, first_name};
ghost use Rattle.kishu_store.specs.Tables.{no_change};
ghost use Rattle.kishu_graph.specs.Kept.{noted_of, note, texts_of, row_of};
ghost use Rattle.kishu_graph.specs.Tables.{change_with, CountsAfter, FitsParent, HasNoted, KeepsAllBut};

use crate::Graph;
use crate::heads::take_rows;
use crate::order::names_rise;
use crate::tables::{Group, Noted, NotedChange, TableRow};
use std::alloc::{AllocError, Global};
use std::collections::BTreeSet;
use std::rc::RcStr;

impl Graph {
    /// Notes what the newest commit changes of its parent's table: the groups that it drops, and the
    /// rows that it stores.
    ///
    /// Its conditions are that the commit is the newest, that nothing is noted of it, and that the change
    /// fits its parent's table. An error says that no memory is left; nothing has changed then.
    pub fn note_groups(
        &mut self,
        commit: u32,
        dropped: &[Vec<RcStr>],
        stored: &[TableRow],
    ) -> Result<(), AllocError>
        requires newest { suc commit ≡ length self.old.commits }
        requires not_root { 0 < commit }
        requires none { get_or self.old.noted commit (noted_of no_change) ≡ noted_of no_change }
        requires fits { FitsParent self.old commit (change_with dropped.now stored.now) }
        ensures noted { OnOk result (HasNoted self.old self.new (change_with dropped.now stored.now)) }
        ensures keeps { OnOk result (KeepsAllBut self.old self.new) }
        ensures err { OnErr result (self.new ≡ self.old) }
    {
        let parent = self.commits[commit as usize].parent;
        if dropped.is_empty() && stored.is_empty() {
            return Ok(());
        }
        let rows = self.noted[parent as usize].rows;
        let noted = noted_of(self.alloc, &mut self.texts, rows, dropped, stored)?;
        let mut head_rows = take_rows(
            self.alloc,
            &mut self.head_rows,
            &self.commits,
            &self.noted,
            commit,
        )?;
        head_rows.change(&noted)?;
        self.noted[commit as usize] = noted;
        self.head_rows = head_rows;
        Ok(())
    }
}

/// What is noted of a commit whose parent's table has so many rows.
fn noted_of(
    alloc: Global,
    texts: &mut BTreeSet<RcStr>,
    rows: Option<u32>,
    dropped: &[Vec<RcStr>],
    stored: &[TableRow],
) -> Result<Noted, AllocError>
    ensures note { IfOk result (λ n. note n ≡ noted_of (change_with dropped.now stored.now)) }
    ensures rows { IfOk result (λ n. CountsAfter rows (change_with dropped.now stored.now) n.rows) }
{
    let dropped = first_names(alloc, texts, dropped)?;
    let rows = rows_after(rows, &dropped, stored.len());
    let stored = shared_rows(alloc, texts, stored)?;
    let change = Box::new(alloc, NotedChange { dropped, stored })?;
    Ok(Noted {
        change: Some(change),
        rows,
    })
}

/// How many rows a table has of which groups with these first names are dropped, and to which so many
/// are added. It isn't said where the names aren't in order, or 32 bits don't count the rows.
fn rows_after(rows: Option<u32>, dropped: &[RcStr], stored: usize) -> Option<u32>
    ensures order { IfSome result (λ n. Rise (map rc_str_bytes dropped.now)) }
    ensures sum { IfSome result (λ n. MatchOption rows ⊥ (λ m. n + length dropped.now ≡ m + stored)) }
{
    if !names_rise(dropped) {
        return None;
    }
    let left = (rows? as usize).checked_sub(dropped.len())?;
    u32::try_from(left.checked_add(stored)?).ok()
}

/// A text that equals this one: the one that was kept first, whose memory is shared.
fn shared(texts: &mut BTreeSet<RcStr>, text: &RcStr) -> Result<RcStr, AllocError>
    ensures { IfOk result (λ t. rc_str_bytes t ≡ rc_str_bytes text.now) }
{
    if let Some(kept) = texts.get(text.as_str()) {
        return Ok(kept.clone()?);
    }
    texts.insert(text.clone()?)?;
    text.clone()
}

/// The first name of a group, shared.
fn shared_first(
    alloc: Global,
    texts: &mut BTreeSet<RcStr>,
    group: &[RcStr],
) -> Result<RcStr, AllocError>
    ensures { IfOk result (λ t. rc_str_bytes t ≡ first_name (map rc_str_bytes group.now)) }
{
    match group.first() {
        Some(name) => shared(texts, name),
        None => RcStr::from_str(alloc, ""),
    }
}

/// The first names of groups, shared.
fn first_names(
    alloc: Global,
    texts: &mut BTreeSet<RcStr>,
    groups: &[Vec<RcStr>],
) -> Result<Vec<RcStr>, AllocError>
    ensures { IfOk result (λ v. texts_of v ≡ map first_name (map texts_of groups.now)) }
{
    let mut names = Vec::with_capacity(alloc, groups.len())?;
    for group in groups {
        names.push(shared_first(alloc, texts, group)?)?;
    }
    Ok(names)
}

/// Names, shared.
fn shared_names(
    alloc: Global,
    texts: &mut BTreeSet<RcStr>,
    names: &[RcStr],
) -> Result<Vec<RcStr>, AllocError>
    ensures { IfOk result (λ v. texts_of v ≡ map rc_str_bytes names.now) }
{
    let mut all = Vec::with_capacity(alloc, names.len())?;
    for name in names {
        all.push(shared(texts, name)?)?;
    }
    Ok(all)
}

/// A row whose names are shared.
fn shared_row(
    alloc: Global,
    texts: &mut BTreeSet<RcStr>,
    row: &TableRow,
) -> Result<TableRow, AllocError>
    ensures { IfOk result (λ r. row_of r ≡ row_of row.now) }
{
    Ok(TableRow {
        group: Group {
            names: shared_names(alloc, texts, &row.group.names)?,
        },
        version: row.version,
        place: row.place,
        len: row.len,
    })
}

/// Rows whose names are shared.
fn shared_rows(
    alloc: Global,
    texts: &mut BTreeSet<RcStr>,
    rows: &[TableRow],
) -> Result<Vec<TableRow>, AllocError>
    ensures { IfOk result (λ v. map row_of v.items ≡ map row_of rows.now) }
{
    let mut all = Vec::with_capacity(alloc, rows.len())?;
    for row in rows {
        all.push(shared_row(alloc, texts, row)?)?;
    }
    Ok(all)
}
