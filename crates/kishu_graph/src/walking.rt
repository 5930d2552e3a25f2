// The table of a commit, found on the way back by the parents.
ghost use Rattle.std.specs.Prelude.{◌≡◌, ◌<◌, ◌∷◌, [], true, length, map, Some, IfOk, OnOk};
ghost use Rattle.std.specs.Rc.{rc_str_bytes};
ghost use Rattle.kishu_store.specs.Groups.{first_name};
ghost use Rattle.kishu_graph.specs.Kept.{HaveParents, CountsRows, count_of, outline, note, row_of, texts_of};
ghost use Rattle.kishu_graph.specs.Tables.{table_of_rows, IsTableOf};
ghost use Rattle.kishu_graph.specs.Walks.{rows_in, StandAtFirst, FindRows, ArePut, IsTableThere};

use crate::Graph;
use crate::commits::Commit;
use crate::tables::{Group, Noted, Table, TableRow};
use std::alloc::{AllocError, Global};
use std::collections::{BTreeMap, BTreeSet};
use std::rc::RcStr;

impl Graph {
    /// The table of a commit, which is there: its parent's without the groups that it drops and with the
    /// rows that it stores, in the order of first names. The root's is empty. An error says that no
    /// memory is left.
    pub fn table(&self, commit: u32) -> Result<Table, AllocError>
        requires there { commit < length self.now.commits }
        ensures { IfOk result (λ t. IsTableOf self.now commit (table_of_rows t)) }
    {
        if self.head_rows.commit == commit {
            return self.head_rows.table();
        }
        let found = rows_to(self.alloc, &self.commits, &self.noted, commit)?;
        in_order(self.alloc, found)
    }
}

/// The rows of a commit's table, by their first names.
///
/// The way back from the commit ends where as many rows are found as its table has, and at the root else.
pub(crate) fn rows_to(
    alloc: Global,
    commits: &[Commit],
    noted: &[Noted],
    commit: u32,
) -> Result<BTreeMap<RcStr, TableRow>, AllocError>
    requires there { commit < length commits.now }
    requires parents { HaveParents (map outline commits.now) }
    requires noted { length noted.now ≡ length commits.now }
    requires counts { CountsRows (map outline commits.now) (map note noted.now) (map count_of noted.now) }
    ensures stand { IfOk result (λ found. StandAtFirst found.entries) }
    ensures table { IfOk result (λ found. IsTableThere commits.now noted.now commit (rows_in found.entries)) }
{
    let mut found = BTreeMap::new(alloc);
    let mut gone = BTreeSet::new(alloc);
    let mut at = commit;
    while at != 0 {
        if are_all(&noted[commit as usize], found.len()) {
            return Ok(found);
        }
        find_rows(alloc, &mut found, &gone, noted[at as usize].stored())?;
        put_names(&mut gone, noted[at as usize].dropped())?;
        at = commits[at as usize].parent;
    }
    Ok(found)
}

/// Whether a commit's table is known to have just so many rows.
pub(crate) fn are_all(noted: &Noted, rows: usize) -> bool
    ensures { result ≡ true → noted.now.rows ≡ Some rows }
{
    match noted.rows {
        Some(all) => all as usize == rows,
        None => false,
    }
}

/// Puts those of a commit's rows among the rows found whose first names aren't gone.
pub(crate) fn find_rows(
    alloc: Global,
    found: &mut BTreeMap<RcStr, TableRow>,
    gone: &BTreeSet<RcStr>,
    rows: &[TableRow],
) -> Result<(), AllocError>
    requires { StandAtFirst found.old.entries }
    ensures stand { OnOk result (StandAtFirst found.new.entries) }
    ensures found { OnOk result (FindRows gone.now.keys rows.now found.old.entries found.new.entries) }
{
    for row in rows {
        find_row(alloc, found, gone, row)?;
    }
    Ok(())
}

/// Puts a row among the rows found, where its first name isn't gone.
fn find_row(
    alloc: Global,
    found: &mut BTreeMap<RcStr, TableRow>,
    gone: &BTreeSet<RcStr>,
    row: &TableRow,
) -> Result<(), AllocError>
    requires { StandAtFirst found.old.entries }
    ensures stand { OnOk result (StandAtFirst found.new.entries) }
    ensures found { OnOk result (FindRows gone.now.keys (row.now ∷ []) found.old.entries found.new.entries) }
{
    let name = first_name(alloc, &row.group.names)?;
    if gone.contains(name.as_str()) {
        return Ok(());
    }
    found.insert(name, copied(alloc, row)?)?;
    Ok(())
}

/// A group's first name.
pub(crate) fn first_name(alloc: Global, names: &[RcStr]) -> Result<RcStr, AllocError>
    ensures { IfOk result (λ name. rc_str_bytes name ≡ first_name (map rc_str_bytes names.now)) }
{
    match names.first() {
        Some(name) => name.clone(),
        None => RcStr::from_str(alloc, ""),
    }
}

/// The same row. Its names share their texts.
pub(crate) fn copied(alloc: Global, row: &TableRow) -> Result<TableRow, AllocError>
    ensures { IfOk result (λ copy. row_of copy ≡ row_of row.now) }
{
    let names = all_copied(alloc, &row.group.names)?;
    Ok(TableRow {
        group: Group { names },
        version: row.version,
        place: row.place,
        len: row.len,
    })
}

/// The same names. They share their texts.
pub(crate) fn all_copied(alloc: Global, names: &[RcStr]) -> Result<Vec<RcStr>, AllocError>
    ensures { IfOk result (λ copies. texts_of copies ≡ map rc_str_bytes names.now) }
{
    let mut copies = Vec::with_capacity(alloc, names.len())?;
    for name in names {
        copies.push(name.clone()?)?;
    }
    Ok(copies)
}

/// Puts names among others.
pub(crate) fn put_names(among: &mut BTreeSet<RcStr>, names: &[RcStr]) -> Result<(), AllocError>
    ensures { OnOk result (ArePut names.now among.old.keys among.new.keys) }
{
    for name in names {
        among.insert(name.clone()?)?;
    }
    Ok(())
}

/// The rows that were found, in the order of their first names.
pub(crate) fn in_order(alloc: Global, found: BTreeMap<RcStr, TableRow>) -> Result<Table, AllocError>
    ensures { IfOk result (λ t. table_of_rows t ≡ rows_in found.entries) }
{
    let mut rows = Vec::with_capacity(alloc, found.len())?;
    for row in found.into_values() {
        rows.push(row)?;
    }
    Ok(Table { rows })
}
