// Plans between tables.
ghost use Rattle.std.specs.Prelude.{◌≡◌, not, [], IfOk, OnOk, map, filter};
ghost use Rattle.std.specs.List.{list_any};
ghost use Rattle.kishu_store.specs.Tables.{group_in};
ghost use Rattle.kishu_graph.specs.Kept.{row_of, texts_of};
ghost use Rattle.kishu_graph.specs.Tables.{group_of, table_of_rows};
ghost use Rattle.kishu_history.specs.Tables.{groups_in};
ghost use Rattle.kishu_history.specs.Checkout.{to_keep, to_load, to_drop};
ghost use Rattle.kishu_checkout.specs.Plans.{groups_kept, rows_loaded, groups_dropped};
ghost use Rattle.kishu_checkout.specs.Versioned.{is_there, IsIndexOf};

use crate::plans::Plan;
use kishu_graph::{Group, Table, TableRow};
use std::alloc::{AllocError, Global};
use std::collections::BTreeSet;
use std::rc::RcStr;

/// The groups of rows, each with its version.
type Versions<'a> = BTreeSet<(&'a [RcStr], u32)>;

/// Tells what a checkout from one table to another keeps, loads and drops. A group is kept where both tables
/// have it with one version. The tables may be any. An error says that no memory is left.
pub fn plan(alloc: Global, current: &Table, target: &Table) -> Result<Plan, AllocError>
    ensures keep { IfOk result (λ p. groups_kept p
        ≡ groups_in (to_keep (table_of_rows current.now) (table_of_rows target.now))) }
    ensures load { IfOk result (λ p. rows_loaded p
        ≡ to_load (table_of_rows current.now) (table_of_rows target.now)) }
    ensures drop { IfOk result (λ p. groups_dropped p
        ≡ to_drop (table_of_rows current.now) (table_of_rows target.now)) }
{
    let before = versions(alloc, &current.rows)?;
    let after = versions(alloc, &target.rows)?;
    Ok(Plan {
        keep: groups_there(alloc, &target.rows, &before)?,
        load: rows_elsewhere(alloc, &target.rows, &before)?,
        drop: groups_elsewhere(alloc, &current.rows, &after)?,
    })
}

/// The groups of rows, each with its version.
fn versions(alloc: Global, rows: &[TableRow]) -> Result<Versions<'_>, AllocError>
    ensures { IfOk result (λ s. IsIndexOf s.keys (map row_of rows.now)) }
{
    let mut versions = BTreeSet::new(alloc);
    for row in rows {
        versions.insert((row.group.names.as_slice(), row.version))?;
    }
    Ok(versions)
}

/// Whether a row's group is there with the row's version.
fn is_there<'a>(versions: &Versions<'a>, row: &'a TableRow) -> bool
    ensures { result ≡ is_there versions.now.keys (row_of row.now) }
{
    versions.contains(&(row.group.names.as_slice(), row.version))
}

/// The groups of the rows that are there.
fn groups_there<'a>(
    alloc: Global,
    rows: &'a [TableRow],
    versions: &Versions<'a>,
) -> Result<Vec<Group>, AllocError>
    ensures { IfOk result (λ gs. map group_of gs.items
        ≡ map group_in (filter (is_there versions.now.keys) (map row_of rows.now))) }
{
    let mut groups = Vec::new(alloc);
    for row in rows {
        if is_there(versions, row) {
            groups.push(copied_group(alloc, &row.group)?)?;
        }
    }
    Ok(groups)
}

/// The groups of the rows that aren't there.
fn groups_elsewhere<'a>(
    alloc: Global,
    rows: &'a [TableRow],
    versions: &Versions<'a>,
) -> Result<Vec<Group>, AllocError>
    ensures { IfOk result (λ gs. map group_of gs.items
        ≡ map group_in (filter (λ r. not (is_there versions.now.keys r)) (map row_of rows.now))) }
{
    let mut groups = Vec::new(alloc);
    for row in rows {
        if !is_there(versions, row) {
            groups.push(copied_group(alloc, &row.group)?)?;
        }
    }
    Ok(groups)
}

/// The rows that aren't there.
fn rows_elsewhere<'a>(
    alloc: Global,
    rows: &'a [TableRow],
    versions: &Versions<'a>,
) -> Result<Vec<TableRow>, AllocError>
    ensures { IfOk result (λ copies. map row_of copies.items
        ≡ filter (λ r. not (is_there versions.now.keys r)) (map row_of rows.now)) }
{
    let mut copies = Vec::new(alloc);
    for row in rows {
        if !is_there(versions, row) {
            copies.push(copied_row(alloc, row)?)?;
        }
    }
    Ok(copies)
}

/// The same row. Its names share their texts.
fn copied_row(alloc: Global, row: &TableRow) -> Result<TableRow, AllocError>
    ensures { IfOk result (λ copy. row_of copy ≡ row_of row.now) }
{
    Ok(TableRow {
        group: copied_group(alloc, &row.group)?,
        version: row.version,
        place: row.place,
        len: row.len,
    })
}

/// The same group. Its names share their texts.
fn copied_group(alloc: Global, group: &Group) -> Result<Group, AllocError>
    ensures { IfOk result (λ copy. group_of copy ≡ group_of group.now) }
{
    let mut names = Vec::with_capacity(alloc, group.names.len())?;
    for name in &group.names {
        names.push(name.clone()?)?;
    }
    Ok(Group { names })
}
