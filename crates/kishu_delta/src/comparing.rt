// The groups of a table and the classes of the touched names, compared by digests.
ghost use Rattle.std.specs.Prelude.{◌≡◌, not, List, IfOk, filter, map};
ghost use Rattle.kishu_graph.specs.Kept.{row_of};
ghost use Rattle.kishu_store.specs.Groups.{Group, is_one_of};
ghost use Rattle.kishu_store.specs.Tables.{groups_in};
ghost use Rattle.kishu_delta.specs.Compared.{AreStanding, AreKnown, IsParted, with_pictures};
ghost use Rattle.kishu_delta.specs.Deltas.{all_groups};
ghost use Rattle.kishu_delta.specs.Near.{lent};

use crate::asking::Asked;
use crate::delta::StoredGroup;
use crate::kept::Kept;
use crate::sets::{GroupSet, Places, shared};
use kishu_graph::TableRow;
use std::alloc::{AllocError, Global};
use std::rc::RcStr;

/// Those of these groups of which the digest of their picture is kept.
pub(crate) fn standing(
    alloc: Global,
    kept: &Kept,
    pictured: &[StoredGroup],
) -> Result<GroupSet, AllocError>
    ensures { IfOk result (λ set. AreStanding kept.now pictured.now set) }
{
    let mut standing = GroupSet::new(alloc);
    for group in pictured {
        if kept.is_kept(&group.names, &group.bytes) {
            standing.put(shared(alloc, &group.names)?)?;
        }
    }
    Ok(standing)
}

/// Where those of a table's groups stand in it that are among these.
pub(crate) fn known(
    alloc: Global,
    rows: &[TableRow],
    standing: &GroupSet,
) -> Result<Places, AllocError>
    ensures { IfOk result (λ places. AreKnown (groups_in (map row_of rows.now)) standing.now places) }
{
    let mut known = Places::new(alloc);
    for place in 0..rows.len() {
        let group = &rows[place].group;
        if standing.has(&group.names) {
            known.put(shared(alloc, &group.names)?, place)?;
        }
    }
    Ok(known)
}

/// Those of these groups that don't stand.
pub(crate) fn dropped(
    alloc: Global,
    near: &[&[RcStr]],
    standing: &GroupSet,
) -> Result<Vec<Vec<RcStr>>, AllocError>
    ensures { IfOk result (λ v. all_groups v
        ≡ filter (λ g. not (is_one_of g standing.now)) (lent near.now)) }
{
    let mut dropped = Vec::new(alloc);
    for group in near {
        if !standing.has(group) {
            dropped.push(shared(alloc, group)?)?;
        }
    }
    Ok(dropped)
}

/// A row once more. It shares the texts of its names.
fn copied(alloc: Global, row: &TableRow) -> Result<TableRow, AllocError>
    ensures { IfOk result (λ copy. row_of copy ≡ row_of row.now) }
{
    Ok(TableRow {
        group: kishu_graph::Group {
            names: shared(alloc, &row.group.names)?,
        },
        version: row.version,
        place: row.place,
        len: row.len,
    })
}

/// Groups that are stored, and rows that are asked for.
#[derive(Drop)]
pub(crate) struct Parts {
    pub(crate) stored: Vec<StoredGroup>,
    pub(crate) asked: Vec<Asked>,
}

/// Of groups with their pictures those that are known in a table are asked for, and the others stored.
pub(crate) fn parted(
    alloc: Global,
    rows: &[TableRow],
    known: &Places,
    pictured: Vec<StoredGroup>,
) -> Result<Parts, AllocError>
    requires { (stand : List Group) × AreKnown (groups_in (map row_of rows.now)) stand known.now }
    ensures { IfOk result (λ p. (stand : List Group)
        → AreKnown (groups_in (map row_of rows.now)) stand known.now
        → IsParted (map row_of rows.now) stand (with_pictures pictured.items) p.stored.items p.asked.items) }
{
    let mut parted = Parts {
        stored: Vec::new(alloc),
        asked: Vec::new(alloc),
    };
    for group in pictured {
        match known.of(&group.names) {
            Some(place) => {
                let row = copied(alloc, &rows[place])?;
                let bytes = group.bytes;
                parted.asked.push(Asked { row, bytes })?;
            }
            None => parted.stored.push(group)?,
        }
    }
    Ok(parted)
}
