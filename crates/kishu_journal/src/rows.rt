// The rows of the groups that a commit stores.
ghost use Rattle.std.specs.Prelude.{◌≡◌, ◌<◌, ◌≤◌, ◌+◌, ◌^◌, IfOk, map};
ghost use Rattle.std.specs.List.{sum};
ghost use Rattle.std.specs.Rc.{rc_str_bytes};
ghost use Rattle.kishu_graph.specs.Kept.{row_of};
ghost use Rattle.kishu_graph.specs.Tables.{stored_of};
ghost use Rattle.kishu_store.specs.Entries.{lengths_in, stored_in};
ghost use Rattle.kishu_store.specs.Histories.{before_pictures};
ghost use Rattle.kishu_store.specs.Limits.{most_pictured};
ghost use Rattle.kishu_store.specs.Rules.{IsEntry};
ghost use Rattle.kishu_store.specs.Tables.{rows_from};
ghost use Rattle.kishu_record.specs.Entries.{entry_of};
ghost use Rattle.kishu_journal.specs.Following.{lens_of};

use crate::Entry;
use kishu_graph::{Group, TableRow};
use kishu_record::head_len;
use std::alloc::{AllocError, Global};
use std::rc::RcStr;

/// The same names; their texts are shared.
fn shared(alloc: Global, names: &[RcStr]) -> Result<Vec<RcStr>, AllocError>
    ensures { IfOk result (λ v. map rc_str_bytes v.items ≡ map rc_str_bytes names.now) }
{
    let mut all = Vec::new(alloc);
    for name in names {
        all.push(name.clone()?)?;
    }
    Ok(all)
}

/// The rows of groups with the lengths of their pictures, which lie one behind another from a place on.
pub(crate) fn rows_from(
    alloc: Global,
    commit: u32,
    place: u64,
    stored: &[(Vec<RcStr>, u64)],
) -> Result<Vec<TableRow>, AllocError>
    requires { place + sum (lens_of stored.now) < 2 ^ 64 }
    ensures { IfOk result (λ v. map row_of v.items ≡ rows_from commit place (map stored_of stored.now)) }
{
    let mut rows = Vec::new(alloc);
    let mut at = place;
    for (names, len) in stored {
        rows.push(TableRow {
            group: Group {
                names: shared(alloc, names)?,
            },
            version: commit,
            place: at,
            len: *len,
        })?;
        at += *len;
    }
    Ok(rows)
}

/// The rows of the groups that a commit stores, by its number, the place of its record's body and what the
/// record says: the pictures lie one behind another behind the head. Of other records there are none.
///
/// Its conditions are that the entry keeps the rules of a record, with a head of fewer than 2^32 bytes,
/// that the place is below 2^63, and that the pictures take at most 2^28 bytes. An error says that no
/// memory is left.
pub fn rows_of(
    alloc: Global,
    commit: u32,
    body: u64,
    entry: &Entry,
) -> Result<Vec<TableRow>, AllocError>
    requires rules { IsEntry (entry_of entry.now) }
    requires near { body < 2 ^ 63 }
    requires small { sum (lengths_in (entry_of entry.now)) ≤ most_pictured }
    ensures { IfOk result (λ v. map row_of v.items ≡ rows_from commit (body + before_pictures (entry_of entry.now)) (stored_in (entry_of entry.now))) }
{
    match entry {
        Entry::Commit { stored, .. } => {
            rows_from(alloc, commit, body + 4 + head_len(entry), stored)
        }
        Entry::Move { .. } => Ok(Vec::new(alloc)),
        Entry::Name { .. } => Ok(Vec::new(alloc)),
    }
}
