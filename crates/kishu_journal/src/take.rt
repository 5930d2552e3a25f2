// What a record's head says, where the graph goes on with it.
ghost use Rattle.std.specs.Prelude.{◌≡◌, ◌<◌, ◌+◌, ◌^◌, true, false, Ok, None, IfOk, IfSome};
ghost use Rattle.kishu_record.specs.Entries.{entry_of, groups_of, all_stored_of};
ghost use Rattle.kishu_record.specs.Readings.{IsHead};
ghost use Rattle.kishu_store.specs.Groups.{AreGroups, AreStored};
ghost use Rattle.kishu_journal.specs.Following.{GoOn, GoOnWith, FitsNotWith, TakesHead, NoneFits};

use crate::Entry;
use crate::following::{add_counted, follow};
use crate::rows::rows_from;
use kishu_graph::Graph;
use kishu_record::{CommitHead, EntryFault, commit_in, decode};
use std::alloc::{AllocError, Global};

/// What the head of a record says whose body stands at a place, where the graph goes on with it; it is
/// changed so then. Else none, and the graph stays.
pub(crate) fn take_record(
    alloc: Global,
    graph: &mut Graph,
    body: u64,
    head: &[u8],
    pictures: u64,
) -> Result<Option<Entry>, AllocError>
    requires near { body < 2 ^ 63 }
    ensures head { IfOk result (λ o. IfSome o (λ e. IsHead head.now pictures (entry_of e))) }
    ensures made { IfOk result (λ o. IfSome o (λ e. GoOn graph.old body (entry_of e) graph.new)) }
    ensures none { result ≡ Ok None → NoneFits graph.old body head.now pictures }
{
    let entry = match decode(alloc, head, pictures) {
        Ok(entry) => entry,
        Err(EntryFault::NoEntry) => return Ok(None),
        Err(EntryFault::NoMemory) => return Err(AllocError),
    };
    if follow(alloc, graph, &entry, body)? {
        Ok(Some(entry))
    } else {
        Ok(None)
    }
}

/// Changes a graph by a commit, where the graph goes on with it: the pictures of its record lie one behind
/// another from a place on.
fn note_commit(
    alloc: Global,
    graph: &mut Graph,
    commit: &CommitHead,
    pictures: u64,
) -> Result<bool, AllocError>
    requires dropped { AreGroups (groups_of commit.now.dropped) }
    requires stored { AreStored (all_stored_of commit.now.stored) }
    requires near { pictures < 2 ^ 63 + 2 ^ 33 }
    ensures made { result ≡ Ok true → GoOnWith graph.old commit.now pictures graph.new }
    ensures refused { result ≡ Ok false → FitsNotWith graph.old commit.now pictures }
{
    if commit.parent != graph.head().commit {
        return Ok(false);
    }
    if !graph.fits(&commit.dropped, &commit.stored)? {
        return Ok(false);
    }
    let rows = rows_from(alloc, graph.commits(), pictures, &commit.stored)?;
    add_counted(
        graph,
        commit.profile,
        commit.cells,
        commit.first,
        &commit.dropped,
        &rows,
    )
}

/// Changes a graph by what the head of a record says whose body stands at a place, where the graph goes on
/// with it, and answers whether it does. The texts of a commit's cells take no memory.
pub(crate) fn note_record(
    alloc: Global,
    graph: &mut Graph,
    body: u64,
    head: &[u8],
    pictures: u64,
) -> Result<bool, AllocError>
    requires near { body < 2 ^ 63 }
    ensures made { result ≡ Ok true → TakesHead graph.old body head.now pictures graph.new }
    ensures none { result ≡ Ok false → NoneFits graph.old body head.now pictures }
{
    let Ok(found) = commit_in(alloc, head, pictures) else {
        return Err(AllocError);
    };
    if let Some(commit) = found {
        return note_commit(alloc, graph, &commit, body + 4 + head.len() as u64);
    }
    let taken = take_record(alloc, graph, body, head, pictures)?;
    Ok(taken.is_some())
}
