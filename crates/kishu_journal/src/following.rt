// Which entries go on from a history, and what they change.
ghost use Rattle.std.specs.Prelude.{◌≡◌, ◌≢◌, ◌<◌, ◌^◌, length, map, true, false, Ok, IfErr, IsOk};
ghost use Rattle.std.specs.Rc.{rc_str_bytes};
ghost use Rattle.kishu_graph.specs.Tables.{change_with};
ghost use Rattle.kishu_graph.specs.declared.fault.GraphFault.TheVariants.{NoMemory};
ghost use Rattle.kishu_store.specs.Rules.{IsEntry};
ghost use Rattle.kishu_record.specs.Entries.{entry_of};
ghost use Rattle.kishu_journal.specs.Following.{GoOn, TakesCommit, TakesCells, TakesChange, HasNewest, FitsNext, IsFull, FitsNot};

use crate::Entry;
use crate::rows::rows_of;
use kishu_graph::{Graph, GraphFault, TableRow, line_of};
use kishu_language::Profile;
use kishu_record::MoveTo;
use std::alloc::{AllocError, Global};
use std::rc::RcStr;

/// Whether a change of a graph was made. Only want of memory is an error here.
fn is_made(change: Result<u32, GraphFault>) -> Result<bool, AllocError>
    ensures made { result ≡ Ok true → IsOk change }
    ensures refused { result ≡ Ok false → IfErr change (λ e. e ≢ NoMemory) × (IsOk change → ⊥) }
{
    match change {
        Ok(_) => Ok(true),
        Err(GraphFault::NoMemory) => Err(AllocError),
        Err(_) => Ok(false),
    }
}

/// Adds a commit of so many cells, the first with this text, to the head's, if there is room for a record.
/// Nothing is noted of it.
fn add_commit(
    graph: &mut Graph,
    profile: Profile,
    cells: u32,
    first: &str,
) -> Result<bool, AllocError>
    ensures made { result ≡ Ok true → TakesCells graph.old profile cells first.now graph.new }
    ensures newest { result ≡ Ok true → HasNewest graph.old graph.new }
    ensures refused { result ≡ Ok false → IsFull graph.old }
    ensures stays { result ≡ Ok false → graph.new ≡ graph.old }
{
    let line = line_of(first);
    is_made(graph.add_commit(profile, cells, line))
}

/// Adds a commit of so many cells, the first with this text, to the head's, if there is room for a record,
/// and notes the groups that it drops and the rows that it stores, which fit the head's table. Its number is
/// that of the commits so far.
pub(crate) fn add_counted(
    graph: &mut Graph,
    profile: Profile,
    cells: u32,
    first: &str,
    dropped: &[Vec<RcStr>],
    rows: &[TableRow],
) -> Result<bool, AllocError>
    requires fits { FitsNext graph.old (change_with dropped.now rows.now) }
    ensures made { result ≡ Ok true → TakesCells graph.old profile cells first.now graph.new }
    ensures noted { result ≡ Ok true → TakesChange graph.old (change_with dropped.now rows.now) graph.new }
    ensures refused { result ≡ Ok false → IsFull graph.old }
    ensures stays { result ≡ Ok false → graph.new ≡ graph.old }
{
    let number = graph.commits();
    if !add_commit(graph, profile, cells, first)? {
        return Ok(false);
    }
    graph.note_groups(number, dropped, rows)?;
    Ok(true)
}

/// The same with the texts of the cells, of which there is one at least.
fn add_with_groups(
    graph: &mut Graph,
    profile: Profile,
    cells: &[RcStr],
    dropped: &[Vec<RcStr>],
    rows: &[TableRow],
) -> Result<bool, AllocError>
    requires some { 0 < length cells.now }
    requires few { length cells.now < 2 ^ 32 }
    requires fits { FitsNext graph.old (change_with dropped.now rows.now) }
    ensures made { result ≡ Ok true → TakesCommit graph.old profile (map rc_str_bytes cells.now) graph.new }
    ensures noted { result ≡ Ok true → TakesChange graph.old (change_with dropped.now rows.now) graph.new }
    ensures refused { result ≡ Ok false → IsFull graph.old }
    ensures stays { result ≡ Ok false → graph.new ≡ graph.old }
{
    let first = cells[0].as_str();
    add_counted(graph, profile, cells.len() as u32, first, dropped, rows)
}

/// Changes a graph by the entry of a record that fits behind those before, and whose body stands at that
/// place. One that doesn't fit leaves the graph as it is.
///
/// An error says that no memory is left. Nothing is promised of the graph then: it may have a commit whose
/// groups aren't noted.
pub fn follow(
    alloc: Global,
    graph: &mut Graph,
    entry: &Entry,
    body: u64,
) -> Result<bool, AllocError>
    requires rules { IsEntry (entry_of entry.now) }
    requires near { body < 2 ^ 63 }
    ensures made { result ≡ Ok true → GoOn graph.old body (entry_of entry.now) graph.new }
    ensures refused { result ≡ Ok false → FitsNot graph.old body (entry_of entry.now) }
    ensures stays { result ≡ Ok false → graph.new ≡ graph.old }
{
    match entry {
        Entry::Commit {
            parent,
            profile,
            cells,
            dropped,
            stored,
        } => {
            if *parent != graph.head().commit || !graph.fits(dropped, stored)? {
                return Ok(false);
            }
            let rows = rows_of(alloc, graph.commits(), body, entry)?;
            add_with_groups(graph, *profile, cells, dropped, &rows)
        }
        Entry::Move { to } => match to {
            MoveTo::Commit(number) => is_made(graph.move_to_commit(*number)),
            MoveTo::Branch(title) => is_made(graph.move_to_branch(title.as_str())),
        },
        Entry::Name { name, commit } => is_made(graph.add_branch_at(name.as_str(), *commit)),
    }
}
