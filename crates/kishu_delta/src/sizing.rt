// How many bytes a state takes.
ghost use Rattle.std.specs.Prelude.{◌≡◌, ◌*◌, IsTrue, IfOk, length};
ghost use Rattle.kishu_meaning.specs.values.Sound.{are_sound_names};
ghost use Rattle.kishu_heap.specs.Costs.{Reads};
ghost use Rattle.kishu_history.specs.Touched.{untouched, size_told};
ghost use Rattle.kishu_objects.specs.Picture.{order};
ghost use Rattle.kishu_picture.specs.Held.{held};
ghost use Rattle.kishu_picture.specs.Lengths.{capped};
ghost use Rattle.kishu_store.specs.Tables.{bytes_in};
ghost use Rattle.kishu_graph.specs.Tables.{table_of_rows};
ghost use Rattle.kishu_delta.specs.Deltas.{touched_now};

use crate::picturing::lengths;
use crate::sets::NameSet;
use crate::touching::{accessed_names, classes_touched, groups_near, holds_any};
use kishu_graph::Table;
use kishu_heap::Heap;
use kishu_meaning::Steps;
use kishu_names::Names;
use std::alloc::{AllocError, Global};
use std::sync::ledger::Ledger;

/// The bytes of the rows that hold none of these names, and 2^64-1 where there are more.
fn untouched_len(table: &Table, accessed: &NameSet) -> u64
    ensures { result ≡ capped (bytes_in (untouched (table_of_rows table.now) accessed.now)) }
{
    let mut total = 0u64;
    for row in &table.rows {
        if !holds_any(accessed, &row.group.names) {
            total = total.saturating_add(row.len);
        }
    }
    total
}

/// How many bytes the state takes after cells whose accessed names are recorded, told by the table from
/// before them: those of its rows that hold no accessed name, and those of the pictures of the classes
/// of the touched names; 2^64-1 where there are more.
///
/// The nodes of the names are there. Each node that the touched names reach takes at most four steps of
/// the counter, and no other is looked at. An error says that no memory is left.
pub fn state_len<L: Ledger>(
    alloc: Global,
    table: &Table,
    heap: &Heap,
    names: &Names,
    steps: &mut Steps<L>,
) -> Result<u64, AllocError>
    requires sound { IsTrue (are_sound_names (length heap.now) names.now.bound) }
    ensures len { IfOk result (λ n. n
        ≡ capped (size_told (table_of_rows table.now) names.now.accessed (held heap.now names.now))) }
    ensures reads { Reads
        (4 * length (order (held heap.now names.now) (touched_now table.now heap.now names.now)))
        steps.old steps.new }
{
    let accessed = accessed_names(alloc, names)?;
    let near = groups_near(alloc, table, &accessed)?;
    let classes = classes_touched(alloc, &near, heap, names, steps)?;
    let pictured = lengths(alloc, heap, names, &classes, steps)?;
    Ok(untouched_len(table, &accessed).saturating_add(pictured))
}
