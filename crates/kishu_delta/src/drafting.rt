// What cells changed of a table, as far as digests tell it.
ghost use Rattle.std.specs.Prelude.{◌≡◌, ◌≤◌, ◌*◌, IsTrue, IfOk, length};
ghost use Rattle.kishu_meaning.specs.values.Sound.{are_sound_names};
ghost use Rattle.kishu_heap.specs.Costs.{Reads};
ghost use Rattle.kishu_objects.specs.Picture.{order};
ghost use Rattle.kishu_objects.specs.Sizes.{size_among, most_bytes};
ghost use Rattle.kishu_picture.specs.Held.{held};
ghost use Rattle.kishu_graph.specs.Tables.{table_of_rows};
ghost use Rattle.kishu_delta.specs.Compared.{asked_from, dropped_from, stored_from, with_pictures};
ghost use Rattle.kishu_delta.specs.Near.{lent};
ghost use Rattle.kishu_delta.specs.Deltas.{IsDraft, classes_now, drafted_asked, drafted_dropped, drafted_stored, rows_asked, table_groups, touched_now};
ghost use Rattle.kishu_objects.specs.Lists.{In};
ghost use Rattle.kishu_store.specs.Tables.{Row};

use crate::asking::Draft;
use crate::comparing::{Parts, dropped, known, parted, standing};
use crate::delta::StoredGroup;
use crate::kept::Kept;
use crate::picturing::pictures;
use crate::touching::{accessed_names, classes_touched, groups_near};
use kishu_graph::Table;
use kishu_heap::Heap;
use kishu_meaning::Steps;
use kishu_names::Names;
use std::alloc::{AllocError, Global};
use std::rc::RcStr;
use std::sync::ledger::Ledger;

/// What changes of the table, where these are its groups that hold an accessed name, and the classes of
/// the touched names with their pictures.
fn compared(
    alloc: Global,
    kept: &Kept,
    table: &Table,
    near: &[&[RcStr]],
    pictured: Vec<StoredGroup>,
) -> Result<Draft, AllocError>
    ensures dropped { IfOk result (λ d. drafted_dropped d
        ≡ dropped_from kept.now (with_pictures pictured.items) (lent near.now)) }
    ensures stored { IfOk result (λ d. drafted_stored d
        ≡ stored_from kept.now (with_pictures pictured.items) (table_groups table.now)) }
    ensures asked { IfOk result (λ d. drafted_asked d
        ≡ asked_from kept.now (with_pictures pictured.items) (table_groups table.now)) }
    ensures rows { IfOk result (λ d. (r : Row) → In r (rows_asked d) → In r (table_of_rows table.now)) }
{
    let standing = standing(alloc, kept, &pictured)?;
    let known = known(alloc, &table.rows, &standing)?;
    let dropped = dropped(alloc, near, &standing)?;
    let Parts { stored, asked } = parted(alloc, &table.rows, &known, pictured)?;
    Ok(Draft {
        dropped,
        stored,
        asked,
    })
}

/// What the cells changed whose accessed names are recorded, told by the table from before them and the
/// digests that are kept: the groups that leave the table and those that come in with their pictures, as
/// far as digests tell them apart, and the rows whose stored pictures `settle` asks for.
///
/// A group of the table leaves it where it holds an accessed name, unless it is a class of the touched
/// names with the digest and the length that are kept of it; such a group is asked for, and the other
/// classes come in. Touched are the accessed names and those of the table's groups that hold one, as far as
/// they are bound now.
///
/// The nodes of the names are there, and the pictures of the classes take at most 2^28 bytes. Each node
/// that the touched names reach takes at most four steps of the counter, and no other is looked at. An
/// error says that no memory is left.
pub fn draft<L: Ledger>(
    alloc: Global,
    kept: &Kept,
    table: &Table,
    heap: &Heap,
    names: &Names,
    steps: &mut Steps<L>,
) -> Result<Draft, AllocError>
    requires sound { IsTrue (are_sound_names (length heap.now) names.now.bound) }
    requires small { size_among (classes_now table.now heap.now names.now) (held heap.now names.now)
        ≤ most_bytes }
    ensures draft { IfOk result (λ d. IsDraft kept.now (table_of_rows table.now) names.now.accessed
        (held heap.now names.now) d) }
    ensures reads { Reads
        (4 * length (order (held heap.now names.now) (touched_now table.now heap.now names.now)))
        steps.old steps.new }
{
    let accessed = accessed_names(alloc, names)?;
    let near = groups_near(alloc, table, &accessed)?;
    let classes = classes_touched(alloc, &near, heap, names, steps)?;
    let pictured = pictures(alloc, heap, names, classes, steps)?;
    let draft = compared(alloc, kept, table, &near, pictured)?;
    Ok(draft)
}
