// What cells changed of a table, told by a draft and the stored pictures of the rows that it asks for.
ghost use Rattle.std.specs.Prelude.{◌≡◌, ℕ, List, Option, IfOk, OnOk, length, map};
ghost use Rattle.kishu_meaning.specs.values.Values.{State};
ghost use Rattle.kishu_history.specs.Live.{IsLive};
ghost use Rattle.kishu_history.specs.Stored.{Stored};
ghost use Rattle.kishu_history.specs.Tables.{IsTable};
ghost use Rattle.kishu_history_laws.specs.cells.Led.{LeadsTo};
ghost use Rattle.kishu_objects.specs.Bytes.{picture_bytes};
ghost use Rattle.kishu_store.specs.Groups.{Group};
ghost use Rattle.kishu_store.specs.Tables.{Row, Table, after, groups_in};
ghost use Rattle.kishu_delta.specs.Compared.{Forgets, Holds, HoldsHalves, half, asked_pictures, contents, differing, groups_with, with_pictures};
ghost use Rattle.kishu_delta.specs.Deltas.{IsDraft, Joins, all_groups, change_with, groups_asked, groups_stored};
ghost use Rattle.kishu_delta.specs.Found.{group_of};
ghost use Rattle.kishu_delta.specs.Kept.{KeepsDigests, KeepsJust, KeepsJustThese};
ghost use Rattle.kishu_delta.specs.Settled.{IsExact, IsExactAmong, IsExactAnyhow, IsFitting, IsLeft, IsSettled, IsSettledAnyhow, IsToldFrom};

use crate::asking::{Asked, Draft};
use crate::delta::{Delta, StoredGroup};
use crate::kept::Kept;
use crate::merging::{merged_groups, merged_stored};
use crate::sets::shared;
use std::alloc::{AllocError, Global};
use std::rc::RcStr;

/// Those of the rows' groups whose picture isn't the one that was handed for the row.
fn differing(
    alloc: Global,
    asked: Vec<Asked>,
    handed: &[Vec<u8>],
) -> Result<Vec<StoredGroup>, AllocError>
    requires { length handed.now ≡ length asked.items }
    ensures { IfOk result (λ v. with_pictures v.items
        ≡ differing (asked_pictures asked.items) (contents handed.now)) }
{
    let mut differing = Vec::new(alloc);
    for (asked, bytes) in asked.into_iter().zip(handed) {
        if asked.bytes.as_slice() != bytes.as_slice() {
            differing.push(StoredGroup {
                names: asked.row.group.names,
                bytes: asked.bytes,
            })?;
        }
    }
    Ok(differing)
}

/// The names of groups once more. They share their texts.
fn names_of(alloc: Global, groups: &[StoredGroup]) -> Result<Vec<Vec<RcStr>>, AllocError>
    ensures { IfOk result (λ v. all_groups v ≡ groups_with (with_pictures groups.now)) }
{
    let mut names = Vec::with_capacity(alloc, groups.len())?;
    for group in groups {
        names.push(shared(alloc, &group.names)?)?;
    }
    Ok(names)
}

/// Forgets groups.
fn forget_all(kept: &mut Kept, groups: &[Vec<RcStr>])
    ensures { Forgets (map group_of groups.now) kept.old kept.new }
{
    for group in groups {
        kept.forget(group);
    }
}

/// Keeps the digests of the pictures of every second group, of which the first is one or not. Where one
/// group comes more than once, that of its last picture is kept.
fn hold_half(kept: &mut Kept, groups: &[StoredGroup], first: bool) -> Result<(), AllocError>
    ensures { OnOk result (Holds (half first (with_pictures groups.now)) kept.old kept.new) }
{
    let mut takes = first;
    for group in groups {
        if takes {
            kept.hold(&group.names, &group.bytes)?;
        }
        takes = !takes;
    }
    Ok(())
}

/// Keeps the digests of the pictures of groups, of every second one first: the nodes of a map are left
/// half empty by keys that come in order, and the others fill them.
fn hold_all(kept: &mut Kept, groups: &[StoredGroup]) -> Result<(), AllocError>
    ensures { OnOk result (HoldsHalves (with_pictures groups.now) kept.old kept.new) }
{
    hold_half(kept, groups, true)?;
    hold_half(kept, groups, false)
}

/// What cells changed: the groups that leave the table, and those that come in with their pictures, told by
/// a draft and the pictures that are stored for the rows that it asks for. Of these groups those join both
/// lists whose pictures aren't the stored ones. What was kept of the groups that leave is forgotten, and the
/// digests of the pictures are kept that come in.
///
/// - `stored`: a picture for each row that the draft asks for, in its order. Whatever they are, what is told
///   and kept then is so of the state that was drafted; where the digests that were kept are theirs and
///   those of the other rows' pictures, it is exact by these pictures.
///
/// An error says that no memory is left, and nothing of what is kept then.
pub fn settle(
    alloc: Global,
    kept: &mut Kept,
    draft: Draft,
    stored: &[Vec<u8>],
) -> Result<Delta, AllocError>
    requires one { length stored.now ≡ length draft.asked.items }

    // Whatever was drafted and is handed.
    ensures joins { IfOk result (λ d. Joins draft (contents stored.now) d) }

    // Whatever is handed with a draft of this table and state by what is kept.
    ensures settled { IfOk result (λ d. (t : Table) (accessed : List (List ℕ)) (s : State) → IsTable t
        → IsDraft kept.old t accessed s draft → IsSettled kept.old kept.new t accessed s d) }

    // So it is of any table, also of one that no records give, but for the order of what is dropped.
    ensures anyhow { IfOk result (λ d. (t : Table) (accessed : List (List ℕ)) (s : State)
        → IsDraft kept.old t accessed s draft → IsSettledAnyhow kept.old kept.new t accessed s d) }
    ensures listed { IfOk result (λ d. (t : Table) (accessed : List (List ℕ)) (s : State)
        → IsDraft kept.old t accessed s draft → (list : Group → List ℕ)
        → IsFitting kept.old t draft (contents stored.now) list
        → IsExactAnyhow kept.new t accessed s list d) }

    // For each list of pictures that fits, among the touched names; and against the whole state, where just
    // the digests of these pictures are kept, and the rest of the state is as it was.
    ensures among { IfOk result (λ d. (t : Table) (accessed : List (List ℕ)) (s : State) → IsTable t
        → IsDraft kept.old t accessed s draft → (list : Group → List ℕ)
        → IsFitting kept.old t draft (contents stored.now) list
        → IsExactAmong kept.new t accessed s list d) }
    ensures exact { IfOk result (λ d. (t : Table) (accessed : List (List ℕ)) (s : State) → IsTable t
        → IsDraft kept.old t accessed s draft → (list : Group → List ℕ)
        → IsFitting kept.old t draft (contents stored.now) list
        → KeepsJustThese kept.old (groups_in t) list → IsLeft t accessed s list
        → IsExact kept.new t s list d) }

    // Where the digests of a state before are kept and its pictures are handed, it is what this state tells.
    ensures told { IfOk result (λ d. (t : Table) (accessed : List (List ℕ)) (s before : State) → IsTable t
        → IsDraft kept.old t accessed s draft → KeepsDigests kept.old t before
        → contents stored.now ≡ map (picture_bytes before) (groups_asked draft)
        → IsToldFrom before t accessed s d) }

    // Where the table told the state before and the cells left alone what no accessed name reached, the
    // digests of the new table's groups in the state now are kept, whatever is handed; and just these, where
    // just those of the table's groups were. The state now may be only the same as the one that they left.
    ensures held { IfOk result (λ d. (t : Table) (accessed : List (List ℕ)) (s before : State) → IsTable t
        → IsDraft kept.old t accessed s draft → (file : Option (List ℕ)) → IsLive (Stored file) t before
        → LeadsTo accessed before s → KeepsDigests kept.old t before
        → (rows : List Row) → groups_in rows ≡ groups_stored d
        → KeepsDigests kept.new (after (change_with d rows) t) s) }
    ensures just { IfOk result (λ d. (t : Table) (accessed : List (List ℕ)) (s before : State) → IsTable t
        → IsDraft kept.old t accessed s draft → (file : Option (List ℕ)) → IsLive (Stored file) t before
        → LeadsTo accessed before s → KeepsJust kept.old (groups_in t) before
        → (rows : List Row) → groups_in rows ≡ groups_stored d
        → KeepsJust kept.new (groups_in (after (change_with d rows) t)) s) }
{
    let Draft {
        dropped,
        stored: new,
        asked,
    } = draft;
    let joining = differing(alloc, asked, stored)?;
    let joining_names = names_of(alloc, &joining)?;
    let dropped = merged_groups(alloc, dropped, joining_names)?;
    let stored = merged_stored(alloc, new, joining)?;
    forget_all(kept, &dropped);
    hold_all(kept, &stored)?;
    Ok(Delta { dropped, stored })
}
