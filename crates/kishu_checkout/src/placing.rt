// The loading of rows' pictures.
ghost use Rattle.std.specs.Prelude.{◌≡◌, ◌+◌, ◌<◌, ◌^◌, ℕ, [], IfOk, OnOk, IsErrOf, length, map};
ghost use Rattle.kishu_graph.specs.Kept.{row_of};
ghost use Rattle.kishu_loading.specs.Loaded.{held, KeepsNodes, LeadsWithin};
ghost use Rattle.kishu_checkout.specs.Fetched.{contents, taken_by};
ghost use Rattle.kishu_checkout.specs.Groups.{IsLoadedAs, IsNoneOf};
ghost use Rattle.kishu_checkout.specs.Placed.{ArePlaced, FailsAt};
ghost use Rattle.kishu_checkout.specs.declared.fault.CheckoutFault.TheVariants.{Damaged, DiskFault};

use crate::fault::CheckoutFault;
use crate::group::load_group;
use kishu_graph::TableRow;
use kishu_heap::Heap;
use kishu_names::Names;
use std::alloc::Global;

/// Loads the picture of a row's group behind a heap's nodes, and binds the group's names.
fn place_row(
    alloc: Global,
    row: &TableRow,
    bytes: &[u8],
    heap: &mut Heap,
    names: &mut Names,
) -> Result<(), CheckoutFault>
    requires room { length heap.old + length bytes.now + 1 < 2 ^ 32 }
    ensures loaded { OnOk result (IsLoadedAs (row_of row.now).group bytes.now
        (held heap.old names.old) (held heap.new names.new)) }
    ensures accessed { names.new.accessed ≡ names.old.accessed }
    ensures nodes { KeepsNodes heap.old heap.new }
    ensures sound { LeadsWithin (held heap.old names.old) → LeadsWithin (held heap.new names.new) }
    ensures damaged { (at : ℕ) → IsErrOf result (Damaged at)
        → IsNoneOf (row_of row.now).group bytes.now × (at ≡ row.now.place) }
    ensures no_disk { IsErrOf result DiskFault → ⊥ }
{
    if !load_group(alloc, bytes, &row.group.names, heap, names)? {
        return Err(CheckoutFault::Damaged { at: row.place });
    }
    Ok(())
}

/// Loads the pictures of rows behind a heap's nodes, one after another, and binds the groups' names.
pub(crate) fn place_rows(
    alloc: Global,
    rows: &[TableRow],
    pictures: &[Vec<u8>],
    heap: &mut Heap,
    names: &mut Names,
) -> Result<(), CheckoutFault>
    requires one { length pictures.now ≡ length rows.now }
    requires room { length heap.old + taken_by (contents pictures.now) + 1 < 2 ^ 32 }
    ensures placed { OnOk result (ArePlaced [] (map row_of rows.now) (contents pictures.now)
        (held heap.old names.old) (held heap.new names.new)) }
    ensures accessed { names.new.accessed ≡ names.old.accessed }
    ensures nodes { KeepsNodes heap.old heap.new }
    ensures sound { LeadsWithin (held heap.old names.old) → LeadsWithin (held heap.new names.new) }
    ensures damaged { (at : ℕ) → IsErrOf result (Damaged at)
        → FailsAt (map row_of rows.now) (contents pictures.now) at }
    ensures no_disk { IsErrOf result DiskFault → ⊥ }
{
    for i in 0..rows.len() {
        place_row(alloc, &rows[i], pictures[i].as_slice(), heap, names)?;
    }
    Ok(())
}
