// The carrying out of plans.
ghost use Rattle.std.specs.Prelude.{◌≡◌, ◌⊎◌, ◌≤◌, ◌^◌, ℕ, IfOk, OnOk, IsErrOf, length};
ghost use Rattle.kishu_host.specs.Host.{ReadsMore};
ghost use Rattle.kishu_meaning.specs.moments.Accesses.{with_accesses};
ghost use Rattle.kishu_store.specs.Tables.{bytes_in};
ghost use Rattle.kishu_journal.specs.Facts.{DiskRises};
ghost use Rattle.kishu_journal.specs.Going.{IsQuiet, ReadsAtMost};
ghost use Rattle.kishu_loading.specs.Loaded.{held, KeepsNodes, LeadsWithin};
ghost use Rattle.kishu_checkout.specs.Fetched.{contents, taken_by, AreFetched, LacksBytes};
ghost use Rattle.kishu_checkout.specs.Loads.{AreCarried};
ghost use Rattle.kishu_checkout.specs.Pictures.{told_file, LacksAt, LacksSome};
ghost use Rattle.kishu_checkout.specs.Placed.{ArePlaced, FailsAt, IsCarriedOut, IsFirstDamage};
ghost use Rattle.kishu_checkout.specs.Plans.{groups_dropped, rows_loaded, names_of};
ghost use Rattle.kishu_checkout.specs.declared.fault.CheckoutFault.TheVariants.{Damaged, DiskFault};

use crate::fault::CheckoutFault;
use crate::fetching::fetch_rows;
use crate::placing::place_rows;
use crate::plans::Plan;
use crate::unbinding::unbind_groups;
use kishu_heap::Heap;
use kishu_host::Host;
use kishu_journal::Journal;
use kishu_names::Names;
use std::alloc::Global;

/// Reads the pictures of the rows that a plan loads, in its order, and no other byte.
///
/// - `Damaged`: the file ends before the picture of the row of that place does.
/// - `DiskFault`: a call of the host failed.
/// - `NoMemory`: there was no memory.
pub fn fetch<H: Host>(
    alloc: Global,
    host: &mut H,
    journal: &Journal,
    plan: &Plan,
) -> Result<Vec<Vec<u8>>, CheckoutFault>
    ensures fetched { IfOk result
        (λ v. AreFetched (H.state host.old) (rows_loaded plan.now) (contents v.items)) }
    ensures quiet { IsQuiet (H.state host.old) (H.state host.new) }
    ensures exact { OnOk result (ReadsMore (H.state host.old).reads (H.state host.new).reads
        (bytes_in (rows_loaded plan.now))) }
    ensures reads { ReadsAtMost (H.state host.old).reads (H.state host.new).reads
        (bytes_in (rows_loaded plan.now)) }
    ensures damaged { (at : ℕ) → IsErrOf result (Damaged at)
        → LacksBytes (H.state host.old) (rows_loaded plan.now) at }
    ensures disk_fault { IsErrOf result DiskFault → DiskRises (H.state host.old) (H.state host.new) }
{
    fetch_rows(alloc, host, journal, &plan.load)
}

/// Unbinds the names that a plan drops, and loads the pictures of the rows that it loads: there is one for
/// each row, in the plan's order. What is loaded comes behind the nodes that are there, which stay. The
/// unbound names count as accessed, and no others more than before.
///
/// The conditions are that there are at most 2^31 nodes, and together at most 2^28 bytes.
///
/// - `Damaged`: the bytes for the row of that place aren't a picture of its names; those for the rows before
///   it are.
/// - `NoMemory`: there was no memory.
///
/// After an error nothing is said of what is bound; the nodes that were there stay.
pub fn place(
    alloc: Global,
    plan: &Plan,
    pictures: &[Vec<u8>],
    heap: &mut Heap,
    names: &mut Names,
) -> Result<(), CheckoutFault>
    requires one { length pictures.now ≡ length plan.now.load.items }
    requires room { length heap.old ≤ 2 ^ 31 }
    requires small { taken_by (contents pictures.now) ≤ 2 ^ 28 }
    ensures placed { OnOk result
        (ArePlaced (groups_dropped plan.now) (rows_loaded plan.now) (contents pictures.now)
        (held heap.old names.old) (held heap.new names.new)) }
    ensures accessed { OnOk result (names.new.accessed
        ≡ with_accesses (names_of (groups_dropped plan.now)) names.old.accessed) }

    // However the call ends, the nodes that are there stay; and where each name leads to one that is there, it
    // does so afterwards too.
    ensures nodes { KeepsNodes heap.old heap.new }
    ensures sound { LeadsWithin (held heap.old names.old) → LeadsWithin (held heap.new names.new) }
    ensures damaged { (at : ℕ) → IsErrOf result (Damaged at)
        → FailsAt (rows_loaded plan.now) (contents pictures.now) at }
    ensures no_disk { IsErrOf result DiskFault → ⊥ }
{
    unbind_groups(&plan.drop, names)?;
    place_rows(alloc, &plan.load, pictures, heap, names)?;
    Ok(())
}

/// Carries a plan out: unbinds the names that it drops, and loads the pictures of the rows that it loads,
/// which it reads from the store, in its order. Just these bytes are read. What is loaded comes behind the
/// nodes that are there, which stay, as do other names. The unbound names count as accessed, and no others
/// more than before.
///
/// The conditions are that there are at most 2^31 nodes, and that the pictures have together at most 2^28
/// bytes.
///
/// - `Damaged`: at that place, which is that of a row to load, there is no picture of the row's names.
/// - `DiskFault`: a call of the host failed.
/// - `NoMemory`: there was no memory.
pub fn carry_out<H: Host>(
    alloc: Global,
    host: &mut H,
    journal: &Journal,
    plan: &Plan,
    heap: &mut Heap,
    names: &mut Names,
) -> Result<(), CheckoutFault>
    requires room { length heap.old ≤ 2 ^ 31 }
    requires small { bytes_in (rows_loaded plan.now) ≤ 2 ^ 28 }

    // It is what `fetch` and then `place` leave.
    ensures placed { OnOk result (IsCarriedOut (H.state host.old) (groups_dropped plan.now)
        (rows_loaded plan.now) (held heap.old names.old) (held heap.new names.new)) }

    // The pictures are those that are stored for the rows; names of other groups, and the nodes before, stay.
    ensures carried { OnOk result (AreCarried (told_file (H.state host.old)) (groups_dropped plan.now)
        (rows_loaded plan.now) (held heap.old names.old) (held heap.new names.new)) }
    ensures accessed { OnOk result (names.new.accessed
        ≡ with_accesses (names_of (groups_dropped plan.now)) names.old.accessed) }

    // However the call ends, the nodes that are there stay; and where each name leads to one that is there, it
    // does so afterwards too.
    ensures nodes { KeepsNodes heap.old heap.new }
    ensures sound { LeadsWithin (held heap.old names.old) → LeadsWithin (held heap.new names.new) }

    // The host is only read, and no byte but those of the pictures.
    ensures quiet { IsQuiet (H.state host.old) (H.state host.new) }
    ensures exact { OnOk result (ReadsMore (H.state host.old).reads (H.state host.new).reads
        (bytes_in (rows_loaded plan.now))) }
    ensures reads { ReadsAtMost (H.state host.old).reads (H.state host.new).reads
        (bytes_in (rows_loaded plan.now)) }

    // What is bound, and the nodes, change only once each picture is read; so not where the disk fails.
    ensures read_first { ((heap.new ≡ heap.old) × (names.new ≡ names.old))
        ⊎ ReadsMore (H.state host.old).reads (H.state host.new).reads (bytes_in (rows_loaded plan.now)) }
    ensures unread { IsErrOf result DiskFault → (heap.new ≡ heap.old) × (names.new ≡ names.old) }

    // Damage is told as `fetch` tells it, or as `place` does: at the place of a row to load, where no picture
    // is that may be loaded for it.
    ensures first { (at : ℕ) → IsErrOf result (Damaged at)
        → IsFirstDamage (H.state host.old) (rows_loaded plan.now) at }
    ensures damaged { (at : ℕ) → IsErrOf result (Damaged at)
        → LacksAt (H.state host.old) (rows_loaded plan.now) at }
    ensures undamaged { (at : ℕ) → IsErrOf result (Damaged at)
        → LacksSome (H.state host.old) (rows_loaded plan.now) }
    ensures disk_fault { IsErrOf result DiskFault → DiskRises (H.state host.old) (H.state host.new) }
{
    let pictures = fetch(alloc, host, journal, plan)?;
    place(alloc, plan, &pictures, heap, names)?;
    Ok(())
}
