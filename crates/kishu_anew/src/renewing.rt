// A state that is loaded anew.
ghost use Rattle.std.specs.Prelude.{◌≡◌, ◌<◌, ◌≤◌, OnOk, length};
ghost use Rattle.kishu_loading.specs.Loaded.{held, LeadsWithin};
ghost use Rattle.kishu_anew.specs.Anew.{IsWhole, IsSmall, IsAnew, most_kept, loaded_anew};

use crate::pictures::{load_all, own_pictures};
use kishu_heap::Heap;
use kishu_meaning::Steps;
use kishu_names::Names;
use std::alloc::{AllocError, Global};
use std::sync::ledger::Ledger;

/// The most nodes with which a heap stays as it is.
const MOST_KEPT: u32 = 8_000_000;

/// Loads a state anew where its heap has more than 8,000,000 nodes: takes the pictures of its groups, begins
/// an empty heap and loads them. What is left is the same as before, sharing and identity included, and has
/// no more nodes, and at most 2^28; with at most 8,000,000 nodes nothing changes, and no step is counted. The
/// record of the names that were accessed stays.
///
/// Its conditions are that the state is one to which cells lead, or that was loaded, that each name leads to
/// a node that is there, and that the names can be cut into groups whose pictures have together at most 2^28
/// bytes.
///
/// The only error is want of memory: then nothing is said of what is bound, but that each name still leads to
/// a node that is there.
pub fn load_anew<L: Ledger>(
    alloc: Global,
    heap: &mut Heap,
    names: &mut Names,
    steps: &mut Steps<L>,
) -> Result<(), AllocError>
    requires whole { IsWhole (held heap.old names.old) }
    requires sound { LeadsWithin (held heap.old names.old) }
    requires small { IsSmall (held heap.old names.old) }
    ensures anew { OnOk result (IsAnew (held heap.old names.old) (held heap.new names.new)) }
    ensures loaded { OnOk result (most_kept < length heap.old
        → held heap.new names.new ≡ loaded_anew (held heap.old names.old)) }
    ensures accessed { OnOk result (names.new.accessed ≡ names.old.accessed) }
    ensures sound { LeadsWithin (held heap.new names.new) }
    ensures counted { steps.old ≤ steps.new }
    ensures still { length heap.old ≤ most_kept → steps.new ≡ steps.old }
{
    if heap.len() <= MOST_KEPT {
        return Ok(());
    }
    let pictures = own_pictures(alloc, heap, names, steps)?;
    let earlier = names.take_record();
    // The old heap is gone while the new one is loaded.
    *heap = Heap::new(alloc);
    *names = Names::new(alloc);
    load_all(alloc, &pictures, heap, names)?;
    names.join_record(earlier)
}
