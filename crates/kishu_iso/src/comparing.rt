// Whether two states are the same.
ghost use Rattle.std.specs.Prelude.{◌≡◌, ◌+◌, ◌*◌, IsTrue, IfOk, OnOk, length};
ghost use Rattle.std.specs.Bool.{Decides};
ghost use Rattle.kishu_meaning.specs.values.Sound.{are_sound_names};
ghost use Rattle.kishu_heap.specs.Costs.{Reads};
ghost use Rattle.kishu_objects.specs.Fits.{StateFits};
ghost use Rattle.kishu_objects.specs.Picture as states;
ghost use Rattle.kishu_objects.specs.Same.{Same};
ghost use Rattle.kishu_objects.specs.States.{IsSoundState};
ghost use Rattle.kishu_picture.specs.Held.{held};
ghost use Rattle.kishu_iso.specs.Wholes.{HasShortPicture, reached_nodes, whole_bytes};

use kishu_heap::Heap;
use kishu_meaning::Steps;
use kishu_names::Names;
use kishu_picture::picture;
use std::alloc::{AllocError, Global};
use std::sync::ledger::Ledger;

/// The picture of all names.
fn whole_picture<L: Ledger>(
    alloc: Global,
    heap: &Heap,
    names: &Names,
    steps: &mut Steps<L>,
) -> Result<Vec<u8>, AllocError>
    requires sound { IsTrue (are_sound_names (length heap.now) names.now.bound) }
    requires short { HasShortPicture (held heap.now names.now) }
    ensures bytes { IfOk result (λ v. v.items ≡ whole_bytes (held heap.now names.now)) }
    ensures fits { OnOk result (StateFits (states.whole (held heap.now names.now))) }
    ensures sound { IsSoundState (held heap.now names.now) }
    ensures reads { Reads (2 * reached_nodes (held heap.now names.now)) steps.old steps.new }
{
    // By its length a heap also tells that its nodes lead to nodes.
    let _nodes = heap.len();
    let all = names.names()?;
    picture(alloc, heap, names, all.as_slice(), steps)
}

/// Whether two heaps with their names hold the same state: the same names are bound, each path from a
/// name reaches values that show the same in both, or nothing in either, and two paths reach one node in
/// the one where they do in the other. So two equal lists aren't the same as one list under two names.
///
/// The nodes of the names are there, and the picture of all names has fewer than 2^32 bytes on either
/// side. Each node that the names reach takes at most two steps of the counter. An error says that no
/// memory is left.
pub fn same<L: Ledger>(
    alloc: Global,
    a: &Heap,
    an: &Names,
    b: &Heap,
    bn: &Names,
    steps: &mut Steps<L>,
) -> Result<bool, AllocError>
    requires sound { IsTrue (are_sound_names (length a.now) an.now.bound) }
    requires other_sound { IsTrue (are_sound_names (length b.now) bn.now.bound) }
    requires short { HasShortPicture (held a.now an.now) }
    requires other_short { HasShortPicture (held b.now bn.now) }
    ensures same { IfOk result (λ told. Decides told (Same (held a.now an.now) (held b.now bn.now))) }
    ensures reads { Reads (2 * (reached_nodes (held a.now an.now) + reached_nodes (held b.now bn.now)))
        steps.old steps.new }
{
    let one = whole_picture(alloc, a, an, steps)?;
    let other = whole_picture(alloc, b, bn, steps)?;
    Ok(one == other)
}
