// The pictures of groups, and their lengths.
ghost use Rattle.std.specs.Prelude.{◌≡◌, ◌≤◌, ◌*◌, IsTrue, IfOk, OnOk, length, map};
ghost use Rattle.kishu_meaning.specs.values.Sound.{are_sound_names};
ghost use Rattle.kishu_heap.specs.Costs.{Reads};
ghost use Rattle.kishu_objects.specs.Fits.{StateFits};
ghost use Rattle.kishu_objects.specs.Lists.{In};
ghost use Rattle.kishu_objects.specs.Picture.{picture};
ghost use Rattle.kishu_objects.specs.Sizes.{size_among, most_bytes};
ghost use Rattle.kishu_picture.specs.Held.{held, AreBound};
ghost use Rattle.kishu_picture.specs.Lengths.{capped};
ghost use Rattle.kishu_store.specs.Groups.{Group};
ghost use Rattle.kishu_delta.specs.Compared.{pictured, with_pictures};
ghost use Rattle.kishu_delta.specs.Deltas.{all_groups};
ghost use Rattle.kishu_delta.specs.Found.{group_of};
ghost use Rattle.kishu_delta.specs.Reaches.{nodes_among};

use crate::delta::StoredGroup;
use kishu_heap::Heap;
use kishu_meaning::Steps;
use kishu_names::Names;
use kishu_picture::{picture, picture_len};
use std::alloc::{AllocError, Global};
use std::rc::RcStr;
use std::sync::ledger::Ledger;

/// The groups with their pictures. Each node that one of them reaches takes two steps of the counter.
pub(crate) fn pictures<L: Ledger>(
    alloc: Global,
    heap: &Heap,
    names: &Names,
    groups: Vec<Vec<RcStr>>,
    steps: &mut Steps<L>,
) -> Result<Vec<StoredGroup>, AllocError>
    requires sound { IsTrue (are_sound_names (length heap.now) names.now.bound) }
    requires bound { (g : Group) → In g (all_groups groups) → AreBound names.now.bound g }
    requires small { size_among (all_groups groups) (held heap.now names.now) ≤ most_bytes }
    ensures pictures { IfOk result (λ v. with_pictures v.items
        ≡ pictured (held heap.now names.now) (all_groups groups)) }
    ensures fits { OnOk result ((g : Group) → In g (all_groups groups)
        → StateFits (picture (held heap.now names.now) g)) }
    ensures reads { Reads (2 * nodes_among (held heap.now names.now) (all_groups groups))
        steps.old steps.new }
{
    let mut pictured = Vec::new(alloc);
    for group in groups {
        let bytes = picture(alloc, heap, names, &group, steps)?;
        pictured.push(StoredGroup {
            names: group,
            bytes,
        })?;
    }
    Ok(pictured)
}

/// The bytes of the pictures of groups, and 2^64-1 where there are more. Each node that one of them
/// reaches takes two steps of the counter at most.
pub(crate) fn lengths<L: Ledger>(
    alloc: Global,
    heap: &Heap,
    names: &Names,
    groups: &[Vec<RcStr>],
    steps: &mut Steps<L>,
) -> Result<u64, AllocError>
    requires sound { IsTrue (are_sound_names (length heap.now) names.now.bound) }
    ensures len { IfOk result
        (λ n. n ≡ capped (size_among (map group_of groups.now) (held heap.now names.now))) }
    ensures reads { Reads (2 * nodes_among (held heap.now names.now) (map group_of groups.now))
        steps.old steps.new }
{
    let mut total = 0u64;
    for group in groups {
        let len = picture_len(alloc, heap, names, group, steps)?;
        total = total.saturating_add(len);
    }
    Ok(total)
}
