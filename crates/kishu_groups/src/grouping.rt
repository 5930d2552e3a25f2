ghost use Rattle.std.specs.Prelude.{IsTrue, IfOk, length, map};
ghost use Rattle.std.specs.Rc.{rc_str_bytes};
ghost use Rattle.kishu_meaning.specs.values.Sound.{are_sound_names};
ghost use Rattle.kishu_objects.specs.Lists.{Rise};
ghost use Rattle.kishu_groups.specs.Held.{AreGroups, held, ReadsNodes};

use crate::gathering::gathered;
use crate::walk::classified;
use kishu_heap::Heap;
use kishu_meaning::Steps;
use kishu_names::Names;
use std::alloc::{AllocError, Global};
use std::rc::RcStr;
use std::sync::ledger::Ledger;

/// The groups of the names of a list: two names are in one group exactly where a chain of names of
/// the list leads from one to the other, each of which shares a node with the next. A name with a
/// plain value is a group by itself, and so is one that isn't bound.
///
/// The names of `of` stand in byte order, each once. So do the names of each group, and the groups
/// by their first names. The counter takes at most as many steps as there are nodes that the names
/// reach. An error says that no memory is left.
pub fn groups<L: Ledger>(
    alloc: Global,
    heap: &Heap,
    names: &Names,
    of: &[RcStr],
    steps: &mut Steps<L>,
) -> Result<Vec<Vec<RcStr>>, AllocError>
    requires sound { IsTrue (are_sound_names (length heap.now) names.now.bound) }
    requires order { Rise (map rc_str_bytes of.now) }
    ensures groups { IfOk result (AreGroups (held heap.now names.now) (map rc_str_bytes of.now)) }
    ensures reads { ReadsNodes (held heap.now names.now) (map rc_str_bytes of.now) steps.old steps.new }
{
    let mut classes = classified(alloc, heap, names, of, steps)?;
    gathered(alloc, of, &mut classes)
}
