// The items of a list node.
ghost use Rattle.std.specs.Prelude.{◌≡◌, ◌++◌, ◌<◌, IsTrue, OnOk, length, map};
ghost use Rattle.kishu_meaning.specs.values.Nodes.{changed, on_list};
ghost use Rattle.kishu_meaning.specs.values.Sound.{are_sound};
ghost use Rattle.kishu_meaning.specs.values.Values.{value_of};

use kishu_heap::Heap;
use kishu_meaning::{NodeId, Value};
use std::alloc::AllocError;

/// Puts values behind a list's items, in order. Where memory runs out some of them may stand there.
pub fn push_all(id: NodeId, values: &[Value], heap: &mut Heap) -> Result<(), AllocError>
    requires id { id.0 < length heap.old }
    requires sound { IsTrue (are_sound (length heap.old) (map value_of values.now)) }
    ensures nodes { OnOk result (heap.new ≡ changed (on_list (λ items. items ++ map value_of values.now)) id.0 heap.old) }
    ensures long { length heap.new ≡ length heap.old }
{
    for i in 0..values.len() {
        heap.push(id, values[i].copied()?)?;
    }
    Ok(())
}
