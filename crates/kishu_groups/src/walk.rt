// The walk over what names reach.
ghost use Rattle.std.specs.Prelude.{◌≡◌, ◌<◌, IsTrue, IfOk, OnOk, length, map};
ghost use Rattle.std.specs.Rc.{rc_str_bytes};
ghost use Rattle.kishu_meaning.specs.values.Sound.{are_sound_names, is_sound_heap};
ghost use Rattle.kishu_objects.specs.Lists.{Rise};
ghost use Rattle.kishu_groups.specs.Held.{held, ReadsNodes};
ghost use Rattle.kishu_groups.specs.Marks.{AreMarks, Keeps, Notes, NotesNames, marks_of, nodes_under};
ghost use Rattle.kishu_groups.specs.Gathering.{Classifies};

use crate::classes::Classes;
use crate::marks::Marks;
use kishu_heap::Heap;
use kishu_meaning::{NodeId, Steps};
use kishu_names::Names;
use std::alloc::{AllocError, Global};
use std::rc::RcStr;
use std::sync::ledger::Ledger;

/// Notes the node that the value of a name is, where it is one.
fn note_name(marks: &mut Marks, names: &Names, name: &str, label: usize) -> Result<(), AllocError>
    requires marks { AreMarks (marks_of marks.old) }
    requires label { label < length marks.old.classes }
    ensures noted { OnOk result (Notes label (nodes_under name.now names.now.bound) marks.old marks.new) }
    ensures kept { OnOk result (Keeps marks.old marks.new) }
{
    match names.peek(name) {
        Some(value) => marks.note(value, label),
        None => Ok(()),
    }
}

/// Notes the nodes that the values of names are, each from its name.
fn note_names(marks: &mut Marks, names: &Names, of: &[RcStr]) -> Result<(), AllocError>
    requires marks { AreMarks (marks_of marks.old) }
    requires many { length marks.old.classes ≡ length of.now }
    ensures noted { OnOk result (NotesNames names.now.bound (map rc_str_bytes of.now) marks.old marks.new) }
    ensures kept { OnOk result (Keeps marks.old marks.new) }
{
    for i in 0..of.len() {
        note_name(marks, names, of[i].as_str(), i)?;
    }
    Ok(())
}

/// Which names come to one another, by their numbers in the list. Each node that they reach takes
/// one step of the counter.
pub(crate) fn classified<L: Ledger>(
    alloc: Global,
    heap: &Heap,
    names: &Names,
    of: &[RcStr],
    steps: &mut Steps<L>,
) -> Result<Classes, AllocError>
    requires sound { IsTrue (are_sound_names (length heap.now) names.now.bound) }
    requires order { Rise (map rc_str_bytes of.now) }
    ensures classes { IfOk result (Classifies (held heap.now names.now) (map rc_str_bytes of.now)) }
    ensures sound { OnOk result (IsTrue (is_sound_heap heap.now)) }
    ensures reads { ReadsNodes (held heap.now names.now) (map rc_str_bytes of.now) steps.old steps.new }
{
    let mut marks = Marks::new(alloc, of.len())?;
    note_names(&mut marks, names, of)?;
    for i in 0..heap.len() {
        let Some(id) = marks.found.get_index(i as usize) else {
            return Ok(marks.classes);
        };
        let node = heap.node(NodeId(*id), steps);
        let label = marks.label_at(i as usize);
        marks.note_children(node, label)?;
    }
    Ok(marks.classes)
}
