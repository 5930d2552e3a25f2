// The marks of a walk.
ghost use Rattle.std.specs.Prelude.{◌≡◌, ◌<◌, IfOk, OnOk, Some, length, map, slice_get};
ghost use Rattle.kishu_meaning.specs.values.Values.{value_of};
ghost use Rattle.kishu_heap.specs.Cells.{node_of};
ghost use Rattle.kishu_objects.specs.Shape.{children};
ghost use Rattle.kishu_objects.specs.Picture.{number, numbers};
ghost use Rattle.kishu_groups.specs.Marks.{AreMarks, Keeps, Notes, attr_values, entry_values, marks_of, note, unmarked};

use crate::classes::Classes;
use indexmap::{IndexMap, IndexSet};
use kishu_hash::NearHash;
use kishu_heap::Node;
use kishu_meaning::{Key, Value};
use std::alloc::{AllocError, Global};
use std::rc::RcStr;

/// The nodes that were met, in order, the number of the name from which each was met first, and
/// which of these numbers belong together.
#[derive(Drop)]
pub(crate) struct Marks {
    pub(crate) found: IndexSet<u32, NearHash>,
    pub(crate) labels: Vec<usize>,
    pub(crate) classes: Classes,
}

impl Marks {
    /// No node was met, and each of so many numbers is in a class by itself.
    pub(crate) fn new(alloc: Global, count: usize) -> Result<Marks, AllocError>
        ensures { IfOk result (λ m. marks_of m ≡ unmarked count) }
    {
        let classes = Classes::new(alloc, count)?;
        Ok(Marks {
            found: IndexSet::with_hasher(alloc, NearHash::new()),
            labels: Vec::new(alloc),
            classes,
        })
    }

    /// The number of the name from which the node at a place was met.
    pub(crate) fn label_at(&self, place: usize) -> usize
        requires { place < length self.now.labels.items }
        ensures { slice_get self.now.labels.items place ≡ Some result }
    {
        self.labels[place]
    }

    /// Notes that a node is met from the name of a number. An error says that no memory is left.
    fn note_node(&mut self, node: u32, label: usize) -> Result<(), AllocError>
        requires marks { AreMarks (marks_of self.old) }
        requires label { label < length self.old.classes }
        ensures { OnOk result (marks_of self.new ≡ note label node (marks_of self.old)) }
    {
        let (place, is_new) = self.found.insert_full(node)?;
        if is_new {
            self.labels.push(label)?;
        } else {
            self.classes.join(self.labels[place], label);
        }
        Ok(())
    }

    /// Notes the node that a value is, where it is one.
    pub(crate) fn note(&mut self, value: &Value, label: usize) -> Result<(), AllocError>
        requires marks { AreMarks (marks_of self.old) }
        requires label { label < length self.old.classes }
        ensures noted { OnOk result (Notes label (number (value_of value.now)) self.old self.new) }
        ensures kept { OnOk result (Keeps self.old self.new) }
    {
        match value {
            Value::Node(id) => self.note_node(id.0, label),
            Value::None
            | Value::Bool(_)
            | Value::Int(_)
            | Value::Text(_)
            | Value::Range(..)
            | Value::Builtin(_)
            | Value::Class(_) => Ok(()),
        }
    }

    fn note_values(&mut self, values: &[Value], label: usize) -> Result<(), AllocError>
        requires marks { AreMarks (marks_of self.old) }
        requires label { label < length self.old.classes }
        ensures noted { OnOk result (Notes label (numbers (map value_of values.now)) self.old self.new) }
        ensures kept { OnOk result (Keeps self.old self.new) }
    {
        for value in values {
            self.note(value, label)?;
        }
        Ok(())
    }

    fn note_entries(
        &mut self,
        entries: &IndexMap<Key, Value>,
        label: usize,
    ) -> Result<(), AllocError>
        requires marks { AreMarks (marks_of self.old) }
        requires label { label < length self.old.classes }
        ensures noted { OnOk result (
            Notes label (numbers (entry_values entries.now.entries)) self.old self.new) }
        ensures kept { OnOk result (Keeps self.old self.new) }
    {
        for i in 0..entries.len() {
            let Some((_, value)) = entries.get_index(i) else {
                unreachable!()
            };
            self.note(value, label)?;
        }
        Ok(())
    }

    fn note_attributes(
        &mut self,
        attributes: &IndexMap<RcStr, Value>,
        label: usize,
    ) -> Result<(), AllocError>
        requires marks { AreMarks (marks_of self.old) }
        requires label { label < length self.old.classes }
        ensures noted { OnOk result (
            Notes label (numbers (attr_values attributes.now.entries)) self.old self.new) }
        ensures kept { OnOk result (Keeps self.old self.new) }
    {
        for i in 0..attributes.len() {
            let Some((_, value)) = attributes.get_index(i) else {
                unreachable!()
            };
            self.note(value, label)?;
        }
        Ok(())
    }

    /// Notes the nodes to which a node leads.
    pub(crate) fn note_children(&mut self, node: &Node, label: usize) -> Result<(), AllocError>
        requires marks { AreMarks (marks_of self.old) }
        requires label { label < length self.old.classes }
        ensures noted { OnOk result (Notes label (numbers (children (node_of node.now))) self.old self.new) }
        ensures kept { OnOk result (Keeps self.old self.new) }
    {
        match node {
            Node::List(items) => self.note_values(items.as_slice(), label),
            Node::Tuple(items) => self.note_values(items.as_slice(), label),
            Node::Dict(entries) => self.note_entries(entries, label),
            Node::Object(attributes) => self.note_attributes(attributes, label),
            Node::Function(function) => self.note_values(function.defaults.as_slice(), label),
            Node::Exception(_, arguments) => self.note_values(arguments.as_slice(), label),
        }
    }
}
