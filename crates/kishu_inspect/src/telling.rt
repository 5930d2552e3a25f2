// What is bound.
ghost use Rattle.std.specs.Prelude.{◌≡◌, ◌≤◌, ◌<◌, ℕ, [], Some, IsTrue, IfOk, length, map};
ghost use Rattle.kishu_meaning.specs.values.Sound.{are_sound_names};
ghost use Rattle.kishu_model.specs.Values as model;
ghost use Rattle.kishu_model.specs.Values.{answer_of};
ghost use Rattle.kishu_model.specs.requests.Inspect.{told_at};
ghost use Rattle.kishu_objects.specs.Lists.{In};
ghost use Rattle.kishu_objects.specs.Picture.{whole};
ghost use Rattle.kishu_objects_laws.specs.WalkLaws.{noted_all};
ghost use Rattle.kishu_names.specs.Record.{texts_of};
ghost use Rattle.kishu_picture.specs.Held.{held};
ghost use Rattle.kishu_inspect.specs.Told.{numbers_of, names_told, rows_told};

use crate::rows::node_row;
use crate::texts::value_text;
use indexmap::IndexSet;
use kishu_heap::Heap;
use kishu_meaning::{NodeId, Steps};
use kishu_model::Answer;
use kishu_names::Names;
use kishu_picture::order;
use std::alloc::{AllocError, Global};
use std::rc::RcStr;
use std::sync::ledger::Ledger;

/// Nodes, each at its place.
fn places(alloc: Global, order: &[NodeId]) -> Result<IndexSet<u32>, AllocError>
    ensures { IfOk result (λ found. found.keys ≡ noted_all [] (numbers_of order.now)) }
{
    let mut found = IndexSet::new(alloc);
    for id in order {
        found.insert(id.0)?;
    }
    Ok(found)
}

/// The names of a list that are bound, each with the text of its value.
fn named(
    alloc: Global,
    names: &Names,
    all: &[RcStr],
    found: &IndexSet<u32>,
) -> Result<Vec<(RcStr, RcStr)>, AllocError>
    ensures { IfOk result
        (λ v. map model.named_of v.items ≡ names_told found.now.keys names.now (texts_of all.now)) }
{
    let mut told = Vec::new(alloc);
    for i in 0..all.len() {
        if let Some(value) = names.peek(all[i].as_str()) {
            told.push((all[i].clone()?, value_text(alloc, value, found)?))?;
        }
    }
    Ok(told)
}

/// The rows of the nodes that were found.
fn rows<L: Ledger>(
    alloc: Global,
    heap: &Heap,
    found: &IndexSet<u32>,
    steps: &mut Steps<L>,
) -> Result<Vec<Vec<RcStr>>, AllocError>
    requires low { (i : ℕ) → In i found.now.keys → i < length heap.now }
    ensures rows { IfOk result
        (λ v. map model.texts_of v.items ≡ rows_told found.now.keys heap.now found.now.keys) }
    ensures counted { steps.old ≤ steps.new }
{
    let mut rows = Vec::new(alloc);
    for i in 0..found.len() {
        let Some(id) = found.get_index(i) else {
            unreachable!()
        };
        let node = heap.node(NodeId(*id), steps);
        rows.push(node_row(alloc, node, found)?)?;
    }
    Ok(rows)
}

/// What is bound, told at this commit: the names in byte order, each with its value, and the nodes that
/// they reach, in the order of first meeting. A row has the word for the node's kind and then what the
/// node holds. A value that is a node is told as `#` with the number of its row, from 0, and any other
/// by its repr.
///
/// The nodes of the names are there. The counter takes a step each time that a node is looked at. An
/// error says that no memory is left.
pub fn told<L: Ledger>(
    alloc: Global,
    heap: &Heap,
    names: &Names,
    commit: u32,
    steps: &mut Steps<L>,
) -> Result<Answer, AllocError>
    requires sound { IsTrue (are_sound_names (length heap.now) names.now.bound) }
    ensures answer { IfOk result
        (λ a. answer_of a ≡ Some (told_at commit (whole (held heap.now names.now)))) }
    ensures counted { steps.old ≤ steps.new }
{
    // By its length a heap also tells that its nodes lead to nodes.
    let _nodes = heap.len();
    let all = names.names()?;
    let order = order(alloc, heap, names, &all, steps)?;
    let found = places(alloc, &order)?;
    Ok(Answer::Inspect {
        commit,
        names: named(alloc, names, &all, &found)?,
        nodes: rows(alloc, heap, &found, steps)?,
    })
}
