// The picture of names as bytes.
ghost use Rattle.std.specs.Prelude.{◌≡◌, ◌*◌, ◌<◌, ◌^◌, ◌++◌, ℕ, IsTrue, IfOk, OnOk, length};
ghost use Rattle.kishu_meaning.specs.values.Sound.{are_sound_names};
ghost use Rattle.kishu_heap.specs.Costs.{Reads};
ghost use Rattle.kishu_names.specs.Record.{texts_of};
ghost use Rattle.kishu_objects.specs.Bytes.{many, row_bytes};
ghost use Rattle.kishu_objects.specs.Fits.{AllFit, NodeFits, StateFits};
ghost use Rattle.kishu_objects.specs.Lists.{AllDiffer, In};
ghost use Rattle.kishu_picture.specs.Held.{AreBound, order_of, picture_of, bytes_of};
ghost use Rattle.kishu_picture.specs.Rows.{AreClosed, AreMet, NamesFit, names_of, names_bytes, rows_of};

use crate::meeting::met;
use crate::parts::{put_name, put_number};
use crate::rows::put_row;
use crate::values::put_value;
use indexmap::IndexSet;
use kishu_hash::NearHash;
use kishu_heap::Heap;
use kishu_meaning::{NodeId, Steps};
use kishu_names::Names;
use std::alloc::{AllocError, Global};
use std::rc::RcStr;
use std::sync::ledger::Ledger;

/// Puts names with their values behind their number.
fn put_names(
    out: &mut Vec<u8>,
    names: &Names,
    group: &[RcStr],
    found: &IndexSet<u32, NearHash>,
    next: &mut usize,
) -> Result<(), AllocError>
    requires bound { AreBound names.now.bound (texts_of group.now) }
    requires met { AreMet names.now.bound (texts_of group.now) found.now.keys }
    requires differ { AllDiffer found.now.keys }
    requires few { length found.now.keys < 2 ^ 32 }
    requires short { length (names_bytes found.now.keys names.now group.now) < 2 ^ 32 }
    ensures bytes { OnOk result
        (out.new.items ≡ out.old.items ++ names_bytes found.now.keys names.now group.now) }
    ensures fits { OnOk result (NamesFit (names_of found.now.keys names.now.bound (texts_of group.now))) }
{
    put_number(out, group.len() as u32)?;
    for name in group {
        let Some(value) = names.peek(name.as_str()) else {
            unreachable!()
        };
        put_name(out, name.as_str())?;
        put_value(out, value, found, next)?;
    }
    Ok(())
}

/// Puts the nodes that were found behind their number, in their order. Each takes one step of the
/// counter.
fn put_rows<L: Ledger>(
    out: &mut Vec<u8>,
    heap: &Heap,
    found: &IndexSet<u32, NearHash>,
    next: &mut usize,
    steps: &mut Steps<L>,
) -> Result<(), AllocError>
    requires low { (i : ℕ) → In i found.now.keys → i < length heap.now }
    requires closed { AreClosed heap.now found.now.keys }
    requires differ { AllDiffer found.now.keys }
    requires few { length found.now.keys < 2 ^ 32 }
    requires short { length (many row_bytes (rows_of heap.now found.now.keys)) < 2 ^ 32 }
    ensures bytes { OnOk result
        (out.new.items ≡ out.old.items ++ many row_bytes (rows_of heap.now found.now.keys)) }
    ensures fits { OnOk result (AllFit NodeFits (rows_of heap.now found.now.keys)) }
    ensures reads { Reads (length found.now.keys) steps.old steps.new }
{
    put_number(out, found.len() as u32)?;
    for i in 0..found.len() {
        let Some(id) = found.get_index(i) else {
            unreachable!()
        };
        let node = heap.node(NodeId(*id), steps);
        put_row(out, node, found, next)?;
    }
    Ok(())
}

/// The picture of names, which are bound and stand in byte order, each once: their values, and the
/// nodes that they reach in the order of first meeting. Each node takes two steps of the counter.
/// An error says that no memory is left.
pub fn picture<L: Ledger>(
    alloc: Global,
    heap: &Heap,
    names: &Names,
    group: &[RcStr],
    steps: &mut Steps<L>,
) -> Result<Vec<u8>, AllocError>
    requires sound { IsTrue (are_sound_names (length heap.now) names.now.bound) }
    requires bound { AreBound names.now.bound (texts_of group.now) }
    requires short { length (bytes_of heap.now names.now group.now) < 2 ^ 32 }
    ensures bytes { IfOk result (λ v. v.items ≡ bytes_of heap.now names.now group.now) }
    ensures fits { OnOk result (StateFits (picture_of heap.now names.now group.now)) }
    ensures reads { Reads (2 * length (order_of heap.now names.now group.now)) steps.old steps.new }
{
    let found = met(alloc, heap, names, group, steps)?;
    let mut out = Vec::new(alloc);
    let mut next = 0;
    put_names(&mut out, names, group, &found, &mut next)?;
    put_rows(&mut out, heap, &found, &mut next, steps)?;
    Ok(out)
}
