// Loading a picture.
ghost use Rattle.std.specs.Prelude.{◌≡◌, ◌+◌, ◌<◌, ◌≤◌, ◌^◌, OnOk, IfOk, IfErr, length};
ghost use Rattle.kishu_reading.specs.FromBytes as reading;
ghost use Rattle.kishu_loading.specs.Fronts.{front_of, HasRoom, same, Reads, GoesOn};
ghost use Rattle.kishu_loading.specs.Told.{AreSoundNodes, AreSoundNames};
ghost use Rattle.kishu_loading.specs.Loaded.{held, IsLoaded, IsFault, KeepsNodes, KeepsOthers, LeadsWithin, IsUntouched};
ghost use Rattle.kishu_loading.specs.Moving.{moved_picture};
ghost use Rattle.kishu_loading.specs.Parts.{state_of};

use crate::cursor::{Cursor, Stop};
use crate::fault::LoadFault;
use crate::naming::bind;
use crate::values::Nodes;
use kishu_heap::{Heap, Node};
use kishu_meaning::Value;
use kishu_names::Names;
use std::alloc::Global;
use std::rc::RcStr;

/// What a picture holds, with the numbers of its nodes behind those of a heap.
#[derive(Drop)]
struct Picture {
    names: Vec<(RcStr, Value)>,
    nodes: Vec<Node>,
}

/// The number of nodes, which isn't less than that of those met.
fn node_count(cursor: &mut Cursor) -> Result<u32, Stop>
    ensures gives { Reads same reading.node_count cursor.old result cursor.new }
    ensures forward { GoesOn cursor.old result cursor.new }
    ensures enough { IfOk result (λ count. cursor.old.met ≤ count) }
{
    let fault = cursor.fault();
    let count = cursor.number()?;
    if count < cursor.met {
        return Err(fault);
    }
    Ok(count)
}

/// The whole picture, behind which nothing follows.
#[tactic(auto, unfolding(crate::specs::Moving::moved_picture), using(crate::proofs::SoundNames::names_more))]
fn whole_picture(alloc: Global, cursor: &mut Cursor, base: u32) -> Result<Picture, Stop>
    requires { HasRoom base (front_of cursor.old) }
    ensures gives { Reads state_of (moved_picture base) cursor.old result cursor.new }
    ensures names { IfOk result (λ p. AreSoundNames (base + length p.nodes.items) p.names) }
    ensures nodes { IfOk result (λ p. AreSoundNodes (base + length p.nodes.items) p.nodes) }
    ensures few { IfOk result (λ p. base + length p.nodes.items < 2 ^ 32) }
{
    let mut nodes = Nodes { base, count: None };
    let count = cursor.number()?;
    let names = nodes.names(alloc, cursor, count)?;
    let count = node_count(cursor)?;
    nodes.count = Some(count);
    let rows = nodes.rows(alloc, cursor, count)?;
    if !cursor.rest.is_empty() {
        return Err(cursor.fault());
    }
    Ok(Picture { names, nodes: rows })
}

/// Loads a picture: one node a row goes behind the heap's, in their order, and its names are bound to their
/// values there. Other names and nodes stay, and no access is recorded. The condition is that the number of
/// the heap's nodes and that of the bytes have a sum of less than 2^32 - 1.
///
/// - `Picture`: the bytes aren't a picture. Nothing changes.
/// - `NoMemory`: there was no memory. The nodes that were there stay, and names that aren't the picture's;
///   of the picture's names some may be bound, and its nodes may stand behind the others.
pub fn load(
    alloc: Global,
    bytes: &[u8],
    heap: &mut Heap,
    names: &mut Names,
) -> Result<(), LoadFault>
    requires { length heap.old + length bytes.now + 1 < 2 ^ 32 }
    ensures loaded { OnOk result (IsLoaded bytes.now (held heap.old names.old) (held heap.new names.new)) }
    ensures fault { IfErr result (IsFault bytes.now) }
    ensures refused { IfErr result (IsUntouched (held heap.old names.old) (held heap.new names.new)) }
    ensures nodes { KeepsNodes heap.old heap.new }
    ensures others { KeepsOthers bytes.now names.old names.new }

    // Where each name leads to a node that is there, it does so afterwards too, however the call ends.
    ensures sound { LeadsWithin (held heap.old names.old) → LeadsWithin (held heap.new names.new) }
    ensures accessed { names.new.accessed ≡ names.old.accessed }
{
    let mut cursor = Cursor {
        rest: bytes,
        met: 0,
    };
    let picture = match whole_picture(alloc, &mut cursor, heap.len()) {
        Ok(picture) => picture,
        Err(Stop::Fault { left }) => {
            return Err(LoadFault::Picture {
                at: bytes.len().saturating_sub(left) as u64,
            });
        }
        Err(Stop::NoMemory) => return Err(LoadFault::NoMemory),
    };
    heap.make_all(picture.nodes)?;
    bind(names, picture.names)?;
    Ok(())
}
