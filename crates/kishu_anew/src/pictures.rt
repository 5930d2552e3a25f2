// The pictures of a state's groups, taken and loaded.
ghost use Rattle.std.specs.Prelude.{◌≡◌, ◌≤◌, ◌+◌, ◌<◌, ◌^◌, List, ℕ, IfOk, OnOk, length, map};
ghost use Rattle.std.specs.List.{AllZip};
ghost use Rattle.kishu_meaning.specs.values.Values.{State};
ghost use Rattle.kishu_objects.specs.Bytes.{picture_bytes};
ghost use Rattle.kishu_objects.specs.Groups.{groups_of};
ghost use Rattle.kishu_objects.specs.Lists.{In};
ghost use Rattle.kishu_groups.specs.Held.{texts_of};
ghost use Rattle.kishu_history.specs.Checkout.{with_pictures};
ghost use Rattle.kishu_loading.specs.Loaded.{held, LeadsWithin};
ghost use Rattle.kishu_picture.specs.Held.{AreBound};
ghost use Rattle.kishu_reading.specs.Pictured.{IsPictureOf};
ghost use Rattle.kishu_anew.specs.Anew.{IsWhole, IsSmall, contents, taken_by, ArePictures};

use kishu_groups::groups;
use kishu_heap::Heap;
use kishu_loading::{LoadFault, load};
use kishu_meaning::Steps;
use kishu_names::Names;
use kishu_picture::picture;
use std::alloc::{AllocError, Global};
use std::rc::RcStr;
use std::sync::ledger::Ledger;

/// The pictures of groups, in their order.
fn pictures_of<L: Ledger>(
    alloc: Global,
    heap: &Heap,
    names: &Names,
    groups: &[Vec<RcStr>],
    steps: &mut Steps<L>,
) -> Result<Vec<Vec<u8>>, AllocError>
    requires sound { LeadsWithin (held heap.now names.now) }
    requires bound { (g : List (List ℕ)) → In g (map texts_of groups.now) → AreBound names.now.bound g }
    requires short { (g : List (List ℕ)) → In g (map texts_of groups.now)
        → length (picture_bytes (held heap.now names.now) g) < 2 ^ 32 }
    ensures pictures { IfOk result (λ v. contents v.items
        ≡ map (picture_bytes (held heap.now names.now)) (map texts_of groups.now)) }
    ensures counted { steps.old ≤ steps.new }
{
    let mut pictures = Vec::with_capacity(alloc, groups.len())?;
    for group in groups {
        let bytes = picture(alloc, heap, names, group, steps)?;
        pictures.push(bytes)?;
    }
    Ok(pictures)
}

/// The pictures of the groups of all names, in the groups' order.
pub(crate) fn own_pictures<L: Ledger>(
    alloc: Global,
    heap: &Heap,
    names: &Names,
    steps: &mut Steps<L>,
) -> Result<Vec<Vec<u8>>, AllocError>
    requires sound { LeadsWithin (held heap.now names.now) }
    requires whole { IsWhole (held heap.now names.now) }
    requires small { IsSmall (held heap.now names.now) }
    ensures pictures { IfOk result (λ v. contents v.items
        ≡ map (picture_bytes (held heap.now names.now)) (groups_of (held heap.now names.now))) }
    ensures counted { steps.old ≤ steps.new }
{
    let all = names.names()?;
    let groups = groups(alloc, heap, names, &all, steps)?;
    pictures_of(alloc, heap, names, &groups, steps)
}

/// Loads pictures behind a heap's nodes, one after another.
pub(crate) fn load_all(
    alloc: Global,
    pictures: &[Vec<u8>],
    heap: &mut Heap,
    names: &mut Names,
) -> Result<(), AllocError>
    requires pictures { ArePictures (contents pictures.now) }
    requires room { length heap.old + taken_by (contents pictures.now) + 1 < 2 ^ 32 }
    ensures loaded { OnOk result ((ps : List State) → AllZip IsPictureOf (contents pictures.now) ps
        → held heap.new names.new ≡ with_pictures ps (held heap.old names.old)) }
    ensures accessed { names.new.accessed ≡ names.old.accessed }
    ensures sound { LeadsWithin (held heap.old names.old) → LeadsWithin (held heap.new names.new) }
{
    for i in 0..pictures.len() {
        match load(alloc, pictures[i].as_slice(), heap, names) {
            Ok(()) => {}
            Err(LoadFault::Picture { .. }) => unreachable!(),
            Err(LoadFault::NoMemory) => return Err(AllocError),
        }
    }
    Ok(())
}
