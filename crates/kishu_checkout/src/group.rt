// The loading of one group.
ghost use Rattle.std.specs.Prelude.{◌≡◌, ◌≤◌, ◌+◌, ◌<◌, ◌^◌, ℕ, [], true, false, IsTrue, IfOk, IfSome, OnOk, MatchOption, length, map};
ghost use Rattle.std.specs.Bool.{Decides};
ghost use Rattle.kishu_meaning.specs.values.Sound.{are_sound_names};
ghost use Rattle.kishu_names.specs.Record.{Rises, texts_of};
ghost use Rattle.kishu_objects.specs.Loading.{bind_all};
ghost use Rattle.kishu_loading.specs.Loaded.{held, IsLoaded, KeepsNodes, LeadsWithin};
ghost use Rattle.kishu_checkout.specs.Groups.{titles, IsLoadedAs, IsAlone, IsNoPicture, IsNoneOf};

use kishu_heap::Heap;
use kishu_loading::{LoadFault, load};
use kishu_names::Names;
use std::alloc::{AllocError, Global};
use std::rc::RcStr;

/// Loads a picture behind a heap's nodes. Its names stand alone, and there are none where the bytes are no
/// picture.
fn load_alone(alloc: Global, bytes: &[u8], heap: &mut Heap) -> Result<Option<Names>, AllocError>
    requires room { length heap.old + length bytes.now + 1 < 2 ^ 32 }
    ensures loaded { IfOk result (λ o. MatchOption o (IsNoPicture bytes.now)
        (λ own. IsAlone bytes.now heap.old (held heap.new own))) }
    ensures sound { IfOk result (λ o. IfSome o (λ own. LeadsWithin (held heap.new own))) }
    ensures nodes { KeepsNodes heap.old heap.new }
{
    let mut own = Names::new(alloc);
    match load(alloc, bytes, heap, &mut own) {
        Ok(()) => Ok(Some(own)),
        Err(LoadFault::Picture { .. }) => Ok(None),
        Err(LoadFault::NoMemory) => Err(AllocError),
    }
}

/// Whether these are just the names that are bound.
fn binds_just(names: &Names, group: &[RcStr]) -> Result<bool, AllocError>
    ensures told { IfOk result (λ b. Decides b (titles names.now.bound ≡ texts_of group.now)) }
    ensures order { Rises (titles names.now.bound) }
{
    let bound = names.names()?;
    Ok(bound.as_slice() == group)
}

/// Binds the names of a list as they are bound elsewhere, and records nothing. Just these are bound there.
fn bind_as(names: &mut Names, own: &Names, group: &[RcStr]) -> Result<(), AllocError>
    requires just { titles own.now.bound ≡ texts_of group.now }
    requires order { Rises (titles own.now.bound) }
    ensures bound { OnOk result (names.new.bound ≡ bind_all own.now.bound names.old.bound) }
    ensures accessed { names.new.accessed ≡ names.old.accessed }
    ensures sound { (n : ℕ) → IsTrue (are_sound_names n own.now.bound)
        → IsTrue (are_sound_names n names.old.bound) → IsTrue (are_sound_names n names.new.bound) }
{
    for name in group {
        let Some(value) = own.peek(name.as_str()) else {
            unreachable!()
        };
        names.restore(name.as_str(), value.copied()?)?;
    }
    Ok(())
}

/// Loads a picture of just the names of a group behind a heap's nodes, and binds its names. False says that
/// the bytes are no such picture. An error says that no memory is left.
pub(crate) fn load_group(
    alloc: Global,
    bytes: &[u8],
    group: &[RcStr],
    heap: &mut Heap,
    names: &mut Names,
) -> Result<bool, AllocError>
    requires room { length heap.old + length bytes.now + 1 < 2 ^ 32 }
    ensures loaded { IfOk result (λ b. b ≡ true → IsLoadedAs (texts_of group.now) bytes.now
        (held heap.old names.old) (held heap.new names.new)) }
    ensures none { IfOk result (λ b. b ≡ false → IsNoneOf (texts_of group.now) bytes.now) }
    ensures accessed { names.new.accessed ≡ names.old.accessed }
    ensures nodes { KeepsNodes heap.old heap.new }
    ensures sound { LeadsWithin (held heap.old names.old) → LeadsWithin (held heap.new names.new) }
{
    let Some(own) = load_alone(alloc, bytes, heap)? else {
        return Ok(false);
    };
    if !binds_just(&own, group)? {
        return Ok(false);
    }
    bind_as(names, &own, group)?;
    Ok(true)
}
