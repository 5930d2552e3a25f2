ghost use Rattle.std.specs.Prelude.{◌≡◌, ◌<◌, ◌^◌, ◌++◌, ◌∷◌, [], true, false, List, ℕ, length, Ok, Err, None, IfOk, IfSome, map};
ghost use Rattle.std.specs.List.{sum};
ghost use Rattle.kishu_language.specs.declared.profile.Profile.{Profile};
ghost use Rattle.kishu_bytes.specs.Numbers.{profile_number};
ghost use Rattle.kishu_store.specs.Limits.{newest_profile};
ghost use Rattle.kishu_store.specs.Entries as model;
ghost use Rattle.kishu_store.specs.Entries.{lengths_in, move};
ghost use Rattle.kishu_store.specs.EntryBytes.{head_of};
ghost use Rattle.kishu_store.specs.Rules.{KeepsRules, IsEntry};
ghost use Rattle.kishu_record.specs.Entries.{entry_of, move_of as goal_in};
ghost use Rattle.kishu_record.specs.Readings.{IsHead, LacksProfile};
ghost use Rattle.kishu_record.specs.declared.entry.EntryFault.TheVariants.{NoEntry};

use crate::cursor::Cursor;
use crate::entry::{Entry, EntryFault, MoveTo};
use crate::{COMMIT, MOVE, NAME, TO_BRANCH, TO_COMMIT};
use kishu_language::Profile;
use std::alloc::{AllocError, Global};
use std::rc::RcStr;

/// The next byte's profile, or none where no cells run under it.
pub(crate) fn profile(cursor: &mut Cursor) -> Option<Profile>
    ensures found { IfSome result (λ p. cursor.old.rest.now ≡ profile_number p ∷ cursor.new.rest.now) }
    ensures known { IfSome result (λ p. p ≡ newest_profile) }
    ensures none { result ≡ None → LacksProfile cursor.old.rest.now }
{
    match cursor.byte()? {
        1 => Some(Profile::One),
        _ => None,
    }
}

/// The commit that a head spells behind its kind, or none.
fn commit_of(alloc: Global, rest: &[u8]) -> Result<Option<Entry>, AllocError>
    requires { length rest.now < 2 ^ 32 }
    ensures found { IfOk result (λ o. IfSome o (λ e. 1 ∷ rest.now ≡ head_of (entry_of e))) }
    ensures rules { IfOk result (λ o. IfSome o (λ e. KeepsRules (entry_of e))) }
    ensures none { result ≡ Ok None → (e : model.Entry) → IsEntry e → 1 ∷ rest.now ≡ head_of e → ⊥ }
{
    let mut cursor = Cursor { rest };
    let Some(parent) = cursor.number() else {
        return Ok(None);
    };
    let Some(profile) = profile(&mut cursor) else {
        return Ok(None);
    };
    let Some(cells) = cursor.texts(alloc)? else {
        return Ok(None);
    };
    if cells.is_empty() {
        return Ok(None);
    }
    let Some(dropped) = cursor.dropped(alloc)? else {
        return Ok(None);
    };
    let Some(stored) = cursor.stored(alloc)? else {
        return Ok(None);
    };
    if !cursor.is_at_end() {
        return Ok(None);
    }
    Ok(Some(Entry::Commit {
        parent,
        profile,
        cells,
        dropped,
        stored,
    }))
}

/// The commit's number that makes up the rest of a move's head, or none.
fn to_commit(rest: &[u8]) -> Option<MoveTo>
    ensures found { IfSome result (λ m. 2 ∷ 0 ∷ rest.now ≡ head_of (move (goal_in m))) }
    ensures rules { IfSome result (λ m. KeepsRules (move (goal_in m))) }
    ensures none { result ≡ None → (e : model.Entry) → IsEntry e → 2 ∷ 0 ∷ rest.now ≡ head_of e → ⊥ }
{
    let mut cursor = Cursor { rest };
    let number = cursor.number()?;
    if !cursor.is_at_end() {
        return None;
    }
    Some(MoveTo::Commit(number))
}

/// The branch's name that makes up the rest of a move's head, or none.
fn to_branch(alloc: Global, rest: &[u8]) -> Result<Option<MoveTo>, AllocError>
    ensures found { IfOk result (λ o. IfSome o (λ m. 2 ∷ 1 ∷ rest.now ≡ head_of (move (goal_in m)))) }
    ensures rules { IfOk result (λ o. IfSome o (λ m. KeepsRules (move (goal_in m)))) }
    ensures none { result ≡ Ok None → (e : model.Entry) → IsEntry e → 2 ∷ 1 ∷ rest.now ≡ head_of e → ⊥ }
{
    let mut cursor = Cursor { rest };
    let Some(title) = cursor.title(alloc)? else {
        return Ok(None);
    };
    if !cursor.is_at_end() {
        return Ok(None);
    }
    Ok(Some(MoveTo::Branch(title)))
}

/// Where the move that a head spells behind its kind leads, or none.
#[tactic(auto, using(crate::proofs::Heads::no_goal))]
fn goal_of(alloc: Global, rest: &[u8]) -> Result<Option<MoveTo>, AllocError>
    ensures found { IfOk result (λ o. IfSome o (λ m. 2 ∷ rest.now ≡ head_of (move (goal_in m)))) }
    ensures rules { IfOk result (λ o. IfSome o (λ m. KeepsRules (move (goal_in m)))) }
    ensures none { result ≡ Ok None → (e : model.Entry) → IsEntry e → 2 ∷ rest.now ≡ head_of e → ⊥ }
{
    let mut cursor = Cursor { rest };
    let Some(kind) = cursor.byte() else {
        return Ok(None);
    };
    match kind {
        TO_COMMIT => Ok(to_commit(cursor.rest)),
        TO_BRANCH => to_branch(alloc, cursor.rest),
        _ => Ok(None),
    }
}

/// The name that a head spells behind its kind, or none.
fn name_of(alloc: Global, rest: &[u8]) -> Result<Option<Entry>, AllocError>
    ensures found { IfOk result (λ o. IfSome o (λ e. 3 ∷ rest.now ≡ head_of (entry_of e))) }
    ensures rules { IfOk result (λ o. IfSome o (λ e. KeepsRules (entry_of e))) }
    ensures none { result ≡ Ok None → (e : model.Entry) → IsEntry e → 3 ∷ rest.now ≡ head_of e → ⊥ }
{
    let mut cursor = Cursor { rest };
    let Some(name) = cursor.title(alloc)? else {
        return Ok(None);
    };
    let Some(commit) = cursor.number() else {
        return Ok(None);
    };
    if !cursor.is_at_end() {
        return Ok(None);
    }
    Ok(Some(Entry::Name { name, commit }))
}

/// The move that a head spells behind its kind, or none.
fn move_of(alloc: Global, rest: &[u8]) -> Result<Option<Entry>, AllocError>
    ensures found { IfOk result (λ o. IfSome o (λ e. 2 ∷ rest.now ≡ head_of (entry_of e))) }
    ensures rules { IfOk result (λ o. IfSome o (λ e. KeepsRules (entry_of e))) }
    ensures none { result ≡ Ok None → (e : model.Entry) → IsEntry e → 2 ∷ rest.now ≡ head_of e → ⊥ }
{
    let Some(to) = goal_of(alloc, rest)? else {
        return Ok(None);
    };
    Ok(Some(Entry::Move { to }))
}

/// The entry that a head spells, or none.
#[tactic(auto, using(crate::proofs::Heads::no_kind))]
fn entry_in(alloc: Global, head: &[u8]) -> Result<Option<Entry>, AllocError>
    requires { length head.now < 2 ^ 32 }
    ensures found { IfOk result (λ o. IfSome o (λ e. head.now ≡ head_of (entry_of e))) }
    ensures rules { IfOk result (λ o. IfSome o (λ e. KeepsRules (entry_of e))) }
    ensures none { result ≡ Ok None → (e : model.Entry) → IsEntry e → head.now ≡ head_of e → ⊥ }
{
    let mut cursor = Cursor { rest: head };
    let Some(kind) = cursor.byte() else {
        return Ok(None);
    };
    match kind {
        COMMIT => commit_of(alloc, cursor.rest),
        MOVE => move_of(alloc, cursor.rest),
        NAME => name_of(alloc, cursor.rest),
        _ => Ok(None),
    }
}

/// Whether pictures of these lengths take so many bytes.
pub(crate) fn take_in_all(stored: &[(Vec<RcStr>, u64)], pictures: u64) -> bool
    ensures yes { result ≡ true → sum (map (λ s. s.1) stored.now) ≡ pictures }
    ensures no { result ≡ false → sum (map (λ s. s.1) stored.now) ≡ pictures → ⊥ }
{
    let mut left = pictures;
    for (_, length) in stored {
        if *length > left {
            return false;
        }
        left -= *length;
    }
    left == 0
}

/// Whether the pictures of an entry take so many bytes.
fn has_pictures(entry: &Entry, pictures: u64) -> bool
    ensures yes { result ≡ true → sum (lengths_in (entry_of entry.now)) ≡ pictures }
    ensures no { result ≡ false → sum (lengths_in (entry_of entry.now)) ≡ pictures → ⊥ }
{
    match entry {
        Entry::Commit { stored, .. } => take_in_all(stored, pictures),
        Entry::Move { .. } => pictures == 0,
        Entry::Name { .. } => pictures == 0,
    }
}

/// The entry within the rules that a record's head spells, and whose pictures take `pictures` bytes.
///
/// The rules: a commit has a cell at least, each of UTF-8 and of at most 1,048,576 bytes, and its
/// profile is 1; a group has a name at least, its names are names of the language and rise in byte
/// order, and the groups of a list rise by their first names; a branch's name is UTF-8 and has at most
/// 255 bytes.
///
/// - `NoEntry`: no such entry has that head and pictures of that length.
/// - `NoMemory`: there was no memory.
pub fn decode(alloc: Global, head: &[u8], pictures: u64) -> Result<Entry, EntryFault>
    ensures ok { IfOk result (λ e. IsHead head.now pictures (entry_of e)) }
    ensures no_entry { result ≡ Err NoEntry → (e : model.Entry) → IsHead head.now pictures e → ⊥ }

    // No other entry that keeps the rules has the head, so an encoded head gives its entry back.
    ensures only { IfOk result (λ e. (a : model.Entry) → IsEntry a → head.now ≡ head_of a → entry_of e ≡ a) }
{
    if head.len() > u32::MAX as usize {
        return Err(EntryFault::NoEntry);
    }
    let Ok(found) = entry_in(alloc, head) else {
        return Err(EntryFault::NoMemory);
    };
    let Some(entry) = found else {
        return Err(EntryFault::NoEntry);
    };
    if !has_pictures(&entry, pictures) {
        return Err(EntryFault::NoEntry);
    }
    Ok(entry)
}
