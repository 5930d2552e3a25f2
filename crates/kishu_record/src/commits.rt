// The heads of commits, read where they stand.
ghost use Rattle.std.specs.Prelude.{◌≡◌, ◌<◌, ◌^◌, ◌∷◌, length, Ok, None, IfOk, IfSome};
ghost use Rattle.kishu_record.specs.Commits.{SpellsCommit, SpellsNoCommit, IsCommitHead, LacksCommit};

use crate::COMMIT;
use crate::cursor::Cursor;
use crate::reader::{profile, take_in_all};
use kishu_language::Profile;
use std::alloc::{AllocError, Global};
use std::rc::RcStr;

/// What the head of a commit says, but for the texts of its cells behind the first.
#[derive(Drop)]
pub struct CommitHead<'a> {
    /// The parent's number.
    pub parent: u32,
    /// The rules under which the cells run.
    pub profile: Profile,
    /// How many cells it has.
    pub cells: u32,
    /// The text of the first.
    pub first: &'a str,
    /// The groups of names that it drops.
    pub dropped: Vec<Vec<RcStr>>,
    /// Those that it stores, each with the length of its picture in bytes.
    pub stored: Vec<(Vec<RcStr>, u64)>,
}

/// The commit that a head spells behind its kind, or none.
fn spelled<'a>(alloc: Global, rest: &'a [u8]) -> Result<Option<CommitHead<'a>>, AllocError>
    requires { length rest.now < 2 ^ 32 }
    ensures found { IfOk result (λ o. IfSome o (SpellsCommit (1 ∷ rest.now))) }
    ensures none { result ≡ Ok None → SpellsNoCommit (1 ∷ rest.now) }
{
    let mut cursor = Cursor { rest };
    let Some(parent) = cursor.number() else {
        return Ok(None);
    };
    let Some(profile) = profile(&mut cursor) else {
        return Ok(None);
    };
    let Some(cells) = cursor.cells() else {
        return Ok(None);
    };
    let Some(dropped) = cursor.dropped(alloc)? else {
        return Ok(None);
    };
    let Some(stored) = cursor.stored(alloc)? else {
        return Ok(None);
    };
    if !cursor.is_at_end() {
        return Ok(None);
    }
    Ok(Some(CommitHead {
        parent,
        profile,
        cells: cells.count,
        first: cells.first,
        dropped,
        stored,
    }))
}

/// The commit within the rules that a record's head spells, and whose pictures take `pictures` bytes, as
/// `decode` gives it; or none where there is no such commit. The texts of its cells are read where they
/// stand, so memory is taken for the names of groups alone. The error is want of it.
pub fn commit_in<'a>(
    alloc: Global,
    head: &'a [u8],
    pictures: u64,
) -> Result<Option<CommitHead<'a>>, AllocError>
    ensures found { IfOk result (λ o. IfSome o (IsCommitHead head.now pictures)) }
    ensures none { result ≡ Ok None → LacksCommit head.now pictures }
{
    if head.len() > u32::MAX as usize {
        return Ok(None);
    }
    let mut cursor = Cursor { rest: head };
    let Some(kind) = cursor.byte() else {
        return Ok(None);
    };
    if kind != COMMIT {
        return Ok(None);
    }
    let Ok(found) = spelled(alloc, cursor.rest) else {
        return Err(AllocError);
    };
    let Some(commit) = found else {
        return Ok(None);
    };
    if !take_in_all(&commit.stored, pictures) {
        return Ok(None);
    }
    Ok(Some(commit))
}
