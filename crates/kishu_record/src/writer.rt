ghost use Rattle.std.specs.Prelude.{◌≡◌, ◌<◌, ◌≤◌, ◌^◌, ◌++◌, length, IfOk};
ghost use Rattle.std.specs.Rc.{rc_str_bytes};
ghost use Rattle.kishu_bytes.specs.Numbers.{profile_number};
ghost use Rattle.kishu_store.specs.Entries.{move, name};
ghost use Rattle.kishu_store.specs.EntryBytes.{head_of, body_of};
ghost use Rattle.kishu_store.specs.Rules.{IsEntry, IsTitle};
ghost use Rattle.kishu_record.specs.Entries.{entry_of, record_of, move_of, behind_length, commit_with, commit_head};

use crate::entry::{Entry, MoveTo};
use crate::parts::{put_groups, put_name, put_number, put_pictures, put_stored, put_texts};
use crate::{COMMIT, MOVE, NAME, TO_BRANCH, TO_COMMIT};
use kishu_language::Profile;
use std::alloc::{AllocError, Global};
use std::rc::RcStr;

/// The body of an entry's record: its head behind the head's length, and then the pictures of the
/// groups that it stores.
///
/// Its conditions are that the entry keeps the rules of records, that its head has fewer than 2^32
/// bytes, and that the pictures have the lengths that it tells. The error is want of memory.
#[tactic(auto, unfolding(kishu_store::specs::EntryBytes::body_of))]
pub fn encode(alloc: Global, entry: &Entry, pictures: &[Vec<u8>]) -> Result<Vec<u8>, AllocError>
    requires { IsEntry (entry_of entry.now) }
    ensures { IfOk result (λ v. v.items ≡ body_of (record_of entry.now pictures.now)) }
{
    let mut body = headed(alloc, entry)?;
    put_pictures(&mut body, pictures)?;
    Ok(body)
}

/// What the record says, behind its length.
fn headed(alloc: Global, entry: &Entry) -> Result<Vec<u8>, AllocError>
    requires { IsEntry (entry_of entry.now) }
    ensures { IfOk result (λ v. v.items ≡ behind_length (head_of (entry_of entry.now))) }
{
    let head = head_bytes(alloc, entry)?;
    let mut body = Vec::new(alloc);
    put_number(&mut body, head.len() as u32)?;
    body.extend_from_slice(&head)?;
    Ok(body)
}

/// What the record says.
fn head_bytes(alloc: Global, entry: &Entry) -> Result<Vec<u8>, AllocError>
    requires { IsEntry (entry_of entry.now) }
    ensures { IfOk result (λ v. v.items ≡ head_of (entry_of entry.now)) }
{
    match entry {
        Entry::Commit {
            parent,
            profile,
            cells,
            dropped,
            stored,
        } => commit_head(alloc, *parent, *profile, cells, dropped, stored),
        Entry::Move { to } => move_head(alloc, to),
        Entry::Name { name, commit } => name_head(alloc, name, *commit),
    }
}

/// The head of a commit.
#[tactic(auto, unfolding(kishu_store::specs::EntryBytes::head_of))]
fn commit_head(
    alloc: Global,
    parent: u32,
    profile: Profile,
    cells: &Vec<RcStr>,
    dropped: &Vec<Vec<RcStr>>,
    stored: &Vec<(Vec<RcStr>, u64)>,
) -> Result<Vec<u8>, AllocError>
    requires { IsEntry (commit_with parent profile cells.now dropped.now stored.now) }
    ensures { IfOk result (λ v. v.items ≡ commit_head parent profile cells.now dropped.now stored.now) }
{
    let mut head = Vec::new(alloc);
    head.push(COMMIT)?;
    put_number(&mut head, parent)?;
    head.push(number_of(profile))?;
    put_texts(&mut head, cells)?;
    put_groups(&mut head, dropped)?;
    put_stored(&mut head, stored)?;
    Ok(head)
}

/// The head of a move.
#[tactic(auto, unfolding(kishu_store::specs::EntryBytes::head_of))]
fn move_head(alloc: Global, to: &MoveTo) -> Result<Vec<u8>, AllocError>
    requires { IsEntry (move (move_of to.now)) }
    ensures { IfOk result (λ v. v.items ≡ head_of (move (move_of to.now))) }
{
    let mut head = Vec::new(alloc);
    head.push(MOVE)?;
    match to {
        MoveTo::Commit(number) => {
            head.push(TO_COMMIT)?;
            put_number(&mut head, *number)?;
        }
        MoveTo::Branch(title) => {
            head.push(TO_BRANCH)?;
            put_name(&mut head, title)?;
        }
    }
    Ok(head)
}

/// The head of a name.
#[tactic(auto, unfolding(kishu_store::specs::EntryBytes::head_of))]
fn name_head(alloc: Global, title: &RcStr, commit: u32) -> Result<Vec<u8>, AllocError>
    requires { IsTitle (rc_str_bytes title.now) }
    ensures { IfOk result (λ v. v.items ≡ head_of (name (rc_str_bytes title.now) commit)) }
{
    let mut head = Vec::new(alloc);
    head.push(NAME)?;
    put_name(&mut head, title)?;
    put_number(&mut head, commit)?;
    Ok(head)
}

fn number_of(profile: Profile) -> u8
    ensures { result ≡ profile_number profile }
{
    match profile {
        Profile::One => 1,
        Profile::Two => 2,
    }
}
