// How long heads are, before they are written.
ghost use Rattle.std.specs.Prelude.{◌≡◌, ◌<◌, ◌^◌, length, map};
ghost use Rattle.std.specs.Rc.{rc_str_bytes};
ghost use Rattle.kishu_store.specs.EntryBytes.{text_bytes, many, group_bytes, stored_bytes, head_of};
ghost use Rattle.kishu_store.specs.Rules.{IsEntry};
ghost use Rattle.kishu_record.specs.Entries.{texts_of, stored_of, entry_of};

use crate::entry::{Entry, MoveTo};
use std::rc::RcStr;

/// How many bytes the head of an entry takes: what `encode` writes between the head's length and the
/// pictures.
///
/// Its condition is that the entry keeps the rules of records, with a head of fewer than 2^32 bytes. It
/// takes no memory.
#[tactic(auto, unfolding(kishu_store::specs::EntryBytes::head_of))]
pub fn head_len(entry: &Entry) -> u64
    requires { IsEntry (entry_of entry.now) }
    ensures { result ≡ length (head_of (entry_of entry.now)) }
{
    match entry {
        Entry::Commit {
            cells,
            dropped,
            stored,
            ..
        } => 6 + texts_len(cells) + groups_len(dropped) + stored_len(stored),
        Entry::Move {
            to: MoveTo::Commit(_),
        } => 6,
        Entry::Move {
            to: MoveTo::Branch(title),
        } => 3 + title.len() as u64,
        Entry::Name { name, .. } => 6 + name.len() as u64,
    }
}

/// How many bytes texts take behind their number, each behind its length.
fn texts_len(texts: &[RcStr]) -> u64
    requires { length (many text_bytes (map rc_str_bytes texts.now)) < 2 ^ 32 }
    ensures { result ≡ length (many text_bytes (map rc_str_bytes texts.now)) }
{
    let mut len = 4;
    for text in texts {
        len += 4 + text.len() as u64;
    }
    len
}

/// How many bytes a group takes: its names behind their number.
fn group_len(group: &[RcStr]) -> u64
    requires { length (group_bytes (map rc_str_bytes group.now)) < 2 ^ 32 }
    ensures { result ≡ length (group_bytes (map rc_str_bytes group.now)) }
{
    let mut len = 4;
    for name in group {
        len += 1 + name.len() as u64;
    }
    len
}

/// How many bytes groups take behind their number.
fn groups_len(groups: &[Vec<RcStr>]) -> u64
    requires { length (many group_bytes (map texts_of groups.now)) < 2 ^ 32 }
    ensures { result ≡ length (many group_bytes (map texts_of groups.now)) }
{
    let mut len = 4;
    for group in groups {
        len += group_len(group);
    }
    len
}

/// How many bytes groups take behind their number, each with the length of its picture.
fn stored_len(stored: &[(Vec<RcStr>, u64)]) -> u64
    requires { length (many stored_bytes (map stored_of stored.now)) < 2 ^ 32 }
    ensures { result ≡ length (many stored_bytes (map stored_of stored.now)) }
{
    let mut len = 4;
    for (group, _) in stored {
        len += group_len(group) + 8;
    }
    len
}
