// What is kept of commits, in the order of their numbers, and the way back by their parents.
ghost use Rattle.std.specs.Prelude.{◌≡◌, ◌<◌, ◌++◌, ◌∷◌, [], length, map, IfOk, OnOk};
ghost use Rattle.std.specs.Vec.{vec_len, vec_capacity};
ghost use Rattle.kishu_graph.specs.Facts.{AreBack, ArePath};
ghost use Rattle.kishu_graph.specs.Kept.{outline, HaveParents};

use crate::tables::Noted;
use kishu_language::Profile;
use std::alloc::{AllocError, Global};

/// What is kept of a commit beside its line: its cells' texts are in the store's file alone.
#[derive(Drop)]
pub(crate) struct Commit {
    pub(crate) parent: u32,
    pub(crate) cells: u32,
    pub(crate) profile: Profile,
}

/// Makes room for one commit more, and for what is noted of it.
pub(crate) fn make_room(commits: &mut Vec<Commit>, noted: &mut Vec<Noted>) -> Result<(), AllocError>
    ensures commits { commits.new.items ≡ commits.old.items }
    ensures noted { noted.new.items ≡ noted.old.items }
    ensures commits_room { OnOk result (vec_len commits.new < vec_capacity commits.new) }
    ensures noted_room { OnOk result (vec_len noted.new < vec_capacity noted.new) }
{
    commits.reserve(1)?;
    noted.reserve(1)
}

/// Adds an item where there is room for one.
pub(crate) fn push_in_room<T: Drop>(items: &mut Vec<T>, item: T)
    requires room { vec_len items.old < vec_capacity items.old }
    ensures { items.new.items ≡ items.old.items ++ (item ∷ []) }
{
    items.push(item).unwrap();
}

/// The numbers of a commit and of those before it, back to the root, which is left out.
fn numbers_back(alloc: Global, commits: &[Commit], commit: u32) -> Result<Vec<u32>, AllocError>
    requires there { commit < length commits.now }
    requires parents { HaveParents (map outline commits.now) }
    ensures { IfOk result (λ v. AreBack commits.now commit v.items) }
{
    let mut numbers = Vec::new(alloc);
    let mut at = commit;
    while at != 0 {
        numbers.push(at)?;
        at = commits[at as usize].parent;
    }
    Ok(numbers)
}

/// The numbers of the commits from the root to this one.
pub(crate) fn path_to(
    alloc: Global,
    commits: &[Commit],
    commit: u32,
) -> Result<Vec<u32>, AllocError>
    requires there { commit < length commits.now }
    requires parents { HaveParents (map outline commits.now) }
    ensures { IfOk result (λ v. ArePath commits.now commit v.items) }
{
    let mut numbers = numbers_back(alloc, commits, commit)?;
    numbers.push(0)?;
    numbers.reverse();
    Ok(numbers)
}
