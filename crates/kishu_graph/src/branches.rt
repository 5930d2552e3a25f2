// Branches by their names, in byte order.
ghost use Rattle.std.specs.Prelude.{◌≡◌, IfOk, OnOk, OnErr, map, option_map};
ghost use Rattle.kishu_store.specs.Branches.{commit_of};
ghost use Rattle.kishu_store.specs.Targets.{target_of};
ghost use Rattle.kishu_graph.specs.Facts.{head_on, HasPut, HasMovedAlong};
ghost use Rattle.kishu_graph.specs.Kept.{branches_of, Rises};

use kishu_store::Target;
use std::alloc::{AllocError, Global};
use std::collections::BTreeMap;
use std::rc::RcStr;

/// The commit of a branch.
pub(crate) fn commit_of(branches: &BTreeMap<RcStr, u32>, name: &str) -> Option<u32>
    ensures { result ≡ commit_of name.now (branches_of branches.now.entries) }
{
    branches.get(name).copied()
}

/// Where a head on a branch stands. The text of the branch's name is shared.
pub(crate) fn target_of(
    branches: &BTreeMap<RcStr, u32>,
    name: &str,
) -> Result<Option<Target>, AllocError>
    ensures { IfOk result (λ o. option_map target_of o ≡ head_on name.now branches.now.entries) }
{
    match branches.get_key_value(name) {
        Some((text, commit)) => Ok(Some(Target {
            commit: *commit,
            branch: Some(text.clone()?),
        })),
        None => Ok(None),
    }
}

/// Puts a branch at a commit. Where there is no memory for it, the branches stay.
pub(crate) fn put(
    branches: &mut BTreeMap<RcStr, u32>,
    name: RcStr,
    commit: u32,
) -> Result<(), AllocError>
    ensures ok { OnOk result (HasPut name commit branches.old.entries branches.new.entries) }
    ensures err { OnErr result (branches.new.entries ≡ branches.old.entries) }
{
    branches.insert(name, commit)?;
    Ok(())
}

/// Moves a branch along to a commit, where there is one. Where there is no memory, the branches stay.
pub(crate) fn move_along(
    branches: &mut BTreeMap<RcStr, u32>,
    branch: &Option<RcStr>,
    commit: u32,
) -> Result<(), AllocError>
    ensures ok { OnOk result (HasMovedAlong branch.now commit branches.old.entries branches.new.entries) }
    ensures err { OnErr result (branches.new.entries ≡ branches.old.entries) }
{
    match branch {
        Some(name) => put(branches, name.clone()?, commit),
        None => Ok(()),
    }
}

/// The branches with their commits.
pub(crate) fn all(
    alloc: Global,
    branches: &BTreeMap<RcStr, u32>,
) -> Result<Vec<(RcStr, u32)>, AllocError>
    ensures branches { IfOk result (λ all. branches_of all.items ≡ branches_of branches.now.entries) }
    ensures order { Rises (map (λ b. b.0) (branches_of branches.now.entries)) }
{
    let mut all = Vec::new(alloc);
    for (name, commit) in branches.iter() {
        all.push((name.clone()?, *commit))?;
    }
    Ok(all)
}
