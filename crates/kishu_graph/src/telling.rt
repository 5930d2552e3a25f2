// What a commit changed of its parent's table, by the names of the groups.
ghost use Rattle.std.specs.Prelude.{◌≡◌, ◌<◌, [], length, map, IfOk};
ghost use Rattle.std.specs.Rc.{rc_str_bytes};
ghost use Rattle.kishu_graph.specs.Fits.{names_at};
ghost use Rattle.kishu_graph.specs.Kept.{texts_of};
ghost use Rattle.kishu_graph.specs.Tables.{IsChangeOf, named};
ghost use Rattle.kishu_graph.specs.Walks.{StandAtFirst, all_texts, group_at, groups_at, rows_in};

use crate::Graph;
use crate::tables::{Changed, TableRow};
use crate::walking::{all_copied, rows_to};
use std::alloc::{AllocError, Global};
use std::collections::BTreeMap;
use std::rc::RcStr;

impl Graph {
    /// The groups that a commit dropped of its parent's table, and those that it stored, each by its
    /// names. The root changes nothing.
    ///
    /// Its condition is that the commit is there. An error says that no memory is left.
    pub fn changed_groups(&self, commit: u32) -> Result<Changed, AllocError>
        requires there { commit < length self.now.commits }
        ensures changed { IfOk result (λ c. IsChangeOf self.now commit (named c.dropped) (named c.stored)) }
        ensures root { commit ≡ 0 → IfOk result (λ c. (c.dropped.items ≡ []) × (c.stored.items ≡ [])) }
    {
        if commit == 0 {
            return Ok(Changed::nothing(self.alloc));
        }
        let parent = self.commits[commit as usize].parent;
        let noted = &self.noted[commit as usize];
        let before = rows_to(self.alloc, &self.commits, &self.noted, parent)?;
        Ok(Changed {
            dropped: groups_at(self.alloc, &before, noted.dropped())?,
            stored: groups_of(self.alloc, noted.stored())?,
        })
    }
}

/// The groups of rows.
fn groups_of(alloc: Global, rows: &[TableRow]) -> Result<Vec<Vec<RcStr>>, AllocError>
    ensures { IfOk result (λ v. named v ≡ map names_at rows.now) }
{
    let mut groups = Vec::with_capacity(alloc, rows.len())?;
    for row in rows {
        groups.push(all_copied(alloc, &row.group.names)?)?;
    }
    Ok(groups)
}

/// The groups that begin with these names, among rows by their first names.
fn groups_at(
    alloc: Global,
    rows: &BTreeMap<RcStr, TableRow>,
    firsts: &[RcStr],
) -> Result<Vec<Vec<RcStr>>, AllocError>
    requires { StandAtFirst rows.now.entries }
    ensures { IfOk result (λ v. named v ≡ groups_at (all_texts firsts.now) (rows_in rows.now.entries)) }
{
    let mut groups = Vec::with_capacity(alloc, firsts.len())?;
    for first in firsts {
        groups.push(group_at(alloc, rows, first)?)?;
    }
    Ok(groups)
}

/// The group that begins with a name, or no names where none does.
fn group_at(
    alloc: Global,
    rows: &BTreeMap<RcStr, TableRow>,
    first: &RcStr,
) -> Result<Vec<RcStr>, AllocError>
    requires { StandAtFirst rows.now.entries }
    ensures { IfOk result (λ v. texts_of v ≡ group_at (rc_str_bytes first.now) (rows_in rows.now.entries)) }
{
    match rows.get(first.as_str()) {
        Some(row) => all_copied(alloc, &row.group.names),
        None => Ok(Vec::new(alloc)),
    }
}
