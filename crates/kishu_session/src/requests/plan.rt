// What a checkout would do: the groups that it would drop, keep and load.
ghost use Rattle.std.specs.Prelude.{◌≡◌, None, IfOk, map};
ghost use Rattle.kishu_store.specs.Tables.{groups_in};
ghost use Rattle.kishu_graph.specs.Kept.{row_of};
ghost use Rattle.kishu_graph.specs.Tables.{group_of, named};
ghost use Rattle.kishu_model.specs.Request.{plan};
ghost use Rattle.kishu_session.specs.Head.{KeepsHeadTable};
ghost use Rattle.kishu_session.specs.Prepared.{LeadsAlone};

use crate::head::Head;
use crate::prepared::Prepared;
use kishu_graph::{Group, TableRow};
use kishu_model::{Answer, Refusal};
use std::alloc::{AllocError, Global};
use std::rc::RcStr;

impl Head {
    /// Tells which groups a checkout would drop, keep and load. A reference that names nothing is refused.
    pub(crate) fn plan(&self, to: &str) -> Result<Prepared, AllocError>
        requires table { KeepsHeadTable self.now }
        ensures leads { IfOk result (LeadsAlone self.now self.now (plan to.now)) }
        ensures record { IfOk result (λ p. p.recorded ≡ None) }
    {
        let Some(target) = self.graph.resolve(to)? else {
            return Ok(Prepared::refused(Refusal::NoSuchRef));
        };
        let next = self.graph.table(target.commit)?;
        let planned = kishu_checkout::plan(self.alloc, &self.table, &next)?;
        let drop = names_of_groups(self.alloc, planned.drop)?;
        let keep = names_of_groups(self.alloc, planned.keep)?;
        let load = names_of_rows(self.alloc, planned.load)?;
        Ok(Prepared::told(Answer::Plan {
            commit: target.commit,
            drop,
            keep,
            load,
        }))
    }
}

/// Groups, each as its names.
fn names_of_groups(alloc: Global, groups: Vec<Group>) -> Result<Vec<Vec<RcStr>>, AllocError>
    ensures { IfOk result (λ v. named v ≡ map group_of groups.items) }
{
    let mut names = Vec::with_capacity(alloc, groups.len())?;
    for group in groups {
        names.push(group.names)?;
    }
    Ok(names)
}

/// The groups of rows, each as its names.
fn names_of_rows(alloc: Global, rows: Vec<TableRow>) -> Result<Vec<Vec<RcStr>>, AllocError>
    ensures { IfOk result (λ v. named v ≡ groups_in (map row_of rows.items)) }
{
    let mut names = Vec::with_capacity(alloc, rows.len())?;
    for row in rows {
        names.push(row.group.names)?;
    }
    Ok(names)
}
