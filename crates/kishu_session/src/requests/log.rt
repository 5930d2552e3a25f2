// The log: the branches, and the commits from the head's back to the first.
ghost use Rattle.std.specs.Prelude.{◌≡◌, ◌<◌, None, IfOk, length};
ghost use Rattle.kishu_model.specs.Request.{log};
ghost use Rattle.kishu_session.specs.LogRows.{IsRowOf, AreRowsBack};
ghost use Rattle.kishu_session.specs.Prepared.{LeadsAlone};

use crate::head::Head;
use crate::prepared::Prepared;
use kishu_graph::Graph;
use kishu_model::{Answer, PathRow};
use std::alloc::{AllocError, Global};
use std::rc::RcStr;

/// The row of a commit that isn't the root.
fn row(alloc: Global, graph: &Graph, commit: u32) -> Result<PathRow, AllocError>
    requires there { commit < length graph.now.commits }
    requires not_root { 0 < commit }
    ensures row { IfOk result (IsRowOf graph.now commit) }
    ensures older { IfOk result (λ r. r.parent < commit) }
{
    Ok(PathRow {
        cells: graph.cells(commit),
        commit,
        line: RcStr::from_str(alloc, graph.line(commit))?,
        parent: graph.parent(commit),
    })
}

/// The commits from the head's back to the first.
fn rows(alloc: Global, graph: &Graph) -> Result<Vec<PathRow>, AllocError>
    ensures { IfOk result (λ v. AreRowsBack graph.now v.items) }
{
    let mut rows = Vec::new(alloc);
    let mut commit = graph.head().commit;
    while commit != 0 {
        let row = row(alloc, graph, commit)?;
        commit = row.parent;
        rows.push(row)?;
    }
    Ok(rows)
}

impl Head {
    /// Tells the branches and the path to the head.
    pub(crate) fn log(&self) -> Result<Prepared, AllocError>
        ensures leads { IfOk result (LeadsAlone self.now self.now log) }
        ensures record { IfOk result (λ p. p.recorded ≡ None) }
    {
        Ok(Prepared::told(Answer::Log {
            branches: self.graph.branches()?,
            path: rows(self.alloc, &self.graph)?,
        }))
    }
}
