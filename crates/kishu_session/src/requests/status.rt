// The status: where the head stands, which names are bound there, and how large the store is.
ghost use Rattle.std.specs.Prelude.{◌≡◌, None, IfOk};
ghost use Rattle.kishu_model.specs.Request.{status};
ghost use Rattle.kishu_session.specs.Prepared.{LeadsAlone};

use crate::head::Head;
use crate::prepared::Prepared;
use crate::requests::checkout::shared;
use kishu_model::Answer;
use std::alloc::AllocError;

impl Head {
    /// Tells the status.
    pub(crate) fn status(&self) -> Result<Prepared, AllocError>
        ensures leads { IfOk result (LeadsAlone self.now self.now status) }
        ensures record { IfOk result (λ p. p.recorded ≡ None) }
    {
        let head = self.graph.head();
        Ok(Prepared::told(Answer::Status {
            branch: shared(&head.branch)?,
            commit: head.commit,
            commits: self.graph.commits(),
            names: self.live.names.names()?,
            records: self.graph.records(),
        }))
    }
}
