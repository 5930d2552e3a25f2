// What is bound at the head: the names with their values, and the nodes that they reach.
ghost use Rattle.std.specs.Prelude.{◌≡◌, ◌≤◌, None, IfOk};
ghost use Rattle.kishu_model.specs.Request.{inspect};
ghost use Rattle.kishu_session.specs.Prepared.{LeadsAlone};

use crate::head::Head;
use crate::prepared::Prepared;
use kishu_model::Steps;
use std::alloc::AllocError;
use std::sync::ledger::Ledger;

impl Head {
    /// Tells what is bound.
    pub(crate) fn inspect<L: Ledger>(&self, steps: &mut Steps<L>) -> Result<Prepared, AllocError>
        ensures leads { IfOk result (LeadsAlone self.now self.now inspect) }
        ensures record { IfOk result (λ p. p.recorded ≡ None) }
        ensures counted { steps.old ≤ steps.new }
    {
        let commit = self.graph.head().commit;
        Ok(Prepared::told(self.live.told(self.alloc, commit, steps)?))
    }
}
