// What a commit stored: the groups that it dropped, and those that it stored.
ghost use Rattle.std.specs.Prelude.{◌≡◌, None, IfOk};
ghost use Rattle.kishu_model.specs.Request.{stored};
ghost use Rattle.kishu_session.specs.Prepared.{LeadsAlone};

use crate::head::Head;
use crate::prepared::Prepared;
use kishu_model::{Answer, Refusal};
use std::alloc::AllocError;

impl Head {
    /// Tells which groups a commit dropped, and which it stored. A reference that names nothing is refused.
    pub(crate) fn stored(&self, of: &str) -> Result<Prepared, AllocError>
        ensures leads { IfOk result (LeadsAlone self.now self.now (stored of.now)) }
        ensures record { IfOk result (λ p. p.recorded ≡ None) }
    {
        let Some(target) = self.graph.resolve(of)? else {
            return Ok(Prepared::refused(Refusal::NoSuchRef));
        };
        let changed = self.graph.changed_groups(target.commit)?;
        Ok(Prepared::told(Answer::Stored {
            commit: target.commit,
            dropped: changed.dropped,
            stored: changed.stored,
        }))
    }
}
