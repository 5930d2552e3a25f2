// The live state, loaded anew.
ghost use Rattle.std.specs.Prelude.{◌≡◌, ◌≤◌, ◌^◌, length, OnOk};
ghost use Rattle.kishu_anew.specs.Anew.{IsWhole, most_kept};
ghost use Rattle.kishu_session.specs.Head.{KeepsSome};
ghost use Rattle.kishu_session.specs.Known.{HasHistory};
ghost use Rattle.kishu_session.specs.Lives.{state_of};
ghost use Rattle.kishu_session.specs.Renewing.{IsRenewed};

use crate::head::Head;
use kishu_model::Steps;
use std::alloc::AllocError;
use std::sync::ledger::Ledger;

impl Head {
    /// Loads the live state anew where its heap has more than 8,000,000 nodes. What is kept of the store and
    /// of the state's pictures stays, since these are the same.
    pub(crate) fn renew<L: Ledger>(&mut self, steps: &mut Steps<L>) -> Result<(), AllocError>
        requires known { HasHistory self.old.graph }
        requires keeps { KeepsSome self.old }
        requires whole { IsWhole (state_of self.old.live) }
        ensures renewed { OnOk result (IsRenewed self.old self.new) }
        ensures graph { self.new.graph ≡ self.old.graph }
        ensures whole { OnOk result (IsWhole (state_of self.new.live)) }
        ensures room { OnOk result (length self.new.live.heap ≤ 2 ^ 28) }
        ensures counted { steps.old ≤ steps.new }
        ensures still { length self.old.live.heap ≤ most_kept → steps.new ≡ steps.old }
    {
        self.live.renew(self.alloc, steps)
    }
}
