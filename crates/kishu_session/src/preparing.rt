// What a request leads to, whichever it is.
ghost use Rattle.std.specs.Prelude.{◌≡◌, ℕ, IfOk, OnOk, IsErrOf};
ghost use Rattle.kishu_anew.specs.Anew.{IsWhole};
ghost use Rattle.kishu_checkout.specs.Pictures.{told_file};
ghost use Rattle.kishu_journal.specs.Going.{IsQuiet};
ghost use Rattle.kishu_model.specs.Values.{request_of};
ghost use Rattle.kishu_model.specs.requests.Cells.{HasRoom};
ghost use Rattle.kishu_session.specs.Faults.{DiskFailed};
ghost use Rattle.kishu_session.specs.Head.{IsKnown};
ghost use Rattle.kishu_session.specs.Lives.{state_of};
ghost use Rattle.kishu_session.specs.Prepared.{LeadsOn, CountsOn, StaysWithout, LacksFor};
ghost use Rattle.kishu_session.specs.Working.{CountsFor, IsIdle, LeavesSteps, ReadsFor};
ghost use Rattle.kishu_session.specs.declared.unprepared.Unprepared.TheVariants.{Damaged, DiskFault};

use crate::head::Head;
use crate::prepared::Prepared;
use crate::unprepared::Unprepared;
use kishu_host::Host;
use kishu_journal::Journal;
use kishu_model::{Request, Steps};
use std::sync::ledger::Ledger;

impl Head {
    /// Works a request out on the graph and the live state, and prepares its record. Where there is none,
    /// nothing has changed; but after cells that left a state that is too large the head's was loaded. The
    /// host is only read.
    pub(crate) fn prepare<H: Host, L: Ledger>(
        &mut self,
        host: &mut H,
        journal: &Journal,
        request: &Request,
        steps: &mut Steps<L>,
    ) -> Result<Prepared, Unprepared>
        requires known { IsKnown self.old journal.now.place }
        requires whole { IsWhole (state_of self.old.live) }
        requires room { HasRoom (request_of request.now) }
        ensures leads { IfOk result (LeadsOn (told_file (H.state host.old)) journal.now.place
            self.old self.new (request_of request.now)) }
        ensures stays { IfOk result (StaysWithout self.old self.new host.old host.new) }
        ensures quiet { IsQuiet (H.state host.old) (H.state host.new) }
        ensures least { OnOk result (CountsOn self.old (request_of request.now) steps.old steps.new) }
        ensures reads { IfOk result (ReadsFor self.old self.new (H.state host.old) (H.state host.new)
            (request_of request.now)) }
        ensures idle { IsIdle (request_of request.now) → host.new ≡ host.old }
        ensures still { LeavesSteps self.old (request_of request.now) → steps.new ≡ steps.old }
        ensures most { IfOk result (λ p. CountsFor self.old self.new (request_of request.now) p.answer
            steps.old steps.new) }
        ensures whole { OnOk result (IsWhole (state_of self.new.live)) }
        ensures damaged { (at : ℕ) → IsErrOf result (Damaged at)
            → LacksFor self.old.graph (H.state host.old) (request_of request.now) at }
        ensures disk_fault { IsErrOf result DiskFault → DiskFailed (H.state host.old) (H.state host.new) }
    {
        match request {
            Request::Cell { text } => self.cell(host, journal, text, steps),
            Request::Cells { texts } => self.cells(host, journal, texts, steps),
            Request::Checkout { to } => self.checkout(host, journal, to.as_str(), steps),
            Request::Branch { name, at } => Ok(self.branch(name, at)?),
            Request::Log => Ok(self.log()?),
            Request::Status => Ok(self.status()?),
            Request::Inspect => Ok(self.inspect(steps)?),
            Request::Stored { of } => Ok(self.stored(of.as_str())?),
            Request::Plan { to } => Ok(self.plan(to.as_str())?),
        }
    }
}
