// One cell: it runs on the live state, and is committed.
ghost use Rattle.std.specs.Prelude.{◌≤◌, ◌<◌, ℕ, length, IfOk, OnOk, IsErrOf};
ghost use Rattle.std.specs.Rc.{rc_str_bytes};
ghost use Rattle.kishu_language.specs.Limits.{longest_text};
ghost use Rattle.kishu_store.specs.Limits.{most_records};
ghost use Rattle.kishu_anew.specs.Anew.{IsWhole};
ghost use Rattle.kishu_checkout.specs.Pictures.{told_file};
ghost use Rattle.kishu_journal.specs.Going.{IsQuiet};
ghost use Rattle.kishu_session.specs.Asked.{cell_for};
ghost use Rattle.kishu_session.specs.Faults.{DiskFailed};
ghost use Rattle.kishu_session.specs.Head.{IsKnown, LacksAtHead};
ghost use Rattle.kishu_session.specs.Lives.{state_of};
ghost use Rattle.kishu_session.specs.Prepared.{LeadsOn, CountsOn, StaysWithout};
ghost use Rattle.kishu_session.specs.Working.{ReadsAsked, CountsCell};
ghost use Rattle.kishu_session.specs.declared.unprepared.Unprepared.TheVariants.{Damaged, DiskFault};

use crate::head::Head;
use crate::prepared::Prepared;
use crate::unprepared::Unprepared;
use kishu_host::Host;
use kishu_journal::Journal;
use kishu_language::LONGEST_TEXT;
use kishu_model::{Answer, Refusal, Steps};
use kishu_store::MOST_RECORDS;
use std::rc::RcStr;
use std::slice;
use std::sync::ledger::Ledger;

impl Head {
    /// Runs a cell for which the store has room, and prepares its commit. One that leaves a state that is
    /// too large is refused.
    fn commit_cell<H: Host, L: Ledger>(
        &mut self,
        host: &mut H,
        journal: &Journal,
        text: &RcStr,
        steps: &mut Steps<L>,
    ) -> Result<Prepared, Unprepared>
        requires known { IsKnown self.old journal.now.place }
        requires whole { IsWhole (state_of self.old.live) }
        requires short { length (rc_str_bytes text.now) ≤ longest_text }
        requires room { self.old.graph.records < most_records }
        ensures leads { IfOk result (LeadsOn (told_file (H.state host.old)) journal.now.place
            self.old self.new (cell_for text.now)) }
        ensures stays { IfOk result (StaysWithout self.old self.new host.old host.new) }
        ensures quiet { IsQuiet (H.state host.old) (H.state host.new) }
        ensures least { OnOk result (CountsOn self.old (cell_for text.now) steps.old steps.new) }
        ensures reads { IfOk result (ReadsAsked self.old self.new (H.state host.old) (H.state host.new)
            (cell_for text.now)) }
        ensures most { IfOk result (λ p. CountsCell self.old self.new (rc_str_bytes text.now) p.answer
            steps.old steps.new) }
        ensures whole { OnOk result (IsWhole (state_of self.new.live)) }
        ensures damaged { (at : ℕ) → IsErrOf result (Damaged at)
            → LacksAtHead self.old.graph (H.state host.old) at }
        ensures disk_fault { IsErrOf result DiskFault → DiskFailed (H.state host.old) (H.state host.new) }
    {
        self.live.clear_record();
        let result = self.live.run(self.alloc, text.as_str(), steps)?;
        let found = self.live.too_large(self.alloc, &self.table, steps)?;
        if let Some(refusal) = found {
            return self.back(host, journal, refusal);
        }
        let made = self.commit(host, journal, slice::from_ref(text), steps)?;
        Ok(Prepared {
            answer: Answer::Cell {
                commit: made.number,
                count: self.cells,
                result,
            },
            recorded: Some(made.recorded),
        })
    }

    /// Runs a cell on the live state, and prepares its commit: a text that is too long is refused, and
    /// so is a cell for a store that is full, and one that leaves a state that is too large.
    pub(crate) fn cell<H: Host, L: Ledger>(
        &mut self,
        host: &mut H,
        journal: &Journal,
        text: &RcStr,
        steps: &mut Steps<L>,
    ) -> Result<Prepared, Unprepared>
        requires known { IsKnown self.old journal.now.place }
        requires whole { IsWhole (state_of self.old.live) }
        ensures leads { IfOk result (LeadsOn (told_file (H.state host.old)) journal.now.place
            self.old self.new (cell_for text.now)) }
        ensures stays { IfOk result (StaysWithout self.old self.new host.old host.new) }
        ensures quiet { IsQuiet (H.state host.old) (H.state host.new) }
        ensures least { OnOk result (CountsOn self.old (cell_for text.now) steps.old steps.new) }
        ensures reads { IfOk result (ReadsAsked self.old self.new (H.state host.old) (H.state host.new)
            (cell_for text.now)) }
        ensures most { IfOk result (λ p. CountsCell self.old self.new (rc_str_bytes text.now) p.answer
            steps.old steps.new) }
        ensures whole { OnOk result (IsWhole (state_of self.new.live)) }
        ensures damaged { (at : ℕ) → IsErrOf result (Damaged at)
            → LacksAtHead self.old.graph (H.state host.old) at }
        ensures disk_fault { IsErrOf result DiskFault → DiskFailed (H.state host.old) (H.state host.new) }
    {
        if text.len() > LONGEST_TEXT {
            return Ok(Prepared::refused(Refusal::CellTooLong));
        }
        if self.graph.records() >= MOST_RECORDS {
            return Ok(Prepared::refused(Refusal::StoreFull));
        }
        self.commit_cell(host, journal, text, steps)
    }
}
