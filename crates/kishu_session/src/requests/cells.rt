// Several cells: they run on the live state, one after another up to the first that doesn't end well, and
// those that were run are one commit. None is kept where one leaves a state that is too large.
ghost use Rattle.std.specs.Prelude.{◌≡◌, ◌≤◌, ◌<◌, ◌+◌, ◌^◌, ◌++◌, ◌∷◌, [], ℕ, length, map, suc, false, None, IfOk, OnOk, IsErrOf};
ghost use Rattle.std.specs.List.{list_any};
ghost use Rattle.kishu_meaning.specs.values.Values.{report_of};
ghost use Rattle.kishu_store.specs.Limits.{most_records};
ghost use Rattle.kishu_store.specs.Tables.{IsKeptTable};
ghost use Rattle.kishu_graph.specs.Tables.{table_of_rows};
ghost use Rattle.kishu_anew.specs.Anew.{IsWhole};
ghost use Rattle.kishu_checkout.specs.Pictures.{told_file};
ghost use Rattle.kishu_history.specs.Live.{IsLive};
ghost use Rattle.kishu_history.specs.Stored.{Stored};
ghost use Rattle.kishu_journal.specs.Going.{IsQuiet};
ghost use Rattle.kishu_model.specs.Values.{counted_of};
ghost use Rattle.kishu_model.specs.requests.Cells.{is_ok, is_too_long, texts_size, largest_texts};
ghost use Rattle.kishu_session.specs.Asked.{cells_for};
ghost use Rattle.kishu_session.specs.Faults.{DiskFailed};
ghost use Rattle.kishu_session.specs.Head.{IsKnown, LacksAtHead};
ghost use Rattle.kishu_session.specs.Lives.{state_of, ran_of, accessed_of_ran, charge_of_ran};
ghost use Rattle.kishu_session.specs.Prepared.{LeadsOn, CountsOn, StaysWithout};
ghost use Rattle.kishu_session.specs.Renewing.{IsLeft};
ghost use Rattle.kishu_session.specs.Running.{IsGivenBy, AreSameNames};
ghost use Rattle.kishu_session.specs.TextLists.{texts_of, AreShort};
ghost use Rattle.kishu_session.specs.Working.{ReadsAsked};
ghost use Rattle.kishu_session.specs.declared.unprepared.Unprepared.TheVariants.{Damaged, DiskFault};

use crate::head::Head;
use crate::live::Live;
use crate::prepared::Prepared;
use crate::unprepared::Unprepared;
use kishu_graph::Table;
use kishu_host::Host;
use kishu_journal::Journal;
use kishu_language::LONGEST_TEXT;
use kishu_meaning::Outcome;
use kishu_model::{Answer, CellResult, Counted, Refusal, Steps};
use kishu_store::MOST_RECORDS;
use std::alloc::{AllocError, Global};
use std::rc::RcStr;
use std::sync::ledger::Ledger;

/// Whether one of these texts is longer than a cell may be.
fn has_long(texts: &[RcStr]) -> bool
    ensures { result ≡ list_any is_too_long (texts_of texts.now) }
{
    for text in texts {
        if text.len() > LONGEST_TEXT {
            return true;
        }
    }
    false
}

/// Whether a further cell is run after this one.
fn ended_well(ran: &CellResult) -> bool
    ensures { result ≡ is_ok (report_of ran.now).outcome }
{
    matches!(ran.outcome, Outcome::Done)
}

/// Puts what one cell more showed behind these. So many cells are on the path before the first of them.
fn push_result(results: &mut Vec<Counted>, before: u64, ran: CellResult) -> Result<(), AllocError>
    ensures shown { OnOk result (before + length results.old.items + 1 < 2 ^ 64
        → map counted_of results.new.items ≡ map counted_of results.old.items
        ++ record { count = suc (before + length results.old.items); report = report_of ran } ∷ []) }
    ensures count { OnOk result (length results.new.items ≡ length results.old.items + 1) }
{
    let count = before
        .saturating_add(results.len() as u64)
        .saturating_add(1);
    results.push(Counted { count, result: ran })?;
    Ok(())
}

/// What running cells gives.
#[derive(Drop)]
enum Several {
    /// What each that was run showed.
    Shown(Vec<Counted>),
    /// The last that was run left a state that is too large.
    TooLarge(Refusal),
}

/// Runs cells in order up to the first that doesn't end well or leaves a state that is too large, as this
/// table tells it, which is that of the state before them. So many cells are on the path before the first of
/// them. Before each of them the state is loaded anew where its heap has more than 8,000,000 nodes.
fn run_cells<L: Ledger>(
    alloc: Global,
    texts: &[RcStr],
    before: u64,
    table: &Table,
    live: &mut Live,
    steps: &mut Steps<L>,
) -> Result<Several, AllocError>
    requires short { AreShort texts.now }
    requires some { 0 < length texts.now }
    requires fresh { live.old.names.accessed ≡ [] }
    requires whole { IsWhole (state_of live.old) }
    requires fit { IsKeptTable (table_of_rows table.now) }
    requires told { IsLive (Stored None) (table_of_rows table.now) (state_of live.old) }
    ensures gives { IfOk result (IsGivenBy before (table_of_rows table.now) live.old texts.now) }
    ensures left { OnOk result (IsLeft (ran_of (table_of_rows table.now) live.old texts.now)
        (state_of live.old) (state_of live.new)) }
    ensures whole { OnOk result (IsWhole (state_of live.new)) }
    ensures accessed { OnOk result (AreSameNames live.new.names.accessed
        (accessed_of_ran (table_of_rows table.now) live.old texts.now)) }
    ensures least { OnOk result
        (steps.old + charge_of_ran (table_of_rows table.now) live.old texts.now ≤ steps.new) }
{
    let mut results = Vec::new(alloc);
    for text in texts {
        let ran = live.run(alloc, text.as_str(), steps)?;
        let found = live.too_large(alloc, table, steps)?;
        if let Some(refusal) = found {
            return Ok(Several::TooLarge(refusal));
        }
        let goes_on = ended_well(&ran);
        push_result(&mut results, before, ran)?;
        if !goes_on {
            return Ok(Several::Shown(results));
        }
    }
    Ok(Several::Shown(results))
}

impl Head {
    /// Runs cells for which the store has room, and prepares the commit of those that were run. They are
    /// refused where one leaves a state that is too large.
    fn commit_cells<H: Host, L: Ledger>(
        &mut self,
        host: &mut H,
        journal: &Journal,
        texts: &[RcStr],
        steps: &mut Steps<L>,
    ) -> Result<Prepared, Unprepared>
        requires known { IsKnown self.old journal.now.place }
        requires whole { IsWhole (state_of self.old.live) }
        requires some { 0 < length texts.now }
        requires short { list_any is_too_long (texts_of texts.now) ≡ false }
        requires size { texts_size (texts_of texts.now) ≤ largest_texts }
        requires room { self.old.graph.records < most_records }
        ensures leads { IfOk result (LeadsOn (told_file (H.state host.old)) journal.now.place
            self.old self.new (cells_for texts.now)) }
        ensures stays { IfOk result (StaysWithout self.old self.new host.old host.new) }
        ensures quiet { IsQuiet (H.state host.old) (H.state host.new) }
        ensures least { OnOk result (CountsOn self.old (cells_for texts.now) steps.old steps.new) }
        ensures reads { IfOk result (ReadsAsked self.old self.new (H.state host.old) (H.state host.new)
            (cells_for texts.now)) }
        ensures whole { OnOk result (IsWhole (state_of self.new.live)) }
        ensures damaged { (at : ℕ) → IsErrOf result (Damaged at)
            → LacksAtHead self.old.graph (H.state host.old) at }
        ensures disk_fault { IsErrOf result DiskFault → DiskFailed (H.state host.old) (H.state host.new) }
    {
        self.live.clear_record();
        let several = run_cells(
            self.alloc,
            texts,
            self.cells,
            &self.table,
            &mut self.live,
            steps,
        )?;
        let results = match several {
            Several::Shown(results) => results,
            Several::TooLarge(refusal) => return self.back(host, journal, refusal),
        };
        let (ran, _) = texts.split_at(results.len());
        let made = self.commit(host, journal, ran, steps)?;
        Ok(Prepared {
            answer: Answer::Cells {
                commit: made.number,
                results,
            },
            recorded: Some(made.recorded),
        })
    }

    /// Runs cells on the live state, one after another up to the first that doesn't end well, and prepares
    /// the commit of those that were run. Cells of which one is too long are refused, and so are cells for a
    /// store that is full, and cells of which one leaves a state that is too large.
    pub(crate) fn cells<H: Host, L: Ledger>(
        &mut self,
        host: &mut H,
        journal: &Journal,
        texts: &[RcStr],
        steps: &mut Steps<L>,
    ) -> Result<Prepared, Unprepared>
        requires known { IsKnown self.old journal.now.place }
        requires whole { IsWhole (state_of self.old.live) }
        requires size { texts_size (texts_of texts.now) ≤ largest_texts }
        ensures leads { IfOk result (LeadsOn (told_file (H.state host.old)) journal.now.place
            self.old self.new (cells_for texts.now)) }
        ensures stays { IfOk result (StaysWithout self.old self.new host.old host.new) }
        ensures quiet { IsQuiet (H.state host.old) (H.state host.new) }
        ensures least { OnOk result (CountsOn self.old (cells_for texts.now) steps.old steps.new) }
        ensures reads { IfOk result (ReadsAsked self.old self.new (H.state host.old) (H.state host.new)
            (cells_for texts.now)) }
        ensures whole { OnOk result (IsWhole (state_of self.new.live)) }
        ensures damaged { (at : ℕ) → IsErrOf result (Damaged at)
            → LacksAtHead self.old.graph (H.state host.old) at }
        ensures disk_fault { IsErrOf result DiskFault → DiskFailed (H.state host.old) (H.state host.new) }
    {
        if texts.is_empty() {
            return Ok(Prepared::refused(Refusal::BadRequest));
        }
        if has_long(texts) {
            return Ok(Prepared::refused(Refusal::CellTooLong));
        }
        if self.graph.records() >= MOST_RECORDS {
            return Ok(Prepared::refused(Refusal::StoreFull));
        }
        self.commit_cells(host, journal, texts, steps)
    }
}
