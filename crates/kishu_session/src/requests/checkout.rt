// A checkout: the head goes to a commit or to a branch, and the live state is carried on to there.
ghost use Rattle.std.specs.Prelude.{◌≡◌, ◌≤◌, ℕ, length, IfOk, IfSome, OnOk, IsErrOf};
ghost use Rattle.kishu_host.specs.Host.{ReadsMore};
ghost use Rattle.kishu_store.specs.Entries.{move, plain};
ghost use Rattle.kishu_store.specs.Limits.{longest_title};
ghost use Rattle.kishu_store.specs.Rules.{IsRecord};
ghost use Rattle.kishu_store.specs.Tables.{bytes_in};
ghost use Rattle.kishu_anew.specs.Anew.{IsWhole, most_kept};
ghost use Rattle.kishu_checkout.specs.Pictures.{told_file};
ghost use Rattle.kishu_journal.specs.Going.{IsQuiet};
ghost use Rattle.kishu_model.specs.Request.{checkout};
ghost use Rattle.kishu_record.specs.Entries.{entry_of};
ghost use Rattle.kishu_session.specs.Faults.{DiskFailed};
ghost use Rattle.kishu_session.specs.Head.{IsKnown, KeepsSome, LacksToLoad, rows_to_load};
ghost use Rattle.kishu_session.specs.Known.{HasHistory};
ghost use Rattle.kishu_session.specs.Lives.{state_of};
ghost use Rattle.kishu_session.specs.Moves.{move_by, IsMoved};
ghost use Rattle.kishu_session.specs.Prepared.{LeadsOn, StaysWithout, LacksFor};
ghost use Rattle.kishu_session.specs.TextLists.{text_in};
ghost use Rattle.kishu_session.specs.Working.{ReadsRows};
ghost use Rattle.kishu_session.specs.declared.unprepared.Unprepared.TheVariants.{Damaged, DiskFault};

use crate::head::Head;
use crate::prepared::Prepared;
use crate::refusing::refusal;
use crate::unprepared::Unprepared;
use kishu_host::Host;
use kishu_journal::Journal;
use kishu_model::{Answer, Steps};
use kishu_record::{Entry, MoveTo};
use std::alloc::AllocError;
use std::rc::RcStr;
use std::sync::ledger::Ledger;

/// The name of a branch, shared.
pub(crate) fn shared(name: &Option<RcStr>) -> Result<Option<RcStr>, AllocError>
    ensures { IfOk result (λ o. text_in o ≡ text_in name.now) }
{
    match name {
        Some(name) => Ok(Some(name.clone()?)),
        None => Ok(None),
    }
}

/// The entry of a head that went to a commit, by way of a branch or not.
fn moved(commit: u32, branch: &Option<RcStr>) -> Result<Entry, AllocError>
    requires { IfSome (text_in branch.now) (λ title. length title ≤ longest_title) }
    ensures entry { IfOk result (λ e. entry_of e ≡ move (move_by commit (text_in branch.now))) }
    ensures rules { IfOk result (λ e. IsRecord (plain (entry_of e))) }
{
    match branch {
        Some(name) => Ok(Entry::Move {
            to: MoveTo::Branch(name.clone()?),
        }),
        None => Ok(Entry::Move {
            to: MoveTo::Commit(commit),
        }),
    }
}

impl Head {
    /// Moves the head to what a reference names, carries the live state on to the commit on which it then
    /// stands, and prepares the move. A refused one changes nothing, and doesn't call the host.
    pub(crate) fn checkout<H: Host, L: Ledger>(
        &mut self,
        host: &mut H,
        journal: &Journal,
        to: &str,
        steps: &mut Steps<L>,
    ) -> Result<Prepared, Unprepared>
        requires known { IsKnown self.old journal.now.place }
        requires whole { IsWhole (state_of self.old.live) }
        ensures leads { IfOk result (LeadsOn (told_file (H.state host.old)) journal.now.place
            self.old self.new (checkout to.now)) }
        ensures stays { IfOk result (StaysWithout self.old self.new host.old host.new) }
        ensures quiet { IsQuiet (H.state host.old) (H.state host.new) }
        ensures reads { IfOk result
            (ReadsRows self.old.graph (H.state host.old) (H.state host.new) to.now) }
        ensures damaged { (at : ℕ) → IsErrOf result (Damaged at)
            → LacksFor self.old.graph (H.state host.old) (checkout to.now) at }
        ensures disk_fault { IsErrOf result DiskFault → DiskFailed (H.state host.old) (H.state host.new) }
        ensures whole { OnOk result (IsWhole (state_of self.new.live)) }
        ensures counted { steps.old ≤ steps.new }
        ensures still { length self.old.live.heap ≤ most_kept → steps.new ≡ steps.old }
    {
        match self.graph.move_head(to) {
            Ok(_) => self.carry_moved(host, journal, steps),
            Err(fault) => Ok(Prepared::refused(refusal(fault)?)),
        }
    }

    /// Carries the live state on to the commit on which the head stands, and prepares the move that led there.
    /// Where its heap has more than 8,000,000 nodes it is loaded anew before.
    fn carry_moved<H: Host, L: Ledger>(
        &mut self,
        host: &mut H,
        journal: &Journal,
        steps: &mut Steps<L>,
    ) -> Result<Prepared, Unprepared>
        requires known { HasHistory self.old.graph }
        requires keeps { KeepsSome self.old }
        requires whole { IsWhole (state_of self.old.live) }
        requires title { IfSome self.old.graph.head.branch (λ title. length title ≤ longest_title) }
        ensures moved { IfOk result (IsMoved (told_file (H.state host.old)) self.old self.new) }
        ensures graph { self.new.graph ≡ self.old.graph }
        ensures quiet { IsQuiet (H.state host.old) (H.state host.new) }
        ensures reads { OnOk result (ReadsMore (H.state host.old).reads (H.state host.new).reads
            (bytes_in (rows_to_load self.old self.new))) }
        ensures damaged { (at : ℕ) → IsErrOf result (Damaged at)
            → LacksToLoad self.old (H.state host.old) at }
        ensures disk_fault { IsErrOf result DiskFault → DiskFailed (H.state host.old) (H.state host.new) }
        ensures whole { OnOk result (IsWhole (state_of self.new.live)) }
        ensures counted { steps.old ≤ steps.new }
        ensures still { length self.old.live.heap ≤ most_kept → steps.new ≡ steps.old }
    {
        self.renew(steps)?;
        self.carry(host, journal)?;
        let head = self.graph.head();
        let answer = Answer::Checkout {
            commit: head.commit,
            head: shared(&head.branch)?,
        };
        let entry = moved(head.commit, &head.branch)?;
        Ok(Prepared::with_entry(self.alloc, answer, entry))
    }
}
