// The carrying of the live state from one commit's table to another's.
ghost use Rattle.std.specs.Prelude.{◌≡◌, ◌≤◌, ◌^◌, ℕ, length, OnOk, IsErrOf};
ghost use Rattle.kishu_host.specs.Host.{ReadsMore};
ghost use Rattle.kishu_store.specs.Tables.{bytes_in};
ghost use Rattle.kishu_anew.specs.Anew.{IsWhole};
ghost use Rattle.kishu_checkout.specs.Pictures.{told_file};
ghost use Rattle.kishu_journal.specs.Going.{IsQuiet};
ghost use Rattle.kishu_session.specs.Faults.{DiskFailed};
ghost use Rattle.kishu_session.specs.Head.{Carries, Counts, KeepsSome, LacksToLoad, ReadsToLoad, rows_to_load};
ghost use Rattle.kishu_session.specs.Known.{HasHistory};
ghost use Rattle.kishu_session.specs.Lives.{state_of};
ghost use Rattle.kishu_session.specs.declared.unprepared.Unprepared.TheVariants.{Damaged, DiskFault};

use crate::counting::count_to;
use crate::head::Head;
use crate::keeping::keep_carried;
use crate::unprepared::Unprepared;
use kishu_checkout::{fetch, plan};
use kishu_host::Host;
use kishu_journal::Journal;

impl Head {
    /// Carries the live state on to the commit on which the head stands, from the one whose table is kept:
    /// what both tables have alike stays, the names of the other groups are unbound, and the pictures of the
    /// other rows are loaded. Just these are read. Counts the cells on the path to the commit.
    pub(crate) fn carry<H: Host>(
        &mut self,
        host: &mut H,
        journal: &Journal,
    ) -> Result<(), Unprepared>
        requires known { HasHistory self.old.graph }
        requires keeps { KeepsSome self.old }
        requires room { length self.old.live.heap ≤ 2 ^ 31 }
        ensures carries { OnOk result (Carries (told_file (H.state host.old)) self.old self.new) }
        ensures count { OnOk result (Counts self.new) }
        ensures graph { self.new.graph ≡ self.old.graph }
        ensures whole { OnOk result (IsWhole (state_of self.old.live) → IsWhole (state_of self.new.live)) }
        ensures quiet { IsQuiet (H.state host.old) (H.state host.new) }
        ensures reads { OnOk result (ReadsMore (H.state host.old).reads (H.state host.new).reads
            (bytes_in (rows_to_load self.old self.new))) }
        ensures reads_most { ReadsToLoad self.old (H.state host.old) (H.state host.new) }
        ensures damaged { (at : ℕ) → IsErrOf result (Damaged at)
            → LacksToLoad self.old (H.state host.old) at }
        ensures disk_fault { IsErrOf result DiskFault → DiskFailed (H.state host.old) (H.state host.new) }
    {
        let commit = self.graph.head().commit;
        let table = self.graph.table(commit)?;
        let plan = plan(self.alloc, &self.table, &table)?;
        let pictures = fetch(self.alloc, host, journal, &plan)?;
        self.live.place(self.alloc, &plan, &pictures)?;
        keep_carried(&mut self.kept, &plan, &pictures)?;
        self.table = table;
        self.cells = count_to(&self.graph, commit);
        Ok(())
    }
}
