// The commit of cells that were run: its record, and what a session keeps of it.
ghost use Rattle.std.specs.Prelude.{◌≡◌, ◌<◌, ◌*◌, ℕ, IfOk, OnOk, IsErrOf, length};
ghost use Rattle.kishu_checkout.specs.Pictures.{told_file};
ghost use Rattle.kishu_commit.specs.Told.{MayBeCommitted};
ghost use Rattle.kishu_graph.specs.Tables.{table_of_rows};
ghost use Rattle.kishu_heap.specs.Costs.{Reads};
ghost use Rattle.kishu_history.specs.Accessed.{accessed_by};
ghost use Rattle.kishu_history.specs.Touched.{touched};
ghost use Rattle.kishu_host.specs.Host.{ReadsMore};
ghost use Rattle.kishu_journal.specs.Going.{IsQuiet};
ghost use Rattle.kishu_meaning.specs.values.Values.{State};
ghost use Rattle.kishu_objects.specs.Picture.{order};
ghost use Rattle.kishu_store.specs.Limits.{most_records, newest_profile};
ghost use Rattle.kishu_store.specs.Tables.{groups_in};
ghost use Rattle.kishu_session.specs.Committing.{HasRun, Commits};
ghost use Rattle.kishu_session.specs.Faults.{DiskFailed};
ghost use Rattle.kishu_session.specs.Head.{LacksAtHead};
ghost use Rattle.kishu_session.specs.Lives.{state_of};
ghost use Rattle.kishu_session.specs.TextLists.{texts_of};
ghost use Rattle.kishu_session.specs.Working.{bytes_asked};
ghost use Rattle.kishu_session.specs.declared.unprepared.Unprepared.TheVariants.{Damaged, DiskFault};

use crate::asking::stored_pictures;
use crate::head::Head;
use crate::unprepared::Unprepared;
use kishu_commit::{Record, commit};
use kishu_delta::{draft, settle};
use kishu_host::Host;
use kishu_journal::{Journal, follow};
use kishu_model::Steps;
use std::rc::RcStr;
use std::sync::ledger::Ledger;

/// A commit: its number, and its record.
#[derive(Drop)]
pub(crate) struct Committed {
    pub(crate) number: u32,
    pub(crate) recorded: Record,
}

/// From a record's gate to its body: the gate, and the body's length.
const BEFORE_BODY: u64 = 9;

// No store comes so far: past it there is said to be no memory.
const FAR: u64 = 1 << 62;

impl Head {
    /// Adds the commit of these cells, which were run on the head's state and left the live one. It drops
    /// and stores just the groups that changed: where a group's picture has the digest and the length that
    /// are kept of it, the stored picture is read, and tells whether the group changed. The new head's table
    /// is kept then, with just the digests of its groups' pictures.
    pub(crate) fn commit<H: Host, L: Ledger>(
        &mut self,
        host: &mut H,
        journal: &Journal,
        cells: &[RcStr],
        steps: &mut Steps<L>,
    ) -> Result<Committed, Unprepared>
        requires cells { MayBeCommitted (texts_of cells.now) }
        requires ran { (before : State) × HasRun journal.now.place before self.old (texts_of cells.now) }
        requires room { self.old.graph.records < most_records }
        ensures commits { IfOk result (λ c. (before : State)
            → HasRun journal.now.place before self.old (texts_of cells.now)
            → Commits (told_file (H.state host.old)) journal.now.place before self.old self.new
            (texts_of cells.now) c) }
        ensures live { self.new.live ≡ self.old.live }
        ensures quiet { IsQuiet (H.state host.old) (H.state host.new) }
        ensures reads { OnOk result ((before : State)
            → HasRun journal.now.place before self.old (texts_of cells.now)
            → ReadsMore (H.state host.old).reads (H.state host.new).reads
            (bytes_asked (groups_in (table_of_rows self.old.table)) before
            (accessed_by newest_profile (texts_of cells.now) before) (state_of self.old.live))) }
        ensures damaged { (at : ℕ) → IsErrOf result (Damaged at)
            → LacksAtHead self.old.graph (H.state host.old) at }
        ensures disk_fault { IsErrOf result DiskFault → DiskFailed (H.state host.old) (H.state host.new) }
        ensures counted { Reads (4 * length (order (state_of self.old.live) (touched
            (groups_in (table_of_rows self.old.table)) self.old.live.names.accessed
            (state_of self.old.live)))) steps.old steps.new }
    {
        let place = journal.place();
        if place >= FAR {
            return Err(Unprepared::NoMemory);
        }
        let parent = self.graph.head().commit;
        let live = &self.live;
        // By the names that were accessed a namespace also tells that what it binds are names.
        let _accessed = live.names.accessed();
        let draft = draft(
            self.alloc,
            &self.kept,
            &self.table,
            &live.heap,
            &live.names,
            steps,
        )?;
        let stored = stored_pictures(self.alloc, host, journal, &draft.asked)?;
        let delta = settle(self.alloc, &mut self.kept, draft, &stored)?;
        let made = commit(self.alloc, parent, cells, delta)?;
        let number = self.graph.commits();
        if !follow(
            self.alloc,
            &mut self.graph,
            &made.entry,
            place + BEFORE_BODY,
        )? {
            unreachable!();
        }
        self.table = self.graph.table(number)?;
        self.cells = self.cells.saturating_add(cells.len() as u64);
        Ok(Committed {
            number,
            recorded: made,
        })
    }
}
