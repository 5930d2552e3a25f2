// What a session keeps of its store's graph, and the state at its head.
ghost use Rattle.std.specs.Prelude.{◌≡◌, ℕ, Some, None, IfOk, OnOk, IsErrOf};
ghost use Rattle.kishu_anew.specs.Anew.{IsWhole};
ghost use Rattle.kishu_checkout.specs.Pictures.{told_file};
ghost use Rattle.kishu_journal.specs.Going.{IsQuiet};
ghost use Rattle.kishu_model.specs.Answers.{refused};
ghost use Rattle.kishu_model.specs.Values.{answer_of, refusal_of};
ghost use Rattle.kishu_session.specs.Faults.{DiskFailed};
ghost use Rattle.kishu_session.specs.Head.{Counts, IsLoaded, LacksAtHead, ReadsAtHead};
ghost use Rattle.kishu_session.specs.Known.{HasHistory};
ghost use Rattle.kishu_session.specs.Lives.{state_of};
ghost use Rattle.kishu_session.specs.Prepared.{IsBack};
ghost use Rattle.kishu_session.specs.declared.unprepared.Unprepared.TheVariants.{Damaged, DiskFault};

use crate::live::Live;
use crate::prepared::Prepared;
use crate::unprepared::Unprepared;
use kishu_delta::Kept;
use kishu_graph::{Graph, Table};
use kishu_host::Host;
use kishu_journal::Journal;
use kishu_model::Refusal;
use std::alloc::Global;

/// A store's graph, the table of its head with the digest of each group's picture, how many cells are on the
/// path there, and the state there.
#[derive(Drop)]
pub(crate) struct Head {
    pub(crate) alloc: Global,
    pub(crate) graph: Graph,
    pub(crate) table: Table,
    pub(crate) kept: Kept,
    pub(crate) cells: u64,
    pub(crate) live: Live,
}

impl Head {
    /// The head of a store's graph, whose state is loaded.
    pub(crate) fn of_store<H: Host>(
        alloc: Global,
        host: &mut H,
        journal: &Journal,
        graph: Graph,
    ) -> Result<Head, Unprepared>
        requires known { HasHistory graph }
        ensures loaded { IfOk result (λ head. IsLoaded (told_file (H.state host.old)) head) }
        ensures count { IfOk result (λ head. Counts head) }
        ensures graph { IfOk result (λ head. head.graph ≡ graph) }
        ensures whole { IfOk result (λ head. IsWhole (state_of head.live)) }
        ensures quiet { IsQuiet (H.state host.old) (H.state host.new) }
        ensures reads { ReadsAtHead graph (H.state host.old) (H.state host.new) }
        ensures damaged { (at : ℕ) → IsErrOf result (Damaged at) → LacksAtHead graph (H.state host.old) at }
        ensures disk_fault { IsErrOf result DiskFault → DiskFailed (H.state host.old) (H.state host.new) }
    {
        let mut head = Head {
            alloc,
            graph,
            table: Table {
                rows: Vec::new(alloc),
            },
            kept: Kept::new(alloc),
            cells: 0,
            live: Live::new(alloc),
        };
        head.load(host, journal)?;
        Ok(head)
    }

    /// Loads the state of the head's commit into an empty heap and empty names: the pictures of all the rows
    /// of its table, since the empty table has none of them. Counts the cells on the path to it.
    pub(crate) fn load<H: Host>(
        &mut self,
        host: &mut H,
        journal: &Journal,
    ) -> Result<(), Unprepared>
        requires known { HasHistory self.old.graph }
        ensures loaded { OnOk result (IsLoaded (told_file (H.state host.old)) self.new) }
        ensures count { OnOk result (Counts self.new) }
        ensures graph { self.new.graph ≡ self.old.graph }
        ensures whole { OnOk result (IsWhole (state_of self.new.live)) }
        ensures quiet { IsQuiet (H.state host.old) (H.state host.new) }
        ensures reads { ReadsAtHead self.old.graph (H.state host.old) (H.state host.new) }
        ensures damaged { (at : ℕ) → IsErrOf result (Damaged at)
            → LacksAtHead self.old.graph (H.state host.old) at }
        ensures disk_fault { IsErrOf result DiskFault → DiskFailed (H.state host.old) (H.state host.new) }
    {
        // The old heap is gone while the new one is loaded.
        self.live = Live::new(self.alloc);
        self.kept = Kept::new(self.alloc);
        self.table = Table {
            rows: Vec::new(self.alloc),
        };
        self.carry(host, journal)
    }

    /// Goes back to the head's state, since cells left one that is too large, and refuses them.
    pub(crate) fn back<H: Host>(
        &mut self,
        host: &mut H,
        journal: &Journal,
        refusal: Refusal,
    ) -> Result<Prepared, Unprepared>
        requires known { HasHistory self.old.graph }
        ensures answer { IfOk result (λ p. answer_of p.answer ≡ Some (refused (refusal_of refusal))) }
        ensures record { IfOk result (λ p. p.recorded ≡ None) }
        ensures back { OnOk result (IsBack (told_file (H.state host.old)) self.old self.new) }
        ensures count { OnOk result (Counts self.new) }
        ensures whole { OnOk result (IsWhole (state_of self.new.live)) }
        ensures quiet { IsQuiet (H.state host.old) (H.state host.new) }
        ensures damaged { (at : ℕ) → IsErrOf result (Damaged at)
            → LacksAtHead self.old.graph (H.state host.old) at }
        ensures disk_fault { IsErrOf result DiskFault → DiskFailed (H.state host.old) (H.state host.new) }
    {
        self.load(host, journal)?;
        Ok(Prepared::refused(refusal))
    }
}
