// The opening of a session.
ghost use Rattle.std.specs.Prelude.{◌≡◌, ◌≤◌, ◌*◌, ℕ, false, length, IfOk, IfErr, OnOk, IsErrOf};
ghost use Rattle.kishu_host.specs.Host.{Told};
ghost use Rattle.kishu_journal.specs.Facts.{KeepsTables, IsOfHistory, BeginsShort, IsDurable, ReadsFile, WasBroken, WhereForeign, WhereBroken};
ghost use Rattle.kishu_journal.specs.Going.{ReadsAtMost};
ghost use Rattle.kishu_journal.specs.Stores.{Opens};
ghost use Rattle.kishu_session.specs.Attached.{StandsAtEnd, LivesIn};
ghost use Rattle.kishu_session.specs.Attaching.{Attaches, IsBegun, OpensNodes, KeepsGraphs, KeepsGood, KeepsBad, KeepsDamaged, SettlesUnless, SettlesGood, LeavesGraph, LeavesGood, FindsForeign, FindsDamage};
ghost use Rattle.kishu_session.specs.Bounded.{IsBounded};
ghost use Rattle.kishu_session.specs.Faults.{DiskFailed};
ghost use Rattle.kishu_session.specs.Becoming.{LoadsHead};
ghost use Rattle.kishu_session.specs.Head.{IsKnown};
ghost use Rattle.kishu_session.specs.Opening.{HaltsBy, IsOpening, IsUnopened};
ghost use Rattle.kishu_session.specs.Written.{HoldsSome};
ghost use Rattle.kishu_session.specs.declared.halt.Halt.TheVariants.{NotAJournal, Damaged, DiskFault, Closed};

use crate::head::Head;
use crate::{Halt, Session};
use kishu_host::Host;
use kishu_journal::{Journal, JournalFault, OpenStore};
use kishu_model::Steps;
use std::alloc::Global;
use std::sync::ledger::Ledger;

/// Opens the store of a host. A file of at most 17 bytes, whatever they are, is begun anew.
fn opened<H: Host>(alloc: Global, host: &mut H) -> Result<OpenStore, Halt>
    ensures opens { IfOk result (Opens (H.state host.old) (H.state host.new)) }
    ensures tables { IfOk result (λ s. KeepsTables (H.state host.old) s.graph) }
    ensures known { IfOk result (λ s. IsOfHistory s.graph s.journal.place) }
    ensures going { IfOk result (λ s. s.journal.closed ≡ false) }
    ensures begun { OnOk result (BeginsShort (H.state host.old) (H.state host.new)) }
    ensures durable { OnOk result (IsDurable (H.state host.old) (H.state host.new)) }
    ensures opening { IsOpening (IsErrOf result DiskFault) (H.state host.old) (H.state host.new) }
    ensures reads { ReadsFile (H.state host.old) (H.state host.new) }
    ensures foreign { IsErrOf result NotAJournal → FindsForeign (H.state host.old) }
    ensures damaged { (at : ℕ) → IsErrOf result (Damaged at) → WasBroken (H.state host.old) at }
    ensures disk_fault { IsErrOf result DiskFault → DiskFailed (H.state host.old) (H.state host.new) }
    ensures foreign_file { WhereForeign (H.state host.old) (HaltsBy NotAJournal result) }
    ensures broken_file { WhereBroken (H.state host.old) (λ at. HaltsBy (Damaged at) result) }
    ensures only_these { IfErr result IsUnopened }
{
    match Journal::open_store(alloc, host) {
        Ok(store) => Ok(store),
        Err(JournalFault::NotAJournal) => Err(Halt::NotAJournal),
        Err(JournalFault::Damaged { at }) => Err(Halt::Damaged { at }),
        Err(JournalFault::DiskFault) => Err(Halt::DiskFault),
        Err(JournalFault::NoMemory) => Err(Halt::NoMemory),
    }
}

impl Session {
    /// Opens a store, and loads the state of its head. No cell is run. A file of at most 17 bytes, whatever
    /// they are, is begun anew.
    ///
    /// - `NotAJournal`: the file has more than 17 bytes and another header.
    /// - `Damaged`: at that place stands the first open gate behind which no whole record stands that
    ///   fits those before it; or there is no picture there of a group of the head's commit.
    /// - `DiskFault`: a call of the host failed.
    /// - `NoMemory`: there was no memory.
    pub fn attach<H: Host, L: Ledger>(
        alloc: Global,
        host: &mut H,
        steps: &mut Steps<L>,
    ) -> Result<Session, Halt>
        // Over a good file the session is attached to the graph that it holds. It opens no file that holds
        // none, and has what `apply` asks for. A stop then leaves the file alone.
        ensures attached { IfOk result (λ s. Attaches s (H.state host.old) (H.state host.new)) }
        ensures good { OnOk result (Told (H.state host.old) (HoldsSome (H.state host.old).file)) }
        ensures at_end { IfOk result (λ s. Told (H.state host.old) (StandsAtEnd s (H.state host.new))) }
        ensures going { IfOk result (λ s. s.halted ≡ false) }
        ensures begun { OnOk result (IsBegun (H.state host.old) (H.state host.new)) }
        ensures durable { OnOk result (IsDurable (H.state host.old) (H.state host.new)) }

        // On every store the live state is the one that the head's table tells, and was loaded for it.
        ensures live { IfOk result (λ s. LivesIn s (H.state host.new)) }
        ensures loaded { IfOk result (λ s. LoadsHead s (H.state host.old) (H.state host.new)) }

        // On every host there is a history that is kept, and the live state has the names of its head's
        // table, no two rows share a node, and each has a picture of its length. This table is kept, and the
        // digests of these pictures.
        ensures known { IfOk result (λ s. IsKnown s.head s.journal.place) }

        // So these pictures have together at most 2^28 bytes.
        ensures bounded { IfOk result (λ s. IsBounded s.head) }

        // What a file holds stays, and nothing is put out.
        ensures held { KeepsGraphs (H.state host.old) (H.state host.new) }
        ensures held_good { KeepsGood (H.state host.old) (H.state host.new) }
        ensures bad { KeepsBad (H.state host.old) (H.state host.new) }
        ensures out { (H.state host.new).out ≡ (H.state host.old).out }
        ensures settled { SettlesUnless (IsErrOf result DiskFault) (H.state host.old) (H.state host.new) }
        ensures settled_good { SettlesGood (IsErrOf result DiskFault) (H.state host.old) (H.state host.new) }
        ensures stop { LeavesGraph (H.state host.old) (H.state host.new) }
        ensures stop_good { LeavesGood (H.state host.old) (H.state host.new) }
        ensures tells { (H.state host.new).tells ≡ (H.state host.old).tells }

        // Each halt has its cause.
        ensures foreign { IsErrOf result NotAJournal → FindsForeign (H.state host.old) }
        ensures damaged { (at : ℕ) → IsErrOf result (Damaged at) → FindsDamage (H.state host.old) at }
        ensures damaged_stays { (at : ℕ) → IsErrOf result (Damaged at)
            → KeepsDamaged (H.state host.old) (H.state host.new) }
        ensures disk_fault { IsErrOf result DiskFault → DiskFailed (H.state host.old) (H.state host.new) }
        ensures not_closed { IsErrOf result Closed → ⊥ }

        // What it answers over a file that holds no graph, where want of memory and the disk don't come
        // between.
        ensures foreign_file { WhereForeign (H.state host.old) (HaltsBy NotAJournal result) }
        ensures broken_file { WhereBroken (H.state host.old) (λ at. HaltsBy (Damaged at) result) }

        ensures disk { (H.state host.old).disk_faults ≤ (H.state host.new).disk_faults }
        ensures outs { (H.state host.old).out_faults ≤ (H.state host.new).out_faults }

        // From a good file the state gets no more nodes than the pictures of the head's groups have.
        ensures makes { IfOk result (λ s. OpensNodes s (H.state host.old)) }

        // No step is counted, and at most three times as many bytes are read as the file has.
        ensures counted { steps.new ≡ steps.old }
        ensures reads { Told (H.state host.old) (ReadsAtMost (H.state host.old).reads
            (H.state host.new).reads (3 * length (H.state host.old).file)) }
    {
        let OpenStore { journal, graph } = opened(alloc, host)?;
        let head = Head::of_store(alloc, host, &journal, graph)?;
        Ok(Session {
            alloc,
            journal,
            head,
            halted: false,
        })
    }
}
