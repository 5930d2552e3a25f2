// The opening of a store whose graph is made while its records are read.
ghost use Rattle.std.specs.Prelude.{◌≡◌, ◌≤◌, ◌<◌, ◌⊎◌, ◌+◌, ◌-◌, ◌^◌, ℕ, length, take, false, Ok, None, IfOk, IfSome, OnOk, IsErrOf};
ghost use Rattle.kishu_host.specs.Host.{Told};
ghost use Rattle.kishu_store.specs.Holds.{header, fresh_length};
ghost use Rattle.kishu_journal.specs.Facts.{DiskRises, FailsBy, FailsOutside, NotesRecord, TellsDamage, WasForeign, WasBroken, WhereForeign, WhereBroken, WhereGood};
ghost use Rattle.kishu_journal.specs.Facts.{KeepsTables, IsOfHistory, IsDurable, KeepsLong, StaysShort, BeginsShort, Settles, StopsAtOpening, ReadsFile};
ghost use Rattle.kishu_journal.specs.Found.{before_body, IsShut};
ghost use Rattle.kishu_journal.specs.Going.{IsQuiet, ReadsAtMost};
ghost use Rattle.kishu_journal.specs.Stores.{IsRead, Opens};
ghost use Rattle.kishu_journal.specs.Windows.{IsAhead, Shows, end_of};
ghost use Rattle.kishu_journal.specs.declared.journal.JournalFault.TheVariants.{DiskFault, NotAJournal, Damaged};

use crate::head::read_head;
use crate::opening::{begin, read_header};
use crate::read::settle;
use crate::take::note_record;
use crate::window::Window;
use crate::{Journal, JournalFault};
use kishu_graph::Graph;
use kishu_host::Host;
use std::alloc::Global;

/// A store that is open.
#[derive(Drop)]
pub struct OpenStore {
    /// Where the records end.
    pub journal: Journal,
    /// The graph to which they lead, with the tables of its commits.
    pub graph: Graph,
}

/// Changes the graph by what the record behind the gate at a place says, and answers the length of its
/// body. The record isn't kept.
fn note_next<H: Host>(
    alloc: Global,
    host: &mut H,
    window: &mut Window,
    graph: &mut Graph,
    at: u64,
    len: u64,
) -> Result<Option<u64>, JournalFault>
    requires len { Told (H.state host.old) (len ≡ length (H.state host.old).file) }
    requires inside { at < len }
    requires shows { Shows (H.state host.old) window.old }
    requires end { end_of window.old ≤ len }
    requires from { window.old.from ≤ at }
    requires near { at + before_body < 2 ^ 63 }
    ensures ahead { IsAhead (H.state host.old) (H.state host.new) window.old window.new len }
    ensures from { window.new.from ≤ at }
    ensures noted { IfOk result (λ o. IfSome o (NotesRecord graph.old (H.state host.old) at graph.new)) }
    ensures stays { result ≡ Ok None → graph.new ≡ graph.old }
    ensures within { IfOk result (λ o. IfSome o (λ size. at + before_body + size < len)) }
    ensures closed { result ≡ Ok None → Told (H.state host.old) (IsShut (H.state host.old).file at) }
    ensures damaged { TellsDamage graph.old (H.state host.old) at result }
    ensures disk_fault { IsErrOf result DiskFault → DiskRises (H.state host.old) (H.state host.new) }
    ensures not_foreign { IsErrOf result NotAJournal → ⊥ }
{
    let Some(head) = read_head(host, window, at, len)? else {
        return Ok(None);
    };
    let bytes = window.part(at + 13, head.bytes);
    match note_record(alloc, graph, at + 9, bytes, head.pictures) {
        Ok(true) => Ok(Some(4 + head.bytes as u64 + head.pictures)),
        Ok(false) => Err(JournalFault::Damaged { at }),
        Err(_) => Err(JournalFault::NoMemory),
    }
}

/// Reads the records of a file of this length: the graph to which they lead, and the place of the closed
/// gate behind them.
fn read_graph<H: Host>(alloc: Global, host: &mut H, len: u64) -> Result<(Graph, u64), JournalFault>
    requires len { Told (H.state host.old) (len ≡ length (H.state host.old).file) }
    requires long { fresh_length < len }
    requires header { Told (H.state host.old) (take 16 (H.state host.old).file ≡ header) }
    ensures quiet { IsQuiet (H.state host.old) (H.state host.new) }
    ensures read { IfOk result (λ r. IsRead (H.state host.new) r.1 r.0) }
    ensures damaged { (at : ℕ) → IsErrOf result (Damaged at) → WasBroken (H.state host.old) at }
    ensures disk_fault { IsErrOf result DiskFault → DiskRises (H.state host.old) (H.state host.new) }
    ensures not_foreign { IsErrOf result NotAJournal → ⊥ }
    ensures reads { ReadsAtMost (H.state host.old).reads (H.state host.new).reads (len - 16) }
{
    let Ok(mut graph) = Graph::new(alloc) else {
        return Err(JournalFault::NoMemory);
    };
    let mut window = Window::new(alloc, 16);
    let mut at = 16;
    while let Some(size) = note_next(alloc, host, &mut window, &mut graph, at, len)? {
        at = at + 9 + size;
    }
    Ok((graph, at))
}

/// Reads a file of this length, which is too long to be begun anew.
fn read_store<H: Host>(alloc: Global, host: &mut H, len: u64) -> Result<(Graph, u64), JournalFault>
    requires len { Told (H.state host.old) (len ≡ length (H.state host.old).file) }
    requires long { fresh_length < len }
    ensures quiet { IsQuiet (H.state host.old) (H.state host.new) }
    ensures read { IfOk result (λ r. IsRead (H.state host.new) r.1 r.0) }
    ensures foreign { IsErrOf result NotAJournal → WasForeign (H.state host.old) }
    ensures damaged { (at : ℕ) → IsErrOf result (Damaged at) → WasBroken (H.state host.old) at }
    ensures disk_fault { IsErrOf result DiskFault → DiskRises (H.state host.old) (H.state host.new) }
    ensures reads { ReadsAtMost (H.state host.old).reads (H.state host.new).reads len }
{
    read_header(host, len)?;
    read_graph(alloc, host, len)
}

impl Journal {
    /// Opens a store as `attach` does, and makes the graph of its records while it reads them: no record
    /// is kept.
    ///
    /// - `NotAJournal`: the file has more than 17 bytes and another header.
    /// - `Damaged`: at that place stands the first open gate behind which no whole record stands that
    ///   fits behind those before it.
    /// - `DiskFault`: a call of the host failed.
    /// - `NoMemory`: there was no memory for the graph, or for a record while it was read.
    pub fn open_store<H: Host>(alloc: Global, host: &mut H) -> Result<OpenStore, JournalFault>
        // It opens only a file that holds a graph, and makes that graph.
        ensures opens { IfOk result (Opens (H.state host.old) (H.state host.new)) }

        // The tables of its commits are those that the file gives; and whatever the host tells, records lead to it.
        ensures tables { IfOk result (λ s. KeepsTables (H.state host.old) s.graph) }
        ensures known { IfOk result (λ s. IsOfHistory s.graph s.journal.place) }
        ensures opened { IfOk result (λ s. s.journal.closed ≡ false) }
        ensures durable { IsErrOf result DiskFault ⊎ IsDurable (H.state host.old) (H.state host.new) }
        ensures out { (H.state host.new).out ≡ (H.state host.old).out }
        ensures kept { KeepsLong (H.state host.old) (H.state host.new) }
        ensures short { StaysShort (H.state host.old) (H.state host.new) }

        // A short file is begun anew with a closed gate of 0.
        ensures begun { OnOk result (BeginsShort (H.state host.old) (H.state host.new)) }

        // Until a sync has succeeded all is as it was. Then a stop leaves the file as it reads, or a short one in the place of a short one.
        ensures settled { Settles (IsErrOf result DiskFault) (H.state host.old) (H.state host.new) }

        // A stop leaves a file that a stop at its start could leave, or a short one in the place of a short one.
        ensures stop { StopsAtOpening (H.state host.old) (H.state host.new) }
        ensures tells { (H.state host.new).tells ≡ (H.state host.old).tells }

        ensures foreign { IsErrOf result NotAJournal → WasForeign (H.state host.old) }
        ensures damaged { (at : ℕ) → IsErrOf result (Damaged at) → WasBroken (H.state host.old) at }
        ensures disk_fault { IsErrOf result DiskFault → DiskRises (H.state host.old) (H.state host.new) }

        // What it answers where want of memory and the disk don't come between.
        ensures foreign_file { WhereForeign (H.state host.old) (FailsBy NotAJournal result) }
        ensures broken_file { WhereBroken (H.state host.old) (λ at. FailsBy (Damaged at) result) }
        ensures good_file { WhereGood (H.state host.old) (FailsOutside result) }

        ensures disk { (H.state host.old).disk_faults ≤ (H.state host.new).disk_faults }
        ensures outs { (H.state host.old).out_faults ≤ (H.state host.new).out_faults }
        ensures reads { ReadsFile (H.state host.old) (H.state host.new) }
    {
        let Ok(len) = settle(host) else {
            return Err(JournalFault::DiskFault);
        };
        if len <= 17 {
            let Ok(()) = begin(host) else {
                return Err(JournalFault::DiskFault);
            };
            let Ok(graph) = Graph::new(alloc) else {
                return Err(JournalFault::NoMemory);
            };
            return Ok(OpenStore {
                journal: Journal::at(16),
                graph,
            });
        }
        let (graph, place) = read_store(alloc, host, len)?;
        Ok(OpenStore {
            journal: Journal::at(place),
            graph,
        })
    }
}
