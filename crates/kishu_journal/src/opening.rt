ghost use Rattle.std.specs.Prelude.{◌≡◌, ◌≤◌, ◌<◌, ◌⊎◌, ◌+◌, ◌-◌, ◌^◌, ℕ, length, take, true, false, IfOk, IfSome, OnOk, IsErrOf, None, Ok};
ghost use Rattle.kishu_host.specs.Host.{Told, HasCause};
ghost use Rattle.std.specs.List.{AllByRecursion};
ghost use Rattle.kishu_store.specs.Histories.{body_length, new_history};
ghost use Rattle.kishu_store.specs.Limits.{most_records};
ghost use Rattle.kishu_store.specs.Rules.{IsEntry};
ghost use Rattle.kishu_store.specs.Holds.{header, fresh_length};
ghost use Rattle.kishu_record.specs.Entries.{entry_of};
ghost use Rattle.kishu_journal.specs.Facts.{DiskRises, FailsBy, FailsOutside, RecordAt, TellsDamage, WasForeign, WasBroken, WhereForeign, WhereBroken, WhereGood};
ghost use Rattle.kishu_journal.specs.Facts.{HoldsFound, StandsFound, IsDurable, Settled, KeepsLong, StaysShort, BeginsShort, LeavesOnlyShort, StopsShort, Settles, StopsAtOpening, ReadsFile};
ghost use Rattle.kishu_journal.specs.Following.{GoOn};
ghost use Rattle.kishu_journal.specs.Going.{IsQuiet, ReadsAtMost};
ghost use Rattle.kishu_journal.specs.Found.{before_body, IsShut, entries_of, AllFit, AreBelow};
ghost use Rattle.kishu_journal.specs.Opened.{IsFound, IsOpened};
ghost use Rattle.kishu_journal.specs.Windows.{IsAhead, Shows, end_of};
ghost use Rattle.kishu_journal.specs.Bytes.{fresh};
ghost use Rattle.kishu_journal.specs.declared.journal.JournalFault.TheVariants.{DiskFault, NotAJournal, Damaged};

use crate::head::read_head;
use crate::read::{read_exact, settle};
use crate::take::take_record;
use crate::window::Window;
use crate::{Entry, Journal, JournalFault};
use kishu_graph::Graph;
use kishu_host::{Failed, Host};
use std::alloc::Global;

const HEADER: [u8; 16] = *b"KISHU-JOURNAL-1\n";

const FRESH: [u8; 17] = *b"KISHU-JOURNAL-1\n\0";

/// Begins a short file anew.
#[tactic(auto, unfolding(kishu_store::specs::Holds::header))]
pub(crate) fn begin<H: Host>(host: &mut H) -> Result<(), Failed>
    requires { Told (H.state host.old) (length (H.state host.old).file ≤ fresh_length) }
    ensures fresh { OnOk result (Told (H.state host.old) ((H.state host.new).file ≡ fresh)) }
    ensures durable { OnOk result (IsDurable (H.state host.old) (H.state host.new)) }
    ensures out { (H.state host.new).out ≡ (H.state host.old).out }
    ensures stop { StopsShort (H.state host.old) (H.state host.new) }
    ensures short { Settled (H.state host.old) (length (H.state host.new).file ≤ fresh_length) }
    ensures leaves { Settled (H.state host.old) (LeavesOnlyShort (H.state host.new)) }
    ensures tells { (H.state host.new).tells ≡ (H.state host.old).tells }
    ensures disk { HasCause (H.state host.old).disk_faults (H.state host.new).disk_faults result }
    ensures outs { (H.state host.old).out_faults ≤ (H.state host.new).out_faults }
    ensures reads { ReadsAtMost (H.state host.old).reads (H.state host.new).reads 0 }
{
    host.write_at(0, &FRESH)?;
    host.sync()?;
    Ok(())
}

/// What the record behind the gate at a place says, and its body's length. The graph is changed by it.
fn next_record<H: Host>(
    alloc: Global,
    host: &mut H,
    window: &mut Window,
    graph: &mut Graph,
    at: u64,
    len: u64,
) -> Result<Option<(Entry, u64)>, JournalFault>
    requires len { Told (H.state host.old) (len ≡ length (H.state host.old).file) }
    requires inside { at < len }
    requires shows { Shows (H.state host.old) window.old }
    requires end { end_of window.old ≤ len }
    requires from { window.old.from ≤ at }
    requires near { at + before_body < 2 ^ 63 }
    ensures ahead { IsAhead (H.state host.old) (H.state host.new) window.old window.new len }
    ensures from { window.new.from ≤ at }
    ensures record { IfOk result (λ o. IfSome o (λ r. RecordAt (H.state host.old) at (entry_of r.0))) }
    ensures made { IfOk result (λ o.
        IfSome o (λ r. GoOn graph.old (at + before_body) (entry_of r.0) graph.new)) }
    ensures stays { result ≡ Ok None → graph.new ≡ graph.old }
    ensures size { IfOk result (λ o. IfSome o (λ r. r.1 ≡ body_length (entry_of r.0))) }
    ensures within { IfOk result (λ o. IfSome o (λ r. at + before_body + r.1 < len)) }
    ensures closed { result ≡ Ok None → Told (H.state host.old) (IsShut (H.state host.old).file at) }
    ensures damaged { TellsDamage graph.old (H.state host.old) at result }
    ensures disk_fault { IsErrOf result DiskFault → DiskRises (H.state host.old) (H.state host.new) }
    ensures not_foreign { IsErrOf result NotAJournal → ⊥ }
{
    let Some(head) = read_head(host, window, at, len)? else {
        return Ok(None);
    };
    let bytes = window.part(at + 13, head.bytes);
    match take_record(alloc, graph, at + 9, bytes, head.pictures) {
        Ok(Some(entry)) => Ok(Some((entry, 4 + head.bytes as u64 + head.pictures))),
        Ok(None) => Err(JournalFault::Damaged { at }),
        Err(_) => Err(JournalFault::NoMemory),
    }
}

/// Reads the records of a file of this length, each with the place of its body.
fn read_records<H: Host>(
    alloc: Global,
    host: &mut H,
    len: u64,
) -> Result<(Vec<(u64, Entry)>, u64), JournalFault>
    requires len { Told (H.state host.old) (len ≡ length (H.state host.old).file) }
    requires long { fresh_length < len }
    requires head { Told (H.state host.old) (take 16 (H.state host.old).file ≡ header) }
    ensures quiet { IsQuiet (H.state host.old) (H.state host.new) }
    ensures found { IfOk result (λ r. IsOpened (H.state host.old) r.1 r.0.items) }
    ensures damaged { (at : ℕ) → IsErrOf result (Damaged at) → WasBroken (H.state host.old) at }
    ensures disk_fault { IsErrOf result DiskFault → DiskRises (H.state host.old) (H.state host.new) }
    ensures not_foreign { IsErrOf result NotAJournal → ⊥ }
    ensures reads { ReadsAtMost (H.state host.old).reads (H.state host.new).reads (len - 16) }
{
    let Ok(mut graph) = Graph::new(alloc) else {
        return Err(JournalFault::NoMemory);
    };
    let mut window = Window::new(alloc, 16);
    let mut found = Vec::new(alloc);
    let mut at = 16;
    while let Some((entry, size)) = next_record(alloc, host, &mut window, &mut graph, at, len)? {
        let place = at + 9;
        at = place + size;
        let Ok(()) = found.push((place, entry)) else {
            return Err(JournalFault::NoMemory);
        };
    }
    Ok((found, at))
}

/// Whether a store begins so.
#[tactic(auto, unfolding(kishu_store::specs::Holds::header))]
fn is_header(head: &[u8]) -> bool
    ensures yes { result ≡ true → head.now ≡ header }
    ensures no { result ≡ false → head.now ≡ header → ⊥ }
{
    head == HEADER.as_slice()
}

/// Reads the header of a file of this length.
pub(crate) fn read_header<H: Host>(host: &mut H, len: u64) -> Result<(), JournalFault>
    requires len { Told (H.state host.old) (len ≡ length (H.state host.old).file) }
    requires long { fresh_length < len }
    ensures quiet { IsQuiet (H.state host.old) (H.state host.new) }
    ensures head { OnOk result (Told (H.state host.old) (take 16 (H.state host.old).file ≡ header)) }
    ensures foreign { IsErrOf result NotAJournal → WasForeign (H.state host.old) }
    ensures not_damaged { (at : ℕ) → IsErrOf result (Damaged at) → ⊥ }
    ensures disk_fault { IsErrOf result DiskFault → DiskRises (H.state host.old) (H.state host.new) }
    ensures reads { ReadsAtMost (H.state host.old).reads (H.state host.new).reads 16 }
{
    let mut head = [0; 16];
    match read_exact(host, 0, &mut head) {
        Ok(true) => {}
        Ok(false) => return Err(JournalFault::NotAJournal),
        Err(Failed) => return Err(JournalFault::DiskFault),
    }
    if !is_header(&head) {
        return Err(JournalFault::NotAJournal);
    }
    Ok(())
}

/// Reads a file of this length, which is too long to be begun anew.
fn read_store<H: Host>(
    alloc: Global,
    host: &mut H,
    len: u64,
) -> Result<(Vec<(u64, Entry)>, u64), JournalFault>
    requires len { Told (H.state host.old) (len ≡ length (H.state host.old).file) }
    requires long { fresh_length < len }
    ensures quiet { IsQuiet (H.state host.old) (H.state host.new) }
    ensures found { IfOk result (λ r. IsOpened (H.state host.old) r.1 r.0.items) }
    ensures foreign { IsErrOf result NotAJournal → WasForeign (H.state host.old) }
    ensures damaged { (at : ℕ) → IsErrOf result (Damaged at) → WasBroken (H.state host.old) at }
    ensures disk_fault { IsErrOf result DiskFault → DiskRises (H.state host.old) (H.state host.new) }
    ensures reads { ReadsAtMost (H.state host.old).reads (H.state host.new).reads len }
{
    read_header(host, len)?;
    read_records(alloc, host, len)
}

impl Journal {
    /// Opens a store, and answers a journal at its end and its records in order, each with the place
    /// of its body in the file, in bytes. Unless it ends with `DiskFault`, a stop then leaves just the
    /// file as it reads. A file of at most 17 bytes, whatever they are, is begun anew, with the header
    /// and a closed gate; a longer one stays as it is. No more bytes are read than the file has.
    ///
    /// - `NotAJournal`: the file has more than 17 bytes and another header.
    /// - `Damaged`: at that place stands the first open gate behind which no whole record stands that
    ///   fits behind those before it.
    /// - `DiskFault`: a call of the host failed.
    /// - `NoMemory`: there was no memory for the records.
    pub fn attach<H: Host>(
        alloc: Global,
        host: &mut H,
    ) -> Result<(Journal, Vec<(u64, Entry)>), JournalFault>
        // It opens only a file that holds a graph, and finds its records.
        ensures good { IfOk result (λ r. HoldsFound (H.state host.old) r.1.items) }
        ensures stands { IfOk result (λ r. StandsFound (H.state host.old) (H.state host.new) r.0 r.1.items) }
        ensures found { IfOk result (λ r. IsFound (H.state host.new) r.0 r.1.items) }

        // They keep the rules and fit, whatever the host tells.
        ensures fit { IfOk result (λ r. AllFit new_history (entries_of r.1.items)) }
        ensures rules { IfOk result (λ r. AllByRecursion IsEntry (entries_of r.1.items)) }
        ensures most { IfOk result (λ r. length r.1.items ≤ most_records) }
        ensures near { IfOk result (λ r. AreBelow (2 ^ 63) r.1.items) }
        ensures opened { IfOk result (λ r. r.0.closed ≡ false) }
        ensures durable { IsErrOf result DiskFault ⊎ IsDurable (H.state host.old) (H.state host.new) }
        ensures out { (H.state host.new).out ≡ (H.state host.old).out }
        ensures kept { KeepsLong (H.state host.old) (H.state host.new) }
        ensures short { StaysShort (H.state host.old) (H.state host.new) }

        // A short file is begun anew with a closed gate of 0.
        ensures begun { OnOk result (BeginsShort (H.state host.old) (H.state host.new)) }

        // Until a sync has succeeded all is as it was. Then a stop leaves the file as it reads, or a short one in the place of a short one.
        ensures settled { Settles (IsErrOf result DiskFault) (H.state host.old) (H.state host.new) }

        // A stop leaves a file that a stop at its start could leave, or a short one in the place of a short one.
        ensures stop { StopsAtOpening (H.state host.old) (H.state host.new) }
        ensures tells { (H.state host.new).tells ≡ (H.state host.old).tells }

        ensures foreign { IsErrOf result NotAJournal → WasForeign (H.state host.old) }
        ensures damaged { (at : ℕ) → IsErrOf result (Damaged at) → WasBroken (H.state host.old) at }
        ensures disk_fault { IsErrOf result DiskFault → DiskRises (H.state host.old) (H.state host.new) }

        // What it answers where want of memory and the disk don't come between.
        ensures foreign_file { WhereForeign (H.state host.old) (FailsBy NotAJournal result) }
        ensures broken_file { WhereBroken (H.state host.old) (λ at. FailsBy (Damaged at) result) }
        ensures good_file { WhereGood (H.state host.old) (FailsOutside result) }

        ensures disk { (H.state host.old).disk_faults ≤ (H.state host.new).disk_faults }
        ensures outs { (H.state host.old).out_faults ≤ (H.state host.new).out_faults }
        ensures reads { ReadsFile (H.state host.old) (H.state host.new) }
    {
        let Ok(len) = settle(host) else {
            return Err(JournalFault::DiskFault);
        };
        if len <= 17 {
            let Ok(()) = begin(host) else {
                return Err(JournalFault::DiskFault);
            };
            return Ok((Journal::at(16), Vec::new(alloc)));
        }
        let (found, place) = read_store(alloc, host, len)?;
        Ok((Journal::at(place), found))
    }
}
