ghost use Rattle.std.specs.Prelude.{◌≡◌, ◌≤◌, ◌<◌, ◌⊎◌, ◌+◌, ◌^◌, ◌++◌, ◌∷◌, [], length, false, IfOk, OnOk, IfErr, IsErrOf, IsTrue, ◌↔◌};
ghost use Rattle.kishu_host.specs.Host.{Told, HasCause};
ghost use Rattle.kishu_store.specs.Limits.{longest_body};
ghost use Rattle.kishu_store.specs.Holds.{framed};
ghost use Rattle.kishu_journal.specs.Facts.{DiskRises, IsDurable, HasWritten, GainsRecord, StopsAtRecord, MayAppend, HasAppended, Adds, AddsRecord, StopsAtEntry, StopsAtNext, ReadsNone};
ghost use Rattle.kishu_journal.specs.Found.{before_body};
ghost use Rattle.kishu_journal.specs.declared.journal.JournalFault.TheVariants.{DiskFault, NoMemory};

use crate::{Journal, JournalFault};
use kishu_host::{Failed, Host};
use std::alloc::{AllocError, Global};

pub(crate) const OPEN: u8 = 0xa5;

const CLOSED: u8 = 0;

// No store comes so far: past it there is said to be no memory.
const FAR: u64 = 1 << 62;

/// A body behind its length, and a closed gate.
#[tactic(auto, unfolding(kishu_store::specs::Holds::framed))]
fn record_bytes(alloc: Global, body: &[u8]) -> Result<Vec<u8>, AllocError>
    ensures { IfOk result (λ v. v.items ≡ framed body.now ++ 0 ∷ []) }
{
    let mut bytes = Vec::new(alloc);
    bytes.extend_from_slice(&(body.len() as u64).to_be_bytes())?;
    bytes.extend_from_slice(body)?;
    bytes.push(CLOSED)?;
    Ok(bytes)
}

/// Writes a record behind the closed gate at a place, and then opens that gate.
fn write_record<H: Host>(host: &mut H, place: u64, bytes: &[u8]) -> Result<(), Failed>
    requires room { place + 1 < 2 ^ 64 }
    requires inside { Told (H.state host.old) (place + 1 ≤ length (H.state host.old).file) }

    ensures written { OnOk result (GainsRecord (H.state host.old) (H.state host.new) place bytes.now) }
    ensures bytes { OnOk result (HasWritten (H.state host.old) (H.state host.new) place bytes.now) }
    ensures durable { OnOk result (IsDurable (H.state host.old) (H.state host.new)) }
    ensures kept { (H.state host.new).out ≡ (H.state host.old).out }
    ensures stop { StopsAtRecord (H.state host.old) (H.state host.new) place bytes.now }
    ensures tells { (H.state host.new).tells ≡ (H.state host.old).tells }
    ensures reads { ReadsNone (H.state host.old) (H.state host.new) }
    ensures disk { HasCause (H.state host.old).disk_faults (H.state host.new).disk_faults result }
    ensures outs { (H.state host.old).out_faults ≤ (H.state host.new).out_faults }
{
    host.write_at(place + 1, bytes)?;
    host.sync()?;
    host.write_at(place, &[OPEN])?;
    host.sync()?;
    Ok(())
}

impl Journal {
    /// Appends a record by its body, and answers the body's place in the file, in bytes. The body is
    /// that of a record that fits behind those of the store, and has at most 2^30 bytes.
    ///
    /// After `Ok` the gate at which the records ended is open, behind it stand the body's length, the
    /// body and a closed gate, and a stop leaves just this. It reads no byte.
    ///
    /// - `DiskFault`: a call of the host failed. The journal is closed then; the file holds the
    ///   records as they were, or with the new one.
    /// - `NoMemory`: there was no memory, or the records end at byte 2^62 or later.
    ///   Nothing has changed.
    pub fn append<H: Host>(
        &mut self,
        alloc: Global,
        host: &mut H,
        body: &[u8],
    ) -> Result<u64, JournalFault>
        requires open { self.old.closed ≡ false }
        requires short { length body.now ≤ longest_body }
        requires next { MayAppend self.old (H.state host.old) body.now }

        ensures stands { OnOk result (Adds self.old self.new (H.state host.old) (H.state host.new) body.now) }
        ensures records { OnOk result (AddsRecord self.old (H.state host.old) (H.state host.new) body.now) }

        // The record's bytes stand from the gate on, and the gate behind it is 0. What stood further behind stays.
        ensures bytes { OnOk result (HasAppended self.old (H.state host.old) (H.state host.new) body.now) }
        ensures durable { OnOk result (IsDurable (H.state host.old) (H.state host.new)) }
        ensures out { (H.state host.new).out ≡ (H.state host.old).out }

        // A stop at any moment leaves the records before, with or without the new one.
        ensures stop { StopsAtEntry self.old (H.state host.old) (H.state host.new) body.now }
        ensures stop_records { StopsAtNext self.old (H.state host.old) (H.state host.new) body.now }
        ensures tells { (H.state host.new).tells ≡ (H.state host.old).tells }

        ensures answer { IfOk result (λ at. at ≡ self.old.place + before_body) }
        ensures place { OnOk result (self.new.place ≡ self.old.place + before_body + length body.now) }
        ensures closed { IsTrue self.new.closed ↔ IsErrOf result DiskFault }
        ensures only_these { IfErr result (λ e. (e ≡ DiskFault) ⊎ (e ≡ NoMemory)) }
        ensures disk_fault { IsErrOf result DiskFault → DiskRises (H.state host.old) (H.state host.new) }
        ensures no_memory { IsErrOf result NoMemory → (host.new ≡ host.old) × (self.new ≡ self.old) }
        ensures disk { (H.state host.old).disk_faults ≤ (H.state host.new).disk_faults }
        ensures outs { (H.state host.old).out_faults ≤ (H.state host.new).out_faults }
        ensures reads { IsErrOf result NoMemory ⊎ ReadsNone (H.state host.old) (H.state host.new) }
    {
        let place = self.place();
        if place >= FAR {
            return Err(JournalFault::NoMemory);
        }
        let Ok(bytes) = record_bytes(alloc, body) else {
            return Err(JournalFault::NoMemory);
        };
        let Ok(()) = write_record(host, place, &bytes) else {
            self.close();
            return Err(JournalFault::DiskFault);
        };
        let at = place + 9;
        self.move_to(at + body.len() as u64);
        Ok(at)
    }
}
