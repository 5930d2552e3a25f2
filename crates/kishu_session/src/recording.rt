// The record of what a request leads to, behind those of a store.
ghost use Rattle.std.specs.Prelude.{◌≡◌, ◌≤◌, ◌⊎◌, false, Some, None, OnOk, IfErr, IsErrOf};
ghost use Rattle.kishu_host.specs.Host.{ReadsMore, Told};
ghost use Rattle.kishu_store.specs.Rules.{IsRecord};
ghost use Rattle.kishu_session.specs.Committing.{record_of};
ghost use Rattle.kishu_session.specs.Faults.{DiskFailed};
ghost use Rattle.kishu_session.specs.Prepared.{record_in, MayBeRecorded};
ghost use Rattle.kishu_session.specs.Recording.{MayGoOn, GoesOn, MovesOn, Records, RecordsAtMost, IsDurable, StaysDurable, LeavesOne};
ghost use Rattle.kishu_session.specs.declared.halt.Halt.TheVariants.{DiskFault, NoMemory};

use crate::Halt;
use kishu_commit::Record;
use kishu_host::Host;
use kishu_journal::{Journal, JournalFault};
use kishu_record::encode;
use std::alloc::Global;

/// Appends a record with its pictures.
fn append<H: Host>(
    alloc: Global,
    journal: &mut Journal,
    host: &mut H,
    made: &Record,
) -> Result<(), Halt>
    requires open { journal.old.closed ≡ false }
    requires rules { IsRecord (record_of made.now) }
    requires next { MayGoOn journal.old (H.state host.old) (Some (record_of made.now)) }

    ensures stands { OnOk result
        (GoesOn journal.old journal.new (H.state host.old) (H.state host.new) (Some (record_of made.now))) }
    ensures place { OnOk result (MovesOn journal.old journal.new (Some (record_of made.now))) }
    ensures open { OnOk result (journal.new.closed ≡ false) }
    ensures bytes { OnOk result (Records journal.old (H.state host.old) (H.state host.new)) }
    ensures durable { OnOk result (Told (H.state host.old) (IsDurable (H.state host.new))) }
    ensures stop { LeavesOne journal.old (H.state host.old) (H.state host.new) (Some (record_of made.now)) }
    ensures reads { ReadsMore (H.state host.old).reads (H.state host.new).reads 0 }
    ensures out { (H.state host.new).out ≡ (H.state host.old).out }
    ensures tells { (H.state host.new).tells ≡ (H.state host.old).tells }
    ensures only_these { IfErr result (λ e. (e ≡ DiskFault) ⊎ (e ≡ NoMemory)) }
    ensures disk_fault { IsErrOf result DiskFault → DiskFailed (H.state host.old) (H.state host.new) }
    ensures disk { (H.state host.old).disk_faults ≤ (H.state host.new).disk_faults }
    ensures outs { (H.state host.old).out_faults ≤ (H.state host.new).out_faults }
{
    let Ok(body) = encode(alloc, &made.entry, &made.pictures) else {
        return Err(Halt::NoMemory);
    };
    match journal.append(alloc, host, &body) {
        Ok(_) => Ok(()),
        Err(JournalFault::DiskFault) => Err(Halt::DiskFault),
        Err(JournalFault::NoMemory) => Err(Halt::NoMemory),
        Err(JournalFault::NotAJournal | JournalFault::Damaged { .. }) => unreachable!(),
    }
}

/// Makes what a request leads to last: appends its record, where it has one.
pub(crate) fn record<H: Host>(
    alloc: Global,
    journal: &mut Journal,
    host: &mut H,
    prepared: &Option<Record>,
) -> Result<(), Halt>
    requires open { journal.old.closed ≡ false }
    requires rules { MayBeRecorded (record_in prepared.now) }
    requires next { MayGoOn journal.old (H.state host.old) (record_in prepared.now) }

    ensures stands { OnOk result
        (GoesOn journal.old journal.new (H.state host.old) (H.state host.new) (record_in prepared.now)) }
    ensures place { OnOk result (MovesOn journal.old journal.new (record_in prepared.now)) }
    ensures open { OnOk result (journal.new.closed ≡ false) }
    ensures bytes { OnOk result (RecordsAtMost journal.old (H.state host.old) (H.state host.new)) }
    ensures durable { OnOk result (StaysDurable (H.state host.old) (H.state host.new)) }
    ensures quiet { OnOk result (prepared.now ≡ None → host.new ≡ host.old) }
    ensures stop { LeavesOne journal.old (H.state host.old) (H.state host.new) (record_in prepared.now) }
    ensures reads { ReadsMore (H.state host.old).reads (H.state host.new).reads 0 }
    ensures out { (H.state host.new).out ≡ (H.state host.old).out }
    ensures tells { (H.state host.new).tells ≡ (H.state host.old).tells }
    ensures only_these { IfErr result (λ e. (e ≡ DiskFault) ⊎ (e ≡ NoMemory)) }
    ensures disk_fault { IsErrOf result DiskFault → DiskFailed (H.state host.old) (H.state host.new) }
    ensures disk { (H.state host.old).disk_faults ≤ (H.state host.new).disk_faults }
    ensures outs { (H.state host.old).out_faults ≤ (H.state host.new).out_faults }
{
    match prepared {
        Some(made) => append(alloc, journal, host, made),
        None => Ok(()),
    }
}
