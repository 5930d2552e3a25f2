// Parts of a store, by their places.
ghost use Rattle.std.specs.Prelude.{◌≡◌, ℕ, length, IfOk, OnOk, IsErrOf};
ghost use Rattle.kishu_host.specs.Host.{ReadsMore};
ghost use Rattle.kishu_journal.specs.Facts.{DiskRises, IsTaken, IsInside, LacksPart};
ghost use Rattle.kishu_journal.specs.Going.{IsQuiet, ReadsAtMost};
ghost use Rattle.kishu_journal.specs.declared.journal.JournalFault.TheVariants.{DiskFault, NoMemory, NotAJournal, Damaged};

use crate::read::read_exact;
use crate::{Journal, JournalFault};
use kishu_host::{Failed, Host};
use std::alloc::Global;

impl Journal {
    /// The `len` bytes of the store from byte `place` on. Just these are read, and the file stays.
    ///
    /// - `Damaged`, with that place: the file ends before these bytes do.
    /// - `DiskFault`: a call of the host failed.
    /// - `NoMemory`: there was no memory for the bytes. The host isn't called then.
    pub fn read_part<H: Host>(
        &self,
        alloc: Global,
        host: &mut H,
        place: u64,
        len: u64,
    ) -> Result<Vec<u8>, JournalFault>
        ensures part { IfOk result (λ v. IsTaken (H.state host.old) place len v.items) }
        ensures whole { IfOk result (λ v. length v.items ≡ len) }
        ensures inside { OnOk result (IsInside (H.state host.old) place len) }
        ensures quiet { IsQuiet (H.state host.old) (H.state host.new) }
        ensures damaged { (at : ℕ) → IsErrOf result (Damaged at) → LacksPart (H.state host.old) place len at }
        ensures disk_fault { IsErrOf result DiskFault → DiskRises (H.state host.old) (H.state host.new) }
        ensures not_foreign { IsErrOf result NotAJournal → ⊥ }
        ensures no_memory { IsErrOf result NoMemory → host.new ≡ host.old }
        ensures exact { OnOk result (ReadsMore (H.state host.old).reads (H.state host.new).reads len) }
        ensures reads { ReadsAtMost (H.state host.old).reads (H.state host.new).reads len }
    {
        let Ok(mut bytes) = vec![in alloc; 0u8; len as usize] else {
            return Err(JournalFault::NoMemory);
        };
        match read_exact(host, place, &mut bytes) {
            Ok(true) => Ok(bytes),
            Ok(false) => Err(JournalFault::Damaged { at: place }),
            Err(Failed) => Err(JournalFault::DiskFault),
        }
    }
}
