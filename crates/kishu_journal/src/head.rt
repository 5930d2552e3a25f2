// The heads of a store's records. What stands behind a head isn't read.
ghost use Rattle.std.specs.Prelude.{◌≡◌, ◌≤◌, ◌<◌, ◌+◌, ◌-◌, ℕ, length, IfOk, IfSome, IsErrOf, None, Ok};
ghost use Rattle.kishu_bytes.specs.Numbers.{four};
ghost use Rattle.kishu_host.specs.Host.{Told};
ghost use Rattle.kishu_store.specs.Limits.{longest_body};
ghost use Rattle.kishu_journal.specs.Facts.{DiskRises, HeadAt, end_at, LacksBody};
ghost use Rattle.kishu_journal.specs.Found.{before_head, IsShut};
ghost use Rattle.kishu_journal.specs.Windows.{IsAhead, Shows, end_of};
ghost use Rattle.kishu_journal.specs.declared.journal.JournalFault.TheVariants.{DiskFault, NotAJournal, Damaged};

use crate::JournalFault;
use crate::read::read_size;
use crate::window::Window;
use kishu_host::Host;

/// The lengths of a record's head, and of the pictures behind it, in bytes.
#[derive(Clone, Copy)]
pub(crate) struct Head {
    pub(crate) bytes: usize,
    pub(crate) pictures: u64,
}

/// The number that four bytes spell, the highest first.
fn number_of(bytes: &[u8]) -> u32
    requires { length bytes.now ≡ 4 }
    ensures { four result ≡ bytes.now }
{
    let mut array = [0; 4];
    array.copy_from_slice(bytes);
    u32::from_be_bytes(array)
}

/// How long the head of the record behind the gate at a place is, or none where that gate is closed.
/// The head is shown then. The pictures behind it aren't read.
pub(crate) fn read_head<H: Host>(
    host: &mut H,
    window: &mut Window,
    at: u64,
    len: u64,
) -> Result<Option<Head>, JournalFault>
    requires len { Told (H.state host.old) (len ≡ length (H.state host.old).file) }
    requires inside { at < len }
    requires shows { Shows (H.state host.old) window.old }
    requires end { end_of window.old ≤ len }
    requires from { window.old.from ≤ at }
    ensures ahead { IsAhead (H.state host.old) (H.state host.new) window.old window.new len }
    ensures from { window.new.from ≤ at }
    ensures head { IfOk result (λ o. IfSome o (λ h. HeadAt (H.state host.old) at h)) }
    ensures shown { IfOk result (λ o. IfSome o (λ h. at + before_head + h.bytes ≤ end_of window.new)) }
    ensures within { IfOk result (λ o. IfSome o (λ h. end_at at h < len)) }
    ensures small { IfOk result (λ o. IfSome o (λ h. 4 + h.bytes + h.pictures ≤ longest_body)) }
    ensures closed { result ≡ Ok None → Told (H.state host.old) (IsShut (H.state host.old).file at) }
    ensures damaged { (place : ℕ) → IsErrOf result (Damaged place) → LacksBody (H.state host.old) at place }
    ensures disk_fault { IsErrOf result DiskFault → DiskRises (H.state host.old) (H.state host.new) }
    ensures not_foreign { IsErrOf result NotAJournal → ⊥ }
{
    let Some(size) = read_size(host, window, at, len)? else {
        return Ok(None);
    };
    if size < 4 {
        return Err(JournalFault::Damaged { at });
    }
    if !window.reach(host, at, 13, len)? {
        return Err(JournalFault::Damaged { at });
    }
    let head_size = number_of(window.part(at + 9, 4)) as u64;
    if head_size > size - 4 {
        return Err(JournalFault::Damaged { at });
    }
    let bytes = head_size as usize;
    if !window.reach(host, at, 13 + bytes, len)? {
        return Err(JournalFault::Damaged { at });
    }
    Ok(Some(Head {
        bytes,
        pictures: size - 4 - head_size,
    }))
}
