ghost use Rattle.std.specs.Prelude.{◌≡◌, ◌≤◌, ◌<◌, ◌+◌, ◌-◌, ℕ, length, true, false, IfOk, IfSome, OnOk, IsErr, IsErrOf, None, Ok};
ghost use Rattle.std.specs.Int.{w64, to_be_bytes, from_be_bytes};
ghost use Rattle.kishu_host.specs.Host.{Told};
ghost use Rattle.kishu_store.specs.Limits.{longest_body};
ghost use Rattle.kishu_journal.specs.Facts.{DiskRises, IsDurable, IsPart, IsCut, BodyAt, LacksBody, ReadsFull};
ghost use Rattle.kishu_journal.specs.Going.{IsQuiet, ReadsAtMost};
ghost use Rattle.kishu_journal.specs.Found.{before_body, IsShut};
ghost use Rattle.kishu_journal.specs.Windows.{IsAhead, Shows, end_of};
ghost use Rattle.kishu_journal.specs.declared.journal.JournalFault.TheVariants.{DiskFault, NotAJournal, Damaged};

use crate::JournalFault;
use crate::append::OPEN;
use crate::window::Window;
use kishu_host::{Failed, Host};

const LONGEST_BODY: u64 = 1 << 30;

/// The file's length, once all of the file is on the disk.
pub(crate) fn settle<H: Host>(host: &mut H) -> Result<u64, Failed>
    ensures quiet { IsQuiet (H.state host.old) (H.state host.new) }
    ensures len { IfOk result (λ n. Told (H.state host.old) (n ≡ length (H.state host.old).file)) }
    ensures durable { OnOk result (IsDurable (H.state host.old) (H.state host.new)) }
    ensures failed { IsErr result → DiskRises (H.state host.old) (H.state host.new) }
    ensures reads { ReadsAtMost (H.state host.old).reads (H.state host.new).reads 0 }
{
    host.sync()?;
    host.len()
}

/// Fills `into` from a place, or answers that the file ends before.
pub(crate) fn read_exact<H: Host>(host: &mut H, at: u64, into: &mut [u8]) -> Result<bool, Failed>
    ensures quiet { IsQuiet (H.state host.old) (H.state host.new) }
    ensures whole { IfOk result (λ b. b ≡ true → IsPart (H.state host.old) at (length into.old) into.new) }
    ensures short { IfOk result (λ b. b ≡ false → IsCut (H.state host.old) at (length into.old)) }
    ensures failed { IsErr result → DiskRises (H.state host.old) (H.state host.new) }
    ensures reads { ReadsAtMost (H.state host.old).reads (H.state host.new).reads (length into.old) }
    ensures exact { IfOk result (λ b. b ≡ true → ReadsFull (H.state host.old) (H.state host.new) into.old) }
{
    let n = host.read_at(at, into)?;
    Ok(n == into.len())
}

/// The number that eight bytes spell, the highest first.
fn number(bytes: &[u8]) -> u64
    requires { length bytes.now ≡ 8 }
    ensures value { result ≡ from_be_bytes w64 bytes.now }
    ensures back { to_be_bytes w64 result ≡ bytes.now }
{
    let mut eight = [0; 8];
    eight.copy_from_slice(bytes);
    u64::from_be_bytes(eight)
}

/// The length of the body behind the gate at a place, or none where that gate is closed.
pub(crate) fn read_size<H: Host>(
    host: &mut H,
    window: &mut Window,
    at: u64,
    len: u64,
) -> Result<Option<u64>, JournalFault>
    requires len { Told (H.state host.old) (len ≡ length (H.state host.old).file) }
    requires inside { at < len }
    requires shows { Shows (H.state host.old) window.old }
    requires end { end_of window.old ≤ len }
    requires from { window.old.from ≤ at }
    ensures ahead { IsAhead (H.state host.old) (H.state host.new) window.old window.new len }
    ensures from { window.new.from ≤ at }
    ensures body { IfOk result (λ o. IfSome o (λ n. BodyAt (H.state host.old) at n)) }
    ensures within { IfOk result (λ o. IfSome o (λ n. at + before_body + n < len)) }
    ensures small { IfOk result (λ o. IfSome o (λ n. n ≤ longest_body)) }
    ensures closed { result ≡ Ok None → Told (H.state host.old) (IsShut (H.state host.old).file at) }
    ensures damaged { (place : ℕ) → IsErrOf result (Damaged place) → LacksBody (H.state host.old) at place }
    ensures disk_fault { IsErrOf result DiskFault → DiskRises (H.state host.old) (H.state host.new) }
    ensures not_foreign { IsErrOf result NotAJournal → ⊥ }
{
    if !window.reach(host, at, 1, len)? {
        return Err(JournalFault::Damaged { at });
    }
    if window.part(at, 1)[0] != OPEN {
        return Ok(None);
    }
    if len - at < 10 {
        return Err(JournalFault::Damaged { at });
    }
    if !window.reach(host, at, 9, len)? {
        return Err(JournalFault::Damaged { at });
    }
    let size = number(window.part(at + 1, 8));
    if size > LONGEST_BODY || size > len - at - 10 {
        return Err(JournalFault::Damaged { at });
    }
    Ok(Some(size))
}
