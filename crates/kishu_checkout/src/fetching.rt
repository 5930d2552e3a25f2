// The reading of rows' pictures.
ghost use Rattle.std.specs.Prelude.{◌≡◌, ℕ, IfOk, OnOk, IsErrOf, length, map};
ghost use Rattle.kishu_host.specs.Host.{ReadsMore};
ghost use Rattle.kishu_store.specs.Tables.{bytes_in};
ghost use Rattle.kishu_graph.specs.Kept.{row_of};
ghost use Rattle.kishu_journal.specs.Facts.{DiskRises, IsTaken, LacksPart};
ghost use Rattle.kishu_journal.specs.Going.{IsQuiet, ReadsAtMost};
ghost use Rattle.kishu_checkout.specs.Fetched.{contents, AreFetched, LacksBytes};
ghost use Rattle.kishu_checkout.specs.declared.fault.CheckoutFault.TheVariants.{Damaged, DiskFault};

use crate::fault::CheckoutFault;
use kishu_graph::TableRow;
use kishu_host::Host;
use kishu_journal::{Journal, JournalFault};
use std::alloc::Global;

/// Reads the picture that is stored for a row: as many bytes as it says, at its place.
///
/// - `Damaged`: the file ends before them; at the row's place.
/// - `DiskFault`: a call of the host failed.
/// - `NoMemory`: there was no memory.
pub fn fetch_row<H: Host>(
    alloc: Global,
    host: &mut H,
    journal: &Journal,
    row: &TableRow,
) -> Result<Vec<u8>, CheckoutFault>
    ensures part { IfOk result (λ v. IsTaken (H.state host.old) row.now.place row.now.len v.items) }
    ensures whole { IfOk result (λ v. length v.items ≡ row.now.len) }
    ensures quiet { IsQuiet (H.state host.old) (H.state host.new) }
    ensures exact { OnOk result
        (ReadsMore (H.state host.old).reads (H.state host.new).reads row.now.len) }
    ensures reads { ReadsAtMost (H.state host.old).reads (H.state host.new).reads row.now.len }
    ensures damaged { (at : ℕ) → IsErrOf result (Damaged at)
        → LacksPart (H.state host.old) row.now.place row.now.len at }
    ensures disk_fault { IsErrOf result DiskFault → DiskRises (H.state host.old) (H.state host.new) }
{
    match journal.read_part(alloc, host, row.place, row.len) {
        Ok(bytes) => Ok(bytes),
        Err(JournalFault::Damaged { at }) => Err(CheckoutFault::Damaged { at }),
        Err(JournalFault::DiskFault) => Err(CheckoutFault::DiskFault),
        Err(JournalFault::NoMemory) => Err(CheckoutFault::NoMemory),
        Err(JournalFault::NotAJournal) => unreachable!(),
    }
}

/// Reads the pictures of rows, one after another.
pub(crate) fn fetch_rows<H: Host>(
    alloc: Global,
    host: &mut H,
    journal: &Journal,
    rows: &[TableRow],
) -> Result<Vec<Vec<u8>>, CheckoutFault>
    ensures fetched { IfOk result
        (λ v. AreFetched (H.state host.old) (map row_of rows.now) (contents v.items)) }
    ensures quiet { IsQuiet (H.state host.old) (H.state host.new) }
    ensures exact { OnOk result (ReadsMore (H.state host.old).reads (H.state host.new).reads
        (bytes_in (map row_of rows.now))) }
    ensures reads { ReadsAtMost (H.state host.old).reads (H.state host.new).reads
        (bytes_in (map row_of rows.now)) }
    ensures damaged { (at : ℕ) → IsErrOf result (Damaged at)
        → LacksBytes (H.state host.old) (map row_of rows.now) at }
    ensures disk_fault { IsErrOf result DiskFault → DiskRises (H.state host.old) (H.state host.new) }
{
    let mut pictures = Vec::new(alloc);
    for row in rows {
        let picture = fetch_row(alloc, host, journal, row)?;
        pictures.push(picture)?;
    }
    Ok(pictures)
}
