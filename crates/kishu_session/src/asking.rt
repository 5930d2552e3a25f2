// The reading of the pictures that are stored for rows which a draft asks for.
ghost use Rattle.std.specs.Prelude.{◌≡◌, ℕ, IfOk, OnOk, IsErrOf, map};
ghost use Rattle.kishu_host.specs.Host.{ReadsMore};
ghost use Rattle.kishu_store.specs.Tables.{bytes_in};
ghost use Rattle.kishu_journal.specs.Going.{IsQuiet};
ghost use Rattle.kishu_checkout.specs.Fetched.{contents, AreFetched, LacksBytes};
ghost use Rattle.kishu_checkout.specs.declared.fault.CheckoutFault.TheVariants.{Damaged, DiskFault};
ghost use Rattle.kishu_delta.specs.Compared.{asked_row};
ghost use Rattle.kishu_session.specs.Faults.{DiskFailed};

use kishu_checkout::{CheckoutFault, fetch_row};
use kishu_delta::Asked;
use kishu_host::Host;
use kishu_journal::Journal;
use std::alloc::Global;

/// Reads the pictures that are stored for the rows, one after another.
pub(crate) fn stored_pictures<H: Host>(
    alloc: Global,
    host: &mut H,
    journal: &Journal,
    asked: &[Asked],
) -> Result<Vec<Vec<u8>>, CheckoutFault>
    ensures fetched { IfOk result
        (λ v. AreFetched (H.state host.old) (map asked_row asked.now) (contents v.items)) }
    ensures quiet { IsQuiet (H.state host.old) (H.state host.new) }
    ensures exact { OnOk result (ReadsMore (H.state host.old).reads (H.state host.new).reads
        (bytes_in (map asked_row asked.now))) }
    ensures damaged { (at : ℕ) → IsErrOf result (Damaged at)
        → LacksBytes (H.state host.old) (map asked_row asked.now) at }
    ensures disk_fault { IsErrOf result DiskFault → DiskFailed (H.state host.old) (H.state host.new) }
{
    let mut pictures = Vec::with_capacity(alloc, asked.len())?;
    for row in asked {
        let picture = fetch_row(alloc, host, journal, &row.row)?;
        pictures.push(picture)?;
    }
    Ok(pictures)
}
