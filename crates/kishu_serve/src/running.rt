// The requests of a run, one after another, over an open session.
ghost use Rattle.std.specs.Prelude.{ℕ, ◌≡◌, ◌≤◌, ◌⊎◌, ◌+◌, true, false, OnOk, IsOk, IsErrOf};
ghost use Rattle.kishu_host.specs.Host.{ReadsMore};
ghost use Rattle.kishu_model.specs.Serve.{charges};
ghost use Rattle.kishu_input.specs.Sources.{InputFailed};
ghost use Rattle.kishu_session.specs.Faults.{DiskFailed};
ghost use Rattle.kishu_session.specs.Renewing.{most_kept};
ghost use Rattle.kishu_serve.specs.Asking.{reads_lines, HaveRoom, Knows, IsLimited, IsRead, KeepsTaken};
ghost use Rattle.kishu_serve.specs.Efforts.{AreMeasured, read_by_all, steps_by_all};
ghost use Rattle.kishu_serve.specs.EveryStore.{AnswersAll, StopsAll};
ghost use Rattle.kishu_serve.specs.Making.{made_by_all};
ghost use Rattle.kishu_serve.specs.Headline.{IsWhole};
ghost use Rattle.kishu_serve.specs.Recorded.{Records};
ghost use Rattle.kishu_serve.specs.Serving.{OutputFailed, IsOpen, EndsDamaged, WhereKnown, StopsInPart, WhereKnownMade};
ghost use Rattle.kishu_serve.specs.declared.work.Work.TheVariants.{Answers};
ghost use Rattle.kishu_serve.specs.declared.serving.Stop.TheVariants.{DiskFault, InputFault, OutputFault, TooLong, Damaged};

use crate::asking::Requests;
use crate::serving::{Stop, serve};
use kishu_host::{Host, Source};
use kishu_input::InputStop;
use kishu_model::Steps;
use kishu_session::Session;
use std::alloc::Global;
use std::sync::ledger::Ledger;

impl From<InputStop> for Stop {
    ghost use Rattle.std.specs.Prelude.{◌≡◌};
    ghost use Rattle.kishu_serve.specs.Stops.{stop_by};

    ghost from_gives = { λ unread stop. stop ≡ stop_by unread };

    fn from(unread: InputStop) -> Stop {
        match unread {
            InputStop::Fault => Stop::InputFault,
            InputStop::TooLong => Stop::TooLong,
            InputStop::NoMemory => Stop::NoMemory,
        }
    }
}

/// Answers each request as it comes.
pub(crate) fn serve_all<H: Host, S: Source, L: Ledger>(
    alloc: Global,
    session: &mut Session,
    requests: &mut Requests,
    source: &mut S,
    host: &mut H,
    steps: &mut Steps<L>,
) -> Result<(), Stop>
    requires going { session.old.halted ≡ false }
    requires stands { IsOpen session.old (H.state host.old) }
    requires room { HaveRoom requests.old }

    // All are answered where it succeeds, and all before a limit where one is reached.
    ensures whole { IsOk result ⊎ IsErrOf result TooLong
        → WhereKnown (Answers requests.old) (S.source source.old) session.old (H.state host.old) (λ g items.
        IsWhole (H.state host.old) (H.state host.new) g items) }
    ensures stop { WhereKnown (Answers requests.old) (S.source source.old) session.old (H.state host.old) (λ g items.
        StopsInPart (H.state host.old) (H.state host.new) g items) }
    ensures bytes { OnOk result (Records (reads_lines requests.old) (H.state host.old) (H.state host.new)) }
    ensures least { OnOk result (
        WhereKnown (Answers requests.old) (S.source source.old) session.old (H.state host.old) (λ g items.
        steps.old + charges g items ≤ steps.new)) }

    // Where all are measured they read just the pictures that checkouts load and cells ask for, and from at most
    // 8,000,000 nodes made they take no more steps than they may.
    ensures loads { OnOk result (
        WhereKnown (Answers requests.old) (S.source source.old) session.old (H.state host.old) (λ g items.
        AreMeasured g items
        → ReadsMore (H.state host.old).reads (H.state host.new).reads (read_by_all g items))) }
    ensures most { OnOk result (
        WhereKnownMade (Answers requests.old) (S.source source.old) session.old (H.state host.old)
        (λ made g items. AreMeasured g items → made + made_by_all g items ≤ most_kept
        → steps.new ≤ steps.old + steps_by_all g items)) }

    // On every store all are answered from the live state on where it succeeds, and all before a limit.
    ensures whole_live { IsOk result ⊎ IsErrOf result TooLong
        → AnswersAll (Answers requests.old) (S.source source.old) session.old (H.state host.old)
        (H.state host.new) }
    ensures stop_live { StopsAll (Answers requests.old) (S.source source.old) session.old (H.state host.old)
        (H.state host.new) }
    ensures damaged { (at : ℕ) → IsErrOf result (Damaged at)
        → EndsDamaged session.old (H.state host.old) (H.state host.new) at }

    ensures read { OnOk result (Knows requests.old (S.source source.old)
        → IsRead requests.old (S.source source.new) × (IsLimited requests.old (S.source source.old) → ⊥)) }
    ensures too_long { IsErrOf result TooLong → (reads_lines requests.old ≡ true)
        × (Knows requests.old (S.source source.old) → IsLimited requests.old (S.source source.old)) }
    ensures alone { reads_lines requests.old ≡ false → source.new ≡ source.old }
    ensures taken { KeepsTaken requests.old (S.source source.old) requests.new (S.source source.new) }
    ensures lines { reads_lines requests.new ≡ reads_lines requests.old }

    ensures tells { (H.state host.new).tells ≡ (H.state host.old).tells }
    ensures disk_fault { IsErrOf result DiskFault → DiskFailed (H.state host.old) (H.state host.new) }
    ensures output_fault { IsErrOf result OutputFault → OutputFailed (H.state host.old) (H.state host.new) }
    ensures input_fault { IsErrOf result InputFault
        → (reads_lines requests.old ≡ true) × InputFailed (S.source source.old) (S.source source.new) }
    ensures disk { (H.state host.old).disk_faults ≤ (H.state host.new).disk_faults }
    ensures outs { (H.state host.old).out_faults ≤ (H.state host.new).out_faults }
{
    while let Some(asked) = requests.next(alloc, source)? {
        serve(alloc, session, host, &asked, steps)?;
    }
    Ok(())
}
