// The run of requests that are made, and the line that sums them up.
ghost use Rattle.std.specs.Prelude.{◌≡◌, ◌≤◌, ◌+◌, ◌++◌, ◌∷◌, [], ℕ, suc, List, true, false, Ok, Err, None, IfOk, IfSome, OnOk, IsErr, IsErrOf};
ghost use Rattle.kishu_graph.specs.Kept.{StandsFor};
ghost use Rattle.kishu_store.specs.Graph.{Graph};
ghost use Rattle.kishu_model.specs.requests.Cells.{HasRoom};
ghost use Rattle.kishu_model.specs.Serve.{after, answer_of, silent, charges};
ghost use Rattle.kishu_model.specs.Step.{charge_of};
ghost use Rattle.kishu_model.specs.Values.{request_of};
ghost use Rattle.kishu_model.specs.generated.Run.{summary_of, summed_up};
ghost use Rattle.kishu_gen.specs.Scripts.{left, to_come};
ghost use Rattle.kishu_gen.specs.Summaries.{HasTaken};
ghost use Rattle.kishu_session.specs.Attached.{IsAttached};
ghost use Rattle.kishu_session.specs.Faults.{DiskFailed};
ghost use Rattle.kishu_serve.specs.Coming.{AreApplied};
ghost use Rattle.kishu_serve.specs.Headline.{IsWhole};
ghost use Rattle.kishu_serve.specs.Recorded.{Records};
ghost use Rattle.kishu_serve.specs.Serving.{OutputFailed, WhereAttached, IsOpen, EndsDamaged, WritesOne, StopsInPart, AreOut, GoOut};
ghost use Rattle.kishu_serve.specs.declared.serving.Stop.TheVariants.{DiskFault, InputFault, OutputFault, TooLong, Damaged, NoMemory};

use crate::serving::{Stop, stop_of};
use kishu_gen::{Script, Summary};
use kishu_host::Host;
use kishu_lines::write_answer;
use kishu_model::{Request, Steps};
use kishu_session::Session;
use std::alloc::{AllocError, Global};
use std::sync::ledger::Ledger;

/// The next request of a script, if one is to come.
fn next_made(alloc: Global, script: &mut Script) -> Result<Option<Request>, Stop>
    ensures next { IfOk result (λ found. IfSome found (λ request.
        to_come script.old ≡ request_of request ∷ to_come script.new)) }
    ensures fewer { IfOk result (λ found. IfSome found (λ request.
        left script.old ≡ suc (left script.new))) }
    ensures end { result ≡ Ok None → (to_come script.old ≡ []) × (script.new ≡ script.old) }
    ensures room { IfOk result (λ found. IfSome found (λ request. HasRoom (request_of request))) }
    ensures cause { IsErr result → result ≡ Err NoMemory }
{
    match script.next(alloc) {
        Ok(found) => Ok(found),
        Err(AllocError) => Err(Stop::NoMemory),
    }
}

/// Applies a request, and takes the line that would answer it.
fn apply_silently<H: Host, L: Ledger>(
    alloc: Global,
    session: &mut Session,
    host: &mut H,
    request: &Request,
    summary: &mut Summary,
    steps: &mut Steps<L>,
) -> Result<(), Stop>
    requires going { session.old.halted ≡ false }
    requires stands { IsOpen session.old (H.state host.old) }
    requires room { HasRoom (request_of request.now) }

    ensures attached { OnOk result (WhereAttached session.old (H.state host.old) (λ g.
        IsAttached session.new (H.state host.new) (after g (request_of request.now)))) }
    ensures going { OnOk result (session.new.halted ≡ false) }
    ensures out { (H.state host.new).out ≡ (H.state host.old).out }
    ensures taken { OnOk result (WhereAttached session.old (H.state host.old) (λ g.
        (lines : List ℕ) → HasTaken summary.old lines
        → HasTaken summary.new (lines ++ answer_of g (request_of request.now)))) }
    ensures stands { OnOk result (IsOpen session.new (H.state host.new)) }
    ensures bytes { OnOk result (WritesOne (H.state host.old) (H.state host.new)) }
    ensures least { OnOk result (WhereAttached session.old (H.state host.old) (λ g.
        steps.old + charge_of g (request_of request.now) ≤ steps.new)) }
    ensures damaged { (at : ℕ) → IsErrOf result (Damaged at)
        → EndsDamaged session.old (H.state host.old) (H.state host.new) at }
    ensures stop { WhereAttached session.old (H.state host.old) (λ g.
        StopsInPart (H.state host.old) (H.state host.new) g (silent (request_of request.now) ∷ [])) }
    ensures tells { (H.state host.new).tells ≡ (H.state host.old).tells }
    ensures no_input { (IsErrOf result InputFault → ⊥) × (IsErrOf result TooLong → ⊥) }
    ensures no_output { IsErrOf result OutputFault → ⊥ }
    ensures disk_fault { IsErrOf result DiskFault → DiskFailed (H.state host.old) (H.state host.new) }
    ensures disk { (H.state host.old).disk_faults ≤ (H.state host.new).disk_faults }
    ensures outs { (H.state host.old).out_faults ≤ (H.state host.new).out_faults }
{
    let answer = match session.apply(host, request, steps) {
        Ok(answer) => answer,
        Err(halt) => return Err(stop_of(halt)),
    };
    let Ok(line) = write_answer(alloc, &answer) else {
        return Err(Stop::NoMemory);
    };
    summary.take(&line);
    Ok(())
}

/// Applies each request of a script, and takes the lines that would answer them.
fn apply_all<H: Host, L: Ledger>(
    alloc: Global,
    session: &mut Session,
    host: &mut H,
    script: &mut Script,
    summary: &mut Summary,
    steps: &mut Steps<L>,
) -> Result<(), Stop>
    requires going { session.old.halted ≡ false }
    requires stands { IsOpen session.old (H.state host.old) }
    requires none_taken { HasTaken summary.old [] }

    ensures applied { OnOk result (WhereAttached session.old (H.state host.old) (λ g.
        AreApplied (H.state host.old) (H.state host.new) session.new g
        (to_come script.old) summary.new steps.old steps.new)) }
    ensures bytes { OnOk result (Records true (H.state host.old) (H.state host.new)) }
    ensures stop { WhereAttached session.old (H.state host.old) (λ g.
        StopsInPart (H.state host.old) (H.state host.new) g (summed_up g (to_come script.old))) }
    ensures damaged { (at : ℕ) → IsErrOf result (Damaged at)
        → EndsDamaged session.old (H.state host.old) (H.state host.new) at }
    ensures tells { (H.state host.new).tells ≡ (H.state host.old).tells }
    ensures no_input { (IsErrOf result InputFault → ⊥) × (IsErrOf result TooLong → ⊥) }
    ensures no_output { IsErrOf result OutputFault → ⊥ }
    ensures disk_fault { IsErrOf result DiskFault → DiskFailed (H.state host.old) (H.state host.new) }
    ensures disk { (H.state host.old).disk_faults ≤ (H.state host.new).disk_faults }
    ensures outs { (H.state host.old).out_faults ≤ (H.state host.new).out_faults }
{
    while let Some(request) = next_made(alloc, script)? {
        apply_silently(alloc, session, host, &request, summary, steps)?;
    }
    Ok(())
}

/// The line that sums up, over a graph.
fn summary_line(
    alloc: Global,
    graph: &kishu_graph::Graph,
    summary: Summary,
) -> Result<Vec<u8>, AllocError>
    ensures { (g : Graph) → StandsFor graph.now g → (lines : List ℕ) → HasTaken summary lines
        → IfOk result (λ v. v.items ≡ summary_of g lines) }
{
    summary.line(alloc, graph.commits(), graph.records())
}

/// Puts the line out that sums up, by one call of the host.
fn put_summary<H: Host>(
    alloc: Global,
    session: &Session,
    host: &mut H,
    summary: Summary,
) -> Result<(), Stop>
    ensures out { OnOk result (WhereAttached session.now (H.state host.old) (λ g.
        (lines : List ℕ) → HasTaken summary lines
        → AreOut (summary_of g lines) (H.state host.old) (H.state host.new))) }
    ensures file { (H.state host.new).file ≡ (H.state host.old).file }
    ensures crash { (c : List ℕ) → (H.state host.new).may_leave c → (H.state host.old).may_leave c }
    ensures stop { WhereAttached session.now (H.state host.old) (λ g.
        (lines : List ℕ) → HasTaken summary lines
        → GoOut (summary_of g lines) (H.state host.old) (H.state host.new)) }
    ensures tells { (H.state host.new).tells ≡ (H.state host.old).tells }
    ensures no_disk { IsErrOf result DiskFault → ⊥ }
    ensures not_damaged { (at : ℕ) → IsErrOf result (Damaged at) → ⊥ }
    ensures no_input { (IsErrOf result InputFault → ⊥) × (IsErrOf result TooLong → ⊥) }
    ensures output_fault { IsErrOf result OutputFault → OutputFailed (H.state host.old) (H.state host.new) }
    ensures disk { (H.state host.old).disk_faults ≤ (H.state host.new).disk_faults }
    ensures outs { (H.state host.old).out_faults ≤ (H.state host.new).out_faults }
{
    let Ok(line) = summary_line(alloc, session.graph(), summary) else {
        return Err(Stop::NoMemory);
    };
    let Ok(()) = host.put(&line) else {
        return Err(Stop::OutputFault);
    };
    Ok(())
}

/// Applies the requests of a script, and puts out the line that sums them up, once the last of their
/// records is on the disk.
pub(crate) fn run_script<H: Host, L: Ledger>(
    alloc: Global,
    session: &mut Session,
    host: &mut H,
    script: Script,
    steps: &mut Steps<L>,
) -> Result<(), Stop>
    requires going { session.old.halted ≡ false }
    requires stands { IsOpen session.old (H.state host.old) }

    ensures whole { OnOk result (WhereAttached session.old (H.state host.old) (λ g.
        IsWhole (H.state host.old) (H.state host.new) g (summed_up g (to_come script)))) }
    ensures stop { WhereAttached session.old (H.state host.old) (λ g.
        StopsInPart (H.state host.old) (H.state host.new) g (summed_up g (to_come script))) }
    ensures bytes { OnOk result (Records true (H.state host.old) (H.state host.new)) }
    ensures least { OnOk result (WhereAttached session.old (H.state host.old) (λ g.
        steps.old + charges g (summed_up g (to_come script)) ≤ steps.new)) }
    ensures damaged { (at : ℕ) → IsErrOf result (Damaged at)
        → EndsDamaged session.old (H.state host.old) (H.state host.new) at }

    ensures tells { (H.state host.new).tells ≡ (H.state host.old).tells }
    ensures no_input { (IsErrOf result InputFault → ⊥) × (IsErrOf result TooLong → ⊥) }
    ensures disk_fault { IsErrOf result DiskFault → DiskFailed (H.state host.old) (H.state host.new) }
    ensures output_fault { IsErrOf result OutputFault → OutputFailed (H.state host.old) (H.state host.new) }
    ensures disk { (H.state host.old).disk_faults ≤ (H.state host.new).disk_faults }
    ensures outs { (H.state host.old).out_faults ≤ (H.state host.new).out_faults }
{
    let mut script = script;
    let mut summary = Summary::new();
    apply_all(alloc, session, host, &mut script, &mut summary, steps)?;
    put_summary(alloc, session, host, summary)
}
