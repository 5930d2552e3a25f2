// One request of a run: it is applied, and its answer goes out.
ghost use Rattle.std.specs.Prelude.{◌≡◌, ◌≤◌, ◌+◌, ◌∷◌, [], ℕ, List, false, IsSome, OnOk, IsErrOf};
ghost use Rattle.kishu_host.specs.Host.{ReadsMore};
ghost use Rattle.kishu_model.specs.requests.Cells.{HasRoom};
ghost use Rattle.kishu_model.specs.Serve.{after, answered};
ghost use Rattle.kishu_model.specs.Step.{charge_of};
ghost use Rattle.kishu_model.specs.Values.{answer_of as said_by};
ghost use Rattle.kishu_session.specs.Applying.{MakesNodes, StaysLoaded};
ghost use Rattle.kishu_session.specs.Attached.{IsAttached};
ghost use Rattle.kishu_session.specs.Faults.{DiskFailed};
ghost use Rattle.kishu_session.specs.Recording.{StaysDurable};
ghost use Rattle.kishu_session.specs.declared.halt.Halt.TheVariants.{NotAJournal, Closed, Damaged as Broken, DiskFault as NoDisk};
ghost use Rattle.kishu_serve.specs.Asking.{asked_of};
ghost use Rattle.kishu_serve.specs.Efforts.{IsMeasured, read_by, steps_by};
ghost use Rattle.kishu_serve.specs.EveryStore.{AppliesHere, AnswersHere, StopsLive};
ghost use Rattle.kishu_serve.specs.Serving.{OutputFailed, IsAnswerOut, AnswerGoesOut, WhereAttached, IsOpen, EndsDamaged, IsAnswered, WritesOne, StopsInPart};
ghost use Rattle.kishu_serve.specs.declared.serving.Stop.TheVariants.{DiskFault, InputFault, OutputFault, TooLong, Damaged};

use crate::asking::Asked;
use kishu_host::Host;
use kishu_lines::write_answer;
use kishu_model::{Answer, Refusal, Steps};
use kishu_session::{Halt, Session};
use std::alloc::Global;
use std::sync::ledger::Ledger;

/// Why a run doesn't go on.
#[derive(Clone, Copy, Debug, PartialEq, Eq)]
pub(crate) enum Stop {
    DiskFault,
    InputFault,
    OutputFault,
    TooLong,
    /// There is no picture at this place of the store, where one should be.
    Damaged { at: u64 },
    NoMemory,
}

/// Why a run doesn't go on whose session has halted so. An open one answers no `NotAJournal` and no
/// `Closed`.
pub(crate) fn stop_of(halt: Halt) -> Stop
    requires open { (halt ≡ NotAJournal → ⊥) × (halt ≡ Closed → ⊥) }
    ensures disk_fault { result ≡ DiskFault → halt ≡ NoDisk }
    ensures damaged { (at : ℕ) → result ≡ Damaged at → halt ≡ Broken at }
    ensures no_input { (result ≡ InputFault → ⊥) × (result ≡ TooLong → ⊥) }
    ensures no_output { result ≡ OutputFault → ⊥ }
{
    match halt {
        Halt::DiskFault => Stop::DiskFault,
        Halt::NoMemory => Stop::NoMemory,
        Halt::Damaged { at } => Stop::Damaged { at },
        Halt::NotAJournal | Halt::Closed => unreachable!(),
    }
}

/// Puts an answer's line out, by one call of the host.
fn tell<H: Host>(alloc: Global, host: &mut H, answer: &Answer) -> Result<(), Stop>
    requires { IsSome (said_by answer.now) }
    ensures answered { OnOk result (IsAnswerOut answer.now (H.state host.old) (H.state host.new)) }
    ensures file { (H.state host.new).file ≡ (H.state host.old).file }
    ensures crash { (c : List ℕ) → (H.state host.new).may_leave c → (H.state host.old).may_leave c }
    ensures stop { AnswerGoesOut answer.now (H.state host.old) (H.state host.new) }
    ensures tells { (H.state host.new).tells ≡ (H.state host.old).tells }
    ensures no_disk { IsErrOf result DiskFault → ⊥ }
    ensures not_damaged { (at : ℕ) → IsErrOf result (Damaged at) → ⊥ }
    ensures no_input { (IsErrOf result InputFault → ⊥) × (IsErrOf result TooLong → ⊥) }
    ensures output_fault { IsErrOf result OutputFault → OutputFailed (H.state host.old) (H.state host.new) }
    ensures reads { ReadsMore (H.state host.old).reads (H.state host.new).reads 0 }
    ensures disk { (H.state host.old).disk_faults ≤ (H.state host.new).disk_faults }
    ensures outs { (H.state host.old).out_faults ≤ (H.state host.new).out_faults }
{
    let Ok(line) = write_answer(alloc, answer) else {
        return Err(Stop::NoMemory);
    };
    let Ok(()) = host.put(&line) else {
        return Err(Stop::OutputFault);
    };
    Ok(())
}

/// Answers what was asked: a request is applied, and what has no reading as one is refused. The answer
/// goes out once its record is on the disk.
pub(crate) fn serve<H: Host, L: Ledger>(
    alloc: Global,
    session: &mut Session,
    host: &mut H,
    asked: &Asked,
    steps: &mut Steps<L>,
) -> Result<(), Stop>
    requires going { session.old.halted ≡ false }
    requires stands { IsOpen session.old (H.state host.old) }
    requires room { HasRoom (asked_of asked.now) }

    ensures attached { OnOk result (WhereAttached session.old (H.state host.old) (λ g.
        IsAttached session.new (H.state host.new) (after g (asked_of asked.now)))) }
    ensures going { OnOk result (session.new.halted ≡ false) }
    ensures answered { OnOk result (WhereAttached session.old (H.state host.old) (λ g.
        IsAnswered (H.state host.old) (H.state host.new) g (asked_of asked.now))) }
    ensures stands { OnOk result (IsOpen session.new (H.state host.new)) }
    ensures bytes { OnOk result (WritesOne (H.state host.old) (H.state host.new)) }
    ensures least { OnOk result (WhereAttached session.old (H.state host.old) (λ g.
        steps.old + charge_of g (asked_of asked.now) ≤ steps.new)) }
    ensures makes { OnOk result
        (MakesNodes session.old session.new (H.state host.old) (asked_of asked.now)) }
    // What is measured reads just its own, and from at most 8,000,000 nodes it takes no more steps than it may.
    ensures loads { OnOk result (WhereAttached session.old (H.state host.old) (λ g.
        IsMeasured g (asked_of asked.now) → ReadsMore (H.state host.old).reads (H.state host.new).reads
        (read_by g (asked_of asked.now)))) }
    ensures most { OnOk result (WhereAttached session.old (H.state host.old) (λ g.
        IsMeasured g (asked_of asked.now) → StaysLoaded session.old
        → steps.new ≤ steps.old + steps_by g (asked_of asked.now))) }
    // On every store it is applied to the live state, and the answer on that one goes out.
    ensures applied { OnOk result (AppliesHere session.old session.new (H.state host.old) (H.state host.new)
        (asked_of asked.now)) }
    ensures said { OnOk result (AnswersHere session.old (H.state host.old) (H.state host.new)
        (asked_of asked.now)) }
    ensures stop_live { StopsLive session.old (H.state host.old) (H.state host.new)
        (answered (asked_of asked.now) ∷ []) }
    ensures durable { OnOk result (StaysDurable (H.state host.old) (H.state host.new)) }
    ensures damaged { (at : ℕ) → IsErrOf result (Damaged at)
        → EndsDamaged session.old (H.state host.old) (H.state host.new) at }
    ensures stop { WhereAttached session.old (H.state host.old) (λ g.
        StopsInPart (H.state host.old) (H.state host.new) g (answered (asked_of asked.now) ∷ [])) }
    ensures tells { (H.state host.new).tells ≡ (H.state host.old).tells }
    ensures no_input { (IsErrOf result InputFault → ⊥) × (IsErrOf result TooLong → ⊥) }
    ensures disk_fault { IsErrOf result DiskFault → DiskFailed (H.state host.old) (H.state host.new) }
    ensures output_fault { IsErrOf result OutputFault → OutputFailed (H.state host.old) (H.state host.new) }
    ensures disk { (H.state host.old).disk_faults ≤ (H.state host.new).disk_faults }
    ensures outs { (H.state host.old).out_faults ≤ (H.state host.new).out_faults }
{
    let Asked::Request(request) = asked else {
        return tell(alloc, host, &Refusal::BadRequest.answer());
    };
    match session.apply(host, request, steps) {
        Ok(answer) => tell(alloc, host, &answer),
        Err(halt) => Err(stop_of(halt)),
    }
}
