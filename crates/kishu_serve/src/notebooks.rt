// The run of a notebook's code cells, and the writing of the notebook.
ghost use Rattle.std.specs.Prelude.{◌≡◌, ◌≤◌, ◌<◌, ◌+◌, ◌∷◌, ◌^◌, [], ℕ, List, false, true, not, IfOk, OnOk, IsErrOf, length, map};
ghost use Rattle.std.specs.Rc.{rc_str_bytes};
ghost use Rattle.kishu_model.specs.Request.{cells};
ghost use Rattle.kishu_model.specs.requests.Cells.{HasRoom};
ghost use Rattle.kishu_model.specs.Serve.{after, silent, charges};
ghost use Rattle.kishu_model.specs.Step.{step, charge_of};
ghost use Rattle.kishu_model.specs.Values.{request_of};
ghost use Rattle.kishu_model.specs.notebooks.Run.{goes_on};
ghost use Rattle.kishu_model.specs.notebooks.Setting.{written};
ghost use Rattle.kishu_notebook.specs.Views.{data_of};
ghost use Rattle.kishu_session.specs.Attached.{IsAttached};
ghost use Rattle.kishu_session.specs.Faults.{DiskFailed};
ghost use Rattle.kishu_serve.specs.Headline.{IsWhole};
ghost use Rattle.kishu_serve.specs.Notebooks.{IsSet, run_of, items_of};
ghost use Rattle.kishu_serve.specs.Recorded.{Records};
ghost use Rattle.kishu_serve.specs.Coming.{CellsAreRun};
ghost use Rattle.kishu_serve.specs.Serving.{OutputFailed, WhereAttached, IsOpen, EndsDamaged, WritesOne, StopsInPart, AreOut, GoOut};
ghost use Rattle.kishu_serve.specs.declared.serving.Stop.TheVariants.{DiskFault, InputFault, OutputFault, TooLong, Damaged};

use crate::book::Book;
use crate::serving::{Stop, stop_of};
use kishu_host::Host;
use kishu_model::{Request, Steps};
use kishu_notebook::Notebook;
use kishu_session::Session;
use std::rc::RcStr;
use std::sync::ledger::Ledger;

/// Applies a request of a notebook's run, and sets in the notebook what came of it. Answers whether a
/// further cell is run.
///
/// - `at`: which code cell is the request's first.
fn run_request<H: Host, L: Ledger>(
    session: &mut Session,
    host: &mut H,
    request: &Request,
    notebook: &mut Notebook,
    at: u32,
    steps: &mut Steps<L>,
) -> Result<bool, Stop>
    requires going { session.old.halted ≡ false }
    requires stands { IsOpen session.old (H.state host.old) }
    requires room { HasRoom (request_of request.now) }

    ensures attached { OnOk result (WhereAttached session.old (H.state host.old) (λ g.
        IsAttached session.new (H.state host.new) (after g (request_of request.now)))) }
    ensures going { OnOk result (session.new.halted ≡ false) }
    ensures out { (H.state host.new).out ≡ (H.state host.old).out }
    ensures set { OnOk result (WhereAttached session.old (H.state host.old) (λ g.
        IsSet notebook.old notebook.new at g (request_of request.now))) }
    ensures goes_on { IfOk result (λ further. WhereAttached session.old (H.state host.old) (λ g.
        further ≡ goes_on (step g (request_of request.now)).answer)) }
    ensures stands { OnOk result (IsOpen session.new (H.state host.new)) }
    ensures bytes { OnOk result (WritesOne (H.state host.old) (H.state host.new)) }
    ensures least { OnOk result (WhereAttached session.old (H.state host.old) (λ g.
        steps.old + charge_of g (request_of request.now) ≤ steps.new)) }
    ensures damaged { (at : ℕ) → IsErrOf result (Damaged at)
        → EndsDamaged session.old (H.state host.old) (H.state host.new) at }
    ensures stop { WhereAttached session.old (H.state host.old) (λ g.
        StopsInPart (H.state host.old) (H.state host.new) g (silent (request_of request.now) ∷ [])) }
    ensures tells { (H.state host.new).tells ≡ (H.state host.old).tells }
    ensures no_input { (IsErrOf result InputFault → ⊥) × (IsErrOf result TooLong → ⊥) }
    ensures no_output { IsErrOf result OutputFault → ⊥ }
    ensures disk_fault { IsErrOf result DiskFault → DiskFailed (H.state host.old) (H.state host.new) }
    ensures disk { (H.state host.old).disk_faults ≤ (H.state host.new).disk_faults }
    ensures outs { (H.state host.old).out_faults ≤ (H.state host.new).out_faults }
{
    let answer = match session.apply(host, request, steps) {
        Ok(answer) => answer,
        Err(halt) => return Err(stop_of(halt)),
    };
    let Ok(()) = notebook.set_answer(at, &answer) else {
        return Err(Stop::NoMemory);
    };
    Ok(answer.goes_on())
}

/// Runs cells, each as a request of its own, up to the first that is refused or doesn't end well.
fn run_each<H: Host, L: Ledger>(
    session: &mut Session,
    host: &mut H,
    notebook: &mut Notebook,
    texts: &[RcStr],
    steps: &mut Steps<L>,
) -> Result<(), Stop>
    requires going { session.old.halted ≡ false }
    requires stands { IsOpen session.old (H.state host.old) }
    requires few { length texts.now < 2 ^ 32 }

    ensures comes { OnOk result (WhereAttached session.old (H.state host.old) (λ g.
        CellsAreRun (H.state host.old) (H.state host.new) session.new g
        (run_of false g (map rc_str_bytes texts.now) (data_of notebook.old))
        notebook.new steps.old steps.new)) }
    ensures bytes { OnOk result (Records true (H.state host.old) (H.state host.new)) }
    ensures stop { WhereAttached session.old (H.state host.old) (λ g.
        StopsInPart (H.state host.old) (H.state host.new) g
        (run_of false g (map rc_str_bytes texts.now) (data_of notebook.old))) }
    ensures damaged { (at : ℕ) → IsErrOf result (Damaged at)
        → EndsDamaged session.old (H.state host.old) (H.state host.new) at }
    ensures tells { (H.state host.new).tells ≡ (H.state host.old).tells }
    ensures no_input { (IsErrOf result InputFault → ⊥) × (IsErrOf result TooLong → ⊥) }
    ensures no_output { IsErrOf result OutputFault → ⊥ }
    ensures disk_fault { IsErrOf result DiskFault → DiskFailed (H.state host.old) (H.state host.new) }
    ensures disk { (H.state host.old).disk_faults ≤ (H.state host.new).disk_faults }
    ensures outs { (H.state host.old).out_faults ≤ (H.state host.new).out_faults }
{
    let mut at = 0;
    for text in texts {
        let Ok(text) = text.clone() else {
            return Err(Stop::NoMemory);
        };
        let request = Request::Cell { text };
        if !run_request(session, host, &request, notebook, at, steps)? {
            return Ok(());
        }
        at += 1;
    }
    Ok(())
}

/// Runs cells as one request, where there is a cell.
fn run_together<H: Host, L: Ledger>(
    session: &mut Session,
    host: &mut H,
    notebook: &mut Notebook,
    texts: Vec<RcStr>,
    steps: &mut Steps<L>,
) -> Result<(), Stop>
    requires going { session.old.halted ≡ false }
    requires stands { IsOpen session.old (H.state host.old) }
    requires room { HasRoom (cells (map rc_str_bytes texts.items)) }

    ensures comes { OnOk result (WhereAttached session.old (H.state host.old) (λ g.
        CellsAreRun (H.state host.old) (H.state host.new) session.new g
        (run_of true g (map rc_str_bytes texts.items) (data_of notebook.old))
        notebook.new steps.old steps.new)) }
    ensures bytes { OnOk result (Records false (H.state host.old) (H.state host.new)) }
    ensures stop { WhereAttached session.old (H.state host.old) (λ g.
        StopsInPart (H.state host.old) (H.state host.new) g
        (run_of true g (map rc_str_bytes texts.items) (data_of notebook.old))) }
    ensures damaged { (at : ℕ) → IsErrOf result (Damaged at)
        → EndsDamaged session.old (H.state host.old) (H.state host.new) at }
    ensures tells { (H.state host.new).tells ≡ (H.state host.old).tells }
    ensures no_input { (IsErrOf result InputFault → ⊥) × (IsErrOf result TooLong → ⊥) }
    ensures no_output { IsErrOf result OutputFault → ⊥ }
    ensures disk_fault { IsErrOf result DiskFault → DiskFailed (H.state host.old) (H.state host.new) }
    ensures disk { (H.state host.old).disk_faults ≤ (H.state host.new).disk_faults }
    ensures outs { (H.state host.old).out_faults ≤ (H.state host.new).out_faults }
{
    if texts.is_empty() {
        return Ok(());
    }
    let request = Request::Cells { texts };
    run_request(session, host, &request, notebook, 0, steps)?;
    Ok(())
}

/// Runs cells, as one request or each as a request of its own.
fn run_cells<H: Host, L: Ledger>(
    session: &mut Session,
    host: &mut H,
    notebook: &mut Notebook,
    texts: Vec<RcStr>,
    together: bool,
    steps: &mut Steps<L>,
) -> Result<(), Stop>
    requires going { session.old.halted ≡ false }
    requires stands { IsOpen session.old (H.state host.old) }
    requires room { HasRoom (cells (map rc_str_bytes texts.items)) }

    ensures comes { OnOk result (WhereAttached session.old (H.state host.old) (λ g.
        CellsAreRun (H.state host.old) (H.state host.new) session.new g
        (run_of together g (map rc_str_bytes texts.items) (data_of notebook.old))
        notebook.new steps.old steps.new)) }
    ensures bytes { OnOk result (Records (not together) (H.state host.old) (H.state host.new)) }
    ensures stop { WhereAttached session.old (H.state host.old) (λ g.
        StopsInPart (H.state host.old) (H.state host.new) g
        (run_of together g (map rc_str_bytes texts.items) (data_of notebook.old))) }
    ensures damaged { (at : ℕ) → IsErrOf result (Damaged at)
        → EndsDamaged session.old (H.state host.old) (H.state host.new) at }
    ensures tells { (H.state host.new).tells ≡ (H.state host.old).tells }
    ensures no_input { (IsErrOf result InputFault → ⊥) × (IsErrOf result TooLong → ⊥) }
    ensures no_output { IsErrOf result OutputFault → ⊥ }
    ensures disk_fault { IsErrOf result DiskFault → DiskFailed (H.state host.old) (H.state host.new) }
    ensures disk { (H.state host.old).disk_faults ≤ (H.state host.new).disk_faults }
    ensures outs { (H.state host.old).out_faults ≤ (H.state host.new).out_faults }
{
    if together {
        run_together(session, host, notebook, texts, steps)
    } else {
        run_each(session, host, notebook, &texts, steps)
    }
}

/// Puts the notebook out, by one call of the host.
fn put_notebook<H: Host>(host: &mut H, notebook: &Notebook) -> Result<(), Stop>
    ensures out { OnOk result
        (AreOut (written (data_of notebook.now)) (H.state host.old) (H.state host.new)) }
    ensures file { (H.state host.new).file ≡ (H.state host.old).file }
    ensures crash { (c : List ℕ) → (H.state host.new).may_leave c → (H.state host.old).may_leave c }
    ensures stop { GoOut (written (data_of notebook.now)) (H.state host.old) (H.state host.new) }
    ensures tells { (H.state host.new).tells ≡ (H.state host.old).tells }
    ensures no_disk { IsErrOf result DiskFault → ⊥ }
    ensures not_damaged { (at : ℕ) → IsErrOf result (Damaged at) → ⊥ }
    ensures no_input { (IsErrOf result InputFault → ⊥) × (IsErrOf result TooLong → ⊥) }
    ensures output_fault { IsErrOf result OutputFault → OutputFailed (H.state host.old) (H.state host.new) }
    ensures disk { (H.state host.old).disk_faults ≤ (H.state host.new).disk_faults }
    ensures outs { (H.state host.old).out_faults ≤ (H.state host.new).out_faults }
{
    let Ok(bytes) = notebook.write() else {
        return Err(Stop::NoMemory);
    };
    let Ok(()) = host.put(&bytes) else {
        return Err(Stop::OutputFault);
    };
    Ok(())
}

/// Runs the cells of a notebook, and puts the notebook out with what they showed, once the last of
/// their records is on the disk.
pub(crate) fn run_notebook<H: Host, L: Ledger>(
    session: &mut Session,
    host: &mut H,
    book: Book,
    steps: &mut Steps<L>,
) -> Result<(), Stop>
    requires going { session.old.halted ≡ false }
    requires stands { IsOpen session.old (H.state host.old) }

    ensures whole { OnOk result (WhereAttached session.old (H.state host.old) (λ g.
        IsWhole (H.state host.old) (H.state host.new) g (items_of book g))) }
    ensures stop { WhereAttached session.old (H.state host.old) (λ g.
        StopsInPart (H.state host.old) (H.state host.new) g (items_of book g)) }
    ensures bytes { OnOk result (Records (not book.together) (H.state host.old) (H.state host.new)) }
    ensures least { OnOk result (WhereAttached session.old (H.state host.old) (λ g.
        steps.old + charges g (items_of book g) ≤ steps.new)) }
    ensures damaged { (at : ℕ) → IsErrOf result (Damaged at)
        → EndsDamaged session.old (H.state host.old) (H.state host.new) at }

    ensures tells { (H.state host.new).tells ≡ (H.state host.old).tells }
    ensures no_input { (IsErrOf result InputFault → ⊥) × (IsErrOf result TooLong → ⊥) }
    ensures disk_fault { IsErrOf result DiskFault → DiskFailed (H.state host.old) (H.state host.new) }
    ensures output_fault { IsErrOf result OutputFault → OutputFailed (H.state host.old) (H.state host.new) }
    ensures disk { (H.state host.old).disk_faults ≤ (H.state host.new).disk_faults }
    ensures outs { (H.state host.old).out_faults ≤ (H.state host.new).out_faults }
{
    let Book {
        mut notebook,
        texts,
        together,
    } = book;
    run_cells(session, host, &mut notebook, texts, together, steps)?;
    put_notebook(host, &notebook)
}
