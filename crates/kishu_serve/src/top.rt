// A whole run.
ghost use Rattle.std.specs.Prelude.{◌≡◌, ◌≤◌, ◌<◌, ◌⊎◌, ◌+◌, ◌*◌, ℕ, length, true, false, Some, None, OnOk, IsOk, IsErrOf, IsSome, Err};
ghost use Rattle.kishu_host.specs.Host.{Told, Keeps, ReadsMore};
ghost use Rattle.kishu_input.specs.Sources.{InputFailed, TakesMoreThan, TakesAtMost};
ghost use Rattle.kishu_store.specs.Graph.{Graph};
ghost use Rattle.kishu_store.specs.Holds.{Holds, IsForeign};
ghost use Rattle.kishu_history.specs.Good.{IsGoodFileOf};
ghost use Rattle.kishu_model.specs.Serve.{charges};
ghost use Rattle.kishu_model.specs.Task.{session as lines};
ghost use Rattle.kishu_model.specs.notebooks.Notebook.{Fault};
ghost use Rattle.kishu_notebook.specs.Values.{fault_of};
ghost use Rattle.kishu_notebook.specs.declared.refusal.NotebookRefusal.{NotebookRefusal};
ghost use Rattle.kishu_journal.specs.Going.{ReadsAtMost};
ghost use Rattle.kishu_live_laws.specs.Made.{opened_nodes};
ghost use Rattle.kishu_session.specs.Faults.{DiskFailed};
ghost use Rattle.kishu_session.specs.Renewing.{most_kept};
ghost use Rattle.kishu_session.specs.Written.{begun, HoldsNone, Stays};
ghost use Rattle.kishu_session.specs.declared.halt.Halt.TheVariants.{NotAJournal as Foreign, Damaged as Broken, DiskFault as NoDisk};
ghost use Rattle.kishu_serve.specs.Efforts.{AreMeasured, read_by_all, steps_by_all};
ghost use Rattle.kishu_serve.specs.EveryStore.{AnswersAll, StopsAll};
ghost use Rattle.kishu_serve.specs.LiveAnswers.{AnswersFrom, EndsFrom};
ghost use Rattle.kishu_serve.specs.Making.{made_by_all};
ghost use Rattle.kishu_serve.specs.Headline.{IsWhole, IsRead, IsUnopened, ReadsWhole, longest_input, most_taken, writes_many, HasFault};
ghost use Rattle.kishu_serve.specs.Promise.{OverGood, form_named, asked_by, ReadsInput, EndsInPart, StopsAsPromised, SettlesInPart, HoldsSome, PassesLimit, StaysWithin, RefusesNotebook, RefusesFor, AllAnswered, FirstAnswered, IsDamaged, OverKnown};
ghost use Rattle.kishu_serve.specs.Recorded.{Records, IsWritten};
ghost use Rattle.kishu_serve.specs.Serving.{OutputFailed, IsOpen, EndsDamaged, WhereKnown, WhereKnownMade, StopsInPart};
ghost use Rattle.kishu_serve.specs.Work.{to_do, HaveRoom, still_reads, answers_each, records_many, taken_by, Knows, IsLimited, IsRead as IsReadFor};
ghost use Rattle.kishu_serve.specs.declared.serving.Stop.TheVariants.{DiskFault as StopDisk, InputFault as StopInput, OutputFault as StopOutput, TooLong as StopLong, Damaged as StopDamaged};
ghost use Rattle.kishu_serve.specs.declared.status.Status.TheVariants.{Done, Usage, NotAJournal, Damaged, NotebookRefused, DiskFault, InputFault, OutputFault, NoMemory, InputTooLong};
ghost use Rattle.kishu_serve.specs.declared.work.Unread.TheVariants.{Fault as SourceFault, TooLong as PastLimit, Refused as Unfit};

use crate::Status;
use crate::making::run_script;
use crate::notebooks::run_notebook;
use crate::running::serve_all;
use crate::serving::Stop;
use crate::work::{Unread, Work};
use kishu_host::{Host, Source};
use kishu_model::Steps;
use kishu_session::{Halt, Session};
use kishu_words::read_words;
use std::alloc::{AllocError, Global};
use std::sync::ledger::Ledger;

/// How a run ends whose requests were served so.
fn served(outcome: Result<(), Stop>) -> Status
    ensures done { result ≡ Done → IsOk outcome }
    ensures disk_fault { result ≡ DiskFault → outcome ≡ Err StopDisk }
    ensures disk { outcome ≡ Err StopDisk → result ≡ DiskFault }
    ensures input_fault { result ≡ InputFault → outcome ≡ Err StopInput }
    ensures output_fault { result ≡ OutputFault → outcome ≡ Err StopOutput }
    ensures too_long { result ≡ InputTooLong → outcome ≡ Err StopLong }
    ensures damaged { (at : ℕ) → result ≡ Damaged at → outcome ≡ Err (StopDamaged at) }
    ensures these { (result ≡ Done) ⊎ (result ≡ NoMemory) ⊎ (result ≡ InputTooLong)
        ⊎ (result ≡ DiskFault) ⊎ (result ≡ InputFault) ⊎ (result ≡ OutputFault)
        ⊎ ((at : ℕ) × (result ≡ Damaged at)) }
{
    match outcome {
        Ok(()) => Status::Done,
        Err(Stop::DiskFault) => Status::DiskFault,
        Err(Stop::InputFault) => Status::InputFault,
        Err(Stop::OutputFault) => Status::OutputFault,
        Err(Stop::TooLong) => Status::InputTooLong,
        Err(Stop::Damaged { at }) => Status::Damaged { at },
        Err(Stop::NoMemory) => Status::NoMemory,
    }
}

/// How a run ends whose store isn't opened. An opening answers no `Closed`.
fn unopened(halt: Halt) -> Status
    ensures foreign { result ≡ NotAJournal → halt ≡ Foreign }
    ensures damaged { (at : ℕ) → result ≡ Damaged at → halt ≡ Broken at }
    ensures disk_fault { result ≡ DiskFault → halt ≡ NoDisk }
    ensures disk { halt ≡ NoDisk → result ≡ DiskFault }
    ensures these { (result ≡ NotAJournal) ⊎ ((at : ℕ) × (result ≡ Damaged at)) ⊎ (result ≡ DiskFault)
        ⊎ (result ≡ NoMemory) }
{
    match halt {
        Halt::NotAJournal => Status::NotAJournal,
        Halt::Damaged { at } => Status::Damaged { at },
        Halt::DiskFault => Status::DiskFault,
        Halt::NoMemory | Halt::Closed => Status::NoMemory,
    }
}

/// How a run ends whose input, read whole, isn't what its words ask for.
fn unread(stop: Unread) -> Status
    ensures fault { result ≡ InputFault → stop ≡ SourceFault }
    ensures too_long { result ≡ InputTooLong → stop ≡ PastLimit }
    ensures refused { (why : NotebookRefusal) → result ≡ NotebookRefused why → stop ≡ Unfit why }
    ensures these { (result ≡ InputFault) ⊎ (result ≡ InputTooLong) ⊎ (result ≡ NoMemory)
        ⊎ ((why : NotebookRefusal) × (stop ≡ Unfit why) × (result ≡ NotebookRefused why)) }
{
    match stop {
        Unread::Fault => Status::InputFault,
        Unread::TooLong => Status::InputTooLong,
        Unread::Refused(why) => Status::NotebookRefused(why),
        Unread::NoMemory => Status::NoMemory,
    }
}

/// Does what a run is to do, over a session that is open.
fn carry_out<H: Host, S: Source, L: Ledger>(
    alloc: Global,
    session: &mut Session,
    work: Work,
    source: &mut S,
    host: &mut H,
    steps: &mut Steps<L>,
) -> Result<(), Stop>
    requires going { session.old.halted ≡ false }
    requires stands { IsOpen session.old (H.state host.old) }
    requires room { HaveRoom work }

    // All is done where it succeeds, and all before a limit where one is reached.
    ensures whole { IsOk result ⊎ IsErrOf result StopLong
        → WhereKnown work (S.source source.old) session.old (H.state host.old) (λ g items.
        IsWhole (H.state host.old) (H.state host.new) g items) }
    ensures stop { WhereKnown work (S.source source.old) session.old (H.state host.old) (λ g items.
        StopsInPart (H.state host.old) (H.state host.new) g items) }
    ensures bytes { OnOk result (Records (records_many work) (H.state host.old) (H.state host.new)) }
    ensures least { OnOk result (
        WhereKnown work (S.source source.old) session.old (H.state host.old) (λ g items.
        steps.old + charges g items ≤ steps.new)) }
    ensures whole_live { IsOk result ⊎ IsErrOf result StopLong → answers_each work ≡ true
        → AnswersAll work (S.source source.old) session.old (H.state host.old) (H.state host.new) }
    ensures stop_live { answers_each work ≡ true
        → StopsAll work (S.source source.old) session.old (H.state host.old) (H.state host.new) }
    ensures loads { OnOk result (
        WhereKnown work (S.source source.old) session.old (H.state host.old) (λ g items.
        AreMeasured g items
        → ReadsMore (H.state host.old).reads (H.state host.new).reads (read_by_all g items))) }
    ensures most { OnOk result (
        WhereKnownMade work (S.source source.old) session.old (H.state host.old) (λ made g items.
        AreMeasured g items → made + made_by_all g items ≤ most_kept
        → steps.new ≤ steps.old + steps_by_all g items)) }
    ensures damaged { (at : ℕ) → IsErrOf result (StopDamaged at)
        → EndsDamaged session.old (H.state host.old) (H.state host.new) at }

    ensures read { OnOk result (Knows work (S.source source.old)
        → IsReadFor work (S.source source.new) × (IsLimited work (S.source source.old) → ⊥)) }
    ensures too_long { IsErrOf result StopLong → (still_reads work ≡ true)
        × (Knows work (S.source source.old) → IsLimited work (S.source source.old)) }
    ensures alone { still_reads work ≡ false → source.new ≡ source.old }
    ensures taken { taken_by work ≡ 0
        → TakesAtMost (most_taken (Some lines)) (S.source source.old) (S.source source.new) }

    ensures tells { (H.state host.new).tells ≡ (H.state host.old).tells }
    ensures disk_fault { IsErrOf result StopDisk → DiskFailed (H.state host.old) (H.state host.new) }
    ensures output_fault { IsErrOf result StopOutput → OutputFailed (H.state host.old) (H.state host.new) }
    ensures input_fault { IsErrOf result StopInput
        → (still_reads work ≡ true) × InputFailed (S.source source.old) (S.source source.new) }
    ensures disk { (H.state host.old).disk_faults ≤ (H.state host.new).disk_faults }
    ensures outs { (H.state host.old).out_faults ≤ (H.state host.new).out_faults }
{
    match work {
        Work::Answers(mut requests) => {
            serve_all(alloc, session, &mut requests, source, host, steps)
        }
        Work::Runs(book) => run_notebook(session, host, book, steps),
        Work::Makes(script) => run_script(alloc, session, host, script, steps),
    }
}

/// Opens the store, and does what the run is to do.
fn run_work<H: Host, S: Source, L: Ledger>(
    alloc: Global,
    work: Work,
    source: &mut S,
    host: &mut H,
    steps: &mut Steps<L>,
) -> Status
    requires room { HaveRoom work }

    ensures run { OverKnown work (S.source source.old) (H.state host.old) (λ g items.
        EndsInPart (H.state host.old) (H.state host.new) g items) }
    ensures whole { (result ≡ Done) ⊎ (result ≡ InputTooLong)
        → OverKnown work (S.source source.old) (H.state host.old) (λ g items.
        IsWhole (H.state host.old) (H.state host.new) g items) }
    ensures whole_live { (result ≡ Done) ⊎ (result ≡ InputTooLong)
        → answers_each work ≡ true → Knows work (S.source source.old) → Told (H.state host.old)
        (AnswersFrom (λ g. to_do work g (S.source source.old).left) (H.state host.old) (H.state host.new)) }
    ensures part_live { answers_each work ≡ true → Knows work (S.source source.old)
        → Told (H.state host.old) ((g : Graph) → Holds (H.state host.old).file g → EndsFrom
        (λ g. to_do work g (S.source source.old).left) (H.state host.old) (H.state host.new) g) }
    ensures stop { OverKnown work (S.source source.old) (H.state host.old) (λ g items.
        StopsAsPromised (H.state host.old) (H.state host.new) g items) }
    ensures settled { OverKnown work (S.source source.old) (H.state host.old) (λ g items.
        ((result ≡ DiskFault) × Keeps (H.state host.old) (H.state host.new))
        ⊎ SettlesInPart (H.state host.old) (H.state host.new) g items) }
    ensures bytes { result ≡ Done → Told (H.state host.old)
        (IsWritten (records_many work) (H.state host.old).file (H.state host.new).file) }
    ensures good { (result ≡ Done) ⊎ (result ≡ InputFault) ⊎ (result ≡ InputTooLong)
        → HoldsSome (H.state host.old) }
    ensures bad { Told (H.state host.old)
        (HoldsNone (H.state host.old).file → Stays (H.state host.old) (H.state host.new)) }

    ensures not_usage { result ≡ Usage → ⊥ }
    ensures not_refused { (why : NotebookRefusal) → result ≡ NotebookRefused why → ⊥ }
    ensures foreign { result ≡ NotAJournal → Told (H.state host.old) (IsForeign (H.state host.old).file) }
    ensures damaged { (at : ℕ) → result ≡ Damaged at
        → IsDamaged (H.state host.old) (H.state host.new) at }
    ensures disk_fault { result ≡ DiskFault → DiskFailed (H.state host.old) (H.state host.new) }
    ensures output_fault { result ≡ OutputFault → OutputFailed (H.state host.old) (H.state host.new) }
    ensures input_fault { result ≡ InputFault
        → (still_reads work ≡ true) × InputFailed (S.source source.old) (S.source source.new) }
    ensures complete { Told (H.state host.old) ((g : Graph) → IsGoodFileOf (H.state host.old).file g
        → (result ≡ Done) ⊎ (result ≡ NoMemory) ⊎ (result ≡ InputTooLong)
        ⊎ (result ≡ DiskFault) ⊎ (result ≡ InputFault) ⊎ (result ≡ OutputFault)) }
    ensures loads { result ≡ Done → OverKnown work (S.source source.old) (H.state host.old) (λ g items.
        AreMeasured g items
        → ReadsAtMost (H.state host.old).reads (H.state host.new).reads
        (3 * length (H.state host.old).file + read_by_all g items)) }
    ensures most { result ≡ Done → OverKnown work (S.source source.old) (H.state host.old) (λ g items.
        AreMeasured g items → opened_nodes g g.head.commit + made_by_all g items ≤ most_kept
        → steps.new ≤ steps.old + steps_by_all g items) }
    ensures counted { result ≡ Done → OverKnown work (S.source source.old) (H.state host.old) (λ g items.
        steps.old + charges g items ≤ steps.new) }

    ensures read { result ≡ Done → Knows work (S.source source.old)
        → IsReadFor work (S.source source.new) × (IsLimited work (S.source source.old) → ⊥) }
    ensures too_long { result ≡ InputTooLong → (still_reads work ≡ true)
        × (Knows work (S.source source.old) → IsLimited work (S.source source.old)) }
    ensures alone { still_reads work ≡ false → source.new ≡ source.old }
    ensures taken { taken_by work ≡ 0
        → TakesAtMost (most_taken (Some lines)) (S.source source.old) (S.source source.new) }
{
    match Session::attach(alloc, host, steps) {
        Ok(mut session) => served(carry_out(alloc, &mut session, work, source, host, steps)),
        Err(halt) => unopened(halt),
    }
}

/// Runs the words over the input and the store, and puts the answers out.
///
/// The words are those of the command line without the program's name:
///
/// - `STORE session` opens the store and answers each line of the input as it comes.
/// - `STORE cell` runs the whole input as one cell, once it is read.
/// - `STORE run` reads the whole input as a notebook, runs its code cells in order, each as a commit of
///   its own, up to the first that is refused or doesn't end well, and writes the notebook with what they
///   showed. With `--together`, at any place among the words, all those that are run are one commit.
/// - `STORE log`, `STORE status`, `STORE inspect`, `STORE checkout REF`, `STORE branch NAME` and
///   `STORE branch NAME REF` answer that one request, and read no input.
/// - `STORE gen START N` makes N requests from START, applies them, and sums them up in one line: how many
///   commits and records there are then, and the SHA-256 of the lines that would have answered them. It
///   reads no input.
///
/// An answer is one line, which goes out once its record is on the disk. What is refused is answered in
/// one line too, and changes nothing. For the cells of a notebook no answers go out; the notebook does,
/// once the last of their records is on the disk. So it is with the line that sums up requests that are
/// made. An input that is no notebook is told by `NotebookRefused`, before the store is opened.
///
/// A line that reaches 2^24 bytes before its line feed, an input of `session` that reaches 2^30 bytes, a
/// notebook that reaches 2^26 and an input of `cell` of more than 1,048,576 end the run with
/// `InputTooLong`, unless another cause comes before. At most 4,096 bytes more than that are taken.
///
/// At `Done` all is answered, and a stop from then on leaves the store with what was recorded. At any
/// other status the store holds what the first requests left, and all their answers but the last are out.
pub fn kishu<H: Host, S: Source, L: Ledger>(
    alloc: Global,
    words: &[String],
    source: &mut S,
    host: &mut H,
    steps: &mut Steps<L>,
) -> Status
    // Over a good store: at each exit the store is good and holds the graph after the first requests, and
    // their answers are out, the last in part.
    ensures run { OverGood (H.state host.old) (S.source source.old) (λ g.
        EndsInPart (H.state host.old) (H.state host.new) g (asked_by words.now (S.source source.old) g)) }

    // Done: all requests are answered, nothing is pending, and the input of a form that reads was read to its
    // end.
    ensures done { result ≡ Done → OverGood (H.state host.old) (S.source source.old) (λ g.
        IsWhole (H.state host.old) (H.state host.new) g (asked_by words.now (S.source source.old) g)
        × IsRead (form_named words.now) (S.source source.new).left) }

    // On every store, good or not: where a source that tells its input is read, at Done it was read to its end.
    ensures read { result ≡ Done → (S.source source.old).tells ≡ true
        → IsRead (form_named words.now) (S.source source.new).left }

    // On every store that holds a graph, for `session`, `cell` and words that are one request: at Done, and
    // where the input of a session reaches a limit, all requests before are answered on the live state, the
    // first on the one that is loaded for the head, and they lead to the file.
    ensures answered { (result ≡ Done) ⊎ ((form_named words.now ≡ Some lines) × (result ≡ InputTooLong))
        → AllAnswered (form_named words.now) (S.source source.old) (H.state host.old) (H.state host.new) }

    // At each exit of these so are the first of them, the last in part, and the file holds the graph to which
    // they lead.
    ensures first_answered { FirstAnswered (form_named words.now) (S.source source.old) (H.state host.old)
        (H.state host.new) }

    // A stop at any moment leaves what a stop at the start could leave, or so.
    ensures stop { OverGood (H.state host.old) (S.source source.old) (λ g.
        StopsAsPromised (H.state host.old) (H.state host.new) g
        (asked_by words.now (S.source source.old) g)) }

    // At an exit a stop leaves nothing but that, unless the host was never called, or the disk failed and all
    // is as it was: then a stop leaves nothing that a stop at the start couldn't leave.
    ensures settled { OverGood (H.state host.old) (S.source source.old) (λ g.
        (host.new ≡ host.old) ⊎ ((result ≡ DiskFault) × Keeps (H.state host.old) (H.state host.new))
        ⊎ SettlesInPart (H.state host.old) (H.state host.new) g
        (asked_by words.now (S.source source.old) g)) }

    // Done: each byte of the file is that of the old one, which was begun anew where it was short, or that of
    // the records that were written behind it, one after another; one at most but in a session, in a run of
    // cells one by one, and of requests that are made.
    ensures bytes { result ≡ Done → Told (H.state host.old) (IsWritten (writes_many (form_named words.now))
        (H.state host.old).file (H.state host.new).file) }

    // Each status has its cause.
    ensures usage { result ≡ Usage → form_named words.now ≡ None }
    ensures no_form { form_named words.now ≡ None → (result ≡ Usage) ⊎ (result ≡ NoMemory) }
    ensures nothing { form_named words.now ≡ None
        → (host.new ≡ host.old) × (source.new ≡ source.old) × (steps.new ≡ steps.old) }
    ensures unread { most_taken (form_named words.now) ≡ 0 → source.new ≡ source.old }
    ensures untouched { IsUnopened (form_named words.now) result → host.new ≡ host.old }
    ensures foreign { result ≡ NotAJournal → Told (H.state host.old) (IsForeign (H.state host.old).file) }
    ensures damaged { (at : ℕ) → result ≡ Damaged at
        → IsDamaged (H.state host.old) (H.state host.new) at }
    ensures disk_fault { result ≡ DiskFault → DiskFailed (H.state host.old) (H.state host.new) }
    ensures input_fault { result ≡ InputFault → InputFailed (S.source source.old) (S.source source.new) }
    ensures output_fault { result ≡ OutputFault → OutputFailed (H.state host.old) (H.state host.new) }
    ensures reads { (result ≡ InputFault) ⊎ (result ≡ InputTooLong) → ReadsInput (form_named words.now) }

    // Input past a limit is told so, unless another cause is met before: the input of a cell and a notebook
    // are read first, and a session's store is opened first. A session has then answered all lines before. At
    // most 4,096 bytes past the longest input are taken, however the run ends.
    ensures too_long { result ≡ InputTooLong → PassesLimit (form_named words.now) (S.source source.old) }
    ensures limit { result ≡ Done → StaysWithin (form_named words.now) (S.source source.old) }
    ensures whole_limit { ReadsWhole (form_named words.now)
        → (S.source source.old).tells ≡ true
        → longest_input (form_named words.now) < length (S.source source.old).left
        → (result ≡ InputTooLong) ⊎ (result ≡ InputFault) ⊎ (result ≡ NoMemory) }
    ensures whole_taken { ReadsWhole (form_named words.now) → result ≡ InputTooLong → TakesMoreThan
        (longest_input (form_named words.now)) (S.source source.old) (S.source source.new) }
    ensures all_before { form_named words.now ≡ Some lines → result ≡ InputTooLong
        → OverGood (H.state host.old) (S.source source.old) (λ g.
        IsWhole (H.state host.old) (H.state host.new) g (asked_by words.now (S.source source.old) g)) }
    ensures opened { form_named words.now ≡ Some lines → (result ≡ InputFault) ⊎ (result ≡ InputTooLong)
        → HoldsSome (H.state host.old) }
    ensures taken { TakesAtMost (most_taken (form_named words.now)) (S.source source.old) (S.source source.new) }

    // A notebook is refused just for the first fault that it has. The host isn't called then.
    ensures refused { (why : NotebookRefusal) → result ≡ NotebookRefused why
        → HasFault (form_named words.now) (S.source source.old) (fault_of why) }
    ensures refuses { (fault : Fault) → (S.source source.old).tells ≡ true
        → HasFault (form_named words.now) (S.source source.old) fault
        → RefusesFor fault result ⊎ (result ≡ InputTooLong) ⊎ (result ≡ InputFault) ⊎ (result ≡ NoMemory) }

    // Where no fault came, it does its work, unless memory ran out, or the input is too long or no notebook.
    ensures complete { OverGood (H.state host.old) (S.source source.old) (λ g. IsSome (form_named words.now)
        → (DiskFailed (H.state host.old) (H.state host.new) → ⊥)
        → (OutputFailed (H.state host.old) (H.state host.new) → ⊥)
        → (InputFailed (S.source source.old) (S.source source.new) → ⊥)
        → (result ≡ Done) ⊎ (result ≡ NoMemory) ⊎ (result ≡ InputTooLong)
        ⊎ RefusesNotebook result) }

    // Over a file that holds no graph it isn't done, the file stays, and nothing is put out.
    ensures good { result ≡ Done → HoldsSome (H.state host.old) }
    ensures bad { Told (H.state host.old)
        (HoldsNone (H.state host.old).file → Stays (H.state host.old) (H.state host.new)) }

    // Done of a session whose lines ask for cells that are committed, for checkouts that aren't refused, and
    // for what only tells or names what is kept: beside at most three times the bytes that the store had, just
    // the pictures of the groups were read that the checkouts load, and of those that committed cells touch
    // and leave with the digests that they had; and where at most 8,000,000 nodes are made, by the opening,
    // the loads and the cells, the counter rose by no more than the cells' bounds.
    ensures loads { result ≡ Done → form_named words.now ≡ Some lines
        → OverGood (H.state host.old) (S.source source.old) (λ g.
        AreMeasured g (asked_by words.now (S.source source.old) g)
        → ReadsAtMost (H.state host.old).reads (H.state host.new).reads (3 * length (H.state host.old).file
        + read_by_all g (asked_by words.now (S.source source.old) g))) }
    ensures most { result ≡ Done → form_named words.now ≡ Some lines
        → OverGood (H.state host.old) (S.source source.old) (λ g.
        AreMeasured g (asked_by words.now (S.source source.old) g)
        → opened_nodes g g.head.commit + made_by_all g (asked_by words.now (S.source source.old) g) ≤ most_kept
        → steps.new ≤ steps.old + steps_by_all g (asked_by words.now (S.source source.old) g)) }

    // Done: each step of the cells that were run is counted. Where the words or an input that is read whole
    // end the run, none is.
    ensures counted { result ≡ Done → OverGood (H.state host.old) (S.source source.old) (λ g.
        steps.old + charges g (asked_by words.now (S.source source.old) g) ≤ steps.new) }
    ensures idle { IsUnopened (form_named words.now) result → steps.new ≡ steps.old }
{
    let command = match read_words(alloc, words) {
        Ok(Some(command)) => command,
        Ok(None) => return Status::Usage,
        Err(AllocError) => return Status::NoMemory,
    };
    match Work::of_command(alloc, command, source) {
        Ok(work) => run_work(alloc, work, source, host, steps),
        Err(stop) => unread(stop),
    }
}
