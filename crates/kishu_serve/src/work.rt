// What a run does, by its command and its input.
ghost use Rattle.std.specs.Prelude.{◌≡◌, ◌≤◌, ◌+◌, ◌-◌, ◌∷◌, [], ℕ, List, length, true, false, IfOk, OnOk, IsErr, IsErrOf, Some, Err};
ghost use Rattle.kishu_language.specs.Limits.{longest_text};
ghost use Rattle.kishu_store.specs.Graph.{Graph};
ghost use Rattle.kishu_model.specs.requests.Cells.{HasRoom};
ghost use Rattle.kishu_model.specs.Serve.{answered};
ghost use Rattle.kishu_model.specs.Task.{session, cell_request, notebook_limit};
ghost use Rattle.kishu_model.specs.Values.{request_of};
ghost use Rattle.kishu_model.specs.notebooks.Notebook.{Fault, opening};
ghost use Rattle.kishu_notebook.specs.Values.{fault_of};
ghost use Rattle.kishu_notebook.specs.declared.refusal.NotebookRefusal.{NotebookRefusal};
ghost use Rattle.kishu_words.specs.Commands.{form_by};
ghost use Rattle.kishu_input.specs.Sources.{InputFailed, IsAllLeft, TakesMoreThan, TakesAtMost};
ghost use Rattle.kishu_serve.specs.Asking.{asked_of};
ghost use Rattle.kishu_serve.specs.Headline.{ReadsWhole, longest_input, most_taken, writes_many, HasFault};
ghost use Rattle.kishu_serve.specs.Notebooks.{IsReadAs};
ghost use Rattle.kishu_serve.specs.Work.{to_do, HaveRoom, still_reads, answers_each, records_many, is_session, one_by_one, taken_by, AsksFor, KeepsLimit, WithinWhole};
ghost use Rattle.kishu_serve.specs.declared.work.Unread.TheVariants.{Fault as SourceFault, TooLong, Refused};

use crate::asking::{Asked, Requests};
use crate::book::Book;
use kishu_gen::Script;
use kishu_host::Source;
use kishu_input::{InputStop, LineReader, read_input};
use kishu_language::LONGEST_TEXT;
use kishu_model::Request;
use kishu_notebook::NotebookRefusal;
use kishu_words::Command;
use std::alloc::{AllocError, Global};

/// The most bytes that a notebook has.
const LONGEST_NOTEBOOK: usize = (1 << 26) - 1;

/// What a run does, once its store is open.
#[derive(Drop)]
pub(crate) enum Work {
    /// It answers requests.
    Answers(Requests),
    /// It runs the cells of a notebook.
    Runs(Book),
    /// It applies requests that are made, and sums them up.
    Makes(Script),
}

/// Why an input that is read whole isn't what the command asks for.
#[derive(Clone, Copy, Debug, PartialEq, Eq)]
pub(crate) enum Unread {
    /// The source failed.
    Fault,
    /// It has more bytes than the command takes.
    TooLong,
    /// It is no notebook.
    Refused(NotebookRefusal),
    /// There was no memory.
    NoMemory,
}

/// An input as a whole, of at most so many bytes.
fn read_whole<S: Source>(alloc: Global, source: &mut S, most: usize) -> Result<Vec<u8>, Unread>
    ensures whole { IfOk result (λ v. IsAllLeft (S.source source.old) (S.source source.new) v.items) }
    ensures short { IfOk result (λ v. length v.items ≤ most) }
    ensures not_refused { (why : NotebookRefusal) → IsErrOf result (Refused why) → ⊥ }
    ensures too_long { IsErrOf result TooLong
        → TakesMoreThan most (S.source source.old) (S.source source.new) }
    ensures taken { TakesAtMost (most + 4096) (S.source source.old) (S.source source.new) }
    ensures tells { (S.source source.new).tells ≡ (S.source source.old).tells }
    ensures fault { IsErrOf result SourceFault → InputFailed (S.source source.old) (S.source source.new) }
    ensures faults { (S.source source.old).in_faults ≤ (S.source source.new).in_faults }
{
    match read_input(alloc, source, most) {
        Ok(input) => Ok(input),
        Err(InputStop::Fault) => Err(Unread::Fault),
        Err(InputStop::TooLong) => Err(Unread::TooLong),
        Err(InputStop::NoMemory) => Err(Unread::NoMemory),
    }
}

/// What the whole input asks for as one cell.
fn cell<S: Source>(alloc: Global, source: &mut S) -> Result<Asked, Unread>
    ensures asked { IfOk result (λ asked. (S.source source.old).tells ≡ true
        → asked_of asked ≡ cell_request (S.source source.old).left) }
    ensures room { IfOk result (λ asked. HasRoom (asked_of asked)) }
    ensures not_refused { (why : NotebookRefusal) → IsErrOf result (Refused why) → ⊥ }
    ensures read { OnOk result (WithinWhole longest_text (S.source source.old) (S.source source.new)) }
    ensures too_long { IsErrOf result TooLong
        → TakesMoreThan longest_text (S.source source.old) (S.source source.new) }
    ensures taken { TakesAtMost (longest_text + 4096) (S.source source.old) (S.source source.new) }
    ensures tells { (S.source source.new).tells ≡ (S.source source.old).tells }
    ensures fault { IsErrOf result SourceFault → InputFailed (S.source source.old) (S.source source.new) }
    ensures faults { (S.source source.old).in_faults ≤ (S.source source.new).in_faults }
{
    let input = read_whole(alloc, source, LONGEST_TEXT)?;
    match Asked::of_input(alloc, &input) {
        Ok(asked) => Ok(asked),
        Err(AllocError) => Err(Unread::NoMemory),
    }
}

/// The notebook that the whole input is.
fn book<S: Source>(alloc: Global, source: &mut S, together: bool) -> Result<Book, Unread>
    ensures as_asked { IfOk result (λ book. book.together ≡ together) }
    ensures read_as { IfOk result (λ book. (S.source source.old).tells ≡ true
        → IsReadAs (opening (S.source source.old).left) book) }
    ensures refused { (why : NotebookRefusal) → IsErrOf result (Refused why)
        → (S.source source.old).tells ≡ true → opening (S.source source.old).left ≡ Err (fault_of why) }
    ensures refused_short { (why : NotebookRefusal) → IsErrOf result (Refused why)
        → WithinWhole (notebook_limit - 1) (S.source source.old) (S.source source.new) }
    ensures read { OnOk result
        (WithinWhole (notebook_limit - 1) (S.source source.old) (S.source source.new)) }
    ensures too_long { IsErrOf result TooLong
        → TakesMoreThan (notebook_limit - 1) (S.source source.old) (S.source source.new) }
    ensures taken { TakesAtMost (notebook_limit + 4095) (S.source source.old) (S.source source.new) }
    ensures tells { (S.source source.new).tells ≡ (S.source source.old).tells }
    ensures fault { IsErrOf result SourceFault → InputFailed (S.source source.old) (S.source source.new) }
    ensures faults { (S.source source.old).in_faults ≤ (S.source source.new).in_faults }
{
    let input = read_whole(alloc, source, LONGEST_NOTEBOOK)?;
    Book::read(alloc, &input, together)
}

impl Work {
    /// To answer one request.
    fn one(request: Request) -> Work
        requires { HasRoom (request_of request) }
        ensures asks { (g : Graph) (left : List ℕ)
            → to_do result g left ≡ answered (request_of request) ∷ [] }
        ensures room { HaveRoom result }
        ensures lines { still_reads result ≡ false }
        ensures each { answers_each result ≡ true }
        ensures many { records_many result ≡ false }
        ensures none_taken { taken_by result ≡ 0 }
    {
        Work::Answers(Requests::One(Asked::Request(request)))
    }

    /// What a command asks for. For `Cell` and `Run` the input is read whole.
    pub(crate) fn of_command<S: Source>(
        alloc: Global,
        command: Command,
        source: &mut S,
    ) -> Result<Work, Unread>
        ensures asked { IfOk result (λ work.
            AsksFor (form_by command) (S.source source.old) work (S.source source.new)) }
        ensures limits { IfOk result (λ work.
            form_by command ≡ session → KeepsLimit (S.source source.old) work (S.source source.new)) }
        ensures room { IfOk result (λ work. HaveRoom work) }
        ensures lines { IfOk result (λ work. still_reads work ≡ is_session (form_by command)) }
        ensures each { IfOk result (λ work. answers_each work ≡ one_by_one (form_by command)) }
        ensures many { IfOk result (λ work. records_many work ≡ writes_many (Some (form_by command))) }
        ensures none_taken { IfOk result (λ work. taken_by work ≡ 0) }
        ensures whole { OnOk result (ReadsWhole (Some (form_by command)) → WithinWhole
            (longest_input (Some (form_by command))) (S.source source.old) (S.source source.new)) }
        ensures no_fault { OnOk result ((fault : Fault) → (S.source source.old).tells ≡ true
            → HasFault (Some (form_by command)) (S.source source.old) fault → ⊥) }
        ensures unread { (ReadsWhole (Some (form_by command)) → ⊥) → source.new ≡ source.old }
        ensures whole_alone { IsErr result → ReadsWhole (Some (form_by command)) }
        ensures too_long { IsErrOf result TooLong → TakesMoreThan
            (longest_input (Some (form_by command))) (S.source source.old) (S.source source.new) }
        ensures refused { (why : NotebookRefusal) → IsErrOf result (Refused why)
            → HasFault (Some (form_by command)) (S.source source.old) (fault_of why) }
        ensures refused_short { (why : NotebookRefusal) → IsErrOf result (Refused why) → WithinWhole
            (longest_input (Some (form_by command))) (S.source source.old) (S.source source.new) }
        ensures taken { TakesAtMost (most_taken (Some (form_by command))) (S.source source.old) (S.source source.new) }
        ensures tells { (S.source source.new).tells ≡ (S.source source.old).tells }
        ensures fault { IsErrOf result SourceFault → InputFailed (S.source source.old) (S.source source.new) }
        ensures faults { (S.source source.old).in_faults ≤ (S.source source.new).in_faults }
    {
        match command {
            Command::Session => Ok(Work::Answers(Requests::Lines(LineReader::new(alloc)))),
            Command::Cell => Ok(Work::Answers(Requests::One(cell(alloc, source)?))),
            Command::Run { together } => Ok(Work::Runs(book(alloc, source, together)?)),
            Command::Log => Ok(Work::one(Request::Log)),
            Command::Status => Ok(Work::one(Request::Status)),
            Command::Inspect => Ok(Work::one(Request::Inspect)),
            Command::Checkout { to } => Ok(Work::one(Request::Checkout { to })),
            Command::Branch { name, at } => Ok(Work::one(Request::Branch { name, at })),
            Command::Gen { start, n } => Ok(Work::Makes(Script::new(start, n))),
        }
    }
}
