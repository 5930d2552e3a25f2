ghost use Rattle.std.specs.Prelude.{◌≡◌, ◌++◌, codes, IfOk, string_bytes};
ghost use Rattle.kishu_model.specs.notebooks.Notebook.{reason, key_name};
ghost use Rattle.kishu_notebook.specs.Values.{fault_of, key_of};
ghost use Rattle.kishu_serve.specs.Statuses.{code_of, text_of};

use kishu_notebook::{NotebookKey, NotebookRefusal};
use std::alloc::{AllocError, Global};

/// How a run ended.
#[derive(Clone, Copy, Debug, PartialEq, Eq)]
pub enum Status {
    /// All was answered, and a form that reads has read its input to the end.
    Done,
    /// The words have no form.
    Usage,
    /// The store file has more than 17 bytes and another header.
    NotAJournal,
    /// The gate at this byte of the store file is open, and no record that fits follows it; or there is
    /// no picture at this byte, where a group's has to be that is loaded.
    Damaged { at: u64 },
    /// The input of `run` is no notebook.
    NotebookRefused(NotebookRefusal),
    /// The disk failed.
    DiskFault,
    /// The input failed.
    InputFault,
    /// The output failed.
    OutputFault,
    /// Memory ran out.
    NoMemory,
    /// A line of a session reaches 2^24 bytes before its line feed, its input reaches 2^30 bytes, a
    /// notebook reaches 2^26, or the input of `cell` has more than 1,048,576 bytes.
    InputTooLong,
}

impl Status {
    /// The exit code of the program.
    pub fn code(&self) -> u8
        ensures { result ≡ code_of self.now }
    {
        match self {
            Status::Done => 0,
            Status::Usage => 2,
            Status::NotAJournal | Status::Damaged { .. } => 3,
            Status::NotebookRefused(_) => 4,
            Status::DiskFault => 5,
            Status::InputFault => 6,
            Status::OutputFault => 7,
            Status::NoMemory => 8,
            Status::InputTooLong => 9,
        }
    }

    /// What the program says on standard error, without a line feed: nothing at `Done`. The error is
    /// want of memory.
    pub fn text(&self, alloc: Global) -> Result<String, AllocError>
        ensures { IfOk result (λ t. string_bytes t ≡ text_of self.now) }
    {
        match self {
            Status::Done => Ok(String::new(alloc)),
            Status::Usage => String::from_str(alloc, "usage: kishu STORE COMMAND"),
            Status::NotAJournal => String::from_str(alloc, "not a journal"),
            Status::Damaged { at } => format!(in alloc; "damaged at {at}"),
            Status::NotebookRefused(why) => refusal_text(alloc, *why),
            Status::DiskFault => String::from_str(alloc, "disk fault"),
            Status::InputFault => String::from_str(alloc, "input fault"),
            Status::OutputFault => String::from_str(alloc, "output fault"),
            Status::NoMemory => String::from_str(alloc, "no memory"),
            Status::InputTooLong => String::from_str(alloc, "input too long"),
        }
    }
}

/// What is said of a notebook that is refused.
fn refusal_text(alloc: Global, why: NotebookRefusal) -> Result<String, AllocError>
    ensures { IfOk result (λ t. string_bytes t ≡ codes "notebook refused: " ++ reason (fault_of why)) }
{
    match why {
        NotebookRefusal::NotJson => String::from_str(alloc, "notebook refused: not JSON"),
        NotebookRefusal::NotNotebook { key } => key_text(alloc, key),
        NotebookRefusal::Version { minor } => {
            format!(in alloc; "notebook refused: minor {minor}")
        }
        NotebookRefusal::BadCell { index } => {
            format!(in alloc; "notebook refused: cell {index}")
        }
        NotebookRefusal::RepeatedId { index } => {
            format!(in alloc; "notebook refused: repeated id at cell {index}")
        }
        NotebookRefusal::NotWhole => {
            String::from_str(alloc, "notebook refused: a number is not whole")
        }
    }
}

/// The same of one whose key is missing, or has another kind of value.
fn key_text(alloc: Global, key: NotebookKey) -> Result<String, AllocError>
    ensures { IfOk result (λ t.
        string_bytes t ≡ codes "notebook refused: " ++ codes "key " ++ key_name (key_of key)) }
{
    match key {
        NotebookKey::Format => String::from_str(alloc, "notebook refused: key nbformat"),
        NotebookKey::Minor => String::from_str(alloc, "notebook refused: key nbformat_minor"),
        NotebookKey::Metadata => String::from_str(alloc, "notebook refused: key metadata"),
        NotebookKey::Cells => String::from_str(alloc, "notebook refused: key cells"),
    }
}
