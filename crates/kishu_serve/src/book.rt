// A notebook that a run was handed.
ghost use Rattle.std.specs.Prelude.{map};
ghost use Rattle.std.specs.Rc.{rc_str_bytes};
ghost use Rattle.kishu_model.specs.Request.{cells};
ghost use Rattle.kishu_model.specs.requests.Cells.{HasRoom};

use crate::work::Unread;
use kishu_notebook::{Notebook, NotebookFault};
use std::alloc::Global;
use std::rc::RcStr;

/// A notebook whose code cells are run.
#[derive(Drop)]
pub(crate) struct Book {
    pub(crate) notebook: Notebook,
    /// The texts of its code cells, in order.
    pub(crate) texts: Vec<RcStr>,
    /// Whether they are committed in one commit.
    pub(crate) together: bool,
    ghost room: { HasRoom (cells (map rc_str_bytes texts.items)) },
}

impl Book {
    ghost use Rattle.std.specs.Prelude.{◌≡◌, ◌<◌, length, IfOk, IsErrOf, Err};
    ghost use Rattle.kishu_model.specs.Task.{notebook_limit};
    ghost use Rattle.kishu_model.specs.notebooks.Notebook.{opening};
    ghost use Rattle.kishu_notebook.specs.Values.{fault_of};
    ghost use Rattle.kishu_notebook.specs.declared.refusal.NotebookRefusal.{NotebookRefusal};
    ghost use Rattle.kishu_serve.specs.Notebooks.{IsReadAs};
    ghost use Rattle.kishu_serve.specs.declared.work.Unread.TheVariants.{Fault, TooLong, Refused};

    /// The notebook that an input is.
    ///
    /// - `Refused`: it is none.
    /// - `NoMemory`: there was no memory.
    pub(crate) fn read(alloc: Global, input: &[u8], together: bool) -> Result<Book, Unread>
        requires { length input.now < notebook_limit }
        ensures as_asked { IfOk result (λ book. book.together ≡ together) }
        ensures read_as { IfOk result (λ book. IsReadAs (opening input.now) book) }
        ensures refused { (why : NotebookRefusal) → IsErrOf result (Refused why)
            → opening input.now ≡ Err (fault_of why) }
        ensures cause { (IsErrOf result Fault → ⊥) × (IsErrOf result TooLong → ⊥) }
    {
        let notebook = match Notebook::read(alloc, input) {
            Ok(notebook) => notebook,
            Err(NotebookFault::Refused(why)) => return Err(Unread::Refused(why)),
            Err(NotebookFault::NoMemory) => return Err(Unread::NoMemory),
        };
        match notebook.sources() {
            Ok(texts) => Ok(Book {
                notebook,
                texts,
                together,
            }),
            Err(_) => Err(Unread::NoMemory),
        }
    }
}
