// What a request leads to before it is recorded.
ghost use Rattle.std.specs.Prelude.{◌≡◌, Some, None};
ghost use Rattle.kishu_model.specs.Answers.{refused};
ghost use Rattle.kishu_model.specs.Values.{answer_of, refusal_of};
ghost use Rattle.kishu_record.specs.Entries.{entry_of};
ghost use Rattle.kishu_store.specs.Entries.{plain};
ghost use Rattle.kishu_session.specs.Prepared.{record_in};

use kishu_commit::Record;
use kishu_model::{Answer, Refusal};
use kishu_record::Entry;
use std::alloc::Global;

/// The answer to a request, and the record that makes it last, where it has one.
#[derive(Drop)]
pub(crate) struct Prepared {
    pub(crate) answer: Answer,
    pub(crate) recorded: Option<Record>,
}

impl Prepared {
    /// A request that is refused.
    pub(crate) fn refused(refusal: Refusal) -> Prepared
        ensures answer { answer_of result.answer ≡ Some (refused (refusal_of refusal)) }
        ensures record { result.recorded ≡ None }
    {
        Prepared {
            answer: refusal.answer(),
            recorded: None,
        }
    }

    /// A request that is answered, and recorded by an entry without pictures.
    pub(crate) fn with_entry(alloc: Global, answer: Answer, entry: Entry) -> Prepared
        ensures answer { result.answer ≡ answer }
        ensures record { record_in result.recorded ≡ Some (plain (entry_of entry)) }
    {
        Prepared {
            answer,
            recorded: Some(Record {
                entry,
                pictures: Vec::new(alloc),
            }),
        }
    }

    /// A request that is answered, and changes nothing.
    pub(crate) fn told(answer: Answer) -> Prepared
        ensures answer { result.answer ≡ answer }
        ensures record { result.recorded ≡ None }
    {
        Prepared {
            answer,
            recorded: None,
        }
    }
}
