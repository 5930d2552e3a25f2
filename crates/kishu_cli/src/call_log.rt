//! A log of calls that only clauses read.
ghost use Rattle.std.specs.Prelude.{◌≡◌, [], ◌∷◌};
ghost use Rattle.std.specs.Borrow.{ftrue};
ghost use Rattle.kishu_cli.specs.Calls.{History};

use crate::call::Call;
use std::marker::Model;

/// The calls that were noted, the last first, each with its bytes. It takes no memory.
///
/// Nothing ties a note to what was done: whoever notes a call is to be read. `new` and `with` are proved by hand, since no
/// memory holds the calls; no other function may be.
#[derive(Drop)]
pub struct CallLog {
    pub ghost calls: { History },
}

impl Model for CallLog {
    ghost also_owns = { λ _. ftrue };
}

impl CallLog {
    /// No call.
    pub fn new() -> CallLog
        ensures { result.calls ≡ [] }
    {
        CallLog {}
    }

    /// Notes a call.
    pub fn note(&mut self, call: Call, bytes: &[u8])
        ensures { self.new.calls ≡ (call, bytes.now) ∷ self.old.calls }
    {
        *self = self.with(&call, bytes);
    }

    /// The log with one call more.
    fn with(&self, _call: &Call, _bytes: &[u8]) -> CallLog
        ensures { result.calls ≡ (_call.now, _bytes.now) ∷ self.now.calls }
    {
        CallLog {}
    }
}
