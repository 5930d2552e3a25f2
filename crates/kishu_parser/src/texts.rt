// A set of names.
ghost use Rattle.std.specs.Prelude.{◌≡◌, [], not, IfOk, OnOk, length, ◌==◌};
ghost use Rattle.std.specs.Rc.{rc_str_bytes};
ghost use Rattle.kishu_language.specs.tokens.Names.{is_among};
ghost use Rattle.kishu_parser.specs.Sets.{names_in, with_name};

use indexmap::IndexSet;
use std::alloc::{AllocError, Global};
use std::rc::RcStr;

/// Names, each once.
#[derive(Drop)]
pub(crate) struct Texts {
    names: IndexSet<RcStr>,
}

impl Texts {
    pub(crate) fn new(alloc: Global) -> Texts
        ensures { names_in result ≡ [] }
    {
        Texts {
            names: IndexSet::new(alloc),
        }
    }

    pub(crate) fn is_empty(&self) -> bool
        ensures { result ≡ (length (names_in self.now) == 0) }
    {
        self.names.is_empty()
    }

    pub(crate) fn contains(&self, name: &RcStr) -> bool
        ensures { result ≡ is_among (rc_str_bytes name.now) (names_in self.now) }
    {
        self.names.contains(name)
    }

    /// Whether the name is new; it is held from now on.
    pub(crate) fn insert(&mut self, name: &RcStr) -> Result<bool, AllocError>
        ensures new { IfOk result (λ b. b ≡ not (is_among (rc_str_bytes name.now) (names_in self.old))) }
        ensures names { OnOk result (names_in self.new ≡ with_name (names_in self.old) (rc_str_bytes name.now)) }
    {
        let name = name.clone()?;
        Ok(self.names.insert(name)?)
    }
}
