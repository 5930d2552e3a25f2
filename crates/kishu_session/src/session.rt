// A session.
ghost use Rattle.std.specs.Prelude.{◌≡◌, false};
ghost use Rattle.kishu_anew.specs.Anew.{IsWhole};
ghost use Rattle.kishu_session.specs.Head.{IsKnown};
ghost use Rattle.kishu_session.specs.Lives.{state_of};

use crate::head::Head;
use kishu_graph::Graph;
use kishu_heap::Heap;
use kishu_journal::Journal;
use kishu_names::Names;
use std::alloc::Global;

/// A store that is open, and the state at its head.
#[derive(Drop)]
pub struct Session {
    pub(crate) alloc: Global,
    pub(crate) journal: Journal,
    pub(crate) head: Head,
    pub(crate) halted: bool,
    ghost going: { halted ≡ false → journal.closed ≡ false },
    ghost known: { halted ≡ false → IsKnown head journal.place },
    ghost whole: { halted ≡ false → IsWhole (state_of head.live) },
}

impl Session {
    /// The nodes of the live state.
    pub fn heap(&self) -> &Heap
        ensures { result.now ≡ self.now.head.live.heap }
    {
        &self.head.live.heap
    }

    /// The names of the live state.
    pub fn names(&self) -> &Names
        ensures { result.now ≡ self.now.head.live.names }
    {
        &self.head.live.names
    }

    /// The graph that the session keeps.
    pub fn graph(&self) -> &Graph
        ensures { result.now ≡ self.now.head.graph }
    {
        &self.head.graph
    }
}
