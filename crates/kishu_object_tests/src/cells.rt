// Cells that are run in turn, and the state that they leave.
ghost use Rattle.std.specs.Prelude.{IsTrue, length};
ghost use Rattle.kishu_meaning.specs.values.Sound.{are_sound_names};

use kishu_heap::Heap;
use kishu_interp::run_cell;
use kishu_language::{LONGEST_TEXT, Profile};
use kishu_meaning::Steps;
use kishu_names::Names;
use std::alloc::{AllocError, Global};
use std::sync::ledger::Ledger;

/// The most nodes with which a cell begins.
const MOST_NODES: u32 = 1 << 31;

/// What cells leave.
#[derive(Drop)]
pub(crate) struct State {
    pub(crate) heap: Heap,
    pub(crate) names: Names,
    ghost sound: { IsTrue (are_sound_names (length heap) names.bound) },
}

impl State {
    /// What no cell left.
    pub(crate) fn new(alloc: Global) -> State {
        State {
            heap: Heap::new(alloc),
            names: Names::new(alloc),
        }
    }

    /// Runs a cell on what the cells before left. One that is too long isn't run.
    pub(crate) fn run<L: Ledger>(
        &mut self,
        alloc: Global,
        text: &str,
        steps: &mut Steps<L>,
    ) -> Result<(), AllocError> {
        if text.len() > LONGEST_TEXT || self.heap.len() > MOST_NODES {
            return Ok(());
        }
        let (heap, names) = (&mut self.heap, &mut self.names);
        run_cell(alloc, Profile::One, text, heap, names, steps)?;
        Ok(())
    }
}

/// What cells leave that run in turn, the first on an empty state: `\x1e` stands between them.
pub(crate) fn after_cells<L: Ledger>(
    alloc: Global,
    texts: &str,
    steps: &mut Steps<L>,
) -> Result<State, AllocError> {
    let mut state = State::new(alloc);
    for text in texts.split('\x1e') {
        state.run(alloc, text, steps)?;
    }
    Ok(state)
}
