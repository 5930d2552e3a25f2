// The state that cells leave, or that is loaded.
ghost use Rattle.std.specs.Prelude.{◌≡◌, ◌+◌, ◌<◌, ◌^◌, true, IsTrue, IfOk, length};
ghost use Rattle.kishu_meaning.specs.values.Sound.{are_sound_names};
ghost use Rattle.kishu_picture.specs.Held.{held};
ghost use Rattle.kishu_iso.specs.Wholes.{HasShortPicture};

use kishu_heap::Heap;
use kishu_interp::run_cell;
use kishu_language::{LONGEST_TEXT, Profile};
use kishu_loading::{LoadFault, load};
use kishu_meaning::Steps;
use kishu_names::Names;
use kishu_picture::{picture, picture_len};
use std::alloc::{AllocError, Global};
use std::sync::ledger::Ledger;

/// The most nodes with which a cell begins.
const MOST_NODES: u32 = 1 << 31;

/// Nodes and names.
#[derive(Drop)]
pub(crate) struct State {
    pub(crate) heap: Heap,
    pub(crate) names: Names,
    ghost sound: { IsTrue (are_sound_names (length heap) names.bound) },
}

impl State {
    pub(crate) fn new(alloc: Global) -> State {
        State {
            heap: Heap::new(alloc),
            names: Names::new(alloc),
        }
    }

    /// The state that a picture's bytes hold.
    pub(crate) fn loaded(alloc: Global, bytes: &[u8]) -> Result<State, LoadFault>
        requires { length bytes.now + 1 < 2 ^ 32 }
    {
        let mut heap = Heap::new(alloc);
        let mut names = Names::new(alloc);
        load(alloc, bytes, &mut heap, &mut names)?;
        Ok(State { heap, names })
    }

    /// Runs cells in turn. An empty line stands between them.
    pub(crate) fn run_all<L: Ledger>(
        &mut self,
        alloc: Global,
        cells: &str,
        steps: &mut Steps<L>,
    ) -> Result<(), AllocError> {
        for cell in cells.split("\n\n") {
            self.run(alloc, cell, steps)?;
        }
        Ok(())
    }

    /// Runs a cell. One that is too long isn't run, and none is with too many nodes.
    fn run<L: Ledger>(
        &mut self,
        alloc: Global,
        cell: &str,
        steps: &mut Steps<L>,
    ) -> Result<(), AllocError> {
        if cell.len() > LONGEST_TEXT || self.heap.len() > MOST_NODES {
            return Ok(());
        }
        run_cell(
            alloc,
            Profile::One,
            cell,
            &mut self.heap,
            &mut self.names,
            steps,
        )?;
        Ok(())
    }

    /// Whether the picture of all names has fewer than 2^32 bytes.
    pub(crate) fn is_short<L: Ledger>(
        &self,
        alloc: Global,
        steps: &mut Steps<L>,
    ) -> Result<bool, AllocError>
        ensures { IfOk result (λ told. told ≡ true → HasShortPicture (held self.now.heap self.now.names)) }
    {
        let all = self.names.names()?;
        let len = picture_len(alloc, &self.heap, &self.names, all.as_slice(), steps)?;
        Ok(len < 1 << 32)
    }

    /// The picture of all names.
    pub(crate) fn picture<L: Ledger>(
        &self,
        alloc: Global,
        steps: &mut Steps<L>,
    ) -> Result<Vec<u8>, AllocError>
        requires { HasShortPicture (held self.now.heap self.now.names) }
    {
        let all = self.names.names()?;
        let group = all.as_slice();
        picture(alloc, &self.heap, &self.names, group, steps)
    }
}
