// States that are loaded anew.
ghost use Rattle.std.specs.Prelude.{◌≡◌, ◌<◌, IfOk, true};
ghost use Rattle.kishu_anew.specs.Anew.{IsSmall, IsWhole};
ghost use Rattle.kishu_loading.specs.Loaded.{LeadsWithin, held};

use crate::cells::State;
use crate::sameness::same_told;
use kishu_anew::load_anew;
use kishu_heap::Heap;
use kishu_interp::run_cell;
use kishu_language::{LONGEST_TEXT, Profile};
use kishu_meaning::Steps;
use kishu_names::Names;
use kishu_picture::picture_len;
use std::alloc::{AllocError, Global};
use std::marker::Brand;
use std::rc::RcStr;
use std::sync::ledger::{Blank, Ledger};
use std::test::Fail;

/// The most nodes with which a cell begins.
const MOST_NODES: u32 = 1 << 31;

/// The most bytes of a state's pictures.
const MOST_BYTES: u64 = 1 << 28;

/// A cell that makes 1,000,000 lists and keeps none.
const MILLION: &str = "for i in range(1000000): []";

/// What cells leave, as it can be loaded anew.
#[derive(Drop)]
struct Left {
    heap: Heap,
    names: Names,
    ghost sound: { LeadsWithin (held heap names) },
    ghost whole: { IsWhole (held heap names) },
}

impl Left {
    /// What no cell left.
    fn new(alloc: Global) -> Left {
        Left {
            heap: Heap::new(alloc),
            names: Names::new(alloc),
        }
    }

    /// What a cell leaves of it. One that is too long isn't run.
    fn after<L: Ledger>(
        self,
        alloc: Global,
        text: &str,
        steps: &mut Steps<L>,
    ) -> Result<Left, AllocError> {
        if text.len() > LONGEST_TEXT || self.heap.len() > MOST_NODES {
            return Ok(self);
        }
        let (mut heap, mut names) = (self.heap, self.names);
        run_cell(alloc, Profile::One, text, &mut heap, &mut names, steps)?;
        Ok(Left { heap, names })
    }

    /// Whether the picture of all names is small enough.
    fn is_small<L: Ledger>(&self, alloc: Global, steps: &mut Steps<L>) -> Result<bool, AllocError>
        ensures { IfOk result
            (λ told. told ≡ true → IsSmall (held self.now.heap self.now.names)) }
    {
        let all = self.names.names()?;
        let len = picture_len(alloc, &self.heap, &self.names, all.as_slice(), steps)?;
        Ok(len <= MOST_BYTES)
    }
}

/// What so many cells leave that make 1,000,000 lists each, and a cell behind them.
fn prepared<L: Ledger>(
    alloc: Global,
    millions: u32,
    text: &str,
    steps: &mut Steps<L>,
) -> Result<Left, AllocError> {
    let mut left = Left::new(alloc);
    for _turn in 0..millions {
        left = left.after(alloc, MILLION, steps)?;
    }
    left.after(alloc, text, steps)
}

/// How many nodes there are before and after what cells leave is loaded anew, which names count as accessed
/// then, and whether another cell leaves the same.
fn anew_told<L: Ledger>(
    alloc: Global,
    millions: u32,
    text: &RcStr,
    other: &RcStr,
    blank: Blank,
) -> Result<String, AllocError>
    requires name { blank.name ≡ L.name }
    requires parts { blank.parts ≡ L.parts }
    requires some { 0 < L.parts }
{
    let mut steps = Steps::<L>::new(blank);
    let left = prepared(alloc, millions, text.as_str(), &mut steps)?;
    if !left.is_small(alloc, &mut steps)? {
        return String::from_str(alloc, "too large");
    }
    let before = left.heap.len();
    let (mut heap, mut names) = (left.heap, left.names);
    load_anew(alloc, &mut heap, &mut names, &mut steps)?;
    let mut all = format!(in alloc; "{before} {} ", heap.len())?;
    for name in names.accessed() {
        all.push_str(name.as_str())?;
        all.push_str(" ")?;
    }
    let state = State { heap, names };
    all.push_str(same_told(alloc, &state, other.as_str(), &mut steps)?.as_str())?;
    Ok(all)
}

fn told(alloc: Global, millions: u32, text: &str, other: &str) -> Result<String, AllocError> {
    let text = RcStr::from_str(alloc, text)?;
    let other = RcStr::from_str(alloc, other)?;
    anew_told::<Brand>(alloc, millions, &text, &other, Blank::new(1))
}

/// How many cells make 1,000,000 lists each, a cell behind them, another that leaves the same, and what is told.
const ANEW: [(u32, &str, &str, &str); 2] = [
    (
        0,
        "a = [1]; b = a; junk = [2]; del junk",
        "b = [1]; a = b",
        "2 2 a b junk same",
    ),
    (
        8,
        "a = []; a.append(a); b = (a, a)",
        "i = 999999; a = []; a.append(a); b = (a, a)",
        "8000002 2 a b i range same",
    ),
];

#[test]
fn loads_anew(rt: HostRuntime) -> Result<(), Fail> {
    let alloc = rt.alloc();
    for (millions, text, other, want) in &ANEW {
        let all = told(alloc, *millions, text, other)?;
        assert!(rt; all.as_str() == *want, "{all}");
    }
    Ok(())
}
