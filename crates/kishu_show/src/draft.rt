// A text in the making, and the steps that it takes.
ghost use Rattle.std.specs.Prelude.{◌≡◌, ◌+◌, ◌≤◌, IsTrue, OnOk, length, nat_lt};
ghost use Rattle.std.specs.List.{list_all};
ghost use Rattle.std.specs.Str.{chars};
ghost use Rattle.kishu_meaning.specs.moments.Counting.{spend};
ghost use Rattle.kishu_meaning.specs.comparing.Show.{made};
ghost use Rattle.kishu_heap.specs.Costs.{TakesAt};
ghost use Rattle.kishu_show.specs.Shown.{Gives, Makes, onto};

use crate::fault::ShowFault;
use crate::pushes::{empty, push_text};
use kishu_heap::{CompareFault, take_steps};
use kishu_meaning::Steps;
use kishu_text::count;
use std::alloc::Global;
use std::sync::ledger::Ledger;

/// A text in the making.
#[derive(Drop)]
pub(crate) struct Draft {
    pub(crate) alloc: Global,
    pub(crate) text: String,
    /// The steps that may still be taken.
    pub(crate) left: u64,
}

impl Draft {
    ghost use Rattle.std.specs.Prelude.{◌≡◌, []};
    ghost use Rattle.kishu_show.specs.Shown.{text_of};

    /// No text yet.
    pub(crate) fn new(alloc: Global, left: u64) -> Draft
        ensures text { text_of result ≡ [] }
        ensures left { result.left ≡ left }
    {
        Draft {
            alloc,
            text: empty(alloc),
            left,
        }
    }
}

/// Takes so many steps.
pub(crate) fn spend<L: Ledger>(
    count: usize,
    left: &mut u64,
    steps: &mut Steps<L>,
) -> Result<(), ShowFault>
    ensures gives { Gives (λ u. u) result left.new (spend count left.old) }
    ensures takes { TakesAt 1 0 left.old steps.old left.new steps.new }
    ensures taken { OnOk result (left.new + count ≤ left.old) }
{
    match take_steps(count, left, steps) {
        Ok(()) => Ok(()),
        Err(CompareFault::Spent) => Err(ShowFault::Spent),
        Err(CompareFault::Depth) => Err(ShowFault::Depth),
        Err(CompareFault::Unordered) => unreachable!(),
    }
}

/// Puts a text behind what is there. It takes its code points in steps.
pub(crate) fn push_made<L: Ledger>(
    text: &str,
    draft: &mut Draft,
    steps: &mut Steps<L>,
) -> Result<(), ShowFault>
    ensures gives { Makes result draft.new (onto draft.old (made (chars text.now))) }
    ensures takes { TakesAt 1 0 draft.old.left steps.old draft.new.left steps.new }
    ensures taken { OnOk result (draft.new.left + length (chars text.now) ≤ draft.old.left) }
{
    spend(count(text), &mut draft.left, steps)?;
    push_text(&mut draft.text, text)?;
    Ok(())
}

/// Puts a text of ASCII characters behind what is there. It takes them in steps.
pub(crate) fn push_mark<L: Ledger>(
    mark: &str,
    draft: &mut Draft,
    steps: &mut Steps<L>,
) -> Result<(), ShowFault>
    requires { IsTrue (list_all (λ c. nat_lt c 128) mark.now) }
    ensures gives { Makes result draft.new (onto draft.old (made mark.now)) }
    ensures takes { TakesAt 1 0 draft.old.left steps.old draft.new.left steps.new }
    ensures taken { OnOk result (draft.new.left + length mark.now ≤ draft.old.left) }
{
    push_made(mark, draft, steps)
}
