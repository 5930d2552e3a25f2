// What is asked of the state that cells leave.
ghost use Rattle.std.specs.Prelude.{◌≡◌, ◌<◌};

use crate::cells::after_cells;
use crate::changes::changes_told;
use crate::groups::{groups_told, rest_told};
use crate::loads::loaded_told;
use crate::pictures::{length_told, order_told, picture_told};
use crate::sameness::same_told;
use kishu_meaning::Steps;
use std::alloc::{AllocError, Global};
use std::marker::Brand;
use std::rc::RcStr;
use std::sync::ledger::{Blank, Ledger};

#[derive(Clone, Copy)]
pub(crate) enum Question {
    /// The groups of all names.
    Groups,
    /// The groups of all names but the first.
    GroupsOfTheRest,
    /// The nodes that some names reach, in the order of meeting.
    Order,
    /// How long the picture of some names is.
    Length,
    /// The picture of all names.
    Picture,
    /// Whether other cells leave the same.
    Same,
    /// Whether other cells leave the same as what is loaded from the picture of all names.
    Loaded,
    /// What other cells change.
    Changes,
    /// What other cells change, where digests are kept anew before each.
    ChangesOnceOpened,
}

fn answer<L: Ledger>(
    alloc: Global,
    question: Question,
    texts: &RcStr,
    of: &RcStr,
    blank: Blank,
) -> Result<String, AllocError>
    requires name { blank.name ≡ L.name }
    requires parts { blank.parts ≡ L.parts }
    requires some { 0 < L.parts }
{
    let mut steps = Steps::<L>::new(blank);
    let state = after_cells(alloc, texts.as_str(), &mut steps)?;
    match question {
        Question::Groups => groups_told(alloc, &state, &mut steps),
        Question::GroupsOfTheRest => rest_told(alloc, &state, &mut steps),
        Question::Order => order_told(alloc, &state, of.as_str(), &mut steps),
        Question::Length => length_told(alloc, &state, of.as_str(), &mut steps),
        Question::Picture => picture_told(alloc, &state, &mut steps),
        Question::Same => same_told(alloc, &state, of.as_str(), &mut steps),
        Question::Loaded => loaded_told(alloc, &state, of.as_str(), &mut steps),
        Question::Changes => changes_told(alloc, state, of.as_str(), false, &mut steps),
        Question::ChangesOnceOpened => changes_told(alloc, state, of.as_str(), true, &mut steps),
    }
}

fn told(alloc: Global, question: Question, texts: &str, of: &str) -> Result<String, AllocError> {
    let texts = RcStr::from_str(alloc, texts)?;
    let of = RcStr::from_str(alloc, of)?;
    answer::<Brand>(alloc, question, &texts, &of, Blank::new(1))
}

/// Whether a question about the state that cells leave is answered so. `of` has the names that it is
/// about, or the other cells.
pub(crate) fn is_told(
    alloc: Global,
    question: Question,
    texts: &str,
    of: &str,
    want: &str,
) -> Result<bool, AllocError> {
    Ok(told(alloc, question, texts, of)?.as_str() == want)
}
