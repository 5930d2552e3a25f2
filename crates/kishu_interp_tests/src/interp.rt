// Cells as texts, with what they give.
ghost use Rattle.std.specs.Prelude.{IsTrue, length, ◌≡◌, ◌<◌};
ghost use Rattle.kishu_meaning.specs.values.Sound.{are_sound_names};

mod cells;

use kishu_heap::Heap;
use kishu_interp::run_cell;
use kishu_language::{LONGEST_TEXT, Profile};
use kishu_meaning::{CellResult, Outcome, Output, Steps};
use kishu_names::Names;
use std::alloc::{AllocError, Global};
use std::marker::Brand;
use std::rc::RcStr;
use std::sync::ledger::{Blank, Ledger};
use std::test::Fail;

fn push_output(told: &mut String, output: &Output) -> Result<(), AllocError> {
    match output {
        Output::Stream { text } => {
            told.push_str(" <")?;
            told.push_str(text.as_str())?;
            told.push_str(">")
        }
        Output::Shown { text } => {
            told.push_str(" ")?;
            told.push_str(text.as_str())
        }
        Output::Fault { ename, evalue } => {
            told.push_str(" ")?;
            told.push_str(ename.as_str())?;
            told.push_str(": ")?;
            told.push_str(evalue.as_str())
        }
    }
}

// The outcome and the outputs: what was printed stands in `<` and `>`.
fn told(alloc: Global, ran: &CellResult) -> Result<String, AllocError> {
    let outcome = match ran.outcome {
        Outcome::Done => "ok",
        Outcome::Raised => "error",
        Outcome::Stopped => "stopped",
    };
    let mut told = String::from_str(alloc, outcome)?;
    for output in &ran.outputs {
        push_output(&mut told, output)?;
    }
    Ok(told)
}

// Runs a cell on what the cells before left.
fn next<L: Ledger>(
    alloc: Global,
    text: &str,
    heap: &mut Heap,
    names: &mut Names,
    steps: &mut Steps<L>,
) -> Result<String, AllocError>
    requires sound { IsTrue (are_sound_names (length heap.old) names.old.bound) }
    ensures sound { IsTrue (are_sound_names (length heap.new) names.new.bound) }
{
    if text.len() > LONGEST_TEXT || heap.len() > 2_147_483_648 {
        return String::from_str(alloc, "too long");
    }
    let ran = run_cell(alloc, Profile::One, text, heap, names, steps)?;
    told(alloc, &ran)
}

// Runs cells on one state, which is empty at first: `\x1e` stands between them, and behind what each gives.
fn answers<L: Ledger>(alloc: Global, texts: &RcStr, blank: Blank) -> Result<String, AllocError>
    requires name { blank.name ≡ L.name }
    requires parts { blank.parts ≡ L.parts }
    requires some { 0 < L.parts }
{
    let mut steps = Steps::<L>::new(blank);
    let mut heap = Heap::new(alloc);
    let mut names = Names::new(alloc);
    let mut all = String::new(alloc);
    for text in texts.as_str().split('\x1e') {
        let given = next(alloc, text, &mut heap, &mut names, &mut steps)?;
        all.push_str(given.as_str())?;
        all.push('\x1e')?;
    }
    Ok(all)
}

// What cells give that are run in turn on a state of their own.
fn given(alloc: Global, texts: &str) -> Result<String, AllocError> {
    let texts = RcStr::from_str(alloc, texts)?;
    answers::<Brand>(alloc, &texts, Blank::new(1))
}

// Whether cells give this.
fn give(alloc: Global, texts: &str, want: &str) -> Result<bool, AllocError> {
    Ok(given(alloc, texts)?.as_str() == want)
}

/// Cells that are run in turn, and what they give.
const FIRST: [(&str, &str); 6] = [
    ("", "ok\x1e"),
    ("print(1 + 2)", "ok <3\n>\x1e"),
    (
        "a = [1]; b = a\x1eb.append(2)\x1ea",
        "ok\x1eok\x1eok [1, 2]\x1e",
    ),
    (
        "def g(x, acc=[]): acc.append(x); return acc\x1ep = g(1)\x1eprint(g(2) is p, p)",
        "ok\x1eok\x1eok <True [1, 2]\n>\x1e",
    ),
    (
        "n = 1; m = 1 // 0; n = 2\x1en\x1em",
        "error ZeroDivisionError: division by zero\x1eok 1\x1eerror NameError: name 'm' is not defined\x1e",
    ),
    (
        "n = 5\x1en = n n\x1en",
        "ok\x1eerror SyntaxError: invalid syntax, line 1\x1eok 5\x1e",
    ),
];

#[test]
fn first_cells(rt: HostRuntime) -> Result<(), Fail> {
    let alloc = rt.alloc();
    for (texts, want) in &FIRST {
        assert!(rt; give(alloc, texts, want)?, "at {texts}");
    }
    Ok(())
}

// Each search takes 3,998,000 steps, and eight are taken besides it and the repetition. A turn takes
// one step and then 10,010, of which six lead to the new n.
#[test]
fn names_outlive_spent_steps(rt: HostRuntime) -> Result<(), Fail> {
    let texts =
        "s = 'a' * 2000; p = 'a' * 1999\x1er = p in s and 'b' * 1992\x1et = p in s and 'b' * 1993\x1et\x1en = 0; t = 'a' * 100\x1ewhile True: n += 1; t in t\x1en";
    let want =
        "ok\x1eok\x1estopped Stopped: step budget spent\x1eerror NameError: name 't' is not defined\x1eok\x1estopped Stopped: step budget spent\x1eok 400\x1e";
    assert!(rt; give(rt.alloc(), texts, want)?);
    Ok(())
}

// Whether a row's cell spends its steps.
fn is_spent(row: &str) -> bool {
    row.starts_with("stopped")
}

// Whether a row's cell gives what the row says.
fn holds(alloc: Global, row: &str) -> Result<bool, AllocError> {
    let (want, text) = row.split_once('\x1f').unwrap_or((row, ""));
    let given = given(alloc, text)?;
    Ok(given.as_str().strip_suffix('\x1e') == Some(want))
}

#[test]
fn cells_give_what_they_mean(rt: HostRuntime) -> Result<(), Fail> {
    let alloc = rt.alloc();
    let mut count: usize = 0;
    for row in cells::ROWS.split('\x1e') {
        if !row.is_empty() {
            assert!(rt; is_spent(row) || holds(alloc, row)?, "at {row}");
            count = count.wrapping_add(1);
        }
    }
    assert!(rt; count == cells::COUNT);
    Ok(())
}

// These take 4,000,000 steps each: a few seconds in all as a test is built, and many minutes under `rt try`.
#[test]
fn cells_that_spend_their_steps(rt: HostRuntime) -> Result<(), Fail> {
    let alloc = rt.alloc();
    let mut count: usize = 0;
    for row in cells::ROWS.split('\x1e') {
        if is_spent(row) {
            assert!(rt; holds(alloc, row)?, "at {row}");
            count = count.wrapping_add(1);
        }
    }
    assert!(rt; count == cells::SPENT);
    Ok(())
}
