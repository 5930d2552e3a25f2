// Whether cells leave the same state.
use crate::cells::{State, after_cells};
use crate::pictures::is_short;
use crate::questions::{Question, is_told};
use kishu_iso::same;
use kishu_meaning::Steps;
use std::alloc::{AllocError, Global};
use std::sync::ledger::Ledger;
use std::test::Fail;

fn are_same<L: Ledger>(
    alloc: Global,
    one: &State,
    other: &State,
    steps: &mut Steps<L>,
) -> Result<bool, AllocError> {
    if is_short(alloc, one, steps)? && is_short(alloc, other, steps)? {
        same(
            alloc,
            &one.heap,
            &one.names,
            &other.heap,
            &other.names,
            steps,
        )
    } else {
        Err(AllocError)
    }
}

pub(crate) fn same_told<L: Ledger>(
    alloc: Global,
    one: &State,
    others: &str,
    steps: &mut Steps<L>,
) -> Result<String, AllocError> {
    let other = after_cells(alloc, others, steps)?;
    let told = are_same(alloc, one, &other, steps)?;
    String::from_str(alloc, if told { "same" } else { "another" })
}

// Whether both of two questions, whether some cells leave the same as others and these the same as the
// first, are answered so.
fn are_told(alloc: Global, texts: &str, others: &str, want: &str) -> Result<bool, AllocError> {
    Ok(
        is_told(alloc, Question::Same, texts, others, want)?
            && is_told(alloc, Question::Same, others, texts, want)?,
    )
}

/// Cells, and others that leave the same.
const SAME: [(&str, &str); 14] = [
    ("", ""),
    ("a = 1; b = 2", "b = 2; a = 1"),
    ("a = 1; b = 0\x1edel b", "a = 1"),
    ("a = 'x' * 2", "a = 'xx'"),
    ("r = range(3)", "r = range(0, 3, 1)"),
    ("junk = [9]; a = [1]\x1edel junk", "a = [1]"),
    ("a = [1]; b = a", "b = [1]; a = b"),
    ("a = [1, 2]; a[0] = 3", "a = [3]; a.append(2)"),
    (
        "x = []; a = [x, x]; x = 0",
        "a = [[], 0]; a[1] = a[0]; x = 0",
    ),
    ("a = []; a.append(a)", "a = [0]; b = a; a[0] = b; del b"),
    (
        "a = []; b = [a]; a.append(b)",
        "b = []; a = [b]; b.append(a)",
    ),
    (
        "d = {1: 'a', 2: 'b'}; del d[1]; d[1] = 'c'",
        "d = {2: 'b', 1: 'c'}",
    ),
    (
        "def f(acc=[]): return acc\nk = f()",
        "def f(acc=[]): return acc\x1ek = f()",
    ),
    (
        "try:\n    raise ValueError(1)\nexcept ValueError as e:\n    k = e",
        "k = ValueError(1)",
    ),
];

#[test]
fn cells_that_leave_the_same(rt: HostRuntime) -> Result<(), Fail> {
    let alloc = rt.alloc();
    for (texts, others) in &SAME {
        assert!(rt;
            are_told(alloc, texts, others, "same")?,
            "{texts}\n{others}"
        );
    }
    Ok(())
}

/// Cells, and others that leave another state.
const ANOTHER: [(&str, &str); 24] = [
    ("a = 1", ""),
    ("a = 1", "b = 1"),
    ("a = 1; b = 1", "a = 1"),
    ("a = 1", "a = 2"),
    ("a = 1", "a = True"),
    ("a = 0", "a = None"),
    ("a = '1'", "a = 1"),
    ("r = range(0)", "r = range(1, 1)"),
    ("b = print", "b = len"),
    ("b = print", "b = str"),
    ("a = [1]", "a = (1,)"),
    ("a = [1, 2]", "a = [2, 1]"),
    ("a = [1, 2]", "a = [1, 2, 3]"),
    ("a = [1]; b = a", "a = [1]; b = [1]"),
    ("a = [1]; b = [2]", "a = [2]; b = [1]"),
    ("x = []; a = [x, x]; x = 0", "a = [[], []]; x = 0"),
    ("a = []; a.append(a)", "a = [[]]; a[0].append(a)"),
    ("d = {1: 'a', 2: 'b'}", "d = {2: 'b', 1: 'a'}"),
    ("d = {1: 'a'}", "d = {True: 'a'}"),
    ("d = {(1, 'a'): 2}", "d = {(1, 'b'): 2}"),
    (
        "def f(acc=[]): return acc\nk = f()",
        "def f(acc=[]): return acc\nk = []",
    ),
    ("def f(): return 1", "def f(): return 2"),
    ("k = ValueError(1)", "k = KeyError(1)"),
    (
        "from types import SimpleNamespace\no = SimpleNamespace(p=1, q=2)",
        "from types import SimpleNamespace\no = SimpleNamespace(q=2, p=1)",
    ),
];

#[test]
fn cells_that_leave_another_state(rt: HostRuntime) -> Result<(), Fail> {
    let alloc = rt.alloc();
    for (texts, others) in &ANOTHER {
        assert!(rt;
            are_told(alloc, texts, others, "another")?,
            "{texts}\n{others}"
        );
    }
    Ok(())
}
