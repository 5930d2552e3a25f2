// The groups of the names that cells leave.
ghost use Rattle.std.specs.Prelude.{map};
ghost use Rattle.std.specs.Rc.{rc_str_bytes};
ghost use Rattle.kishu_objects.specs.Lists.{Rise};

use crate::cells::State;
use crate::questions::{Question, is_told};
use kishu_groups::groups;
use kishu_meaning::Steps;
use std::alloc::{AllocError, Global};
use std::rc::RcStr;
use std::sync::ledger::Ledger;
use std::test::Fail;

// The names of each group, with `|` behind each.
fn written(alloc: Global, groups: &Vec<Vec<RcStr>>) -> Result<String, AllocError> {
    let mut all = String::new(alloc);
    for group in groups {
        for name in group {
            all.push_str(name.as_str())?;
            all.push_str(" ")?;
        }
        all.push_str("| ")?;
    }
    Ok(all)
}

// All names but the first.
fn rest(of: &[RcStr]) -> &[RcStr]
    requires { Rise (map rc_str_bytes of.now) }
    ensures { Rise (map rc_str_bytes result.now) }
{
    if of.is_empty() { of } else { &of[1..] }
}

pub(crate) fn groups_told<L: Ledger>(
    alloc: Global,
    state: &State,
    steps: &mut Steps<L>,
) -> Result<String, AllocError> {
    let all = state.names.names()?;
    let groups = groups(alloc, &state.heap, &state.names, all.as_slice(), steps)?;
    written(alloc, &groups)
}

pub(crate) fn rest_told<L: Ledger>(
    alloc: Global,
    state: &State,
    steps: &mut Steps<L>,
) -> Result<String, AllocError> {
    let all = state.names.names()?;
    let groups = groups(
        alloc,
        &state.heap,
        &state.names,
        rest(all.as_slice()),
        steps,
    )?;
    written(alloc, &groups)
}

/// Cells, and the groups of the names that they leave.
const GROUPS: [(&str, &str); 14] = [
    ("", ""),
    ("a = 1; b = 1; c = 'x'; d = 'x'", "a | b | c | d | "),
    ("a = [1]; b = a", "a b | "),
    ("a = [1]; b = [1]", "a | b | "),
    ("x = [1]; y = [x]; z = [2]", "x y | z | "),
    ("x = [1]; y = [x]; z = [2]\x1ey = 0", "x | y | z | "),
    ("a = []; b = []; c = [a, b]", "a b c | "),
    ("p = []; q = [p]; r = [q, []]; s = [r[1]]", "p q r s | "),
    ("d = []; c = [d]; b = []; a = [b, d]", "a b c d | "),
    ("a = []; a.append(a); b = (a,)", "a b | "),
    (
        "l = []; d = {1: l}; t = (1, 'a'); k = {(1, 'a'): 2}",
        "d l | k | t | ",
    ),
    (
        "from types import SimpleNamespace\nl = []\no = SimpleNamespace(left=l)\nm = []\no.right = m",
        "SimpleNamespace | l m o | ",
    ),
    (
        "def g(x, acc=[]): acc.append(x); return acc\x1ep = g(1)\x1eq = p[0]",
        "g p | q | ",
    ),
    (
        "l = []\ntry:\n    raise ValueError(l)\nexcept ValueError as e:\n    k = e",
        "k l | ",
    ),
];

#[test]
fn groups_of_cells(rt: HostRuntime) -> Result<(), Fail> {
    let alloc = rt.alloc();
    for (texts, want) in &GROUPS {
        assert!(rt;
            is_told(alloc, Question::Groups, texts, "", want)?,
            "at {texts}"
        );
    }
    Ok(())
}

/// Cells, and the groups of the names that they leave without the first name.
const GROUPS_OF_THE_REST: [(&str, &str); 3] = [
    ("a = 1", ""),
    ("a = [[], []]; b = a[0]; c = a[1]", "b | c | "),
    ("a = []; b = [a]; c = (a,); d = 'a'", "b c | d | "),
];

#[test]
fn groups_of_some_names(rt: HostRuntime) -> Result<(), Fail> {
    let alloc = rt.alloc();
    for (texts, want) in &GROUPS_OF_THE_REST {
        assert!(rt;
            is_told(alloc, Question::GroupsOfTheRest, texts, "", want)?,
            "at {texts}"
        );
    }
    Ok(())
}

// A long chain of nodes takes no more stack than a short one.
#[test]
fn groups_of_a_chain(rt: HostRuntime) -> Result<(), Fail> {
    let alloc = rt.alloc();
    let texts = "a = []\x1efor i in range(100000): a = [a]\x1eb = a";
    assert!(rt; is_told(alloc, Question::Groups, texts, "", "a b | i | ")?);
    Ok(())
}
