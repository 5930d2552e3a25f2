// The pictures of the names that cells leave. What is wanted was written by another program, from the
// description of the format.
ghost use Rattle.std.specs.Prelude.{◌≡◌, IfOk, true};
ghost use Rattle.kishu_picture.specs.Held.{held};
ghost use Rattle.kishu_iso.specs.Wholes.{HasShortPicture};

use crate::cells::State;
use crate::questions::{Question, is_told};
use kishu_meaning::{NodeId, Steps};
use kishu_picture::{order, picture, picture_len};
use std::alloc::{AllocError, Global};
use std::rc::RcStr;
use std::sync::ledger::Ledger;
use std::test::Fail;

// The names of a list: a space stands between two.
fn listed(alloc: Global, of: &str) -> Result<Vec<RcStr>, AllocError> {
    let mut names = Vec::new(alloc);
    for name in of.split(' ') {
        names.push(RcStr::from_str(alloc, name)?)?;
    }
    Ok(names)
}

fn numbers(alloc: Global, ids: &[NodeId]) -> Result<String, AllocError> {
    let mut all = String::new(alloc);
    for id in ids {
        all.push_str(format!(in alloc; "{} ", id.0)?.as_str())?;
    }
    Ok(all)
}

pub(crate) fn order_told<L: Ledger>(
    alloc: Global,
    state: &State,
    of: &str,
    steps: &mut Steps<L>,
) -> Result<String, AllocError> {
    let group = listed(alloc, of)?;
    let ids = order(alloc, &state.heap, &state.names, group.as_slice(), steps)?;
    numbers(alloc, ids.as_slice())
}

pub(crate) fn length_told<L: Ledger>(
    alloc: Global,
    state: &State,
    of: &str,
    steps: &mut Steps<L>,
) -> Result<String, AllocError> {
    let group = listed(alloc, of)?;
    let len = picture_len(alloc, &state.heap, &state.names, group.as_slice(), steps)?;
    format!(in alloc; "{len}")
}

// Whether the picture of all names can be made.
pub(crate) fn is_short<L: Ledger>(
    alloc: Global,
    state: &State,
    steps: &mut Steps<L>,
) -> Result<bool, AllocError>
    ensures { IfOk result
        (λ told. told ≡ true → HasShortPicture (held state.now.heap state.now.names)) }
{
    let all = state.names.names()?;
    let group = all.as_slice();
    let len = picture_len(alloc, &state.heap, &state.names, group, steps)?;
    Ok(len < 1 << 32)
}

// The picture of all names, which can be made.
pub(crate) fn whole<L: Ledger>(
    alloc: Global,
    state: &State,
    steps: &mut Steps<L>,
) -> Result<Vec<u8>, AllocError>
    requires short { HasShortPicture (held state.now.heap state.now.names) }
{
    let all = state.names.names()?;
    let group = all.as_slice();
    picture(alloc, &state.heap, &state.names, group, steps)
}

// Two digits for each byte.
fn digits(alloc: Global, bytes: &[u8]) -> Result<String, AllocError> {
    let mut all = String::new(alloc);
    for byte in bytes {
        all.push_str(format!(in alloc; "{byte:02x}")?.as_str())?;
    }
    Ok(all)
}

pub(crate) fn picture_told<L: Ledger>(
    alloc: Global,
    state: &State,
    steps: &mut Steps<L>,
) -> Result<String, AllocError> {
    if is_short(alloc, state, steps)? {
        let bytes = whole(alloc, state, steps)?;
        digits(alloc, bytes.as_slice())
    } else {
        String::from_str(alloc, "too long")
    }
}

/// Cells, and the picture of all names that they leave.
const PICTURES: [(&str, &str); 13] = [
    ("", "0000000000000000"),
    (
        "a = [1]",
        "00000001016108000000000000000101000000010300000000000000000000000000000001",
    ),
    (
        "a = [1]; b = a",
        "0000000201610800000000016208000000000000000101000000010300000000000000000000000000000001",
    ),
    (
        "a = [1]; b = [1]",
        "000000020161080000000001620800000001000000020100000001030000000000000000000000000000000101000000010300000000000000000000000000000001",
    ),
    (
        "a = []; a.append(a)",
        "00000001016108000000000000000101000000010800000000",
    ),
    (
        "b = [1]; a = [b]",
        "000000020161080000000001620800000001000000020100000001080000000101000000010300000000000000000000000000000001",
    ),
    (
        "a = [[[]], []]",
        "0000000101610800000000000000040100000002080000000108000000020100000001080000000301000000000100000000",
    ),
    (
        "a = None; b = False; c = True; d = -2; e = 'é'; f = range(1, 5, 2); g = len; h = ValueError",
        "00000008016100016201016302016403fffffffffffffffffffffffffffffffe01650400000002c3a9016605000000000000000000000000000000010000000000000000000000000000000500000000000000000000000000000002016706060168071800000000",
    ),
    (
        "d = {(1, 'a'): [], 'k': 2, True: None}",
        "000000010164080000000000000002030000000309000000020300000000000000000000000000000001040000000161080000000104000000016b030000000000000000000000000000000202000100000000",
    ),
    (
        "t = (1, 2); d = {t: t, 'k': t}",
        "000000020164080000000001740800000001000000020300000002090000000203000000000000000000000000000000010300000000000000000000000000000002080000000104000000016b0800000001020000000203000000000000000000000000000000010300000000000000000000000000000002",
    ),
    (
        "from types import SimpleNamespace\no = SimpleNamespace(left=1)\no.up = o",
        "000000020f53696d706c654e616d6573706163650705016f0800000000000000010400000002046c65667403000000000000000000000000000000010275700800000000",
    ),
    (
        "def g(x, acc=[], n=2): acc.append(x); return acc\x1ep = g(1)",
        "00000002016708000000000170080000000100000002050100000030646566206728782c206163633d5b5d2c206e3d32293a206163632e617070656e642878293b2072657475726e20616363000000020800000001030000000000000000000000000000000201000000010300000000000000000000000000000001",
    ),
    (
        "try:\n    raise ValueError([], 'x')\nexcept ValueError as e:\n    k = e",
        "00000001016b08000000000000000206180000000208000000010400000001780100000000",
    ),
];

#[test]
fn pictures_of_cells(rt: HostRuntime) -> Result<(), Fail> {
    let alloc = rt.alloc();
    for (texts, want) in &PICTURES {
        assert!(rt;
            is_told(alloc, Question::Picture, texts, "", want)?,
            "at {texts}"
        );
    }
    Ok(())
}

/// Cells, names, and the nodes that these reach in the order of meeting. Nodes have the numbers of
/// their making: what stands in a list is made before it.
const ORDERS: [(&str, &str, &str); 6] = [
    ("b = [1]; a = [b]", "a b", "1 0 "),
    ("b = [1]; a = [b]", "b", "0 "),
    ("a = [[[]], []]", "a", "3 1 2 0 "),
    ("n = 1; s = 'a'", "n s", ""),
    ("d = {(1, 2): [], 'k': ()}", "d", "3 1 2 "),
    ("def f(x=[], y={}): return x", "f", "2 0 1 "),
];

#[test]
fn nodes_in_the_order_of_meeting(rt: HostRuntime) -> Result<(), Fail> {
    let alloc = rt.alloc();
    for (texts, of, want) in &ORDERS {
        assert!(rt;
            is_told(alloc, Question::Order, texts, of, want)?,
            "at {texts}, {of}"
        );
    }
    Ok(())
}

/// Cells, names, and how long the picture of these is.
const LENGTHS: [(&str, &str, &str); 9] = [
    ("b = [1]; a = [b]", "a b", "54"),
    ("b = [1]; a = [b]", "b", "37"),
    ("a = [[[]], []]", "a", "50"),
    ("n = 1; s = 'a'", "n s", "35"),
    ("d = {(1, 2): [], 'k': ()}", "d", "85"),
    ("def f(x=[], y={}): return x", "f", "72"),
    ("s = 'x' * 1000000\x1ea = [s] * 300", "a", "300001520"),
    ("s = 'x' * 1000000\x1ea = [s] * 300", "s", "1000015"),
    (
        "a = None\x1efor i in range(100000): a = [a]",
        "a i",
        "1000030",
    ),
];

#[test]
fn lengths_of_pictures(rt: HostRuntime) -> Result<(), Fail> {
    let alloc = rt.alloc();
    for (texts, of, want) in &LENGTHS {
        assert!(rt;
            is_told(alloc, Question::Length, texts, of, want)?,
            "at {texts}, {of}"
        );
    }
    Ok(())
}
