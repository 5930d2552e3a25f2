// Pictures that are loaded, and bytes that are none with the place of their fault.
use crate::cells::State;
use crate::pictures::{is_short, whole};
use crate::questions::{Question, is_told};
use crate::sameness::same_told;
use kishu_heap::Heap;
use kishu_loading::{LoadFault, load};
use kishu_meaning::{Steps, Value};
use kishu_names::Names;
use std::alloc::{AllocError, Global};
use std::sync::ledger::Ledger;
use std::test::Fail;

/// A table's row: the rule, bytes, and where their fault is told.
type Row = (&'static str, &'static [u8], u64);

// After `a = [1]` the picture of `a` has 37 bytes: the number of names, the name behind its length, node 0,
// the number of nodes, a list of one value, and the whole number 1.
const PICTURE: &[u8] =
    b"\0\0\0\x01\x01a\x08\0\0\0\0\0\0\0\x01\x01\0\0\0\x01\x03\0\0\0\0\0\0\0\0\0\0\0\0\0\0\0\x01";

/// What is at fault, field by field.
const FAULTS: [Row; 39] = [
    ("nothing", b"", 0),
    ("half the number of names", b"\0\0\0", 0),
    ("a name without a length", b"\0\0\0\x01", 4),
    ("an empty name", b"\0\0\0\x01\0\0\0\0\0\0", 4),
    ("half a name", b"\0\0\0\x01\x02a", 5),
    (
        "a name that is no identifier",
        b"\0\0\0\x01\x011\0\0\0\0\0",
        5,
    ),
    ("a reserved name", b"\0\0\0\x01\x02if\0\0\0\0\0", 5),
    (
        "a name that isn't UTF-8",
        b"\0\0\0\x01\x01\xff\0\0\0\0\0",
        5,
    ),
    ("a name twice", b"\0\0\0\x02\x01a\0\x01a\0\0\0\0\0", 8),
    ("names that fall", b"\0\0\0\x02\x01b\0\x01a\0\0\0\0\0", 8),
    (
        "another kind of value",
        b"\0\0\0\x01\x01a\x0a\0\0\0\0\0\0\0\x01\x01\0\0\0\x01\x03\0\0\0\0\0\0\0\0\0\0\0\0\0\0\0\x01",
        6,
    ),
    (
        "half a whole number",
        b"\0\0\0\x01\x01a\x03\0\0\0\0\0\0\0\0\0\0\0\0\0\0\0",
        7,
    ),
    ("half a text", b"\0\0\0\x01\x01a\x04\0\0\0\x02x", 11),
    (
        "a text that isn't UTF-8",
        b"\0\0\0\x01\x01a\x04\0\0\0\x01\xff\0\0\0\0",
        11,
    ),
    (
        "a range with step 0",
        b"\0\0\0\x01\x01a\x05\0\0\0\0\0\0\0\0\0\0\0\0\0\0\0\0\0\0\0\0\0\0\0\0\0\0\0\0\0\0\0\x09\0\0\0\0\0\0\0\0\0\0\0\0\0\0\0\0\0\0\0\0",
        39,
    ),
    (
        "no such builtin function",
        b"\0\0\0\x01\x01a\x06\x0e\0\0\0\0",
        7,
    ),
    ("no such class", b"\0\0\0\x01\x01a\x07\x19\0\0\0\0", 7),
    (
        "a node before those between",
        b"\0\0\0\x01\x01a\x08\0\0\0\x01\0\0\0\x01\x01\0\0\0\x01\x03\0\0\0\0\0\0\0\0\0\0\0\0\0\0\0\x01",
        7,
    ),
    (
        "fewer nodes than were met",
        b"\0\0\0\x01\x01a\x08\0\0\0\0\0\0\0\0\x01\0\0\0\x01\x03\0\0\0\0\0\0\0\0\0\0\0\0\0\0\0\x01",
        11,
    ),
    (
        "more nodes than are met",
        b"\0\0\0\x01\x01a\x08\0\0\0\0\0\0\0\x02\x01\0\0\0\x01\x03\0\0\0\0\0\0\0\0\0\0\0\0\0\0\0\x01",
        37,
    ),
    (
        "a node that wasn't met",
        b"\0\0\0\x01\x01a\x08\0\0\0\0\0\0\0\x02\x01\0\0\0\0\x01\0\0\0\0",
        20,
    ),
    (
        "a node past the last",
        b"\0\0\0\x01\x01a\x08\0\0\0\0\0\0\0\x01\x01\0\0\0\x01\x08\0\0\0\x01",
        21,
    ),
    (
        "another kind of row",
        b"\0\0\0\x01\x01a\x08\0\0\0\0\0\0\0\x01\x07\0\0\0\0",
        15,
    ),
    (
        "another kind of key",
        b"\0\0\0\x01\x01a\x08\0\0\0\0\0\0\0\x01\x03\0\0\0\x01\x05\0",
        20,
    ),
    (
        "another kind of part",
        b"\0\0\0\x01\x01a\x08\0\0\0\0\0\0\0\x01\x03\0\0\0\x01\x09\0\0\0\x01\x09\0",
        25,
    ),
    (
        "a key twice, as 1 and True",
        b"\0\0\0\x01\x01a\x08\0\0\0\0\0\0\0\x01\x03\0\0\0\x02\x03\0\0\0\0\0\0\0\0\0\0\0\0\0\0\0\x01\0\x02\0",
        38,
    ),
    (
        "an attribute twice",
        b"\0\0\0\x01\x01a\x08\0\0\0\0\0\0\0\x01\x04\0\0\0\x02\x01x\0\x01x\0",
        23,
    ),
    (
        "an attribute that is no identifier",
        b"\0\0\0\x01\x01a\x08\0\0\0\0\0\0\0\x01\x04\0\0\0\x01\x01-\0",
        21,
    ),
    (
        "another profile",
        b"\0\0\0\x01\x01a\x08\0\0\0\0\0\0\0\x01\x05\x02\0\0\0\x0ddef f(): pass\0\0\0\0",
        16,
    ),
    (
        "code that is too long",
        b"\0\0\0\x01\x01a\x08\0\0\0\0\0\0\0\x01\x05\x01\0\x10\0\x01",
        17,
    ),
    (
        "code that is no function",
        b"\0\0\0\x01\x01a\x08\0\0\0\0\0\0\0\x01\x05\x01\0\0\0\x01a\0\0\0\0",
        21,
    ),
    (
        "code and a space",
        b"\0\0\0\x01\x01a\x08\0\0\0\0\0\0\0\x01\x05\x01\0\0\0\x0edef f(): pass \0\0\0\0",
        21,
    ),
    (
        "a default too many",
        b"\0\0\0\x01\x01a\x08\0\0\0\0\0\0\0\x01\x05\x01\0\0\0\x0ddef f(): pass\0\0\0\x01\0",
        34,
    ),
    (
        "an exception of class str",
        b"\0\0\0\x01\x01a\x08\0\0\0\0\0\0\0\x01\x06\x06\0\0\0\0",
        16,
    ),
    (
        "an exception of no class",
        b"\0\0\0\x01\x01a\x08\0\0\0\0\0\0\0\x01\x06\x19\0\0\0\0",
        16,
    ),
    (
        "a value that is cut off",
        b"\0\0\0\x01\x01a\x08\0\0\0\0\0\0\0\x01\x01\0\0\0\x01\x03\0\0\0\0\0\0\0\0\0\0\0\0\0\0\0",
        21,
    ),
    (
        "the last byte of two names' picture cut off",
        b"\0\0\0\x02\x01a\x08\0\0\0\0\x01b\x08\0\0\0\0\0\0\0\x01\x01\0\0\0\x01\x03\0\0\0\0\0\0\0\0\0\0\0\0\0\0\0",
        28,
    ),
    (
        "a byte behind two names' picture",
        b"\0\0\0\x02\x01a\x08\0\0\0\0\x01b\x08\0\0\0\0\0\0\0\x01\x01\0\0\0\x01\x03\0\0\0\0\0\0\0\0\0\0\0\0\0\0\0\x01\0",
        44,
    ),
    (
        "a byte more",
        b"\0\0\0\x01\x01a\x08\0\0\0\0\0\0\0\x01\x01\0\0\0\x01\x03\0\0\0\0\0\0\0\0\0\0\0\0\0\0\0\x01\0",
        37,
    ),
];

// After `a = [1]; b = a` the picture of `a` and `b`.
const SHARED: &[u8] =
    b"\0\0\0\x02\x01a\x08\0\0\0\0\x01b\x08\0\0\0\0\0\0\0\x01\x01\0\0\0\x01\x03\0\0\0\0\0\0\0\0\0\0\0\0\0\0\0\x01";

// A tuple of a list, a dict, an object, a function with a default and an exception; the list leads back to
// it.
const EACH_KIND: &[u8] =
    b"\0\0\0\x01\x01a\x08\0\0\0\0\0\0\0\x06\x02\0\0\0\x05\x08\0\0\0\x01\x08\0\0\0\x02\x08\0\0\0\x03\x08\0\0\0\x04\x08\0\0\0\x05\x01\0\0\0\x05\0\x01\x02\x04\0\0\0\x02\xc3\xa9\x08\0\0\0\0\x03\0\0\0\x02\x04\0\0\0\x01k\0\x09\0\0\0\x01\0\x02\x04\0\0\0\x01\x01x\x06\x0d\x05\x01\0\0\0\x10def f(x=1): pass\0\0\0\x01\x01\x06\x18\0\0\0\x01\x07\x08";

/// Loads bytes, and tells the place of their fault, where they have one.
fn fault(
    alloc: Global,
    bytes: &[u8],
    heap: &mut Heap,
    names: &mut Names,
) -> Result<Option<u64>, AllocError> {
    if bytes.len() > 1_000 || heap.len() > 1_000 {
        return Ok(Some(u64::MAX));
    }
    match load(alloc, bytes, heap, names) {
        Ok(()) => Ok(None),
        Err(LoadFault::Picture { at }) => Ok(Some(at)),
        Err(LoadFault::NoMemory) => Err(AllocError),
    }
}

/// Whether the fault of bytes is told at this place.
fn is_at_fault(alloc: Global, bytes: &[u8], at: u64) -> Result<bool, AllocError> {
    let mut heap = Heap::new(alloc);
    let mut names = Names::new(alloc);
    Ok(fault(alloc, bytes, &mut heap, &mut names)? == Some(at))
}

#[test]
fn tells_the_place_of_a_fault(rt: HostRuntime) -> Result<(), Fail> {
    let alloc = rt.alloc();
    for (rule, bytes, at) in &FAULTS {
        assert!(rt; is_at_fault(alloc, bytes, *at)?, "{rule}");
    }
    Ok(())
}

/// The number of the node to which a name is bound.
fn node_of(names: &Names, name: &str) -> Option<u32> {
    match names.peek(name) {
        Some(Value::Node(id)) => Some(id.0),
        _ => None,
    }
}

/// Pictures that are loaded in turn, how many nodes there are then, and the node of `a`.
const LOADS: [(&[u8], u32, u32); 3] = [(PICTURE, 1, 0), (SHARED, 2, 1), (EACH_KIND, 8, 2)];

#[test]
fn loads_pictures(rt: HostRuntime) -> Result<(), Fail> {
    let alloc = rt.alloc();
    let mut heap = Heap::new(alloc);
    let mut names = Names::new(alloc);
    for (bytes, nodes, first) in &LOADS {
        assert!(rt; fault(alloc, bytes, &mut heap, &mut names)?.is_none());
        assert!(rt; heap.len() == *nodes);
        assert!(rt; node_of(&names, "a") == Some(*first));
    }
    assert!(rt; node_of(&names, "b") == Some(1));
    assert!(rt; names.accessed().is_empty());
    Ok(())
}

// The state that the picture of all names brings into an empty one.
fn loaded(alloc: Global, bytes: &[u8]) -> Result<Option<State>, AllocError> {
    if bytes.len() > 10_000_000 {
        return Err(AllocError);
    }
    let mut heap = Heap::new(alloc);
    let mut names = Names::new(alloc);
    match load(alloc, bytes, &mut heap, &mut names) {
        Ok(()) => Ok(Some(State { heap, names })),
        Err(LoadFault::Picture { .. }) => Ok(None),
        Err(LoadFault::NoMemory) => Err(AllocError),
    }
}

// Loads the picture of all names into an empty state, and tells whether others leave the same.
pub(crate) fn loaded_told<L: Ledger>(
    alloc: Global,
    state: &State,
    others: &str,
    steps: &mut Steps<L>,
) -> Result<String, AllocError> {
    if !is_short(alloc, state, steps)? {
        return String::from_str(alloc, "too long");
    }
    let bytes = whole(alloc, state, steps)?;
    match loaded(alloc, bytes.as_slice())? {
        Some(one) => same_told(alloc, &one, others, steps),
        None => String::from_str(alloc, "no picture"),
    }
}

/// Cells, others, and whether these leave the same as what is loaded from the picture of what the first
/// leave.
const LOADED: [(&str, &str, &str); 7] = [
    ("", "", "same"),
    ("a = [1]; b = a", "a = [1]; b = a", "same"),
    ("a = [1]; b = a", "a = [1]; b = [1]", "another"),
    ("a = []; a.append(a)", "a = []; a.append(a)", "same"),
    (
        "a = None; b = False; c = True; d = -2; e = 'é'; f = range(1, 5, 2); g = len; h = ValueError",
        "h = ValueError; g = len; f = range(1, 5, 2); e = 'é'; d = -2; c = True; b = False; a = None",
        "same",
    ),
    (
        "from types import SimpleNamespace\nd = {(1, 'a'): [], 'k': SimpleNamespace(p=1)}; t = (d, ValueError(d))",
        "from types import SimpleNamespace\nd = {(1, 'a'): [], 'k': SimpleNamespace(p=1)}; t = (d, ValueError(d))",
        "same",
    ),
    (
        "def g(x, acc=[], n=2): acc.append(x); return acc\x1ep = g(1)",
        "def g(x, acc=[], n=2): acc.append(x); return acc\x1ep = g(1)",
        "same",
    ),
];

#[test]
fn loads_the_same(rt: HostRuntime) -> Result<(), Fail> {
    let alloc = rt.alloc();
    for (texts, others, want) in &LOADED {
        assert!(rt;
            is_told(alloc, Question::Loaded, texts, others, want)?,
            "{texts}\n{others}"
        );
    }
    Ok(())
}
