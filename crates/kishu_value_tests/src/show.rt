// Texts of values and nodes, and the steps that they take. The texts are CPython's, but for a
// function, whose text has no address here, and for an exception that is being shown already, where
// the class and three dots are this language's own.
ghost use Rattle.kishu_language.specs.Limits.{longest_text};
ghost use Rattle.std.specs.Prelude.{◌≡◌, ◌<◌, ◌≤◌, [], IfOk, IfSome, length};

use crate::methods::{key, new_dict, new_object, part, range};
use kishu_heap::{FunctionNode, Heap, Node};
use kishu_language::Profile;
use kishu_meaning::{Budget, ClassId, NodeId, Steps, Value, builtin_named, class_named};
use kishu_names::is_name;
use kishu_parser::parse_def;
use kishu_show::{ShowFault, repr_of, show};
use std::alloc::{AllocError, Global};
use std::marker::Brand;
use std::rc::{Rc, RcStr};
use std::sync::ledger::{Blank, Ledger};
use std::test::Fail;

const FULL: Budget = Budget {
    left: 4_000_000,
    depth: 0,
};

#[derive(Clone, Copy)]
enum Call {
    Repr,
    Str,
}

fn answer<L: Ledger>(
    alloc: Global,
    call: Call,
    value: &Value,
    heap: &Heap,
    budget: &mut Budget,
    blank: Blank,
) -> Result<String, ShowFault>
    requires name { blank.name ≡ L.name }
    requires parts { blank.parts ≡ L.parts }
    requires some { 0 < L.parts }
{
    let mut steps = Steps::<L>::new(blank);
    match call {
        Call::Repr => repr_of(alloc, value, heap, budget, &mut steps),
        Call::Str => show(alloc, value, heap, budget, &mut steps),
    }
}

// The text or the fault, and the steps that it took.
fn told(
    alloc: Global,
    call: Call,
    value: &Value,
    heap: &Heap,
    start: Budget,
) -> Result<String, AllocError> {
    let mut budget = start;
    let answer = answer::<Brand>(alloc, call, value, heap, &mut budget, Blank::new(1));
    let taken = start.left.saturating_sub(budget.left);
    match answer {
        Ok(text) => format!(in alloc; "{text} {taken}"),
        Err(ShowFault::Depth) => format!(in alloc; "Depth {taken}"),
        Err(ShowFault::Spent) => format!(in alloc; "Spent {taken}"),
        Err(ShowFault::NoMemory) => format!(in alloc; "NoMemory {taken}"),
    }
}

// Whether these are a value's repr and its str, each with the steps that it takes.
fn are_told(
    alloc: Global,
    value: &Value,
    heap: &Heap,
    repr: &str,
    str: &str,
) -> Result<bool, AllocError> {
    let shown = told(alloc, Call::Repr, value, heap, FULL)?;
    Ok(shown.as_str() == repr && told(alloc, Call::Str, value, heap, FULL)?.as_str() == str)
}

/// Values that are no nodes, with the repr and the str of each.
const PLAIN: [(&str, &str, &str); 12] = [
    ("None", "None 4", "None 4"),
    ("True", "True 4", "True 4"),
    ("False", "False 5", "False 5"),
    ("-170", "-170 4", "-170 4"),
    (
        "170141183460469231731687303715884105727",
        "170141183460469231731687303715884105727 39",
        "170141183460469231731687303715884105727 39",
    ),
    ("'it's", "\"it's\" 6", "it's 4"),
    ("'a\t\\é\x1f", "'a\\t\\\\é\\x1f' 12", "a\t\\é\x1f 5"),
    ("''\"", "'\\'\"' 5", "'\" 2"),
    ("range~0~-7~1", "range(0, -7) 12", "range(0, -7) 12"),
    ("range~0~9~3", "range(0, 9, 3) 14", "range(0, 9, 3) 14"),
    (
        "builtin~len",
        "<built-in function len> 23",
        "<built-in function len> 23",
    ),
    (
        "class~KeyError",
        "<class 'KeyError'> 18",
        "<class 'KeyError'> 18",
    ),
];

// A value that is no node, as its row tells it.
fn plain(alloc: Global, written: &str) -> Result<Value, AllocError> {
    let (kind, inside) = written.split_once('~').unwrap_or((written, ""));
    match kind {
        "range" => range(alloc, inside),
        "builtin" => Ok(match builtin_named(inside.as_bytes()) {
            Some(builtin) => Value::Builtin(builtin),
            None => Value::None,
        }),
        "class" => Ok(match class_named(inside.as_bytes()) {
            Some(class) => Value::Class(class),
            None => Value::None,
        }),
        _ => part(alloc, written),
    }
}

#[test]
fn plain_values(rt: HostRuntime) -> Result<(), Fail> {
    let alloc = rt.alloc();
    let heap = Heap::new(alloc);
    for (written, repr, str) in &PLAIN {
        let value = plain(alloc, written)?;
        assert!(rt; are_told(alloc, &value, &heap, repr, str)?, "at {written}");
    }
    Ok(())
}

/// A node's number, its repr and its str, each with the steps that it takes.
type Row = (u32, &'static str, &'static str);

// Whether a node is told as its row says.
fn holds(alloc: Global, heap: &Heap, row: &Row) -> Result<bool, AllocError> {
    let (id, repr, str) = row;
    are_told(alloc, &Value::Node(NodeId(*id)), heap, repr, str)
}

// Lists and tuples, among them such as hold themselves.
fn lists(alloc: Global, heap: &mut Heap) -> Result<(), AllocError>
    requires { length heap.old ≡ 0 }
{
    let list = Node::List(vec![in alloc; Value::Node(NodeId(0))]?);
    let tuple = Node::Tuple(vec![in alloc; Value::Node(NodeId(1))]?);
    let empty = Node::Tuple(Vec::new(alloc));
    let both = Node::Tuple(vec![in alloc; Value::Node(NodeId(2)), Value::Int(1)]?);
    let all = Node::List(vec![in alloc;
        Value::Node(NodeId(3)),
        Value::Node(NodeId(0)),
        Value::Node(NodeId(3)),
    ]?);
    heap.make_all(vec![in alloc; list, tuple, empty, both, all]?)
}

const LISTS_AND_TUPLES: [Row; 5] = [
    (0, "[[...]] 7", "[[...]] 7"),
    (1, "((...),) 8", "((...),) 8"),
    (2, "() 2", "() 2"),
    (3, "((), 1) 7", "((), 1) 7"),
    (
        4,
        "[((), 1), [[...]], ((), 1)] 27",
        "[((), 1), [[...]], ((), 1)] 27",
    ),
];

#[test]
fn lists_and_tuples(rt: HostRuntime) -> Result<(), Fail> {
    let alloc = rt.alloc();
    let mut heap = Heap::new(alloc);
    lists(alloc, &mut heap)?;
    for row in &LISTS_AND_TUPLES {
        assert!(rt; holds(alloc, &heap, row)?, "node {}", row.0);
    }
    Ok(())
}

fn exceptions(alloc: Global, heap: &mut Heap) -> Result<(), AllocError>
    requires { length heap.old ≡ 0 }
{
    let x = Value::Text(RcStr::from_str(alloc, "x")?);
    let also_x = Value::Text(RcStr::from_str(alloc, "x")?);
    let k = Value::Text(RcStr::from_str(alloc, "k")?);
    let empty = Node::Exception(ClassId::VALUE_ERROR, Vec::new(alloc));
    let one = Node::Exception(ClassId::VALUE_ERROR, vec![in alloc; x]?);
    let two = Node::Exception(ClassId::VALUE_ERROR, vec![in alloc; also_x, Value::Int(1)]?);
    let key = Node::Exception(ClassId::KEY_ERROR, vec![in alloc; k]?);
    let around = Node::Exception(
        ClassId::VALUE_ERROR,
        vec![in alloc; Value::Node(NodeId(3))]?,
    );
    heap.make_all(vec![in alloc; empty, one, two, key, around]?)
}

const EXCEPTIONS: [Row; 5] = [
    (0, "ValueError() 12", " 0"),
    (1, "ValueError('x') 15", "x 2"),
    (2, "ValueError('x', 1) 18", "('x', 1) 8"),
    (3, "KeyError('k') 13", "'k' 4"),
    (4, "ValueError(KeyError('k')) 25", "'k' 5"),
];

#[test]
fn exceptions_by_their_arguments(rt: HostRuntime) -> Result<(), Fail> {
    let alloc = rt.alloc();
    let mut heap = Heap::new(alloc);
    exceptions(alloc, &mut heap)?;
    for row in &EXCEPTIONS {
        assert!(rt; holds(alloc, &heap, row)?, "node {}", row.0);
    }
    Ok(())
}

// A list and an exception in one another, and an exception in itself.
fn loops(alloc: Global, heap: &mut Heap) -> Result<(), AllocError>
    requires { length heap.old ≡ 0 }
{
    let list = Node::List(vec![in alloc; Value::Node(NodeId(1))]?);
    let inner = Node::Exception(
        ClassId::VALUE_ERROR,
        vec![in alloc; Value::Node(NodeId(0))]?,
    );
    let itself = Node::Exception(
        ClassId::VALUE_ERROR,
        vec![in alloc; Value::Node(NodeId(2))]?,
    );
    heap.make_all(vec![in alloc; list, inner, itself]?)
}

const IN_THEMSELVES: [Row; 3] = [
    (0, "[ValueError([...])] 19", "[ValueError([...])] 19"),
    (
        1,
        "ValueError([ValueError(...)]) 29",
        "[ValueError([...])] 20",
    ),
    (2, "ValueError(ValueError(...)) 27", "Depth 1001"),
];

#[test]
fn exceptions_that_hold_themselves(rt: HostRuntime) -> Result<(), Fail> {
    let alloc = rt.alloc();
    let mut heap = Heap::new(alloc);
    loops(alloc, &mut heap)?;
    for row in &IN_THEMSELVES {
        assert!(rt; holds(alloc, &heap, row)?, "node {}", row.0);
    }
    Ok(())
}

// The function that this code is, where it has no parameters.
#[tactic(auto, using(crate::proofs::Parameters::no_defaults, crate::proofs::Parameters::read_as))]
fn function_of(alloc: Global, code: &str) -> Result<Option<FunctionNode>, AllocError>
    requires { length code.now ≤ longest_text }
    ensures { IfOk result (λ found. IfSome found (λ f. f.defaults.items ≡ [])) }
{
    let Ok(definition) = parse_def(alloc, Profile::One, code) else {
        return Ok(None);
    };
    if !definition.params.is_empty() {
        return Ok(None);
    }
    Ok(Some(FunctionNode {
        profile: Profile::One,
        code: RcStr::from_str(alloc, code)?,
        def: Rc::new(alloc, definition)?,
        defaults: Vec::new(alloc),
    }))
}

// A function, a list that holds it, and a list that holds it and itself.
fn lists_of(alloc: Global, heap: &mut Heap, function: FunctionNode) -> Result<(), AllocError>
    requires empty { length heap.old ≡ 0 }
    requires plain { function.defaults.items ≡ [] }
{
    let one = Node::List(vec![in alloc; Value::Node(NodeId(0))]?);
    let both = Node::List(vec![in alloc; Value::Node(NodeId(0)), Value::Node(NodeId(2))]?);
    heap.make_all(vec![in alloc; Node::Function(function), one, both]?)
}

const FUNCTIONS: [Row; 3] = [
    (0, "<function f> 12", "<function f> 12"),
    (1, "[<function f>] 14", "[<function f>] 14"),
    (2, "[<function f>, [...]] 21", "[<function f>, [...]] 21"),
];

#[test]
fn functions(rt: HostRuntime) -> Result<(), Fail> {
    let alloc = rt.alloc();
    let mut heap = Heap::new(alloc);
    if let Some(function) = function_of(alloc, "def f(): pass")? {
        lists_of(alloc, &mut heap, function)?;
    }
    for row in &FUNCTIONS {
        assert!(rt; holds(alloc, &heap, row)?, "node {}", row.0);
    }
    Ok(())
}

// Puts a dict into itself under a key.
fn put(alloc: Global, heap: &mut Heap, id: NodeId, written: &str) -> Result<(), AllocError> {
    let new = key(alloc, written)?;
    if id.0 < heap.len() {
        heap.insert(id, new, Value::Node(id))
    } else {
        Ok(())
    }
}

// Puts an object into itself as this attribute.
fn set(alloc: Global, heap: &mut Heap, id: NodeId, name: &str) -> Result<(), AllocError> {
    if is_name(name) && id.0 < heap.len() {
        heap.set_attr(id, RcStr::from_str(alloc, name)?, Value::Node(id))
    } else {
        Ok(())
    }
}

// Whether this is the repr and the str of a node, with the steps that it takes.
fn is_told(alloc: Global, heap: &Heap, id: NodeId, want: &str) -> Result<bool, AllocError> {
    are_told(alloc, &Value::Node(id), heap, want, want)
}

#[test]
fn dicts(rt: HostRuntime) -> Result<(), Fail> {
    let alloc = rt.alloc();
    let mut heap = Heap::new(alloc);
    let dict = new_dict(alloc, &mut heap)?;
    assert!(rt; is_told(alloc, &heap, dict, "{} 2")?);
    put(alloc, &mut heap, dict, "'k")?;
    assert!(rt; is_told(alloc, &heap, dict, "{'k': {...}} 12")?);
    for written in &["tuple~", "tuple~None", "tuple~True~-2"] {
        put(alloc, &mut heap, dict, written)?;
    }
    let want = "{'k': {...}, (): {...}, (None,): {...}, (True, -2): {...}} 58";
    assert!(rt; is_told(alloc, &heap, dict, want)?);
    Ok(())
}

#[test]
fn objects(rt: HostRuntime) -> Result<(), Fail> {
    let alloc = rt.alloc();
    let mut heap = Heap::new(alloc);
    let object = new_object(alloc, &mut heap)?;
    assert!(rt; is_told(alloc, &heap, object, "namespace() 11")?);
    set(alloc, &mut heap, object, "b")?;
    set(alloc, &mut heap, object, "a")?;
    let want = "namespace(b=namespace(...), a=namespace(...)) 45";
    assert!(rt; is_told(alloc, &heap, object, want)?);
    Ok(())
}

/// The steps that may be taken, how deep the walk begins, and what is told of the tuple `((), 1)`.
const BUDGETS: [(u64, u32, &str); 6] = [
    (7, 0, "((), 1) 7"),
    (6, 0, "Spent 6"),
    (7, 998, "((), 1) 7"),
    (7, 999, "((), 1) 7"),
    (7, 1_000, "Depth 1"),
    (0, 1_000, "Spent 0"),
];

// Whether this is told of a value's repr, of which some steps may be taken.
fn is_within(alloc: Global, heap: &Heap, row: &(u64, u32, &str)) -> Result<bool, AllocError> {
    let (left, depth, want) = row;
    let start = Budget {
        left: *left,
        depth: *depth,
    };
    let tuple = Value::Node(NodeId(3));
    Ok(told(alloc, Call::Repr, &tuple, heap, start)?.as_str() == *want)
}

#[test]
fn budgets(rt: HostRuntime) -> Result<(), Fail> {
    let alloc = rt.alloc();
    let mut heap = Heap::new(alloc);
    lists(alloc, &mut heap)?;
    for row in &BUDGETS {
        assert!(rt; is_within(alloc, &heap, row)?, "at {}, {}", row.0, row.1);
    }
    Ok(())
}
