// Heaps after some calls, and comparisons of values over them.
ghost use Rattle.std.specs.Prelude.{◌≡◌, ◌+◌, ◌<◌, ◌^◌, IfSome, length, true};
ghost use Rattle.kishu_meaning.specs.values.Nodes.{found, list_in};

use crate::methods::{key, new_dict, new_object};
use indexmap::IndexMap;
use kishu_heap::{CompareFault, Heap, Node};
use kishu_meaning::{Budget, Key, NodeId, Steps, Value};
use kishu_names::is_name;
use std::alloc::{AllocError, Global};
use std::marker::Brand;
use std::rc::RcStr;
use std::sync::ledger::{Blank, Ledger};
use std::test::Fail;

const FULL: Budget = Budget {
    left: 4_000_000,
    depth: 0,
};

#[derive(Clone, Copy)]
enum Call {
    Equal,
    Less,
}

// A comparison of two nodes: what it answers, and the steps that it took.
#[derive(Drop)]
struct Compared {
    answer: Result<bool, CompareFault>,
    taken: u64,
}

fn counted<L: Ledger>(
    heap: &Heap,
    call: Call,
    a: NodeId,
    b: NodeId,
    start: Budget,
    blank: Blank,
) -> Compared
    requires name { blank.name ≡ L.name }
    requires parts { blank.parts ≡ L.parts }
    requires some { 0 < L.parts }
{
    let mut steps = Steps::<L>::new(blank);
    let mut budget = start;
    let one = Value::Node(a);
    let other = Value::Node(b);
    let answer = match call {
        Call::Equal => heap.equal(&one, &other, &mut budget, &mut steps),
        Call::Less => heap.less(&one, &other, &mut budget, &mut steps),
    };
    Compared {
        answer,
        taken: start.left.saturating_sub(budget.left),
    }
}

fn comparison(heap: &Heap, call: Call, a: NodeId, b: NodeId, start: Budget) -> Compared {
    counted::<Brand>(heap, call, a, b, start, Blank::new(1))
}

// Whether there is room for a node that leads to this one.
fn may_wrap(heap: &Heap, id: NodeId) -> bool
    ensures { result ≡ true → (id.0 < length heap.now) × (length heap.now + 1 < 2 ^ 32) }
{
    id.0 < heap.len() && heap.len() < 4_000_000_000
}

// A list around a node.
fn wrapped(alloc: Global, heap: &mut Heap, id: NodeId) -> Result<NodeId, AllocError> {
    let items = vec![in alloc; Value::Node(id)]?;
    if may_wrap(heap, id) {
        heap.make(Node::List(items))
    } else {
        Ok(id)
    }
}

// A list with a number in it, inside so many lists.
fn nested(alloc: Global, heap: &mut Heap, times: u32) -> Result<NodeId, AllocError> {
    let mut id = number_list(alloc, heap, 1)?;
    for _ in 0..times {
        id = wrapped(alloc, heap, id)?;
    }
    Ok(id)
}

fn number_list(alloc: Global, heap: &mut Heap, number: i128) -> Result<NodeId, AllocError> {
    let items = vec![in alloc; Value::Int(number)]?;
    if heap.len() < 4_000_000_000 {
        heap.make(Node::List(items))
    } else {
        Ok(NodeId(0))
    }
}

/// How deep two lists are nested, and what their comparison answers.
const DEPTHS: [(u32, Result<bool, CompareFault>); 3] = [
    (999, Ok(true)),
    (1_000, Ok(true)),
    (1_001, Err(CompareFault::Depth)),
];

// Whether two lists that are nested so deep are compared so.
fn are_compared(
    alloc: Global,
    times: u32,
    want: &Result<bool, CompareFault>,
) -> Result<bool, AllocError> {
    let mut heap = Heap::new(alloc);
    let a = nested(alloc, &mut heap, times)?;
    let b = nested(alloc, &mut heap, times)?;
    Ok(comparison(&heap, Call::Equal, a, b, FULL).answer == *want)
}

#[test]
fn depths(rt: HostRuntime) -> Result<(), Fail> {
    let alloc = rt.alloc();
    for (times, want) in &DEPTHS {
        assert!(rt; are_compared(alloc, *times, want)?, "{times} times");
    }
    Ok(())
}

fn put(heap: &mut Heap, id: NodeId, key: Key, number: i128) -> Result<(), AllocError> {
    if id.0 < heap.len() {
        heap.insert(id, key, Value::Int(number))
    } else {
        Ok(())
    }
}

// The number that a dict had under a key, which is taken out; 0 where there was none.
fn taken(heap: &mut Heap, id: NodeId, key: &Key) -> i128 {
    if id.0 < heap.len() {
        if let Some(Value::Int(number)) = heap.remove(id, key) {
            return number;
        }
    }
    0
}

// A dict with these numbers under these keys, which are put in in turn.
fn filled(alloc: Global, heap: &mut Heap, entries: &[(&str, i128)]) -> Result<NodeId, AllocError> {
    let dict = new_dict(alloc, heap)?;
    for (written, number) in entries {
        put(heap, dict, key(alloc, written)?, *number)?;
    }
    Ok(dict)
}

/// Keys, and the numbers that are put under them in turn.
const PUT: [(&str, i128); 6] = [
    ("True", 1),
    ("1", 2),
    ("tuple~1", 3),
    ("tuple~True", 4),
    ("'a", 5),
    ("None", 6),
];

/// Keys that are taken out in turn, with the number that each had then, and what the dict holds after.
const TAKEN: [(&str, i128, &str); 5] = [
    ("True", 2, "tuple 4 a 5 None 6 "),
    ("1", 0, "tuple 4 a 5 None 6 "),
    ("tuple~1", 4, "a 5 None 6 "),
    ("'a", 5, "None 6 "),
    ("None", 6, ""),
];

// Whether a dict had this number under a key, and holds this once the key is taken out.
fn loses(
    alloc: Global,
    heap: &mut Heap,
    dict: NodeId,
    row: &(&str, i128, &str),
) -> Result<bool, AllocError> {
    let (written, number, after) = row;
    let lost = key(alloc, written)?;
    Ok(taken(heap, dict, &lost) == *number && is_told(alloc, heap, dict, after)?)
}

#[test]
fn keys(rt: HostRuntime) -> Result<(), Fail> {
    let alloc = rt.alloc();
    let mut heap = Heap::new(alloc);
    let dict = filled(alloc, &mut heap, &PUT)?;
    assert!(rt; is_told(alloc, &heap, dict, "bool 2 tuple 4 a 5 None 6 ")?);
    for row in &TAKEN {
        assert!(rt; loses(alloc, &mut heap, dict, row)?, "at {}", row.0);
    }
    Ok(())
}

#[test]
fn orders(rt: HostRuntime) -> Result<(), Fail> {
    let alloc = rt.alloc();
    let mut heap = Heap::new(alloc);
    let a = filled(alloc, &mut heap, &[("1", 1), ("2", 2)])?;
    let b = filled(alloc, &mut heap, &[("2", 2), ("True", 1)])?;
    let equal = comparison(&heap, Call::Equal, a, b, FULL);
    assert!(rt; equal.answer == Ok(true));
    assert!(rt; equal.taken == 2);
    let less = comparison(&heap, Call::Less, a, b, FULL);
    assert!(rt; less.answer == Err(CompareFault::Unordered));
    Ok(())
}

// Three nodes that each hold themselves.
fn loops(alloc: Global, heap: &mut Heap) -> Result<(), AllocError>
    requires { length heap.old ≡ 0 }
{
    let first = Node::List(vec![in alloc; Value::Node(NodeId(0))]?);
    let second = Node::List(vec![in alloc; Value::Node(NodeId(1))]?);
    let third = Node::Tuple(vec![in alloc; Value::Node(NodeId(2))]?);
    heap.make_all(vec![in alloc; first, second, third]?)
}

/// A comparison of two nodes by their numbers, with the steps that it may take; what it answers, and the
/// steps that it takes, where they count.
struct Row {
    call: Call,
    a: u32,
    b: u32,
    left: u64,
    answer: Result<bool, CompareFault>,
    taken: Option<u64>,
}

/// Two lists and a tuple that each hold themselves.
const IN_THEMSELVES: [Row; 6] = [
    Row {
        call: Call::Equal,
        a: 0,
        b: 0,
        left: 4_000_000,
        answer: Ok(true),
        taken: Some(1),
    },
    Row {
        call: Call::Equal,
        a: 2,
        b: 2,
        left: 4_000_000,
        answer: Ok(true),
        taken: None,
    },
    Row {
        call: Call::Equal,
        a: 0,
        b: 1,
        left: 4_000_000,
        answer: Err(CompareFault::Depth),
        taken: Some(1_001),
    },
    Row {
        call: Call::Equal,
        a: 0,
        b: 1,
        left: 5,
        answer: Err(CompareFault::Spent),
        taken: None,
    },
    Row {
        call: Call::Less,
        a: 0,
        b: 0,
        left: 4_000_000,
        answer: Ok(false),
        taken: None,
    },
    Row {
        call: Call::Less,
        a: 0,
        b: 2,
        left: 4_000_000,
        answer: Err(CompareFault::Unordered),
        taken: None,
    },
];

// Whether a comparison answers and takes what its row says.
fn holds(heap: &Heap, row: &Row) -> bool {
    let start = Budget {
        left: row.left,
        depth: 0,
    };
    let found = comparison(heap, row.call, NodeId(row.a), NodeId(row.b), start);
    let takes_as_many = match row.taken {
        Some(taken) => found.taken == taken,
        None => true,
    };
    found.answer == row.answer && takes_as_many
}

#[test]
fn nodes_in_themselves(rt: HostRuntime) -> Result<(), Fail> {
    let alloc = rt.alloc();
    let mut heap = Heap::new(alloc);
    loops(alloc, &mut heap)?;
    for row in &IN_THEMSELVES {
        assert!(rt; holds(&heap, row), "at {} and {}", row.a, row.b);
    }
    Ok(())
}

fn number(value: Option<&Value>) -> i128 {
    match value {
        Some(Value::Int(number)) => *number,
        _ => -1,
    }
}

fn spelling(key: &Key) -> &str {
    match key {
        Key::None => "None",
        Key::Bool(_) => "bool",
        Key::Int(_) => "int",
        Key::Text(text) => text.as_str(),
        Key::Tuple(_) => "tuple",
    }
}

fn told_items(alloc: Global, items: &[Value]) -> Result<String, AllocError> {
    let mut all = String::new(alloc);
    for item in items {
        let number = number(Some(item));
        all.push_str(format!(in alloc; "{number} ")?.as_str())?;
    }
    Ok(all)
}

fn told_entries(alloc: Global, entries: &IndexMap<Key, Value>) -> Result<String, AllocError> {
    let mut all = String::new(alloc);
    for (key, value) in entries.iter() {
        let number = number(Some(value));
        all.push_str(spelling(key))?;
        all.push_str(format!(in alloc; " {number} ")?.as_str())?;
    }
    Ok(all)
}

fn told_attributes(
    alloc: Global,
    attributes: &IndexMap<RcStr, Value>,
) -> Result<String, AllocError> {
    let mut all = String::new(alloc);
    for (name, value) in attributes.iter() {
        let number = number(Some(value));
        all.push_str(name.as_str())?;
        all.push_str(format!(in alloc; " {number} ")?.as_str())?;
    }
    Ok(all)
}

fn told_node(alloc: Global, node: &Node) -> Result<String, AllocError> {
    match node {
        Node::List(items) | Node::Tuple(items) => told_items(alloc, items.as_slice()),
        Node::Dict(entries) => told_entries(alloc, entries),
        Node::Object(attributes) => told_attributes(alloc, attributes),
        Node::Function(_) | Node::Exception(..) => Ok(String::new(alloc)),
    }
}

// What is in a node.
fn read<L: Ledger>(
    alloc: Global,
    heap: &Heap,
    id: NodeId,
    blank: Blank,
) -> Result<String, AllocError>
    requires name { blank.name ≡ L.name }
    requires parts { blank.parts ≡ L.parts }
    requires some { 0 < L.parts }
    requires id { id.0 < length heap.now }
{
    let mut steps = Steps::<L>::new(blank);
    told_node(alloc, heap.node(id, &mut steps))
}

fn told(alloc: Global, heap: &Heap, id: NodeId) -> Result<String, AllocError> {
    if id.0 < heap.len() {
        read::<Brand>(alloc, heap, id, Blank::new(1))
    } else {
        Ok(String::new(alloc))
    }
}

// Whether this is in a node.
fn is_told(alloc: Global, heap: &Heap, id: NodeId, want: &str) -> Result<bool, AllocError> {
    Ok(told(alloc, heap, id)?.as_str() == want)
}

// Whether a list has an item at a place.
fn reaches<L: Ledger>(heap: &Heap, id: NodeId, at: usize, blank: Blank) -> bool
    requires name { blank.name ≡ L.name }
    requires parts { blank.parts ≡ L.parts }
    requires some { 0 < L.parts }
    requires id { id.0 < length heap.now }
    ensures { result ≡ true → IfSome (found list_in id.0 heap.now) (λ vs. at < length vs) }
{
    let mut steps = Steps::<L>::new(blank);
    match heap.node(id, &mut steps).list() {
        Some(items) => at < items.len(),
        None => false,
    }
}

fn replace(heap: &mut Heap, id: NodeId, at: usize, number: i128) {
    if id.0 < heap.len() && reaches::<Brand>(heap, id, at, Blank::new(1)) {
        heap.set_item(id, at, Value::Int(number));
    }
}

fn push(heap: &mut Heap, id: NodeId, number: i128) -> Result<(), AllocError> {
    if id.0 < heap.len() {
        heap.push(id, Value::Int(number))
    } else {
        Ok(())
    }
}

fn pop(heap: &mut Heap, id: NodeId) -> i128 {
    if id.0 < heap.len() {
        number(heap.pop(id).as_ref())
    } else {
        0
    }
}

fn keep_one(alloc: Global, heap: &mut Heap, id: NodeId, number: i128) -> Result<(), AllocError> {
    let items = vec![in alloc; Value::Int(number)]?;
    if id.0 < heap.len() {
        heap.replace_list(id, items);
    }
    Ok(())
}

#[test]
fn lists(rt: HostRuntime) -> Result<(), Fail> {
    let alloc = rt.alloc();
    let mut heap = Heap::new(alloc);
    let list = number_list(alloc, &mut heap, 1)?;
    push(&mut heap, list, 2)?;
    push(&mut heap, list, 3)?;
    replace(&mut heap, list, 0, 4);
    assert!(rt; is_told(alloc, &heap, list, "4 2 3 ")?);
    assert!(rt; pop(&mut heap, list) == 3);
    assert!(rt; is_told(alloc, &heap, list, "4 2 ")?);
    keep_one(alloc, &mut heap, list, 7)?;
    assert!(rt; pop(&mut heap, list) == 7);
    assert!(rt; pop(&mut heap, list) == -1);
    assert!(rt; is_told(alloc, &heap, list, "")?);
    Ok(())
}

fn set(
    alloc: Global,
    heap: &mut Heap,
    id: NodeId,
    name: &str,
    number: i128,
) -> Result<(), AllocError> {
    if is_name(name) && id.0 < heap.len() {
        heap.set_attr(id, RcStr::from_str(alloc, name)?, Value::Int(number))
    } else {
        Ok(())
    }
}

fn unset(heap: &mut Heap, id: NodeId, name: &str) -> i128 {
    if id.0 < heap.len() {
        number(heap.remove_attr(id, name).as_ref())
    } else {
        0
    }
}

/// Attributes, and the numbers that are set in turn.
const SET: [(&str, i128); 4] = [("b", 1), ("a", 2), ("c", 3), ("b", 4)];

#[test]
fn objects(rt: HostRuntime) -> Result<(), Fail> {
    let alloc = rt.alloc();
    let mut heap = Heap::new(alloc);
    let object = new_object(alloc, &mut heap)?;
    for (name, number) in &SET {
        set(alloc, &mut heap, object, name, *number)?;
    }
    assert!(rt; is_told(alloc, &heap, object, "b 4 a 2 c 3 ")?);
    assert!(rt; unset(&mut heap, object, "a") == 2);
    assert!(rt; unset(&mut heap, object, "a") == -1);
    assert!(rt; is_told(alloc, &heap, object, "b 4 c 3 ")?);
    Ok(())
}
