// Calls of methods, written and told as texts (tools/rows/method_rows.py).
ghost use Rattle.std.specs.Prelude.{◌≡◌, ◌+◌, ◌-◌, ◌<◌, ◌^◌, map, length, true};
ghost use Rattle.std.specs.List.{list_all};
ghost use Rattle.kishu_meaning.specs.values.Sound.{is_sound, are_sound};
ghost use Rattle.kishu_meaning.specs.values.Values.{value_of};

mod table;

use indexmap::IndexMap;
use kishu_heap::{CallFault, Heap, Node};
use kishu_meaning::{Budget, Key, KeyPart, NodeId, Steps, Value, class_name};
use kishu_methods::{call_method, has_method};
use std::alloc::{AllocError, Global};
use std::marker::Brand;
use std::rc::RcStr;
use std::sync::ledger::{Blank, Ledger};
use std::test::Fail;

// ---- what may be handed to a call

pub(crate) fn is_sound(heap: &Heap, value: &Value) -> bool
    ensures { result ≡ is_sound (length heap.now) (value_of value.now) }
{
    match value {
        Value::Range(_, _, step) => *step != 0,
        Value::Builtin(builtin) => builtin.0 < 14,
        Value::Class(class) => class.0 < 25,
        Value::Node(id) => id.0 < heap.len(),
        Value::None | Value::Bool(_) | Value::Int(_) | Value::Text(_) => true,
    }
}

fn each_is_sound(heap: &Heap, values: &[Value]) -> bool
    ensures { result ≡ list_all (λ v. is_sound (length heap.now) (value_of v)) values.now }
{
    values.iter().all(|value| is_sound(heap, value))
}

pub(crate) fn are_sound(heap: &Heap, values: &[Value]) -> bool
    ensures { result ≡ are_sound (length heap.now) (map value_of values.now) }
{
    each_is_sound(heap, values)
}

pub(crate) fn has_room(heap: &Heap, left: u64) -> bool
    ensures { result ≡ true → length heap.now + left < 2 ^ 32 - 16 }
{
    left <= 1000 && heap.len() < 1000
}

// ---- values that are read

// A value that is no node. A text stands behind a mark.
pub(crate) fn part(alloc: Global, written: &str) -> Result<Value, AllocError> {
    match written.split_once('\'') {
        Some((_, text)) => Ok(Value::Text(RcStr::from_str(alloc, text)?)),
        None => Ok(plain(written)),
    }
}

fn plain(written: &str) -> Value {
    if written == "None" {
        return Value::None;
    }
    if written == "True" || written == "False" {
        return Value::Bool(written == "True");
    }
    Value::Int(number(written))
}

fn number(written: &str) -> i128 {
    written.parse::<i128>().unwrap_or(0)
}

fn parts(alloc: Global, written: &str) -> Result<Vec<Value>, AllocError> {
    let mut values = Vec::new(alloc);
    for one in written.split('~') {
        if !one.is_empty() {
            values.push(part(alloc, one)?)?;
        }
    }
    Ok(values)
}

pub(crate) fn range(alloc: Global, written: &str) -> Result<Value, AllocError> {
    let bounds = parts(alloc, written)?;
    match bounds.as_slice() {
        [Value::Int(start), Value::Int(stop), Value::Int(step)] => {
            Ok(Value::Range(*start, *stop, *step))
        }
        _ => Ok(Value::None),
    }
}

fn key_part(value: &Value) -> Result<KeyPart, AllocError> {
    match value {
        Value::Bool(holds) => Ok(KeyPart::Bool(*holds)),
        Value::Int(number) => Ok(KeyPart::Int(*number)),
        Value::Text(text) => Ok(KeyPart::Text(text.clone()?)),
        Value::None | Value::Range(..) | Value::Builtin(_) | Value::Class(_) | Value::Node(_) => {
            Ok(KeyPart::None)
        }
    }
}

fn key_parts(alloc: Global, written: &str) -> Result<Vec<KeyPart>, AllocError> {
    let mut key_parts = Vec::new(alloc);
    for value in &parts(alloc, written)? {
        key_parts.push(key_part(value)?)?;
    }
    Ok(key_parts)
}

pub(crate) fn key(alloc: Global, written: &str) -> Result<Key, AllocError> {
    match written.split_once("tuple~") {
        Some((_, written)) => Ok(Key::Tuple(key_parts(alloc, written)?)),
        None => match key_part(&part(alloc, written)?)? {
            KeyPart::None => Ok(Key::None),
            KeyPart::Bool(holds) => Ok(Key::Bool(holds)),
            KeyPart::Int(number) => Ok(Key::Int(number)),
            KeyPart::Text(text) => Ok(Key::Text(text)),
        },
    }
}

fn new_list(alloc: Global, heap: &mut Heap, items: &[Value]) -> Result<Value, AllocError> {
    if heap.len() >= 1000 {
        return Ok(Value::None);
    }
    let id = heap.make(Node::List(Vec::new(alloc)))?;
    for item in items {
        if id.0 < heap.len() && is_sound(heap, item) {
            heap.push(id, item.copied()?)?;
        }
    }
    Ok(Value::Node(id))
}

pub(crate) fn new_tuple(heap: &mut Heap, items: Vec<Value>) -> Result<Value, AllocError> {
    if heap.len() >= 1000 || !are_sound(heap, items.as_slice()) {
        return Ok(Value::None);
    }
    Ok(Value::Node(heap.make(Node::Tuple(items))?))
}

pub(crate) fn new_dict(alloc: Global, heap: &mut Heap) -> Result<NodeId, AllocError> {
    if heap.len() >= 1000 {
        return Ok(NodeId(0));
    }
    heap.make(Node::Dict(IndexMap::new(alloc)))
}

pub(crate) fn new_object(alloc: Global, heap: &mut Heap) -> Result<NodeId, AllocError> {
    if heap.len() >= 1000 {
        return Ok(NodeId(0));
    }
    heap.make(Node::Object(IndexMap::new(alloc)))
}

fn insert(alloc: Global, id: NodeId, entry: &str, heap: &mut Heap) -> Result<(), AllocError> {
    let Some((written, value)) = entry.split_once('=') else {
        return Ok(());
    };
    let value = item(alloc, value, heap)?;
    if id.0 < heap.len() && is_sound(heap, &value) {
        heap.insert(id, key(alloc, written)?, value)?;
    }
    Ok(())
}

fn insert_part(alloc: Global, id: NodeId, entry: &str, heap: &mut Heap) -> Result<(), AllocError> {
    let Some((written, value)) = entry.split_once('=') else {
        return Ok(());
    };
    let value = part(alloc, value)?;
    if id.0 < heap.len() && is_sound(heap, &value) {
        heap.insert(id, key(alloc, written)?, value)?;
    }
    Ok(())
}

fn dict_of_parts(alloc: Global, written: &str, heap: &mut Heap) -> Result<Value, AllocError> {
    let id = new_dict(alloc, heap)?;
    for entry in written.split('~') {
        insert_part(alloc, id, entry, heap)?;
    }
    Ok(Value::Node(id))
}

// A value whose parts are no nodes.
fn item(alloc: Global, written: &str, heap: &mut Heap) -> Result<Value, AllocError> {
    let (kind, inside) = written.split_once('~').unwrap_or((written, ""));
    if kind == "itself" {
        return Ok(Value::Node(NodeId(0)));
    }
    if kind == "list" {
        return new_list(alloc, heap, parts(alloc, inside)?.as_slice());
    }
    if kind == "tuple" {
        let items = parts(alloc, inside)?;
        return new_tuple(heap, items);
    }
    if kind == "dict" {
        return dict_of_parts(alloc, inside, heap);
    }
    if kind == "range" {
        return range(alloc, inside);
    }
    part(alloc, written)
}

fn items(alloc: Global, written: &str, heap: &mut Heap) -> Result<Vec<Value>, AllocError> {
    let mut values = Vec::new(alloc);
    for one in written.split(';') {
        if !one.is_empty() {
            values.push(item(alloc, one, heap)?)?;
        }
    }
    Ok(values)
}

fn dict_of_items(alloc: Global, written: &str, heap: &mut Heap) -> Result<Value, AllocError> {
    let id = new_dict(alloc, heap)?;
    for entry in written.split(';') {
        insert(alloc, id, entry, heap)?;
    }
    Ok(Value::Node(id))
}

// A dict is the first node of the heap, and so is a list or a tuple without nodes in it.
fn receiver(alloc: Global, written: &str, heap: &mut Heap) -> Result<Value, AllocError> {
    let (kind, inside) = written.split_once(';').unwrap_or((written, ""));
    if kind == "list" {
        let items = items(alloc, inside, heap)?;
        return new_list(alloc, heap, items.as_slice());
    }
    if kind == "tuple" {
        let items = items(alloc, inside, heap)?;
        return new_tuple(heap, items);
    }
    if kind == "dict" {
        return dict_of_items(alloc, inside, heap);
    }
    part(alloc, written)
}

// ---- values that are told

fn told(alloc: Global, value: &Value) -> Result<String, AllocError> {
    match value {
        Value::None => String::from_str(alloc, "None"),
        Value::Bool(true) => String::from_str(alloc, "True"),
        Value::Bool(false) => String::from_str(alloc, "False"),
        Value::Int(number) => format!(in alloc; "{number}"),
        Value::Text(text) => {
            let text = text.as_str();
            format!(in alloc; "'{text}'")
        }
        Value::Node(_) => String::from_str(alloc, "node"),
        Value::Range(..) | Value::Builtin(_) | Value::Class(_) => String::from_str(alloc, "other"),
    }
}

fn told_part(alloc: Global, part: &KeyPart) -> Result<String, AllocError> {
    match part {
        KeyPart::None => told(alloc, &Value::None),
        KeyPart::Bool(holds) => told(alloc, &Value::Bool(*holds)),
        KeyPart::Int(number) => told(alloc, &Value::Int(*number)),
        KeyPart::Text(text) => told(alloc, &Value::Text(text.clone()?)),
    }
}

fn told_parts(alloc: Global, parts: &[KeyPart]) -> Result<String, AllocError> {
    let mut all = String::from_str(alloc, "(")?;
    for part in parts {
        all.push_str(told_part(alloc, part)?.as_str())?;
        all.push(',')?;
    }
    all.push(')')?;
    Ok(all)
}

fn told_key(alloc: Global, key: &Key) -> Result<String, AllocError> {
    match key {
        Key::None => told(alloc, &Value::None),
        Key::Bool(holds) => told(alloc, &Value::Bool(*holds)),
        Key::Int(number) => told(alloc, &Value::Int(*number)),
        Key::Text(text) => told(alloc, &Value::Text(text.clone()?)),
        Key::Tuple(parts) => told_parts(alloc, parts.as_slice()),
    }
}

fn told_items(alloc: Global, items: &[Value]) -> Result<String, AllocError> {
    let mut all = String::new(alloc);
    for item in items {
        all.push_str(told(alloc, item)?.as_str())?;
        all.push(',')?;
    }
    Ok(all)
}

fn told_entries(alloc: Global, entries: &IndexMap<Key, Value>) -> Result<String, AllocError> {
    let mut all = String::new(alloc);
    for (key, value) in entries.iter() {
        let key = told_key(alloc, key)?;
        let value = told(alloc, value)?;
        all.push_str(format!(in alloc; "{key}: {value},")?.as_str())?;
    }
    Ok(all)
}

fn told_node(alloc: Global, node: &Node) -> Result<String, AllocError> {
    match node {
        Node::List(items) => {
            let items = told_items(alloc, items.as_slice())?;
            format!(in alloc; "[{items}]")
        }
        Node::Tuple(items) => {
            let items = told_items(alloc, items.as_slice())?;
            format!(in alloc; "({items})")
        }
        Node::Dict(entries) => {
            let entries = told_entries(alloc, entries)?;
            format!(in alloc; "{{{entries}}}")
        }
        Node::Object(_) | Node::Function(_) | Node::Exception(..) => {
            String::from_str(alloc, "other")
        }
    }
}

fn shown<L: Ledger>(
    alloc: Global,
    value: &Value,
    heap: &Heap,
    steps: &mut Steps<L>,
) -> Result<String, AllocError> {
    match value {
        Value::Node(id) if id.0 < heap.len() => told_node(alloc, heap.node(*id, steps)),
        _ => told(alloc, value),
    }
}

fn told_fault<L: Ledger>(
    alloc: Global,
    fault: &CallFault,
    heap: &Heap,
    steps: &mut Steps<L>,
) -> Result<String, AllocError> {
    match fault {
        CallFault::Raise { class, text } => {
            let class = class_name(*class);
            let text = text.as_str();
            format!(in alloc; "{class}: {text}")
        }
        CallFault::RaiseWith { class, value } => {
            let class = class_name(*class);
            let value = shown(alloc, value, heap, steps)?;
            format!(in alloc; "{class}({value})")
        }
        CallFault::Spent => String::from_str(alloc, "spent"),
        CallFault::NoMemory => Err(AllocError),
    }
}

// ---- the rows

// What a call gives, the steps that it takes and the receiver then.
fn called<L: Ledger>(
    alloc: Global,
    receiver: &Value,
    name: &str,
    args: &[Value],
    left: u64,
    heap: &mut Heap,
    steps: &mut Steps<L>,
) -> Result<String, AllocError> {
    if !is_sound(heap, receiver) || !are_sound(heap, args) || !has_room(heap, left) {
        return String::from_str(alloc, "not a call");
    }
    if !has_method(receiver, name, heap, steps) {
        return String::from_str(alloc, "no method");
    }
    let mut budget = Budget { left, depth: 0 };
    let given = match call_method(alloc, receiver, name, args, heap, &mut budget, steps) {
        Ok(value) => shown(alloc, &value, heap, steps)?,
        Err(fault) => told_fault(alloc, &fault, heap, steps)?,
    };
    let taken = left.saturating_sub(budget.left);
    let after = shown(alloc, receiver, heap, steps)?;
    format!(in alloc; "{given}|{taken}|{after}")
}

// The same of a call as a row has it.
fn answer<L: Ledger>(alloc: Global, row: &RcStr, blank: Blank) -> Result<String, AllocError>
    requires name { blank.name ≡ L.name }
    requires parts { blank.parts ≡ L.parts }
    requires some { 0 < L.parts }
{
    let row = row.as_str();
    let (written, rest) = row.split_once('|').unwrap_or((row, ""));
    let (name, rest) = rest.split_once('|').unwrap_or((rest, ""));
    let (args, left) = rest.split_once('|').unwrap_or((rest, ""));
    let mut heap = Heap::new(alloc);
    let receiver = receiver(alloc, written, &mut heap)?;
    let args = items(alloc, args, &mut heap)?;
    let left = left.parse::<u64>().unwrap_or(0);
    let mut steps = Steps::<L>::new(blank);
    called(
        alloc,
        &receiver,
        name,
        args.as_slice(),
        left,
        &mut heap,
        &mut steps,
    )
}

// The same of a call as it is written.
fn answered(alloc: Global, call: &str) -> Result<String, AllocError> {
    let call = RcStr::from_str(alloc, call)?;
    answer::<Brand>(alloc, &call, Blank::new(1))
}

// Whether a call gives and leaves what its row says.
fn holds(alloc: Global, row: &str) -> Result<bool, AllocError> {
    let (call, want) = row.split_once('\x1d').unwrap_or((row, ""));
    Ok(answered(alloc, call)?.as_str() == want)
}

#[test]
fn rows(rt: HostRuntime) -> Result<(), Fail> {
    let alloc = rt.alloc();
    let mut count: usize = 0;
    for row in table::ROWS.split('\x1e') {
        if !row.is_empty() {
            assert!(rt; holds(alloc, row)?, "at {row}");
            count = count.wrapping_add(1);
        }
    }
    assert!(rt; count == table::COUNT);
    Ok(())
}

/// Calls of methods that a value of another kind has.
const OF_ANOTHER_KIND: [&str; 5] = [
    "list;|get||9",
    "tuple;|append||9",
    "dict;|keys||9",
    "'a|upper||9",
    "1|count||9",
];

// Whether a value lacks the method.
fn is_missing(alloc: Global, call: &str) -> Result<bool, AllocError> {
    Ok(answered(alloc, call)?.as_str() == "no method")
}

#[test]
fn methods_of_a_kind(rt: HostRuntime) -> Result<(), Fail> {
    let alloc = rt.alloc();
    for call in &OF_ANOTHER_KIND {
        assert!(rt; is_missing(alloc, call)?, "at {call}");
    }
    Ok(())
}
