// Calls of builtin functions and classes, written and told as texts (tools/cells/builtin_rows.py).
ghost use Rattle.std.specs.Prelude.{◌≡◌, ◌<◌};

mod table;

use crate::methods::{are_sound, has_room, is_sound, new_dict, new_tuple, part, range};
use kishu_builtins::{call_builtin, construct};
use kishu_heap::{CallFault, Heap, Node};
use kishu_meaning::{
    Budget, Builtin, ClassId, Key, KeyPart, NodeId, Steps, Value, builtin_named, class_name,
    class_named,
};
use std::alloc::{AllocError, Global};
use std::marker::Brand;
use std::rc::RcStr;
use std::sync::ledger::{Blank, Ledger};
use std::test::Fail;

// ---- values that are read

// A list, a tuple and a dict stand in the heap already.
fn value(alloc: Global, written: &str) -> Result<Value, AllocError> {
    let (kind, inside) = written.split_once('~').unwrap_or((written, ""));
    match kind {
        "list" => Ok(Value::Node(NodeId(0))),
        "tuple" => Ok(Value::Node(NodeId(1))),
        "dict" => Ok(Value::Node(NodeId(2))),
        "class" => Ok(Value::Class(ClassId(inside.parse::<u8>().unwrap_or(0)))),
        "range" => range(alloc, inside),
        _ => part(alloc, written),
    }
}

fn values(alloc: Global, written: &str) -> Result<Vec<Value>, AllocError> {
    let mut values = Vec::new(alloc);
    for one in written.split(';') {
        if !one.is_empty() {
            values.push(value(alloc, one)?)?;
        }
    }
    Ok(values)
}

fn new_list(alloc: Global, written: &str, heap: &mut Heap) -> Result<(), AllocError> {
    let items = values(alloc, written)?;
    if heap.len() < 1000 && are_sound(heap, items.as_slice()) {
        let _ = heap.make(Node::List(items))?;
    }
    Ok(())
}

fn insert(id: NodeId, key: Key, value: Value, heap: &mut Heap) -> Result<(), AllocError> {
    if id.0 < heap.len() && is_sound(heap, &value) {
        heap.insert(id, key, value)?;
    }
    Ok(())
}

// [3, True, 2], (int, str) and {(): 1, (1,): 2}
fn filled(alloc: Global) -> Result<Heap, AllocError> {
    let mut heap = Heap::new(alloc);
    new_list(alloc, "3;True;2", &mut heap)?;
    let classes = values(alloc, "class~2;class~6")?;
    let _ = new_tuple(&mut heap, classes)?;
    let dict = new_dict(alloc, &mut heap)?;
    insert(dict, Key::Tuple(Vec::new(alloc)), Value::Int(1), &mut heap)?;
    let one = vec![in alloc; KeyPart::Int(1)]?;
    insert(dict, Key::Tuple(one), Value::Int(2), &mut heap)?;
    Ok(heap)
}

// ---- values that are told

fn told_plain(alloc: Global, value: &Value) -> Result<String, AllocError> {
    match value {
        Value::None => String::from_str(alloc, "None"),
        Value::Bool(true) => String::from_str(alloc, "True"),
        Value::Bool(false) => String::from_str(alloc, "False"),
        Value::Int(number) => format!(in alloc; "{number}"),
        Value::Text(text) => {
            let text = text.as_str();
            format!(in alloc; "'{text}'")
        }
        Value::Range(start, stop, step) => format!(in alloc; "range {start} {stop} {step}"),
        Value::Builtin(_) => String::from_str(alloc, "builtin"),
        Value::Class(_) => String::from_str(alloc, "class"),
        Value::Node(_) => String::from_str(alloc, "node"),
    }
}

fn told_items(alloc: Global, items: &[Value]) -> Result<String, AllocError> {
    let mut all = String::new(alloc);
    for item in items {
        all.push_str(told_plain(alloc, item)?.as_str())?;
        all.push(',')?;
    }
    Ok(all)
}

fn told_node(alloc: Global, node: &Node) -> Result<String, AllocError> {
    match node {
        Node::List(items) => {
            let items = told_items(alloc, items.as_slice())?;
            format!(in alloc; "list {items}")
        }
        Node::Tuple(items) => {
            let items = told_items(alloc, items.as_slice())?;
            format!(in alloc; "tuple {items}")
        }
        Node::Exception(class, items) => {
            let class = class_name(*class);
            let items = told_items(alloc, items.as_slice())?;
            format!(in alloc; "{class} {items}")
        }
        Node::Dict(entries) => {
            let count = entries.len();
            format!(in alloc; "dict of {count}")
        }
        Node::Object(_) => String::from_str(alloc, "object"),
        Node::Function(_) => String::from_str(alloc, "function"),
    }
}

// A node has its number in front.
fn told<L: Ledger>(
    alloc: Global,
    value: &Value,
    heap: &Heap,
    steps: &mut Steps<L>,
) -> Result<String, AllocError> {
    match value {
        Value::Node(id) if id.0 < heap.len() => {
            let number = id.0;
            let node = told_node(alloc, heap.node(*id, steps))?;
            format!(in alloc; "{number} {node}")
        }
        _ => told_plain(alloc, value),
    }
}

fn told_fault(alloc: Global, fault: &CallFault) -> Result<String, AllocError> {
    match fault {
        CallFault::Raise { class, text } => {
            let class = class_name(*class);
            let text = text.as_str();
            format!(in alloc; "{class}: {text}")
        }
        CallFault::RaiseWith { class, .. } => String::from_str(alloc, class_name(*class)),
        CallFault::Spent => String::from_str(alloc, "spent"),
        CallFault::NoMemory => Err(AllocError),
    }
}

// ---- the rows

// What a builtin function or a class of this name gives, where the call may be made.
fn called<L: Ledger>(
    alloc: Global,
    name: &str,
    args: &[Value],
    heap: &mut Heap,
    budget: &mut Budget,
    steps: &mut Steps<L>,
) -> Option<Result<Value, CallFault>> {
    if !are_sound(heap, args) || !has_room(heap, budget.left) {
        return None;
    }
    if let Some(class) = class_named(name.as_bytes()) {
        if class.0 < 25 && class.0 != 6 {
            return Some(construct(alloc, class, args, heap, budget, steps));
        }
    }
    if let Some(builtin) = builtin_named(name.as_bytes()) {
        if builtin.0 < 14 && builtin.0 != 10 && builtin.0 != 11 {
            return Some(call_builtin(alloc, builtin, args, heap, budget, steps));
        }
    }
    None
}

// The same, told with the steps that it takes.
fn told_call<L: Ledger>(
    alloc: Global,
    name: &str,
    args: &[Value],
    left: u64,
    heap: &mut Heap,
    steps: &mut Steps<L>,
) -> Result<String, AllocError> {
    let mut budget = Budget { left, depth: 0 };
    let given = match called(alloc, name, args, heap, &mut budget, steps) {
        Some(Ok(value)) => told(alloc, &value, heap, steps)?,
        Some(Err(fault)) => told_fault(alloc, &fault)?,
        None => String::from_str(alloc, "not a call")?,
    };
    let taken = left.saturating_sub(budget.left);
    format!(in alloc; "{given}|{taken}")
}

// The same of a call as a row has it.
fn answer<L: Ledger>(alloc: Global, row: &RcStr, blank: Blank) -> Result<String, AllocError>
    requires name { blank.name ≡ L.name }
    requires parts { blank.parts ≡ L.parts }
    requires some { 0 < L.parts }
{
    let row = row.as_str();
    let (name, rest) = row.split_once('|').unwrap_or((row, ""));
    let (args, left) = rest.split_once('|').unwrap_or((rest, ""));
    let mut heap = filled(alloc)?;
    let args = values(alloc, args)?;
    let left = left.parse::<u64>().unwrap_or(0);
    let mut steps = Steps::<L>::new(blank);
    told_call(alloc, name, args.as_slice(), left, &mut heap, &mut steps)
}

// Whether a call gives and takes what its row says.
fn holds(alloc: Global, row: &str) -> Result<bool, AllocError> {
    let (call, want) = row.split_once('\x1d').unwrap_or((row, ""));
    let call = RcStr::from_str(alloc, call)?;
    let told = answer::<Brand>(alloc, &call, Blank::new(1))?;
    Ok(told.as_str() == want)
}

#[test]
fn rows(rt: HostRuntime) -> Result<(), Fail> {
    let alloc = rt.alloc();
    let mut count: usize = 0;
    for row in table::ROWS.split('\x1e') {
        if !row.is_empty() {
            assert!(rt; holds(alloc, row)?, "at {row}");
            count = count.wrapping_add(1);
        }
    }
    assert!(rt; count == table::COUNT);
    Ok(())
}
