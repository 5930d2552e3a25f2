// What changes one node. A node of another kind stays.
ghost use Rattle.std.specs.Prelude.{◌≡◌, ◌<◌, [], IfSome, OnOk, OnErr, length, map, option_map};
ghost use Rattle.std.specs.Rc.{rc_str_bytes};
ghost use Rattle.kishu_meaning.specs.values.Keys.{key_of};
ghost use Rattle.kishu_meaning.specs.values.Values.{value_of};
ghost use Rattle.kishu_meaning.specs.values.Nodes.{on_dict, list_in, last_item, value_under, attribute, set_item, push, pop, replace_list, insert, remove, set_attr, remove_attr};
ghost use Rattle.kishu_heap.specs.Cells.{node_of};

use crate::node::Node;
use kishu_meaning::{Key, Value};
use std::alloc::AllocError;
use std::rc::RcStr;

pub(crate) fn set_item(node: &mut Node, at: usize, value: Value)
    requires { IfSome (list_in (node_of node.old)) (λ vs. at < length vs) }
    ensures { node_of node.new ≡ set_item at (value_of value) (node_of node.old) }
{
    if let Node::List(items) = node {
        items[at] = value;
    }
}

pub(crate) fn push(node: &mut Node, value: Value) -> Result<(), AllocError>
    ensures ok { OnOk result (node_of node.new ≡ push (value_of value) (node_of node.old)) }
    ensures err { OnErr result (node_of node.new ≡ node_of node.old) }
{
    if let Node::List(items) = node {
        items.push(value)?;
    }
    Ok(())
}

pub(crate) fn pop(node: &mut Node) -> Option<Value>
    ensures value { option_map value_of result ≡ last_item (node_of node.old) }
    ensures node { node_of node.new ≡ pop (node_of node.old) }
{
    if let Node::List(items) = node {
        items.pop()
    } else {
        None
    }
}

pub(crate) fn replace_list(node: &mut Node, new: Vec<Value>)
    ensures { node_of node.new ≡ replace_list (map value_of new.items) (node_of node.old) }
{
    if let Node::List(items) = node {
        *items = new;
    }
}

pub(crate) fn clear(node: &mut Node)
    ensures { node_of node.new ≡ on_dict (λ entries. []) (node_of node.old) }
{
    if let Node::Dict(entries) = node {
        entries.clear();
    }
}

pub(crate) fn insert(node: &mut Node, key: Key, value: Value) -> Result<(), AllocError>
    ensures ok { OnOk result (node_of node.new ≡ insert (key_of key) (value_of value) (node_of node.old)) }
    ensures err { OnErr result (node_of node.new ≡ node_of node.old) }
{
    if let Node::Dict(entries) = node {
        entries.insert(key, value)?;
    }
    Ok(())
}

pub(crate) fn remove(node: &mut Node, key: &Key) -> Option<Value>
    ensures value { option_map value_of result ≡ value_under (key_of key.now) (node_of node.old) }
    ensures node { node_of node.new ≡ remove (key_of key.now) (node_of node.old) }
{
    if let Node::Dict(entries) = node {
        entries.shift_remove(key)
    } else {
        None
    }
}

pub(crate) fn set_attr(node: &mut Node, name: RcStr, value: Value) -> Result<(), AllocError>
    ensures ok { OnOk result (node_of node.new ≡ set_attr (rc_str_bytes name) (value_of value) (node_of node.old)) }
    ensures err { OnErr result (node_of node.new ≡ node_of node.old) }
{
    if let Node::Object(attributes) = node {
        attributes.insert(name, value)?;
    }
    Ok(())
}

pub(crate) fn remove_attr(node: &mut Node, name: &str) -> Option<Value>
    ensures value { option_map value_of result ≡ attribute name.now (node_of node.old) }
    ensures node { node_of node.new ≡ remove_attr name.now (node_of node.old) }
{
    if let Node::Object(attributes) = node {
        attributes.shift_remove(name)
    } else {
        None
    }
}
