// Nodes.
ghost use Rattle.std.specs.Prelude.{◌≡◌, map, option_map};
ghost use Rattle.kishu_meaning.specs.values.Values.{value_of};
ghost use Rattle.kishu_meaning.specs.values.Nodes.{list_in, tuple_in, dict_in, object_in};

use crate::function::FunctionNode;
use indexmap::IndexMap;
use kishu_meaning::{ClassId, Key, Value};
use std::rc::RcStr;

/// A node of the heap: what has an identity and can be changed.
#[derive(Drop)]
pub enum Node {
    List(Vec<Value>),
    Tuple(Vec<Value>),
    /// In the order of insertion.
    Dict(IndexMap<Key, Value>),
    /// The attributes, in the order of their first setting.
    Object(IndexMap<RcStr, Value>),
    Function(FunctionNode),
    /// The class and the arguments.
    Exception(ClassId, Vec<Value>),
}

impl Node {
    ghost use Rattle.kishu_heap.specs.Cells.{node_of, entries_of, attributes_of};

    /// The items of a list.
    pub fn list(&self) -> Option<&[Value]>
        ensures { option_map (λ s. map value_of s.now) result ≡ list_in (node_of self.now) }
    {
        match self {
            Node::List(items) => Some(items.as_slice()),
            Node::Tuple(_)
            | Node::Dict(_)
            | Node::Object(_)
            | Node::Function(_)
            | Node::Exception(..) => None,
        }
    }

    /// The items of a tuple.
    pub fn tuple(&self) -> Option<&[Value]>
        ensures { option_map (λ s. map value_of s.now) result ≡ tuple_in (node_of self.now) }
    {
        match self {
            Node::Tuple(items) => Some(items.as_slice()),
            Node::List(_)
            | Node::Dict(_)
            | Node::Object(_)
            | Node::Function(_)
            | Node::Exception(..) => None,
        }
    }

    /// The entries of a dict.
    pub fn dict(&self) -> Option<&IndexMap<Key, Value>>
        ensures { option_map (λ m. entries_of m.now.entries) result ≡ dict_in (node_of self.now) }
    {
        match self {
            Node::Dict(entries) => Some(entries),
            Node::List(_)
            | Node::Tuple(_)
            | Node::Object(_)
            | Node::Function(_)
            | Node::Exception(..) => None,
        }
    }

    /// The attributes of an object.
    pub fn object(&self) -> Option<&IndexMap<RcStr, Value>>
        ensures { option_map (λ m. attributes_of m.now.entries) result ≡ object_in (node_of self.now) }
    {
        match self {
            Node::Object(attributes) => Some(attributes),
            Node::List(_)
            | Node::Tuple(_)
            | Node::Dict(_)
            | Node::Function(_)
            | Node::Exception(..) => None,
        }
    }
}
