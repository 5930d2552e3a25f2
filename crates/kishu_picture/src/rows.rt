// The bytes of nodes.
ghost use Rattle.std.specs.Prelude.{◌≡◌, ◌<◌, ◌^◌, ◌++◌, length, map, OnOk};
ghost use Rattle.std.specs.Rc.{rc_str_bytes};
ghost use Rattle.kishu_meaning.specs.values.Values.{value_of};
ghost use Rattle.kishu_heap.specs.Cells.{node_of, entries_of, attributes_of};
ghost use Rattle.kishu_objects.specs.Shape.{children};
ghost use Rattle.kishu_objects.specs.Bytes.{row_bytes};
ghost use Rattle.kishu_objects.specs.Fits.{AllFit, ValueFits, NodeFits};
ghost use Rattle.kishu_objects.specs.Lists.{AllDiffer};
ghost use Rattle.kishu_bytes.specs.Numbers.{profile_number};
ghost use Rattle.kishu_picture.specs.Rows.{AreFound, EntriesFit, NamesFit, HasShort, HasShortNames, values_in};
ghost use Rattle.kishu_picture.specs.Rows.{values_at, entries_at, attributes_at, node_at_places};
ghost use Rattle.kishu_picture.specs.Rows.{list_bytes, dict_bytes, object_bytes, function_bytes};

use crate::parts::{put_name, put_number, put_text};
use crate::values::{put_key, put_value};
use indexmap::{IndexMap, IndexSet};
use kishu_hash::NearHash;
use kishu_heap::{FunctionNode, Node};
use kishu_language::Profile;
use kishu_meaning::{Key, Value};
use std::alloc::AllocError;
use std::rc::RcStr;

/// Puts values behind their number.
fn put_values(
    out: &mut Vec<u8>,
    values: &[Value],
    found: &IndexSet<u32, NearHash>,
    next: &mut usize,
) -> Result<(), AllocError>
    requires met { AreFound found.now.keys (map value_of values.now) }
    requires differ { AllDiffer found.now.keys }
    requires few { length found.now.keys < 2 ^ 32 }
    requires short { length (list_bytes found.now.keys values.now) < 2 ^ 32 }
    ensures bytes { OnOk result (out.new.items ≡ out.old.items ++ list_bytes found.now.keys values.now) }
    ensures fits { OnOk result (AllFit ValueFits (values_at found.now.keys values.now)) }
{
    put_number(out, values.len() as u32)?;
    for value in values {
        put_value(out, value, found, next)?;
    }
    Ok(())
}

/// Puts the entries of a dict behind their number.
fn put_entries(
    out: &mut Vec<u8>,
    entries: &IndexMap<Key, Value>,
    found: &IndexSet<u32, NearHash>,
    next: &mut usize,
) -> Result<(), AllocError>
    requires met { AreFound found.now.keys (values_in (entries_of entries.now.entries)) }
    requires differ { AllDiffer found.now.keys }
    requires few { length found.now.keys < 2 ^ 32 }
    requires short { length (dict_bytes found.now.keys entries.now.entries) < 2 ^ 32 }
    ensures bytes { OnOk result
        (out.new.items ≡ out.old.items ++ dict_bytes found.now.keys entries.now.entries) }
    ensures fits { OnOk result (EntriesFit (entries_at found.now.keys entries.now.entries)) }
{
    put_number(out, entries.len() as u32)?;
    for i in 0..entries.len() {
        let Some((key, value)) = entries.get_index(i) else {
            unreachable!()
        };
        put_key(out, key)?;
        put_value(out, value, found, next)?;
    }
    Ok(())
}

/// Puts the attributes of an object behind their number.
fn put_attributes(
    out: &mut Vec<u8>,
    attributes: &IndexMap<RcStr, Value>,
    found: &IndexSet<u32, NearHash>,
    next: &mut usize,
) -> Result<(), AllocError>
    requires met { AreFound found.now.keys (values_in (attributes_of attributes.now.entries)) }
    requires differ { AllDiffer found.now.keys }
    requires few { length found.now.keys < 2 ^ 32 }
    requires names { HasShort (attributes_of attributes.now.entries) }
    requires short { length (object_bytes found.now.keys attributes.now.entries) < 2 ^ 32 }
    ensures bytes { OnOk result
        (out.new.items ≡ out.old.items ++ object_bytes found.now.keys attributes.now.entries) }
    ensures fits { OnOk result (NamesFit (attributes_at found.now.keys attributes.now.entries)) }
{
    put_number(out, attributes.len() as u32)?;
    for i in 0..attributes.len() {
        let Some((name, value)) = attributes.get_index(i) else {
            unreachable!()
        };
        put_name(out, name.as_str())?;
        put_value(out, value, found, next)?;
    }
    Ok(())
}

/// A profile as a byte.
fn profile_number(profile: Profile) -> u8
    ensures { result ≡ profile_number profile }
{
    match profile {
        Profile::One => 1,
        Profile::Two => 2,
    }
}

/// Puts a function's profile, its code and its defaults behind.
fn put_function(
    out: &mut Vec<u8>,
    function: &FunctionNode,
    found: &IndexSet<u32, NearHash>,
    next: &mut usize,
) -> Result<(), AllocError>
    requires met { AreFound found.now.keys (map value_of function.now.defaults.items) }
    requires differ { AllDiffer found.now.keys }
    requires few { length found.now.keys < 2 ^ 32 }
    requires short { length (function_bytes found.now.keys function.now) < 2 ^ 32 }
    ensures bytes { OnOk result
        (out.new.items ≡ out.old.items ++ function_bytes found.now.keys function.now) }
    ensures fits { OnOk result (AllFit ValueFits (values_at found.now.keys function.now.defaults.items)) }
    ensures code { length (rc_str_bytes function.now.code) < 2 ^ 32 }
{
    out.push(profile_number(function.profile))?;
    put_text(out, function.code.as_str())?;
    put_values(out, function.defaults.as_slice(), found, next)
}

/// Puts a node behind the number of its kind. Its values get the places of their nodes among those
/// found.
pub(crate) fn put_row(
    out: &mut Vec<u8>,
    node: &Node,
    found: &IndexSet<u32, NearHash>,
    next: &mut usize,
) -> Result<(), AllocError>
    requires met { AreFound found.now.keys (children (node_of node.now)) }
    requires differ { AllDiffer found.now.keys }
    requires few { length found.now.keys < 2 ^ 32 }
    requires names { HasShortNames (node_of node.now) }
    requires short { length (row_bytes (node_at_places found.now.keys node.now)) < 2 ^ 32 }
    ensures bytes { OnOk result
        (out.new.items ≡ out.old.items ++ row_bytes (node_at_places found.now.keys node.now)) }
    ensures fits { OnOk result (NodeFits (node_at_places found.now.keys node.now)) }
{
    match node {
        Node::List(items) => {
            out.push(1)?;
            put_values(out, items.as_slice(), found, next)
        }
        Node::Tuple(items) => {
            out.push(2)?;
            put_values(out, items.as_slice(), found, next)
        }
        Node::Dict(entries) => {
            out.push(3)?;
            put_entries(out, entries, found, next)
        }
        Node::Object(attributes) => {
            out.push(4)?;
            put_attributes(out, attributes, found, next)
        }
        Node::Function(function) => {
            out.push(5)?;
            put_function(out, function, found, next)
        }
        Node::Exception(class, arguments) => {
            out.push(6)?;
            out.push(class.0)?;
            put_values(out, arguments.as_slice(), found, next)
        }
    }
}
