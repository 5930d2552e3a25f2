// Nodes as rows of texts.
ghost use Rattle.std.specs.Prelude.{◌≡◌, ◌∷◌, [], IfOk, OnOk, codes, decimal};
ghost use Rattle.std.specs.Rc.{rc_str_bytes};
ghost use Rattle.kishu_bytes.specs.Numbers.{profile_number};
ghost use Rattle.kishu_meaning.specs.comparing.Show.{class_name as name_of_class};
ghost use Rattle.kishu_names.specs.Record.{texts_of};
ghost use Rattle.kishu_inspect.specs.Told.{Gains, values_told, entries_told, attributes_told, node_told};

use crate::texts::{key_repr, profile_text, value_text};
use indexmap::{IndexMap, IndexSet};
use kishu_heap::{FunctionNode, Node};
use kishu_meaning::{ClassId, Key, Value, class_name};
use std::alloc::{AllocError, Global};
use std::rc::RcStr;

/// Puts the texts of values behind.
fn push_values(
    alloc: Global,
    texts: &mut Vec<RcStr>,
    values: &[Value],
    found: &IndexSet<u32>,
) -> Result<(), AllocError>
    ensures { OnOk result (Gains texts.old.items texts.new.items (values_told found.now.keys values.now)) }
{
    for value in values {
        texts.push(value_text(alloc, value, found)?)?;
    }
    Ok(())
}

/// Puts the texts of entries behind, of each its key's repr and its value.
fn push_entries(
    alloc: Global,
    texts: &mut Vec<RcStr>,
    entries: &IndexMap<Key, Value>,
    found: &IndexSet<u32>,
) -> Result<(), AllocError>
    ensures { OnOk result
        (Gains texts.old.items texts.new.items (entries_told found.now.keys entries.now.entries)) }
{
    for i in 0..entries.len() {
        let Some((key, value)) = entries.get_index(i) else {
            unreachable!()
        };
        texts.push(key_repr(alloc, key)?)?;
        texts.push(value_text(alloc, value, found)?)?;
    }
    Ok(())
}

/// Puts the texts of attributes behind, of each its name and its value.
fn push_attributes(
    alloc: Global,
    texts: &mut Vec<RcStr>,
    attributes: &IndexMap<RcStr, Value>,
    found: &IndexSet<u32>,
) -> Result<(), AllocError>
    ensures { OnOk result
        (Gains texts.old.items texts.new.items (attributes_told found.now.keys attributes.now.entries)) }
{
    for i in 0..attributes.len() {
        let Some((name, value)) = attributes.get_index(i) else {
            unreachable!()
        };
        texts.push(name.clone()?)?;
        texts.push(value_text(alloc, value, found)?)?;
    }
    Ok(())
}

/// A row that begins with this word.
fn row(alloc: Global, word: &str) -> Result<Vec<RcStr>, AllocError>
    ensures { IfOk result (λ v. texts_of v.items ≡ word.now ∷ []) }
{
    let mut texts = Vec::new(alloc);
    texts.push(RcStr::from_str(alloc, word)?)?;
    Ok(texts)
}

fn values_row(
    alloc: Global,
    word: &str,
    values: &[Value],
    found: &IndexSet<u32>,
) -> Result<Vec<RcStr>, AllocError>
    ensures { IfOk result (λ v. texts_of v.items ≡ word.now ∷ values_told found.now.keys values.now) }
{
    let mut texts = row(alloc, word)?;
    push_values(alloc, &mut texts, values, found)?;
    Ok(texts)
}

fn dict_row(
    alloc: Global,
    entries: &IndexMap<Key, Value>,
    found: &IndexSet<u32>,
) -> Result<Vec<RcStr>, AllocError>
    ensures { IfOk result
        (λ v. texts_of v.items ≡ codes "dict" ∷ entries_told found.now.keys entries.now.entries) }
{
    let mut texts = row(alloc, "dict")?;
    push_entries(alloc, &mut texts, entries, found)?;
    Ok(texts)
}

fn object_row(
    alloc: Global,
    attributes: &IndexMap<RcStr, Value>,
    found: &IndexSet<u32>,
) -> Result<Vec<RcStr>, AllocError>
    ensures { IfOk result
        (λ v. texts_of v.items ≡ codes "object" ∷ attributes_told found.now.keys attributes.now.entries) }
{
    let mut texts = row(alloc, "object")?;
    push_attributes(alloc, &mut texts, attributes, found)?;
    Ok(texts)
}

fn function_row(
    alloc: Global,
    function: &FunctionNode,
    found: &IndexSet<u32>,
) -> Result<Vec<RcStr>, AllocError>
    ensures { IfOk result (λ v. texts_of v.items ≡ codes "function"
        ∷ decimal (profile_number function.now.profile) ∷ rc_str_bytes function.now.code
        ∷ values_told found.now.keys function.now.defaults.items) }
{
    let mut texts = row(alloc, "function")?;
    texts.push(RcStr::from_str(alloc, profile_text(function.profile))?)?;
    texts.push(function.code.clone()?)?;
    push_values(alloc, &mut texts, function.defaults.as_slice(), found)?;
    Ok(texts)
}

fn exception_row(
    alloc: Global,
    class: ClassId,
    arguments: &[Value],
    found: &IndexSet<u32>,
) -> Result<Vec<RcStr>, AllocError>
    ensures { IfOk result (λ v. texts_of v.items ≡ codes "exception"
        ∷ name_of_class class.0 ∷ values_told found.now.keys arguments.now) }
{
    let mut texts = row(alloc, "exception")?;
    texts.push(RcStr::from_str(alloc, class_name(class))?)?;
    push_values(alloc, &mut texts, arguments, found)?;
    Ok(texts)
}

/// A node: the word for its kind, and then what it holds. Nodes that it holds are told by their places
/// among those found.
pub(crate) fn node_row(
    alloc: Global,
    node: &Node,
    found: &IndexSet<u32>,
) -> Result<Vec<RcStr>, AllocError>
    ensures { IfOk result (λ v. texts_of v.items ≡ node_told found.now.keys node.now) }
{
    match node {
        Node::List(items) => values_row(alloc, "list", items.as_slice(), found),
        Node::Tuple(items) => values_row(alloc, "tuple", items.as_slice(), found),
        Node::Dict(entries) => dict_row(alloc, entries, found),
        Node::Object(attributes) => object_row(alloc, attributes, found),
        Node::Function(function) => function_row(alloc, function, found),
        Node::Exception(class, arguments) => {
            exception_row(alloc, *class, arguments.as_slice(), found)
        }
    }
}
