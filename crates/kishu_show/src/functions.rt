// Texts of functions, and of nodes that are being shown already.
ghost use Rattle.std.specs.Prelude.{◌≡◌, ◌++◌, IfOk, OnOk, codes};
ghost use Rattle.std.specs.Rc.{rc_str_bytes};
ghost use Rattle.std.specs.Str.{chars};
ghost use Rattle.std.specs.String.{string_bytes};
ghost use Rattle.kishu_meaning.specs.comparing.Show.{again, class_name, function_name, function_text};
ghost use Rattle.kishu_heap.specs.Cells.{node_of};

use crate::plain::ascii_text;
use crate::pushes::{empty, push_ascii, push_text};
use kishu_heap::{FunctionNode, Node};
use kishu_meaning::{ClassId, class_name};
use std::alloc::{AllocError, Global};

// The name of a function, which stands in its tree.
fn function_name(function: &FunctionNode) -> &str
    ensures { chars result.now ≡ function_name function.now.profile (rc_str_bytes function.now.code) }
{
    function.def.name.as_str()
}

/// The text of a function, which tells its name.
pub(crate) fn function_text(alloc: Global, function: &FunctionNode) -> Result<String, AllocError>
    ensures { IfOk result (λ s. chars (string_bytes s) ≡ function_text function.now.profile (rc_str_bytes function.now.code)) }
{
    let mut out = empty(alloc);
    push_ascii(&mut out, "<function ")?;
    push_text(&mut out, function_name(function))?;
    push_ascii(&mut out, ">")?;
    Ok(out)
}

fn exception_again(alloc: Global, class: ClassId) -> Result<String, AllocError>
    ensures { IfOk result (λ s. chars (string_bytes s) ≡ class_name class.0 ++ codes "(...)") }
{
    let mut out = empty(alloc);
    push_class(&mut out, class)?;
    push_ascii(&mut out, "(...)")?;
    Ok(out)
}

// Puts the name of a class behind what is there.
fn push_class(out: &mut String, class: ClassId) -> Result<(), AllocError>
    ensures { OnOk result (chars (string_bytes out.new) ≡ chars (string_bytes out.old) ++ class_name class.0) }
{
    push_ascii(out, class_name(class))
}

/// The text of a node that is being shown already.
pub(crate) fn again_text(alloc: Global, node: &Node) -> Result<String, AllocError>
    ensures { IfOk result (λ s. chars (string_bytes s) ≡ again (node_of node.now)) }
{
    match node {
        Node::List(_) => ascii_text(alloc, "[...]"),
        Node::Tuple(_) => ascii_text(alloc, "(...)"),
        Node::Dict(_) => ascii_text(alloc, "{...}"),
        Node::Object(_) => ascii_text(alloc, "namespace(...)"),
        Node::Function(function) => function_text(alloc, function),
        Node::Exception(class, _) => exception_again(alloc, *class),
    }
}
