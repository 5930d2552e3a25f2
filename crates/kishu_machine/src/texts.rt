// Texts.
ghost use Rattle.std.specs.List.{list_all};
ghost use Rattle.std.specs.Prelude.{IfOk, IsTrue, OnOk, nat_lt, ◌++◌, ◌≡◌};
ghost use Rattle.std.specs.Rc.{rc_str_bytes};
ghost use Rattle.std.specs.Str.{bytes_eq, chars};
ghost use Rattle.std.specs.String.{string_bytes};

use std::alloc::{AllocError, Global};
use std::rc::RcStr;

/// Puts a text behind what is there.
pub(crate) fn push_text(out: &mut String, text: &str) -> Result<(), AllocError>
    ensures { OnOk result (chars (string_bytes out.new) ≡ chars (string_bytes out.old) ++ chars text.now) }
{
    out.push_str(text)
}

/// A text that was made, as values hold it: the same bytes. The error is want of memory.
pub fn shared(text: String) -> Result<RcStr, AllocError>
    ensures { IfOk result (λ t. rc_str_bytes t ≡ string_bytes text) }
{
    Ok(RcStr::from_string(text)?)
}

/// Whether two texts have the same code points.
pub fn is_same_text(a: &str, b: &str) -> bool
    ensures { result ≡ bytes_eq a.now b.now }
{
    a == b
}
