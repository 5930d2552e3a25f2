// Texts put together.
ghost use Rattle.std.specs.Prelude.{◌≡◌, ◌++◌, [], IsTrue, OnOk, nat_lt};
ghost use Rattle.std.specs.Fmt.{signed_decimal};
ghost use Rattle.std.specs.List.{list_all};
ghost use Rattle.std.specs.Str.{chars};
ghost use Rattle.std.specs.String.{string_bytes};

use kishu_num::write_int;
use std::alloc::{AllocError, Global};

/// No text yet.
pub(crate) fn empty(alloc: Global) -> String
    ensures { chars (string_bytes result) ≡ [] }
{
    String::new(alloc)
}

/// Puts a text behind what is there.
pub(crate) fn push_text(out: &mut String, text: &str) -> Result<(), AllocError>
    ensures { OnOk result (chars (string_bytes out.new) ≡ chars (string_bytes out.old) ++ chars text.now) }
{
    out.push_str(text)
}

/// Puts a text of ASCII characters behind what is there.
pub(crate) fn push_ascii(out: &mut String, text: &str) -> Result<(), AllocError>
    requires { IsTrue (list_all (λ c. nat_lt c 128) text.now) }
    ensures { OnOk result (chars (string_bytes out.new) ≡ chars (string_bytes out.old) ++ text.now) }
{
    push_text(out, text)
}

/// Puts the decimal text of a number behind what is there.
pub(crate) fn push_number(alloc: Global, out: &mut String, number: i128) -> Result<(), AllocError>
    ensures { OnOk result (chars (string_bytes out.new) ≡ chars (string_bytes out.old) ++ signed_decimal number) }
{
    let text = write_int(alloc, number)?;
    push_text(out, text.as_str())
}
