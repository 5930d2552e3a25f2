// Values and keys as texts.
ghost use Rattle.std.specs.Prelude.{◌≡◌, ◌++◌, IfOk, codes, decimal};
ghost use Rattle.std.specs.Rc.{rc_str_bytes};
ghost use Rattle.std.specs.Str.{encode_utf8_all};
ghost use Rattle.kishu_bytes.specs.Numbers.{profile_number};
ghost use Rattle.kishu_meaning.specs.comparing.Show as show;
ghost use Rattle.kishu_meaning.specs.values.Keys.{key_of};
ghost use Rattle.kishu_meaning.specs.values.Values.{value_of};
ghost use Rattle.kishu_model.specs.requests.Inspect.{value_text};
ghost use Rattle.kishu_objects.specs.Picture.{place};
ghost use Rattle.kishu_inspect.specs.Told.{placed};

use indexmap::IndexSet;
use kishu_language::Profile;
use kishu_meaning::{Key, Value};
use kishu_show::{key_text, plain_text};
use std::alloc::{AllocError, Global};
use std::rc::RcStr;

/// The place of a node among those found.
fn place_of(found: &IndexSet<u32>, id: u32) -> usize
    ensures { result ≡ place found.now.keys id }
{
    match found.get_index_of(&id) {
        Some(place) => place,
        None => found.len(),
    }
}

/// A node by its place among those found.
fn number_text(alloc: Global, found: &IndexSet<u32>, id: u32) -> Result<RcStr, AllocError>
    ensures { IfOk result (λ t. rc_str_bytes t ≡ codes "#" ++ decimal (place found.now.keys id)) }
{
    let place = place_of(found, id);
    let text = format!(in alloc; "#{place}")?;
    RcStr::from_str(alloc, text.as_str())
}

/// The repr of a value that is no node.
fn repr_text(alloc: Global, value: &Value) -> Result<RcStr, AllocError>
    ensures { IfOk result (λ t. rc_str_bytes t ≡ encode_utf8_all (show.repr_text (value_of value.now))) }
{
    let text = plain_text(alloc, value)?;
    RcStr::from_str(alloc, text.as_str())
}

/// A value: a node by its place among those found, and any other by its repr.
pub(crate) fn value_text(
    alloc: Global,
    value: &Value,
    found: &IndexSet<u32>,
) -> Result<RcStr, AllocError>
    ensures { IfOk result (λ t. rc_str_bytes t ≡ value_text (placed found.now.keys value.now)) }
{
    match value {
        Value::Node(id) => number_text(alloc, found, id.0),
        Value::None
        | Value::Bool(_)
        | Value::Int(_)
        | Value::Text(_)
        | Value::Range(..)
        | Value::Builtin(_)
        | Value::Class(_) => repr_text(alloc, value),
    }
}

/// The repr of a key.
pub(crate) fn key_repr(alloc: Global, key: &Key) -> Result<RcStr, AllocError>
    ensures { IfOk result (λ t. rc_str_bytes t ≡ encode_utf8_all (show.key_text (key_of key.now))) }
{
    let text = key_text(alloc, key)?;
    RcStr::from_str(alloc, text.as_str())
}

/// A profile by its number.
pub(crate) fn profile_text(profile: Profile) -> &'static str
    ensures { result.now ≡ decimal (profile_number profile) }
{
    match profile {
        Profile::One => "1",
        Profile::Two => "2",
    }
}
