// Names that are bound to values, without a record of accesses: those of a session, and those of a
// function in progress.
ghost use Rattle.std.specs.Prelude.{◌≡◌, OnOk, OnErr, option_map};
ghost use Rattle.std.specs.Rc.{rc_str_bytes};
ghost use Rattle.kishu_meaning.specs.values.Values.{value_of, find, bind};
ghost use Rattle.kishu_meaning.specs.moments.Accesses.{unbind};
ghost use Rattle.kishu_names.specs.Namespace.{names_of};

use kishu_meaning::Value;
use std::alloc::AllocError;
use std::collections::BTreeMap;
use std::rc::RcStr;

/// The value that a name has among these, where it is bound.
pub fn found<'a>(bound: &'a BTreeMap<RcStr, Value>, name: &str) -> Option<&'a Value>
    ensures { option_map (λ v. value_of v.now) result ≡ find name.now (names_of bound.now.entries) }
{
    bound.get(name)
}

/// Binds a name among these. Where there is no memory for it, they stay.
pub fn set(bound: &mut BTreeMap<RcStr, Value>, name: RcStr, value: Value) -> Result<(), AllocError>
    ensures ok { OnOk result (names_of bound.new.entries ≡ bind (rc_str_bytes name) (value_of value) (names_of bound.old.entries)) }
    ensures err { OnErr result (bound.new.entries ≡ bound.old.entries) }
{
    bound.insert(name, value)?;
    Ok(())
}

/// Takes a name out of these, and answers the value that it had.
pub fn take(bound: &mut BTreeMap<RcStr, Value>, name: &str) -> Option<Value>
    ensures value { option_map value_of result ≡ find name.now (names_of bound.old.entries) }
    ensures names { names_of bound.new.entries ≡ unbind name.now (names_of bound.old.entries) }
{
    bound.remove(name)
}
