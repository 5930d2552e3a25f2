// The record of the names that were accessed: in byte order, each once.
ghost use Rattle.std.specs.Prelude.{◌≡◌, ◌<◌, OnOk, OnErr};
ghost use Rattle.std.specs.Rc.{rc_str_bytes};
ghost use Rattle.std.specs.Vec.{vec_len, vec_capacity};
ghost use Rattle.kishu_meaning.specs.moments.Accesses.{with_access, with_accesses};
ghost use Rattle.kishu_names.specs.Record.{Rises, texts_of};

use std::alloc::AllocError;
use std::rc::RcStr;

/// Records a name. Where there is no memory for it, the record stays.
pub(crate) fn note(accessed: &mut Vec<RcStr>, name: RcStr) -> Result<(), AllocError>
    requires { Rises (texts_of accessed.old.items) }
    ensures ok { OnOk result (texts_of accessed.new.items ≡ with_access (rc_str_bytes name) (texts_of accessed.old.items)) }
    ensures err { OnErr result (accessed.new.items ≡ accessed.old.items) }
{
    accessed.reserve(1)?;
    note_in_room(accessed, name);
    Ok(())
}

/// Records a name where there is room for one.
pub(crate) fn note_in_room(accessed: &mut Vec<RcStr>, name: RcStr)
    requires order { Rises (texts_of accessed.old.items) }
    requires room { vec_len accessed.old < vec_capacity accessed.old }
    ensures { texts_of accessed.new.items ≡ with_access (rc_str_bytes name) (texts_of accessed.old.items) }
{
    if let Err(place) = accessed.as_slice().binary_search(&name) {
        accessed.insert(place, name).unwrap();
    }
}

/// Records names. Where there is no memory for them, some aren't.
pub(crate) fn note_all(accessed: &mut Vec<RcStr>, names: Vec<RcStr>) -> Result<(), AllocError>
    requires { Rises (texts_of accessed.old.items) }
    ensures order { Rises (texts_of accessed.new.items) }
    ensures ok { OnOk result (texts_of accessed.new.items ≡ with_accesses (texts_of names.items) (texts_of accessed.old.items)) }
{
    for name in names {
        note(accessed, name)?;
    }
    Ok(())
}
