// The names of a picture.
ghost use Rattle.std.specs.Prelude.{◌≡◌, ◌+◌, ◌^◌, ℕ, List, IfOk, OnOk};
ghost use Rattle.std.specs.Option.{option_map};
ghost use Rattle.kishu_meaning.specs.values.Values.{find};
ghost use Rattle.kishu_names.specs.Namespace.{names_of};
ghost use Rattle.kishu_objects.specs.Loading.{bind_all};
ghost use Rattle.kishu_loading.specs.Fronts.{front_of, HasRoom, Reads, GoesOn};
ghost use Rattle.kishu_loading.specs.Told.{names_in, names_among, AreSoundNames, KeepLeading, IsNoneOf};
ghost use Rattle.kishu_loading.specs.Seen.{last_name};

use crate::cursor::{Cursor, Stop};
use crate::values::Nodes;
use kishu_meaning::Value;
use kishu_names::Names;
use std::alloc::{AllocError, Global};
use std::rc::RcStr;

/// The last name so far.
fn last_name(names: &[(RcStr, Value)]) -> Option<&str>
    ensures { option_map (λ x. x.now) result ≡ last_name (names_of names.now) }
{
    match names.last() {
        Some((name, _)) => Some(name.as_str()),
        None => None,
    }
}

impl Nodes {
    /// So many names with their values. They rise.
    pub(crate) fn names(
        &self,
        alloc: Global,
        cursor: &mut Cursor,
        count: u32,
    ) -> Result<Vec<(RcStr, Value)>, Stop>
        requires room { HasRoom self.now.base (front_of cursor.old) }
        requires open { self.now.count ≡ None }
        ensures gives { Reads names_in (names_among self.now.base count) cursor.old result cursor.new }
        ensures forward { GoesOn cursor.old result cursor.new }
        ensures sound { IfOk result (AreSoundNames (self.now.base + cursor.new.met)) }
    {
        let mut names = Vec::new(alloc);
        for _turn in 0..count {
            let name = cursor.name(alloc, last_name(&names))?;
            let value = self.value(alloc, cursor)?;
            names.push((name, value))?;
        }
        Ok(names)
    }
}

/// Binds names to values and records nothing. Without memory some of them are bound, and no others.
pub(crate) fn bind(names: &mut Names, all: Vec<(RcStr, Value)>) -> Result<(), AllocError>
    requires { AreSoundNames (2 ^ 32) all }
    ensures bound { OnOk result (names.new.bound ≡ bind_all (names_in all) names.old.bound) }
    ensures others { (x : List ℕ) → IsNoneOf x all → find x names.new.bound ≡ find x names.old.bound }
    ensures sound { (n : ℕ) → AreSoundNames n all → KeepLeading n names.old.bound names.new.bound }
    ensures accessed { names.new.accessed ≡ names.old.accessed }
{
    for (name, value) in all {
        names.restore(name.as_str(), value)?;
    }
    Ok(())
}
