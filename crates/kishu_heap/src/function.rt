// Functions.
ghost use Rattle.kishu_language.specs.Limits.{longest_text};
ghost use Rattle.std.specs.Prelude.{◌≡◌, ◌≤◌, length};
ghost use Rattle.std.specs.Rc.{rc_str_bytes};
ghost use Rattle.kishu_language.specs.trees.Fits.{IsCodeOf};
ghost use Rattle.kishu_meaning.specs.values.Sound.{default_count};
ghost use Rattle.kishu_language.specs.trees.Tree.{definition_of};

use kishu_language::{Def, Profile};
use kishu_meaning::Value;
use std::rc::{Rc, RcStr};

/// A function: its code with the profile under which it is read, its tree, and the values of its
/// defaults in order.
#[derive(Drop)]
pub struct FunctionNode {
    pub profile: Profile,
    pub code: RcStr,
    pub def: Rc<Def>,
    pub defaults: Vec<Value>,
    ghost short: { length (rc_str_bytes code) ≤ longest_text },
    ghost read: { ∥ IsCodeOf profile (rc_str_bytes code) (definition_of def.value) ∥₁ },
    ghost filled: { length defaults.items ≡ default_count (definition_of def.value) },
}
