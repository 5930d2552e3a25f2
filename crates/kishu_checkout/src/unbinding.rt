// The unbinding of groups.
ghost use Rattle.std.specs.Prelude.{◌≡◌, OnOk, map};
ghost use Rattle.kishu_meaning.specs.moments.Accesses.{with_accesses};
ghost use Rattle.kishu_names.specs.Record.{texts_of};
ghost use Rattle.kishu_graph.specs.Tables.{group_of};
ghost use Rattle.kishu_history.specs.Checkout.{unbind_all};
ghost use Rattle.kishu_checkout.specs.Groups.{StaySound};
ghost use Rattle.kishu_checkout.specs.Plans.{names_of};

use kishu_graph::Group;
use kishu_names::Names;
use std::alloc::AllocError;
use std::rc::RcStr;

/// Unbinds names, and records them.
fn unbind_names(group: &[RcStr], names: &mut Names) -> Result<(), AllocError>
    ensures bound { OnOk result (names.new.bound ≡ unbind_all (texts_of group.now) names.old.bound) }
    ensures accessed { OnOk result
        (names.new.accessed ≡ with_accesses (texts_of group.now) names.old.accessed) }
    ensures sound { StaySound names.old.bound names.new.bound }
{
    for name in group {
        names.unbind(name.as_str())?;
    }
    Ok(())
}

/// Unbinds the names of groups, and records them.
pub(crate) fn unbind_groups(groups: &[Group], names: &mut Names) -> Result<(), AllocError>
    ensures bound { OnOk result
        (names.new.bound ≡ unbind_all (names_of (map group_of groups.now)) names.old.bound) }
    ensures accessed { OnOk result
        (names.new.accessed ≡ with_accesses (names_of (map group_of groups.now)) names.old.accessed) }
    ensures sound { StaySound names.old.bound names.new.bound }
{
    for group in groups {
        unbind_names(&group.names, names)?;
    }
    Ok(())
}
