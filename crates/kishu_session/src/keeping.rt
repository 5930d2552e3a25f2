// The digests of pictures that are kept of groups.
ghost use Rattle.std.specs.Prelude.{◌≡◌, if◌then◌else◌, List, ℕ, None, Some, OnOk, map};
ghost use Rattle.kishu_store.specs.Groups.{Group, is_one_of};
ghost use Rattle.kishu_store.specs.Tables.{groups_in};
ghost use Rattle.kishu_graph.specs.Kept.{row_of};
ghost use Rattle.kishu_graph.specs.Tables.{group_of};
ghost use Rattle.kishu_checkout.specs.Fetched.{contents};
ghost use Rattle.kishu_checkout.specs.Plans.{groups_dropped, rows_loaded};
ghost use Rattle.kishu_delta.specs.Compared.{Forgets, Holds, half};
ghost use Rattle.kishu_delta.specs.Kept.{digest_of, kept_of};

use kishu_checkout::Plan;
use kishu_delta::Kept;
use kishu_graph::TableRow;
use std::alloc::AllocError;

/// Forgets groups.
fn forget_groups(kept: &mut Kept, groups: &[kishu_graph::Group])
    ensures { Forgets (map group_of groups.now) kept.old kept.new }
{
    for group in groups {
        kept.forget(&group.names);
    }
}

/// Keeps the digests of the pictures of every second row's group, of which the first is one or not.
fn hold_half(
    kept: &mut Kept,
    rows: &[TableRow],
    pictures: &[Vec<u8>],
    first: bool,
) -> Result<(), AllocError>
    ensures { OnOk result ((picture : Group → List ℕ)
        → contents pictures.now ≡ map (λ r. picture r.group) (map row_of rows.now)
        → Holds (half first (map (λ r. (r.group, picture r.group)) (map row_of rows.now)))
        kept.old kept.new) }
{
    let mut takes = first;
    for (row, picture) in rows.iter().zip(pictures) {
        if takes {
            kept.hold(&row.group.names, picture)?;
        }
        takes = !takes;
    }
    Ok(())
}

/// Keeps the digests of the pictures of rows' groups, which stand in the rows' order. Every second one comes
/// first: the nodes of a map are left half empty by keys that come in order, and the others fill them.
fn hold_rows(kept: &mut Kept, rows: &[TableRow], pictures: &[Vec<u8>]) -> Result<(), AllocError>
    ensures { OnOk result ((picture : Group → List ℕ)
        → contents pictures.now ≡ map (λ r. picture r.group) (map row_of rows.now)
        → (g : Group) → kept_of kept.new g
        ≡ (if is_one_of g (groups_in (map row_of rows.now)) then Some (digest_of (picture g))
        else kept_of kept.old g)) }
{
    hold_half(kept, rows, pictures, true)?;
    hold_half(kept, rows, pictures, false)
}

/// Follows a plan that was carried out: the groups that it dropped are forgotten, and the digests of the
/// pictures are kept that it loaded, which stand in its order.
pub(crate) fn keep_carried(
    kept: &mut Kept,
    plan: &Plan,
    pictures: &[Vec<u8>],
) -> Result<(), AllocError>
    ensures { OnOk result ((picture : Group → List ℕ)
        → contents pictures.now ≡ map (λ r. picture r.group) (rows_loaded plan.now)
        → (g : Group) → kept_of kept.new g
        ≡ (if is_one_of g (groups_in (rows_loaded plan.now)) then Some (digest_of (picture g))
        else (if is_one_of g (groups_dropped plan.now) then None else kept_of kept.old g))) }
{
    forget_groups(kept, &plan.drop);
    hold_rows(kept, &plan.load, pictures)
}
