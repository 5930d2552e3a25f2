// One code cell changed in a notebook's value. Nothing here takes memory.
ghost use Rattle.std.specs.Prelude.{◌≡◌, codes};
ghost use Rattle.serde_json.specs.View.{view, items_view, members_view};
ghost use Rattle.kishu_notebook.specs.Places.{item_changed};
ghost use Rattle.kishu_model.specs.notebooks.Setting.{members_changed, changed_at, in_cells, with_run};

use serde_json::{Map, Value};

/// Sets the value at a key, where there is one.
fn set_member(members: &mut Map<String, Value>, key: &str, value: Value)
    ensures { members_view members.new.entries ≡ members_changed key.now (λ _. view value) (members_view members.old.entries) }
{
    if let Some(place) = members.get_mut(key) {
        *place = value;
    }
}

/// Sets the outputs and the count among the members of a cell.
fn set_members(members: &mut Map<String, Value>, outputs: Value, count: Value)
    ensures { members_view members.new.entries
        ≡ members_changed (codes "execution_count") (λ _. view count)
        (members_changed (codes "outputs") (λ _. view outputs) (members_view members.old.entries)) }
{
    set_member(members, "outputs", outputs);
    set_member(members, "execution_count", count);
}

/// Sets the outputs and the count of a cell.
fn set_run(cell: &mut Value, outputs: Value, count: Value)
    ensures { view cell.new ≡ with_run (view outputs) (view count) (view cell.old) }
{
    if let Some(members) = cell.as_object_mut() {
        set_members(members, outputs, count);
    }
}

/// The same of the cell at a place in a list.
fn set_run_in_items(items: &mut Vec<Value>, place: usize, outputs: Value, count: Value)
    ensures { items_view items.new.items
        ≡ item_changed place (with_run (view outputs) (view count)) (items_view items.old.items) }
{
    if let Some(cell) = items.get_mut(place) {
        set_run(cell, outputs, count);
    }
}

/// The same, where a value is the list.
fn set_run_in_cells(cells: &mut Value, place: usize, outputs: Value, count: Value)
    ensures { view cells.new
        ≡ in_cells (item_changed place (with_run (view outputs) (view count))) (view cells.old) }
{
    if let Some(items) = cells.as_array_mut() {
        set_run_in_items(items, place, outputs, count);
    }
}

/// The same of the cell at a place in the list among the members of a notebook.
fn set_run_in_members(members: &mut Map<String, Value>, place: usize, outputs: Value, count: Value)
    ensures { members_view members.new.entries
        ≡ members_changed (codes "cells")
        (in_cells (item_changed place (with_run (view outputs) (view count))))
        (members_view members.old.entries) }
{
    if let Some(cells) = members.get_mut("cells") {
        set_run_in_cells(cells, place, outputs, count);
    }
}

/// The same of the cell at a place in a notebook's value.
pub(crate) fn set_run_at(value: &mut Value, place: usize, outputs: Value, count: Value)
    ensures { view value.new
        ≡ changed_at (codes "cells")
        (in_cells (item_changed place (with_run (view outputs) (view count)))) (view value.old) }
{
    if let Some(members) = value.as_object_mut() {
        set_run_in_members(members, place, outputs, count);
    }
}
