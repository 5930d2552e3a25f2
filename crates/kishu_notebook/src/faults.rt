// The first fault of a value that is no notebook.
ghost use Rattle.std.specs.Prelude.{◌≡◌, ◌<◌, ◌^◌, length, option_map, IfOk, [], vec_len};
ghost use Rattle.serde_json.specs.Events.{items_len};
ghost use Rattle.serde_json.specs.View.{view, items_view};
ghost use Rattle.kishu_notebook.specs.Values.{key_of, fault_of};
ghost use Rattle.kishu_model.specs.notebooks.Notebook as spec;
ghost use Rattle.kishu_model.specs.notebooks.Notebook.{cells_of};

use crate::cells::{has_object, id_of, is_cell, list_at, whole_at};
use crate::floats::has_float;
use crate::refusal::{NotebookKey, NotebookRefusal};
use serde_json::Value;
use std::alloc::{AllocError, Global};
use std::collections::BTreeSet;

#[tactic(auto, unfolding(kishu_model::specs::notebooks::Notebook::has_format))]
fn has_format(value: &Value) -> bool
    ensures { result ≡ spec.has_format (view value.now) }
{
    match whole_at(value, "nbformat") {
        Some(version) => version == 4,
        None => false,
    }
}

/// The first key that is missing or has another kind of value.
#[tactic(auto, unfolding(kishu_model::specs::notebooks::Notebook::missing_key))]
fn missing_key(value: &Value) -> Option<NotebookKey>
    ensures { option_map key_of result ≡ spec.missing_key (view value.now) }
{
    if !has_format(value) {
        Some(NotebookKey::Format)
    } else if whole_at(value, "nbformat_minor").is_none() {
        Some(NotebookKey::Minor)
    } else if !has_object(value, "metadata") {
        Some(NotebookKey::Metadata)
    } else if list_at(value, "cells").is_none() {
        Some(NotebookKey::Cells)
    } else {
        None
    }
}

/// The minor version, where it is another than the one that is read.
#[tactic(auto, unfolding(kishu_model::specs::notebooks::Notebook::other_minor))]
fn other_minor(value: &Value) -> Option<u64>
    ensures { result ≡ spec.other_minor (view value.now) }
{
    match whole_at(value, "nbformat_minor") {
        Some(5) => None,
        Some(minor) => Some(minor),
        None => Some(0),
    }
}

/// The first value that is no cell.
fn bad_cell(cells: &Vec<Value>) -> Option<u32>
    requires { vec_len cells.now < 2 ^ 32 }
    ensures { result ≡ spec.bad_cell_from 0 (items_view cells.now.items) }
{
    for index in 0..cells.len() {
        if !is_cell(&cells[index]) {
            return Some(index as u32);
        }
    }
    None
}

/// The first cell whose id stood in an earlier one.
fn repeated_id(alloc: Global, cells: &Vec<Value>) -> Result<Option<u32>, AllocError>
    requires { vec_len cells.now < 2 ^ 32 }
    ensures { IfOk result (λ o. o ≡ spec.repeated_from [] 0 (items_view cells.now.items)) }
{
    let mut seen = BTreeSet::new(alloc);
    for index in 0..cells.len() {
        let cell = &cells[index];
        let id = id_of(cell);
        let added = seen.insert(id)?;
        if !added {
            return Ok(Some(index as u32));
        }
    }
    Ok(None)
}

/// The first fault in the cells, or in the numbers.
#[tactic(auto, unfolding(kishu_model::specs::notebooks::Notebook::fault_from, kishu_model::specs::notebooks::Notebook::unwhole))]
fn fault_in_cells(
    alloc: Global,
    value: &Value,
    cells: &Vec<Value>,
) -> Result<Option<NotebookRefusal>, AllocError>
    requires { vec_len cells.now < 2 ^ 32 }
    ensures { IfOk result (λ o. option_map fault_of o ≡ spec.fault_from (items_view cells.now.items) (view value.now)) }
{
    if let Some(index) = bad_cell(cells) {
        return Ok(Some(NotebookRefusal::BadCell { index }));
    }
    if let Some(index) = repeated_id(alloc, cells)? {
        return Ok(Some(NotebookRefusal::RepeatedId { index }));
    }
    if has_float(value) {
        return Ok(Some(NotebookRefusal::NotWhole));
    }
    Ok(None)
}

/// The first fault, where the value is no notebook.
#[tactic(auto, unfolding(kishu_model::specs::notebooks::Notebook::fault_in))]
pub(crate) fn fault_in(alloc: Global, value: &Value) -> Result<Option<NotebookRefusal>, AllocError>
    requires { items_len (cells_of (view value.now)) < 2 ^ 32 }
    ensures { IfOk result (λ o. option_map fault_of o ≡ spec.fault_in (view value.now)) }
{
    if let Some(key) = missing_key(value) {
        return Ok(Some(NotebookRefusal::NotNotebook { key }));
    }
    if let Some(minor) = other_minor(value) {
        return Ok(Some(NotebookRefusal::Version { minor }));
    }
    match list_at(value, "cells") {
        Some(cells) => fault_in_cells(alloc, value, cells),
        None => Ok(None),
    }
}
