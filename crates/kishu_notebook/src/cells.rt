// What cells have, and which texts their code cells have.
ghost use Rattle.std.specs.Prelude.{◌≡◌, is_some, option_map, option_and_then, unwrap_or, IfOk, map, string_bytes, false};
ghost use Rattle.std.specs.List.{list_all};
ghost use Rattle.std.specs.Rc.{rc_str_bytes};
ghost use Rattle.serde_json.specs.Find.{get, as_array};
ghost use Rattle.serde_json.specs.View.{view, items_view};
ghost use Rattle.kishu_model.specs.Reading as reading;
ghost use Rattle.kishu_model.specs.notebooks.Cells as spec;
ghost use Rattle.kishu_notebook.specs.Places.{code_places};
ghost use Rattle.kishu_model.specs.notebooks.Cells.{whole_in};

use serde_json::Value;
use std::alloc::{AllocError, Global};
use std::rc::RcStr;

/// The text at a key.
pub(crate) fn text_at<'v>(value: &'v Value, key: &str) -> Option<&'v str>
    ensures { option_map (λ t. t.now) result ≡ reading.text_at key.now (view value.now) }
{
    value.get(key).and_then(Value::as_str)
}

/// Whether an object stands at a key.
pub(crate) fn has_object(value: &Value, key: &str) -> bool
    ensures { result ≡ spec.has_object key.now (view value.now) }
{
    match value.get(key) {
        Some(found) => found.is_object(),
        None => false,
    }
}

/// The list at a key.
pub(crate) fn list_at<'v>(value: &'v Value, key: &str) -> Option<&'v Vec<Value>>
    ensures { option_map (λ list. items_view list.now.items) result ≡ option_and_then as_array (get key.now (view value.now)) }
{
    value.get(key).and_then(Value::as_array)
}

/// The whole number from 0 at a key.
pub(crate) fn whole_at(value: &Value, key: &str) -> Option<u64>
    ensures { result ≡ option_and_then whole_in (get key.now (view value.now)) }
{
    value.get(key).and_then(Value::as_u64)
}

// ---- the kind

#[tactic(auto, unfolding(kishu_model::specs::notebooks::Cells::is_code))]
pub(crate) fn is_code(cell: &Value) -> bool
    ensures { result ≡ spec.is_code (view cell.now) }
{
    match text_at(cell, "cell_type") {
        Some(word) => word == "code",
        None => false,
    }
}

#[tactic(auto, unfolding(kishu_model::specs::notebooks::Cells::has_kind))]
fn has_kind(cell: &Value) -> bool
    ensures { result ≡ spec.has_kind (view cell.now) }
{
    match text_at(cell, "cell_type") {
        Some(word) => word == "code" || word == "markdown" || word == "raw",
        None => false,
    }
}

// ---- the id

fn is_id_char(byte: u8) -> bool
    ensures { result ≡ spec.is_id_char byte }
{
    byte.is_ascii_alphanumeric() || byte == b'_' || byte == b'-'
}

fn are_id_chars(text: &[u8]) -> bool
    ensures { result ≡ list_all spec.is_id_char text.now }
{
    text.iter().all(|byte| is_id_char(*byte))
}

#[tactic(auto, unfolding(kishu_model::specs::notebooks::Cells::is_id))]
fn is_id(text: &str) -> bool
    ensures { result ≡ spec.is_id text.now }
{
    !text.is_empty() && text.len() <= 64 && are_id_chars(text.as_bytes())
}

/// The id of a cell. Of one without an id it is the empty text, which is none.
pub(crate) fn id_of(cell: &Value) -> &str
    ensures { result.now ≡ spec.id_of (view cell.now) }
{
    match text_at(cell, "id") {
        Some(id) => id,
        None => "",
    }
}

// ---- the source

fn are_texts(lines: &Vec<Value>) -> bool
    ensures { result ≡ spec.are_texts (items_view lines.now.items) }
{
    for line in lines {
        if !line.is_string() {
            return false;
        }
    }
    true
}

fn is_source(value: &Value) -> bool
    ensures { result ≡ spec.is_source (view value.now) }
{
    match value {
        Value::String(_) => true,
        Value::Array(lines) => are_texts(lines),
        Value::Null => false,
        Value::Bool(_) => false,
        Value::Number(_) => false,
        Value::Object(_) => false,
    }
}

#[tactic(auto, unfolding(kishu_model::specs::notebooks::Cells::has_source))]
fn has_source(cell: &Value) -> bool
    ensures { result ≡ spec.has_source (view cell.now) }
{
    match cell.get("source") {
        Some(source) => is_source(source),
        None => false,
    }
}

/// A text. Of what is no text it is the empty one.
fn text_in(value: &Value) -> &str
    ensures { result.now ≡ spec.text_in (view value.now) }
{
    match value.as_str() {
        Some(text) => text,
        None => "",
    }
}

fn joined(alloc: Global, lines: &Vec<Value>) -> Result<String, AllocError>
    ensures { IfOk result (λ text. string_bytes text ≡ spec.joined (items_view lines.now.items)) }
{
    let mut text = String::new(alloc);
    for line in lines {
        text.push_str(text_in(line))?;
    }
    Ok(text)
}

fn source_in(alloc: Global, value: &Value) -> Result<RcStr, AllocError>
    ensures { IfOk result (λ text. rc_str_bytes text ≡ spec.source_in (view value.now)) }
{
    match value {
        Value::String(text) => RcStr::from_str(alloc, text.as_str()),
        Value::Array(lines) => {
            let text = joined(alloc, lines)?;
            RcStr::from_str(alloc, text.as_str())
        }
        Value::Null => RcStr::from_str(alloc, ""),
        Value::Bool(_) => RcStr::from_str(alloc, ""),
        Value::Number(_) => RcStr::from_str(alloc, ""),
        Value::Object(_) => RcStr::from_str(alloc, ""),
    }
}

/// The text that a cell runs.
#[tactic(auto, unfolding(kishu_model::specs::notebooks::Cells::source_of))]
fn source_of(alloc: Global, cell: &Value) -> Result<RcStr, AllocError>
    ensures { IfOk result (λ text. rc_str_bytes text ≡ spec.source_of (view cell.now)) }
{
    match cell.get("source") {
        Some(source) => source_in(alloc, source),
        None => RcStr::from_str(alloc, ""),
    }
}

// ---- outputs and count

fn are_outputs(outputs: &Vec<Value>) -> bool
    ensures { result ≡ spec.are_outputs (items_view outputs.now.items) }
{
    for output in outputs {
        if text_at(output, "output_type").is_none() {
            return false;
        }
    }
    true
}

#[tactic(auto, unfolding(kishu_model::specs::notebooks::Cells::has_outputs))]
fn has_outputs(cell: &Value) -> bool
    ensures { result ≡ spec.has_outputs (view cell.now) }
{
    match list_at(cell, "outputs") {
        Some(outputs) => are_outputs(outputs),
        None => false,
    }
}

fn is_count(value: &Value) -> bool
    ensures { result ≡ spec.is_count (view value.now) }
{
    match value {
        Value::Null => true,
        Value::Number(number) => number.is_u64(),
        Value::Bool(_) => false,
        Value::String(_) => false,
        Value::Array(_) => false,
        Value::Object(_) => false,
    }
}

#[tactic(auto, unfolding(kishu_model::specs::notebooks::Cells::has_count))]
fn has_count(cell: &Value) -> bool
    ensures { result ≡ spec.has_count (view cell.now) }
{
    match cell.get("execution_count") {
        Some(count) => is_count(count),
        None => false,
    }
}

/// Whether a value is a cell.
#[tactic(auto, unfolding(kishu_model::specs::notebooks::Cells::is_cell))]
pub(crate) fn is_cell(value: &Value) -> bool
    ensures { result ≡ spec.is_cell (view value.now) }
{
    has_kind(value)
        && is_id(id_of(value))
        && has_object(value, "metadata")
        && has_source(value)
        && (!is_code(value) || has_outputs(value) && has_count(value))
}

// ---- the code cells

/// The texts of the code cells among cells.
pub(crate) fn sources_in(alloc: Global, cells: &Vec<Value>) -> Result<Vec<RcStr>, AllocError>
    ensures { IfOk result (λ sources. map rc_str_bytes sources.items ≡ spec.sources_in (items_view cells.now.items)) }
{
    let mut sources = Vec::new(alloc);
    for cell in cells {
        if is_code(cell) {
            sources.push(source_of(alloc, cell)?)?;
        }
    }
    Ok(sources)
}

/// At which places the code cells stand among cells.
pub(crate) fn code_places(alloc: Global, cells: &Vec<Value>) -> Result<Vec<usize>, AllocError>
    ensures { IfOk result (λ places. places.items ≡ code_places 0 (items_view cells.now.items)) }
{
    let mut places = Vec::new(alloc);
    for place in 0..cells.len() {
        if is_code(&cells[place]) {
            places.push(place)?;
        }
    }
    Ok(places)
}
