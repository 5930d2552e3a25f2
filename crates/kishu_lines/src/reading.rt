ghost use Rattle.std.specs.Prelude.{◌≡◌, ◌<◌, ◌^◌, Some, length, map, option_map, IfOk, IfSome};
ghost use Rattle.std.specs.Rc.{rc_str_bytes};
ghost use Rattle.serde_json.specs.View.{view, items_view};
ghost use Rattle.kishu_model.specs.Reading as spec;
ghost use Rattle.kishu_model.specs.Reading.{Reads, reading};
ghost use Rattle.kishu_model.specs.Request as asked;
ghost use Rattle.kishu_model.specs.Values.{request_of};
ghost use Rattle.kishu_model.specs.requests.Cells.{HasRoom};

use kishu_model::Request;
use serde_json::Value;
use std::alloc::{AllocError, Global};
use std::rc::RcStr;

/// The request that a line is. `None` says that it is none: it isn't UTF-8, or not JSON that nests at
/// most 127 deep, or its value isn't an object with exactly the keys of one request, each of its kind.
/// Of a key that is repeated the last value counts.
///
/// - `line`: the bytes before the line feed.
///
/// The error is want of memory.
pub fn read_request(alloc: Global, line: &[u8]) -> Result<Option<Request>, AllocError>
    // What is read, worked out from the line.
    ensures ok { IfOk result (λ o. option_map request_of o ≡ reading line.now) }
    // The line's value tells what is read.
    ensures found { IfOk result (λ o. IfSome o (λ q. Reads line.now (request_of q))) }
    // What a line's value tells is read.
    ensures only { (q : asked.Request) → Reads line.now q
        → IfOk result (λ o. option_map request_of o ≡ Some q) }
    // The texts of a line of fewer than 2^24 bytes fit one record.
    ensures room { IfOk result (λ o. IfSome o (λ q. length line.now < 2 ^ 24 → HasRoom (request_of q))) }
{
    request_of_line(alloc, line)
}

fn request_of_line(alloc: Global, line: &[u8]) -> Result<Option<Request>, AllocError>
    ensures { IfOk result (λ o. option_map request_of o ≡ reading line.now) }
{
    match Value::from_slice(alloc, line) {
        Ok(value) => request_in(alloc, &value),
        Err(error) if error.is_memory() => Err(AllocError),
        Err(_) => Ok(None),
    }
}

/// The request that a value tells, if it tells one.
fn request_in(alloc: Global, value: &Value) -> Result<Option<Request>, AllocError>
    ensures { IfOk result (λ o. option_map request_of o ≡ spec.request_in (view value.now)) }
{
    match text_at(value, "op") {
        Some(op) => asked_in(alloc, op, value),
        None => Ok(None),
    }
}

/// The same, where its `op` has been read.
fn asked_in(alloc: Global, op: &str, value: &Value) -> Result<Option<Request>, AllocError>
    ensures { IfOk result (λ o. option_map request_of o ≡ spec.asked_in op.now (view value.now)) }
{
    match op {
        "cell" => cell_in(alloc, value),
        "cells" => cells_in(alloc, value),
        "checkout" => checkout_in(alloc, value),
        "branch" => branch_in(alloc, value),
        "log" => Ok(alone_in(Request::Log, value)),
        "status" => Ok(alone_in(Request::Status, value)),
        "inspect" => Ok(alone_in(Request::Inspect, value)),
        "stored" => stored_in(alloc, value),
        "plan" => plan_in(alloc, value),
        _ => Ok(None),
    }
}

/// A request that has no other key.
fn alone_in(request: Request, value: &Value) -> Option<Request>
    ensures { option_map request_of result ≡ spec.alone_in (request_of request) (view value.now) }
{
    if has_members(value, 1) {
        Some(request)
    } else {
        None
    }
}

fn cell_in(alloc: Global, value: &Value) -> Result<Option<Request>, AllocError>
    ensures { IfOk result (λ o. option_map request_of o ≡ spec.cell_in (view value.now)) }
{
    if !has_members(value, 2) {
        return Ok(None);
    }
    match text_at(value, "text") {
        Some(text) => {
            let text = RcStr::from_str(alloc, text)?;
            Ok(Some(Request::Cell { text }))
        }
        None => Ok(None),
    }
}

fn cells_in(alloc: Global, value: &Value) -> Result<Option<Request>, AllocError>
    ensures { IfOk result (λ o. option_map request_of o ≡ spec.cells_in (view value.now)) }
{
    if !has_members(value, 2) {
        return Ok(None);
    }
    match texts_at(alloc, value, "texts")? {
        Some(texts) => Ok(cells_of_texts(texts)),
        None => Ok(None),
    }
}

/// The request of these cells. Without cells there is none.
fn cells_of_texts(texts: Vec<RcStr>) -> Option<Request>
    ensures { option_map request_of result
        ≡ spec.cells_of_texts (map rc_str_bytes texts.items) }
{
    if texts.is_empty() {
        None
    } else {
        Some(Request::Cells { texts })
    }
}

/// The texts of the list at a key, where there is one and it has nothing else.
fn texts_at(alloc: Global, value: &Value, key: &str) -> Result<Option<Vec<RcStr>>, AllocError>
    ensures { IfOk result (λ o. option_map (λ texts. map rc_str_bytes texts.items) o
        ≡ spec.texts_at key.now (view value.now)) }
{
    match value.get(key).and_then(Value::as_array) {
        Some(items) => texts_in(alloc, items),
        None => Ok(None),
    }
}

/// The texts of a list that has nothing else.
fn texts_in(alloc: Global, items: &Vec<Value>) -> Result<Option<Vec<RcStr>>, AllocError>
    ensures { IfOk result (λ o. option_map (λ texts. map rc_str_bytes texts.items) o
        ≡ spec.texts_in (items_view items.now.items)) }
{
    let mut texts = Vec::new(alloc);
    for item in items {
        match item.as_str() {
            Some(text) => texts.push(RcStr::from_str(alloc, text)?)?,
            None => return Ok(None),
        }
    }
    Ok(Some(texts))
}

fn checkout_in(alloc: Global, value: &Value) -> Result<Option<Request>, AllocError>
    ensures { IfOk result (λ o. option_map request_of o ≡ spec.checkout_in (view value.now)) }
{
    if !has_members(value, 2) {
        return Ok(None);
    }
    match text_at(value, "to") {
        Some(to) => {
            let to = RcStr::from_str(alloc, to)?;
            Ok(Some(Request::Checkout { to }))
        }
        None => Ok(None),
    }
}

fn stored_in(alloc: Global, value: &Value) -> Result<Option<Request>, AllocError>
    ensures { IfOk result (λ o. option_map request_of o ≡ spec.stored_in (view value.now)) }
{
    if !has_members(value, 2) {
        return Ok(None);
    }
    match text_at(value, "of") {
        Some(of) => {
            let of = RcStr::from_str(alloc, of)?;
            Ok(Some(Request::Stored { of }))
        }
        None => Ok(None),
    }
}

fn plan_in(alloc: Global, value: &Value) -> Result<Option<Request>, AllocError>
    ensures { IfOk result (λ o. option_map request_of o ≡ spec.plan_in (view value.now)) }
{
    if !has_members(value, 2) {
        return Ok(None);
    }
    match text_at(value, "to") {
        Some(to) => {
            let to = RcStr::from_str(alloc, to)?;
            Ok(Some(Request::Plan { to }))
        }
        None => Ok(None),
    }
}

fn branch_in(alloc: Global, value: &Value) -> Result<Option<Request>, AllocError>
    ensures { IfOk result (λ o. option_map request_of o ≡ spec.branch_in (view value.now)) }
{
    match text_at(value, "name") {
        Some(name) => branch_named_in(alloc, name, value),
        None => Ok(None),
    }
}

/// A branch of this name, at the head's commit or elsewhere.
fn branch_named_in(alloc: Global, name: &str, value: &Value) -> Result<Option<Request>, AllocError>
    ensures { IfOk result
        (λ o. option_map request_of o ≡ spec.branch_named_in name.now (view value.now)) }
{
    if has_members(value, 2) {
        let name = RcStr::from_str(alloc, name)?;
        return Ok(Some(Request::Branch { name, at: None }));
    }
    branch_at_in(alloc, name, value)
}

/// A branch of this name at what a reference names.
fn branch_at_in(alloc: Global, name: &str, value: &Value) -> Result<Option<Request>, AllocError>
    ensures { IfOk result
        (λ o. option_map request_of o ≡ spec.branch_at_in name.now (view value.now)) }
{
    if !has_members(value, 3) {
        return Ok(None);
    }
    match text_at(value, "at") {
        Some(at) => {
            let name = RcStr::from_str(alloc, name)?;
            let at = Some(RcStr::from_str(alloc, at)?);
            Ok(Some(Request::Branch { name, at }))
        }
        None => Ok(None),
    }
}

/// Whether a value is an object with so many members.
fn has_members(value: &Value, count: usize) -> bool
    ensures { result ≡ spec.has_members count (view value.now) }
{
    match value.as_object() {
        Some(members) => members.len() == count,
        None => false,
    }
}

/// The text at a key.
fn text_at<'v>(value: &'v Value, key: &str) -> Option<&'v str>
    ensures { option_map (λ t. t.now) result ≡ spec.text_at key.now (view value.now) }
{
    value.get(key).and_then(Value::as_str)
}
