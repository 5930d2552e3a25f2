ghost use Rattle.std.specs.Prelude.{◌≡◌, ℕ, map, option_map, IsSome, IfOk, IfSome};
ghost use Rattle.std.specs.Rc.{rc_str_bytes};
ghost use Rattle.serde_json.specs.Data.{array, no_members, object, string};
ghost use Rattle.serde_json.specs.View.{items_of, view};
ghost use Rattle.kishu_model.specs.Answers as spec;
ghost use Rattle.kishu_model.specs.Answers.{answer_data, branch_data, entry_data, row_data, ran_cell, ran_cells, counted_data, checked_out, branched, logged, told_status, inspected, told_stored, told_plan, node_data, groups_data, with_texts, refused};
ghost use Rattle.kishu_meaning.specs.values.Values.{report_of};
ghost use Rattle.kishu_model.specs.Values.{counted_of, entry_of, named_of, numbered, refusal_of, row_of, texts_of};

use kishu_model::{CellResult, Counted, Outcome, PathRow, Refusal};
use kishu_outputs::outputs_json;
use serde_json::{Map, Value, json};
use std::alloc::{AllocError, Global};
use std::rc::RcStr;

/// A cell was run and committed.
pub(crate) fn cell_json(
    alloc: Global,
    commit: u32,
    count: u64,
    ran: &CellResult,
) -> Result<Value, AllocError>
    ensures { IfOk result (λ v. view v ≡ answer_data (ran_cell commit count (report_of ran.now))) }
{
    let outputs = outputs_json(alloc, ran, count)?;
    json!(in alloc; {
        "answer": "cell",
        "commit": commit,
        "count": count,
        "outcome": outcome_word(ran.outcome),
        "outputs": outputs
    })
}

/// Cells were run and committed.
pub(crate) fn cells_json(
    alloc: Global,
    commit: u32,
    results: &[Counted],
) -> Result<Value, AllocError>
    ensures { IfOk result
        (λ v. view v ≡ answer_data (ran_cells commit (map counted_of results.now))) }
{
    let results = results_json(alloc, results)?;
    json!(in alloc; {"answer": "cells", "commit": commit, "results": results})
}

/// What the runs of cells gave.
fn results_json(alloc: Global, results: &[Counted]) -> Result<Value, AllocError>
    ensures { IfOk result
        (λ v. view v ≡ array (items_of (map counted_data (map counted_of results.now)))) }
{
    let mut items = Vec::new(alloc);
    for counted in results {
        let item = counted_json(alloc, counted)?;
        items.push(item)?;
    }
    Ok(Value::Array(items))
}

/// What the run of a cell gave, among others.
fn counted_json(alloc: Global, counted: &Counted) -> Result<Value, AllocError>
    ensures { IfOk result (λ v. view v ≡ counted_data (counted_of counted.now)) }
{
    let outputs = outputs_json(alloc, &counted.result, counted.count)?;
    json!(in alloc; {
        "count": counted.count,
        "outcome": outcome_word(counted.result.outcome),
        "outputs": outputs
    })
}

/// The word for how a run ended.
fn outcome_word(outcome: Outcome) -> &'static str
    ensures { result.now ≡ spec.outcome_word outcome }
{
    match outcome {
        Outcome::Done => "ok",
        Outcome::Raised => "error",
        Outcome::Stopped => "stopped",
    }
}

/// The head went to a commit, or to a branch.
pub(crate) fn checkout_json(
    alloc: Global,
    commit: u32,
    head: &Option<RcStr>,
) -> Result<Value, AllocError>
    ensures { IfOk result
        (λ v. view v ≡ answer_data (checked_out commit (option_map rc_str_bytes head.now))) }
{
    let head = name_or_null(alloc, head)?;
    json!(in alloc; {"answer": "checkout", "commit": commit, "head": head})
}

/// The name of a branch, or null.
fn name_or_null(alloc: Global, name: &Option<RcStr>) -> Result<Value, AllocError>
    ensures { IfOk result (λ v. view v ≡ branch_data (option_map rc_str_bytes name.now)) }
{
    match name {
        None => Ok(Value::Null),
        Some(name) => text_json(alloc, name),
    }
}

/// A text.
fn text_json(alloc: Global, text: &RcStr) -> Result<Value, AllocError>
    ensures { IfOk result (λ v. view v ≡ string (rc_str_bytes text.now)) }
{
    Ok(Value::String(String::from_str(alloc, text.as_str())?))
}

/// A branch was made.
pub(crate) fn branch_json(alloc: Global, commit: u32, name: &RcStr) -> Result<Value, AllocError>
    ensures { IfOk result (λ v. view v ≡ answer_data (branched commit (rc_str_bytes name.now))) }
{
    let name = text_json(alloc, name)?;
    json!(in alloc; {"answer": "branch", "commit": commit, "name": name})
}

/// The branches, and the path back from the head's commit.
pub(crate) fn log_json(
    alloc: Global,
    branches: &[(RcStr, u32)],
    path: &[PathRow],
) -> Result<Value, AllocError>
    ensures { IfOk result
        (λ v. view v ≡ answer_data (logged (map entry_of branches.now) (map row_of path.now))) }
{
    let branches = branches_json(alloc, branches)?;
    let path = path_json(alloc, path)?;
    json!(in alloc; {"answer": "log", "branches": branches, "path": path})
}

/// Branches, each with its commit.
fn branches_json(alloc: Global, branches: &[(RcStr, u32)]) -> Result<Value, AllocError>
    ensures { IfOk result
        (λ v. view v ≡ array (items_of (map entry_data (map entry_of branches.now)))) }
{
    let mut items = Vec::new(alloc);
    for branch in branches {
        let item = entry_json(alloc, &branch.0, branch.1)?;
        items.push(item)?;
    }
    Ok(Value::Array(items))
}

/// A branch with its commit.
fn entry_json(alloc: Global, name: &RcStr, commit: u32) -> Result<Value, AllocError>
    ensures { IfOk result (λ v. view v ≡ entry_data (rc_str_bytes name.now, commit)) }
{
    let name = text_json(alloc, name)?;
    json!(in alloc; {"commit": commit, "name": name})
}

/// Commits, each with its parent.
fn path_json(alloc: Global, path: &[PathRow]) -> Result<Value, AllocError>
    ensures { IfOk result (λ v. view v ≡ array (items_of (map row_data (map row_of path.now)))) }
{
    let mut items = Vec::new(alloc);
    for row in path {
        let item = row_json(alloc, row)?;
        items.push(item)?;
    }
    Ok(Value::Array(items))
}

/// A commit with its parent.
fn row_json(alloc: Global, row: &PathRow) -> Result<Value, AllocError>
    ensures { IfOk result (λ v. view v ≡ row_data (row_of row.now)) }
{
    let line = text_json(alloc, &row.line)?;
    json!(in alloc; {
        "cells": row.cells,
        "commit": row.commit,
        "line": line,
        "parent": row.parent
    })
}

/// Where the head stands, what is bound there, and how large the store is.
pub(crate) fn status_json(
    alloc: Global,
    branch: &Option<RcStr>,
    commit: u32,
    commits: u32,
    names: &[RcStr],
    records: u32,
) -> Result<Value, AllocError>
    ensures { IfOk result (λ v. view v ≡ answer_data (told_status (record {
      branch = option_map rc_str_bytes branch.now;
      commit = commit;
      commits = commits;
      names = map rc_str_bytes names.now;
      records = records;
    }))) }
{
    let branch = name_or_null(alloc, branch)?;
    let names = texts_json(alloc, names)?;
    json!(in alloc; {
        "answer": "status",
        "branch": branch,
        "commit": commit,
        "commits": commits,
        "names": names,
        "records": records
    })
}

/// Texts.
fn texts_json(alloc: Global, texts: &[RcStr]) -> Result<Value, AllocError>
    ensures { IfOk result
        (λ v. view v ≡ array (items_of (map string (map rc_str_bytes texts.now)))) }
{
    let mut items = Vec::new(alloc);
    for text in texts {
        let item = text_json(alloc, text)?;
        items.push(item)?;
    }
    Ok(Value::Array(items))
}

/// What the names are bound to, and the nodes that they reach.
pub(crate) fn inspect_json(
    alloc: Global,
    commit: u32,
    names: &[(RcStr, RcStr)],
    nodes: &[Vec<RcStr>],
) -> Result<Value, AllocError>
    ensures { IfOk result
        (λ v. view v ≡ answer_data (inspected commit (map named_of names.now) (map texts_of nodes.now))) }
{
    let names = named_json(alloc, names)?;
    let nodes = lists_json(alloc, nodes)?;
    json!(in alloc; {"answer": "inspect", "commit": commit, "names": names, "nodes": nodes})
}

/// Texts at their names.
fn named_json(alloc: Global, names: &[(RcStr, RcStr)]) -> Result<Value, AllocError>
    ensures { IfOk result
        (λ v. view v ≡ object (with_texts (map named_of names.now) no_members)) }
{
    let mut members = Map::new(alloc);
    for named in names {
        let name = String::from_str(alloc, named.0.as_str())?;
        let text = text_json(alloc, &named.1)?;
        let _ = members.insert(name, text)?;
    }
    Ok(Value::Object(members))
}

/// Nodes, each as its texts, or groups, each as its names.
fn lists_json(alloc: Global, lists: &[Vec<RcStr>]) -> Result<Value, AllocError>
    ensures { IfOk result (λ v. view v ≡ groups_data (map texts_of lists.now)) }
{
    let mut items = Vec::new(alloc);
    for list in lists {
        let item = texts_json(alloc, list)?;
        items.push(item)?;
    }
    Ok(Value::Array(items))
}

/// What the record of a commit drops and stores.
pub(crate) fn stored_json(
    alloc: Global,
    commit: u32,
    dropped: &[Vec<RcStr>],
    stored: &[Vec<RcStr>],
) -> Result<Value, AllocError>
    ensures { IfOk result (λ v. view v
        ≡ answer_data (told_stored commit (map texts_of dropped.now) (map texts_of stored.now))) }
{
    let dropped = lists_json(alloc, dropped)?;
    let stored = lists_json(alloc, stored)?;
    json!(in alloc; {"answer": "stored", "commit": commit, "dropped": dropped, "stored": stored})
}

/// What a checkout would drop, keep and load.
pub(crate) fn plan_json(
    alloc: Global,
    commit: u32,
    drop: &[Vec<RcStr>],
    keep: &[Vec<RcStr>],
    load: &[Vec<RcStr>],
) -> Result<Value, AllocError>
    ensures { IfOk result (λ v. view v ≡ answer_data
        (told_plan commit (map texts_of drop.now) (map texts_of keep.now) (map texts_of load.now))) }
{
    let drop = lists_json(alloc, drop)?;
    let keep = lists_json(alloc, keep)?;
    let load = lists_json(alloc, load)?;
    json!(in alloc; {"answer": "plan", "commit": commit, "drop": drop, "keep": keep, "load": load})
}

/// The request was refused.
pub(crate) fn refused_json(
    alloc: Global,
    number: u8,
    bytes: Option<u64>,
) -> Result<Value, AllocError>
    requires { IsSome (numbered number bytes) }
    ensures { IfOk result
        (λ v. IfSome (numbered number bytes) (λ r. view v ≡ answer_data (refused r))) }
{
    match Refusal::numbered(number, bytes) {
        Some(refusal) => refusal_json(alloc, refusal),
        None => unreachable!(),
    }
}

/// A refusal, with its bytes where it has them.
fn refusal_json(alloc: Global, refusal: Refusal) -> Result<Value, AllocError>
    ensures { IfOk result (λ v. view v ≡ answer_data (refused (refusal_of refusal))) }
{
    let (number, reason) = (refusal.number(), refusal.reason());
    match refusal.bytes() {
        None => json!(in alloc; {"answer": "refused", "number": number, "reason": reason}),
        Some(bytes) => json!(in alloc; {
            "answer": "refused",
            "bytes": bytes,
            "number": number,
            "reason": reason
        }),
    }
}
