ghost use Rattle.std.specs.Prelude.{◌≡◌, IsSome, IfOk, IfSome};
ghost use Rattle.serde_json.specs.View.{view};
ghost use Rattle.kishu_model.specs.Answers.{answer_data, answer_line};
ghost use Rattle.kishu_model.specs.Values.{answer_of};

use crate::answers::{
    branch_json, cell_json, cells_json, checkout_json, inspect_json, log_json, plan_json,
    refused_json, status_json, stored_json,
};
use kishu_model::Answer;
use serde_json::Value;
use std::alloc::{AllocError, Global};

/// The line that tells an answer: the compact text of its value, its keys in byte order, and a line
/// feed.
///
/// - `answer`: a refusal's number is that of one, and it has bytes where it is the one of a state that
///   is too large, and nowhere else.
///
/// The error is want of memory.
pub fn write_answer(alloc: Global, answer: &Answer) -> Result<Vec<u8>, AllocError>
    requires { IsSome (answer_of answer.now) }
    ensures { IfOk result (λ v. IfSome (answer_of answer.now) (λ a. v.items ≡ answer_line a)) }
{
    let value = answer_json(alloc, answer)?;
    let mut line = value.to_vec(alloc)?;
    line.push(b'\n')?;
    Ok(line)
}

/// The value that tells an answer.
fn answer_json(alloc: Global, answer: &Answer) -> Result<Value, AllocError>
    requires { IsSome (answer_of answer.now) }
    ensures { IfOk result (λ v. IfSome (answer_of answer.now) (λ a. view v ≡ answer_data a)) }
{
    match answer {
        Answer::Cell {
            commit,
            count,
            result: ran,
        } => cell_json(alloc, *commit, *count, ran),
        Answer::Cells { commit, results } => cells_json(alloc, *commit, results),
        Answer::Checkout { commit, head } => checkout_json(alloc, *commit, head),
        Answer::Branch { commit, name } => branch_json(alloc, *commit, name),
        Answer::Log { branches, path } => log_json(alloc, branches, path),
        Answer::Status {
            branch,
            commit,
            commits,
            names,
            records,
        } => status_json(alloc, branch, *commit, *commits, names, *records),
        Answer::Inspect {
            commit,
            names,
            nodes,
        } => inspect_json(alloc, *commit, names, nodes),
        Answer::Stored {
            commit,
            dropped,
            stored,
        } => stored_json(alloc, *commit, dropped, stored),
        Answer::Plan {
            commit,
            drop,
            keep,
            load,
        } => plan_json(alloc, *commit, drop, keep, load),
        Answer::Refused { number, bytes } => refused_json(alloc, *number, *bytes),
    }
}
