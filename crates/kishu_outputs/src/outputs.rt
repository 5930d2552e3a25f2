ghost use Rattle.std.specs.Prelude.{◌≡◌, ◌++◌, ℕ, map, IfOk, string_bytes, codes};
ghost use Rattle.serde_json.specs.Data.{array};
ghost use Rattle.serde_json.specs.View.{items_of, view};
ghost use Rattle.kishu_model.specs.Answers.{output_data};
ghost use Rattle.kishu_meaning.specs.values.Values.{output_of, report_of, stream, shown, fault};

use kishu_model::{CellResult, Output};
use serde_json::{Value, json};
use std::alloc::{AllocError, Global};

/// The outputs of a cell as a notebook shows them (nbformat 4.5, "Code cell outputs"): a JSON array
/// of objects, in the order of the run.
///
/// - `ran`: what the cell's run gave.
/// - `count`: the number of the cell on its commit's path, from 1.
///
/// The error is want of memory.
pub fn outputs_json(alloc: Global, ran: &CellResult, count: u64) -> Result<Value, AllocError>
    ensures { IfOk result
        (λ v. view v ≡ array (items_of (map (output_data count) (report_of ran.now).outputs))) }
{
    let mut items = Vec::new(alloc);
    for output in &ran.outputs {
        let item = output_json(alloc, output, count)?;
        items.push(item)?;
    }
    Ok(Value::Array(items))
}

fn output_json(alloc: Global, output: &Output, count: u64) -> Result<Value, AllocError>
    ensures { IfOk result (λ v. view v ≡ output_data count (output_of output.now)) }
{
    match output {
        Output::Stream { text } => stream_json(alloc, text.as_str()),
        Output::Shown { text } => shown_json(alloc, text.as_str(), count),
        Output::Fault { ename, evalue } => fault_json(alloc, ename.as_str(), evalue.as_str()),
    }
}

/// All that a cell printed.
fn stream_json(alloc: Global, text: &str) -> Result<Value, AllocError>
    ensures { IfOk result (λ v. (count : ℕ) → view v ≡ output_data count (stream text.now)) }
{
    json!(in alloc; {"name": "stdout", "output_type": "stream", "text": text})
}

/// The value that a cell shows.
fn shown_json(alloc: Global, text: &str, count: u64) -> Result<Value, AllocError>
    ensures { IfOk result (λ v. view v ≡ output_data count (shown text.now)) }
{
    json!(in alloc; {
        "data": {"text/plain": text},
        "execution_count": count,
        "metadata": {},
        "output_type": "execute_result"
    })
}

/// The exception that ended a cell.
fn fault_json(alloc: Global, ename: &str, evalue: &str) -> Result<Value, AllocError>
    ensures { IfOk result (λ v. (count : ℕ) → view v ≡ output_data count (fault ename.now evalue.now)) }
{
    let told = told_fault(alloc, ename, evalue)?;
    json!(in alloc; {
        "ename": ename,
        "evalue": evalue,
        "output_type": "error",
        "traceback": [told]
    })
}

/// The one line of a traceback.
fn told_fault(alloc: Global, ename: &str, evalue: &str) -> Result<String, AllocError>
    ensures { IfOk result (λ s. string_bytes s ≡ ename.now ++ codes ": " ++ evalue.now) }
{
    let mut told = String::from_str(alloc, ename)?;
    told.push_str(": ")?;
    told.push_str(evalue)?;
    Ok(told)
}
