// A notebook, from its bytes and back.
ghost use Rattle.std.specs.Prelude.{◌≡◌, ◌<◌, ◌^◌, [], ◌∷◌, length, map, IfOk, IfErr, IfSome, OnOk, OnErr, Ok, None, false};
ghost use Rattle.std.specs.Rc.{rc_str_bytes};
ghost use Rattle.serde_json.specs.Events.{items_len};
ghost use Rattle.serde_json.specs.View.{view};
ghost use Rattle.serde_json.specs.Written.{has_float};
ghost use Rattle.kishu_meaning.specs.values.Values.{fault, report_of};
ghost use Rattle.kishu_model.specs.Answers.{refusal_name};
ghost use Rattle.kishu_model.specs.Request.{cells};
ghost use Rattle.kishu_model.specs.requests.Cells.{HasRoom};
ghost use Rattle.kishu_notebook.specs.Partly.{IsPartlySet, IsCutShort};
ghost use Rattle.kishu_notebook.specs.Places.{code_places};
ghost use Rattle.kishu_notebook.specs.Values.{Tells};
ghost use Rattle.kishu_notebook.specs.declared.refusal.NotebookFault.TheVariants.{NoMemory};
ghost use Rattle.kishu_model.specs.notebooks.Notebook.{cells_of, opening, verdict, sources_of};
ghost use Rattle.kishu_model.specs.Values.{answer_of, counted_of, numbered};
ghost use Rattle.kishu_model.specs.notebooks.Run.{with_answer, with_results};
ghost use Rattle.kishu_model.specs.notebooks.Setting.{with_run_at, with_result, with_refused, written};

use crate::cells::{code_places, list_at, sources_in};
use crate::faults::fault_in;
use crate::refusal::{NotebookFault, NotebookRefusal};
use crate::setting::set_run_at;
use kishu_model::{Answer, CellResult, Counted, Outcome, Output, Refusal};
use kishu_outputs::outputs_json;
use serde_json::Value;
use std::alloc::{AllocError, Global};
use std::rc::RcStr;

/// A notebook.
#[derive(Drop)]
pub struct Notebook {
    alloc: Global,
    value: Value,
    /// At which places the code cells stand among its cells.
    code: Vec<usize>,
    ghost whole: { has_float (view value) ≡ false },
    ghost places: { code.items ≡ code_places 0 (cells_of (view value)) },
}

/// The places of the code cells of a notebook's value.
fn places_in(alloc: Global, value: &Value) -> Result<Vec<usize>, AllocError>
    ensures { IfOk result (λ places. places.items ≡ code_places 0 (cells_of (view value.now))) }
{
    match list_at(value, "cells") {
        Some(cells) => code_places(alloc, cells),
        None => Ok(Vec::new(alloc)),
    }
}

/// A reason as what a cell's run gave.
fn refused_run(alloc: Global, reason: &str) -> Result<CellResult, AllocError>
    ensures { IfOk result (λ ran. (report_of ran).outputs ≡ fault reason.now [] ∷ []) }
{
    let ename = RcStr::from_str(alloc, reason)?;
    let evalue = RcStr::from_str(alloc, "")?;
    let outputs = vec![in alloc; Output::Fault { ename, evalue }]?;
    Ok(CellResult {
        outcome: Outcome::Raised,
        outputs,
    })
}

impl Notebook {
    ghost use Rattle.kishu_notebook.specs.Views.{data_of};

    /// The notebook that bytes are: JSON by nbformat 4.5, of whole numbers alone.
    ///
    /// - `bytes`: fewer than 2^32.
    ///
    /// A refusal tells the first fault, in the order of `NotebookRefusal`. The other error is want of
    /// memory.
    pub fn read(alloc: Global, bytes: &[u8]) -> Result<Notebook, NotebookFault>
        requires { length bytes.now < 2 ^ 32 }
        ensures ok { IfOk result (λ notebook. opening bytes.now ≡ Ok (data_of notebook)) }
        // The texts of its code cells fit one record, where it is read from fewer than 2^26 bytes.
        ensures room { IfOk result (λ notebook. length bytes.now < 2 ^ 26
            → HasRoom (cells (sources_of (data_of notebook)))) }
        ensures err { IfErr result (λ why. Tells why (opening bytes.now)) }
    {
        match Value::from_slice(alloc, bytes) {
            Ok(value) => Notebook::of_value(alloc, value),
            Err(error) if error.is_memory() => Err(NotebookFault::NoMemory),
            Err(_) => Err(NotebookFault::Refused(NotebookRefusal::NotJson)),
        }
    }

    /// The notebook that a value is.
    fn of_value(alloc: Global, value: Value) -> Result<Notebook, NotebookFault>
        requires { items_len (cells_of (view value)) < 2 ^ 32 }
        ensures ok { IfOk result (λ notebook. verdict (view value) ≡ Ok (data_of notebook)) }
        ensures same { IfOk result (λ notebook. data_of notebook ≡ view value) }
        ensures err { IfErr result (λ why. Tells why (verdict (view value))) }
    {
        match fault_in(alloc, &value) {
            Ok(None) => Notebook::of_cells(alloc, value),
            Ok(Some(refusal)) => Err(NotebookFault::Refused(refusal)),
            Err(_) => Err(NotebookFault::NoMemory),
        }
    }

    /// The notebook of a value that is one.
    fn of_cells(alloc: Global, value: Value) -> Result<Notebook, NotebookFault>
        requires { has_float (view value) ≡ false }
        ensures ok { IfOk result (λ notebook. data_of notebook ≡ view value) }
        ensures err { IfErr result (λ why. why ≡ NoMemory) }
    {
        match places_in(alloc, &value) {
            Ok(code) => Ok(Notebook { alloc, value, code }),
            Err(_) => Err(NotebookFault::NoMemory),
        }
    }

    /// The texts of the code cells, in order.
    ///
    /// The error is want of memory.
    pub fn sources(&self) -> Result<Vec<RcStr>, AllocError>
        ensures { IfOk result (λ sources. map rc_str_bytes sources.items ≡ sources_of (data_of self.now)) }
    {
        match list_at(&self.value, "cells") {
            Some(cells) => sources_in(self.alloc, cells),
            None => Ok(Vec::new(self.alloc)),
        }
    }

    /// Sets what the run of a code cell gave: its outputs, in place of those that it had, and its
    /// count.
    ///
    /// - `at`: which code cell, from 0.
    /// - `ran`: what the cell's run gave.
    /// - `count`: the number of the cell on its commit's path, from 1.
    ///
    /// The error is want of memory, and nothing is set then.
    pub fn set_result(&mut self, at: u32, ran: &CellResult, count: u64) -> Result<(), AllocError>
        requires { at < length (sources_of (data_of self.old)) }
        ensures ok { OnOk result (data_of self.new ≡ with_result at count (report_of ran.now) (data_of self.old)) }
        ensures err { OnErr result (data_of self.new ≡ (data_of self.old)) }
        ensures sources { sources_of (data_of self.new) ≡ sources_of (data_of self.old) }
    {
        self.set_ran(at as usize, ran, count)
    }

    /// Sets why a code cell was refused: one error with this reason and no text, in place of the
    /// outputs that it had, and no count.
    ///
    /// - `at`: which code cell, from 0.
    /// - `reason`: the name of the refusal.
    ///
    /// The error is want of memory, and nothing is set then.
    pub fn set_refused(&mut self, at: u32, reason: &str) -> Result<(), AllocError>
        requires { at < length (sources_of (data_of self.old)) }
        ensures ok { OnOk result (data_of self.new ≡ with_refused at reason.now (data_of self.old)) }
        ensures err { OnErr result (data_of self.new ≡ (data_of self.old)) }
        ensures sources { sources_of (data_of self.new) ≡ sources_of (data_of self.old) }
    {
        self.set_reason(at as usize, reason)
    }

    /// Sets what the answer to a request tells of code cells: what their runs gave, or why the request
    /// was refused, which stands in its first cell. An answer that tells of none sets nothing, nor is
    /// anything set past the last code cell.
    ///
    /// - `at`: which code cell is the request's first one, from 0.
    /// - `answer`: the answer.
    ///
    /// The error is want of memory. Of several results those before the one that lacked it are set
    /// then.
    pub fn set_answer(&mut self, at: u32, answer: &Answer) -> Result<(), AllocError>
        ensures ok { OnOk result (IfSome (answer_of answer.now)
            (λ a. data_of self.new ≡ with_answer at a (data_of self.old))) }
        ensures none { answer_of answer.now ≡ None → OnOk result (data_of self.new ≡ data_of self.old) }
        ensures err { OnErr result (IsCutShort at answer.now (data_of self.old) (data_of self.new)) }
        ensures sources { sources_of (data_of self.new) ≡ sources_of (data_of self.old) }
    {
        match answer {
            Answer::Cell {
                count,
                result: ran,
                ..
            } => self.set_ran(at as usize, ran, *count),
            Answer::Cells { results, .. } => self.set_results(at as usize, results),
            Answer::Refused { number, bytes } => self.set_refusal(at as usize, *number, *bytes),
            Answer::Checkout { .. } => Ok(()),
            Answer::Branch { .. } => Ok(()),
            Answer::Log { .. } => Ok(()),
            Answer::Status { .. } => Ok(()),
            Answer::Inspect { .. } => Ok(()),
            Answer::Stored { .. } => Ok(()),
            Answer::Plan { .. } => Ok(()),
        }
    }

    /// Sets what the runs of cells gave, of which the first has this number.
    fn set_results(&mut self, at: usize, results: &[Counted]) -> Result<(), AllocError>
        ensures ok { OnOk result (data_of self.new
            ≡ with_results at (map counted_of results.now) (data_of self.old)) }
        ensures err { OnErr result
            (IsPartlySet at (map counted_of results.now) (data_of self.old) (data_of self.new)) }
        ensures sources { sources_of (data_of self.new) ≡ sources_of (data_of self.old) }
    {
        for place in at..self.code.len() {
            match results.get(place - at) {
                Some(counted) => self.set_ran(place, &counted.result, counted.count)?,
                None => return Ok(()),
            }
        }
        Ok(())
    }

    /// Sets why a request was refused, in the code cell of this number.
    fn set_refusal(&mut self, at: usize, number: u8, bytes: Option<u64>) -> Result<(), AllocError>
        ensures ok { OnOk result (IfSome (numbered number bytes)
            (λ r. data_of self.new ≡ with_refused at (refusal_name r) (data_of self.old))) }
        ensures none { numbered number bytes ≡ None → OnOk result (data_of self.new ≡ data_of self.old) }
        ensures err { OnErr result (data_of self.new ≡ data_of self.old) }
        ensures sources { sources_of (data_of self.new) ≡ sources_of (data_of self.old) }
    {
        match Refusal::numbered(number, bytes) {
            Some(refusal) => self.set_reason(at, refusal.reason()),
            None => Ok(()),
        }
    }

    /// Sets what the run of a cell gave.
    fn set_ran(&mut self, at: usize, ran: &CellResult, count: u64) -> Result<(), AllocError>
        ensures ok { OnOk result (data_of self.new ≡ with_result at count (report_of ran.now) (data_of self.old)) }
        ensures err { OnErr result (data_of self.new ≡ (data_of self.old)) }
        ensures sources { sources_of (data_of self.new) ≡ sources_of (data_of self.old) }
    {
        let outputs = outputs_json(self.alloc, ran, count)?;
        self.set(at, outputs, Value::from(count));
        Ok(())
    }

    /// Sets why a cell was refused.
    fn set_reason(&mut self, at: usize, reason: &str) -> Result<(), AllocError>
        ensures ok { OnOk result (data_of self.new ≡ with_refused at reason.now (data_of self.old)) }
        ensures err { OnErr result (data_of self.new ≡ (data_of self.old)) }
        ensures sources { sources_of (data_of self.new) ≡ sources_of (data_of self.old) }
    {
        let ran = refused_run(self.alloc, reason)?;
        let outputs = outputs_json(self.alloc, &ran, 0)?;
        self.set(at, outputs, Value::Null);
        Ok(())
    }

    /// Sets the outputs and the count of a code cell. Where there is none of this number, nothing is
    /// set.
    fn set(&mut self, at: usize, outputs: Value, count: Value)
        requires outputs { has_float (view outputs) ≡ false }
        requires count { has_float (view count) ≡ false }
        ensures set { data_of self.new ≡ with_run_at at (view outputs) (view count) (data_of self.old) }
        ensures sources { sources_of (data_of self.new) ≡ sources_of (data_of self.old) }
    {
        if at < self.code.len() {
            let place = self.code[at];
            set_run_at(&mut self.value, place, outputs, count);
        }
    }

    /// The bytes of the notebook: the pretty text of serde_json, and a line feed.
    ///
    /// The error is want of memory.
    pub fn write(&self) -> Result<Vec<u8>, AllocError>
        ensures { IfOk result (λ bytes. bytes.items ≡ written (data_of self.now)) }
    {
        let mut bytes = self.value.to_vec_pretty(self.alloc)?;
        bytes.push(b'\n')?;
        Ok(bytes)
    }
}
