// Texts that run.
ghost use Rattle.std.specs.Prelude.{IfOk, IsTrue, OnOk, length, ◌*◌, ◌+◌, ◌^◌, ◌≡◌, ◌≤◌};
ghost use Rattle.kishu_language.specs.Limits.{longest_text};
ghost use Rattle.kishu_meaning.specs.cells.Meaning.{unread};
ghost use Rattle.kishu_meaning.specs.moments.Accesses.{with_accesses};
ghost use Rattle.kishu_meaning.specs.values.Sound.{are_sound_names};
ghost use Rattle.kishu_meaning.specs.values.Values.{State, report_of};
ghost use Rattle.kishu_statements.specs.Handed.{FitBlock, LowBlock};
ghost use Rattle.kishu_interp.specs.Running.{state_in, text_run, tree_run};

use kishu_calls::{ended, fault_output, finish};
use kishu_heap::Heap;
use kishu_language::{Profile, Program};
use kishu_machine::{MOST_STEPS, Machine};
use kishu_meaning::{Budget, CellResult, Outcome, Steps};
use kishu_names::Names;
use kishu_parser::{SyntaxFault, parse};
use kishu_statements::run_statements;
use std::alloc::{AllocError, Global};
use std::mem;
use std::sync::ledger::Ledger;

// Runs the statements of a cell on what the cells before left, as `run_cell` tells it of a text.
fn run_program<L: Ledger>(
    alloc: Global,
    profile: Profile,
    program: &Program,
    heap: &mut Heap,
    names: &mut Names,
    steps: &mut Steps<L>,
) -> Result<CellResult, AllocError>
    requires small { LowBlock program.now.statements.items }
    requires fits { FitBlock program.now.statements.items }
    requires room { length heap.old ≤ 2 ^ 31 }
    requires sound { IsTrue (are_sound_names (length heap.old) names.old.bound) }
    ensures report { IfOk result (λ r. report_of r ≡ (tree_run profile program.now heap.old names.old).report) }
    ensures state { OnOk result (state_in heap.new names.new ≡ (tree_run profile program.now heap.old names.old).state) }
    ensures accessed { OnOk result (names.new.accessed ≡ with_accesses (tree_run profile program.now heap.old names.old).accessed names.old.accessed) }
    ensures sound { IsTrue (are_sound_names (length heap.new) names.new.bound) }
    ensures least { OnOk result (steps.old + (tree_run profile program.now heap.old names.old).charge ≤ steps.new) }
    ensures most { OnOk result (steps.new ≤ steps.old + 128 * (tree_run profile program.now heap.old names.old).charge + 128) }
{
    let earlier = names.take_record();
    let mut machine = Machine {
        alloc,
        profile,
        heap: mem::replace(heap, Heap::new(alloc)),
        names: mem::replace(names, Names::new(alloc)),
        locals: None,
        handled: None,
        budget: Budget {
            left: MOST_STEPS,
            depth: 0,
        },
        printed: String::new(alloc),
    };
    let end = run_statements(&mut machine, &program.statements, steps);
    let result = finish(&mut machine, end, steps);
    *heap = machine.heap;
    *names = machine.names;
    names.join_record(earlier)?;
    result
}

// What a text without a tree gives: the exception that names the line of its fault. It runs nothing.
fn syntax_fault(alloc: Global, line: u32) -> Result<CellResult, AllocError>
    ensures { (s : State) → IfOk result (λ r. report_of r ≡ (unread line s).report) }
{
    let text = format!(in alloc; "invalid syntax, line {line}")?;
    let output = fault_output(alloc, "SyntaxError", text.as_str())?;
    ended(alloc, Outcome::Raised, "", Some(output))
}

/// Runs a cell on what the cells before left (Python Language Reference 3, "Execution model").
///
/// Heap and names are left as the cell changed them, also before a statement that raised. The names
/// that it accessed, misses too, are added to the record of `names`. What was printed is one output,
/// before the value that the last statement shows, or the exception that ended the cell. A cell that
/// takes 4,000,000 steps and needs one more is stopped, and no other one. A text without a tree runs
/// nothing: its output is a SyntaxError that names the line of its fault, and all stays.
///
/// At `Ok` `steps` has risen by at least the steps that the cell took, and by at most 128 times these
/// and 128. The only error is want of memory: heap and names are valid then, and nothing else is said
/// of them.
///
/// Its conditions are that the text has at most 1,048,576 bytes and the heap at most 2^31 nodes, and
/// that the values of the names lead to nodes that are there.
pub fn run_cell<L: Ledger>(
    alloc: Global,
    profile: Profile,
    text: &str,
    heap: &mut Heap,
    names: &mut Names,
    steps: &mut Steps<L>,
) -> Result<CellResult, AllocError>
    requires short { length text.now ≤ longest_text }
    requires room { length heap.old ≤ 2 ^ 31 }
    requires sound { IsTrue (are_sound_names (length heap.old) names.old.bound) }
    ensures report { IfOk result (λ r. report_of r ≡ (text_run profile text.now heap.old names.old).report) }
    ensures state { OnOk result (state_in heap.new names.new ≡ (text_run profile text.now heap.old names.old).state) }
    ensures accessed { OnOk result (names.new.accessed ≡ with_accesses (text_run profile text.now heap.old names.old).accessed names.old.accessed) }
    ensures sound { IsTrue (are_sound_names (length heap.new) names.new.bound) }
    ensures least { OnOk result (steps.old + (text_run profile text.now heap.old names.old).charge ≤ steps.new) }
    ensures most { OnOk result (steps.new ≤ steps.old + 128 * (text_run profile text.now heap.old names.old).charge + 128) }
{
    match parse(alloc, profile, text) {
        Ok(program) => run_program(alloc, profile, &program, heap, names, steps),
        Err(SyntaxFault::Syntax { line }) => syntax_fault(alloc, line),
        Err(SyntaxFault::NoMemory) => Err(AllocError),
    }
}
