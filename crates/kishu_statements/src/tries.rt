// Exceptions that are raised, caught and passed on (Python Language Reference 3, "The try statement").
ghost use Rattle.std.specs.Prelude.{IsTrue, Some, length, ◌<◌, ◌≡◌};
ghost use Rattle.kishu_meaning.specs.cells.Meaning.{act, acts, call, in_block, is_for};
ghost use Rattle.kishu_meaning.specs.moments.Moment.{Ends, give, ◌>>◌ as ◌▹◌};
ghost use Rattle.kishu_language.specs.trees.Tree.{text_of, value_of as tree_value};
ghost use Rattle.kishu_meaning.specs.values.Values.{class, node};
ghost use Rattle.kishu_meaning.specs.cells.Ways.{and_last, attempt, forget_caught, handle, handling, onward};
ghost use Rattle.kishu_calls.specs.Calls.{flow_of, is_sound_way, SoundFlow};
ghost use Rattle.kishu_language.specs.trees.Parts.{handlers_of, statements_of};
ghost use Rattle.kishu_language.specs.trees.Fits.{TitleFits};
ghost use Rattle.kishu_machine.specs.Machine.{Gives, GrownBy, HasRoom, HasRoomBy, ReadsBy, moment_of, thrown_of};
ghost use Rattle.kishu_machine.specs.Clauses.{IsSoundThrown, SoundEnd};
ghost use Rattle.kishu_statements.specs.Handed.{FitBlock, FitHandlers, FitOptional, LowBlock, LowHandlers, LowOptional};
ghost use Rattle.kishu_meaning.specs.cells.Meaning as m;
ghost use Rattle.kishu_language.specs.trees.Tree as t;
ghost use Rattle.kishu_meaning.specs.cells.Ways as w;

use crate::expressions::evaluate;
use crate::statements::block;
use kishu_calls::{Flow, is_caught, object_of};
use kishu_heap::Node;
use kishu_language::{Expr, Handler, Stmt};
use kishu_machine::{Fault, Machine, Thrown, assign, forget};
use kishu_meaning::{NodeId, Steps, Value};
use std::mem;
use std::rc::RcStr;
use std::sync::ledger::Ledger;

// ---- exceptions

#[cycle(run)]
#[inline(never)]
pub(crate) fn run_try<L: Ledger>(
    machine: &mut Machine,
    body: &[Stmt],
    handlers: &[Handler],
    other: &[Stmt],
    last: &[Stmt],
    calls_left: u32,
    steps: &mut Steps<L>,
) -> Result<Flow, Fault>
    requires small_body { LowBlock body.now }
    requires fit_body { FitBlock body.now }
    requires small_handlers { LowHandlers handlers.now }
    requires fit_handlers { FitHandlers handlers.now }
    requires small_other { LowBlock other.now }
    requires fit_other { FitBlock other.now }
    requires small_last { LowBlock last.now }
    requires fit_last { FitBlock last.now }
    requires room { HasRoomBy 4 machine.old }
    ensures gives { Gives flow_of result (moment_of machine.new) (act (call calls_left) (t.try (statements_of body.now) (handlers_of handlers.now) (statements_of other.now) (statements_of last.now)) (moment_of machine.old)) }
    ensures sound { SoundFlow machine.new.heap result }
    ensures kept { GrownBy 3 machine.old steps.old machine.new steps.new }
    ensures reads { ReadsBy 0 machine.old steps.old machine.new steps.new }
{
    let way = run_attempt(machine, body, handlers, other, calls_left, steps);
    run_last(machine, way, last, calls_left, steps)
}

// The handlers are for what the body raises, and the block of `else` for where it ends plainly.
#[cycle(run)]
#[inline(never)]
fn run_attempt<L: Ledger>(
    machine: &mut Machine,
    body: &[Stmt],
    handlers: &[Handler],
    other: &[Stmt],
    calls_left: u32,
    steps: &mut Steps<L>,
) -> Result<Flow, Fault>
    requires small_body { LowBlock body.now }
    requires fit_body { FitBlock body.now }
    requires small_handlers { LowHandlers handlers.now }
    requires fit_handlers { FitHandlers handlers.now }
    requires small_other { LowBlock other.now }
    requires fit_other { FitBlock other.now }
    requires room { HasRoomBy 1 machine.old }
    ensures gives { Gives flow_of result (moment_of machine.new) (attempt (in_block (statements_of body.now) (acts (call calls_left) (statements_of body.now))) (m.handlers (call calls_left) (handlers_of handlers.now)) (in_block (statements_of other.now) (acts (call calls_left) (statements_of other.now))) (moment_of machine.old)) }
    ensures sound { SoundFlow machine.new.heap result }
    ensures kept { GrownBy 1 machine.old steps.old machine.new steps.new }
    ensures reads { ReadsBy 0 machine.old steps.old machine.new steps.new }
{
    match block(machine, body, calls_left, steps) {
        Ok(Flow::Onward) => block(machine, other, calls_left, steps),
        Ok(Flow::Broke) => Ok(Flow::Broke),
        Ok(Flow::Continued) => Ok(Flow::Continued),
        Ok(Flow::Returned(value)) => Ok(Flow::Returned(value)),
        Err(Fault::Raised(thrown)) => run_handlers(machine, handlers, thrown, calls_left, steps),
        Err(Fault::Stopped) => Err(Fault::Stopped),
        Err(Fault::NoMemory) => Err(Fault::NoMemory),
    }
}

// The handlers are tried in order.
#[cycle(run)]
#[inline(never)]
#[tactic(auto, using(kishu_language::specs::trees::StatementRows::statement_rows))]
fn run_handlers<L: Ledger>(
    machine: &mut Machine,
    handlers: &[Handler],
    thrown: Thrown,
    calls_left: u32,
    steps: &mut Steps<L>,
) -> Result<Flow, Fault>
    requires small { LowHandlers handlers.now }
    requires fits { FitHandlers handlers.now }
    requires sound_thrown { IsSoundThrown machine.old.heap thrown }
    requires room { HasRoomBy 1 machine.old }
    ensures gives { Gives flow_of result (moment_of machine.new) (m.handlers (call calls_left) (handlers_of handlers.now) (thrown_of thrown) (moment_of machine.old)) }
    ensures sound { SoundFlow machine.new.heap result }
    ensures kept { GrownBy 1 machine.old steps.old machine.new steps.new }
    ensures reads { ReadsBy 0 machine.old steps.old machine.new steps.new }
{
    for handler in handlers {
        if is_for(machine, &handler.class, &thrown, calls_left, steps)? {
            return handle(
                machine,
                &handler.name,
                &handler.body,
                thrown,
                calls_left,
                steps,
            );
        }
    }
    Err(Fault::Raised(thrown))
}

// A handler without a class is for each exception.
#[cycle(run)]
#[inline(never)]
fn is_for<L: Ledger>(
    machine: &mut Machine,
    class: &Option<Expr>,
    thrown: &Thrown,
    calls_left: u32,
    steps: &mut Steps<L>,
) -> Result<bool, Fault>
    requires small_class { LowOptional class.now }
    requires fit_class { FitOptional class.now }
    requires room { HasRoom machine.old }
    ensures gives { Gives (λ b. b) result (moment_of machine.new) (is_for (call calls_left) (tree_value class.now) (thrown_of thrown.now) (moment_of machine.old)) }
    ensures sound { SoundEnd machine.new.heap result }
    ensures kept { GrownBy 0 machine.old steps.old machine.new steps.new }
    ensures reads { ReadsBy 0 machine.old steps.old machine.new steps.new }
{
    match class {
        Some(e) => {
            let classes = evaluate(machine, e, calls_left, steps)?;
            is_caught(machine, thrown, &classes, steps)
        }
        None => Ok(true),
    }
}

// The exception is bound for the block, and its name unbound on each way out but for a spent budget.
#[cycle(run)]
#[inline(never)]
fn handle<L: Ledger>(
    machine: &mut Machine,
    name: &Option<RcStr>,
    body: &[Stmt],
    thrown: Thrown,
    calls_left: u32,
    steps: &mut Steps<L>,
) -> Result<Flow, Fault>
    requires fit_name { TitleFits (text_of name.now) }
    requires small_body { LowBlock body.now }
    requires fit_body { FitBlock body.now }
    requires sound_thrown { IsSoundThrown machine.old.heap thrown }
    requires room { HasRoomBy 1 machine.old }
    ensures gives { Gives flow_of result (moment_of machine.new) (handle (text_of name.now) (in_block (statements_of body.now) (acts (call calls_left) (statements_of body.now))) (thrown_of thrown) (moment_of machine.old)) }
    ensures sound { SoundFlow machine.new.heap result }
    ensures kept { GrownBy 1 machine.old steps.old machine.new steps.new }
    ensures reads { ReadsBy 0 machine.old steps.old machine.new steps.new }
{
    let id = object_of(machine, thrown)?;
    let Some(name) = name else {
        return handling(machine, id, body, calls_left, steps);
    };
    assign(machine, name, Value::Node(id))?;
    let way = handling(machine, id, body, calls_left, steps);
    forgotten(machine, way, name.as_str())
}

// A spent budget leaves the name.
#[inline(never)]
fn forgotten(machine: &mut Machine, way: Result<Flow, Fault>, name: &str) -> Result<Flow, Fault>
    requires sound_way { IsTrue (is_sound_way (length machine.old.heap) way) }
    ensures gives { (e : Ends w.Flow) → Gives flow_of way (moment_of machine.old) e → Gives flow_of result (moment_of machine.new) (and_last e (forget_caught (Some name.now) ▹ give onward)) }
    ensures sound { SoundFlow machine.new.heap result }
    ensures heap { machine.new.heap ≡ machine.old.heap }
    ensures budget { machine.new.budget ≡ machine.old.budget }
{
    match way {
        Err(Fault::Stopped) => Err(Fault::Stopped),
        Err(Fault::NoMemory) => Err(Fault::NoMemory),
        Err(Fault::Raised(thrown)) => {
            forget(machine, name)?;
            Err(Fault::Raised(thrown))
        }
        Ok(flow) => {
            forget(machine, name)?;
            Ok(flow)
        }
    }
}

// While this object is handled.
#[cycle(run)]
#[inline(never)]
fn handling<L: Ledger>(
    machine: &mut Machine,
    id: NodeId,
    body: &[Stmt],
    calls_left: u32,
    steps: &mut Steps<L>,
) -> Result<Flow, Fault>
    requires id { id.0 < length machine.old.heap }
    requires small_body { LowBlock body.now }
    requires fit_body { FitBlock body.now }
    requires room { HasRoom machine.old }
    ensures gives { Gives flow_of result (moment_of machine.new) (handling (node id.0) (in_block (statements_of body.now) (acts (call calls_left) (statements_of body.now))) (moment_of machine.old)) }
    ensures sound { SoundFlow machine.new.heap result }
    ensures kept { GrownBy 0 machine.old steps.old machine.new steps.new }
    ensures reads { ReadsBy 0 machine.old steps.old machine.new steps.new }
{
    let outer = mem::replace(&mut machine.handled, Some(Value::Node(id)));
    let way = block(machine, body, calls_left, steps);
    machine.handled = outer;
    way
}

#[cycle(run)]
#[inline(never)]
pub(crate) fn run_finally<L: Ledger>(
    machine: &mut Machine,
    body: &[Stmt],
    last: &[Stmt],
    calls_left: u32,
    steps: &mut Steps<L>,
) -> Result<Flow, Fault>
    requires small_body { LowBlock body.now }
    requires fit_body { FitBlock body.now }
    requires small_last { LowBlock last.now }
    requires fit_last { FitBlock last.now }
    requires room { HasRoomBy 4 machine.old }
    ensures gives { Gives flow_of result (moment_of machine.new) (act (call calls_left) (t.finally (statements_of body.now) (statements_of last.now)) (moment_of machine.old)) }
    ensures sound { SoundFlow machine.new.heap result }
    ensures kept { GrownBy 3 machine.old steps.old machine.new steps.new }
    ensures reads { ReadsBy 0 machine.old steps.old machine.new steps.new }
{
    let way = block(machine, body, calls_left, steps);
    run_last(machine, way, last, calls_left, steps)
}

// The last block runs on each way out, but for a spent budget; where it leaves by itself, that takes
// the place of the way out.
#[cycle(run)]
#[inline(never)]
fn run_last<L: Ledger>(
    machine: &mut Machine,
    way: Result<Flow, Fault>,
    last: &[Stmt],
    calls_left: u32,
    steps: &mut Steps<L>,
) -> Result<Flow, Fault>
    requires small_last { LowBlock last.now }
    requires fit_last { FitBlock last.now }
    requires room { HasRoom machine.old }
    requires sound_way { IsTrue (is_sound_way (length machine.old.heap) way) }
    ensures gives { (e : Ends w.Flow) → Gives flow_of way (moment_of machine.old) e → Gives flow_of result (moment_of machine.new) (and_last e (in_block (statements_of last.now) (acts (call calls_left) (statements_of last.now)))) }
    ensures sound { SoundFlow machine.new.heap result }
    ensures kept { GrownBy 0 machine.old steps.old machine.new steps.new }
    ensures reads { ReadsBy 0 machine.old steps.old machine.new steps.new }
{
    if let Err(Fault::Stopped) = &way {
        return way;
    }
    if let Err(Fault::NoMemory) = &way {
        return way;
    }
    match block(machine, last, calls_left, steps)? {
        Flow::Onward => way,
        Flow::Broke => Ok(Flow::Broke),
        Flow::Continued => Ok(Flow::Continued),
        Flow::Returned(value) => Ok(Flow::Returned(value)),
    }
}
