// Calls of functions.
ghost use Rattle.std.specs.Prelude.{length, map, ◌*◌, ◌+◌, ◌<◌, ◌≡◌, ◌≤◌, IfOk, IsTrue};
ghost use Rattle.kishu_meaning.specs.calls.Functions.{in_frame};
ghost use Rattle.kishu_language.specs.trees.Height.{of_statements};
ghost use Rattle.kishu_meaning.specs.cells.Meaning.{acts, apply, call, call_value, in_block, result_of};
ghost use Rattle.kishu_meaning.specs.moments.Moment.{deeper, give, ◌>>=◌ as ◌⊳◌};
ghost use Rattle.kishu_language.specs.tokens.Names.{is_name};
ghost use Rattle.kishu_language.specs.trees.Tree.{definition_of};
ghost use Rattle.kishu_meaning.specs.values.Values.{node, value_of};
ghost use Rattle.kishu_calls.specs.Calls.{callee_of, flow_of, given_of, is_sound_callee, is_sound_given, part_of, OwesReads, Owing, SoundPart, IsSoundGiven};
ghost use Rattle.kishu_language.specs.trees.Fits.{keywords, FunctionFits, StatementsFit};
ghost use Rattle.kishu_statements.specs.Forms.{called};
ghost use Rattle.kishu_machine.specs.Frames.{frame_of, is_sound_frame};
ghost use Rattle.kishu_machine.specs.Machine.{moment_of, Gives, GrownBy, HasRoom, HasRoomBy, IsSound, ReadsBy};
ghost use Rattle.kishu_language.specs.grammar.Refusals.{all_differ};
ghost use Rattle.kishu_language.specs.trees.Parts.{arguments_of};
ghost use Rattle.kishu_machine.specs.Clauses.{AreSoundIn, IsSoundIn, SoundValue};
ghost use Rattle.kishu_statements.specs.Handed.{FitArguments, LowArguments};
ghost use Rattle.kishu_language.specs.Limits.{height_limit};
ghost use Rattle.kishu_meaning.specs.cells.Meaning as m;
ghost use Rattle.kishu_language.specs.trees.Tree as t;

use crate::expressions::deeper_value;
use crate::statements::block;
use kishu_calls::{
    Callee, Flow, Function, Given, Part, bound_values, call_builtin, call_method, construct,
    function_at, own_names,
};
use kishu_heap::Node;
use kishu_language::{Argument, Def};
use kishu_machine::{Fault, Frame, MOST_DEPTH, Machine, bad_arguments, not_callable, too_deep};
use kishu_meaning::{NodeId, Steps, Value};
use std::mem;
use std::sync::ledger::Ledger;

/// What a function gives for arguments (Python Language Reference 3, "Calls").
#[cycle(run)]
#[inline(never)]
pub(crate) fn called<L: Ledger>(
    machine: &mut Machine,
    function: &Function,
    given: &Given,
    calls_left: u32,
    steps: &mut Steps<L>,
) -> Result<Value, Fault>
    requires small { of_statements (definition_of function.now.def.value).body < height_limit }
    requires fits { FunctionFits (definition_of function.now.def.value) }
    requires title { IsTrue (is_name (definition_of function.now.def.value).title) }
    requires sound_defaults { AreSoundIn machine.old.heap function.now.defaults.items }
    requires sound_given { IsSoundGiven machine.old.heap given.now }
    requires room { HasRoom machine.old }
    ensures gives { Gives value_of result (moment_of machine.new) (called calls_left (definition_of function.now.def.value) (map value_of function.now.defaults.items) (given_of given.now) (moment_of machine.old)) }
    ensures sound { SoundValue machine.new.heap result }
    ensures kept { GrownBy 0 machine.old steps.old machine.new steps.new }
    ensures reads { ReadsBy 0 machine.old steps.old machine.new steps.new }
{
    if calls_left == 0 {
        return too_deep(machine.alloc);
    }
    let alloc = machine.alloc;
    let defaults = function.defaults.as_slice();
    match bound_values(alloc, &function.def, defaults, given)? {
        Some(values) => {
            let own = own_names(alloc, &function.def)?;
            let frame = Frame { own, values };
            entered(machine, &function.def, frame, calls_left - 1, steps)
        }
        None => bad_arguments(alloc, function.def.name.as_str()),
    }
}

// The body of a function, with these locals. One level is for the call, and one for the block.
#[cycle(run)]
#[inline(never)]
fn entered<L: Ledger>(
    machine: &mut Machine,
    def: &Def,
    frame: Frame,
    calls_left: u32,
    steps: &mut Steps<L>,
) -> Result<Value, Fault>
    requires small { of_statements (definition_of def.now).body < height_limit }
    requires fits { StatementsFit (definition_of def.now).body }
    requires sound_frame { IsTrue (is_sound_frame (length machine.old.heap) (frame_of frame)) }
    requires room { HasRoom machine.old }
    ensures gives { Gives value_of result (moment_of machine.new) ((deeper (in_frame (frame_of frame) (in_block (definition_of def.now).body (acts (call calls_left) (definition_of def.now).body))) ⊳ λ f. give (result_of f)) (moment_of machine.old)) }
    ensures sound { SoundValue machine.new.heap result }
    ensures kept { GrownBy 0 machine.old steps.old machine.new steps.new }
    ensures reads { ReadsBy 0 machine.old steps.old machine.new steps.new }
{
    let depth = machine.budget.depth;
    if depth >= MOST_DEPTH {
        return too_deep(machine.alloc);
    }
    machine.budget.depth = depth + 1;
    let outer = mem::replace(&mut machine.locals, Some(frame));
    let flow = block(machine, &def.body, calls_left, steps);
    machine.locals = outer;
    machine.budget.depth = depth;
    Ok(returned(flow?))
}

// A body that isn't left by `return` gives None.
fn returned(flow: Flow) -> Value
    ensures { value_of result ≡ result_of (flow_of flow) }
{
    match flow {
        Flow::Returned(value) => value,
        Flow::Onward => Value::None,
        Flow::Broke => Value::None,
        Flow::Continued => Value::None,
    }
}

// ---- calls

#[cycle(run)]
#[inline(never)]
#[tactic(auto, using(kishu_language::specs::trees::Rows::part_rows))]
pub(crate) fn arguments_given<L: Ledger>(
    machine: &mut Machine,
    arguments: &[Argument],
    calls_left: u32,
    steps: &mut Steps<L>,
) -> Result<Given, Fault>
    requires small { LowArguments arguments.now }
    requires fits { FitArguments arguments.now }
    requires differ { IsTrue (all_differ (keywords (arguments_of arguments.now))) }
    requires room { HasRoom machine.old }
    ensures gives { Gives given_of result (moment_of machine.new) (m.arguments (call calls_left) (arguments_of arguments.now) (moment_of machine.old)) }
    ensures sound { IsSound (λ g. is_sound_given (length machine.new.heap) (given_of g)) (length machine.new.heap) result }
    ensures kept { GrownBy 0 machine.old steps.old machine.new steps.new }
    ensures reads { ReadsBy 0 machine.old steps.old machine.new steps.new }
    ensures paid { IfOk result (λ v. steps.new + 128 * machine.new.budget.left + 2 * length v.plain.items ≤ steps.old + 128 * machine.old.budget.left) }
{
    let mut plain = Vec::new(machine.alloc);
    let mut named = Vec::new(machine.alloc);
    for argument in arguments {
        match argument {
            Argument::Plain(e) => plain.push(deeper_value(machine, e, calls_left, steps)?)?,
            Argument::Keyword(name, e) => {
                let value = deeper_value(machine, e, calls_left, steps)?;
                named.push((name.clone()?, value))?;
            }
        }
    }
    Ok(Given { plain, named })
}

#[cycle(run)]
#[inline(never)]
pub(crate) fn apply<L: Ledger>(
    machine: &mut Machine,
    callee: Callee,
    given: Given,
    calls_left: u32,
    steps: &mut Steps<L>,
) -> Result<Part, Fault>
    requires sound_callee { IsTrue (is_sound_callee (length machine.old.heap) (callee_of callee)) }
    requires sound_given { IsSoundGiven machine.old.heap given }
    requires room { HasRoomBy 1 machine.old }
    ensures gives { Gives part_of result (moment_of machine.new) (apply (call calls_left) (callee_of callee) (given_of given) (moment_of machine.old)) }
    ensures sound { SoundPart machine.new.heap result }
    ensures kept { GrownBy 1 machine.old steps.old machine.new steps.new }
    ensures reads { OwesReads (40 + 2 * length given.plain.items) machine.old steps.old result machine.new steps.new }
    ensures owes { Owing 1 machine.old result machine.new }
{
    match callee {
        Callee::Function(function) => {
            Ok(Part::Whole(call_value(machine, &function, given, calls_left, steps)?))
        }
        Callee::Method(value, name) => {
            let found = call_method(machine, &value, name.as_str(), &given, steps)?;
            Ok(Part::Whole(found))
        }
        Callee::View(id, view) => Ok(Part::Viewed(id, view)),
    }
}

#[cycle(run)]
#[inline(never)]
fn call_value<L: Ledger>(
    machine: &mut Machine,
    function: &Value,
    given: Given,
    calls_left: u32,
    steps: &mut Steps<L>,
) -> Result<Value, Fault>
    requires sound_function { IsSoundIn machine.old.heap function.now }
    requires sound_given { IsSoundGiven machine.old.heap given }
    requires room { HasRoomBy 1 machine.old }
    ensures gives { Gives value_of result (moment_of machine.new) (call_value (call calls_left) (value_of function.now) (given_of given) (moment_of machine.old)) }
    ensures sound { SoundValue machine.new.heap result }
    ensures kept { GrownBy 1 machine.old steps.old machine.new steps.new }
    ensures reads { ReadsBy (32 + 2 * length given.plain.items) machine.old steps.old machine.new steps.new }
{
    match function {
        Value::Builtin(builtin) => call_builtin(machine, *builtin, &given, steps),
        Value::Class(class) => construct(machine, *class, given, steps),
        Value::Node(id) => call_node(machine, *id, &given, calls_left, steps),
        Value::None => not_callable(machine, function, steps),
        Value::Bool(_) => not_callable(machine, function, steps),
        Value::Int(_) => not_callable(machine, function, steps),
        Value::Text(_) => not_callable(machine, function, steps),
        Value::Range(..) => not_callable(machine, function, steps),
    }
}

#[cycle(run)]
#[inline(never)]
fn call_node<L: Ledger>(
    machine: &mut Machine,
    id: NodeId,
    given: &Given,
    calls_left: u32,
    steps: &mut Steps<L>,
) -> Result<Value, Fault>
    requires id { id.0 < length machine.old.heap }
    requires sound_given { IsSoundGiven machine.old.heap given.now }
    requires room { HasRoomBy 1 machine.old }
    ensures gives { Gives value_of result (moment_of machine.new) (call_value (call calls_left) (node id.0) (given_of given.now) (moment_of machine.old)) }
    ensures sound { SoundValue machine.new.heap result }
    ensures kept { GrownBy 1 machine.old steps.old machine.new steps.new }
    ensures reads { ReadsBy 32 machine.old steps.old machine.new steps.new }
{
    match function_at(machine, id, steps)? {
        Some(function) => called(machine, &function, given, calls_left, steps),
        None => not_callable(machine, &Value::Node(id), steps),
    }
}
