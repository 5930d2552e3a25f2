// Statements.
ghost use Rattle.std.specs.Prelude.{IfOk, IsTrue, length, map, ◌<◌, ◌≡◌};
ghost use Rattle.std.specs.Rc.{rc_str_bytes};
ghost use Rattle.std.specs.List.{list_all};
ghost use Rattle.kishu_language.specs.grammar.Targets.{is_target};
ghost use Rattle.kishu_meaning.specs.values.Classes.{namespace_class};
ghost use Rattle.kishu_meaning.specs.calls.Functions.{or_class_name};
ghost use Rattle.kishu_language.specs.trees.Height.{of_arms, of_parameters, of_statement, of_statements};
ghost use Rattle.kishu_meaning.specs.cells.Meaning.{act, acts, call, defaults, in_block, raise_by, returned_by};
ghost use Rattle.kishu_meaning.specs.moments.Moment.{assign, give, ◌>>◌ as ◌▹◌};
ghost use Rattle.kishu_language.specs.tokens.Names.{is_name};
ghost use Rattle.kishu_meaning.specs.values.Sound.{with_default};
ghost use Rattle.kishu_language.specs.trees.Tree.{definition_of, expression_of, parameter_of, statement_of, text_of, value_of as tree_value};
ghost use Rattle.kishu_meaning.specs.values.Values.{class, value_of};
ghost use Rattle.kishu_meaning.specs.cells.Ways.{onward};
ghost use Rattle.kishu_calls.specs.Calls.{flow_of, SoundFlow};
ghost use Rattle.kishu_language.specs.trees.Parts.{arms_of, statements_of};
ghost use Rattle.kishu_language.specs.trees.Fits.{ArmsFit, CodeFits, ParametersFit, StatementFits, StatementsFit, TitleFits};
ghost use Rattle.kishu_machine.specs.Machine.{Gives, GrownBy, HasRoom, HasRoomBy, ReadsBy, moment_of};
ghost use Rattle.kishu_machine.specs.Clauses.{SoundValues};
ghost use Rattle.kishu_statements.specs.Handed.{FitBlock, FitExpression, FitOptional, FitTargets, LowBlock, LowExpression, LowOptional, LowTargets};
ghost use Rattle.kishu_language.specs.Limits.{height_limit};
ghost use Rattle.kishu_language.specs.trees.Tree as t;

use crate::expressions::{deeper_value, evaluate};
use crate::loops::{run_for, run_while};
use crate::targets::{place_at, store_all};
use crate::tries::{run_finally, run_try};
use kishu_access::{delete_place, read_place, store_in, updated};
use kishu_calls::{Flow, throw_again, throw_value};
use kishu_heap::{FunctionNode, Node};
use kishu_language::{Arm, Def, Expr, Operator, Stmt};
use kishu_machine::{Fault, MOST_DEPTH, Machine, Thrown, assign, make, tick, too_deep, truth};
use kishu_meaning::{ClassId, Steps, Value};
use std::rc::{Rc, RcStr};
use std::sync::ledger::Ledger;

/// Runs a statement (Python Language Reference 3, "Simple statements" and "Compound statements").
/// `calls_left` is how many calls may still be entered.
#[cycle(run)]
#[inline(never)]
#[tactic(auto, using(kishu_language::specs::trees::StatementRows::statement_rows))]
pub(crate) fn run_statement<L: Ledger>(
    machine: &mut Machine,
    statement: &Stmt,
    calls_left: u32,
    steps: &mut Steps<L>,
) -> Result<Flow, Fault>
    requires small { of_statement (statement_of statement.now) < height_limit }
    requires fits { StatementFits (statement_of statement.now) }
    requires room { HasRoomBy 4 machine.old }
    ensures gives { Gives flow_of result (moment_of machine.new) (act (call calls_left) (statement_of statement.now) (moment_of machine.old)) }
    ensures sound { SoundFlow machine.new.heap result }
    ensures kept { GrownBy 3 machine.old steps.old machine.new steps.new }
    ensures reads { ReadsBy 16 machine.old steps.old machine.new steps.new }
{
    match statement {
        Stmt::Pass => Ok(Flow::Onward),
        Stmt::Break => Ok(Flow::Broke),
        Stmt::Continue => Ok(Flow::Continued),
        Stmt::Return(value) => run_return(machine, value, calls_left, steps),
        Stmt::Raise(value) => run_raise(machine, value, calls_left, steps),
        Stmt::Assert(test, message) => run_assert(machine, test, message, calls_left, steps),
        Stmt::Del(places) => run_delete(machine, places, calls_left, steps),
        Stmt::Global(_) => Ok(Flow::Onward),
        Stmt::Import(name) => run_import(machine, name),
        Stmt::Update(place, operator, operand) => {
            run_update(machine, place, *operator, operand, calls_left, steps)
        }
        Stmt::Assign(targets, value) => run_assignment(machine, targets, value, calls_left, steps),
        Stmt::If(arms, other) => run_choice(machine, arms, other, calls_left, steps),
        Stmt::While(test, body) => run_while(machine, test, body, calls_left, steps),
        Stmt::For(target, walked, body) => run_for(
            machine, target, walked, body, calls_left, steps,
        ),
        Stmt::Try {
            body,
            handlers,
            other,
            last,
        } => run_try(machine, body, handlers, other, last, calls_left, steps),
        Stmt::Finally(body, last) => run_finally(machine, body, last, calls_left, steps),
        Stmt::Def(def, code) => run_def(machine, def, code, calls_left, steps),
    }
}

// ---- simple statements

#[cycle(run)]
#[inline(never)]
fn run_return<L: Ledger>(
    machine: &mut Machine,
    value: &Option<Expr>,
    calls_left: u32,
    steps: &mut Steps<L>,
) -> Result<Flow, Fault>
    requires small_value { LowOptional value.now }
    requires fit_value { FitOptional value.now }
    requires room { HasRoomBy 4 machine.old }
    ensures gives { Gives flow_of result (moment_of machine.new) (returned_by (call calls_left) (tree_value value.now) (moment_of machine.old)) }
    ensures sound { SoundFlow machine.new.heap result }
    ensures kept { GrownBy 3 machine.old steps.old machine.new steps.new }
    ensures reads { ReadsBy 0 machine.old steps.old machine.new steps.new }
{
    match value {
        Some(e) => Ok(Flow::Returned(evaluate(machine, e, calls_left, steps)?)),
        None => Ok(Flow::Returned(Value::None)),
    }
}

#[cycle(run)]
#[inline(never)]
fn run_raise<L: Ledger>(
    machine: &mut Machine,
    value: &Option<Expr>,
    calls_left: u32,
    steps: &mut Steps<L>,
) -> Result<Flow, Fault>
    requires small_value { LowOptional value.now }
    requires fit_value { FitOptional value.now }
    requires room { HasRoomBy 4 machine.old }
    ensures gives { Gives flow_of result (moment_of machine.new) (raise_by (call calls_left) (tree_value value.now) (moment_of machine.old)) }
    ensures sound { SoundFlow machine.new.heap result }
    ensures kept { GrownBy 3 machine.old steps.old machine.new steps.new }
    ensures reads { ReadsBy 8 machine.old steps.old machine.new steps.new }
{
    match value {
        Some(e) => {
            let thrown = evaluate(machine, e, calls_left, steps)?;
            throw_value(machine, &thrown, steps)
        }
        None => throw_again(machine, steps),
    }
}

#[cycle(run)]
#[inline(never)]
fn run_assert<L: Ledger>(
    machine: &mut Machine,
    test: &Expr,
    message: &Option<Expr>,
    calls_left: u32,
    steps: &mut Steps<L>,
) -> Result<Flow, Fault>
    requires small_test { LowExpression test.now }
    requires fit_test { FitExpression test.now }
    requires small_message { LowOptional message.now }
    requires fit_message { FitOptional message.now }
    requires room { HasRoomBy 4 machine.old }
    ensures gives { Gives flow_of result (moment_of machine.new) (act (call calls_left) (t.assert (expression_of test.now) (tree_value message.now)) (moment_of machine.old)) }
    ensures sound { SoundFlow machine.new.heap result }
    ensures kept { GrownBy 3 machine.old steps.old machine.new steps.new }
    ensures reads { ReadsBy 0 machine.old steps.old machine.new steps.new }
{
    let value = evaluate(machine, test, calls_left, steps)?;
    if truth(machine, &value, steps) {
        return Ok(Flow::Onward);
    }
    match message {
        Some(e) => {
            let message = evaluate(machine, e, calls_left, steps)?;
            Err(Fault::Raised(Thrown::With(ClassId::ASSERTION_ERROR, message)))
        }
        None => Err(Fault::Raised(Thrown::Plain(ClassId::ASSERTION_ERROR))),
    }
}

#[cycle(run)]
#[inline(never)]
fn run_delete<L: Ledger>(
    machine: &mut Machine,
    places: &[Expr],
    calls_left: u32,
    steps: &mut Steps<L>,
) -> Result<Flow, Fault>
    requires small { LowTargets places.now }
    requires fits { FitTargets places.now }
    requires room { HasRoomBy 4 machine.old }
    ensures gives { Gives flow_of result (moment_of machine.new) (act (call calls_left) (t.delete (map expression_of places.now)) (moment_of machine.old)) }
    ensures sound { SoundFlow machine.new.heap result }
    ensures kept { GrownBy 3 machine.old steps.old machine.new steps.new }
    ensures reads { ReadsBy 0 machine.old steps.old machine.new steps.new }
{
    for e in places {
        let found = place_at(machine, e, calls_left, steps)?;
        delete_place(machine, &found, steps)?;
    }
    Ok(Flow::Onward)
}

// An import binds the class SimpleNamespace.
#[inline(never)]
fn run_import(machine: &mut Machine, name: &Option<RcStr>) -> Result<Flow, Fault>
    requires fit_name { TitleFits (text_of name.now) }
    ensures gives { Gives flow_of result (moment_of machine.new) ((assign (or_class_name (text_of name.now)) (class namespace_class) ▹ give onward) (moment_of machine.old)) }
    ensures sound { SoundFlow machine.new.heap result }
    ensures heap { machine.new.heap ≡ machine.old.heap }
    ensures budget { machine.new.budget ≡ machine.old.budget }
{
    let class = Value::Class(ClassId::SIMPLE_NAMESPACE);
    match name {
        Some(name) => assign(machine, name, class)?,
        None => {
            let name = RcStr::from_str(machine.alloc, "SimpleNamespace")?;
            assign(machine, &name, class)?;
        }
    }
    Ok(Flow::Onward)
}

// The value once, and then the targets from left to right.
#[cycle(run)]
#[inline(never)]
fn run_assignment<L: Ledger>(
    machine: &mut Machine,
    targets: &[Expr],
    value: &Expr,
    calls_left: u32,
    steps: &mut Steps<L>,
) -> Result<Flow, Fault>
    requires small_targets { LowTargets targets.now }
    requires fit_targets { FitTargets targets.now }
    requires small_value { LowExpression value.now }
    requires fit_value { FitExpression value.now }
    requires room { HasRoomBy 4 machine.old }
    requires targets { IsTrue (list_all is_target (map expression_of targets.now)) }
    ensures gives { Gives flow_of result (moment_of machine.new) (act (call calls_left) (t.assign (map expression_of targets.now) (expression_of value.now)) (moment_of machine.old)) }
    ensures sound { SoundFlow machine.new.heap result }
    ensures kept { GrownBy 3 machine.old steps.old machine.new steps.new }
    ensures reads { ReadsBy 0 machine.old steps.old machine.new steps.new }
{
    let value = evaluate(machine, value, calls_left, steps)?;
    store_all(machine, targets, &value, calls_left, steps)?;
    Ok(Flow::Onward)
}

// The place is found and read, the operand evaluated, and the result stored.
#[cycle(run)]
#[inline(never)]
fn run_update<L: Ledger>(
    machine: &mut Machine,
    target: &Expr,
    operator: Operator,
    operand: &Expr,
    calls_left: u32,
    steps: &mut Steps<L>,
) -> Result<Flow, Fault>
    requires small_target { LowExpression target.now }
    requires fit_target { FitExpression target.now }
    requires small_operand { LowExpression operand.now }
    requires fit_operand { FitExpression operand.now }
    requires room { HasRoomBy 4 machine.old }
    ensures gives { Gives flow_of result (moment_of machine.new) (act (call calls_left) (t.update (expression_of target.now) operator (expression_of operand.now)) (moment_of machine.old)) }
    ensures sound { SoundFlow machine.new.heap result }
    ensures kept { GrownBy 3 machine.old steps.old machine.new steps.new }
    ensures reads { ReadsBy 0 machine.old steps.old machine.new steps.new }
{
    let found = place_at(machine, target, calls_left, steps)?;
    tick(machine, steps)?;
    let value = read_place(machine, &found, steps)?;
    let operand = evaluate(machine, operand, calls_left, steps)?;
    tick(machine, steps)?;
    let result = updated(machine, operator, value, &operand, steps)?;
    store_in(machine, &found, result, steps)?;
    Ok(Flow::Onward)
}

// ---- blocks and choices

/// Statements one level deeper; none do nothing.
#[cycle(run)]
#[inline(never)]
pub(crate) fn block<L: Ledger>(
    machine: &mut Machine,
    body: &[Stmt],
    calls_left: u32,
    steps: &mut Steps<L>,
) -> Result<Flow, Fault>
    requires small_body { LowBlock body.now }
    requires fit_body { FitBlock body.now }
    requires room { HasRoom machine.old }
    ensures gives { Gives flow_of result (moment_of machine.new) (in_block (statements_of body.now) (acts (call calls_left) (statements_of body.now)) (moment_of machine.old)) }
    ensures sound { SoundFlow machine.new.heap result }
    ensures kept { GrownBy 0 machine.old steps.old machine.new steps.new }
    ensures reads { ReadsBy 0 machine.old steps.old machine.new steps.new }
{
    if body.is_empty() {
        return Ok(Flow::Onward);
    }
    let depth = machine.budget.depth;
    if depth >= MOST_DEPTH {
        return too_deep(machine.alloc);
    }
    machine.budget.depth = depth + 1;
    let result = run_all(machine, body, calls_left, steps);
    machine.budget.depth = depth;
    result
}

// In order, as far as the flow goes on.
#[cycle(run)]
#[inline(never)]
fn run_all<L: Ledger>(
    machine: &mut Machine,
    body: &[Stmt],
    calls_left: u32,
    steps: &mut Steps<L>,
) -> Result<Flow, Fault>
    requires small_body { LowBlock body.now }
    requires fit_body { FitBlock body.now }
    requires room { HasRoom machine.old }
    ensures gives { Gives flow_of result (moment_of machine.new) (acts (call calls_left) (statements_of body.now) (moment_of machine.old)) }
    ensures sound { SoundFlow machine.new.heap result }
    ensures kept { GrownBy 0 machine.old steps.old machine.new steps.new }
    ensures reads { ReadsBy 0 machine.old steps.old machine.new steps.new }
{
    for statement in body {
        tick(machine, steps)?;
        match run_statement(machine, statement, calls_left, steps)? {
            Flow::Onward => {}
            Flow::Broke => return Ok(Flow::Broke),
            Flow::Continued => return Ok(Flow::Continued),
            Flow::Returned(value) => return Ok(Flow::Returned(value)),
        }
    }
    Ok(Flow::Onward)
}

// The first block whose condition holds.
#[cycle(run)]
#[inline(never)]
#[tactic(auto, using(kishu_language::specs::trees::StatementRows::statement_rows))]
fn run_choice<L: Ledger>(
    machine: &mut Machine,
    arms: &[Arm],
    other: &[Stmt],
    calls_left: u32,
    steps: &mut Steps<L>,
) -> Result<Flow, Fault>
    requires small_arms { of_arms (arms_of arms.now) < height_limit }
    requires fit_arms { ArmsFit (arms_of arms.now) }
    requires small_other { LowBlock other.now }
    requires fit_other { FitBlock other.now }
    requires room { HasRoomBy 4 machine.old }
    ensures gives { Gives flow_of result (moment_of machine.new) (act (call calls_left) (t.choose (arms_of arms.now) (statements_of other.now)) (moment_of machine.old)) }
    ensures sound { SoundFlow machine.new.heap result }
    ensures kept { GrownBy 3 machine.old steps.old machine.new steps.new }
    ensures reads { ReadsBy 0 machine.old steps.old machine.new steps.new }
{
    for arm in arms {
        let value = evaluate(machine, &arm.test, calls_left, steps)?;
        if truth(machine, &value, steps) {
            return block(machine, &arm.body, calls_left, steps);
        }
    }
    block(machine, other, calls_left, steps)
}

// ---- functions

// The defaults from left to right, in parentheses.
#[cycle(run)]
#[inline(never)]
fn default_values<L: Ledger>(
    machine: &mut Machine,
    params: &[(RcStr, Option<Expr>)],
    calls_left: u32,
    steps: &mut Steps<L>,
) -> Result<Vec<Value>, Fault>
    requires small { of_parameters (map parameter_of params.now) < height_limit }
    requires fits { ParametersFit (map parameter_of params.now) }
    requires room { HasRoom machine.old }
    ensures gives { Gives (λ v. map value_of v.items) result (moment_of machine.new) (defaults (call calls_left) (map parameter_of params.now) (moment_of machine.old)) }
    ensures sound { SoundValues machine.new.heap result }
    ensures count { IfOk result (λ v. length v.items ≡ with_default (map parameter_of params.now)) }
    ensures kept { GrownBy 0 machine.old steps.old machine.new steps.new }
    ensures reads { ReadsBy 0 machine.old steps.old machine.new steps.new }
{
    let mut values = Vec::new(machine.alloc);
    for (_, default) in params {
        if let Some(e) = default {
            values.push(deeper_value(machine, e, calls_left, steps)?)?;
        }
    }
    Ok(values)
}

// The defaults, and then a new function is bound.
#[cycle(run)]
#[inline(never)]
fn run_def<L: Ledger>(
    machine: &mut Machine,
    def: &Rc<Def>,
    code: &RcStr,
    calls_left: u32,
    steps: &mut Steps<L>,
) -> Result<Flow, Fault>
    requires small { of_parameters (definition_of def.now.value).parameters < height_limit }
    requires fits { ParametersFit (definition_of def.now.value).parameters }
    requires body { StatementsFit (definition_of def.now.value).body }
    requires low { of_statements (definition_of def.now.value).body < height_limit }
    requires code { CodeFits (rc_str_bytes code.now) (definition_of def.now.value) }
    requires name { IsTrue (is_name (definition_of def.now.value).title) }
    requires room { HasRoomBy 4 machine.old }
    ensures gives { Gives flow_of result (moment_of machine.new) (act (call calls_left) (t.define (definition_of def.now.value).title (definition_of def.now.value).parameters (definition_of def.now.value).body (rc_str_bytes code.now)) (moment_of machine.old)) }
    ensures sound { SoundFlow machine.new.heap result }
    ensures kept { GrownBy 3 machine.old steps.old machine.new steps.new }
    ensures reads { ReadsBy 0 machine.old steps.old machine.new steps.new }
{
    let defaults = default_values(machine, def.params.as_slice(), calls_left, steps)?;
    let function = FunctionNode {
        profile: machine.profile,
        code: code.clone()?,
        def: def.clone()?,
        defaults,
    };
    let id = make(machine, Node::Function(function))?;
    assign(machine, &def.name, Value::Node(id))?;
    Ok(Flow::Onward)
}
