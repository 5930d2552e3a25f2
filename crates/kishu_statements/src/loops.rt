// Loops (Python Language Reference 3, "The while statement" and "The for statement").
ghost use Rattle.std.specs.Prelude.{IsTrue, length};
ghost use Rattle.kishu_language.specs.grammar.Targets.{is_target};
ghost use Rattle.kishu_meaning.specs.cells.Meaning.{act, acts, call, in_block, store};
ghost use Rattle.kishu_meaning.specs.moments.Moment.{◌>>◌ as ◌▹◌};
ghost use Rattle.kishu_language.specs.trees.Tree.{expression_of};
ghost use Rattle.kishu_meaning.specs.cells.Ways.{walk_along};
ghost use Rattle.kishu_items.specs.Walks.{is_sound_walk, walk_of};
ghost use Rattle.kishu_calls.specs.Calls.{flow_of, SoundFlow};
ghost use Rattle.kishu_language.specs.trees.Parts.{statements_of};
ghost use Rattle.kishu_machine.specs.Machine.{Gives, GrownBy, HasRoomBy, ReadsBy, moment_of};
ghost use Rattle.kishu_statements.specs.Handed.{FitBlock, FitExpression, LowBlock, LowExpression};
ghost use Rattle.kishu_language.specs.trees.Tree as t;

use crate::expressions::evaluate;
use crate::primaries::part;
use crate::statements::block;
use crate::targets::store;
use kishu_access::item_for;
use kishu_calls::{Flow, walked_by};
use kishu_items::Walk;
use kishu_language::{Expr, Stmt};
use kishu_machine::{Fault, Machine, tick, truth};
use kishu_meaning::Steps;
use std::sync::ledger::Ledger;

// ---- loops

#[cycle(run)]
#[inline(never)]
pub(crate) fn run_while<L: Ledger>(
    machine: &mut Machine,
    test: &Expr,
    body: &[Stmt],
    calls_left: u32,
    steps: &mut Steps<L>,
) -> Result<Flow, Fault>
    requires small_test { LowExpression test.now }
    requires fit_test { FitExpression test.now }
    requires small_body { LowBlock body.now }
    requires fit_body { FitBlock body.now }
    requires room { HasRoomBy 4 machine.old }
    ensures gives { Gives flow_of result (moment_of machine.new) (act (call calls_left) (t.while (expression_of test.now) (statements_of body.now)) (moment_of machine.old)) }
    ensures sound { SoundFlow machine.new.heap result }
    ensures kept { GrownBy 3 machine.old steps.old machine.new steps.new }
    ensures reads { ReadsBy 0 machine.old steps.old machine.new steps.new }
{
    loop {
        let value = evaluate(machine, test, calls_left, steps)?;
        if !truth(machine, &value, steps) {
            return Ok(Flow::Onward);
        }
        tick(machine, steps)?;
        match block(machine, body, calls_left, steps)? {
            Flow::Onward => {}
            Flow::Continued => {}
            Flow::Broke => return Ok(Flow::Onward),
            Flow::Returned(value) => return Ok(Flow::Returned(value)),
        }
    }
}

#[cycle(run)]
#[inline(never)]
pub(crate) fn run_for<L: Ledger>(
    machine: &mut Machine,
    target: &Expr,
    walked: &Expr,
    body: &[Stmt],
    calls_left: u32,
    steps: &mut Steps<L>,
) -> Result<Flow, Fault>
    requires small_target { LowExpression target.now }
    requires fit_target { FitExpression target.now }
    requires small_walked { LowExpression walked.now }
    requires fit_walked { FitExpression walked.now }
    requires small_body { LowBlock body.now }
    requires fit_body { FitBlock body.now }
    requires room { HasRoomBy 4 machine.old }
    requires target { IsTrue (is_target (expression_of target.now)) }
    ensures gives { Gives flow_of result (moment_of machine.new) (act (call calls_left) (t.for (expression_of target.now) (expression_of walked.now) (statements_of body.now)) (moment_of machine.old)) }
    ensures sound { SoundFlow machine.new.heap result }
    ensures kept { GrownBy 3 machine.old steps.old machine.new steps.new }
    ensures reads { ReadsBy 0 machine.old steps.old machine.new steps.new }
{
    let walked = part(machine, walked, calls_left, steps)?;
    let walk = walked_by(machine, walked, steps)?;
    run_turns(machine, target, &walk, body, calls_left, steps)
}

#[cycle(run)]
#[inline(never)]
fn run_turns<L: Ledger>(
    machine: &mut Machine,
    target: &Expr,
    walk: &Walk,
    body: &[Stmt],
    calls_left: u32,
    steps: &mut Steps<L>,
) -> Result<Flow, Fault>
    requires small_target { LowExpression target.now }
    requires fit_target { FitExpression target.now }
    requires sound_walk { IsTrue (is_sound_walk (length machine.old.heap) (walk_of walk.now)) }
    requires small_body { LowBlock body.now }
    requires fit_body { FitBlock body.now }
    requires room { HasRoomBy 2 machine.old }
    requires target { IsTrue (is_target (expression_of target.now)) }
    ensures gives { Gives flow_of result (moment_of machine.new) (walk_along (walk_of walk.now) (λ v. store (call calls_left) (expression_of target.now) v ▹ in_block (statements_of body.now) (acts (call calls_left) (statements_of body.now))) (moment_of machine.old)) }
    ensures sound { SoundFlow machine.new.heap result }
    ensures kept { GrownBy 2 machine.old steps.old machine.new steps.new }
    ensures reads { ReadsBy 16 machine.old steps.old machine.new steps.new }
{
    let mut place = 0;
    loop {
        let Some(item) = item_for(machine, walk, place, steps)? else {
            return Ok(Flow::Onward);
        };
        tick(machine, steps)?;
        store(machine, target, &item, calls_left, steps)?;
        match block(machine, body, calls_left, steps)? {
            Flow::Onward => {}
            Flow::Continued => {}
            Flow::Broke => return Ok(Flow::Onward),
            Flow::Returned(value) => return Ok(Flow::Returned(value)),
        }
        place += 1;
    }
}
