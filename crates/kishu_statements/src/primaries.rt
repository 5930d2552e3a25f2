// Attributes, subscripts, slices and calls behind a value (Python Language Reference 3, "Primaries").
ghost use Rattle.std.specs.Prelude.{IsTrue, OnOk, length, ◌*◌, ◌+◌, ◌≡◌};
ghost use Rattle.kishu_meaning.specs.cells.Meaning.{bound_value, call, expr, nodes, part};
ghost use Rattle.kishu_meaning.specs.moments.Moment.{deeper, give, ◌>>=◌ as ◌⊳◌, ◌>>◌ as ◌▹◌};
ghost use Rattle.kishu_language.specs.grammar.Refusals.{all_differ};
ghost use Rattle.kishu_language.specs.trees.Tree.{expression_of, value_of as tree_value};
ghost use Rattle.kishu_meaning.specs.values.Values.{value_of};
ghost use Rattle.kishu_calls.specs.Calls.{OwesReads, Owing, owed, part_of, SoundPart, IsSoundPart};
ghost use Rattle.kishu_language.specs.trees.Parts.{arguments_of, trailers_of};
ghost use Rattle.kishu_language.specs.trees.Fits.{keywords};
ghost use Rattle.kishu_statements.specs.Forms.{LeavesPart, slice_part};
ghost use Rattle.kishu_machine.specs.Machine.{Gives, GrownBy, HasRoom, HasRoomBy, LeavesReads, ReadsBy, moment_of};
ghost use Rattle.kishu_machine.specs.Clauses.{IsSoundIn, SoundEnd, SoundValue};
ghost use Rattle.kishu_statements.specs.Handed.{FitArguments, FitBound, FitExpression, FitTrailers, LowArguments, LowBound, LowExpression, LowTrailers};
ghost use Rattle.kishu_meaning.specs.calls.Callees as c;
ghost use Rattle.kishu_meaning.specs.cells.Meaning as m;
ghost use Rattle.kishu_language.specs.trees.Tree as t;

use crate::calls::{apply, arguments_given};
use crate::expressions::{deeper_value, evaluate};
use kishu_access::{Bounds, item, slice};
use kishu_calls::{Part, callee_in, dotted_part, settled};
use kishu_language::{Argument, Expr, Trailer};
use kishu_machine::{Fault, MOST_DEPTH, Machine, make, tick, too_deep};
use kishu_meaning::{Steps, Value};
use std::sync::ledger::Ledger;

// ---- primaries

// The nodes of a primary take their steps before its atom.
fn take_nodes<L: Ledger>(
    machine: &mut Machine,
    trailers: &[Trailer],
    steps: &mut Steps<L>,
) -> Result<(), Fault>
    ensures gives { Gives (λ u. u) result (moment_of machine.new) (nodes (trailers_of trailers.now) (moment_of machine.old)) }
    ensures sound { SoundEnd machine.new.heap result }
    ensures kept { GrownBy 0 machine.old steps.old machine.new steps.new }
    ensures counted { steps.new + machine.new.budget.left ≡ steps.old + machine.old.budget.left }
    ensures taken { OnOk result (machine.new.budget.left + length trailers.now ≡ machine.old.budget.left) }
    ensures heap { machine.new.heap ≡ machine.old.heap }
{
    for _trailer in trailers {
        tick(machine, steps)?;
    }
    Ok(())
}

#[cycle(run)]
#[inline(never)]
#[tactic(auto, using(crate::proofs::Chains::in_turn))]
pub(crate) fn primary_value<L: Ledger>(
    machine: &mut Machine,
    atom: &Expr,
    trailers: &[Trailer],
    calls_left: u32,
    steps: &mut Steps<L>,
) -> Result<Value, Fault>
    requires small_atom { LowExpression atom.now }
    requires fit_atom { FitExpression atom.now }
    requires small_trailers { LowTrailers trailers.now }
    requires fit_trailers { FitTrailers trailers.now }
    requires room { HasRoom machine.old }
    ensures gives { Gives value_of result (moment_of machine.new) (expr (call calls_left) (t.primary (expression_of atom.now) (trailers_of trailers.now)) (moment_of machine.old)) }
    ensures sound { SoundValue machine.new.heap result }
    ensures kept { GrownBy 0 machine.old steps.old machine.new steps.new }
    ensures reads { LeavesReads 64 machine.old steps.old result machine.new steps.new }
{
    take_nodes(machine, trailers, steps)?;
    match part_behind(machine, atom, trailers, calls_left, steps) {
        Ok(part) => settled(machine, part, steps),
        Err(fault) => Err(fault),
    }
}

#[cycle(run)]
#[inline(never)]
fn primary_part<L: Ledger>(
    machine: &mut Machine,
    atom: &Expr,
    trailers: &[Trailer],
    calls_left: u32,
    steps: &mut Steps<L>,
) -> Result<Part, Fault>
    requires small_atom { LowExpression atom.now }
    requires fit_atom { FitExpression atom.now }
    requires small_trailers { LowTrailers trailers.now }
    requires fit_trailers { FitTrailers trailers.now }
    requires room { HasRoom machine.old }
    ensures gives { Gives part_of result (moment_of machine.new) ((nodes (trailers_of trailers.now) ▹ part (call calls_left) (expression_of atom.now) (expr (call calls_left) (expression_of atom.now)) ⊳ λ p. m.trailers (call calls_left) p (trailers_of trailers.now)) (moment_of machine.old)) }
    ensures sound { SoundPart machine.new.heap result }
    ensures kept { GrownBy 0 machine.old steps.old machine.new steps.new }
    ensures reads { LeavesPart 0 machine.old steps.old result machine.new steps.new }
    ensures owes { Owing 0 machine.old result machine.new }
{
    take_nodes(machine, trailers, steps)?;
    part_behind(machine, atom, trailers, calls_left, steps)
}

/// What the trailers behind an atom make of it, whose steps were taken.
#[cycle(run)]
#[inline(never)]
#[tactic(auto, using(kishu_language::specs::trees::Rows::tree_rows))]
pub(crate) fn part_behind<L: Ledger>(
    machine: &mut Machine,
    atom: &Expr,
    trailers: &[Trailer],
    calls_left: u32,
    steps: &mut Steps<L>,
) -> Result<Part, Fault>
    requires small_atom { LowExpression atom.now }
    requires fit_atom { FitExpression atom.now }
    requires small_trailers { LowTrailers trailers.now }
    requires fit_trailers { FitTrailers trailers.now }
    requires room { HasRoomBy (length trailers.now) machine.old }
    ensures gives { Gives part_of result (moment_of machine.new) ((part (call calls_left) (expression_of atom.now) (expr (call calls_left) (expression_of atom.now)) ⊳ λ p. m.trailers (call calls_left) p (trailers_of trailers.now)) (moment_of machine.old)) }
    ensures sound { SoundPart machine.new.heap result }
    ensures kept { GrownBy (length trailers.now) machine.old steps.old machine.new steps.new }
    ensures reads { LeavesPart (120 * length trailers.now) machine.old steps.old result machine.new steps.new }
    ensures owes { Owing (length trailers.now) machine.old result machine.new }
{
    let mut found = part(machine, atom, calls_left, steps);
    for trailer in trailers {
        match found {
            Ok(part) => {
                found = match trailer {
                    Trailer::Attribute(name) => dotted_part(machine, part, name, steps),
                    Trailer::Call(arguments) => called_part(
                        machine, part, arguments, calls_left, steps,
                    ),
                    Trailer::Index(index) => item_part(machine, part, index, calls_left, steps),
                    Trailer::Slice { start, stop, step } => {
                        sliced_part(machine, part, start, stop, step, calls_left, steps)
                    }
                }
            }
            Err(fault) => return Err(fault),
        }
    }
    found
}

/// A primary, in parentheses too, may be what a call or a walk asks for; all else is its value.
#[cycle(run)]
#[inline(never)]
#[tactic(auto, using(kishu_language::specs::trees::Rows::tree_rows))]
pub(crate) fn part<L: Ledger>(
    machine: &mut Machine,
    e: &Expr,
    calls_left: u32,
    steps: &mut Steps<L>,
) -> Result<Part, Fault>
    requires small_e { LowExpression e.now }
    requires fit_e { FitExpression e.now }
    requires room { HasRoom machine.old }
    ensures gives { Gives part_of result (moment_of machine.new) (part (call calls_left) (expression_of e.now) (expr (call calls_left) (expression_of e.now)) (moment_of machine.old)) }
    ensures sound { SoundPart machine.new.heap result }
    ensures kept { GrownBy 0 machine.old steps.old machine.new steps.new }
    ensures reads { LeavesPart 0 machine.old steps.old result machine.new steps.new }
    ensures owes { Owing 0 machine.old result machine.new }
{
    match e {
        Expr::Paren(inner) => deeper_part(machine, inner, calls_left, steps),
        Expr::Primary(atom, trailers) => primary_part(machine, atom, trailers, calls_left, steps),
        Expr::Name(_) => whole_part(machine, e, calls_left, steps),
        Expr::Int(_) => whole_part(machine, e, calls_left, steps),
        Expr::Text(_) => whole_part(machine, e, calls_left, steps),
        Expr::None => whole_part(machine, e, calls_left, steps),
        Expr::True => whole_part(machine, e, calls_left, steps),
        Expr::False => whole_part(machine, e, calls_left, steps),
        Expr::Tuple(_) => whole_part(machine, e, calls_left, steps),
        Expr::List(_) => whole_part(machine, e, calls_left, steps),
        Expr::Dict(_) => whole_part(machine, e, calls_left, steps),
        Expr::Conditional { .. } => whole_part(machine, e, calls_left, steps),
        Expr::Or(_) => whole_part(machine, e, calls_left, steps),
        Expr::And(_) => whole_part(machine, e, calls_left, steps),
        Expr::Not(_) => whole_part(machine, e, calls_left, steps),
        Expr::Signed(_, _) => whole_part(machine, e, calls_left, steps),
        Expr::Power(_, _) => whole_part(machine, e, calls_left, steps),
        Expr::Sum(_, _) => whole_part(machine, e, calls_left, steps),
        Expr::Product(_, _) => whole_part(machine, e, calls_left, steps),
        Expr::Compared(_, _) => whole_part(machine, e, calls_left, steps),
    }
}

#[cycle(run)]
#[inline(never)]
fn whole_part<L: Ledger>(
    machine: &mut Machine,
    e: &Expr,
    calls_left: u32,
    steps: &mut Steps<L>,
) -> Result<Part, Fault>
    requires small_e { LowExpression e.now }
    requires fit_e { FitExpression e.now }
    requires room { HasRoom machine.old }
    ensures gives { Gives part_of result (moment_of machine.new) ((expr (call calls_left) (expression_of e.now) ⊳ λ v. give (c.whole v)) (moment_of machine.old)) }
    ensures sound { SoundPart machine.new.heap result }
    ensures kept { GrownBy 0 machine.old steps.old machine.new steps.new }
    ensures reads { LeavesPart 0 machine.old steps.old result machine.new steps.new }
    ensures owes { Owing 0 machine.old result machine.new }
{
    Ok(Part::Whole(evaluate(machine, e, calls_left, steps)?))
}

#[cycle(run)]
#[inline(never)]
fn deeper_part<L: Ledger>(
    machine: &mut Machine,
    e: &Expr,
    calls_left: u32,
    steps: &mut Steps<L>,
) -> Result<Part, Fault>
    requires small_e { LowExpression e.now }
    requires fit_e { FitExpression e.now }
    requires room { HasRoom machine.old }
    ensures gives { Gives part_of result (moment_of machine.new) (deeper (part (call calls_left) (expression_of e.now) (expr (call calls_left) (expression_of e.now))) (moment_of machine.old)) }
    ensures sound { SoundPart machine.new.heap result }
    ensures kept { GrownBy 0 machine.old steps.old machine.new steps.new }
    ensures reads { LeavesPart 0 machine.old steps.old result machine.new steps.new }
    ensures owes { Owing 0 machine.old result machine.new }
{
    let depth = machine.budget.depth;
    if depth >= MOST_DEPTH {
        return too_deep(machine.alloc);
    }
    machine.budget.depth = depth + 1;
    let result = part(machine, e, calls_left, steps);
    machine.budget.depth = depth;
    result
}

#[cycle(run)]
#[inline(never)]
fn sliced_part<L: Ledger>(
    machine: &mut Machine,
    part: Part,
    start: &Option<Expr>,
    stop: &Option<Expr>,
    step: &Option<Expr>,
    calls_left: u32,
    steps: &mut Steps<L>,
) -> Result<Part, Fault>
    requires sound_part { IsSoundPart machine.old.heap part }
    requires small_start { LowBound start.now }
    requires fit_start { FitBound start.now }
    requires small_stop { LowBound stop.now }
    requires fit_stop { FitBound stop.now }
    requires small_step { LowBound step.now }
    requires fit_step { FitBound step.now }
    requires room { HasRoomBy (1 + owed (part_of part)) machine.old }
    ensures gives { Gives part_of result (moment_of machine.new) ((c.settled (part_of part) ⊳ λ v. slice_part (call calls_left) v (t.bound_of (tree_value start.now)) (t.bound_of (tree_value stop.now)) (t.bound_of (tree_value step.now))) (moment_of machine.old)) }
    ensures sound { SoundPart machine.new.heap result }
    ensures kept { GrownBy (1 + owed (part_of part)) machine.old steps.old machine.new steps.new }
    ensures reads { OwesReads (16 + 8 * owed (part_of part)) machine.old steps.old result machine.new steps.new }
    ensures owes { Owing (1 + owed (part_of part)) machine.old result machine.new }
{
    let value = match settled(machine, part, steps) {
        Ok(value) => value,
        Err(fault) => return Err(fault),
    };
    slice_part(machine, &value, start, stop, step, calls_left, steps)
}

// A callee, or a method, is found before the arguments are evaluated.
#[cycle(run)]
#[inline(never)]
fn called_part<L: Ledger>(
    machine: &mut Machine,
    part: Part,
    arguments: &[Argument],
    calls_left: u32,
    steps: &mut Steps<L>,
) -> Result<Part, Fault>
    requires sound_part { IsSoundPart machine.old.heap part }
    requires small { LowArguments arguments.now }
    requires fits { FitArguments arguments.now }
    requires differ { IsTrue (all_differ (keywords (arguments_of arguments.now))) }
    requires room { HasRoomBy (1 + owed (part_of part)) machine.old }
    ensures gives { Gives part_of result (moment_of machine.new) (m.trailer (call calls_left) (part_of part) (t.call (arguments_of arguments.now)) (moment_of machine.old)) }
    ensures sound { SoundPart machine.new.heap result }
    ensures kept { GrownBy (1 + owed (part_of part)) machine.old steps.old machine.new steps.new }
    ensures reads { OwesReads 104 machine.old steps.old result machine.new steps.new }
    ensures owes { Owing (1 + owed (part_of part)) machine.old result machine.new }
{
    let found = match callee_in(machine, part, arguments, steps) {
        Ok(found) => found,
        Err(fault) => return Err(fault),
    };
    match arguments_given(machine, arguments, calls_left, steps) {
        Ok(given) => apply(machine, found, given, calls_left, steps),
        Err(fault) => Err(fault),
    }
}

#[cycle(run)]
#[inline(never)]
fn item_part<L: Ledger>(
    machine: &mut Machine,
    part: Part,
    index: &Expr,
    calls_left: u32,
    steps: &mut Steps<L>,
) -> Result<Part, Fault>
    requires sound_part { IsSoundPart machine.old.heap part }
    requires small_index { LowExpression index.now }
    requires fit_index { FitExpression index.now }
    requires room { HasRoomBy (1 + owed (part_of part)) machine.old }
    ensures gives { Gives part_of result (moment_of machine.new) (m.trailer (call calls_left) (part_of part) (t.index (expression_of index.now)) (moment_of machine.old)) }
    ensures sound { SoundPart machine.new.heap result }
    ensures kept { GrownBy (1 + owed (part_of part)) machine.old steps.old machine.new steps.new }
    ensures reads { OwesReads (16 + 8 * owed (part_of part)) machine.old steps.old result machine.new steps.new }
    ensures owes { Owing (1 + owed (part_of part)) machine.old result machine.new }
{
    let value = match settled(machine, part, steps) {
        Ok(value) => value,
        Err(fault) => return Err(fault),
    };
    match deeper_value(machine, index, calls_left, steps) {
        Ok(index) => match item(machine, &value, &index, steps) {
            Ok(found) => Ok(Part::Whole(found)),
            Err(fault) => Err(fault),
        },
        Err(fault) => Err(fault),
    }
}

// An absent bound is None.
#[cycle(run)]
#[inline(never)]
fn bound_value<L: Ledger>(
    machine: &mut Machine,
    bound: &Option<Expr>,
    calls_left: u32,
    steps: &mut Steps<L>,
) -> Result<Value, Fault>
    requires small { LowBound bound.now }
    requires fits { FitBound bound.now }
    requires room { HasRoom machine.old }
    ensures gives { Gives value_of result (moment_of machine.new) (bound_value (call calls_left) (t.bound_of (tree_value bound.now)) (moment_of machine.old)) }
    ensures sound { SoundValue machine.new.heap result }
    ensures kept { GrownBy 0 machine.old steps.old machine.new steps.new }
    ensures reads { ReadsBy 0 machine.old steps.old machine.new steps.new }
{
    match bound {
        Some(e) => deeper_value(machine, e, calls_left, steps),
        None => Ok(Value::None),
    }
}

#[cycle(run)]
#[inline(never)]
fn slice_part<L: Ledger>(
    machine: &mut Machine,
    value: &Value,
    start: &Option<Expr>,
    stop: &Option<Expr>,
    step: &Option<Expr>,
    calls_left: u32,
    steps: &mut Steps<L>,
) -> Result<Part, Fault>
    requires sound_value { IsSoundIn machine.old.heap value.now }
    requires small_start { LowBound start.now }
    requires fit_start { FitBound start.now }
    requires small_stop { LowBound stop.now }
    requires fit_stop { FitBound stop.now }
    requires small_step { LowBound step.now }
    requires fit_step { FitBound step.now }
    requires room { HasRoomBy 1 machine.old }
    ensures gives { Gives part_of result (moment_of machine.new) (slice_part (call calls_left) (value_of value.now) (t.bound_of (tree_value start.now)) (t.bound_of (tree_value stop.now)) (t.bound_of (tree_value step.now)) (moment_of machine.old)) }
    ensures sound { SoundPart machine.new.heap result }
    ensures kept { GrownBy 1 machine.old steps.old machine.new steps.new }
    ensures reads { OwesReads 16 machine.old steps.old result machine.new steps.new }
    ensures owes { Owing 1 machine.old result machine.new }
{
    let start = match bound_value(machine, start, calls_left, steps) {
        Ok(start) => start,
        Err(fault) => return Err(fault),
    };
    let stop = match bound_value(machine, stop, calls_left, steps) {
        Ok(stop) => stop,
        Err(fault) => return Err(fault),
    };
    let step = match bound_value(machine, step, calls_left, steps) {
        Ok(step) => step,
        Err(fault) => return Err(fault),
    };
    let bounds = Bounds {
        start: &start,
        stop: &stop,
        step: &step,
    };
    match slice(machine, value, &bounds, steps) {
        Ok(found) => Ok(Part::Whole(found)),
        Err(fault) => Err(fault),
    }
}
