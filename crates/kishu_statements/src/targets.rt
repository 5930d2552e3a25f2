// Places and targets (Python Language Reference 3, "Assignment statements").
ghost use Rattle.std.specs.Prelude.{IsTrue, OnOk, codes, length, map, ◌*◌, ◌+◌, ◌<◌, ◌≡◌, ◌≤◌};
ghost use Rattle.std.specs.List.{list_all};
ghost use Rattle.kishu_statements.specs.Forms.{PlaceReads};
ghost use Rattle.kishu_language.specs.grammar.Targets.{is_target, are_targets};
ghost use Rattle.kishu_meaning.specs.calls.Callees.{settled};
ghost use Rattle.kishu_language.specs.trees.Height.{of_trailer};
ghost use Rattle.kishu_meaning.specs.cells.Meaning.{call, nodes_before_last, place, place_by, store, store_all, store_each, store_in};
ghost use Rattle.kishu_meaning.specs.moments.Moment.{deeper, ◌>>=◌ as ◌⊳◌};
ghost use Rattle.kishu_language.specs.trees.Tree.{expression_of};
ghost use Rattle.kishu_meaning.specs.values.Values.{value_of};
ghost use Rattle.kishu_access.specs.Access.{place_of, SoundPlace};
ghost use Rattle.kishu_calls.specs.Calls.{owed, part_of, IsSoundPart};
ghost use Rattle.kishu_language.specs.trees.Parts.{expressions_of, trailer_of, trailers_of};
ghost use Rattle.kishu_language.specs.trees.Fits.{TrailerFits};
ghost use Rattle.kishu_meaning.specs.values.Classes.{syntax_error_class};
ghost use Rattle.kishu_machine.specs.Machine.{Gives, GrownBy, HasRoom, HasRoomBy, IsRaised, ReadsBy, moment_of};
ghost use Rattle.kishu_machine.specs.Clauses.{AreSoundIn, IsSoundIn, SoundEnd};
ghost use Rattle.kishu_statements.specs.Handed.{FitExpression, FitExpressions, FitTargets, FitTrailers, LowExpression, LowExpressions, LowTargets, LowTrailers};
ghost use Rattle.kishu_language.specs.Limits.{height_limit};
ghost use Rattle.kishu_language.specs.trees.Tree as t;

use crate::expressions::deeper_value;
use crate::primaries::part_behind;
use kishu_access::{Place, store_in, unpacked};
use kishu_calls::{Part, settled};
use kishu_items::plain_text;
use kishu_language::{Expr, Trailer};
use kishu_machine::{Fault, MOST_DEPTH, Machine, raise, tick, too_deep};
use kishu_meaning::{ClassId, Steps, Value};
use std::alloc::Global;
use std::sync::ledger::Ledger;

// ---- which place it is

// What the tree of no text has where a place or a target stands.
fn no_place<T>(alloc: Global) -> Result<T, Fault>
    ensures { IsRaised result syntax_error_class (codes "invalid syntax") }
{
    raise(ClassId::SYNTAX_ERROR, plain_text(alloc, "invalid syntax")?)
}

/// The place that an expression is: its container is evaluated, and then the index.
#[cycle(run)]
#[inline(never)]
#[tactic(auto, using(kishu_language::specs::trees::Rows::tree_rows))]
pub(crate) fn place_at<L: Ledger>(
    machine: &mut Machine,
    e: &Expr,
    calls_left: u32,
    steps: &mut Steps<L>,
) -> Result<Place, Fault>
    requires small_e { LowExpression e.now }
    requires fit_e { FitExpression e.now }
    requires room { HasRoom machine.old }
    ensures gives { Gives place_of result (moment_of machine.new) (place (call calls_left) (expression_of e.now) (moment_of machine.old)) }
    ensures sound { SoundPlace machine.new.heap result }
    ensures kept { GrownBy 0 machine.old steps.old machine.new steps.new }
    ensures reads { PlaceReads 0 machine.old steps.old result machine.new steps.new }
{
    match e {
        Expr::Name(name) => Ok(Place::Named(name.clone()?)),
        Expr::Primary(atom, trailers) => primary_place(machine, atom, trailers, calls_left, steps),
        Expr::Int(_) => no_place(machine.alloc),
        Expr::Text(_) => no_place(machine.alloc),
        Expr::None => no_place(machine.alloc),
        Expr::True => no_place(machine.alloc),
        Expr::False => no_place(machine.alloc),
        Expr::Paren(_) => no_place(machine.alloc),
        Expr::Tuple(_) => no_place(machine.alloc),
        Expr::List(_) => no_place(machine.alloc),
        Expr::Dict(_) => no_place(machine.alloc),
        Expr::Conditional { .. } => no_place(machine.alloc),
        Expr::Or(_) => no_place(machine.alloc),
        Expr::And(_) => no_place(machine.alloc),
        Expr::Not(_) => no_place(machine.alloc),
        Expr::Signed(_, _) => no_place(machine.alloc),
        Expr::Power(_, _) => no_place(machine.alloc),
        Expr::Sum(_, _) => no_place(machine.alloc),
        Expr::Product(_, _) => no_place(machine.alloc),
        Expr::Compared(_, _) => no_place(machine.alloc),
    }
}

// The nodes of a place's container take their steps: what is done with it last has no node.
fn take_container_nodes<L: Ledger>(
    machine: &mut Machine,
    trailers: &[Trailer],
    steps: &mut Steps<L>,
) -> Result<(), Fault>
    ensures gives { Gives (λ u. u) result (moment_of machine.new) (nodes_before_last (trailers_of trailers.now) (moment_of machine.old)) }
    ensures sound { SoundEnd machine.new.heap result }
    ensures kept { GrownBy 0 machine.old steps.old machine.new steps.new }
    ensures counted { steps.new + machine.new.budget.left ≡ steps.old + machine.old.budget.left }
    ensures taken { OnOk result (machine.new.budget.left + length trailers.now ≤ machine.old.budget.left + 1) }
    ensures heap { machine.new.heap ≡ machine.old.heap }
{
    for _place in 1..trailers.len() {
        tick(machine, steps)?;
    }
    Ok(())
}

#[cycle(run)]
#[inline(never)]
fn primary_place<L: Ledger>(
    machine: &mut Machine,
    atom: &Expr,
    trailers: &[Trailer],
    calls_left: u32,
    steps: &mut Steps<L>,
) -> Result<Place, Fault>
    requires small_atom { LowExpression atom.now }
    requires fit_atom { FitExpression atom.now }
    requires small_trailers { LowTrailers trailers.now }
    requires fit_trailers { FitTrailers trailers.now }
    requires room { HasRoom machine.old }
    ensures gives { Gives place_of result (moment_of machine.new) (place (call calls_left) (t.primary (expression_of atom.now) (trailers_of trailers.now)) (moment_of machine.old)) }
    ensures sound { SoundPlace machine.new.heap result }
    ensures kept { GrownBy 0 machine.old steps.old machine.new steps.new }
    ensures reads { PlaceReads 0 machine.old steps.old result machine.new steps.new }
{
    take_container_nodes(machine, trailers, steps)?;
    let Some((last, before)) = trailers.split_last() else {
        let _part = part_behind(machine, atom, &[], calls_left, steps)?;
        return no_place(machine.alloc);
    };
    let part = part_behind(machine, atom, before, calls_left, steps)?;
    last_place(machine, part, last, calls_left, steps)
}

// What is done with a container last.
#[cycle(run)]
#[inline(never)]
#[tactic(auto, using(kishu_language::specs::trees::Rows::tree_rows))]
fn last_place<L: Ledger>(
    machine: &mut Machine,
    part: Part,
    last: &Trailer,
    calls_left: u32,
    steps: &mut Steps<L>,
) -> Result<Place, Fault>
    requires sound_part { IsSoundPart machine.old.heap part }
    requires small { of_trailer (trailer_of last.now) < height_limit }
    requires fits { TrailerFits (trailer_of last.now) }
    requires room { HasRoomBy (owed (part_of part)) machine.old }
    ensures gives { Gives place_of result (moment_of machine.new) ((settled (part_of part) ⊳ λ v. place_by (call calls_left) v (trailer_of last.now)) (moment_of machine.old)) }
    ensures sound { SoundPlace machine.new.heap result }
    ensures kept { GrownBy (owed (part_of part)) machine.old steps.old machine.new steps.new }
    ensures reads { PlaceReads (24 + 8 * owed (part_of part)) machine.old steps.old result machine.new steps.new }
{
    let value = settled(machine, part, steps)?;
    match last {
        Trailer::Attribute(name) => Ok(Place::Attribute(value, name.clone()?)),
        Trailer::Index(index) => {
            let index = deeper_value(machine, index, calls_left, steps)?;
            Ok(Place::Item(value, index))
        }
        Trailer::Call(_) => no_place(machine.alloc),
        Trailer::Slice { .. } => no_place(machine.alloc),
    }
}

// ---- targets

/// Puts a value into a target. A pattern takes the items first.
#[cycle(run)]
#[inline(never)]
#[tactic(auto, using(kishu_language::specs::trees::Rows::tree_rows))]
pub(crate) fn store<L: Ledger>(
    machine: &mut Machine,
    target: &Expr,
    value: &Value,
    calls_left: u32,
    steps: &mut Steps<L>,
) -> Result<(), Fault>
    requires small_target { LowExpression target.now }
    requires fit_target { FitExpression target.now }
    requires sound_value { IsSoundIn machine.old.heap value.now }
    requires room { HasRoom machine.old }
    requires target { IsTrue (is_target (expression_of target.now)) }
    ensures gives { Gives (λ u. u) result (moment_of machine.new) (store (call calls_left) (expression_of target.now) (value_of value.now) (moment_of machine.old)) }
    ensures sound { SoundEnd machine.new.heap result }
    ensures kept { GrownBy 0 machine.old steps.old machine.new steps.new }
    ensures reads { ReadsBy 24 machine.old steps.old machine.new steps.new }
    ensures stored { OnOk result (ReadsBy 0 machine.old steps.old machine.new steps.new) }
{
    match target {
        Expr::Name(_) => store_place(machine, target, value, calls_left, steps),
        Expr::Primary(_, _) => store_place(machine, target, value, calls_left, steps),
        Expr::Paren(inner) => store_deeper(machine, inner, value, calls_left, steps),
        Expr::Tuple(targets) => store_pattern(machine, targets, value, calls_left, steps),
        Expr::List(targets) => store_deeper_pattern(machine, targets, value, calls_left, steps),
        Expr::Int(_) => no_place(machine.alloc),
        Expr::Text(_) => no_place(machine.alloc),
        Expr::None => no_place(machine.alloc),
        Expr::True => no_place(machine.alloc),
        Expr::False => no_place(machine.alloc),
        Expr::Dict(_) => no_place(machine.alloc),
        Expr::Conditional { .. } => no_place(machine.alloc),
        Expr::Or(_) => no_place(machine.alloc),
        Expr::And(_) => no_place(machine.alloc),
        Expr::Not(_) => no_place(machine.alloc),
        Expr::Signed(_, _) => no_place(machine.alloc),
        Expr::Power(_, _) => no_place(machine.alloc),
        Expr::Sum(_, _) => no_place(machine.alloc),
        Expr::Product(_, _) => no_place(machine.alloc),
        Expr::Compared(_, _) => no_place(machine.alloc),
    }
}

#[cycle(run)]
#[inline(never)]
fn store_place<L: Ledger>(
    machine: &mut Machine,
    target: &Expr,
    value: &Value,
    calls_left: u32,
    steps: &mut Steps<L>,
) -> Result<(), Fault>
    requires small_target { LowExpression target.now }
    requires fit_target { FitExpression target.now }
    requires sound_value { IsSoundIn machine.old.heap value.now }
    requires room { HasRoom machine.old }
    ensures gives { Gives (λ u. u) result (moment_of machine.new) ((place (call calls_left) (expression_of target.now) ⊳ λ p. store_in p (value_of value.now)) (moment_of machine.old)) }
    ensures sound { SoundEnd machine.new.heap result }
    ensures kept { GrownBy 0 machine.old steps.old machine.new steps.new }
    ensures reads { ReadsBy 24 machine.old steps.old machine.new steps.new }
    ensures stored { OnOk result (ReadsBy 0 machine.old steps.old machine.new steps.new) }
{
    let found = place_at(machine, target, calls_left, steps)?;
    store_in(machine, &found, value.copied()?, steps)
}

#[cycle(run)]
#[inline(never)]
fn store_deeper<L: Ledger>(
    machine: &mut Machine,
    target: &Expr,
    value: &Value,
    calls_left: u32,
    steps: &mut Steps<L>,
) -> Result<(), Fault>
    requires small_target { LowExpression target.now }
    requires fit_target { FitExpression target.now }
    requires sound_value { IsSoundIn machine.old.heap value.now }
    requires room { HasRoom machine.old }
    requires target { IsTrue (is_target (expression_of target.now)) }
    ensures gives { Gives (λ u. u) result (moment_of machine.new) (deeper (store (call calls_left) (expression_of target.now) (value_of value.now)) (moment_of machine.old)) }
    ensures sound { SoundEnd machine.new.heap result }
    ensures kept { GrownBy 0 machine.old steps.old machine.new steps.new }
    ensures reads { ReadsBy 24 machine.old steps.old machine.new steps.new }
    ensures stored { OnOk result (ReadsBy 0 machine.old steps.old machine.new steps.new) }
{
    let depth = machine.budget.depth;
    if depth >= MOST_DEPTH {
        return too_deep(machine.alloc);
    }
    machine.budget.depth = depth + 1;
    let result = store(machine, target, value, calls_left, steps);
    machine.budget.depth = depth;
    result
}

#[cycle(run)]
#[inline(never)]
fn store_pattern<L: Ledger>(
    machine: &mut Machine,
    targets: &[Expr],
    value: &Value,
    calls_left: u32,
    steps: &mut Steps<L>,
) -> Result<(), Fault>
    requires small_targets { LowExpressions targets.now }
    requires fit_targets { FitExpressions targets.now }
    requires sound_value { IsSoundIn machine.old.heap value.now }
    requires room { HasRoom machine.old }
    requires targets { IsTrue (are_targets (expressions_of targets.now)) }
    ensures gives { Gives (λ u. u) result (moment_of machine.new) (store (call calls_left) (t.tuple (expressions_of targets.now)) (value_of value.now) (moment_of machine.old)) }
    ensures sound { SoundEnd machine.new.heap result }
    ensures kept { GrownBy 0 machine.old steps.old machine.new steps.new }
    ensures reads { ReadsBy 24 machine.old steps.old machine.new steps.new }
    ensures stored { OnOk result (ReadsBy 0 machine.old steps.old machine.new steps.new) }
{
    let items = unpacked(machine, targets.len(), value, steps)?;
    store_each(machine, targets, items.as_slice(), calls_left, steps)
}

#[cycle(run)]
#[inline(never)]
fn store_deeper_pattern<L: Ledger>(
    machine: &mut Machine,
    targets: &[Expr],
    value: &Value,
    calls_left: u32,
    steps: &mut Steps<L>,
) -> Result<(), Fault>
    requires small_targets { LowExpressions targets.now }
    requires fit_targets { FitExpressions targets.now }
    requires sound_value { IsSoundIn machine.old.heap value.now }
    requires room { HasRoom machine.old }
    requires targets { IsTrue (are_targets (expressions_of targets.now)) }
    ensures gives { Gives (λ u. u) result (moment_of machine.new) (store (call calls_left) (t.list (expressions_of targets.now)) (value_of value.now) (moment_of machine.old)) }
    ensures sound { SoundEnd machine.new.heap result }
    ensures kept { GrownBy 0 machine.old steps.old machine.new steps.new }
    ensures reads { ReadsBy 24 machine.old steps.old machine.new steps.new }
    ensures stored { OnOk result (ReadsBy 0 machine.old steps.old machine.new steps.new) }
{
    let depth = machine.budget.depth;
    if depth >= MOST_DEPTH {
        return too_deep(machine.alloc);
    }
    machine.budget.depth = depth + 1;
    let result = store_pattern(machine, targets, value, calls_left, steps);
    machine.budget.depth = depth;
    result
}

// From left to right.
#[cycle(run)]
#[inline(never)]
fn store_each<L: Ledger>(
    machine: &mut Machine,
    targets: &[Expr],
    items: &[Value],
    calls_left: u32,
    steps: &mut Steps<L>,
) -> Result<(), Fault>
    requires small_targets { LowExpressions targets.now }
    requires fit_targets { FitExpressions targets.now }
    requires sound_items { AreSoundIn machine.old.heap items.now }
    requires room { HasRoom machine.old }
    requires targets { IsTrue (list_all is_target (map expression_of targets.now)) }
    ensures gives { Gives (λ u. u) result (moment_of machine.new) (store_each (call calls_left) (expressions_of targets.now) (map value_of items.now) (moment_of machine.old)) }
    ensures sound { SoundEnd machine.new.heap result }
    ensures kept { GrownBy 0 machine.old steps.old machine.new steps.new }
    ensures reads { ReadsBy 24 machine.old steps.old machine.new steps.new }
    ensures stored { OnOk result (ReadsBy 0 machine.old steps.old machine.new steps.new) }
{
    for i in 0..targets.len() {
        if i < items.len() {
            store(machine, &targets[i], &items[i], calls_left, steps)?;
        }
    }
    Ok(())
}

/// Puts a value into targets, from left to right.
#[cycle(run)]
#[inline(never)]
pub(crate) fn store_all<L: Ledger>(
    machine: &mut Machine,
    targets: &[Expr],
    value: &Value,
    calls_left: u32,
    steps: &mut Steps<L>,
) -> Result<(), Fault>
    requires small { LowTargets targets.now }
    requires fits { FitTargets targets.now }
    requires sound_value { IsSoundIn machine.old.heap value.now }
    requires room { HasRoom machine.old }
    requires targets { IsTrue (list_all is_target (map expression_of targets.now)) }
    ensures gives { Gives (λ u. u) result (moment_of machine.new) (store_all (call calls_left) (map expression_of targets.now) (value_of value.now) (moment_of machine.old)) }
    ensures sound { SoundEnd machine.new.heap result }
    ensures kept { GrownBy 0 machine.old steps.old machine.new steps.new }
    ensures reads { ReadsBy 24 machine.old steps.old machine.new steps.new }
    ensures stored { OnOk result (ReadsBy 0 machine.old steps.old machine.new steps.new) }
{
    for target in targets {
        store(machine, target, value, calls_left, steps)?;
    }
    Ok(())
}
