// Texts of values, and what is printed.
ghost use Rattle.std.specs.List.{flat_map};
ghost use Rattle.std.specs.Prelude.{IfOk, List, OnOk, [], length, map, true, ℕ, ◌*◌, ◌++◌, ◌+◌, ◌-◌, ◌<◌, ◌∷◌, ◌≡◌};
ghost use Rattle.std.specs.Str.{chars};
ghost use Rattle.std.specs.String.{string_bytes};
ghost use Rattle.kishu_meaning.specs.calls.Callees.{print};
ghost use Rattle.kishu_meaning.specs.moments.Counting.{Counted, ended_in};
ghost use Rattle.kishu_meaning.specs.moments.Moment.{Moment, fresh, most_depth};
ghost use Rattle.kishu_meaning.specs.comparing.Equal.{room_at};
ghost use Rattle.kishu_meaning.specs.comparing.Show.{argument_text, repr_nodes, repr_of, show, show_all, show_all_in, show_nodes, show_thrown};
ghost use Rattle.kishu_meaning.specs.values.Values.{none, value_of};
ghost use Rattle.kishu_machine.specs.Lists.{is_node, string_texts};
ghost use Rattle.kishu_machine.specs.Machine.{Gives, IsSound, moment_of, thrown_of, Costs};
ghost use Rattle.kishu_machine.specs.Clauses.{SoundEnd};
ghost use Rattle.kishu_heap.specs.Costs.{Spends};
ghost use Rattle.kishu_meaning.specs.values.Texts as words;
ghost use Rattle.kishu_show.specs.Shown as shown;

use crate::fault::{Fault, Thrown};
use crate::machine::{MOST_DEPTH, Machine};
use crate::stepping::{spend, tick, too_deep};
use crate::texts::push_text;
use kishu_heap::Heap;
use kishu_meaning::{Budget, ClassId, Steps, Value};
use kishu_show::ShowFault;
use kishu_text::count;
use std::alloc::{AllocError, Global};
use std::sync::ledger::Ledger;

fn made(alloc: Global, text: Result<String, ShowFault>) -> Result<String, Fault>
    ensures gives { (s : Moment) (left : ℕ) (e : Counted (List ℕ)) → shown.Gives (λ t. chars (string_bytes t)) text left e → Gives (λ t. chars (string_bytes t)) result (record s { left = left }) (ended_in s e) }
    ensures sound { (n : ℕ) → IsSound (λ _. true) n result }
{
    match text {
        Ok(text) => Ok(text),
        Err(ShowFault::Depth) => too_deep(alloc),
        Err(ShowFault::Spent) => Err(Fault::Stopped),
        Err(ShowFault::NoMemory) => Err(Fault::NoMemory),
    }
}

/// The repr of a value (Library Reference, "Built-in Functions": repr). Its code points are steps.
pub fn repr_of<L: Ledger>(
    machine: &mut Machine,
    value: &Value,
    steps: &mut Steps<L>,
) -> Result<String, Fault>
    ensures gives { Gives (λ t. chars (string_bytes t)) result (moment_of machine.new) (repr_of (value_of value.now) (moment_of machine.old)) }
    ensures sound { SoundEnd machine.new.heap result }
    ensures costs { Costs 0 8 machine.old steps.old machine.new steps.new }
    ensures heap { machine.new.heap ≡ machine.old.heap }
{
    let alloc = machine.alloc;
    let text = kishu_show::repr_of(alloc, value, &machine.heap, &mut machine.budget, steps);
    made(alloc, text)
}

/// The str of a value (Library Reference, "Text Sequence Type": str). Its code points are steps.
pub fn show<L: Ledger>(
    machine: &mut Machine,
    value: &Value,
    steps: &mut Steps<L>,
) -> Result<String, Fault>
    ensures gives { Gives (λ t. chars (string_bytes t)) result (moment_of machine.new) (show (value_of value.now) (moment_of machine.old)) }
    ensures sound { SoundEnd machine.new.heap result }
    ensures costs { Costs 0 8 machine.old steps.old machine.new steps.new }
    ensures heap { machine.new.heap ≡ machine.old.heap }
{
    let alloc = machine.alloc;
    let text = kishu_show::show(alloc, value, &machine.heap, &mut machine.budget, steps);
    made(alloc, text)
}

// ---- exceptions

// The text of what an exception shows, which lies inside it. A KeyError's argument is shown as a key.
fn inner_text<L: Ledger>(
    alloc: Global,
    class: ClassId,
    argument: &Value,
    heap: &Heap,
    budget: &mut Budget,
    steps: &mut Steps<L>,
) -> Result<String, ShowFault>
    ensures gives { shown.Gives (λ t. chars (string_bytes t)) result budget.new.left (argument_text (repr_nodes heap.now (room_at budget.old.depth) []) (show_nodes heap.now (room_at budget.old.depth)) class.0 (value_of argument.now) budget.old.left) }
    ensures spends { Spends 2 budget.old steps.old budget.new steps.new }
{
    if class == ClassId::KEY_ERROR {
        kishu_show::repr_of(alloc, argument, heap, budget, steps)
    } else {
        kishu_show::show(alloc, argument, heap, budget, steps)
    }
}

fn is_node(value: &Value) -> bool
    ensures { result ≡ is_node (value_of value.now) }
{
    match value {
        Value::Node(_) => true,
        Value::None
        | Value::Bool(_)
        | Value::Int(_)
        | Value::Text(_)
        | Value::Range(..)
        | Value::Builtin(_)
        | Value::Class(_) => false,
    }
}

// The same one level deeper.
fn text_below<L: Ledger>(
    alloc: Global,
    class: ClassId,
    argument: &Value,
    heap: &Heap,
    budget: &mut Budget,
    steps: &mut Steps<L>,
) -> Result<String, ShowFault>
    requires { budget.old.depth < most_depth }
    ensures gives { shown.Gives (λ t. chars (string_bytes t)) result budget.new.left (argument_text (repr_nodes heap.now (most_depth - budget.old.depth) []) (show_nodes heap.now (most_depth - budget.old.depth)) class.0 (value_of argument.now) budget.old.left) }
    ensures spends { Spends 2 budget.old steps.old budget.new steps.new }
{
    let mut inner = Budget {
        left: budget.left,
        depth: budget.depth + 1,
    };
    let text = inner_text(alloc, class, argument, heap, &mut inner, steps);
    budget.left = inner.left;
    text
}

// The same where the greatest depth may be reached: there no node may lie inside another.
fn deeper_text<L: Ledger>(
    alloc: Global,
    class: ClassId,
    argument: &Value,
    heap: &Heap,
    budget: &mut Budget,
    steps: &mut Steps<L>,
) -> Result<String, ShowFault>
    ensures gives { shown.Gives (λ t. chars (string_bytes t)) result budget.new.left (argument_text (repr_nodes heap.now (most_depth - budget.old.depth) []) (show_nodes heap.now (most_depth - budget.old.depth)) class.0 (value_of argument.now) budget.old.left) }
    ensures spends { Spends 2 budget.old steps.old budget.new steps.new }
{
    if budget.depth < MOST_DEPTH {
        return text_below(alloc, class, argument, heap, budget, steps);
    }
    if is_node(argument) {
        return Err(ShowFault::Depth);
    }
    inner_text(alloc, class, argument, heap, budget, steps)
}

// The text of an exception that has one argument.
fn argument_text<L: Ledger>(
    machine: &mut Machine,
    class: ClassId,
    argument: &Value,
    steps: &mut Steps<L>,
) -> Result<String, Fault>
    ensures gives { Gives (λ t. chars (string_bytes t)) result (moment_of machine.new) (show_thrown (fresh class.0 (value_of argument.now ∷ [])) (moment_of machine.old)) }
    ensures sound { SoundEnd machine.new.heap result }
    ensures costs { Costs 0 0 machine.old steps.old machine.new steps.new }
    ensures heap { machine.new.heap ≡ machine.old.heap }
{
    tick(machine, steps)?;
    let alloc = machine.alloc;
    let text = deeper_text(
        alloc,
        class,
        argument,
        &machine.heap,
        &mut machine.budget,
        steps,
    );
    made(alloc, text)
}

/// The str of an exception on its way.
pub fn show_thrown<L: Ledger>(
    machine: &mut Machine,
    thrown: &Thrown,
    steps: &mut Steps<L>,
) -> Result<String, Fault>
    ensures gives { Gives (λ t. chars (string_bytes t)) result (moment_of machine.new) (show_thrown (thrown_of thrown.now) (moment_of machine.old)) }
    ensures sound { SoundEnd machine.new.heap result }
    ensures costs { Costs 0 8 machine.old steps.old machine.new steps.new }
    ensures heap { machine.new.heap ≡ machine.old.heap }
{
    match thrown {
        Thrown::With(class, argument) => argument_text(machine, *class, argument, steps),
        Thrown::Plain(_) => Ok(String::new(machine.alloc)),
        Thrown::Object(id) => show(machine, &Value::Node(*id), steps),
    }
}

// ---- `print`

fn all_texts<L: Ledger>(
    alloc: Global,
    values: &[Value],
    heap: &Heap,
    budget: &mut Budget,
    steps: &mut Steps<L>,
) -> Result<Vec<String>, Fault>
    ensures gives { (s : Moment) → Gives string_texts result (record s { left = budget.new.left }) (ended_in s (show_all_in heap.now budget.old.depth (map value_of values.now) budget.old.left)) }
    ensures sound { (n : ℕ) → IsSound (λ _. true) n result }
    ensures spends { Spends (2 * length values.now) budget.old steps.old budget.new steps.new }
{
    let mut texts = Vec::new(alloc);
    for value in values {
        let text = kishu_show::show(alloc, value, heap, budget, steps);
        texts.push(made(alloc, text)?)?;
    }
    Ok(texts)
}

fn show_all<L: Ledger>(
    machine: &mut Machine,
    values: &[Value],
    steps: &mut Steps<L>,
) -> Result<Vec<String>, Fault>
    ensures gives { Gives string_texts result (moment_of machine.new) (show_all (map value_of values.now) (moment_of machine.old)) }
    ensures sound { SoundEnd machine.new.heap result }
    ensures costs { Costs 0 (2 * length values.now) machine.old steps.old machine.new steps.new }
    ensures heap { machine.new.heap ≡ machine.old.heap }
{
    let alloc = machine.alloc;
    all_texts(alloc, values, &machine.heap, &mut machine.budget, steps)
}

fn push_others(out: &mut String, separator: &str, texts: &[String]) -> Result<(), AllocError>
    ensures { OnOk result (chars (string_bytes out.new) ≡ chars (string_bytes out.old) ++ flat_map (λ next. chars separator.now ++ next) (map (λ t. chars (string_bytes t)) texts.now)) }
{
    for text in texts {
        push_text(out, separator)?;
        push_text(out, text.as_str())?;
    }
    Ok(())
}

fn push_joined(out: &mut String, separator: &str, texts: &[String]) -> Result<(), AllocError>
    ensures { OnOk result (chars (string_bytes out.new) ≡ chars (string_bytes out.old) ++ words.joined (chars separator.now) (map (λ t. chars (string_bytes t)) texts.now)) }
{
    let Some((first, others)) = texts.split_first() else {
        return Ok(());
    };
    push_text(out, first.as_str())?;
    push_others(out, separator, others)
}

// How many code points the separators and the end are.
fn marks(separator: &str, end: &str, texts: usize) -> u128
    ensures { result ≡ length (chars separator.now) * (texts - 1) + length (chars end.now) }
{
    let between = texts.saturating_sub(1) as u128;
    count(separator) as u128 * between + count(end) as u128
}

/// The texts of the values, between them the separator, and the end: put out when it is made whole.
pub fn print<L: Ledger>(
    machine: &mut Machine,
    separator: &str,
    end: &str,
    values: &[Value],
    steps: &mut Steps<L>,
) -> Result<Value, Fault>
    ensures gives { Gives value_of result (moment_of machine.new) (print (chars separator.now) (chars end.now) (map value_of values.now) (moment_of machine.old)) }
    ensures sound { SoundEnd machine.new.heap result }
    ensures costs { Costs 0 (2 * length values.now) machine.old steps.old machine.new steps.new }
    ensures heap { machine.new.heap ≡ machine.old.heap }
    ensures none { IfOk result (λ v. value_of v ≡ none) }
{
    let texts = show_all(machine, values, steps)?;
    spend(machine, marks(separator, end, texts.len()), steps)?;
    push_joined(&mut machine.printed, separator, texts.as_slice())?;
    push_text(&mut machine.printed, end)?;
    Ok(Value::None)
}
