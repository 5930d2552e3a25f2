// Calls of builtin functions, classes and methods (Library Reference, "Built-in Functions").
ghost use Rattle.std.specs.Prelude.{IfOk, IsTrue, List, [], codes, length, map, slice_get, ◌*◌, ◌+◌, ◌<◌, ◌^◌, ◌∷◌, ◌≡◌, ◌≢◌};
ghost use Rattle.kishu_meaning.specs.calls.Builtins.{builtin_calls, of_none_or_one, of_one};
ghost use Rattle.kishu_meaning.specs.calls.Callees.{by_plain, call_builtin, construct, new_object, or_no_call, print_by, print_plain};
ghost use Rattle.kishu_language.specs.tokens.Lines.{line_feed};
ghost use Rattle.kishu_meaning.specs.calls.Methods.{call_method, has_method};
ghost use Rattle.kishu_language.specs.grammar.Refusals.{all_differ};
ghost use Rattle.kishu_meaning.specs.moments.Moment.{Moment, give, ◌>>=◌ as ◌⊳◌};
ghost use Rattle.kishu_meaning.specs.comparing.Show.{repr_of, show};
ghost use Rattle.kishu_meaning.specs.values.Values.{value_of};
ghost use Rattle.kishu_heap.specs.Cells.{attributes_of};
ghost use Rattle.kishu_items.specs.Messages.{is_plain};
ghost use Rattle.kishu_calls.specs.Calls.{PrintsBy, given_of, named_of, IsSoundGiven};
ghost use Rattle.kishu_calls.specs.Forms.{plain_construct};
ghost use Rattle.kishu_machine.specs.Machine.{Gives, HasRoomBy, moment_of, Costs};
ghost use Rattle.kishu_machine.specs.Clauses.{AreSoundIn, IsSoundIn, SoundEnd, SoundValue};
ghost use Rattle.kishu_heap.specs.Costs.{Grows};
ghost use Rattle.kishu_meaning.specs.values.Values as model;
ghost use Rattle.kishu_meaning.specs.values.Classes.{namespace_class, str_class};
ghost use Rattle.kishu_meaning.specs.values.BuiltinNames.{builtin_number};
ghost use Rattle.kishu_meaning.specs.values.BuiltinNames as functions;
ghost use Rattle.kishu_meaning.specs.values.Sound.{builtins, classes};

use crate::callees::Given;
use indexmap::IndexMap;
use kishu_heap::Node;
use kishu_machine::{
    Fault, Machine, bad_arguments, is_same_text, make, no_attribute, passed, print, repr_of,
    shared, show,
};
use kishu_meaning::{Builtin, ClassId, Steps, Value, builtin_name, class_name};
use std::alloc::{AllocError, Global};
use std::rc::RcStr;
use std::sync::ledger::Ledger;

// ---- `print`

/// The separator and the end of a `print`, where they are given.
#[derive(Drop)]
struct Marks {
    separator: RcStr,
    end: RcStr,
}

// `sep` and `end` are texts.
fn marks_in(alloc: Global, named: &[(RcStr, Value)]) -> Result<Marks, Fault>
    ensures { (s : Moment) (vs : List model.Value) → PrintsBy result (named_of named.now) vs s }
{
    let mut separator = RcStr::from_str(alloc, " ")?;
    let mut end = RcStr::from_str(alloc, "\n")?;
    for (name, value) in named {
        let Value::Text(text) = value else {
            return bad_arguments(alloc, "print");
        };
        if is_same_text(name.as_str(), "sep") {
            separator = text.clone()?;
        } else if is_same_text(name.as_str(), "end") {
            end = text.clone()?;
        } else {
            return bad_arguments(alloc, "print");
        }
    }
    Ok(Marks { separator, end })
}

fn print_by<L: Ledger>(
    machine: &mut Machine,
    given: &Given,
    steps: &mut Steps<L>,
) -> Result<Value, Fault>
    ensures gives { Gives value_of result (moment_of machine.new) (print_by (named_of given.now.named.items) (codes " ") (line_feed ∷ []) (map value_of given.now.plain.items) (moment_of machine.old)) }
    ensures sound { SoundEnd machine.new.heap result }
    ensures costs { Costs 0 (2 * length given.now.plain.items) machine.old steps.old machine.new steps.new }
    ensures heap { machine.new.heap ≡ machine.old.heap }
{
    let marks = marks_in(machine.alloc, given.named.as_slice())?;
    let (separator, end) = (marks.separator.as_str(), marks.end.as_str());
    print(machine, separator, end, given.plain.as_slice(), steps)
}

// ---- builtin functions

// `repr` of one value.
fn repr_call<L: Ledger>(
    machine: &mut Machine,
    values: &[Value],
    steps: &mut Steps<L>,
) -> Result<Value, Fault>
    ensures gives { Gives value_of result (moment_of machine.new) (of_one (codes "repr") (λ v. repr_of v ⊳ λ cs. give (model.text cs)) (map value_of values.now) (moment_of machine.old)) }
    ensures sound { SoundEnd machine.new.heap result }
    ensures costs { Costs 0 8 machine.old steps.old machine.new steps.new }
    ensures heap { machine.new.heap ≡ machine.old.heap }
{
    let [value] = values else {
        return bad_arguments(machine.alloc, "repr");
    };
    let text = repr_of(machine, value, steps)?;
    Ok(Value::Text(shared(text)?))
}

// A builtin function but `print` and `repr`, which takes no keywords.
fn other_builtin<L: Ledger>(
    machine: &mut Machine,
    builtin: Builtin,
    values: &[Value],
    steps: &mut Steps<L>,
) -> Result<Value, Fault>
    requires room { HasRoomBy 1 machine.old }
    requires sound_values { AreSoundIn machine.old.heap values.now }
    requires builtin { builtin.0 < builtins }
    requires no_print { builtin.0 ≢ builtin_number functions.print }
    requires no_repr { builtin.0 ≢ builtin_number functions.repr }
    ensures gives { Gives value_of result (moment_of machine.new) (or_no_call (slice_get (builtin_calls print_plain) builtin.0) (map value_of values.now) (moment_of machine.old)) }
    ensures sound { SoundValue machine.new.heap result }
    ensures costs { Costs 1 3 machine.old steps.old machine.new steps.new }
{
    passed(kishu_builtins::call_builtin(
        machine.alloc,
        builtin,
        values,
        &mut machine.heap,
        &mut machine.budget,
        steps,
    ))
}

// A builtin function but `print`, which takes no keywords.
fn plain_builtin<L: Ledger>(
    machine: &mut Machine,
    builtin: Builtin,
    values: &[Value],
    steps: &mut Steps<L>,
) -> Result<Value, Fault>
    requires room { HasRoomBy 1 machine.old }
    requires sound_values { AreSoundIn machine.old.heap values.now }
    requires builtin { builtin.0 < builtins }
    requires other { builtin.0 ≢ builtin_number functions.print }
    ensures gives { Gives value_of result (moment_of machine.new) (or_no_call (slice_get (builtin_calls print_plain) builtin.0) (map value_of values.now) (moment_of machine.old)) }
    ensures sound { SoundValue machine.new.heap result }
    ensures costs { Costs 1 8 machine.old steps.old machine.new steps.new }
{
    if builtin.0 == Builtin::REPR.0 {
        return repr_call(machine, values, steps);
    }
    other_builtin(machine, builtin, values, steps)
}

/// What a builtin function gives.
#[inline(never)]
pub fn call_builtin<L: Ledger>(
    machine: &mut Machine,
    builtin: Builtin,
    given: &Given,
    steps: &mut Steps<L>,
) -> Result<Value, Fault>
    requires room { HasRoomBy 1 machine.old }
    requires sound_given { IsSoundGiven machine.old.heap given.now }
    requires builtin { builtin.0 < builtins }
    ensures gives { Gives value_of result (moment_of machine.new) (call_builtin builtin.0 (given_of given.now) (moment_of machine.old)) }
    ensures sound { SoundValue machine.new.heap result }
    ensures costs { Costs 1 (32 + 2 * length given.now.plain.items) machine.old steps.old machine.new steps.new }
{
    if builtin.0 == Builtin::PRINT.0 {
        return print_by(machine, given, steps);
    }
    if !given.named.is_empty() {
        return bad_arguments(machine.alloc, builtin_name(builtin));
    }
    plain_builtin(machine, builtin, given.plain.as_slice(), steps)
}

// ---- classes

// The keywords as attributes, in order.
fn attributes_of(
    alloc: Global,
    named: Vec<(RcStr, Value)>,
) -> Result<IndexMap<RcStr, Value>, AllocError>
    requires differ { IsTrue (all_differ (map (λ k. k.0) (named_of named.items))) }
    ensures { IfOk result (λ m. attributes_of m.entries ≡ named_of named.items) }
{
    let mut attributes = IndexMap::new(alloc);
    for (name, value) in named {
        attributes.insert(name, value)?;
    }
    Ok(attributes)
}

// A new object with the keywords as its attributes.
fn new_object(machine: &mut Machine, given: Given) -> Result<Value, Fault>
    requires room { length machine.old.heap + 1 < 2 ^ 32 }
    requires sound_given { IsSoundGiven machine.old.heap given }
    ensures gives { Gives value_of result (moment_of machine.new) (new_object (given_of given) (moment_of machine.old)) }
    ensures sound { SoundValue machine.new.heap result }
    ensures grows { Grows 1 machine.old.heap machine.new.heap }
    ensures budget { machine.new.budget ≡ machine.old.budget }
{
    if !given.plain.is_empty() {
        return bad_arguments(machine.alloc, "SimpleNamespace");
    }
    let attributes = attributes_of(machine.alloc, given.named)?;
    Ok(Value::Node(make(machine, Node::Object(attributes))?))
}

// `str` of one value, or the empty text.
fn text_call<L: Ledger>(
    machine: &mut Machine,
    values: &[Value],
    steps: &mut Steps<L>,
) -> Result<Value, Fault>
    ensures gives { Gives value_of result (moment_of machine.new) (of_none_or_one (codes "str") (give (model.text [])) (λ v. show v ⊳ λ cs. give (model.text cs)) (map value_of values.now) (moment_of machine.old)) }
    ensures sound { SoundEnd machine.new.heap result }
    ensures costs { Costs 0 8 machine.old steps.old machine.new steps.new }
    ensures heap { machine.new.heap ≡ machine.old.heap }
{
    match values {
        [] => Ok(Value::Text(RcStr::from_str(machine.alloc, "")?)),
        [value] => {
            let text = show(machine, value, steps)?;
            Ok(Value::Text(shared(text)?))
        }
        _ => bad_arguments(machine.alloc, "str"),
    }
}

// A class but SimpleNamespace and `str`, which takes no keywords.
fn other_class<L: Ledger>(
    machine: &mut Machine,
    class: ClassId,
    values: &[Value],
    steps: &mut Steps<L>,
) -> Result<Value, Fault>
    requires room { HasRoomBy 1 machine.old }
    requires sound_values { AreSoundIn machine.old.heap values.now }
    requires class { class.0 < classes }
    requires no_namespace { class.0 ≢ namespace_class }
    requires no_text { class.0 ≢ str_class }
    ensures gives { Gives value_of result (moment_of machine.new) (plain_construct class.0 (map value_of values.now) (moment_of machine.old)) }
    ensures sound { SoundValue machine.new.heap result }
    ensures costs { Costs 1 3 machine.old steps.old machine.new steps.new }
{
    passed(kishu_builtins::construct(
        machine.alloc,
        class,
        values,
        &mut machine.heap,
        &mut machine.budget,
        steps,
    ))
}

// A class but SimpleNamespace, which takes no keywords.
fn plain_class<L: Ledger>(
    machine: &mut Machine,
    class: ClassId,
    values: &[Value],
    steps: &mut Steps<L>,
) -> Result<Value, Fault>
    requires room { HasRoomBy 1 machine.old }
    requires sound_values { AreSoundIn machine.old.heap values.now }
    requires class { class.0 < classes }
    requires other { class.0 ≢ namespace_class }
    ensures gives { Gives value_of result (moment_of machine.new) (plain_construct class.0 (map value_of values.now) (moment_of machine.old)) }
    ensures sound { SoundValue machine.new.heap result }
    ensures costs { Costs 1 8 machine.old steps.old machine.new steps.new }
{
    if class.0 == ClassId::STR.0 {
        return text_call(machine, values, steps);
    }
    other_class(machine, class, values, steps)
}

/// What a class gives that is called.
#[inline(never)]
pub fn construct<L: Ledger>(
    machine: &mut Machine,
    class: ClassId,
    given: Given,
    steps: &mut Steps<L>,
) -> Result<Value, Fault>
    requires room { HasRoomBy 1 machine.old }
    requires sound_given { IsSoundGiven machine.old.heap given }
    requires class { class.0 < classes }
    ensures gives { Gives value_of result (moment_of machine.new) (construct class.0 (given_of given) (moment_of machine.old)) }
    ensures sound { SoundValue machine.new.heap result }
    ensures costs { Costs 1 32 machine.old steps.old machine.new steps.new }
{
    if class.0 == ClassId::SIMPLE_NAMESPACE.0 {
        return new_object(machine, given);
    }
    if !given.named.is_empty() {
        return bad_arguments(machine.alloc, class_name(class));
    }
    plain_class(machine, class, given.plain.as_slice(), steps)
}

// ---- methods

// A method that the value has.
fn known_method<L: Ledger>(
    machine: &mut Machine,
    receiver: &Value,
    name: &str,
    values: &[Value],
    steps: &mut Steps<L>,
) -> Result<Value, Fault>
    requires room { HasRoomBy 1 machine.old }
    requires sound_receiver { IsSoundIn machine.old.heap receiver.now }
    requires sound_values { AreSoundIn machine.old.heap values.now }
    requires has { IsTrue (has_method machine.old.heap (value_of receiver.now) name.now) }
    ensures gives { Gives value_of result (moment_of machine.new) (call_method (value_of receiver.now) name.now (map value_of values.now) (moment_of machine.old)) }
    ensures sound { SoundValue machine.new.heap result }
    ensures costs { Costs 1 5 machine.old steps.old machine.new steps.new }
{
    // The heap tells that each of its nodes is sound.
    let _size = machine.heap.len();
    passed(kishu_methods::call_method(
        machine.alloc,
        receiver,
        name,
        values,
        &mut machine.heap,
        &mut machine.budget,
        steps,
    ))
}

// A method, which takes no keywords.
fn plain_method<L: Ledger>(
    machine: &mut Machine,
    receiver: &Value,
    name: &str,
    values: &[Value],
    steps: &mut Steps<L>,
) -> Result<Value, Fault>
    requires room { HasRoomBy 1 machine.old }
    requires sound_receiver { IsSoundIn machine.old.heap receiver.now }
    requires sound_values { AreSoundIn machine.old.heap values.now }
    ensures gives { Gives value_of result (moment_of machine.new) (call_method (value_of receiver.now) name.now (map value_of values.now) (moment_of machine.old)) }
    ensures sound { SoundValue machine.new.heap result }
    ensures costs { Costs 1 6 machine.old steps.old machine.new steps.new }
{
    if !kishu_methods::has_method(receiver, name, &machine.heap, steps) {
        return no_attribute(machine, receiver, name, steps);
    }
    known_method(machine, receiver, name, values, steps)
}

/// What a method of a value gives. Its name must be ASCII, as those of all methods are.
#[inline(never)]
pub fn call_method<L: Ledger>(
    machine: &mut Machine,
    receiver: &Value,
    name: &str,
    given: &Given,
    steps: &mut Steps<L>,
) -> Result<Value, Fault>
    requires room { HasRoomBy 1 machine.old }
    requires sound_receiver { IsSoundIn machine.old.heap receiver.now }
    requires sound_given { IsSoundGiven machine.old.heap given.now }
    requires ascii { IsTrue (is_plain name.now) }
    ensures gives { Gives value_of result (moment_of machine.new) (by_plain name.now (named_of given.now.named.items) (call_method (value_of receiver.now) name.now (map value_of given.now.plain.items)) (moment_of machine.old)) }
    ensures sound { SoundValue machine.new.heap result }
    ensures costs { Costs 1 32 machine.old steps.old machine.new steps.new }
{
    if !given.named.is_empty() {
        return bad_arguments(machine.alloc, name);
    }
    plain_method(machine, receiver, name, given.plain.as_slice(), steps)
}
