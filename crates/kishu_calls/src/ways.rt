// Exceptions that are raised and caught (Python Language Reference 3, "The raise statement" and "The
// try statement").
ghost use Rattle.std.specs.List.{list_all, list_any};
ghost use Rattle.std.specs.Prelude.{IfOk, length, map, ◌+◌, ◌<◌, ◌^◌, ◌≡◌};
ghost use Rattle.kishu_meaning.specs.moments.Moment.{node_at};
ghost use Rattle.kishu_meaning.specs.values.Sound.{is_exception_class};
ghost use Rattle.kishu_meaning.specs.values.Values.{node, value_of};
ghost use Rattle.kishu_meaning.specs.cells.Ways.{is_caught, is_caught_by, is_class_of_exceptions, is_exception, kind_of_thrown, object_of, throw_again, throw_object, throw_value};
ghost use Rattle.kishu_machine.specs.Machine.{Gives, HasRoomBy, moment_of, thrown_of, Costs};
ghost use Rattle.kishu_machine.specs.Clauses.{IsSoundIn, IsSoundThrown, SoundEnd};
ghost use Rattle.kishu_heap.specs.Costs.{Reads, Grows};

use kishu_heap::{Heap, Node};
use kishu_items::is_within;
use kishu_machine::{Fault, Machine, Thrown, make, no_exception, node_at, tuple_at};
use kishu_meaning::{ClassId, NodeId, Steps, Value};
use std::sync::ledger::Ledger;

/// How a statement ended that raised nothing.
#[derive(Drop)]
pub enum Flow {
    Onward,
    Broke,
    Continued,
    Returned(Value),
}

// ---- classes of exceptions

fn is_exception_class(class: ClassId) -> bool
    ensures { result ≡ is_exception_class class.0 }
{
    ClassId::EXCEPTION.0 <= class.0 && class.0 <= ClassId::VALUE_ERROR.0
}

/// The class of an exception on its way.
pub(crate) fn kind_of_thrown<L: Ledger>(
    heap: &Heap,
    thrown: &Thrown,
    steps: &mut Steps<L>,
) -> ClassId
    ensures is { result.0 ≡ kind_of_thrown heap.now (thrown_of thrown.now) }
    ensures reads { Reads 1 steps.old steps.new }
{
    match thrown {
        Thrown::With(class, _) => *class,
        Thrown::Plain(class) => *class,
        Thrown::Object(id) => match node_at(heap, &Value::Node(*id), steps) {
            Some(Node::Exception(class, _)) => *class,
            _ => ClassId::EXCEPTION,
        },
    }
}

// ---- `raise`

fn is_exception<L: Ledger>(heap: &Heap, value: &Value, steps: &mut Steps<L>) -> bool
    ensures is { result ≡ is_exception (node_at heap.now (value_of value.now)) }
    ensures reads { Reads 1 steps.old steps.new }
{
    match node_at(heap, value, steps) {
        Some(Node::Exception(..)) => true,
        Some(Node::List(_)) => false,
        Some(Node::Tuple(_)) => false,
        Some(Node::Dict(_)) => false,
        Some(Node::Object(_)) => false,
        Some(Node::Function(_)) => false,
        None => false,
    }
}

/// Raises an exception object.
#[tactic(auto, using(crate::proofs::Thrown::throw_rules))]
pub(crate) fn throw_object<T, L: Ledger>(
    machine: &Machine,
    value: &Value,
    steps: &mut Steps<L>,
) -> Result<T, Fault>
    requires sound_value { IsSoundIn machine.now.heap value.now }
    ensures gives { Gives (λ x. x) result (moment_of machine.now) (throw_object (value_of value.now) (moment_of machine.now)) }
    ensures sound { SoundEnd machine.now.heap result }
    ensures reads { Reads 1 steps.old steps.new }
{
    if let Value::Node(id) = value {
        if is_exception(&machine.heap, value, steps) {
            return Err(Fault::Raised(Thrown::Object(*id)));
        }
    }
    no_exception(machine.alloc)
}

/// Raises an exception object, or one of a class, without arguments.
#[inline(never)]
#[tactic(auto, using(crate::proofs::Thrown::throw_rules))]
pub fn throw_value<T, L: Ledger>(
    machine: &mut Machine,
    value: &Value,
    steps: &mut Steps<L>,
) -> Result<T, Fault>
    requires room { HasRoomBy 1 machine.old }
    requires sound_value { IsSoundIn machine.old.heap value.now }
    ensures gives { Gives (λ x. x) result (moment_of machine.new) (throw_value (value_of value.now) (moment_of machine.old)) }
    ensures sound { SoundEnd machine.new.heap result }
    ensures costs { Costs 1 16 machine.old steps.old machine.new steps.new }
{
    let Value::Class(class) = value else {
        return throw_object(machine, value, steps);
    };
    if !is_exception_class(*class) {
        return no_exception(machine.alloc);
    }
    let arguments = Vec::new(machine.alloc);
    let id = make(machine, Node::Exception(*class, arguments))?;
    throw_object(machine, &Value::Node(id), steps)
}

/// Raises what the innermost handler in progress caught.
#[tactic(auto, using(crate::proofs::Thrown::throw_rules))]
pub fn throw_again<T, L: Ledger>(machine: &Machine, steps: &mut Steps<L>) -> Result<T, Fault>
    ensures gives { Gives (λ x. x) result (moment_of machine.now) (throw_again (moment_of machine.now)) }
    ensures sound { SoundEnd machine.now.heap result }
    ensures reads { Reads 8 steps.old steps.new }
{
    match &machine.handled {
        Some(value) => throw_object(machine, value, steps),
        None => no_exception(machine.alloc),
    }
}

// ---- handlers

/// The object that an exception on its way is, made where there is none yet.
pub fn object_of(machine: &mut Machine, thrown: Thrown) -> Result<NodeId, Fault>
    requires room { length machine.old.heap + 1 < 2 ^ 32 }
    requires sound_thrown { IsSoundThrown machine.old.heap thrown }
    ensures gives { Gives (λ id. node id.0) result (moment_of machine.new) (object_of (thrown_of thrown) (moment_of machine.old)) }
    ensures sound { SoundEnd machine.new.heap result }
    ensures id { IfOk result (λ id. id.0 < length machine.new.heap) }
    ensures grows { Grows 1 machine.old.heap machine.new.heap }
    ensures budget { machine.new.budget ≡ machine.old.budget }
{
    match thrown {
        Thrown::With(class, argument) => {
            let arguments = vec![in machine.alloc; argument]?;
            make(machine, Node::Exception(class, arguments))
        }
        Thrown::Plain(class) => {
            let arguments = Vec::new(machine.alloc);
            make(machine, Node::Exception(class, arguments))
        }
        Thrown::Object(id) => Ok(id),
    }
}

fn is_class_of_exceptions(value: &Value) -> bool
    ensures { result ≡ is_class_of_exceptions (value_of value.now) }
{
    match value {
        Value::Class(class) => is_exception_class(*class),
        Value::None => false,
        Value::Bool(_) => false,
        Value::Int(_) => false,
        Value::Text(_) => false,
        Value::Range(..) => false,
        Value::Builtin(_) => false,
        Value::Node(_) => false,
    }
}

fn are_classes_of_exceptions(values: &[Value]) -> bool
    ensures { result ≡ list_all is_class_of_exceptions (map value_of values.now) }
{
    for value in values {
        if !is_class_of_exceptions(value) {
            return false;
        }
    }
    true
}

fn is_caught_by(class: ClassId, value: &Value) -> bool
    ensures { result ≡ is_caught_by class.0 (value_of value.now) }
{
    match value {
        Value::Class(other) => is_within(class, *other),
        Value::None => false,
        Value::Bool(_) => false,
        Value::Int(_) => false,
        Value::Text(_) => false,
        Value::Range(..) => false,
        Value::Builtin(_) => false,
        Value::Node(_) => false,
    }
}

fn is_caught_by_one(class: ClassId, values: &[Value]) -> bool
    ensures { result ≡ list_any (is_caught_by class.0) (map value_of values.now) }
{
    for value in values {
        if is_caught_by(class, value) {
            return true;
        }
    }
    false
}

/// Whether a class or a tuple of classes catches an exception.
#[inline(never)]
#[tactic(auto, using(crate::proofs::Caught::caught_rules))]
pub fn is_caught<L: Ledger>(
    machine: &Machine,
    thrown: &Thrown,
    classes: &Value,
    steps: &mut Steps<L>,
) -> Result<bool, Fault>
    ensures gives { Gives (λ b. b) result (moment_of machine.now) (is_caught (thrown_of thrown.now) (value_of classes.now) (moment_of machine.now)) }
    ensures sound { SoundEnd machine.now.heap result }
    ensures reads { Reads 16 steps.old steps.new }
{
    let class = kind_of_thrown(&machine.heap, thrown, steps);
    if is_class_of_exceptions(classes) {
        return Ok(is_caught_by(class, classes));
    }
    match tuple_at(&machine.heap, classes, steps) {
        Some(values) => {
            if are_classes_of_exceptions(values) {
                Ok(is_caught_by_one(class, values))
            } else {
                no_exception(machine.alloc)
            }
        }
        None => no_exception(machine.alloc),
    }
}
