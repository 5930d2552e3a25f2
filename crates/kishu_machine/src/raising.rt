// Exceptions, with their texts (Library Reference, "Built-in Exceptions").
ghost use Rattle.std.specs.List.{list_all};
ghost use Rattle.std.specs.Prelude.{IfOk, IsTrue, codes, nat_lt, ◌++◌, ◌≡◌};
ghost use Rattle.std.specs.Rc.{rc_str_bytes};
ghost use Rattle.std.specs.Str.{chars};
ghost use Rattle.std.specs.String.{string_bytes};
ghost use Rattle.kishu_meaning.specs.calls.Callees.{not_callable};
ghost use Rattle.kishu_meaning.specs.values.Kinds.{no_attribute, not_iterable, quoted_kind};
ghost use Rattle.kishu_meaning.specs.calls.Operators.{bad_operand, bad_operands};
ghost use Rattle.kishu_meaning.specs.items.Subscripts.{not_subscriptable};
ghost use Rattle.kishu_meaning.specs.values.Values.{value_of};
ghost use Rattle.kishu_machine.specs.Machine.{Gives, IsRaised, IsRaisedWith, moment_of};
ghost use Rattle.kishu_machine.specs.Clauses.{IsSoundIn};
ghost use Rattle.kishu_heap.specs.Costs.{Reads};
ghost use Rattle.kishu_meaning.specs.values.Classes.{index_error_class, key_error_class, name_error_class, type_error_class, unbound_local_error_class};

use crate::fault::{Fault, Thrown};
use crate::machine::Machine;
use kishu_items::{bad_operands_text, kind_name, not_iterable_text, plain_text};
use kishu_meaning::{ClassId, Steps, Value};
use std::alloc::{AllocError, Global};
use std::rc::RcStr;
use std::sync::ledger::Ledger;

/// An exception of this class with this text.
pub fn raise<T>(class: ClassId, text: RcStr) -> Result<T, Fault>
    ensures { IsRaised result class.0 (chars (rc_str_bytes text)) }
{
    Err(Fault::Raised(Thrown::With(class, Value::Text(text))))
}

fn framed(alloc: Global, front: &str, name: &str, back: &str) -> Result<String, AllocError>
    requires front { IsTrue (list_all (λ c. nat_lt c 128) front.now) }
    requires back { IsTrue (list_all (λ c. nat_lt c 128) back.now) }
    ensures { IfOk result (λ s. chars (string_bytes s) ≡ front.now ++ (codes "'" ++ chars name.now ++ codes "'") ++ back.now) }
{
    format!(in alloc; "{front}'{name}'{back}")
}

// A text in which a name stands in quotes.
fn quoted(alloc: Global, front: &str, name: &str, back: &str) -> Result<RcStr, AllocError>
    requires front { IsTrue (list_all (λ c. nat_lt c 128) front.now) }
    requires back { IsTrue (list_all (λ c. nat_lt c 128) back.now) }
    ensures { IfOk result (λ t. chars (rc_str_bytes t) ≡ front.now ++ (codes "'" ++ chars name.now ++ codes "'") ++ back.now) }
{
    RcStr::from_string(framed(alloc, front, name, back)?)
}

/// The NameError for a name that isn't bound.
pub(crate) fn name_error<T>(alloc: Global, name: &str) -> Result<T, Fault>
    ensures { IsRaised result name_error_class (codes "name '" ++ chars name.now ++ codes "' is not defined") }
{
    raise(
        ClassId::NAME_ERROR,
        quoted(alloc, "name ", name, " is not defined")?,
    )
}

/// The UnboundLocalError for a local name without a value.
pub(crate) fn unbound_local<T>(alloc: Global, name: &str) -> Result<T, Fault>
    ensures { IsRaised result unbound_local_error_class (codes "local name '" ++ chars name.now ++ codes "' has no value") }
{
    let text = quoted(alloc, "local name ", name, " has no value")?;
    raise(ClassId::UNBOUND_LOCAL_ERROR, text)
}

// A TypeError that names the kind of a value.
fn kind_error<T, L: Ledger>(
    machine: &Machine,
    value: &Value,
    back: &str,
    steps: &mut Steps<L>,
) -> Result<T, Fault>
    requires back { IsTrue (list_all (λ c. nat_lt c 128) back.now) }
    requires sound { IsSoundIn machine.now.heap value.now }
    ensures is { IsRaised result type_error_class (quoted_kind machine.now.heap (value_of value.now) ++ back.now) }
    ensures reads { Reads 1 steps.old steps.new }
{
    let kind = kind_name(value, &machine.heap, steps);
    raise(ClassId::TYPE_ERROR, quoted(machine.alloc, "", kind, back)?)
}

/// The TypeError for a value that isn't a sequence.
pub fn not_iterable<T, L: Ledger>(
    machine: &Machine,
    value: &Value,
    steps: &mut Steps<L>,
) -> Result<T, Fault>
    requires sound { IsSoundIn machine.now.heap value.now }
    ensures gives { Gives (λ x. x) result (moment_of machine.now) (not_iterable (value_of value.now) (moment_of machine.now)) }
    ensures reads { Reads 2 steps.old steps.new }
{
    raise(
        ClassId::TYPE_ERROR,
        not_iterable_text(machine.alloc, value, &machine.heap, steps)?,
    )
}

/// The TypeError for a value that has no items.
pub fn not_subscriptable<T, L: Ledger>(
    machine: &Machine,
    value: &Value,
    steps: &mut Steps<L>,
) -> Result<T, Fault>
    requires sound { IsSoundIn machine.now.heap value.now }
    ensures gives { Gives (λ x. x) result (moment_of machine.now) (not_subscriptable (value_of value.now) (moment_of machine.now)) }
    ensures reads { Reads 2 steps.old steps.new }
{
    kind_error(machine, value, " object is not subscriptable", steps)
}

/// The TypeError for a value that can't be called.
pub fn not_callable<T, L: Ledger>(
    machine: &Machine,
    value: &Value,
    steps: &mut Steps<L>,
) -> Result<T, Fault>
    requires sound { IsSoundIn machine.now.heap value.now }
    ensures gives { Gives (λ x. x) result (moment_of machine.now) (not_callable (value_of value.now) (moment_of machine.now)) }
    ensures reads { Reads 2 steps.old steps.new }
{
    kind_error(machine, value, " object is not callable", steps)
}

fn operand_message(alloc: Global, sign: &str, kind: &str) -> Result<String, AllocError>
    requires { IsTrue (list_all (λ c. nat_lt c 128) sign.now) }
    ensures { IfOk result (λ s. chars (string_bytes s) ≡ codes "bad operand type for " ++ sign.now ++ codes ": " ++ (codes "'" ++ chars kind.now ++ codes "'")) }
{
    format!(in alloc; "bad operand type for {sign}: '{kind}'")
}

/// The TypeError for an operand that a sign doesn't take.
pub(crate) fn bad_operand<T, L: Ledger>(
    machine: &Machine,
    sign: &str,
    value: &Value,
    steps: &mut Steps<L>,
) -> Result<T, Fault>
    requires ascii { IsTrue (list_all (λ c. nat_lt c 128) sign.now) }
    requires sound { IsSoundIn machine.now.heap value.now }
    ensures gives { Gives (λ x. x) result (moment_of machine.now) (bad_operand sign.now (value_of value.now) (moment_of machine.now)) }
    ensures reads { Reads 1 steps.old steps.new }
{
    let kind = kind_name(value, &machine.heap, steps);
    let text = operand_message(machine.alloc, sign, kind)?;
    raise(ClassId::TYPE_ERROR, RcStr::from_string(text)?)
}

/// The TypeError for operands that an operator or a comparison doesn't take.
pub(crate) fn bad_operands<T, L: Ledger>(
    machine: &Machine,
    sign: &str,
    a: &Value,
    b: &Value,
    steps: &mut Steps<L>,
) -> Result<T, Fault>
    requires ascii { IsTrue (list_all (λ c. nat_lt c 128) sign.now) }
    requires sound_a { IsSoundIn machine.now.heap a.now }
    requires sound_b { IsSoundIn machine.now.heap b.now }
    ensures gives { Gives (λ x. x) result (moment_of machine.now) (bad_operands sign.now (value_of a.now) (value_of b.now) (moment_of machine.now)) }
    ensures reads { Reads 2 steps.old steps.new }
{
    let text = bad_operands_text(machine.alloc, sign, a, b, &machine.heap, steps)?;
    raise(ClassId::TYPE_ERROR, text)
}

fn arguments_message(alloc: Global, name: &str) -> Result<String, AllocError>
    ensures { IfOk result (λ s. chars (string_bytes s) ≡ chars name.now ++ codes "() got bad arguments") }
{
    format!(in alloc; "{name}() got bad arguments")
}

/// The TypeError for arguments that what is called doesn't take.
pub fn bad_arguments<T>(alloc: Global, name: &str) -> Result<T, Fault>
    ensures { IsRaised result type_error_class (chars name.now ++ codes "() got bad arguments") }
{
    let text = arguments_message(alloc, name)?;
    raise(ClassId::TYPE_ERROR, RcStr::from_string(text)?)
}

fn attribute_message(alloc: Global, kind: &str, name: &str) -> Result<String, AllocError>
    ensures { IfOk result (λ s. chars (string_bytes s) ≡ (codes "'" ++ chars kind.now ++ codes "'") ++ codes " object has no attribute '" ++ chars name.now ++ codes "'") }
{
    format!(in alloc; "'{kind}' object has no attribute '{name}'")
}

/// The AttributeError for an attribute that a value doesn't have.
pub fn no_attribute<T, L: Ledger>(
    machine: &Machine,
    value: &Value,
    name: &str,
    steps: &mut Steps<L>,
) -> Result<T, Fault>
    requires sound { IsSoundIn machine.now.heap value.now }
    ensures gives { Gives (λ x. x) result (moment_of machine.now) (no_attribute (value_of value.now) name.now (moment_of machine.now)) }
    ensures reads { Reads 2 steps.old steps.new }
{
    let kind = kind_name(value, &machine.heap, steps);
    let text = attribute_message(machine.alloc, kind, name)?;
    raise(ClassId::ATTRIBUTE_ERROR, RcStr::from_string(text)?)
}

/// The KeyError for a key that a dict doesn't have.
pub fn no_key<T>(key: &Value) -> Result<T, Fault>
    ensures { IsRaisedWith result key_error_class (value_of key.now) }
{
    Err(Fault::Raised(Thrown::With(ClassId::KEY_ERROR, key.copied()?)))
}

/// The TypeError for what isn't an exception.
pub fn no_exception<T>(alloc: Global) -> Result<T, Fault>
    ensures { IsRaised result type_error_class (codes "exceptions must be exception classes or objects") }
{
    let text = plain_text(alloc, "exceptions must be exception classes or objects")?;
    raise(ClassId::TYPE_ERROR, text)
}

/// The IndexError for an index outside of a sequence.
pub fn out_of_range<T>(alloc: Global) -> Result<T, Fault>
    ensures { IsRaised result index_error_class (codes "index out of range") }
{
    raise(
        ClassId::INDEX_ERROR,
        plain_text(alloc, "index out of range")?,
    )
}
