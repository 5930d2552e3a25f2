// Exceptions, with their texts.
ghost use Rattle.std.specs.Prelude.{◌≡◌, ◌+◌, ◌++◌, ◌≤◌, IfOk, IsTrue, Err, codes, length, nat_lt};
ghost use Rattle.std.specs.List.{list_all};
ghost use Rattle.std.specs.Rc.{rc_str_bytes};
ghost use Rattle.std.specs.Str.{chars};
ghost use Rattle.std.specs.String.{string_bytes};
ghost use Rattle.kishu_meaning.specs.moments.Counting.{Counted, ended_in};
ghost use Rattle.kishu_meaning.specs.values.Kinds.{quoted_kind, bad_arguments};
ghost use Rattle.kishu_meaning.specs.moments.Moment.{Moment};
ghost use Rattle.kishu_meaning.specs.values.Sound.{is_sound};
ghost use Rattle.kishu_meaning.specs.values.Values.{value_of};
ghost use Rattle.kishu_heap.specs.Compared as compared;
ghost use Rattle.kishu_heap.specs.declared.fault.CallFault.TheVariants as faults;
ghost use Rattle.kishu_heap.specs.Costs.{Reads};
ghost use Rattle.kishu_items.specs.Called.{Gives};

use crate::kinds::kind_name;
use kishu_heap::{CallFault, CompareFault, Heap};
use kishu_meaning::{ClassId, Steps, Value};
use std::alloc::{AllocError, Global};
use std::rc::RcStr;
use std::sync::ledger::Ledger;

/// An exception of this class with this text.
pub fn raise<T>(class: ClassId, text: RcStr) -> Result<T, CallFault>
    ensures { result ≡ Err (faults.Raise class text) }
{
    Err(CallFault::Raise { class, text })
}

fn plain_string(alloc: Global, text: &str) -> Result<String, AllocError>
    requires { IsTrue (list_all (λ c. nat_lt c 128) text.now) }
    ensures { IfOk result (λ s. chars (string_bytes s) ≡ text.now) }
{
    String::from_str(alloc, text)
}

/// A text of ASCII characters.
pub fn plain_text(alloc: Global, text: &str) -> Result<RcStr, AllocError>
    requires { IsTrue (list_all (λ c. nat_lt c 128) text.now) }
    ensures { IfOk result (λ t. chars (rc_str_bytes t) ≡ text.now) }
{
    RcStr::from_string(plain_string(alloc, text)?)
}

fn joined(alloc: Global, front: &str, back: &str) -> Result<String, AllocError>
    requires front { IsTrue (list_all (λ c. nat_lt c 128) front.now) }
    requires back { IsTrue (list_all (λ c. nat_lt c 128) back.now) }
    ensures { IfOk result (λ s. chars (string_bytes s) ≡ front.now ++ back.now) }
{
    format!(in alloc; "{front}{back}")
}

/// What is said of arguments that a callable doesn't take.
pub fn bad_arguments_text(alloc: Global, name: &str) -> Result<RcStr, AllocError>
    requires { IsTrue (list_all (λ c. nat_lt c 128) name.now) }
    ensures { IfOk result (λ t. chars (rc_str_bytes t) ≡ name.now ++ codes "() got bad arguments") }
{
    RcStr::from_string(joined(alloc, name, "() got bad arguments")?)
}

/// The TypeError for arguments that a callable doesn't take.
pub fn bad_arguments(alloc: Global, name: &str) -> Result<Value, CallFault>
    requires { IsTrue (list_all (λ c. nat_lt c 128) name.now) }
    ensures { (s : Moment) → Gives value_of result s (bad_arguments name.now s) }
{
    raise(ClassId::TYPE_ERROR, bad_arguments_text(alloc, name)?)
}

fn quoted(alloc: Global, front: &str, name: &str, back: &str) -> Result<String, AllocError>
    requires front { IsTrue (list_all (λ c. nat_lt c 128) front.now) }
    requires back { IsTrue (list_all (λ c. nat_lt c 128) back.now) }
    ensures { IfOk result (λ s. chars (string_bytes s) ≡ front.now ++ (codes "'" ++ chars name.now ++ codes "'") ++ back.now) }
{
    format!(in alloc; "{front}'{name}'{back}")
}

/// What is said of a value that isn't a sequence.
pub fn not_iterable_text<L: Ledger>(
    alloc: Global,
    value: &Value,
    heap: &Heap,
    steps: &mut Steps<L>,
) -> Result<RcStr, AllocError>
    requires sound { IsTrue (is_sound (length heap.now) (value_of value.now)) }
    ensures text { IfOk result (λ t. chars (rc_str_bytes t) ≡ quoted_kind heap.now (value_of value.now) ++ codes " object is not iterable") }
    ensures reads { Reads 1 steps.old steps.new }
{
    let kind = kind_name(value, heap, steps);
    RcStr::from_string(quoted(alloc, "", kind, " object is not iterable")?)
}

fn both_quoted(alloc: Global, front: &str, left: &str, right: &str) -> Result<String, AllocError>
    requires { IsTrue (list_all (λ c. nat_lt c 128) front.now) }
    ensures { IfOk result (λ s. chars (string_bytes s) ≡ codes "bad operand types for " ++ front.now ++ codes ": " ++ (codes "'" ++ chars left.now ++ codes "'") ++ codes " and " ++ (codes "'" ++ chars right.now ++ codes "'")) }
{
    format!(in alloc; "bad operand types for {front}: '{left}' and '{right}'")
}

/// What is said of two values that an operator or a comparison of this sign doesn't take.
pub fn bad_operands_text<L: Ledger>(
    alloc: Global,
    sign: &str,
    left: &Value,
    right: &Value,
    heap: &Heap,
    steps: &mut Steps<L>,
) -> Result<RcStr, AllocError>
    requires sign { IsTrue (list_all (λ c. nat_lt c 128) sign.now) }
    requires left { IsTrue (is_sound (length heap.now) (value_of left.now)) }
    requires right { IsTrue (is_sound (length heap.now) (value_of right.now)) }
    ensures text { IfOk result (λ t. chars (rc_str_bytes t) ≡ codes "bad operand types for " ++ sign.now ++ codes ": " ++ quoted_kind heap.now (value_of left.now) ++ codes " and " ++ quoted_kind heap.now (value_of right.now)) }
    ensures reads { Reads 2 steps.old steps.new }
{
    let left = kind_name(left, heap, steps);
    let right = kind_name(right, heap, steps);
    RcStr::from_string(both_quoted(alloc, sign, left, right)?)
}

/// What is said of an index that isn't a whole number.
pub fn bad_index_text<L: Ledger>(
    alloc: Global,
    value: &Value,
    heap: &Heap,
    steps: &mut Steps<L>,
) -> Result<RcStr, AllocError>
    requires sound { IsTrue (is_sound (length heap.now) (value_of value.now)) }
    ensures text { IfOk result (λ t. chars (rc_str_bytes t) ≡ codes "bad index type: " ++ quoted_kind heap.now (value_of value.now)) }
    ensures reads { Reads 1 steps.old steps.new }
{
    let kind = kind_name(value, heap, steps);
    RcStr::from_string(quoted(alloc, "bad index type: ", kind, "")?)
}

/// What is said of a value that can't be in a key.
pub fn unhashable_text<L: Ledger>(
    alloc: Global,
    value: &Value,
    heap: &Heap,
    steps: &mut Steps<L>,
) -> Result<RcStr, AllocError>
    requires sound { IsTrue (is_sound (length heap.now) (value_of value.now)) }
    ensures text { IfOk result (λ t. chars (rc_str_bytes t) ≡ codes "unhashable key: " ++ quoted_kind heap.now (value_of value.now)) }
    ensures reads { Reads 1 steps.old steps.new }
{
    let kind = kind_name(value, heap, steps);
    RcStr::from_string(quoted(alloc, "unhashable key: ", kind, "")?)
}

/// What a comparison answers, or how it ends without an answer: nodes that lie too deep are a
/// RecursionError.
pub fn compared<T>(alloc: Global, answer: Result<T, CompareFault>) -> Result<T, CallFault>
    ensures { (e : Counted T) (s : Moment) (left : _) → compared.Gives answer left e → Gives (λ x. x) result (record s { left = left }) (ended_in s e) }
{
    match answer {
        Ok(value) => Ok(value),
        Err(CompareFault::Depth) => raise(
            ClassId::RECURSION_ERROR,
            plain_text(alloc, "depth limit reached")?,
        ),
        Err(CompareFault::Spent | CompareFault::Unordered) => Err(CallFault::Spent),
    }
}
