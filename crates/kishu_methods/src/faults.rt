// The exception for arguments that a method doesn't take.
ghost use Rattle.kishu_meaning.specs.values.Kinds.{bad_arguments};
ghost use Rattle.kishu_meaning.specs.calls.Methods.{method_name};
ghost use Rattle.kishu_meaning.specs.moments.Moment.{Moment};
ghost use Rattle.kishu_meaning.specs.values.Values.{value_of};
ghost use Rattle.kishu_methods.specs.Called.{Gives};

use crate::method::Method;
use kishu_heap::CallFault;
use kishu_meaning::Value;
use std::alloc::Global;

/// The TypeError for arguments that a method doesn't take.
pub(crate) fn bad_arguments<M: Method>(alloc: Global, method: M) -> Result<Value, CallFault>
    ensures { (s : Moment) → Gives value_of result s (bad_arguments (method_name (M.method_of method)) s) }
{
    kishu_items::bad_arguments(alloc, method.name())
}
