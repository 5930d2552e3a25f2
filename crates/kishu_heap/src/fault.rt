// Faults.
use kishu_meaning::{ClassId, Value};
use std::alloc::{AllocError, AllocFailed};
use std::rc::RcStr;

/// Why a comparison has no answer.
#[derive(Clone, Copy, Debug, PartialEq, Eq)]
pub enum CompareFault {
    /// Two values were reached that have no order.
    Unordered,
    /// The nodes lie deeper in one another than is allowed.
    Depth,
    /// The budget of steps is spent.
    Spent,
}

/// Why a call of a builtin function, a class or a method has no answer.
#[derive(Drop)]
pub enum CallFault {
    /// An exception with a text.
    Raise { class: ClassId, text: RcStr },
    /// An exception with a value.
    RaiseWith { class: ClassId, value: Value },
    /// The budget of steps is spent.
    Spent,
    NoMemory,
}

impl From<AllocError> for CallFault {
    ghost use Rattle.std.specs.Prelude.{◌≡◌};
    ghost use Rattle.kishu_heap.specs.declared.fault.CallFault.TheVariants.{NoMemory};

    ghost from_gives = { λ _ fault. fault ≡ NoMemory };

    fn from(_error: AllocError) -> CallFault {
        CallFault::NoMemory
    }
}

impl<T: Drop> From<AllocFailed<T>> for CallFault {
    ghost use Rattle.std.specs.Prelude.{◌≡◌};
    ghost use Rattle.kishu_heap.specs.declared.fault.CallFault.TheVariants.{NoMemory};

    ghost from_gives = { λ _ fault. fault ≡ NoMemory };

    fn from(_error: AllocFailed<T>) -> CallFault {
        CallFault::NoMemory
    }
}
