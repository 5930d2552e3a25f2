// Why a run doesn't go on.
ghost use Rattle.std.specs.Prelude.{◌≡◌};
ghost use Rattle.kishu_machine.specs.Lifted.{passed};

use kishu_heap::CallFault;
use kishu_meaning::{ClassId, NodeId, Value};
use std::alloc::{AllocError, AllocFailed};

/// An exception on its way. One that a rule raises becomes an object where it is caught.
#[derive(Drop)]
pub enum Thrown {
    /// Of a class, with one argument.
    With(ClassId, Value),
    /// Of a class, without arguments.
    Plain(ClassId),
    /// One that is an object.
    Object(NodeId),
}

/// What ends a part of a run.
#[derive(Drop)]
pub enum Fault {
    Raised(Thrown),
    /// The budget of steps is spent.
    Stopped,
    NoMemory,
}

impl From<AllocError> for Fault {
    ghost use Rattle.std.specs.Prelude.{◌≡◌};
    ghost use Rattle.kishu_machine.specs.declared.fault.Fault.TheVariants.{NoMemory};

    ghost from_gives = { λ _ fault. fault ≡ NoMemory };

    fn from(_error: AllocError) -> Fault {
        Fault::NoMemory
    }
}

impl<T: Drop> From<AllocFailed<T>> for Fault {
    ghost use Rattle.std.specs.Prelude.{◌≡◌};
    ghost use Rattle.kishu_machine.specs.declared.fault.Fault.TheVariants.{NoMemory};

    ghost from_gives = { λ _ fault. fault ≡ NoMemory };

    fn from(_error: AllocFailed<T>) -> Fault {
        Fault::NoMemory
    }
}

impl From<CallFault> for Fault {
    ghost use Rattle.std.specs.Prelude.{◌≡◌};
    ghost use Rattle.kishu_machine.specs.Faults.{fault_of};

    ghost from_gives = { λ call fault. fault ≡ fault_of call };

    fn from(fault: CallFault) -> Fault {
        match fault {
            CallFault::Raise { class, text } => {
                Fault::Raised(Thrown::With(class, Value::Text(text)))
            }
            CallFault::RaiseWith { class, value } => Fault::Raised(Thrown::With(class, value)),
            CallFault::Spent => Fault::Stopped,
            CallFault::NoMemory => Fault::NoMemory,
        }
    }
}

/// The answer of a call over a heap and a budget, with the fault of a run.
pub fn passed<T>(answer: Result<T, CallFault>) -> Result<T, Fault>
    ensures { result ≡ passed answer }
{
    match answer {
        Ok(value) => Ok(value),
        Err(fault) => Err(Fault::from(fault)),
    }
}
