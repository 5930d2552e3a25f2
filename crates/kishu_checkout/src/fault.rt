// Faults.
use std::alloc::{AllocError, AllocFailed};
use thiserror::Error;

/// Why pictures aren't loaded.
#[derive(Clone, Copy, Debug, PartialEq, Eq, Error)]
pub enum CheckoutFault {
    /// At this place of the file, which is that of a row, there is no picture of the row's names.
    #[error("damaged at {at}")]
    Damaged { at: u64 },
    /// A call of the host failed.
    #[error("disk fault")]
    DiskFault,
    /// There was no memory.
    #[error("no memory")]
    NoMemory,
}

impl From<AllocError> for CheckoutFault {
    ghost use Rattle.std.specs.Prelude.{◌≡◌};
    ghost use Rattle.kishu_checkout.specs.declared.fault.CheckoutFault.TheVariants.{NoMemory};

    ghost from_gives = { λ _ fault. fault ≡ NoMemory };

    fn from(_error: AllocError) -> CheckoutFault {
        CheckoutFault::NoMemory
    }
}

impl<T: Drop> From<AllocFailed<T>> for CheckoutFault {
    ghost use Rattle.std.specs.Prelude.{◌≡◌};
    ghost use Rattle.kishu_checkout.specs.declared.fault.CheckoutFault.TheVariants.{NoMemory};

    ghost from_gives = { λ _ fault. fault ≡ NoMemory };

    fn from(_error: AllocFailed<T>) -> CheckoutFault {
        CheckoutFault::NoMemory
    }
}
