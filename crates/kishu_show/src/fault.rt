// Faults.
use std::alloc::AllocError;

/// Why a value has no text.
#[derive(Clone, Copy, Debug, PartialEq, Eq)]
pub enum ShowFault {
    /// The nodes lie deeper in one another than is allowed.
    Depth,
    /// The budget of steps is spent.
    Spent,
    NoMemory,
}

impl From<AllocError> for ShowFault {
    ghost use Rattle.std.specs.Prelude.{◌≡◌};
    ghost use Rattle.kishu_show.specs.declared.fault.ShowFault.TheVariants.{NoMemory};

    ghost from_gives = { λ _ fault. fault ≡ NoMemory };

    fn from(_error: AllocError) -> ShowFault {
        ShowFault::NoMemory
    }
}
