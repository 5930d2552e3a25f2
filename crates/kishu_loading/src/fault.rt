// Faults.
use std::alloc::AllocError;

/// Why a picture isn't loaded.
#[derive(Clone, Copy, Debug, PartialEq, Eq, Drop)]
pub enum LoadFault {
    /// The bytes aren't a picture. At this place, in bytes from the first, begins the first field that isn't
    /// whole or breaks its rule; for bytes that follow a picture it is the picture's end.
    Picture { at: u64 },
    /// There was no memory.
    NoMemory,
}

impl From<AllocError> for LoadFault {
    ghost use Rattle.std.specs.Prelude.{◌≡◌};
    ghost use Rattle.kishu_loading.specs.declared.fault.LoadFault.TheVariants.{NoMemory};

    ghost from_gives = { λ _ fault. fault ≡ NoMemory };

    fn from(_error: AllocError) -> LoadFault {
        LoadFault::NoMemory
    }
}
