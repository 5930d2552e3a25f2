use kishu_checkout::CheckoutFault;
use std::alloc::AllocError;

/// Why a request isn't prepared.
#[derive(Clone, Copy, Debug, PartialEq, Eq)]
pub(crate) enum Unprepared {
    /// At this place of the file there is no picture of a group that was to be loaded, or compared.
    Damaged { at: u64 },
    /// A call of the host failed.
    DiskFault,
    NoMemory,
}

impl From<AllocError> for Unprepared {
    ghost use Rattle.std.specs.Prelude.{◌≡◌};
    ghost use Rattle.kishu_session.specs.declared.unprepared.Unprepared.TheVariants.{NoMemory};

    ghost from_gives = { λ _ unprepared. unprepared ≡ NoMemory };

    fn from(_error: AllocError) -> Unprepared {
        Unprepared::NoMemory
    }
}

impl From<CheckoutFault> for Unprepared {
    ghost use Rattle.std.specs.Prelude.{◌≡◌};
    ghost use Rattle.kishu_session.specs.Halting.{unprepared_by};

    ghost from_gives = { λ fault unprepared. unprepared ≡ unprepared_by fault };

    fn from(fault: CheckoutFault) -> Unprepared {
        match fault {
            CheckoutFault::Damaged { at } => Unprepared::Damaged { at },
            CheckoutFault::DiskFault => Unprepared::DiskFault,
            CheckoutFault::NoMemory => Unprepared::NoMemory,
        }
    }
}
