use crate::unprepared::Unprepared;
use thiserror::Error;

/// Why a session ends. It answers nothing from then on.
#[derive(Clone, Copy, Debug, PartialEq, Eq, Error)]
pub enum Halt {
    /// The file has more than 17 bytes and another header.
    #[error("not a journal")]
    NotAJournal,
    /// The gate at byte `at` of the file is open, and no whole record that fits stands behind it; or
    /// there is no picture at that place, where a group's has to be that is loaded.
    #[error("damaged at {at}")]
    Damaged { at: u64 },
    /// A call of the host failed.
    #[error("disk fault")]
    DiskFault,
    /// There was no memory.
    #[error("no memory")]
    NoMemory,
    /// An earlier call of the session ended it.
    #[error("closed")]
    Closed,
}

impl From<Unprepared> for Halt {
    ghost use Rattle.std.specs.Prelude.{◌≡◌};
    ghost use Rattle.kishu_session.specs.Halting.{halt_by};

    ghost from_gives = { λ unprepared halt. halt ≡ halt_by unprepared };

    fn from(unprepared: Unprepared) -> Halt {
        match unprepared {
            Unprepared::Damaged { at } => Halt::Damaged { at },
            Unprepared::DiskFault => Halt::DiskFault,
            Unprepared::NoMemory => Halt::NoMemory,
        }
    }
}
