use std::marker::Model;
use thiserror::Error;

/// Why a store isn't opened, or a record isn't appended.
#[derive(Clone, Copy, Debug, PartialEq, Eq, Error)]
pub enum JournalFault {
    /// The file has more than 17 bytes and another header.
    #[error("not a journal")]
    NotAJournal,
    /// The gate at byte `at` of the file is open, and no whole record that fits stands behind it.
    #[error("damaged at {at}")]
    Damaged { at: u64 },
    /// A call of the host failed.
    #[error("disk fault")]
    DiskFault,
    /// There was no memory.
    #[error("no memory")]
    NoMemory,
}

/// The place of the closed gate behind a store's records, and whether an append failed on the disk.
#[derive(Drop)]
pub struct Journal {
    place: u64,
    closed: bool,
}

impl Model for Journal {
    ghost use Rattle.std.specs.Prelude.{◌<◌, ◌^◌};
    ghost use Rattle.kishu_journal.specs.Stands.{JournalState};

    ghost Value = { JournalState };

    ghost view = { λ j. record { place = j.place; closed = j.closed } };

    ghost invariant = { λ j. j.place < 2 ^ 63 };
}

impl Journal {
    ghost use Rattle.std.specs.Prelude.{◌≡◌, ◌<◌, ◌^◌, true, false};

    /// A journal at a closed gate.
    pub(crate) fn at(place: u64) -> Journal
        requires { place < 2 ^ 63 }
        ensures { result ≡ record { place = place; closed = false } }
    {
        Journal {
            place,
            closed: false,
        }
    }

    /// Where the records end: the place of the closed gate behind them, in bytes.
    pub fn place(&self) -> u64
        ensures value { result ≡ self.now.place }
        ensures near { result < 2 ^ 63 }
    {
        self.place
    }

    /// Whether an append ended with `DiskFault`, so that no other may follow.
    pub fn is_closed(&self) -> bool
        ensures { result ≡ self.now.closed }
    {
        self.closed
    }

    pub(crate) fn close(&mut self)
        ensures { self.new ≡ record { place = self.old.place; closed = true } }
    {
        self.closed = true;
    }

    pub(crate) fn move_to(&mut self, place: u64)
        requires { place < 2 ^ 63 }
        ensures { self.new ≡ record { place = place; closed = self.old.closed } }
    {
        self.place = place;
    }
}
