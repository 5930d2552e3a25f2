//! The calls that are made of the operating system, as clauses name them. Counts, rooms and places are in bytes.

/// Why a call of the system failed.
#[derive(Clone, Copy)]
pub enum Fault {
    /// A signal interrupted it. By the system's word nothing was done, and the call may be made again.
    Interrupted,
    /// Any other error.
    Other,
}

/// What the system answers where it is asked for the lock of the store file.
#[derive(Clone, Copy)]
pub enum LockAnswer {
    /// This opening of the file has the lock now.
    Taken,
    /// Another opening of the file has it.
    Held,
    /// The file system has no locks.
    Unsupported,
}

/// A call of the system with its answer. The bytes that came by it, or that it was given, are told beside it.
#[derive(Clone, Copy)]
pub enum Call {
    /// Opens the store file.
    Open(Result<(), Fault>),
    /// Asks for the file's lock.
    Lock(Result<LockAnswer, Fault>),
    /// Asks for the file's length.
    Length(Result<u64, Fault>),
    /// Reads from place `at` of the file, up to `room` bytes, and answers how many came.
    Read {
        at: u64,
        room: usize,
        answer: Result<usize, Fault>,
    },
    /// Writes at place `at` of the file, and answers how many bytes were taken.
    Write {
        at: u64,
        answer: Result<usize, Fault>,
    },
    /// Syncs the file.
    Sync(Result<(), Fault>),
    /// Syncs the folder of the file.
    SyncFolder(Result<(), Fault>),
    /// Writes on standard output, and answers how many bytes were taken.
    Put(Result<usize, Fault>),
    /// Flushes standard output.
    Flush(Result<(), Fault>),
    /// Reads from standard input, up to `room` bytes, and answers how many came.
    Take {
        room: usize,
        answer: Result<usize, Fault>,
    },
}
