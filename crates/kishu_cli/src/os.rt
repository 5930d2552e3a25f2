//! The store file and the standard streams of the operating system. Each method makes one call of the standard library, and then
//! notes it with its answer. An opening is up to four; the sync of a folder is its opening and its sync; where no file is open,
//! none is made, and an error is noted. No clause shows that the call that was noted was made, so these bodies are to be read.
ghost use Rattle.std.specs.Prelude.{◌≡◌, ◌≤◌, [], length, IfOk, None, ◌<ℤ◌, ◌≤ℤ◌, pos, true, false};
ghost use Rattle.std.specs.Fd.{file_raw_fd};
ghost use Rattle.kishu_cli.specs.Calls.{came};
ghost use Rattle.kishu_cli.specs.Faults.{fault_of, told, lock_told};
ghost use Rattle.kishu_cli.specs.Folders.{folder_of};

use crate::call::{Call, Fault, LockAnswer};
use crate::call_log::CallLog;
use crate::system::{Input, System};
use std::fs::{File, OpenOptions, TryLockError};
use std::io;
use std::io::{ErrorKind, Read, Write};
use std::os::fd::AsRawFd;
use std::os::unix::fs::FileExt;
use std::path::Path;

/// The last number of a standard stream.
const LAST_STREAM: i32 = 2;

/// A file whose number is none of a standard stream's.
#[derive(Drop)]
struct StoreFile {
    file: File,
    ghost above: { pos 2 <ℤ file_raw_fd file },
}

/// The store file at a path, and standard output.
#[derive(Drop)]
pub struct Os<'a> {
    rt: &'a HostRuntime,
    path: &'a str,
    file: Option<StoreFile>,
    history: CallLog,
}

impl<'a> Os<'a> {
    /// The file at `path`, which isn't opened yet, and standard output.
    pub fn new(rt: &'a HostRuntime, path: &'a str) -> Os<'a>
        ensures path { result.path.now ≡ path.now }
        ensures unopened { result.file ≡ None }
        ensures history { result.history.calls ≡ [] }
    {
        Os {
            rt,
            path,
            file: None,
            history: CallLog::new(),
        }
    }
}

/// Opens the file at a path for reads and writes, and makes it where there is none.
///
/// The system gives a file the lowest number that is free. Where a standard stream is closed, that
/// would be the stream's number, and what is put out there would land in the file. So the file is
/// then opened again, once for each such stream, while the others are held.
fn open_above_streams(rt: &HostRuntime, path: &str) -> io::Result<StoreFile> {
    let first = open_once(rt, path)?;
    if !has_stream_number(&first) {
        return Ok(StoreFile { file: first });
    }
    let second = open_once(rt, path)?;
    if !has_stream_number(&second) {
        return Ok(StoreFile { file: second });
    }
    let third = open_once(rt, path)?;
    if !has_stream_number(&third) {
        return Ok(StoreFile { file: third });
    }
    let fourth = open_once(rt, path)?;
    if !has_stream_number(&fourth) {
        return Ok(StoreFile { file: fourth });
    }
    Err(ErrorKind::Other.into())
}

fn open_once(rt: &HostRuntime, path: &str) -> io::Result<File> {
    OpenOptions::new()
        .read(true)
        .write(true)
        .create(true)
        .open(rt, path)
}

fn has_stream_number(file: &File) -> bool
    ensures stream { result ≡ true → file_raw_fd file.now ≤ℤ pos 2 }
    ensures other { result ≡ false → pos 2 <ℤ file_raw_fd file.now }
{
    file.as_raw_fd() <= LAST_STREAM
}

/// The answer of a call, with its error as a fault.
fn answer_of<T: Drop>(answer: io::Result<T>) -> Result<T, Fault>
    ensures { result ≡ told answer }
{
    match answer {
        Ok(x) => Ok(x),
        Err(error) => Err(fault_of(error.kind())),
    }
}

/// An error of this kind as a fault.
fn fault_of(kind: ErrorKind) -> Fault
    ensures { result ≡ fault_of kind }
{
    match kind {
        ErrorKind::Interrupted => Fault::Interrupted,
        _ => Fault::Other,
    }
}

/// The answer to a call for the lock.
fn lock_answer_of(answer: Result<(), TryLockError>) -> Result<LockAnswer, Fault>
    ensures { result ≡ lock_told answer }
{
    match answer {
        Ok(()) => Ok(LockAnswer::Taken),
        Err(TryLockError::WouldBlock) => Ok(LockAnswer::Held),
        Err(TryLockError::Error(error)) => match error.kind() {
            ErrorKind::Unsupported => Ok(LockAnswer::Unsupported),
            kind => Err(fault_of(kind)),
        },
    }
}

/// The folder in which the name of the file at a path stands.
fn folder_of(path: &str) -> &str
    ensures { result.now ≡ folder_of path.now }
{
    match Path::new(path).parent() {
        Some(folder) if !folder.as_os_str().is_empty() => folder.as_os_str(),
        _ => ".",
    }
}

/// Syncs the folder in which the name of the file at a path stands.
fn sync_folder_of(rt: &HostRuntime, path: &str) -> io::Result<()> {
    File::open(rt, folder_of(path))?.sync_all()
}

/// The bytes that came by a call that read into `into`.
fn came(answer: Result<usize, Fault>, into: &[u8]) -> &[u8]
    requires { IfOk answer (λ n. n ≤ length into.now) }
    ensures { result.now ≡ came answer into.now }
{
    match answer {
        Ok(n) => &into[..n],
        Err(_) => &[],
    }
}

impl System for Os<'_> {
    ghost history = { λ s. s.history.calls };

    fn open(&mut self) -> Result<(), Fault> {
        let answer = match answer_of(open_above_streams(self.rt, self.path)) {
            Ok(file) => {
                self.file = Some(file);
                Ok(())
            }
            Err(fault) => Err(fault),
        };
        self.history.note(Call::Open(answer), &[]);
        answer
    }

    fn lock(&mut self) -> Result<LockAnswer, Fault> {
        let answer = match &self.file {
            Some(store) => lock_answer_of(store.file.try_lock()),
            None => Err(Fault::Other),
        };
        self.history.note(Call::Lock(answer), &[]);
        answer
    }

    fn length(&mut self) -> Result<u64, Fault> {
        let answer = match &self.file {
            Some(store) => answer_of(store.file.metadata().map(|about| about.len())),
            None => Err(Fault::Other),
        };
        self.history.note(Call::Length(answer), &[]);
        answer
    }

    fn read(&mut self, at: u64, into: &mut [u8]) -> Result<usize, Fault> {
        let room = into.len();
        let answer = match &self.file {
            Some(store) => answer_of(store.file.read_at(into, at)),
            None => Err(Fault::Other),
        };
        let call = Call::Read { at, room, answer };
        self.history.note(call, came(answer, into));
        answer
    }

    fn write(&mut self, at: u64, bytes: &[u8]) -> Result<usize, Fault> {
        let answer = match &self.file {
            Some(store) => answer_of(store.file.write_at(bytes, at)),
            None => Err(Fault::Other),
        };
        self.history.note(Call::Write { at, answer }, bytes);
        answer
    }

    fn sync(&mut self) -> Result<(), Fault> {
        let answer = match &self.file {
            Some(store) => answer_of(store.file.sync_all()),
            None => Err(Fault::Other),
        };
        self.history.note(Call::Sync(answer), &[]);
        answer
    }

    fn sync_folder(&mut self) -> Result<(), Fault> {
        let answer = answer_of(sync_folder_of(self.rt, self.path));
        self.history.note(Call::SyncFolder(answer), &[]);
        answer
    }

    fn put(&mut self, bytes: &[u8]) -> Result<usize, Fault> {
        let answer = answer_of(self.rt.stdout().write(bytes));
        self.history.note(Call::Put(answer), bytes);
        answer
    }

    fn flush(&mut self) -> Result<(), Fault> {
        let answer = answer_of(self.rt.stdout().flush());
        self.history.note(Call::Flush(answer), &[]);
        answer
    }
}

/// Standard input.
#[derive(Drop)]
pub struct OsInput<'a> {
    rt: &'a HostRuntime,
    history: CallLog,
}

impl<'a> OsInput<'a> {
    /// Standard input, of which nothing was taken.
    pub fn new(rt: &'a HostRuntime) -> OsInput<'a>
        ensures { result.history.calls ≡ [] }
    {
        OsInput {
            rt,
            history: CallLog::new(),
        }
    }
}

impl Input for OsInput<'_> {
    ghost history = { λ s. s.history.calls };

    fn take(&mut self, into: &mut [u8]) -> Result<usize, Fault> {
        let room = into.len();
        let answer = answer_of(self.rt.stdin().read(into));
        let call = Call::Take { room, answer };
        self.history.note(call, came(answer, into));
        answer
    }
}
