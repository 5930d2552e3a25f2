//! The store file and the streams of a system as a host and a source. They tell nothing of content. Their clauses tell which calls
//! of the system they made, and what they answered by its answers.
ghost use Rattle.std.specs.Prelude.{◌≡◌, true, OnOk, OnErr};
ghost use Rattle.kishu_host.specs.Host.{HasCause};
ghost use Rattle.kishu_cli.specs.Adapters.{is_open, is_free, Opens, Synced, SyncFailed, passed, counted};

use crate::call::{Fault, LockAnswer};
use crate::system::{Input, System};
use crate::transfer;
use crate::transfer::Sink;
use kishu_host::{Failed, Host, Source};

/// Whether the store file is open.
#[derive(Clone, Copy)]
pub enum Store {
    /// It wasn't asked for yet.
    Unopened,
    /// It is open, and had no byte when it was opened. Its folder wasn't synced since.
    New,
    /// It is open, and had bytes when it was opened, or its folder was synced since.
    Open,
    /// It couldn't be opened, another run has its lock, or it didn't tell its length. It isn't tried again.
    Failed,
}

impl Store {
    fn is_open(self) -> bool
        ensures { result ≡ is_open self }
    {
        matches!(self, Store::New | Store::Open)
    }
}

/// Opens the file, asks for its lock, and then for its length. It isn't open where another run has the lock; where the file system
/// has no locks, it is open without.
fn open_store<S: System>(system: &mut S) -> Store
    ensures { Opens Store.Unopened (S.history system.old) result (S.history system.new) (is_open result) }
{
    match system.open() {
        Ok(()) => {}
        Err(_) => return Store::Failed,
    }
    let answer = system.lock();
    if !is_free(answer) {
        return Store::Failed;
    }
    match system.length() {
        Ok(0) => Store::New,
        Ok(_) => Store::Open,
        Err(_) => Store::Failed,
    }
}

/// Whether this answer to the call for the lock lets a run go on.
fn is_free(lock: Result<LockAnswer, Fault>) -> bool
    ensures { result ≡ is_free lock }
{
    matches!(lock, Ok(LockAnswer::Taken | LockAnswer::Unsupported))
}

/// The store file and standard output of a system.
///
/// The file is opened at the first call that needs it, so a run that needs none makes none. As it is opened, its lock is taken, and
/// kept until the host is dropped: one run at a time is at a store. Where the file can't be opened, or another run has its lock,
/// this call and each later one that needs the file fails and is counted.
///
/// A file that had no byte as it was opened is new: its folder is synced behind the file's first sync that succeeds, and that sync
/// is Ok only where the folder's was.
#[derive(Drop)]
pub struct RealHost<S> {
    system: S,
    store: Store,
    disk_faults: u64,
    out_faults: u64,
}

impl<S: System> RealHost<S> {
    /// The file, which isn't opened yet, and standard output, without a fault so far.
    pub fn new(system: S) -> RealHost<S>
        ensures system { result.system ≡ system }
        ensures unopened { result.store ≡ Store.Unopened }
        ensures disk { result.disk_faults ≡ 0 }
        ensures out { result.out_faults ≡ 0 }
    {
        RealHost {
            system,
            store: Store::Unopened,
            disk_faults: 0,
            out_faults: 0,
        }
    }

    /// How many calls failed at the file.
    #[cfg(test)]
    pub fn disk_faults(&self) -> u64
        ensures { result ≡ self.now.disk_faults }
    {
        self.disk_faults
    }

    /// Opens the file where that wasn't tried yet, and answers whether it is open.
    fn ensure_open(&mut self) -> bool
        ensures opens { Opens self.old.store (S.history self.old.system) self.new.store (S.history self.new.system) result }
        ensures open { result ≡ is_open self.new.store }
        ensures disk { self.new.disk_faults ≡ self.old.disk_faults }
        ensures out { self.new.out_faults ≡ self.old.out_faults }
    {
        match self.store {
            Store::New => true,
            Store::Open => true,
            Store::Failed => false,
            Store::Unopened => {
                self.store = open_store(&mut self.system);
                self.store.is_open()
            }
        }
    }

    /// Syncs the open file, and then its folder, where the file is new and that wasn't done yet.
    fn sync_open(&mut self) -> Result<(), Fault>
        requires { is_open self.old.store ≡ true }
        ensures ok { OnOk result (Synced self.old.store (S.history self.old.system) self.new.store (S.history self.new.system)) }
        ensures err { OnErr result (SyncFailed self.old.store (S.history self.old.system) self.new.store (S.history self.new.system)) }
        ensures disk { self.new.disk_faults ≡ self.old.disk_faults }
        ensures out { self.new.out_faults ≡ self.old.out_faults }
    {
        self.system.sync()?;
        if let Store::New = self.store {
            self.system.sync_folder()?;
            self.store = Store::Open;
        }
        Ok(())
    }
}

/// The answer of a call. An error raises the count, which stands still at 2^64-1.
fn counted<T: Drop, E: Drop>(answer: Result<T, E>, count: &mut u64) -> Result<T, Failed>
    ensures same { result ≡ passed answer }
    ensures cause { HasCause count.old count.new result }
    ensures count { count.new ≡ counted result count.old }
{
    match answer {
        Ok(x) => Ok(x),
        Err(_) => {
            *count = count.saturating_add(1);
            Err(Failed)
        }
    }
}

impl<S: System> Host for RealHost<S> {
    ghost use Rattle.std.specs.Prelude.{◌≡◌, ◌≤◌, ◌⊎◌, [], ◌∷◌, length, take, Ok, Err, IfOk, OnOk, OnErr};
    ghost use Rattle.kishu_host.specs.Host.{HasCause};
    ghost use Rattle.kishu_cli.specs.declared.call.Call.TheVariants.{Length, Flush};
    ghost use Rattle.kishu_cli.specs.declared.call.Fault.{Fault};
    ghost use Rattle.kishu_cli.specs.Calls.{History, HasRead, ReadFailed, Writing, WriteFailed};
    ghost use Rattle.kishu_cli.specs.declared.transfer.Sink.TheVariants.{File, Output};
    ghost use Rattle.kishu_cli.specs.Adapters.{OnFile, FailedOnFile, SyncedOnFile, FailedSyncOnFile, counted};
    ghost use Rattle.kishu_cli.specs.Silent.{silent_host, not_told};

    ghost state = { λ s. silent_host s.disk_faults s.out_faults };

    ghost reads_now = { λ s told. tt };

    ghost counts_now = { λ s t c le now. tt };

    ghost only_now = { λ s c o told left. absurd (not_told told) };

    /// Asks the system once, where the file is open.
    fn len(&mut self) -> Result<u64, Failed>
        ensures ok { IfOk result (λ n. OnFile self.old.store (S.history self.old.system) self.new.store (λ mid. S.history self.new.system ≡ (Length (Ok n), []) ∷ mid)) }
        ensures err { OnErr result (FailedOnFile self.old.store (S.history self.old.system) self.new.store (S.history self.new.system) (λ mid. (e : Fault) × (S.history self.new.system ≡ (Length (Err e), []) ∷ mid))) }
        ensures disk { HasCause self.old.disk_faults self.new.disk_faults result }
        ensures disk_faults { self.new.disk_faults ≡ counted result self.old.disk_faults }
        ensures out { self.new.out_faults ≡ self.old.out_faults }
    {
        if !self.ensure_open() {
            return counted(Err(Failed), &mut self.disk_faults);
        }
        let answer = self.system.length();
        counted(answer, &mut self.disk_faults)
    }

    /// Reads on until the room is full or the file ends, where the file is open. The bytes are those that came.
    fn read_at(&mut self, at: u64, into: &mut [u8]) -> Result<usize, Failed>
        ensures count { IfOk result (λ n. n ≤ length into.old) }
        ensures ok { IfOk result (λ n. OnFile self.old.store (S.history self.old.system) self.new.store (λ mid. HasRead at (length into.old) mid (take n into.new) (S.history self.new.system))) }
        ensures err { OnErr result (FailedOnFile self.old.store (S.history self.old.system) self.new.store (S.history self.new.system) (λ mid. ReadFailed at (length into.old) mid (S.history self.new.system))) }
        ensures disk { HasCause self.old.disk_faults self.new.disk_faults result }
        ensures disk_faults { self.new.disk_faults ≡ counted result self.old.disk_faults }
        ensures out { self.new.out_faults ≡ self.old.out_faults }
    {
        if !self.ensure_open() {
            return counted(Err(Failed), &mut self.disk_faults);
        }
        let answer = transfer::read_all(&mut self.system, at, into);
        counted(answer, &mut self.disk_faults)
    }

    /// Writes on until all is taken, where the file is open.
    fn write_at(&mut self, at: u64, bytes: &[u8]) -> Result<(), Failed>
        ensures ok { OnOk result (OnFile self.old.store (S.history self.old.system) self.new.store (λ mid. Writing (File at) bytes.now mid (length bytes.now) (S.history self.new.system))) }
        ensures err { OnErr result (FailedOnFile self.old.store (S.history self.old.system) self.new.store (S.history self.new.system) (λ mid. WriteFailed (File at) bytes.now mid (S.history self.new.system))) }
        ensures disk { HasCause self.old.disk_faults self.new.disk_faults result }
        ensures disk_faults { self.new.disk_faults ≡ counted result self.old.disk_faults }
        ensures out { self.new.out_faults ≡ self.old.out_faults }
    {
        if !self.ensure_open() {
            return counted(Err(Failed), &mut self.disk_faults);
        }
        let answer = transfer::write_all(&mut self.system, Sink::File { at }, bytes);
        counted(answer, &mut self.disk_faults)
    }

    /// Syncs the file once, where it is open, and then its folder, where the file is new and that wasn't done yet.
    fn sync(&mut self) -> Result<(), Failed>
        ensures ok { OnOk result (SyncedOnFile self.old.store (S.history self.old.system) self.new.store (S.history self.new.system)) }
        ensures err { OnErr result (FailedSyncOnFile self.old.store (S.history self.old.system) self.new.store (S.history self.new.system)) }
        ensures disk { HasCause self.old.disk_faults self.new.disk_faults result }
        ensures disk_faults { self.new.disk_faults ≡ counted result self.old.disk_faults }
        ensures out { self.new.out_faults ≡ self.old.out_faults }
    {
        if !self.ensure_open() {
            return counted(Err(Failed), &mut self.disk_faults);
        }
        let answer = self.sync_open();
        counted(answer, &mut self.disk_faults)
    }

    /// Writes on until all is taken, and flushes. The file isn't touched.
    fn put(&mut self, bytes: &[u8]) -> Result<(), Failed>
        ensures ok { OnOk result ((mid : History) × Writing Output bytes.now (S.history self.old.system) (length bytes.now) mid
            × (S.history self.new.system ≡ (Flush (Ok tt), []) ∷ mid)) }
        ensures err { OnErr result (WriteFailed Output bytes.now (S.history self.old.system) (S.history self.new.system)
            ⊎ ((mid : History) × (e : Fault) × Writing Output bytes.now (S.history self.old.system) (length bytes.now) mid
            × (S.history self.new.system ≡ (Flush (Err e), []) ∷ mid))) }
        ensures store { self.new.store ≡ self.old.store }
        ensures disk { self.new.disk_faults ≡ self.old.disk_faults }
        ensures out { HasCause self.old.out_faults self.new.out_faults result }
        ensures out_faults { self.new.out_faults ≡ counted result self.old.out_faults }
    {
        let answer = transfer::write_all(&mut self.system, Sink::Output, bytes);
        if answer.is_err() {
            return counted(answer, &mut self.out_faults);
        }
        let answer = self.system.flush();
        counted(answer, &mut self.out_faults)
    }
}

/// The standard input of a system.
#[derive(Drop)]
pub struct RealSource<I> {
    input: I,
    in_faults: u64,
}

impl<I: Input> RealSource<I> {
    /// Standard input, without a fault so far.
    pub fn new(input: I) -> RealSource<I>
        ensures input { result.input ≡ input }
        ensures faults { result.in_faults ≡ 0 }
    {
        RealSource {
            input,
            in_faults: 0,
        }
    }
}

impl<I: Input> Source for RealSource<I> {
    ghost use Rattle.std.specs.Prelude.{◌≡◌, ◌≤◌, length, take, IfOk, OnErr};
    ghost use Rattle.kishu_host.specs.Host.{HasCause};
    ghost use Rattle.kishu_cli.specs.Calls.{HasTaken, TakeFailed};
    ghost use Rattle.kishu_cli.specs.Adapters.{counted};
    ghost use Rattle.kishu_cli.specs.Silent.{silent_source};

    ghost source = { λ s. silent_source s.in_faults };

    /// Takes what is ready. The bytes are those that came.
    fn take(&mut self, into: &mut [u8]) -> Result<usize, Failed>
        ensures count { IfOk result (λ n. n ≤ length into.old) }
        ensures ok { IfOk result (λ n. HasTaken (length into.old) (I.history self.old.input) (take n into.new) (I.history self.new.input)) }
        ensures err { OnErr result (TakeFailed (length into.old) (I.history self.old.input) (I.history self.new.input)) }
        ensures cause { HasCause self.old.in_faults self.new.in_faults result }
        ensures in_faults { self.new.in_faults ≡ counted result self.old.in_faults }
    {
        let answer = transfer::take_some(&mut self.input, into);
        counted(answer, &mut self.in_faults)
    }
}
