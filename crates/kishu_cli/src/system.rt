//! What the program asks of the operating system, one call at a time.
ghost use Rattle.std.specs.Prelude.{◌≡◌, ◌≤◌, [], ◌∷◌, length, IfOk};
ghost use Rattle.kishu_cli.specs.declared.call.Call.TheVariants.{Open, Lock, Length, Read, Write, Sync, SyncFolder, Put, Flush, Take};
ghost use Rattle.kishu_cli.specs.Calls.{History, came};

use crate::call::{Fault, LockAnswer};

/// A store file and standard output, with the history of what was asked of them.
///
/// The history has the last call first, each with its answer and its bytes: those that came, or those that it was given. What a
/// call answers is left to the system; only a count is never above the room, or the number of bytes that were given.
///
/// `Fault`: the system couldn't, or the file isn't open.
pub trait System {
    /// What was asked so far.
    ghost history: { Self → History };

    /// Opens the file, and makes it where there is none.
    fn open(&mut self) -> Result<(), Fault>
        ensures { history self.new ≡ (Open result, []) ∷ history self.old };

    /// Asks for the file's advisory lock, and doesn't wait for it. A lock that is taken is kept as long as the file is open here.
    fn lock(&mut self) -> Result<LockAnswer, Fault>
        ensures { history self.new ≡ (Lock result, []) ∷ history self.old };

    /// The file's length in bytes.
    fn length(&mut self) -> Result<u64, Fault>
        ensures { history self.new ≡ (Length result, []) ∷ history self.old };

    /// Reads from place `at` of the file into the front of `into`, and answers the number of bytes. Where `into` isn't empty, 0
    /// means the end of the file. The rest of `into`, and all of it after a fault, may hold anything.
    fn read(&mut self, at: u64, into: &mut [u8]) -> Result<usize, Fault>
        ensures count { IfOk result (λ n. n ≤ length into.old) }
        ensures history { history self.new ≡ (Read at (length into.old) result, came result into.new) ∷ history self.old };

    /// Writes a front of the bytes at place `at` of the file, and answers its length.
    fn write(&mut self, at: u64, bytes: &[u8]) -> Result<usize, Fault>
        ensures count { IfOk result (λ n. n ≤ length bytes.now) }
        ensures history { history self.new ≡ (Write at result, bytes.now) ∷ history self.old };

    /// Syncs the file.
    fn sync(&mut self) -> Result<(), Fault>
        ensures { history self.new ≡ (Sync result, []) ∷ history self.old };

    /// Syncs the folder in which the file's name stands.
    fn sync_folder(&mut self) -> Result<(), Fault>
        ensures { history self.new ≡ (SyncFolder result, []) ∷ history self.old };

    /// Writes a front of the bytes on standard output, and answers its length.
    fn put(&mut self, bytes: &[u8]) -> Result<usize, Fault>
        ensures count { IfOk result (λ n. n ≤ length bytes.now) }
        ensures history { history self.new ≡ (Put result, bytes.now) ∷ history self.old };

    /// Passes on what standard output holds back.
    fn flush(&mut self) -> Result<(), Fault>
        ensures { history self.new ≡ (Flush result, []) ∷ history self.old };
}

/// Standard input, with the history of what was asked of it, told as a [`System`] tells its own.
pub trait Input {
    /// What was asked so far.
    ghost history: { Self → History };

    /// Takes what is ready into the front of `into`, and answers the number of bytes. Where `into` isn't empty, 0 means the end.
    /// The rest of `into`, and all of it after a fault, may hold anything.
    ///
    /// `Fault`: the system couldn't.
    fn take(&mut self, into: &mut [u8]) -> Result<usize, Fault>
        ensures count { IfOk result (λ n. n ≤ length into.old) }
        ensures history { history self.new ≡ (Take (length into.old) result, came result into.new) ∷ history self.old };
}
