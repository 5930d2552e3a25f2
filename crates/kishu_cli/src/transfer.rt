//! Pieces of work that may take several calls of the system. A call that a signal interrupts is made again; after 2^64-1 calls a
//! piece of work is given up.
ghost use Rattle.std.specs.Prelude.{◌≡◌, ◌≤◌, ◌<◌, ◌∷◌, ◌⊎◌, Ok, Err, take, length, IfOk, OnOk, OnErr};
ghost use Rattle.kishu_cli.specs.declared.call.Fault.TheVariants.{Interrupted, Other};
ghost use Rattle.kishu_cli.specs.Calls.{HasRead, ReadFailed, HasTaken, TakeFailed, Writing, WriteFailed, after, write_on};

use crate::call::Fault;
use crate::system::{Input, System};
use kishu_host::Failed;

/// Where bytes are written.
#[derive(Clone, Copy)]
pub enum Sink {
    /// From place `at` of the store file on.
    File { at: u64 },
    /// On standard output.
    Output,
}

/// Fills `into` from place `at` on, as far as the file goes, and answers the number of bytes.
///
/// `Failed`: a read failed, or 2^64-1 were made.
pub fn read_all<S: System>(system: &mut S, at: u64, into: &mut [u8]) -> Result<usize, Failed>
    ensures count { IfOk result (λ n. n ≤ length into.old) }
    ensures ok { IfOk result (λ n. HasRead at (length into.old) (S.history system.old) (take n into.new) (S.history system.new)) }
    ensures err { OnErr result (ReadFailed at (length into.old) (S.history system.old) (S.history system.new)) }
{
    let mut done = 0;
    let mut calls: u64 = 0;
    while done < into.len() {
        if calls == u64::MAX {
            return Err(Failed);
        }
        calls += 1;
        match system.read(place_after(at, done), &mut into[done..]) {
            Ok(0) => return Ok(done),
            Ok(count) => done += count,
            Err(Fault::Interrupted) => {}
            Err(Fault::Other) => return Err(Failed),
        }
    }
    Ok(done)
}

/// Writes all the bytes.
///
/// `Failed`: a write failed or took nothing, or 2^64-1 were made.
pub fn write_all<S: System>(system: &mut S, to: Sink, bytes: &[u8]) -> Result<(), Failed>
    ensures ok { OnOk result (Writing to bytes.now (S.history system.old) (length bytes.now) (S.history system.new)) }
    ensures err { OnErr result (WriteFailed to bytes.now (S.history system.old) (S.history system.new)) }
{
    let mut done = 0;
    let mut calls: u64 = 0;
    while done < bytes.len() {
        if calls == u64::MAX {
            return Err(Failed);
        }
        calls += 1;
        done += taken(write_some(system, to, done, &bytes[done..]))?;
    }
    Ok(())
}

/// Writes a front of a piece that lies `done` bytes after the first, and answers its length.
fn write_some<S: System>(
    system: &mut S,
    to: Sink,
    done: usize,
    piece: &[u8],
) -> Result<usize, Fault>
    ensures count { IfOk result (λ n. n ≤ length piece.now) }
    ensures history { S.history system.new ≡ (write_on to done result, piece.now) ∷ S.history system.old }
{
    match to {
        Sink::File { at } => system.write(place_after(at, done), piece),
        Sink::Output => system.put(piece),
    }
}

/// How many bytes a write took of a piece that isn't empty. One that a signal interrupted took none.
///
/// `Failed`: it failed, or took nothing.
fn taken(answer: Result<usize, Fault>) -> Result<usize, Failed>
    ensures ok { IfOk result (λ n. ((answer ≡ Ok n) × (0 < n)) ⊎ ((answer ≡ Err Interrupted) × (n ≡ 0))) }
    ensures err { OnErr result ((answer ≡ Ok 0) ⊎ (answer ≡ Err Other)) }
{
    match answer {
        Ok(0) | Err(Fault::Other) => Err(Failed),
        Ok(count) => Ok(count),
        Err(Fault::Interrupted) => Ok(0),
    }
}

/// The place `count` bytes after another. A place past 2^64-1, which no file has, is 2^64-1.
fn place_after(at: u64, count: usize) -> u64
    ensures { result ≡ after at count }
{
    at.saturating_add(count as u64)
}

/// Takes what standard input has ready, as far as `into` has room, and answers the number of bytes. Where `into` isn't empty, 0
/// means the end.
///
/// `Failed`: a take failed, or 2^64-1 were made.
pub fn take_some<I: Input>(input: &mut I, into: &mut [u8]) -> Result<usize, Failed>
    ensures count { IfOk result (λ n. n ≤ length into.old) }
    ensures ok { IfOk result (λ n. HasTaken (length into.old) (I.history input.old) (take n into.new) (I.history input.new)) }
    ensures err { OnErr result (TakeFailed (length into.old) (I.history input.old) (I.history input.new)) }
{
    for _ in 0..u64::MAX {
        match input.take(into) {
            Ok(count) => return Ok(count),
            Err(Fault::Interrupted) => {}
            Err(Fault::Other) => return Err(Failed),
        }
    }
    Err(Failed)
}
