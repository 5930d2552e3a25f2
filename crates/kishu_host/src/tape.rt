// What a host in memory has done, in buffers of fixed size.
ghost use Rattle.std.specs.Prelude.{◌≡◌, ◌≤◌, ◌+◌, ◌++◌, ◌∷◌, [], length, replicate, vec_len, vec_capacity, max, true, false, IfOk, ◌↔◌, IsTrue};
ghost use Rattle.kishu_host.specs.Host.{overwrite};
ghost use Rattle.kishu_host.specs.Crash.{IsFilled, all_within};
ghost use Rattle.kishu_host.specs.Tape.{unsynced, ranges_of};

use std::alloc::{AllocError, Global};
use std::marker::Model;

/// What happened, without its bytes.
#[derive(Clone, Copy)]
enum Entry {
    Write { at: u64, len: usize },
    Sync,
    Append { len: usize },
}

/// What the file first held, and what was done to file and output since.
///
/// `written` and `out` hold the bytes of all writes and of all puts, one after another; `entries` says how to part them.
#[derive(Drop)]
pub(crate) struct Tape {
    first: Vec<u8>,
    file: Vec<u8>,
    out: Vec<u8>,
    written: Vec<u8>,
    entries: Vec<Entry>,
    room: usize,
}

impl Model for Tape {
    ghost use Rattle.std.specs.Prelude.{[], vec_len, vec_capacity};
    ghost use Rattle.kishu_host.specs.Story.{Story};
    ghost use Rattle.kishu_host.specs.Tape.{history, IsTape, HasRoom};

    ghost Value = { Story };

    ghost view = { λ t. record { first = t.first.items; events = history t.entries.items t.written.items t.out.items []; room = t.room } };

    ghost invariant = { λ t. IsTape t.first.items t.file.items t.out.items t.written.items t.entries.items
        × HasRoom t.room (vec_len t.file) (vec_capacity t.file)
        × HasRoom t.room (vec_len t.out) (vec_capacity t.out)
        × HasRoom t.room (vec_len t.written) (vec_capacity t.written)
        × HasRoom t.room (vec_len t.entries) (vec_capacity t.entries) };
}

/// Appends bytes for which there is room.
fn add_bytes(to: &mut Vec<u8>, bytes: &[u8])
    requires { vec_len to.old + length bytes.now ≤ vec_capacity to.old }
    ensures items { to.new.items ≡ to.old.items ++ bytes.now }
    ensures len { vec_len to.new ≡ vec_len to.old + length bytes.now }
    ensures capacity { vec_capacity to.old ≤ vec_capacity to.new }
{
    match to.extend_from_slice(bytes) {
        Ok(()) => {}
        Err(_) => unreachable!(),
    }
}

/// Appends an entry for which there is room.
fn add_entry(to: &mut Vec<Entry>, entry: Entry)
    requires { vec_len to.old + 1 ≤ vec_capacity to.old }
    ensures items { to.new.items ≡ to.old.items ++ entry ∷ [] }
    ensures len { vec_len to.new ≡ vec_len to.old + 1 }
    ensures capacity { vec_capacity to.old ≤ vec_capacity to.new }
{
    match to.push(entry) {
        Ok(()) => {}
        Err(_) => unreachable!(),
    }
}

/// Writes bytes over what is there, and past the end.
fn put_over(to: &mut Vec<u8>, at: usize, bytes: &[u8])
    requires place { at ≤ vec_len to.old }
    requires room { at + length bytes.now ≤ vec_capacity to.old }
    ensures items { to.new.items ≡ overwrite at bytes.now to.old.items }
    ensures len { vec_len to.new ≡ max (vec_len to.old) (at + length bytes.now) }
    ensures capacity { vec_capacity to.old ≤ vec_capacity to.new }
{
    let rest = to.len() - at;
    if bytes.len() <= rest {
        to[at..at + bytes.len()].copy_from_slice(bytes);
    } else {
        to[at..].copy_from_slice(&bytes[..rest]);
        add_bytes(to, &bytes[rest..]);
    }
}

/// The entries after the last sync.
fn since_sync(entries: &[Entry]) -> &[Entry]
    ensures { ranges_of result.now [] ≡ unsynced entries.now [] }
{
    let mut start = 0;
    for (i, entry) in entries.iter().enumerate() {
        if let Entry::Sync = entry {
            start = i + 1;
        }
    }
    &entries[start..]
}

/// Fills one range of a file with a byte.
fn fill_range(file: &mut Vec<u8>, at: usize, len: usize, fill: u8)
    requires { at + len ≤ vec_len file.old }
    ensures { file.new.items ≡ overwrite at (replicate len fill) file.old.items }
{
    file[at..at + len].fill(fill);
}

/// Fills the ranges of these writes with a byte.
fn fill_writes(file: &mut Vec<u8>, entries: &[Entry], fill: u8)
    requires { all_within (length file.old.items) (ranges_of entries.now []) ≡ true }
    ensures { IsFilled fill (ranges_of entries.now []) file.old.items file.new.items }
{
    for entry in entries {
        if let Entry::Write { at, len } = *entry {
            fill_range(file, at as usize, len, fill);
        }
    }
}

impl Tape {
    ghost use Rattle.kishu_host.specs.Story.{file_of, out_of, with_event, all_written, is_valid, torn_of, Wrote, Synced, Put};

    /// A tape of nothing done to a file with these bytes.
    pub(crate) fn new(alloc: Global, file: &[u8], room: usize) -> Result<Tape, AllocError>
        requires { length file.now ≤ room }
        ensures { IfOk result (λ t. t ≡ record { first = file.now; events = []; room = room }) }
    {
        let mut first = Vec::with_capacity(alloc, room)?;
        add_bytes(&mut first, file);
        let mut kept = Vec::with_capacity(alloc, room)?;
        add_bytes(&mut kept, file);
        let out = Vec::with_capacity(alloc, room)?;
        let written = Vec::with_capacity(alloc, room)?;
        let entries = Vec::with_capacity(alloc, room)?;
        Ok(Tape {
            first,
            file: kept,
            out,
            written,
            entries,
            room,
        })
    }

    /// The file after all that was done.
    pub(crate) fn file(&self) -> &[u8]
        ensures { result.now ≡ file_of self.now }
    {
        &self.file
    }

    /// The bytes of all puts.
    pub(crate) fn out(&self) -> &[u8]
        ensures { result.now ≡ out_of self.now }
    {
        &self.out
    }

    /// Notes a sync, where there is room for it.
    pub(crate) fn sync(&mut self) -> bool
        ensures yes { result ≡ true → self.new ≡ with_event Synced self.old }
        ensures no { result ≡ false → self.new ≡ self.old }
        ensures room { IsTrue result ↔ (length self.old.events + 1 ≤ self.old.room) }
    {
        if self.entries.len() >= self.room {
            return false;
        }
        add_entry(&mut self.entries, Entry::Sync);
        true
    }

    /// Appends to the output, where there is room for it.
    pub(crate) fn put(&mut self, bytes: &[u8]) -> bool
        ensures yes { result ≡ true → self.new ≡ with_event (Put bytes.now) self.old }
        ensures no { result ≡ false → self.new ≡ self.old }
        ensures room { IsTrue result ↔ ((length self.old.events + 1 ≤ self.old.room)
            × (length (out_of self.old) + length bytes.now ≤ self.old.room)) }
    {
        if self.entries.len() >= self.room || bytes.len() > self.room - self.out.len() {
            return false;
        }
        add_bytes(&mut self.out, bytes);
        add_entry(&mut self.entries, Entry::Append { len: bytes.len() });
        true
    }

    /// Writes over the file, where there is room for it.
    pub(crate) fn write(&mut self, at: u64, bytes: &[u8]) -> bool
        requires { at ≤ length (file_of self.old) }
        ensures yes { result ≡ true → self.new ≡ with_event (Wrote at bytes.now) self.old }
        ensures no { result ≡ false → self.new ≡ self.old }
        ensures room { IsTrue result ↔ ((length self.old.events + 1 ≤ self.old.room)
            × (at + length bytes.now ≤ self.old.room)
            × (length (all_written self.old.events) + length bytes.now ≤ self.old.room)) }
    {
        let place = at as usize;
        if self.entries.len() >= self.room
            || bytes.len() > self.room - self.written.len()
            || place > self.room
            || bytes.len() > self.room - place
        {
            return false;
        }
        put_over(&mut self.file, place, bytes);
        add_bytes(&mut self.written, bytes);
        add_entry(
            &mut self.entries,
            Entry::Write {
                at,
                len: bytes.len(),
            },
        );
        true
    }

    /// The file in which each range written since the last sync holds this byte.
    pub(crate) fn torn(&self, fill: u8) -> Result<Vec<u8>, AllocError>
        requires { is_valid self.now.first self.now.events ≡ true }
        ensures { IfOk result (λ v. v.items ≡ torn_of fill self.now.first self.now.events) }
    {
        let mut torn = self.file.clone()?;
        fill_writes(&mut torn, since_sync(&self.entries), fill);
        Ok(torn)
    }
}
