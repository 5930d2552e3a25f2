// A host in memory. Its clauses on the trait's calls are the trait's own, and then what it does exactly.
ghost use Rattle.std.specs.Prelude.{◌≡◌, ◌≤◌, vec_len, true, [], Some, IfOk, IsTrue};
ghost use Rattle.kishu_host.specs.Host.{Only};
ghost use Rattle.kishu_host.specs.Story.{is_valid};
ghost use Rattle.kishu_host.specs.Memory.{is_refused, next};

use crate::count::{raise, refuses};
use crate::tape::Tape;
use crate::{Failed, Host};
use std::alloc::{AllocError, Global};

/// A store file and an output in memory: for tests, and for whoever wants to see what a stop at any moment would leave.
///
/// It keeps what the file first held and a record of its writes, syncs and puts. Its calls are numbered from 1, and a call past
/// number 2^64-1 has that number. A call fails exactly where its number stands in the list that it was made with, or is at least
/// the stop that it was made with; a write, a sync or a put also where there is no room for it. A call that fails changes neither
/// file, output nor record, and raises the count of its kind by one, up to 2^64-1.
#[derive(Drop)]
pub struct MemHost {
    tape: Tape,
    fail: Vec<u64>,
    stop: Option<u64>,
    calls: u64,
    reads: u64,
    disk_faults: u64,
    out_faults: u64,
    ghost valid: { IsTrue (is_valid tape.first tape.events) },
}

impl MemHost {
    ghost use Rattle.std.specs.Prelude.{List, ℕ, length};
    ghost use Rattle.kishu_host.specs.Memory.{number_told};
    ghost use Rattle.kishu_host.specs.Story.{torn_of};
    ghost use Rattle.kishu_host.specs.Crash.{MayHold, greatest_length};
    ghost use Rattle.kishu_host.specs.Calls.{memory_of, fresh, synced_of, written_since};

    /// A host whose file holds these bytes, so that a stop leaves them, and which has put out and read nothing.
    ///
    /// - `room`: so many bytes there are for the file, which must fit; as many for the file's first content, for the output, and for
    ///   the bytes of all writes; and as many places in the record.
    /// - `fail`: the numbers of the calls that fail.
    /// - `stop`: the number from which on every call fails.
    ///
    /// It takes all this memory at once, and fails with `AllocError` for want of it alone.
    pub fn new(
        alloc: Global,
        file: Vec<u8>,
        room: u64,
        fail: Vec<u64>,
        stop: Option<u64>,
    ) -> Result<MemHost, AllocError>
        requires { vec_len file ≤ room }
        ensures file { IfOk result (λ m. (⟦<MemHost as Host>⟧.state m).file ≡ file.items) }
        ensures out { IfOk result (λ m. (⟦<MemHost as Host>⟧.state m).out ≡ []) }
        ensures durable { IfOk result (λ m. Only file.items (⟦<MemHost as Host>⟧.state m).may_leave) }
        ensures reads { IfOk result (λ m. (⟦<MemHost as Host>⟧.state m).reads ≡ Some 0) }
        ensures disk_faults { IfOk result (λ m. (⟦<MemHost as Host>⟧.state m).disk_faults ≡ 0) }
        ensures out_faults { IfOk result (λ m. (⟦<MemHost as Host>⟧.state m).out_faults ≡ 0) }
        ensures tells { IfOk result (λ m. (⟦<MemHost as Host>⟧.state m).tells ≡ true) }
        ensures memory { IfOk result (λ m. memory_of m ≡ fresh file.items room fail.items stop) }
    {
        let tape = Tape::new(alloc, &file, room as usize)?;
        Ok(MemHost {
            tape,
            fail,
            stop,
            calls: 0,
            reads: 0,
            disk_faults: 0,
            out_faults: 0,
        })
    }

    /// Counts a call, and answers whether it is to fail by its number.
    fn is_due(&mut self) -> bool
        ensures tape { self.new.tape ≡ self.old.tape }
        ensures reads { self.new.reads ≡ self.old.reads }
        ensures disk_faults { self.new.disk_faults ≡ self.old.disk_faults }
        ensures out_faults { self.new.out_faults ≡ self.old.out_faults }
        ensures fail { self.new.fail ≡ self.old.fail }
        ensures stop { self.new.stop ≡ self.old.stop }
        ensures calls { self.new.calls ≡ next self.old.calls }
        ensures answer { result ≡ is_refused self.old.fail.items self.old.stop (next self.old.calls) }
    {
        raise(&mut self.calls);
        refuses(&self.fail, self.stop, self.calls)
    }

    /// The file as reads give it.
    pub fn file(&self) -> &[u8]
        ensures { result.now ≡ (⟦<MemHost as Host>⟧.state self.now).file }
    {
        self.tape.file()
    }

    /// The bytes put out.
    pub fn out(&self) -> &[u8]
        ensures { result.now ≡ (⟦<MemHost as Host>⟧.state self.now).out }
    {
        self.tape.out()
    }

    /// The number of bytes that reads gave, or 2^64-1 where that isn't told any more.
    pub fn bytes_read(&self) -> u64
        ensures { result ≡ number_told (⟦<MemHost as Host>⟧.state self.now).reads }
    {
        self.reads
    }

    /// How many calls of `len`, `read_at`, `write_at` and `sync` failed, up to 2^64-1.
    pub fn failed_disk(&self) -> u64
        ensures { result ≡ (⟦<MemHost as Host>⟧.state self.now).disk_faults }
    {
        self.disk_faults
    }

    /// How many calls of `put` failed, up to 2^64-1.
    pub fn failed_out(&self) -> u64
        ensures { result ≡ (⟦<MemHost as Host>⟧.state self.now).out_faults }
    {
        self.out_faults
    }

    /// The file in which each range that was written since the last sync holds `fill`, and every other byte is as reads give it.
    /// It is one of those that a stop now may leave.
    ///
    /// It fails with `AllocError` for want of memory alone.
    pub fn torn_file(&self, fill: u8) -> Result<Vec<u8>, AllocError>
        ensures torn { IfOk result (λ v. v.items ≡ torn_of fill (memory_of self.now).story.first (memory_of self.now).story.events) }
        ensures left { IfOk result (λ v. (⟦<MemHost as Host>⟧.state self.now).may_leave v.items) }
    {
        self.tape.torn(fill)
    }

    /// A law, with no work to do: the files that a stop now may leave are exactly those that the crash model allows, given the file
    /// at the last sync and the ranges written since. The greatest length since is that of the file as reads give it.
    pub fn keeps_crash_model(&self)
        ensures none_else { (c : List ℕ) → (⟦<MemHost as Host>⟧.state self.now).may_leave c → MayHold (synced_of (memory_of self.now)) (written_since (memory_of self.now)) c }
        ensures each { (c : List ℕ) → MayHold (synced_of (memory_of self.now)) (written_since (memory_of self.now)) c → (⟦<MemHost as Host>⟧.state self.now).may_leave c }
        ensures longest { greatest_length (length (synced_of (memory_of self.now))) (written_since (memory_of self.now)) ≡ length (⟦<MemHost as Host>⟧.state self.now).file }
    {}
}

impl Host for MemHost {
    ghost use Rattle.std.specs.Prelude.{◌≡◌, ◌≤◌, ◌-◌, ◌++◌, ◌↔◌, ◌⊎◌, ℕ, List, length, take, drop, min, true, is_err, IfOk, OnOk, OnErr, IsOk, IsErr};
    ghost use Rattle.kishu_host.specs.Host.{Told, Only, overwrite, Torn, Follows, IsPrefix, DuringPut, Keeps, Elapses, Now, ReadsMore, HasCause};
    ghost use Rattle.kishu_host.specs.Story.{Wrote, Synced, Put};
    ghost use Rattle.kishu_host.specs.Memory.{state_of};
    ghost use Rattle.kishu_host.specs.Calls.{memory_of, is_due, IsFaultless, HasPlace, CanWrite, CanPut, looked, read, did, disk_failed, out_failed};
    ghost use Rattle.kishu_host.specs.Laws.{valid-reads_now, now_is_since, only_now_since};

    ghost state = { λ m. state_of m.tape m.reads m.disk_faults m.out_faults };

    ghost reads_now = { λ m _. valid-reads_now m.tape.first m.tape.events m.valid };

    ghost counts_now = { λ m t c _ now. now_is_since m.tape.first m.tape.events t c now };

    ghost only_now = { λ m c o _ left. only_now_since m.tape.first m.tape.events c o left };

    /// It fails exactly where its number is due.
    fn len(&mut self) -> Result<u64, Failed>
        ensures length { IfOk result (λ n. Told (⟦<MemHost as Host>⟧.state self.old) (n ≡ length (⟦<MemHost as Host>⟧.state self.old).file)) }
        ensures keeps { Keeps (⟦<MemHost as Host>⟧.state self.old) (⟦<MemHost as Host>⟧.state self.new) }
        ensures time { Elapses (⟦<MemHost as Host>⟧.state self.old) (⟦<MemHost as Host>⟧.state self.new) (Now (⟦<MemHost as Host>⟧.state self.old)) }
        ensures reads { ReadsMore (⟦<MemHost as Host>⟧.state self.old).reads (⟦<MemHost as Host>⟧.state self.new).reads 0 }
        ensures disk { HasCause (⟦<MemHost as Host>⟧.state self.old).disk_faults (⟦<MemHost as Host>⟧.state self.new).disk_faults result }
        ensures out { (⟦<MemHost as Host>⟧.state self.old).out_faults ≤ (⟦<MemHost as Host>⟧.state self.new).out_faults }
        ensures fails { is_err result ≡ is_due (memory_of self.old) }
        ensures after_ok { OnOk result (memory_of self.new ≡ looked (memory_of self.old)) }
        ensures after_err { OnErr result (memory_of self.new ≡ disk_failed (memory_of self.old)) }
        ensures sure { IsFaultless (memory_of self.old) → IsOk result }
    {
        if self.is_due() {
            raise(&mut self.disk_faults);
            return Err(Failed);
        }
        Ok(self.tape.file().len() as u64)
    }

    /// It fails exactly where its number is due, and then leaves `into` as it was.
    fn read_at(&mut self, at: u64, into: &mut [u8]) -> Result<usize, Failed>
        ensures count { IfOk result (λ n. n ≤ length into.old) }
        ensures bytes { IfOk result (λ n. Told (⟦<MemHost as Host>⟧.state self.old) ((n ≡ min (length into.old) (length (⟦<MemHost as Host>⟧.state self.old).file - at))
            × (into.new ≡ take n (drop at (⟦<MemHost as Host>⟧.state self.old).file) ++ drop n into.old))) }
        ensures keeps { Keeps (⟦<MemHost as Host>⟧.state self.old) (⟦<MemHost as Host>⟧.state self.new) }
        ensures time { Elapses (⟦<MemHost as Host>⟧.state self.old) (⟦<MemHost as Host>⟧.state self.new) (Now (⟦<MemHost as Host>⟧.state self.old)) }
        ensures reads { IfOk result (ReadsMore (⟦<MemHost as Host>⟧.state self.old).reads (⟦<MemHost as Host>⟧.state self.new).reads) }
        ensures reads_err { OnErr result (ReadsMore (⟦<MemHost as Host>⟧.state self.old).reads (⟦<MemHost as Host>⟧.state self.new).reads 0) }
        ensures disk { HasCause (⟦<MemHost as Host>⟧.state self.old).disk_faults (⟦<MemHost as Host>⟧.state self.new).disk_faults result }
        ensures out { (⟦<MemHost as Host>⟧.state self.old).out_faults ≤ (⟦<MemHost as Host>⟧.state self.new).out_faults }
        ensures fails { is_err result ≡ is_due (memory_of self.old) }
        ensures after_ok { IfOk result (λ n. memory_of self.new ≡ read n (memory_of self.old)) }
        ensures after_err { OnErr result (memory_of self.new ≡ disk_failed (memory_of self.old)) }
        ensures sure { IsFaultless (memory_of self.old) → IsOk result }
        ensures into_err { OnErr result (into.new ≡ into.old) }
    {
        if self.is_due() {
            raise(&mut self.disk_faults);
            return Err(Failed);
        }
        let file = self.tape.file();
        let from = at.min(file.len() as u64) as usize;
        let n = into.len().min(file.len() - from);
        into[..n].copy_from_slice(&file[from..from + n]);
        self.reads = self.reads.saturating_add(n as u64);
        Ok(n)
    }

    /// It fails exactly where its number is due, or where the file, the bytes of all writes or the record would outgrow the room.
    fn write_at(&mut self, at: u64, bytes: &[u8]) -> Result<(), Failed>
        requires { Told (⟦<MemHost as Host>⟧.state self.old) (at ≤ length (⟦<MemHost as Host>⟧.state self.old).file) }
        ensures written { OnOk result (Told (⟦<MemHost as Host>⟧.state self.old) ((⟦<MemHost as Host>⟧.state self.new).file ≡ overwrite at bytes.now (⟦<MemHost as Host>⟧.state self.old).file)) }
        ensures kept { (⟦<MemHost as Host>⟧.state self.new).out ≡ (⟦<MemHost as Host>⟧.state self.old).out }
        ensures torn { Follows (Torn at (length bytes.now)) (⟦<MemHost as Host>⟧.state self.old).may_leave (⟦<MemHost as Host>⟧.state self.new).may_leave }
        ensures time { Elapses (⟦<MemHost as Host>⟧.state self.old) (⟦<MemHost as Host>⟧.state self.new) (Now (⟦<MemHost as Host>⟧.state self.new)) }
        ensures reads { ReadsMore (⟦<MemHost as Host>⟧.state self.old).reads (⟦<MemHost as Host>⟧.state self.new).reads 0 }
        ensures disk { HasCause (⟦<MemHost as Host>⟧.state self.old).disk_faults (⟦<MemHost as Host>⟧.state self.new).disk_faults result }
        ensures out { (⟦<MemHost as Host>⟧.state self.old).out_faults ≤ (⟦<MemHost as Host>⟧.state self.new).out_faults }
        ensures fails { IsErr result ↔ ((is_due (memory_of self.old) ≡ true) ⊎ (CanWrite (memory_of self.old) at bytes.now → ⊥)) }
        ensures after_ok { OnOk result (memory_of self.new ≡ did (Wrote at bytes.now) (memory_of self.old)) }
        ensures after_err { OnErr result (memory_of self.new ≡ disk_failed (memory_of self.old)) }
        ensures sure { IsFaultless (memory_of self.old) → CanWrite (memory_of self.old) at bytes.now → IsOk result }
    {
        if self.is_due() || !self.tape.write(at, bytes) {
            raise(&mut self.disk_faults);
            return Err(Failed);
        }
        Ok(())
    }

    /// It fails exactly where its number is due, or the record is full.
    fn sync(&mut self) -> Result<(), Failed>
        ensures durable { OnOk result (Told (⟦<MemHost as Host>⟧.state self.old) (Only (⟦<MemHost as Host>⟧.state self.old).file (⟦<MemHost as Host>⟧.state self.new).may_leave)) }
        ensures keeps { Keeps (⟦<MemHost as Host>⟧.state self.old) (⟦<MemHost as Host>⟧.state self.new) }
        ensures time { Elapses (⟦<MemHost as Host>⟧.state self.old) (⟦<MemHost as Host>⟧.state self.new) (Now (⟦<MemHost as Host>⟧.state self.old)) }
        ensures reads { ReadsMore (⟦<MemHost as Host>⟧.state self.old).reads (⟦<MemHost as Host>⟧.state self.new).reads 0 }
        ensures disk { HasCause (⟦<MemHost as Host>⟧.state self.old).disk_faults (⟦<MemHost as Host>⟧.state self.new).disk_faults result }
        ensures out { (⟦<MemHost as Host>⟧.state self.old).out_faults ≤ (⟦<MemHost as Host>⟧.state self.new).out_faults }
        ensures fails { IsErr result ↔ ((is_due (memory_of self.old) ≡ true) ⊎ (HasPlace (memory_of self.old) → ⊥)) }
        ensures after_ok { OnOk result (memory_of self.new ≡ did Synced (memory_of self.old)) }
        ensures after_err { OnErr result (memory_of self.new ≡ disk_failed (memory_of self.old)) }
        ensures sure { IsFaultless (memory_of self.old) → HasPlace (memory_of self.old) → IsOk result }
    {
        if self.is_due() || !self.tape.sync() {
            raise(&mut self.disk_faults);
            return Err(Failed);
        }
        Ok(())
    }

    /// It fails exactly where its number is due, or where the output or the record would outgrow the room.
    fn put(&mut self, bytes: &[u8]) -> Result<(), Failed>
        ensures ok { OnOk result (Told (⟦<MemHost as Host>⟧.state self.old) ((⟦<MemHost as Host>⟧.state self.new).out ≡ (⟦<MemHost as Host>⟧.state self.old).out ++ bytes.now)) }
        ensures err { OnErr result (Told (⟦<MemHost as Host>⟧.state self.old) ((p : List ℕ) × IsPrefix p bytes.now × ((⟦<MemHost as Host>⟧.state self.new).out ≡ (⟦<MemHost as Host>⟧.state self.old).out ++ p))) }
        ensures kept { (⟦<MemHost as Host>⟧.state self.new).file ≡ (⟦<MemHost as Host>⟧.state self.old).file }
        ensures crash { (c : List ℕ) → (⟦<MemHost as Host>⟧.state self.new).may_leave c → (⟦<MemHost as Host>⟧.state self.old).may_leave c }
        ensures time { Elapses (⟦<MemHost as Host>⟧.state self.old) (⟦<MemHost as Host>⟧.state self.new) (DuringPut (⟦<MemHost as Host>⟧.state self.old) bytes.now) }
        ensures reads { ReadsMore (⟦<MemHost as Host>⟧.state self.old).reads (⟦<MemHost as Host>⟧.state self.new).reads 0 }
        ensures disk { (⟦<MemHost as Host>⟧.state self.old).disk_faults ≤ (⟦<MemHost as Host>⟧.state self.new).disk_faults }
        ensures out { HasCause (⟦<MemHost as Host>⟧.state self.old).out_faults (⟦<MemHost as Host>⟧.state self.new).out_faults result }
        ensures fails { IsErr result ↔ ((is_due (memory_of self.old) ≡ true) ⊎ (CanPut (memory_of self.old) bytes.now → ⊥)) }
        ensures after_ok { OnOk result (memory_of self.new ≡ did (Put bytes.now) (memory_of self.old)) }
        ensures after_err { OnErr result (memory_of self.new ≡ out_failed (memory_of self.old)) }
        ensures sure { IsFaultless (memory_of self.old) → CanPut (memory_of self.old) bytes.now → IsOk result }
    {
        if self.is_due() || !self.tape.put(bytes) {
            raise(&mut self.out_faults);
            return Err(Failed);
        }
        Ok(())
    }
}
