// The bytes of a file that were read last. The file is read in long pieces, each of its bytes once.
ghost use Rattle.std.specs.Prelude.{◌≤◌};
ghost use Rattle.std.specs.Vec.{vec_len};

use crate::JournalFault;
use kishu_host::{Failed, Host};
use std::alloc::{AllocError, Global};

/// How many bytes are read at once where nothing asks for more.
const AHEAD: usize = 1 << 16;

/// What a file has from a place on, as far as it was read.
#[derive(Drop)]
pub(crate) struct Window {
    bytes: Vec<u8>,
    filled: usize,
    from: u64,
    ghost within: { filled ≤ vec_len bytes },
}

impl Window {
    ghost use Rattle.std.specs.Prelude.{◌≡◌, ◌≤◌, ◌<◌, ◌+◌, ◌-◌, ◌^◌, ℕ, List, length, true, false, take, drop, OnOk, OnErr, IsErr, IsErrOf, IfOk, Ok};
    ghost use Rattle.kishu_host.specs.Host.{Told, ReadsMore};
    ghost use Rattle.kishu_journal.specs.Facts.{DiskRises, IsCut};
    ghost use Rattle.kishu_journal.specs.Going.{IsQuiet};
    ghost use Rattle.kishu_journal.specs.Windows.{IsAhead, ShowsIn, Shows, end_of, shown};
    ghost use Rattle.kishu_journal.specs.declared.journal.JournalFault.TheVariants.{DiskFault, NoMemory, NotAJournal, Damaged};

    /// A window that shows nothing yet, at this place.
    pub(crate) fn new(alloc: Global, from: u64) -> Window
        ensures from { result.from ≡ from }
        ensures none { result.filled ≡ 0 }
    {
        Window {
            bytes: Vec::new(alloc),
            filled: 0,
            from,
        }
    }

    /// The `count` bytes from `at` on. They are shown.
    pub(crate) fn part(&self, at: u64, count: usize) -> &[u8]
        requires from { self.now.from ≤ at }
        requires inside { at + count ≤ end_of self.now }
        ensures len { length result.now ≡ count }
        ensures value { (file : List ℕ) → ShowsIn file self.now → result.now ≡ take count (drop at file) }
    {
        let start = (at - self.from) as usize;
        &self.bytes[start..start + count]
    }

    /// Shows nothing before `at` any more.
    fn pass(&mut self, at: u64)
        requires { self.old.from ≤ at }
        ensures from { self.new.from ≡ at }
        ensures shown { (file : List ℕ) → ShowsIn file self.old → ShowsIn file self.new }
        ensures onward { end_of self.old ≤ end_of self.new }
        ensures end { end_of self.old < at → end_of self.new ≡ at }
        ensures same { at ≤ end_of self.old → end_of self.new ≡ end_of self.old }
    {
        let passed = at - self.from;
        self.from = at;
        if passed < self.filled as u64 {
            let (start, end) = (passed as usize, self.filled);
            self.bytes.as_mut_slice().copy_within(start..end, 0);
            self.filled = end - start;
        } else {
            self.filled = 0;
        }
    }

    /// Makes room for so many bytes.
    fn make_room(&mut self, room: usize) -> Result<(), AllocError>
        ensures room { OnOk result (room ≤ vec_len self.new.bytes) }
        ensures from { self.new.from ≡ self.old.from }
        ensures filled { self.new.filled ≡ self.old.filled }
        ensures shown { shown self.new ≡ shown self.old }
    {
        if self.bytes.len() < room {
            self.bytes.resize(room, 0)?;
        }
        Ok(())
    }

    /// Reads on, up to so many bytes in all, for which there is room.
    fn read_on<H: Host>(&mut self, host: &mut H, room: usize) -> Result<(), Failed>
        requires shows { Told (H.state host.old) (ShowsIn (H.state host.old).file self.old) }
        requires room { room ≤ vec_len self.old.bytes }
        requires filled { self.old.filled ≤ room }
        requires far { self.old.from + room < 2 ^ 64 }
        ensures quiet { IsQuiet (H.state host.old) (H.state host.new) }
        ensures from { self.new.from ≡ self.old.from }
        ensures shows { Told (H.state host.old) (ShowsIn (H.state host.old).file self.new) }
        ensures onward { self.old.filled ≤ self.new.filled }
        ensures most { self.new.filled ≤ room }
        ensures all { OnOk result (Told (H.state host.old) (room ≤ length (H.state host.old).file - self.old.from → self.new.filled ≡ room)) }
        ensures reads { ReadsMore (H.state host.old).reads (H.state host.new).reads (self.new.filled - self.old.filled) }
        ensures failed { IsErr result → DiskRises (H.state host.old) (H.state host.new) }
    {
        let filled = self.filled;
        let place = self.from + filled as u64;
        let count = host.read_at(place, &mut self.bytes[filled..room])?;
        self.filled = filled + count;
        Ok(())
    }

    /// Reads on where the `count` bytes from `at` on aren't all shown, and answers whether they are
    /// then. All of them lie in the file, which has `len` bytes.
    pub(crate) fn reach<H: Host>(
        &mut self,
        host: &mut H,
        at: u64,
        count: usize,
        len: u64,
    ) -> Result<bool, JournalFault>
        requires shows { Shows (H.state host.old) self.old }
        requires end { end_of self.old ≤ len }
        requires from { self.old.from ≤ at }
        requires inside { at + count ≤ len }
        requires len { Told (H.state host.old) (len ≡ length (H.state host.old).file) }
        ensures ahead { IsAhead (H.state host.old) (H.state host.new) self.old self.new len }
        ensures from { self.new.from ≤ at }
        ensures reached { result ≡ Ok true → at + count ≤ end_of self.new }
        ensures short { result ≡ Ok false → Told (H.state host.old) ⊥ }
        ensures disk_fault { IsErrOf result DiskFault → DiskRises (H.state host.old) (H.state host.new) }
        ensures not_foreign { IsErrOf result NotAJournal → ⊥ }
        ensures not_damaged { (place : ℕ) → IsErrOf result (Damaged place) → ⊥ }
    {
        if at + count as u64 <= self.from + self.filled as u64 {
            return Ok(true);
        }
        self.pass(at);
        let room = count.max((len - at).min(AHEAD as u64) as usize);
        let Ok(()) = self.make_room(room) else {
            return Err(JournalFault::NoMemory);
        };
        let Ok(()) = self.read_on(host, room) else {
            return Err(JournalFault::DiskFault);
        };
        Ok(count <= self.filled)
    }
}
