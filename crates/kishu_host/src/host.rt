// The store file and the output, as the layers above see them.
ghost use Rattle.std.specs.Prelude.{◌≡◌, ◌≤◌, ◌-◌, ◌++◌, ◌∷◌, [], ℕ, List, length, take, drop, min, IfOk, OnOk, OnErr};
ghost use Rattle.kishu_host.specs.Host.{State, Told, overwrite, Torn, Follows, Only, HasCause, ReadsMore, Elapses, Now, IsPrefix, DuringPut, Keeps};
ghost use Rattle.kishu_host.specs.Crash.{Range, range, MayHold};

/// A call of a host or of a source failed. What it left, the clauses of the call say.
#[derive(Clone, Copy, Debug, PartialEq, Eq)]
pub struct Failed;

/// A store file and an output under one clock, so that what a stop leaves of both can be told together.
///
/// A host tells its file and its output only where it knows them; where it doesn't, the clauses on them say nothing.
/// It tells the number of bytes read only where it counts them, and only below 2^64-1.
///
/// **What a stop may leave.** Between two syncs each range that was written, and all past the end that the file had at the last
/// sync, may hold any bytes. Every other byte stays, and the length lies between the length at the last sync and the greatest
/// length since. A write or a sync that failed counts as a write that wasn't synced: the clause `torn` holds whatever the answer.
///
/// **Faults.** `Failed` comes only where the count of its kind rose: `disk_faults` for the file, `out_faults` for the output. No
/// count ever falls. A count that stands at 2^64-1, its last value, is taken as risen.
pub trait Host {
    /// What is known of the host at this moment.
    ghost state: { Self → State };

    /// The file's length in bytes.
    ///
    /// `Failed`: the file couldn't be asked; file and output are as they were.
    fn len(&mut self) -> Result<u64, Failed>
        ensures length { IfOk result (λ n. Told (state self.old) (n ≡ length (state self.old).file)) }
        ensures keeps { Keeps (state self.old) (state self.new) }
        ensures time { Elapses (state self.old) (state self.new) (Now (state self.old)) }
        ensures reads { ReadsMore (state self.old).reads (state self.new).reads 0 }
        ensures disk { HasCause (state self.old).disk_faults (state self.new).disk_faults result }
        ensures out { (state self.old).out_faults ≤ (state self.new).out_faults };

    /// Fills `into` from place `at` of the file, and answers the number of bytes: as many as `into` has room for, or as the file has
    /// from there on. The rest of `into` stays. The answer is added to the number of bytes read.
    ///
    /// `Failed`: the file couldn't be read, and nothing is added to the number of bytes read; `into` may hold anything.
    fn read_at(&mut self, at: u64, into: &mut [u8]) -> Result<usize, Failed>
        ensures count { IfOk result (λ n. n ≤ length into.old) }
        ensures bytes { IfOk result (λ n. Told (state self.old) ((n ≡ min (length into.old) (length (state self.old).file - at))
            × (into.new ≡ take n (drop at (state self.old).file) ++ drop n into.old))) }
        ensures keeps { Keeps (state self.old) (state self.new) }
        ensures time { Elapses (state self.old) (state self.new) (Now (state self.old)) }
        ensures reads { IfOk result (ReadsMore (state self.old).reads (state self.new).reads) }
        ensures reads_err { OnErr result (ReadsMore (state self.old).reads (state self.new).reads 0) }
        ensures disk { HasCause (state self.old).disk_faults (state self.new).disk_faults result }
        ensures out { (state self.old).out_faults ≤ (state self.new).out_faults };

    /// Replaces the bytes of the file from place `at` on, and lengthens it where they pass its end. `at` isn't past the end.
    ///
    /// Until a sync, a stop may leave any bytes in the range, and past the old end.
    ///
    /// `Failed`: the write was cut short. A stop may leave any bytes in the range all the same, and so may reads give them.
    fn write_at(&mut self, at: u64, bytes: &[u8]) -> Result<(), Failed>
        requires { Told (state self.old) (at ≤ length (state self.old).file) }
        ensures written { OnOk result (Told (state self.old) ((state self.new).file ≡ overwrite at bytes.now (state self.old).file)) }
        ensures kept { (state self.new).out ≡ (state self.old).out }
        ensures torn { Follows (Torn at (length bytes.now)) (state self.old).may_leave (state self.new).may_leave }
        ensures time { Elapses (state self.old) (state self.new) (Now (state self.new)) }
        ensures reads { ReadsMore (state self.old).reads (state self.new).reads 0 }
        ensures disk { HasCause (state self.old).disk_faults (state self.new).disk_faults result }
        ensures out { (state self.old).out_faults ≤ (state self.new).out_faults };

    /// Makes what reads give the one file that a stop leaves.
    ///
    /// `Failed`: nothing is sure; a stop may leave what it might have left before.
    fn sync(&mut self) -> Result<(), Failed>
        ensures durable { OnOk result (Told (state self.old) (Only (state self.old).file (state self.new).may_leave)) }
        ensures keeps { Keeps (state self.old) (state self.new) }
        ensures time { Elapses (state self.old) (state self.new) (Now (state self.old)) }
        ensures reads { ReadsMore (state self.old).reads (state self.new).reads 0 }
        ensures disk { HasCause (state self.old).disk_faults (state self.new).disk_faults result }
        ensures out { (state self.old).out_faults ≤ (state self.new).out_faults };

    /// Appends the bytes to the output. What was put out is never lost.
    ///
    /// `Failed`: the output has grown by a prefix of the bytes, maybe by none.
    fn put(&mut self, bytes: &[u8]) -> Result<(), Failed>
        ensures ok { OnOk result (Told (state self.old) ((state self.new).out ≡ (state self.old).out ++ bytes.now)) }
        ensures err { OnErr result (Told (state self.old) ((p : List ℕ) × IsPrefix p bytes.now × ((state self.new).out ≡ (state self.old).out ++ p))) }
        ensures kept { (state self.new).file ≡ (state self.old).file }
        ensures crash { (c : List ℕ) → (state self.new).may_leave c → (state self.old).may_leave c }
        ensures time { Elapses (state self.old) (state self.new) (DuringPut (state self.old) bytes.now) }
        ensures reads { ReadsMore (state self.old).reads (state self.new).reads 0 }
        ensures disk { (state self.old).disk_faults ≤ (state self.new).disk_faults }
        ensures out { HasCause (state self.old).out_faults (state self.new).out_faults result };

    /// The file as it reads now is one of those that a stop now may leave.
    ghost reads_now: { (h : Self) → Told (state h) ((state h).may_leave (state h).file) };

    /// This moment is one of those since an earlier one.
    ghost counts_now: { (h : Self) (t : ℕ) (c : List ℕ) → t ≤ (state h).moment → (state h).may_leave c → (state h).left_since t c (state h).out };

    /// Since this moment there is no other.
    ghost only_now: { (h : Self) (c o : List ℕ) → Told (state h) ((state h).left_since (state h).moment c o → Now (state h) c o) };
}

/// A law, with no work to do: what the clauses on `sync` and `write_at` let a stop leave, the crash model allows, whether the
/// call succeeded or failed.
pub(crate) fn keep_crash_model()
    ensures sync { (file : List ℕ) → MayHold file [] file }
    ensures write { (synced d c : List ℕ) (ranges : List Range) (at n : ℕ) → MayHold synced ranges d → Torn at n d c → MayHold synced (range at n ∷ ranges) c }
{}
