// An input in memory.
ghost use Rattle.std.specs.Prelude.{◌≡◌, ◌≤◌, vec_len, true, IfOk};

use crate::count::{raise, refuses};
use crate::{Failed, Source};
use std::alloc::{AllocError, Global};

/// An input in memory, for tests and tools: it tells what is left, and fails at the calls that it was told to fail at.
#[derive(Drop)]
pub struct MemSource {
    bytes: Vec<u8>,
    taken: usize,
    fail: Vec<u64>,
    calls: u64,
    in_faults: u64,
    ghost within: { taken ≤ vec_len bytes },
}

impl MemSource {
    ghost use Rattle.kishu_host.specs.Inputs.{input_of};

    /// An input of these bytes, which fails at each call whose number stands in `fail`.
    ///
    /// Calls are numbered from 1, and a call past number 2^64-1 has that number.
    /// It keeps the two vectors that it is given. The error is want of memory.
    pub fn new(_alloc: Global, bytes: Vec<u8>, fail: Vec<u64>) -> Result<MemSource, AllocError>
        ensures source { IfOk result (λ s. ⟦<MemSource as Source>⟧.source s ≡ record { tells = true; left = bytes.items; in_faults = 0 }) }
        ensures input { IfOk result (λ s. input_of s ≡ record { left = bytes.items; fail = fail.items; calls = 0; in_faults = 0 }) }
    {
        Ok(MemSource {
            bytes,
            taken: 0,
            fail,
            calls: 0,
            in_faults: 0,
        })
    }
}

impl Source for MemSource {
    ghost use Rattle.std.specs.Prelude.{◌≡◌, ◌≤◌, ◌<◌, ◌-◌, ◌++◌, length, min, take, drop, true, is_err, IfOk, OnErr};
    ghost use Rattle.kishu_host.specs.Host.{HasCause};
    ghost use Rattle.kishu_host.specs.Source.{SourceState, Takes};
    ghost use Rattle.kishu_host.specs.Inputs.{input_of, is_due, took, failed};

    ghost source = { λ s. record { tells = true; left = drop s.taken s.bytes.items; in_faults = s.in_faults } };

    /// It fails exactly where the number of the call stands in `fail`, and then takes nothing.
    /// Else it takes as many bytes as `into` has room for, or the whole rest.
    fn take(&mut self, into: &mut [u8]) -> Result<usize, Failed>
        requires { 0 < length into.old }
        ensures count { IfOk result (λ n. n ≤ length into.old) }
        ensures takes { IfOk result (λ n. (⟦<MemSource as Source>⟧.source self.old).tells ≡ true → Takes n (⟦<MemSource as Source>⟧.source self.old) (⟦<MemSource as Source>⟧.source self.new) into.old into.new) }
        ensures err { OnErr result ((⟦<MemSource as Source>⟧.source self.old).tells ≡ true → (⟦<MemSource as Source>⟧.source self.new).left ≡ (⟦<MemSource as Source>⟧.source self.old).left) }
        ensures tells { (⟦<MemSource as Source>⟧.source self.new).tells ≡ (⟦<MemSource as Source>⟧.source self.old).tells }
        ensures cause { HasCause (⟦<MemSource as Source>⟧.source self.old).in_faults (⟦<MemSource as Source>⟧.source self.new).in_faults result }
        ensures fails { is_err result ≡ is_due (input_of self.old) }
        ensures most { IfOk result (λ n. n ≡ min (length into.old) (length (input_of self.old).left)) }
        ensures after_ok { IfOk result (λ n. input_of self.new ≡ took n (input_of self.old)) }
        ensures after_err { OnErr result (input_of self.new ≡ failed (input_of self.old)) }
        ensures into_err { OnErr result (into.new ≡ into.old) }
    {
        raise(&mut self.calls);
        if refuses(&self.fail, None, self.calls) {
            raise(&mut self.in_faults);
            return Err(Failed);
        }
        let n = into.len().min(self.bytes.len() - self.taken);
        let from = self.taken;
        into[..n].copy_from_slice(&self.bytes[from..from + n]);
        self.taken += n;
        Ok(n)
    }
}
