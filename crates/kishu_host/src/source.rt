// The input, as the layers above see it.
ghost use Rattle.std.specs.Prelude.{◌≡◌, ◌≤◌, ◌<◌, length, true, IfOk, OnErr};
ghost use Rattle.kishu_host.specs.Host.{HasCause};
ghost use Rattle.kishu_host.specs.Source.{SourceState, Takes};

use crate::Failed;

/// An input, which is read from its front.
///
/// It tells what is left only where it knows it; where it doesn't, the clauses on that say nothing.
pub trait Source {
    /// What is known of the source at this moment.
    ghost source: { Self → SourceState };

    /// Takes bytes from the front of what is left into the front of `into`, and answers their number. The rest of `into` stays.
    /// `into` has room for a byte at least, and 0 means the end.
    ///
    /// `Failed`: `in_faults` rose, or stands at 2^64-1, its last value, and nothing was taken.
    fn take(&mut self, into: &mut [u8]) -> Result<usize, Failed>
        requires { 0 < length into.old }
        ensures count { IfOk result (λ n. n ≤ length into.old) }
        ensures takes { IfOk result (λ n. (source self.old).tells ≡ true → Takes n (source self.old) (source self.new) into.old into.new) }
        ensures err { OnErr result ((source self.old).tells ≡ true → (source self.new).left ≡ (source self.old).left) }
        ensures tells { (source self.new).tells ≡ (source self.old).tells }
        ensures cause { HasCause (source self.old).in_faults (source self.new).in_faults result };
}
