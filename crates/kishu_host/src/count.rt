// Numbers of calls and of faults, which stand still at the last value of their type.
ghost use Rattle.std.specs.Prelude.{◌≡◌, ◌≤◌};
ghost use Rattle.kishu_host.specs.Host.{Rises};
ghost use Rattle.kishu_host.specs.Memory.{is_refused, next};

/// One more, up to the last value.
pub(crate) fn raise(count: &mut u64)
    ensures value { count.new ≡ next count.old }
    ensures no_fall { count.old ≤ count.new }
    ensures rises { Rises count.old count.new }
{
    *count = count.saturating_add(1);
}

/// Whether the call with this number is to fail: `fail` has it, or it is at least `stop`.
pub(crate) fn refuses(fail: &[u64], stop: Option<u64>, call: u64) -> bool
    ensures { result ≡ is_refused fail.now stop call }
{
    fail.contains(&call)
        || match stop {
            Some(stop) => stop <= call,
            None => false,
        }
}
