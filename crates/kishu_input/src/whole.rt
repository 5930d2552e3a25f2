// An input that is read whole.
ghost use Rattle.std.specs.Prelude.{◌≡◌, ◌≤◌, ◌<◌, ◌+◌, ◌-◌, ◌++◌, [], length, take, drop, true, IfOk, IsErrOf};
ghost use Rattle.kishu_input.specs.Sources.{InputFailed, IsAllLeft, TakesMoreThan, TakesAtMost};
ghost use Rattle.kishu_input.specs.declared.whole.InputStop.TheVariants.{Fault, TooLong};

use kishu_host::Source;
use std::alloc::Global;

/// Why an input isn't read to its end.
#[derive(Clone, Copy, Debug, PartialEq, Eq)]
pub enum InputStop {
    /// The source failed.
    Fault,
    /// A limit was reached.
    TooLong,
    /// There was no memory.
    NoMemory,
}

/// All that a source has left. Reading stops once more than `most` bytes were taken.
///
/// - `Fault`: the source failed.
/// - `TooLong`: it has more than `most` bytes left. At most 4,096 bytes more than that were taken.
/// - `NoMemory`: there was no memory.
pub fn read_input<S: Source>(
    alloc: Global,
    source: &mut S,
    most: usize,
) -> Result<Vec<u8>, InputStop>
    ensures whole { IfOk result (λ v. IsAllLeft (S.source source.old) (S.source source.new) v.items) }
    ensures short { IfOk result (λ v. length v.items ≤ most) }
    ensures too_long { IsErrOf result TooLong → TakesMoreThan most (S.source source.old) (S.source source.new) }
    ensures taken { TakesAtMost (most + 4096) (S.source source.old) (S.source source.new) }
    ensures fault { IsErrOf result Fault → InputFailed (S.source source.old) (S.source source.new) }
    ensures faults { (S.source source.old).in_faults ≤ (S.source source.new).in_faults }
    ensures tells { (S.source source.new).tells ≡ (S.source source.old).tells }
{
    let mut bytes = Vec::new(alloc);
    let mut buffer = [0; 4096];
    while bytes.len() <= most {
        let Ok(n) = source.take(&mut buffer) else {
            return Err(InputStop::Fault);
        };
        if n == 0 {
            return Ok(bytes);
        }
        let Ok(()) = bytes.extend_from_slice(&buffer[..n]) else {
            return Err(InputStop::NoMemory);
        };
    }
    Err(InputStop::TooLong)
}
