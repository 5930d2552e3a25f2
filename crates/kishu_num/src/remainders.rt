// `%`.
ghost use Rattle.std.specs.Prelude.{◌≡◌, ◌≢◌, pos, IfOk};
ghost use Rattle.kishu_meaning.specs.values.Numbers.{floor_quotient, floor_remainder, IsDivision};
ghost use Rattle.kishu_num.specs.Results.{divided_by};

use crate::fault::NumFault;

// Where the signs differ and the dividend isn't 0, Rust's `%` of the number that is one nearer to 0 leaves the remainder
// less the divisor, one aside. The remainder is smaller than the divisor, so it is always in range.
fn remainder(a: i128, b: i128) -> i128
    requires { b ≢ pos 0 }
    ensures { result ≡ floor_remainder a b }
{
    if a < 0 && 0 < b {
        (a + 1) % b + (b - 1)
    } else if 0 < a && b < 0 {
        (a - 1) % b + (b + 1)
    } else {
        a.wrapping_rem(b)
    }
}

/// `a % b`: what `a // b` times `b` leaves of `a`. It is 0, or it has the sign of `b` and lies
/// nearer to 0 (Python Language Reference 3, "Binary arithmetic operations").
/// [`NumFault::ZeroDivisor`] where `b` is 0. It never overflows.
pub fn modulo(a: i128, b: i128) -> Result<i128, NumFault>
    ensures value { result ≡ divided_by b (floor_remainder a b) }
    ensures law { IfOk result (λ r. IsDivision a b (floor_quotient a b) r) }
{
    if b == 0 {
        Err(NumFault::ZeroDivisor)
    } else {
        Ok(remainder(a, b))
    }
}
