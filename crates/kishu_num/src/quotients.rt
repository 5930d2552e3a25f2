// `//`.
ghost use Rattle.std.specs.Prelude.{◌≡◌, ◌≢◌, pos, ◌-ℤ◌, ◌*ℤ◌, IfOk};
ghost use Rattle.kishu_meaning.specs.values.Numbers.{floor_quotient, IsDivision};
ghost use Rattle.kishu_num.specs.Results.{in_range, divided_by};

use crate::fault::NumFault;

// Where the signs differ and the dividend isn't 0, the quotient of the number that is one nearer to 0, rounded towards
// 0 as Rust's `/` does, is one more than the quotient that is rounded down.
fn quotient(a: i128, b: i128) -> Result<i128, NumFault>
    requires { b ≢ pos 0 }
    ensures { result ≡ in_range (floor_quotient a b) }
{
    if a < 0 && 0 < b {
        Ok((a + 1) / b - 1)
    } else if 0 < a && b < 0 {
        Ok((a - 1) / b - 1)
    } else {
        a.checked_div(b).ok_or(NumFault::Overflow)
    }
}

/// `a // b`: the quotient, rounded towards minus infinity (Python Language Reference 3, "Binary
/// arithmetic operations"). [`NumFault::ZeroDivisor`] where `b` is 0, and [`NumFault::Overflow`]
/// for the one quotient that is too large, that of -2^127 by -1.
pub fn floor_div(a: i128, b: i128) -> Result<i128, NumFault>
    ensures value { result ≡ divided_by b (floor_quotient a b) }
    ensures law { IfOk result (λ q. IsDivision a b q (a -ℤ q *ℤ b)) }
{
    if b == 0 {
        Err(NumFault::ZeroDivisor)
    } else {
        quotient(a, b)
    }
}
