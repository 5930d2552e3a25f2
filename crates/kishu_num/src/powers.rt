// `**`.
ghost use Rattle.std.specs.Prelude.{◌≡◌};
ghost use Rattle.kishu_meaning.specs.values.Numbers.{power};
ghost use Rattle.kishu_num.specs.Results.{in_range, raised_to};

use crate::fault::NumFault;
use crate::sums::mul;

// The power of half the exponent is squared, and multiplied once more where the exponent is odd. So there are as many calls
// as the exponent has binary digits, and two multiplications at most in each. No power on the way has a greater exponent
// than the last one has, so where one of them is too large, the last one is.
fn raise(base: i128, exponent: u128) -> Result<i128, NumFault>
    ensures { result ≡ in_range (power base exponent) }
{
    if exponent == 0 {
        return Ok(1);
    }
    let half = raise(base, exponent / 2)?;
    let square = mul(half, half)?;
    if exponent % 2 == 0 {
        Ok(square)
    } else {
        mul(square, base)
    }
}

/// `a ** b` (Python Language Reference 3, "The power operator"), with 1 for `0 ** 0`.
/// [`NumFault::NegativePower`] where `b` is negative, else [`NumFault::Overflow`] where the power
/// lies outside -2^127 to 2^127-1.
pub fn power(a: i128, b: i128) -> Result<i128, NumFault>
    ensures { result ≡ raised_to a b }
{
    if b < 0 {
        Err(NumFault::NegativePower)
    } else {
        raise(a, b as u128)
    }
}
