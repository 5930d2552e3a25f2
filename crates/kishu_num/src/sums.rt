// `+`, `-` and `*`.
ghost use Rattle.std.specs.Prelude.{◌≡◌, ◌+ℤ◌, ◌-ℤ◌, ◌*ℤ◌};
ghost use Rattle.kishu_num.specs.Results.{in_range};

use crate::fault::NumFault;

/// `a + b` (Python Language Reference 3, "Binary arithmetic operations"), or [`NumFault::Overflow`]
/// where the sum lies outside -2^127 to 2^127-1.
pub fn add(a: i128, b: i128) -> Result<i128, NumFault>
    ensures { result ≡ in_range (a +ℤ b) }
{
    a.checked_add(b).ok_or(NumFault::Overflow)
}

/// `a - b` (Python Language Reference 3, "Binary arithmetic operations"), or [`NumFault::Overflow`]
/// where the difference lies outside -2^127 to 2^127-1.
pub fn sub(a: i128, b: i128) -> Result<i128, NumFault>
    ensures { result ≡ in_range (a -ℤ b) }
{
    a.checked_sub(b).ok_or(NumFault::Overflow)
}

/// `a * b` (Python Language Reference 3, "Binary arithmetic operations"), or [`NumFault::Overflow`]
/// where the product lies outside -2^127 to 2^127-1.
pub fn mul(a: i128, b: i128) -> Result<i128, NumFault>
    ensures { result ≡ in_range (a *ℤ b) }
{
    a.checked_mul(b).ok_or(NumFault::Overflow)
}
