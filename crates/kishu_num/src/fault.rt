/// Why an operator has no result.
#[derive(Clone, Copy, PartialEq, Eq, Debug)]
pub enum NumFault {
    /// The true result lies outside -2^127 to 2^127-1.
    Overflow,
    /// The divisor is 0.
    ZeroDivisor,
    /// The exponent is negative.
    NegativePower,
}
