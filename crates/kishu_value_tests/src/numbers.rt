// Tables of worked numbers, as tools/rows/numbers.py prints them.
use kishu_num::NumFault::{NegativePower, Overflow, ZeroDivisor};
use kishu_num::{NumFault, add, floor_div, modulo, mul, power, read_int, sub, write_int};
use std::alloc::{AllocError, Global};
use std::test::Fail;

#[derive(Clone, Copy)]
enum Operator {
    Add,
    Sub,
    Mul,
    FloorDiv,
    Modulo,
    Power,
}

use Operator::{Add, FloorDiv, Modulo, Mul, Power, Sub};

const OPERATIONS: [(i128, Operator, i128, Result<i128, NumFault>); 67] = [
    (1, Add, 2, Ok(3)),
    (i128::MAX, Add, 1, Err(Overflow)),
    (i128::MAX, Add, i128::MIN, Ok(-1)),
    (i128::MIN, Add, -1, Err(Overflow)),
    (1, Sub, 2, Ok(-1)),
    (i128::MIN, Sub, 1, Err(Overflow)),
    (-1, Sub, i128::MIN, Ok(i128::MAX)),
    (0, Sub, i128::MIN, Err(Overflow)),
    (-3, Mul, 4, Ok(-12)),
    (
        85070591730234615865843651857942052864,
        Mul,
        2,
        Err(Overflow),
    ),
    (
        85070591730234615865843651857942052864,
        Mul,
        -2,
        Ok(i128::MIN),
    ),
    (i128::MIN, Mul, -1, Err(Overflow)),
    (i128::MIN, Mul, 1, Ok(i128::MIN)),
    (7, FloorDiv, 2, Ok(3)),
    (-7, FloorDiv, 2, Ok(-4)),
    (7, FloorDiv, -2, Ok(-4)),
    (-7, FloorDiv, -2, Ok(3)),
    (-8, FloorDiv, 2, Ok(-4)),
    (8, FloorDiv, -2, Ok(-4)),
    (-1, FloorDiv, i128::MAX, Ok(-1)),
    (0, FloorDiv, -5, Ok(0)),
    (i128::MIN, FloorDiv, -1, Err(Overflow)),
    (i128::MIN, FloorDiv, 1, Ok(i128::MIN)),
    (i128::MIN, FloorDiv, i128::MIN, Ok(1)),
    (i128::MAX, FloorDiv, i128::MIN, Ok(-1)),
    (i128::MAX, FloorDiv, -1, Ok(i128::MIN + 1)),
    (i128::MIN, FloorDiv, 0, Err(ZeroDivisor)),
    (7, Modulo, 2, Ok(1)),
    (-7, Modulo, 2, Ok(1)),
    (7, Modulo, -2, Ok(-1)),
    (-7, Modulo, -2, Ok(-1)),
    (-8, Modulo, 2, Ok(0)),
    (8, Modulo, -2, Ok(0)),
    (1, Modulo, i128::MIN, Ok(i128::MIN + 1)),
    (-1, Modulo, i128::MAX, Ok(i128::MAX - 1)),
    (i128::MIN, Modulo, i128::MAX, Ok(i128::MAX - 1)),
    (i128::MIN, Modulo, -1, Ok(0)),
    (i128::MIN, Modulo, i128::MIN, Ok(0)),
    (0, Modulo, 0, Err(ZeroDivisor)),
    (0, Power, 0, Ok(1)),
    (5, Power, 0, Ok(1)),
    (0, Power, 1, Ok(0)),
    (7, Power, 1, Ok(7)),
    (2, Power, 10, Ok(1024)),
    (-3, Power, 5, Ok(-243)),
    (2, Power, 126, Ok(85070591730234615865843651857942052864)),
    (2, Power, 127, Err(Overflow)),
    (-2, Power, 126, Ok(85070591730234615865843651857942052864)),
    (-2, Power, 127, Ok(i128::MIN)),
    (-2, Power, 128, Err(Overflow)),
    (3, Power, 80, Ok(147808829414345923316083210206383297601)),
    (3, Power, 81, Err(Overflow)),
    (
        9223372036854775808,
        Power,
        2,
        Ok(85070591730234615865843651857942052864),
    ),
    (18446744073709551616, Power, 2, Err(Overflow)),
    (18446744073709551616, Power, 1, Ok(18446744073709551616)),
    (i128::MAX, Power, 1, Ok(i128::MAX)),
    (i128::MIN, Power, 1, Ok(i128::MIN)),
    (i128::MIN, Power, 2, Err(Overflow)),
    (0, Power, i128::MAX, Ok(0)),
    (1, Power, i128::MAX, Ok(1)),
    (-1, Power, i128::MAX, Ok(-1)),
    (-1, Power, i128::MAX - 1, Ok(1)),
    (2, Power, i128::MAX, Err(Overflow)),
    (-2, Power, i128::MAX, Err(Overflow)),
    (2, Power, -1, Err(NegativePower)),
    (0, Power, -1, Err(NegativePower)),
    (1, Power, i128::MIN, Err(NegativePower)),
];

const READINGS: [(&str, Option<i128>); 44] = [
    ("0", Some(0)),
    ("42", Some(42)),
    (" 42 ", Some(42)),
    ("\t\n\r\u{b}\u{c}42\u{c}\u{b}\r\n\t", Some(42)),
    ("+7", Some(7)),
    ("-7", Some(-7)),
    ("-0", Some(0)),
    ("+0", Some(0)),
    ("007", Some(7)),
    (
        "0000000000000000000000000000000000000000000000000000000000007",
        Some(7),
    ),
    (
        "-0000000000000000000000000000000000000000000000000000000000007",
        Some(-7),
    ),
    ("170141183460469231731687303715884105727", Some(i128::MAX)),
    ("+170141183460469231731687303715884105727", Some(i128::MAX)),
    ("170141183460469231731687303715884105728", None),
    ("-170141183460469231731687303715884105728", Some(i128::MIN)),
    ("-170141183460469231731687303715884105729", None),
    (
        "000000000000000000000000000000170141183460469231731687303715884105727",
        Some(i128::MAX),
    ),
    (
        "000000000000000000000000000000170141183460469231731687303715884105728",
        None,
    ),
    (
        "1000000000000000000000000000000000000000000000000000000000000",
        None,
    ),
    ("", None),
    (" ", None),
    ("+", None),
    ("-", None),
    (" - ", None),
    ("+-1", None),
    ("--1", None),
    ("++1", None),
    ("- 1", None),
    ("+ 1", None),
    ("1 2", None),
    ("1_0", None),
    ("_1", None),
    ("1_", None),
    ("0x1", None),
    ("1.", None),
    ("1e3", None),
    ("a", None),
    ("1a", None),
    ("\u{663}", None),
    ("\u{a0}1", None),
    ("1\u{2003}", None),
    ("\u{1c}1", None),
    ("1\0", None),
    ("\u{2212}1", None),
];

const WRITINGS: [(i128, &str); 9] = [
    (0, "0"),
    (7, "7"),
    (10, "10"),
    (-1, "-1"),
    (-10, "-10"),
    (18446744073709551616, "18446744073709551616"),
    (-18446744073709551616, "-18446744073709551616"),
    (i128::MAX, "170141183460469231731687303715884105727"),
    (i128::MIN, "-170141183460469231731687303715884105728"),
];

fn result_of(operator: Operator, a: i128, b: i128) -> Result<i128, NumFault> {
    match operator {
        Add => add(a, b),
        Sub => sub(a, b),
        Mul => mul(a, b),
        FloorDiv => floor_div(a, b),
        Modulo => modulo(a, b),
        Power => power(a, b),
    }
}

#[test]
fn operations(rt: HostRuntime) {
    for (a, operator, b, want) in &OPERATIONS {
        assert!(rt; result_of(*operator, *a, *b) == *want, "at {a} and {b}");
    }
}

#[test]
fn readings(rt: HostRuntime) {
    for (text, want) in &READINGS {
        assert!(rt; read_int(text) == *want, "at {text}");
    }
}

// Whether a number is written so, and read again.
fn is_written(alloc: Global, n: i128, want: &str) -> Result<bool, AllocError> {
    let text = write_int(alloc, n)?;
    Ok(text.as_str() == want && read_int(&text) == Some(n))
}

#[test]
fn writings(rt: HostRuntime) -> Result<(), Fail> {
    let alloc = rt.alloc();
    for (n, want) in &WRITINGS {
        assert!(rt; is_written(alloc, *n, want)?, "at {n}");
    }
    Ok(())
}
