//! Numerals written by hand, both ways.

use super::{Row, all_hold, holds};
use std::alloc::Global;
use std::process::Abort;
use tests_memory::UsedUp;
use x3d_numerals::{NumeralFault, check, millionths, push_number};

/// A text, and its number in millionths, or why it has none.
struct Read(&'static str, Result<i64, NumeralFault>);

impl Row for Read {
    fn holds(&self, _alloc: Global) -> bool {
        let text = self.0.as_bytes();
        millionths(text) == self.1 && check(text) == self.1.map(|_number| ())
    }
}

const NO_NUMERAL: Result<i64, NumeralFault> = Err(NumeralFault::NotNumeral);

const TOO_LARGE: Result<i64, NumeralFault> = Err(NumeralFault::NumberRange);

static NUMERALS: [Read; 77] = [
    // decimal numerals
    Read("0", Ok(0)),
    Read("-0", Ok(0)),
    Read("+1", Ok(1_000_000)),
    Read("-.5", Ok(-500_000)),
    Read("5.", Ok(5_000_000)),
    Read("00012", Ok(12_000_000)),
    Read("-3.25", Ok(-3_250_000)),
    Read("1e2", Ok(100_000_000)),
    Read("1.5E+1", Ok(15_000_000)),
    Read("25.e-1", Ok(2_500_000)),
    Read("2e9", Ok(2_000_000_000_000_000)),
    Read("0e5", Ok(0)),
    // numbers are rounded half away from zero
    Read("1e-7", Ok(0)),
    Read("5e-7", Ok(1)),
    Read("0.0000005", Ok(1)),
    Read("-0.0000005", Ok(-1)),
    Read("0.0000004999999", Ok(0)),
    Read("1.0000005", Ok(1_000_001)),
    Read("-1.0000005", Ok(-1_000_001)),
    Read("0.9999995", Ok(1_000_000)),
    // hexadecimal numerals
    Read("0x0", Ok(0)),
    Read("0XdEaD", Ok(57_005_000_000)),
    Read("-0x10", Ok(-16_000_000)),
    Read("+0xA", Ok(10_000_000)),
    Read("0x7fffffff", Ok(2_147_483_647_000_000)),
    Read("0x80000000", Ok(-2_147_483_648_000_000)),
    Read("-0x80000000", Ok(2_147_483_648_000_000)),
    Read("0xFFFFFFFF", Ok(-1_000_000)),
    Read("-0xFFFFFFFF", Ok(1_000_000)),
    Read("0x1e5", Ok(485_000_000)),
    // twelve digits, and more
    Read("999999999999", Ok(999_999_999_999_000_000)),
    Read("9999999999.99", Ok(9_999_999_999_990_000)),
    Read("-.000000000001", Ok(0)),
    Read("9999999999999", TOO_LARGE),
    // at the limit, and beyond the limit
    Read("1e12", Ok(1_000_000_000_000_000_000)),
    Read("-1e12", Ok(-1_000_000_000_000_000_000)),
    Read("999999999999.9999994", Ok(999_999_999_999_999_999)),
    Read("999999999999.9999995", Ok(1_000_000_000_000_000_000)),
    Read("1000000000000.0000004", Ok(1_000_000_000_000_000_000)),
    Read("1000000000000.0000005", TOO_LARGE),
    Read("-1000000000000.000001", TOO_LARGE),
    Read("1e13", TOO_LARGE),
    Read("18446744073709551616", TOO_LARGE),
    Read("0x1FFFFFFFF", TOO_LARGE),
    Read("0x000000001", TOO_LARGE),
    // large exponents
    Read("0e999999999", Ok(0)),
    Read("1e-999999999", Ok(0)),
    Read("1e-99999999999999999999999999999999999999999999", Ok(0)),
    Read(
        "1e0000000000000000000000000000000000000000000002",
        Ok(100_000_000),
    ),
    Read("1e999999999", TOO_LARGE),
    Read("1e99999999999999999999999999999999999999999999", TOO_LARGE),
    // texts without the form of a numeral
    Read("", NO_NUMERAL),
    Read(".", NO_NUMERAL),
    Read("-", NO_NUMERAL),
    Read("+", NO_NUMERAL),
    Read("+.e1", NO_NUMERAL),
    Read("1e", NO_NUMERAL),
    Read("1e+", NO_NUMERAL),
    Read("0x", NO_NUMERAL),
    Read("0xg", NO_NUMERAL),
    Read("-0x", NO_NUMERAL),
    Read("1.5.5", NO_NUMERAL),
    Read("1-", NO_NUMERAL),
    Read("--1", NO_NUMERAL),
    Read("e1", NO_NUMERAL),
    Read("1 ", NO_NUMERAL),
    Read(" 1", NO_NUMERAL),
    Read("1e1.5", NO_NUMERAL),
    Read("0x1.5", NO_NUMERAL),
    Read("00x1", NO_NUMERAL),
    Read("x1", NO_NUMERAL),
    Read("1_000", NO_NUMERAL),
    Read("1f", NO_NUMERAL),
    Read("NaN", NO_NUMERAL),
    Read("inf", NO_NUMERAL),
    Read("1e-+1", NO_NUMERAL),
    Read("0x-1", NO_NUMERAL),
];

#[test]
fn numerals_are_read(rt: HostRuntime) {
    all_hold(&rt, rt.alloc(), &NUMERALS);
}

/// A million digits: the first ones, and the digit that fills the rest; then the text after them,
/// and the answer.
struct Long(&'static [u8], u8, &'static [u8], Result<i64, NumeralFault>);

impl Row for Long {
    fn holds(&self, alloc: Global) -> bool {
        let mut text = Vec::new(alloc);
        let first = text.extend_from_slice(self.0).is_ok();
        let middle = text.resize(1_000_000, self.1).is_ok();
        let last = text.extend_from_slice(self.2).is_ok();
        let read = millionths(text.as_slice());
        drop(text);
        first & middle & last & (read == self.3)
    }
}

static LONG: [Long; 5] = [
    Long(b"", b'9', b"", TOO_LARGE),
    Long(b"", b'0', b"7", Ok(7_000_000)),
    Long(b"", b'0', b"7e-3", Ok(7_000)),
    Long(b"", b'0', b"7e-3.", NO_NUMERAL),
    Long(b"1", b'0', b"e-999999", Ok(1_000_000)),
];

#[test]
fn a_million_digits(rt: HostRuntime) {
    all_hold(&rt, rt.alloc(), &LONG);
}

/// A number in millionths, and its text.
struct Written(i64, &'static str);

impl Row for Written {
    fn holds(&self, alloc: Global) -> bool {
        let mut out = Vec::new(alloc);
        let pushed = push_number(self.0, &mut out).is_ok();
        let same = out.as_slice() == self.1.as_bytes();
        drop(out);
        pushed && same
    }
}

static TEXTS: [Written; 13] = [
    Written(0, "0"),
    Written(1, "0.000001"),
    Written(-1, "-0.000001"),
    Written(100_000, "0.1"),
    Written(50_000, "0.05"),
    Written(1_000_000, "1"),
    Written(10_000_000, "10"),
    Written(1_500_000, "1.5"),
    Written(-500_000, "-0.5"),
    Written(123_456_789, "123.456789"),
    Written(-20_000_300, "-20.0003"),
    Written(1_000_000_000_000_000_000, "1000000000000"),
    Written(-999_999_999_999_999_999, "-999999999999.999999"),
];

#[test]
fn texts_of_numbers(rt: HostRuntime) {
    all_hold(&rt, rt.alloc(), &TEXTS);
}

fn is_refused(alloc: Global) -> bool {
    let Ok(used_up) = UsedUp::new(alloc) else {
        return false;
    };
    let mut out = Vec::new(alloc);
    let refused = push_number(-1_500_000, &mut out).is_err();
    drop(out);
    drop(used_up);
    refused
}

#[test]
fn a_refused_growth_is_answered(rt: HostRuntime) {
    holds(&rt, is_refused(rt.alloc()));
}
