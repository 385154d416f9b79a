//! The quantities that numerals express, and their ranges.

ghost use Rattle.std.specs.Prelude.{◌≡◌, true};
ghost use Rattle.scene_values.specs.Quantities.{fits, is_integer, whole};

/// The largest absolute value of a number, in millionths.
const MAX_NUMBER: u64 = x3d_values::MAX_COORDINATE;

/// The largest absolute value of a time, in microseconds.
const MAX_TIME: u64 = x3d_values::MAX_TIME as u64;

/// The number of millionths in one.
const ONE: i64 = 1_000_000;

/// The smallest whole number of 32 bits. `MAX_INTEGER` is the largest.
const MIN_INTEGER: i64 = -2_147_483_648;

const MAX_INTEGER: i64 = 2_147_483_647;

/// The kind of quantity that a numeral expresses.
#[derive(Clone, Copy)]
pub(crate) enum Quantity {
    /// A number, in millionths.
    Number,
    /// A time. A numeral counts seconds, so its millionths are microseconds.
    Time,
    /// A whole number of 32 bits, in millionths.
    Integer,
}

impl Quantity {
    /// Reports whether `millionths` is in range.
    pub(crate) fn fits(self, millionths: i64) -> bool
        ensures { result ≡ fits self millionths }
    {
        match self {
            Quantity::Number => millionths.unsigned_abs() <= MAX_NUMBER,
            Quantity::Time => millionths.unsigned_abs() <= MAX_TIME,
            Quantity::Integer => is_integer(millionths),
        }
    }
}

fn is_integer(millionths: i64) -> bool
    ensures { result ≡ is_integer millionths }
{
    let number = millionths / ONE;
    millionths.unsigned_abs() % 1_000_000 == 0 && MIN_INTEGER <= number && number <= MAX_INTEGER
}

/// Returns the whole number that equals `millionths` millionths.
pub(crate) fn whole(millionths: i64) -> i32
    requires { is_integer millionths ≡ true }
    ensures { result ≡ whole millionths }
{
    (millionths / ONE) as i32
}
