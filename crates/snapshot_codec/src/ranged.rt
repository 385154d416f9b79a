//! Values that have a range, and lists of such values.

ghost use Rattle.std.specs.Prelude.{◌≡◌, ◌^◌};
ghost use Rattle.std.specs.Int.{w32};
ghost use Rattle.std.specs.List.{list_all};
ghost use Rattle.x3d_values.specs.Ranges.{max_coordinate, max_time};
ghost use Rattle.byte_codec.specs.Codec.{Codec, all_fit, signed, truth};
ghost use Rattle.snapshot_codec.specs.Values.{color, is_within, list_of, number, text, time, vector2, vector3};

use x3d_values::{Color, MAX_TIME, Text, Vec2, Vec3, coordinate_fits};

/// A list or a text has fewer than this number of items or bytes.
const MANY: usize = 1 << 32;

/// A value that has a range.
pub(crate) trait Ranged {
    ghost codec: { Codec Self };

    /// Reports whether the value is in its range, so that a snapshot has bytes for it.
    fn fits(&self) -> bool
        ensures { result ≡ codec.fits self.now };
}

/// Every truth value is in its range.
impl Ranged for bool {
    ghost codec = { truth };

    fn fits(&self) -> bool {
        true
    }
}

/// Every 32-bit integer is in its range.
impl Ranged for i32 {
    ghost codec = { signed w32 };

    fn fits(&self) -> bool {
        let _number = *self;
        true
    }
}

/// A text is in its range if it is UTF-8 of fewer than 2^32 bytes.
impl Ranged for Text {
    ghost codec = { text };

    #[tactic(auto, unfolding(crate::specs::Values::text))]
    fn fits(&self) -> bool {
        let bytes = self.as_bytes();
        match str::from_utf8(bytes) {
            Ok(_) => bytes.len() < MANY,
            Err(_) => false,
        }
    }
}

impl Ranged for Vec2 {
    ghost codec = { vector2 };

    #[tactic(auto, unfolding(crate::specs::Values::vector2))]
    fn fits(&self) -> bool {
        coordinate_fits(self.x) && coordinate_fits(self.y)
    }
}

impl Ranged for Vec3 {
    ghost codec = { vector3 };

    #[tactic(auto, unfolding(crate::specs::Values::vector3))]
    fn fits(&self) -> bool {
        Vec3::fits(*self)
    }
}

impl Ranged for Color {
    ghost codec = { color };

    #[tactic(auto, unfolding(crate::specs::Values::color))]
    fn fits(&self) -> bool {
        coordinate_fits(self.red) && coordinate_fits(self.green) && coordinate_fits(self.blue)
    }
}

/// Reports whether the size of a time is at most `MAX_TIME` microseconds.
pub(crate) fn time_fits(time: i64) -> bool
    ensures { result ≡ is_within max_time time }
{
    time.unsigned_abs() <= MAX_TIME as u64
}

fn all_fit<T: Ranged>(items: &[T]) -> bool
    ensures { result ≡ all_fit T.codec items.now }
{
    for item in items {
        if !item.fits() {
            return false;
        }
    }
    true
}

/// Reports whether there are fewer than 2^32 items, each in its range.
pub(crate) fn list_fits<T: Ranged>(items: &[T]) -> bool
    ensures { result ≡ (list_of T.codec).fits items.now }
{
    items.len() < MANY && all_fit(items)
}

fn all_numbers(numbers: &[i64]) -> bool
    ensures { result ≡ list_all (is_within max_coordinate) numbers.now }
{
    numbers.iter().all(|number| coordinate_fits(*number))
}

fn all_times(times: &[i64]) -> bool
    ensures { result ≡ list_all (is_within max_time) times.now }
{
    times.iter().all(|time| time_fits(*time))
}

/// Reports whether there are fewer than 2^32 numbers, each in its range.
#[tactic(auto, using(crate::proofs::Listed::all_within))]
pub(crate) fn numbers_fit(numbers: &[i64]) -> bool
    ensures { result ≡ (list_of number).fits numbers.now }
{
    numbers.len() < MANY && all_numbers(numbers)
}

/// Reports whether there are fewer than 2^32 times, each in its range.
#[tactic(auto, using(crate::proofs::Listed::all_within))]
pub(crate) fn times_fit(times: &[i64]) -> bool
    ensures { result ≡ (list_of time).fits times.now }
{
    times.len() < MANY && all_times(times)
}
