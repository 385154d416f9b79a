//! The numbers of a TouchSensor's fields: their places in the table of fields. `touch_numbers_law`
//! ties each number to the field's name.

/// The number of `enabled`.
pub const TOUCH_ENABLED: u16 = 2;

pub const IS_OVER: u16 = 3;

pub const HIT_POINT_CHANGED: u16 = 4;

/// The number of `isActive`.
pub const IS_PRESSED: u16 = 5;

pub const TOUCH_TIME: u16 = 6;
