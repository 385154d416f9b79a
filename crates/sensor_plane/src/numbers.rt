//! The numbers of a PlaneSensor's fields: their places in the table of fields. `numbers_law` ties
//! each number to the field's name.

pub const AUTO_OFFSET: u16 = 1;

/// The number of `enabled`.
pub const PLANE_ENABLED: u16 = 3;

pub const MAX_POSITION: u16 = 4;

pub const MIN_POSITION: u16 = 5;

/// The number of `offset`.
pub const OFFSET: u16 = 6;

pub const IS_OVER: u16 = 7;

pub const IS_ACTIVE: u16 = 8;

pub const TRACK_POINT_CHANGED: u16 = 9;

pub const TRANSLATION_CHANGED: u16 = 10;
