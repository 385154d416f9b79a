//! The numbers of a TimeSensor's fields: their places in the table of fields. `numbers_law` ties
//! each number to the field's name.

pub const CYCLE_INTERVAL: u16 = 1;

pub const ENABLED: u16 = 2;

pub const LOOP: u16 = 3;

pub const PAUSE_TIME: u16 = 4;

pub const RESUME_TIME: u16 = 5;

pub const START_TIME: u16 = 6;

pub const STOP_TIME: u16 = 7;

pub const IS_ACTIVE: u16 = 8;

pub const CYCLE_TIME: u16 = 10;

pub const FRACTION_CHANGED: u16 = 11;

pub const ELAPSED_TIME: u16 = 12;

pub const TIME: u16 = 13;
