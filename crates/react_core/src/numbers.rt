//! The numbers of the fields that take part in reactions: their places in the table of fields.
//! `numbers_law` ties each number to the field's name.

/// `key` of an interpolator or a sequencer.
pub const KEY: u16 = 1;

/// `keyValue` of an interpolator or a sequencer.
pub const KEY_VALUE: u16 = 2;

/// `set_fraction` of an interpolator.
pub const SET_FRACTION: u16 = 3;

/// `value_changed` of an interpolator.
pub const VALUE_CHANGED: u16 = 4;

/// `next` of a sequencer.
pub const NEXT: u16 = 3;

/// `previous` of a sequencer.
pub const PREVIOUS: u16 = 4;

/// `set_fraction` of a sequencer.
pub const SEQUENCE_FRACTION: u16 = 5;

/// `value_changed` of a sequencer.
pub const SEQUENCE_CHANGED: u16 = 6;

/// `set_boolean` of a BooleanFilter, a BooleanToggle, an IntegerTrigger or a TimeTrigger.
pub const SET_BOOLEAN: u16 = 1;

/// `inputTrue` of a BooleanFilter.
pub const INPUT_TRUE: u16 = 2;

/// `inputFalse` of a BooleanFilter.
pub const INPUT_FALSE: u16 = 3;

/// `inputNegate` of a BooleanFilter.
pub const INPUT_NEGATE: u16 = 4;

/// `toggle` of a BooleanToggle.
pub const TOGGLE: u16 = 2;

/// `set_triggerTime` of a BooleanTrigger.
pub const SET_TRIGGER_TIME: u16 = 1;

/// `triggerTrue` of a BooleanTrigger.
pub const TRIGGER_TRUE: u16 = 2;

/// `integerKey` of an IntegerTrigger.
pub const INTEGER_KEY: u16 = 2;

/// `triggerValue` of an IntegerTrigger.
pub const TRIGGER_VALUE: u16 = 3;

/// `triggerTime` of a TimeTrigger.
pub const TRIGGER_TIME: u16 = 2;
