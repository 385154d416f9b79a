//! The numbers of the fields that picking reads, which are the fields' places in the table of
//! fields. `numbers_law` ties each number to the field's name.

/// `center` of a Transform.
pub(crate) const CENTER: u16 = 3;

/// `scale` of a Transform.
pub(crate) const SCALE: u16 = 6;

/// `translation` of a Transform.
pub(crate) const TRANSLATION: u16 = 8;

/// `whichChoice` of a Switch.
pub(crate) const WHICH_CHOICE: u16 = 4;

/// `geometry` of a Shape.
pub(crate) const GEOMETRY: u16 = 4;

/// `size` of a Box.
pub(crate) const SIZE: u16 = 1;

/// `enabled` of a TouchSensor.
pub(crate) const ENABLED: u16 = 2;

/// `enabled` of a PlaneSensor.
pub(crate) const PLANE_ENABLED: u16 = 3;
