//! What holds for the sensors that a hit concerns.

ghost use Rattle.laws_worlds.specs.Sensors.{SensorsAreFew, SensorsAreLowest, SensorsRise};

/// The sensors that a hit concerns are exactly the enabled pointing sensors of the lowest list
/// along its path that has one, in the order of their numbers, each once. In the scene of a
/// document there are at most 64: no list that counts has more.
pub fn sensors_are_all()
    ensures lowest { SensorsAreLowest }
    ensures rising { SensorsRise }
    ensures few { SensorsAreFew }
{}
