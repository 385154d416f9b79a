//! Laws of what documents stand for, each the contract of a function that does nothing.

ghost use Rattle.proto_meaning.specs.Laws.{LimitsStayPassed, SightIsOfTheText};

/// The prototypes in sight after a statement that was added are those that its text declares,
/// whatever instances give.
pub fn sight_is_of_the_text()
    ensures { SightIsOfTheText }
{}

/// What is over a limit stays over it, whatever follows.
pub fn limits_stay_passed()
    ensures { LimitsStayPassed }
{}
