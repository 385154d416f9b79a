//! Laws of limits, each the contract of a function that does nothing.

ghost use Rattle.proto_parts.specs.LimitLaws.{LimitsAreSettled, PartsSettleInTurn};

/// A document is too large exactly if something is counted for which there is no room, before
/// anything is wrong.
pub fn limits_are_settled()
    ensures { LimitsAreSettled }
{}

/// The second of two parts settles in the room that the first leaves.
pub fn parts_settle_in_turn<A, B>()
    ensures { PartsSettleInTurn A B }
{}
