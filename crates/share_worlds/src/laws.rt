//! What holds of datagrams with seals.

ghost use Rattle.share_worlds.specs.Laws.{WorldsAreTold};

/// A datagram is for the world of its message, whatever seal follows it.
pub fn worlds_are_told()
    ensures { WorldsAreTold }
{}
