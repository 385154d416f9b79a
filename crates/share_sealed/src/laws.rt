//! What holds of datagrams of version 2.

ghost use Rattle.share_sealed.specs.Laws.{SendersAreClaimed};

/// The viewer that a datagram to the host says it is of is the one of its message.
pub fn senders_are_claimed()
    ensures { SendersAreClaimed }
{}
