//! What holds of guards.

ghost use Rattle.share_guards.specs.Laws.{KnownBroughtACookie, StrangersGetNoMore};

/// Whatever comes and is to be sent, no more bytes are sent to an address than came from it, and
/// only Welcomes, unless it brought back a cookie.
pub fn strangers_get_no_more()
    ensures { StrangersGetNoMore }
{}

/// An address is known at the number of a peer only if it brought back a cookie there.
pub fn known_brought_a_cookie()
    ensures { KnownBroughtACookie }
{}
