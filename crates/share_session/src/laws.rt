//! Laws of datagrams of version 2.

ghost use Rattle.share_session.specs.Laws.{DatagramsTell, HearsItsRun, WelcomesAreShorter};

/// What a peer of one run hears was said in that run of that scene, or two texts have a SHA-256
/// that begins with the same 16 bytes.
pub fn peers_hear_their_run()
    ensures { HearsItsRun }
{}

/// No datagram is of two runs, or two texts have a SHA-256 that begins with the same 16 bytes.
pub fn datagrams_tell_runs_apart()
    ensures { DatagramsTell }
{}

/// A Welcome has fewer bytes than any Hello.
pub fn welcomes_are_shorter()
    ensures { WelcomesAreShorter }
{}
