//! Runs and sessions.

ghost use Rattle.std.specs.Prelude.{◌≡◌};
ghost use Rattle.share_session.specs.Runs.{SessionsTell, session_of};

use crate::reading::sixteen;
use sha2::{Digest, Sha256};

/// What names one list of inputs: drawn at random where a list begins.
pub type Run = [u8; 16];

/// What names a run of one scene in its datagrams.
pub type Session = [u8; 16];

/// Returns the session of a run of the scene with this mark.
pub fn session_of(mark: &[u8; 32], run: &Run) -> Session
    ensures { result ≡ session_of mark.now run.now }
{
    let mut hasher = Sha256::new();
    hasher.update(mark.as_slice());
    hasher.update(run.as_slice());
    let digest = hasher.finalize();
    sixteen(&digest[..16])
}

/// Two runs have different sessions, and so have runs of two scenes, or two texts have a SHA-256
/// that begins with the same 16 bytes.
pub fn sessions_tell_runs_apart()
    ensures { SessionsTell }
{}
