//! The checks of a snapshot before its world is read.

ghost use Rattle.std.specs.Prelude.{◌≡◌, ◌≢◌, [], OnErr, OnOk, IfErr, nat_lt};
ghost use Rattle.std.specs.Result.{result_map_both};
ghost use Rattle.snapshot_codec.specs.declared.fault.PartFault.TheVariants.{NotCanonical};
ghost use Rattle.snapshot_core.specs.Opening.{found_body};

use crate::version::version_in;
use snapshot_codec::{HeadFault, PartFault, all_read, open};

/// Returns the body of a snapshot of the scene with this mark, of the version that the snapshot
/// names. Returns a `HeadFault` if a check of the head or the digest fails.
pub fn body_in<'a>(mark: &[u8; 32], bytes: &'a [u8]) -> Result<&'a [u8], HeadFault>
    ensures exact { result_map_both (λ body. body.now) (λ fault. fault) result
        ≡ found_body mark.now bytes.now }
{
    open(version_in(bytes).number(), mark, bytes)
}

/// Checks that no bytes follow a world. Returns `NotCanonical` if bytes are left over.
pub fn none_left(rest: &[u8]) -> Result<(), PartFault>
    ensures ok { OnOk result (rest.now ≡ []) }
    ensures err { OnErr result (rest.now ≢ []) }
    ensures fault { IfErr result (λ fault. fault ≡ NotCanonical) }
{
    all_read(rest)
}

/// Reports whether `found`, the boot of a snapshot, is before `boot`.
pub fn is_older(found: u32, boot: u32) -> bool
    ensures { result ≡ nat_lt found boot }
{
    found < boot
}
