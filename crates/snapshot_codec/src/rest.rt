//! The end of the last part.

ghost use Rattle.std.specs.Prelude.{◌≡◌, ◌≢◌, [], IfErr, OnErr, OnOk};
ghost use Rattle.snapshot_codec.specs.declared.fault.PartFault.TheVariants.{NotCanonical};

use crate::fault::PartFault;

/// Checks that no bytes follow the last part. Returns `NotCanonical` if bytes are left over.
pub fn all_read(rest: &[u8]) -> Result<(), PartFault>
    ensures ok { OnOk result (rest.now ≡ []) }
    ensures err { OnErr result (rest.now ≢ []) }
    ensures fault { IfErr result (λ fault. fault ≡ NotCanonical) }
{
    match rest {
        [] => Ok(()),
        _ => Err(PartFault::NotCanonical),
    }
}
