//! Rotations, which are checked and dropped.

ghost use Rattle.std.specs.Prelude.{◌≡◌};
ghost use Rattle.scene_values.specs.Rotations.{rotation, checked_rotation};

use crate::fault::ValueFault;
use classic_tree::RawValue;

fn rotation(run: &[i64], any_angle: bool) -> Result<(), ValueFault>
    ensures { result ≡ rotation run.now any_angle }
{
    let [_, _, _, angle] = run else {
        return Err(ValueFault::WrongType);
    };
    if any_angle || *angle == 0 {
        Ok(())
    } else {
        Err(ValueFault::RotationUnsupported)
    }
}

/// Checks that a raw value is a rotation that may be dropped: an axis of three numerals, and the
/// angle 0, or any angle if `any_angle`. Ranges aren't checked. Takes no memory.
///
/// Fails with `WrongType` if the value isn't a bare run of four numerals, and with
/// `RotationUnsupported` if the angle isn't allowed.
pub fn checked_rotation(raw: &RawValue<u32>, any_angle: bool) -> Result<(), ValueFault>
    ensures { result ≡ checked_rotation raw.now any_angle }
{
    match raw {
        RawValue::Numbers(run) => rotation(run.as_slice(), any_angle),
        _ => Err(ValueFault::WrongType),
    }
}
