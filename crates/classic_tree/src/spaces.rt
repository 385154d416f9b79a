//! The indentation of a line.

ghost use Rattle.std.specs.Prelude.{◌≡◌, ◌++◌, replicate, OnOk};
ghost use Rattle.x3d_lists.specs.Extends.{Extends};

use std::alloc::AllocError;

pub(crate) fn push_spaces(count: usize, out: &mut Vec<u8>) -> Result<(), AllocError>
    ensures ok { OnOk result (out.new.items ≡ out.old.items ++ replicate count 32) }
    ensures kept { Extends out.old.items out.new.items }
{
    for _i in 0..count {
        out.push(b' ')?;
    }
    Ok(())
}
