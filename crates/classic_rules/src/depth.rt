//! How deep nodes and the bodies of PROTOs may nest.

ghost use Rattle.std.specs.Prelude.{◌≡◌};
ghost use Rattle.x3d_values.specs.Ranges.{max_depth};

use x3d_values::MAX_DEPTH;

/// Returns how deep nodes and the bodies of PROTOs may nest in a statement of a text.
pub fn top_depth() -> u32
    ensures { result ≡ max_depth }
{
    MAX_DEPTH
}
