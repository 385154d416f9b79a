//! What a viewer forgets: the lines of its trace of inputs before the last ones.

ghost use Rattle.std.specs.Prelude.{◌≡◌};
ghost use Rattle.share_core.specs.Viewer.{with_state};
ghost use Rattle.share_turns.specs.Views.{MayForget, forgot_as};

use script_host::Behaviour;
use share_core::Viewer;

/// The least number of inputs from one time that lines are forgotten to the next. As many lines are
/// moved as are kept, so they are forgotten in portions.
const PORTION: u64 = 64;

/// Forgets the lines of the trace of all inputs but the last `forget`, once `due` inputs are
/// applied. Returns after how many inputs it is due again.
pub(crate) fn forget_some<B: Behaviour>(
    viewer: &mut Viewer<B>,
    forget: Option<u64>,
    due: u64,
) -> u64
    ensures others { viewer.new ≡ with_state viewer.old viewer.new.state }
    ensures forgot { MayForget forget viewer.old.state viewer.new.state }
{
    let Some(last) = forget else {
        return due;
    };
    let applied = viewer.applied();
    if applied < due {
        return due;
    }
    viewer.forget_all_but(last);
    applied.saturating_add(last.max(PORTION))
}

/// Forgets the lines of the trace of all inputs but the last `forget`, if that is a number.
pub(crate) fn forget_rest<B: Behaviour>(viewer: &mut Viewer<B>, forget: Option<u64>)
    ensures { viewer.new ≡ with_state viewer.old (forgot_as forget viewer.old.state) }
{
    if let Some(last) = forget {
        viewer.forget_all_but(last);
    }
}
