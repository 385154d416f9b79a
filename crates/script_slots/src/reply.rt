//! What a script sends in one call.

ghost use Rattle.std.specs.Prelude.{◌≡◌, [], ◌∷◌, pos};
ghost use Rattle.script_slots.specs.Behaviour.{sends};

use arrayvec::ArrayVec;

/// The most events that a script sends in one call.
pub const MAX_REPLIES: usize = 2;

/// A value that a script sends from one of its outputs, as three whole numbers. Numbers that the
/// type doesn't use are 0. A truth value is 0 or 1, an integer is itself, a time is in
/// microseconds, and other numbers are in millionths.
#[derive(Clone, Copy, PartialEq, Eq)]
pub struct Reply {
    /// The number of the output among the outputs of the kind, from 0.
    pub output: u32,
    pub numbers: [i64; 3],
}

impl Reply {
    /// Creates a reply whose value is one number.
    pub fn number(output: u32, number: i64) -> Reply
        ensures { result ≡ sends output number }
    {
        Reply {
            output,
            numbers: [number, 0, 0],
        }
    }
}

/// The reply that fills an unused place of a list of replies.
impl Default for Reply {
    ghost is_default = { λ reply. reply ≡ sends 0 (pos 0) };

    fn default() -> Reply {
        Reply::number(0, 0)
    }
}

/// The replies of one call, in order. `Replies::new()` allocates nothing.
pub type Replies = ArrayVec<Reply, MAX_REPLIES>;
