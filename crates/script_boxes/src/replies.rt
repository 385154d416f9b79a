//! Lists of replies.

ghost use Rattle.std.specs.Prelude.{◌≡◌, [], ◌∷◌};

use script_host::{Replies, Reply};

/// Returns a list of one reply.
pub fn one(reply: Reply) -> Replies
    ensures { result.items ≡ reply ∷ [] }
{
    let mut replies = Replies::new();
    replies.push(reply);
    replies
}

/// Returns a list of two replies, in order.
pub fn two(first: Reply, second: Reply) -> Replies
    ensures { result.items ≡ first ∷ second ∷ [] }
{
    let mut replies = Replies::new();
    replies.push(first);
    replies.push(second);
    replies
}
