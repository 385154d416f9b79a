//! A law of blames.

ghost use Rattle.std.specs.Prelude.{◌≡◌, ◌<◌, ◌^◌, ℕ, decimal};
ghost use Rattle.proto_blame.specs.Blames.{line_in};

/// The line of a blame is the line that it was made of.
pub fn blames_are_read()
    ensures { (line : ℕ) → line < 2 ^ 32 → line_in (decimal line) ≡ line }
{}
