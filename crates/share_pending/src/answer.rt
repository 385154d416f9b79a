//! What a log answers to an append.

ghost use Rattle.std.specs.Prelude.{◌≡◌};
ghost use Rattle.share_pending.specs.Answer.{goes_on};

/// What the program's log answers to an append of entries.
#[derive(Clone, Copy, Debug, Drop, PartialEq, Eq)]
pub enum AppendAnswer {
    /// The log has the entries, for good.
    Stored,
    /// The log has other entries there.
    Taken,
    /// The log has all of them or none.
    InDoubt,
}

/// Reports whether a host goes on after this answer. If not it is dropped: it is ahead of its log.
pub fn goes_on(answer: AppendAnswer) -> bool
    ensures { result ≡ goes_on answer }
{
    match answer {
        AppendAnswer::Stored => true,
        AppendAnswer::Taken => false,
        AppendAnswer::InDoubt => false,
    }
}
