//! Laws of the inputs that a viewer in a run hands on.

ghost use Rattle.share_runs.specs.Forgetting.{StaysOfLog};
ghost use Rattle.share_runs.specs.Laws.{NeverOther, OneList};

/// Two inputs with one number, of the list that a viewer knows, are one input, or two texts have a
/// SHA-256 that begins with the same 16 bytes.
pub fn viewers_know_one_list()
    ensures { OneList }
{}

/// No input of a log is of another list, for a viewer that knows chains of that log.
pub fn logs_are_one_list()
    ensures { NeverOther }
{}

/// What a viewer forgets of its list leaves chains of the same log.
pub fn forgetting_keeps_the_list()
    ensures { StaysOfLog }
{}
