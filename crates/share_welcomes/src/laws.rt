//! Laws of what a port has learned of a log: it stays that of the log, and so is what it sends.

ghost use Rattle.share_welcomes.specs.Laws.{BaseIsOfLog, BeginsOfLog, DropsOfLog, LearnsOfLog};
ghost use Rattle.share_welcomes.specs.Laws.{SendsOfLog};

/// What is known of a run that has no entries is that of the empty log.
pub fn nothing_is_of_the_log()
    ensures { BeginsOfLog }
{}

/// What is known of a log's base is that of the entries for which it stands.
pub fn a_base_is_of_the_log()
    ensures { BaseIsOfLog }
{}

/// What is known after the log's next entries were learned is that of the log with these.
pub fn learning_keeps_the_log()
    ensures { LearnsOfLog }
{}

/// What is known after entries were dropped is still that of the log.
pub fn dropping_keeps_the_log()
    ensures { DropsOfLog }
{}

/// An input that is sent in version 2 is that of the log, and a piece has the log's chain after its
/// snapshot's inputs.
pub fn what_is_sent_is_of_the_log()
    ensures { SendsOfLog }
{}
