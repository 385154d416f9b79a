//! The law of hosts that were resumed.

ghost use Rattle.embed_world.specs.WriteAhead.{AcksAreStored, AnswersGrow, AppendsMakeLogs, BeginsKeep};
ghost use Rattle.embed_world.specs.WriteAhead.{ClocksKeep, DropsKeep, FloorsAreStored, InputsAreStored};
ghost use Rattle.embed_world.specs.WriteAhead.{KeepingKeeps, TakesFromKeep, TakesKeep};

/// States that a host that was resumed is ahead of its log whatever is called: it is the host that
/// the log's entries make and those that wait, and what it shows is of the log's entries alone.
pub fn hosts_write_ahead()
    // Calls that number, take, drop or begin an append leave the log as it was.
    ensures clocks { ClocksKeep }
    ensures takes { TakesKeep }
    ensures takes_from { TakesFromKeep }
    ensures drops { DropsKeep }
    ensures keeps { KeepingKeeps }
    ensures begins { BeginsKeep }
    // An answer makes it longer by the entries of its append, if these are stored.
    ensures answers { AnswersGrow }
    ensures bytes { AppendsMakeLogs }
    // Each datagram is of entries of the log.
    ensures inputs { InputsAreStored }
    ensures acks { AcksAreStored }
    ensures floors { FloorsAreStored }
{}
