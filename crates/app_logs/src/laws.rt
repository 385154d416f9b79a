//! Laws of a log's lines. Each is the contract of a function that does nothing.

ghost use Rattle.std.specs.Prelude.{◌≡◌, ℕ, List, Ok, take, true};
ghost use Rattle.app_jobs.specs.Job.{job_lines};
ghost use Rattle.laws_hosts.specs.Log.{inputs_of};
ghost use Rattle.share_entries.specs.Entry.{EntryView};
ghost use Rattle.share_logged.specs.Logged.{logged};
ghost use Rattle.share_logged.specs.Making.{IsLogOf};
ghost use Rattle.app_logs.specs.Replaying.{are_pointing, replay_text};

/// The lines of a log's entries, a line `scene` and a scene are a job: its inputs are those of the
/// log, and its scene is this one. The first entries of a log are a log too.
pub fn logs_run_again()
    ensures job { (viewers : ℕ) (entries : List EntryView) (scene : List ℕ)
        → IsLogOf viewers entries → are_pointing entries ≡ true
        → job_lines (replay_text entries scene)
        ≡ Ok (record { inputs = inputs_of (logged entries); scene = scene }) }
    ensures first { (viewers n : ℕ) (entries : List EntryView) → IsLogOf viewers entries
        → IsLogOf viewers (take n entries) }
{}
