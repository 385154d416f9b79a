//! Laws of the lines of a job and of a schedule, whatever is read.

ghost use Rattle.std.specs.Prelude.{◌≡◌, List, ℕ, ℤ, Ok};
ghost use Rattle.x3d_values.specs.Stamp.{StampedView};
ghost use Rattle.share_law.specs.declared.step.Step.{Step as StepOf};
ghost use Rattle.app_jobs.specs.Job.{Lined, job_lines, IsJobStep, IsJob};
ghost use Rattle.app_jobs.specs.Schedule.{schedule_lines, IsStepLine, IsSchedule};
ghost use Rattle.app_jobs.specs.declared.schedule.Schedule.{Schedule as ScheduleOf};

/// A line is at most one step. Bytes that are a schedule are read as that schedule: bytes are at
/// most one schedule, and `schedule_of` refuses a schedule for memory alone. The same holds of the
/// lines of a job, given the number of inputs before them and the time of the last, and of
/// `job_of`.
pub fn lines_are_one_step()
    ensures step { (line : List ℕ) (some other : StepOf)
        → IsStepLine line some → IsStepLine line other
        → some ≡ other }
    ensures schedule { (bytes : List ℕ) (s : ScheduleOf) → IsSchedule bytes s
        → schedule_lines bytes ≡ Ok s }
    ensures job_step { (given : ℕ) (before : ℤ) (line : List ℕ) (some other : StampedView)
        → IsJobStep given before line some → IsJobStep given before line other → some ≡ other }
    ensures job { (bytes : List ℕ) (j : Lined) → IsJob bytes j → job_lines bytes ≡ Ok j }
{}
