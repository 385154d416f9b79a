//! A refusal of a scene, and the instance that it is about.

use app_jobs::JobFault;
use app_program::{Failure, job_of};
use app_serve::End;
use proto_blame::instance_line;
use std::alloc::Global;

fn is_of_scene(failure: &Failure) -> bool {
    matches!(failure, Failure::Job(JobFault::Scene(_)))
}

/// Returns the line of the instance whose braces hold the value that a scene is refused for, or 0
/// if no instance's do or if memory ran out.
fn instance_in(alloc: Global, scene: &[u8]) -> u32 {
    match instance_line(alloc, scene) {
        Ok(line) => line,
        Err(_refused) => 0,
    }
}

/// Returns the refusal of a scene.
pub fn refused_scene(alloc: Global, failure: Failure, scene: &[u8]) -> End {
    if !is_of_scene(&failure) {
        return End::Failure(failure);
    }
    match instance_in(alloc, scene) {
        0 => End::Failure(failure),
        line => End::Instance(failure, line),
    }
}

/// Returns the refusal of a job.
pub fn refused_job(alloc: Global, failure: Failure, job: &[u8]) -> End {
    match job_of(alloc, job) {
        Ok(steps) => refused_scene(alloc, failure, steps.scene),
        Err(_fault) => End::Failure(failure),
    }
}
