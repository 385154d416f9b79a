//! The job of a host: its clocks, and a stage of its scene if it keeps the world.

use crate::doors::Way;
use app_commands::SharedJob;
use app_program::{JobFault, JobInputs, OpenedScene, fresh_stage};
use cascade_core::Stage;
use script_boxes::StockScript;
use std::alloc::Global;

/// The clocks of a job, and its scene.
#[derive(Drop)]
pub struct HostJob {
    pub inputs: JobInputs,
    pub mark: [u8; 32],
    /// That of its scene, if the host keeps the world.
    pub stage: Option<Stage<StockScript>>,
}

impl HostJob {
    /// Drops all but the stage.
    pub fn into_stage(self) -> Option<Stage<StockScript>> {
        let HostJob {
            inputs,
            mark: _,
            stage,
        } = self;
        drop(inputs);
        stage
    }
}

/// Returns the job of a host that is reached in this way. A host with keys keeps the world. Fails
/// with the first fault of the scene's scripts if it does, or with `Memory` if memory is refused.
pub fn job_in(alloc: Global, job: SharedJob, way: &Way) -> Result<HostJob, JobFault> {
    let SharedJob {
        inputs,
        mark,
        scene,
        routes,
    } = job;
    let opened = OpenedScene { scene, routes };
    if !way.has_keys() {
        drop(opened);
        let stage = None;
        return Ok(HostJob {
            inputs,
            mark,
            stage,
        });
    }
    match fresh_stage(alloc, opened) {
        Ok(stage) => {
            let stage = Some(stage);
            Ok(HostJob {
                inputs,
                mark,
                stage,
            })
        }
        Err(fault) => {
            drop(inputs);
            Err(fault)
        }
    }
}
