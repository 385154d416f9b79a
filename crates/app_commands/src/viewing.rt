//! The work of a viewer.

ghost use Rattle.std.specs.Prelude.{◌≡◌, ◌<◌, ◌≤◌, ◌⊎◌, ◌++◌, IfOk, IfErr, OnOk, Err, None, Some};
ghost use Rattle.x3d_values.specs.Ranges.{max_viewers};
ghost use Rattle.app_commands.specs.Viewing.{alone, first_boot, pointed, points, viewer_of};
ghost use Rattle.app_commands.specs.Hosting.{failures_after};
ghost use Rattle.app_commands.specs.Jobs.{staffed};
ghost use Rattle.app_commands.specs.Stages.{scripts_refusal};
ghost use Rattle.app_commands.specs.Viewing.{IsGivenInPart, IsSeated, IsViewed, IsViewedInPart};
ghost use Rattle.share_turns.specs.Gathers.{with_both};
ghost use Rattle.share_turns.specs.Gives.{Gives};
ghost use Rattle.app_jobs.specs.declared.fault.JobFault.TheVariants.{Memory};

use crate::hosting::{series_fault, share_fault};
use crate::job::{SharedJob, shared_job};
use app_jobs::JobFault;
use app_program::{OpenedScene, ShareFault, fresh_stage};
use app_words::Order;
use script_boxes::StockScript;
use share_core::Viewer;
use share_law::point_of;
use share_turns::{Port, ViewPlan, give_run, view_run};
use std::alloc::{AllocError, Global};
use x3d_values::{Cause, Point, Stamped};

fn push_pointed(cause: Cause, points: &mut Vec<Point>) -> Result<(), AllocError>
    ensures { OnOk result (points.new.items ≡ points.old.items ++ pointed cause) }
{
    match cause {
        Cause::Clock => Ok(()),
        Cause::Pointer(pointer) => Ok(points.push(point_of(pointer))?),
    }
}

/// Returns the points that a viewer is asked to offer.
fn points_of(alloc: Global, inputs: &[Stamped]) -> Result<Vec<Point>, AllocError>
    ensures { IfOk result (λ v. v.items ≡ points inputs.now) }
{
    let mut points = Vec::new(alloc);
    for input in inputs {
        push_pointed(input.cause(), &mut points)?;
    }
    Ok(points)
}

/// Returns the viewer of a job's scene, before any input, unless the scene's scripts are refused.
fn viewer_of(
    alloc: Global,
    job: SharedJob,
    who: u8,
    boot: u32,
) -> Result<Viewer<StockScript>, JobFault>
    requires who { who < max_viewers }
    requires boot { 1 ≤ boot }
    ensures ok { IfOk result (λ v. v ≡ viewer_of job who boot) }
    ensures taken { OnOk result (scripts_refusal job.scene ≡ None) }
    ensures err { IfErr result (λ f. (f ≡ Memory) ⊎ (scripts_refusal job.scene ≡ Some f)) }
{
    let SharedJob {
        inputs: _,
        mark,
        scene,
        routes,
    } = job;
    let stage = fresh_stage(alloc, OpenedScene { scene, routes })?;
    Ok(Viewer::start(stage, mark, who, boot))
}

/// Returns the boot with which a viewer begins. A viewer that joins begins with the boot before
/// `boot`, if there is one, so that its boot is new when it joins.
pub fn first_boot(boot: u32, joins: bool) -> u32
    requires { 1 ≤ boot }
    ensures value { result ≡ first_boot boot joins }
    ensures low { 1 ≤ result }
{
    if joins { (boot - 1).max(1) } else { boot }
}

/// A viewer of a job's scene, and the points that it is asked to offer.
#[derive(Drop)]
pub struct Seat {
    pub viewer: Viewer<StockScript>,
    pub points: Vec<Point>,
}

impl Seat {
    /// Drops the viewer.
    pub fn close(self) {
        drop(self);
    }
}

fn seat_of(alloc: Global, job: SharedJob, who: u8, boot: u32) -> Result<Seat, JobFault>
    requires who { who < max_viewers }
    requires boot { 1 ≤ boot }
    ensures viewer { IfOk result (λ s. s.viewer ≡ viewer_of job who boot) }
    ensures points { IfOk result (λ s. s.points.items ≡ points job.inputs) }
    ensures taken { OnOk result (scripts_refusal job.scene ≡ None) }
    ensures err { IfErr result (λ f. (f ≡ Memory) ⊎ (scripts_refusal job.scene ≡ Some f)) }
{
    let Ok(points) = points_of(alloc, job.inputs.as_slice()) else {
        // For the prover: an explicit call. At an exit, the drop of a job is proved in place.
        drop(job);
        return Err(JobFault::Memory);
    };
    let viewer = viewer_of(alloc, job, who, boot)?;
    Ok(Seat { viewer, points })
}

/// Returns the viewer of the job of these bytes, with this boot and before any input, and its
/// points.
///
/// Fails with the first fault of the job's lines, or else of its scene, or else with `BadJob` and
/// the line of the first step that the command doesn't take, or else with the first fault of its
/// scripts. Fails with `Memory` if memory is refused.
#[tactic(auto, unfolding(crate::specs::Jobs::staffed))]
pub fn seated_job(
    alloc: Global,
    bytes: &[u8],
    order: &Order,
    who: u8,
    boot: u32,
) -> Result<Seat, JobFault>
    requires who { who < max_viewers }
    requires boot { 1 ≤ boot }
    ensures ok { IfOk result
        (λ s. IsSeated order.now bytes.now who boot s.viewer s.points.items) }
    ensures err { IfErr result (λ f. (f ≡ Memory) ⊎ (staffed order.now bytes.now ≡ Err f)) }
{
    let job = shared_job(alloc, bytes, order)?;
    seat_of(alloc, job, who, boot)
}

/// Returns a plan without its giving.
fn alone(plan: &ViewPlan) -> ViewPlan
    ensures { result ≡ alone plan.now }
{
    ViewPlan {
        until: plan.until,
        forget: plan.forget,
        turns: plan.turns,
        join: plan.join,
        give: None,
    }
}

/// Runs a viewer as its plan says, and offers each of its points to the host. Returns the trace and
/// then the scene of the viewer; a viewer that forgets has the lines of the last inputs alone. It
/// gives nothing: that is `give_job`, once the text is written.
///
/// Fails with `TurnsUsedUp` if its turns were not enough, with `Port` if a send or a receive fails,
/// with `Memory` if memory is refused, and with `Spoiled` if it was refused to the viewer earlier.
/// A viewer that joins also fails with `BootNotNew` if its boot isn't above that of the gathered
/// snapshot, and with `BadSnapshot` if what it gathered is not a snapshot of its scene.
pub fn view_job<P: Port>(
    alloc: Global,
    seat: &mut Seat,
    host: u16,
    plan: &ViewPlan,
    port: &mut P,
) -> Result<Vec<u8>, ShareFault>
    ensures points { seat.new.points ≡ seat.old.points }
    ensures others { seat.new.viewer ≡ with_both seat.old.viewer seat.new.viewer.state
        seat.new.viewer.gathering }
    ensures done { IfOk result (λ text. IsViewed seat.old.viewer seat.old.points.items host
        plan.now (P.told port.old) (P.told port.new) seat.new.viewer text.items) }
    ensures ended { IfErr result (IsViewedInPart seat.old.viewer seat.old.points.items host
        plan.now (P.told port.old) (P.told port.new) seat.new.viewer) }
    ensures failures { P.failure_count port.new
        ≡ failures_after result (P.failure_count port.old) }
{
    let plan = alone(plan);
    let mut text = Vec::new(alloc);
    match view_run(
        alloc,
        &mut seat.viewer,
        seat.points.as_slice(),
        &plan,
        host,
        port,
        &mut text,
    ) {
        Ok(()) => Ok(text),
        Err(fault) => Err(series_fault(fault)),
    }
}

/// Has a viewer send its snapshot to a port, piece by piece and over and over, in `turns` turns. A
/// snapshot of more than 2^26 bytes has no pieces: then nothing is sent.
///
/// Fails with `Port` if a send or a receive fails, with `Memory` if memory is refused to the
/// snapshot, and with `Spoiled` if it was refused to the viewer earlier.
pub fn give_job<P: Port>(
    alloc: Global,
    seat: &Seat,
    to: u16,
    turns: u32,
    port: &mut P,
) -> Result<(), ShareFault>
    ensures done { OnOk result (Gives seat.now.viewer to turns (P.told port.old)
        (P.told port.new)) }
    ensures ended { IfErr result (IsGivenInPart seat.now.viewer to turns (P.told port.old)
        (P.told port.new)) }
    ensures failures { P.failure_count port.new
        ≡ failures_after result (P.failure_count port.old) }
{
    match give_run(alloc, &seat.viewer, to, turns, port) {
        Ok(()) => Ok(()),
        Err(fault) => Err(share_fault(fault)),
    }
}
