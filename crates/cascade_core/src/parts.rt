//! The parts that a stage makes from its scene.

ghost use Rattle.std.specs.Prelude.{◌≡◌, [], IfOk, List, None, map, replicate};
ghost use Rattle.script_running.specs.Acting.{kinds_of};
ghost use Rattle.script_host.specs.Attaching.{Fits};
ghost use Rattle.script_host.specs.Hosting.{SlotView};
ghost use Rattle.script_running.specs.Runs.{runs_of};
ghost use Rattle.script_running.specs.Scripts.{script_list};
ghost use Rattle.cascade_core.specs.Course.{wiring_at};
ghost use Rattle.cascade_core.specs.Sound.{RunsItsScripts, IsSound};
ghost use Rattle.cascade_core.specs.Apply.{untold};
ghost use Rattle.pick_core.specs.Sites.{rows_of};
ghost use Rattle.scene_core.specs.Scene.{types_of};
ghost use Rattle.sensor_plane.specs.Pointing.{start_of};

use crate::buffers::Buffers;
use crate::routed::RoutedScene;
use cascade_trace::{SentBits, Trace};
use cascade_world::{Live, State, VIEWERS, Watched, WorldData};
use pick_core::BoxCache;
use react_core::Outbox;
use route_core::Routes;
use scene_core::Scene;
use script_running::Runs;
use sensor_core::TimeState;
use sensor_plane::PointingSlot;
use std::alloc::{AllocError, Global};

/// Makes the states of `nodes` nodes, none of which runs a cycle.
fn idle_sensors(alloc: Global, nodes: usize) -> Result<Watched<TimeState>, AllocError>
    ensures { IfOk result (λ sensors. sensors ≡ replicate nodes None) }
{
    let sensors = vec![in alloc; TimeState::inactive(); nodes]?;
    Ok(Watched::from_vec(sensors))
}

/// Makes the pointing state of each node, before any viewer points.
fn pointing_of(alloc: Global, scene: &Scene) -> Result<Watched<PointingSlot>, AllocError>
    ensures { IfOk result (λ pointing. pointing ≡ map start_of (types_of scene.now)) }
{
    let count = scene.count()?;
    let mut slots = Vec::with_capacity(alloc, scene.node_count())?;
    for node in 0..count {
        let Ok(slot) = PointingSlot::of(alloc, scene.node_type(node)) else {
            drop(slots);
            return Err(AllocError);
        };
        slots.push(slot)?;
    }
    Ok(Watched::from_vec(slots))
}

/// Makes the world of a scene in which nothing has happened.
fn untold(alloc: Global, scene: &Scene) -> Result<WorldData, AllocError>
    ensures { IfOk result (λ w. w ≡ untold scene.now) }
{
    let fields = scene.state(alloc)?;
    // For the prover: each exit drops by calls; an in-place drop is proved again at each exit.
    let Ok(sensors) = idle_sensors(alloc, fields.len()) else {
        drop(fields);
        return Err(AllocError);
    };
    let Ok(pointing) = pointing_of(alloc, scene) else {
        drop(sensors);
        drop(fields);
        return Err(AllocError);
    };
    Ok(WorldData {
        applied: 0,
        last_time: 0,
        fields: State::from_vec(fields),
        sensors,
        pointing,
        buttons: [false; VIEWERS],
        trace: Trace::new(alloc),
    })
}

/// Makes the working memory of a stage: no tasks, and the boxes of the world.
fn buffers_of(alloc: Global, scene: &Scene, world: &WorldData) -> Result<Buffers, AllocError>
    ensures boxes { IfOk result (λ buffers. buffers.boxes ≡ rows_of scene.now world.now.fields) }
    ensures tasks { IfOk result (λ buffers. buffers.tasks.items ≡ []) }
    ensures replies { IfOk result (λ buffers. buffers.replies.items ≡ []) }
{
    let boxes = BoxCache::new(alloc, scene, world.fields.as_slice())?;
    Ok(Buffers {
        tasks: Vec::new(alloc),
        replies: Outbox::new(),
        pressed: Vec::new(alloc),
        boxes,
    })
}

/// Makes the world of a scene in which nothing has happened and no output has sent.
fn turn_of(alloc: Global, scene: &Scene) -> Result<Live, AllocError>
    ensures world { IfOk result (λ live. live.world ≡ untold scene.now) }
    ensures sent { IfOk result (λ live. live.sent ≡ []) }
{
    let sent = SentBits::new(alloc, scene)?;
    let world = untold(alloc, scene)?;
    Ok(Live { world, sent })
}

/// The parts of a stage other than its scene, its routes and its scripts.
#[derive(Drop)]
pub(crate) struct Parts {
    pub(crate) live: Live,
    pub(crate) buffers: Buffers,
}

/// Makes the parts of a stage before any input.
pub(crate) fn parts_of(alloc: Global, scene: &Scene) -> Result<Parts, AllocError>
    ensures world { IfOk result (λ parts. parts.live.world ≡ untold scene.now) }
    ensures sent { IfOk result (λ parts. parts.live.sent ≡ []) }
    ensures tasks { IfOk result (λ parts. parts.buffers.tasks.items ≡ []) }
    ensures replies { IfOk result (λ parts. parts.buffers.replies.items ≡ []) }
    ensures boxes { IfOk result
        (λ parts. parts.buffers.boxes ≡ rows_of scene.now parts.live.world.fields) }
{
    // For the prover: each exit drops by calls; an in-place drop is proved again at each exit.
    let live = turn_of(alloc, scene)?;
    let Ok(buffers) = buffers_of(alloc, scene, &live.world) else {
        drop(live);
        return Err(AllocError);
    };
    Ok(Parts { live, buffers })
}

/// Returns the scripts that a scene runs.
fn runs_in(alloc: Global, scene: &Scene) -> Result<Runs, AllocError>
    ensures { IfOk result (λ runs. runs ≡ runs_of scene.now) }
{
    let asked = script_running::script_list(alloc, scene)?;
    let listed = script_running::runs_of(alloc, scene, &asked);
    drop(asked);
    Runs::new(alloc, listed?, scene)
}

/// Returns the scene with its routes and the scripts that it runs. Fails with `AllocError` if
/// memory runs out.
pub fn routed_of(alloc: Global, scene: Scene, routes: Routes) -> Result<RoutedScene, AllocError>
    ensures scene { IfOk result (λ made. made.scene ≡ scene) }
    ensures routes { IfOk result (λ made. made.routes ≡ routes) }
    ensures runs { IfOk result (λ made. RunsItsScripts made) }
    ensures sound { IfOk result (λ made. (scripts : List SlotView)
        → Fits (script_list scene) scripts
        → IsSound (wiring_at made) (kinds_of scripts)) }
{
    // For the prover: each exit drops by calls; an in-place drop is proved again at each exit.
    let Ok(runs) = runs_in(alloc, &scene) else {
        drop(routes);
        drop(scene);
        return Err(AllocError);
    };
    Ok(RoutedScene {
        scene,
        routes,
        runs,
    })
}
