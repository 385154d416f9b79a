//! A stage holds the world of a scene, and applies inputs to it.

use crate::boxes::put_boxes;
use crate::buffers::Buffers;
use crate::course::Course;
use crate::fault::{ApplyFault, LoadFault, PlaceFault};
use crate::input::advance;
use crate::opening::open;
use crate::parts::{Parts, parts_of, routed_of};
use crate::routed::RoutedScene;
use crate::work::Work;
use cascade_world::WorldData;
use route_core::Routes;
use scene_core::{Route, Scene};
use script_host::{Behaviour, Scripts, StateFault};
use std::alloc::Global;
use std::marker::Model;
use std::mem;
use x3d_values::{Items, Stamped};

/// A scene with its world, which inputs advance.
#[derive(Drop)]
pub struct Stage<B: Behaviour> {
    pub(crate) routed: RoutedScene,
    pub(crate) course: Course<B>,
    buffers: Buffers,
    pub(crate) spoiled: Option<u64>,
}

impl<B: Behaviour> Model for Stage<B> {
    ghost use Rattle.std.specs.Prelude.{◌≡◌, IfNone};
    ghost use Rattle.pick_core.specs.Sites.{rows_of};
    ghost use Rattle.cascade_core.specs.Held.{StageView, held_of};
    ghost use Rattle.cascade_core.specs.Course.{ended, wiring_at, seen};
    ghost use Rattle.cascade_core.specs.Scripts.{kinds_in};
    ghost use Rattle.cascade_core.specs.Sound.{HasScriptsOf, RunsItsScripts};
    ghost use Rattle.script_running.specs.Acting.{kinds_of};

    ghost Value = { StageView };

    ghost view = { λ s.
        record {
          scene = s.routed.scene;
          routes = s.routed.routes;
          held = held_of s.spoiled (ended (seen s.course));
        } };

    ghost invariant = { λ s. IfNone s.spoiled
        (s.buffers.boxes ≡ rows_of s.routed.scene s.course.live.world.fields)
        × RunsItsScripts s.routed
        × HasScriptsOf (wiring_at s.routed) (seen s.course)
        × (kinds_of s.course.scripts ≡ kinds_in s.routed.scene) };
}

impl<B: Behaviour> Stage<B> {
    ghost use Rattle.std.specs.Prelude.{◌≡◌, ◌++◌, ◌⊎◌, IfOk, IfErr, IfNone, IfSome, IsSomeAnd, None, Some, OnOk, OnErr, length, option_copied, slice_get};
    ghost use Rattle.cascade_core.specs.Apply.{opening};
    ghost use Rattle.cascade_core.specs.Scripts.{kinds_in, scripts_in};
    ghost use Rattle.cascade_core.specs.Held.{Running, after, holding, refusal_of, settled_by, spoiled as spoiled_of, applied_of, IfRunning, IfSpoiled, is_spoiled, trace_of, world_in};
    ghost use Rattle.cascade_core.specs.Installing.{RefusesBox, RefusesInstall, StatesFit};
    ghost use Rattle.cascade_core.specs.Work.{IsWork};
    ghost use Rattle.script_running.specs.Scripts.{script_list};
    ghost use Rattle.script_host.specs.Attaching.{Fits};

    /// Makes the stage of a scene with its routes and the scripts attached for it, and runs input
    /// 0: all scripts are initialized in number order, then their events are sent, and then they
    /// settle. None of the scripts may be initialized yet. Fails with `Memory` if memory runs out.
    pub fn load(
        alloc: Global,
        scene: Scene,
        routes: Routes,
        scripts: Scripts<B>,
    ) -> Result<Stage<B>, LoadFault>
        requires fits { Fits (script_list scene) scripts }
        requires fresh { scripts ≡ scripts_in scene }
        ensures { IfOk result (λ stage. stage
            ≡ record {
              scene = scene;
              routes = routes;
              held = Running (opening scene routes);
            }) }
    {
        // For the prover: each exit drops by calls; an in-place drop is proved again at each exit.
        let Ok(routed) = routed_of(alloc, scene, routes) else {
            drop(scripts);
            return Err(LoadFault::Memory);
        };
        let Ok(parts) = parts_of(alloc, &routed.scene) else {
            drop(scripts);
            drop(routed);
            return Err(LoadFault::Memory);
        };
        let Parts { live, mut buffers } = parts;
        let Ok(course) = open(alloc, &routed, &mut buffers, live, scripts) else {
            drop(buffers);
            drop(routed);
            return Err(LoadFault::Memory);
        };
        Ok(Stage {
            routed,
            course,
            buffers,
            spoiled: None,
        })
    }

    /// Returns the scene.
    pub fn scene(&self) -> &Scene
        ensures { result.now ≡ self.now.scene }
    {
        &self.routed.scene
    }

    /// Returns the routes of the scene, without repeats, in the order in which they are followed.
    pub fn routes(&self) -> &[Route]
        ensures { result.now ≡ self.now.routes }
    {
        self.routed.routes.as_slice()
    }

    /// Returns the allocator that the stage takes its memory from.
    pub fn allocator(&self) -> Global {
        *self.buffers.tasks.allocator()
    }

    /// Returns the world, or `None` if the stage is spoiled.
    pub fn world(&self) -> Option<&WorldData>
        ensures { option_copied result ≡ world_in self.now.held }
    {
        if self.spoiled.is_some() {
            return None;
        }
        Some(&self.course.live.world)
    }

    /// Returns the number of inputs applied. For a spoiled stage, the number applied before it was
    /// spoiled.
    pub fn applied(&self) -> u64
        ensures { result ≡ applied_of self.now.held }
    {
        match self.spoiled {
            Some(count) => count,
            None => self.course.live.world.applied,
        }
    }

    /// Reports whether the stage is spoiled: memory ran out at an input.
    pub fn spoiled(&self) -> bool
        ensures { result ≡ is_spoiled self.now.held }
    {
        self.spoiled.is_some()
    }

    /// Returns why an input is refused as the next one, if it is.
    fn refusal(&self, input: &Stamped) -> Option<ApplyFault>
        ensures { result ≡ refusal_of self.now.held input.now }
    {
        if self.spoiled.is_some() {
            return Some(ApplyFault::Spoiled);
        }
        let world = &self.course.live.world;
        if input.number() - 1 != world.applied {
            return Some(ApplyFault::NotNext);
        }
        if input.time() <= world.last_time {
            return Some(ApplyFault::TimeNotLater);
        }
        None
    }

    /// Applies the next input. The first fault that holds is returned: `Spoiled` if the stage is
    /// spoiled, `NotNext` if the input's number isn't the next one, `TimeNotLater` if its time
    /// isn't later than that of the last input. The stage is then unchanged. Returns `Memory` if
    /// memory runs out; the stage is then spoiled.
    #[tactic(auto, using(crate::proofs::Resting::has_scripts_then))]
    pub fn apply(&mut self, input: &Stamped) -> Result<Work, ApplyFault>
        // A fault that is found before the work starts is returned, and the stage is unchanged.
        ensures refused { IfSome (refusal_of self.old.held input.now) (λ fault. (result ≡ Err fault)
            × (self.new ≡ self.old)) }
        ensures ok { OnOk result (self.new ≡ after self.old input.now) }
        // Counts the scripts that the definition settles at this input.
        ensures work { IfOk result
            (IsWork self.old.routes (trace_of self.old.held) (trace_of self.new.held)
            (settled_by self.old input.now)) }
        ensures taken { OnOk result (refusal_of self.old.held input.now ≡ None) }
        ensures err { IfErr result (λ fault. (fault ≡ ApplyFault.Memory)
            ⊎ (refusal_of self.old.held input.now ≡ Some fault)) }
        // If memory runs out, the stage is spoiled, with the number of inputs applied before.
        ensures memory { IfNone (refusal_of self.old.held input.now)
            (OnErr result ((result ≡ Err ApplyFault.Memory) × (self.new ≡ spoiled_of self.old))) }
    {
        if let Some(fault) = self.refusal(input) {
            return Err(fault);
        }
        let before = self.course.live.world.applied;
        match advance(&self.routed, &mut self.buffers, &mut self.course, input) {
            Ok(work) => Ok(work),
            Err(_) => {
                self.spoiled = Some(before);
                Err(ApplyFault::Memory)
            }
        }
    }

    /// Returns the number of scripts that the scene runs.
    pub fn script_count(&self) -> usize
        ensures { result ≡ length (kinds_in self.now.scene) }
    {
        self.course.scripts.len()
    }

    /// Replaces what the stage holds by a world with a state for each script. A spoiled stage is
    /// repaired by this. Returns `StateLength` or `StateRange` if the states don't fit the scripts;
    /// the stage is then unchanged. Returns `Memory` if memory runs out; the stage is then spoiled,
    /// with the number of inputs applied before.
    #[tactic(auto, using(crate::proofs::Installs::installs))]
    pub fn install(&mut self, world: WorldData, states: &[Items<i64>]) -> Result<(), StateFault>
        ensures fit { OnOk result (StatesFit self.old.scene states.now) }
        ensures ok { OnOk result (self.new
            ≡ holding self.old (Running (record { world = world; states = states.now }))) }
        ensures refused { IfErr result (λ fault.
            RefusesInstall fault self.old states.now self.new) }
    {
        let applied = self.applied();
        // For the prover: values are dropped by calls; an in-place drop is proved again at each
        // exit.
        match self.course.scripts.restore(states) {
            Ok(()) => {}
            Err(StateFault::Memory) => {
                drop(world);
                self.spoiled = Some(applied);
                return Err(StateFault::Memory);
            }
            Err(StateFault::StateLength) => {
                drop(world);
                return Err(StateFault::StateLength);
            }
            Err(StateFault::StateRange) => {
                drop(world);
                return Err(StateFault::StateRange);
            }
        }
        let alloc = *self.buffers.tasks.allocator();
        let state = world.fields.as_slice();
        let Ok(()) = put_boxes(&mut self.buffers.boxes, alloc, &self.routed.scene, state) else {
            drop(world);
            self.spoiled = Some(applied);
            return Err(StateFault::Memory);
        };
        drop(mem::replace(&mut self.course.live.world, world));
        self.spoiled = None;
        Ok(())
    }

    /// Replaces the k-th script by a box of the same kind, in the same state. The world never
    /// changes. The first fault that holds is returned: `Spoiled` if the stage is spoiled,
    /// `NoSuchScript` if there is no k-th script, `KindDiffers` if the box is of another kind,
    /// `Memory` if memory runs out. A refused box is dropped.
    #[tactic(auto, using(crate::proofs::Installs::places_box))]
    pub fn replace_script(&mut self, k: usize, script: B) -> Result<(), PlaceFault>
        ensures same { self.new ≡ self.old }
        ensures ok { OnOk result (IsSomeAnd (slice_get (kinds_in self.old.scene) k)
            (λ kind. B.kind_of script ≡ kind)) }
        ensures spoiled { IfSpoiled self.old.held (result ≡ Err PlaceFault.Spoiled) }
        ensures refused { IfErr result (λ fault. RefusesBox fault self.old.held
            (slice_get (scripts_in self.old.scene) k) (B.kind_of script)) }
    {
        if self.spoiled.is_some() {
            drop(script);
            return Err(PlaceFault::Spoiled);
        }
        self.course.scripts.replace(k, script)?;
        Ok(())
    }

    /// Marks the stage as spoiled, with the number of inputs applied so far. For a caller that ran
    /// out of memory while making a world for the stage.
    pub fn spoil(&mut self)
        ensures { self.new ≡ spoiled_of self.old }
    {
        self.spoiled = Some(self.applied());
    }

    /// Closes the stage and drops its scripts.
    pub fn close(self) {
        drop(self);
    }
}
