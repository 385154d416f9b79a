//! The fixed things that events depend on: a scene, its routes, and the scripts that it runs.

use route_core::Routes;
use scene_core::Scene;
use script_running::Runs;

/// A scene, its routes, and the scripts that it runs. None of them changes.
#[derive(Drop)]
pub struct RoutedScene {
    pub scene: Scene,
    pub routes: Routes,
    pub runs: Runs,
}
