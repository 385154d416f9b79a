//! The pointing sensors in the lists of a scene.

ghost use Rattle.std.specs.Prelude.{◌≡◌, ◌++◌, ◌∷◌, [], IfOk, OnOk, cond, map};
ghost use Rattle.scene_core.specs.Places.{is_sensor};
ghost use Rattle.scene_core.specs.SensorLists as spec;

use crate::places::{is_sensor, own_children};
use crate::scene::SceneNode;
use std::alloc::{AllocError, Global};
use x3d_lists::Items;

/// The pointing sensors in the list of the roots and in each node's list `children`. Lists may be
/// long, and few have sensors.
#[derive(Drop)]
pub struct SensorLists {
    pub roots: Items<u32>,
    /// The sensors in each node's list `children`, by node number.
    pub children: Items<Items<u32>>,
}

impl SensorLists {
    ghost use Rattle.std.specs.Prelude.{◌≡◌};
    ghost use Rattle.scene_core.specs.SensorLists.{kept_below};

    /// Returns the sensors in the list `children` of node `owner`, or in the list of the roots.
    pub fn below(&self, owner: Option<u32>) -> &[u32]
        ensures { result.now ≡ kept_below self.now owner }
    {
        let Some(node) = owner else {
            return self.roots.as_slice();
        };
        match self.children.get(node as usize) {
            Some(sensors) => sensors.as_slice(),
            None => &[],
        }
    }
}

/// Returns the sensors in the lists of a scene.
pub(crate) fn sensor_lists(
    alloc: Global,
    nodes: &[SceneNode],
    roots: &[u32],
) -> Result<SensorLists, AllocError>
    ensures { IfOk result (λ lists. lists ≡ spec.sensor_lists nodes.now roots.now) }
{
    let among_roots = sensors_among(alloc, nodes, roots)?;
    let Ok(children) = sensors_among_children(alloc, nodes) else {
        drop(among_roots);
        return Err(AllocError);
    };
    Ok(SensorLists {
        roots: among_roots,
        children: Items::from_vec(children),
    })
}

/// Returns for each node the sensors among its children.
fn sensors_among_children(alloc: Global, nodes: &[SceneNode]) -> Result<Vec<Items<u32>>, AllocError>
    ensures { IfOk result
        (λ all. all.items ≡ map (spec.sensors_among_children nodes.now) nodes.now) }
{
    let mut all = Vec::with_capacity(alloc, nodes.len())?;
    for node in nodes {
        all.push(sensors_among(alloc, nodes, own_children(node))?)?;
    }
    Ok(all)
}

/// Returns the sensors in a list, in the order of the list.
fn sensors_among(alloc: Global, nodes: &[SceneNode], list: &[u32]) -> Result<Items<u32>, AllocError>
    ensures { IfOk result (λ sensors. sensors ≡ spec.sensors_among nodes.now list.now) }
{
    let mut sensors = Items::new(alloc);
    for n in list {
        if push_sensor(nodes, &mut sensors, *n).is_err() {
            drop(sensors);
            return Err(AllocError);
        }
    }
    Ok(sensors)
}

/// Appends a node if it is a sensor.
fn push_sensor(nodes: &[SceneNode], sensors: &mut Items<u32>, n: u32) -> Result<(), AllocError>
    ensures { OnOk result
        (sensors.new ≡ sensors.old ++ cond (is_sensor nodes.now n) (n ∷ []) []) }
{
    if is_sensor(nodes, n) {
        sensors.push(n)
    } else {
        Ok(())
    }
}
