//! The nodes of a world, one after another.

ghost use Rattle.std.specs.Prelude.{◌≡◌, ◌<◌, ◌++◌, [], ◌∷◌, List, IfErr, IfOk, OnErr, OnOk, false, length, min, true};
ghost use Rattle.std.specs.Option.{option_map};
ghost use Rattle.x3d_lists.specs.Extends.{Extends};
ghost use Rattle.scene_core.specs.Scene.{shapes_of};
ghost use Rattle.snapshot_codec.specs.Reads.{ReadsPart};
ghost use Rattle.snapshot_codec.specs.declared.fault.PartFault.TheVariants.{NotCanonical};
ghost use Rattle.cascade_world.specs.Fits.{all_lead};
ghost use Rattle.snapshot_codec.specs.declared.kept.KeptField.{KeptField as Kept};
ghost use Rattle.snapshot_core.specs.Nodes.{lists_codec, node_of, node_codec, nodes_codec, shape_in, state_codec};
ghost use Rattle.snapshot_core.specs.WorldCodec.{lists_in};

use crate::beside::{Beside, beside_of, push_beside};
use crate::kept::list_kept;
use crate::version::Version;
use cascade_core::WorldData;
use cascade_world::all_lead;
use scene_core::Scene;
use sensor_core::TimeState;
use sensor_plane::{PointingSlot, PointingState};
use snapshot_codec::{KeptField, PartFault, kept_fields_of, push_kept_fields};
use std::alloc::{AllocError, Global};
use x3d_values::{Fields, Items, NodeType, Value};

/// The state of one node.
#[derive(Drop)]
pub(crate) struct NodeState {
    pub fields: Fields,
    pub time: TimeState,
    pub pointing: PointingState,
}

/// The states of the nodes of a world, by their numbers.
#[derive(Drop)]
pub(crate) struct NodeLists {
    pub fields: Items<Fields>,
    pub sensors: Items<TimeState>,
    pub pointing: Items<PointingSlot>,
}

/// Appends the pointing state of a node.
fn push_slot(
    alloc: Global,
    slots: &mut Items<PointingSlot>,
    state: PointingState,
) -> Result<(), AllocError>
    ensures { OnOk result (slots.new ≡ slots.old ++ state ∷ []) }
{
    slots.push(PointingSlot::new(alloc, state)?)
}

impl NodeLists {
    ghost use Rattle.std.specs.Prelude.{◌≡◌, ◌++◌, [], ◌∷◌, OnOk};

    fn new(alloc: Global) -> NodeLists
        ensures { result ≡ record { fields = []; sensors = []; pointing = [] } }
    {
        NodeLists {
            fields: Items::new(alloc),
            sensors: Items::new(alloc),
            pointing: Items::new(alloc),
        }
    }

    /// Appends a node.
    fn push(&mut self, alloc: Global, node: NodeState) -> Result<(), AllocError>
        ensures { OnOk result (self.new ≡ record {
          fields = self.old.fields ++ node.fields ∷ [];
          sensors = self.old.sensors ++ node.time ∷ [];
          pointing = self.old.pointing ++ node.pointing ∷ [];
        }) }
    {
        let NodeState {
            fields,
            time,
            pointing,
        } = node;
        if let Err(refused) = self.sensors.push(time) {
            drop(fields);
            return Err(refused);
        }
        if let Err(refused) = push_slot(alloc, &mut self.pointing, pointing) {
            drop(fields);
            return Err(refused);
        }
        self.fields.push(fields)
    }
}

/// Makes a node of the values of its fields and the part after them.
fn node_with(values: Items<Option<Value>>, beside: Beside) -> NodeState
    ensures { result ≡ node_of (values, beside) }
{
    NodeState {
        fields: Fields {
            values,
            position: beside.position,
        },
        time: beside.time,
        pointing: beside.pointing,
    }
}

/// Reads the state of a node of this type with these fields, in a snapshot of this version. Returns
/// it with the rest of the bytes.
#[tactic(auto, unfolding(crate::specs::Nodes::state_codec))]
fn state_of<'a>(
    alloc: Global,
    version: Version,
    kept: &[KeptField],
    node_type: NodeType,
    bytes: &'a [u8],
) -> Result<(NodeState, &'a [u8]), PartFault>
    ensures { ReadsPart (λ x. (x.0, x.1.now)) result
        ((state_codec version kept.now node_type).read bytes.now) }
{
    let (values, rest) = kept_fields_of(alloc, kept, bytes)?;
    let Some((beside, rest)) = beside_of(version, node_type, rest) else {
        drop(values);
        return Err(PartFault::NotCanonical);
    };
    Ok((node_with(values, beside), rest))
}

/// Reads the state of the node of that number. Returns it with the rest of the bytes.
fn node_of<'a>(
    alloc: Global,
    version: Version,
    kept: &mut Vec<KeptField>,
    scene: &Scene,
    node: u32,
    bytes: &'a [u8],
) -> Result<(NodeState, &'a [u8]), PartFault>
    requires { node < length scene.now.nodes }
    ensures { ReadsPart (λ x. (x.0, x.1.now)) result
        ((node_codec version (shape_in scene.now node)).read bytes.now) }
{
    list_kept(scene, node, kept)?;
    state_of(alloc, version, kept, scene.node_type(node), bytes)
}

/// Reads the states of the nodes of the scene. Returns them with the rest of the bytes.
#[tactic(auto, unfolding(crate::specs::Nodes::lists_codec))]
fn lists_of<'a>(
    alloc: Global,
    version: Version,
    scene: &Scene,
    bytes: &'a [u8],
) -> Result<(NodeLists, &'a [u8]), PartFault>
    ensures { ReadsPart (λ x. (x.0, x.1.now)) result
        ((lists_codec version (shapes_of scene.now)).read bytes.now) }
{
    let count = scene.count()?;
    let mut lists = NodeLists::new(alloc);
    let mut kept = Vec::new(alloc);
    let mut rest = bytes;
    for node in 0..count {
        let (state, after) = match node_of(alloc, version, &mut kept, scene, node, rest) {
            Ok(read) => read,
            Err(fault) => {
                drop(lists);
                return Err(fault);
            }
        };
        let Ok(()) = lists.push(alloc, state) else {
            drop(lists);
            return Err(PartFault::Memory);
        };
        rest = after;
    }
    Ok((lists, rest))
}

/// Checks that the drags at these nodes lead to their sensors. Returns `NotCanonical` if one
/// doesn't, and `Memory` if there are 2^32 nodes or more.
fn check_drags(scene: &Scene, pointing: &[PointingSlot]) -> Result<(), PartFault>
    ensures ok { OnOk result (all_lead scene.now 0 pointing.now ≡ true) }
    ensures err { IfErr result (λ fault. fault ≡ NotCanonical
        → all_lead scene.now 0 pointing.now ≡ false) }
{
    let Ok(count) = u32::try_from(pointing.len()) else {
        return Err(PartFault::Memory);
    };
    if all_lead(scene, count, pointing) {
        Ok(())
    } else {
        Err(PartFault::NotCanonical)
    }
}

/// Reads the states of the nodes of the scene and checks that the drags lead to their sensors.
/// Returns the states with the rest of the bytes.
#[tactic(auto, unfolding(crate::specs::Nodes::nodes_codec))]
pub(crate) fn nodes_of<'a>(
    alloc: Global,
    version: Version,
    scene: &Scene,
    bytes: &'a [u8],
) -> Result<(NodeLists, &'a [u8]), PartFault>
    ensures { ReadsPart (λ x. (x.0, x.1.now)) result
        ((nodes_codec version scene.now).read bytes.now) }
{
    let (lists, rest) = lists_of(alloc, version, scene, bytes)?;
    if let Err(fault) = check_drags(scene, lists.pointing.as_slice()) {
        drop(lists);
        return Err(fault);
    }
    Ok((lists, rest))
}

/// Appends the state of a node of this type, for a snapshot of this version. On `AllocError`, `out`
/// may hold a part of it.
#[tactic(auto, unfolding(crate::specs::Nodes::state_codec))]
fn push_node(
    version: Version,
    node_type: NodeType,
    fields: &Fields,
    time: TimeState,
    pointing: PointingState,
    out: &mut Vec<u8>,
) -> Result<(), AllocError>
    ensures ok { (kept : List Kept)
        → OnOk result (out.new.items
        ≡ out.old.items
        ++ (state_codec version kept node_type).write
        (record { fields = fields.now; time = time; pointing = pointing })) }
    ensures kept { Extends out.old.items out.new.items }
{
    push_kept_fields(fields.values.as_slice(), out)?;
    let beside = Beside {
        time,
        pointing,
        position: fields.position,
    };
    push_beside(version, node_type, &beside, out)
}

/// Returns the number of the scene's nodes for which the world has the whole state.
fn shared_count(scene: &Scene, world: &WorldData) -> Result<u32, AllocError>
    ensures { IfOk result (λ count. count
        ≡ min (length scene.now.nodes)
        (min (length world.now.fields)
        (min (length world.now.sensors) (length world.now.pointing)))) }
{
    let count = scene.count()? as usize;
    let sensors = world.sensors.len().min(world.pointing.len());
    let lists = world.fields.as_slice().len().min(sensors);
    Ok(count.min(lists) as u32)
}

/// Appends the states of the scene's nodes. On `AllocError`, `out` may hold a part of them.
#[tactic(auto, unfolding(crate::specs::Nodes::nodes_codec, crate::specs::Nodes::lists_codec))]
pub(crate) fn push_nodes(
    version: Version,
    scene: &Scene,
    world: &WorldData,
    out: &mut Vec<u8>,
) -> Result<(), AllocError>
    ensures ok { OnOk result (out.new.items
        ≡ out.old.items ++ (nodes_codec version scene.now).write (lists_in world.now)) }
    ensures kept { Extends out.old.items out.new.items }
{
    let count = shared_count(scene, world)?;
    let fields = world.fields.as_slice();
    let sensors = world.sensors.as_slice();
    let pointing = world.pointing.as_slice();
    for node in 0..count {
        let at = node as usize;
        push_node(
            version,
            scene.node_type(node),
            &fields[at],
            sensors[at],
            pointing[at].state(),
            out,
        )?;
    }
    Ok(())
}
