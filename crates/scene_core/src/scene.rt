//! A scene and its queries.

ghost use Rattle.std.specs.Prelude.{◌≡◌, ◌+◌, ◌<◌, ◌≤◌, Some, IfErr, IfOk, length, slice_get, ◌++◌, OnOk, OnErr};
ghost use Rattle.std.specs.Option.{option_copied, option_map};
ghost use Rattle.x3d_lists.specs.Answers.{Gives};
ghost use Rattle.scene_core.specs.Building.{scene_of};
ghost use Rattle.scene_core.specs.Faults.{memory};
ghost use Rattle.scene_core.specs.Scene.{types_of, rows_at, field_name, declared_at, number_of, value_at, children_of, state_of, label_of, name_at};
ghost use Rattle.scene_core.specs.Shape.{row_entry};
ghost use Rattle.x3d_values.specs.declared.node_type.NodeType.{NodeType};
ghost use Rattle.x3d_values.specs.Tables.{row_named, rows};

use crate::at::flag_at;
use crate::build::{checked_nodes, frame_of};
use crate::fault::{SceneFault, SceneFaultKind, fault};
use crate::labels::push_label;
use crate::numbering::numbered;
use crate::places::own_children;
use crate::row::{DeclaredField, NodeField, count_by, named_by, numbered_fields, row_by};
use crate::sensor_lists::{SensorLists, sensor_lists};
use crate::state::state_of;
use proto_flat::{Flat, Header};
use std::alloc::{AllocError, Global};
use std::marker::Model;
use x3d_lists::{Items, Text};
use x3d_values::{FieldRow, Fields, NodeType, Value};

/// A field of a node of a scene.
#[derive(Clone, Copy, PartialEq, Eq, Hash)]
pub struct End {
    pub node: u32,
    /// The field's number among the fields of the node.
    pub field: u16,
}

/// A route from an output to an input.
#[derive(Clone, Copy, PartialEq, Eq, Hash)]
pub struct Route {
    pub source: End,
    pub target: End,
}

/// A node before any event.
#[derive(Drop)]
pub struct SceneNode {
    pub node_type: NodeType,
    /// The node's DEF name, if the name is its label: no other node has the name and it isn't an
    /// `N` followed by digits, or it is `N` and the node's number.
    pub label: Option<Text>,
    /// The fields that a Script declares, in the order of the text. They follow those of its type.
    pub declared: Items<DeclaredField>,
    /// The values of inputOutput and initializeOnly fields, by field number. Other fields and
    /// rotations have no value. Nodes in values are node numbers of the scene.
    pub values: Items<Option<Value>>,
}

/// The nodes of a scene by number, its roots, and what its text needs.
#[derive(Drop)]
pub struct Scene {
    header: Header,
    nodes: Items<SceneNode>,
    roots: Items<u32>,
    helpers: Items<u32>,
    /// Which nodes of the document the scene has, and the number of each.
    opened: Items<bool>,
    numbers: Items<u32>,
    /// The pointing sensors in the list of the roots and in each list `children`.
    sensors: SensorLists,
}

impl Model for Scene {
    ghost use Rattle.scene_core.specs.Scene.{SceneView};
    ghost use Rattle.std.specs.Prelude.{◌≡◌};
    ghost use Rattle.scene_core.specs.Building.{IsLimited};
    ghost use Rattle.scene_core.specs.SensorLists.{sensor_lists};

    ghost Value = { SceneView };

    ghost view = { λ s. record {
      header = s.header;
      nodes = s.nodes;
      roots = s.roots;
      helpers = s.helpers;
      opened = s.opened;
      numbers = s.numbers;
    } };

    ghost invariant = { λ s. IsLimited s.nodes s.roots
        × (s.sensors ≡ sensor_lists s.nodes s.roots) };
}

impl Scene {
    ghost use Rattle.std.specs.Prelude.{◌≡◌, ◌+◌, ◌<◌, ◌≤◌, false, Some, IfErr, IfOk, length, slice_get, ◌++◌, OnOk, OnErr};
    ghost use Rattle.std.specs.Option.{option_copied, option_map};
    ghost use Rattle.x3d_lists.specs.Answers.{Gives};
    ghost use Rattle.scene_core.specs.Building.{scene_of};
    ghost use Rattle.scene_core.specs.Faults.{memory};
    ghost use Rattle.scene_core.specs.Scene.{type_at, types_of, rows_at, declared_at, number_of, value_at, children_of, state_of, label_of, name_at};
    ghost use Rattle.scene_core.specs.Places.{any_crowded};
    ghost use Rattle.scene_core.specs.SensorLists.{sensors_below};
    ghost use Rattle.scene_core.specs.Shape.{row_entry};
    ghost use Rattle.scene_core.specs.Wide.{any_wide};
    ghost use Rattle.x3d_values.specs.Ranges.{max_fields};
    ghost use Rattle.x3d_values.specs.declared.node_type.NodeType.{NodeType};
    ghost use Rattle.x3d_values.specs.Tables.{row_named, rows};

    /// Returns the number of nodes.
    pub fn node_count(&self) -> usize
        ensures { result ≡ length self.now.nodes }
    {
        self.nodes.len()
    }

    /// Returns the type of a node, which must exist.
    pub fn node_type(&self, node: u32) -> NodeType
        requires { node < length self.now.nodes }
        ensures { slice_get (types_of self.now) node ≡ Some result }
    {
        self.nodes.as_slice()[node as usize].node_type
    }

    /// Returns the type of a node, if the node exists.
    pub fn type_at(&self, node: u32) -> Option<NodeType>
        ensures { result ≡ type_at self.now node }
    {
        if (node as usize) < self.node_count() {
            Some(self.node_type(node))
        } else {
            None
        }
    }

    /// Returns the number of nodes in the 32 bits of a node number. Fails if there are 2^32 nodes
    /// or more, which no memory holds.
    pub fn count(&self) -> Result<u32, AllocError>
        ensures ok { IfOk result (λ count. count ≡ length self.now.nodes) }
        ensures many { IfErr result (λ _. 4294967296 ≤ length self.now.nodes) }
    {
        let Ok(count) = u32::try_from(self.node_count()) else {
            return Err(AllocError);
        };
        Ok(count)
    }

    /// Returns the number of fields of a node: those of its type, and those that a Script declares.
    /// Returns 0 if the node doesn't exist.
    #[tactic(auto, using(crate::proofs::ShapeLemmas::shapes))]
    pub fn field_count(&self, node: u32) -> u32
        ensures is { result ≡ length (rows_at self.now node) }
        ensures few { result ≤ max_fields }
    {
        match self.nodes.get(node as usize) {
            Some(node) => count_by(node.node_type, node.declared.as_slice()),
            None => 0,
        }
    }

    /// Returns the field with number `number` of a node. Returns `None` if there is no such field.
    #[tactic(auto, using(crate::proofs::ShapeLemmas::shapes))]
    pub fn row(&self, node: u32, number: u16) -> Option<NodeField<'_>>
        ensures { option_map row_entry result ≡ slice_get (rows_at self.now node) number }
    {
        let Some(node) = self.nodes.get(node as usize) else {
            return None;
        };
        row_by(node.node_type, node.declared.as_slice(), number)
    }

    /// Returns the plain name of a field: from the table of fields, or as a Script declares it.
    /// Returns an empty name if there is no such field.
    pub fn field_name(&self, end: End) -> &str
        ensures { result.now ≡ field_name self.now end }
    {
        match self.row(end.node, end.field) {
            Some(row) => row.name,
            None => "",
        }
    }

    /// Returns the first field with the name `name` of a node. Returns `None` if there is no such
    /// field.
    #[tactic(auto, using(crate::proofs::ShapeLemmas::shapes))]
    pub fn field_named(&self, node: u32, name: &str) -> Option<FieldRow>
        ensures { result ≡ row_named 0 name.now (rows_at self.now node) }
    {
        let Some(node) = self.nodes.get(node as usize) else {
            return None;
        };
        named_by(node.node_type, node.declared.as_slice(), name)
    }

    /// Returns the fields that a node declares, in the order of the text. They follow the fields of
    /// its type. Returns none if the node doesn't exist.
    #[tactic(auto, using(crate::proofs::ShapeLemmas::shapes))]
    pub fn declared(&self, node: u32) -> &[DeclaredField]
        ensures are { result.now ≡ declared_at self.now node }
        ensures few { (t : NodeType) → slice_get (types_of self.now) node ≡ Some t
            → length (rows t) + length (declared_at self.now node) ≤ max_fields }
    {
        match self.nodes.get(node as usize) {
            Some(node) => numbered_fields(node.node_type, node.declared.as_slice()),
            None => &[],
        }
    }

    /// Returns the opening value of a field. Returns `None` if the field holds no value.
    pub fn value(&self, node: u32, field: u16) -> Option<&Value>
        ensures { option_copied result ≡ value_at self.now node field }
    {
        let Some(node) = self.nodes.get(node as usize) else {
            return None;
        };
        match node.values.get(field as usize) {
            Some(Some(value)) => Some(value),
            _ => None,
        }
    }

    /// Returns the node numbers of the roots.
    pub fn roots(&self) -> &[u32]
        ensures { result.now ≡ self.now.roots }
    {
        self.roots.as_slice()
    }

    /// Returns the nodes of prototype bodies after the first of each body.
    pub fn helpers(&self) -> &[u32]
        ensures { result.now ≡ self.now.helpers }
    {
        self.helpers.as_slice()
    }

    /// Returns the header of the text that the scene was read from.
    pub fn header(&self) -> &Header
        ensures { result.now ≡ self.now.header }
    {
        &self.header
    }

    /// Returns the number in the scene of a node of the expanded document. Returns `None` if the
    /// scene hasn't the node.
    pub fn number(&self, node: u32) -> Option<u32>
        ensures { result ≡ number_of self.now node }
    {
        if !flag_at(self.opened.as_slice(), node) {
            return None;
        }
        self.numbers.get(node as usize).copied()
    }

    /// Appends the label of a node, which no other node has: its DEF name if that is its label, or
    /// else `N` and its number. Appends nothing if memory is refused.
    #[tactic(auto, unfolding(crate::specs::Scene::label_of))]
    pub fn label(&self, node: u32, out: &mut Vec<u8>) -> Result<(), AllocError>
        ensures ok { OnOk result (out.new.items ≡ out.old.items ++ label_of self.now node) }
        ensures err { OnErr result (out.new.items ≡ out.old.items) }
    {
        let len = out.len();
        let pushed = push_label(self.def_name(node), node, out);
        if pushed.is_err() {
            out.truncate(len);
        }
        pushed
    }

    /// Returns the DEF name of a node, if the name is its label.
    pub fn def_name(&self, node: u32) -> Option<&Text>
        ensures { option_copied result ≡ name_at self.now node }
    {
        let Some(node) = self.nodes.get(node as usize) else {
            return None;
        };
        node.label.as_ref()
    }

    /// Returns what each node keeps before any event, by node number. Fails if memory is refused.
    #[tactic(auto, unfolding(crate::specs::Scene::state_of))]
    pub fn state(&self, alloc: Global) -> Result<Vec<Fields>, AllocError>
        ensures { IfOk result (λ fields. fields.items ≡ state_of self.now) }
    {
        state_of(alloc, self.nodes.as_slice())
    }

    /// Returns the nodes in the list `children` of a node, or none if it has no such list.
    pub fn children(&self, node: u32) -> &[u32]
        ensures { result.now ≡ children_of self.now node }
    {
        match self.nodes.get(node as usize) {
            Some(node) => own_children(node),
            None => &[],
        }
    }

    /// Returns the pointing sensors in the list `children` of node `owner`, or in the list of the
    /// roots. The scene keeps them, so long lists aren't searched.
    pub fn sensors_below(&self, owner: Option<u32>) -> &[u32]
        ensures { result.now ≡ sensors_below self.now owner }
    {
        self.sensors.below(owner)
    }

    /// No list of a scene but a Switch's has more than 64 sensors, and no node has more fields than
    /// there are field numbers.
    pub fn keeps_limits(&self)
        ensures uncrowded { any_crowded self.now.nodes self.now.roots ≡ false }
        ensures numbered { any_wide self.now.nodes ≡ false }
    {
        let _nodes = self.nodes.as_slice();
    }

    /// Builds the scene of a document: numbers the nodes, and types and checks their values.
    ///
    /// Fails with the first fault, in the order that `SceneFaultKind` describes, or with `Memory`.
    #[tactic(auto, unfolding(crate::specs::Building::scene_of))]
    pub fn build(alloc: Global, flat: &Flat) -> Result<Scene, SceneFault>
        ensures { Gives memory (λ s. s) result (scene_of flat.now) }
    {
        let (roots, helpers) = (flat.roots.as_slice(), flat.helpers.as_slice());
        let numbering = numbered(alloc, flat.nodes.as_slice(), roots, helpers)?;
        let Ok(frame) = frame_of(alloc, flat, numbering.numbers.as_slice()) else {
            drop(numbering);
            return Err(fault(SceneFaultKind::Memory, 0));
        };
        match checked_nodes(alloc, flat, &numbering, frame.roots.as_slice()) {
            Ok(nodes) => {
                let roots = frame.roots.as_slice();
                let Ok(sensors) = sensor_lists(alloc, nodes.as_slice(), roots) else {
                    drop(numbering);
                    drop(frame);
                    drop(nodes);
                    return Err(fault(SceneFaultKind::Memory, 0));
                };
                Ok(Scene {
                    header: frame.header,
                    nodes,
                    roots: frame.roots,
                    helpers: frame.helpers,
                    opened: numbering.opened,
                    numbers: numbering.numbers,
                    sensors,
                })
            }
            Err(refused) => {
                drop(numbering);
                drop(frame);
                Err(refused)
            }
        }
    }
}
