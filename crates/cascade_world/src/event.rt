//! An event at a node.

use scene_core::End;
use x3d_values::{NodeType, Value};

/// An event at a field of a node of this type.
#[derive(Clone, Copy)]
pub(crate) struct NodeEvent<'a> {
    pub node_type: NodeType,
    pub target: End,
    pub value: &'a Value,
}
