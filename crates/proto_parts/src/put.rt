//! The nodes that were added.

ghost use Rattle.std.specs.Prelude.{◌≡◌, ◌++◌, ◌∷◌, [], length, IfOk, OnOk};
ghost use Rattle.proto_meaning.specs.Flat.{renamed};
ghost use Rattle.proto_parts.specs.Put.{flat_of, nodes_of, shown};

use classic_tree::Declaration;
use proto_flat::{FlatField, FlatNode};
use std::alloc::{AllocError, Global};
use x3d_lists::{Duplicate, Items, Text};
use x3d_values::NodeType;

/// A node that was added. Its name is borrowed from the text, and is copied when all nodes are
/// there.
#[derive(Drop)]
pub struct PlacedNode<'a> {
    pub line: u32,
    pub name: &'a Option<Text>,
    pub node_type: NodeType,
    pub fields: Items<FlatField>,
    /// The declarations of a Script, without values.
    pub interface: Items<Declaration<u32>>,
}

/// What was added so far.
#[derive(Drop)]
pub struct PutIn<'a> {
    /// In the order in which they close.
    pub nodes: Vec<PlacedNode<'a>>,
    /// The nodes of bodies after the first of each.
    pub helpers: Items<u32>,
}

/// Returns the node with a copy of its name.
fn named(alloc: Global, node: PlacedNode<'_>) -> Result<FlatNode, AllocError>
    ensures { IfOk result (λ n. n ≡ flat_of node.entry) }
{
    let name = node.name.duplicate(alloc)?;
    Ok(FlatNode {
        line: node.line,
        name,
        node_type: node.node_type,
        fields: node.fields,
        interface: node.interface,
    })
}

impl<'a> PutIn<'a> {
    /// Returns an empty list of nodes and of helpers.
    pub fn new(alloc: Global) -> PutIn<'a>
        ensures { shown result ≡ record { nodes = []; helpers = [] } }
    {
        PutIn {
            nodes: Vec::new(alloc),
            helpers: Items::new(alloc),
        }
    }

    /// Adds a node whose braces close, and returns its number, which is the next one. AllocError if
    /// memory runs out, or if the number doesn't fit into 32 bits.
    pub fn close(&mut self, node: PlacedNode<'a>) -> Result<u32, AllocError>
        ensures number { IfOk result (λ n. n ≡ length (shown self.old).nodes) }
        ensures node { OnOk result (shown self.new ≡ record (shown self.old) {
          nodes = (shown self.old).nodes ++ flat_of node.entry ∷ [];
        }) }
    {
        let Ok(number) = u32::try_from(self.nodes.len()) else {
            drop(node);
            return Err(AllocError);
        };
        self.nodes.push(node)?;
        Ok(number)
    }

    /// Gives the name of an instance, if it has one, to the node of that number, which stands for
    /// it. Does nothing if there is no such node.
    pub fn rename(&mut self, number: u32, name: &'a Option<Text>)
        ensures { shown self.new ≡ record (shown self.old) {
          nodes = renamed name.now number (shown self.old).nodes;
        } }
    {
        if name.is_none() {
            return;
        }
        let number = number as usize;
        if number >= self.nodes.len() {
            return;
        }
        self.nodes[number].name = name;
    }

    /// Records that the node of that number is a helper. AllocError if memory runs out.
    pub fn help(&mut self, number: u32) -> Result<(), AllocError>
        ensures { OnOk result (shown self.new ≡ record (shown self.old) {
          helpers = (shown self.old).helpers ++ number ∷ [];
        }) }
    {
        self.helpers.push(number)?;
        Ok(())
    }
}

/// Returns the nodes of the flat document, with copies of their names. AllocError if memory runs
/// out.
pub fn flat_nodes(alloc: Global, nodes: Vec<PlacedNode<'_>>) -> Result<Items<FlatNode>, AllocError>
    ensures { IfOk result (λ flat. flat ≡ nodes_of nodes.entry.items) }
{
    let mut flat = Items::new(alloc);
    for node in nodes {
        flat.push(named(alloc, node)?)?;
    }
    Ok(flat)
}
