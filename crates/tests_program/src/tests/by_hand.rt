//! Documents that no text expands to: with more routes than a scene may have, or more fields of a
//! node.

use super::{Row, all_hold};
use classic_lex::Version;
use classic_tree::{Declaration, Given};
use proto_flat::{Flat, FlatEnd, FlatNode, FlatRoute, Header};
use route_core::{RouteFault, RouteFaultKind, Routes};
use scene_core::{Scene, SceneFault, SceneFaultKind};
use std::alloc::{AllocError, Global};
use x3d_lists::{Items, Text};
use x3d_values::{Access, FieldType, NodeType};

/// How many nodes a document of routes has. From each of them to 256 nodes there are 65,792 routes.
const NODES: u32 = 257;

fn without_nodes(alloc: Global) -> Flat {
    Flat {
        header: Header {
            version: Version::V3_0,
            profile: None,
            components: Items::new(alloc),
            metas: Items::new(alloc),
        },
        nodes: Items::new(alloc),
        roots: Items::new(alloc),
        helpers: Items::new(alloc),
        routes: Items::new(alloc),
    }
}

fn node(alloc: Global, node_type: NodeType) -> FlatNode {
    FlatNode {
        line: 1,
        name: None,
        node_type,
        fields: Items::new(alloc),
        interface: Items::new(alloc),
    }
}

fn push_root(flat: &mut Flat, node: FlatNode) -> Result<(), AllocError> {
    let Ok(number) = u32::try_from(flat.nodes.len()) else {
        drop(node);
        return Err(AllocError);
    };
    flat.nodes.push(node)?;
    flat.roots.push(number)
}

fn end(alloc: Global, node: u32, name: &str) -> Result<FlatEnd, AllocError> {
    Ok(FlatEnd::At(node, Text::from_str(alloc, name)?))
}

/// Appends the route of this number.
fn push_route(alloc: Global, flat: &mut Flat, number: u32) -> Result<(), AllocError> {
    let source = end(alloc, number / 256, "inputTrue")?;
    let Ok(target) = end(alloc, number % 256, "set_boolean") else {
        drop(source);
        return Err(AllocError);
    };
    flat.routes.push(FlatRoute {
        line: 1,
        source,
        target,
    })
}

fn push_routes(alloc: Global, flat: &mut Flat, count: u32) -> Result<(), AllocError> {
    for number in 0..count {
        push_route(alloc, flat, number)?;
    }
    Ok(())
}

fn push_filters(alloc: Global, flat: &mut Flat) -> Result<(), AllocError> {
    for _number in 0..NODES {
        push_root(flat, node(alloc, NodeType::BooleanFilter))?;
    }
    Ok(())
}

/// Returns how many routes the document has.
fn count_of(alloc: Global, flat: &Flat) -> Result<Result<usize, RouteFault>, AllocError> {
    let Ok(scene) = Scene::build(alloc, flat) else {
        return Err(AllocError);
    };
    let found = Routes::resolve(alloc, flat, &scene);
    drop(scene);
    Ok(found.map(|routes| routes.len()))
}

/// How many routes are written, how many of them a second time, and how many routes there then are.
struct Joined(u32, u32, Result<usize, RouteFault>);

impl Row for Joined {
    fn holds(&self, alloc: Global) -> Result<bool, AllocError> {
        let mut flat = without_nodes(alloc);
        push_filters(alloc, &mut flat)?;
        push_routes(alloc, &mut flat, self.0)?;
        push_routes(alloc, &mut flat, self.1)?;
        Ok(count_of(alloc, &flat)? == self.2)
    }
}

static JOINED: [Joined; 3] = [
    Joined(65_536, 0, Ok(65_536)),
    Joined(65_536, 9, Ok(65_536)),
    Joined(
        65_537,
        0,
        Err(RouteFault {
            kind: RouteFaultKind::TooMany,
            line: 0,
        }),
    ),
];

#[test]
fn too_many_routes_are_refused(rt: HostRuntime) {
    all_hold(&rt, rt.alloc(), &JOINED);
}

fn push_declarations(alloc: Global, node: &mut FlatNode, count: u32) -> Result<(), AllocError> {
    for _number in 0..count {
        let name = Text::from_str(alloc, "a")?;
        node.interface.push(Declaration {
            line: 1,
            access: Access::InputOnly,
            field_type: FieldType::SFBool,
            name,
            given: Given::Nothing,
        })?;
    }
    Ok(())
}

/// A Script that declares this many fields, and why it is not a scene, if it isn't one.
struct Declared(u32, Option<SceneFault>);

impl Row for Declared {
    fn holds(&self, alloc: Global) -> Result<bool, AllocError> {
        let mut script = node(alloc, NodeType::Script);
        push_declarations(alloc, &mut script, self.0)?;
        let mut flat = without_nodes(alloc);
        push_root(&mut flat, script)?;
        Ok(Scene::build(alloc, &flat).err() == self.1)
    }
}

static DECLARED: [Declared; 2] = [
    Declared(65_532, None),
    Declared(
        65_533,
        Some(SceneFault {
            kind: SceneFaultKind::TooMany,
            line: 0,
        }),
    ),
];

#[test]
fn too_many_fields_are_refused(rt: HostRuntime) {
    all_hold(&rt, rt.alloc(), &DECLARED);
}
