//! Grouping nodes outside the table of node types.

ghost use Rattle.std.specs.Prelude.{◌≡◌, map};
ghost use Rattle.classic_part.specs.Groupings as spec;

use x3d_values::NodeType;

/// The field that holds the children of a grouping node.
#[derive(Clone, Copy)]
pub enum ChildrenField {
    /// `children`.
    Children,
    /// `children`, or `level` as in VRML 97.
    Levels,
    /// `skeleton`.
    Skeleton,
    /// `shape`.
    FaceShape,
    /// `rootNode`.
    RootNode,
    /// `layers`.
    Layers,
    /// No field: the children are in another file.
    Nowhere,
}

/// A grouping node outside the table of node types.
#[derive(Clone, Copy)]
pub struct Grouping {
    pub word: &'static str,
    /// The type of the node that it becomes.
    pub becomes: NodeType,
    pub children: ChildrenField,
}

macro_rules! group {
    ($word:literal, $becomes:ident, $children:ident) => {
        Grouping {
            word: $word,
            becomes: NodeType::$becomes,
            children: ChildrenField::$children,
        }
    };
}

static GROUPINGS: [Grouping; 26] = [
    group!("Anchor", Group, Children),
    group!("Billboard", Group, Children),
    group!("Collision", Group, Children),
    group!("LOD", Group, Levels),
    group!("StaticGroup", Group, Children),
    group!("ViewpointGroup", Group, Children),
    group!("PickableGroup", Group, Children),
    group!("ScreenGroup", Group, Children),
    group!("LayoutGroup", Group, Children),
    group!("LayoutLayer", Group, Children),
    group!("Layer", Group, Children),
    group!("LayerSet", Group, Layers),
    group!("Viewport", Group, Children),
    group!("CADLayer", Group, Children),
    group!("CADAssembly", Group, Children),
    group!("CADPart", Transform, Children),
    group!("CADFace", Group, FaceShape),
    group!("GeoLocation", Group, Children),
    group!("GeoTransform", Transform, Children),
    group!("GeoLOD", Group, RootNode),
    group!("EspduTransform", Transform, Children),
    group!("HAnimHumanoid", Transform, Skeleton),
    group!("HAnimJoint", Transform, Children),
    group!("HAnimSegment", Group, Children),
    group!("HAnimSite", Transform, Children),
    group!("Inline", Group, Nowhere),
];

/// Returns the grouping nodes outside the table of node types.
pub fn groupings() -> &'static [Grouping]
    ensures { map spec.entry result.now ≡ spec.table }
{
    &GROUPINGS
}

impl ChildrenField {
    /// Reports whether a field of that name holds the children.
    pub(crate) fn is_named(self, name: &str) -> bool
        ensures { result ≡ spec.holds_children self name.now }
    {
        match self {
            ChildrenField::Children => name == "children",
            ChildrenField::Levels => name == "children" || name == "level",
            ChildrenField::Skeleton => name == "skeleton",
            ChildrenField::FaceShape => name == "shape",
            ChildrenField::RootNode => name == "rootNode",
            ChildrenField::Layers => name == "layers",
            ChildrenField::Nowhere => false,
        }
    }
}
