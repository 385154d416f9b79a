//! The ISs of a body, by what its braces stand for.

ghost use Rattle.std.specs.Prelude.{◌≡◌, map, IfOk};
ghost use Rattle.proto_parts.specs.Joined.{ends_in, owned};
ghost use Rattle.proto_parts.specs.Joins.{braces_of, ends_behind, joins_ends, stands_of};

use crate::ends::{End, Ends, one};
use crate::interface::Interface;
use crate::joined::JoinedEnds;
use crate::kept::Branches;
use std::alloc::{AllocError, Global};
use std::rc::Rc;
use x3d_lists::Text;

/// The interface of an instance, and the ends of its fields.
#[derive(Drop)]
pub struct InstanceEnds<'t, 'a> {
    pub interface: &'t Interface<'a>,
    pub joined: JoinedEnds<'a>,
}

/// What a node or an instance stands for: the number of a node, and for an instance its ends.
#[derive(Drop)]
pub struct Stands<'t, 'a> {
    pub node: u32,
    pub instance: Option<Rc<InstanceEnds<'t, 'a>>>,
}

/// Braces of a scope: the name that DEF gives them, and what they stand for once they close.
#[derive(Drop)]
pub struct Braces<'t, 'a> {
    pub name: &'a Option<Text>,
    pub stands: Option<Stands<'t, 'a>>,
}

/// An IS: the field of the interface, and the field that the IS joins to it. The second is a field
/// of the braces before which `at` others of the scope were opened.
#[derive(Clone, Copy)]
pub struct Join<'a> {
    pub outer: &'a Text,
    pub at: usize,
    pub field: &'a Text,
}

/// Returns the ends of a field, or None if nothing is joined to it. AllocError if memory runs out.
pub fn field_ends<'t, 'a>(
    alloc: Global,
    stands: &Stands<'t, 'a>,
    field: &'a Text,
) -> Result<Option<Rc<Ends<'a>>>, AllocError>
    ensures { IfOk result (λ ends. owned ends ≡ (stands_of stands.now).ends field.now) }
{
    let Some(instance) = &stands.instance else {
        let end = one(alloc, End::At(stands.node, field))?;
        return Ok(Some(end));
    };
    let Some(ends) = instance.joined.get(field.as_str()) else {
        return Ok(None);
    };
    Ok(Some(ends.clone()?))
}

/// Returns the ends that an IS joins, by what the braces of the scope stand for.
fn join_ends<'t, 'a>(
    alloc: Global,
    braces: &[Braces<'t, 'a>],
    join: Join<'a>,
) -> Result<Option<Rc<Ends<'a>>>, AllocError>
    ensures { IfOk result (λ ends. owned ends
        ≡ ends_behind (map braces_of braces.now) join.entry) }
{
    let Some(opened) = braces.get(join.at) else {
        return Ok(None);
    };
    let Some(stands) = &opened.stands else {
        return Ok(None);
    };
    field_ends(alloc, stands, join.field)
}

/// Returns the ends of the fields of an interface; all braces of the body are closed. AllocError if
/// memory runs out.
pub fn joined_ends<'t, 'a>(
    alloc: Global,
    kept: &mut Branches<'a>,
    braces: &[Braces<'t, 'a>],
    joins: &[Join<'a>],
) -> Result<JoinedEnds<'a>, AllocError>
    ensures { IfOk result (λ joined. ends_in joined
        ≡ joins_ends joins.now (map braces_of braces.now)) }
{
    let mut joined = JoinedEnds::new(alloc);
    for join in joins {
        let ends = join_ends(alloc, braces, *join)?;
        joined.join(alloc, kept, join.outer, ends)?;
    }
    Ok(joined)
}
