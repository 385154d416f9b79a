//! The type and the access of a field, as numbers.

ghost use Rattle.std.specs.Prelude.{◌≡◌};
ghost use Rattle.embed_scene.specs.Fields as spec;

use scene_core::Scene;
use x3d_values::{Access, FieldType};

/// The type of a field's values, and how the field may be used.
#[derive(Clone, Copy)]
#[repr(C)]
pub struct FieldAs {
    pub value_type: u8,
    pub access: u8,
}

/// Returns the number of a type.
pub fn type_number(field_type: FieldType) -> u8
    ensures { result ≡ spec.type_number field_type }
{
    match field_type {
        FieldType::SFBool => 0,
        FieldType::SFInt32 => 1,
        FieldType::SFFloat => 2,
        FieldType::SFTime => 3,
        FieldType::SFString => 4,
        FieldType::SFVec2f => 5,
        FieldType::SFVec3f => 6,
        FieldType::SFColor => 7,
        FieldType::SFNode => 8,
        FieldType::MFBool => 9,
        FieldType::MFInt32 => 10,
        FieldType::MFFloat => 11,
        FieldType::MFTime => 12,
        FieldType::MFString => 13,
        FieldType::MFVec2f => 14,
        FieldType::MFVec3f => 15,
        FieldType::MFColor => 16,
        FieldType::MFNode => 17,
        FieldType::SFRotation => 18,
    }
}

/// Returns the number of an access.
fn access_number(access: Access) -> u8
    ensures { result ≡ spec.access_number access }
{
    match access {
        Access::InputOnly => 0,
        Access::OutputOnly => 1,
        Access::InputOutput => 2,
        Access::InitializeOnly => 3,
    }
}

/// Returns the type and the access of a node's field. `None` if there is no such field.
pub fn field_at(scene: &Scene, node: u32, field: u16) -> Option<FieldAs>
    ensures { result ≡ spec.field_at scene.now node field }
{
    let Some(row) = scene.row(node, field) else {
        return None;
    };
    Some(FieldAs {
        value_type: type_number(row.field_type),
        access: access_number(row.access),
    })
}
