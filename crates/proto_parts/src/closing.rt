//! What a node holds when its braces close.

ghost use Rattle.std.specs.Prelude.{◌≡◌, ◌++◌, [], IfOk};
ghost use Rattle.std.specs.List.{cons_option};
ghost use Rattle.proto_meaning.specs.Flat.{field};
ghost use Rattle.proto_parts.specs.Given as given;
ghost use Rattle.proto_parts.specs.Closing.{flat_field, flat_fields};
ghost use Rattle.proto_parts.specs.Inside.{declared_fields};

use crate::given::{Given, GivenField};
use crate::values::owned;
use classic_tree::{Declaration, Given as Gives, NodeText};
use proto_flat::FlatField;
use std::alloc::{AllocError, Global};
use x3d_lists::{Duplicate, Items};

/// Adds a field, if it has a value.
fn add_field(
    alloc: Global,
    fields: Items<FlatField>,
    field: GivenField,
) -> Result<Items<FlatField>, AllocError>
    ensures { IfOk result (λ fs. fs ≡ fields ++ cons_option (flat_field field) []) }
{
    let GivenField {
        line,
        number,
        value,
    } = field;
    let Some(value) = value else {
        return Ok(fields);
    };
    let value = owned(alloc, value)?;
    let Ok(number) = u16::try_from(number) else {
        return Err(AllocError);
    };
    let mut fields = fields;
    fields.push(FlatField {
        line,
        number,
        value,
    })?;
    Ok(fields)
}

/// Returns the fields that have a value. AllocError if memory runs out, or if a field's number
/// doesn't fit into 16 bits.
pub fn flat_fields(alloc: Global, values: Given<'_>) -> Result<Items<FlatField>, AllocError>
    ensures { IfOk result (λ fs. fs ≡ flat_fields (given.shown values.entry)) }
{
    let Given {
        fields: in_order,
        values: by_name,
    } = values;
    drop(by_name);
    let mut fields = Items::new(alloc);
    for pair in in_order {
        fields = add_field(alloc, fields, pair.1)?;
    }
    Ok(fields)
}

fn without_value(
    alloc: Global,
    declaration: &Declaration<NodeText>,
) -> Result<Declaration<u32>, AllocError>
    ensures { IfOk result (λ d. d ≡ field declaration.now) }
{
    Ok(Declaration {
        line: declaration.line,
        access: declaration.access,
        field_type: declaration.field_type,
        name: declaration.name.duplicate(alloc)?,
        given: Gives::Nothing,
    })
}

/// Returns the declarations of a Script, without values. AllocError if memory runs out.
pub fn declarations(
    alloc: Global,
    declared: &[&Declaration<NodeText>],
) -> Result<Items<Declaration<u32>>, AllocError>
    ensures { IfOk result (λ ds. ds ≡ declared_fields declared.now) }
{
    let mut made = Items::new(alloc);
    for declaration in declared {
        made.push(without_value(alloc, declaration)?)?;
    }
    Ok(made)
}
