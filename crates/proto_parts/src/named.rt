//! Fields of an interface by the names that ROUTEs give them.

ghost use Rattle.std.specs.Prelude.{◌≡◌, option_map};
ghost use Rattle.x3d_values.specs.Aliases.{changed_alias, set_alias};
ghost use Rattle.proto_meaning.specs.Names.{exposed_field, source_in, target_in};
ghost use Rattle.proto_meaning.specs.Names as meaning;
ghost use Rattle.proto_parts.specs.Routed.{routed};

use crate::fields::KnownField;
use crate::interface::Interface;
use x3d_lists::Text;

/// The field that a ROUTE names, and the field's own name.
#[derive(Clone, Copy)]
pub struct RouteField<'n> {
    pub name: &'n str,
    pub field: KnownField,
}

/// Returns the inputOutput field whose name comes before `_changed`.
fn changed_field<'n>(interface: &Interface<'_>, name: &'n str) -> Option<RouteField<'n>>
    ensures { option_map routed result
        ≡ changed_alias (exposed_field interface.now) name.now }
{
    let Some(own) = name.strip_suffix("_changed") else {
        return None;
    };
    let Some(field) = interface.exposed(own) else {
        return None;
    };
    Some(RouteField { name: own, field })
}

/// Returns the inputOutput field whose name comes after `set_`.
fn set_field<'n>(interface: &Interface<'_>, name: &'n str) -> Option<RouteField<'n>>
    ensures { option_map routed result ≡ set_alias (exposed_field interface.now) name.now }
{
    let Some(own) = name.strip_prefix("set_") else {
        return None;
    };
    let Some(field) = interface.exposed(own) else {
        return None;
    };
    Some(RouteField { name: own, field })
}

/// Returns the field of exactly that name.
fn own_field<'n>(interface: &Interface<'_>, name: &'n str) -> Option<RouteField<'n>>
    ensures { option_map routed result ≡ meaning.own_field interface.now name.now }
{
    let Some(field) = interface.known(name) else {
        return None;
    };
    Some(RouteField { name, field })
}

/// Returns the field that a source names: by its own name or, for an inputOutput field `f`, as
/// `f_changed`.
pub fn source_field<'n>(interface: &Interface<'_>, name: &'n Text) -> Option<RouteField<'n>>
    ensures { option_map routed result ≡ source_in interface.now name.now }
{
    match own_field(interface, name.as_str()) {
        Some(field) => Some(field),
        None => changed_field(interface, name.as_str()),
    }
}

/// Returns the field that a target names: by its own name or, for an inputOutput field `f`, as
/// `set_f`.
pub fn target_field<'n>(interface: &Interface<'_>, name: &'n Text) -> Option<RouteField<'n>>
    ensures { option_map routed result ≡ target_in interface.now name.now }
{
    match own_field(interface, name.as_str()) {
        Some(field) => Some(field),
        None => set_field(interface, name.as_str()),
    }
}
