//! Laws about documents and their flat forms.
//!
//! | Modules | Law about |
//! |---|---|
//! | `flat_fields` | what a document says without its walk: braces, names, fields, routes |
//! | `prototypes` | documents with prototypes: names don't matter, instances are their bodies |
//! | `instances` | instances with fields, and bodies of several nodes |
//! | `plain_laws`, `plain_fields`, `plain_faults`, `written` | documents without prototypes |
//! | `spelled` | the flat forms of texts |
#![tactic(auto)]

mod flat_fields;
mod instances;
mod plain_faults;
mod plain_fields;
mod plain_laws;
mod prototypes;
mod spelled;
mod written;

pub use flat_fields::nodes_tell_the_rest;
pub use instances::{
    defaults_may_be_given, instances_are_all_nodes_of_their_bodies,
    instances_with_fields_are_their_bodies,
};
pub use plain_faults::{plain_documents_fail, sound_documents_are_flat};
pub use plain_fields::{fields_are_read, shapes_stay};
pub use plain_laws::{
    declarations_put_nothing_in, documents_are_read_plainly, flats_are_ordered,
    lines_are_for_faults, nodes_close, routes_are_read, uses_are_named,
};
pub use prototypes::{
    def_names_dont_matter, instances_are_their_bodies, names_of_prototypes_dont_matter,
    plain_documents_are_themselves, untaken_plain_values_dont_matter, untaken_values_dont_matter,
};
pub use spelled::{flats_are_short, spelled_flats_are_named};
pub use written::{
    flats_are_limited, flats_are_written, headers_stay, helpers_are_of_instances, names_are_apart,
};
