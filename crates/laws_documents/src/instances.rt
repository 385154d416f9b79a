//! Laws about instances and the bodies of their prototypes, each the contract of a function that
//! does nothing.

ghost use Rattle.laws_documents.specs.GivenDefaults.{DefaultsMayBeGiven};
ghost use Rattle.laws_documents.specs.WithFields.{InstancesWithFieldsAreTheirBodies};
ghost use Rattle.laws_documents.specs.WithHelpers.{InstancesAreAllNodesOfTheirBodies};

/// An instance with fields is its prototype's body, written in its place, with each IS replaced by
/// what the instance gives or by the default. This holds for a prototype whose body is one node, if
/// these values hold no nodes.
pub fn instances_with_fields_are_their_bodies()
    ensures { InstancesWithFieldsAreTheirBodies }
{}

/// Does the same for a prototype whose body is several nodes: all of them replace an instance that
/// is a statement, and the helpers become roots.
pub fn instances_are_all_nodes_of_their_bodies()
    ensures { InstancesAreAllNodesOfTheirBodies }
{}

/// An instance that is given the default value of a field stands for the same as without that
/// field, in the documents of `instances_with_fields_are_their_bodies`.
pub fn defaults_may_be_given()
    ensures { DefaultsMayBeGiven }
{}
