//! Laws of what documents stand for, each the contract of a function that does nothing.

ghost use Rattle.laws_documents.specs.InPlace.{InstancesAreTheirBodies};
ghost use Rattle.laws_documents.specs.Plain.{PlainDocumentsAreThemselves};
ghost use Rattle.laws_documents.specs.Renamed.{NamesOfPrototypesDontMatter};
ghost use Rattle.laws_documents.specs.RenamedDefs.{DefNamesDontMatter};
ghost use Rattle.laws_documents.specs.Untaken.{UntakenPlainValuesDontMatter, UntakenValuesDontMatter};

/// A document stands for the same with other values that no IS takes, if these declare the same.
pub fn untaken_values_dont_matter()
    ensures { UntakenValuesDontMatter }
{}

/// Documents stand for the same if they differ only in values that no IS takes, and that contain no
/// PROTO and no instance.
pub fn untaken_plain_values_dont_matter()
    ensures { UntakenPlainValuesDontMatter }
{}

/// A document stands for the same with other names of prototypes.
pub fn names_of_prototypes_dont_matter()
    ensures { NamesOfPrototypesDontMatter }
{}

/// A document with other DEF names, in its own scope and in that of each body, stands for the same,
/// but for the names of nodes.
pub fn def_names_dont_matter()
    ensures { DefNamesDontMatter }
{}

/// A document without PROTO is read plainly: each pair of braces is a node.
pub fn plain_documents_are_themselves()
    ensures { PlainDocumentsAreThemselves }
{}

/// An instance is its prototype's body, written in its place. This holds for a prototype without
/// interface whose body is one node, and for instances anywhere in a text without other prototypes,
/// USE and ROUTE.
pub fn instances_are_their_bodies()
    ensures { InstancesAreTheirBodies }
{}
