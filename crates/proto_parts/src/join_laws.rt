//! A law of what ISs join.

ghost use Rattle.proto_parts.specs.JoinLaws.{JoinsGrow};

/// One more IS adds its ends to those of the field that it names, and to no other.
pub fn joins_grow()
    ensures { JoinsGrow }
{}
